// The rows of a table by their keys.

ghost use Rattle.std.specs.Prelude.{◌≡◌, ◌+◌, [], length, IfOk, OnOk};
ghost use Rattle.std.specs.List.{flat_map};
ghost use Rattle.gx_join_table.specs.KeyIndex.{rows_under, rows_at_place, IsAligned, IsPutUnder, IsPutUnderEach};

use crate::row_numbers::put_last;
use crate::steps::Steps;
use indexmap::IndexSet;
use std::alloc::{AllocError, Global};
use std::hash::Hash;
use std::sync::ledger::Ledger;

// Keys with the numbers of the rows that have them: the rows of a key stand at the place of the key.
#[derive(Drop)]
pub(crate) struct KeyIndex<K: Eq + Hash> {
    keys: IndexSet<K>,
    rows: Vec<Vec<usize>>,
}

impl<K: Eq + Hash + Drop> KeyIndex<K> {
    // No key.
    pub(crate) fn new(alloc: Global) -> KeyIndex<K>
        ensures keys { result.keys.keys ≡ [] }
        ensures rows { result.rows.items ≡ [] }
    {
        KeyIndex {
            keys: IndexSet::new(alloc),
            rows: Vec::new(alloc),
        }
    }

    // Puts a row, whose number is above those of the others, under each of its keys.
    pub(crate) fn insert_row<L: Ledger>(
        &mut self,
        alloc: Global,
        row: usize,
        keys: Vec<K>,
        steps: &mut Steps<L>,
    ) -> Result<(), AllocError>
        requires { IsAligned self.old.keys.keys self.old.rows.items }
        ensures aligned { OnOk result (IsAligned self.new.keys.keys self.new.rows.items) }
        ensures put { OnOk result (IsPutUnderEach K.eq keys.items row self.old.keys.keys self.old.rows.items self.new.keys.keys self.new.rows.items) }
        ensures counted { OnOk result (steps.new ≡ steps.old + length keys.items) }
    {
        let mut keys = keys;
        while let Some(key) = keys.pop() {
            self.insert(alloc, row, key, steps)?;
        }
        Ok(())
    }

    // The insertion of a row under a key, unless it is the last one there.
    fn insert<L: Ledger>(
        &mut self,
        alloc: Global,
        row: usize,
        key: K,
        steps: &mut Steps<L>,
    ) -> Result<(), AllocError>
        requires { IsAligned self.old.keys.keys self.old.rows.items }
        ensures aligned { OnOk result (IsAligned self.new.keys.keys self.new.rows.items) }
        ensures put { OnOk result (IsPutUnder K.eq key row self.old.keys.keys self.old.rows.items self.new.keys.keys self.new.rows.items) }
        ensures counted { steps.new ≡ steps.old + 1 }
    {
        steps.tick();
        let (place, added) = self.keys.insert_full(key)?;
        if added {
            self.rows.push(Vec::new(alloc))?;
        }
        put_last(&mut self.rows[place], row)?;
        Ok(())
    }

    // The look-up of the rows under a key.
    pub(crate) fn rows<L: Ledger>(&self, key: &K, steps: &mut Steps<L>) -> &[usize]
        ensures rows { result.now ≡ rows_under K.eq key.now self.now.keys.keys self.now.rows.items }
        ensures counted { steps.new ≡ steps.old + 1 }
    {
        steps.tick(); // the look-up
        match self.keys.get_index_of(key) {
            Some(place) => rows_at(self.rows.as_slice(), place),
            None => &[],
        }
    }

    // The rows under each of some keys, one after another.
    pub(crate) fn rows_of_each<L: Ledger>(
        &self,
        alloc: Global,
        keys: &[K],
        steps: &mut Steps<L>,
    ) -> Result<Vec<usize>, AllocError>
        ensures rows { IfOk result (λ found. found.items ≡ flat_map (λ key. rows_under K.eq key self.now.keys.keys self.now.rows.items) keys.now) }
        ensures counted { OnOk result (steps.new ≡ steps.old + length keys.now) }
    {
        let mut found = Vec::new(alloc);
        let mut left = keys;
        while let Some((key, others)) = left.split_first() {
            found.extend_from_slice(self.rows(key, steps))?;
            left = others;
        }
        Ok(found)
    }
}

// The rows at a place.
fn rows_at(rows: &[Vec<usize>], place: usize) -> &[usize]
    ensures { result.now ≡ rows_at_place rows.now place }
{
    match rows.get(place) {
        Some(rows) => rows.as_slice(),
        None => &[],
    }
}
