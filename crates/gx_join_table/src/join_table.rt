// The table of a hash join.

ghost use Rattle.std.specs.Prelude.{◌≡◌, ◌+◌, ◌++◌, ◌∷◌, [], length, IfOk, OnOk};
ghost use Rattle.gx_join_table.specs.Joining.{rows_with_a_key};

use crate::key_index::KeyIndex;
use crate::row_numbers::ordered;
use crate::steps::Steps;
use gx_atomic::JoinKey;
use std::alloc::{AllocError, Global};
use std::marker::Model;
use std::snapshot::Snapshot;
use std::sync::ledger::Ledger;

/// The table of a hash join: the rows of the build side by their keys. Contracts see it as the keys of each row, in the order in which
/// the rows were added. Rows have numbers from 0 on.
#[derive(Drop)]
pub struct JoinTable {
    rows: Vec<Snapshot<Vec<JoinKey>>>,
    index: KeyIndex<JoinKey>,
}

impl Model for JoinTable {
    ghost use Rattle.std.specs.Prelude.{List};
    ghost use Rattle.std.specs.Coded.{codes};
    ghost use Rattle.gx_atomic.specs.declared.join_key.JoinKey.{JoinKey as Key};
    ghost use Rattle.gx_atomic.specs.contracts.join_key.JoinKey as join_keys;

    ghost Value = { List (List Key) };

    ghost coded = { Prim.hlevel (codes, join_keys.the_row.coded) };

    ghost use Rattle.gx_atomic.specs.JoinKey.{same_key};
    ghost use Rattle.gx_join_table.specs.KeyIndex.{IsKeyIndexOf};
    ghost use Rattle.gx_join_table.specs.TableView.{keys_of_rows};

    ghost view = { λ table. keys_of_rows table.rows.items };

    ghost invariant = { λ table. IsKeyIndexOf same_key table.index.keys.keys table.index.rows.items (keys_of_rows table.rows.items) };
}

impl JoinTable {
    /// A table with no row.
    pub fn new(alloc: Global) -> JoinTable
        ensures { result ≡ [] }
    {
        JoinTable {
            rows: Vec::new(alloc),
            index: KeyIndex::new(alloc),
        }
    }

    /// Adds a row of the build side with its keys. Each insertion of a key is one step. Where memory does not suffice, the table has no
    /// rows, or those that it had.
    pub fn add<L: Ledger>(
        &mut self,
        alloc: Global,
        keys: Vec<JoinKey>,
        steps: &mut Steps<L>,
    ) -> Result<(), AllocError>
        ensures added { OnOk result (self.new ≡ self.old ++ keys.items ∷ []) }
        ensures counted { OnOk result (steps.new ≡ steps.old + length keys.items) }
    {
        let row = self.rows.len();
        self.rows.push(Snapshot::of(&keys))?;
        match self.index.insert_row(alloc, row, keys, steps) {
            Ok(()) => Ok(()),
            Err(error) => {
                self.rows.clear();
                self.index = KeyIndex::new(alloc);
                Err(error)
            }
        }
    }

    /// The rows of the build side that have a key equal to one of the keys of an item of the probe side: their numbers, ascending and
    /// each once. Each look-up of a key is one step.
    pub fn rows<L: Ledger>(
        &self,
        alloc: Global,
        keys: &[JoinKey],
        steps: &mut Steps<L>,
    ) -> Result<Vec<usize>, AllocError>
        ensures rows { IfOk result (λ rows. rows.items ≡ rows_with_a_key keys.now self.now) }
        ensures counted { OnOk result (steps.new ≡ steps.old + length keys.now) }
    {
        match keys {
            [key] => Vec::from_slice(alloc, self.index.rows(key, steps)),
            _ => self.rows_of_several(alloc, keys, steps),
        }
    }

    // The same of several keys, or of none.
    fn rows_of_several<L: Ledger>(
        &self,
        alloc: Global,
        keys: &[JoinKey],
        steps: &mut Steps<L>,
    ) -> Result<Vec<usize>, AllocError>
        ensures rows { IfOk result (λ rows. rows.items ≡ rows_with_a_key keys.now self.now) }
        ensures counted { OnOk result (steps.new ≡ steps.old + length keys.now) }
    {
        let found = self.index.rows_of_each(alloc, keys, steps)?;
        Ok(ordered(found))
    }
}
