// Names and types of nodes, by numbers.

ghost use Rattle.std.specs.Prelude.{◌≡◌, [], Some, IfOk, IsTrue, slice_get, option_copied};
ghost use Rattle.gx_store.specs.Grown.{Grows};
ghost use Rattle.gx_store.specs.SameLabel.{same_name_and_prefix, same_type_and_prefix};

use crate::number::narrow;
use gx_base::name::Name;
use gx_base::type_name::TypeName;
use indexmap::IndexSet;
use std::alloc::{AllocError, Global};
use std::hash::{Hash, Hasher};

// What is said of an element or an attribute: its name, with the prefix, and its type.
pub(crate) struct Label {
    pub name: Name,
    pub kind: TypeName,
}

impl Drop for Label {
    fn drop(self) {
        let Label {
            name: _name,
            kind: _kind,
        } = self;
    }
}

impl Clone for Label {
    ghost is_clone = { λ label copy. copy ≡ label };

    fn clone(&self) -> Result<Label, AllocError> {
        Ok(Label {
            name: self.name.clone()?,
            kind: self.kind.clone()?,
        })
    }
}

// Labels are equal where they are the same in all parts, prefixes among them.
impl PartialEq for Label {
    ghost use Rattle.std.specs.Cmp.{partial_equiv_from_equiv};
    ghost use Rattle.gx_store.specs.SameLabel.{same_label, labels_are_equivalent};

    ghost eq = { same_label };

    ghost laws = { partial_equiv_from_equiv labels_are_equivalent };

    fn eq(&self, other: &Label) -> bool {
        is_written_as(&self.name, &other.name) && has_type_written_as(&self.kind, &other.kind)
    }
}

impl Eq for Label {
    ghost use Rattle.gx_store.specs.SameLabel.{labels_are_equivalent};

    ghost laws = { labels_are_equivalent };
}

// Labels of one name share a hash.
impl Hash for Label {
    ghost use Rattle.std.specs.Cmp.Rules.{hashing};
    ghost use Rattle.std.specs.Hash as fed;
    ghost use Rattle.std.specs.Prelude.{◌++◌};
    ghost use Rattle.std.specs.Str.{encode_utf8_all};
    ghost use Rattle.std.proofs.Common.{rules};

    ghost hash_input = { λ l. fed.str (encode_utf8_all l.name.uri) ++ fed.str (encode_utf8_all l.name.local) };

    ghost respects_eq = { Prim.search (hashing, rules) };

    fn hash<H: Hasher>(&self, state: &mut H) {
        self.name.hash(state);
    }
}

// How many slots of names there are.
const SLOTS: usize = 256;

/// Labels, each with its number from 0 on; and for each slot of names the number that was asked for last.
pub(crate) struct Labels {
    pub labels: IndexSet<Label>,
    pub last: Vec<u32>,
}

impl Drop for Labels {
    fn drop(self) {
        let Labels {
            labels: _labels,
            last: _last,
        } = self;
    }
}

impl Labels {
    // No labels.
    pub(crate) fn new(alloc: Global) -> Labels
        ensures { result.labels.keys ≡ [] }
    {
        Labels {
            labels: IndexSet::new(alloc),
            last: Vec::new(alloc),
        }
    }

    // The number of a label, which is put behind the others where it is new.
    pub(crate) fn number_of(&mut self, name: &Name, kind: &TypeName) -> Result<u32, AllocError>
        ensures grows { Grows self.old.labels.keys self.new.labels.keys }
        ensures number { IfOk result (λ number. slice_get self.new.labels.keys number ≡ Some (record { name = name.now; kind = kind.now })) }
    {
        let slot = slot_of(name);
        if let Some(number) = self.last.get(slot).copied()
            && self.is_label(number, name, kind)
        {
            return Ok(number);
        }
        let number = self.number_sought(name, kind)?;
        remember(&mut self.last, slot, number)?;
        Ok(number)
    }

    // Whether a label has a number.
    fn is_label(&self, number: u32, name: &Name, kind: &TypeName) -> bool
        ensures { IsTrue result → slice_get self.now.labels.keys number ≡ Some (record { name = name.now; kind = kind.now }) }
    {
        match self.label(number) {
            Some(label) => {
                is_written_as(&label.name, name) && has_type_written_as(&label.kind, kind)
            }
            None => false,
        }
    }

    // The same, sought among all labels.
    fn number_sought(&mut self, name: &Name, kind: &TypeName) -> Result<u32, AllocError>
        ensures grows { Grows self.old.labels.keys self.new.labels.keys }
        ensures number { IfOk result (λ number. slice_get self.new.labels.keys number ≡ Some (record { name = name.now; kind = kind.now })) }
    {
        let label = Label {
            name: name.clone()?,
            kind: kind.clone()?,
        };
        let (number, _) = self.labels.insert_full(label)?;
        narrow(number)
    }

    // The label of a number.
    pub(crate) fn label(&self, number: u32) -> Option<&Label>
        ensures { option_copied result ≡ slice_get self.now.labels.keys number }
    {
        self.labels.get_index(number as usize)
    }
}

// The slot of a name.
fn slot_of(name: &Name) -> usize {
    let local = name.local.as_str().as_bytes();
    match (local.first(), local.last()) {
        (Some(first), Some(last)) => {
            (*first as usize * 7 + *last as usize * 3 + local.len() % 64) % SLOTS
        }
        _ => 0,
    }
}

// Keeps the number of a slot as the last one.
fn remember(last: &mut Vec<u32>, slot: usize, number: u32) -> Result<(), AllocError> {
    if last.is_empty() {
        last.reserve_exact(SLOTS)?;
        for _ in 0..SLOTS {
            last.push(0)?;
        }
    }
    if let Some(kept) = last.get_mut(slot) {
        *kept = number;
    }
    Ok(())
}

// Whether two names are equal and have one prefix.
fn is_written_as(one: &Name, another: &Name) -> bool
    ensures { result ≡ same_name_and_prefix one.now another.now }
{
    one == another && one.prefix == another.prefix
}

fn has_type_written_as(one: &TypeName, another: &TypeName) -> bool
    ensures { result ≡ same_type_and_prefix one.now another.now }
{
    match (one, another) {
        (TypeName::Named(one), TypeName::Named(another)) => {
            is_written_as(one.name(), another.name())
        }
        _ => one == another,
    }
}
