// The facets by which a simple type restricts the values of its base.
ghost use Rattle.std.specs.Prelude.{◌≡◌};

use crate::AtomValue;
use std::marker::Model;

/// Values in their order, which contracts see as a list.
#[derive(Drop)]
pub struct AtomValues {
    items: Vec<AtomValue>,
}

impl Model for AtomValues {
    ghost use Rattle.std.specs.Prelude.{List};
    ghost use Rattle.gx_facets.specs.declared.AtomValue.{AtomValue};

    ghost Value = { List AtomValue };

    ghost view = { λ v. v.items.items };
}

impl AtomValues {
    /// The values of the vector, in its order.
    pub fn from_vec(items: Vec<AtomValue>) -> AtomValues
        ensures { result ≡ items.items }
    {
        AtomValues { items }
    }

    /// Gives the vector back.
    pub fn into_vec(self) -> Vec<AtomValue>
        ensures { result.items ≡ self }
    {
        let AtomValues { items } = self;
        items
    }

    /// The values in their order.
    pub fn as_slice(&self) -> &[AtomValue]
        ensures { result.now ≡ self.now }
    {
        self.items.as_slice()
    }
}

/// The entries of an enumeration, which contracts see as a list of lists.
#[derive(Drop)]
pub struct Enumeration {
    entries: Vec<AtomValues>,
}

impl Model for Enumeration {
    ghost use Rattle.std.specs.Prelude.{List};
    ghost use Rattle.gx_facets.specs.declared.AtomValue.{AtomValue};

    ghost Value = { List (List AtomValue) };

    ghost view = { λ e. e.entries.items };
}

impl Enumeration {
    /// The entries of the vector, in its order.
    pub fn from_vec(entries: Vec<AtomValues>) -> Enumeration
        ensures { result ≡ entries.items }
    {
        Enumeration { entries }
    }

    /// Gives the vector back.
    pub fn into_vec(self) -> Vec<AtomValues>
        ensures { result.items ≡ self }
    {
        let Enumeration { entries } = self;
        entries
    }

    /// The entries in their order.
    pub fn as_slice(&self) -> &[AtomValues]
        ensures { result.now ≡ self.now }
    {
        self.entries.as_slice()
    }
}

/// The facets of a simple type (XML Schema Part 2, 4.3). An enumeration without entries is absent, and so is each of the
/// others that is None. A length above the greatest u64 is given as that number.
pub struct Facets {
    /// The enumeration, each entry the list of its values.
    pub values: Enumeration,
    pub min_inclusive: Option<AtomValue>,
    pub max_inclusive: Option<AtomValue>,
    pub min_exclusive: Option<AtomValue>,
    pub max_exclusive: Option<AtomValue>,
    pub length: Option<u64>,
    pub min_length: Option<u64>,
    pub max_length: Option<u64>,
}

impl Drop for Facets {
    fn drop(self) {
        let Facets {
            values: _values,
            min_inclusive: _min_inclusive,
            max_inclusive: _max_inclusive,
            min_exclusive: _min_exclusive,
            max_exclusive: _max_exclusive,
            length: _length,
            min_length: _min_length,
            max_length: _max_length,
        } = self;
    }
}
