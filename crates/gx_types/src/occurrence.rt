// How many items the values of a type have.

use std::marker::Model;

/// The least and the greatest number of items, where a greatest number of 2 stands for any number (Formal Semantics,
/// section 8.4.1).
#[derive(Clone, Copy, PartialEq, Eq)]
pub struct Occurrence {
    pub least: u8,
    pub greatest: u8,
}

impl Model for Occurrence {
    ghost use Rattle.std.specs.Prelude.{◌≤◌};
    ghost use Rattle.gx_types.specs.Occurs.{Occurs};

    ghost Value = { Occurs };

    ghost view = { λ o. record { least = o.least; greatest = o.greatest } };

    ghost invariant = { λ o. (o.least ≤ 1) × (o.least ≤ o.greatest) × (o.greatest ≤ 2) };

    ghost inverse = { λ o. record { least = o.least; greatest = o.greatest } };
}
