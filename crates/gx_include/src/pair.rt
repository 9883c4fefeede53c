// Pairs of a position of the left type and a set of positions of the right type.

use gx_include_followers::number_set::NumberSet;
use std::hash::{Hash, Hasher};
use std::marker::Model;

// A position of the left type, or 0 for the start, with a set of positions of the right type.
#[derive(Drop)]
pub struct Pair {
    pub place: usize,
    pub set: NumberSet,
}

impl Model for Pair {
    ghost use Rattle.std.specs.Prelude.{ℕ, Bool, List};

    ghost Value = { ℕ × List Bool };

    ghost view = { λ p. (p.place, p.set) };
}

impl PartialEq for Pair {
    ghost use Rattle.std.specs.Cmp.Rules.{comparing};
    ghost use Rattle.std.proofs.Common.{rules};
    ghost use Rattle.gx_include.specs.PairOrder.{same_pair};

    ghost eq = { same_pair };

    ghost laws = { Prim.search (comparing, rules) };

    fn eq(&self, other: &Pair) -> bool {
        self.place == other.place && self.set == other.set
    }
}

impl Eq for Pair {
    ghost use Rattle.std.specs.Cmp.Rules.{comparing};
    ghost use Rattle.std.proofs.Common.{rules};

    ghost laws = { Prim.search (comparing, rules) };
}

impl Hash for Pair {
    ghost use Rattle.std.specs.Prelude.{◌++◌};
    ghost use Rattle.std.specs.Hash as fed;
    ghost use Rattle.gx_include_followers.specs.NumberSet.{flagged};
    ghost use Rattle.gx_include.specs.PairOrder.{pairs_are_alike};

    ghost hash_input = { λ p. fed.usize p.0 ++ fed.slice fed.usize (flagged p.1) };

    ghost respects_eq = { pairs_are_alike.fed };

    fn hash<H: Hasher>(&self, state: &mut H) {
        self.place.hash(state);
        self.set.hash(state);
    }
}
