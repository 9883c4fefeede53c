// The members of chains.

ghost use Rattle.std.specs.Prelude.{◌≡◌};
ghost use Rattle.gx_parse_grammar.specs.Grammar.{is_single, level_at};
ghost use Rattle.gx_parse_parts.specs.Parsing.{barrier_of, is_pair, most_of, set_of};

use gx_base::limits::CHAIN_MEMBERS;
use gx_parse_grammar::word::{Barrier, Level, Word, WordSet};

/// The members of a chain (XQuery 1.0, section 3).
#[derive(Clone, Copy, PartialEq, Eq)]
pub enum Members {
    /// Expressions with commas between.
    Singles,
    /// Operands, which hold operators of so many tighter levels.
    Operands(u8),
    /// The steps of a path.
    Steps,
}

// The level above so many tighter ones.
fn level_at(tighter: u8) -> Level
    ensures { result ≡ level_at tighter }
{
    match tighter {
        0 => Level::Intersect,
        1 => Level::Union,
        2 => Level::Product,
        3 => Level::Sum,
        4 => Level::Range,
        5 => Level::Comparison,
        6 => Level::And,
        _ => Level::Or,
    }
}

// Whether an operand of the level stands beside at most one other.
fn is_single(level: Level) -> bool
    ensures { result ≡ is_single level }
{
    matches!(level, Level::Comparison | Level::Range)
}

impl Members {
    /// The words between the members.
    pub fn set(self) -> WordSet
        ensures { result ≡ set_of self }
    {
        match self {
            Members::Singles => WordSet::Only(Word::Comma),
            Members::Operands(tighter) => WordSet::Operators(level_at(tighter)),
            Members::Steps => WordSet::Slashes,
        }
    }

    /// Whether there are at most two.
    pub fn is_pair(self) -> bool
        ensures { result ≡ is_pair self }
    {
        match self {
            Members::Operands(tighter) => is_single(level_at(tighter)),
            Members::Singles | Members::Steps => false,
        }
    }

    /// What may not begin behind so many members.
    pub fn barrier(self) -> Barrier
        ensures { result ≡ barrier_of self }
    {
        match self {
            Members::Steps => Barrier::Step,
            Members::Singles | Members::Operands(_) => Barrier::Single,
        }
    }

    /// How many may stand behind the first.
    pub fn most(self) -> u8
        ensures { result ≡ most_of self }
    {
        if self.is_pair() { 1 } else { CHAIN_MEMBERS - 1 }
    }
}
