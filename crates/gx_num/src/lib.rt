//! Exact integers and decimals of XQuery 1.0: arithmetic, lexical forms and printing.
//!
//! An xs:integer lies from -2^127 to 2^127 - 1. An xs:decimal is a whole number of units of 10^-6 and has a magnitude
//! below 10^12. No operation rounds but those that say so, and none wraps.
#![tactic(auto)]

mod arithmetic;
mod integer;
pub mod laws;
mod printing;
mod reading;

pub use arithmetic::{
    abs, add, ceiling, compare, div, floor, idiv, is_zero, modulo, mul, negate, round, sub, to_dec,
    to_int,
};
pub use integer::Integer;
pub use printing::print_number;
pub use reading::{read_dec, read_int};
use std::marker::Model;

/// An xs:decimal: a multiple of 10^-6 of magnitude below 10^12. Contracts see it as its number of units of 10^-6.
#[derive(Clone, Copy, PartialEq, Eq, PartialOrd, Ord, Hash, Debug)]
pub struct Dec {
    units: i64,
}

impl Model for Dec {
    ghost use Rattle.std.specs.Prelude.{ℤ, ◌<◌, unsigned_abs};

    ghost Value = { ℤ };

    ghost view = { λ d. d.units };

    ghost invariant = { λ d. unsigned_abs d.units < 1000000000000000000 };

    ghost inverse = { λ u. record { units = u } };
}

/// An xs:integer or an xs:decimal. `==` compares type and value; `compare` compares values across the two types.
#[derive(Clone, Copy, PartialEq, Eq, Debug)]
pub enum Number {
    /// An xs:integer.
    Int(Integer),
    /// An xs:decimal.
    Dec(Dec),
}

/// Why an operation has no number as its result.
#[derive(Clone, Copy, PartialEq, Eq, Debug)]
pub enum NumFault {
    /// The result, or an integer that is to become a decimal, is out of range (err:FOAR0002).
    Overflow,
    /// The divisor is zero (err:FOAR0001).
    DivZero,
}

/// Why a text is not read as a number.
#[derive(Clone, Copy, PartialEq, Eq, Debug)]
pub enum NumRead {
    /// The text is not in the lexical space.
    NotANumber,
    /// The number's magnitude is out of range.
    TooLarge,
    /// More than 6 decimal places remain after trailing zeros are dropped.
    TooPrecise,
}
