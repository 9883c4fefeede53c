// Integers as they are stored.
ghost use Rattle.std.specs.Prelude.{◌≡◌};

use crate::Number;
use std::fmt;
use std::marker::Model;

// A half has so many values.
const HALF: u128 = 1 << 64;

/// An xs:integer: the two halves of its two's complement form, so that it is aligned as a word is. Contracts see the
/// number.
#[derive(Clone, Copy, PartialEq, Eq)]
pub struct Integer {
    high: u64,
    low: u64,
}

impl Model for Integer {
    ghost use Rattle.std.specs.Prelude.{ℤ, ◌+◌, ◌*◌, ◌/◌, ◌%◌, ◌<◌, ◌^◌};
    ghost use Rattle.std.proofs.Common.{arith, ap, ◌∙◌};
    ghost use Rattle.std.specs.Int.{w128};
    ghost use Rattle.std.proofs.lemmas.Int.{of_z-to_z};
    ghost use Rattle.std.proofs.lemmas.Nat.{div-mul-add, mod-mul-add};
    ghost use Rattle.gx_num.specs.Halves.{integer_of_halves, high_half, low_half};

    ghost Value = { ℤ };

    ghost view = { λ i. integer_of_halves i.high i.low };

    ghost invariant = { λ i. (i.high < 2 ^ 64) × (i.low < 2 ^ 64) };

    ghost inverse = { λ z. record { high = high_half z; low = low_half z } };

    ghost inverse_ok = { λ a h i.
        let same = of_z-to_z w128 (a.high * 2 ^ 64 + a.low) (omega (arith, h.0, h.1)) in
        record {
          high = (ap (λ n. n / 2 ^ 64) same ∙ div-mul-add a.high (2 ^ 64) a.low h.1) i;
          low = (ap (λ n. n % 2 ^ 64) same ∙ mod-mul-add a.high (2 ^ 64) a.low h.1) i;
        } };
}

impl Integer {
    /// The integer of this value.
    pub fn new(value: i128) -> Integer
        ensures { result ≡ value }
    {
        let bits = value.cast_unsigned();
        Integer {
            high: (bits / HALF) as u64,
            low: (bits % HALF) as u64,
        }
    }

    /// The integer's value.
    pub fn value(self) -> i128
        ensures { result ≡ self }
    {
        (u128::from(self.high) * HALF + u128::from(self.low)).cast_signed()
    }
}

impl fmt::Debug for Integer {
    fn fmt<W: fmt::Write>(&self, f: &mut fmt::Formatter<W>) -> Result<(), fmt::Error> {
        self.value().fmt(f)
    }
}

impl Number {
    /// The xs:integer of this value.
    pub fn int(value: i128) -> Number
        ensures { result ≡ Number.Int value }
    {
        Number::Int(Integer::new(value))
    }
}
