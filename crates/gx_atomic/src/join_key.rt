// Keys of atomic values, under which equal values are found.

ghost use Rattle.std.specs.Prelude.{◌≡◌, IfOk, MatchResult};
ghost use Rattle.std.specs.Hash as fed;
ghost use Rattle.gx_num.specs.Number.{units_of};
ghost use Rattle.gx_atomic.specs.WrittenNumber.{written_number};
ghost use Rattle.gx_atomic.specs.JoinKey.{join_key_of};

use crate::comparison::{Op, compare_single};
use gx_facets::{AtomValue, Atomic};
use gx_num::{Dec, Number, to_dec};
use std::alloc::AllocError;
use std::hash::{Hash, Hasher};

/// The key of an atomic value. Keys are equal exactly where their values are by `eq` (XQuery 1.0, section 3.5.1), whatever their types
/// are: an integer and a decimal of one value have equal keys, and so have a string and an untyped value of one text.
pub struct JoinKey {
    value: AtomValue,
}

impl Drop for JoinKey {
    fn drop(self) {
        let JoinKey { value: _value } = self;
    }
}

/// The key of a value.
pub fn key(atom: &Atomic) -> Result<JoinKey, AllocError>
    ensures { IfOk result (λ k. k ≡ join_key_of atom.now) }
{
    Ok(JoinKey {
        value: atom.value.clone()?,
    })
}

#[tactic(auto, using(crate::specs::EqualValues::texts_of_one_order))]
impl PartialEq for JoinKey {
    ghost use Rattle.std.specs.Cmp.{partial_equiv_from_equiv};
    ghost use Rattle.gx_atomic.specs.JoinKey.{same_key, keys_are_equivalent};

    ghost eq = { same_key };

    ghost laws = { partial_equiv_from_equiv keys_are_equivalent };

    fn eq(&self, other: &JoinKey) -> bool {
        match (&self.value, &other.value) {
            (
                AtomValue::Untyped(text) | AtomValue::Str(text),
                AtomValue::Untyped(another) | AtomValue::Str(another),
            ) => text == another,
            (value, another) => compare_single(Op::Eq, value, another).unwrap_or(false),
        }
    }
}

impl Eq for JoinKey {
    ghost use Rattle.gx_atomic.specs.JoinKey.{keys_are_equivalent};

    ghost laws = { keys_are_equivalent };
}

// A number is hashed as a decimal where it is one, so that equal integers and decimals have one hash.
impl Hash for JoinKey {
    ghost use Rattle.gx_atomic.specs.JoinKey.{written_key, keys_are_written_alike};

    ghost hash_input = { written_key };

    ghost respects_eq = { keys_are_written_alike };

    fn hash<H: Hasher>(&self, state: &mut H) {
        match &self.value {
            AtomValue::Untyped(text) | AtomValue::Str(text) => text.hash(state),
            AtomValue::Truth(truth) => truth.hash(state),
            AtomValue::Num(number) => match decimal_of(*number) {
                Ok(decimal) => decimal.hash(state),
                Err(integer) => integer.hash(state),
            },
        }
    }
}

// The number as a decimal, or its integer where it is too large for one.
#[tactic(auto, using(crate::specs::EqualValues::integer_of_units, crate::specs::EqualValues::decimal_fits))]
fn decimal_of(number: Number) -> Result<Dec, i128>
    ensures { MatchResult result (λ decimal. written_number (units_of number) ≡ fed.i64 decimal) (λ integer. written_number (units_of number) ≡ fed.i128 integer) }
{
    match number {
        Number::Dec(decimal) => Ok(decimal),
        Number::Int(integer) => match to_dec(integer.value()) {
            Ok(decimal) => Ok(decimal),
            Err(_) => Err(integer.value()),
        },
    }
}
