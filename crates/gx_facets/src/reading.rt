// Values from their lexical forms.
ghost use Rattle.std.specs.Prelude.{◌≡◌, ◌||◌, MatchResult};
ghost use Rattle.gx_base.specs.Text.{same_text};
ghost use Rattle.gx_num.specs.Lexical.{integer_of, decimal_of};
ghost use Rattle.gx_facets.specs.Value.{Reads, value_of, lexical_form, boolean_value, value_of_decimal, integer_within, least_of, greatest_of, fault_of};

use crate::white_space::{collapse, collapses_to, replace};
use crate::{AtomValue, ValueRead};
use gx_base::text::Text;
use gx_base::type_name::Builtin;
use gx_num::{NumRead, Number, read_dec, read_int};
use std::alloc::Global;

/// The value of the text at an atomic type. White space is kept for xs:string and xs:untypedAtomic, replaced for
/// xs:normalizedString and collapsed for all others. NotLexical exactly where the text is not in the type's lexical
/// space, or its number is an xs:integer out of the type's range; TooLarge and TooPrecise exactly where reading an
/// xs:integer or an xs:decimal gives them. A type that is not atomic, and xs:anyAtomicType, has no lexical space.
pub fn read_value(alloc: Global, kind: Builtin, text: &Text) -> Result<AtomValue, ValueRead>
    ensures { Reads result (value_of kind text.now) }
{
    match kind {
        Builtin::AnyType | Builtin::Untyped | Builtin::AnySimple | Builtin::AnyAtomic => {
            Err(ValueRead::NotLexical)
        }
        Builtin::UntypedAtomic => Ok(AtomValue::Untyped(text.clone()?)),
        Builtin::Str => Ok(AtomValue::Str(text.clone()?)),
        Builtin::NormalizedStr => Ok(AtomValue::Str(replace(alloc, text)?)),
        Builtin::Token => Ok(AtomValue::Str(collapse(alloc, text)?)),
        Builtin::Boolean => Ok(AtomValue::Truth(read_boolean(text)?)),
        Builtin::Decimal => decimal(collapse(alloc, text)?.as_str()),
        Builtin::Integer
        | Builtin::NonPositive
        | Builtin::Negative
        | Builtin::Long
        | Builtin::Int
        | Builtin::Short
        | Builtin::Byte
        | Builtin::NonNegative
        | Builtin::UnsignedLong
        | Builtin::UnsignedInt
        | Builtin::UnsignedShort
        | Builtin::UnsignedByte
        | Builtin::Positive => integer_of_type(alloc, kind, text),
    }
}

fn integer_of_type(alloc: Global, kind: Builtin, text: &Text) -> Result<AtomValue, ValueRead>
    ensures { Reads result (integer_within (least_of kind) (greatest_of kind) (integer_of (lexical_form text.now))) }
{
    let form = collapse(alloc, text)?;
    integer(form.as_str(), least_integer(kind), greatest_integer(kind))
}

/// The xs:boolean of the text, read without memory: true of `true` and `1`, false of `false` and `0`, with white space
/// round them. NotLexical exactly where the text is none of these.
pub fn read_boolean(text: &Text) -> Result<bool, ValueRead>
    ensures { MatchResult result (λ truth. boolean_value (lexical_form text.now) ≡ Ok (AtomValue.Truth truth)) (λ fault. boolean_value (lexical_form text.now) ≡ Err fault) }
{
    if is_either(text, "true", "1") {
        Ok(true)
    } else if is_either(text, "false", "0") {
        Ok(false)
    } else {
        Err(ValueRead::NotLexical)
    }
}

fn is_either(text: &Text, word: &str, other: &str) -> bool
    ensures { result ≡ same_text (lexical_form text.now) word.now || same_text (lexical_form text.now) other.now }
{
    collapses_to(text, word) || collapses_to(text, other)
}

fn decimal(text: &str) -> Result<AtomValue, ValueRead>
    ensures { result ≡ value_of_decimal (decimal_of text.now) }
{
    match read_dec(text) {
        Ok(d) => Ok(AtomValue::Num(Number::Dec(d))),
        Err(e) => Err(fault(e)),
    }
}

fn integer(text: &str, least: i128, greatest: i128) -> Result<AtomValue, ValueRead>
    ensures { result ≡ integer_within least greatest (integer_of text.now) }
{
    match read_int(text) {
        Ok(i) if least <= i && i <= greatest => Ok(AtomValue::Num(Number::int(i))),
        Ok(_) => Err(ValueRead::NotLexical),
        Err(e) => Err(fault(e)),
    }
}

fn fault(error: NumRead) -> ValueRead
    ensures { result ≡ fault_of error }
{
    match error {
        NumRead::NotANumber => ValueRead::NotLexical,
        NumRead::TooLarge => ValueRead::TooLarge,
        NumRead::TooPrecise => ValueRead::TooPrecise,
    }
}

/// The least number of a type that is xs:integer or derived from it (XML Schema Part 2, section 3.3); of another type
/// that of xs:integer.
pub fn least_integer(kind: Builtin) -> i128
    ensures { result ≡ least_of kind }
{
    match kind {
        Builtin::Long => i64::MIN as i128,
        Builtin::Int => i32::MIN as i128,
        Builtin::Short => i16::MIN as i128,
        Builtin::Byte => i8::MIN as i128,
        Builtin::NonNegative
        | Builtin::UnsignedLong
        | Builtin::UnsignedInt
        | Builtin::UnsignedShort
        | Builtin::UnsignedByte => 0,
        Builtin::Positive => 1,
        _ => i128::MIN,
    }
}

/// The greatest number of a type that is xs:integer or derived from it; of another type that of xs:integer.
pub fn greatest_integer(kind: Builtin) -> i128
    ensures { result ≡ greatest_of kind }
{
    match kind {
        Builtin::NonPositive => 0,
        Builtin::Negative => -1,
        Builtin::Long => i64::MAX as i128,
        Builtin::Int => i32::MAX as i128,
        Builtin::Short => i16::MAX as i128,
        Builtin::Byte => i8::MAX as i128,
        Builtin::UnsignedLong => u64::MAX as i128,
        Builtin::UnsignedInt => u32::MAX as i128,
        Builtin::UnsignedShort => u16::MAX as i128,
        Builtin::UnsignedByte => u8::MAX as i128,
        _ => i128::MAX,
    }
}
