// Casts of atomic values.
ghost use Rattle.std.specs.Prelude.{◌≡◌, ◌&&◌, int_le, ℤ, Result, Option, Some, None};
ghost use Rattle.gx_facets.specs.Value.{printed_value, value_of};
ghost use Rattle.gx_types.specs.SimpleType.{declared_atomic};
ghost use Rattle.gx_types.specs.SimpleView.{atomic_view};
ghost use Rattle.gx_atomic.specs.Cast.{Casts, CastsValue, cast_of, cast_to, cast_to_atomic, cast_to_bottom, cast_value, in_type_range, fault_at, read_at, integer_to_decimal, to_boolean, to_decimal, to_integer, within_type, code_of};

use gx_base::code::Code;
use gx_base::text::Text;
use gx_base::type_name::{Builtin, TypeName};
use gx_facets::{
    AtomValue, Atomic, ValueRead, greatest_integer, least_integer, print_value, read_boolean,
    read_value,
};
use gx_num::{Number, is_zero, to_dec, to_int};
use gx_types::schemas::Schemas;
use gx_types::simple_type::{AtomicType, declared_atomic_type};
use std::alloc::{AllocError, Global};

/// Why a cast has no value: the code of the dynamic error (Functions and Operators, appendix C), or want of memory.
#[derive(Clone, Copy, PartialEq, Eq)]
pub enum CastError {
    /// The value has no counterpart in the target type: the text is not in its lexical space, the value is outside its
    /// range, or the type is no target.
    FORG0001,
    /// A number that is too large for xs:decimal.
    FOCA0001,
    /// A number in a text that is too large for xs:integer.
    FOCA0003,
    /// A number in a text with more decimal places than xs:decimal has.
    FOCA0006,
    /// Memory ran out.
    Memory,
}

impl CastError {
    /// The code of the dynamic error; None exactly at want of memory.
    pub fn code(self) -> Option<Code>
        ensures { result ≡ code_of self }
    {
        match self {
            CastError::FORG0001 => Some(Code::FORG0001),
            CastError::FOCA0001 => Some(Code::FOCA0001),
            CastError::FOCA0003 => Some(Code::FOCA0003),
            CastError::FOCA0006 => Some(Code::FOCA0006),
            CastError::Memory => None,
        }
    }
}

impl From<AllocError> for CastError {
    ghost use Rattle.gx_atomic.specs.declared.casting.CastError.TheVariants.{Memory};

    ghost from_gives = { λ _ e. e ≡ Memory };

    fn from(_error: AllocError) -> CastError {
        CastError::Memory
    }
}

/// The value cast to the type (Functions and Operators, section 17): to a declared atomic type the value cast to the built-in
/// type at which its bases end. FORG0001 also where a facet of a declared type or of one of its bases does not admit that
/// value, and where the target is xs:anyAtomicType or is not an atomic type.
pub fn cast(
    alloc: Global,
    schemas: &Schemas,
    a: &Atomic,
    to: &TypeName,
) -> Result<Atomic, CastError>
    ensures { Casts result (cast_of schemas.now a.now to.now) }
{
    let value = cast_to(alloc, schemas, &a.value, to)?;
    let kind = to.clone()?;
    Ok(Atomic { value, kind })
}

fn cast_to(
    alloc: Global,
    schemas: &Schemas,
    value: &AtomValue,
    to: &TypeName,
) -> Result<AtomValue, CastError>
    ensures { CastsValue result (cast_to schemas.now to.now value.now) }
{
    match to {
        TypeName::Builtin(kind) => cast_to_builtin(alloc, value, *kind),
        TypeName::Named(_) | TypeName::Anonymous(_) => cast_to_declared(alloc, schemas, value, to),
    }
}

fn cast_to_declared(
    alloc: Global,
    schemas: &Schemas,
    value: &AtomValue,
    to: &TypeName,
) -> Result<AtomValue, CastError>
    ensures { CastsValue result (cast_to_atomic (declared_atomic schemas.now to.now) value.now) }
{
    match declared_atomic_type(alloc, schemas, to)? {
        Some(kind) => cast_to_atomic(alloc, value, &kind),
        None => Err(CastError::FORG0001),
    }
}

fn cast_to_atomic(
    alloc: Global,
    value: &AtomValue,
    kind: &AtomicType<'_>,
) -> Result<AtomValue, CastError>
    ensures { CastsValue result (cast_to_atomic (Some (atomic_view kind.now)) value.now) }
{
    let given = cast_to_bottom(alloc, value, kind.bottom)?;
    if kind.admits(&given) {
        Ok(given)
    } else {
        Err(CastError::FORG0001)
    }
}

// To a built-in type at which the bases of a declared type end.
fn cast_to_bottom(alloc: Global, value: &AtomValue, kind: Builtin) -> Result<AtomValue, CastError>
    ensures { CastsValue result (cast_to_bottom kind value.now) }
{
    match kind {
        Builtin::UntypedAtomic => Err(CastError::FORG0001),
        _ => cast_to_builtin(alloc, value, kind),
    }
}

fn cast_to_builtin(alloc: Global, value: &AtomValue, kind: Builtin) -> Result<AtomValue, CastError>
    ensures { CastsValue result (cast_value kind value.now) }
{
    match kind {
        Builtin::AnyType | Builtin::Untyped | Builtin::AnySimple | Builtin::AnyAtomic => {
            Err(CastError::FORG0001)
        }
        Builtin::UntypedAtomic => Ok(AtomValue::Untyped(print_value(alloc, value)?)),
        Builtin::Str => Ok(AtomValue::Str(print_value(alloc, value)?)),
        Builtin::NormalizedStr => read_as(alloc, kind, &print_value(alloc, value)?),
        Builtin::Token => read_as(alloc, kind, &print_value(alloc, value)?),
        Builtin::Boolean => cast_to_boolean(value),
        Builtin::Decimal => cast_to_decimal(alloc, value),
        _ => cast_to_integer_type(alloc, value, kind),
    }
}

// The value of a text at a type.
fn read_as(alloc: Global, kind: Builtin, text: &Text) -> Result<AtomValue, CastError>
    ensures { CastsValue result (read_at kind text.now) }
{
    match read_value(alloc, kind, text) {
        Ok(value) => Ok(value),
        Err(fault) => Err(fault_of_text(kind, fault)),
    }
}

// The error of a text that is not read at a type.
fn fault_of_text(kind: Builtin, fault: ValueRead) -> CastError
    ensures { result ≡ fault_at kind fault }
{
    match (fault, kind) {
        (ValueRead::NotLexical, _) => CastError::FORG0001,
        (ValueRead::TooLarge, Builtin::Decimal) => CastError::FOCA0001,
        (ValueRead::TooLarge, _) => CastError::FOCA0003,
        (ValueRead::TooPrecise, _) => CastError::FOCA0006,
        (ValueRead::Memory, _) => CastError::Memory,
    }
}

/// The boolean that a value is cast to. It takes no memory.
pub(crate) fn cast_to_boolean(value: &AtomValue) -> Result<AtomValue, CastError>
    ensures { result ≡ to_boolean value.now }
{
    match value {
        AtomValue::Untyped(text) | AtomValue::Str(text) => boolean_of_text(text),
        AtomValue::Truth(truth) => Ok(AtomValue::Truth(*truth)),
        AtomValue::Num(number) => Ok(AtomValue::Truth(!is_zero(number))),
    }
}

fn boolean_of_text(text: &Text) -> Result<AtomValue, CastError>
    ensures { result ≡ read_at Builtin.Boolean text.now }
{
    match read_boolean(text) {
        Ok(truth) => Ok(AtomValue::Truth(truth)),
        Err(fault) => Err(fault_of_text(Builtin::Boolean, fault)),
    }
}

fn cast_to_decimal(alloc: Global, value: &AtomValue) -> Result<AtomValue, CastError>
    ensures { CastsValue result (to_decimal value.now) }
{
    match value {
        AtomValue::Untyped(text) | AtomValue::Str(text) => read_as(alloc, Builtin::Decimal, text),
        AtomValue::Truth(truth) => integer_to_decimal(i128::from(*truth)),
        AtomValue::Num(Number::Int(i)) => integer_to_decimal(i.value()),
        AtomValue::Num(Number::Dec(d)) => Ok(AtomValue::Num(Number::Dec(*d))),
    }
}

fn integer_to_decimal(i: i128) -> Result<AtomValue, CastError>
    ensures { result ≡ integer_to_decimal i }
{
    match to_dec(i) {
        Ok(d) => Ok(AtomValue::Num(Number::Dec(d))),
        Err(_) => Err(CastError::FOCA0001),
    }
}

// To a type that is xs:integer or derived from it.
fn cast_to_integer_type(
    alloc: Global,
    value: &AtomValue,
    kind: Builtin,
) -> Result<AtomValue, CastError>
    ensures { CastsValue result (within_type kind (to_integer value.now)) }
{
    let cast = cast_to_integer(alloc, value)?;
    match &cast {
        AtomValue::Num(Number::Int(i)) if is_in_range(kind, i.value()) => Ok(cast),
        _ => Err(CastError::FORG0001),
    }
}

fn cast_to_integer(alloc: Global, value: &AtomValue) -> Result<AtomValue, CastError>
    ensures { CastsValue result (to_integer value.now) }
{
    match value {
        AtomValue::Untyped(text) | AtomValue::Str(text) => read_as(alloc, Builtin::Integer, text),
        AtomValue::Truth(truth) => Ok(AtomValue::Num(Number::int(i128::from(*truth)))),
        AtomValue::Num(number) => Ok(AtomValue::Num(Number::int(to_int(*number)))),
    }
}

fn is_in_range(kind: Builtin, i: i128) -> bool
    ensures { result ≡ in_type_range kind i }
{
    least_integer(kind) <= i && i <= greatest_integer(kind)
}
