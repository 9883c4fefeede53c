// The built-in types in their order, and the bases that they derive from.

ghost use Rattle.std.specs.Prelude.{◌≡◌};
ghost use Rattle.gx_types.specs.BuiltinOrder.{builtin_number};
ghost use Rattle.gx_types.specs.BuiltinBase.{builtin_base_of};

use gx_base::type_name::Builtin;

// The number of a built-in type in the list of built-in types, counted from 0.
pub(crate) fn number(builtin: Builtin) -> u8
    ensures { result ≡ builtin_number builtin }
{
    match builtin {
        Builtin::AnyType => 0,
        Builtin::Untyped => 1,
        Builtin::AnySimple => 2,
        Builtin::AnyAtomic => 3,
        Builtin::UntypedAtomic => 4,
        Builtin::Str => 5,
        Builtin::NormalizedStr => 6,
        Builtin::Token => 7,
        Builtin::Boolean => 8,
        Builtin::Decimal => 9,
        Builtin::Integer => 10,
        Builtin::NonPositive => 11,
        Builtin::Negative => 12,
        Builtin::Long => 13,
        Builtin::Int => 14,
        Builtin::Short => 15,
        Builtin::Byte => 16,
        Builtin::NonNegative => 17,
        Builtin::UnsignedLong => 18,
        Builtin::UnsignedInt => 19,
        Builtin::UnsignedShort => 20,
        Builtin::UnsignedByte => 21,
        Builtin::Positive => 22,
    }
}

// The type that a built-in type is derived from: none for xs:anyType.
pub(crate) fn builtin_base(builtin: Builtin) -> Option<Builtin>
    ensures { result ≡ builtin_base_of builtin }
{
    match builtin {
        Builtin::AnyType => None,
        Builtin::Untyped | Builtin::AnySimple => Some(Builtin::AnyType),
        Builtin::AnyAtomic => Some(Builtin::AnySimple),
        Builtin::UntypedAtomic | Builtin::Str | Builtin::Boolean | Builtin::Decimal => Some(
            Builtin::AnyAtomic,
        ),
        Builtin::NormalizedStr => Some(Builtin::Str),
        Builtin::Token => Some(Builtin::NormalizedStr),
        Builtin::Integer => Some(Builtin::Decimal),
        Builtin::NonPositive | Builtin::Long | Builtin::NonNegative => Some(Builtin::Integer),
        Builtin::Negative => Some(Builtin::NonPositive),
        Builtin::Int => Some(Builtin::Long),
        Builtin::Short => Some(Builtin::Int),
        Builtin::Byte => Some(Builtin::Short),
        Builtin::UnsignedLong | Builtin::Positive => Some(Builtin::NonNegative),
        Builtin::UnsignedInt => Some(Builtin::UnsignedLong),
        Builtin::UnsignedShort => Some(Builtin::UnsignedInt),
        Builtin::UnsignedByte => Some(Builtin::UnsignedShort),
    }
}
