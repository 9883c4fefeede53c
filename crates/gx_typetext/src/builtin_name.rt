// The names of built-in types.

ghost use Rattle.std.specs.Prelude.{◌≡◌};
ghost use Rattle.gx_typetext.specs.BuiltinName.{local_name};

use gx_base::type_name::Builtin;

// The local name of a built-in type.
pub(crate) fn builtin_name(builtin: Builtin) -> &'static str
    ensures { result.now ≡ local_name builtin }
{
    match builtin {
        Builtin::AnyType => "anyType",
        Builtin::Untyped => "untyped",
        Builtin::AnySimple => "anySimpleType",
        Builtin::AnyAtomic => "anyAtomicType",
        Builtin::UntypedAtomic => "untypedAtomic",
        Builtin::Str => "string",
        Builtin::NormalizedStr => "normalizedString",
        Builtin::Token => "token",
        Builtin::Boolean => "boolean",
        Builtin::Decimal => "decimal",
        Builtin::Integer => "integer",
        Builtin::NonPositive => "nonPositiveInteger",
        Builtin::Negative => "negativeInteger",
        Builtin::Long => "long",
        Builtin::Int => "int",
        Builtin::Short => "short",
        Builtin::Byte => "byte",
        Builtin::NonNegative => "nonNegativeInteger",
        Builtin::UnsignedLong => "unsignedLong",
        Builtin::UnsignedInt => "unsignedInt",
        Builtin::UnsignedShort => "unsignedShort",
        Builtin::UnsignedByte => "unsignedByte",
        Builtin::Positive => "positiveInteger",
    }
}
