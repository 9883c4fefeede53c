// Built-in types by their names.

use gx_base::type_name::Builtin;

/// The built-in type of that local name.
pub fn builtin(word: &str) -> Option<Builtin> {
    let found = match word {
        "anyType" => Builtin::AnyType,
        "untyped" => Builtin::Untyped,
        "anySimpleType" => Builtin::AnySimple,
        "anyAtomicType" => Builtin::AnyAtomic,
        "untypedAtomic" => Builtin::UntypedAtomic,
        "string" => Builtin::Str,
        "normalizedString" => Builtin::NormalizedStr,
        "token" => Builtin::Token,
        "boolean" => Builtin::Boolean,
        "decimal" => Builtin::Decimal,
        "integer" => Builtin::Integer,
        "nonPositiveInteger" => Builtin::NonPositive,
        "negativeInteger" => Builtin::Negative,
        "long" => Builtin::Long,
        "int" => Builtin::Int,
        "short" => Builtin::Short,
        "byte" => Builtin::Byte,
        "nonNegativeInteger" => Builtin::NonNegative,
        "unsignedLong" => Builtin::UnsignedLong,
        "unsignedInt" => Builtin::UnsignedInt,
        "unsignedShort" => Builtin::UnsignedShort,
        "unsignedByte" => Builtin::UnsignedByte,
        "positiveInteger" => Builtin::Positive,
        _ => return None,
    };
    Some(found)
}
