// The names of types.

ghost use Rattle.std.specs.Prelude.{◌≡◌};

use crate::name::SharedName;
use std::alloc::AllocError;

/// The built-in types of the profile, in the order in which types are listed (XML Schema 1.0 part 2, section 3;
/// XQuery 1.0 and XPath 2.0 Data Model, section 2.7). `Untyped` and `UntypedAtomic` are those of the data model.
#[derive(Clone, Copy, Debug, PartialEq, Eq, PartialOrd, Ord, Hash)]
pub enum Builtin {
    AnyType,
    Untyped,
    AnySimple,
    AnyAtomic,
    UntypedAtomic,
    Str,
    NormalizedStr,
    Token,
    Boolean,
    Decimal,
    Integer,
    NonPositive,
    Negative,
    Long,
    Int,
    Short,
    Byte,
    NonNegative,
    UnsignedLong,
    UnsignedInt,
    UnsignedShort,
    UnsignedByte,
    Positive,
}

/// The name of a type: built-in, declared with a name, or the n-th anonymous type of the schema files, counted from 1.
/// Copying it takes no memory.
#[derive(Debug, PartialEq, Eq, PartialOrd, Ord, Hash)]
pub enum TypeName {
    Builtin(Builtin),
    Named(SharedName),
    Anonymous(u32),
}

impl Drop for TypeName {
    fn drop(self) {
        match self {
            TypeName::Builtin(_builtin) => {}
            TypeName::Named(_name) => {}
            TypeName::Anonymous(_number) => {}
        }
    }
}

impl Clone for TypeName {
    ghost is_clone = { λ name copy. copy ≡ name };

    fn clone(&self) -> Result<TypeName, AllocError> {
        match self {
            TypeName::Builtin(builtin) => Ok(TypeName::Builtin(*builtin)),
            TypeName::Named(name) => Ok(TypeName::Named(name.clone()?)),
            TypeName::Anonymous(number) => Ok(TypeName::Anonymous(*number)),
        }
    }
}
