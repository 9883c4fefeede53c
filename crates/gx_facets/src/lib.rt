//! Atomic values: their lexical forms, their printed form and their order.
#![tactic(auto)]

ghost use Rattle.std.specs.Prelude.{◌≡◌};

mod admission;
pub mod laws;
mod reading;
pub mod restriction;
mod values;
mod white_space;

pub use admission::{admits, admits_list};
use gx_base::text::Text;
use gx_base::type_name::TypeName;
use gx_num::Number;
pub use reading::{greatest_integer, least_integer, read_boolean, read_value};
pub use restriction::Facets;
use std::alloc::AllocError;
pub use values::{compare_values, print_value};

/// An atomic value without its type (XQuery 1.0 and XPath 2.0 Data Model, section 2.7).
#[derive(PartialEq, Eq)]
pub enum AtomValue {
    /// An xs:untypedAtomic.
    Untyped(Text),
    /// An xs:string, or of a type that derives from it.
    Str(Text),
    /// An xs:boolean.
    Truth(bool),
    /// An xs:integer or an xs:decimal, or of a type that derives from them.
    Num(Number),
}

impl Drop for AtomValue {
    fn drop(self) {
        match self {
            AtomValue::Untyped(_text) => {}
            AtomValue::Str(_text) => {}
            AtomValue::Truth(_truth) => {}
            AtomValue::Num(_number) => {}
        }
    }
}

impl Clone for AtomValue {
    ghost is_clone = { λ value copy. copy ≡ value };

    fn clone(&self) -> Result<AtomValue, AllocError> {
        match self {
            AtomValue::Untyped(text) => Ok(AtomValue::Untyped(text.clone()?)),
            AtomValue::Str(text) => Ok(AtomValue::Str(text.clone()?)),
            AtomValue::Truth(truth) => Ok(AtomValue::Truth(*truth)),
            AtomValue::Num(number) => Ok(AtomValue::Num(*number)),
        }
    }
}

/// An atomic value with its type.
#[derive(PartialEq, Eq)]
pub struct Atomic {
    pub value: AtomValue,
    pub kind: TypeName,
}

impl Drop for Atomic {
    fn drop(self) {
        let Atomic {
            value: _value,
            kind: _kind,
        } = self;
    }
}

impl Clone for Atomic {
    ghost is_clone = { λ atomic copy. copy ≡ atomic };

    fn clone(&self) -> Result<Atomic, AllocError> {
        Ok(Atomic {
            value: self.value.clone()?,
            kind: self.kind.clone()?,
        })
    }
}

/// Why a text is not read as a value.
#[derive(Clone, Copy, PartialEq, Eq, Debug)]
pub enum ValueRead {
    /// The text is not in the type's lexical space, or its number is out of the type's range.
    NotLexical,
    /// A number that is out of the range of xs:integer or xs:decimal.
    TooLarge,
    /// A decimal of which more than 6 places remain after trailing zeros are dropped.
    TooPrecise,
    /// Memory ran out.
    Memory,
}

impl From<AllocError> for ValueRead {
    ghost use Rattle.gx_facets.specs.declared.ValueRead.TheVariants.{Memory};

    ghost from_gives = { λ _ e. e ≡ Memory };

    fn from(_error: AllocError) -> ValueRead {
        ValueRead::Memory
    }
}
