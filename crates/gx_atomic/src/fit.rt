// Whether an atomic value fits its type.
ghost use Rattle.std.specs.Prelude.{IsTrue, ◌↔◌};
ghost use Rattle.gx_atomic.specs.Fit.{FitsItsType};

use gx_base::type_name::{Builtin, TypeName};
use gx_facets::{AtomValue, Atomic};
use gx_num::Number;
use gx_types::derivation::derives;
use gx_types::schemas::Schemas;

/// Whether the value is of the kind that its type has: an untyped value of xs:untypedAtomic, and a string, a boolean, an
/// integer or a decimal of a type that is derived from xs:string, xs:boolean, xs:integer or xs:decimal. A decimal is of
/// no type that is derived from xs:integer.
pub fn fits(schemas: &Schemas, a: &Atomic) -> bool
    ensures { IsTrue result ↔ FitsItsType schemas.now a.now }
{
    match &a.value {
        AtomValue::Untyped(_) => matches!(a.kind, TypeName::Builtin(Builtin::UntypedAtomic)),
        AtomValue::Str(_) => derives(schemas, &a.kind, &TypeName::Builtin(Builtin::Str)),
        AtomValue::Truth(_) => derives(schemas, &a.kind, &TypeName::Builtin(Builtin::Boolean)),
        AtomValue::Num(Number::Int(_)) => {
            derives(schemas, &a.kind, &TypeName::Builtin(Builtin::Integer))
        }
        AtomValue::Num(Number::Dec(_)) => {
            derives(schemas, &a.kind, &TypeName::Builtin(Builtin::Decimal))
                && !derives(schemas, &a.kind, &TypeName::Builtin(Builtin::Integer))
        }
    }
}
