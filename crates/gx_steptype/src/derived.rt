// The choice over a type and all types that are derived from it.

ghost use Rattle.std.specs.Prelude.{◌≡◌, ◌++◌, [], ◌∷◌, map, IfOk, OnOk};
ghost use Rattle.gx_base.specs.declared.type_name.TypeName.{TypeName as NameOfType};
ghost use Rattle.gx_types.specs.SequenceType.{SequenceType};
ghost use Rattle.gx_include_derivations.specs.Derivations.{derived_types as types_derived};
ghost use Rattle.gx_steptype.specs.DerivedTypes.{over_derived as choice_over_derived, derived_among, listed_names};

use gx_base::type_name::{Builtin, TypeName};
use gx_types::derivation::derives;
use gx_types::schemas::Schemas;
use gx_types::sequence_type::Ty;
use gx_types::type_rules::choose;
use std::alloc::{AllocError, Global};

// The built-in types but xs:anyType, in their order.
pub const LISTED: [Builtin; 22] = [
    Builtin::Untyped,
    Builtin::AnySimple,
    Builtin::AnyAtomic,
    Builtin::UntypedAtomic,
    Builtin::Str,
    Builtin::NormalizedStr,
    Builtin::Token,
    Builtin::Boolean,
    Builtin::Decimal,
    Builtin::Integer,
    Builtin::NonPositive,
    Builtin::Negative,
    Builtin::Long,
    Builtin::Int,
    Builtin::Short,
    Builtin::Byte,
    Builtin::NonNegative,
    Builtin::UnsignedLong,
    Builtin::UnsignedInt,
    Builtin::UnsignedShort,
    Builtin::UnsignedByte,
    Builtin::Positive,
];

// What stands for each type.
pub(crate) trait OfType {
    ghost of: { Self → NameOfType → SequenceType };

    fn of_type(&self, alloc: Global, kind: &TypeName) -> Result<Ty, AllocError>
        ensures { IfOk result (λ t. t ≡ of self.now kind.now) };
}

// The choice of what stands for a type and for all types that are derived from it, where the declared ones are at hand.
pub(crate) fn over_types<T: OfType>(
    alloc: Global,
    schemas: &Schemas,
    of: &T,
    kind: &TypeName,
    derived: &[TypeName],
) -> Result<Ty, AllocError>
    requires { derived.now ≡ types_derived schemas.now kind.now }
    ensures { IfOk result (λ t. t ≡ choice_over_derived schemas.now (T.of of.now) kind.now) }
{
    let mut types = Vec::new(alloc);
    add_builtins(alloc, schemas, of, kind, &LISTED, &mut types)?;
    add_each(alloc, of, derived, &mut types)?;
    choose(alloc, &types)
}

fn add_builtins<T: OfType>(
    alloc: Global,
    schemas: &Schemas,
    of: &T,
    kind: &TypeName,
    listed: &[Builtin],
    types: &mut Vec<Ty>,
) -> Result<(), AllocError>
    ensures { OnOk result (types.new.items ≡ types.old.items ++ map (T.of of.now) (derived_among schemas.now kind.now (listed_names listed.now))) }
{
    for builtin in listed {
        let t = TypeName::Builtin(*builtin);
        add_if_derived(alloc, schemas, of, kind, &t, types)?;
    }
    Ok(())
}

// Adds what stands for each of these types.
fn add_each<T: OfType>(
    alloc: Global,
    of: &T,
    kinds: &[TypeName],
    types: &mut Vec<Ty>,
) -> Result<(), AllocError>
    ensures { OnOk result (types.new.items ≡ types.old.items ++ map (T.of of.now) kinds.now) }
{
    for kind in kinds {
        types.push(of.of_type(alloc, kind)?)?;
    }
    Ok(())
}

fn add_if_derived<T: OfType>(
    alloc: Global,
    schemas: &Schemas,
    of: &T,
    kind: &TypeName,
    t: &TypeName,
    types: &mut Vec<Ty>,
) -> Result<(), AllocError>
    ensures { OnOk result (types.new.items ≡ types.old.items ++ map (T.of of.now) (derived_among schemas.now kind.now (t.now ∷ []))) }
{
    if derives(schemas, t, kind) {
        types.push(of.of_type(alloc, t)?)?;
    }
    Ok(())
}
