// The declared types that are derived from a type, as they are listed for each declared type.

ghost use Rattle.std.specs.Prelude.{◌≡◌, ◌++◌, [], ◌∷◌, ◌<◌, IfOk, IfSome, OnOk, IsTrue, if◌then◌else◌, option_copied};
ghost use Rattle.std.specs.declared.alloc.Global.{Global};
ghost use Rattle.std.specs.Prelude.{Vec};
ghost use Rattle.gx_base.specs.declared.type_name.TypeName.{TypeName as NameOfType};
ghost use Rattle.gx_types.specs.TypeIndex.{equal_kinds};
ghost use Rattle.gx_include_derivations.specs.Derivations.{derived_types as types_derived};
ghost use Rattle.gx_steptype.specs.ListedTypes.{alone_if_derived, types_listed, OfDeclared, AreDerivedLists};

use gx_base::type_name::TypeName;
use gx_types::schemas::Schemas;
use indexmap::IndexMap;
use std::alloc::{AllocError, Global};

// As many steps from types to their bases are taken as there are types, this often.
const STEPS_OF_A_TYPE: usize = 16;

// The lists of the declared types that are derived from each declared type, or no list where that takes many steps.
pub(crate) fn type_lists(
    alloc: Global,
    schemas: &Schemas,
) -> Result<IndexMap<TypeName, Vec<TypeName>>, AllocError>
    ensures { IfOk result (λ lists. AreDerivedLists schemas.now lists) }
{
    let mut lists = IndexMap::new(alloc);
    if add_types(alloc, schemas, &mut lists)? {
        return Ok(lists);
    }
    drop(lists);
    Ok(IndexMap::new(alloc))
}

// Puts each declared type behind the types that are listed for those from which it is derived, unless that takes too many steps.
fn add_types(
    alloc: Global,
    schemas: &Schemas,
    lists: &mut IndexMap<TypeName, Vec<TypeName>>,
) -> Result<bool, AllocError>
    ensures { IfOk result (λ all. IsTrue all → OfDeclared schemas.now (λ kind. types_listed lists.new kind ≡ types_listed lists.old kind ++ types_derived schemas.now kind)) }
{
    let types = schemas.types();
    let mut left = types.len().saturating_mul(STEPS_OF_A_TYPE);
    for declared in types {
        left = add_to_bases(alloc, schemas, &declared.name, left, lists)?;
        if left == 0 {
            return Ok(false);
        }
    }
    Ok(true)
}

// Puts a type behind the types that are listed for it and for its bases, and gives how many steps are left then.
fn add_to_bases(
    alloc: Global,
    schemas: &Schemas,
    t: &TypeName,
    left: usize,
    lists: &mut IndexMap<TypeName, Vec<TypeName>>,
) -> Result<usize, AllocError>
    ensures { IfOk result (λ rest. 0 < rest → OfDeclared schemas.now (λ kind. types_listed lists.new kind ≡ types_listed lists.old kind ++ alone_if_derived schemas.now t.now t.now kind)) }
{
    let _types = schemas.types();
    let mut at = t;
    for step in 0..left {
        match schemas.declared(at) {
            Some(declared) => {
                add_type(alloc, at, t, lists)?;
                at = &declared.base;
            }
            None => return Ok(left - step),
        }
    }
    Ok(0)
}

// Puts a type behind those that are listed for another one.
fn add_type(
    alloc: Global,
    base: &TypeName,
    t: &TypeName,
    lists: &mut IndexMap<TypeName, Vec<TypeName>>,
) -> Result<(), AllocError>
    ensures { OnOk result ((kind : NameOfType) → types_listed lists.new kind ≡ types_listed lists.old kind ++ (if equal_kinds base.now kind then t.now ∷ [] else [])) }
{
    let t = t.clone()?;
    if let Some(types) = lists.get_mut(base) {
        types.push(t)?;
        return Ok(());
    }
    let mut types = Vec::new(alloc);
    types.push(t)?;
    lists.insert(base.clone()?, types)?;
    Ok(())
}

// The types that are listed for a declared type.
pub(crate) fn listed<'l>(
    schemas: &Schemas,
    lists: &'l IndexMap<TypeName, Vec<TypeName>>,
    kind: &TypeName,
) -> Option<&'l Vec<TypeName>>
    requires { AreDerivedLists schemas.now lists.now }
    ensures { IfSome (option_copied result) (λ (types : Vec NameOfType Global). types.items ≡ types_derived schemas.now kind.now) }
{
    if schemas.declared(kind).is_none() {
        return None;
    }
    lists.get(kind)
}

// A list of the same types.
pub(crate) fn same_types(alloc: Global, types: &[TypeName]) -> Result<Vec<TypeName>, AllocError>
    ensures { IfOk result (λ copied. copied.items ≡ types.now) }
{
    let mut copied = Vec::new(alloc);
    for t in types {
        copied.push(t.clone()?)?;
    }
    Ok(copied)
}
