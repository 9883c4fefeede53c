// The declared types that are derived from a type, where it is asked for many types.

ghost use Rattle.std.specs.Prelude.{◌≡◌, [], ◌∷◌, IfOk, IfSome, OnOk, option_copied};
ghost use Rattle.indexmap.specs.IndexSet.{insert_all};
ghost use Rattle.gx_types.specs.TypeIndex.{equal_kinds};
ghost use Rattle.gx_types.specs.declared.declaration.Declared.{Declared as Declaration};
ghost use Rattle.gx_include_derivations.specs.Derivations.{derived_types as types_derived};
ghost use Rattle.gx_steptype.specs.DeclaredBases.{declared_bases, HasBases};
ghost use Rattle.gx_steptype.specs.ListedTypes.{AreDerivedLists};

use crate::type_lists::{listed, same_types, type_lists};
use gx_base::type_name::TypeName;
use gx_include_derivations::derivations::Derivations;
use gx_types::declaration::Declared;
use gx_types::item_type::ItemType;
use gx_types::schemas::Schemas;
use indexmap::{IndexMap, IndexSet};
use std::alloc::{AllocError, Global};
use std::marker::Model;

// Schemas with what is asked about derivation: which types are the base of a declared type, which types are derived from those that
// were asked for, and, once a base was asked for, the lists of the types that are derived from each declared type.
#[derive(Drop)]
pub(crate) struct DerivedTypes<'a> {
    derivations: Derivations<'a>,
    bases: IndexSet<TypeName>,
    lists: Option<IndexMap<TypeName, Vec<TypeName>>>,
}

impl<'a> Model for DerivedTypes<'a> {
    ghost use Rattle.gx_types.specs.SchemaSet.{SchemaSet};
    ghost use Rattle.gx_types.specs.contracts.sequence_type.Ty as kinds;
    ghost use Rattle.std.specs.Coded.{codes};
    ghost use Rattle.std.specs.Prelude.{IfSome};
    ghost use Rattle.gx_steptype.specs.DeclaredBases.{HasBases};
    ghost use Rattle.gx_steptype.specs.ListedTypes.{AreDerivedLists};

    ghost Value = { SchemaSet };

    ghost coded = { Prim.hlevel (codes, kinds.the_row.coded) };

    ghost view = { λ derived. derived.derivations };

    ghost invariant = { λ derived. HasBases derived.derivations derived.bases.keys × IfSome derived.lists (AreDerivedLists derived.derivations) };
}

impl<'a> DerivedTypes<'a> {
    ghost use Rattle.std.specs.Prelude.{◌≡◌, IfOk};
    ghost use Rattle.gx_include_derivations.specs.Derivations.{derived_types as types_derived};

    // The derived types of schemas.
    pub(crate) fn new(alloc: Global, schemas: &'a Schemas) -> Result<DerivedTypes<'a>, AllocError>
        ensures { IfOk result (λ derived. derived ≡ schemas.now) }
    {
        let bases = bases_of(alloc, schemas)?;
        let derivations = Derivations::new(alloc, schemas)?;
        Ok(DerivedTypes {
            derivations,
            bases,
            lists: None,
        })
    }

    // The schemas.
    pub(crate) fn schemas(&self) -> &'a Schemas
        ensures { result.now ≡ self.now }
    {
        self.derivations.schemas()
    }

    // The declared types that are derived from a type. One that is the base of none stands alone.
    pub(crate) fn of(&mut self, alloc: Global, kind: &TypeName) -> Result<Vec<TypeName>, AllocError>
        ensures same { self.new ≡ self.old }
        ensures types { IfOk result (λ types. types.items ≡ types_derived self.old kind.now) }
    {
        match declared_alone(self.derivations.schemas(), &self.bases, kind) {
            Some(declared) => only_name(alloc, declared),
            None => of_base(alloc, &mut self.derivations, &mut self.lists, kind),
        }
    }
}

// The bases of the declared types.
fn bases_of(alloc: Global, schemas: &Schemas) -> Result<IndexSet<TypeName>, AllocError>
    ensures { IfOk result (λ bases. HasBases schemas.now bases.keys) }
{
    let mut bases = IndexSet::new(alloc);
    add_bases(&mut bases, schemas.types())?;
    Ok(bases)
}

// Puts the bases of these types behind those of a set, unless an equal one is there.
fn add_bases(bases: &mut IndexSet<TypeName>, types: &[Declared]) -> Result<(), AllocError>
    ensures { OnOk result (bases.new.keys ≡ insert_all equal_kinds bases.old.keys (declared_bases types.now)) }
{
    for declared in types {
        bases.insert(declared.base.clone()?)?;
    }
    Ok(())
}

// The declaration of a type from which no other declared type is derived, as it is the base of none.
fn declared_alone<'s>(
    schemas: &'s Schemas,
    bases: &IndexSet<TypeName>,
    kind: &TypeName,
) -> Option<&'s Declared>
    requires { HasBases schemas.now bases.now.keys }
    ensures { IfSome (option_copied result) (λ (declared : Declaration). types_derived schemas.now kind.now ≡ declared.name ∷ []) }
{
    let _types = schemas.types();
    if bases.contains(kind) {
        return None;
    }
    schemas.declared(kind)
}

// The name of a declared type.
fn only_name(alloc: Global, declared: &Declared) -> Result<Vec<TypeName>, AllocError>
    ensures { IfOk result (λ types. types.items ≡ declared.now.name ∷ []) }
{
    let mut types = Vec::new(alloc);
    types.push(declared.name.clone()?)?;
    Ok(types)
}

// The declared types that are derived from a type, by the lists of types, which are made where there are none yet.
fn of_base(
    alloc: Global,
    derivations: &mut Derivations<'_>,
    lists: &mut Option<IndexMap<TypeName, Vec<TypeName>>>,
    kind: &TypeName,
) -> Result<Vec<TypeName>, AllocError>
    requires { IfSome lists.old (AreDerivedLists derivations.old) }
    ensures same { derivations.new ≡ derivations.old }
    ensures lists { IfSome lists.new (AreDerivedLists derivations.old) }
    ensures types { IfOk result (λ types. types.items ≡ types_derived derivations.old kind.now) }
{
    if let Some(made) = lists {
        return listed_or_found(alloc, derivations, made, kind);
    }
    let made = type_lists(alloc, derivations.schemas())?;
    let types = listed_or_found(alloc, derivations, &made, kind);
    *lists = Some(made);
    types
}

// The declared types that are derived from a type: those that are listed for it, or found among all declared types.
fn listed_or_found(
    alloc: Global,
    derivations: &mut Derivations<'_>,
    lists: &IndexMap<TypeName, Vec<TypeName>>,
    kind: &TypeName,
) -> Result<Vec<TypeName>, AllocError>
    requires { AreDerivedLists derivations.old lists.now }
    ensures same { derivations.new ≡ derivations.old }
    ensures types { IfOk result (λ types. types.items ≡ types_derived derivations.old kind.now) }
{
    match listed(derivations.schemas(), lists, kind) {
        Some(types) => same_types(alloc, types.as_slice()),
        None => derived_from(alloc, derivations, kind),
    }
}

// The declared types that are derived from a type, of all declared types.
#[tactic(auto, using(crate::proofs::DerivedLemmas::asked_are_derived))]
fn derived_from(
    alloc: Global,
    derivations: &mut Derivations<'_>,
    kind: &TypeName,
) -> Result<Vec<TypeName>, AllocError>
    ensures same { derivations.new ≡ derivations.old }
    ensures types { IfOk result (λ types. types.items ≡ types_derived derivations.old kind.now) }
{
    let kind = kind.clone()?;
    let elements = [ItemType::Element { name: None, kind }];
    derivations.ask(alloc, &elements)?;
    derivations.types_asked(alloc, &elements)
}
