// The names of global declarations and their numbers.

ghost use Rattle.std.specs.Prelude.{◌≡◌, ◌++◌, IfOk, OnOk, option_copied, option_to_list, map};
ghost use Rattle.indexmap.specs.IndexMap.{get};
ghost use Rattle.gx_base.specs.Name.{same_name};
ghost use Rattle.gx_base.specs.declared.name.Name.{Name as NameRecord};
ghost use Rattle.gx_schema_syntax.specs.declared.written.TypeDeclaration.{TypeDeclaration as TypeRecord};
ghost use Rattle.gx_references.specs.Numbers.{first_from};
ghost use Rattle.gx_schema_components.specs.DeclaredNames.{declarations_in, first_type_from, name_of_kind, names_of_kind, type_names_in};
ghost use Rattle.gx_schema_components.specs.NamesView.{IsNumbering, number_in_tables};

use crate::mention::ComponentKind;
use gx_base::name::Name;
use gx_base::type_name::TypeName;
use gx_references::names::numbers;
use gx_schema_syntax::written::{GlobalDeclaration, SchemaDocument, TypeDeclaration};
use indexmap::IndexMap;
use std::alloc::{AllocError, Global};

/// The numbers of global declarations by name, for each kind.
#[derive(Drop)]
pub struct DeclaredNumbers {
    pub types: IndexMap<Name, usize>,
    pub elements: IndexMap<Name, usize>,
    pub attributes: IndexMap<Name, usize>,
    pub groups: IndexMap<Name, usize>,
    pub attribute_groups: IndexMap<Name, usize>,
}

/// The number of the global declaration of a kind that a name refers to.
pub fn number_in_tables(
    numbers: &DeclaredNumbers,
    kind: ComponentKind,
    name: &Name,
) -> Option<usize>
    ensures { result ≡ number_in_tables numbers.now kind name.now }
{
    let table = match kind {
        ComponentKind::TypeDefinition => &numbers.types,
        ComponentKind::ElementDeclaration => &numbers.elements,
        ComponentKind::AttributeDeclaration => &numbers.attributes,
        ComponentKind::GroupDefinition => &numbers.groups,
        ComponentKind::AttributeGroupDefinition => &numbers.attribute_groups,
    };
    table.get(name).copied()
}

/// The numbers of the global declarations of documents.
pub fn declared_numbers(
    alloc: Global,
    documents: &[SchemaDocument],
    type_names: &[TypeName],
) -> Result<DeclaredNumbers, AllocError>
    requires { type_names.now ≡ type_names_in documents.now }
    ensures { IfOk result (IsNumbering documents.now) }
{
    let types = type_numbers(alloc, type_names)?;
    let elements = numbers_of_kind(alloc, ComponentKind::ElementDeclaration, documents)?;
    let attributes = numbers_of_kind(alloc, ComponentKind::AttributeDeclaration, documents)?;
    let groups = numbers_of_kind(alloc, ComponentKind::GroupDefinition, documents)?;
    let kind = ComponentKind::AttributeGroupDefinition;
    let attribute_groups = numbers_of_kind(alloc, kind, documents)?;
    Ok(DeclaredNumbers {
        types,
        elements,
        attributes,
        groups,
        attribute_groups,
    })
}

/// The names of all types of documents.
#[tactic(auto, using(std::proofs::lemmas::Grind::common_steps, crate::proofs::TypeNames::type_names_more))]
pub fn type_names_in(
    alloc: Global,
    documents: &[SchemaDocument],
) -> Result<Vec<TypeName>, AllocError>
    ensures { IfOk result (λ names. names.items ≡ type_names_in documents.now) }
{
    let mut names = Vec::new(alloc);
    let mut left = documents;
    while let Some((document, others)) = left.split_first() {
        add_type_names(&document.types, &mut names)?;
        left = others;
    }
    Ok(names)
}

fn add_type_names(types: &[TypeDeclaration], names: &mut Vec<TypeName>) -> Result<(), AllocError>
    ensures { OnOk result (names.new.items ≡ names.old.items ++ map (λ (t : TypeRecord). t.name) types.now) }
{
    let mut left = types;
    while let Some((declaration, others)) = left.split_first() {
        names.push(declaration.name.clone()?)?;
        left = others;
    }
    Ok(())
}

// Of equal names the first has its number in the table.
fn type_numbers(alloc: Global, names: &[TypeName]) -> Result<IndexMap<Name, usize>, AllocError>
    ensures { IfOk result (λ table. (name : NameRecord) → get same_name table name ≡ first_type_from 0 names.now name) }
{
    let mut table = IndexMap::new(alloc);
    for number in (0..names.len()).rev() {
        if let TypeName::Named(name) = &names[number] {
            table.insert(name.name().clone()?, number)?;
        }
    }
    Ok(table)
}

fn numbers_of_kind(
    alloc: Global,
    kind: ComponentKind,
    documents: &[SchemaDocument],
) -> Result<IndexMap<Name, usize>, AllocError>
    ensures { IfOk result (λ table. (name : NameRecord) → get same_name table name ≡ first_from 0 (names_of_kind kind (declarations_in documents.now)) name) }
{
    let names = names_of_kind(alloc, kind, documents)?;
    numbers(alloc, &names)
}

/// The names of the global declarations of a kind, in the order of the documents.
pub fn names_of_kind(
    alloc: Global,
    kind: ComponentKind,
    documents: &[SchemaDocument],
) -> Result<Vec<Name>, AllocError>
    ensures { IfOk result (λ names. names.items ≡ names_of_kind kind (declarations_in documents.now)) }
{
    let mut names = Vec::new(alloc);
    let mut left = documents;
    while let Some((document, others)) = left.split_first() {
        add_names_of_kind(kind, &document.declarations, &mut names)?;
        left = others;
    }
    Ok(names)
}

fn add_names_of_kind(
    kind: ComponentKind,
    declarations: &[GlobalDeclaration],
    names: &mut Vec<Name>,
) -> Result<(), AllocError>
    ensures { OnOk result (names.new.items ≡ names.old.items ++ names_of_kind kind declarations.now) }
{
    let mut left = declarations;
    while let Some((declaration, others)) = left.split_first() {
        if let Some(name) = name_of_kind(kind, declaration) {
            names.push(name.clone()?)?;
        }
        left = others;
    }
    Ok(())
}

/// The name of a declaration, if it is of this kind.
pub fn name_of_kind(kind: ComponentKind, declaration: &GlobalDeclaration) -> Option<&Name>
    ensures { option_to_list (option_copied result) ≡ name_of_kind kind declaration.now }
{
    match (kind, declaration) {
        (ComponentKind::ElementDeclaration, GlobalDeclaration::Element { name, .. })
        | (ComponentKind::AttributeDeclaration, GlobalDeclaration::Attribute { name, .. })
        | (ComponentKind::GroupDefinition, GlobalDeclaration::Group { name, .. })
        | (
            ComponentKind::AttributeGroupDefinition,
            GlobalDeclaration::AttributeGroup { name, .. },
        ) => { Some(name) }
        _ => None,
    }
}
