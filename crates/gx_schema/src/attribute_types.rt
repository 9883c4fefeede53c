// Attributes whose type is a complex type.

ghost use Rattle.std.specs.Prelude.{◌≡◌, ◌++◌, IfOk, OnOk, map};
ghost use Rattle.gx_schema_components.specs.DeclaredNames.{types_in};
ghost use Rattle.gx_schema.specs.AttributeTypes.{complex_attribute_type, complex_from, complex_in_document, complex_in_global, complex_in_type, complex_local, complex_member, first_complex_member, first_complex_of, is_complex_definition, is_complex_declaration};
ghost use Rattle.gx_schema.specs.ComplexTypesView.{is_complex_in_table, AreComplexTypes};
ghost use Rattle.gx_schema.specs.FirstFound.{earlier_found, first_found, place_where};

use crate::first_found::{note_in_definition, note_in_type};
use crate::found::Found;
use gx_qnames::reference::Reference;
use gx_schema_components::mention::ComponentKind;
use gx_schema_components::names::{
    DeclaredNumbers, declared_numbers, number_in_tables, type_names_in,
};
use gx_schema_syntax::written::{
    AttributeMember, GlobalDeclaration, LocalDeclaration, SchemaDocument, TypeDeclaration,
    TypeDefinition, TypeReference,
};
use std::alloc::{AllocError, Global};

/// The numbers of declared types, and which of them are complex.
#[derive(Drop)]
struct ComplexTypes {
    numbers: DeclaredNumbers,
    are_complex: Vec<bool>,
}

/// The first attribute declaration by place, global or local, whose type is a complex type (XML Schema 1.0 part 1, section 3.2.6):
/// a local one is shown with the type or the attribute group definition that holds it most closely, a global one with its own name.
/// It is None exactly where there is none.
pub fn complex_attribute_type(
    alloc: Global,
    documents: &[SchemaDocument],
) -> Result<Option<Found>, AllocError>
    ensures { IfOk result (λ found. found ≡ complex_attribute_type documents.now) }
{
    let table = complex_types(alloc, documents)?;
    first_complex(alloc, &table, documents)
}

fn complex_types(alloc: Global, documents: &[SchemaDocument]) -> Result<ComplexTypes, AllocError>
    ensures { IfOk result (AreComplexTypes documents.now) }
{
    let names = type_names_in(alloc, documents)?;
    let numbers = declared_numbers(alloc, documents, &names)?;
    let are_complex = complex_marks(alloc, documents)?;
    Ok(ComplexTypes {
        numbers,
        are_complex,
    })
}

// For each type, whether it is complex.
fn complex_marks(alloc: Global, documents: &[SchemaDocument]) -> Result<Vec<bool>, AllocError>
    ensures { IfOk result (λ marks. marks.items ≡ map is_complex_declaration (types_in documents.now)) }
{
    let mut marks = Vec::new(alloc);
    let mut left = documents;
    while let Some((document, others)) = left.split_first() {
        add_marks(&document.types, &mut marks)?;
        left = others;
    }
    Ok(marks)
}

fn add_marks(types: &[TypeDeclaration], marks: &mut Vec<bool>) -> Result<(), AllocError>
    ensures { OnOk result (marks.new.items ≡ marks.old.items ++ map is_complex_declaration types.now) }
{
    let mut left = types;
    while let Some((declaration, others)) = left.split_first() {
        marks.push(is_complex_definition(&declaration.definition))?;
        left = others;
    }
    Ok(())
}

fn is_complex_definition(definition: &TypeDefinition) -> bool
    ensures { result ≡ is_complex_definition definition.now }
{
    match definition {
        TypeDefinition::Simple(_) => false,
        TypeDefinition::Complex(_) => true,
    }
}

// Whether a type is complex, by the table.
fn is_complex_in_table(table: &ComplexTypes, kind: &TypeReference) -> bool
    ensures { result ≡ is_complex_in_table table.now kind.now }
{
    match kind {
        TypeReference::Declared(reference) => is_complex_reference(table, reference),
        TypeReference::Builtin(_) | TypeReference::Anonymous(_) => false,
    }
}

fn is_complex_reference(table: &ComplexTypes, reference: &Reference) -> bool
    ensures { result ≡ is_complex_in_table table.now (TypeReference.Declared reference.now) }
{
    match number_in_tables(
        &table.numbers,
        ComponentKind::TypeDefinition,
        &reference.name,
    ) {
        Some(number) => table.are_complex.get(number).copied().unwrap_or(false),
        None => false,
    }
}

#[tactic(auto, using(crate::proofs::EarlierFound::earlier_steps))]
fn first_complex(
    alloc: Global,
    table: &ComplexTypes,
    documents: &[SchemaDocument],
) -> Result<Option<Found>, AllocError>
    ensures { IfOk result (λ found. found ≡ complex_from (is_complex_in_table table.now) 0 documents.now) }
{
    let mut found = None;
    let mut file = 0u32;
    let mut left = documents;
    while let Some((document, others)) = left.split_first() {
        note_document(alloc, table, file, document, &mut found)?;
        file = file.checked_add(1).ok_or(AllocError)?;
        left = others;
    }
    Ok(found)
}

#[tactic(auto, using(crate::proofs::EarlierFound::earlier_steps))]
fn note_document(
    alloc: Global,
    table: &ComplexTypes,
    file: u32,
    document: &SchemaDocument,
    found: &mut Option<Found>,
) -> Result<(), AllocError>
    ensures { OnOk result (found.new ≡ earlier_found found.old (complex_in_document (is_complex_in_table table.now) file document.now)) }
{
    note_types(alloc, table, file, &document.types, found)?;
    note_globals(alloc, table, file, &document.declarations, found)
}

#[tactic(auto, using(crate::proofs::EarlierFound::earlier_steps))]
fn note_types(
    alloc: Global,
    table: &ComplexTypes,
    file: u32,
    types: &[TypeDeclaration],
    found: &mut Option<Found>,
) -> Result<(), AllocError>
    ensures { OnOk result (found.new ≡ earlier_found found.old (first_found (complex_in_type (is_complex_in_table table.now) file) types.now)) }
{
    let mut left = types;
    while let Some((declaration, others)) = left.split_first() {
        let place = first_complex_of(table, &declaration.definition);
        note_in_type(alloc, file, &declaration.name, place, found)?;
        left = others;
    }
    Ok(())
}

#[tactic(auto, using(crate::proofs::EarlierFound::earlier_steps))]
fn note_globals(
    alloc: Global,
    table: &ComplexTypes,
    file: u32,
    declarations: &[GlobalDeclaration],
    found: &mut Option<Found>,
) -> Result<(), AllocError>
    ensures { OnOk result (found.new ≡ earlier_found found.old (first_found (complex_in_global (is_complex_in_table table.now) file) declarations.now)) }
{
    let mut left = declarations;
    while let Some((declaration, others)) = left.split_first() {
        note_global(alloc, table, file, declaration, found)?;
        left = others;
    }
    Ok(())
}

#[tactic(auto, using(crate::proofs::EarlierFound::earlier_steps))]
fn note_global(
    alloc: Global,
    table: &ComplexTypes,
    file: u32,
    declaration: &GlobalDeclaration,
    found: &mut Option<Found>,
) -> Result<(), AllocError>
    ensures { OnOk result (found.new ≡ earlier_found found.old (complex_in_global (is_complex_in_table table.now) file declaration.now)) }
{
    match declaration {
        GlobalDeclaration::Attribute { place, name, kind } => {
            let place = place_where(is_complex_in_table(table, kind), *place);
            note_in_definition(alloc, file, name, place, found)
        }
        GlobalDeclaration::AttributeGroup {
            name,
            attributes,
            ..
        } => {
            let place = first_complex_member(table, attributes.as_slice());
            note_in_definition(alloc, file, name, place, found)
        }
        GlobalDeclaration::Element { .. } | GlobalDeclaration::Group { .. } => Ok(()),
    }
}

fn first_complex_of(table: &ComplexTypes, definition: &TypeDefinition) -> Option<u64>
    ensures { result ≡ first_complex_of (is_complex_in_table table.now) definition.now }
{
    match definition {
        TypeDefinition::Simple(_) => None,
        TypeDefinition::Complex(definition) => {
            first_complex_member(table, definition.attributes.as_slice())
        }
    }
}

fn first_complex_member(table: &ComplexTypes, members: &[AttributeMember]) -> Option<u64>
    ensures { result ≡ first_complex_member (is_complex_in_table table.now) members.now }
{
    let mut left = members;
    while let Some((member, others)) = left.split_first() {
        if let Some(place) = complex_member(table, member) {
            return Some(place);
        }
        left = others;
    }
    None
}

fn complex_member(table: &ComplexTypes, member: &AttributeMember) -> Option<u64>
    ensures { result ≡ complex_member (is_complex_in_table table.now) member.now }
{
    match member {
        AttributeMember::Attribute {
            place,
            attribute: LocalDeclaration::Declared { kind, .. },
            ..
        } => place_where(is_complex_in_table(table, kind), *place),
        AttributeMember::Attribute { .. } | AttributeMember::Group { .. } => None,
    }
}

fn place_where(is_wrong: bool, place: u64) -> Option<u64>
    ensures { result ≡ place_where is_wrong place }
{
    if is_wrong { Some(place) } else { None }
}
