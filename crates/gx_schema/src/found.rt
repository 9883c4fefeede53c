// Declarations as refusals show them.

ghost use Rattle.std.specs.Prelude.{◌≡◌, ◌++◌, ◌||◌, IfOk, OnOk, map, nat_le, option_copied, option_map};
ghost use Rattle.std.specs.List.{flat_map};
ghost use Rattle.gx_schema.specs.Found.{begins_by, some_global_begins, some_type_begins, file_behind, file_of_place, found_by_number, found_global, found_named, found_type, globals_found, place_of_global, types_found};

use gx_base::name::Name;
use gx_base::text::Text;
use gx_schema_components::mention::ComponentKind;
use gx_schema_components::names::name_of_kind;
use gx_schema_syntax::written::{GlobalDeclaration, SchemaDocument, TypeDeclaration};
use gx_typetext::print::{print_name, print_type_name};
use std::alloc::{AllocError, Global};

/// A declaration, or a fault in one: the number of its file, counted from 0, the number of the element where it is, and the name of
/// the declaration.
#[derive(Drop)]
pub struct Found {
    pub file: u32,
    pub place: u64,
    pub name: Text,
}

/// The declaration of a number; a number of none gives one without a name.
pub fn found_by_number(alloc: Global, found: Vec<Found>, number: usize) -> Result<Found, AllocError>
    ensures { IfOk result (λ one. one ≡ found_by_number found.items number) }
{
    let mut found = found;
    if number < found.len() {
        return Ok(found.swap_remove(number));
    }
    Ok(Found {
        file: 0,
        place: 0,
        name: Text::empty(alloc)?,
    })
}

/// The number of the file of a place: the last one of which some declaration begins there or in front of it.
pub fn file_of_place(place: u64, documents: &[SchemaDocument]) -> Result<u32, AllocError>
    ensures { IfOk result (λ file. file ≡ file_of_place place documents.now) }
{
    let mut so_far = 0u32;
    let mut file = 0u32;
    let mut left = documents;
    while let Some((document, others)) = left.split_first() {
        if begins_by(place, document) {
            so_far = file;
        }
        file = file.checked_add(1).ok_or(AllocError)?;
        left = others;
    }
    Ok(so_far)
}

fn begins_by(place: u64, document: &SchemaDocument) -> bool
    ensures { result ≡ begins_by place document.now }
{
    some_type_begins(place, &document.types) || some_global_begins(place, &document.declarations)
}

fn some_type_begins(place: u64, types: &[TypeDeclaration]) -> bool
    ensures { result ≡ some_type_begins place types.now }
{
    types.iter().any(|declaration| declaration.place <= place)
}

fn some_global_begins(place: u64, declarations: &[GlobalDeclaration]) -> bool
    ensures { result ≡ some_global_begins place declarations.now }
{
    declarations
        .iter()
        .any(|declaration| place_of_global(declaration) <= place)
}

/// All types of documents.
pub fn types_found(alloc: Global, documents: &[SchemaDocument]) -> Result<Vec<Found>, AllocError>
    ensures { IfOk result (λ found. found.items ≡ types_found 0 documents.now) }
{
    let mut found = Vec::new(alloc);
    let mut file = 0u32;
    let mut left = documents;
    while let Some((document, others)) = left.split_first() {
        add_types(alloc, file, &document.types, &mut found)?;
        file = file.checked_add(1).ok_or(AllocError)?;
        left = others;
    }
    Ok(found)
}

fn add_types(
    alloc: Global,
    file: u32,
    types: &[TypeDeclaration],
    found: &mut Vec<Found>,
) -> Result<(), AllocError>
    ensures { OnOk result (found.new.items ≡ found.old.items ++ map (found_type file) types.now) }
{
    let mut left = types;
    while let Some((declaration, others)) = left.split_first() {
        found.push(found_type(alloc, file, declaration)?)?;
        left = others;
    }
    Ok(())
}

fn found_type(alloc: Global, file: u32, declaration: &TypeDeclaration) -> Result<Found, AllocError>
    ensures { IfOk result (λ found. found ≡ found_type file declaration.now) }
{
    Ok(Found {
        file,
        place: declaration.place,
        name: print_type_name(alloc, &declaration.name)?,
    })
}

/// All global declarations of a kind, other than types.
pub fn globals_found(
    alloc: Global,
    kind: ComponentKind,
    documents: &[SchemaDocument],
) -> Result<Vec<Found>, AllocError>
    ensures { IfOk result (λ found. found.items ≡ globals_found kind 0 documents.now) }
{
    let mut found = Vec::new(alloc);
    let mut file = 0u32;
    let mut left = documents;
    while let Some((document, others)) = left.split_first() {
        add_globals(alloc, kind, file, &document.declarations, &mut found)?;
        file = file.checked_add(1).ok_or(AllocError)?;
        left = others;
    }
    Ok(found)
}

fn add_globals(
    alloc: Global,
    kind: ComponentKind,
    file: u32,
    declarations: &[GlobalDeclaration],
    found: &mut Vec<Found>,
) -> Result<(), AllocError>
    ensures { OnOk result (found.new.items ≡ found.old.items ++ flat_map (found_global kind file) declarations.now) }
{
    let mut left = declarations;
    while let Some((declaration, others)) = left.split_first() {
        if let Some(name) = name_of_kind(kind, declaration) {
            found.push(found_named(alloc, file, place_of_global(declaration), name)?)?;
        }
        left = others;
    }
    Ok(())
}

fn found_named(alloc: Global, file: u32, place: u64, name: &Name) -> Result<Found, AllocError>
    ensures { IfOk result (λ found. found ≡ found_named file place name.now) }
{
    let name = print_name(alloc, name)?;
    Ok(Found { file, place, name })
}

fn place_of_global(declaration: &GlobalDeclaration) -> u64
    ensures { result ≡ place_of_global declaration.now }
{
    match declaration {
        GlobalDeclaration::Element { place, .. }
        | GlobalDeclaration::Attribute { place, .. }
        | GlobalDeclaration::Group { place, .. }
        | GlobalDeclaration::AttributeGroup { place, .. } => *place,
    }
}
