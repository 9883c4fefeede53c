// Declarations that disagree.

ghost use Rattle.std.specs.Prelude.{◌≡◌, IfOk, Some};
ghost use Rattle.gx_schema.specs.Inconsistent.{extension_found, disagreeing_element, doubled_attribute, doubled_declaration, faulty_complex_type, faulty_declaration, faulty_derivation, faulty_type, found_particle, inconsistent};
ghost use Rattle.gx_schema.specs.FirstFound.{earlier_found};
ghost use Rattle.gx_schema.specs.Found.{file_of_place, found_by_number, found_in_place, types_found};

use crate::attribute_types::complex_attribute_type;
use crate::derivation_faults::first_derivation_fault;
use crate::doubled::{doubled_of_kind, doubled_type};
use crate::first_found::earlier_found;
use crate::found::{Found, file_of_place, found_by_number, types_found};
use crate::occurrences::disordered_bounds;
use crate::seen_components::SeenComponents;
use gx_schema_attributes::doubled::first_doubled;
use gx_schema_components::mention::ComponentKind;
use gx_schema_content::disagreement::first_disagreement;
use gx_schema_content::extensions::first_differing_extension;
use gx_schema_simple::faults::first_type_fault;
use gx_schema_simple::type_form::TypeForm;
use gx_schema_syntax::written::SchemaDocument;
use gx_typetext::print::print_name;
use std::alloc::{AllocError, Global};

/// The first declaration that disagrees with others, by place, and at one place in this order: the second global declaration of a name and
/// kind; a faulty complex type; a faulty simple type; an attribute of a complex type, or a particle whose bounds are out of order.
pub fn inconsistent(
    alloc: Global,
    documents: &[SchemaDocument],
    forms: &[TypeForm],
    seen: &SeenComponents,
) -> Result<Option<Found>, AllocError>
    ensures { IfOk result (λ found. found ≡ inconsistent documents.now forms.now seen.now) }
{
    let declaration = faulty_declaration(alloc, documents)?;
    let simple_type = faulty_type(alloc, documents, forms)?;
    let behind = earlier_found(simple_type, declaration);
    inconsistent_before(alloc, documents, forms, seen, behind)
}

// The first of doubled declarations, faulty complex types, and what was found beside them.
fn inconsistent_before(
    alloc: Global,
    documents: &[SchemaDocument],
    forms: &[TypeForm],
    seen: &SeenComponents,
    behind: Option<Found>,
) -> Result<Option<Found>, AllocError>
    ensures { IfOk result (λ found. found ≡ earlier_found (doubled_declaration documents.now) (earlier_found (faulty_complex_type documents.now forms.now seen.now) behind)) }
{
    let complex_type = faulty_complex_type(alloc, documents, forms, seen)?;
    let doubled = doubled_declaration(alloc, documents)?;
    Ok(earlier_found(doubled, earlier_found(complex_type, behind)))
}

fn doubled_declaration(
    alloc: Global,
    documents: &[SchemaDocument],
) -> Result<Option<Found>, AllocError>
    ensures { IfOk result (λ found. found ≡ doubled_declaration documents.now) }
{
    let mut found = doubled_of_kind(alloc, documents, ComponentKind::AttributeGroupDefinition)?;
    found = earlier_found(
        doubled_of_kind(alloc, documents, ComponentKind::GroupDefinition)?,
        found,
    );
    let attribute = doubled_of_kind(alloc, documents, ComponentKind::AttributeDeclaration)?;
    let element = doubled_of_kind(alloc, documents, ComponentKind::ElementDeclaration)?;
    Ok(earlier_found(
        doubled_type(alloc, documents)?,
        earlier_found(element, earlier_found(attribute, found)),
    ))
}

fn faulty_type(
    alloc: Global,
    documents: &[SchemaDocument],
    forms: &[TypeForm],
) -> Result<Option<Found>, AllocError>
    ensures { IfOk result (λ found. found ≡ faulty_type documents.now forms.now) }
{
    match first_type_fault(alloc, forms)? {
        Some(fault) => found_in_type(alloc, documents, fault.place, fault.number),
        None => Ok(None),
    }
}

// What stands at a place in the type of a number.
fn found_in_type(
    alloc: Global,
    documents: &[SchemaDocument],
    place: u64,
    number: usize,
) -> Result<Option<Found>, AllocError>
    ensures { IfOk result (λ found. found ≡ Some (found_in_place place (found_by_number (types_found 0 documents.now) number))) }
{
    let holder = found_by_number(alloc, types_found(alloc, documents)?, number)?;
    Ok(Some(Found {
        file: holder.file,
        place,
        name: holder.name,
    }))
}

fn faulty_declaration(
    alloc: Global,
    documents: &[SchemaDocument],
) -> Result<Option<Found>, AllocError>
    ensures { IfOk result (λ found. found ≡ faulty_declaration documents.now) }
{
    let bounds = disordered_bounds(alloc, documents)?;
    let attribute = complex_attribute_type(alloc, documents)?;
    Ok(earlier_found(attribute, bounds))
}

fn faulty_complex_type(
    alloc: Global,
    documents: &[SchemaDocument],
    forms: &[TypeForm],
    seen: &SeenComponents,
) -> Result<Option<Found>, AllocError>
    ensures { IfOk result (λ found. found ≡ faulty_complex_type documents.now forms.now seen.now) }
{
    let derivation = faulty_derivation(alloc, documents, forms, seen)?;
    let extension = extension_found(alloc, documents, seen)?;
    faulty_member_before(alloc, documents, seen, earlier_found(extension, derivation))
}

// The first of doubled attributes, elements that disagree, and what was found beside them.
fn faulty_member_before(
    alloc: Global,
    documents: &[SchemaDocument],
    seen: &SeenComponents,
    behind: Option<Found>,
) -> Result<Option<Found>, AllocError>
    ensures { IfOk result (λ found. found ≡ earlier_found (doubled_attribute documents.now seen.now) (earlier_found (disagreeing_element documents.now seen.now) behind)) }
{
    let element = disagreeing_element(alloc, documents, seen)?;
    let attribute = doubled_attribute(alloc, documents, seen)?;
    Ok(earlier_found(attribute, earlier_found(element, behind)))
}

fn faulty_derivation(
    alloc: Global,
    documents: &[SchemaDocument],
    forms: &[TypeForm],
    seen: &SeenComponents,
) -> Result<Option<Found>, AllocError>
    ensures { IfOk result (λ found. found ≡ faulty_derivation documents.now forms.now seen.now) }
{
    match first_derivation_fault(forms, &seen.types) {
        Some(fault) => found_in_type(alloc, documents, fault.place, fault.number),
        None => Ok(None),
    }
}

fn extension_found(
    alloc: Global,
    documents: &[SchemaDocument],
    seen: &SeenComponents,
) -> Result<Option<Found>, AllocError>
    ensures { IfOk result (λ found. found ≡ extension_found documents.now seen.now) }
{
    match first_differing_extension(alloc, &seen.types, &seen.groups)? {
        Some(extension) => found_in_type(alloc, documents, extension.place, extension.number),
        None => Ok(None),
    }
}

fn disagreeing_element(
    alloc: Global,
    documents: &[SchemaDocument],
    seen: &SeenComponents,
) -> Result<Option<Found>, AllocError>
    ensures { IfOk result (λ found. found ≡ disagreeing_element documents.now seen.now) }
{
    match first_disagreement(alloc, &seen.types, &seen.groups)? {
        Some(particle) => Ok(Some(Found {
            file: file_of_place(particle.place, documents)?,
            place: particle.place,
            name: print_name(alloc, &particle.name)?,
        })),
        None => Ok(None),
    }
}

fn doubled_attribute(
    alloc: Global,
    documents: &[SchemaDocument],
    seen: &SeenComponents,
) -> Result<Option<Found>, AllocError>
    ensures { IfOk result (λ found. found ≡ doubled_attribute documents.now seen.now) }
{
    let Some(doubled) = first_doubled(alloc, &seen.types, &seen.attribute_groups)? else {
        return Ok(None);
    };
    let name = print_name(alloc, &doubled.name)?;
    let holder = found_by_number(alloc, types_found(alloc, documents)?, doubled.number)?;
    Ok(Some(Found {
        file: holder.file,
        place: doubled.place,
        name,
    }))
}
