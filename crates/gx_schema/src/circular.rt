// Declarations that are part of themselves.

ghost use Rattle.std.specs.Prelude.{◌≡◌, ℕ, IfOk, length, option_map};
ghost use Rattle.gx_schema_components.specs.Components.{first_inner};
ghost use Rattle.gx_schema_simple.specs.Walk.{has_mark};
ghost use Rattle.gx_schema.specs.Circular.{circular, circular_attribute_group, circular_group, circular_type};
ghost use Rattle.gx_schema.specs.FirstNumber.{first_number};
ghost use Rattle.gx_schema.specs.Found.{found_by_number, globals_found};
ghost use Rattle.gx_schema.specs.SeenComponents.{attribute_groups, is_circular_attribute_group, is_circular_group, model_groups};

use crate::first_found::earlier_found;
use crate::found::{Found, found_by_number, globals_found, types_found};
use gx_schema_components::mention::ComponentKind;
use gx_schema_simple::circles::{first_circular, is_marked};
use gx_schema_simple::type_form::TypeForm;
use gx_schema_syntax::written::SchemaDocument;
use std::alloc::{AllocError, Global};

/// The first type on a circle.
pub fn circular_type(
    alloc: Global,
    documents: &[SchemaDocument],
    forms: &[TypeForm],
) -> Result<Option<Found>, AllocError>
    ensures { IfOk result (λ found. found ≡ circular_type documents.now forms.now) }
{
    match first_circular(alloc, forms)? {
        Some(number) => {
            let types = types_found(alloc, documents)?;
            Ok(Some(found_by_number(alloc, types, number)?))
        }
        None => Ok(None),
    }
}

/// The first group definition on a circle, of which there are so many; marks stand at the groups on circles.
pub fn circular_group(
    alloc: Global,
    documents: &[SchemaDocument],
    marks: &[bool],
    count: usize,
) -> Result<Option<Found>, AllocError>
    requires marks { (number : ℕ) → has_mark marks.now number ≡ is_circular_group (model_groups documents.now) number }
    requires count { count ≡ first_inner documents.now }
    ensures { IfOk result (λ found. found ≡ circular_group documents.now) }
{
    found_marked(
        alloc,
        documents,
        ComponentKind::GroupDefinition,
        first_marked(marks, count),
    )
}

/// The first attribute group on a circle, of which there are so many; marks stand at those on circles.
pub fn circular_attribute_group(
    alloc: Global,
    documents: &[SchemaDocument],
    marks: &[bool],
    count: usize,
) -> Result<Option<Found>, AllocError>
    requires marks { (number : ℕ) → has_mark marks.now number ≡ is_circular_attribute_group (attribute_groups documents.now) number }
    requires count { count ≡ length (attribute_groups documents.now) }
    ensures { IfOk result (λ found. found ≡ circular_attribute_group documents.now) }
{
    found_marked(
        alloc,
        documents,
        ComponentKind::AttributeGroupDefinition,
        first_marked(marks, count),
    )
}

// The declaration of a kind that has this number.
fn found_marked(
    alloc: Global,
    documents: &[SchemaDocument],
    kind: ComponentKind,
    number: Option<usize>,
) -> Result<Option<Found>, AllocError>
    ensures { IfOk result (λ found. found ≡ option_map (found_by_number (globals_found kind 0 documents.now)) number) }
{
    match number {
        Some(number) => {
            let declarations = globals_found(alloc, kind, documents)?;
            Ok(Some(found_by_number(alloc, declarations, number)?))
        }
        None => Ok(None),
    }
}

// The least of so many numbers that is marked.
fn first_marked(marks: &[bool], count: usize) -> Option<usize>
    ensures { result ≡ first_number (has_mark marks.now) 0 count }
{
    for number in 0..count {
        if is_marked(marks, number) {
            return Some(number);
        }
    }
    None
}
