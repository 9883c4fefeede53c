// What passes the limits on schemas.

ghost use Rattle.std.specs.Prelude.{◌≡◌, IfOk, length, slice_index_or};
ghost use Rattle.gx_schema.specs.MeaningsView.{effective_at, is_past_limit};
ghost use Rattle.gx_schema.specs.FirstNumber.{first_number};
ghost use Rattle.gx_schema.specs.Found.{found_by_number, types_found};
ghost use Rattle.gx_schema.specs.TooLarge.{has_too_many, is_too_large, large_content, too_large};

use crate::declaration_count::past_declaration_limit;
use crate::first_found::earlier_found;
use crate::found::{Found, found_by_number, types_found};
use crate::occurrences::past_occurrence_limit;
use crate::seen_components::SeenComponents;
use crate::seen_meanings::{seen_contents, seen_positions};
use gx_base::limits::CONTENT_POSITIONS;
use gx_schema_content::effective::Effective;
use gx_schema_syntax::written::SchemaDocument;
use std::alloc::{AllocError, Global};

/// The first that passes a limit, by place: a complex type whose content has too many positions, a particle that may occur too often,
/// and the first declaration past the number of those that are read; at one place in this order.
pub fn too_large(
    alloc: Global,
    documents: &[SchemaDocument],
    seen: &SeenComponents,
) -> Result<Option<Found>, AllocError>
    ensures { IfOk result (λ found. found ≡ too_large documents.now seen.now) }
{
    let occurrence = past_occurrence_limit(alloc, documents)?;
    let declaration = past_declaration_limit(alloc, documents)?;
    let behind = earlier_found(occurrence, declaration);
    Ok(earlier_found(large_content(alloc, documents, seen)?, behind))
}

fn large_content(
    alloc: Global,
    documents: &[SchemaDocument],
    seen: &SeenComponents,
) -> Result<Option<Found>, AllocError>
    ensures { IfOk result (λ found. found ≡ large_content documents.now seen.now) }
{
    match first_too_large(alloc, seen)? {
        Some(number) => {
            let types = types_found(alloc, documents)?;
            Ok(Some(found_by_number(alloc, types, number)?))
        }
        None => Ok(None),
    }
}

// The least number of a type whose content has too many positions.
#[tactic(auto, using(crate::proofs::ContentLemmas::past_limit_is_too_large))]
fn first_too_large(alloc: Global, seen: &SeenComponents) -> Result<Option<usize>, AllocError>
    ensures { IfOk result (λ number. number ≡ first_number (is_too_large seen.now) 0 (length seen.now.types)) }
{
    let contents = seen_contents(alloc, seen)?;
    let positions = seen_positions(alloc, seen)?;
    let count = seen.types.len();
    Ok(first_past_limit(contents.as_slice(), positions.as_slice(), count))
}

// The least of so many numbers at which the tables have too many positions.
fn first_past_limit(contents: &[Effective], positions: &[usize], count: usize) -> Option<usize>
    ensures { result ≡ first_number (is_past_limit contents.now positions.now) 0 count }
{
    for number in 0..count {
        if has_too_many(is_mixed(contents, number), count_at(positions, number)) {
            return Some(number);
        }
    }
    None
}

fn is_mixed(contents: &[Effective], number: usize) -> bool
    ensures { result ≡ (effective_at contents.now number).mixed }
{
    match contents.get(number) {
        Some(effective) => effective.mixed,
        None => false,
    }
}

fn count_at(positions: &[usize], number: usize) -> usize
    ensures { result ≡ slice_index_or positions.now number 0 }
{
    positions.get(number).copied().unwrap_or(0)
}

fn has_too_many(mixed: bool, positions: usize) -> bool
    ensures { result ≡ has_too_many mixed positions }
{
    CONTENT_POSITIONS < positions || (mixed && CONTENT_POSITIONS / 2 <= positions)
}
