// The contents, the positions and the attributes of the types that are seen, and which of them are restrictions.

ghost use Rattle.std.specs.Prelude.{◌≡◌, ℕ, IfOk, [], slice_index_or};
ghost use Rattle.gx_schema_attributes.specs.TypeUses.{uses_of_type};
ghost use Rattle.gx_schema_content.specs.ContentKnots.{content_of_type};
ghost use Rattle.gx_schema_content.specs.PositionKnots.{positions_of_type};
ghost use Rattle.gx_schema.specs.MeaningsView.{effective_at};
ghost use Rattle.gx_schema.specs.RestrictedTypes.{restricted_types};

use crate::restricted_types::restricted_types;
use crate::seen_components::SeenComponents;
use gx_schema_attributes::uses::attribute_uses;
use gx_schema_content::contents::contents;
use gx_schema_content::effective::Effective;
use gx_schema_content::positions::type_positions;
use gx_types::declaration::AttributeUses;
use std::alloc::{AllocError, Global};

/// The content of each type.
#[tactic(auto, using(crate::proofs::ContentLemmas::content_in_table))]
pub fn seen_contents(alloc: Global, seen: &SeenComponents) -> Result<Vec<Effective>, AllocError>
    ensures { IfOk result (λ contents. (number : ℕ) → effective_at contents.items number ≡ content_of_type seen.now.types seen.now.groups number) }
{
    contents(alloc, &seen.types, &seen.groups)
}

/// The positions of the content of each type.
#[tactic(auto, using(crate::proofs::ContentLemmas::positions_in_table))]
pub fn seen_positions(alloc: Global, seen: &SeenComponents) -> Result<Vec<usize>, AllocError>
    ensures { IfOk result (λ positions. (number : ℕ) → slice_index_or positions.items number 0 ≡ positions_of_type seen.now.types seen.now.groups number) }
{
    type_positions(alloc, &seen.types, &seen.groups)
}

/// The attributes of each type.
pub fn seen_uses(alloc: Global, seen: &SeenComponents) -> Result<Vec<AttributeUses>, AllocError>
    ensures { IfOk result (λ uses. (number : ℕ) → slice_index_or uses.items number [] ≡ uses_of_type seen.now.types seen.now.attribute_groups number) }
{
    attribute_uses(alloc, &seen.types, &seen.attribute_groups)
}

/// Which types are restrictions of complex types.
pub fn seen_restrictions(alloc: Global, seen: &SeenComponents) -> Result<Vec<bool>, AllocError>
    ensures { IfOk result (λ restricted. restricted.items ≡ restricted_types seen.now.types) }
{
    restricted_types(alloc, &seen.types)
}
