// The positions of all groups and types.

ghost use Rattle.std.specs.Prelude.{◌≡◌, ℕ, IfOk, length, map};
ghost use Rattle.gx_references.specs.Known.{known};
ghost use Rattle.gx_schema_content.specs.Knots.{IsListBelow, meaning_at_ends};
ghost use Rattle.gx_schema_content.specs.PositionKnots.{counted_type, is_within_limit, positions_of_group, positions_of_type};
ghost use Rattle.gx_schema_content.specs.Sources.{extended_types};
ghost use Rattle.gx_schema_content.specs.Views.{counted_over, group_counted, type_counted};

use crate::group_positions::{GroupPositions, known_positions};
use crate::knot::known_meanings;
use crate::type_positions::TypePositions;
use gx_base::limits::CONTENT_POSITIONS;
use gx_schema_components::component::{ModelGroup, TypeComponent};
use std::alloc::{AllocError, Global};

/// The positions of all groups, and those of the contents of all types, by number.
#[derive(Drop)]
pub struct PositionTables {
    pub groups: Vec<Option<usize>>,
    pub types: Vec<Option<usize>>,
}

/// Whether a content may have so many positions.
pub fn is_within_limit(positions: usize) -> bool
    ensures { result ≡ is_within_limit positions }
{
    positions <= CONTENT_POSITIONS
}

/// The positions of each model group, to one more than the limit of a content; none where there is no entry. Where the references
/// among groups come to no end, nothing is seen.
pub fn group_positions(
    alloc: Global,
    groups: &[ModelGroup],
) -> Result<Vec<Option<usize>>, AllocError>
    ensures { IfOk result (λ table. (number : ℕ) → known 0 table.items number ≡ positions_of_group groups.now number) }
{
    let bodies = counted_groups(alloc, groups)?;
    known_meanings(alloc, bodies.as_slice())
}

fn counted_groups(
    alloc: Global,
    groups: &[ModelGroup],
) -> Result<Vec<GroupPositions<'_>>, AllocError>
    ensures { IfOk result (λ bodies. map group_counted bodies.items ≡ groups.now) }
{
    let mut bodies = Vec::with_capacity(alloc, groups.len())?;
    for group in groups {
        bodies.push(GroupPositions { group })?;
    }
    Ok(bodies)
}

/// The positions of the content of each type, texts left out, to one more than the limit of a content (XML Schema 1.0 part 1,
/// section 3.4.2). Where the references among groups or among types come to no end, nothing is seen of them.
pub fn type_positions(
    alloc: Global,
    types: &[TypeComponent],
    groups: &[ModelGroup],
) -> Result<Vec<usize>, AllocError>
    ensures { IfOk result (λ counts. IsListBelow (length types.now) (positions_of_type types.now groups.now) counts.items) }
{
    let tables = position_tables(alloc, types, groups)?;
    counts_of(alloc, types.len(), tables.types.as_slice())
}

/// The positions of all groups and types.
pub fn position_tables(
    alloc: Global,
    types: &[TypeComponent],
    groups: &[ModelGroup],
) -> Result<PositionTables, AllocError>
    ensures groups { IfOk result (λ tables. (number : ℕ) → known 0 tables.groups.items number ≡ positions_of_group groups.now number) }
    ensures types { IfOk result (λ tables. (number : ℕ) → known 0 tables.types.items number ≡ positions_of_type types.now groups.now number) }
{
    let groups = group_positions(alloc, groups)?;
    let types = positions_over(alloc, types, groups.as_slice())?;
    Ok(PositionTables { groups, types })
}

// The positions of types, over those of groups.
fn positions_over(
    alloc: Global,
    types: &[TypeComponent],
    groups: &[Option<usize>],
) -> Result<Vec<Option<usize>>, AllocError>
    ensures { IfOk result (λ table. (number : ℕ) → known 0 table.items number ≡ meaning_at_ends extended_types (counted_type (known 0 groups.now)) 0 types.now number) }
{
    let bodies = counted_types(alloc, types, groups)?;
    known_meanings(alloc, bodies.as_slice())
}

fn counted_types<'a>(
    alloc: Global,
    types: &'a [TypeComponent],
    groups: &'a [Option<usize>],
) -> Result<Vec<TypePositions<'a>>, AllocError>
    ensures { IfOk result (λ bodies. map type_counted bodies.items ≡ map (counted_over (known 0 groups.now)) types.now) }
{
    let mut bodies = Vec::with_capacity(alloc, types.len())?;
    for component in types {
        bodies.push(TypePositions { component, groups })?;
    }
    Ok(bodies)
}

// What a table has at each number below a count.
fn counts_of(alloc: Global, count: usize, table: &[Option<usize>]) -> Result<Vec<usize>, AllocError>
    ensures { IfOk result (λ counts. IsListBelow count (known 0 table.now) counts.items) }
{
    let mut counts = Vec::with_capacity(alloc, count)?;
    for number in 0..count {
        counts.push(known_positions(table, number))?;
    }
    Ok(counts)
}
