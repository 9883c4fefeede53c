// The contents of all types.

ghost use Rattle.std.specs.Prelude.{◌≡◌, ℕ, IfOk, length, map};
ghost use Rattle.gx_types.specs.SequenceType.{never};
ghost use Rattle.gx_references.specs.Known.{known};
ghost use Rattle.gx_schema_content.specs.ContentKnots.{content_of_type, fitting_group, fitting_type};
ghost use Rattle.gx_schema_content.specs.GroupContents.{groups_in};
ghost use Rattle.gx_schema_content.specs.Knots.{IsListBelow, meaning_at_ends};
ghost use Rattle.gx_schema_content.specs.PositionKnots.{group_fits, type_fits};
ghost use Rattle.gx_schema_content.specs.Sources.{extended_types};
ghost use Rattle.gx_schema_content.specs.TypeContents.{unknown_content};
ghost use Rattle.gx_schema_content.specs.Views.{fitting_by, fitting_over, group_filled, type_filled};

use crate::effective::Effective;
use crate::group_content::GroupContent;
use crate::group_positions::group_positions;
use crate::knot::known_meanings;
use crate::positions::{PositionTables, is_within_limit, position_tables};
use crate::type_content::{TypeContent, unknown_content};
use crate::type_positions::component_positions;
use gx_schema_components::component::{ModelGroup, TypeComponent};
use gx_types::sequence_type::Ty;
use std::alloc::{AllocError, Global};

/// The content that each type comes to (XML Schema 1.0 part 1, section 3.4.2). A type of too many positions has none, and where
/// the references among groups or among types come to no end, nothing is seen of them.
pub fn contents(
    alloc: Global,
    types: &[TypeComponent],
    groups: &[ModelGroup],
) -> Result<Vec<Effective>, AllocError>
    ensures { IfOk result (λ contents. IsListBelow (length types.now) (content_of_type types.now groups.now) contents.items) }
{
    let tables = position_tables(alloc, types, groups)?;
    let groups = group_contents(alloc, groups, tables.groups.as_slice())?;
    let table = type_contents(alloc, types, &tables, groups.as_slice())?;
    contents_of(alloc, types.len(), table.as_slice())
}

/// Whether a model group has no more positions than a content may have, over the positions of groups.
pub fn group_fits(positions: &[Option<usize>], group: &ModelGroup) -> bool
    ensures { result ≡ group_fits (known 0 positions.now) group.now }
{
    is_within_limit(group_positions(positions, group))
}

/// Whether a type has no more positions than a content may have, over the positions of groups and types.
pub fn type_fits(tables: &PositionTables, component: &TypeComponent) -> bool
    ensures { result ≡ type_fits (known 0 tables.now.groups.items) (known 0 tables.now.types.items) component.now }
{
    let groups = tables.groups.as_slice();
    is_within_limit(component_positions(groups, tables.types.as_slice(), component))
}

// The contents of groups, over their positions.
fn group_contents(
    alloc: Global,
    groups: &[ModelGroup],
    positions: &[Option<usize>],
) -> Result<Vec<Option<Ty>>, AllocError>
    ensures { IfOk result (λ table. (number : ℕ) → known never table.items number ≡ meaning_at_ends groups_in (fitting_group (known 0 positions.now)) never groups.now number) }
{
    let bodies = fitting_groups(alloc, groups, positions)?;
    known_meanings(alloc, bodies.as_slice())
}

fn fitting_groups<'a>(
    alloc: Global,
    groups: &'a [ModelGroup],
    positions: &[Option<usize>],
) -> Result<Vec<GroupContent<'a>>, AllocError>
    ensures { IfOk result (λ bodies. map group_filled bodies.items ≡ map (fitting_by (known 0 positions.now)) groups.now) }
{
    let mut bodies = Vec::with_capacity(alloc, groups.len())?;
    for group in groups {
        let fits = group_fits(positions, group);
        bodies.push(GroupContent { group, fits })?;
    }
    Ok(bodies)
}

// The contents of types, over positions and the contents of groups.
fn type_contents(
    alloc: Global,
    types: &[TypeComponent],
    tables: &PositionTables,
    groups: &[Option<Ty>],
) -> Result<Vec<Option<Effective>>, AllocError>
    ensures { IfOk result (λ table. (number : ℕ) → known unknown_content table.items number ≡
        meaning_at_ends extended_types (fitting_type (known 0 tables.now.groups.items) (known 0 tables.now.types.items) (known never groups.now)) unknown_content types.now number) }
{
    let bodies = fitting_types(alloc, types, tables, groups)?;
    known_meanings(alloc, bodies.as_slice())
}

fn fitting_types<'a>(
    alloc: Global,
    types: &'a [TypeComponent],
    tables: &PositionTables,
    groups: &'a [Option<Ty>],
) -> Result<Vec<TypeContent<'a>>, AllocError>
    ensures { IfOk result (λ bodies. map type_filled bodies.items ≡ map (fitting_over (known 0 tables.now.groups.items) (known 0 tables.now.types.items) (known never groups.now)) types.now) }
{
    let mut bodies = Vec::with_capacity(alloc, types.len())?;
    for component in types {
        let fits = type_fits(tables, component);
        bodies.push(TypeContent {
            component,
            groups,
            fits,
        })?;
    }
    Ok(bodies)
}

// What a table has at each number below a count.
fn contents_of(
    alloc: Global,
    count: usize,
    table: &[Option<Effective>],
) -> Result<Vec<Effective>, AllocError>
    ensures { IfOk result (λ contents. IsListBelow count (known unknown_content table.now) contents.items) }
{
    let mut contents = Vec::with_capacity(alloc, count)?;
    for number in 0..count {
        contents.push(known_effective(table, number)?)?;
    }
    Ok(contents)
}

fn known_effective(table: &[Option<Effective>], number: usize) -> Result<Effective, AllocError>
    ensures { IfOk result (λ effective. effective ≡ known unknown_content table.now number) }
{
    match table.get(number) {
        Some(Some(effective)) => Ok(Effective {
            content: effective.content.clone()?,
            mixed: effective.mixed,
        }),
        _ => Ok(unknown_content()),
    }
}
