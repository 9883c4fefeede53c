// What attribute groups give.

ghost use Rattle.std.specs.Prelude.{◌≡◌, ◌++◌, ℕ, IfOk, OnOk, map};
ghost use Rattle.std.specs.List.{flat_map};
ghost use Rattle.gx_references.specs.Known.{known};
ghost use Rattle.gx_schema_components.specs.declared.component.AttributeGroup.{AttributeGroup as GroupRecord};
ghost use Rattle.gx_schema_attributes.specs.GivenUses.{nothing_given};
ghost use Rattle.gx_schema_attributes.specs.GroupUses.{given_by_group, group_named, group_parts, groups_named};

use crate::given::{GivenUses, given_by_parts};
use gx_references::body::Body;
use gx_references::meanings::meanings;
use gx_schema_components::component::{AttributeGroup, AttributePart};
use std::alloc::{AllocError, Global};
use std::marker::Model;

/// The parts of an attribute group, which contracts see as a list.
#[derive(Drop)]
pub struct GroupParts<'a> {
    parts: &'a [AttributePart],
}

impl<'a> Model for GroupParts<'a> {
    ghost use Rattle.std.specs.Prelude.{List};
    ghost use Rattle.gx_schema_components.specs.declared.component.AttributePart.{AttributePart};

    ghost Value = { List AttributePart };

    ghost view = { λ group. group.parts.now };
}

impl<'a> Body for GroupParts<'a> {
    type Meaning = GivenUses;

    ghost use Rattle.gx_schema_attributes.specs.GivenUses.{nothing_given};
    ghost use Rattle.gx_schema_attributes.specs.GroupUses.{group_given, groups_named};
    ghost use Rattle.gx_schema_attributes.specs.GivenLaws.{group_given_agrees};

    ghost named = { groups_named };

    ghost meant = { group_given };

    ghost nothing = { nothing_given };

    ghost same = { group_given_agrees };

    fn references(&self, alloc: Global) -> Result<Vec<usize>, AllocError> {
        groups_named(alloc, self.parts)
    }

    fn meaning(&self, alloc: Global, table: &[Option<GivenUses>]) -> Result<GivenUses, AllocError> {
        given_by_parts(alloc, table, self.parts)
    }
}

/// What each attribute group gives (XML Schema 1.0 part 1, section 3.6.2): nothing where the references from some of them come to no
/// end.
pub fn given_by_groups(
    alloc: Global,
    groups: &[AttributeGroup],
) -> Result<Vec<Option<GivenUses>>, AllocError>
    ensures { IfOk result (λ table. known nothing_given table.items ≡ given_by_group groups.now) }
{
    let parts = group_parts(alloc, groups)?;
    match meanings(alloc, parts.as_slice())? {
        Some(table) => Ok(table),
        None => Ok(Vec::new(alloc)),
    }
}

fn group_parts<'a>(
    alloc: Global,
    groups: &'a [AttributeGroup],
) -> Result<Vec<GroupParts<'a>>, AllocError>
    ensures { IfOk result (λ parts. parts.items ≡ group_parts groups.now) }
{
    let mut parts = Vec::new(alloc);
    let mut left = groups;
    while let Some((group, others)) = left.split_first() {
        parts.push(GroupParts {
            parts: group.parts.as_slice(),
        })?;
        left = others;
    }
    Ok(parts)
}

/// The numbers of the attribute groups to which parts refer.
pub fn groups_named(alloc: Global, parts: &[AttributePart]) -> Result<Vec<usize>, AllocError>
    ensures { IfOk result (λ numbers. numbers.items ≡ groups_named parts.now) }
{
    let mut numbers = Vec::new(alloc);
    let mut left = parts;
    while let Some((part, others)) = left.split_first() {
        add_group(&mut numbers, part)?;
        left = others;
    }
    Ok(numbers)
}

fn add_group(numbers: &mut Vec<usize>, part: &AttributePart) -> Result<(), AllocError>
    ensures { OnOk result (numbers.new.items ≡ numbers.old.items ++ group_named part.now) }
{
    if let AttributePart::Group { number, .. } = part {
        numbers.push(*number)?;
    }
    Ok(())
}
