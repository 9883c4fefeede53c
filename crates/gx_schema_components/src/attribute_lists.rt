// The attributes of types and of attribute groups.

ghost use Rattle.std.specs.Prelude.{◌≡◌, ◌++◌, IfOk, OnOk};
ghost use Rattle.gx_schema_components.specs.AttributeLists.{attribute_group_of, attribute_groups_of, part_by_usage, part_of_member, parts_of_members, use_part};
ghost use Rattle.gx_schema_components.specs.ReferredView.{globals_in};

use crate::component::{AttributeGroup, AttributePart, AttributeParts};
use crate::mention::ComponentKind;
use crate::referred::{GlobalTables, TypedName, group_referred, local_component};
use gx_schema_syntax::written::{AttributeMember, GlobalDeclaration, Usage};
use gx_types::declaration::AttributeUse;
use std::alloc::{AllocError, Global};

fn use_part(place: u64, required: bool, attribute: TypedName) -> AttributePart
    ensures { result ≡ use_part place required attribute }
{
    let TypedName { name, kind } = attribute;
    AttributePart::Use {
        place,
        attribute: AttributeUse {
            name,
            kind,
            required,
        },
    }
}

fn part_by_usage(place: u64, usage: Usage, attribute: TypedName) -> AttributePart
    ensures { result ≡ part_by_usage place usage attribute }
{
    match usage {
        Usage::Optional => use_part(place, false, attribute),
        Usage::Required => use_part(place, true, attribute),
        Usage::Prohibited => AttributePart::Prohibited {
            place,
            name: attribute.name,
        },
    }
}

fn part_of_member(
    globals: &GlobalTables,
    member: &AttributeMember,
) -> Result<AttributePart, AllocError>
    ensures { IfOk result (λ part. part ≡ part_of_member (globals_in globals.now) member.now) }
{
    match member {
        AttributeMember::Attribute {
            place,
            usage,
            attribute,
        } => {
            let component = ComponentKind::AttributeDeclaration;
            let attributes = globals.attributes.as_slice();
            let attribute = local_component(globals, component, attributes, attribute)?;
            Ok(part_by_usage(*place, *usage, attribute))
        }
        AttributeMember::Group { place, reference } => {
            let kind = ComponentKind::AttributeGroupDefinition;
            Ok(AttributePart::Group {
                place: *place,
                number: group_referred(globals, kind, reference),
            })
        }
    }
}

/// The parts of a list of attributes.
pub fn parts_of_members(
    alloc: Global,
    globals: &GlobalTables,
    members: &[AttributeMember],
) -> Result<AttributeParts, AllocError>
    ensures { IfOk result (λ parts. parts ≡ parts_of_members (globals_in globals.now) members.now) }
{
    let mut parts = Vec::new(alloc);
    let mut left = members;
    while let Some((member, others)) = left.split_first() {
        parts.push(part_of_member(globals, member)?)?;
        left = others;
    }
    Ok(AttributeParts::from_vec(parts))
}

// Adds the attribute group that a declaration is, if it is one.
fn add_attribute_group(
    alloc: Global,
    globals: &GlobalTables,
    declaration: &GlobalDeclaration,
    groups: &mut Vec<AttributeGroup>,
) -> Result<(), AllocError>
    ensures { OnOk result (groups.new.items ≡ groups.old.items ++ attribute_group_of (globals_in globals.now) declaration.now) }
{
    if let GlobalDeclaration::AttributeGroup {
        place,
        name,
        attributes,
    } = declaration
    {
        let name = name.clone()?;
        let parts = parts_of_members(alloc, globals, attributes.as_slice())?;
        groups.push(AttributeGroup {
            place: *place,
            name,
            parts,
        })?;
    }
    Ok(())
}

/// Adds the attribute groups among declarations.
pub fn add_attribute_groups(
    alloc: Global,
    globals: &GlobalTables,
    declarations: &[GlobalDeclaration],
    groups: &mut Vec<AttributeGroup>,
) -> Result<(), AllocError>
    ensures { OnOk result (groups.new.items ≡ groups.old.items ++ attribute_groups_of (globals_in globals.now) declarations.now) }
{
    let mut left = declarations;
    while let Some((declaration, others)) = left.split_first() {
        add_attribute_group(alloc, globals, declaration, groups)?;
        left = others;
    }
    Ok(())
}
