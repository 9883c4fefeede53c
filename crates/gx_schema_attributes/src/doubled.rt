// Attributes that a type has twice.

ghost use Rattle.std.specs.Prelude.{◌≡◌, ◌+◌, [], ℕ, None, IfOk, IfSome, length, slice_index_or};
ghost use Rattle.gx_references.specs.Known.{known};
ghost use Rattle.gx_types.specs.declared.declaration.AttributeUse.{AttributeUse as UseRecord};
ghost use Rattle.gx_schema_attributes.specs.Doubled.{doubled_at, doubled_in_form, doubled_in_parts, earlier_doubled, earliest_doubled, first_doubled, place_of_part};
ghost use Rattle.gx_schema_attributes.specs.GivenUses.{nothing_given};
ghost use Rattle.gx_schema_attributes.specs.GivingView.{HasNameSet, given_in, uses_at};
ghost use Rattle.gx_schema_attributes.specs.OwnUses.{base_uses};

use crate::given::{GivenUses, Giving, give_part};
use crate::groups::given_by_groups;
use crate::own::{Inherited, inherited_from, own_of_complex};
use crate::uses::attribute_uses;
use gx_base::name::Name;
use gx_schema_components::component::{AttributeGroup, AttributePart, TypeComponent, TypeForm};
use gx_types::declaration::{AttributeUse, AttributeUses};
use std::alloc::{AllocError, Global};

/// A part of a type that gives an attribute which the type has already: the place of the part, the number of the type, and the name of
/// the attribute.
#[derive(Drop)]
pub struct DoubledAttribute {
    pub place: u64,
    pub number: usize,
    pub name: Name,
}

/// The first by place of the parts of types that give an attribute again (XML Schema 1.0 part 1, sections 3.4.6 and 3.6.6): after the
/// base of an extension, after what stays of the base of a restriction, after an earlier part, or twice by themselves.
pub fn first_doubled(
    alloc: Global,
    types: &[TypeComponent],
    groups: &[AttributeGroup],
) -> Result<Option<DoubledAttribute>, AllocError>
    ensures { IfOk result (λ found. found ≡ first_doubled types.now groups.now) }
{
    let given = given_by_groups(alloc, groups)?;
    let uses = attribute_uses(alloc, types, groups)?;
    earliest_doubled(alloc, uses.as_slice(), given.as_slice(), types)
}

// The first by place, over the attributes of types and what attribute groups give.
fn earliest_doubled(
    alloc: Global,
    uses: &[AttributeUses],
    groups: &[Option<GivenUses>],
    types: &[TypeComponent],
) -> Result<Option<DoubledAttribute>, AllocError>
    ensures { IfOk result (λ found. found ≡ earliest_doubled (uses_at uses.now) (known nothing_given groups.now) None 0 types.now) }
{
    let mut found = None;
    let mut number = 0;
    let mut left = types;
    while let Some((component, others)) = left.split_first() {
        let other = doubled_in_form(alloc, uses, groups, number, &component.form)?;
        found = earlier_doubled(found, other);
        number += 1;
        left = others;
    }
    Ok(found)
}

fn earlier_doubled(
    found: Option<DoubledAttribute>,
    other: Option<DoubledAttribute>,
) -> Option<DoubledAttribute>
    ensures { result ≡ earlier_doubled found other }
{
    let Some(found) = found else {
        return other;
    };
    let Some(other) = other else {
        return Some(found);
    };
    if found.place <= other.place {
        Some(found)
    } else {
        Some(other)
    }
}

fn doubled_in_form(
    alloc: Global,
    uses: &[AttributeUses],
    groups: &[Option<GivenUses>],
    number: usize,
    form: &TypeForm,
) -> Result<Option<DoubledAttribute>, AllocError>
    ensures { IfOk result (λ found. found ≡ doubled_in_form (uses_at uses.now) (known nothing_given groups.now) number form.now) }
{
    match form {
        TypeForm::Simple(_) => Ok(None),
        TypeForm::Complex(complex) => {
            let own = own_of_complex(alloc, groups, complex)?;
            let giving = inherited_from(alloc, base_uses(uses, own.inherited), &own)?;
            doubled_in_parts(groups, number, giving, complex.attributes.as_slice())
        }
    }
}

fn base_uses(uses: &[AttributeUses], inherited: Inherited) -> &[AttributeUse]
    ensures { result.now ≡ base_uses (uses_at uses.now) inherited }
{
    match inherited {
        Inherited::Nothing => &[],
        Inherited::All(number) | Inherited::Staying(number) => match uses.get(number) {
            Some(uses) => uses.as_slice(),
            None => &[],
        },
    }
}

fn doubled_in_parts(
    groups: &[Option<GivenUses>],
    number: usize,
    giving: Giving,
    parts: &[AttributePart],
) -> Result<Option<DoubledAttribute>, AllocError>
    requires { HasNameSet giving }
    ensures { IfOk result (λ found. found ≡ doubled_in_parts (known nothing_given groups.now) number (given_in giving) parts.now) }
{
    let mut giving = giving;
    let mut left = parts;
    while let Some((part, others)) = left.split_first() {
        give_part(&mut giving, groups, part)?;
        if let Some(name) = &giving.doubled {
            return Ok(Some(DoubledAttribute {
                place: place_of_part(part),
                number,
                name: name.clone()?,
            }));
        }
        left = others;
    }
    Ok(None)
}

fn place_of_part(part: &AttributePart) -> u64
    ensures { result ≡ place_of_part part.now }
{
    match part {
        AttributePart::Use { place, .. }
        | AttributePart::Prohibited { place, .. }
        | AttributePart::Group { place, .. } => *place,
    }
}
