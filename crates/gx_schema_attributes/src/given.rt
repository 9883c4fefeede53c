// The attributes that are given by parts.

ghost use Rattle.std.specs.Prelude.{◌≡◌, [], None, Some, IfOk, OnOk, fold};
ghost use Rattle.gx_references.specs.Known.{known};
ghost use Rattle.gx_schema_attributes.specs.GivenUses.{first_given, given_by_parts, nothing_given, with_given, with_attribute_part, with_use};
ghost use Rattle.gx_schema_attributes.specs.GivingView.{HasNameSet, given_in};

use gx_base::name::Name;
use gx_schema_components::component::AttributePart;
use gx_types::declaration::{AttributeUse, AttributeUses};
use indexmap::IndexSet;
use std::alloc::{AllocError, Global};

/// Attributes in the order in which they are given, of each name the first, and the first name that was given again.
#[derive(Drop)]
pub struct GivenUses {
    pub uses: AttributeUses,
    pub doubled: Option<Name>,
}

/// Attributes that are being given, with the set of their names.
#[derive(Drop)]
pub struct Giving {
    pub uses: Vec<AttributeUse>,
    pub names: IndexSet<Name>,
    pub doubled: Option<Name>,
}

/// No attributes.
pub fn nothing_yet(alloc: Global) -> Giving
    ensures indexed { HasNameSet result }
    ensures given { given_in result ≡ nothing_given }
{
    Giving {
        uses: Vec::new(alloc),
        names: IndexSet::new(alloc),
        doubled: None,
    }
}

/// What was given.
pub fn finished(giving: Giving) -> GivenUses
    ensures { result ≡ given_in giving }
{
    let Giving {
        uses,
        names: _,
        doubled,
    } = giving;
    GivenUses {
        uses: AttributeUses::from_vec(uses),
        doubled,
    }
}

/// Gives one more attribute; of equal names the first is kept.
pub fn give(giving: &mut Giving, attribute: &AttributeUse) -> Result<(), AllocError>
    requires { HasNameSet giving.old }
    ensures indexed { OnOk result (HasNameSet giving.new) }
    ensures given { OnOk result (given_in giving.new ≡ with_use (given_in giving.old) attribute.now) }
{
    if giving.names.insert(attribute.name.clone()?)? {
        giving.uses.push(copy_of(attribute)?)?;
        return Ok(());
    }
    note_doubled(&mut giving.doubled, &attribute.name)
}

/// Gives attributes in their order.
pub fn give_all(giving: &mut Giving, attributes: &[AttributeUse]) -> Result<(), AllocError>
    requires { HasNameSet giving.old }
    ensures indexed { OnOk result (HasNameSet giving.new) }
    ensures given { OnOk result (given_in giving.new ≡ fold with_use (given_in giving.old) attributes.now) }
{
    let mut left = attributes;
    while let Some((attribute, others)) = left.split_first() {
        give(giving, attribute)?;
        left = others;
    }
    Ok(())
}

/// Gives what a part gives, over a table of what attribute groups give.
pub fn give_part(
    giving: &mut Giving,
    groups: &[Option<GivenUses>],
    part: &AttributePart,
) -> Result<(), AllocError>
    requires { HasNameSet giving.old }
    ensures indexed { OnOk result (HasNameSet giving.new) }
    ensures given { OnOk result (given_in giving.new ≡ with_attribute_part (known nothing_given groups.now) (given_in giving.old) part.now) }
{
    match part {
        AttributePart::Use { attribute, .. } => give(giving, attribute),
        AttributePart::Prohibited { .. } => Ok(()),
        AttributePart::Group { number, .. } => match groups.get(*number) {
            Some(Some(given)) => give_group(giving, given),
            _ => Ok(()),
        },
    }
}

/// What parts give in their order, over a table of what attribute groups give.
pub fn given_by_parts(
    alloc: Global,
    groups: &[Option<GivenUses>],
    parts: &[AttributePart],
) -> Result<GivenUses, AllocError>
    ensures { IfOk result (λ given. given ≡ given_by_parts (known nothing_given groups.now) nothing_given parts.now) }
{
    let mut giving = nothing_yet(alloc);
    let mut left = parts;
    while let Some((part, others)) = left.split_first() {
        give_part(&mut giving, groups, part)?;
        left = others;
    }
    Ok(finished(giving))
}

// Gives what an attribute group gives.
fn give_group(giving: &mut Giving, given: &GivenUses) -> Result<(), AllocError>
    requires { HasNameSet giving.old }
    ensures indexed { OnOk result (HasNameSet giving.new) }
    ensures given { OnOk result (given_in giving.new ≡ with_given (given_in giving.old) given.now) }
{
    give_all(giving, given.uses.as_slice())?;
    if let Some(name) = &given.doubled {
        note_doubled(&mut giving.doubled, name)?;
    }
    Ok(())
}

// Keeps the name that was doubled first.
fn note_doubled(doubled: &mut Option<Name>, name: &Name) -> Result<(), AllocError>
    ensures { OnOk result (doubled.new ≡ first_given doubled.old (Some name.now)) }
{
    if doubled.is_none() {
        *doubled = Some(name.clone()?);
    }
    Ok(())
}

/// A copy of an attribute.
pub fn copy_of(attribute: &AttributeUse) -> Result<AttributeUse, AllocError>
    ensures { IfOk result (λ copy. copy ≡ attribute.now) }
{
    Ok(AttributeUse {
        name: attribute.name.clone()?,
        kind: attribute.kind.clone()?,
        required: attribute.required,
    })
}
