// The attributes of types.

ghost use Rattle.std.specs.Prelude.{◌≡◌, ◌++◌, ℕ, [], None, IfOk, length, map, slice_index_or};
ghost use Rattle.gx_references.specs.Known.{known};
ghost use Rattle.gx_schema_attributes.specs.GivenUses.{nothing_given};
ghost use Rattle.gx_schema_attributes.specs.OwnUses.{base_uses, own_of_type};
ghost use Rattle.gx_schema_attributes.specs.TypeUses.{found_uses, uses_of_type, uses_over};

use crate::given::{GivenUses, finished, give_all};
use crate::groups::given_by_groups;
use crate::own::{Inherited, OwnUses, inherited_from, own_of_type};
use gx_references::body::Body;
use gx_references::meanings::meanings;
use gx_schema_components::component::{AttributeGroup, TypeComponent};
use gx_types::declaration::{AttributeUse, AttributeUses};
use std::alloc::{AllocError, Global};

impl Body for OwnUses {
    type Meaning = AttributeUses;

    ghost use Rattle.std.specs.Prelude.{[]};
    ghost use Rattle.gx_schema_attributes.specs.OwnUses.{base_named};
    ghost use Rattle.gx_schema_attributes.specs.TypeUses.{uses_over};
    ghost use Rattle.gx_schema_attributes.specs.TypeUseLaws.{uses_over_agree};

    ghost named = { base_named };

    ghost meant = { uses_over };

    ghost nothing = { [] };

    ghost same = { uses_over_agree };

    fn references(&self, alloc: Global) -> Result<Vec<usize>, AllocError> {
        match self.inherited {
            Inherited::Nothing => Ok(Vec::new(alloc)),
            Inherited::All(number) | Inherited::Staying(number) => { Ok(vec![in alloc; number]?) }
        }
    }

    fn meaning(
        &self,
        alloc: Global,
        table: &[Option<AttributeUses>],
    ) -> Result<AttributeUses, AllocError> {
        let mut giving = inherited_from(alloc, known_base(table, self.inherited), self)?;
        give_all(&mut giving, self.given.as_slice())?;
        Ok(finished(giving).uses)
    }
}

/// The attributes of each type (XML Schema 1.0 part 1, section 3.4.2), in the order in which they are given: those that it has of its
/// base before its own. None are seen where the references among types, or among attribute groups, come to no end.
pub fn attribute_uses(
    alloc: Global,
    types: &[TypeComponent],
    groups: &[AttributeGroup],
) -> Result<Vec<AttributeUses>, AllocError>
    ensures sized { IfOk result (λ uses. length uses.items ≡ length types.now) }
    ensures uses { IfOk result (λ uses. (number : ℕ) → slice_index_or uses.items number [] ≡ uses_of_type types.now groups.now number) }
{
    let given = given_by_groups(alloc, groups)?;
    let own = own_of_types(alloc, given.as_slice(), types)?;
    match meanings(alloc, own.as_slice())? {
        Some(table) => all_uses(alloc, table),
        None => no_uses(alloc, types.len()),
    }
}

/// What types say of their attributes, over a table of what attribute groups give.
pub fn own_of_types(
    alloc: Global,
    groups: &[Option<GivenUses>],
    types: &[TypeComponent],
) -> Result<Vec<OwnUses>, AllocError>
    ensures { IfOk result (λ own. own.items ≡ map (own_of_type (known nothing_given groups.now)) types.now) }
{
    let mut own = Vec::new(alloc);
    let mut left = types;
    while let Some((component, others)) = left.split_first() {
        own.push(own_of_type(alloc, groups, component)?)?;
        left = others;
    }
    Ok(own)
}

// The attributes that are seen of the type from which some are inherited.
fn known_base(table: &[Option<AttributeUses>], inherited: Inherited) -> &[AttributeUse]
    ensures { result.now ≡ base_uses (known [] table.now) inherited }
{
    match inherited {
        Inherited::Nothing => &[],
        Inherited::All(number) | Inherited::Staying(number) => match table.get(number) {
            Some(Some(uses)) => uses.as_slice(),
            _ => &[],
        },
    }
}

// What a table has, and no attributes where it has nothing.
fn all_uses(
    alloc: Global,
    table: Vec<Option<AttributeUses>>,
) -> Result<Vec<AttributeUses>, AllocError>
    ensures { IfOk result (λ uses. uses.items ≡ map found_uses table.items) }
{
    let mut uses = Vec::with_capacity(alloc, table.len())?;
    let mut left = table.into_iter();
    while let Some(found) = left.next() {
        uses.push(found_uses(alloc, found))?;
    }
    Ok(uses)
}

fn found_uses(alloc: Global, found: Option<AttributeUses>) -> AttributeUses
    ensures { result ≡ found_uses found }
{
    match found {
        Some(uses) => uses,
        None => AttributeUses::from_vec(Vec::new(alloc)),
    }
}

// No attributes of so many types.
fn no_uses(alloc: Global, count: usize) -> Result<Vec<AttributeUses>, AllocError>
    ensures sized { IfOk result (λ uses. length uses.items ≡ count) }
    ensures empty { IfOk result (λ uses. (number : ℕ) → slice_index_or uses.items number [] ≡ []) }
{
    let mut uses = Vec::with_capacity(alloc, count)?;
    for _ in 0..count {
        uses.push(AttributeUses::from_vec(Vec::new(alloc)))?;
    }
    Ok(uses)
}
