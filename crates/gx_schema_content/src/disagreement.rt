// Elements of one name with two types in one content.

ghost use Rattle.std.specs.Prelude.{◌≡◌, ℕ, [], IfOk, OnOk, fold};
ghost use Rattle.indexmap.specs.IndexMap.{get};
ghost use Rattle.gx_base.specs.Name.{same_name};
ghost use Rattle.gx_base.specs.declared.name.Name.{Name as NameRecord};
ghost use Rattle.gx_types.specs.SameItemType.{same_type_name};
ghost use Rattle.gx_references.specs.Known.{known};
ghost use Rattle.gx_schema_content.specs.Disagreement.{earlier_particle, first_disagreement, first_disagreement_below, first_kind, is_other_kind, or_disagreement, or_disagreements, stands_at_or_before};

use crate::element_lists::{element_lists, known_elements};
use crate::elements::{ElementParticle, ElementParticles, SharedElement};
use gx_base::name::Name;
use gx_base::type_name::TypeName;
use gx_schema_components::component::{ModelGroup, TypeComponent};
use gx_types::item_type::ItemType;
use indexmap::IndexMap;
use std::alloc::{AllocError, Global};

/// The first element particle by place that disagrees in the content of a type: it has another type than the first one of its
/// name in the content (XML Schema 1.0 part 1, section 3.8.6, Element Declarations Consistent).
pub fn first_disagreement(
    alloc: Global,
    types: &[TypeComponent],
    groups: &[ModelGroup],
) -> Result<Option<ElementParticle>, AllocError>
    ensures { IfOk result (λ found. found ≡ first_disagreement types.now groups.now) }
{
    let table = element_lists(alloc, types, groups)?;
    first_below(alloc, types.len(), table.as_slice())
}

// The first of the contents of so many types.
fn first_below(
    alloc: Global,
    count: usize,
    table: &[Option<ElementParticles>],
) -> Result<Option<ElementParticle>, AllocError>
    ensures { IfOk result (λ found. found ≡ first_disagreement_below (known [] table.now) count) }
{
    let mut found = None;
    for number in 0..count {
        note_content(alloc, known_elements(table, number), &mut found)?;
    }
    Ok(found)
}

// Keeps the first of what was found and of the element particles of a content that disagree.
fn note_content(
    alloc: Global,
    elements: &[SharedElement],
    found: &mut Option<ElementParticle>,
) -> Result<(), AllocError>
    ensures { OnOk result (found.new ≡ or_disagreements found.old elements.now) }
{
    let kinds = first_kinds(alloc, elements)?;
    for shared in elements {
        let element = shared.element();
        if disagrees(&kinds, element)? {
            note(element, found)?;
        }
    }
    Ok(())
}

// The type of the first element of each name.
fn first_kinds(
    alloc: Global,
    elements: &[SharedElement],
) -> Result<IndexMap<Name, TypeName>, AllocError>
    ensures { IfOk result (λ kinds. (name : NameRecord) → get same_name kinds name ≡ first_kind elements.now name) }
{
    let mut kinds = IndexMap::new(alloc);
    for number in (0..elements.len()).rev() {
        let element = elements[number].element();
        kinds.insert(element.name.clone()?, element.kind.clone()?)?;
    }
    Ok(kinds)
}

fn disagrees(
    kinds: &IndexMap<Name, TypeName>,
    element: &ElementParticle,
) -> Result<bool, AllocError>
    ensures { IfOk result (λ disagrees. disagrees ≡ is_other_kind (get same_name kinds.now element.now.name) element.now.kind) }
{
    match kinds.get(&element.name) {
        None => Ok(false),
        Some(first) => Ok(!same_kinds(first, &element.kind)?),
    }
}

// Whether two types are equal, as types of atomic values.
fn same_kinds(first: &TypeName, second: &TypeName) -> Result<bool, AllocError>
    ensures { IfOk result (λ same. same ≡ same_type_name first.now second.now) }
{
    let first = ItemType::Atom(first.clone()?);
    let second = ItemType::Atom(second.clone()?);
    Ok(first.same(&second))
}

// Keeps the earlier of what was found and an element particle.
#[tactic(auto, using(crate::proofs::Earlier::found_stays, crate::proofs::Earlier::element_comes))]
fn note(element: &ElementParticle, found: &mut Option<ElementParticle>) -> Result<(), AllocError>
    ensures { OnOk result (found.new ≡ Some (earlier_particle found.old element.now)) }
{
    if stands_at_or_before(found, element.place) {
        return Ok(());
    }
    *found = Some(element.clone()?);
    Ok(())
}

fn stands_at_or_before(found: &Option<ElementParticle>, place: u64) -> bool
    ensures { result ≡ stands_at_or_before found.now place }
{
    match found {
        None => false,
        Some(found) => found.place <= place,
    }
}
