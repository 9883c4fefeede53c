// The types of children by their names.

ghost use Rattle.std.specs.Prelude.{◌≡◌, IfOk, OnOk, option_copied};
ghost use Rattle.std.specs.Option.{option_or};
ghost use Rattle.indexmap.specs.IndexMap.{get};
ghost use Rattle.gx_base.specs.Name.{same_name};
ghost use Rattle.gx_base.specs.declared.name.Name.{Name as NameRecord};
ghost use Rattle.gx_validate.specs.ChildKinds.{AreKindsOf, kind_or_untyped};
ghost use Rattle.gx_validate.specs.ElementContent.{element_type_in, type_of_child, type_of_element_item};

use crate::content::{complex_model, type_of_child};
use gx_base::name::Name;
use gx_base::type_name::{Builtin, TypeName};
use gx_types::declaration::Declared;
use gx_types::item_type::ItemType;
use gx_types::sequence_type::{Ty, TyNode};
use indexmap::IndexMap;
use std::alloc::{AllocError, Global};
use std::marker::Model;

// From so many children on a table of the content is worth its time.
const MANY_CHILDREN: usize = 64;

/// The declaration of the type of an element, which contracts see, with a table of the types that its content has for its children,
/// where there are many of these.
#[derive(Drop)]
pub struct ChildKinds<'a> {
    holder: Option<&'a Declared>,
    kinds: Option<IndexMap<Name, TypeName>>,
}

impl<'a> Model for ChildKinds<'a> {
    ghost use Rattle.std.specs.Prelude.{Option, option_copied, IfSome};
    ghost use Rattle.std.specs.Coded.{codes};
    ghost use Rattle.gx_types.specs.contracts.sequence_type.Ty as types;
    ghost use Rattle.gx_types.specs.declared.declaration.Declared.{Declared};
    ghost use Rattle.gx_validate.specs.ChildKinds.{AreKindsOf};

    ghost Value = { Option Declared };

    ghost coded = { Prim.hlevel (codes, types.the_row.coded) };

    ghost view = { λ c. option_copied c.holder };

    ghost invariant = { λ c. IfSome c.kinds (AreKindsOf (option_copied c.holder)) };
}

impl<'a> ChildKinds<'a> {
    /// What a declaration says of so many children.
    pub fn new(
        alloc: Global,
        holder: Option<&'a Declared>,
        children: usize,
    ) -> Result<ChildKinds<'a>, AllocError>
        ensures { IfOk result (λ c. c ≡ option_copied holder.entry) }
    {
        let kinds = if children < MANY_CHILDREN {
            None
        } else {
            Some(kinds_of(alloc, holder)?)
        };
        Ok(ChildKinds { holder, kinds })
    }

    /// The declared type of a child of a name.
    pub fn kind_of(&self, name: &Name) -> Result<TypeName, AllocError>
        ensures { IfOk result (λ t. t ≡ type_of_child self.now name.now) }
    {
        match &self.kinds {
            Some(kinds) => kind_in(kinds, name),
            None => type_of_child(self.holder, name),
        }
    }
}

fn kind_in(kinds: &IndexMap<Name, TypeName>, name: &Name) -> Result<TypeName, AllocError>
    ensures { IfOk result (λ t. t ≡ kind_or_untyped (get same_name kinds.now name.now)) }
{
    match kinds.get(name) {
        Some(kind) => kind.clone(),
        None => Ok(TypeName::Builtin(Builtin::Untyped)),
    }
}

// The types of the elements of a content by their names.
fn kinds_of(
    alloc: Global,
    holder: Option<&Declared>,
) -> Result<IndexMap<Name, TypeName>, AllocError>
    ensures { IfOk result (AreKindsOf (option_copied holder.entry)) }
{
    let mut kinds = IndexMap::new(alloc);
    if let Some(model) = complex_model(holder) {
        add_kinds(model, &mut kinds)?;
    }
    Ok(kinds)
}

// Puts the types of the elements of a content over those of a table: of equal names the first counts.
fn add_kinds(model: &Ty, kinds: &mut IndexMap<Name, TypeName>) -> Result<(), AllocError>
    ensures { OnOk result ((name : NameRecord) → get same_name kinds.new name ≡ option_or (element_type_in model.now name) (get same_name kinds.old name)) }
{
    match &model.node {
        TyNode::Never | TyNode::Empty => Ok(()),
        TyNode::Item(kind) => add_kind(kind, kinds),
        TyNode::Seq(first, second) | TyNode::Alt(first, second) => {
            add_kinds(second, kinds)?;
            add_kinds(first, kinds)
        }
        TyNode::Optional(part) | TyNode::Star(part) | TyNode::Plus(part) => add_kinds(part, kinds),
    }
}

fn add_kind(item: &ItemType, kinds: &mut IndexMap<Name, TypeName>) -> Result<(), AllocError>
    ensures { OnOk result ((name : NameRecord) → get same_name kinds.new name ≡ option_or (type_of_element_item item.now name) (get same_name kinds.old name)) }
{
    if let ItemType::Element {
        name: Some(name),
        kind,
    } = item
    {
        kinds.insert(name.clone()?, kind.clone()?)?;
    }
    Ok(())
}
