// The types of descendants and ancestors.

ghost use Rattle.std.specs.Prelude.{◌≡◌, ◌++◌, map, IfOk, OnOk};
ghost use Rattle.indexmap.specs.IndexSet.{insert_all};
ghost use Rattle.gx_types.specs.SameItemType.{same_item_type};
ghost use Rattle.gx_types.specs.Prime.{items_of};
ghost use Rattle.gx_steptype.specs.AskedView.{kind_asked};
ghost use Rattle.gx_steptype.specs.TestedType.{tested_item as item_tested};
ghost use Rattle.gx_steptype.specs.Descent.{ArePut};
ghost use Rattle.gx_steptype.specs.StepType.{child_content as content_of_children, descendant_kinds as kinds_of_descendants, any_tested as any_of_tested, descendant_type as type_of_descendants, ancestor_type as type_of_ancestors};

use crate::asked::Asked;
use crate::children::{child_content, child_type};
use crate::derived_types::DerivedTypes;
use crate::tested::tested_type;
use gx_base::type_name::{Builtin, TypeName};
use gx_closure::close::{Step, close};
use gx_types::item_type::ItemType;
use gx_types::schemas::Schemas;
use gx_types::sequence_type::{Ty, TyNode};
use gx_types::type_rules::{choose, star};
use indexmap::IndexSet;
use std::alloc::{AllocError, Global};

// What a test leaves of the descendants of a node of an item type.
pub(crate) fn descendant_type(
    alloc: Global,
    schemas: &Schemas,
    asked: Asked<'_>,
    item: &ItemType,
) -> Result<Ty, AllocError>
    ensures { IfOk result (λ t. t ≡ type_of_descendants schemas.now (kind_asked asked.entry) item.now) }
{
    let kinds = descendant_kinds(alloc, schemas, item)?;
    any_tested(alloc, schemas, asked, kinds.as_slice())
}

// What a test leaves of the ancestors of a node of an item type.
pub(crate) fn ancestor_type(
    alloc: Global,
    schemas: &Schemas,
    asked: Asked<'_>,
    item: &ItemType,
) -> Result<Ty, AllocError>
    ensures { IfOk result (λ t. t ≡ type_of_ancestors schemas.now (kind_asked asked.entry) item.now) }
{
    match item {
        ItemType::Element { .. } | ItemType::Attribute { .. } | ItemType::Text => {
            let element = ItemType::Element {
                name: None,
                kind: TypeName::Builtin(Builtin::AnyType),
            };
            any_tested(alloc, schemas, asked, &[element, ItemType::Document(None)])
        }
        ItemType::Document(_) | ItemType::Atom(_) => Ok(Ty::empty()),
    }
}

// What a test leaves of any number of nodes of these item types.
fn any_tested(
    alloc: Global,
    schemas: &Schemas,
    asked: Asked<'_>,
    kinds: &[ItemType],
) -> Result<Ty, AllocError>
    ensures { IfOk result (λ t. t ≡ any_of_tested schemas.now (kind_asked asked.entry) kinds.now) }
{
    let mut members = Vec::new(alloc);
    add_tested(alloc, schemas, asked, kinds, &mut members)?;
    let choice = choose(alloc, &members)?;
    star(alloc, &choice)
}

// Puts what a test leaves of each of these item types behind the types.
fn add_tested(
    alloc: Global,
    schemas: &Schemas,
    asked: Asked<'_>,
    kinds: &[ItemType],
    types: &mut Vec<Ty>,
) -> Result<(), AllocError>
    ensures { OnOk result (types.new.items ≡ types.old.items ++ map (item_tested schemas.now (kind_asked asked.entry)) kinds.now) }
{
    for kind in kinds {
        types.push(tested_type(alloc, schemas, asked, kind)?)?;
    }
    Ok(())
}

// The item types of the descendants of a node of an item type.
fn descendant_kinds(
    alloc: Global,
    schemas: &Schemas,
    item: &ItemType,
) -> Result<IndexSet<ItemType>, AllocError>
    ensures { IfOk result (λ found. found.keys ≡ kinds_of_descendants schemas.now item.now) }
{
    let mut derived = DerivedTypes::new(alloc, schemas)?;
    let children = child_type(alloc, &mut derived, item)?;
    let mut found = IndexSet::new(alloc);
    add_items(&mut found, &children)?;
    let known = IndexSet::new(alloc);
    let mut descent = Descent { derived, known };
    let closed = close(alloc, &mut descent, &mut found);
    drop(descent);
    closed?;
    Ok(found)
}

// Puts the item types of a type behind those of a set, unless an equal one is there.
fn add_items(found: &mut IndexSet<ItemType>, t: &Ty) -> Result<(), AllocError>
    ensures { OnOk result (found.new.keys ≡ insert_all same_item_type found.old.keys (items_of t.now)) }
{
    match &t.node {
        TyNode::Never | TyNode::Empty => Ok(()),
        TyNode::Item(kind) => {
            let kind: &ItemType = kind;
            found.insert(kind.clone()?)?;
            Ok(())
        }
        TyNode::Seq(first, second) | TyNode::Alt(first, second) => {
            add_items(found, first)?;
            add_items(found, second)
        }
        TyNode::Optional(part) | TyNode::Star(part) | TyNode::Plus(part) => add_items(found, part),
    }
}

// The children of the nodes that are found. Those of the elements of a type are put once.
#[derive(Drop)]
struct Descent<'a> {
    pub derived: DerivedTypes<'a>,
    pub known: IndexSet<TypeName>,
}

impl Step<ItemType> for Descent<'_> {
    ghost use Rattle.gx_steptype.specs.StepType.{grandchild_kinds};
    ghost use Rattle.gx_steptype.specs.Descent.{ArePut};

    ghost next = { λ d kind. grandchild_kinds d.derived kind };

    ghost fits = { λ d found. ArePut d.derived d.known.keys found };

    fn add_next(
        &mut self,
        alloc: Global,
        at: usize,
        found: &mut IndexSet<ItemType>,
    ) -> Result<(), AllocError> {
        let ItemType::Element { name: _, kind } = &found[at] else {
            return Ok(());
        };
        let kind = kind.clone()?;
        add_children(alloc, &mut self.derived, &kind, &mut self.known, found)
    }
}

// Puts the item types of the children of the elements of a type, unless that was done before.
fn add_children(
    alloc: Global,
    derived: &mut DerivedTypes<'_>,
    kind: &TypeName,
    known: &mut IndexSet<TypeName>,
    found: &mut IndexSet<ItemType>,
) -> Result<(), AllocError>
    requires { ArePut derived.old known.old.keys found.old.keys }
    ensures same { derived.new ≡ derived.old }
    ensures added { OnOk result (found.new.keys ≡ insert_all same_item_type found.old.keys (items_of (content_of_children derived.old kind.now))) }
    ensures put { OnOk result (ArePut derived.old known.new.keys found.new.keys) }
{
    let _types = derived.schemas().types();
    if known.contains(kind) {
        return Ok(());
    }
    let content = child_content(alloc, derived, kind)?;
    add_items(found, &content)?;
    known.insert(kind.clone()?)?;
    Ok(())
}
