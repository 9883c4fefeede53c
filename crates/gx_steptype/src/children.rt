// The types of children, attributes and parents, before a test.

ghost use Rattle.std.specs.Prelude.{◌≡◌, IfOk};
ghost use Rattle.gx_types.specs.SequenceType.{item as one_item};
ghost use Rattle.gx_types.specs.SchemaSet.{declaration_of};
ghost use Rattle.gx_types.specs.declared.item_type.ItemType.TheVariants as items;
ghost use Rattle.gx_steptype.specs.StepType.{any_element as any_element_type, any_document as any_document_type, text_item, optional_text as optional_text_type, mixed_with as mixed_with_kind, content_type as type_of_content, declared_content as content_of_declared, content_of as content_of_kind, is_ur_type as is_any, child_content as content_of_children, child_type as type_of_children, parent_type as type_of_parent};

use crate::derived::{OfType, over_types};
use crate::derived_types::DerivedTypes;
use gx_base::name::Name;
use gx_base::type_name::{Builtin, TypeName};
use gx_types::declaration::Content;
use gx_types::item_type::ItemType;
use gx_types::schemas::Schemas;
use gx_types::sequence_type::Ty;
use gx_types::type_rules::{choose, optional, star};
use std::alloc::{AllocError, Global};

// The content of the elements of each type.
#[derive(Clone, Copy)]
pub(crate) struct ContentOf<'a> {
    pub schemas: &'a Schemas,
}

impl OfType for ContentOf<'_> {
    ghost use Rattle.gx_steptype.specs.StepType.{content_of as content_of_kind};

    ghost of = { λ c kind. content_of_kind c.schemas.now kind };

    fn of_type(&self, alloc: Global, kind: &TypeName) -> Result<Ty, AllocError> {
        content_of(alloc, self.schemas, kind)
    }
}

// The children of a node of an item type.
pub(crate) fn child_type(
    alloc: Global,
    derived: &mut DerivedTypes<'_>,
    item: &ItemType,
) -> Result<Ty, AllocError>
    ensures same { derived.new ≡ derived.old }
    ensures children { IfOk result (λ t. t ≡ type_of_children derived.old item.now) }
{
    match item {
        ItemType::Element { name: _, kind } => child_content(alloc, derived, kind),
        ItemType::Document(None) => mixed_with(alloc, &TypeName::Builtin(Builtin::AnyType)),
        ItemType::Document(Some((name, kind))) => element_type(alloc, name, kind),
        ItemType::Attribute { name: _, kind: _ } | ItemType::Text | ItemType::Atom(_) => {
            Ok(Ty::empty())
        }
    }
}

// The children of the elements of a type and of all types that are derived from it.
pub(crate) fn child_content(
    alloc: Global,
    derived: &mut DerivedTypes<'_>,
    kind: &TypeName,
) -> Result<Ty, AllocError>
    ensures same { derived.new ≡ derived.old }
    ensures content { IfOk result (λ t. t ≡ content_of_children derived.old kind.now) }
{
    let schemas = derived.schemas();
    if is_any_type(kind) {
        return content_of(alloc, schemas, kind);
    }
    let types = derived.of(alloc, kind)?;
    over_types(
        alloc,
        schemas,
        &ContentOf { schemas },
        kind,
        types.as_slice(),
    )
}

pub(crate) fn is_any_type(kind: &TypeName) -> bool
    ensures { result ≡ is_any kind.now }
{
    matches!(kind, TypeName::Builtin(Builtin::AnyType))
}

// The children of the elements of one type.
fn content_of(alloc: Global, schemas: &Schemas, kind: &TypeName) -> Result<Ty, AllocError>
    ensures { IfOk result (λ t. t ≡ content_of_kind schemas.now kind.now) }
{
    match kind {
        TypeName::Builtin(Builtin::AnyType | Builtin::Untyped) => mixed_with(alloc, kind),
        TypeName::Builtin(_) => optional_text(alloc),
        TypeName::Named(_) | TypeName::Anonymous(_) => declared_content(alloc, schemas, kind),
    }
}

fn declared_content(alloc: Global, schemas: &Schemas, kind: &TypeName) -> Result<Ty, AllocError>
    ensures { IfOk result (λ t. t ≡ content_of_declared (declaration_of schemas.now kind.now)) }
{
    match schemas.declared(kind) {
        Some(declared) => content_type(alloc, &declared.content),
        None => Ok(Ty::empty()),
    }
}

fn content_type(alloc: Global, content: &Content) -> Result<Ty, AllocError>
    ensures { IfOk result (λ t. t ≡ type_of_content content.now) }
{
    match content {
        Content::Atomic(_) | Content::List(_, _) | Content::Simple(_, _) => optional_text(alloc),
        Content::Complex { mixed: _, model } => model.clone(),
    }
}

// The parent of a node of an item type.
pub(crate) fn parent_type(alloc: Global, item: &ItemType) -> Result<Ty, AllocError>
    ensures { IfOk result (λ t. t ≡ type_of_parent item.now) }
{
    match item {
        ItemType::Element { name: _, kind: _ } | ItemType::Text => {
            let members = [any_element(alloc)?, any_document(alloc)?];
            let choice = choose(alloc, &members)?;
            optional(alloc, &choice)
        }
        ItemType::Attribute { name: _, kind: _ } => {
            let element = any_element(alloc)?;
            optional(alloc, &element)
        }
        ItemType::Document(_) | ItemType::Atom(_) => Ok(Ty::empty()),
    }
}

// Elements of one type, and texts, in any number and order.
fn mixed_with(alloc: Global, kind: &TypeName) -> Result<Ty, AllocError>
    ensures { IfOk result (λ t. t ≡ mixed_with_kind kind.now) }
{
    let members = [element_type(alloc, &None, kind)?, text_type(alloc)?];
    let choice = choose(alloc, &members)?;
    star(alloc, &choice)
}

fn element_type(alloc: Global, name: &Option<Name>, kind: &TypeName) -> Result<Ty, AllocError>
    ensures { IfOk result (λ t. t ≡ one_item (items.Element name.now kind.now)) }
{
    let name = match name {
        Some(name) => Some(name.clone()?),
        None => None,
    };
    let kind = kind.clone()?;
    Ty::of_item(alloc, ItemType::Element { name, kind })
}

pub(crate) fn any_element(alloc: Global) -> Result<Ty, AllocError>
    ensures { IfOk result (λ t. t ≡ any_element_type) }
{
    element_type(alloc, &None, &TypeName::Builtin(Builtin::AnyType))
}

pub(crate) fn any_document(alloc: Global) -> Result<Ty, AllocError>
    ensures { IfOk result (λ t. t ≡ any_document_type) }
{
    Ty::of_item(alloc, ItemType::Document(None))
}

pub(crate) fn text_type(alloc: Global) -> Result<Ty, AllocError>
    ensures { IfOk result (λ t. t ≡ text_item) }
{
    Ty::of_item(alloc, ItemType::Text)
}

fn optional_text(alloc: Global) -> Result<Ty, AllocError>
    ensures { IfOk result (λ t. t ≡ optional_text_type) }
{
    let text = text_type(alloc)?;
    optional(alloc, &text)
}
