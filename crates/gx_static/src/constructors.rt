// The static rules of constructors.

ghost use Rattle.std.specs.Prelude.{◌≡◌, ◌++◌, ◌∷◌, [], Some, None, IfOk, IfErr, OnOk, MatchOption};
ghost use Rattle.gx_types.specs.SchemaSet.{SchemaSet};
ghost use Rattle.gx_types.specs.SequenceType.{SequenceType, star as any_number};
ghost use Rattle.gx_static.specs.Rule.{Ruling, has_type, has_none, any_document_content_type as any_document_content, element_content as any_element_content, joined_in_order, constructed_element as untyped_element_type, element_rule, data_rule, if_atomized, if_all_atomized, attribute_rule, constructed_text as text_of_values, text_rule, only_element_of, document_rule, constructor_rule};
ghost use Rattle.gx_static.specs.Refusal.{RefusesType};

use crate::error::RuleError;
use crate::item_tests::{atomic, is_at_least_one, no_type};
use crate::rules::data_type;
use gx_base::code::Code;
use gx_base::name::Name;
use gx_base::type_name::{Builtin, TypeName};
use gx_core::constructor::Constructor;
use gx_include::decision::is_included;
use gx_types::item_type::ItemType;
use gx_types::schemas::Schemas;
use gx_types::sequence_type::{Ty, TyNode};
use gx_types::type_rules::{choose, join, optional, star};
use std::alloc::{AllocError, Global};

/// The type of what a constructor makes of its parts (XQuery 1.0, section 3.7).
pub(crate) fn constructor_type(
    alloc: Global,
    schemas: &Schemas,
    constructor: &Constructor,
    parts: &[Ty],
) -> Result<Ty, RuleError>
    ensures typed { IfOk result (λ t. constructor_rule schemas.now constructor.now parts.now ≡ has_type t) }
    ensures refused { IfErr result (λ e. RefusesType e (constructor_rule schemas.now constructor.now parts.now)) }
{
    match constructor {
        Constructor::Element(name) => element_type(alloc, schemas, name, parts),
        Constructor::Attribute(name) => attribute_type(alloc, schemas, name, parts),
        Constructor::Text => match parts {
            [content] => text_type(alloc, schemas, content),
            _ => Err(no_type(Code::XPTY0004)),
        },
        Constructor::Document => match parts {
            [content] => document_type(alloc, schemas, content),
            _ => Err(no_type(Code::XPTY0004)),
        },
    }
}

// An element is untyped, and attributes come first among its parts.
fn element_type(
    alloc: Global,
    schemas: &Schemas,
    name: &Name,
    parts: &[Ty],
) -> Result<Ty, RuleError>
    ensures typed { IfOk result (λ t. element_rule schemas.now name.now parts.now ≡ has_type t) }
    ensures refused { IfErr result (λ e. RefusesType e (element_rule schemas.now name.now parts.now)) }
{
    let content = joined_in_order(alloc, parts)?;
    let wanted = element_content(alloc)?;
    if !is_included(alloc, schemas, &content, &wanted)? {
        return Err(no_type(Code::XQTY0024));
    }
    Ok(constructed_element(alloc, name)?)
}

// The types of parts one behind another.
fn joined_in_order(alloc: Global, parts: &[Ty]) -> Result<Ty, AllocError>
    ensures { IfOk result (λ t. t ≡ joined_in_order parts.now) }
{
    let mut joined = Ty::empty();
    let mut left = parts;
    while let Some((last, front)) = left.split_last() {
        joined = join(alloc, last, &joined)?;
        left = front;
    }
    Ok(joined)
}

// What may stand in an element.
fn element_content(alloc: Global) -> Result<Ty, AllocError>
    ensures { IfOk result (λ t. t ≡ any_element_content) }
{
    let attribute = ItemType::Attribute {
        name: None,
        kind: TypeName::Builtin(Builtin::AnySimple),
    };
    let attribute = Ty::of_item(alloc, attribute)?;
    let attributes = star(alloc, &attribute)?;
    let content = any_document_content_type(alloc)?;
    join(alloc, &attributes, &content)
}

// What may stand in a document.
fn any_document_content_type(alloc: Global) -> Result<Ty, AllocError>
    ensures { IfOk result (λ t. t ≡ any_document_content) }
{
    let element = ItemType::Element {
        name: None,
        kind: TypeName::Builtin(Builtin::AnyType),
    };
    let element = Ty::of_item(alloc, element)?;
    let text = Ty::of_item(alloc, ItemType::Text)?;
    let document = Ty::of_item(alloc, ItemType::Document(None))?;
    let atoms = atomic(alloc, Builtin::AnyAtomic)?;
    let member = choose(alloc, &[element, text, document, atoms])?;
    star(alloc, &member)
}

fn constructed_element(alloc: Global, name: &Name) -> Result<Ty, AllocError>
    ensures { IfOk result (λ t. t ≡ untyped_element_type name.now) }
{
    let name = Some(name.clone()?);
    let kind = TypeName::Builtin(Builtin::Untyped);
    Ty::of_item(alloc, ItemType::Element { name, kind })
}

// An attribute is untyped, and each of its parts is atomized.
fn attribute_type(
    alloc: Global,
    schemas: &Schemas,
    name: &Name,
    parts: &[Ty],
) -> Result<Ty, RuleError>
    ensures typed { IfOk result (λ t. attribute_rule schemas.now name.now parts.now ≡ has_type t) }
    ensures refused { IfErr result (λ e. RefusesType e (attribute_rule schemas.now name.now parts.now)) }
{
    check_atomized(alloc, schemas, parts)?;
    let name = Some(name.clone()?);
    let kind = TypeName::Builtin(Builtin::UntypedAtomic);
    Ok(Ty::of_item(alloc, ItemType::Attribute { name, kind })?)
}

// Each part has typed values; the code of one that has none stands there.
fn check_atomized(alloc: Global, schemas: &Schemas, parts: &[Ty]) -> Result<(), RuleError>
    ensures checked { (ruling : Ruling) → OnOk result (if_all_atomized schemas.now parts.now 0 ruling ≡ ruling) }
    ensures refused { (ruling : Ruling) → IfErr result (λ e. RefusesType e (if_all_atomized schemas.now parts.now 0 ruling)) }
{
    let mut left = parts;
    let mut number = 0;
    while let Some((part, others)) = left.split_first() {
        atomized_at(alloc, schemas, part, number)?;
        left = others;
        let Some(next) = number.checked_add(1) else {
            return Err(RuleError::Memory);
        };
        number = next;
    }
    Ok(())
}

// The type of the typed values of a part; the code stands at the part with this number.
fn atomized_at(alloc: Global, schemas: &Schemas, part: &Ty, number: u32) -> Result<Ty, RuleError>
    ensures typed { (next : SequenceType → Ruling) → IfOk result (λ t. if_atomized (data_rule schemas.now part.now) number next ≡ next t) }
    ensures refused { (next : SequenceType → Ruling) → IfErr result (λ e. RefusesType e (if_atomized (data_rule schemas.now part.now) number next)) }
{
    match data_type(alloc, schemas, part) {
        Err(RuleError::NoType { code, part: _ }) => Err(RuleError::NoType {
            code,
            part: Some(number),
        }),
        answer => answer,
    }
}

// A text, which may be missing where there may be no value.
fn text_type(alloc: Global, schemas: &Schemas, content: &Ty) -> Result<Ty, RuleError>
    ensures typed { IfOk result (λ t. text_rule schemas.now content.now ≡ has_type t) }
    ensures refused { IfErr result (λ e. RefusesType e (text_rule schemas.now content.now)) }
{
    let values = atomized_at(alloc, schemas, content, 0)?;
    Ok(constructed_text(alloc, &values)?)
}

fn constructed_text(alloc: Global, values: &Ty) -> Result<Ty, AllocError>
    ensures { IfOk result (λ t. t ≡ text_of_values values.now) }
{
    let text = Ty::of_item(alloc, ItemType::Text)?;
    if is_at_least_one(values) {
        Ok(text)
    } else {
        optional(alloc, &text)
    }
}

// A document, of one untyped element where its content is one element of a name.
fn document_type(alloc: Global, schemas: &Schemas, content: &Ty) -> Result<Ty, RuleError>
    ensures typed { IfOk result (λ t. document_rule schemas.now content.now ≡ has_type t) }
    ensures refused { IfErr result (λ e. RefusesType e (document_rule schemas.now content.now)) }
{
    let wanted = any_document_content_type(alloc)?;
    if !is_included(alloc, schemas, content, &wanted)? {
        return Err(no_type(Code::XPTY0004));
    }
    let element = only_element_of(content)?;
    Ok(Ty::of_item(alloc, ItemType::Document(element))?)
}

// The one untyped element that content of one element becomes.
fn only_element_of(content: &Ty) -> Result<Option<(Option<Name>, TypeName)>, AllocError>
    ensures { IfOk result (λ element. element ≡ only_element_of content.now) }
{
    let TyNode::Item(kind) = &content.node else {
        return Ok(None);
    };
    match &**kind {
        ItemType::Element {
            name: Some(name),
            kind: _,
        } => {
            let name = name.clone()?;
            Ok(Some((Some(name), TypeName::Builtin(Builtin::Untyped))))
        }
        _ => Ok(None),
    }
}
