// The first construct of a schema document that is outside the profile.

ghost use Rattle.std.specs.Prelude.{◌≡◌, IfOk, codes};
ghost use Rattle.gx_xml.specs.SourceView.{contents_of};
ghost use Rattle.gx_schema_syntax.specs.Outside.{has_name_and_reference, has_wrong_itself, is_prohibited, lacks_attribute, lacks_attribute_type, lacks_element_type, missing_type, outside_among, outside_attribute, outside_attributes, outside_by_form, outside_element, outside_root, outside_type, seen_before, slot_fitting};
ghost use Rattle.gx_qnames.specs.ScopeView.{declared_in};

use crate::attributes::{Form, form_of, may_hold_its_base, needs_of};
use crate::children::{given_value, holds_named, holds_part, holds_text, is_given, is_one_given};
use crate::forms::has_form;
use crate::parts::{Seen, Slot, fits, needs_part, role_in, seen_after, slot_of};
use crate::role::Role;
use crate::words::{is_annotation, is_schema_element, shown_in_schema_namespace, shown_name};
use gx_base::text::Text;
use gx_qnames::reference::{is_outside_profile, reference_in};
use gx_qnames::scope::{Scope, outermost, within};
use gx_qnames::words::{has_spelling, is_schema_uri, written_name};
use gx_xml::source::{SourceAttribute, SourceChild, SourceElement};
use std::alloc::{AllocError, Global};

/// The name of the first construct of a document that is outside the profile, in the order of the text; at one element first
/// the element itself, then the type that it lacks, then its attributes, then its parts.
pub fn outside_root(alloc: Global, root: &SourceElement) -> Result<Option<Text>, AllocError>
    ensures { IfOk result (λ found. found ≡ outside_root root.now) }
{
    if !is_schema_element("schema", &root.name) {
        return Ok(Some(shown_name(alloc, &root.name)?));
    }
    outside_element(alloc, &outermost(alloc), Role::Schema, root)
}

#[cycle(outside)]
fn outside_element<'a>(
    alloc: Global,
    scope: &Scope<'a>,
    role: Role,
    element: &'a SourceElement,
) -> Result<Option<Text>, AllocError>
    ensures { IfOk result (λ found. found ≡ outside_element (declared_in scope.entry.now) role element.entry.now) }
{
    if has_wrong_itself(alloc, role, element)? {
        return Ok(Some(shown_name(alloc, &element.name)?));
    }
    if let Some(name) = missing_type(alloc, role, &element.attributes, &element.children)? {
        return Ok(Some(name));
    }
    let scope = within(alloc, scope, &element.declarations)?;
    if let Some(name) = outside_attributes(alloc, &scope, role, &element.attributes)? {
        return Ok(Some(name));
    }
    let seen = seen_before(role, &element.attributes);
    outside_among(alloc, &scope, role, seen, &element.children)
}

#[cycle(outside)]
fn outside_among<'a>(
    alloc: Global,
    scope: &Scope<'a>,
    role: Role,
    seen: Seen,
    children: &'a [SourceChild],
) -> Result<Option<Text>, AllocError>
    ensures { IfOk result (λ found. found ≡ outside_among (declared_in scope.entry.now) role seen (contents_of children.entry.now)) }
{
    let mut seen = seen;
    let mut left = children;
    while let Some((child, others)) = left.split_first() {
        if let SourceChild::Element(element) = child
            && !is_annotation(&element.name)
        {
            let Some(slot) = slot_fitting(seen, role, element) else {
                return Ok(Some(shown_name(alloc, &element.name)?));
            };
            if let Some(name) = outside_element(alloc, scope, role_in(slot), element)? {
                return Ok(Some(name));
            }
            seen = seen_after(slot);
        }
        left = others;
    }
    Ok(None)
}

// The slot of a part, where it may stand behind what was seen.
fn slot_fitting(seen: Seen, role: Role, element: &SourceElement) -> Option<Slot>
    ensures { result ≡ slot_fitting seen role element.now }
{
    if !is_schema_uri(&element.name.uri) {
        return None;
    }
    let slot = slot_of(role, element.name.local.as_str())?;
    if fits(seen, slot) { Some(slot) } else { None }
}

// Whether the element itself is wrong: it lacks an attribute, has both `name` and `ref`, lacks a part, or holds text.
fn has_wrong_itself(alloc: Global, role: Role, element: &SourceElement) -> Result<bool, AllocError>
    ensures { IfOk result (λ wrong. wrong ≡ has_wrong_itself role element.now) }
{
    if lacks_attribute(role, &element.attributes, &element.children)
        || has_name_and_reference(&element.attributes)
        || needs_part(role) && !holds_part(&element.children)
    {
        return Ok(true);
    }
    holds_text(alloc, &element.children)
}

fn lacks_attribute(role: Role, attributes: &[SourceAttribute], children: &[SourceChild]) -> bool
    ensures { result ≡ lacks_attribute role attributes.now (contents_of children.now) }
{
    match needs_of(role) {
        Some(needed) => {
            !(is_one_given(needed, attributes)
                || may_hold_its_base(role) && holds_named("simpleType", children))
        }
        None => false,
    }
}

fn has_name_and_reference(attributes: &[SourceAttribute]) -> bool
    ensures { result ≡ has_name_and_reference attributes.now }
{
    is_given("name", attributes) && is_given("ref", attributes)
}

fn any_type(alloc: Global) -> Result<Text, AllocError>
    ensures { IfOk result (λ name. name ≡ codes "xs:anyType") }
{
    Text::from_str(alloc, "xs:anyType")
}

fn any_simple_type(alloc: Global) -> Result<Text, AllocError>
    ensures { IfOk result (λ name. name ≡ codes "xs:anySimpleType") }
{
    Text::from_str(alloc, "xs:anySimpleType")
}

// The built-in type that an element or attribute without a type has.
fn missing_type(
    alloc: Global,
    role: Role,
    attributes: &[SourceAttribute],
    children: &[SourceChild],
) -> Result<Option<Text>, AllocError>
    ensures { IfOk result (λ found. found ≡ missing_type role attributes.now (contents_of children.now)) }
{
    match role {
        Role::GlobalElement | Role::LocalElement => {
            if lacks_element_type(attributes, children) {
                return Ok(Some(any_type(alloc)?));
            }
        }
        Role::GlobalAttribute | Role::LocalAttribute => {
            if lacks_attribute_type(attributes, children) {
                return Ok(Some(any_simple_type(alloc)?));
            }
        }
        _ => {}
    }
    Ok(None)
}

fn lacks_element_type(attributes: &[SourceAttribute], children: &[SourceChild]) -> bool
    ensures { result ≡ lacks_element_type attributes.now (contents_of children.now) }
{
    !(is_given("type", attributes)
        || is_given("ref", attributes)
        || holds_named("complexType", children)
        || holds_named("simpleType", children))
}

fn lacks_attribute_type(attributes: &[SourceAttribute], children: &[SourceChild]) -> bool
    ensures { result ≡ lacks_attribute_type attributes.now (contents_of children.now) }
{
    !(is_given("type", attributes)
        || is_given("ref", attributes)
        || holds_named("simpleType", children)
        || is_prohibited(attributes))
}

// Whether the attribute `use` is `prohibited`.
fn is_prohibited(attributes: &[SourceAttribute]) -> bool
    ensures { result ≡ is_prohibited attributes.now }
{
    match given_value("use", attributes) {
        Some(value) => has_spelling("prohibited", value),
        None => false,
    }
}

// An element or attribute with `type` or `ref` holds no type.
fn seen_before(role: Role, attributes: &[SourceAttribute]) -> Seen
    ensures { result ≡ seen_before role attributes.now }
{
    match role {
        Role::GlobalElement | Role::LocalElement | Role::GlobalAttribute | Role::LocalAttribute
            if is_given("type", attributes) || is_given("ref", attributes) => { Seen::TheOnePart }
        _ => Seen::Nothing,
    }
}

fn outside_attributes(
    alloc: Global,
    scope: &Scope<'_>,
    role: Role,
    attributes: &[SourceAttribute],
) -> Result<Option<Text>, AllocError>
    ensures { IfOk result (λ found. found ≡ outside_attributes (declared_in scope.entry.now) role attributes.entry.now) }
{
    let mut left = attributes;
    while let Some((attribute, others)) = left.split_first() {
        if let Some(name) = outside_attribute(alloc, scope, role, attribute)? {
            return Ok(Some(name));
        }
        left = others;
    }
    Ok(None)
}

fn outside_attribute(
    alloc: Global,
    scope: &Scope<'_>,
    role: Role,
    attribute: &SourceAttribute,
) -> Result<Option<Text>, AllocError>
    ensures { IfOk result (λ found. found ≡ outside_attribute (declared_in scope.entry.now) role attribute.entry.now) }
{
    if is_schema_uri(&attribute.name.uri) {
        return Ok(Some(written_name(alloc, &attribute.name)?));
    }
    if !attribute.name.uri.is_empty() || has_spelling("id", &attribute.name.local) {
        return Ok(None);
    }
    match form_of(role, attribute.name.local.as_str()) {
        Some(form) => outside_by_form(alloc, scope, form, attribute),
        None => Ok(Some(written_name(alloc, &attribute.name)?)),
    }
}

// What is outside the profile of an attribute whose values have a form.
fn outside_by_form(
    alloc: Global,
    scope: &Scope<'_>,
    form: Form,
    attribute: &SourceAttribute,
) -> Result<Option<Text>, AllocError>
    ensures { IfOk result (λ found. found ≡ outside_by_form (declared_in scope.entry.now) form attribute.entry.now) }
{
    if !has_form(alloc, form, &attribute.value)? {
        return Ok(Some(written_name(alloc, &attribute.name)?));
    }
    match form {
        Form::TypeReference => outside_type(alloc, scope, &attribute.value),
        _ => Ok(None),
    }
}

// The type that a value names, where it is outside the profile.
fn outside_type(alloc: Global, scope: &Scope<'_>, value: &Text) -> Result<Option<Text>, AllocError>
    ensures { IfOk result (λ found. found ≡ outside_type (declared_in scope.entry.now) value.entry.now) }
{
    let reference = reference_in(alloc, scope, value)?;
    if !is_outside_profile(&reference) {
        return Ok(None);
    }
    Ok(Some(shown_in_schema_namespace(alloc, &reference.name.local)?))
}
