// The namespaces that start tags of direct elements declare.

ghost use Rattle.std.specs.Prelude.{◌≡◌, [], IfOk, OnOk, Some, option_copied};
ghost use Rattle.gx_ast.specs.SyntaxView.{attribute_parts_of, attributes_of};
ghost use Rattle.gx_names_scope.specs.Refused.{Judges};
ghost use Rattle.gx_names_scope.specs.StartTags.{declared_prefix, declares_namespace, has_enclosed, is_behind_xmlns, is_unbinding, is_xmlns, literal_value, namespace_refusals, namespaces_refusals, prefixes_with, with_namespace, with_namespaces, without_namespace, without_namespaces};

use crate::names::Names;
use crate::prefixes::{DeclaredPrefixes, is_reserved_prefix, is_reserved_uri};
use crate::refusal::{NameRefusal, refused};
use gx_ast::expression::{AttributePart, DirectAttribute};
use gx_ast::name::QName;
use gx_base::code::Code;
use gx_base::place::Place;
use gx_base::text::Text;
use gx_base::text_builder::TextBuilder;
use gx_resolved::nested_map::NestedMap;
use std::alloc::{AllocError, Global};

// ---- names

/// Whether a name is `xmlns`.
#[tactic(auto, unfolding(crate::specs::StartTags::is_xmlns))]
pub fn is_xmlns(name: &QName) -> bool
    ensures { result ≡ is_xmlns name.now }
{
    name.prefix.as_str() == "" && name.local.as_str() == "xmlns"
}

#[tactic(auto, unfolding(crate::specs::StartTags::is_behind_xmlns))]
fn is_behind_xmlns(name: &QName) -> bool
    ensures { result ≡ is_behind_xmlns name.now }
{
    name.prefix.as_str() == "xmlns"
}

// The prefix that an attribute of this name declares, if it is a namespace declaration.
fn declared_prefix(name: &QName) -> Option<&Text>
    ensures { option_copied result ≡ declared_prefix name.now }
{
    if is_xmlns(name) {
        Some(&name.prefix)
    } else if is_behind_xmlns(name) {
        Some(&name.local)
    } else {
        None
    }
}

/// Whether an attribute of this name is a namespace declaration.
pub fn declares_namespace(name: &QName) -> bool
    ensures { result ≡ declares_namespace name.now }
{
    is_xmlns(name) || is_behind_xmlns(name)
}

// ---- the values of declarations

// The characters of a value, but for enclosed expressions.
fn literal_value(alloc: Global, value: &[AttributePart]) -> Result<Text, AllocError>
    ensures { IfOk result (λ text. text ≡ literal_value (attribute_parts_of value.now)) }
{
    let mut characters = TextBuilder::new(alloc);
    let mut left = value;
    while let Some((part, others)) = left.split_first() {
        if let AttributePart::Text(text) = part {
            characters.push_text(text)?;
        }
        left = others;
    }
    characters.finish()
}

fn has_enclosed(value: &[AttributePart]) -> bool
    ensures { result ≡ has_enclosed (attribute_parts_of value.now) }
{
    let mut left = value;
    while let Some((part, others)) = left.split_first() {
        if let AttributePart::Enclosed(_) = part {
            return true;
        }
        left = others;
    }
    false
}

// ---- what is refused

/// Looks for what is refused of the namespace declarations of a start tag.
pub fn check_namespaces(alloc: Global, attributes: &[DirectAttribute]) -> Result<(), NameRefusal>
    ensures { Judges result (namespaces_refusals [] (attributes_of attributes.now)) }
{
    let mut earlier = NestedMap::new(alloc);
    check_attributes(alloc, &mut earlier, attributes)
}

// Attributes behind others, which are earlier ones from then on.
#[tactic(auto, using(crate::proofs::RefusalLemmas::refused_before))]
fn check_attributes(
    alloc: Global,
    earlier: &mut DeclaredPrefixes,
    attributes: &[DirectAttribute],
) -> Result<(), NameRefusal>
    ensures { Judges result (namespaces_refusals earlier.old (attributes_of attributes.now)) }
{
    let mut left = attributes;
    while let Some((attribute, others)) = left.split_first() {
        check_attribute(alloc, earlier, attribute)?;
        left = others;
    }
    Ok(())
}

// An attribute, which is an earlier one from then on.
fn check_attribute(
    alloc: Global,
    earlier: &mut DeclaredPrefixes,
    attribute: &DirectAttribute,
) -> Result<(), NameRefusal>
    ensures refusals { Judges result (namespace_refusals earlier.old attribute.now.name.place (declared_prefix attribute.now.name) (attribute_parts_of attribute.now.value.items)) }
    ensures earlier { OnOk result (earlier.new ≡ prefixes_with attribute.now.name.place (declared_prefix attribute.now.name) earlier.old) }
{
    let Some(prefix) = declared_prefix(&attribute.name) else {
        return Ok(());
    };
    let place = attribute.name.place;
    check_namespace(alloc, earlier, place, prefix, attribute.value.as_slice())?;
    Ok(earlier.bind(prefix.clone()?, place)?)
}

// A namespace declaration behind those of these prefixes.
#[tactic(auto, using(crate::proofs::RefusalLemmas::refused_before))]
fn check_namespace(
    alloc: Global,
    earlier: &DeclaredPrefixes,
    place: Place,
    prefix: &Text,
    value: &[AttributePart],
) -> Result<(), NameRefusal>
    ensures { Judges result (namespace_refusals earlier.now place (Some prefix.now) (attribute_parts_of value.now)) }
{
    if has_enclosed(value) {
        return Err(refused(place, Code::XQST0022));
    }
    let uri = literal_value(alloc, value)?;
    if is_reserved_prefix(prefix) || is_reserved_uri(&uri) {
        return Err(refused(place, Code::XQST0070));
    }
    if is_unbinding(prefix, &uri) {
        return Err(refused(place, Code::XQST0085));
    }
    match earlier.find(prefix) {
        Some(_) => Err(refused(place, Code::XQST0071)),
        None => Ok(()),
    }
}

#[tactic(auto, unfolding(crate::specs::StartTags::is_unbinding))]
fn is_unbinding(prefix: &Text, uri: &Text) -> bool
    ensures { result ≡ is_unbinding prefix.now uri.now }
{
    !(prefix.as_str() == "") && uri.as_str() == ""
}

// ---- what names stand for in the element

/// Binds the prefixes that a start tag declares.
pub fn declare_namespaces(
    alloc: Global,
    names: &mut Names<'_>,
    attributes: &[DirectAttribute],
) -> Result<(), AllocError>
    ensures { OnOk result (names.new ≡ with_namespaces (attributes_of attributes.now) names.old) }
{
    let mut left = attributes;
    while let Some((attribute, others)) = left.split_first() {
        declare_namespace(alloc, names, attribute)?;
        left = others;
    }
    Ok(())
}

fn declare_namespace(
    alloc: Global,
    names: &mut Names<'_>,
    attribute: &DirectAttribute,
) -> Result<(), AllocError>
    ensures { OnOk result (names.new ≡ with_namespace (declared_prefix attribute.now.name) (attribute_parts_of attribute.now.value.items) names.old) }
{
    let Some(prefix) = declared_prefix(&attribute.name) else {
        return Ok(());
    };
    let uri = literal_value(alloc, attribute.value.as_slice())?;
    names.bind(prefix.clone()?, uri)
}

/// Takes away what a start tag bound.
pub fn leave_namespaces(
    names: &mut Names<'_>,
    attributes: &[DirectAttribute],
) -> Result<(), AllocError>
    ensures { OnOk result (names.new ≡ without_namespaces (attributes_of attributes.now) names.old) }
{
    let mut left = attributes;
    while let Some((attribute, others)) = left.split_first() {
        leave_namespace(names, attribute)?;
        left = others;
    }
    Ok(())
}

fn leave_namespace(names: &mut Names<'_>, attribute: &DirectAttribute) -> Result<(), AllocError>
    ensures { OnOk result (names.new ≡ without_namespace (declared_prefix attribute.now.name) names.old) }
{
    match declared_prefix(&attribute.name) {
        Some(_) => names.unbind(),
        None => Ok(()),
    }
}
