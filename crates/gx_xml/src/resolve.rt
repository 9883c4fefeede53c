// What the names of a start tag stand for, and its faults.

ghost use Rattle.gx_base.specs.Name.{same_name};
ghost use Rattle.gx_tree.specs.Binding.{attribute_uri_read, uri_read, xml};
ghost use Rattle.gx_xml.specs.Tags.{declared_binding, name_with_uri, expanded_attribute, repeats_behind};
ghost use Rattle.std.specs.List.{list_any};
ghost use Rattle.std.specs.Prelude.{◌≡◌, ◌++◌, ◌||◌, [], IfOk, OnOk, bytes_eq, is_none, map, unwrap_or};

use crate::source::{Declaration, SourceAttribute};
use crate::tag::{StartTag, TagAttribute};
use gx_base::name::Name;
use gx_base::text::Text;
use gx_namespaces::bindings::Bindings;
use std::alloc::{AllocError, Global};
use std::collections::BTreeSet;

// The URI of the prefix `xml`.
const XML_URI: &str = "http://www.w3.org/XML/1998/namespace";

fn is_xml(prefix: &Text) -> bool
    ensures { result ≡ bytes_eq prefix.now xml }
{
    prefix.as_str() == "xml"
}

// Whether a prefix of an element is bound.
fn is_unbound(bindings: &Bindings, prefix: &Text) -> bool
    ensures { result ≡ is_none (uri_read bindings.now prefix.now) }
{
    if is_xml(prefix) {
        return false;
    }
    bindings.bound_to(prefix).is_none()
}

// Whether a prefix of an attribute is bound.
fn is_attribute_unbound(bindings: &Bindings, attribute: &TagAttribute) -> bool
    ensures { result ≡ is_none (attribute_uri_read bindings.now attribute.now.prefix) }
{
    if attribute.prefix.is_empty() {
        return false;
    }
    is_unbound(bindings, &attribute.prefix)
}

fn is_any_unbound(bindings: &Bindings, attributes: &[TagAttribute]) -> bool
    ensures { result ≡ list_any (λ a. is_none (attribute_uri_read bindings.now a.prefix)) attributes.now }
{
    for attribute in attributes {
        if is_attribute_unbound(bindings, attribute) {
            return true;
        }
    }
    false
}

// The URI of a prefix of an element, or none.
fn uri_of(alloc: Global, bindings: &Bindings, prefix: &Text) -> Result<Text, AllocError>
    ensures { IfOk result (λ t. t ≡ unwrap_or (uri_read bindings.now prefix.now) []) }
{
    if is_xml(prefix) {
        return Text::from_str(alloc, XML_URI);
    }
    match bindings.bound_to(prefix) {
        Some(uri) => uri.clone(),
        None => Text::empty(alloc),
    }
}

// The URI of a prefix of an attribute, or none.
fn attribute_uri_of(alloc: Global, bindings: &Bindings, prefix: &Text) -> Result<Text, AllocError>
    ensures { IfOk result (λ t. t ≡ unwrap_or (attribute_uri_read bindings.now prefix.now) []) }
{
    if prefix.is_empty() {
        return prefix.clone();
    }
    uri_of(alloc, bindings, prefix)
}

// The attribute with its expanded name.
fn expanded_attribute(
    alloc: Global,
    bindings: &Bindings,
    attribute: &TagAttribute,
) -> Result<SourceAttribute, AllocError>
    ensures { IfOk result (λ a. a ≡ expanded_attribute bindings.now attribute.now) }
{
    let uri = attribute_uri_of(alloc, bindings, &attribute.prefix)?;
    let prefix = attribute.prefix.clone()?;
    let local = attribute.local.clone()?;
    let value = attribute.value.clone()?;
    let name = Name { uri, prefix, local };
    Ok(SourceAttribute { name, value })
}

/// The attributes with their expanded names.
pub fn expanded_attributes(
    alloc: Global,
    bindings: &Bindings,
    attributes: &[TagAttribute],
) -> Result<Vec<SourceAttribute>, AllocError>
    ensures { IfOk result (λ v. v.items ≡ map (expanded_attribute bindings.now) attributes.now) }
{
    let mut expanded = Vec::with_capacity(alloc, attributes.len())?;
    for attribute in attributes {
        expanded.push(expanded_attribute(alloc, bindings, attribute)?)?;
    }
    Ok(expanded)
}

/// The name of the element of a tag.
pub fn element_name(alloc: Global, bindings: &Bindings, tag: &StartTag) -> Result<Name, AllocError>
    ensures { IfOk result (λ n. n ≡ name_with_uri (uri_read bindings.now tag.now.prefix) tag.now.prefix tag.now.local) }
{
    let uri = uri_of(alloc, bindings, &tag.prefix)?;
    let prefix = tag.prefix.clone()?;
    let local = tag.local.clone()?;
    Ok(Name { uri, prefix, local })
}

/// Adds the declarations of a tag to the bindings in force.
pub fn declare(bindings: &mut Bindings, declarations: &[Declaration]) -> Result<(), AllocError>
    ensures { OnOk result (bindings.new ≡ bindings.old ++ map declared_binding declarations.now) }
{
    for declaration in declarations {
        bindings.push(&declaration.prefix, &declaration.uri)?;
    }
    Ok(())
}

// Whether two declarations have one prefix.
fn has_doubled_prefix(alloc: Global, declarations: &[Declaration]) -> Result<bool, AllocError>
    ensures { IfOk result (λ b. b ≡ repeats_behind bytes_eq [] (map (λ d. d.prefix) declarations.now)) }
{
    let mut seen = BTreeSet::new(alloc);
    for declaration in declarations {
        if seen.contains(&declaration.prefix) {
            return Ok(true);
        }
        seen.insert(declaration.prefix.clone()?)?;
    }
    Ok(false)
}

// Whether two attributes have one expanded name.
#[tactic(auto, using(crate::proofs::DoubleLemmas::few_repeat_not))]
fn has_doubled_name(alloc: Global, attributes: &[SourceAttribute]) -> Result<bool, AllocError>
    ensures { IfOk result (λ b. b ≡ repeats_behind same_name [] (map (λ a. a.name) attributes.now)) }
{
    if attributes.len() < 2 {
        return Ok(false);
    }
    let mut seen = BTreeSet::new(alloc);
    for attribute in attributes {
        if seen.contains(&attribute.name) {
            return Ok(true);
        }
        seen.insert(attribute.name.clone()?)?;
    }
    Ok(false)
}

/// Whether a prefix of the element or of an attribute is not bound.
pub fn has_unbound(bindings: &Bindings, tag: &StartTag) -> bool
    ensures { result ≡ (is_none (uri_read bindings.now tag.now.prefix) || list_any (λ a. is_none (attribute_uri_read bindings.now a.prefix)) tag.now.attributes.items) }
{
    is_unbound(bindings, &tag.prefix) || is_any_unbound(bindings, &tag.attributes)
}

/// Whether two declarations have one prefix, or two attributes one expanded name.
pub fn has_doubled(
    alloc: Global,
    declarations: &[Declaration],
    attributes: &[SourceAttribute],
) -> Result<bool, AllocError>
    ensures { IfOk result (λ b. b ≡ (repeats_behind bytes_eq [] (map (λ d. d.prefix) declarations.now) || repeats_behind same_name [] (map (λ a. a.name) attributes.now))) }
{
    Ok(has_doubled_prefix(alloc, declarations)? || has_doubled_name(alloc, attributes)?)
}
