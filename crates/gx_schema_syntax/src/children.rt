// What stands in an element of a schema document.

ghost use Rattle.std.specs.Prelude.{◌≡◌, ◌&&◌, IfOk, option_copied};
ghost use Rattle.gx_xml.specs.SourceView.{contents_of};
ghost use Rattle.gx_schema_syntax.specs.Contents.{holds_named, holds_part, holds_text, is_child_named, is_given, is_one_given, is_part, is_plain, is_written_text, given_value};
ghost use Rattle.gx_schema_syntax.specs.AttributeView.{words_listed};

use crate::words::{is_annotation, is_schema_element};
use gx_base::name::Name;
use gx_base::text::Text;
use gx_qnames::characters::{characters, is_blank};
use gx_xml::source::{SourceAttribute, SourceChild};
use std::alloc::{AllocError, Global};

// Whether an attribute has this local name in no namespace.
fn is_plain(local: &str, name: &Name) -> bool
    ensures { result ≡ is_plain local.now name.now }
{
    name.uri.is_empty() && name.local.as_str() == local
}

/// The value of the attribute of this local name in no namespace.
pub fn given_value<'a>(local: &str, attributes: &'a [SourceAttribute]) -> Option<&'a Text>
    ensures { option_copied result ≡ given_value local.now attributes.now }
{
    let mut left = attributes;
    while let Some((attribute, others)) = left.split_first() {
        if is_plain(local, &attribute.name) {
            return Some(&attribute.value);
        }
        left = others;
    }
    None
}

/// Whether there is an attribute of this local name in no namespace.
pub fn is_given(local: &str, attributes: &[SourceAttribute]) -> bool
    ensures { result ≡ is_given local.now attributes.now }
{
    given_value(local, attributes).is_some()
}

/// Whether there is an attribute of one of these local names in no namespace.
pub fn is_one_given(locals: &[&'static str], attributes: &[SourceAttribute]) -> bool
    ensures { result ≡ is_one_given (words_listed locals.now) attributes.now }
{
    for local in locals {
        if is_given(local, attributes) {
            return true;
        }
    }
    false
}

/// Whether an element stands there beside annotations.
pub fn holds_part(children: &[SourceChild]) -> bool
    ensures { result ≡ holds_part (contents_of children.now) }
{
    let mut left = children;
    while let Some((child, others)) = left.split_first() {
        if is_part(child) {
            return true;
        }
        left = others;
    }
    false
}

fn is_part(child: &SourceChild) -> bool
    ensures { result ≡ is_part child.now }
{
    match child {
        SourceChild::Element(element) => !is_annotation(&element.name),
        SourceChild::Text(_) => false,
    }
}

/// Whether an element of this local name in the namespace of schema documents stands there.
pub fn holds_named(local: &str, children: &[SourceChild]) -> bool
    ensures { result ≡ holds_named local.now (contents_of children.now) }
{
    let mut left = children;
    while let Some((child, others)) = left.split_first() {
        if is_child_named(local, child) {
            return true;
        }
        left = others;
    }
    false
}

fn is_child_named(local: &str, child: &SourceChild) -> bool
    ensures { result ≡ is_child_named local.now child.now }
{
    match child {
        SourceChild::Element(element) => is_schema_element(local, &element.name),
        SourceChild::Text(_) => false,
    }
}

/// Whether a text other than white space stands there.
pub fn holds_text(alloc: Global, children: &[SourceChild]) -> Result<bool, AllocError>
    ensures { IfOk result (λ holds. holds ≡ holds_text (contents_of children.now)) }
{
    let mut left = children;
    while let Some((child, others)) = left.split_first() {
        if is_written_text(alloc, child)? {
            return Ok(true);
        }
        left = others;
    }
    Ok(false)
}

fn is_written_text(alloc: Global, child: &SourceChild) -> Result<bool, AllocError>
    ensures { IfOk result (λ written. written ≡ is_written_text child.now) }
{
    match child {
        SourceChild::Element(_) => Ok(false),
        SourceChild::Text(text) => Ok(!is_blank(&characters(alloc, text)?)),
    }
}
