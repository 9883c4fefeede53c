// The texts of names and of item types.

ghost use Rattle.std.specs.Prelude.{◌≡◌, ◌++◌, OnOk, codes, decimal};
ghost use Rattle.std.specs.Str.{chars};
ghost use Rattle.gx_typetext.specs.NameText.{word, name_text, type_name_text, braced, space_text};
ghost use Rattle.gx_typetext.specs.ItemText.{is_any_type, is_any_simple_type, test_text, element_text, item_text};

use crate::builtin_name::builtin_name;
use gx_base::name::Name;
use gx_base::text::Text;
use gx_base::text_builder::TextBuilder;
use gx_base::type_name::{Builtin, TypeName};
use gx_types::item_type::ItemType;
use std::alloc::{AllocError, Global};

pub(crate) const SCHEMA_NAMESPACE: &str = "http://www.w3.org/2001/XMLSchema";

// Adds a word at the end.
pub(crate) fn write_word(
    alloc: Global,
    text: &mut TextBuilder,
    word: &str,
) -> Result<(), AllocError>
    ensures { OnOk result (text.new ≡ text.old ++ chars word.now) }
{
    text.push_str(word)
}

// Adds an item type at the end.
#[tactic(auto, using(std::proofs::Common::append_assoc))]
pub(crate) fn write_item(
    alloc: Global,
    text: &mut TextBuilder,
    item: &ItemType,
) -> Result<(), AllocError>
    ensures { OnOk result (text.new ≡ text.old ++ item_text item.now) }
{
    match item {
        ItemType::Element { name, kind } => write_element(alloc, text, name, kind),
        ItemType::Attribute { name, kind } => write_attribute(alloc, text, name, kind),
        ItemType::Text => write_word(alloc, text, "text()"),
        ItemType::Document(None) => write_word(alloc, text, "document-node()"),
        ItemType::Document(Some((name, kind))) => {
            write_word(alloc, text, "document-node(")?;
            write_element(alloc, text, name, kind)?;
            write_word(alloc, text, ")")
        }
        ItemType::Atom(kind) => write_type_name(alloc, text, kind),
    }
}

#[tactic(auto, using(std::proofs::Common::append_assoc))]
fn write_element(
    alloc: Global,
    text: &mut TextBuilder,
    name: &Option<Name>,
    kind: &TypeName,
) -> Result<(), AllocError>
    ensures { OnOk result (text.new ≡ text.old ++ element_text name.now kind.now) }
{
    write_word(alloc, text, "element(")?;
    write_test(alloc, text, name, kind, has_any_type(kind))?;
    write_word(alloc, text, ")")
}

#[tactic(auto, using(std::proofs::Common::append_assoc))]
fn write_attribute(
    alloc: Global,
    text: &mut TextBuilder,
    name: &Option<Name>,
    kind: &TypeName,
) -> Result<(), AllocError>
    ensures { OnOk result (text.new ≡ text.old ++ (word (codes "attribute(") ++ test_text name.now kind.now (is_any_simple_type kind.now) ++ word (codes ")"))) }
{
    write_word(alloc, text, "attribute(")?;
    write_test(alloc, text, name, kind, has_any_simple_type(kind))?;
    write_word(alloc, text, ")")
}

fn has_any_type(kind: &TypeName) -> bool
    ensures { result ≡ is_any_type kind.now }
{
    match kind {
        TypeName::Builtin(Builtin::AnyType) => true,
        _ => false,
    }
}

fn has_any_simple_type(kind: &TypeName) -> bool
    ensures { result ≡ is_any_simple_type kind.now }
{
    match kind {
        TypeName::Builtin(Builtin::AnySimple) => true,
        _ => false,
    }
}

// Adds what stands between the parentheses of an element or an attribute.
#[tactic(auto, using(std::proofs::Common::append_assoc))]
fn write_test(
    alloc: Global,
    text: &mut TextBuilder,
    name: &Option<Name>,
    kind: &TypeName,
    has_any_type: bool,
) -> Result<(), AllocError>
    ensures { OnOk result (text.new ≡ text.old ++ test_text name.now kind.now has_any_type) }
{
    match (name, has_any_type) {
        (None, true) => Ok(()),
        (Some(name), true) => write_name(alloc, text, name),
        (None, false) => {
            write_word(alloc, text, "*, ")?;
            write_type_name(alloc, text, kind)
        }
        (Some(name), false) => {
            write_name(alloc, text, name)?;
            write_word(alloc, text, ", ")?;
            write_type_name(alloc, text, kind)
        }
    }
}

// Adds the name of a type at the end.
#[tactic(auto, using(std::proofs::Common::append_assoc))]
pub(crate) fn write_type_name(
    alloc: Global,
    text: &mut TextBuilder,
    kind: &TypeName,
) -> Result<(), AllocError>
    ensures { OnOk result (text.new ≡ text.old ++ type_name_text kind.now) }
{
    match kind {
        TypeName::Builtin(builtin) => {
            write_word(alloc, text, "xs:")?;
            write_word(alloc, text, builtin_name(*builtin))
        }
        TypeName::Named(name) => write_name(alloc, text, name.name()),
        TypeName::Anonymous(number) => {
            write_word(alloc, text, "#")?;
            write_number(alloc, text, *number)
        }
    }
}

fn write_number(alloc: Global, text: &mut TextBuilder, number: u32) -> Result<(), AllocError>
    ensures { OnOk result (text.new ≡ text.old ++ chars (decimal number)) }
{
    let digits = format!(in alloc; "{number}")?;
    write_word(alloc, text, digits.as_str())
}

// Adds the name of an element, an attribute or a type at the end.
#[tactic(auto, using(std::proofs::Common::append_assoc))]
pub(crate) fn write_name(
    alloc: Global,
    text: &mut TextBuilder,
    name: &Name,
) -> Result<(), AllocError>
    ensures { OnOk result (text.new ≡ text.old ++ name_text name.now) }
{
    write_space(alloc, text, &name.uri)?;
    text.push_text(&name.local)
}

// Adds what stands before the local part of a name.
fn write_space(alloc: Global, text: &mut TextBuilder, uri: &Text) -> Result<(), AllocError>
    ensures { OnOk result (text.new ≡ text.old ++ space_text uri.now) }
{
    if uri.is_empty() {
        return Ok(());
    }
    if *uri == Text::from_str(alloc, SCHEMA_NAMESPACE)? {
        return write_word(alloc, text, "xs:");
    }
    write_braced(alloc, text, uri)
}

// Adds a URI in braces.
#[tactic(auto, using(std::proofs::Common::append_assoc))]
fn write_braced(alloc: Global, text: &mut TextBuilder, uri: &Text) -> Result<(), AllocError>
    ensures { OnOk result (text.new ≡ text.old ++ braced uri.now) }
{
    write_word(alloc, text, "{")?;
    text.push_text(uri)?;
    write_word(alloc, text, "}")
}
