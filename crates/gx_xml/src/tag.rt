// Start tags.

ghost use Rattle.gx_grammar.specs.Ran.{IsDone, left_of};
ghost use Rattle.gx_xml.specs.Characters.{spelled};
ghost use Rattle.gx_xml.specs.TagView.{HasAdded, ReadAttribute, ReadAttributes};
ghost use Rattle.std.specs.Prelude.{◌≡◌, ◌≤◌, ◌<◌, ◌⊎◌, [], ◌∷◌, ◌++◌, IfOk, OnOk, OnErr, string_bytes};
ghost use Rattle.std.specs.Str.{chars};

use crate::characters::Characters;
use crate::phrases::{QName, equals, qualified, quote, space};
use crate::reader::Reader;
use crate::runs::Run;
use crate::shared_texts::SharedTexts;
use crate::source::Declaration;
use crate::value::{Purpose, purpose_of, value};
use gx_base::text::Text;
use std::alloc::{AllocError, Global};

/// An attribute as it is written, with its normalised value.
#[derive(Drop)]
pub struct TagAttribute {
    pub prefix: Text,
    pub local: Text,
    pub value: Text,
}

/// The name, the declarations and the other attributes of a start tag.
#[derive(Drop)]
pub struct StartTag {
    pub prefix: Text,
    pub local: Text,
    pub declarations: Vec<Declaration>,
    pub attributes: Vec<TagAttribute>,
}

/// Adds a character to a string. An `Err` leaves the string as it was.
#[tactic(auto, using(gx_base::proofs::TextLemmas::string_rules))]
pub fn push_character(out: &mut String, character: char) -> Result<(), AllocError>
    ensures ok { OnOk result (chars (string_bytes out.new) ≡ chars (string_bytes out.old) ++ character ∷ []) }
    ensures err { OnErr result (string_bytes out.new ≡ string_bytes out.old) }
{
    Ok(out.push(character)?)
}

/// A start tag behind its name.
pub fn begun(
    alloc: Global,
    texts: &mut SharedTexts,
    name: QName<'_>,
) -> Result<StartTag, AllocError>
    ensures prefix { IfOk result (λ t. t.prefix ≡ (spelled name.entry.prefix)) }
    ensures local { IfOk result (λ t. t.local ≡ (spelled name.entry.local)) }
    ensures declarations { IfOk result (λ t. t.declarations.items ≡ []) }
    ensures attributes { IfOk result (λ t. t.attributes.items ≡ []) }
{
    let prefix = texts.text_of(alloc, name.prefix)?;
    let local = texts.text_of(alloc, name.local)?;
    Ok(StartTag {
        prefix,
        local,
        declarations: Vec::new(alloc),
        attributes: Vec::new(alloc),
    })
}

// Adds an attribute to a tag.
fn add(
    alloc: Global,
    texts: &mut SharedTexts,
    tag: &mut StartTag,
    name: QName<'_>,
    value: String,
) -> Result<(), AllocError>
    ensures added { OnOk result (HasAdded (spelled name.entry.prefix) (spelled name.entry.local) (chars (string_bytes value)) tag.old tag.new) }
    ensures prefix { OnOk result (tag.new.prefix ≡ tag.old.prefix) }
    ensures local { OnOk result (tag.new.local ≡ tag.old.local) }
{
    let value = texts.text_of_string(alloc, value)?;
    match purpose_of(name) {
        Purpose::Default => {
            let prefix = texts.text_of(alloc, Characters::none())?;
            let uri = value;
            tag.declarations.push(Declaration { prefix, uri })?;
        }
        Purpose::Prefix(prefix) => {
            let prefix = texts.text_of(alloc, prefix)?;
            let uri = value;
            tag.declarations.push(Declaration { prefix, uri })?;
        }
        Purpose::Ordinary => {
            let prefix = texts.text_of(alloc, name.prefix)?;
            let local = texts.text_of(alloc, name.local)?;
            tag.attributes.push(TagAttribute {
                prefix,
                local,
                value,
            })?;
        }
    }
    Ok(())
}

// Reads an attribute, the first part of whose name was read.
fn attribute<'a>(
    alloc: Global,
    reader: &mut Reader<'a>,
    texts: &mut SharedTexts,
    tag: &mut StartTag,
    first: Characters<'a>,
) -> Result<(), AllocError>
    ensures read { OnOk result (ReadAttribute (spelled first.entry) tag.old tag.new reader.old reader.new) }
    ensures prefix { OnOk result (tag.new.prefix ≡ tag.old.prefix) }
    ensures local { OnOk result (tag.new.local ≡ tag.old.local) }
    ensures shrinks { left_of reader.new ≤ left_of reader.old }
    ensures shorter { OnOk result (IsDone reader.new ⊎ (left_of reader.new < left_of reader.old)) }
{
    let name = qualified(reader, first);
    equals(reader);
    let quote = quote(reader);
    let value = value(alloc, reader, name, quote)?;
    add(alloc, texts, tag, name, value)
}

/// Reads the attributes of a tag, up to its end (XML 1.0, section 3.1).
pub fn attributes(
    alloc: Global,
    reader: &mut Reader<'_>,
    texts: &mut SharedTexts,
    tag: &mut StartTag,
) -> Result<(), AllocError>
    ensures read { OnOk result (ReadAttributes tag.old tag.new reader.old reader.new) }
    ensures prefix { OnOk result (tag.new.prefix ≡ tag.old.prefix) }
    ensures local { OnOk result (tag.new.local ≡ tag.old.local) }
    ensures shrinks { left_of reader.new ≤ left_of reader.old }
{
    loop {
        if !space(reader) {
            return Ok(());
        }
        let first = reader.maybe_run(Run::Name, 0);
        if first.is_empty() {
            return Ok(());
        }
        attribute(alloc, reader, texts, tag, first)?;
        if reader.has_ended() {
            return Ok(());
        }
    }
}
