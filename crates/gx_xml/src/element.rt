// Elements and their content.

ghost use Rattle.gx_grammar.specs.Grammar.{rule};
ghost use Rattle.gx_grammar.specs.Ran.{IsDone, left_of};
ghost use Rattle.gx_tree.specs.Binding.{Binding};
ghost use Rattle.gx_xml.specs.Characters.{spelled};
ghost use Rattle.gx_xml.specs.Gathered.{ReadChildren, ReadItem};
ghost use Rattle.gx_xml.specs.Grammar.{content, element, past_name, tag_ending};
ghost use Rattle.gx_xml.specs.Marks.{is_item};
ghost use Rattle.gx_xml.specs.Nodes.{held, rooted};
ghost use Rattle.gx_xml.specs.SourceView.{contents_of};
ghost use Rattle.gx_xml.specs.Standings.{Did, WentPast, code_of_fault};
ghost use Rattle.gx_xml.specs.TagView.{tag_as};
ghost use Rattle.gx_xml.specs.Tags.{declared_binding, expanded_attribute, tag_fault};
ghost use Rattle.std.specs.Prelude.{◌≡◌, ◌≤◌, ◌++◌, IfOk, IsSome, List, OnOk, ℕ, map, true};

use crate::children::Children;
use crate::marks::{Choice, Mark};
use crate::phrases::{QName, comment, element_name, instruction, reference, space};
use crate::reader::Reader;
use crate::refusal::XmlRule;
use crate::resolve;
use crate::runs::Run;
use crate::shared_texts::SharedTexts;
use crate::source::{SourceAttribute, SourceChild, SourceElement};
use crate::tag::{StartTag, attributes, begun};
use gx_namespaces::bindings::Bindings;
use std::alloc::{AllocError, Global};

// Goes past the name of an end tag.
fn end_name(reader: &mut Reader<'_>, name: QName<'_>)
    ensures read { WentPast (past_name (spelled name.entry.prefix) (spelled name.entry.local)) reader.old reader.new }
    ensures shrinks { left_of reader.new ≤ left_of reader.old }
{
    if name.prefix.is_empty() {
        reader.spelling(name.local);
        return;
    }
    reader.spelling(name.prefix);
    reader.symbol(&[':']);
    reader.spelling(name.local);
}

// The first fault of a tag, whose declarations are in force.
fn fault(
    alloc: Global,
    bindings: &Bindings,
    room: u32,
    tag: &StartTag,
    expanded: &[SourceAttribute],
) -> Result<Option<XmlRule>, AllocError>
    requires { expanded.now ≡ map (expanded_attribute bindings.now) tag.now.attributes.items }
    ensures deep { IfOk result (λ f. room ≡ 0 → IsSome f) }
    ensures fault { IfOk result (λ f. (scope : List Binding) → bindings.now ≡ scope ++ map declared_binding tag.now.declarations.items → code_of_fault f ≡ tag_fault (tag_as room scope tag.now)) }
{
    if room == 0 {
        return Ok(Some(XmlRule::TooDeep));
    }
    if resolve::has_unbound(bindings, tag) {
        return Ok(Some(XmlRule::UnboundPrefix));
    }
    if resolve::has_doubled(alloc, &tag.declarations, expanded)? {
        return Ok(Some(XmlRule::DuplicateAttribute));
    }
    Ok(None)
}

/// Reads an element whose `<` was read (XML 1.0, section 3), where so many elements may stand in one another.
#[cycle(element)]
pub fn element(
    alloc: Global,
    reader: &mut Reader<'_>,
    texts: &mut SharedTexts,
    bindings: &mut Bindings,
    room: u32,
) -> Result<SourceElement, AllocError>
    ensures read { IfOk result (λ e. Did (rooted e) reader.old reader.new (rule (element room bindings.old))) }
    ensures kept { OnOk result (bindings.new ≡ bindings.old) }
    ensures shrinks { left_of reader.new ≤ left_of reader.old }
{
    let first = reader.run(Run::Name, 0);
    let name = element_name(reader, first);
    let mut tag = begun(alloc, texts, name)?;
    attributes(alloc, reader, texts, &mut tag)?;
    let outer = bindings.len();
    resolve::declare(bindings, &tag.declarations)?;
    let element = declared(alloc, reader, texts, bindings, room, name, tag)?;
    bindings.truncate(outer);
    Ok(element)
}

// Reads the end of a start tag, whose declarations are in force, and what follows up to the end of the element.
#[cycle(element)]
fn declared(
    alloc: Global,
    reader: &mut Reader<'_>,
    texts: &mut SharedTexts,
    bindings: &mut Bindings,
    room: u32,
    name: QName<'_>,
    tag: StartTag,
) -> Result<SourceElement, AllocError>
    requires prefix { tag.prefix ≡ spelled name.prefix }
    requires local { tag.local ≡ spelled name.local }
    ensures read { IfOk result (λ e. (scope : List Binding) → bindings.old ≡ scope ++ map declared_binding tag.declarations.items
        → Did (rooted e) reader.old reader.new (tag_ending (tag_as room scope tag))) }
    ensures kept { OnOk result (bindings.new ≡ bindings.old) }
    ensures shrinks { left_of reader.new ≤ left_of reader.old }
{
    let attributes = resolve::expanded_attributes(alloc, bindings, &tag.attributes)?;
    let fault = fault(alloc, bindings, room, &tag, &attributes)?;
    let mark = reader.tag_end(fault);
    let name_of = resolve::element_name(alloc, bindings, &tag)?;
    let children = children(alloc, reader, texts, bindings, room, name, mark)?;
    let StartTag {
        prefix: _,
        local: _,
        declarations,
        attributes: _,
    } = tag;
    Ok(SourceElement {
        name: name_of,
        declarations,
        attributes,
        children,
    })
}

// Reads what follows a start tag or an empty-element tag, up to the end of the element.
#[cycle(element)]
fn children(
    alloc: Global,
    reader: &mut Reader<'_>,
    texts: &mut SharedTexts,
    bindings: &mut Bindings,
    room: u32,
    name: QName<'_>,
    mark: Mark,
) -> Result<Vec<SourceChild>, AllocError>
    requires { room ≡ 0 → IsDone reader.old }
    ensures read { IfOk result (λ cs. ReadChildren room bindings.old (spelled name.entry.prefix) (spelled name.entry.local) mark (contents_of cs.items) reader.old reader.new) }
    ensures kept { OnOk result (bindings.new ≡ bindings.old) }
    ensures shrinks { left_of reader.new ≤ left_of reader.old }
{
    if room == 0 || !mark.is_open() {
        return Ok(Vec::new(alloc));
    }
    let children = content(alloc, reader, texts, bindings, room - 1)?;
    end_name(reader, name);
    space(reader);
    reader.symbol(&['>']);
    Ok(children)
}

// Reads what stands between tags, with the `</` behind it (XML 1.0, section 3.1).
#[cycle(element)]
fn content(
    alloc: Global,
    reader: &mut Reader<'_>,
    texts: &mut SharedTexts,
    bindings: &mut Bindings,
    room: u32,
) -> Result<Vec<SourceChild>, AllocError>
    ensures read { IfOk result (λ cs. Did (held (contents_of cs.items)) reader.old reader.new (rule (content room bindings.old))) }
    ensures kept { OnOk result (bindings.new ≡ bindings.old) }
    ensures shrinks { left_of reader.new ≤ left_of reader.old }
{
    let mut children = Children::new(alloc);
    loop {
        let run = reader.maybe_run(Run::Text, 0);
        children.push_text(run)?;
        let mark = reader.choice(Choice::Content);
        if reader.has_ended() || !mark.is_item() {
            return children.finish(alloc, texts);
        }
        item(alloc, reader, texts, bindings, room, &mut children, mark)?;
    }
}

// Reads what stands behind a word of content.
#[cycle(element)]
fn item(
    alloc: Global,
    reader: &mut Reader<'_>,
    texts: &mut SharedTexts,
    bindings: &mut Bindings,
    room: u32,
    children: &mut Children,
    mark: Mark,
) -> Result<(), AllocError>
    requires { is_item mark ≡ true }
    ensures read { OnOk result (ReadItem room bindings.old mark children.old children.new reader.old reader.new) }
    ensures kept { OnOk result (bindings.new ≡ bindings.old) }
    ensures shrinks { left_of reader.new ≤ left_of reader.old }
{
    match mark {
        Mark::Comment => comment(reader),
        Mark::Instruction => instruction(reader),
        Mark::CData => {
            let run = reader.run(Run::CData, 0);
            reader.symbol(&['>']);
            children.push_section(run)?;
        }
        Mark::Reference => {
            let character = reference(reader, None);
            children.push_character(character)?;
        }
        Mark::StartTag => {
            let child = element(alloc, reader, texts, bindings, room)?;
            children.push_element(alloc, texts, child)?;
        }
        _ => {}
    }
    Ok(())
}
