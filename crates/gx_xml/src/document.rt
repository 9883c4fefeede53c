// Documents.

ghost use Rattle.gx_grammar.specs.Grammar.{rule};
ghost use Rattle.gx_grammar.specs.Ran.{left_of};
ghost use Rattle.gx_grammar.specs.Value.{nothing};
ghost use Rattle.gx_xml.specs.Grammar.{whole_document, epilog, past_misc, prolog, root_and_behind};
ghost use Rattle.gx_xml.specs.Nodes.{rooted};
ghost use Rattle.gx_xml.specs.Reading.{Encodes, IsDocumentOf, IsDocumentRefusal, IsRefusalOf, last_less};
ghost use Rattle.gx_xml.specs.Standings.{Did, LedTo, WentPast};
ghost use Rattle.gx_xml.specs.declared.refusal.XmlRefusal.TheVariants.{Memory};
ghost use Rattle.std.specs.Prelude.{◌≡◌, ◌≤◌, ◌<◌, ◌^◌, ◌-◌, ◌⊎◌, IfOk, List, MatchResult, ℕ, length};

use crate::characters::Characters;
use crate::declaration::declaration;
use crate::element::element;
use crate::marks::{Mark, Maybe};
use crate::phrases::{comment, instruction, space};
use crate::reader::{End, Reader};
use crate::refusal::{XmlRefusal, XmlRule};
use crate::runs::Run;
use crate::shared_texts::SharedTexts;
use crate::source::{Source, SourceElement};
use gx_base::limits::{FILE_BYTES, FILE_DEPTH};
use gx_grammar::decode::{DecodeError, decode};
use gx_grammar::place::place_of;
use gx_namespaces::bindings::Bindings;
use std::alloc::{AllocError, Global};
use std::str::from_utf8;

// Goes past a comment or a processing instruction, whose first word was read.
fn misc(reader: &mut Reader<'_>, mark: Mark)
    ensures read { WentPast (past_misc mark) reader.old reader.new }
    ensures shrinks { left_of reader.new ≤ left_of reader.old }
{
    match mark {
        Mark::Comment => comment(reader),
        Mark::Instruction => instruction(reader),
        _ => {}
    }
}

// Goes past what stands behind the root (XML 1.0, section 2.8).
fn behind_root(reader: &mut Reader<'_>)
    ensures { Did nothing reader.old reader.new (rule epilog) }
{
    loop {
        space(reader);
        let mark = reader.maybe_choice(Maybe::Epilog);
        if !mark.is_misc() {
            return;
        }
        misc(reader, mark);
    }
}

// Goes past what stands in front of the root.
fn before_root(reader: &mut Reader<'_>)
    ensures { LedTo (rule prolog) root_and_behind reader.old reader.new }
{
    loop {
        space(reader);
        let mark = reader.prolog_mark();
        if reader.has_ended() {
            return;
        }
        if !mark.is_misc() {
            return;
        }
        misc(reader, mark);
    }
}

// Goes past a byte order mark and an XML declaration.
fn start(reader: &mut Reader<'_>)
    ensures { LedTo whole_document (rule prolog) reader.old reader.new }
{
    reader.maybe_run(Run::ByteOrderMark, 0);
    let mark = reader.maybe_choice(Maybe::DeclarationStart);
    if mark.is_declaration() {
        declaration(reader);
    }
}

// Reads a whole text.
fn read_text(alloc: Global, reader: &mut Reader<'_>) -> Result<SourceElement, AllocError>
    ensures { IfOk result (λ e. Did (rooted e) reader.old reader.new whole_document) }
{
    start(reader);
    before_root(reader);
    let mut texts = SharedTexts::new(alloc)?;
    let mut bindings = Bindings::outermost(alloc)?;
    let root = element(alloc, reader, &mut texts, &mut bindings, FILE_DEPTH)?;
    behind_root(reader);
    Ok(root)
}

// The position of the last `<`, or 0 where there is none.
fn last_less(front: &[char]) -> usize
    ensures value { result ≡ last_less front.now }
    ensures within { result ≤ length front.now }
{
    let mut found = 0;
    for (i, c) in front.iter().enumerate() {
        if *c == '<' {
            found = i;
        }
    }
    found
}

// The refusal of a text, whose reading ended so.
fn refusal(text: &[char], end: End) -> XmlRefusal
    requires { length text.now < 2 ^ 32 - 1 }
    ensures { IsRefusalOf text.now end result }
{
    match end {
        End::Unfit(far) => {
            let place = place_of(text, text.len() - far.min(text.len()));
            let rule = XmlRule::Malformed;
            XmlRefusal::Refused { place, rule }
        }
        End::Faulty(rule, left) => {
            let position = text.len() - left.min(text.len());
            match rule {
                // No fault has these rules.
                XmlRule::NotUtf8 => XmlRefusal::Memory,
                XmlRule::Malformed => XmlRefusal::Memory,
                XmlRule::Doctype => {
                    let place = place_of(text, position);
                    XmlRefusal::Refused { place, rule }
                }
                _ => {
                    let place = place_of(text, last_less(&text[..position]));
                    XmlRefusal::Refused { place, rule }
                }
            }
        }
    }
}

// The refusal of the bytes of a text, whose reading ended so.
fn refusal_of(alloc: Global, bytes: &[u8], end: End) -> XmlRefusal
    requires { length bytes.now < 2 ^ 32 - 1 }
    ensures { (text : List ℕ) → Encodes bytes.now text → (result ≡ Memory) ⊎ IsRefusalOf text end result }
{
    match decode(alloc, bytes) {
        Ok(text) => refusal(&text, end),
        Err(_) => XmlRefusal::Memory,
    }
}

// Reads a text.
fn read_characters(alloc: Global, text: &str) -> Result<Source, XmlRefusal>
    requires { length text.now < 2 ^ 32 - 1 }
    ensures { MatchResult result (λ s. IsDocumentOf text.now s.root) (λ e. IsDocumentRefusal text.now e) }
{
    let mut reader = Reader::new(Characters::new(text));
    let Ok(root) = read_text(alloc, &mut reader) else {
        return Err(XmlRefusal::Memory);
    };
    match reader.outcome() {
        None => Ok(Source { root }),
        Some(end) => Err(refusal_of(alloc, text.as_bytes(), end)),
    }
}

// The refusal of bytes that are not UTF-8.
fn unreadable(alloc: Global, bytes: &[u8]) -> XmlRefusal
    requires { length bytes.now < 2 ^ 32 - 1 }
    ensures { IsDocumentRefusal bytes.now result }
{
    match decode(alloc, bytes) {
        Err(DecodeError::NotUtf8(place)) => {
            let rule = XmlRule::NotUtf8;
            XmlRefusal::Refused { place, rule }
        }
        _ => XmlRefusal::Memory,
    }
}

/// Reads a document (XML 1.0, Fifth Edition, and Namespaces in XML 1.0), without a document type declaration, with no more
/// than 200 elements in one another. Attribute values are normalised, references and CDATA sections stand for their
/// characters, and names are expanded. The bytes are refused by the first rule that they break: the first one that cannot
/// be read decides before all others, and these from the front.
pub fn read_document(alloc: Global, bytes: &[u8]) -> Result<Source, XmlRefusal>
    requires { length bytes.now ≤ FILE_BYTES }
    ensures { MatchResult result (λ s. IsDocumentOf bytes.now s.root) (λ e. IsDocumentRefusal bytes.now e) }
{
    match from_utf8(bytes) {
        Ok(text) => read_characters(alloc, text),
        Err(_) => Err(unreadable(alloc, bytes)),
    }
}
