// The values of attributes.

ghost use Rattle.gx_grammar.specs.Grammar.{rule};
ghost use Rattle.gx_grammar.specs.Ran.{Ran, left_of, IsDone};
ghost use Rattle.gx_grammar.specs.Value.{characters};
ghost use Rattle.gx_tree.specs.Binding.{xml, xml_uri, xmlns_uri};
ghost use Rattle.gx_xml.specs.Characters.{spelled};
ghost use Rattle.gx_xml.specs.Grammar.{expected_at, may_refer, value, value_run};
ghost use Rattle.gx_xml.specs.Names.{purpose_as};
ghost use Rattle.gx_xml.specs.Runs.{character_kept, normalised, text_normalised, value_normalised};
ghost use Rattle.gx_xml.specs.Standings.{Did, ReadValue, read_document_token};
ghost use Rattle.gx_xml.specs.Tags.{declares_xml, is_reserved_namespace, may_close, purpose_of};
ghost use Rattle.std.specs.Prelude.{◌≡◌, ◌≤◌, ◌<◌, ◌⊎◌, ◌++◌, [], IfOk, OnOk, bytes_eq, false, length, slice_get, List, ℕ, ◌∷◌, string_bytes};
ghost use Rattle.std.specs.Str.{chars};
ghost use Rattle.std.specs.Option.{option_to_list};

use crate::characters::{Characters, count_of};
use crate::marks::{Choice, Mark};
use crate::phrases::{QName, reference};
use crate::reader::{Reader, is_xmlns};
use crate::runs::{Quote, Run, XML_URI};
use crate::tag::push_character;
use std::alloc::{AllocError, Global};

/// What an attribute is for.
#[derive(Clone, Copy)]
pub enum Purpose<'a> {
    /// It declares the default namespace.
    Default,
    /// It declares a prefix.
    Prefix(Characters<'a>),
    Ordinary,
}

/// What an attribute of this name is for (Namespaces in XML 1.0, section 3).
pub fn purpose_of<'a>(name: QName<'a>) -> Purpose<'a>
    ensures { purpose_as result ≡ purpose_of (spelled name.entry.prefix) (spelled name.entry.local) }
{
    if is_xmlns(name.prefix) {
        return Purpose::Prefix(name.local);
    }
    if name.prefix.is_empty() && is_xmlns(name.local) {
        return Purpose::Default;
    }
    Purpose::Ordinary
}

fn is_xml(prefix: Characters<'_>) -> bool
    ensures { result ≡ bytes_eq (spelled prefix.entry) xml }
{
    is_text_xml(prefix.text)
}

fn is_text_xml(text: &str) -> bool
    ensures { result ≡ bytes_eq (chars text.now) xml }
{
    text == "xml"
}

fn is_uri_of_xml(uri: &str) -> bool
    ensures { result ≡ bytes_eq (chars uri.now) xml_uri }
{
    uri == "http://www.w3.org/XML/1998/namespace"
}

fn is_uri_of_xmlns(uri: &str) -> bool
    ensures { result ≡ bytes_eq (chars uri.now) xmlns_uri }
{
    uri == "http://www.w3.org/2000/xmlns/"
}

fn is_reserved(uri: &str) -> bool
    ensures { result ≡ is_reserved_namespace (chars uri.now) }
{
    is_uri_of_xml(uri) || is_uri_of_xmlns(uri)
}

fn is_no_uri(uri: &str) -> bool
    ensures { result ≡ bytes_eq (chars uri.now) [] }
{
    uri == ""
}

// Whether the attribute declares the prefix `xml`.
fn declares_xml(purpose: Purpose<'_>) -> bool
    ensures { result ≡ declares_xml (purpose_as purpose.entry) }
{
    match purpose {
        Purpose::Prefix(prefix) => is_xml(prefix),
        _ => false,
    }
}

// Whether a value may end behind these characters.
fn may_close(purpose: Purpose<'_>, so_far: &String) -> bool
    ensures { result ≡ may_close (purpose_as purpose.entry) (chars (string_bytes so_far.now)) }
{
    let uri = so_far.as_str();
    match purpose {
        Purpose::Default => !is_reserved(uri),
        Purpose::Prefix(prefix) => {
            if is_xml(prefix) {
                is_uri_of_xml(uri)
            } else {
                !(is_no_uri(uri) || is_reserved(uri))
            }
        }
        Purpose::Ordinary => true,
    }
}

fn may_refer(of_xml: bool, so_far: &String) -> bool
    ensures { result ≡ may_refer of_xml (chars (string_bytes so_far.now)) }
{
    !(of_xml && is_uri_of_xml(so_far.as_str()))
}

// How many characters a string has.
fn length_of(text: &String) -> usize
    ensures { result ≡ length (chars (string_bytes text.now)) }
{
    count_of(text.as_str())
}

// The character at a position, if there is one.
fn character_at(characters: &[char], position: usize) -> Option<char>
    ensures { result ≡ slice_get characters.now position }
{
    characters.get(position).copied()
}

// The character that a reference must stand for.
fn expected_at(of_xml: bool, position: usize) -> Option<char>
    ensures { result ≡ expected_at of_xml position }
{
    if of_xml {
        character_at(&XML_URI, position)
    } else {
        None
    }
}

// Reads the characters of a value up to a reference or the quote, behind so many.
fn value_run<'a>(
    reader: &mut Reader<'a>,
    of_xml: bool,
    quote: Quote,
    position: usize,
) -> Characters<'a>
    ensures read { Ran (characters (spelled result)) reader.old reader.new (read_document_token (value_run of_xml quote position)) }
    ensures shrinks { left_of reader.new ≤ left_of reader.old }
{
    if of_xml {
        return reader.maybe_run(Run::NamespaceOfXml, position.min(36) as u32);
    }
    reader.maybe_run(Run::Value(quote), 0)
}

fn character_kept(spaces: bool, c: char) -> char
    ensures { result ≡ character_kept spaces c }
{
    if spaces && (c == '\t' || c == '\n') {
        ' '
    } else {
        c
    }
}

// What a character stands for, and whether a carriage return stands in front of the next one.
fn normalised_step(spaces: bool, behind_return: bool, c: char) -> (Option<char>, bool)
    ensures { (x : List ℕ) → normalised spaces behind_return (c ∷ x) ≡ option_to_list result.0 ++ normalised spaces result.1 x }
{
    if c == '\r' {
        return (Some(character_kept(spaces, '\n')), true);
    }
    if behind_return && c == '\n' {
        return (None, false);
    }
    (Some(character_kept(spaces, c)), false)
}

fn push_kept_text(out: &mut String, kept: Option<char>) -> Result<(), AllocError>
    ensures { OnOk result (chars (string_bytes out.new) ≡ chars (string_bytes out.old) ++ option_to_list kept) }
{
    if let Some(c) = kept {
        push_character(out, c)?;
    }
    Ok(())
}

// Whether there is a carriage return; a text without one stands for itself.
fn has_return(text: &str) -> bool
    ensures { result ≡ false → text_normalised (chars text.now) ≡ chars text.now }
{
    text.as_bytes().contains(&13)
}

#[tactic(auto, using(gx_base::proofs::TextLemmas::string_rules))]
fn push_all(out: &mut String, text: &str) -> Result<(), AllocError>
    ensures { OnOk result (chars (string_bytes out.new) ≡ chars (string_bytes out.old) ++ chars text.now) }
{
    Ok(out.push_str(text)?)
}

// Whether there is a tab, a line feed or a carriage return; a value without them stands for itself.
fn has_other_space(text: &str) -> bool
    ensures { result ≡ false → value_normalised (chars text.now) ≡ chars text.now }
{
    let bytes = text.as_bytes();
    if bytes.contains(&9) {
        return true;
    }
    if bytes.contains(&10) {
        return true;
    }
    bytes.contains(&13)
}

// Adds the characters of a run, with line ends as line feeds, and in a value with spaces for tabs and line feeds.
fn push_normalised(out: &mut String, run: Characters<'_>, spaces: bool) -> Result<(), AllocError>
    ensures { OnOk result (chars (string_bytes out.new) ≡ chars (string_bytes out.old) ++ normalised spaces false (spelled run.entry)) }
{
    out.reserve(run.text.len())?;
    let mut behind_return = false;
    let mut left = run;
    while let Some((c, others)) = left.first() {
        let (kept, returned) = normalised_step(spaces, behind_return, c);
        push_kept_text(out, kept)?;
        behind_return = returned;
        left = others;
    }
    Ok(())
}

/// Adds the characters of a run of a text, with line ends as line feeds.
pub fn push_normalised_text(out: &mut String, run: Characters<'_>) -> Result<(), AllocError>
    ensures { OnOk result (chars (string_bytes out.new) ≡ chars (string_bytes out.old) ++ text_normalised (spelled run.entry)) }
{
    if !has_return(run.text) {
        return push_all(out, run.text);
    }
    push_normalised(out, run, false)
}

// Adds the characters of a run of a value, with spaces for line ends and tabs.
fn push_normalised_value(out: &mut String, run: Characters<'_>) -> Result<(), AllocError>
    ensures { OnOk result (chars (string_bytes out.new) ≡ chars (string_bytes out.old) ++ value_normalised (spelled run.entry)) }
{
    if !has_other_space(run.text) {
        return push_all(out, run.text);
    }
    push_normalised(out, run, true)
}

/// Reads a value whose opening quote was read, of an attribute of this name (XML 1.0, sections 2.3 and 3.3.3; Namespaces in
/// XML 1.0, section 3).
pub fn value(
    alloc: Global,
    reader: &mut Reader<'_>,
    name: QName<'_>,
    quote: Quote,
) -> Result<String, AllocError>
    ensures read { IfOk result (λ v. ReadValue (spelled name.entry.prefix) (spelled name.entry.local) quote [] (chars (string_bytes v)) reader.old reader.new) }
    ensures shrinks { left_of reader.new ≤ left_of reader.old }
    ensures shorter { OnOk result (IsDone reader.new ⊎ (left_of reader.new < left_of reader.old)) }
{
    let purpose = purpose_of(name);
    let of_xml = declares_xml(purpose);
    let mut so_far = String::new(alloc);
    loop {
        let position = length_of(&so_far);
        let run = value_run(reader, of_xml, quote, position);
        push_normalised_value(&mut so_far, run)?;
        let closes = may_close(purpose, &so_far);
        let refers = may_refer(of_xml, &so_far);
        let choice = Choice::Value {
            quote,
            closes,
            refers,
        };
        let mark = reader.choice(choice);
        if reader.has_ended() {
            return Ok(so_far);
        }
        if !mark.is_reference() {
            return Ok(so_far);
        }
        let expected = expected_at(of_xml, length_of(&so_far));
        let character = reference(reader, expected);
        push_character(&mut so_far, character)?;
    }
}
