// Names at the front of a text.

ghost use Rattle.std.specs.Prelude.{◌≡◌, ◌≤◌, ◌+◌, [], ◌∷◌, length, IfOk, IfSome, IsNone, MatchOption, Some, None, true, false};
ghost use Rattle.gx_grammar.specs.First.{head_passes};
ghost use Rattle.gx_grammar.specs.Tokens.{behind_run, run_of, seen_name, seen_word};
ghost use Rattle.gx_grammar.specs.Value.{characters};
ghost use Rattle.gx_parse_grammar.specs.Binding.{opening_named};
ghost use Rattle.gx_base.specs.NameCharacters.{is_ncname_character, is_ncname_start};
ghost use Rattle.gx_parse_grammar.specs.Direct.{letters_in};
ghost use Rattle.gx_parse_grammar.specs.Grammar.{is_element_test, is_kind_test, is_name, is_reserved};
ghost use Rattle.gx_parse_tokens.specs.Names.{colon_seen, name_made, named_in};
ghost use Rattle.gx_parse_grammar.specs.Nodes.{has_prefix, name_at, name_length, Made};
ghost use Rattle.gx_parse_grammar.specs.Typeswitch.{branching_named};
ghost use Rattle.gx_parse_grammar.specs.Computed.{computed_named, node_named};
ghost use Rattle.std.specs.Str.{chars};
ghost use Rattle.gx_parse_grammar.specs.Tokens.{scan_ncname, scan_qname, seen_qname, starts_local_part, starts_local_wildcard, wildcard_letters, begins_no_word, has_join};

use crate::shared_texts::SharedTexts;
use crate::source::Source;
use gx_ast::name::QName;
use gx_base::characters::{is_name_character, is_name_start};
use gx_base::place::Place;
use gx_base::text::Text;
use gx_base::text_builder::TextBuilder;
use gx_parse_grammar::word::{Branching, ClauseWord, ComputedNode, NamedNode, Opening};
use std::alloc::{AllocError, Global};

/// A QName: its only part, or the prefix and the local part.
#[derive(Drop)]
pub struct ReadName {
    pub first: Text,
    pub second: Option<Text>,
}

/// The name that stands at the front of a text, if one does.
#[derive(Drop)]
pub struct NameFound<'a> {
    /// The name, and what is behind it.
    pub name: Option<(ReadName, &'a [char])>,
    /// What is left behind the longest front that opens a name.
    pub seen: usize,
}

// The characters of names at the front, and what is behind them.
fn name_run(alloc: Global, text: &[char]) -> Result<(Text, &[char]), AllocError>
    ensures { IfOk result (λ r. (r.0 ≡ run_of is_ncname_character text.now) × (r.1.now ≡ behind_run is_ncname_character text.now)) }
{
    let mut name = TextBuilder::new(alloc);
    let mut rest = text;
    while let [character, tail @ ..] = rest {
        if !is_name_character(*character) {
            break;
        }
        name.push(*character)?;
        rest = tail;
    }
    Ok((name.finish()?, rest))
}

// The characters of names at the front, which share their memory with equal ones, and what is behind them.
fn name_part<'a>(
    alloc: Global,
    parts: &mut SharedTexts,
    text: &'a [char],
) -> Result<(Text, &'a [char]), AllocError>
    ensures { IfOk result (λ r. (r.0 ≡ run_of is_ncname_character text.now) × (r.1.now ≡ behind_run is_ncname_character text.now)) }
{
    let (part, rest) = name_run(alloc, text)?;
    let part = parts.share(part)?;
    Ok((part, rest))
}

// Whether a name may begin here.
fn begins_name(text: &[char]) -> bool
    ensures { result ≡ head_passes is_ncname_start text.now }
{
    match text {
        [] => false,
        [character, ..] => is_name_start(*character),
    }
}

// What is behind a colon, if a name begins there.
fn local_part(text: &[char]) -> Option<&[char]>
    ensures some { IfSome result (λ tail. (text.now ≡ 58 ∷ tail.now) × (starts_local_part text.now ≡ true)) }
    ensures none { IsNone result → starts_local_part text.now ≡ false }
{
    let [':', tail @ ..] = text else {
        return None;
    };
    match tail {
        [character, ..] if is_name_start(*character) => Some(tail),
        _ => None,
    }
}

// What is left behind a colon, or where there is none.
fn colon_seen(text: &[char]) -> usize
    ensures { result ≡ colon_seen text.now }
{
    match text {
        [':', tail @ ..] => tail.len(),
        _ => text.len(),
    }
}

/// The NCName that stands at the front of a text, if one does.
#[derive(Drop)]
pub struct PartFound<'a> {
    /// The name, and what is behind it.
    pub name: Option<(Text, &'a [char])>,
    /// What is left behind the longest front that opens a name.
    pub seen: usize,
}

/// The NCName at the front (Namespaces in XML 1.0, section 3).
pub fn find_ncname(alloc: Global, text: &[char]) -> Result<PartFound<'_>, AllocError>
    ensures name { IfOk result (λ f. MatchOption f.name (scan_ncname text.now ≡ None) (λ r. scan_ncname text.now ≡ Some (characters r.0, r.1.now))) }
    ensures seen { IfOk result (λ f. f.seen ≡ seen_name is_ncname_start is_ncname_character text.now) }
{
    if !begins_name(text) {
        return Ok(PartFound {
            name: None,
            seen: text.len(),
        });
    }
    let (name, behind) = name_run(alloc, text)?;
    Ok(PartFound {
        name: Some((name, behind)),
        seen: behind.len(),
    })
}

/// What is behind `:*`, if it stands at the front of a text.
#[derive(Drop)]
pub struct WildcardFound<'a> {
    pub behind: Option<&'a [char]>,
    /// What is left behind the longest front that opens it.
    pub seen: usize,
}

/// The `:*` at the front (XQuery 1.0, section 3.2.1.2).
pub fn find_local_wildcard(text: &[char]) -> WildcardFound<'_>
    ensures behind { MatchOption result.behind (starts_local_wildcard text.now ≡ false) (λ r. text.now ≡ 58 ∷ 42 ∷ r.now) }
    ensures seen { result.seen ≡ seen_word wildcard_letters text.now }
{
    let [':', tail @ ..] = text else {
        return WildcardFound {
            behind: None,
            seen: text.len(),
        };
    };
    let ['*', rest @ ..] = tail else {
        return WildcardFound {
            behind: None,
            seen: tail.len(),
        };
    };
    WildcardFound {
        behind: Some(rest),
        seen: rest.len(),
    }
}

/// The QName at the front (Namespaces in XML 1.0, section 4), whose parts share their characters with equal ones.
pub fn find_name<'a>(
    alloc: Global,
    parts: &mut SharedTexts,
    text: &'a [char],
) -> Result<NameFound<'a>, AllocError>
    ensures name { IfOk result (λ f. MatchOption f.name (scan_qname text.now ≡ None) (λ r. scan_qname text.now ≡ Some (name_made r.0, r.1.now))) }
    ensures seen { IfOk result (λ f. f.seen ≡ seen_qname text.now) }
    // The name and what is behind it are the text.
    ensures whole { IfOk result (λ f. IfSome f.name (λ r. length r.1.now + name_length (name_made r.0) ≡ length text.now)) }
{
    if !begins_name(text) {
        return Ok(NameFound {
            name: None,
            seen: text.len(),
        });
    }
    let (first, behind) = name_part(alloc, parts, text)?;
    let Some(tail) = local_part(behind) else {
        let seen = colon_seen(behind);
        let name = ReadName {
            first,
            second: None,
        };
        return Ok(NameFound {
            name: Some((name, behind)),
            seen,
        });
    };
    let (local, rest) = name_part(alloc, parts, tail)?;
    let name = ReadName {
        first,
        second: Some(local),
    };
    Ok(NameFound {
        name: Some((name, rest)),
        seen: rest.len(),
    })
}

// What is behind the characters of names at the front.
fn behind_name(text: &[char]) -> &[char]
    ensures { result.now ≡ behind_run is_ncname_character text.now }
{
    let mut rest = text;
    while let [character, tail @ ..] = rest {
        if !is_name_character(*character) {
            break;
        }
        rest = tail;
    }
    rest
}

/// What is behind the QName at the front of a text, if one stands there.
#[derive(Clone, Copy)]
pub struct NameEnd<'a> {
    pub behind: Option<&'a [char]>,
    /// What is left behind the longest front that opens a name.
    pub seen: usize,
}

/// Goes past the QName at the front.
pub fn find_name_end(text: &[char]) -> NameEnd<'_>
    ensures behind { MatchOption result.behind (scan_qname text.now ≡ None) (λ rest. (v : Made) × (scan_qname text.now ≡ Some (v, rest.now))) }
    ensures seen { result.seen ≡ seen_qname text.now }
{
    if !begins_name(text) {
        return NameEnd {
            behind: None,
            seen: text.len(),
        };
    }
    let behind = behind_name(text);
    let Some(tail) = local_part(behind) else {
        return NameEnd {
            behind: Some(behind),
            seen: colon_seen(behind),
        };
    };
    let rest = behind_name(tail);
    NameEnd {
        behind: Some(rest),
        seen: rest.len(),
    }
}

/// Whether a name with a `-` or a `.` stands at the front.
pub fn begins_no_word(text: &[char]) -> bool
    ensures { result ≡ begins_no_word text.now }
{
    begins_name(text) && has_join(text)
}

// Whether one of the characters of names at the front is `-` or `.`.
fn has_join(text: &[char]) -> bool
    ensures { result ≡ has_join text.now }
{
    let mut rest = text;
    while let [character, tail @ ..] = rest {
        if !is_name_character(*character) {
            return false;
        }
        if *character == '-' || *character == '.' {
            return true;
        }
        rest = tail;
    }
    false
}

// The characters of a string.
fn characters(alloc: Global, text: &str) -> Result<Vec<char>, AllocError>
    ensures { IfOk result (λ v. v.items ≡ chars text.now) }
{
    text.chars().collect(alloc)
}

// The characters of a text.
fn characters_of(alloc: Global, text: &Text) -> Result<Vec<char>, AllocError>
    ensures { IfOk result (λ v. v.items ≡ text.now) }
{
    let list = characters(alloc, text.as_str())?;
    Ok(list)
}

impl ReadName {
    /// The value of the first word of the table that is the name, without a prefix.
    #[tactic(auto, unfolding(crate::specs::Names::named_in))]
    pub fn among<T: Copy>(&self, table: &[(&str, T)]) -> Option<T>
        ensures { result ≡ named_in table.now (name_made self.now) }
    {
        for (word, value) in table {
            if self.is(word) {
                return Some(*value);
            }
        }
        None
    }

    /// Whether the name is this one, without a prefix.
    pub fn is(&self, name: &str) -> bool
        ensures { result ≡ is_name (chars name.now) (name_made self.now) }
    {
        self.second.is_none() && self.first.as_str() == name
    }

    // Whether the name is that of one of the tests of elements and attributes.
    fn is_element_test(&self) -> bool
        ensures { result ≡ is_element_test (name_made self.now) }
    {
        self.is("attribute")
            | self.is("element")
            | self.is("schema-attribute")
            | self.is("schema-element")
    }

    // Whether the name is that of another kind test.
    fn is_kind_test(&self) -> bool
        ensures { result ≡ is_kind_test (name_made self.now) }
    {
        self.is("comment")
            | self.is("document-node")
            | self.is("node")
            | self.is("processing-instruction")
            | self.is("text")
    }

    /// What the name begins where a `{` stands behind it (XQuery 1.0, section 3.7.3).
    pub fn computed(&self) -> Option<ComputedNode>
        ensures { result ≡ computed_named (name_made self.now) }
    {
        if self.is("document") {
            return Some(ComputedNode::Document);
        }
        if self.is("text") {
            return Some(ComputedNode::Text);
        }
        None
    }

    /// What the name begins where a name and a `{` stand behind it (XQuery 1.0, section 3.7.3).
    pub fn named_node(&self) -> Option<NamedNode>
        ensures { result ≡ node_named (name_made self.now) }
    {
        if self.is("element") {
            return Some(NamedNode::Element);
        }
        if self.is("attribute") {
            return Some(NamedNode::Attribute);
        }
        None
    }

    /// Whether the name has a prefix.
    pub fn has_prefix(&self) -> bool
        ensures { result ≡ has_prefix (name_made self.now) }
    {
        self.second.is_some()
    }

    /// Whether no function has the name (XQuery 1.0, appendix A.3).
    pub fn is_reserved(&self) -> bool
        ensures { result ≡ is_reserved (name_made self.now) }
    {
        self.is_element_test()
            | self.is_kind_test()
            | self.is("empty-sequence")
            | self.is("if")
            | self.is("item")
            | self.is("typeswitch")
    }

    /// What the name begins where a `$` stands behind it (XQuery 1.0, sections 3.8 and 3.9).
    pub fn opening(&self) -> Option<Opening>
        ensures { result ≡ opening_named (name_made self.now) }
    {
        if self.is("for") {
            return Some(Opening::Flwor(ClauseWord::For));
        }
        if self.is("let") {
            return Some(Opening::Flwor(ClauseWord::Let));
        }
        if self.is("some") {
            return Some(Opening::Quantified(false));
        }
        if self.is("every") {
            return Some(Opening::Quantified(true));
        }
        None
    }

    /// What the name begins where a `(` stands behind it (XQuery 1.0, sections 3.10 and 3.12.2).
    pub fn branching(&self) -> Option<Branching>
        ensures { result ≡ branching_named (name_made self.now) }
    {
        if self.is("if") {
            return Some(Branching::If);
        }
        if self.is("typeswitch") {
            return Some(Branching::Typeswitch);
        }
        None
    }

    // The name as it is written.
    fn written(&self, alloc: Global) -> Result<Text, AllocError>
        ensures { IfOk result (λ text. text ≡ letters_in (name_made self.now)) }
    {
        let Some(local) = &self.second else {
            return self.first.clone();
        };
        let mut text = TextBuilder::new(alloc);
        text.push_text(&self.first)?;
        text.push(':')?;
        text.push_text(local)?;
        text.finish()
    }

    /// The characters of the name as it is written.
    pub fn letters(&self, alloc: Global) -> Result<Vec<char>, AllocError>
        ensures { IfOk result (λ list. list.items ≡ letters_in (name_made self.now)) }
    {
        let text = self.written(alloc)?;
        characters_of(alloc, &text)
    }

    /// The name at a place.
    pub fn at(self, source: &Source<'_>, place: Place) -> Result<QName, AllocError>
        ensures { IfOk result (λ q. q ≡ name_at place (name_made self)) }
    {
        let ReadName { first, second } = self;
        match second {
            None => Ok(QName {
                place,
                prefix: source.no_characters()?,
                local: first,
            }),
            Some(local) => Ok(QName {
                place,
                prefix: first,
                local,
            }),
        }
    }
}
