// The reader of node tests and axes.

ghost use Rattle.std.specs.Prelude.{◌≡◌, ◌+◌, ℕ, IfOk};
ghost use Rattle.gx_grammar.specs.Ran.{Ran, left_of};
ghost use Rattle.gx_parse_grammar.specs.Grammar.{place_in};
ghost use Rattle.gx_parse_tokens.specs.Names.{name_made};
ghost use Rattle.gx_parse_grammar.specs.NodeTests.{any_step, any_test, attribute_step, axis_test, behind_test, in_namespace, kind_content, maybe_content, node_test, test_made, test_of, wildcard, wildcard_step};
ghost use Rattle.gx_parse_parts.specs.Parsing.{KeepsTest};
ghost use Rattle.gx_parse_grammar.specs.Nodes.{name_at, name_length, tree};
ghost use Rattle.gx_parse_tokens.specs.Reading.{read_in};
ghost use Rattle.gx_parse_grammar.specs.Types.{Gave};

use crate::types::content;
use gx_ast::expression::Expr;
use gx_ast::name::{Axis, NameTest};
use gx_ast::sequence_type::NodeTest;
use gx_base::place::Place;
use gx_parse_grammar::kind_words::{KindWord, TestContent};
use gx_parse_grammar::word::{Word, WordSet};
use gx_parse_parts::parts::lexeme;
use gx_parse_parts::trees::{self, by_name, test_of};
use gx_parse_tokens::kind_words::kind_word;
use gx_parse_tokens::names::ReadName;
use gx_parse_tokens::reader::Reader;
use gx_parse_tokens::source::Source;
use std::alloc::AllocError;

// The test of a name at a place, with what stands in parentheses behind it.
fn test_at(
    source: &Source<'_>,
    place: Place,
    kind: Option<KindWord>,
    name: ReadName,
    content: Option<TestContent>,
) -> Result<NodeTest, AllocError>
    ensures { IfOk result (λ test. test ≡ test_of kind (name_at place (name_made name)) content) }
{
    let name = name.at(source, place)?;
    test_of(source.alloc(), kind, name, content)
}

// The test that any name in the namespace of a prefix passes, which was read as a name at a place.
fn in_namespace(source: &Source<'_>, place: Place, prefix: ReadName) -> Result<NodeTest, AllocError>
    ensures { IfOk result (λ test. test ≡ in_namespace (name_at place (name_made prefix))) }
{
    let prefix = prefix.at(source, place)?;
    let place = prefix.place;
    let test = NameTest::AnyInNamespace(place, prefix.into_local());
    by_name(source.alloc(), test)
}

// The test that was made; none where memory did not suffice.
fn keep(reader: &mut Reader<'_>, made: Result<NodeTest, AllocError>) -> Option<NodeTest>
    ensures { KeepsTest result made reader.old reader.new }
{
    match made {
        Ok(test) => Some(test),
        Err(_) => {
            reader.lose();
            None
        }
    }
}

// Reads `*`, or `*:` and a name.
fn wildcard(reader: &mut Reader<'_>, source: &Source<'_>) -> Option<NodeTest>
    ensures { (n : ℕ) → Gave test_made result reader.old reader.new (read_in source.now n (wildcard (place_in source.now))) }
{
    let has_prefix = reader.looks_at(WordSet::Only(Word::AnyPrefix));
    let place = source.place(reader.left());
    if !has_prefix {
        lexeme(reader, WordSet::Only(Word::AnyName));
        let made = by_name(source.alloc(), NameTest::Any(place));
        return keep(reader, made);
    }
    reader.word(WordSet::Only(Word::AnyPrefix));
    let Some(local) = reader.ncname(source.alloc()) else {
        return None;
    };
    reader.gap();
    let made = by_name(source.alloc(), NameTest::AnyNamespace(place, local));
    keep(reader, made)
}

/// Reads the parentheses of a kind test, if they stand there.
pub fn kind_content(
    reader: &mut Reader<'_>,
    source: &Source<'_>,
    kind: Option<KindWord>,
) -> Option<Option<TestContent>>
    ensures { (n : ℕ) → Gave maybe_content result reader.old reader.new (read_in source.now n (kind_content (place_in source.now) kind)) }
{
    let Some(kind) = kind else {
        return Some(None);
    };
    if !reader.starts_with('(') {
        return Some(None);
    }
    let Some(content) = content(reader, source, kind) else {
        return None;
    };
    Some(Some(content))
}

// Reads a test behind its name, which stood at the place.
fn behind_test(
    reader: &mut Reader<'_>,
    source: &Source<'_>,
    place: Place,
    name: ReadName,
) -> Option<NodeTest>
    requires { place ≡ place_in source.now (left_of reader.now + name_length (name_made name)) }
    ensures { (n : ℕ) → Gave test_made result reader.old reader.new (read_in source.now n (behind_test (place_in source.now) (name_made name))) }
{
    let kind = kind_word(&name);
    reader.gap();
    let Some(content) = kind_content(reader, source, kind) else {
        return None;
    };
    let made = test_at(source, place, kind, name, content);
    keep(reader, made)
}

// Reads the gap behind a name and `:*`, as a test. The name stood at the place.
fn any_test(
    reader: &mut Reader<'_>,
    source: &Source<'_>,
    place: Place,
    name: ReadName,
) -> Option<NodeTest>
    requires { place ≡ place_in source.now ((left_of reader.now + 2) + name_length (name_made name)) }
    ensures { (n : ℕ) → Gave test_made result reader.old reader.new (read_in source.now n (any_test (place_in source.now) (name_made name))) }
{
    reader.gap();
    let made = in_namespace(source, place, name);
    keep(reader, made)
}

/// Reads the gap behind a name and `:*`, as a step. The name stood at the place.
pub fn any_step(reader: &mut Reader<'_>, source: &Source<'_>, place: Place, name: ReadName) -> Expr
    requires { place ≡ place_in source.now ((left_of reader.now + 2) + name_length (name_made name)) }
    ensures { (n : ℕ) → Ran (tree result) reader.old reader.new (read_in source.now n (any_step (place_in source.now) (name_made name))) }
{
    let Some(test) = any_test(reader, source, place, name) else {
        return trees::missing();
    };
    trees::step(place, None, test)
}

// Reads a node test (XQuery 1.0, section 3.2.1.2).
fn node_test(reader: &mut Reader<'_>, source: &Source<'_>) -> Option<NodeTest>
    ensures { (n : ℕ) → Gave test_made result reader.old reader.new (read_in source.now n (node_test (place_in source.now))) }
{
    if !reader.starts_name() {
        return wildcard(reader, source);
    }
    let place = source.place(reader.left());
    let Some(name) = reader.name(source.alloc()) else {
        return None;
    };
    if reader.local_wildcard(name.has_prefix()) {
        return any_test(reader, source, place, name);
    }
    behind_test(reader, source, place, name)
}

/// Reads `::` and a node test.
pub fn axis_test(reader: &mut Reader<'_>, source: &Source<'_>) -> Option<NodeTest>
    ensures { (n : ℕ) → Gave test_made result reader.old reader.new (read_in source.now n (axis_test (place_in source.now))) }
{
    lexeme(reader, WordSet::Only(Word::Colons));
    node_test(reader, source)
}

/// Reads `@` and a node test.
pub fn attribute_step(reader: &mut Reader<'_>, source: &Source<'_>) -> Expr
    ensures { (n : ℕ) → Ran (tree result) reader.old reader.new (read_in source.now n (attribute_step (place_in source.now))) }
{
    let place = source.place(reader.left());
    lexeme(reader, WordSet::Only(Word::AtSign));
    let Some(test) = node_test(reader, source) else {
        return trees::missing();
    };
    trees::step(place, Some(Axis::Attribute), test)
}

/// Reads a step that is `*`, or `*:` and a name.
pub fn wildcard_step(reader: &mut Reader<'_>, source: &Source<'_>) -> Expr
    ensures { (n : ℕ) → Ran (tree result) reader.old reader.new (read_in source.now n (wildcard_step (place_in source.now))) }
{
    let place = source.place(reader.left());
    let Some(test) = wildcard(reader, source) else {
        return trees::missing();
    };
    trees::step(place, None, test)
}
