// The reader of sequence types.

ghost use Rattle.std.specs.Prelude.{◌≡◌, ◌+◌, ℕ};
ghost use Rattle.gx_grammar.specs.Ran.{Ran, left_of};
ghost use Rattle.gx_parse_grammar.specs.Grammar.{place_in};
ghost use Rattle.gx_parse_tokens.specs.Names.{name_made};
ghost use Rattle.gx_parse_grammar.specs.Nodes.{name_length};
ghost use Rattle.gx_parse_tokens.specs.Reading.{read_in};
ghost use Rattle.gx_parse_grammar.specs.Types.{Gave, bare_tail, behind_comma, behind_type, casting_made, content, content_made, declared, declared_content, document, document_test, empty_tail, item_tail, maybe_named, named, named_content, nothing_inside, sequence_type, single_type, tail_made, tested, tested_made, tested_name, type_made, type_tail, written_name};

use gx_ast::name::QName;
use gx_ast::sequence_type::{Indicator, SequenceType, SingleType, TestedName};
use gx_base::place::Place;
use gx_parse_grammar::kind_words::{KindWord, TestContent, TypeTail, TypeWord};
use gx_parse_grammar::word::{Word, WordSet};
use gx_parse_parts::parts::lexeme;
use gx_parse_tokens::kind_words::{indicator_of, type_of_word, type_word};
use gx_parse_tokens::names::ReadName;
use gx_parse_tokens::reader::Reader;
use gx_parse_tokens::source::Source;

/// Reads a QName and its gap.
pub fn written_name(reader: &mut Reader<'_>, source: &Source<'_>) -> Option<QName>
    ensures { (n : ℕ) → Gave named result reader.old reader.new (read_in source.now n (written_name (place_in source.now))) }
{
    let place = source.place(reader.left());
    let Some(name) = reader.name(source.alloc()) else {
        return None;
    };
    reader.gap();
    match name.at(source, place) {
        Ok(written) => Some(written),
        Err(_) => {
            reader.lose();
            None
        }
    }
}

// Reads a name, or `*`, for which there is none.
fn tested_name(reader: &mut Reader<'_>, source: &Source<'_>) -> Option<Option<QName>>
    ensures { (n : ℕ) → Gave maybe_named result reader.old reader.new (read_in source.now n (tested_name (place_in source.now))) }
{
    if reader.starts_with('*') {
        lexeme(reader, WordSet::Only(Word::Times));
        return Some(None);
    }
    let Some(name) = written_name(reader, source) else {
        return None;
    };
    Some(Some(name))
}

// Reads a type's name behind a comma, if a comma stands there.
fn behind_comma(reader: &mut Reader<'_>, source: &Source<'_>) -> Option<Option<QName>>
    ensures { (n : ℕ) → Gave maybe_named result reader.old reader.new (read_in source.now n (behind_comma (place_in source.now))) }
{
    if !reader.looks_at(WordSet::Only(Word::Comma)) {
        return Some(None);
    }
    lexeme(reader, WordSet::Only(Word::Comma));
    let Some(name) = written_name(reader, source) else {
        return None;
    };
    Some(Some(name))
}

// Reads what stands in the parentheses of an element or attribute test.
fn tested(reader: &mut Reader<'_>, source: &Source<'_>) -> Option<Option<TestedName>>
    ensures { (n : ℕ) → Gave tested_made result reader.old reader.new (read_in source.now n (tested (place_in source.now))) }
{
    lexeme(reader, WordSet::Only(Word::Open));
    if reader.starts_with(')') {
        lexeme(reader, WordSet::Only(Word::Close));
        return Some(None);
    }
    let Some(name) = tested_name(reader, source) else {
        return None;
    };
    let Some(kind) = behind_comma(reader, source) else {
        return None;
    };
    lexeme(reader, WordSet::Only(Word::Close));
    Some(Some(TestedName { name, kind }))
}

// Reads a name in parentheses.
fn declared(reader: &mut Reader<'_>, source: &Source<'_>) -> Option<QName>
    ensures { (n : ℕ) → Gave named result reader.old reader.new (read_in source.now n (declared (place_in source.now))) }
{
    lexeme(reader, WordSet::Only(Word::Open));
    let Some(name) = written_name(reader, source) else {
        return None;
    };
    lexeme(reader, WordSet::Only(Word::Close));
    Some(name)
}

// Reads `(` and `)`.
fn nothing_inside(reader: &mut Reader<'_>, source: &Source<'_>) -> TestContent
    ensures { (n : ℕ) → Ran (content_made result) reader.old reader.new (read_in source.now n (nothing_inside (place_in source.now))) }
{
    lexeme(reader, WordSet::Only(Word::Open));
    lexeme(reader, WordSet::Only(Word::Close));
    TestContent::Tested(None)
}

// Reads the test of an element in that of a document.
fn document_test(reader: &mut Reader<'_>, source: &Source<'_>) -> Option<TestContent>
    ensures { (n : ℕ) → Gave content_made result reader.old reader.new (read_in source.now n (document_test (place_in source.now))) }
{
    let is_element = reader.looks_at(WordSet::Only(Word::Element));
    let place = source.place(reader.left());
    if is_element {
        lexeme(reader, WordSet::Only(Word::Element));
        let Some(tested) = tested(reader, source) else {
            return None;
        };
        return Some(TestContent::Element(place, tested));
    }
    lexeme(reader, WordSet::Only(Word::SchemaElement));
    let Some(name) = declared(reader, source) else {
        return None;
    };
    Some(TestContent::Declared(place, name))
}

// Reads what stands in the parentheses of a document test.
fn document(reader: &mut Reader<'_>, source: &Source<'_>) -> Option<TestContent>
    ensures { (n : ℕ) → Gave content_made result reader.old reader.new (read_in source.now n (document (place_in source.now))) }
{
    lexeme(reader, WordSet::Only(Word::Open));
    if reader.starts_with(')') {
        lexeme(reader, WordSet::Only(Word::Close));
        return Some(TestContent::Tested(None));
    }
    let Some(test) = document_test(reader, source) else {
        return None;
    };
    lexeme(reader, WordSet::Only(Word::Close));
    Some(test)
}

// Reads what stands behind `element` or `attribute`.
fn named_content(reader: &mut Reader<'_>, source: &Source<'_>) -> Option<TestContent>
    ensures { (n : ℕ) → Gave content_made result reader.old reader.new (read_in source.now n (named_content (place_in source.now))) }
{
    let Some(tested) = tested(reader, source) else {
        return None;
    };
    Some(TestContent::Tested(tested))
}

// Reads what stands behind `schema-element`.
fn declared_content(reader: &mut Reader<'_>, source: &Source<'_>) -> Option<TestContent>
    ensures { (n : ℕ) → Gave content_made result reader.old reader.new (read_in source.now n (declared_content (place_in source.now))) }
{
    let Some(name) = declared(reader, source) else {
        return None;
    };
    Some(TestContent::Name(name))
}

/// Reads what stands behind the name of a kind test (XQuery 1.0, section 2.5.4).
pub fn content(reader: &mut Reader<'_>, source: &Source<'_>, kind: KindWord) -> Option<TestContent>
    ensures { (n : ℕ) → Gave content_made result reader.old reader.new (read_in source.now n (content (place_in source.now) kind)) }
{
    match kind {
        KindWord::Node => Some(nothing_inside(reader, source)),
        KindWord::Text => Some(nothing_inside(reader, source)),
        KindWord::Document => document(reader, source),
        KindWord::Element => named_content(reader, source),
        KindWord::Attribute => named_content(reader, source),
        KindWord::SchemaElement => declared_content(reader, source),
    }
}

// Reads the indicator of an item type without parentheses.
fn bare_tail(reader: &mut Reader<'_>, source: &Source<'_>) -> TypeTail
    ensures { (n : ℕ) → Ran (tail_made result) reader.old reader.new (read_in source.now n (bare_tail (place_in source.now))) }
{
    let word = reader.indication();
    TypeTail {
        content: None,
        indicator: indicator_of(word),
    }
}

// Reads the parentheses of `item()`, if they stand there, and the indicator.
fn item_tail(reader: &mut Reader<'_>, source: &Source<'_>) -> TypeTail
    ensures { (n : ℕ) → Ran (tail_made result) reader.old reader.new (read_in source.now n (item_tail (place_in source.now) (nothing_inside (place_in source.now)))) }
{
    if !reader.looks_at(WordSet::Only(Word::Open)) {
        let word = reader.indication();
        return TypeTail {
            content: None,
            indicator: indicator_of(word),
        };
    }
    let content = nothing_inside(reader, source);
    let word = reader.indication();
    TypeTail {
        content: Some(content),
        indicator: indicator_of(word),
    }
}

// Reads the parentheses of a kind test, if they stand there, and the indicator.
fn kind_tail(reader: &mut Reader<'_>, source: &Source<'_>, kind: KindWord) -> Option<TypeTail>
    ensures { (n : ℕ) → Gave tail_made result reader.old reader.new (read_in source.now n (item_tail (place_in source.now) (content (place_in source.now) kind))) }
{
    if !reader.looks_at(WordSet::Only(Word::Open)) {
        let word = reader.indication();
        return Some(TypeTail {
            content: None,
            indicator: indicator_of(word),
        });
    }
    let Some(content) = content(reader, source, kind) else {
        return None;
    };
    let word = reader.indication();
    Some(TypeTail {
        content: Some(content),
        indicator: indicator_of(word),
    })
}

// Reads the parentheses of `empty-sequence()`, or the indicator of an atomic type with that name.
fn empty_tail(reader: &mut Reader<'_>, source: &Source<'_>) -> TypeTail
    ensures { (n : ℕ) → Ran (tail_made result) reader.old reader.new (read_in source.now n (empty_tail (place_in source.now))) }
{
    if !reader.looks_at(WordSet::Only(Word::Open)) {
        return bare_tail(reader, source);
    }
    let content = nothing_inside(reader, source);
    TypeTail {
        content: Some(content),
        indicator: Indicator::Once,
    }
}

// Reads what stands behind the name of a sequence type.
fn type_tail(reader: &mut Reader<'_>, source: &Source<'_>, word: TypeWord) -> Option<TypeTail>
    ensures { (n : ℕ) → Gave tail_made result reader.old reader.new (read_in source.now n (type_tail (place_in source.now) word)) }
{
    match word {
        TypeWord::EmptySequence => Some(empty_tail(reader, source)),
        TypeWord::Item => Some(item_tail(reader, source)),
        TypeWord::Kind(kind) => kind_tail(reader, source, kind),
        TypeWord::Atomic => Some(bare_tail(reader, source)),
    }
}

// Reads a sequence type behind its name, which stood at the place.
fn behind_type(
    reader: &mut Reader<'_>,
    source: &Source<'_>,
    place: Place,
    name: ReadName,
) -> Option<SequenceType>
    requires { place ≡ place_in source.now (left_of reader.now + name_length (name_made name)) }
    ensures { (n : ℕ) → Gave type_made result reader.old reader.new (read_in source.now n (behind_type (place_in source.now) (name_made name))) }
{
    let word = type_word(&name);
    reader.gap();
    let Some(tail) = type_tail(reader, source, word) else {
        return None;
    };
    match name.at(source, place) {
        Ok(written) => Some(type_of_word(word, written, tail)),
        Err(_) => {
            reader.lose();
            None
        }
    }
}

/// Reads a sequence type (XQuery 1.0, section 2.5.3).
pub fn sequence_type(reader: &mut Reader<'_>, source: &Source<'_>) -> Option<SequenceType>
    ensures { (n : ℕ) → Gave type_made result reader.old reader.new (read_in source.now n (sequence_type (place_in source.now))) }
{
    let place = source.place(reader.left());
    let Some(name) = reader.name(source.alloc()) else {
        return None;
    };
    behind_type(reader, source, place, name)
}

/// Reads the type of a cast (XQuery 1.0, section 3.12.3).
pub fn single_type(reader: &mut Reader<'_>, source: &Source<'_>) -> Option<SingleType>
    ensures { (n : ℕ) → Gave casting_made result reader.old reader.new (read_in source.now n (single_type (place_in source.now))) }
{
    let Some(name) = written_name(reader, source) else {
        return None;
    };
    if !reader.looks_at(WordSet::Only(Word::Question)) {
        let optional = false;
        return Some(SingleType { name, optional });
    }
    lexeme(reader, WordSet::Only(Word::Question));
    let optional = true;
    Some(SingleType { name, optional })
}
