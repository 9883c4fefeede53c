// The reader of names and of what stands in the parentheses of item types.

ghost use Rattle.std.specs.Prelude.{◌≡◌};
ghost use Rattle.gx_grammar.specs.Ran.{Ran};
ghost use Rattle.gx_grammar.specs.Reading.{read_with};
ghost use Rattle.gx_grammar.specs.Value.{nothing, pair};
ghost use Rattle.gx_typetext.specs.Grammar.{behind_comma, braced, word_content, declared, document, document_test, lexeme, name, nothing_inside, prefixed, tested, tested_name, type_texts, unprefixed};
ghost use Rattle.gx_typetext.specs.Nodes.{inside_made, maybe_name_made, written_name_made, written_test_made, declared_made};
ghost use Rattle.gx_typetext.specs.Standings.{Calls, WasGiven};
ghost use Rattle.gx_typetext.specs.Tokens.{keyword, symbol};
ghost use Rattle.gx_typetext.specs.declared.written.Inside.TheVariants.{Nothing};

use crate::letters::Run;
use crate::reader::Reader;
use crate::written::{Inside, NameWord, Space, WrittenName, WrittenTest};
use std::alloc::Global;

/// Reads a symbol with the gap behind it.
pub fn lexeme(reader: &mut Reader<'_>, letters: &[char])
    ensures { (call : Calls) → Ran (pair nothing nothing) reader.old reader.new (read_with type_texts call (lexeme (symbol letters.now))) }
{
    reader.symbol(letters);
    reader.gap();
}

/// Reads a word with the gap behind it.
pub fn word(reader: &mut Reader<'_>, letters: &[char])
    ensures { (call : Calls) → Ran (pair nothing nothing) reader.old reader.new (read_with type_texts call (lexeme (keyword letters.now))) }
{
    reader.keyword(letters);
    reader.gap();
}

/// Reads a name with a URI in braces.
pub fn braced(alloc: Global, reader: &mut Reader<'_>) -> Option<WrittenName>
    ensures { (call : Calls) → WasGiven written_name_made result reader.old reader.new (read_with type_texts call braced) }
{
    reader.symbol(&['{']);
    let Some(uri) = reader.run(alloc, Run::Uri) else {
        return None;
    };
    reader.symbol(&['}']);
    let Some(local) = reader.run(alloc, Run::Local) else {
        return None;
    };
    reader.gap();
    let space = Space::Uri(uri);
    Some(WrittenName { space, local })
}

/// Reads a name of the schema namespace.
pub fn prefixed(alloc: Global, reader: &mut Reader<'_>) -> Option<WrittenName>
    ensures { (call : Calls) → WasGiven written_name_made result reader.old reader.new (read_with type_texts call prefixed) }
{
    reader.symbol(&['x', 's', ':']);
    let Some(local) = reader.run(alloc, Run::Local) else {
        return None;
    };
    reader.gap();
    let space = Space::Schema;
    Some(WrittenName { space, local })
}

// Reads a name without a namespace.
fn unprefixed(alloc: Global, reader: &mut Reader<'_>) -> Option<WrittenName>
    ensures { (call : Calls) → WasGiven written_name_made result reader.old reader.new (read_with type_texts call unprefixed) }
{
    let Some(local) = reader.run(alloc, Run::Local) else {
        return None;
    };
    reader.gap();
    let space = Space::Nowhere;
    Some(WrittenName { space, local })
}

// Reads a name.
fn name(alloc: Global, reader: &mut Reader<'_>) -> Option<WrittenName>
    ensures { (call : Calls) → WasGiven written_name_made result reader.old reader.new (read_with type_texts call name) }
{
    if reader.starts_with('{') {
        return braced(alloc, reader);
    }
    if reader.looks_at(&['x', 's', ':']) {
        return prefixed(alloc, reader);
    }
    unprefixed(alloc, reader)
}

// Reads a name, or `*`, for which there is none.
fn tested_name(alloc: Global, reader: &mut Reader<'_>) -> Option<Option<WrittenName>>
    ensures { (call : Calls) → WasGiven maybe_name_made result reader.old reader.new (read_with type_texts call tested_name) }
{
    if reader.starts_with('*') {
        lexeme(reader, &['*']);
        return Some(None);
    }
    let Some(name) = name(alloc, reader) else {
        return None;
    };
    Some(Some(name))
}

// Reads a type's name behind a comma, if a comma stands there.
fn behind_comma(alloc: Global, reader: &mut Reader<'_>) -> Option<Option<WrittenName>>
    ensures { (call : Calls) → WasGiven maybe_name_made result reader.old reader.new (read_with type_texts call behind_comma) }
{
    if !reader.starts_with(',') {
        return Some(None);
    }
    lexeme(reader, &[',']);
    let Some(name) = name(alloc, reader) else {
        return None;
    };
    Some(Some(name))
}

// Reads what stands in the parentheses of an element or attribute test.
fn tested(alloc: Global, reader: &mut Reader<'_>) -> Option<WrittenTest>
    ensures { (call : Calls) → WasGiven written_test_made result reader.old reader.new (read_with type_texts call tested) }
{
    lexeme(reader, &['(']);
    if reader.starts_with(')') {
        lexeme(reader, &[')']);
        let name = None;
        let kind = None;
        return Some(WrittenTest { name, kind });
    }
    let Some(name) = tested_name(alloc, reader) else {
        return None;
    };
    let Some(kind) = behind_comma(alloc, reader) else {
        return None;
    };
    lexeme(reader, &[')']);
    Some(WrittenTest { name, kind })
}

// Reads a name in parentheses.
fn declared(alloc: Global, reader: &mut Reader<'_>) -> Option<WrittenName>
    ensures { (call : Calls) → WasGiven declared_made result reader.old reader.new (read_with type_texts call declared) }
{
    lexeme(reader, &['(']);
    let Some(name) = name(alloc, reader) else {
        return None;
    };
    lexeme(reader, &[')']);
    Some(name)
}

/// Reads `(` and `)`.
pub fn nothing_inside(reader: &mut Reader<'_>)
    ensures { (call : Calls) → Ran (inside_made Nothing) reader.old reader.new (read_with type_texts call nothing_inside) }
{
    lexeme(reader, &['(']);
    lexeme(reader, &[')']);
}

// Reads the test of an element in that of a document.
fn document_test(alloc: Global, reader: &mut Reader<'_>) -> Option<Inside>
    ensures { (call : Calls) → WasGiven inside_made result reader.old reader.new (read_with type_texts call document_test) }
{
    if reader.starts_with('e') {
        word(reader, &['e', 'l', 'e', 'm', 'e', 'n', 't']);
        let Some(test) = tested(alloc, reader) else {
            return None;
        };
        return Some(Inside::Element(test));
    }
    word(
        reader,
        &[
            's', 'c', 'h', 'e', 'm', 'a', '-', 'e', 'l', 'e', 'm', 'e', 'n', 't',
        ],
    );
    let Some(name) = declared(alloc, reader) else {
        return None;
    };
    Some(Inside::Declared(name))
}

// Reads what stands in the parentheses of a document test.
fn document(alloc: Global, reader: &mut Reader<'_>) -> Option<Inside>
    ensures { (call : Calls) → WasGiven inside_made result reader.old reader.new (read_with type_texts call document) }
{
    lexeme(reader, &['(']);
    if reader.starts_with(')') {
        lexeme(reader, &[')']);
        return Some(Inside::Nothing);
    }
    let Some(test) = document_test(alloc, reader) else {
        return None;
    };
    lexeme(reader, &[')']);
    Some(test)
}

// Reads what stands in the parentheses of a test of elements or attributes.
fn test_content(alloc: Global, reader: &mut Reader<'_>) -> Option<Inside>
    ensures { (call : Calls) → WasGiven inside_made result reader.old reader.new (read_with type_texts call tested) }
{
    let Some(test) = tested(alloc, reader) else {
        return None;
    };
    Some(Inside::Test(test))
}

// Reads what stands in the parentheses of the test of a declared element.
fn declared_content(alloc: Global, reader: &mut Reader<'_>) -> Option<Inside>
    ensures { (call : Calls) → WasGiven inside_made result reader.old reader.new (read_with type_texts call declared) }
{
    let Some(name) = declared(alloc, reader) else {
        return None;
    };
    Some(Inside::Declared(name))
}

// Reads parentheses with nothing in them.
fn empty_content(reader: &mut Reader<'_>) -> Option<Inside>
    ensures { (call : Calls) → WasGiven inside_made result reader.old reader.new (read_with type_texts call nothing_inside) }
{
    nothing_inside(reader);
    Some(Inside::Nothing)
}

/// Reads the parentheses behind a word (XQuery 1.0, section 2.5.4).
pub fn content(alloc: Global, reader: &mut Reader<'_>, word: NameWord) -> Option<Inside>
    ensures { (call : Calls) → WasGiven inside_made result reader.old reader.new (read_with type_texts call (word_content word)) }
{
    match word {
        NameWord::Document => document(alloc, reader),
        NameWord::Element => test_content(alloc, reader),
        NameWord::Attribute => test_content(alloc, reader),
        NameWord::Schema => declared_content(alloc, reader),
        NameWord::Never => empty_content(reader),
        NameWord::Empty => empty_content(reader),
        NameWord::Node => empty_content(reader),
        NameWord::Item => empty_content(reader),
        NameWord::Text => empty_content(reader),
        NameWord::Other => empty_content(reader),
    }
}
