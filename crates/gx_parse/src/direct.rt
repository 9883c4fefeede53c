// The reader of direct constructors (XQuery 1.0, section 3.7.1).

ghost use Rattle.std.specs.Prelude.{suc};
ghost use Rattle.gx_ast.specs.SyntaxView.{attribute_parts_of, attributes_of, parts_of};
ghost use Rattle.gx_grammar.specs.Grammar.{rule};
ghost use Rattle.gx_grammar.specs.Ran.{Ran};
ghost use Rattle.gx_grammar.specs.Value.{no_item, node};
ghost use Rattle.gx_parse_grammar.specs.Basics.{name, nested, within};
ghost use Rattle.gx_parse_grammar.specs.Direct.{attribute, attribute_value, attributes, brace_piece, content, content_if_any, content_piece, direct_step, element_at, piece_made, plain_piece, start_of, value_in, value_piece, value_pieces};
ghost use Rattle.gx_parse_constructors.specs.DirectReading.{attribute_made};
ghost use Rattle.gx_parse_grammar.specs.Grammar.{place_in};
ghost use Rattle.gx_parse_parts.specs.Lists.{OneMore};
ghost use Rattle.gx_parse_tokens.specs.Names.{name_made};
ghost use Rattle.gx_parse_grammar.specs.Nodes.{AttributesAre, PartsAre, ValueIs, tree};
ghost use Rattle.gx_parse_tokens.specs.Reading.{call, read_in};
ghost use Rattle.gx_parse_parts.specs.Repeated.{listed_before};

use crate::operators::expression;
use gx_ast::expression::{AttributePart, DirectAttribute, Expr, Part};
use gx_parse_constructors::pieces::{
    ContentRead, all_parts, bare_name, behind_attribute, cdata, end_tag, reference_piece,
    symbol_piece, text_piece, value_parts, with_piece,
};
use gx_parse_grammar::pieces::Piece;
use gx_parse_grammar::runs::{Quote, Run};
use gx_parse_grammar::word::{Barrier, Word, WordSet};
use gx_parse_parts::parts::{keep, with_item};
use gx_parse_parts::trees;
use gx_parse_tokens::names::ReadName;
use gx_parse_tokens::reader::Reader;
use gx_parse_tokens::source::Source;

/// Reads a direct element with the gap behind it.
#[cycle(parsing)]
pub fn direct_step(reader: &mut Reader<'_>, source: &Source<'_>, levels: u8) -> Expr
    ensures { Ran (tree result) reader.old reader.new (read_in source.now levels (direct_step (place_in source.now) levels)) }
{
    let element = element(reader, source, levels);
    reader.gap();
    element
}

// Reads a direct element.
#[cycle(parsing)]
fn element(reader: &mut Reader<'_>, source: &Source<'_>, levels: u8) -> Expr
    ensures { Ran (tree result) reader.old reader.new (read_in source.now levels (element_at (place_in source.now) levels)) }
{
    let left = reader.left();
    let place = source.place(left);
    let name_place = source.place(left.saturating_sub(1));
    reader.word(WordSet::Only(Word::TagOpen));
    let Some(name) = reader.name(source.alloc()) else {
        return trees::missing();
    };
    let attributes = attributes(reader, source, levels);
    let content = content_if_any(reader, source, levels, &name);
    let made = trees::direct(source, place, name_place, name, attributes, content);
    keep(reader, made)
}

// Reads the attributes of an element.
#[cycle(parsing)]
fn attributes(reader: &mut Reader<'_>, source: &Source<'_>, levels: u8) -> Vec<DirectAttribute>
    ensures { Ran (node (AttributesAre (attributes_of result.items))) reader.old reader.new (read_in source.now levels (attributes (place_in source.now) (rule (within levels)))) }
{
    reader.blank();
    let mut list = Vec::new(source.alloc());
    let mut left = reader.left();
    while reader.starts_name() {
        list = attribute(reader, source, levels, list);
        if left == 0 {
            return list;
        }
        left -= 1;
    }
    list
}

// Reads an attribute with what stands behind it, and adds it.
#[cycle(parsing)]
fn attribute(
    reader: &mut Reader<'_>,
    source: &Source<'_>,
    levels: u8,
    list: Vec<DirectAttribute>,
) -> Vec<DirectAttribute>
    ensures { OneMore attribute_made list.items result.items reader.old reader.new (read_in source.now levels (attribute (place_in source.now) (rule (within levels)))) }
{
    let Some(name) = bare_name(reader, source) else {
        return list;
    };
    reader.blank();
    reader.word(WordSet::Only(Word::Equals));
    reader.blank();
    let value = attribute_value(reader, source, levels);
    behind_attribute(reader);
    with_item(reader, list, DirectAttribute { name, value })
}

// Reads the value of an attribute.
#[cycle(parsing)]
fn attribute_value(reader: &mut Reader<'_>, source: &Source<'_>, levels: u8) -> Vec<AttributePart>
    ensures { Ran (node (ValueIs (attribute_parts_of result.items))) reader.old reader.new (read_in source.now levels (attribute_value (rule (within levels)))) }
{
    if reader.starts_with('"') {
        return value_in(reader, source, levels, Quote::Double);
    }
    value_in(reader, source, levels, Quote::Single)
}

// Reads the value of an attribute in these quotes.
#[cycle(parsing)]
fn value_in(
    reader: &mut Reader<'_>,
    source: &Source<'_>,
    levels: u8,
    quote: Quote,
) -> Vec<AttributePart>
    ensures { Ran (node (ValueIs (attribute_parts_of result.items))) reader.old reader.new (read_in source.now levels (value_in (rule (within levels)) quote)) }
{
    reader.word(WordSet::Only(quote.opening()));
    let pieces = value_pieces(reader, source, levels, quote);
    reader.word(WordSet::Only(quote.closing()));
    value_parts(reader, source, pieces)
}

// Reads the pieces of an attribute value.
#[cycle(parsing)]
fn value_pieces(
    reader: &mut Reader<'_>,
    source: &Source<'_>,
    levels: u8,
    quote: Quote,
) -> Vec<Piece>
    ensures { Ran (listed_before piece_made result.items no_item) reader.old reader.new (read_in source.now levels (value_pieces (rule (within levels)) quote)) }
{
    let mut list = Vec::new(source.alloc());
    let mut left = reader.left();
    while reader.looks_at_value_piece(quote) {
        let piece = value_piece(reader, source, levels, quote);
        list = with_item(reader, list, piece);
        if left == 0 {
            return list;
        }
        left -= 1;
    }
    list
}

// Reads a piece of an attribute value.
#[cycle(parsing)]
fn value_piece(reader: &mut Reader<'_>, source: &Source<'_>, levels: u8, quote: Quote) -> Piece
    ensures { Ran (piece_made result) reader.old reader.new (read_in source.now levels (value_piece (rule (within levels)) quote)) }
{
    if reader.starts_with('&') {
        return reference_piece(reader, source);
    }
    if reader.starts_with(quote.symbol()) {
        return symbol_piece(reader, source, quote.doubled(), quote.symbol());
    }
    plain_piece(reader, source, levels, Run::Attribute(quote))
}

// Reads braces or literal text.
#[cycle(parsing)]
fn plain_piece(reader: &mut Reader<'_>, source: &Source<'_>, levels: u8, run: Run) -> Piece
    ensures { Ran (piece_made result) reader.old reader.new (read_in source.now levels (plain_piece (rule (within levels)) run)) }
{
    if reader.starts_with('{') {
        return brace_piece(reader, source, levels);
    }
    if reader.starts_with('}') {
        return symbol_piece(reader, source, Word::TwoCloseBraces, '}');
    }
    text_piece(reader, source, run)
}

// Reads two opening braces, or an enclosed expression.
#[cycle(parsing)]
fn brace_piece(reader: &mut Reader<'_>, source: &Source<'_>, levels: u8) -> Piece
    ensures { Ran (piece_made result) reader.old reader.new (read_in source.now levels (brace_piece (rule (within levels)))) }
{
    if reader.looks_at(WordSet::Only(Word::TwoOpenBraces)) {
        return symbol_piece(reader, source, Word::TwoOpenBraces, '{');
    }
    reader.word(WordSet::Only(Word::BraceOpen));
    reader.gap();
    let value = within(reader, source, levels);
    reader.word(WordSet::Only(Word::CloseBrace));
    Piece::Enclosed(value)
}

// Reads the expression in the braces of an element at that level.
#[cycle(parsing)]
fn within(reader: &mut Reader<'_>, source: &Source<'_>, levels: u8) -> Expr
    ensures { Ran (tree result) reader.old reader.new (call source.now (suc levels) (within levels)) }
{
    if levels == 0 {
        reader.barrier(Barrier::Single);
        return trees::missing();
    }
    expression(reader, source, levels - 1)
}

// Reads what stands behind the attributes of the element with that name.
#[cycle(parsing)]
fn content_if_any(
    reader: &mut Reader<'_>,
    source: &Source<'_>,
    levels: u8,
    name: &ReadName,
) -> Vec<Part>
    ensures { Ran (node (PartsAre (parts_of result.items))) reader.old reader.new (read_in source.now levels (content_if_any (rule (within levels)) (rule (nested levels)) (start_of levels) (name_made name.now))) }
{
    if reader.starts_with('/') {
        reader.word(WordSet::Only(Word::EmptyTagEnd));
        return Vec::new(source.alloc());
    }
    reader.word(WordSet::Only(Word::TagEnd));
    let parts = content(reader, source, levels);
    end_tag(reader, source, name);
    parts
}

// Reads the content of an element.
#[cycle(parsing)]
fn content(reader: &mut Reader<'_>, source: &Source<'_>, levels: u8) -> Vec<Part>
    ensures { Ran (node (PartsAre (parts_of result.items))) reader.old reader.new (read_in source.now levels (content (rule (within levels)) (rule (nested levels)) (start_of levels))) }
{
    let parts = Vec::new(source.alloc());
    let pieces = Vec::new(source.alloc());
    let mut read = ContentRead { parts, pieces };
    let mut left = reader.left();
    while reader.looks_at_content_piece(levels) {
        let piece = content_piece(reader, source, levels);
        read = with_piece(reader, source, read, piece);
        if left == 0 {
            return all_parts(reader, source, read);
        }
        left -= 1;
    }
    all_parts(reader, source, read)
}

// Reads a piece of the content of an element.
#[cycle(parsing)]
fn content_piece(reader: &mut Reader<'_>, source: &Source<'_>, levels: u8) -> Piece
    ensures { Ran (piece_made result) reader.old reader.new (read_in source.now levels (content_piece (rule (within levels)) (rule (nested levels)))) }
{
    if reader.starts_with('&') {
        return reference_piece(reader, source);
    }
    if !reader.starts_with('<') {
        return plain_piece(reader, source, levels, Run::Content);
    }
    if reader.looks_at(WordSet::Only(Word::CdataOpen)) {
        return cdata(reader, source);
    }
    let element = nested(reader, source, levels);
    Piece::Element(element)
}

// Reads an element in the content of one at that level.
#[cycle(parsing)]
fn nested(reader: &mut Reader<'_>, source: &Source<'_>, levels: u8) -> Expr
    ensures { Ran (tree result) reader.old reader.new (call source.now (suc levels) (nested levels)) }
{
    if levels < 2 {
        reader.no_element();
        return trees::missing();
    }
    element(reader, source, levels - 1)
}
