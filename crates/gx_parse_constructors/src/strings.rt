// Literals.

ghost use Rattle.std.specs.Prelude.{ℕ};
ghost use Rattle.gx_grammar.specs.Ran.{Ran};
ghost use Rattle.gx_parse_grammar.specs.Grammar.{literal, place_in};
ghost use Rattle.gx_parse_grammar.specs.Nodes.{tree};
ghost use Rattle.gx_parse_tokens.specs.Reading.{Added};
ghost use Rattle.gx_parse_tokens.specs.Reading.{read_in};
ghost use Rattle.gx_parse_grammar.specs.Strings.{part_text, quoted, string_of, string_part, string_parts, text_of_parts, texts_in};
ghost use Rattle.gx_parse_constructors.specs.TextReading.{Pushes, TextRead};

use gx_ast::expression::Expr;
use gx_base::text_builder::TextBuilder;
use gx_parse_grammar::runs::{Quote, Run};
use gx_parse_grammar::word::WordSet;
use gx_parse_parts::parts::{keep, numeral};
use gx_parse_parts::trees;
use gx_parse_tokens::reader::Reader;
use gx_parse_tokens::source::Source;
use std::alloc::Global;

/// Adds a character.
pub fn push(reader: &mut Reader<'_>, text: &mut TextBuilder, character: char)
    ensures { Added text.old text.new (λ cs. Pushes character cs reader.old reader.new) }
{
    if text.push(character).is_err() {
        reader.lose();
    }
}

// Reads literal text, two quotes or a reference, and adds what it stands for.
fn part(reader: &mut Reader<'_>, quote: Quote, text: &mut TextBuilder)
    ensures { Added text.old text.new (λ cs. TextRead (string_part quote) part_text cs reader.old reader.new) }
{
    if reader.starts_with('&') {
        let character = reader.reference();
        push(reader, text, character);
        return;
    }
    if reader.starts_with(quote.symbol()) {
        reader.word(WordSet::Only(quote.doubled()));
        push(reader, text, quote.symbol());
        return;
    }
    reader.text(Run::String(quote), text);
}

// Reads what stands between the quotes, and adds it.
fn parts(reader: &mut Reader<'_>, quote: Quote, text: &mut TextBuilder)
    ensures { Added text.old text.new (λ cs. TextRead (string_parts quote) texts_in cs reader.old reader.new) }
{
    let mut left = reader.left();
    while reader.looks_at_part(quote) {
        part(reader, quote, text);
        if left == 0 {
            return;
        }
        left -= 1;
    }
}

/// Reads a text in quotes.
pub fn quoted(reader: &mut Reader<'_>, alloc: Global, quote: Quote) -> TextBuilder
    ensures { TextRead (quoted quote) text_of_parts result reader.old reader.new }
{
    let mut text = TextBuilder::new(alloc);
    reader.word(WordSet::Only(quote.opening()));
    parts(reader, quote, &mut text);
    reader.word(WordSet::Only(quote.closing()));
    text
}

// Reads a string literal with these quotes.
fn string_of(reader: &mut Reader<'_>, source: &Source<'_>, quote: Quote) -> Expr
    ensures { (n : ℕ) → Ran (tree result) reader.old reader.new (read_in source.now n (string_of (place_in source.now) quote)) }
{
    let place = source.place(reader.left());
    let text = quoted(reader, source.alloc(), quote);
    reader.gap();
    let made = trees::string(place, text);
    keep(reader, made)
}

/// Reads a literal.
pub fn literal(reader: &mut Reader<'_>, source: &Source<'_>) -> Expr
    ensures { (n : ℕ) → Ran (tree result) reader.old reader.new (read_in source.now n (literal (place_in source.now))) }
{
    if reader.starts_with('"') {
        return string_of(reader, source, Quote::Double);
    }
    if reader.starts_with('\'') {
        return string_of(reader, source, Quote::Single);
    }
    numeral(reader, source)
}
