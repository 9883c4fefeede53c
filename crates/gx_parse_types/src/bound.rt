// The reader of variables that are bound, and of how sort keys order.

ghost use Rattle.std.specs.Prelude.{◌≡◌, ℕ};
ghost use Rattle.gx_grammar.specs.Ran.{Ran};
ghost use Rattle.gx_parse_grammar.specs.Bound.{bound, bound_made, bound_type, case_variable, default_variable, direction, direction_made, empty_of, extreme, extreme_made, is_descending, key_order, kind_made, order_made, position, position_made};
ghost use Rattle.gx_parse_grammar.specs.Grammar.{place_in};
ghost use Rattle.gx_parse_tokens.specs.Reading.{read_in};
ghost use Rattle.gx_parse_grammar.specs.Types.{Gave};

use crate::types::{sequence_type, written_name};
use gx_ast::name::Variable;
use gx_ast::sequence_type::{EmptyOrder, KeyOrder, SequenceType};
use gx_parse_grammar::word::{Word, WordSet};
use gx_parse_parts::parts::lexeme;
use gx_parse_tokens::reader::Reader;
use gx_parse_tokens::source::Source;

/// Reads a variable (XQuery 1.0, section 3.1.2).
pub fn bound(reader: &mut Reader<'_>, source: &Source<'_>) -> Option<Variable>
    ensures { (n : ℕ) → Gave bound_made result reader.old reader.new (read_in source.now n (bound (place_in source.now))) }
{
    let place = source.place(reader.left());
    lexeme(reader, WordSet::Only(Word::Dollar));
    let Some(name) = written_name(reader, source) else {
        return None;
    };
    Some(Variable { place, name })
}

/// Reads the type behind `as`, if one stands there.
pub fn bound_type(reader: &mut Reader<'_>, source: &Source<'_>) -> Option<Option<SequenceType>>
    ensures { (n : ℕ) → Gave kind_made result reader.old reader.new (read_in source.now n (bound_type (place_in source.now))) }
{
    if !reader.looks_at(WordSet::Only(Word::As)) {
        return Some(None);
    }
    lexeme(reader, WordSet::Only(Word::As));
    let Some(kind) = sequence_type(reader, source) else {
        return None;
    };
    Some(Some(kind))
}

/// Reads the variable behind `at`, if one stands there (XQuery 1.0, section 3.8.1).
pub fn position(reader: &mut Reader<'_>, source: &Source<'_>) -> Option<Option<Variable>>
    ensures { (n : ℕ) → Gave position_made result reader.old reader.new (read_in source.now n (position (place_in source.now))) }
{
    if !reader.looks_at(WordSet::Only(Word::At)) {
        return Some(None);
    }
    lexeme(reader, WordSet::Only(Word::At));
    let Some(variable) = bound(reader, source) else {
        return None;
    };
    Some(Some(variable))
}

/// Reads the variable and `as` in front of the type of a case, if they stand there (XQuery 1.0, section 3.12.2).
pub fn case_variable(reader: &mut Reader<'_>, source: &Source<'_>) -> Option<Option<Variable>>
    ensures { (n : ℕ) → Gave position_made result reader.old reader.new (read_in source.now n (case_variable (place_in source.now))) }
{
    if !reader.starts_with('$') {
        return Some(None);
    }
    let Some(variable) = bound(reader, source) else {
        return None;
    };
    lexeme(reader, WordSet::Only(Word::As));
    Some(Some(variable))
}

/// Reads the variable of a default, if one stands there (XQuery 1.0, section 3.12.2).
pub fn default_variable(reader: &mut Reader<'_>, source: &Source<'_>) -> Option<Option<Variable>>
    ensures { (n : ℕ) → Gave position_made result reader.old reader.new (read_in source.now n (default_variable (place_in source.now))) }
{
    if !reader.starts_with('$') {
        return Some(None);
    }
    let Some(variable) = bound(reader, source) else {
        return None;
    };
    Some(Some(variable))
}

// Reads `ascending` or `descending`, if one stands there.
fn direction(reader: &mut Reader<'_>, source: &Source<'_>) -> Option<Word>
    ensures { (n : ℕ) → Ran (direction_made result) reader.old reader.new (read_in source.now n (direction (place_in source.now))) }
{
    if !reader.looks_at(WordSet::Directions) {
        return None;
    }
    Some(lexeme(reader, WordSet::Directions))
}

// Reads `empty greatest` or `empty least`, if one stands there.
fn extreme(reader: &mut Reader<'_>, source: &Source<'_>) -> Option<(Word, Word)>
    ensures { (n : ℕ) → Ran (extreme_made result) reader.old reader.new (read_in source.now n (extreme (place_in source.now))) }
{
    if !reader.looks_at(WordSet::Only(Word::Empty)) {
        return None;
    }
    let first = lexeme(reader, WordSet::Only(Word::Empty));
    let second = lexeme(reader, WordSet::Extremes);
    Some((first, second))
}

fn is_descending(word: Option<Word>) -> bool
    ensures { result ≡ is_descending (direction_made word) }
{
    matches!(word, Some(Word::Descending))
}

fn empty_of(words: Option<(Word, Word)>) -> EmptyOrder
    ensures { result ≡ empty_of (extreme_made words) }
{
    match words {
        Some((_, Word::Greatest)) => EmptyOrder::Greatest,
        Some((_, Word::Least)) => EmptyOrder::Least,
        _ => EmptyOrder::Default,
    }
}

/// Reads what stands behind a sort key (XQuery 1.0, section 3.8.3).
pub fn key_order(reader: &mut Reader<'_>, source: &Source<'_>) -> KeyOrder
    ensures { (n : ℕ) → Ran (order_made result) reader.old reader.new (read_in source.now n (key_order (place_in source.now))) }
{
    let direction = direction(reader, source);
    let extreme = extreme(reader, source);
    KeyOrder {
        descending: is_descending(direction),
        empty: empty_of(extreme),
    }
}
