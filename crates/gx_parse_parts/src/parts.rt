// The parts of the parser that hold no expressions.

ghost use Rattle.std.specs.Prelude.{◌≡◌, ℕ, List, IfOk};
ghost use Rattle.gx_grammar.specs.Value.{node, nothing, pair};
ghost use Rattle.gx_grammar.specs.Ran.{Makes, Ran};
ghost use Rattle.gx_parse_grammar.specs.Grammar.{dots, infix_operator, keyword, lexeme, more_signs, numeral, operator, place_in, variable_step};
ghost use Rattle.gx_parse_grammar.specs.Nodes.{Found, Operator, tree};
ghost use Rattle.gx_parse_parts.specs.Lists.{Grown};
ghost use Rattle.gx_parse_parts.specs.Parsing.{KeepsTree, join_of, last_member, signs_made, wrapped};
ghost use Rattle.gx_parse_tokens.specs.Reading.{Added};
ghost use Rattle.gx_parse_tokens.specs.Reading.{read_in};
ghost use Rattle.gx_parse_grammar.specs.Tokens.{one_of};

use crate::members::Members;
use crate::trees;
use gx_ast::expression::Expr;
use gx_base::place::Place;
use gx_parse_grammar::word::{Barrier, Word, WordSet};
use gx_parse_tokens::reader::Reader;
use gx_parse_tokens::source::Source;
use std::alloc::AllocError;

/// A sign at its place.
#[derive(Clone, Copy)]
pub struct Sign {
    pub place: Place,
    pub word: Word,
}

/// The tree that was made; none where memory did not suffice.
pub fn keep(reader: &mut Reader<'_>, made: Result<Expr, AllocError>) -> Expr
    ensures { KeepsTree result made reader.old reader.new }
{
    match made {
        Ok(tree) => tree,
        Err(_) => {
            reader.lose();
            trees::missing()
        }
    }
}

/// Reads a word with the gap behind it.
pub fn lexeme(reader: &mut Reader<'_>, set: WordSet) -> Word
    ensures { (text : List ℕ) (n : ℕ) → Ran (pair (node (Found result)) nothing) reader.old reader.new (read_in text n (lexeme (one_of set))) }
{
    let word = reader.word(set);
    reader.gap();
    word
}

/// Reads an operator.
pub fn operator(reader: &mut Reader<'_>, source: &Source<'_>, set: WordSet) -> (Place, Word)
    ensures { (n : ℕ) → Ran (node (Operator result.0 result.1)) reader.old reader.new (read_in source.now n (operator (place_in source.now) set)) }
{
    let place = source.place(reader.left());
    let word = lexeme(reader, set);
    (place, word)
}

/// Reads an operator with an operand behind it.
pub fn infix_operator(reader: &mut Reader<'_>, source: &Source<'_>, set: WordSet) -> (Place, Word)
    ensures { (n : ℕ) → Ran (node (Operator result.0 result.1)) reader.old reader.new (read_in source.now n (infix_operator (place_in source.now) set)) }
{
    let place = source.place(reader.left());
    let word = reader.word(set);
    reader.word_end(word.is_keyword());
    reader.gap();
    (place, word)
}

/// Reads a keyword with an expression behind it.
pub fn keyword(reader: &mut Reader<'_>, word: Word)
    ensures { (text : List ℕ) (n : ℕ) → Ran nothing reader.old reader.new (read_in text n (keyword word)) }
{
    reader.word(WordSet::Only(word));
    reader.word_end(true);
    reader.gap();
}

/// Reads what may stand behind the last member of a chain.
pub fn last(reader: &mut Reader<'_>, source: &Source<'_>, members: Members)
    ensures { (n : ℕ) → Ran nothing reader.old reader.new (read_in source.now n (last_member (place_in source.now) members)) }
{
    if members.is_pair() {
        return;
    }
    let set = members.set();
    if reader.looks_at(set) {
        operator(reader, source, set);
        reader.barrier(members.barrier());
    }
}

/// Two members of a chain, joined.
pub fn joined(
    source: &Source<'_>,
    members: Members,
    place: Place,
    word: Word,
    left: Expr,
    right: Expr,
) -> Result<Expr, AllocError>
    ensures { IfOk result (λ e. e ≡ join_of members place word left right) }
{
    let alloc = source.alloc();
    match members {
        Members::Singles => trees::sequence(alloc, place, word, left, right),
        Members::Operands(_) => trees::binary(alloc, place, word, left, right),
        Members::Steps => trees::path(alloc, place, word, left, right),
    }
}

/// Reads so many signs, behind those that were read.
pub fn more_signs(
    reader: &mut Reader<'_>,
    source: &Source<'_>,
    signs: Vec<Sign>,
    count: u8,
) -> Vec<Sign>
    ensures { Added signs.items result.items (λ others. (n : ℕ) → Ran (signs_made others) reader.old reader.new (read_in source.now n (more_signs (place_in source.now) count))) }
{
    let mut signs = signs;
    for _ in 0..count {
        if !reader.looks_at(WordSet::Signs) {
            return signs;
        }
        let (place, word) = operator(reader, source, WordSet::Signs);
        if signs.push(Sign { place, word }).is_err() {
            reader.lose();
            return signs;
        }
    }
    if reader.looks_barred(Barrier::Sign) {
        reader.barrier(Barrier::Sign);
    }
    signs
}

/// An operand with its signs.
pub fn with_signs(
    reader: &mut Reader<'_>,
    source: &Source<'_>,
    signs: Vec<Sign>,
    operand: Expr,
) -> Expr
    ensures { Makes result (wrapped signs.items operand) reader.old reader.new }
{
    let mut signs = signs;
    let mut tree = operand;
    while let Some(sign) = signs.pop() {
        let made = trees::signed(source.alloc(), sign.place, sign.word, tree);
        tree = keep(reader, made);
    }
    tree
}

/// Reads a number.
pub fn numeral(reader: &mut Reader<'_>, source: &Source<'_>) -> Expr
    ensures { (n : ℕ) → Ran (tree result) reader.old reader.new (read_in source.now n (numeral (place_in source.now))) }
{
    let place = source.place(reader.left());
    let number = reader.number(source.alloc());
    reader.number_end();
    reader.gap();
    let made = trees::number(source.alloc(), place, number);
    keep(reader, made)
}

/// Reads a variable.
pub fn variable(reader: &mut Reader<'_>, source: &Source<'_>) -> Expr
    ensures { (n : ℕ) → Ran (tree result) reader.old reader.new (read_in source.now n (variable_step (place_in source.now))) }
{
    let place = source.place(reader.left());
    lexeme(reader, WordSet::Only(Word::Dollar));
    let name_place = source.place(reader.left());
    let Some(name) = reader.name(source.alloc()) else {
        return trees::missing();
    };
    reader.gap();
    let made = trees::variable(source, place, name_place, name);
    keep(reader, made)
}

/// Reads `.` or `..`.
pub fn dots(reader: &mut Reader<'_>, source: &Source<'_>) -> Expr
    ensures { (n : ℕ) → Ran (tree result) reader.old reader.new (read_in source.now n (dots (place_in source.now))) }
{
    let place = source.place(reader.left());
    let word = lexeme(reader, WordSet::Dots);
    trees::dots(place, word)
}

/// The items with one more; the same where memory does not suffice.
pub fn with_item<T: Drop>(reader: &mut Reader<'_>, items: Vec<T>, item: T) -> Vec<T>
    ensures { Grown items.items item result.items reader.old reader.new }
{
    let mut list = items;
    if list.push(item).is_err() {
        reader.lose();
        return list;
    }
    list
}
