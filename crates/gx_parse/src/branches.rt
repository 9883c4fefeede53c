// Conditionals and typeswitches.

ghost use Rattle.std.specs.Prelude.{◌≡◌, ◌+◌};
ghost use Rattle.gx_grammar.specs.Value.{nothing};
ghost use Rattle.gx_grammar.specs.Ran.{Ran, left_of};
ghost use Rattle.gx_parse_grammar.specs.Grammar.{branched, condition, place_in, typeswitch};
ghost use Rattle.gx_parse_parts.specs.Lists.{items_before};
ghost use Rattle.gx_parse_grammar.specs.Nodes.{Made, name_length, tree};
ghost use Rattle.gx_parse_tokens.specs.Reading.{Added};
ghost use Rattle.gx_parse_tokens.specs.Reading.{read_in};
ghost use Rattle.gx_parse_grammar.specs.Typeswitch.{case, case_made, cases, more_cases};

use crate::operators::expression;
use crate::singles::single;
use gx_ast::expression::{Case, Expr};
use gx_base::limits::CHAIN_MEMBERS;
use gx_base::place::Place;
use gx_parse_grammar::word::{Branching, Word, WordSet};
use gx_parse_parts::parts::{keep, keyword, lexeme};
use gx_parse_parts::trees;
use gx_parse_tokens::reader::Reader;
use gx_parse_tokens::source::Source;
use gx_parse_types::typeswitch::{case_head, default_head, last_case, with_case};

/// Reads what a name begins, which stood at the place.
#[cycle(parsing)]
pub fn branched(
    reader: &mut Reader<'_>,
    source: &Source<'_>,
    levels: u8,
    place: Place,
    branching: Branching,
) -> Expr
    ensures { (v : Made) → place ≡ place_in source.now (left_of reader.old + name_length v) → Ran (tree result) reader.old reader.new (read_in source.now levels (branched (place_in source.now) levels branching v)) }
{
    match branching {
        Branching::If => condition(reader, source, levels, place),
        Branching::Typeswitch => typeswitch(reader, source, levels, place),
    }
}

// Reads a conditional behind its `if`, which stood at the place.
#[cycle(parsing)]
fn condition(reader: &mut Reader<'_>, source: &Source<'_>, levels: u8, place: Place) -> Expr
    ensures { (v : Made) → place ≡ place_in source.now (left_of reader.old + name_length v) → Ran (tree result) reader.old reader.new (read_in source.now levels (condition (place_in source.now) levels v)) }
{
    reader.parenthesis();
    reader.gap();
    let test = expression(reader, source, levels);
    lexeme(reader, WordSet::Only(Word::Close));
    keyword(reader, Word::Then);
    let chosen = single(reader, source, levels);
    keyword(reader, Word::Else);
    let otherwise = single(reader, source, levels);
    let made = trees::condition(source.alloc(), place, test, chosen, otherwise);
    keep(reader, made)
}

// Reads a typeswitch behind its word, which stood at the place.
#[cycle(parsing)]
fn typeswitch(reader: &mut Reader<'_>, source: &Source<'_>, levels: u8, place: Place) -> Expr
    ensures { (v : Made) → place ≡ place_in source.now (left_of reader.old + name_length v) → Ran (tree result) reader.old reader.new (read_in source.now levels (typeswitch (place_in source.now) levels v)) }
{
    reader.parenthesis();
    reader.gap();
    let operand = expression(reader, source, levels);
    lexeme(reader, WordSet::Only(Word::Close));
    let list = cases(reader, source, levels);
    let default = default_head(reader, source);
    let otherwise = single(reader, source, levels);
    let made = trees::typeswitch(source.alloc(), place, operand, list, default, otherwise);
    keep(reader, made)
}

// Reads the cases of a typeswitch.
#[cycle(parsing)]
fn cases(reader: &mut Reader<'_>, source: &Source<'_>, levels: u8) -> Vec<Case>
    ensures { Ran (items_before case_made result.items nothing) reader.old reader.new (read_in source.now levels (cases (place_in source.now) levels)) }
{
    let first = case(reader, source, levels);
    let begun = with_case(reader, Vec::new(source.alloc()), first);
    more_cases(reader, source, levels, begun)
}

// Reads further cases.
#[cycle(parsing)]
fn more_cases(
    reader: &mut Reader<'_>,
    source: &Source<'_>,
    levels: u8,
    cases: Vec<Case>,
) -> Vec<Case>
    ensures { Added cases.items result.items (λ others. Ran (items_before case_made others nothing) reader.old reader.new (read_in source.now levels (more_cases (place_in source.now) levels 63))) }
{
    let mut list = cases;
    for _ in 0..CHAIN_MEMBERS - 1 {
        if !reader.looks_at(WordSet::Only(Word::Case)) {
            return list;
        }
        let next = case(reader, source, levels);
        list = with_case(reader, list, next);
    }
    last_case(reader);
    list
}

// Reads a case.
#[cycle(parsing)]
fn case(reader: &mut Reader<'_>, source: &Source<'_>, levels: u8) -> Case
    ensures { Ran (case_made result) reader.old reader.new (read_in source.now levels (case (place_in source.now) levels)) }
{
    let head = case_head(reader, source);
    let body = single(reader, source, levels);
    Case { head, body }
}
