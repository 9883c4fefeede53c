// The operators of expressions.

ghost use Rattle.gx_grammar.specs.Ran.{Ran, Standing};
ghost use Rattle.gx_parse_grammar.specs.Grammar.{Phrase, expression, ladder, other_operand, place_in, signed_path};
ghost use Rattle.gx_parse_grammar.specs.Nodes.{tree};
ghost use Rattle.gx_parse_parts.specs.Parsing.{chain_of, member_of};
ghost use Rattle.gx_parse_tokens.specs.Reading.{read_in};

use crate::paths::{filtered, other_step, path, step};
use crate::singles::single;
use gx_ast::expression::Expr;
use gx_parse_grammar::word::WordSet;
use gx_parse_parts::members::Members;
use gx_parse_parts::parts::{infix_operator, joined, keep, last, more_signs, operator, with_signs};
use gx_parse_parts::trees;
use gx_parse_tokens::reader::Reader;
use gx_parse_tokens::source::Source;
use gx_parse_types::casts::casts;

/// Reads an expression. So many singles may stand one inside another in it.
#[cycle(parsing)]
pub fn expression(reader: &mut Reader<'_>, source: &Source<'_>, levels: u8) -> Expr
    ensures { Ran (tree result) reader.old reader.new (read_in source.now levels (expression (place_in source.now) levels)) }
{
    let first = single(reader, source, levels);
    further(reader, source, levels, Members::Singles, first)
}

/// Reads the members behind the first of a chain.
#[cycle(parsing)]
pub fn further(
    reader: &mut Reader<'_>,
    source: &Source<'_>,
    levels: u8,
    members: Members,
    first: Expr,
) -> Expr
    ensures { (before : Phrase) (a : Standing) → Ran (tree first) a reader.old (read_in source.now levels before) → Ran (tree result) a reader.new (read_in source.now levels (chain_of (place_in source.now) levels members before)) }
{
    let set = members.set();
    let mut tree = first;
    for _ in 0..members.most() {
        if !reader.looks_at(set) {
            return tree;
        }
        let (place, word) = infix_operator(reader, source, set);
        let next = member(reader, source, levels, members);
        let made = joined(source, members, place, word, tree, next);
        tree = keep(reader, made);
    }
    last(reader, source, members);
    tree
}

// Reads a member of a chain.
#[cycle(parsing)]
fn member(reader: &mut Reader<'_>, source: &Source<'_>, levels: u8, members: Members) -> Expr
    ensures { Ran (tree result) reader.old reader.new (read_in source.now levels (member_of (place_in source.now) levels members)) }
{
    match members {
        Members::Singles => single(reader, source, levels),
        Members::Operands(tighter) => {
            let first = signed_path(reader, source, levels);
            ladder(reader, source, levels, tighter, first)
        }
        Members::Steps => {
            let first = step(reader, source, levels);
            filtered(reader, source, levels, first)
        }
    }
}

/// Reads the operators of so many levels behind an operand.
#[cycle(parsing)]
pub fn ladder(
    reader: &mut Reader<'_>,
    source: &Source<'_>,
    levels: u8,
    tighter: u8,
    first: Expr,
) -> Expr
    ensures { (before : Phrase) (a : Standing) → Ran (tree first) a reader.old (read_in source.now levels before) → Ran (tree result) a reader.new (read_in source.now levels (ladder (place_in source.now) tighter levels before)) }
{
    let mut tree = casts(reader, source, first);
    for level in 0..tighter {
        tree = further(reader, source, levels, Members::Operands(level), tree);
    }
    tree
}

// Reads a path with its signs.
#[cycle(parsing)]
fn signed_path(reader: &mut Reader<'_>, source: &Source<'_>, levels: u8) -> Expr
    ensures { Ran (tree result) reader.old reader.new (read_in source.now levels (signed_path (place_in source.now) levels 64)) }
{
    let signs = more_signs(reader, source, Vec::new(source.alloc()), 64);
    let first = step(reader, source, levels);
    let path = path(reader, source, levels, first);
    with_signs(reader, source, signs, path)
}

/// Reads a path that does not begin with a name.
#[cycle(parsing)]
pub fn other_operand(reader: &mut Reader<'_>, source: &Source<'_>, levels: u8) -> Expr
    ensures { Ran (tree result) reader.old reader.new (read_in source.now levels (other_operand (place_in source.now) levels)) }
{
    if reader.looks_at(WordSet::Signs) {
        let (place, word) = operator(reader, source, WordSet::Signs);
        let signs = more_signs(reader, source, Vec::new(source.alloc()), 63);
        let first = step(reader, source, levels);
        let path = path(reader, source, levels, first);
        let operand = with_signs(reader, source, signs, path);
        let made = trees::signed(source.alloc(), place, word, operand);
        keep(reader, made)
    } else {
        let first = other_step(reader, source, levels);
        path(reader, source, levels, first)
    }
}
