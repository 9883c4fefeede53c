// Single expressions.

ghost use Rattle.std.specs.Prelude.{◌≡◌, ◌+◌, suc};
ghost use Rattle.gx_grammar.specs.Ran.{Ran, left_of};
ghost use Rattle.gx_parse_grammar.specs.Binding.{opened};
ghost use Rattle.gx_parse_grammar.specs.Grammar.{begun, behind_keyword, named_single, place_in, single};
ghost use Rattle.gx_parse_tokens.specs.Names.{name_made};
ghost use Rattle.gx_parse_grammar.specs.Nodes.{Made, name_length, tree};
ghost use Rattle.gx_parse_tokens.specs.Reading.{call, read_in};

use crate::branches::branched;
use crate::flwor::{flwor, quantified};
use crate::operators::{ladder, other_operand};
use crate::paths::{arguments_in, named_step, path};
use gx_ast::expression::Expr;
use gx_base::place::Place;
use gx_parse_grammar::word::{Barrier, Opening};
use gx_parse_parts::parts::keep;
use gx_parse_parts::trees;
use gx_parse_tokens::names::ReadName;
use gx_parse_tokens::reader::Reader;
use gx_parse_tokens::source::Source;
use gx_parse_types::node_tests::any_step;

/// Reads a single, where so many may stand one inside another, itself among them.
#[cycle(parsing)]
pub fn single(reader: &mut Reader<'_>, source: &Source<'_>, levels: u8) -> Expr
    ensures { Ran (tree result) reader.old reader.new (call source.now (suc levels) (single levels)) }
{
    if levels == 0 {
        reader.barrier(Barrier::Single);
        return trees::missing();
    }
    let levels = levels - 1;
    if !reader.starts_name() {
        let first = other_operand(reader, source, levels);
        return ladder(reader, source, levels, 8, first);
    }
    let place = source.place(reader.left());
    let Some(name) = reader.name(source.alloc()) else {
        return trees::missing();
    };
    if reader.local_wildcard(name.has_prefix()) {
        let first = any_step(reader, source, place, name);
        let path = path(reader, source, levels, first);
        return ladder(reader, source, levels, 8, path);
    }
    named_single(reader, source, levels, place, name)
}

// Reads what stands behind the name at the front of a single, which may be that of a clause or a quantifier.
#[cycle(parsing)]
fn named_single(
    reader: &mut Reader<'_>,
    source: &Source<'_>,
    levels: u8,
    place: Place,
    name: ReadName,
) -> Expr
    requires { place ≡ place_in source.now (left_of reader.now + name_length (name_made name)) }
    ensures { Ran (tree result) reader.old reader.new (read_in source.now levels (named_single (place_in source.now) levels (name_made name))) }
{
    let Some(opening) = name.opening() else {
        return begun(reader, source, levels, place, name);
    };
    if reader.looks_at_dollar() {
        return opened(reader, source, levels, place, opening);
    }
    let first = keyword_step(reader, source, levels, place, name);
    let path = path(reader, source, levels, first);
    ladder(reader, source, levels, 8, path)
}

// Reads what stands behind the name of a clause or a quantifier where none begins.
#[cycle(parsing)]
fn keyword_step(
    reader: &mut Reader<'_>,
    source: &Source<'_>,
    levels: u8,
    place: Place,
    name: ReadName,
) -> Expr
    requires { place ≡ place_in source.now (left_of reader.now + name_length (name_made name)) }
    ensures { Ran (tree result) reader.old reader.new (read_in source.now levels (behind_keyword (place_in source.now) levels (name_made name))) }
{
    if !reader.looks_at_parenthesis() {
        reader.neither();
        let made = trees::named(source, place, name);
        return keep(reader, made);
    }
    reader.parenthesis();
    reader.gap();
    let arguments = arguments_in(reader, source, levels);
    let made = trees::called(source, place, name, arguments);
    keep(reader, made)
}

// Reads what a name begins, which stood at the place.
#[cycle(parsing)]
fn opened(
    reader: &mut Reader<'_>,
    source: &Source<'_>,
    levels: u8,
    place: Place,
    opening: Opening,
) -> Expr
    ensures { (v : Made) → place ≡ place_in source.now (left_of reader.old + name_length v) → Ran (tree result) reader.old reader.new (read_in source.now levels (opened (place_in source.now) levels opening v)) }
{
    match opening {
        Opening::Flwor(word) => flwor(reader, source, levels, place, word),
        Opening::Quantified(every) => quantified(reader, source, levels, place, every),
    }
}

// Reads what stands behind the name at the front of a single.
#[cycle(parsing)]
fn begun(
    reader: &mut Reader<'_>,
    source: &Source<'_>,
    levels: u8,
    place: Place,
    name: ReadName,
) -> Expr
    requires { place ≡ place_in source.now (left_of reader.now + name_length (name_made name)) }
    ensures { Ran (tree result) reader.old reader.new (read_in source.now levels (begun (place_in source.now) levels (name_made name))) }
{
    let Some(branching) = name.branching() else {
        let first = named_step(reader, source, levels, place, name);
        let path = path(reader, source, levels, first);
        return ladder(reader, source, levels, 8, path);
    };
    if reader.looks_at_parenthesis() {
        return branched(reader, source, levels, place, branching);
    }
    reader.no_parenthesis();
    let made = trees::named(source, place, name);
    let first = keep(reader, made);
    let path = path(reader, source, levels, first);
    ladder(reader, source, levels, 8, path)
}
