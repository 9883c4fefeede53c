// Steps, their predicates, and paths.

ghost use Rattle.std.specs.Prelude.{◌≡◌, ◌+◌, ℕ, None};
ghost use Rattle.gx_ast.specs.SyntaxView.{trees_of};
ghost use Rattle.gx_grammar.specs.Value.{node, nothing};
ghost use Rattle.gx_grammar.specs.Ran.{Ran, Standing, left_of};
ghost use Rattle.gx_parse_grammar.specs.Grammar.{Phrase, after_axis, after_name, arguments, arguments_in, behind_any_name, constructed, filtered_step, more_arguments, more_predicates, other_step, parenthesised_step, path_from, place_in, predicate, step, step_of, test_or_literal};
ghost use Rattle.gx_parse_tokens.specs.Names.{name_made};
ghost use Rattle.gx_parse_grammar.specs.Computed.{computed_named};
ghost use Rattle.gx_parse_grammar.specs.NodeTests.{axis_word};
ghost use Rattle.gx_parse_grammar.specs.Nodes.{Arguments, name_length, tree};
ghost use Rattle.gx_parse_parts.specs.Parsing.{Listed, Passes, predicates_before};
ghost use Rattle.gx_parse_tokens.specs.Reading.{Added};
ghost use Rattle.gx_parse_tokens.specs.Reading.{read_in};

use crate::computed::{computed_constructor, named_constructor};
use crate::direct::direct_step;
use crate::operators::{expression, further};
use crate::singles::single;
use gx_ast::expression::{Expr, ExprNode};
use gx_base::place::Place;
use gx_parse_constructors::strings::literal;
use gx_parse_grammar::word::{Barrier, Word, WordSet};
use gx_parse_parts::members::Members;
use gx_parse_parts::parts::{dots, keep, lexeme, variable};
use gx_parse_parts::trees;
use gx_parse_tokens::kind_words::{axis_word, kind_word};
use gx_parse_tokens::names::ReadName;
use gx_parse_tokens::reader::Reader;
use gx_parse_tokens::source::Source;
use gx_parse_types::node_tests::{
    any_step, attribute_step, axis_test, kind_content, wildcard_step,
};

// So many predicates may stand behind a step.
const PREDICATES: u8 = 64;

/// Reads a path behind its first step, whose predicates were not read.
#[cycle(parsing)]
pub fn path(reader: &mut Reader<'_>, source: &Source<'_>, levels: u8, first: Expr) -> Expr
    ensures { (before : Phrase) (a : Standing) → Ran (tree first) a reader.old (read_in source.now levels before) → Ran (tree result) a reader.new (read_in source.now levels (path_from (place_in source.now) levels before)) }
{
    let step = filtered(reader, source, levels, first);
    further(reader, source, levels, Members::Steps, step)
}

/// Reads the predicates of a step behind it.
#[cycle(parsing)]
pub fn filtered(reader: &mut Reader<'_>, source: &Source<'_>, levels: u8, first: Expr) -> Expr
    ensures { (before : Phrase) (a : Standing) → Ran (tree first) a reader.old (read_in source.now levels before) → Ran (tree result) a reader.new (read_in source.now levels (filtered_step (place_in source.now) levels before)) }
{
    let bracket = source.place(reader.left());
    let list = more_predicates(reader, source, levels, Vec::new(source.alloc()), PREDICATES);
    let made = trees::filtered(source.alloc(), first, bracket, list);
    keep(reader, made)
}

// Reads so many predicates, behind those that were read.
#[cycle(parsing)]
fn more_predicates(
    reader: &mut Reader<'_>,
    source: &Source<'_>,
    levels: u8,
    list: Vec<Expr>,
    count: u8,
) -> Vec<Expr>
    ensures { Added list.items result.items (λ others. Ran (predicates_before others nothing) reader.old reader.new (read_in source.now levels (more_predicates (place_in source.now) levels count))) }
{
    let mut list = list;
    for _ in 0..count {
        if !reader.looks_at(WordSet::Only(Word::OpenBracket)) {
            return list;
        }
        let next = predicate(reader, source, levels);
        if list.push(next).is_err() {
            reader.lose();
            return list;
        }
    }
    if reader.looks_barred(Barrier::Predicate) {
        reader.barrier(Barrier::Predicate);
    }
    list
}

// Reads a predicate.
#[cycle(parsing)]
fn predicate(reader: &mut Reader<'_>, source: &Source<'_>, levels: u8) -> Expr
    ensures { Ran (tree result) reader.old reader.new (read_in source.now levels (predicate (place_in source.now) levels)) }
{
    lexeme(reader, WordSet::Only(Word::OpenBracket));
    let inner = expression(reader, source, levels);
    lexeme(reader, WordSet::Only(Word::CloseBracket));
    inner
}

/// Reads a step.
#[cycle(parsing)]
pub fn step(reader: &mut Reader<'_>, source: &Source<'_>, levels: u8) -> Expr
    ensures { Ran (tree result) reader.old reader.new (read_in source.now levels (step (place_in source.now) levels)) }
{
    if !reader.starts_name() {
        return other_step(reader, source, levels);
    }
    let place = source.place(reader.left());
    let Some(name) = reader.name(source.alloc()) else {
        return trees::missing();
    };
    if reader.local_wildcard(name.has_prefix()) {
        return any_step(reader, source, place, name);
    }
    named_step(reader, source, levels, place, name)
}

/// Reads a step that does not begin with a name.
#[cycle(parsing)]
pub fn other_step(reader: &mut Reader<'_>, source: &Source<'_>, levels: u8) -> Expr
    ensures { Ran (tree result) reader.old reader.new (read_in source.now levels (other_step (place_in source.now) levels)) }
{
    if reader.starts_with('$') {
        return variable(reader, source);
    }
    if reader.starts_with('(') {
        return parenthesised(reader, source, levels);
    }
    if reader.starts_with('<') {
        return direct_step(reader, source, levels);
    }
    if reader.looks_at(WordSet::Dots) {
        return dots(reader, source);
    }
    test_or_literal(reader, source)
}

/// Reads what stands behind the name of a step, which stood at the place.
#[cycle(parsing)]
pub fn named_step(
    reader: &mut Reader<'_>,
    source: &Source<'_>,
    levels: u8,
    place: Place,
    name: ReadName,
) -> Expr
    requires { place ≡ place_in source.now (left_of reader.now + name_length (name_made name)) }
    ensures { Ran (tree result) reader.old reader.new (read_in source.now levels (behind_any_name (place_in source.now) levels (name_made name))) }
{
    reader.gap();
    let Some(word) = name.computed() else {
        return node_step(reader, source, levels, place, name);
    };
    if !reader.starts_with('{') {
        return after_name(reader, source, levels, place, name);
    }
    computed_constructor(reader, source, levels, place, word)
}

// Reads what stands behind the name of a step and its gap, where the name is neither `document` nor `text`. The name stood at the
// place.
#[cycle(parsing)]
fn node_step(
    reader: &mut Reader<'_>,
    source: &Source<'_>,
    levels: u8,
    place: Place,
    name: ReadName,
) -> Expr
    requires { computed_named (name_made name) ≡ None }
    ensures { (whole : Phrase) (a : Standing) → place ≡ place_in source.now (left_of a + name_length (name_made name)) → Passes reader.old a (read_in source.now levels (constructed (place_in source.now) levels (name_made name))) (read_in source.now levels whole) → Ran (tree result) a reader.new (read_in source.now levels (step_of (place_in source.now) (name_made name) whole)) }
{
    let Some(word) = name.named_node() else {
        return plain_step(reader, source, levels, place, name);
    };
    if reader.looks_at_constructor() {
        return named_constructor(reader, source, levels, place, word);
    }
    reader.no_constructor();
    plain_step(reader, source, levels, place, name)
}

// Reads what stands behind the name of a step and its gap, where no constructor does. The name stood at the place.
#[cycle(parsing)]
fn plain_step(
    reader: &mut Reader<'_>,
    source: &Source<'_>,
    levels: u8,
    place: Place,
    name: ReadName,
) -> Expr
    ensures { (whole : Phrase) (a : Standing) → place ≡ place_in source.now (left_of a + name_length (name_made name)) → Passes reader.old a (read_in source.now levels (after_axis (place_in source.now) levels (axis_word (name_made name)) (name_made name))) (read_in source.now levels whole) → Ran (tree result) a reader.new (read_in source.now levels (step_of (place_in source.now) (name_made name) whole)) }
{
    let Some(axis) = axis_word(&name) else {
        return after_name(reader, source, levels, place, name);
    };
    if !reader.looks_at(WordSet::Only(Word::Colons)) {
        return after_name(reader, source, levels, place, name);
    }
    let Some(test) = axis_test(reader, source) else {
        return trees::missing();
    };
    trees::step(place, Some(axis), test)
}

// Reads what stands behind the name of a step and its gap, where no `::` does. The name stood at the place.
#[cycle(parsing)]
fn after_name(
    reader: &mut Reader<'_>,
    source: &Source<'_>,
    levels: u8,
    place: Place,
    name: ReadName,
) -> Expr
    ensures { (whole : Phrase) (a : Standing) → place ≡ place_in source.now (left_of a + name_length (name_made name)) → Passes reader.old a (read_in source.now levels (after_name (place_in source.now) levels (name_made name))) (read_in source.now levels whole) → Ran (tree result) a reader.new (read_in source.now levels (step_of (place_in source.now) (name_made name) whole)) }
{
    if name.is_reserved() {
        let kind = kind_word(&name);
        let Some(content) = kind_content(reader, source, kind) else {
            return trees::missing();
        };
        let made = trees::tested(source, place, kind, name, content);
        return keep(reader, made);
    }
    if !reader.starts_with('(') {
        let made = trees::named(source, place, name);
        return keep(reader, made);
    }
    let arguments = arguments(reader, source, levels);
    let made = trees::called(source, place, name, arguments);
    keep(reader, made)
}

// Reads the arguments of a call.
#[cycle(parsing)]
fn arguments(reader: &mut Reader<'_>, source: &Source<'_>, levels: u8) -> Vec<Expr>
    ensures { Ran (node (Arguments (trees_of result.items))) reader.old reader.new (read_in source.now levels (arguments (place_in source.now) levels)) }
{
    lexeme(reader, WordSet::Only(Word::Open));
    arguments_in(reader, source, levels)
}

/// Reads the arguments of a call behind its `(`.
#[cycle(parsing)]
pub fn arguments_in(reader: &mut Reader<'_>, source: &Source<'_>, levels: u8) -> Vec<Expr>
    ensures { Ran (node (Arguments (trees_of result.items))) reader.old reader.new (read_in source.now levels (arguments_in (place_in source.now) levels)) }
{
    let mut list = Vec::new(source.alloc());
    if reader.starts_with(')') {
        lexeme(reader, WordSet::Only(Word::Close));
        return list;
    }
    let first = single(reader, source, levels);
    if list.push(first).is_err() {
        reader.lose();
        return list;
    }
    let list = more_arguments(reader, source, levels, list);
    lexeme(reader, WordSet::Only(Word::Close));
    list
}

// Reads further arguments, each behind a comma.
#[cycle(parsing)]
fn more_arguments(
    reader: &mut Reader<'_>,
    source: &Source<'_>,
    levels: u8,
    list: Vec<Expr>,
) -> Vec<Expr>
    ensures { Added list.items result.items (λ others. Listed others reader.old reader.new (read_in source.now levels (more_arguments (place_in source.now) levels))) }
{
    let mut list = list;
    let mut left = reader.left();
    while reader.looks_at(WordSet::Only(Word::Comma)) {
        lexeme(reader, WordSet::Only(Word::Comma));
        let next = single(reader, source, levels);
        if list.push(next).is_err() {
            reader.lose();
            return list;
        }
        if left == 0 {
            return list;
        }
        left -= 1;
    }
    list
}

// Reads a step that begins with `@` or `*`, or a literal.
fn test_or_literal(reader: &mut Reader<'_>, source: &Source<'_>) -> Expr
    ensures { (n : ℕ) → Ran (tree result) reader.old reader.new (read_in source.now n (test_or_literal (place_in source.now))) }
{
    if reader.starts_with('@') {
        return attribute_step(reader, source);
    }
    if reader.starts_with('*') {
        return wildcard_step(reader, source);
    }
    literal(reader, source)
}

// Reads what stands in parentheses.
#[cycle(parsing)]
fn parenthesised(reader: &mut Reader<'_>, source: &Source<'_>, levels: u8) -> Expr
    ensures { Ran (tree result) reader.old reader.new (read_in source.now levels (parenthesised_step (place_in source.now) levels)) }
{
    let place = source.place(reader.left());
    lexeme(reader, WordSet::Only(Word::Open));
    if reader.starts_with(')') {
        lexeme(reader, WordSet::Only(Word::Close));
        let node = ExprNode::Empty;
        return Expr { place, node };
    }
    let inner = expression(reader, source, levels);
    lexeme(reader, WordSet::Only(Word::Close));
    let made = trees::parenthesised(source.alloc(), place, inner);
    keep(reader, made)
}
