// FLWOR expressions and quantified ones.

ghost use Rattle.std.specs.Prelude.{◌≡◌, ◌+◌, ◌∷◌, []};
ghost use Rattle.gx_grammar.specs.Value.{nothing};
ghost use Rattle.gx_grammar.specs.Grammar.{◌&◌, rule};
ghost use Rattle.gx_grammar.specs.Ran.{Looked, Ran, Standing, left_of};
ghost use Rattle.gx_parse_grammar.specs.Binding.{clause, flwor, last_clause, more_bindings, more_clauses, quantified};
ghost use Rattle.gx_parse_grammar.specs.Grammar.{Phrase, at_tokens, place_in, single, word_of};
ghost use Rattle.gx_parse_grammar.specs.Keys.{key, key_made, more_keys, order_clause, order_clause_made, ordered};
ghost use Rattle.gx_parse_parts.specs.Lists.{OneMore, binding_made, clause_made, head_made, items_before};
ghost use Rattle.gx_parse_grammar.specs.Nodes.{Made, name_length, tree};
ghost use Rattle.gx_parse_tokens.specs.Reading.{Added};
ghost use Rattle.gx_parse_tokens.specs.Reading.{read_in};
ghost use Rattle.gx_parse_grammar.specs.Types.{Gave};
ghost use Rattle.gx_parse_grammar.specs.declared.word.Word.TheVariants as word;

use crate::singles::single;
use gx_ast::expression::{Binding, Clause, Expr, Key};
use gx_ast::sequence_type::BoundVariable;
use gx_base::limits::CHAIN_MEMBERS;
use gx_base::place::Place;
use gx_parse_grammar::word::{Binder, ClauseWord, Word, WordSet};
use gx_parse_parts::parts::{keep, keyword, lexeme};
use gx_parse_parts::trees;
use gx_parse_tokens::reader::Reader;
use gx_parse_tokens::source::Source;
use gx_parse_types::binding::{
    clause_of, first_head, last_binding, next_head, with_binding, with_clause,
};
use gx_parse_types::bound::key_order;
use gx_parse_types::keys::{last_key, with_key};

/// Reads a quantified expression behind its first word, which stood at the place.
#[cycle(parsing)]
pub fn quantified(
    reader: &mut Reader<'_>,
    source: &Source<'_>,
    levels: u8,
    place: Place,
    every: bool,
) -> Expr
    ensures { (v : Made) → place ≡ place_in source.now (left_of reader.old + name_length v) → Ran (tree result) reader.old reader.new (read_in source.now levels (quantified (place_in source.now) levels every v)) }
{
    reader.dollar();
    let head = first_head(reader, source, levels, Binder::Quantifier);
    let list = bindings(reader, source, levels, Binder::Quantifier, head);
    keyword(reader, Word::Satisfies);
    let condition = single(reader, source, levels);
    let made = trees::quantified(source.alloc(), place, every, list, condition);
    keep(reader, made)
}

/// Reads a FLWOR behind its first word, which stood at the place.
#[cycle(parsing)]
pub fn flwor(
    reader: &mut Reader<'_>,
    source: &Source<'_>,
    levels: u8,
    place: Place,
    word: ClauseWord,
) -> Expr
    ensures { (v : Made) → place ≡ place_in source.now (left_of reader.old + name_length v) → Ran (tree result) reader.old reader.new (read_in source.now levels (flwor (place_in source.now) levels word v)) }
{
    reader.dollar();
    let binder = word.binder();
    let head = first_head(reader, source, levels, binder);
    let list = bindings(reader, source, levels, binder, head);
    let first = clause_of(word, place, list);
    let begun = with_clause(reader, Vec::new(source.alloc()), first);
    let clauses = more_clauses(reader, source, levels, begun);
    let order = source.place(reader.left());
    let stable = reader.looks_at(WordSet::Only(Word::Stable));
    let keys = order_clause(reader, source, levels, stable);
    keyword(reader, Word::Return);
    let returned = single(reader, source, levels);
    let made = trees::flwor(
        source.alloc(),
        place,
        clauses,
        order,
        stable,
        keys,
        returned,
    );
    keep(reader, made)
}

// Reads how a FLWOR is ordered, if that stands there, where `stable` stands first or not.
#[cycle(parsing)]
fn order_clause(reader: &mut Reader<'_>, source: &Source<'_>, levels: u8, stable: bool) -> Vec<Key>
    ensures { (a : Standing) → Looked stable a reader.old (at_tokens (word_of word.Stable ∷ [])) → Ran (order_clause_made stable (items_before key_made result.items nothing)) a reader.new (read_in source.now levels (order_clause (place_in source.now) levels)) }
{
    if stable {
        lexeme(reader, WordSet::Only(Word::Stable));
        return ordered(reader, source, levels);
    }
    if reader.looks_at(WordSet::Only(Word::Order)) {
        return ordered(reader, source, levels);
    }
    Vec::new(source.alloc())
}

// Reads `order by` and its sort keys.
#[cycle(parsing)]
fn ordered(reader: &mut Reader<'_>, source: &Source<'_>, levels: u8) -> Vec<Key>
    ensures { Ran (items_before key_made result.items nothing) reader.old reader.new (read_in source.now levels (ordered (place_in source.now) levels)) }
{
    lexeme(reader, WordSet::Only(Word::Order));
    keyword(reader, Word::By);
    let first = key(reader, source, levels);
    let begun = with_key(reader, Vec::new(source.alloc()), first);
    more_keys(reader, source, levels, begun)
}

// Reads further sort keys, each behind a comma.
#[cycle(parsing)]
fn more_keys(reader: &mut Reader<'_>, source: &Source<'_>, levels: u8, keys: Vec<Key>) -> Vec<Key>
    ensures { Added keys.items result.items (λ others. Ran (items_before key_made others nothing) reader.old reader.new (read_in source.now levels (more_keys (place_in source.now) levels 63))) }
{
    let mut list = keys;
    for _ in 0..CHAIN_MEMBERS - 1 {
        if !reader.looks_at(WordSet::Only(Word::Comma)) {
            return list;
        }
        lexeme(reader, WordSet::Only(Word::Comma));
        let next = key(reader, source, levels);
        list = with_key(reader, list, next);
    }
    last_key(reader);
    list
}

// Reads a sort key.
#[cycle(parsing)]
fn key(reader: &mut Reader<'_>, source: &Source<'_>, levels: u8) -> Key
    ensures { Ran (key_made result) reader.old reader.new (read_in source.now levels (key (place_in source.now) levels)) }
{
    let value = single(reader, source, levels);
    let order = key_order(reader, source);
    Key { value, order }
}

// Reads further clauses of `for` and `let`, and then one of `where`, if it stands there.
#[cycle(parsing)]
fn more_clauses(
    reader: &mut Reader<'_>,
    source: &Source<'_>,
    levels: u8,
    clauses: Vec<Clause>,
) -> Vec<Clause>
    ensures { Added clauses.items result.items (λ others. Ran (items_before clause_made others nothing) reader.old reader.new (read_in source.now levels (more_clauses (place_in source.now) levels 63))) }
{
    let mut list = clauses;
    for _ in 0..CHAIN_MEMBERS - 1 {
        if !reader.looks_at(WordSet::Binders) {
            return last_clause(reader, source, levels, list);
        }
        let next = clause(reader, source, levels);
        list = with_clause(reader, list, next);
    }
    if reader.looks_at_barred(WordSet::Binders) {
        reader.barred(WordSet::Binders);
        return list;
    }
    last_clause(reader, source, levels, list)
}

// Reads a clause of `for` or `let`.
#[cycle(parsing)]
fn clause(reader: &mut Reader<'_>, source: &Source<'_>, levels: u8) -> Clause
    ensures { Ran (clause_made result) reader.old reader.new (read_in source.now levels (clause (place_in source.now) levels)) }
{
    let place = source.place(reader.left());
    let word = ClauseWord::of(reader.word(WordSet::Binders));
    let binder = word.binder();
    reader.gap();
    let head = next_head(reader, source, levels, binder);
    let list = bindings(reader, source, levels, binder, head);
    clause_of(word, place, list)
}

// Reads a clause of `where`, if it stands there.
#[cycle(parsing)]
fn last_clause(
    reader: &mut Reader<'_>,
    source: &Source<'_>,
    levels: u8,
    clauses: Vec<Clause>,
) -> Vec<Clause>
    ensures { Added clauses.items result.items (λ others. Ran (items_before clause_made others nothing) reader.old reader.new (read_in source.now levels (last_clause (place_in source.now) levels))) }
{
    if !reader.looks_at(WordSet::Only(Word::Where)) {
        return clauses;
    }
    let place = source.place(reader.left());
    keyword(reader, Word::Where);
    let condition = single(reader, source, levels);
    with_clause(reader, clauses, Clause::Where(place, condition))
}

// Reads what the variables of a clause are bound to, behind the head of the first.
#[cycle(parsing)]
fn bindings(
    reader: &mut Reader<'_>,
    source: &Source<'_>,
    levels: u8,
    binder: Binder,
    head: Option<BoundVariable>,
) -> Vec<Binding>
    ensures { (before : Phrase) (a : Standing) → Gave head_made head a reader.old (read_in source.now levels before) → Ran (items_before binding_made result.items nothing) a reader.new (read_in source.now levels ((before & rule (single levels)) & more_bindings (place_in source.now) levels binder 63)) }
{
    let list = Vec::new(source.alloc());
    let begun = binding(reader, source, levels, head, list);
    more_bindings(reader, source, levels, binder, begun)
}

// Reads further bindings, each behind a comma.
#[cycle(parsing)]
fn more_bindings(
    reader: &mut Reader<'_>,
    source: &Source<'_>,
    levels: u8,
    binder: Binder,
    bindings: Vec<Binding>,
) -> Vec<Binding>
    ensures { Added bindings.items result.items (λ others. Ran (items_before binding_made others nothing) reader.old reader.new (read_in source.now levels (more_bindings (place_in source.now) levels binder 63))) }
{
    let mut list = bindings;
    for _ in 0..CHAIN_MEMBERS - 1 {
        if !reader.looks_at(WordSet::Only(Word::Comma)) {
            return list;
        }
        lexeme(reader, WordSet::Only(Word::Comma));
        let head = next_head(reader, source, levels, binder);
        list = binding(reader, source, levels, head, list);
    }
    last_binding(reader);
    list
}

// Reads what a variable is bound to, behind its head, and adds it.
#[cycle(parsing)]
fn binding(
    reader: &mut Reader<'_>,
    source: &Source<'_>,
    levels: u8,
    head: Option<BoundVariable>,
    bindings: Vec<Binding>,
) -> Vec<Binding>
    ensures { (before : Phrase) (a : Standing) → Gave head_made head a reader.old (read_in source.now levels before) → OneMore binding_made bindings.items result.items a reader.new (read_in source.now levels (before & rule (single levels))) }
{
    let Some(bound) = head else {
        return bindings;
    };
    let value = single(reader, source, levels);
    with_binding(reader, bindings, Binding { bound, value })
}
