// The reader of the parts of FLWOR expressions and quantified ones that hold no expressions.

ghost use Rattle.std.specs.Prelude.{◌≡◌, ◌&&◌, ℕ, List, zero};
ghost use Rattle.gx_ast.specs.SyntaxView.{bindings_of};
ghost use Rattle.gx_grammar.specs.Value.{node, nothing};
ghost use Rattle.gx_grammar.specs.Ran.{Ran, Standing};
ghost use Rattle.gx_parse_grammar.specs.Binding.{has_levels, bound_to, first_bound, head, more_bindings, position_of};
ghost use Rattle.gx_parse_grammar.specs.Bound.{bound, bound_made, bound_type, kind_made, position, position_made};
ghost use Rattle.gx_parse_grammar.specs.Grammar.{Phrase, place_in};
ghost use Rattle.gx_parse_parts.specs.Lists.{Grown, clause_made, head_made};
ghost use Rattle.gx_parse_grammar.specs.Nodes.{BindingClause};
ghost use Rattle.gx_parse_tokens.specs.Reading.{read_in};
ghost use Rattle.gx_parse_grammar.specs.Types.{Gave};
ghost use Rattle.gx_parse_grammar.specs.Words.{is_keyword};
ghost use Rattle.gx_parse_grammar.specs.declared.word.Binder.{Binder as BinderOf};

use crate::bound::{bound, bound_type, position};
use crate::types::written_name;
use gx_ast::expression::{Binding, Clause};
use gx_ast::name::Variable;
use gx_ast::sequence_type::{BoundVariable, SequenceType};
use gx_base::place::Place;
use gx_parse_grammar::word::{Binder, ClauseWord, Word, WordSet};
use gx_parse_parts::parts::lexeme;
use gx_parse_tokens::reader::Reader;
use gx_parse_tokens::source::Source;

// Reads a variable behind its `$`.
fn first_bound(reader: &mut Reader<'_>, source: &Source<'_>) -> Option<Variable>
    ensures { (n : ℕ) → Gave bound_made result reader.old reader.new (read_in source.now n (first_bound (place_in source.now))) }
{
    let place = source.place_before(reader.left());
    reader.gap();
    let Some(name) = written_name(reader, source) else {
        return None;
    };
    Some(Variable { place, name })
}

/// Reads the type of a variable, if one stands there (XQuery 1.0, section 3.8.1).
pub fn kind_of(reader: &mut Reader<'_>, source: &Source<'_>) -> Option<SequenceType>
    ensures { (n : ℕ) → Ran (kind_made result) reader.old reader.new (read_in source.now n (bound_type (place_in source.now))) }
{
    let Some(kind) = bound_type(reader, source) else {
        return None;
    };
    kind
}

// Reads the position of a variable of `for`, if one stands there.
fn for_position(reader: &mut Reader<'_>, source: &Source<'_>) -> Option<Variable>
    ensures { (n : ℕ) → Ran (position_made result) reader.old reader.new (read_in source.now n (position (place_in source.now))) }
{
    let Some(variable) = position(reader, source) else {
        return None;
    };
    variable
}

// Reads the position of a variable, if one stands there.
fn position_of(reader: &mut Reader<'_>, source: &Source<'_>, binder: Binder) -> Option<Variable>
    ensures { (n : ℕ) → Ran (position_made result) reader.old reader.new (read_in source.now n (position_of (place_in source.now) binder)) }
{
    match binder {
        Binder::For => for_position(reader, source),
        Binder::Let => None,
        Binder::Quantifier => None,
    }
}

// Whether the word is a keyword, and an expression may stand behind it, where so many may stand one inside another.
fn leads_single(levels: u8, word: Word) -> bool
    ensures { result ≡ (has_levels levels && is_keyword word) }
{
    levels > 0 && word.is_keyword()
}

// Reads the word in front of what a variable is bound to.
fn bound_to(reader: &mut Reader<'_>, levels: u8, binder: Binder)
    ensures { (text : List ℕ) (n : ℕ) → Ran nothing reader.old reader.new (read_in text n (bound_to (place_in text) levels binder)) }
{
    let word = binder.word();
    reader.word(WordSet::Only(word));
    reader.word_end(leads_single(levels, word));
    reader.gap();
}

// Reads what stands between a variable and what it is bound to.
fn head_behind(
    reader: &mut Reader<'_>,
    source: &Source<'_>,
    levels: u8,
    binder: Binder,
    variable: Option<Variable>,
) -> Option<BoundVariable>
    ensures { (n : ℕ) (before : Phrase) (a : Standing) → Gave bound_made variable a reader.old (read_in source.now n before) → Gave head_made result a reader.new (read_in source.now n (head (place_in source.now) levels binder before)) }
{
    let Some(variable) = variable else {
        return None;
    };
    let kind = kind_of(reader, source);
    let position = position_of(reader, source, binder);
    bound_to(reader, levels, binder);
    Some(BoundVariable {
        variable,
        kind,
        position,
    })
}

/// Reads what stands in front of what the first variable is bound to, behind its `$` (XQuery 1.0, sections 3.8.1 and 3.9).
pub fn first_head(
    reader: &mut Reader<'_>,
    source: &Source<'_>,
    levels: u8,
    binder: Binder,
) -> Option<BoundVariable>
    ensures { (n : ℕ) → Gave head_made result reader.old reader.new (read_in source.now n (head (place_in source.now) levels binder (first_bound (place_in source.now)))) }
{
    let variable = first_bound(reader, source);
    head_behind(reader, source, levels, binder, variable)
}

/// Reads what stands in front of what a variable is bound to (XQuery 1.0, sections 3.8.1 and 3.9).
pub fn next_head(
    reader: &mut Reader<'_>,
    source: &Source<'_>,
    levels: u8,
    binder: Binder,
) -> Option<BoundVariable>
    ensures { (n : ℕ) → Gave head_made result reader.old reader.new (read_in source.now n (head (place_in source.now) levels binder (bound (place_in source.now)))) }
{
    let variable = bound(reader, source);
    head_behind(reader, source, levels, binder, variable)
}

/// Reads a comma behind as many bindings as may stand, if one stands there.
pub fn last_binding(reader: &mut Reader<'_>)
    ensures { (text : List ℕ) (n : ℕ) (b : BinderOf) → Ran nothing reader.old reader.new (read_in text n (more_bindings (place_in text) n b zero)) }
{
    if reader.looks_at(WordSet::Only(Word::Comma)) {
        lexeme(reader, WordSet::Only(Word::Comma));
        reader.barred(WordSet::Only(Word::Dollar));
    }
}

/// A clause that binds variables, at its word.
pub fn clause_of(word: ClauseWord, place: Place, bindings: Vec<Binding>) -> Clause
    ensures { clause_made result ≡ node (BindingClause word place (bindings_of bindings.items)) }
{
    match word {
        ClauseWord::For => Clause::For(place, bindings),
        ClauseWord::Let => Clause::Let(place, bindings),
    }
}

/// The bindings with one more; the same where memory does not suffice.
pub fn with_binding(
    reader: &mut Reader<'_>,
    bindings: Vec<Binding>,
    binding: Binding,
) -> Vec<Binding>
    ensures { Grown bindings.items binding result.items reader.old reader.new }
{
    let mut list = bindings;
    if list.push(binding).is_err() {
        reader.lose();
        return list;
    }
    list
}

/// The clauses with one more; the same where memory does not suffice.
pub fn with_clause(reader: &mut Reader<'_>, clauses: Vec<Clause>, clause: Clause) -> Vec<Clause>
    ensures { Grown clauses.items clause result.items reader.old reader.new }
{
    let mut list = clauses;
    if list.push(clause).is_err() {
        reader.lose();
        return list;
    }
    list
}
