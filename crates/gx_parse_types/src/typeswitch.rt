// The reader of the parts of typeswitches that hold no expressions.

ghost use Rattle.std.specs.Prelude.{ℕ, List, zero};
ghost use Rattle.gx_grammar.specs.Value.{nothing};
ghost use Rattle.gx_grammar.specs.Ran.{Ran};
ghost use Rattle.gx_parse_grammar.specs.Bound.{case_variable, default_variable, position_made};
ghost use Rattle.gx_parse_grammar.specs.Grammar.{place_in};
ghost use Rattle.gx_parse_parts.specs.Lists.{Grown};
ghost use Rattle.gx_parse_tokens.specs.Reading.{read_in};
ghost use Rattle.gx_parse_grammar.specs.Types.{sequence_type, type_made};
ghost use Rattle.gx_parse_grammar.specs.Typeswitch.{case_head, case_head_made, default_head, default_head_made, more_cases};

use crate::bound::{case_variable, default_variable};
use crate::types::sequence_type;
use gx_ast::expression::Case;
use gx_ast::name::Variable;
use gx_ast::sequence_type::{CaseHead, DefaultHead, SequenceType};
use gx_base::place::Place;
use gx_parse_grammar::word::{Word, WordSet};
use gx_parse_parts::parts::{keyword, lexeme};
use gx_parse_tokens::reader::Reader;
use gx_parse_tokens::source::Source;

// Reads the variable of a case, if one stands there.
fn variable_of_case(reader: &mut Reader<'_>, source: &Source<'_>) -> Option<Variable>
    ensures { (n : ℕ) → Ran (position_made result) reader.old reader.new (read_in source.now n (case_variable (place_in source.now))) }
{
    let Some(variable) = case_variable(reader, source) else {
        return None;
    };
    variable
}

// Reads the type of a case.
fn type_of_case(reader: &mut Reader<'_>, source: &Source<'_>) -> SequenceType
    ensures { (n : ℕ) → Ran (type_made result) reader.old reader.new (read_in source.now n (sequence_type (place_in source.now))) }
{
    let Some(kind) = sequence_type(reader, source) else {
        return SequenceType::Empty(Place { line: 1, column: 1 });
    };
    kind
}

/// Reads what stands in front of the expression of a case (XQuery 1.0, section 3.12.2).
pub fn case_head(reader: &mut Reader<'_>, source: &Source<'_>) -> CaseHead
    ensures { (n : ℕ) → Ran (case_head_made result) reader.old reader.new (read_in source.now n (case_head (place_in source.now))) }
{
    let place = source.place(reader.left());
    lexeme(reader, WordSet::Only(Word::Case));
    let variable = variable_of_case(reader, source);
    let kind = type_of_case(reader, source);
    keyword(reader, Word::Return);
    CaseHead {
        place,
        variable,
        kind,
    }
}

// Reads the variable of a default, if one stands there.
fn variable_of_default(reader: &mut Reader<'_>, source: &Source<'_>) -> Option<Variable>
    ensures { (n : ℕ) → Ran (position_made result) reader.old reader.new (read_in source.now n (default_variable (place_in source.now))) }
{
    let Some(variable) = default_variable(reader, source) else {
        return None;
    };
    variable
}

/// Reads what stands in front of the expression of a default (XQuery 1.0, section 3.12.2).
pub fn default_head(reader: &mut Reader<'_>, source: &Source<'_>) -> DefaultHead
    ensures { (n : ℕ) → Ran (default_head_made result) reader.old reader.new (read_in source.now n (default_head (place_in source.now))) }
{
    let place = source.place(reader.left());
    lexeme(reader, WordSet::Only(Word::Default));
    let variable = variable_of_default(reader, source);
    keyword(reader, Word::Return);
    DefaultHead { place, variable }
}

/// Reads a `case` behind as many cases as may stand, if one stands there.
pub fn last_case(reader: &mut Reader<'_>)
    ensures { (text : List ℕ) (n : ℕ) → Ran nothing reader.old reader.new (read_in text n (more_cases (place_in text) n zero)) }
{
    if reader.looks_at_barred(WordSet::Only(Word::Case)) {
        reader.barred(WordSet::Only(Word::Case));
    }
}

/// The cases with one more; the same where memory does not suffice.
pub fn with_case(reader: &mut Reader<'_>, cases: Vec<Case>, case: Case) -> Vec<Case>
    ensures { Grown cases.items case result.items reader.old reader.new }
{
    let mut list = cases;
    if list.push(case).is_err() {
        reader.lose();
        return list;
    }
    list
}
