// The operators with a type on their right.

ghost use Rattle.std.specs.Prelude.{◌≡◌, ℕ, IfOk};
ghost use Rattle.gx_ast.specs.SyntaxTree.{at};
ghost use Rattle.gx_grammar.specs.Ran.{Ran, Standing};
ghost use Rattle.gx_parse_grammar.specs.Casts.{cast_form, cast_test, casts, test_form, type_test};
ghost use Rattle.gx_parse_grammar.specs.Grammar.{Phrase, place_in};
ghost use Rattle.gx_parse_grammar.specs.Nodes.{tree};
ghost use Rattle.gx_parse_tokens.specs.Reading.{read_in};

use crate::types::{sequence_type, single_type};
use gx_ast::expression::{Expr, ExprNode};
use gx_ast::sequence_type::{SequenceType, SingleType};
use gx_base::place::Place;
use gx_parse_grammar::casts::{CastTest, TypeTest};
use gx_parse_grammar::word::{Word, WordSet};
use gx_parse_parts::parts::{keep, lexeme, operator};
use gx_parse_tokens::reader::Reader;
use gx_parse_tokens::source::Source;
use std::alloc::{AllocError, Global};

// The tree of an operator with a sequence type.
fn tested(
    alloc: Global,
    place: Place,
    test: TypeTest,
    operand: Expr,
    kind: SequenceType,
) -> Result<Expr, AllocError>
    ensures { IfOk result (λ e. e ≡ at place (test_form test operand kind)) }
{
    let operand = Box::new(alloc, operand)?;
    let kind = Box::new(alloc, kind)?;
    let node = match test {
        TypeTest::InstanceOf => ExprNode::InstanceOf(operand, kind),
        TypeTest::TreatAs => ExprNode::TreatAs(operand, kind),
    };
    Ok(Expr { place, node })
}

// The tree of an operator with the type of a cast.
fn cast(
    alloc: Global,
    place: Place,
    test: CastTest,
    operand: Expr,
    kind: SingleType,
) -> Result<Expr, AllocError>
    ensures { IfOk result (λ e. e ≡ at place (cast_form test operand kind)) }
{
    let operand = Box::new(alloc, operand)?;
    let kind = Box::new(alloc, kind)?;
    let node = match test {
        CastTest::CastableAs => ExprNode::CastableAs(operand, kind),
        CastTest::CastAs => ExprNode::CastAs(operand, kind),
    };
    Ok(Expr { place, node })
}

// Reads the operator behind its operand, if it stands there.
fn type_test(reader: &mut Reader<'_>, source: &Source<'_>, test: TypeTest, operand: Expr) -> Expr
    ensures { (n : ℕ) (before : Phrase) (a : Standing) → Ran (tree operand) a reader.old (read_in source.now n before) → Ran (tree result) a reader.new (read_in source.now n (type_test (place_in source.now) test before)) }
{
    let set = WordSet::Only(test.word());
    if !reader.looks_at(set) {
        return operand;
    }
    let (place, _word) = operator(reader, source, set);
    lexeme(reader, WordSet::Only(test.second()));
    let Some(kind) = sequence_type(reader, source) else {
        return operand;
    };
    let made = tested(source.alloc(), place, test, operand, kind);
    keep(reader, made)
}

// Reads the operator behind its operand, if it stands there.
fn cast_test(reader: &mut Reader<'_>, source: &Source<'_>, test: CastTest, operand: Expr) -> Expr
    ensures { (n : ℕ) (before : Phrase) (a : Standing) → Ran (tree operand) a reader.old (read_in source.now n before) → Ran (tree result) a reader.new (read_in source.now n (cast_test (place_in source.now) test before)) }
{
    let set = WordSet::Only(test.word());
    if !reader.looks_at(set) {
        return operand;
    }
    let (place, _word) = operator(reader, source, set);
    lexeme(reader, WordSet::Only(Word::As));
    let Some(kind) = single_type(reader, source) else {
        return operand;
    };
    let made = cast(source.alloc(), place, test, operand, kind);
    keep(reader, made)
}

/// Reads the operators with a type behind an operand, each at most once.
pub fn casts(reader: &mut Reader<'_>, source: &Source<'_>, operand: Expr) -> Expr
    ensures { (n : ℕ) (before : Phrase) (a : Standing) → Ran (tree operand) a reader.old (read_in source.now n before) → Ran (tree result) a reader.new (read_in source.now n (casts (place_in source.now) before)) }
{
    let cast = cast_test(reader, source, CastTest::CastAs, operand);
    let castable = cast_test(reader, source, CastTest::CastableAs, cast);
    let treated = type_test(reader, source, TypeTest::TreatAs, castable);
    type_test(reader, source, TypeTest::InstanceOf, treated)
}
