// Rows of the static rules of operators.

ghost use Rattle.std.specs.Prelude.{◌≡◌, length};
ghost use Rattle.gx_static.specs.Rule.{arity};

use crate::rows::shown;
use gx_base::place::Place;
use gx_base::text::Text;
use gx_core::expression::{BinaryOp, Binder};
use gx_core::operator::Operator;
use gx_funcs::function::find_local;
use gx_static::rules::operator_type;
use gx_types::schemas::Schemas;
use gx_types::sequence_type::Ty;
use gx_types::step::{Axis, NameTest, Test};
use rows_words::names::{name, type_name};
use rows_words::not_a_row;
use std::alloc::{AllocError, Global};

/// The type of an operator, or of a call of a function, over parts of these types. Operators are written as in a query, but
/// a negation as `neg`, a cast as `cast:TYPE` or `cast?:TYPE`, a test for one as `castable:TYPE`, a step as `step:AXIS:TEST`, and a
/// `for` whose type is written as `for-as` with that type first.
pub fn operator_row(alloc: Global, word: &str, parts: &[Ty]) -> Result<String, AllocError> {
    match parts {
        [] if word == "nocontext" => ruled(alloc, &Operator::NoContext, parts),
        [_] => row_of_one(alloc, word, parts),
        [_, _] => row_of_two(alloc, word, parts),
        [_, _, _] => row_of_three(alloc, word, parts),
        _ => call_row(alloc, word, parts),
    }
}

fn row_of_one(alloc: Global, word: &str, parts: &[Ty]) -> Result<String, AllocError>
    requires { length parts.now ≡ 1 }
{
    match word {
        "neg" => ruled(alloc, &Operator::Neg, parts),
        "data" => ruled(alloc, &Operator::DataOf, parts),
        "nodes" => ruled(alloc, &Operator::Nodes, parts),
        "order" => ruled(alloc, &Operator::Order, parts),
        _ if word.starts_with("step:") => step_row(alloc, word, parts),
        _ if word.contains(':') => cast_row(alloc, word, parts),
        _ => call_row(alloc, word, parts),
    }
}

fn row_of_two(alloc: Global, word: &str, parts: &[Ty]) -> Result<String, AllocError>
    requires { length parts.now ≡ 2 }
{
    if word == "for" {
        for_row(alloc, None, parts)
    } else {
        binary_row(alloc, word, parts)
    }
}

fn row_of_three(alloc: Global, word: &str, parts: &[Ty]) -> Result<String, AllocError>
    requires { length parts.now ≡ 3 }
{
    match (word, parts.split_first()) {
        ("if", _) => ruled(alloc, &Operator::If, parts),
        ("for-as", Some((written, others))) => for_row(alloc, Some(written.clone()?), others),
        _ => call_row(alloc, word, parts),
    }
}

fn for_row(alloc: Global, kind: Option<Ty>, parts: &[Ty]) -> Result<String, AllocError>
    requires { length parts.now ≡ 2 }
{
    let binder = Binder {
        variable: 1,
        place: Place { line: 1, column: 1 },
        kind,
    };
    ruled(alloc, &Operator::For(binder, 0), parts)
}

fn step_row(alloc: Global, word: &str, parts: &[Ty]) -> Result<String, AllocError>
    requires { length parts.now ≡ 1 }
{
    let (_, way) = word.split_once(':').unwrap_or(("", word));
    let (along, test) = way.split_once(':').unwrap_or((way, ""));
    let test = test_of(alloc, test)?;
    match axis_of(along) {
        Some(along) => ruled(alloc, &Operator::Step(along, test, 1), parts),
        None => not_a_row(alloc),
    }
}

fn axis_of(word: &str) -> Option<Axis> {
    match word {
        "child" => Some(Axis::Child),
        "descendant" => Some(Axis::Descendant),
        "self" => Some(Axis::SelfAxis),
        "attribute" => Some(Axis::Attribute),
        "parent" => Some(Axis::Parent),
        "ancestor" => Some(Axis::Ancestor),
        _ => None,
    }
}

fn test_of(alloc: Global, word: &str) -> Result<Test, AllocError> {
    match word {
        "node" => Ok(Test::Node),
        "text" => Ok(Test::Text),
        "*" => Ok(Test::Named(NameTest::Any)),
        _ => Ok(Test::Named(NameTest::Name(name(alloc, word)?))),
    }
}

fn call_row(alloc: Global, word: &str, parts: &[Ty]) -> Result<String, AllocError> {
    match find_local(&Text::from_str(alloc, word)?, parts.len()) {
        Some(function) if function.arity() == parts.len() => {
            ruled(alloc, &Operator::Call(function), parts)
        }
        _ => not_a_row(alloc),
    }
}

fn cast_row(alloc: Global, word: &str, parts: &[Ty]) -> Result<String, AllocError>
    requires { length parts.now ≡ 1 }
{
    match word.split_once(':') {
        Some(("cast", kind)) => cast_type(alloc, kind, false, parts),
        Some(("cast?", kind)) => cast_type(alloc, kind, true, parts),
        Some(("castable", kind)) => castable_type(alloc, kind, parts),
        _ => not_a_row(alloc),
    }
}

fn cast_type(
    alloc: Global,
    kind: &str,
    allows_empty: bool,
    parts: &[Ty],
) -> Result<String, AllocError>
    requires { length parts.now ≡ 1 }
{
    let operator = Operator::Cast(type_name(alloc, kind)?, allows_empty);
    ruled(alloc, &operator, parts)
}

fn castable_type(alloc: Global, kind: &str, parts: &[Ty]) -> Result<String, AllocError>
    requires { length parts.now ≡ 1 }
{
    let operator = Operator::Castable(type_name(alloc, kind)?, false);
    ruled(alloc, &operator, parts)
}

fn binary_row(alloc: Global, word: &str, parts: &[Ty]) -> Result<String, AllocError>
    requires { length parts.now ≡ 2 }
{
    match binary_operator(word) {
        Some(operator) => ruled(alloc, &Operator::Binary(operator), parts),
        None => call_row(alloc, word, parts),
    }
}

fn binary_operator(word: &str) -> Option<BinaryOp> {
    match word {
        "+" => Some(BinaryOp::Add),
        "-" => Some(BinaryOp::Sub),
        "*" => Some(BinaryOp::Mul),
        "div" => Some(BinaryOp::Div),
        "idiv" => Some(BinaryOp::IDiv),
        "mod" => Some(BinaryOp::Mod),
        "eq" => Some(BinaryOp::Eq),
        "ne" => Some(BinaryOp::Ne),
        "lt" => Some(BinaryOp::Lt),
        "le" => Some(BinaryOp::Le),
        "gt" => Some(BinaryOp::Gt),
        "ge" => Some(BinaryOp::Ge),
        "=" => Some(BinaryOp::AnyEq),
        "!=" => Some(BinaryOp::AnyNe),
        "<" => Some(BinaryOp::AnyLt),
        "<=" => Some(BinaryOp::AnyLe),
        ">" => Some(BinaryOp::AnyGt),
        ">=" => Some(BinaryOp::AnyGe),
        "is" => Some(BinaryOp::Is),
        "<<" => Some(BinaryOp::Before),
        ">>" => Some(BinaryOp::After),
        "to" => Some(BinaryOp::To),
        "union" => Some(BinaryOp::Union),
        "intersect" => Some(BinaryOp::Intersect),
        "except" => Some(BinaryOp::Except),
        _ => None,
    }
}

// What the rule of an operator answers.
fn ruled(alloc: Global, operator: &Operator, parts: &[Ty]) -> Result<String, AllocError>
    requires { length parts.now ≡ arity operator.now }
{
    let schemas = Schemas::empty(alloc)?;
    match operator_type(alloc, &schemas, operator, parts) {
        Ok(t) => shown(alloc, &t),
        Err(fault) => format!(in alloc; "{fault:?}"),
    }
}
