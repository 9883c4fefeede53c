// The Core of each construct, over its parts.

ghost use Rattle.std.specs.Prelude.{◌≡◌, IfOk, MatchOption, Some, None};
ghost use Rattle.gx_funcs.specs.Numbers.{number_atom};
ghost use Rattle.gx_funcs.specs.Function.{string_atom};
ghost use Rattle.gx_core.specs.Expression.{CoreExpression, core_at, no_parts, one_part};
ghost use Rattle.gx_core.specs.ExpressionView.{operator_of, parts_of};
ghost use Rattle.gx_normal.specs.Constructs.{boolean_around, call_at, call_of, cast_at, castable_at, conditional_at, counted_call, data_at, empty_at, joining, of_one, operator_in_core, data_around, literal_at, signed_at, within, context_item_at, step_at, operand_of};
ghost use Rattle.gx_normal.specs.Normalisation.{constructed, of_two, of_three};
ghost use Rattle.gx_normal.specs.Making.{made_of_one, made_of_two, operation_at};

use crate::constructors::construct_of_node;
use crate::signatures::{Signatures, user_call};
use crate::switches::{instance, typeswitch};
use gx_ast::expression::BinaryOperator;
use gx_base::place::Place;
use gx_base::text::Text;
use gx_base::type_name::{Builtin, TypeName};
use gx_core::expression::{BinaryClass, BinaryOp, CoreExpr, Form};
use gx_facets::{AtomValue, Atomic};
use gx_funcs::function::{Function, string_atom};
use gx_num::Number;
use gx_resolved::tree::Construct;
use gx_types::step::{Axis, Test};
use std::alloc::{AllocError, Global};

/// The Core of a construct over that of its parts.
pub(crate) fn construct(
    alloc: Global,
    signatures: &Signatures,
    place: Place,
    construct: &Construct,
    parts: Vec<CoreExpr>,
) -> Result<CoreExpr, AllocError>
    ensures { IfOk result (λ e. e ≡ constructed signatures.now place construct.now parts.items) }
{
    match construct {
        Construct::Number(value) => Ok(number(place, *value)),
        Construct::String(text) => string(place, text),
        Construct::Call(function) => call_of(alloc, place, *function, parts),
        Construct::CallDeclared(name) => user_call(alloc, place, signatures, name, parts),
        Construct::Sequence | Construct::Binary(_) => {
            construct_of_two(alloc, place, construct, parts)
        }
        Construct::If => construct_of_three(alloc, place, parts),
        Construct::Typeswitch => typeswitch(alloc, place, parts),
        Construct::Parenthesised
        | Construct::Signed(_)
        | Construct::InstanceOf(_)
        | Construct::TreatAs(_)
        | Construct::CastAs(_, _)
        | Construct::CastableAs(_, _) => construct_of_one(alloc, place, construct, parts),
        Construct::Blank(text) => string(place, text),
        _ => construct_of_node(place, construct, parts),
    }
}

// What is made of one part.
fn construct_of_one(
    alloc: Global,
    place: Place,
    construct: &Construct,
    parts: Vec<CoreExpr>,
) -> Result<CoreExpr, AllocError>
    ensures { IfOk result (λ e. e ≡ made_of_one place construct.now parts.items) }
{
    let Some(part) = one_part_of(alloc, parts)? else {
        return Ok(empty(place));
    };
    match construct {
        Construct::Parenthesised => Ok(within(place, Box::into_inner(part))),
        Construct::Signed(minus) => signed(alloc, place, *minus, part),
        Construct::InstanceOf(kind) => {
            let kind = kind.clone()?;
            instance(alloc, place, kind, part)
        }
        Construct::TreatAs(kind) => {
            let kind = kind.clone()?;
            Ok(at(place, Form::Treat(part, kind)))
        }
        Construct::CastAs(kind, optional) => {
            let kind = kind.clone()?;
            cast(alloc, place, kind, *optional, part)
        }
        Construct::CastableAs(kind, optional) => {
            let kind = kind.clone()?;
            castable(alloc, place, kind, *optional, part)
        }
        _ => Ok(empty(place)),
    }
}

// What is made of two parts.
fn construct_of_two(
    alloc: Global,
    place: Place,
    construct: &Construct,
    parts: Vec<CoreExpr>,
) -> Result<CoreExpr, AllocError>
    ensures { IfOk result (λ e. e ≡ made_of_two place construct.now parts.items) }
{
    let Some((first, second)) = two_parts_of(alloc, parts)? else {
        return Ok(empty(place));
    };
    match construct {
        Construct::Sequence => Ok(at(first.outer, Form::Seq(first, second))),
        Construct::Binary(operator) => operation(alloc, place, *operator, first, second),
        _ => Ok(empty(place)),
    }
}

// An operator between two operands.
fn operation(
    alloc: Global,
    place: Place,
    operator: BinaryOperator,
    first: Box<CoreExpr>,
    second: Box<CoreExpr>,
) -> Result<CoreExpr, AllocError>
    ensures { IfOk result (λ e. e ≡ operation_at place (joining place operator) first.value second.value) }
{
    match operator {
        BinaryOperator::And => {
            let second = boolean_around(alloc, second)?;
            let otherwise = Box::new(alloc, call_of_none(alloc, place, Function::False))?;
            conditional(alloc, place, first, second, otherwise)
        }
        BinaryOperator::Or => {
            let second = boolean_around(alloc, second)?;
            let chosen = Box::new(alloc, call_of_none(alloc, place, Function::True))?;
            conditional(alloc, place, first, chosen, second)
        }
        _ => match operator_in_core(operator) {
            Some(op) => {
                let first = operand_of(alloc, op.class(), first)?;
                let second = operand_of(alloc, op.class(), second)?;
                Ok(at(place, Form::Binary(op, first, second)))
            }
            None => Ok(empty(place)),
        },
    }
}

// An operand of an operator, atomized or as it is.
fn operand_of(
    alloc: Global,
    class: BinaryClass,
    operand: Box<CoreExpr>,
) -> Result<Box<CoreExpr>, AllocError>
    ensures { IfOk result (λ e. e.value ≡ operand_of class operand.value) }
{
    match class {
        BinaryClass::Nodes(_) | BinaryClass::Combination(_) => Ok(operand),
        _ => data_around(alloc, operand),
    }
}

// What is made of three parts.
#[tactic(auto, using(crate::proofs::MakingLemmas::not_of_three))]
fn construct_of_three(
    alloc: Global,
    place: Place,
    parts: Vec<CoreExpr>,
) -> Result<CoreExpr, AllocError>
    ensures { IfOk result (λ e. e ≡ of_three place (conditional_at place) parts.items) }
{
    if parts.len() != 3 {
        return Ok(empty(place));
    }
    let mut parts = parts.into_iter();
    let Some(test) = parts.next() else {
        return Ok(empty(place));
    };
    let Some(chosen) = parts.next() else {
        return Ok(empty(place));
    };
    let Some(otherwise) = parts.next() else {
        return Ok(empty(place));
    };
    let test = Box::new(alloc, test)?;
    let chosen = Box::new(alloc, chosen)?;
    let otherwise = Box::new(alloc, otherwise)?;
    conditional(alloc, place, test, chosen, otherwise)
}

// The part, where there is one alone.
fn one_part_of(alloc: Global, parts: Vec<CoreExpr>) -> Result<Option<Box<CoreExpr>>, AllocError>
    ensures { (place : Place) (make : CoreExpression → CoreExpression)
        → IfOk result (λ o. MatchOption o (of_one place make parts.items ≡ empty_at place) (λ e. of_one place make parts.items ≡ make e.value)) }
{
    let mut parts = parts.into_iter();
    let Some(part) = parts.next() else {
        return Ok(None);
    };
    match parts.next() {
        Some(_) => Ok(None),
        None => Ok(Some(Box::new(alloc, part)?)),
    }
}

// The parts, where there are two.
fn two_parts_of(
    alloc: Global,
    parts: Vec<CoreExpr>,
) -> Result<Option<(Box<CoreExpr>, Box<CoreExpr>)>, AllocError>
    ensures { (place : Place) (make : CoreExpression → CoreExpression → CoreExpression)
        → IfOk result (λ o. MatchOption o (of_two place make parts.items ≡ empty_at place) (λ p. of_two place make parts.items ≡ make p.0.value p.1.value)) }
{
    match two_of(parts) {
        Some((first, second)) => Ok(Some(boxed(alloc, first, second)?)),
        None => Ok(None),
    }
}

fn two_of(parts: Vec<CoreExpr>) -> Option<(CoreExpr, CoreExpr)>
    ensures { (place : Place) (make : CoreExpression → CoreExpression → CoreExpression)
        → MatchOption result (of_two place make parts.items ≡ empty_at place) (λ p. of_two place make parts.items ≡ make p.0 p.1) }
{
    let mut parts = parts.into_iter();
    let first = parts.next()?;
    let second = parts.next()?;
    match parts.next() {
        Some(_) => None,
        None => Some((first, second)),
    }
}

fn boxed(
    alloc: Global,
    first: CoreExpr,
    second: CoreExpr,
) -> Result<(Box<CoreExpr>, Box<CoreExpr>), AllocError>
    ensures { IfOk result (λ pair. (pair.0.value ≡ first) × (pair.1.value ≡ second)) }
{
    let first = Box::new(alloc, first)?;
    Ok((first, Box::new(alloc, second)?))
}

/// The context item, or its position or the size of the context: the value of the variable with this number.
pub(crate) fn context_item(place: Place, number: Option<u32>) -> CoreExpr
    ensures { result ≡ context_item_at place number }
{
    match number {
        Some(number) => at(place, Form::Var(number)),
        None => at(place, Form::NoContext),
    }
}

/// A step from the context item, whose variable has this number.
pub(crate) fn step(
    place: Place,
    number: Option<u32>,
    axis: Axis,
    test: &Test,
) -> Result<CoreExpr, AllocError>
    ensures { IfOk result (λ e. e ≡ step_at place number axis test.now) }
{
    match number {
        Some(number) => Ok(at(place, Form::Step(axis, test.clone()?, number))),
        None => Ok(at(place, Form::NoContext)),
    }
}

/// The empty sequence.
pub(crate) fn empty(place: Place) -> CoreExpr
    ensures { result ≡ empty_at place }
{
    at(place, Form::Empty)
}

fn cast(
    alloc: Global,
    place: Place,
    kind: TypeName,
    optional: bool,
    operand: Box<CoreExpr>,
) -> Result<CoreExpr, AllocError>
    ensures { IfOk result (λ e. e ≡ cast_at place kind optional operand.value) }
{
    let operand = data_around(alloc, operand)?;
    Ok(at(place, Form::Cast(operand, kind, optional)))
}

fn castable(
    alloc: Global,
    place: Place,
    kind: TypeName,
    optional: bool,
    operand: Box<CoreExpr>,
) -> Result<CoreExpr, AllocError>
    ensures { IfOk result (λ e. e ≡ castable_at place kind optional operand.value) }
{
    let operand = data_around(alloc, operand)?;
    Ok(at(place, Form::Castable(operand, kind, optional)))
}

// A call, or the operator that `data` is; `position` and `last` look at a context.
fn call_of(
    alloc: Global,
    place: Place,
    function: Function,
    arguments: Vec<CoreExpr>,
) -> Result<CoreExpr, AllocError>
    ensures { IfOk result (λ e. e ≡ call_of place function arguments.items) }
{
    match function {
        Function::Data => match one_part_of(alloc, arguments)? {
            Some(argument) => Ok(data_of(place, argument)),
            None => Ok(empty(place)),
        },
        Function::Position | Function::Last => {
            drop(arguments);
            Ok(at(place, Form::NoContext))
        }
        _ => Ok(counted_call(place, function, arguments)),
    }
}

// A call of a function with its number of arguments.
fn counted_call(place: Place, function: Function, arguments: Vec<CoreExpr>) -> CoreExpr
    ensures { result ≡ counted_call place function arguments.items }
{
    if arguments.len() != function.arity() {
        return empty(place);
    }
    at(place, Form::Call(function, arguments))
}

fn data_of(place: Place, operand: Box<CoreExpr>) -> CoreExpr
    ensures { result ≡ data_at place operand.value }
{
    at(place, Form::DataOf(operand))
}

/// `if`, whose test is its effective boolean value.
pub(crate) fn conditional(
    alloc: Global,
    place: Place,
    test: Box<CoreExpr>,
    chosen: Box<CoreExpr>,
    otherwise: Box<CoreExpr>,
) -> Result<CoreExpr, AllocError>
    ensures { IfOk result (λ e. e ≡ conditional_at place test.value chosen.value otherwise.value) }
{
    let test = boolean_around(alloc, test)?;
    Ok(at(place, Form::If(test, chosen, otherwise)))
}

/// An expression at a place, without parentheses.
pub(crate) fn at(place: Place, form: Form<()>) -> CoreExpr
    ensures { result ≡ core_at place place (operator_of form) (parts_of form) }
{
    CoreExpr {
        place,
        outer: place,
        kind: (),
        form,
    }
}

/// A number.
pub(crate) fn number(place: Place, value: Number) -> CoreExpr
    ensures { result ≡ literal_at place (number_atom value) }
{
    let kind = match value {
        Number::Int(_) => Builtin::Integer,
        Number::Dec(_) => Builtin::Decimal,
    };
    let value = AtomValue::Num(value);
    let kind = TypeName::Builtin(kind);
    at(place, Form::Lit(Atomic { value, kind }))
}

/// A string.
pub(crate) fn string(place: Place, text: &Text) -> Result<CoreExpr, AllocError>
    ensures { IfOk result (λ e. e ≡ literal_at place (string_atom text.now)) }
{
    let value = string_atom(text.clone()?);
    Ok(at(place, Form::Lit(value)))
}

/// A call without arguments.
pub(crate) fn call_of_none(alloc: Global, place: Place, function: Function) -> CoreExpr
    ensures { result ≡ call_at place function no_parts }
{
    at(place, Form::Call(function, Vec::new(alloc)))
}

/// The operator of Core for one that is written, if it is one.
pub(crate) fn operator_in_core(operator: BinaryOperator) -> Option<BinaryOp>
    ensures { result ≡ operator_in_core operator }
{
    match operator {
        BinaryOperator::Add => Some(BinaryOp::Add),
        BinaryOperator::Subtract => Some(BinaryOp::Sub),
        BinaryOperator::Multiply => Some(BinaryOp::Mul),
        BinaryOperator::Divide => Some(BinaryOp::Div),
        BinaryOperator::DivideInteger => Some(BinaryOp::IDiv),
        BinaryOperator::Modulo => Some(BinaryOp::Mod),
        BinaryOperator::ValueEqual => Some(BinaryOp::Eq),
        BinaryOperator::ValueNotEqual => Some(BinaryOp::Ne),
        BinaryOperator::ValueLess => Some(BinaryOp::Lt),
        BinaryOperator::ValueLessOrEqual => Some(BinaryOp::Le),
        BinaryOperator::ValueGreater => Some(BinaryOp::Gt),
        BinaryOperator::ValueGreaterOrEqual => Some(BinaryOp::Ge),
        BinaryOperator::Equal => Some(BinaryOp::AnyEq),
        BinaryOperator::NotEqual => Some(BinaryOp::AnyNe),
        BinaryOperator::Less => Some(BinaryOp::AnyLt),
        BinaryOperator::LessOrEqual => Some(BinaryOp::AnyLe),
        BinaryOperator::Greater => Some(BinaryOp::AnyGt),
        BinaryOperator::GreaterOrEqual => Some(BinaryOp::AnyGe),
        BinaryOperator::Is => Some(BinaryOp::Is),
        BinaryOperator::Before => Some(BinaryOp::Before),
        BinaryOperator::After => Some(BinaryOp::After),
        BinaryOperator::To => Some(BinaryOp::To),
        BinaryOperator::Union => Some(BinaryOp::Union),
        BinaryOperator::Intersect => Some(BinaryOp::Intersect),
        BinaryOperator::Except => Some(BinaryOp::Except),
        _ => None,
    }
}

fn within(outer: Place, e: CoreExpr) -> CoreExpr
    ensures { result ≡ within outer e }
{
    let (place, _outer, _kind, form) = e.into_parts();
    CoreExpr {
        place,
        outer,
        kind: (),
        form,
    }
}

fn signed(
    alloc: Global,
    place: Place,
    minus: bool,
    operand: Box<CoreExpr>,
) -> Result<CoreExpr, AllocError>
    ensures { IfOk result (λ e. e ≡ signed_at place minus operand.value) }
{
    let operand = data_around(alloc, operand)?;
    if minus {
        return Ok(at(place, Form::Neg(operand)));
    }
    let zero = Box::new(alloc, number(place, Number::int(0)))?;
    Ok(at(place, Form::Binary(BinaryOp::Sub, operand, zero)))
}

/// A call of one argument.
pub(crate) fn call(
    alloc: Global,
    place: Place,
    function: Function,
    argument: Box<CoreExpr>,
) -> Result<CoreExpr, AllocError>
    ensures { IfOk result (λ e. e ≡ call_at place function (one_part argument.value)) }
{
    let mut arguments = Vec::new(alloc);
    arguments.push(Box::into_inner(argument))?;
    Ok(at(place, Form::Call(function, arguments)))
}

pub(crate) fn boolean_around(
    alloc: Global,
    operand: Box<CoreExpr>,
) -> Result<Box<CoreExpr>, AllocError>
    ensures { IfOk result (λ e. e.value ≡ boolean_around operand.value) }
{
    let place = operand.outer;
    Ok(Box::new(alloc, call(alloc, place, Function::Boolean, operand)?)?)
}

pub(crate) fn data_around(
    alloc: Global,
    operand: Box<CoreExpr>,
) -> Result<Box<CoreExpr>, AllocError>
    ensures { IfOk result (λ e. e.value ≡ data_around operand.value) }
{
    let data = at(operand.outer, Form::DataOf(operand));
    Ok(Box::new(alloc, data)?)
}
