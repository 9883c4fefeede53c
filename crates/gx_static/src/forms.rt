// Forms of operators over their parts, and their types.

ghost use Rattle.std.specs.Prelude.{◌≡◌, ◌≢◌, ◌≤◌, ◌+◌, suc, List, [], ◌∷◌, length, map, IfOk, IfErr, OnOk};
ghost use Rattle.gx_types.specs.SchemaSet.{SchemaSet};
ghost use Rattle.gx_types.specs.SequenceType.{SequenceType};
ghost use Rattle.gx_core.specs.declared.operator.Operator.TheVariants as operators;
ghost use Rattle.gx_core.specs.Expression.{Parts, no_parts, all_parts, each_of, annotation_of};
ghost use Rattle.gx_core.specs.Bindings.{look_up};
ghost use Rattle.gx_core.specs.Soundness.{TypedExpression};
ghost use Rattle.gx_core.specs.ExpressionView.{operator_of, parts_of};
ghost use Rattle.gx_static.specs.Refusal.{RefusesType};
ghost use Rattle.gx_static.specs.Rule.{has_type, ruling, variable_ruling};
ghost use Rattle.gx_static.specs.Typing.{Awaited, part_count, last_parts};

use crate::block_parts::{block_form, block_form_type};
use crate::call::call_type;
use crate::constructors::constructor_type;
use crate::conversions::user_type;
use crate::error::RuleError;
use crate::filtering::{is_first, one_of_type, switch_type};
use crate::item_tests::no_type;
use crate::numeric::negation_type;
use crate::path::{nodes_type, order_type, step_in_scope};
use crate::rules::{
    binary_type, cast_type, castable_type, conditional_type, data_type, for_type, let_type,
    literal_type, quantifier_type, sequence_type,
};
use gx_base::code::Code;
use gx_base::stack::Stack;
use gx_core::cases::Cases;
use gx_core::constructor::Constructor;
use gx_core::expression::{Form, TypedExpr};
use gx_core::operator::Operator;
use gx_core::scope::Scope;
use gx_core::signature::FunctionSignature;
use gx_types::schemas::Schemas;
use gx_types::sequence_type::{Ty, TyNode};
use std::alloc::{AllocError, Global};

// An operator over the parts on top.
pub(crate) fn form(
    alloc: Global,
    operator: Operator,
    parts: &mut Stack<TypedExpr>,
) -> Result<Form<Ty>, AllocError>
    requires { part_count operator ≤ length parts.old }
    ensures operator { IfOk result (λ form. operator_of form ≡ operator) }
    ensures parts { (next : Parts SequenceType → List TypedExpression → Awaited)
        → IfOk result (λ form. last_parts (part_count operator) parts.old no_parts next ≡ next (parts_of form) parts.new) }
{
    match operator {
        Operator::Lit(value) => Ok(Form::Lit(value)),
        Operator::Var(number) => Ok(Form::Var(number)),
        Operator::Empty => Ok(Form::Empty),
        Operator::Seq => {
            let second = part(alloc, parts)?;
            Ok(Form::Seq(part(alloc, parts)?, second))
        }
        Operator::For(binder, position) => {
            let body = part(alloc, parts)?;
            Ok(Form::For(binder, position, part(alloc, parts)?, body))
        }
        Operator::SomeIn(binder) => {
            let test = part(alloc, parts)?;
            Ok(Form::SomeIn(binder, part(alloc, parts)?, test))
        }
        Operator::EveryIn(binder) => {
            let test = part(alloc, parts)?;
            Ok(Form::EveryIn(binder, part(alloc, parts)?, test))
        }
        Operator::Block(clauses, keys) => {
            let kinds = clauses.into_vec();
            let orders = keys.into_vec();
            let taken = last(alloc, kinds.len() + orders.len() + 1, parts)?;
            block_form(alloc, kinds, orders, taken)
        }
        Operator::Let(binder) => {
            let body = part(alloc, parts)?;
            Ok(Form::Let(binder, part(alloc, parts)?, body))
        }
        Operator::If => {
            let otherwise = part(alloc, parts)?;
            let chosen = part(alloc, parts)?;
            Ok(Form::If(part(alloc, parts)?, chosen, otherwise))
        }
        Operator::Cast(kind, optional) => Ok(Form::Cast(part(alloc, parts)?, kind, optional)),
        Operator::Castable(kind, optional) => {
            Ok(Form::Castable(part(alloc, parts)?, kind, optional))
        }
        Operator::Treat(kind) => Ok(Form::Treat(part(alloc, parts)?, kind)),
        Operator::Step(axis, test, number) => Ok(Form::Step(axis, test, number)),
        Operator::Nodes => Ok(Form::Nodes(part(alloc, parts)?)),
        Operator::Order => Ok(Form::Order(part(alloc, parts)?)),
        Operator::Switch(cases, default) => {
            let count = cases.as_slice().len() + 1;
            switch_form(alloc, cases, default, count, parts)
        }
        Operator::Nth(number, reverse) => Ok(Form::Nth(part(alloc, parts)?, number, reverse)),
        Operator::Final(reverse) => Ok(Form::Final(part(alloc, parts)?, reverse)),
        Operator::DataOf => Ok(Form::DataOf(part(alloc, parts)?)),
        Operator::NoContext => Ok(Form::NoContext),
        Operator::Call(function) => {
            let arguments = last(alloc, function.arity(), parts)?;
            Ok(Form::Call(function, arguments))
        }
        Operator::Construct(constructor, count) => {
            constructor_form(alloc, constructor, count, parts)
        }
        Operator::User(signature, count) => user_form(alloc, signature, count, parts),
        Operator::Neg => Ok(Form::Neg(part(alloc, parts)?)),
        Operator::Binary(operator) => {
            let right = part(alloc, parts)?;
            Ok(Form::Binary(operator, part(alloc, parts)?, right))
        }
    }
}

// A constructor over so many parts on top.
fn constructor_form(
    alloc: Global,
    constructor: Constructor,
    count: usize,
    parts: &mut Stack<TypedExpr>,
) -> Result<Form<Ty>, AllocError>
    requires { count ≤ length parts.old }
    ensures operator { IfOk result (λ form. operator_of form ≡ operators.Construct constructor count) }
    ensures parts { (next : Parts SequenceType → List TypedExpression → Awaited)
        → IfOk result (λ form. last_parts count parts.old no_parts next ≡ next (parts_of form) parts.new) }
{
    let Ok(taken) = last(alloc, count, parts) else {
        drop(constructor);
        return Err(AllocError);
    };
    Ok(Form::Construct(constructor, taken))
}

// A call of a declared function with so many arguments on top.
fn user_form(
    alloc: Global,
    signature: FunctionSignature,
    count: usize,
    parts: &mut Stack<TypedExpr>,
) -> Result<Form<Ty>, AllocError>
    requires { count ≤ length parts.old }
    ensures operator { IfOk result (λ form. operator_of form ≡ operators.User signature count) }
    ensures parts { (next : Parts SequenceType → List TypedExpression → Awaited)
        → IfOk result (λ form. last_parts count parts.old no_parts next ≡ next (parts_of form) parts.new) }
{
    let Ok(taken) = last(alloc, count, parts) else {
        drop(signature);
        return Err(AllocError);
    };
    Ok(Form::User(signature, taken))
}

// A switch over so many branches on top, and over the operand below them.
pub(crate) fn switch_form(
    alloc: Global,
    cases: Cases,
    default: u32,
    count: usize,
    parts: &mut Stack<TypedExpr>,
) -> Result<Form<Ty>, AllocError>
    requires { count + 1 ≤ length parts.old }
    ensures operator { IfOk result (λ form. operator_of form ≡ operators.Switch cases default) }
    ensures parts { (next : Parts SequenceType → List TypedExpression → Awaited)
        → IfOk result (λ form. last_parts (suc count) parts.old no_parts next ≡ next (parts_of form) parts.new) }
{
    let branches = last(alloc, count, parts)?;
    let operand = part(alloc, parts)?;
    Ok(Form::Switch(operand, cases, default, branches))
}

// Takes so many parts on top, in order.
#[tactic(auto, using(crate::proofs::Continuing::last_are_arguments))]
pub(crate) fn last(
    alloc: Global,
    count: usize,
    parts: &mut Stack<TypedExpr>,
) -> Result<Vec<TypedExpr>, AllocError>
    requires { count ≤ length parts.old }
    ensures taken { (next : Parts SequenceType → List TypedExpression → Awaited)
        → IfOk result (λ taken. last_parts count parts.old no_parts next ≡ next (all_parts taken.items) parts.new) }
    ensures left { OnOk result (length parts.old ≡ count + length parts.new) }
    ensures number { IfOk result (λ taken. length taken.items ≡ count) }
{
    let mut taken = Vec::new(alloc);
    for _ in 0..count {
        match parts.pop() {
            Some(part) => taken.push(part)?,
            None => unreachable!(),
        }
    }
    taken.reverse();
    Ok(taken)
}

// Takes the part on top.
fn part(alloc: Global, parts: &mut Stack<TypedExpr>) -> Result<Box<TypedExpr>, AllocError>
    requires { parts.old ≢ [] }
    ensures { IfOk result (λ part. parts.old ≡ part.value ∷ parts.new) }
{
    match parts.pop() {
        Some(part) => Ok(Box::new(alloc, part)?),
        None => unreachable!(),
    }
}

// The type of a form, by the rule of its operator.
#[tactic(auto, using(crate::proofs::Continuing::each_of_arguments))]
pub(crate) fn form_type(
    alloc: Global,
    schemas: &Schemas,
    form: &Form<Ty>,
    scope: &Scope<Ty>,
) -> Result<Ty, RuleError>
    ensures typed { IfOk result (λ t. ruling schemas.now (operator_of form.now) (each_of annotation_of (parts_of form.now)) scope.now ≡ has_type t) }
    ensures refused { IfErr result (λ e. RefusesType e (ruling schemas.now (operator_of form.now) (each_of annotation_of (parts_of form.now)) scope.now)) }
{
    match form {
        Form::Lit(value) => literal_type(alloc, value),
        Form::Var(number) => variable_type(*number, scope),
        Form::Empty => Ok(Ty {
            node: TyNode::Empty,
        }),
        Form::Seq(first, second) => Ok(sequence_type(alloc, &first.kind, &second.kind)?),
        Form::For(binder, _, source, body) => {
            for_type(alloc, schemas, binder, &source.kind, &body.kind)
        }
        Form::SomeIn(binder, source, test) | Form::EveryIn(binder, source, test) => {
            quantifier_type(alloc, schemas, binder, &source.kind, &test.kind)
        }
        Form::Block(clauses, keys, body) => { block_form_type(alloc, schemas, clauses, keys, body) }
        Form::Let(binder, value, body) => {
            let_type(alloc, schemas, binder, &value.kind, &body.kind)
        }
        Form::If(condition, chosen, otherwise) => conditional_type(
            alloc,
            schemas,
            &condition.kind,
            &chosen.kind,
            &otherwise.kind,
        ),
        Form::Cast(operand, kind, optional) => { cast_type(alloc, kind, *optional, &operand.kind) }
        Form::Castable(operand, _, _) => castable_type(alloc, &operand.kind),
        Form::Treat(_, kind) => Ok(kind.clone()?),
        Form::Step(axis, test, number) => {
            step_in_scope(alloc, schemas, *axis, test, *number, scope)
        }
        Form::Nodes(operand) => nodes_type(alloc, schemas, &operand.kind),
        Form::Order(operand) => order_type(alloc, schemas, &operand.kind),
        Form::Switch(_, cases, _, branches) => {
            let kinds = kinds(alloc, branches.as_slice())?;
            switch_type(alloc, cases.as_slice(), kinds.as_slice())
        }
        Form::Nth(operand, number, _) => {
            Ok(one_of_type(alloc, is_first(*number), &operand.kind)?)
        }
        Form::Final(operand, _) => Ok(one_of_type(alloc, true, &operand.kind)?),
        Form::DataOf(operand) => data_type(alloc, schemas, &operand.kind),
        Form::NoContext => Err(no_type(Code::XPDY0002)),
        Form::Call(function, arguments) => {
            let kinds = kinds(alloc, arguments.as_slice())?;
            call_type(alloc, schemas, *function, kinds.as_slice())
        }
        Form::Construct(constructor, parts) => {
            let kinds = kinds(alloc, parts.as_slice())?;
            constructor_type(alloc, schemas, constructor, kinds.as_slice())
        }
        Form::User(signature, arguments) => {
            let kinds = kinds(alloc, arguments.as_slice())?;
            user_type(alloc, schemas, signature, kinds.as_slice())
        }
        Form::Neg(operand) => negation_type(alloc, schemas, &operand.kind),
        Form::Binary(operator, left, right) => {
            binary_type(alloc, schemas, *operator, &left.kind, &right.kind)
        }
    }
}

// The types of expressions.
fn kinds(alloc: Global, expressions: &[TypedExpr]) -> Result<Vec<Ty>, AllocError>
    ensures { IfOk result (λ kinds. kinds.items ≡ map annotation_of expressions.now) }
{
    let mut kinds = Vec::new(alloc);
    for expression in expressions {
        kinds.push(expression.kind.clone()?)?;
    }
    Ok(kinds)
}

// The type of a variable.
fn variable_type(number: u32, scope: &Scope<Ty>) -> Result<Ty, RuleError>
    ensures typed { (schemas : SchemaSet) → IfOk result (λ t. variable_ruling schemas number (look_up scope.now number) ≡ has_type t) }
    ensures refused { (schemas : SchemaSet) → IfErr result (λ e. RefusesType e (variable_ruling schemas number (look_up scope.now number))) }
{
    match scope.find(number) {
        Some(bound) => Ok(bound.clone()?),
        None => Err(no_type(Code::XPST0008)),
    }
}
