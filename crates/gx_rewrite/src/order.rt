// Operands in document order.

ghost use Rattle.std.specs.Prelude.{◌≡◌, true, Some, IfOk, if◌then◌else◌};
ghost use Rattle.gx_base.specs.declared.place.Place.{Place as PlaceInText};
ghost use Rattle.gx_core.specs.declared.operator.Operator.TheVariants as operators;
ghost use Rattle.gx_core.specs.Expression.{At, one_part};
ghost use Rattle.gx_plan.specs.declared.plan.Carried.{Carried as CarriedByPlan};
ghost use Rattle.gx_rules.specs.Guards.{is_flat, is_own_role};
ghost use Rattle.gx_rules.specs.Rules.{made_operator, with_steps_below, ordered_operand, is_step_to_all_below, slashes, without_order};
ghost use Rattle.gx_rewrite.specs.Rewriting.{rewritten_at};
ghost use Rattle.gx_rewrite.specs.Shapes.{is_in_order, is_slashed, is_child_step_from, steps_to_all_below};

use crate::parts::{one, two};
use crate::rewrite::{Head, Rewriter};
use gx_base::place::Place;
use gx_core::expression::{Expr, Form};
use gx_core::operator::Operator;
use gx_plan::plan::{PlanExpr, PlanPart, Role};
use gx_rules::flat::is_sorted;
use gx_rules::made::{made_as, made_step};
use gx_static::item_tests::is_at_most_one;
use gx_types::schemas::Schemas;
use gx_types::step::{Axis, Test};
use std::alloc::{AllocError, Global};

// An operand in document order: alone where it is in order already, or as a step to descendants.
#[tactic(auto, using(crate::proofs::OrderLemmas::order_goes, crate::proofs::OrderLemmas::order_stays, crate::proofs::OrderLemmas::order_descends))]
pub(crate) fn ordered(
    alloc: Global,
    rewriter: &Rewriter<'_>,
    head: Head,
    operand: PlanPart,
    flat: bool,
) -> Result<(PlanExpr, bool), AllocError>
    requires { flat ≡ is_flat operand.value }
    ensures made { IfOk result (λ r. r.0 ≡ rewritten_at (record { schemas = rewriter.now.schemas.now; variables = rewriter.now.variables.now }) (At head.place head.outer head.carried operators.Order (one_part operand.value))) }
    ensures flat { IfOk result (λ r. r.1 ≡ is_flat r.0) }
{
    let Head {
        place,
        outer,
        carried,
    } = head;
    if is_in_order(&operand, flat) {
        drop(carried);
        return Ok((Box::into_inner(operand), flat));
    }
    if is_slashed(&operand) {
        drop(carried);
        let (below, flat) = slashed(alloc, rewriter, Box::into_inner(operand))?;
        return in_order(alloc, rewriter.schemas, place, below, flat);
    }
    let is_flat = is_at_most_one(&carried.kind);
    Ok((
        PlanExpr {
            place,
            outer,
            kind: carried,
            form: Form::Order(operand),
        },
        is_flat,
    ))
}

// Whether document order is not needed over an operand.
fn is_in_order(operand: &PlanExpr, flat: bool) -> bool
    requires { flat ≡ is_flat operand.now }
    ensures { result ≡ is_in_order operand.now }
{
    is_at_most_one(&operand.kind.kind) || is_sorted(operand) || flat
}

// The descendants in document order, where that is needed.
fn in_order(
    alloc: Global,
    schemas: &Schemas,
    place: Place,
    operand: PlanExpr,
    flat: bool,
) -> Result<(PlanExpr, bool), AllocError>
    requires { flat ≡ is_flat operand }
    ensures made { IfOk result (λ r. r.0 ≡ (if is_in_order operand then operand else made_operator schemas.now place operators.Order (one_part operand))) }
    ensures flat { IfOk result (λ r. r.1 ≡ is_flat r.0) }
{
    if is_in_order(&operand, flat) {
        return Ok((operand, flat));
    }
    let parts = one(alloc, operand)?;
    let made = made_as(alloc, schemas, Role::Own, place, Operator::Order, parts)?;
    let is_flat = is_at_most_one(&made.kind.kind);
    Ok((made, is_flat))
}

// Whether an operand is a loop of child steps over all that is below the items of its source.
fn is_slashed(operand: &PlanExpr) -> bool
    ensures { result ≡ is_slashed operand.now }
{
    match &operand.form {
        Form::For(binder, position, source, body) => {
            *position == 0
                && is_own(operand.kind.role)
                && is_child_step_from(binder.variable, body)
                && is_descending_in_order(source)
        }
        _ => false,
    }
}

pub(crate) fn is_own(role: Role) -> bool
    ensures { result ≡ is_own_role role }
{
    matches!(role, Role::Own)
}

fn is_child_step_from(variable: u32, body: &PlanExpr) -> bool
    ensures { result ≡ is_child_step_from variable body.now }
{
    match &body.form {
        Form::Step(Axis::Child, _, number) => *number == variable,
        _ => false,
    }
}

fn is_descending_in_order(source: &PlanExpr) -> bool
    ensures { result ≡ steps_to_all_below (without_order source.now) }
{
    match &source.form {
        Form::Order(operand) => is_descending(operand),
        _ => is_descending(source),
    }
}

// Whether an expression is a loop or a `let` whose body is a step to all below the node of its variable.
fn is_descending(expression: &PlanExpr) -> bool
    ensures { result ≡ steps_to_all_below expression.now }
{
    match &expression.form {
        Form::For(binder, position, _, body) => {
            *position == 0
                && is_own(expression.kind.role)
                && is_step_to_all_below(binder.variable, body)
        }
        Form::Let(binder, _, body) => {
            is_own(expression.kind.role) && is_step_to_all_below(binder.variable, body)
        }
        _ => false,
    }
}

fn is_step_to_all_below(variable: u32, body: &PlanExpr) -> bool
    ensures { result ≡ is_step_to_all_below variable body.now }
{
    match &body.form {
        Form::Step(Axis::DescendantOrSelf, Test::Node, number) => *number == variable,
        _ => false,
    }
}

// The steps to descendants that such an operand is.
#[tactic(auto, using(crate::proofs::OrderLemmas::slashed_source, crate::proofs::OrderLemmas::slashed_step, crate::proofs::OrderLemmas::slashes_by))]
fn slashed(
    alloc: Global,
    rewriter: &Rewriter<'_>,
    operand: PlanExpr,
) -> Result<(PlanExpr, bool), AllocError>
    requires { is_slashed operand ≡ true }
    ensures made { (place outer : PlaceInText) → (carried : CarriedByPlan) → IfOk result (λ r. slashes (record { schemas = rewriter.now.schemas.now; variables = rewriter.now.variables.now }) (At place outer carried operators.Order (one_part operand)) ≡ ordered_operand rewriter.now.schemas.now place (Some r.0)) }
    ensures flat { IfOk result (λ r. r.1 ≡ is_flat r.0) }
{
    let (_place, _outer, _carried, form) = operand.into_parts();
    match form {
        Form::For(_binder, _, source, body) => {
            let (_place, _outer, _carried, step) = Box::into_inner(body).into_parts();
            match step {
                Form::Step(_, test, _) => {
                    descending(alloc, rewriter, test, without_order(source))
                }
                _ => unreachable!(),
            }
        }
        _ => unreachable!(),
    }
}

fn without_order(source: PlanPart) -> PlanExpr
    ensures { result ≡ without_order source.value }
{
    let (place, outer, kind, form) = Box::into_inner(source).into_parts();
    match form {
        Form::Order(operand) => Box::into_inner(operand),
        form => Expr {
            place,
            outer,
            kind,
            form,
        },
    }
}

// The same loop or `let` with a step to the descendants that pass a test.
fn descending(
    alloc: Global,
    rewriter: &Rewriter<'_>,
    test: Test,
    expression: PlanExpr,
) -> Result<(PlanExpr, bool), AllocError>
    requires { steps_to_all_below expression ≡ true }
    ensures made { IfOk result (λ r. with_steps_below (record { schemas = rewriter.now.schemas.now; variables = rewriter.now.variables.now }) test expression ≡ Some r.0) }
    ensures flat { IfOk result (λ r. r.1 ≡ is_flat r.0) }
{
    let (place, _outer, _carried, form) = expression.into_parts();
    let schemas = rewriter.schemas;
    match form {
        Form::For(binder, position, source, _body) => {
            let variable = binder.variable;
            let step = made_step(alloc, schemas, rewriter.variables, place, test, variable)?;
            let parts = two(alloc, Box::into_inner(source), step)?;
            let operator = Operator::For(binder, position);
            let made = made_as(alloc, schemas, Role::Own, place, operator, parts)?;
            let is_flat = is_at_most_one(&made.kind.kind);
            Ok((made, is_flat))
        }
        Form::Let(binder, value, _body) => {
            let variable = binder.variable;
            let step = made_step(alloc, schemas, rewriter.variables, place, test, variable)?;
            let is_one = is_at_most_one(&step.kind.kind);
            let parts = two(alloc, Box::into_inner(value), step)?;
            let operator = Operator::Let(binder);
            let made = made_as(alloc, schemas, Role::Own, place, operator, parts)?;
            let is_flat = is_at_most_one(&made.kind.kind) || is_one;
            Ok((made, is_flat))
        }
        _ => unreachable!(),
    }
}
