// Loops over a comparison of keys as joins.

ghost use Rattle.std.specs.Prelude.{◌≡◌, true, IfOk};
ghost use Rattle.gx_core.specs.declared.operator.Operator.TheVariants as operators;
ghost use Rattle.gx_core.specs.Expression.{no_parts};
ghost use Rattle.gx_plan.specs.declared.plan.Role.TheVariants.{InJoin};
ghost use Rattle.gx_rules.specs.Guards.{is_flat};
ghost use Rattle.gx_rules.specs.Rules.{made_as, may_be_joined};
ghost use Rattle.gx_rewrite.specs.Shapes.{is_empty_operator, is_join_loop, joins_by_keys, joins_by_loop, joins_by_test, is_binary, is_test_of_binary, is_loop_of_test, marked_comparison, marked_test, marked_loop, marked_join, place_of_operator};

use crate::order::is_own;
use crate::parts::{three, two};
use gx_base::place::Place;
use gx_core::expression::{BinaryOp, Binder, Form};
use gx_core::operator::Operator;
use gx_plan::plan::{PlanExpr, PlanPart, Role};
use gx_rules::made::made_as;
use gx_rules::named::is_named_in;
use gx_rules::quiet::{are_keys_of_one_family, is_quiet};
use gx_static::item_tests::is_at_most_one;
use gx_types::schemas::Schemas;
use std::alloc::{AllocError, Global};

// Whether a loop in this role, of this variable and position, is a join by its body.
pub(crate) fn is_join_loop(
    alloc: Global,
    schemas: &Schemas,
    role: Role,
    left: u32,
    position: u32,
    body: &PlanExpr,
) -> Result<bool, AllocError>
    ensures { IfOk result (λ answer. answer ≡ is_join_loop schemas.now role left position body.now) }
{
    if is_own(role) && position == 0 {
        joins_by_loop(alloc, schemas, left, body)
    } else {
        Ok(false)
    }
}

fn joins_by_loop(
    alloc: Global,
    schemas: &Schemas,
    left: u32,
    body: &PlanExpr,
) -> Result<bool, AllocError>
    ensures { IfOk result (λ answer. answer ≡ joins_by_loop schemas.now left body.now) }
{
    match &body.form {
        Form::For(binder, position, other, test) => {
            if *position == 0 && is_own(body.kind.role) {
                joins_by_test(alloc, schemas, left, binder.variable, other, test)
            } else {
                Ok(false)
            }
        }
        _ => Ok(false),
    }
}

fn joins_by_test(
    alloc: Global,
    schemas: &Schemas,
    left: u32,
    right: u32,
    other: &PlanExpr,
    test: &PlanExpr,
) -> Result<bool, AllocError>
    ensures { IfOk result (λ answer. answer ≡ joins_by_test schemas.now left right other.now test.now) }
{
    match &test.form {
        Form::If(comparison, _, absent) => {
            if is_empty_operator(absent) {
                joins_by_keys(alloc, schemas, left, right, other, comparison)
            } else {
                Ok(false)
            }
        }
        _ => Ok(false),
    }
}

fn is_empty_operator(expression: &PlanExpr) -> bool
    ensures { result ≡ is_empty_operator expression.now }
{
    matches!(expression.form, Form::Empty)
}

fn joins_by_keys(
    alloc: Global,
    schemas: &Schemas,
    left: u32,
    right: u32,
    other: &PlanExpr,
    comparison: &PlanExpr,
) -> Result<bool, AllocError>
    ensures { IfOk result (λ answer. answer ≡ joins_by_keys schemas.now left right other.now comparison.now) }
{
    match &comparison.form {
        Form::Binary(BinaryOp::AnyEq, left_key, right_key) => {
            may_be_joined(alloc, schemas, left, right, other, left_key, right_key)
        }
        _ => Ok(false),
    }
}

// Whether keys that are equal are equal as join keys, nothing that is evaluated once raises an error or makes a node, and each key looks
// at its own item alone.
#[tactic(auto, using(crate::proofs::JoinLemmas::keys_fail))]
fn may_be_joined(
    alloc: Global,
    schemas: &Schemas,
    left: u32,
    right: u32,
    other: &PlanExpr,
    left_key: &PlanExpr,
    right_key: &PlanExpr,
) -> Result<bool, AllocError>
    ensures { IfOk result (λ answer. answer ≡ may_be_joined schemas.now left right other.now left_key.now right_key.now) }
{
    if !are_keys_of_one_family(schemas, &left_key.kind.kind, &right_key.kind.kind) {
        return Ok(false);
    }
    if is_named_in(alloc, other, left)?
        || is_named_in(alloc, right_key, left)?
        || is_named_in(alloc, left_key, right)?
    {
        return Ok(false);
    }
    Ok(
        is_quiet(alloc, schemas, other)?
            && is_quiet(alloc, schemas, left_key)?
            && is_quiet(alloc, schemas, right_key)?,
    )
}

// The loops of a join, each marked.
#[tactic(auto, using(crate::proofs::JoinLemmas::loops_have_tests, crate::proofs::JoinLemmas::joins_are_flat_by_type))]
pub(crate) fn joined(
    alloc: Global,
    schemas: &Schemas,
    place: Place,
    binder: Binder,
    source: PlanPart,
    body: PlanExpr,
) -> Result<(PlanExpr, bool), AllocError>
    requires { joins_by_loop schemas.now binder.variable body ≡ true }
    ensures made { IfOk result (λ r. r.0 ≡ marked_join schemas.now place binder source.value body) }
    ensures flat { IfOk result (λ r. r.1 ≡ is_flat r.0) }
{
    let inner = marked_loop(alloc, schemas, body)?;
    let parts = two(alloc, Box::into_inner(source), inner)?;
    let operator = Operator::For(binder, 0);
    let made = made_as(alloc, schemas, Role::Join, place, operator, parts)?;
    let is_flat = is_at_most_one(&made.kind.kind);
    Ok((made, is_flat))
}

// The inner loop of a join, marked.
fn marked_loop(alloc: Global, schemas: &Schemas, body: PlanExpr) -> Result<PlanExpr, AllocError>
    requires { is_loop_of_test body ≡ true }
    ensures { IfOk result (λ e. e ≡ marked_loop schemas.now body) }
{
    let (place, _outer, _carried, form) = body.into_parts();
    match form {
        Form::For(binder, _, other, test) => {
            let test = marked_test(alloc, schemas, Box::into_inner(test))?;
            let parts = two(alloc, Box::into_inner(other), test)?;
            made_as(
                alloc,
                schemas,
                Role::InJoin,
                place,
                Operator::For(binder, 0),
                parts,
            )
        }
        _ => unreachable!(),
    }
}

// The test of a join, marked.
fn marked_test(alloc: Global, schemas: &Schemas, test: PlanExpr) -> Result<PlanExpr, AllocError>
    requires { is_test_of_binary test ≡ true }
    ensures { IfOk result (λ e. e ≡ marked_test schemas.now test) }
{
    let (place, _outer, _carried, form) = test.into_parts();
    match form {
        Form::If(comparison, result, absent) => {
            let absent = marked_absence(alloc, schemas, absent)?;
            let comparison = marked_comparison(alloc, schemas, Box::into_inner(comparison))?;
            let parts = three(alloc, comparison, Box::into_inner(result), absent)?;
            made_as(alloc, schemas, Role::InJoin, place, Operator::If, parts)
        }
        _ => unreachable!(),
    }
}

// The empty sequence of a test of a join, marked.
fn marked_absence(
    alloc: Global,
    schemas: &Schemas,
    absent: PlanPart,
) -> Result<PlanExpr, AllocError>
    ensures { IfOk result (λ e. e ≡ made_as InJoin schemas.now (place_of_operator absent.value) operators.Empty no_parts) }
{
    let (place, _outer, _carried, _form) = Box::into_inner(absent).into_parts();
    made_as(
        alloc,
        schemas,
        Role::InJoin,
        place,
        Operator::Empty,
        Vec::new(alloc),
    )
}

// The comparison of the keys of a join, marked.
fn marked_comparison(
    alloc: Global,
    schemas: &Schemas,
    comparison: PlanExpr,
) -> Result<PlanExpr, AllocError>
    requires { is_binary comparison ≡ true }
    ensures { IfOk result (λ e. e ≡ marked_comparison schemas.now comparison) }
{
    let (place, _outer, _carried, form) = comparison.into_parts();
    match form {
        Form::Binary(operator, left_key, right_key) => {
            let parts = two(alloc, Box::into_inner(left_key), Box::into_inner(right_key))?;
            made_as(
                alloc,
                schemas,
                Role::InJoin,
                place,
                Operator::Binary(operator),
                parts,
            )
        }
        _ => unreachable!(),
    }
}
