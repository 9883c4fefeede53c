// Expressions whose nodes stand in document order, each once.

ghost use Rattle.std.specs.Prelude.{◌≡◌};
ghost use Rattle.gx_core.specs.Expression.{each_of};
ghost use Rattle.gx_core.specs.ExpressionView.{operator_of, parts_of};
ghost use Rattle.gx_core.specs.declared.operator.Operator.TheVariants as operators;
ghost use Rattle.gx_rules.specs.Guards.{is_flat, is_flat_over, is_near, is_near_step_from, gives_nodes_in_order, is_ordered, is_sorted};

use gx_core::expression::{BinaryOp, Form};
use gx_plan::plan::{Carried, PlanExpr};
use gx_types::step::Axis;

/// Whether the nodes of an expression of this form stand in document order, each once, by its operator and its parts, of which it is
/// known whether theirs do (XQuery 1.0, section 3.2).
pub fn is_flat_over(form: &Form<Carried>, parts: &[bool]) -> bool
    requires { parts.now ≡ each_of is_flat (parts_of form.now) }
    ensures { result ≡ is_flat_over (operator_of form.now) (parts_of form.now) }
{
    match form {
        Form::Step(axis, _, _) => is_near(*axis),
        Form::For(binder, position, _, body) => {
            *position == 0 && parts[0] && is_near_step_from(binder.variable, body)
        }
        Form::Let(_, _, _) => parts[1],
        Form::Order(_) => parts[0],
        _ => false,
    }
}

// Whether a step along an axis, from nodes that stand in order and beside one another, gives nodes that do.
fn is_near(axis: Axis) -> bool
    ensures { result ≡ is_near axis }
{
    matches!(axis, Axis::Child | Axis::Attribute | Axis::SelfAxis)
}

// Whether an expression is such a step from the node of a variable.
fn is_near_step_from(variable: u32, expression: &PlanExpr) -> bool
    ensures { result ≡ is_near_step_from variable expression.now }
{
    match &expression.form {
        Form::Step(axis, _, number) => is_near(*axis) && *number == variable,
        _ => false,
    }
}

/// Whether an expression gives nodes in document order, each once, as its operator does, or as the body of a `let` does.
pub fn is_sorted(expression: &PlanExpr) -> bool
    ensures { result ≡ is_sorted expression.now }
{
    match &expression.form {
        Form::Let(_, _, body) => is_ordered(body),
        form => gives_nodes_in_order(form),
    }
}

fn is_ordered(expression: &PlanExpr) -> bool
    ensures { result ≡ is_ordered expression.now }
{
    gives_nodes_in_order(&expression.form)
}

fn gives_nodes_in_order(form: &Form<Carried>) -> bool
    ensures { result ≡ gives_nodes_in_order (operator_of form.now) }
{
    match form {
        Form::Order(_) | Form::Step(_, _, _) => true,
        Form::Binary(operator, _, _) => combines_nodes(*operator),
        _ => false,
    }
}

fn combines_nodes(operator: BinaryOp) -> bool
    ensures { result ≡ gives_nodes_in_order (operators.Binary operator) }
{
    matches!(
        operator,
        BinaryOp::Union | BinaryOp::Intersect | BinaryOp::Except
    )
}
