// Loops whose body is a step from the item of the loop, and those that stand for `//`.

ghost use Rattle.std.specs.Prelude.{◌≡◌, IfSome};
ghost use Rattle.gx_core.specs.Meaning.{Bindings, Context};
ghost use Rattle.gx_joins.specs.JoinedMeaning.{joined_meaning as joined};
ghost use Rattle.gx_core.specs.PathLaws.{only_nodes, ordered};
ghost use Rattle.gx_model.specs.Forest.{Forest as PlainForest};
ghost use Rattle.gx_plan.specs.declared.plan.Role.{Role};
ghost use Rattle.gx_machine.specs.Joining.{loop_meant, loop_unmarked};
ghost use Rattle.gx_machine.specs.StepLoops.{steps_meaning};

use gx_core::expression::{Binder, Form};
use gx_plan::plan::PlanExpr;
use gx_types::step::{Axis, Test};

// A loop whose body is a step from its variable, along an axis and with a test.
#[derive(Clone, Copy)]
pub(crate) struct StepLoop<'a> {
    pub(crate) binder: &'a Binder,
    pub(crate) axis: Axis,
    pub(crate) test: &'a Test,
    pub(crate) source: &'a PlanExpr,
}

// The loop of steps that a `for` is, if it has no position and its body is a step from its variable.
pub(crate) fn loop_of_steps<'a>(
    binder: &'a Binder,
    position: u32,
    source: &'a PlanExpr,
    body: &'a PlanExpr,
) -> Option<StepLoop<'a>>
    ensures alone { (k : Context) → IfSome result (λ steps. loop_unmarked k binder.now position source.now body.now ≡ steps_meaning k steps) }
    ensures marked { (k : Context) (role : Role) → IfSome result (λ steps. loop_meant k role binder.now position source.now body.now ≡ steps_meaning k steps) }
{
    match &body.form {
        Form::Step(axis, test, number) if position == 0 && *number == binder.variable => {
            Some(StepLoop {
                binder,
                axis: *axis,
                test,
                source,
            })
        }
        _ => None,
    }
}

// The loop of steps that an expression is, if it is one.
fn steps_of<'a>(expression: &'a PlanExpr) -> Option<StepLoop<'a>>
    ensures { (k : Context) → IfSome result (λ steps. joined k expression.now ≡ steps_meaning k steps) }
{
    match &expression.form {
        Form::For(binder, position, source, body) => loop_of_steps(binder, *position, source, body),
        _ => None,
    }
}

// What an expression puts in document order, if it is nodes in document order.
fn ordered_part<'a>(expression: &'a PlanExpr) -> Option<&'a PlanExpr>
    ensures { (k : Context) → IfSome result (λ operand. joined k expression.now ≡ only_nodes k (ordered k (joined k operand.now))) }
{
    match &expression.form {
        Form::Nodes(nodes) => match &nodes.form {
            Form::Order(operand) => Some(operand),
            _ => None,
        },
        _ => None,
    }
}

// The descendants that are the same as an operand in document order, if it is the children of all nodes at and below a source.
pub(crate) fn descendants_of<'a>(operand: &'a PlanExpr) -> Option<StepLoop<'a>>
    ensures { (k : Context) (bindings : Bindings) (forest : PlainForest) → IfSome result (λ steps. ordered k (joined k operand.now) bindings forest ≡ ordered k (steps_meaning k steps) bindings forest) }
{
    let children = steps_of(operand)?;
    let below = steps_of(ordered_part(children.source)?)?;
    match (children.axis, below.axis, below.test) {
        (Axis::Child, Axis::DescendantOrSelf, Test::Node) => Some(StepLoop {
            binder: below.binder,
            axis: Axis::Descendant,
            test: children.test,
            source: below.source,
        }),
        _ => None,
    }
}
