// Operands of which each is marked.

ghost use Rattle.std.specs.Prelude.{◌≡◌, ℕ, List, map, length, OnOk};
ghost use Rattle.gx_model.specs.Forest.{Forest as PlainForest};
ghost use Rattle.gx_model.specs.Item.{Items};
ghost use Rattle.gx_core.specs.declared.operator.Operator.TheVariants as operators;
ghost use Rattle.gx_core.specs.Meaning.{Context, Bindings, denoted};
ghost use Rattle.gx_joins.specs.JoinedMeaning.{joined_meaning as joined};
ghost use Rattle.gx_machine.specs.Resume.{Stacks, in_order, items_of, outcome_of, outcome_behind, resume_marked};

use crate::evaluation::{Evaluation, Pending};
use gx_base::stack::Stack;
use gx_core::signature::FunctionSignature;
use gx_plan::plan::PlanExpr;
use std::alloc::AllocError;

// Puts down that parts are evaluated from the left, each with a mark of its own.
pub(crate) fn mark_parts<'a>(
    parts: &'a [PlanExpr],
    work: &mut Stack<Pending<'a>>,
) -> Result<(), AllocError>
    ensures { (k : Context) (stacks : Stacks) (values : Items) (marks : List ℕ) (bindings : Bindings) (forest : PlainForest) → OnOk result (
        resume_marked k work.new stacks values marks bindings forest ≡ in_order (map (joined k) parts.now) (resume_marked k work.old stacks) values marks bindings forest) }
{
    let mut rest = parts;
    while let Some((part, front)) = rest.split_last() {
        work.push(Pending::Evaluate(part))?;
        work.push(Pending::Mark)?;
        rest = front;
    }
    Ok(())
}

impl<'a> Evaluation<'a> {
    // A call of a declared function: each argument is marked and evaluated, from the left.
    pub(crate) fn open_user_call(
        &mut self,
        signature: &'a FunctionSignature,
        arguments: &'a [PlanExpr],
    ) -> Result<(), AllocError>
        ensures { (k : Context) (forest later : PlainForest) → OnOk result (outcome_of k forest later self.new
            ≡ outcome_behind k later (denoted k (operators.User signature.now (length arguments.now)) (map (joined k) arguments.now) (items_of later self.old.scope) forest) self.old) }
    {
        self.work.push(Pending::Enter(signature, arguments.len()))?;
        mark_parts(arguments, &mut self.work)?;
        Ok(())
    }
}
