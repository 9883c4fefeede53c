// The tasks of switches, and of their branches.

ghost use Rattle.std.specs.Prelude.{◌≡◌, ◌≢◌, [], ◌∷◌, length, IfOk, IfErr, OnOk};
ghost use Rattle.gx_types.specs.SchemaSet.{SchemaSet};
ghost use Rattle.gx_core.specs.Expression.{annotation_of};
ghost use Rattle.gx_static.specs.Judgement.{judged};
ghost use Rattle.gx_static.specs.Typing.{continued, then_typed, judgement_of, judgement_with, EndsRejected, branches_in_order};
ghost use Rattle.gx_static.specs.declared.typing.Task.TheVariants as tasks;

use crate::error::InferError;
use crate::forms::switch_form;
use crate::typing::{Task, Typing};
use gx_base::place::Place;
use gx_base::stack::Stack;
use gx_core::cases::{Cases, TypeCase};
use gx_core::expression::CoreExpr;
use gx_types::schemas::Schemas;
use gx_types::sequence_type::Ty;
use std::alloc::{AllocError, Global};

impl Typing {
    // The branches are typed behind the operand.
    pub(crate) fn open_switch(
        &mut self,
        alloc: Global,
        place: Place,
        outer: Place,
        operand: Box<CoreExpr>,
        cases: Cases,
        default: u32,
        branches: Vec<CoreExpr>,
    ) -> Result<(), AllocError>
        ensures { (schemas : SchemaSet) → OnOk result (judgement_of schemas self.new
            ≡ then_typed (judged schemas operand.value self.old.scope) (λ t. branches_in_order schemas (annotation_of t) cases default branches.items self.old.scope
            (λ parts. continued schemas (tasks.FinishSwitch place outer cases default (length branches.items) ∷ self.old.tasks) parts self.old.scope self.old.declared.items) (t ∷ self.old.parts))) }
    {
        let count = branches.len();
        let left = stacked_cases(alloc, &cases)?;
        let branches = stacked(alloc, branches)?;
        self.tasks
            .push(Task::FinishSwitch(place, outer, cases, default, count))?;
        self.tasks.push(Task::Branches(left, default, branches))?;
        self.tasks.push(Task::Infer(Box::into_inner(operand)))
    }

    // The branches of a switch, over the operand on top.
    pub(crate) fn open_branches(
        &mut self,
        cases: Stack<TypeCase>,
        default: u32,
        branches: Stack<CoreExpr>,
    ) -> Result<(), AllocError>
        requires { self.now.parts ≢ [] }
        ensures { (schemas : SchemaSet) → OnOk result (judgement_of schemas self.new ≡ judgement_with schemas (tasks.Branches cases default branches) self.old) }
    {
        let Some(operand) = self.parts.pop() else {
            unreachable!();
        };
        let kind = operand.kind.clone()?;
        self.parts.push(operand)?;
        self.tasks
            .push(Task::NextBranch(kind, cases, default, branches))
    }

    // The next branch, with the variable of its case, or of the default, in scope.
    #[tactic(auto, using(gx_core::proofs::LoopBindings::position_is_bound))]
    pub(crate) fn next_branch(
        &mut self,
        operand: Ty,
        mut cases: Stack<TypeCase>,
        default: u32,
        mut branches: Stack<CoreExpr>,
    ) -> Result<(), AllocError>
        ensures { (schemas : SchemaSet) → OnOk result (judgement_of schemas self.new ≡ judgement_with schemas (tasks.NextBranch operand cases default branches) self.old) }
    {
        let Some(branch) = branches.pop() else {
            return Ok(());
        };
        let (variable, kind) = match cases.pop() {
            Some(case) => (case.variable, case.kind.clone()?),
            None => (default, operand.clone()?),
        };
        self.tasks
            .push(Task::NextBranch(operand, cases, default, branches))?;
        if variable != 0 {
            self.tasks.push(Task::Unbind)?;
            self.scope.bind(variable, kind)?;
        }
        self.tasks.push(Task::Infer(branch))
    }

    // Makes a switch of so many branches on top, and of the operand below them.
    #[tactic(auto, using(crate::proofs::Continuing::parts_are_there))]
    pub(crate) fn finish_switch(
        &mut self,
        alloc: Global,
        schemas: &Schemas,
        place: Place,
        outer: Place,
        cases: Cases,
        default: u32,
        count: usize,
    ) -> Result<(), InferError>
        requires { judgement_with schemas.now (tasks.FinishSwitch place outer cases default count) self.now ≢ None }
        ensures typed { OnOk result (judgement_of schemas.now self.new ≡ judgement_with schemas.now (tasks.FinishSwitch place outer cases default count) self.old) }
        ensures rejected { IfErr result (λ e. EndsRejected e (judgement_with schemas.now (tasks.FinishSwitch place outer cases default count) self.old)) }
    {
        let form = switch_form(alloc, cases, default, count, &mut self.parts)?;
        self.conclude(alloc, schemas, place, outer, form)
    }
}

// Expressions on a stack, the first one on top.
fn stacked(alloc: Global, mut items: Vec<CoreExpr>) -> Result<Stack<CoreExpr>, AllocError>
    ensures { IfOk result (λ stack. stack ≡ items.items) }
{
    let mut stack = Stack::new(alloc);
    while let Some(item) = items.pop() {
        stack.push(item)?;
    }
    Ok(stack)
}

// Cases on a stack, the first one on top.
fn stacked_cases(alloc: Global, cases: &Cases) -> Result<Stack<TypeCase>, AllocError>
    ensures { IfOk result (λ stack. stack ≡ cases.now) }
{
    let mut stack = Stack::new(alloc);
    let mut left = cases.as_slice();
    while let Some((case, front)) = left.split_last() {
        let kind = case.kind.clone()?;
        let variable = case.variable;
        stack.push(TypeCase { kind, variable })?;
        left = front;
    }
    Ok(stack)
}
