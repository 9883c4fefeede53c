// Choices: of a branch by a condition, and of one by the type of a value.

ghost use Rattle.std.specs.Prelude.{◌≡◌, ◌∷◌, [], OnOk, IfErr, map};
ghost use Rattle.gx_model.specs.Forest.{Forest as PlainForest};
ghost use Rattle.gx_model.specs.Growth.{Extends};
ghost use Rattle.gx_core.specs.declared.operator.Operator.TheVariants as operators;
ghost use Rattle.gx_core.specs.Meaning.{CallOutcomes, Context, denoted};
ghost use Rattle.gx_joins.specs.JoinedMeaning.{joined_meaning as joined};
ghost use Rattle.gx_machine.specs.Failing.{FailsSo};
ghost use Rattle.gx_machine.specs.Resume.{context_with, items_of, outcome_of, outcome_behind, outcome_with, branch_outcome};
ghost use Rattle.gx_machine.specs.declared.evaluation.Pending.TheVariants as work;

use crate::evaluation::{Evaluation, Pending};
use crate::failure::Failure;
use crate::instances::is_instance;
use crate::operand::{condition_of, count_of, cut_off, values_from};
use gx_core::cases::TypeCase;
use gx_plan::plan::PlanExpr;
use gx_store::store::Store;
use gx_types::schemas::Schemas;
use std::alloc::{AllocError, Global};

// The cases that are left, with a branch for each and one behind them for the default, and the variable of the default, or 0.
#[derive(Clone, Copy)]
pub(crate) struct Choice<'a> {
    pub(crate) cases: &'a [TypeCase],
    pub(crate) default: u32,
    pub(crate) branches: &'a [PlanExpr],
}

impl<'a> Evaluation<'a> {
    // A condition is evaluated first, and then the branch that it chooses.
    pub(crate) fn open_if(
        &mut self,
        condition: &'a PlanExpr,
        chosen: &'a PlanExpr,
        otherwise: &'a PlanExpr,
    ) -> Result<(), AllocError>
        ensures { (k : Context) (forest later : PlainForest) → OnOk result (outcome_of k forest later self.new
            ≡ outcome_behind k later (denoted k operators.If (joined k condition.now ∷ joined k chosen.now ∷ joined k otherwise.now ∷ []) (items_of later self.old.scope) forest) self.old) }
    {
        let first = count_of(&self.values);
        self.open_part(condition, Pending::Choose(first, chosen, otherwise))
    }

    // The operand of a switch is evaluated first, and then the branch that its type chooses.
    pub(crate) fn open_switch(
        &mut self,
        operand: &'a PlanExpr,
        cases: &'a [TypeCase],
        default: u32,
        branches: &'a [PlanExpr],
    ) -> Result<(), AllocError>
        ensures { (k : Context) (forest later : PlainForest) → OnOk result (outcome_of k forest later self.new
            ≡ outcome_behind k later (denoted k (operators.Switch cases.now default) (joined k operand.now ∷ map (joined k) branches.now) (items_of later self.old.scope) forest) self.old) }
    {
        let first = count_of(&self.values);
        let choice = Choice {
            cases,
            default,
            branches,
        };
        self.open_part(operand, Pending::Switch(first, choice))
    }

    // Puts the branch to the work that the values from the number on choose.
    pub(crate) fn choose(
        &mut self,
        first: usize,
        chosen: &'a PlanExpr,
        otherwise: &'a PlanExpr,
    ) -> Result<(), Failure>
        ensures value { (k : Context) (forest later : PlainForest) → OnOk result (outcome_of k forest later self.new ≡ outcome_with k forest later (work.Choose first chosen.entry otherwise.entry) self.old) }
        ensures failed { (k : Context) (forest later : PlainForest) → IfErr result (λ e. FailsSo e (outcome_with k forest later (work.Choose first chosen.entry otherwise.entry) self.old)) }
    {
        let condition = values_from(&self.values, first);
        let Some(truth) = condition_of(condition) else {
            return Err(Failure::Wrong);
        };
        cut_off(&mut self.values, first);
        if truth {
            Ok(self.work.push(Pending::Evaluate(chosen))?)
        } else {
            Ok(self.work.push(Pending::Evaluate(otherwise))?)
        }
    }

    // Puts the branch of the first case to the work whose type the values from the number on are of, or goes on to the next case.
    pub(crate) fn switch(
        &mut self,
        alloc: Global,
        schemas: &Schemas,
        store: &Store,
        first: usize,
        choice: Choice<'a>,
    ) -> Result<(), Failure>
        ensures value { (calls : CallOutcomes) (later : PlainForest) → Extends store.now later → let k = context_with schemas.now calls in OnOk result (outcome_of k store.now later self.new ≡ outcome_with k store.now later (work.Switch first choice.entry) self.old) }
        ensures failed { (calls : CallOutcomes) (later : PlainForest) → Extends store.now later → let k = context_with schemas.now calls in IfErr result (λ e. FailsSo e (outcome_with k store.now later (work.Switch first choice.entry) self.old)) }
    {
        let Some((branch, others)) = choice.branches.split_first() else {
            return Err(Failure::Wrong);
        };
        let Some((case, rest)) = choice.cases.split_first() else {
            if !others.is_empty() {
                return Err(Failure::Wrong);
            }
            return Ok(self.choose_branch(alloc, first, choice.default, branch)?);
        };
        let values = values_from(&self.values, first);
        if is_instance(schemas, store, &case.kind, values) {
            return Ok(self.choose_branch(alloc, first, case.variable, branch)?);
        }
        let next = Choice {
            cases: rest,
            default: choice.default,
            branches: others,
        };
        Ok(self.work.push(Pending::Switch(first, next))?)
    }

    // A branch, in which a variable is bound to the values from the number on where there is one.
    fn choose_branch(
        &mut self,
        alloc: Global,
        first: usize,
        variable: u32,
        branch: &'a PlanExpr,
    ) -> Result<(), AllocError>
        ensures { (k : Context) (forest later : PlainForest) → OnOk result (outcome_of k forest later self.new ≡ branch_outcome k forest later first variable branch.now self.old) }
    {
        if variable != 0 {
            return self.bind(alloc, variable, first, branch);
        }
        cut_off(&mut self.values, first);
        self.work.push(Pending::Evaluate(branch))?;
        Ok(())
    }
}
