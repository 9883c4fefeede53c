// Operators are applied, to operands at hand or to those that have been evaluated.

ghost use Rattle.std.specs.Prelude.{◌≡◌, ◌∷◌, [], IfOk, OnOk, IfErr, IfSome};
ghost use Rattle.gx_model.specs.Forest.{Forest as PlainForest};
ghost use Rattle.gx_model.specs.Growth.{Extends};
ghost use Rattle.gx_core.specs.declared.operator.Operator.TheVariants as operators;
ghost use Rattle.gx_core.specs.Outcome.{gives};
ghost use Rattle.gx_core.specs.Meaning.{CallOutcomes, Context, denoted};
ghost use Rattle.gx_joins.specs.JoinedMeaning.{joined_meaning as joined};
ghost use Rattle.gx_store.specs.Items.{items_in};
ghost use Rattle.gx_machine.specs.Answering.{answer_items, AnswerFits};
ghost use Rattle.gx_machine.specs.Failing.{FailsSo};
ghost use Rattle.gx_machine.specs.Operators.{single_operator, changing_operator};
ghost use Rattle.gx_machine.specs.Resume.{context_with, outcome_of, outcome_with, outcome_behind, items_of, right_meaning};
ghost use Rattle.gx_machine.specs.declared.evaluation.Pending.TheVariants as work;

use crate::answer::{Answer, of_two, put};
use crate::change::{Change, change_values};
use crate::evaluation::{Evaluation, Pending};
use crate::failure::Failure;
use crate::hand::at_hand;
use crate::operand::{count_of, cut_at, cut_off, values_from};
use crate::single::{Single, of_one};
use gx_core::expression::BinaryOp;
use gx_plan::plan::PlanExpr;
use gx_store::store::Store;
use gx_types::schemas::Schemas;
use std::alloc::{AllocError, Global};

impl<'a> Evaluation<'a> {
    // An operator of one operand is applied at once where the operand is at hand.
    pub(crate) fn open_single(
        &mut self,
        alloc: Global,
        schemas: &Schemas,
        store: &Store,
        operator: Single<'a>,
        operand: &'a PlanExpr,
    ) -> Result<(), Failure>
        ensures value { (calls : CallOutcomes) (later : PlainForest) → Extends store.now later → let k = context_with schemas.now calls in OnOk result (outcome_of k store.now later self.new
            ≡ outcome_behind k later (denoted k (single_operator operator.entry) (joined k operand.now ∷ []) (items_of later self.old.scope) store.now) self.old) }
        ensures failed { (calls : CallOutcomes) (later : PlainForest) → Extends store.now later → let k = context_with schemas.now calls in IfErr result (λ e. FailsSo e
            (outcome_behind k later (denoted k (single_operator operator.entry) (joined k operand.now ∷ []) (items_of later self.old.scope) store.now) self.old)) }
    {
        if let Some(answer) = self.single_at_hand(alloc, schemas, store, operator, operand)? {
            return Ok(put(answer, &mut self.values)?);
        }
        let first = count_of(&self.values);
        self.work.push(Pending::Single(operator, first))?;
        Ok(self.work.push(Pending::Evaluate(operand))?)
    }

    // What an operator makes of its operand, where that is at hand.
    fn single_at_hand(
        &self,
        alloc: Global,
        schemas: &Schemas,
        store: &Store,
        operator: Single<'a>,
        operand: &PlanExpr,
    ) -> Result<Option<Answer>, Failure>
        ensures value { (calls : CallOutcomes) (later : PlainForest) → Extends store.now later → let k = context_with schemas.now calls in IfOk result (λ found. IfSome found (λ r.
            denoted k (single_operator operator.entry) (joined k operand.now ∷ []) (items_of later self.now.scope) store.now ≡ gives (answer_items later r) store.now)) }
        ensures fits { IfOk result (λ found. IfSome found AnswerFits) }
        ensures failed { (calls : CallOutcomes) (later : PlainForest) → Extends store.now later → let k = context_with schemas.now calls in IfErr result (λ e. FailsSo e (denoted k (single_operator operator.entry) (joined k operand.now ∷ []) (items_of later self.now.scope) store.now)) }
    {
        match at_hand(schemas, store, &self.scope, operand)? {
            Some(hand) => Ok(Some(of_one(alloc, schemas, store, operator, hand.as_slice())?)),
            None => Ok(None),
        }
    }

    // Applies an operator to the values from the number on.
    pub(crate) fn apply_single(
        &mut self,
        alloc: Global,
        schemas: &Schemas,
        store: &Store,
        operator: Single<'a>,
        first: usize,
    ) -> Result<(), Failure>
        ensures value { (calls : CallOutcomes) (later : PlainForest) → Extends store.now later → let k = context_with schemas.now calls in OnOk result (outcome_of k store.now later self.new ≡ outcome_with k store.now later (work.Single operator.entry first) self.old) }
        ensures failed { (calls : CallOutcomes) (later : PlainForest) → Extends store.now later → let k = context_with schemas.now calls in IfErr result (λ e. FailsSo e (outcome_with k store.now later (work.Single operator.entry first) self.old)) }
    {
        let operand = values_from(&self.values, first);
        let answer = of_one(alloc, schemas, store, operator, operand)?;
        cut_off(&mut self.values, first);
        Ok(put(answer, &mut self.values)?)
    }

    // An operator of two operands is applied at once where both are at hand.
    pub(crate) fn open_binary(
        &mut self,
        alloc: Global,
        schemas: &Schemas,
        store: &Store,
        operator: BinaryOp,
        left: &'a PlanExpr,
        right: &'a PlanExpr,
    ) -> Result<(), Failure>
        ensures value { (calls : CallOutcomes) (later : PlainForest) → Extends store.now later → let k = context_with schemas.now calls in OnOk result (outcome_of k store.now later self.new
            ≡ outcome_behind k later (denoted k (operators.Binary operator) (joined k left.now ∷ joined k right.now ∷ []) (items_of later self.old.scope) store.now) self.old) }
        ensures failed { (calls : CallOutcomes) (later : PlainForest) → Extends store.now later → let k = context_with schemas.now calls in IfErr result (λ e. FailsSo e
            (outcome_behind k later (denoted k (operators.Binary operator) (joined k left.now ∷ joined k right.now ∷ []) (items_of later self.old.scope) store.now) self.old)) }
    {
        if let Some(answer) = self.both_at_hand(alloc, schemas, store, operator, left, right)? {
            return Ok(put(answer, &mut self.values)?);
        }
        let first = count_of(&self.values);
        Ok(self.open_part(left, Pending::Right(operator, first, right))?)
    }

    // What an operator makes of two operands, where both are at hand.
    fn both_at_hand(
        &self,
        alloc: Global,
        schemas: &Schemas,
        store: &Store,
        operator: BinaryOp,
        left: &PlanExpr,
        right: &PlanExpr,
    ) -> Result<Option<Answer>, Failure>
        ensures value { (calls : CallOutcomes) (later : PlainForest) → Extends store.now later → let k = context_with schemas.now calls in IfOk result (λ found. IfSome found (λ r.
            denoted k (operators.Binary operator) (joined k left.now ∷ joined k right.now ∷ []) (items_of later self.now.scope) store.now ≡ gives (answer_items later r) store.now)) }
        ensures fits { IfOk result (λ found. IfSome found AnswerFits) }
        ensures failed { (calls : CallOutcomes) (later : PlainForest) → Extends store.now later → let k = context_with schemas.now calls in IfErr result (λ e. FailsSo e
            (denoted k (operators.Binary operator) (joined k left.now ∷ joined k right.now ∷ []) (items_of later self.now.scope) store.now)) }
    {
        let Some(first) = at_hand(schemas, store, &self.scope, left)? else {
            return Ok(None);
        };
        match at_hand(schemas, store, &self.scope, right)? {
            Some(second) => Ok(Some(of_two(
                alloc,
                store,
                operator.class(),
                first.as_slice(),
                second.as_slice(),
            )?)),
            None => Ok(None),
        }
    }

    // The operator of a left operand that is there is applied at once where the right one is at hand.
    pub(crate) fn open_right(
        &mut self,
        alloc: Global,
        schemas: &Schemas,
        store: &Store,
        operator: BinaryOp,
        first: usize,
        right: &'a PlanExpr,
    ) -> Result<(), Failure>
        ensures value { (calls : CallOutcomes) (later : PlainForest) → Extends store.now later → let k = context_with schemas.now calls in OnOk result (outcome_of k store.now later self.new ≡ outcome_with k store.now later (work.Right operator first right.entry) self.old) }
        ensures failed { (calls : CallOutcomes) (later : PlainForest) → Extends store.now later → let k = context_with schemas.now calls in IfErr result (λ e. FailsSo e (outcome_with k store.now later (work.Right operator first right.entry) self.old)) }
    {
        if let Some(answer) = self.right_at_hand(alloc, schemas, store, operator, first, right)? {
            cut_off(&mut self.values, first);
            return Ok(put(answer, &mut self.values)?);
        }
        let second = count_of(&self.values);
        self.work.push(Pending::Binary(operator, first, second))?;
        Ok(self.work.push(Pending::Evaluate(right))?)
    }

    // What an operator makes of a left operand that is there, where the right one is at hand.
    fn right_at_hand(
        &self,
        alloc: Global,
        schemas: &Schemas,
        store: &Store,
        operator: BinaryOp,
        first: usize,
        right: &PlanExpr,
    ) -> Result<Option<Answer>, Failure>
        ensures value { (calls : CallOutcomes) (later : PlainForest) → Extends store.now later → let k = context_with schemas.now calls in IfOk result (λ found. IfSome found (λ r.
            right_meaning k operator first right.now (items_in later self.now.values.items) (items_of later self.now.scope) store.now ≡ gives (answer_items later r) store.now)) }
        ensures fits { IfOk result (λ found. IfSome found AnswerFits) }
        ensures failed { (calls : CallOutcomes) (later : PlainForest) → Extends store.now later → let k = context_with schemas.now calls in IfErr result (λ e. FailsSo e (right_meaning k operator first right.now (items_in later self.now.values.items) (items_of later self.now.scope) store.now)) }
    {
        let left = values_from(&self.values, first);
        match at_hand(schemas, store, &self.scope, right)? {
            Some(hand) => Ok(Some(of_two(alloc, store, operator.class(), left, hand.as_slice())?)),
            None => Ok(None),
        }
    }

    // Applies an operator to two operands, the left one from the first number on, and the right one from the second.
    pub(crate) fn apply_binary(
        &mut self,
        alloc: Global,
        store: &Store,
        operator: BinaryOp,
        first: usize,
        second: usize,
    ) -> Result<(), Failure>
        ensures value { (k : Context) (later : PlainForest) → Extends store.now later → OnOk result (outcome_of k store.now later self.new ≡ outcome_with k store.now later (work.Binary operator first second) self.old) }
        ensures failed { (k : Context) (later : PlainForest) → Extends store.now later → IfErr result (λ e. FailsSo e (outcome_with k store.now later (work.Binary operator first second) self.old)) }
    {
        let (left, right) = cut_at(self.values.as_slice(), second);
        let (_, left) = cut_at(left, first);
        let answer = of_two(alloc, store, operator.class(), left, right)?;
        cut_off(&mut self.values, second);
        cut_off(&mut self.values, first);
        Ok(put(answer, &mut self.values)?)
    }

    // An operand that is to be changed where it stands.
    pub(crate) fn open_change(
        &mut self,
        operator: Change<'a>,
        operand: &'a PlanExpr,
    ) -> Result<(), AllocError>
        ensures { (k : Context) (forest later : PlainForest) → OnOk result (outcome_of k forest later self.new
            ≡ outcome_behind k later (denoted k (changing_operator operator.entry) (joined k operand.now ∷ []) (items_of later self.old.scope) forest) self.old) }
    {
        self.work
            .push(Pending::Change(operator, count_of(&self.values)))?;
        self.work.push(Pending::Evaluate(operand))
    }

    // Changes the values from the number on.
    pub(crate) fn apply_change(
        &mut self,
        alloc: Global,
        schemas: &Schemas,
        store: &Store,
        operator: Change<'a>,
        first: usize,
    ) -> Result<(), Failure>
        ensures value { (calls : CallOutcomes) (later : PlainForest) → Extends store.now later → let k = context_with schemas.now calls in OnOk result (outcome_of k store.now later self.new ≡ outcome_with k store.now later (work.Change operator.entry first) self.old) }
        ensures failed { (calls : CallOutcomes) (later : PlainForest) → Extends store.now later → let k = context_with schemas.now calls in IfErr result (λ e. FailsSo e (outcome_with k store.now later (work.Change operator.entry first) self.old)) }
    {
        change_values(alloc, schemas, store, operator, first, &mut self.values)?;
        Ok(())
    }
}
