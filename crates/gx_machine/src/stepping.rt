// Steps from many nodes at once.

ghost use Rattle.std.specs.Prelude.{◌≡◌, ◌++◌, ◌∷◌, [], OnOk, IfOk, IfErr, map};
ghost use Rattle.gx_model.specs.Forest.{Forest as PlainForest};
ghost use Rattle.gx_model.specs.Growth.{Extends};
ghost use Rattle.gx_model.specs.Item.{Items, node};
ghost use Rattle.gx_core.specs.Meaning.{CallOutcomes, Context};
ghost use Rattle.gx_joins.specs.JoinedMeaning.{joined_meaning as joined};
ghost use Rattle.gx_core.specs.Outcome.{gives};
ghost use Rattle.gx_core.specs.PathLaws.{ordered, stepped_from_each};
ghost use Rattle.gx_store.specs.Items.{items_in};
ghost use Rattle.gx_store.specs.Places.{node_places};
ghost use Rattle.gx_machine.specs.Failing.{FailsSo};
ghost use Rattle.gx_machine.specs.Resume.{context_with, items_of, outcome_behind, outcome_of, outcome_with};
ghost use Rattle.gx_machine.specs.Joining.{loop_unmarked};
ghost use Rattle.gx_machine.specs.StepLoops.{steps_meaning};
ghost use Rattle.gx_machine.specs.declared.evaluation.Pending.TheVariants as work;

use crate::change::Change;
use crate::evaluation::{Evaluation, Pending};
use crate::failure::Failure;
use crate::looping::Loop;
use crate::nodes::{append_nodes, stepped};
use crate::operand::{count_of, cut_off, values_from};
use crate::paths::{StepLoop, descendants_of, loop_of_steps};
use gx_core::expression::Binder;
use gx_plan::plan::PlanExpr;
use gx_store::item::Item;
use gx_store::number::NodeId;
use gx_store::store::Store;
use gx_types::schemas::Schemas;
use gx_types::step::{Axis, Test};
use std::alloc::{AllocError, Global};
use std::slice;

impl<'a> Evaluation<'a> {
    // A `for`: steps from the items of its source are made at once, and any other body is repeated for each item.
    pub(crate) fn open_loop(
        &mut self,
        binder: &'a Binder,
        position: u32,
        source: &'a PlanExpr,
        body: &'a PlanExpr,
    ) -> Result<(), AllocError>
        ensures { (k : Context) (forest later : PlainForest) → OnOk result (outcome_of k forest later self.new
            ≡ outcome_behind k later (loop_unmarked k binder.now position source.now body.now (items_of later self.old.scope) forest) self.old) }
    {
        if let Some(steps) = loop_of_steps(binder, position, source, body) {
            return self.open_steps(steps);
        }
        let repeated = Loop::For {
            variable: binder.variable,
            position,
            number: 1,
        };
        let first = count_of(&self.values);
        self.open_part(source, Pending::Gather(repeated, first, body))
    }

    // An operand that is put in document order: the children of all nodes at and below a source are found as its descendants.
    pub(crate) fn open_ordered(&mut self, operand: &'a PlanExpr) -> Result<(), AllocError>
        ensures { (k : Context) (forest later : PlainForest) → OnOk result (outcome_of k forest later self.new
            ≡ outcome_behind k later (ordered k (joined k operand.now) (items_of later self.old.scope) forest) self.old) }
    {
        let first = count_of(&self.values);
        self.work.push(Pending::Change(Change::Order, first))?;
        match descendants_of(operand) {
            Some(steps) => self.open_steps(steps),
            None => self.work.push(Pending::Evaluate(operand)),
        }
    }

    fn open_steps(&mut self, steps: StepLoop<'a>) -> Result<(), AllocError>
        ensures { (k : Context) (forest later : PlainForest) → OnOk result (outcome_of k forest later self.new
            ≡ outcome_behind k later (steps_meaning k steps.entry (items_of later self.old.scope) forest) self.old) }
    {
        let first = count_of(&self.values);
        let behind = Pending::Steps(steps.axis, steps.test, first);
        self.open_part(steps.source, behind)
    }

    // Puts what a step from each of the values from the number on gives in their place.
    pub(crate) fn apply_steps(
        &mut self,
        alloc: Global,
        schemas: &Schemas,
        store: &Store,
        axis: Axis,
        test: &Test,
        first: usize,
    ) -> Result<(), Failure>
        ensures value { (calls : CallOutcomes) (later : PlainForest) → Extends store.now later → let k = context_with schemas.now calls in OnOk result (outcome_of k store.now later self.new ≡ outcome_with k store.now later (work.Steps axis test.entry first) self.old) }
        ensures failed { (calls : CallOutcomes) (later : PlainForest) → Extends store.now later → let k = context_with schemas.now calls in IfErr result (λ e. FailsSo e (outcome_with k store.now later (work.Steps axis test.entry first) self.old)) }
    {
        let operand = values_from(&self.values, first);
        let found = stepped_from_each(alloc, schemas, store, axis, test, operand)?;
        cut_off(&mut self.values, first);
        Ok(append_nodes(found.as_slice(), &mut self.values)?)
    }
}

// The nodes on an axis from each of an operand's nodes, one behind another.
fn stepped_from_each(
    alloc: Global,
    schemas: &Schemas,
    store: &Store,
    axis: Axis,
    test: &Test,
    operand: &[Item],
) -> Result<Vec<NodeId>, Failure>
    ensures value { (later : PlainForest) (done : Items) → Extends store.now later → IfOk result (λ found.
        stepped_from_each schemas.now axis test.now done (items_in later operand.now) store.now ≡ gives (done ++ map node (node_places later found.items)) store.now) }
    ensures failed { (later : PlainForest) (done : Items) → Extends store.now later → IfErr result (λ e. FailsSo e (stepped_from_each schemas.now axis test.now done (items_in later operand.now) store.now)) }
{
    match operand {
        [_] => stepped(schemas, store, axis, test, operand),
        _ => stepped_from_many(alloc, schemas, store, axis, test, operand),
    }
}

fn stepped_from_many(
    alloc: Global,
    schemas: &Schemas,
    store: &Store,
    axis: Axis,
    test: &Test,
    operand: &[Item],
) -> Result<Vec<NodeId>, Failure>
    ensures value { (later : PlainForest) (done : Items) → Extends store.now later → IfOk result (λ found.
        stepped_from_each schemas.now axis test.now done (items_in later operand.now) store.now ≡ gives (done ++ map node (node_places later found.items)) store.now) }
    ensures failed { (later : PlainForest) (done : Items) → Extends store.now later → IfErr result (λ e. FailsSo e (stepped_from_each schemas.now axis test.now done (items_in later operand.now) store.now)) }
{
    let mut found = Vec::new(alloc);
    for item in operand {
        let mut more = stepped(schemas, store, axis, test, slice::from_ref(item))?;
        found.append(&mut more)?;
    }
    Ok(found)
}
