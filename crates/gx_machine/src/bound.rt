// What variables are bound to, and how they are bound.

ghost use Rattle.std.specs.Prelude.{◌≡◌, ◌∷◌, [], IfOk, OnOk, take, drop};
ghost use Rattle.gx_model.specs.Forest.{Forest as PlainForest};
ghost use Rattle.gx_core.specs.declared.operator.Operator.TheVariants as operators;
ghost use Rattle.gx_core.specs.Meaning.{Context, denoted};
ghost use Rattle.gx_joins.specs.JoinedMeaning.{joined_meaning as joined};
ghost use Rattle.gx_store.specs.Items.{items_in};
ghost use Rattle.gx_machine.specs.BoundItems.{bound_items};
ghost use Rattle.gx_machine.specs.Resume.{items_of, outcome_of, outcome_behind, outcome_with};
ghost use Rattle.gx_machine.specs.declared.evaluation.Pending.TheVariants as work;

use crate::evaluation::{Evaluation, Pending};
use crate::operand::{count_of, pop_only, split_at};
use gx_core::expression::Binder;
use gx_plan::plan::PlanExpr;
use gx_store::item::Item;
use std::alloc::{AllocError, Global};
use std::rc::Rc;
use std::slice;

// One item, or any number of them. One takes no memory, and copies share any number.
#[derive(Drop)]
pub(crate) enum Bound {
    One(Item),
    Many(Rc<Vec<Item>>),
}

impl Bound {
    pub(crate) fn as_slice(&self) -> &[Item]
        ensures { (later : PlainForest) → items_in later result.now ≡ bound_items later self.now }
    {
        match self {
            Bound::One(item) => slice::from_ref(item),
            Bound::Many(items) => items.as_slice(),
        }
    }

    pub(crate) fn copy(&self) -> Result<Bound, AllocError>
        ensures { (later : PlainForest) → IfOk result (λ copied. bound_items later copied ≡ bound_items later self.now) }
    {
        match self {
            Bound::One(item) => Ok(Bound::One(item.clone()?)),
            Bound::Many(items) => Ok(Bound::Many(items.clone()?)),
        }
    }
}

// Takes the values from a number of them on, to be bound.
pub(crate) fn take_bound(
    alloc: Global,
    values: &mut Vec<Item>,
    first: usize,
) -> Result<Bound, AllocError>
    ensures front { (later : PlainForest) → OnOk result (items_in later values.new.items ≡ take first (items_in later values.old.items)) }
    ensures bound { (later : PlainForest) → IfOk result (λ bound. bound_items later bound ≡ drop first (items_in later values.old.items)) }
{
    if let Some(item) = pop_only(values, first) {
        return Ok(Bound::One(item));
    }
    let value = split_at(alloc, values, first)?;
    Ok(Bound::Many(Rc::new(alloc, value)?))
}

impl<'a> Evaluation<'a> {
    // A `let`: its value is evaluated first, and bound in its body.
    pub(crate) fn open_let(
        &mut self,
        binder: &'a Binder,
        value: &'a PlanExpr,
        body: &'a PlanExpr,
    ) -> Result<(), AllocError>
        ensures { (k : Context) (forest later : PlainForest) → OnOk result (outcome_of k forest later self.new
            ≡ outcome_behind k later (denoted k (operators.Let binder.now) (joined k value.now ∷ joined k body.now ∷ []) (items_of later self.old.scope) forest) self.old) }
    {
        let first = count_of(&self.values);
        self.open_part(value, Pending::Bind(binder.variable, first, body))
    }

    // Binds a variable to the values from the number on, in the body of a `let`.
    pub(crate) fn bind(
        &mut self,
        alloc: Global,
        variable: u32,
        first: usize,
        body: &'a PlanExpr,
    ) -> Result<(), AllocError>
        ensures { (k : Context) (forest later : PlainForest) → OnOk result (outcome_of k forest later self.new ≡ outcome_with k forest later (work.Bind variable first body.entry) self.old) }
    {
        let bound = take_bound(alloc, &mut self.values, first)?;
        self.scope.bind(variable, bound)?;
        self.work.push(Pending::Unbind(1))?;
        self.work.push(Pending::Evaluate(body))?;
        Ok(())
    }
}
