// What is repeated for each item of an operand, and what is bound in a turn.

ghost use Rattle.std.specs.Prelude.{◌≡◌, ◌++◌, ℕ, OnOk, IfErr};
ghost use Rattle.gx_model.specs.Forest.{Forest as PlainForest};
ghost use Rattle.gx_model.specs.Item.{Items, Item as PlainItem};
ghost use Rattle.gx_core.specs.Meaning.{Context, Bindings, decides, item_bound};
ghost use Rattle.gx_store.specs.Items.{item_in};
ghost use Rattle.gx_machine.specs.Resume.{Stacks, items_of, resume, search_meaning, outcome_of, outcome_behind, outcome_with};
ghost use Rattle.gx_machine.specs.Failing.{FailsSo};
ghost use Rattle.gx_machine.specs.declared.evaluation.Pending.TheVariants as work;
ghost use Rattle.gx_machine.specs.declared.looping.Loop.TheVariants as loops;

use crate::blocks::bound_in_turn;
use crate::bound::Bound;
use crate::evaluation::{Evaluation, Pending};
use crate::failure::Failure;
use crate::locals::Locals;
use crate::operand::{condition_of, count_of, cut_off, move_from, push_atom, values_from};
use gx_base::stack::Stack;
use gx_core::expression::Binder;
use gx_funcs::function::{integer_atom, truth_atom};
use gx_plan::plan::PlanExpr;
use gx_store::item::Item;
use std::alloc::{AllocError, Global};

// The body of a `for`, with the variable of the position, or 0, and the number of the next item; or a test, up to the first item that
// decides.
#[derive(Clone, Copy)]
pub(crate) enum Loop {
    For {
        variable: u32,
        position: u32,
        number: usize,
    },
    Search {
        variable: u32,
        decisive: bool,
    },
}

// What a test decides of a search, whose value stands behind the values before `first`, and where the search goes on.
#[derive(Clone, Copy)]
pub(crate) struct Decision<'a> {
    pub(crate) variable: u32,
    pub(crate) decisive: bool,
    pub(crate) first: usize,
    pub(crate) next: usize,
    pub(crate) start: usize,
    pub(crate) test: &'a PlanExpr,
}

// Whether the truth of a test ends a search.
pub(crate) fn decides(decisive: bool, truth: bool) -> bool
    ensures { result ≡ decides decisive truth }
{
    if decisive { truth } else { !truth }
}

// Binds the item of a turn, and its number where the position has a variable.
#[tactic(auto, using(gx_core::proofs::LoopBindings::position_is_bound))]
pub(crate) fn bind_item(
    scope: &mut Locals<'_>,
    variable: u32,
    position: u32,
    number: usize,
    item: Item,
) -> Result<(), AllocError>
    ensures { (later : PlainForest) → OnOk result (items_of later scope.new ≡ item_bound variable position number (item_in later item) ++ items_of later scope.old) }
{
    if position != 0 {
        let number = Item::Atom(integer_atom(number as i128));
        scope.bind(position, Bound::One(number))?;
    }
    scope.bind(variable, Bound::One(item))
}

// Puts down that what a turn binds is taken away.
pub(crate) fn unbind_item(work: &mut Stack<Pending<'_>>, position: u32) -> Result<(), AllocError>
    ensures { (k : Context) (values : Items) (stacks : Stacks) (variable number : ℕ) (x : PlainItem) (bindings : Bindings) (forest : PlainForest)
        → OnOk result (resume k work.new values stacks (item_bound variable position number x ++ bindings) forest ≡ resume k work.old values stacks bindings forest) }
{
    work.push(Pending::Unbind(bound_in_turn(position)))
}

impl<'a> Evaluation<'a> {
    // A search: its test is evaluated for each item of its source, up to the first one that decides.
    pub(crate) fn open_search(
        &mut self,
        binder: &'a Binder,
        decisive: bool,
        source: &'a PlanExpr,
        test: &'a PlanExpr,
    ) -> Result<(), AllocError>
        ensures { (k : Context) (forest later : PlainForest) → OnOk result (outcome_of k forest later self.new
            ≡ outcome_behind k later (search_meaning k decisive binder.now.variable source.now test.now (items_of later self.old.scope) forest) self.old) }
    {
        let repeated = Loop::Search {
            variable: binder.variable,
            decisive,
        };
        let first = count_of(&self.values);
        self.open_part(source, Pending::Gather(repeated, first, test))
    }

    // Puts the items from the number on aside, for a loop over them.
    pub(crate) fn gather(
        &mut self,
        alloc: Global,
        repeated: Loop,
        first: usize,
        body: &'a PlanExpr,
    ) -> Result<(), AllocError>
        ensures { (k : Context) (forest later : PlainForest) → OnOk result (outcome_of k forest later self.new ≡ outcome_with k forest later (work.Gather repeated first body.entry) self.old) }
    {
        let start = count_of(&self.sources);
        move_from(alloc, &mut self.values, first, &mut self.sources)?;
        self.work.push(Pending::Each(repeated, start, start, body))?;
        Ok(())
    }

    // The next turn of a loop, or its end.
    pub(crate) fn repeat(
        &mut self,
        repeated: Loop,
        next: usize,
        start: usize,
        body: &'a PlanExpr,
    ) -> Result<(), AllocError>
        ensures { (k : Context) (forest later : PlainForest) → OnOk result (outcome_of k forest later self.new ≡ outcome_with k forest later (work.Each repeated next start body.entry) self.old) }
    {
        match repeated {
            Loop::For {
                variable,
                position,
                number,
            } => self.turn(variable, position, number, next, start, body),
            Loop::Search { variable, decisive } => {
                self.search(variable, decisive, next, start, body)
            }
        }
    }

    // Evaluates the body of a `for` for the next item, or ends the loop.
    fn turn(
        &mut self,
        variable: u32,
        position: u32,
        number: usize,
        next: usize,
        start: usize,
        body: &'a PlanExpr,
    ) -> Result<(), AllocError>
        ensures { (k : Context) (forest later : PlainForest) → OnOk result (outcome_of k forest later self.new ≡ outcome_with k forest later (work.Each (loops.For variable position number) next start body.entry) self.old) }
    {
        if next >= self.sources.len() {
            cut_off(&mut self.sources, start);
            return Ok(());
        }
        let Some(following) = number.checked_add(1) else {
            return Err(AllocError);
        };
        let item = self.sources[next].clone()?;
        bind_item(&mut self.scope, variable, position, number, item)?;
        let repeated = Loop::For {
            variable,
            position,
            number: following,
        };
        self.work
            .push(Pending::Each(repeated, next + 1, start, body))?;
        unbind_item(&mut self.work, position)?;
        self.work.push(Pending::Evaluate(body))?;
        Ok(())
    }

    // Evaluates a test for the next item, or ends the search, which no item decided.
    fn search(
        &mut self,
        variable: u32,
        decisive: bool,
        next: usize,
        start: usize,
        test: &'a PlanExpr,
    ) -> Result<(), AllocError>
        ensures { (k : Context) (forest later : PlainForest) → OnOk result (outcome_of k forest later self.new ≡ outcome_with k forest later (work.Each (loops.Search variable decisive) next start test.entry) self.old) }
    {
        if next >= self.sources.len() {
            cut_off(&mut self.sources, start);
            push_atom(truth_atom(!decisive), &mut self.values)?;
            return Ok(());
        }
        let first = count_of(&self.values);
        let item = self.sources[next].clone()?;
        self.scope.bind(variable, Bound::One(item))?;
        self.work.push(Pending::Decide(Decision {
            variable,
            decisive,
            first,
            next: next + 1,
            start,
            test,
        }))?;
        self.work.push(Pending::Unbind(1))?;
        self.work.push(Pending::Evaluate(test))?;
        Ok(())
    }

    // Ends a search where the values of its test decide, and else goes on.
    pub(crate) fn decide(&mut self, decision: Decision<'a>) -> Result<(), Failure>
        ensures value { (k : Context) (forest later : PlainForest) → OnOk result (outcome_of k forest later self.new ≡ outcome_with k forest later (work.Decide decision.entry) self.old) }
        ensures failed { (k : Context) (forest later : PlainForest) → IfErr result (λ e. FailsSo e (outcome_with k forest later (work.Decide decision.entry) self.old)) }
    {
        let decisive = decision.decisive;
        let tested = values_from(&self.values, decision.first);
        let Some(truth) = condition_of(tested) else {
            return Err(Failure::Wrong);
        };
        cut_off(&mut self.values, decision.first);
        if decides(decisive, truth) {
            cut_off(&mut self.sources, decision.start);
            return Ok(push_atom(truth_atom(decisive), &mut self.values)?);
        }
        let repeated = Loop::Search {
            variable: decision.variable,
            decisive,
        };
        let each = Pending::Each(repeated, decision.next, decision.start, decision.test);
        Ok(self.work.push(each)?)
    }
}
