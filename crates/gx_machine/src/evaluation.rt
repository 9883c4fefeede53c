// An evaluation in its midst: the work that is left, and the values that are there.

ghost use Rattle.std.specs.Prelude.{◌≡◌, ◌⊎◌, ◌∷◌, [], List, IfOk, OnOk, IfErr};
ghost use Rattle.gx_model.specs.Forest.{Forest as PlainForest};
ghost use Rattle.gx_model.specs.Growth.{Extends};
ghost use Rattle.gx_core.specs.Meaning.{CallOutcomes, Context};
ghost use Rattle.gx_joins.specs.JoinedMeaning.{joined_meaning as joined};
ghost use Rattle.gx_machine.specs.Failing.{FailsSo};
ghost use Rattle.gx_machine.specs.Growing.{GrowsHonestly};
ghost use Rattle.gx_machine.specs.Resume.{IsNoCall, context_with, items_of, outcome_of, outcome_with};

use crate::blocks::{BlockRest, BlockWork};
use crate::change::Change;
use crate::failure::Failure;
use crate::joining::{Join, JoinWork};
use crate::locals::Locals;
use crate::looping::{Decision, Loop};
use crate::operand::count_of;
use crate::single::Single;
use crate::switching::Choice;
use crate::tuples::{Tuples, unbind_innermost};
use gx_base::stack::Stack;
use gx_core::constructor::Constructor;
use gx_core::expression::BinaryOp;
use gx_core::signature::FunctionSignature;
use gx_funcs::function::Function;
use gx_join_table::steps::Steps;
use gx_plan::plan::PlanExpr;
use gx_store::item::Item;
use gx_store::store::Store;
use gx_types::schemas::Schemas;
use gx_types::step::{Axis, Test};
use std::alloc::{AllocError, Global};
use std::sync::ledger::Ledger;

// A piece of work. The number of an operand is that of the values before it.
#[derive(Drop)]
pub(crate) enum Pending<'a> {
    // Evaluates an expression.
    Evaluate(&'a PlanExpr),
    // Changes an operand where it stands.
    Change(Change<'a>, usize),
    // Takes a step from each node of an operand.
    Steps(Axis, &'a Test, usize),
    // Applies an operator of one operand.
    Single(Single<'a>, usize),
    // Evaluates the right operand of an operator, whose left one is there.
    Right(BinaryOp, usize, &'a PlanExpr),
    // Applies an operator of two operands.
    Binary(BinaryOp, usize, usize),
    // Chooses the first branch where the operand is true, and else the second.
    Choose(usize, &'a PlanExpr, &'a PlanExpr),
    // Chooses the branch of the first case whose type the operand is of, or of the default.
    Switch(usize, Choice<'a>),
    // Marks where an argument begins.
    Mark,
    // Calls a function of two arguments and so many more, which stand behind the last marks.
    Call(Function, usize),
    // Makes a node of so many operands, which stand behind the last marks.
    Construct(&'a Constructor, usize),
    // Calls a declared function with so many arguments, which stand behind the last marks.
    Enter(&'a FunctionSignature, usize),
    // Puts the items of an operand aside for a loop.
    Gather(Loop, usize, &'a PlanExpr),
    // Repeats a body for each item put aside from the first number on; the items of this loop begin at the second.
    Each(Loop, usize, usize, &'a PlanExpr),
    // Ends a search where the value of its test decides, and else goes on.
    Decide(Decision<'a>),
    // Does a piece of the work of a block.
    Block(BlockWork, BlockRest<'a>),
    // Does a piece of the work of a join.
    Join(JoinWork, Box<Join<'a>>),
    // Binds a variable to an operand in the body of a `let`.
    Bind(u32, usize, &'a PlanExpr),
    // Takes so many innermost bindings away.
    Unbind(usize),
}

// The work that is left, the values that are there, and what stands beside them: the marks of arguments, the items that loops go over,
// what variables are bound to, and the tuples of blocks.
#[derive(Drop)]
pub(crate) struct Evaluation<'a> {
    pub(crate) work: Stack<Pending<'a>>,
    pub(crate) values: Vec<Item>,
    pub(crate) marks: Stack<usize>,
    pub(crate) sources: Vec<Item>,
    pub(crate) scope: Locals<'a>,
    pub(crate) tuples: Tuples,
}

impl<'a> Evaluation<'a> {
    // The evaluation of an expression, where these variables are in scope.
    pub(crate) fn new(
        alloc: Global,
        expression: &'a PlanExpr,
        scope: Locals<'a>,
    ) -> Result<Evaluation<'a>, AllocError>
        ensures { (k : Context) (forest later : PlainForest) → IfOk result (λ e. outcome_of k forest later e ≡ joined k expression.now (items_of later scope.entry) forest) }
    {
        let mut work = Stack::new(alloc);
        work.push(Pending::Evaluate(expression))?;
        Ok(Evaluation {
            work,
            values: Vec::new(alloc),
            marks: Stack::new(alloc),
            sources: Vec::new(alloc),
            scope,
            tuples: Tuples::new(alloc),
        })
    }

    // Does a piece of work that is no call of a declared function.
    pub(crate) fn step<L: Ledger>(
        &mut self,
        alloc: Global,
        schemas: &Schemas,
        store: &mut Store,
        pending: Pending<'a>,
        steps: &mut Steps<L>,
    ) -> Result<(), Failure>
        requires { IsNoCall pending }
        ensures grows { (store.new ≡ store.old) ⊎ GrowsHonestly schemas.now store.old store.new }
        ensures value { (calls : CallOutcomes) (later : PlainForest) → Extends store.new later → OnOk result (outcome_of (context_with schemas.now calls) store.new later self.new ≡ outcome_with (context_with schemas.now calls) store.old later pending.entry self.old) }
        ensures failed { (calls : CallOutcomes) (later : PlainForest) → Extends store.new later → IfErr result (λ e. FailsSo e (outcome_with (context_with schemas.now calls) store.old later pending.entry self.old)) }
    {
        match pending {
            Pending::Evaluate(expression) => self.open(alloc, schemas, store, expression),
            Pending::Change(operator, first) => {
                self.apply_change(alloc, schemas, store, operator, first)
            },
            Pending::Steps(axis, test, first) => {
                self.apply_steps(alloc, schemas, store, axis, test, first)
            }
            Pending::Single(operator, first) => {
                self.apply_single(alloc, schemas, store, operator, first)
            }
            Pending::Right(operator, first, right) => {
                self.open_right(alloc, schemas, store, operator, first, right)
            }
            Pending::Binary(operator, first, second) => {
                self.apply_binary(alloc, store, operator, first, second)
            }
            Pending::Choose(first, chosen, otherwise) => self.choose(first, chosen, otherwise),
            Pending::Switch(first, choice) => { self.switch(alloc, schemas, store, first, choice) },
            Pending::Mark => Ok(self.marks.push(count_of(&self.values))?),
            Pending::Construct(constructor, count) => {
                self.construct(alloc, schemas, store, constructor, count)
            }
            Pending::Enter(_, _) => unreachable!(),
            Pending::Call(function, more) => {
                self.apply_call(alloc, schemas, store, function, more)
            }
            Pending::Gather(repeated, first, body) => {
                Ok(self.gather(alloc, repeated, first, body)?)
            }
            Pending::Each(repeated, next, start, body) => {
                Ok(self.repeat(repeated, next, start, body)?)
            }
            Pending::Decide(decision) => self.decide(decision),
            Pending::Bind(variable, first, body) => Ok(self.bind(alloc, variable, first, body)?),
            Pending::Unbind(count) => Ok(unbind_innermost(&mut self.scope, count)?),
            Pending::Block(piece, rest) => self.step_block(alloc, piece, rest),
            Pending::Join(piece, join) => self.step_join(alloc, piece, join, steps),
        }
    }
}
