// The evaluation of blocks: their clauses find tuples, whose keys are evaluated as soon as they are found, and the returns follow in the
// order of the keys.

ghost use Rattle.std.specs.Prelude.{◌≡◌, ◌+◌, length, map, OnOk, IfOk, IfErr};
ghost use Rattle.gx_model.specs.Forest.{Forest as PlainForest};
ghost use Rattle.gx_core.specs.declared.operator.Operator.TheVariants as operators;
ghost use Rattle.gx_core.specs.Bindings.{clause_numbers_bound};
ghost use Rattle.gx_core.specs.ExpressionView.{kind_of_clause, order_of_key, parts_of_block};
ghost use Rattle.gx_core.specs.Meaning.{Context, denoted};
ghost use Rattle.gx_joins.specs.JoinedMeaning.{joined_meaning as joined};
ghost use Rattle.gx_machine.specs.Failing.{FailsSo};
ghost use Rattle.gx_machine.specs.FoundTuples.{bound_in_turn};
ghost use Rattle.gx_machine.specs.Resume.{items_of, outcome_of, outcome_behind, outcome_with};
ghost use Rattle.gx_machine.specs.declared.blocks.BlockRest.{BlockRest};
ghost use Rattle.gx_machine.specs.declared.blocks.BlockWork.TheVariants as block_work;
ghost use Rattle.gx_machine.specs.declared.evaluation.Pending.TheVariants as work;

use crate::bound::take_bound;
use crate::evaluation::{Evaluation, Pending};
use crate::failure::Failure;
use crate::looping::{bind_item, unbind_item};
use crate::operand::{condition_of, count_of, cut_off, move_from, values_from};
use crate::tuples::{bind_row, elements_from, innermost, key_of, numbers_in_order, row_at};
use gx_core::expression::Clause;
use gx_plan::plan::{PlanClause, PlanExpr, PlanKey};
use std::alloc::{AllocError, Global};

// What is left of a block.
#[derive(Clone, Copy)]
pub(crate) struct BlockRest<'a> {
    // The clauses that are left, and the keys.
    pub(crate) clauses: &'a [PlanClause],
    pub(crate) keys: &'a [PlanKey],
    // What is returned.
    pub(crate) body: &'a PlanExpr,
    // How many innermost bindings are those of the clauses before.
    pub(crate) bound: usize,
}

// A piece of the work of a block. `first` is the number of the values before those that it takes.
#[derive(Clone, Copy)]
pub(crate) enum BlockWork {
    // Finds the tuples of the clauses that are left.
    Walk,
    // Puts the items of a loop aside.
    Gather {
        variable: u32,
        position: u32,
        first: usize,
    },
    // Finds the tuples for each item from `next` on of those put aside; the items of this loop begin at `start`.
    Each {
        variable: u32,
        position: u32,
        number: usize,
        next: usize,
        start: usize,
    },
    // Binds a variable.
    Assign {
        variable: u32,
        first: usize,
    },
    // Goes on where a condition is true.
    Test(usize),
    // Evaluates the keys that are left.
    Keys,
    // Takes a key.
    TakeKey(usize),
    // Sorts the tuples of the block, whose keys and rows begin at these numbers.
    Sort {
        first_key: usize,
        first_row: usize,
    },
    // Returns for the tuples whose numbers stand from `next` on; the numbers of this block begin at `start`, and its rows at `first_row`.
    Return {
        next: usize,
        start: usize,
        first_row: usize,
    },
}

impl<'a> Evaluation<'a> {
    // Puts the clauses of a block to the work, and the sorting of what they find.
    pub(crate) fn open_block(
        &mut self,
        clauses: &'a [PlanClause],
        keys: &'a [PlanKey],
        body: &'a PlanExpr,
    ) -> Result<(), AllocError>
        ensures { (k : Context) (forest later : PlainForest) → OnOk result (outcome_of k forest later self.new
            ≡ outcome_behind k later (denoted k (operators.Block (map kind_of_clause clauses.now) (map order_of_key keys.now)) (map (joined k) (parts_of_block clauses.now keys.now body.now)) (items_of later self.old.scope) forest) self.old) }
    {
        let rest = BlockRest {
            clauses,
            keys,
            body,
            bound: 0,
        };
        let sort = BlockWork::Sort {
            first_key: self.tuples.keys.len(),
            first_row: self.tuples.rows.len(),
        };
        self.work.push(Pending::Block(sort, rest))?;
        self.work.push(Pending::Block(BlockWork::Walk, rest))
    }

    // Does a piece of work of a block.
    pub(crate) fn step_block(
        &mut self,
        alloc: Global,
        piece: BlockWork,
        rest: BlockRest<'a>,
    ) -> Result<(), Failure>
        ensures value { (k : Context) (forest later : PlainForest) → OnOk result (outcome_of k forest later self.new ≡ outcome_with k forest later (work.Block piece rest.entry) self.old) }
        ensures failed { (k : Context) (forest later : PlainForest) → IfErr result (λ e. FailsSo e (outcome_with k forest later (work.Block piece rest.entry) self.old)) }
    {
        match piece {
            BlockWork::Walk => Ok(self.walk(alloc, rest)?),
            BlockWork::Gather {
                variable,
                position,
                first,
            } => Ok(self.gather_tuples(alloc, variable, position, first, rest)?),
            BlockWork::Each {
                variable,
                position,
                number,
                next,
                start,
            } => Ok(self.next_tuples(variable, position, number, next, start, rest)?),
            BlockWork::Assign { variable, first } => Ok(self.assign(alloc, variable, first, rest)?),
            BlockWork::Test(first) => self.test(first, rest),
            BlockWork::Keys => Ok(self.open_keys(rest)?),
            BlockWork::TakeKey(first) => self.take_key(first),
            BlockWork::Sort {
                first_key,
                first_row,
            } => Ok(self.sort(alloc, first_key, first_row, rest)?),
            BlockWork::Return {
                next,
                start,
                first_row,
            } => self.return_next(next, start, first_row, rest),
        }
    }

    // The part of the next clause, or the keys of the tuple that is found.
    fn walk(&mut self, alloc: Global, rest: BlockRest<'a>) -> Result<(), AllocError>
        ensures { (k : Context) (forest later : PlainForest) → OnOk result (outcome_of k forest later self.new ≡ outcome_with k forest later (work.Block block_work.Walk rest.entry) self.old) }
    {
        let Some((clause, others)) = rest.clauses.split_first() else {
            let row = innermost(alloc, &self.scope, rest.bound)?;
            self.tuples.rows.push(row)?;
            return self.work.push(Pending::Block(BlockWork::Keys, rest));
        };
        let first = count_of(&self.values);
        let bound = bound_behind(clause, rest.bound)?;
        let behind = BlockRest {
            clauses: others,
            bound,
            ..rest
        };
        match clause {
            Clause::For(binder, position, source) => {
                let gather = BlockWork::Gather {
                    variable: binder.variable,
                    position: *position,
                    first,
                };
                self.open_part(source, Pending::Block(gather, behind))
            }
            Clause::Let(binder, value) => {
                let assign = BlockWork::Assign {
                    variable: binder.variable,
                    first,
                };
                self.open_part(value, Pending::Block(assign, behind))
            }
            Clause::Where(condition) => {
                self.open_part(condition, Pending::Block(BlockWork::Test(first), behind))
            }
        }
    }

    // Puts the items from the number on aside, for a loop over them.
    fn gather_tuples(
        &mut self,
        alloc: Global,
        variable: u32,
        position: u32,
        first: usize,
        rest: BlockRest<'a>,
    ) -> Result<(), AllocError>
        ensures { (k : Context) (forest later : PlainForest) → OnOk result (outcome_of k forest later self.new ≡ outcome_with k forest later (work.Block (block_work.Gather variable position first) rest.entry) self.old) }
    {
        let start = count_of(&self.sources);
        move_from(alloc, &mut self.values, first, &mut self.sources)?;
        let each = BlockWork::Each {
            variable,
            position,
            number: 1,
            next: start,
            start,
        };
        self.work.push(Pending::Block(each, rest))
    }

    // Finds the tuples for the next item, or ends the loop.
    fn next_tuples(
        &mut self,
        variable: u32,
        position: u32,
        number: usize,
        next: usize,
        start: usize,
        rest: BlockRest<'a>,
    ) -> Result<(), AllocError>
        ensures { (k : Context) (forest later : PlainForest) → OnOk result (outcome_of k forest later self.new ≡ outcome_with k forest later (work.Block (block_work.Each variable position number next start) rest.entry) self.old) }
    {
        if next >= self.sources.len() {
            cut_off(&mut self.sources, start);
            return Ok(());
        }
        let Some(following) = number.checked_add(1) else {
            return Err(AllocError);
        };
        let item = self.sources[next].clone()?;
        bind_item(&mut self.scope, variable, position, number, item)?;
        let each = BlockWork::Each {
            variable,
            position,
            number: following,
            next: next + 1,
            start,
        };
        self.work.push(Pending::Block(each, rest))?;
        unbind_item(&mut self.work, position)?;
        self.work.push(Pending::Block(BlockWork::Walk, rest))
    }

    // Binds a variable to the values from the number on, in the clauses that are left.
    fn assign(
        &mut self,
        alloc: Global,
        variable: u32,
        first: usize,
        rest: BlockRest<'a>,
    ) -> Result<(), AllocError>
        ensures { (k : Context) (forest later : PlainForest) → OnOk result (outcome_of k forest later self.new ≡ outcome_with k forest later (work.Block (block_work.Assign variable first) rest.entry) self.old) }
    {
        let bound = take_bound(alloc, &mut self.values, first)?;
        self.scope.bind(variable, bound)?;
        self.work.push(Pending::Unbind(1))?;
        self.work.push(Pending::Block(BlockWork::Walk, rest))
    }

    // Goes on to the next clause where the values from the number on are true.
    fn test(&mut self, first: usize, rest: BlockRest<'a>) -> Result<(), Failure>
        ensures value { (k : Context) (forest later : PlainForest) → OnOk result (outcome_of k forest later self.new ≡ outcome_with k forest later (work.Block (block_work.Test first) rest.entry) self.old) }
        ensures failed { (k : Context) (forest later : PlainForest) → IfErr result (λ e. FailsSo e (outcome_with k forest later (work.Block (block_work.Test first) rest.entry) self.old)) }
    {
        let condition = values_from(&self.values, first);
        let Some(truth) = condition_of(condition) else {
            return Err(Failure::Wrong);
        };
        cut_off(&mut self.values, first);
        if truth {
            Ok(self.work.push(Pending::Block(BlockWork::Walk, rest))?)
        } else {
            Ok(())
        }
    }

    // Evaluates the keys of a tuple, one after another.
    fn open_keys(&mut self, rest: BlockRest<'a>) -> Result<(), AllocError>
        ensures { (k : Context) (forest later : PlainForest) → OnOk result (outcome_of k forest later self.new ≡ outcome_with k forest later (work.Block block_work.Keys rest.entry) self.old) }
    {
        let Some((key, others)) = rest.keys.split_first() else {
            return Ok(());
        };
        let first = count_of(&self.values);
        let others = BlockRest {
            keys: others,
            ..rest
        };
        self.work.push(Pending::Block(BlockWork::Keys, others))?;
        self.work
            .push(Pending::Block(BlockWork::TakeKey(first), rest))?;
        self.work.push(Pending::Evaluate(&key.value))
    }

    // Takes the values from the number on as a key.
    fn take_key(&mut self, first: usize) -> Result<(), Failure>
        ensures value { (k : Context) (forest later : PlainForest) (rest : BlockRest) → OnOk result (outcome_of k forest later self.new ≡ outcome_with k forest later (work.Block (block_work.TakeKey first) rest) self.old) }
        ensures failed { (k : Context) (forest later : PlainForest) (rest : BlockRest) → IfErr result (λ e. FailsSo e (outcome_with k forest later (work.Block (block_work.TakeKey first) rest) self.old)) }
    {
        let value = values_from(&self.values, first);
        let Some(key) = key_of(value)? else {
            return Err(Failure::Wrong);
        };
        cut_off(&mut self.values, first);
        Ok(self.tuples.keys.push(key)?)
    }

    // Sorts the tuples of a block by their keys.
    fn sort(
        &mut self,
        alloc: Global,
        first_key: usize,
        first_row: usize,
        rest: BlockRest<'a>,
    ) -> Result<(), AllocError>
        ensures { (k : Context) (forest later : PlainForest) → OnOk result (outcome_of k forest later self.new ≡ outcome_with k forest later (work.Block (block_work.Sort first_key first_row) rest.entry) self.old) }
    {
        let own_keys = elements_from(self.tuples.keys.as_slice(), first_key);
        let count = elements_from(self.tuples.rows.as_slice(), first_row).len();
        let mut numbers = numbers_in_order(alloc, rest.keys, own_keys, count)?;
        self.tuples.keys.truncate(first_key);
        let start = self.tuples.numbers.len();
        self.tuples.numbers.append(&mut numbers)?;
        let first_return = BlockWork::Return {
            next: start,
            start,
            first_row,
        };
        self.work.push(Pending::Block(first_return, rest))
    }

    // Evaluates what is returned for the next tuple, or ends the block.
    fn return_next(
        &mut self,
        next: usize,
        start: usize,
        first_row: usize,
        rest: BlockRest<'a>,
    ) -> Result<(), Failure>
        ensures value { (k : Context) (forest later : PlainForest) → OnOk result (outcome_of k forest later self.new ≡ outcome_with k forest later (work.Block (block_work.Return next start first_row) rest.entry) self.old) }
        ensures failed { (k : Context) (forest later : PlainForest) → IfErr result (λ e. FailsSo e (outcome_with k forest later (work.Block (block_work.Return next start first_row) rest.entry) self.old)) }
    {
        if next >= self.tuples.numbers.len() {
            self.tuples.numbers.truncate(start);
            self.tuples.rows.truncate(first_row);
            return Ok(());
        }
        let number = self.tuples.numbers[next];
        let rows = elements_from(self.tuples.rows.as_slice(), first_row);
        let Some(row) = row_at(rows, number) else {
            return Err(Failure::Wrong);
        };
        let count = row.len();
        bind_row(row.as_slice(), &mut self.scope)?;
        let next_return = BlockWork::Return {
            next: next + 1,
            start,
            first_row,
        };
        self.work.push(Pending::Block(next_return, rest))?;
        self.work.push(Pending::Unbind(count))?;
        Ok(self.work.push(Pending::Evaluate(rest.body))?)
    }
}

// How many innermost bindings are those of clauses, where so many are those of the clauses before the last one.
fn bound_behind(clause: &PlanClause, before: usize) -> Result<usize, AllocError>
    ensures { IfOk result (λ bound. bound ≡ before + length (clause_numbers_bound (kind_of_clause clause.now))) }
{
    match before.checked_add(bound_by(clause)) {
        Some(bound) => Ok(bound),
        None => Err(AllocError),
    }
}

// How many variables a clause binds.
fn bound_by(clause: &PlanClause) -> usize
    ensures { result ≡ length (clause_numbers_bound (kind_of_clause clause.now)) }
{
    match clause {
        Clause::For(_, position, _) => bound_in_turn(*position),
        Clause::Let(..) => 1,
        Clause::Where(_) => 0,
    }
}

// How many variables a turn of a loop binds.
pub(crate) fn bound_in_turn(position: u32) -> usize
    ensures { result ≡ bound_in_turn position }
{
    if position == 0 { 1 } else { 2 }
}
