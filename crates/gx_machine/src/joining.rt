// Joins: the right items stand in a table under their keys, in which those are looked up that have a key of a left item.

ghost use Rattle.std.specs.Prelude.{◌≡◌, IfOk, OnOk, IfErr, MatchOption, option_map};
ghost use Rattle.gx_model.specs.Forest.{Forest as PlainForest};
ghost use Rattle.gx_core.specs.Meaning.{Context};
ghost use Rattle.gx_joins.specs.HashJoin.{hash_join, keys_of_items as keys_of};
ghost use Rattle.gx_joins.specs.JoinedMeaning.{inner_loop, joined_meaning as joined, keys_compared, pairs_tested};
ghost use Rattle.gx_store.specs.Items.{items_in};
ghost use Rattle.gx_machine.specs.Failing.{FailsSo};
ghost use Rattle.gx_machine.specs.Joining.{join_meant, loop_meant, loop_unmarked};
ghost use Rattle.gx_machine.specs.Resume.{items_of, outcome_of, outcome_behind, outcome_with};
ghost use Rattle.gx_machine.specs.declared.evaluation.Pending.TheVariants as work;
ghost use Rattle.gx_machine.specs.declared.joining.JoinWork.TheVariants as join_work;

use crate::bound::Bound;
use crate::evaluation::{Evaluation, Pending};
use crate::failure::Failure;
use crate::operand::{count_of, cut_at, cut_off, item_at, move_from, values_from};
use gx_atomic::{JoinKey, key};
use gx_core::expression::{BinaryOp, Binder, Form};
use gx_join_table::join_table::JoinTable;
use gx_join_table::steps::Steps;
use gx_plan::plan::{PlanExpr, Role};
use gx_store::item::Item;
use std::alloc::{AllocError, Global};
use std::sync::ledger::Ledger;

// A join: its variables, its sources, its keys, and what there is for each pair with an equal key.
#[derive(Drop)]
pub(crate) struct Join<'a> {
    pub(crate) left: u32,
    pub(crate) right: u32,
    pub(crate) source: &'a PlanExpr,
    pub(crate) other: &'a PlanExpr,
    pub(crate) left_key: &'a PlanExpr,
    pub(crate) right_key: &'a PlanExpr,
    pub(crate) result: &'a PlanExpr,
}

// Where the items of a join stand among those that are put aside: the left ones begin at `left`, and the right ones at `right`.
#[derive(Clone, Copy)]
pub(crate) struct Sides {
    pub(crate) left: usize,
    pub(crate) right: usize,
}

// A piece of the work of a join. `first` is the number of the values before those that it takes, and `next` the place of the next item.
#[derive(Drop)]
pub(crate) enum JoinWork {
    // Puts the left items aside.
    Left {
        first: usize,
    },
    // Puts the right items aside, which stand behind the left ones from `left` on.
    Right {
        left: usize,
        first: usize,
    },
    // Finds the keys of the next right item.
    Build {
        table: Box<JoinTable>,
        sides: Sides,
        next: usize,
    },
    // Puts the keys of a right item into the table.
    Keep {
        table: Box<JoinTable>,
        sides: Sides,
        next: usize,
        first: usize,
    },
    // Finds the keys of the next left item.
    Probe {
        table: Box<JoinTable>,
        sides: Sides,
        next: usize,
    },
    // Looks up the right items that have one of the keys of a left item.
    Find {
        table: Box<JoinTable>,
        sides: Sides,
        next: usize,
        first: usize,
    },
    // Evaluates the result for the right items that were found, from `row` on of their numbers.
    Pairs {
        table: Box<JoinTable>,
        sides: Sides,
        next: usize,
        rows: Vec<usize>,
        row: usize,
    },
}

// The join that a loop is, if it is one.
pub(crate) fn join_of<'a>(
    role: Role,
    binder: &'a Binder,
    position: u32,
    source: &'a PlanExpr,
    body: &'a PlanExpr,
) -> Option<Join<'a>>
    ensures { (k : Context) → MatchOption result
        (loop_meant k role binder.now position source.now body.now ≡ loop_unmarked k binder.now position source.now body.now)
        (λ join. loop_meant k role binder.now position source.now body.now ≡ hash_join (join_meant k join)) }
{
    if position != 0 {
        return None;
    }
    match role {
        Role::Join => inner_loop(binder.variable, source, body),
        Role::Own | Role::InJoin => None,
    }
}

// The join whose left variable and source these are, and whose inner loop is this expression.
fn inner_loop<'a>(left: u32, source: &'a PlanExpr, body: &'a PlanExpr) -> Option<Join<'a>>
    ensures { (k : Context) → inner_loop k left (joined k source.now) body.now ≡ option_map (join_meant k) result }
{
    let Form::For(binder, position, other, test) = &body.form else {
        return None;
    };
    if *position != 0 {
        return None;
    }
    pairs_tested(left, binder.variable, source, other, test)
}

// The join over these variables and sources whose test is this expression.
fn pairs_tested<'a>(
    left: u32,
    right: u32,
    source: &'a PlanExpr,
    other: &'a PlanExpr,
    test: &'a PlanExpr,
) -> Option<Join<'a>>
    ensures { (k : Context) → pairs_tested k left right (joined k source.now) (joined k other.now) test.now ≡ option_map (join_meant k) result }
{
    let Form::If(comparison, result, absent) = &test.form else {
        return None;
    };
    let Form::Empty = &absent.form else {
        return None;
    };
    keys_compared(left, right, source, other, result, comparison)
}

// The join over these variables and sources with this result whose keys are compared by this expression.
fn keys_compared<'a>(
    left: u32,
    right: u32,
    source: &'a PlanExpr,
    other: &'a PlanExpr,
    chosen: &'a PlanExpr,
    comparison: &'a PlanExpr,
) -> Option<Join<'a>>
    ensures { (k : Context) → keys_compared k left right (joined k source.now) (joined k other.now) (joined k chosen.now) comparison.now ≡ option_map (join_meant k) result }
{
    let Form::Binary(operator, left_key, right_key) = &comparison.form else {
        return None;
    };
    let BinaryOp::AnyEq = operator else {
        return None;
    };
    Some(Join {
        left,
        right,
        source,
        other,
        left_key,
        right_key,
        result: chosen,
    })
}

// The keys of a value, if no item of it is a node.
fn keys_of(alloc: Global, items: &[Item]) -> Result<Option<Vec<JoinKey>>, AllocError>
    ensures { (later : PlainForest) → IfOk result (λ found. keys_of (items_in later items.now) ≡ option_map (λ keys. keys.items) found) }
{
    let mut keys = Vec::with_capacity(alloc, items.len())?;
    for item in items {
        match item {
            Item::Atom(value) => keys.push(key(value)?)?,
            Item::Node(_) => return Ok(None),
        }
    }
    Ok(Some(keys))
}

impl<'a> Evaluation<'a> {
    // A loop: a join is evaluated by a table, and any other loop by turns.
    pub(crate) fn open_for(
        &mut self,
        alloc: Global,
        role: Role,
        binder: &'a Binder,
        position: u32,
        source: &'a PlanExpr,
        body: &'a PlanExpr,
    ) -> Result<(), AllocError>
        ensures { (k : Context) (forest later : PlainForest) → OnOk result (outcome_of k forest later self.new
            ≡ outcome_behind k later (loop_meant k role binder.now position source.now body.now (items_of later self.old.scope) forest) self.old) }
    {
        match join_of(role, binder, position, source, body) {
            Some(join) => self.open_join(Box::new(alloc, join)?),
            None => self.open_loop(binder, position, source, body),
        }
    }

    // A join: its left source is evaluated first.
    fn open_join(&mut self, join: Box<Join<'a>>) -> Result<(), AllocError>
        ensures { (k : Context) (forest later : PlainForest) → OnOk result (outcome_of k forest later self.new
            ≡ outcome_behind k later (hash_join (join_meant k join.entry.value) (items_of later self.old.scope) forest) self.old) }
    {
        let first = count_of(&self.values);
        let source = join.source;
        self.open_part(source, Pending::Join(JoinWork::Left { first }, join))
    }

    // Does a piece of the work of a join.
    pub(crate) fn step_join<L: Ledger>(
        &mut self,
        alloc: Global,
        piece: JoinWork,
        join: Box<Join<'a>>,
        steps: &mut Steps<L>,
    ) -> Result<(), Failure>
        ensures value { (k : Context) (forest later : PlainForest) → OnOk result (outcome_of k forest later self.new ≡ outcome_with k forest later (work.Join piece join.entry) self.old) }
        ensures failed { (k : Context) (forest later : PlainForest) → IfErr result (λ e. FailsSo e (outcome_with k forest later (work.Join piece join.entry) self.old)) }
    {
        match piece {
            JoinWork::Left { first } => Ok(self.put_left(alloc, first, join)?),
            JoinWork::Right { left, first } => Ok(self.put_right(alloc, left, first, join)?),
            JoinWork::Build { table, sides, next } => Ok(self.build(table, sides, next, join)?),
            JoinWork::Keep {
                table,
                sides,
                next,
                first,
            } => self.keep(alloc, table, sides, next, first, join, steps),
            JoinWork::Probe { table, sides, next } => Ok(self.probe(table, sides, next, join)?),
            JoinWork::Find {
                table,
                sides,
                next,
                first,
            } => self.find(alloc, table, sides, next, first, join, steps),
            JoinWork::Pairs {
                table,
                sides,
                next,
                rows,
                row,
            } => self.pair(table, sides, next, rows, row, join),
        }
    }

    // Where there are left items, they are put aside, and the right source is evaluated.
    fn put_left(
        &mut self,
        alloc: Global,
        first: usize,
        join: Box<Join<'a>>,
    ) -> Result<(), AllocError>
        ensures { (k : Context) (forest later : PlainForest) → OnOk result (outcome_of k forest later self.new ≡ outcome_with k forest later (work.Join (join_work.Left first) join.entry) self.old) }
    {
        if count_of(&self.values) <= first {
            return Ok(());
        }
        let left = count_of(&self.sources);
        move_from(alloc, &mut self.values, first, &mut self.sources)?;
        let first = count_of(&self.values);
        let other = join.other;
        let right = JoinWork::Right { left, first };
        self.open_part(other, Pending::Join(right, join))
    }

    // Where there are right items, they are put aside, and a table is begun; else the join is at its end.
    fn put_right(
        &mut self,
        alloc: Global,
        left: usize,
        first: usize,
        join: Box<Join<'a>>,
    ) -> Result<(), AllocError>
        ensures { (k : Context) (forest later : PlainForest) → OnOk result (outcome_of k forest later self.new ≡ outcome_with k forest later (work.Join (join_work.Right left first) join.entry) self.old) }
    {
        if count_of(&self.values) <= first {
            cut_off(&mut self.sources, left);
            return Ok(());
        }
        let right = count_of(&self.sources);
        move_from(alloc, &mut self.values, first, &mut self.sources)?;
        let build = JoinWork::Build {
            table: Box::new(alloc, JoinTable::new(alloc))?,
            sides: Sides { left, right },
            next: right,
        };
        self.work.push(Pending::Join(build, join))
    }

    // The key of the next right item is evaluated; behind the last one the left items are looked up.
    fn build(
        &mut self,
        table: Box<JoinTable>,
        sides: Sides,
        next: usize,
        join: Box<Join<'a>>,
    ) -> Result<(), AllocError>
        ensures { (k : Context) (forest later : PlainForest) → OnOk result (outcome_of k forest later self.new ≡ outcome_with k forest later (work.Join (join_work.Build table sides next) join.entry) self.old) }
    {
        if next >= self.sources.len() {
            let probe = JoinWork::Probe {
                table,
                sides,
                next: sides.left,
            };
            return self.work.push(Pending::Join(probe, join));
        }
        let item = self.sources[next].clone()?;
        self.scope.bind(join.right, Bound::One(item))?;
        let first = count_of(&self.values);
        let keep = JoinWork::Keep {
            table,
            sides,
            next: next + 1,
            first,
        };
        let right_key = join.right_key;
        self.work.push(Pending::Join(keep, join))?;
        self.work.push(Pending::Unbind(1))?;
        self.work.push(Pending::Evaluate(right_key))
    }

    // The keys of a right item are put into the table.
    fn keep<L: Ledger>(
        &mut self,
        alloc: Global,
        table: Box<JoinTable>,
        sides: Sides,
        next: usize,
        first: usize,
        join: Box<Join<'a>>,
        steps: &mut Steps<L>,
    ) -> Result<(), Failure>
        ensures value { (k : Context) (forest later : PlainForest) → OnOk result (outcome_of k forest later self.new ≡ outcome_with k forest later (work.Join (join_work.Keep table sides next first) join.entry) self.old) }
        ensures failed { (k : Context) (forest later : PlainForest) → IfErr result (λ e. FailsSo e (outcome_with k forest later (work.Join (join_work.Keep table sides next first) join.entry) self.old)) }
    {
        let Some(keys) = keys_of(alloc, values_from(&self.values, first))? else {
            return Err(Failure::Wrong);
        };
        cut_off(&mut self.values, first);
        let mut table = table;
        table.add(alloc, keys, steps)?;
        let build = JoinWork::Build { table, sides, next };
        Ok(self.work.push(Pending::Join(build, join))?)
    }

    // The key of the next left item is evaluated; behind the last one the join is at its end.
    fn probe(
        &mut self,
        table: Box<JoinTable>,
        sides: Sides,
        next: usize,
        join: Box<Join<'a>>,
    ) -> Result<(), AllocError>
        ensures { (k : Context) (forest later : PlainForest) → OnOk result (outcome_of k forest later self.new ≡ outcome_with k forest later (work.Join (join_work.Probe table sides next) join.entry) self.old) }
    {
        let (left, _) = cut_at(self.sources.as_slice(), sides.right);
        if next >= left.len() {
            cut_off(&mut self.sources, sides.left);
            return Ok(());
        }
        let item = left[next].clone()?;
        self.scope.bind(join.left, Bound::One(item))?;
        let first = count_of(&self.values);
        let find = JoinWork::Find {
            table,
            sides,
            next: next + 1,
            first,
        };
        let left_key = join.left_key;
        self.work.push(Pending::Join(find, join))?;
        self.work.push(Pending::Evaluate(left_key))
    }

    // The right items that have one of the keys of a left item are looked up.
    fn find<L: Ledger>(
        &mut self,
        alloc: Global,
        table: Box<JoinTable>,
        sides: Sides,
        next: usize,
        first: usize,
        join: Box<Join<'a>>,
        steps: &mut Steps<L>,
    ) -> Result<(), Failure>
        ensures value { (k : Context) (forest later : PlainForest) → OnOk result (outcome_of k forest later self.new ≡ outcome_with k forest later (work.Join (join_work.Find table sides next first) join.entry) self.old) }
        ensures failed { (k : Context) (forest later : PlainForest) → IfErr result (λ e. FailsSo e (outcome_with k forest later (work.Join (join_work.Find table sides next first) join.entry) self.old)) }
    {
        let Some(keys) = keys_of(alloc, values_from(&self.values, first))? else {
            return Err(Failure::Wrong);
        };
        cut_off(&mut self.values, first);
        let rows = table.rows(alloc, keys.as_slice(), steps)?;
        let pairs = JoinWork::Pairs {
            table,
            sides,
            next,
            rows,
            row: 0,
        };
        Ok(self.work.push(Pending::Join(pairs, join))?)
    }

    // The result is evaluated for the next right item that was found; behind the last one the next left item follows.
    fn pair(
        &mut self,
        table: Box<JoinTable>,
        sides: Sides,
        next: usize,
        rows: Vec<usize>,
        row: usize,
        join: Box<Join<'a>>,
    ) -> Result<(), Failure>
        ensures value { (k : Context) (forest later : PlainForest) → OnOk result (outcome_of k forest later self.new ≡ outcome_with k forest later (work.Join (join_work.Pairs table sides next rows row) join.entry) self.old) }
        ensures failed { (k : Context) (forest later : PlainForest) → IfErr result (λ e. FailsSo e (outcome_with k forest later (work.Join (join_work.Pairs table sides next rows row) join.entry) self.old)) }
    {
        if row >= rows.len() {
            let probe = JoinWork::Probe { table, sides, next };
            self.work.push(Pending::Join(probe, join))?;
            return Ok(self.work.push(Pending::Unbind(1))?);
        }
        let (_, right) = cut_at(self.sources.as_slice(), sides.right);
        let Some(item) = item_at(right, rows[row]) else {
            return Err(Failure::Wrong);
        };
        let item = item.clone()?;
        self.scope.bind(join.right, Bound::One(item))?;
        let pairs = JoinWork::Pairs {
            table,
            sides,
            next,
            rows,
            row: row + 1,
        };
        let result = join.result;
        self.work.push(Pending::Join(pairs, join))?;
        self.work.push(Pending::Unbind(1))?;
        Ok(self.work.push(Pending::Evaluate(result))?)
    }
}
