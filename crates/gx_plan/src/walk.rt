// A walk over an expression and all that stand in it, in the order of the tree.

ghost use Rattle.std.specs.Prelude.{◌≡◌, ◌∷◌, ◌++◌, [], map, IfOk, OnOk, MatchOption};
ghost use Rattle.gx_core.specs.ExpressionView.{part_of_clause, part_of_key, parts_of};
ghost use Rattle.gx_core.specs.Expression.{Expression};
ghost use Rattle.gx_plan.specs.Walk.{parts_in_order, parts_of_expression, walk_left, walk_pending, IsNext};

use gx_base::stack::Stack;
use gx_core::expression::{Clause, Expr, Form, SortKey};
use std::alloc::{AllocError, Global};

// What is still to be met.
#[derive(Drop)]
enum Pending<'a, K> {
    One(&'a Expr<K>),
    All(&'a [Expr<K>]),
    Clauses(&'a [Clause<K>]),
    Keys(&'a [SortKey<K>]),
}

/// A walk in its midst.
#[derive(Drop)]
pub struct Walk<'a, K> {
    pending: Stack<Pending<'a, K>>,
}

impl<'a, K> Walk<'a, K> {
    /// The walk over an expression.
    pub fn new(alloc: Global, expression: &'a Expr<K>) -> Result<Walk<'a, K>, AllocError>
        ensures { IfOk result (λ walk. walk_left walk.pending ≡ expression.now ∷ []) }
    {
        let mut pending = Stack::new(alloc);
        pending.push(Pending::One(expression))?;
        Ok(Walk { pending })
    }

    /// The next expression, behind which its parts come.
    pub fn next(&mut self) -> Result<Option<&'a Expr<K>>, AllocError>
        ensures { IfOk result (λ found. MatchOption found (walk_left self.old.pending ≡ []) (λ e. IsNext e.now (walk_left self.old.pending) (walk_left self.new.pending))) }
    {
        for _ in 0..u64::MAX {
            match self.pending.pop() {
                None => return Ok(None),
                Some(Pending::One(expression)) => {
                    put_parts(&mut self.pending, &expression.form)?;
                    return Ok(Some(expression));
                }
                Some(Pending::All(expressions)) => put_first(&mut self.pending, expressions)?,
                Some(Pending::Clauses(clauses)) => put_first_clause(&mut self.pending, clauses)?,
                Some(Pending::Keys(keys)) => put_first_key(&mut self.pending, keys)?,
            }
        }
        Err(AllocError)
    }
}

// Puts the parts of an expression on top, the first one uppermost.
#[tactic(auto, using(crate::proofs::WalkLemmas::all_in_order, crate::proofs::WalkLemmas::block_in_order))]
fn put_parts<'a, K>(
    pending: &mut Stack<Pending<'a, K>>,
    form: &'a Form<K>,
) -> Result<(), AllocError>
    ensures { OnOk result (walk_left pending.new ≡ parts_in_order (parts_of form.now) ++ walk_left pending.old) }
{
    match form {
        Form::Lit(_) | Form::Var(_) | Form::Empty | Form::Step(_, _, _) | Form::NoContext => Ok(()),
        Form::Cast(operand, _, _)
        | Form::Castable(operand, _, _)
        | Form::Nodes(operand)
        | Form::Order(operand)
        | Form::Nth(operand, _, _)
        | Form::Final(operand, _)
        | Form::DataOf(operand)
        | Form::Neg(operand)
        | Form::Treat(operand, _) => pending.push(Pending::One(operand)),
        Form::Seq(first, second)
        | Form::For(_, _, first, second)
        | Form::Let(_, first, second)
        | Form::SomeIn(_, first, second)
        | Form::EveryIn(_, first, second)
        | Form::Binary(_, first, second) => put_two(
            pending,
            Pending::One(first),
            Pending::One(second),
        ),
        Form::If(condition, chosen, otherwise) => {
            pending.push(Pending::One(otherwise))?;
            put_two(pending, Pending::One(condition), Pending::One(chosen))
        }
        Form::Switch(operand, _, _, branches) => put_two(
            pending,
            Pending::One(operand),
            Pending::All(branches.as_slice()),
        ),
        Form::Block(clauses, keys, body) => put_block(
            pending,
            clauses.as_slice(),
            keys.as_slice(),
            body,
        ),
        Form::Call(_, parts) | Form::Construct(_, parts) | Form::User(_, parts) => pending.push(
            Pending::All(parts.as_slice()),
        ),
    }
}

fn put_block<'a, K>(
    pending: &mut Stack<Pending<'a, K>>,
    clauses: &'a [Clause<K>],
    keys: &'a [SortKey<K>],
    body: &'a Expr<K>,
) -> Result<(), AllocError>
    ensures { OnOk result (walk_left pending.new ≡ map part_of_clause clauses.now ++ (map part_of_key keys.now ++ body.now ∷ walk_left pending.old)) }
{
    pending.push(Pending::One(body))?;
    put_two(pending, Pending::Clauses(clauses), Pending::Keys(keys))
}

fn put_two<'a, K>(
    pending: &mut Stack<Pending<'a, K>>,
    first: Pending<'a, K>,
    second: Pending<'a, K>,
) -> Result<(), AllocError>
    ensures { OnOk result (walk_left pending.new ≡ walk_pending first.entry ++ (walk_pending second.entry ++ walk_left pending.old)) }
{
    pending.push(second)?;
    pending.push(first)
}

fn put_first<'a, K>(
    pending: &mut Stack<Pending<'a, K>>,
    expressions: &'a [Expr<K>],
) -> Result<(), AllocError>
    ensures { OnOk result (walk_left pending.new ≡ expressions.now ++ walk_left pending.old) }
{
    let Some((first, others)) = expressions.split_first() else {
        return Ok(());
    };
    put_two(pending, Pending::One(first), Pending::All(others))
}

fn put_first_clause<'a, K>(
    pending: &mut Stack<Pending<'a, K>>,
    clauses: &'a [Clause<K>],
) -> Result<(), AllocError>
    ensures { OnOk result (walk_left pending.new ≡ map part_of_clause clauses.now ++ walk_left pending.old) }
{
    let Some((first, others)) = clauses.split_first() else {
        return Ok(());
    };
    let (Clause::For(_, _, part) | Clause::Let(_, part) | Clause::Where(part)) = first;
    put_two(pending, Pending::One(part), Pending::Clauses(others))
}

fn put_first_key<'a, K>(
    pending: &mut Stack<Pending<'a, K>>,
    keys: &'a [SortKey<K>],
) -> Result<(), AllocError>
    ensures { OnOk result (walk_left pending.new ≡ map part_of_key keys.now ++ walk_left pending.old) }
{
    let Some((first, others)) = keys.split_first() else {
        return Ok(());
    };
    put_two(pending, Pending::One(&first.value), Pending::Keys(others))
}
