// Which functions an expression calls, and which variables it names.

ghost use Rattle.std.specs.Prelude.{◌≡◌, ◌∷◌, ◌++◌, map, IfOk, OnOk};
ghost use Rattle.gx_core.specs.ExpressionView.{operator_of, part_of_clause, part_of_key, parts_of};
ghost use Rattle.gx_settling.specs.declared.uses.Pending.TheVariants as work;
ghost use Rattle.gx_settling.specs.Uses.{called_by, called_function, named_variable, variables_named};
ghost use Rattle.gx_settling.specs.Gathering.{all_calls, all_calls_with, all_variables, all_variables_with, expressions_left, expressions_pending, listed_parts};

use gx_base::stack::Stack;
use gx_core::expression::{Clause, Expr, Form, SortKey};
use std::alloc::{AllocError, Global};

/// The declared functions that an expression calls, and the variables that it names, by their numbers in the order of the tree.
#[derive(Drop)]
pub struct Uses {
    pub calls: Vec<u32>,
    pub variables: Vec<u32>,
}

// What is still to be looked at.
#[derive(Drop)]
enum Pending<'a, K> {
    One(&'a Expr<K>),
    All(&'a [Expr<K>]),
    Clauses(&'a [Clause<K>]),
    Keys(&'a [SortKey<K>]),
}

// A pass over an expression in its midst.
#[derive(Drop)]
struct Gathering<'a, K> {
    pending: Stack<Pending<'a, K>>,
    calls: Vec<u32>,
    variables: Vec<u32>,
}

/// What an expression uses. The work ends long before the loop does.
pub fn uses_of<K>(alloc: Global, expression: &Expr<K>) -> Result<Uses, AllocError>
    ensures calls { IfOk result (λ uses. uses.calls.items ≡ called_by expression.now) }
    ensures variables { IfOk result (λ uses. uses.variables.items ≡ variables_named expression.now) }
{
    let mut gathering = Gathering::new(alloc, expression)?;
    for _ in 0..u64::MAX {
        match gathering.pending.pop() {
            None => {
                return Ok(Uses {
                    calls: gathering.calls,
                    variables: gathering.variables,
                });
            }
            Some(piece) => gathering.step(piece)?,
        }
    }
    Err(AllocError)
}

impl<'a, K> Gathering<'a, K> {
    fn new(alloc: Global, expression: &'a Expr<K>) -> Result<Gathering<'a, K>, AllocError>
        ensures calls { IfOk result (λ g. all_calls g ≡ called_by expression.now) }
        ensures variables { IfOk result (λ g. all_variables g ≡ variables_named expression.now) }
    {
        let mut pending = Stack::new(alloc);
        pending.push(Pending::One(expression))?;
        Ok(Gathering {
            pending,
            calls: Vec::new(alloc),
            variables: Vec::new(alloc),
        })
    }

    // Looks at an expression, or takes the first of several.
    fn step(&mut self, piece: Pending<'a, K>) -> Result<(), AllocError>
        ensures calls { OnOk result (all_calls self.new ≡ all_calls_with piece.entry self.old) }
        ensures variables { OnOk result (all_variables self.new ≡ all_variables_with piece.entry self.old) }
    {
        match piece {
            Pending::One(expression) => self.open(expression),
            Pending::All(expressions) => put_first(&mut self.pending, expressions),
            Pending::Clauses(clauses) => put_first_clause(&mut self.pending, clauses),
            Pending::Keys(keys) => put_first_key(&mut self.pending, keys),
        }
    }

    // Notes what an expression uses, and puts its parts to the work.
    fn open(&mut self, expression: &'a Expr<K>) -> Result<(), AllocError>
        ensures calls { OnOk result (all_calls self.new ≡ all_calls_with (work.One expression.entry) self.old) }
        ensures variables { OnOk result (all_variables self.new ≡ all_variables_with (work.One expression.entry) self.old) }
    {
        let form = &expression.form;
        note_call(&mut self.calls, form)?;
        note_variable(&mut self.variables, form)?;
        put_parts(&mut self.pending, form)?;
        Ok(())
    }
}

fn note_call<K>(calls: &mut Vec<u32>, form: &Form<K>) -> Result<(), AllocError>
    ensures { OnOk result (calls.new.items ≡ calls.old.items ++ called_function (operator_of form.now)) }
{
    if let Form::User(signature, _) = form {
        calls.push(signature.number)?;
    }
    Ok(())
}

fn note_variable<K>(variables: &mut Vec<u32>, form: &Form<K>) -> Result<(), AllocError>
    ensures { OnOk result (variables.new.items ≡ variables.old.items ++ named_variable (operator_of form.now)) }
{
    if let Form::Var(number) | Form::Step(_, _, number) = form {
        variables.push(*number)?;
    }
    Ok(())
}

// Puts the parts of an expression on top, the first one uppermost.
#[tactic(auto, using(crate::proofs::GatheringLemmas::listed_all, crate::proofs::GatheringLemmas::listed_block))]
fn put_parts<'a, K>(
    pending: &mut Stack<Pending<'a, K>>,
    form: &'a Form<K>,
) -> Result<(), AllocError>
    ensures { OnOk result (expressions_left pending.new ≡ listed_parts (parts_of form.now) ++ expressions_left pending.old) }
{
    match form {
        Form::Lit(_) | Form::Var(_) | Form::Empty | Form::Step(_, _, _) | Form::NoContext => Ok(()),
        Form::Cast(operand, _, _)
        | Form::Castable(operand, _, _)
        | Form::Nodes(operand)
        | Form::Order(operand)
        | Form::Nth(operand, _, _)
        | Form::Final(operand, _)
        | Form::DataOf(operand)
        | Form::Neg(operand)
        | Form::Treat(operand, _) => pending.push(Pending::One(operand)),
        Form::Seq(first, second)
        | Form::For(_, _, first, second)
        | Form::Let(_, first, second)
        | Form::SomeIn(_, first, second)
        | Form::EveryIn(_, first, second)
        | Form::Binary(_, first, second) => put_two(
            pending,
            Pending::One(first),
            Pending::One(second),
        ),
        Form::If(condition, chosen, otherwise) => {
            pending.push(Pending::One(otherwise))?;
            put_two(pending, Pending::One(condition), Pending::One(chosen))
        }
        Form::Switch(operand, _, _, branches) => put_two(
            pending,
            Pending::One(operand),
            Pending::All(branches.as_slice()),
        ),
        Form::Block(clauses, keys, body) => put_block(
            pending,
            clauses.as_slice(),
            keys.as_slice(),
            body,
        ),
        Form::Call(_, parts) | Form::Construct(_, parts) | Form::User(_, parts) => pending.push(
            Pending::All(parts.as_slice()),
        ),
    }
}

fn put_block<'a, K>(
    pending: &mut Stack<Pending<'a, K>>,
    clauses: &'a [Clause<K>],
    keys: &'a [SortKey<K>],
    body: &'a Expr<K>,
) -> Result<(), AllocError>
    ensures { OnOk result (expressions_left pending.new ≡ map part_of_clause clauses.now ++ (map part_of_key keys.now ++ body.now ∷ expressions_left pending.old)) }
{
    pending.push(Pending::One(body))?;
    put_two(pending, Pending::Clauses(clauses), Pending::Keys(keys))
}

fn put_two<'a, K>(
    pending: &mut Stack<Pending<'a, K>>,
    first: Pending<'a, K>,
    second: Pending<'a, K>,
) -> Result<(), AllocError>
    ensures { OnOk result (expressions_left pending.new ≡ expressions_pending first.entry ++ (expressions_pending second.entry ++ expressions_left pending.old)) }
{
    pending.push(second)?;
    pending.push(first)
}

fn put_first<'a, K>(
    pending: &mut Stack<Pending<'a, K>>,
    expressions: &'a [Expr<K>],
) -> Result<(), AllocError>
    ensures { OnOk result (expressions_left pending.new ≡ expressions.now ++ expressions_left pending.old) }
{
    let Some((first, others)) = expressions.split_first() else {
        return Ok(());
    };
    put_two(pending, Pending::One(first), Pending::All(others))
}

fn put_first_clause<'a, K>(
    pending: &mut Stack<Pending<'a, K>>,
    clauses: &'a [Clause<K>],
) -> Result<(), AllocError>
    ensures { OnOk result (expressions_left pending.new ≡ map part_of_clause clauses.now ++ expressions_left pending.old) }
{
    let Some((first, others)) = clauses.split_first() else {
        return Ok(());
    };
    let (Clause::For(_, _, part) | Clause::Let(_, part) | Clause::Where(part)) = first;
    put_two(pending, Pending::One(part), Pending::Clauses(others))
}

fn put_first_key<'a, K>(
    pending: &mut Stack<Pending<'a, K>>,
    keys: &'a [SortKey<K>],
) -> Result<(), AllocError>
    ensures { OnOk result (expressions_left pending.new ≡ map part_of_key keys.now ++ expressions_left pending.old) }
{
    let Some((first, others)) = keys.split_first() else {
        return Ok(());
    };
    put_two(pending, Pending::One(&first.value), Pending::Keys(others))
}
