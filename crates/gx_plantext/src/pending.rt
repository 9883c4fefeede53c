// Expressions that are written, by a loop over what is still to be written.

ghost use Rattle.std.specs.Prelude.{◌≡◌, [], ◌∷◌, ◌++◌, map, OnOk};
ghost use Rattle.std.specs.List.{flat_map};
ghost use Rattle.gx_core.specs.ExpressionView.{operator_of, parts_of};
ghost use Rattle.gx_plantext.specs.TermText.{fields_text, number_text};
ghost use Rattle.gx_plantext.specs.PlanText.{branch_fields, case_text, fields_of, fields_of_each, join_term, operator_term, own_term, part_fields};
ghost use Rattle.gx_plantext.specs.Printing.{clause_piece, fields_pending, key_piece, printed_terms, printed_with, PutsFields};

use crate::fields::{add_before, add_behind, add_case, add_clause, add_join_variables, add_order};
use crate::names::{clause_name, operator_name};
use crate::terms::Terms;
use gx_base::stack::Stack;
use gx_core::cases::TypeCase;
use gx_core::expression::{Clause, Form, SortKey};
use gx_plan::plan::{Carried, PlanExpr, Role};
use gx_sorting::KeyOrder;
use std::alloc::{AllocError, Global};

// Fields of a term that are still to be written.
#[derive(Drop)]
enum Piece<'a> {
    // Those of an expression.
    One(&'a PlanExpr),
    // Those of several expressions.
    All(&'a [PlanExpr]),
    // The cases of a switch with their branches, and the default with its variable.
    Branches(&'a [TypeCase], u32, &'a [PlanExpr]),
    // The clauses of a block.
    Clauses(&'a [Clause<Carried>]),
    // The keys of a block.
    Keys(&'a [SortKey<Carried>]),
    // What an operator has behind its parts.
    Behind(&'a Form<Carried>),
    // How a key orders.
    Order(KeyOrder),
}

// What is still to be written.
#[derive(Drop)]
enum Pending<'a> {
    Fields(Piece<'a>),
    // The end of a term.
    Close,
}

// Adds the fields that an expression gives to the term that it stands in. The work ends long before the loop does.
pub(crate) fn add_expression(
    alloc: Global,
    terms: &mut Terms,
    expression: &PlanExpr,
) -> Result<(), AllocError>
    ensures { OnOk result (terms.new.text ≡ terms.old.text ++ fields_text terms.old.is_first (fields_of expression.now)) }
{
    let mut pending = Stack::new(alloc);
    pending.push(Pending::Fields(Piece::One(expression)))?;
    for _ in 0..u64::MAX {
        match pending.pop() {
            None => return Ok(()),
            Some(next) => step(terms, &mut pending, next)?,
        }
    }
    Err(AllocError)
}

#[tactic(auto, using(crate::proofs::TermLemmas::term_ended))]
fn step<'a>(
    terms: &mut Terms,
    pending: &mut Stack<Pending<'a>>,
    next: Pending<'a>,
) -> Result<(), AllocError>
    ensures { OnOk result (printed_terms terms.new pending.new ≡ printed_terms terms.old (next.entry ∷ pending.old)) }
{
    match next {
        Pending::Fields(piece) => write_piece(terms, pending, piece),
        Pending::Close => terms.close(),
    }
}

// Writes fields, or puts others in their place.
#[tactic(auto, using(crate::proofs::TermLemmas::fields_added, crate::proofs::TermLemmas::fields_put))]
fn write_piece<'a>(
    terms: &mut Terms,
    pending: &mut Stack<Pending<'a>>,
    piece: Piece<'a>,
) -> Result<(), AllocError>
    ensures { OnOk result (printed_terms terms.new pending.new ≡ printed_with terms.old (fields_pending piece.entry) pending.old) }
{
    match piece {
        Piece::One(expression) => open(terms, pending, expression),
        Piece::All(expressions) => put_first(pending, expressions),
        Piece::Branches(cases, default, branches) => {
            put_first_branch(terms, pending, cases, default, branches)
        }
        Piece::Clauses(clauses) => put_first_clause(terms, pending, clauses),
        Piece::Keys(keys) => put_first_key(terms, pending, keys),
        Piece::Behind(form) => add_behind(terms, form),
        Piece::Order(order) => add_order(terms, order),
    }
}

// Begins an expression.
fn open<'a>(
    terms: &mut Terms,
    pending: &mut Stack<Pending<'a>>,
    expression: &'a PlanExpr,
) -> Result<(), AllocError>
    ensures { OnOk result (printed_terms terms.new pending.new ≡ printed_with terms.old (fields_of expression.now) pending.old) }
{
    let form = &expression.form;
    match expression.kind.role {
        Role::Own => open_own(terms, pending, form),
        Role::Join => open_join(terms, pending, form),
        Role::InJoin => put_parts(pending, form),
    }
}

// Begins an operator of its own.
#[tactic(auto, using(crate::proofs::TermLemmas::fields_added, crate::proofs::TermLemmas::fields_put))]
fn open_own<'a>(
    terms: &mut Terms,
    pending: &mut Stack<Pending<'a>>,
    form: &'a Form<Carried>,
) -> Result<(), AllocError>
    ensures { OnOk result (printed_terms terms.new pending.new ≡ printed_with terms.old (own_term (operator_of form.now) (fields_of_each (parts_of form.now)) ∷ []) pending.old) }
{
    match form {
        Form::Lit(atomic) => terms.literal(&atomic.value),
        Form::Empty => terms.word("empty"),
        Form::NoContext => terms.word("nocontext"),
        _ => open_term(terms, pending, form),
    }
}

#[tactic(auto, using(crate::proofs::TermLemmas::term_begun))]
fn open_term<'a>(
    terms: &mut Terms,
    pending: &mut Stack<Pending<'a>>,
    form: &'a Form<Carried>,
) -> Result<(), AllocError>
    ensures { OnOk result (printed_terms terms.new pending.new ≡ printed_with terms.old (operator_term (operator_of form.now) (fields_of_each (parts_of form.now)) ∷ []) pending.old) }
{
    terms.open(operator_name(form))?;
    add_before(terms, form)?;
    pending.push(Pending::Close)?;
    pending.push(Pending::Fields(Piece::Behind(form)))?;
    put_parts(pending, form)
}

// Begins a join.
#[tactic(auto, using(crate::proofs::TermLemmas::term_begun))]
fn open_join<'a>(
    terms: &mut Terms,
    pending: &mut Stack<Pending<'a>>,
    form: &'a Form<Carried>,
) -> Result<(), AllocError>
    ensures { OnOk result (printed_terms terms.new pending.new ≡ printed_with terms.old (join_term (operator_of form.now) (parts_of form.now) (fields_of_each (parts_of form.now)) ∷ []) pending.old) }
{
    terms.open("join")?;
    add_join_variables(terms, form)?;
    pending.push(Pending::Close)?;
    put_parts(pending, form)
}

// Puts the fields of the parts of an operator on top, the first one uppermost.
#[tactic(auto, using(crate::proofs::PartLemmas::fields_of_all, crate::proofs::PartLemmas::fields_joined, crate::proofs::PartLemmas::block_written))]
fn put_parts<'a>(
    pending: &mut Stack<Pending<'a>>,
    form: &'a Form<Carried>,
) -> Result<(), AllocError>
    ensures { OnOk result (PutsFields pending.old (part_fields (operator_of form.now) (fields_of_each (parts_of form.now))) pending.new) }
{
    match form {
        Form::Lit(_) | Form::Var(_) | Form::Empty | Form::Step(_, _, _) | Form::NoContext => Ok(()),
        Form::Cast(operand, _, _)
        | Form::Castable(operand, _, _)
        | Form::Nodes(operand)
        | Form::Order(operand)
        | Form::Nth(operand, _, _)
        | Form::Final(operand, _)
        | Form::DataOf(operand)
        | Form::Neg(operand)
        | Form::Treat(operand, _) => put_one(pending, operand),
        Form::Seq(first, second)
        | Form::For(_, _, first, second)
        | Form::Let(_, first, second)
        | Form::SomeIn(_, first, second)
        | Form::EveryIn(_, first, second)
        | Form::Binary(_, first, second) => put_two(pending, first, second),
        Form::If(condition, chosen, otherwise) => {
            put_one(pending, otherwise)?;
            put_two(pending, condition, chosen)
        }
        Form::Switch(operand, cases, default, branches) => put_switch(
            pending,
            operand,
            cases.as_slice(),
            *default,
            branches.as_slice(),
        ),
        Form::Block(clauses, keys, body) => put_block(
            pending,
            clauses.as_slice(),
            keys.as_slice(),
            body,
        ),
        Form::Call(_, parts) | Form::Construct(_, parts) | Form::User(_, parts) => put(
            pending,
            Piece::All(parts.as_slice()),
        ),
    }
}

fn put_switch<'a>(
    pending: &mut Stack<Pending<'a>>,
    operand: &'a PlanExpr,
    cases: &'a [TypeCase],
    default: u32,
    branches: &'a [PlanExpr],
) -> Result<(), AllocError>
    ensures { OnOk result (PutsFields pending.old (fields_of operand.now ++ branch_fields cases.now default (map fields_of branches.now)) pending.new) }
{
    put(pending, Piece::Branches(cases, default, branches))?;
    put_one(pending, operand)
}

fn put_block<'a>(
    pending: &mut Stack<Pending<'a>>,
    clauses: &'a [Clause<Carried>],
    keys: &'a [SortKey<Carried>],
    body: &'a PlanExpr,
) -> Result<(), AllocError>
    ensures { OnOk result (PutsFields pending.old (map clause_piece clauses.now ++ (map key_piece keys.now ++ fields_of body.now)) pending.new) }
{
    put_one(pending, body)?;
    put(pending, Piece::Keys(keys))?;
    put(pending, Piece::Clauses(clauses))
}

fn put<'a>(pending: &mut Stack<Pending<'a>>, piece: Piece<'a>) -> Result<(), AllocError>
    ensures { OnOk result (PutsFields pending.old (fields_pending piece.entry) pending.new) }
{
    pending.push(Pending::Fields(piece))
}

fn put_one<'a>(pending: &mut Stack<Pending<'a>>, expression: &'a PlanExpr) -> Result<(), AllocError>
    ensures { OnOk result (PutsFields pending.old (fields_of expression.now) pending.new) }
{
    put(pending, Piece::One(expression))
}

fn put_two<'a>(
    pending: &mut Stack<Pending<'a>>,
    first: &'a PlanExpr,
    second: &'a PlanExpr,
) -> Result<(), AllocError>
    ensures { OnOk result (PutsFields pending.old (fields_of first.now ++ fields_of second.now) pending.new) }
{
    put_one(pending, second)?;
    put_one(pending, first)
}

fn put_first<'a>(
    pending: &mut Stack<Pending<'a>>,
    expressions: &'a [PlanExpr],
) -> Result<(), AllocError>
    ensures { OnOk result (PutsFields pending.old (flat_map fields_of expressions.now) pending.new) }
{
    let Some((first, others)) = expressions.split_first() else {
        return Ok(());
    };
    put(pending, Piece::All(others))?;
    put_one(pending, first)
}

// Begins the first case of a switch, or writes the variable of the default.
#[tactic(auto, using(crate::proofs::TermLemmas::put_behind, crate::proofs::PartLemmas::fields_joined))]
fn put_first_branch<'a>(
    terms: &mut Terms,
    pending: &mut Stack<Pending<'a>>,
    cases: &'a [TypeCase],
    default: u32,
    branches: &'a [PlanExpr],
) -> Result<(), AllocError>
    ensures { OnOk result (printed_terms terms.new pending.new ≡ printed_with terms.old (branch_fields cases.now default (map fields_of branches.now)) pending.old) }
{
    let Some((case, other_cases)) = cases.split_first() else {
        return put_default(terms, pending, default, branches);
    };
    let Some((branch, others)) = branches.split_first() else {
        return Ok(());
    };
    put(pending, Piece::Branches(other_cases, default, others))?;
    open_case(terms, pending, case, branch)
}

// Writes the variable of the default of a switch, and puts its branch to the work.
#[tactic(auto, using(crate::proofs::TermLemmas::put_behind, crate::proofs::TermLemmas::fields_added))]
fn put_default<'a>(
    terms: &mut Terms,
    pending: &mut Stack<Pending<'a>>,
    default: u32,
    branches: &'a [PlanExpr],
) -> Result<(), AllocError>
    ensures { OnOk result (printed_terms terms.new pending.new ≡ printed_with terms.old (number_text default ∷ flat_map fields_of branches.now) pending.old) }
{
    terms.number(default)?;
    put(pending, Piece::All(branches))
}

#[tactic(auto, using(crate::proofs::TermLemmas::term_begun))]
fn open_case<'a>(
    terms: &mut Terms,
    pending: &mut Stack<Pending<'a>>,
    case: &'a TypeCase,
    branch: &'a PlanExpr,
) -> Result<(), AllocError>
    ensures { OnOk result (printed_terms terms.new pending.new ≡ printed_with terms.old (case_text case.now (fields_of branch.now) ∷ []) pending.old) }
{
    terms.open("case")?;
    add_case(terms, case)?;
    pending.push(Pending::Close)?;
    put_one(pending, branch)
}

// Begins the first clause of a block.
#[tactic(auto, using(crate::proofs::TermLemmas::put_behind, crate::proofs::TermLemmas::fields_added))]
fn put_first_clause<'a>(
    terms: &mut Terms,
    pending: &mut Stack<Pending<'a>>,
    clauses: &'a [Clause<Carried>],
) -> Result<(), AllocError>
    ensures { OnOk result (printed_terms terms.new pending.new ≡ printed_with terms.old (map clause_piece clauses.now) pending.old) }
{
    let Some((clause, others)) = clauses.split_first() else {
        return Ok(());
    };
    put(pending, Piece::Clauses(others))?;
    open_clause(terms, pending, clause)
}

#[tactic(auto, using(crate::proofs::TermLemmas::term_begun))]
fn open_clause<'a>(
    terms: &mut Terms,
    pending: &mut Stack<Pending<'a>>,
    clause: &'a Clause<Carried>,
) -> Result<(), AllocError>
    ensures { OnOk result (printed_terms terms.new pending.new ≡ printed_with terms.old (clause_piece clause.now ∷ []) pending.old) }
{
    terms.open(clause_name(clause))?;
    add_clause(terms, clause)?;
    pending.push(Pending::Close)?;
    let (Clause::For(_, _, part) | Clause::Let(_, part) | Clause::Where(part)) = clause;
    put_one(pending, part)
}

// Begins the first key of a block.
#[tactic(auto, using(crate::proofs::TermLemmas::put_behind, crate::proofs::TermLemmas::fields_added))]
fn put_first_key<'a>(
    terms: &mut Terms,
    pending: &mut Stack<Pending<'a>>,
    keys: &'a [SortKey<Carried>],
) -> Result<(), AllocError>
    ensures { OnOk result (printed_terms terms.new pending.new ≡ printed_with terms.old (map key_piece keys.now) pending.old) }
{
    let Some((key, others)) = keys.split_first() else {
        return Ok(());
    };
    put(pending, Piece::Keys(others))?;
    open_key(terms, pending, key)
}

#[tactic(auto, using(crate::proofs::TermLemmas::term_begun, crate::proofs::TermLemmas::nothing_added))]
fn open_key<'a>(
    terms: &mut Terms,
    pending: &mut Stack<Pending<'a>>,
    key: &'a SortKey<Carried>,
) -> Result<(), AllocError>
    ensures { OnOk result (printed_terms terms.new pending.new ≡ printed_with terms.old (key_piece key.now ∷ []) pending.old) }
{
    terms.open("key")?;
    pending.push(Pending::Close)?;
    put(pending, Piece::Order(key.order))?;
    put_one(pending, &key.value)
}
