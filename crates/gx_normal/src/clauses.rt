// The clauses of a FLWOR and of a quantified expression.

ghost use Rattle.std.specs.Prelude.{◌≡◌, ◌++◌, ◌+◌, ◌∷◌, ℕ, IfOk, OnOk, if◌then◌else◌, option_copied};
ghost use Rattle.gx_resolved.specs.ResolvedView.{resolved_parts};
ghost use Rattle.gx_normal.specs.Clauses.{Numbers as PlainNumbers, behind_clause, clause_at, clause_in_front, clause_numbers, clause_part, have_key, is_clause, is_empty_greatest, is_key, key_in_front, key_order, leading_part, nested_clause_at, numbered_binder, position_number, sorted_clause_at, test_at};
ghost use Rattle.gx_core.specs.ExpressionView.{kind_of_clause, part_of_clause};
ghost use Rattle.gx_normal.specs.declared.focus.Focus.{Focus as PlainFocus};
ghost use Rattle.gx_normal.specs.declared.clauses.Ending.TheVariants as endings;
ghost use Rattle.gx_normal.specs.Normalising.{Made, core_left};
ghost use Rattle.gx_normal.specs.declared.signatures.Signatures.{Signatures};

use crate::construct::{at, boolean_around, conditional, data_around, empty};
use crate::normalising::{Numbers, Task};
use gx_ast::sequence_type::{EmptyOrder, KeyOrder as WrittenOrder};
use gx_base::place::Place;
use gx_base::stack::Stack;
use gx_core::expression::{Binder, CoreClause, CoreExpr, CoreKey, Form};
use gx_resolved::tree::{BoundName, Construct, ResolvedExpr};
use gx_sorting::KeyOrder;
use std::alloc::{AllocError, Global};

/// What clauses end in: what a FLWOR returns; the condition of a quantified expression, of `every` where that is true; or what a FLWOR
/// returns for sorted tuples, whose empty keys are the greatest where that is true and they do not say.
#[derive(Clone, Copy)]
pub enum Ending {
    Returned,
    Condition(bool),
    Sorted(bool),
}

/// How the clauses of a FLWOR end.
pub(crate) fn flwor_ending(parts: &[ResolvedExpr], greatest: bool) -> Ending
    ensures { result ≡ (if have_key (resolved_parts parts.now) then endings.Sorted greatest else endings.Returned) }
{
    if have_key(parts) {
        Ending::Sorted(greatest)
    } else {
        Ending::Returned
    }
}

fn have_key(parts: &[ResolvedExpr]) -> bool
    ensures { result ≡ have_key (resolved_parts parts.now) }
{
    let mut rest = parts;
    while let Some((part, others)) = rest.split_first() {
        if is_key(&part.construct) {
            return true;
        }
        rest = others;
    }
    false
}

fn is_key(construct: &Construct) -> bool
    ensures { result ≡ is_key construct.now }
{
    matches!(construct, Construct::Key(_))
}

/// The binder of a variable with its number, and the type that is written at it.
pub(crate) fn numbered_binder(bound: &BoundName, variable: u32) -> Result<Binder, AllocError>
    ensures { IfOk result (λ binder. binder ≡ numbered_binder bound.now variable) }
{
    let kind = match &bound.kind {
        Some(kind) => Some(kind.clone()?),
        None => None,
    };
    let place = bound.place;
    Ok(Binder {
        variable,
        place,
        kind,
    })
}

/// The part of a clause, if an expression is one.
pub(crate) fn clause_part(tree: &ResolvedExpr) -> Option<&ResolvedExpr>
    ensures { option_copied result ≡ clause_part tree.now }
{
    if is_clause(&tree.construct) {
        leading_part(tree.parts.as_slice())
    } else {
        None
    }
}

fn is_clause(construct: &Construct) -> bool
    ensures { result ≡ is_clause construct.now }
{
    matches!(
        construct,
        Construct::For(_, _)
            | Construct::Let(_)
            | Construct::Where
            | Construct::In(_)
            | Construct::Key(_)
    )
}

fn leading_part(parts: &[ResolvedExpr]) -> Option<&ResolvedExpr>
    ensures { option_copied result ≡ leading_part (resolved_parts parts.now) }
{
    match parts {
        [part, ..] => Some(part),
        [] => None,
    }
}

/// Numbers the variables that a clause, or a branch of a typeswitch, binds, from the free number on, and gives the one that is free behind them.
pub(crate) fn bind_clause(
    numbers: &mut Numbers,
    clause: &Construct,
    free: u32,
) -> Result<u32, AllocError>
    ensures bound { OnOk result (numbers.new ≡ clause_numbers clause.now free ++ numbers.old) }
    ensures next { IfOk result (λ next. next ≡ behind_clause clause.now free) }
{
    match clause {
        Construct::For(bound, Some(position)) => {
            let number = bind_number(numbers, bound, free)?;
            bind_number(numbers, position, number)
        }
        Construct::For(bound, None)
        | Construct::Let(bound)
        | Construct::In(bound)
        | Construct::Case(Some(bound), _)
        | Construct::Default(Some(bound)) => bind_number(numbers, bound, free),
        _ => Ok(free),
    }
}

// Gives a variable a number, and answers the next.
fn bind_number(numbers: &mut Numbers, bound: &BoundName, number: u32) -> Result<u32, AllocError>
    ensures bound { OnOk result (numbers.new ≡ (bound.now.place, number) ∷ numbers.old) }
    ensures next { IfOk result (λ next. next ≡ number + 1) }
{
    let Some(next) = number.checked_add(1) else {
        return Err(AllocError);
    };
    numbers.bind(bound.place, number)?;
    Ok(next)
}

/// Puts down that the numbers of a clause are taken away.
pub(crate) fn unbind_clause(
    tasks: &mut Stack<Task<'_>>,
    clause: &Construct,
) -> Result<(), AllocError>
    ensures { (signatures : Signatures) (made : Made) (numbers : PlainNumbers) (focus : PlainFocus) (free number : ℕ)
        → OnOk result (core_left signatures tasks.new made (clause_numbers clause.now number ++ numbers) focus free ≡ core_left signatures tasks.old made numbers focus free) }
{
    match clause {
        Construct::For(_, Some(_)) => {
            tasks.push(Task::Unbind)?;
            tasks.push(Task::Unbind)
        }
        Construct::For(_, None)
        | Construct::Let(_)
        | Construct::In(_)
        | Construct::Case(Some(_), _)
        | Construct::Default(Some(_)) => tasks.push(Task::Unbind),
        _ => Ok(()),
    }
}

/// The Core of a clause, whose variables have the numbers from one on, over its part and over what the clauses behind it stand for.
pub(crate) fn clause(
    alloc: Global,
    ending: Ending,
    place: Place,
    clause: &Construct,
    number: u32,
    part: Box<CoreExpr>,
    rest: Box<CoreExpr>,
) -> Result<CoreExpr, AllocError>
    ensures { IfOk result (λ e. e ≡ clause_at ending place clause.now number part.value rest.value) }
{
    match ending {
        Ending::Sorted(greatest) => {
            sorted_clause(alloc, greatest, place, clause, number, part, rest)
        }
        Ending::Returned | Ending::Condition(_) => {
            nested_clause(alloc, ending, place, clause, number, part, rest)
        }
    }
}

// A clause around what the clauses behind it stand for.
fn nested_clause(
    alloc: Global,
    ending: Ending,
    place: Place,
    clause: &Construct,
    number: u32,
    part: Box<CoreExpr>,
    rest: Box<CoreExpr>,
) -> Result<CoreExpr, AllocError>
    ensures { IfOk result (λ e. e ≡ nested_clause_at ending place clause.now number part.value rest.value) }
{
    match clause {
        Construct::For(bound, position) => {
            let position = position_number(position, number)?;
            let binder = numbered_binder(bound, number)?;
            Ok(at(place, Form::For(binder, position, part, rest)))
        }
        Construct::Let(bound) => {
            let binder = numbered_binder(bound, number)?;
            Ok(at(place, Form::Let(binder, part, rest)))
        }
        Construct::Where => {
            let otherwise = Box::new(alloc, empty(place))?;
            conditional(alloc, place, part, rest, otherwise)
        }
        Construct::In(bound) => {
            let binder = numbered_binder(bound, number)?;
            Ok(test(ending, place, binder, part, rest))
        }
        _ => Ok(empty(place)),
    }
}

// The number of the variable of a position, or 0.
fn position_number(position: &Option<BoundName>, number: u32) -> Result<u32, AllocError>
    ensures { IfOk result (λ n. n ≡ position_number position.now number) }
{
    if position.is_none() {
        return Ok(0);
    }
    match number.checked_add(1) {
        Some(number) => Ok(number),
        None => Err(AllocError),
    }
}

// A test whether the condition holds for some item, or for each.
fn test(
    ending: Ending,
    place: Place,
    binder: Binder,
    source: Box<CoreExpr>,
    test: Box<CoreExpr>,
) -> CoreExpr
    ensures { result ≡ test_at ending place binder source.value test.value }
{
    match ending {
        Ending::Returned | Ending::Sorted(_) => empty(place),
        Ending::Condition(true) => at(place, Form::EveryIn(binder, source, test)),
        Ending::Condition(false) => at(place, Form::SomeIn(binder, source, test)),
    }
}

// A clause, or a sort key, in front of a block.
fn sorted_clause(
    alloc: Global,
    greatest: bool,
    place: Place,
    clause: &Construct,
    number: u32,
    part: Box<CoreExpr>,
    block: Box<CoreExpr>,
) -> Result<CoreExpr, AllocError>
    ensures { IfOk result (λ e. e ≡ sorted_clause_at greatest place clause.now number part.value block.value) }
{
    match clause {
        Construct::For(bound, position) => {
            let position = position_number(position, number)?;
            let binder = numbered_binder(bound, number)?;
            clause_in_front(
                place,
                CoreClause::For(binder, position, Box::into_inner(part)),
                block,
            )
        }
        Construct::Let(bound) => {
            let binder = numbered_binder(bound, number)?;
            clause_in_front(place, CoreClause::Let(binder, Box::into_inner(part)), block)
        }
        Construct::Where => {
            let condition = boolean_around(alloc, part)?;
            clause_in_front(place, CoreClause::Where(Box::into_inner(condition)), block)
        }
        Construct::Key(order) => {
            let value = Box::into_inner(data_around(alloc, part)?);
            let order = key_order(greatest, *order);
            key_in_front(place, CoreKey { value, order }, block)
        }
        _ => Ok(empty(place)),
    }
}

fn clause_in_front(
    place: Place,
    clause: CoreClause,
    block: Box<CoreExpr>,
) -> Result<CoreExpr, AllocError>
    ensures { IfOk result (λ e. e ≡ clause_in_front place (kind_of_clause clause) (part_of_clause clause) block.value) }
{
    let (_place, _outer, _kind, form) = Box::into_inner(block).into_parts();
    match form {
        Form::Block(mut clauses, keys, body) => {
            clauses.insert(0, clause)?;
            Ok(at(place, Form::Block(clauses, keys, body)))
        }
        other => {
            drop(other);
            drop(clause);
            Ok(empty(place))
        }
    }
}

fn key_in_front(place: Place, key: CoreKey, block: Box<CoreExpr>) -> Result<CoreExpr, AllocError>
    ensures { IfOk result (λ e. e ≡ key_in_front place key.order key.value block.value) }
{
    let (_place, _outer, _kind, form) = Box::into_inner(block).into_parts();
    match form {
        Form::Block(clauses, mut keys, body) => {
            if clauses.is_empty() {
                keys.insert(0, key)?;
                Ok(at(place, Form::Block(clauses, keys, body)))
            } else {
                drop(key);
                Ok(empty(place))
            }
        }
        other => {
            drop(other);
            drop(key);
            Ok(empty(place))
        }
    }
}

// Where a key says nothing of the empty sequence, the prolog decides.
fn key_order(greatest: bool, order: WrittenOrder) -> KeyOrder
    ensures { result ≡ key_order greatest order }
{
    KeyOrder {
        descending: order.descending,
        greatest: is_empty_greatest(greatest, order.empty),
    }
}

/// Whether the empty key is the greatest one, where it is so if nothing is said.
pub(crate) fn is_empty_greatest(greatest: bool, order: EmptyOrder) -> bool
    ensures { result ≡ is_empty_greatest greatest order }
{
    match order {
        EmptyOrder::Default => greatest,
        EmptyOrder::Greatest => true,
        EmptyOrder::Least => false,
    }
}
