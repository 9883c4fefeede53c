// Predicates.

ghost use Rattle.std.specs.Prelude.{◌≡◌, ◌∷◌, [], IfOk};
ghost use Rattle.gx_normal.specs.Filters.{decimal_case, filter_at, holds_at, is_reverse_axis, is_reverse_step, kept_at, last_at, numbered_at, position_is, predicate_of};

use crate::construct::{at, call, context_item, empty};
use crate::contexts::{ContextNumbers, ContextUse, behind, context_numbers, loop_at, variable};
use gx_base::place::Place;
use gx_base::type_name::{Builtin, TypeName};
use gx_core::cases::{Cases, TypeCase};
use gx_core::expression::{BinaryOp, CoreExpr, Form};
use gx_core::listed::Listed;
use gx_funcs::function::Function;
use gx_num::Number;
use gx_resolved::tree::{Construct, ResolvedExpr};
use gx_types::item_type::ItemType;
use gx_types::sequence_type::Ty;
use gx_types::step::Axis;
use std::alloc::{AllocError, Global};

/// What a predicate is: the number of an item, `last()`, or a condition.
#[derive(Clone, Copy)]
pub enum Predicate {
    Numbered(i128),
    Last,
    Condition,
}

/// What an expression is as a predicate. It looks through parentheses, which end long before the loop does.
pub(crate) fn predicate_of(tree: &ResolvedExpr) -> Result<Predicate, AllocError>
    ensures { IfOk result (λ predicate. predicate ≡ predicate_of tree.now) }
{
    let mut inner = tree;
    for _ in 0..u64::MAX {
        match (&inner.construct, inner.parts.as_slice()) {
            (Construct::Parenthesised, [part]) => inner = part,
            (Construct::Number(Number::Int(number)), _) => {
                return Ok(Predicate::Numbered(number.value()));
            }
            (Construct::Call(Function::Last), _) => return Ok(Predicate::Last),
            _ => return Ok(Predicate::Condition),
        }
    }
    Err(AllocError)
}

/// Whether positions count from the end in the predicates of an expression, which is a step on a reverse axis.
pub(crate) fn is_reverse_step(tree: &ResolvedExpr) -> bool
    ensures { result ≡ is_reverse_step tree.now }
{
    match &tree.construct {
        Construct::Step(axis, _) => is_reverse_axis(*axis),
        Construct::ParentStep => true,
        _ => false,
    }
}

fn is_reverse_axis(axis: Axis) -> bool
    ensures { result ≡ is_reverse_axis axis }
{
    matches!(axis, Axis::Parent | Axis::Ancestor | Axis::AncestorOrSelf)
}

/// The item of a number.
pub(crate) fn numbered(
    alloc: Global,
    place: Place,
    number: i128,
    reverse: bool,
    e: CoreExpr,
) -> Result<CoreExpr, AllocError>
    ensures { IfOk result (λ r. r ≡ numbered_at place number reverse e) }
{
    let e = Box::new(alloc, e)?;
    Ok(at(place, Form::Nth(e, number, reverse)))
}

/// The last item.
pub(crate) fn last(
    alloc: Global,
    place: Place,
    reverse: bool,
    e: CoreExpr,
) -> Result<CoreExpr, AllocError>
    ensures { IfOk result (λ r. r ≡ last_at place reverse e) }
{
    let e = Box::new(alloc, e)?;
    Ok(at(place, Form::Final(e, reverse)))
}

/// The items of which a condition holds; the variables of the context are numbered from one on, and those of the cases from another.
pub(crate) fn filter(
    alloc: Global,
    context: ContextUse,
    place: Place,
    number: u32,
    free: u32,
    e: Box<CoreExpr>,
    condition: Box<CoreExpr>,
) -> Result<CoreExpr, AllocError>
    ensures { IfOk result (λ r. r ≡ filter_at context place number free e.value condition.value) }
{
    let numbers = context_numbers(context, number)?;
    let body = kept(alloc, condition.outer, numbers, free, condition)?;
    loop_at(alloc, context, false, place, number, e, body)
}

// The context item, where a condition holds of it.
fn kept(
    alloc: Global,
    place: Place,
    numbers: ContextNumbers,
    free: u32,
    condition: Box<CoreExpr>,
) -> Result<Box<CoreExpr>, AllocError>
    ensures { IfOk result (λ r. r.value ≡ kept_at place numbers free condition.value) }
{
    let holds = holds(alloc, place, numbers, free, condition)?;
    let item = Box::new(alloc, context_item(place, numbers.item))?;
    let otherwise = Box::new(alloc, empty(place))?;
    Ok(Box::new(alloc, at(place, Form::If(holds, item, otherwise)))?)
}

// Whether a condition holds: a number where it is the position, and anything else by its effective boolean value.
fn holds(
    alloc: Global,
    place: Place,
    numbers: ContextNumbers,
    free: u32,
    condition: Box<CoreExpr>,
) -> Result<Box<CoreExpr>, AllocError>
    ensures { IfOk result (λ r. r.value ≡ holds_at place numbers free condition.value) }
{
    let default = behind(free, 1)?;
    let cases = decimal_case(alloc, free)?;
    let mut branches = Vec::new(alloc);
    branches.push(is_position(alloc, place, numbers, free)?)?;
    let value = Box::new(alloc, variable(place, default))?;
    branches.push(call(alloc, place, Function::Boolean, value)?)?;
    Ok(Box::new(
        alloc,
        at(place, Form::Switch(condition, cases, default, branches)),
    )?)
}

// Whether a number is the position.
fn is_position(
    alloc: Global,
    place: Place,
    numbers: ContextNumbers,
    number: u32,
) -> Result<CoreExpr, AllocError>
    ensures { IfOk result (λ r. r ≡ position_is place numbers number) }
{
    let number = Box::new(alloc, variable(place, number))?;
    let position = Box::new(alloc, context_item(place, numbers.position))?;
    Ok(at(place, Form::Binary(BinaryOp::Eq, number, position)))
}

// The case of one number.
fn decimal_case(alloc: Global, variable: u32) -> Result<Cases, AllocError>
    ensures { IfOk result (λ cases. cases ≡ decimal_case variable ∷ []) }
{
    let item = ItemType::Atom(TypeName::Builtin(Builtin::Decimal));
    let kind = Ty::of_item(alloc, item)?;
    let mut cases = Vec::new(alloc);
    cases.push(TypeCase { kind, variable })?;
    Ok(Listed::from_vec(cases))
}
