// Contexts: what is asked of them, the numbers of their variables, and loops over the items of a source.

ghost use Rattle.std.specs.Prelude.{◌≡◌, ◌∷◌, ◌+◌, true, false, IfOk};
ghost use Rattle.gx_normal.specs.Asking.{any_asks};
ghost use Rattle.gx_normal.specs.Contexts.{asks_context, behind_context, has_own_context, hidden_for, hidden_let, hidden_variable, is_question, loop_at, ordered_if, path_use, path_with, position_from_end, predicate_use, with_size, context_numbers, no_context};
ghost use Rattle.gx_normal.specs.Constructs.{hidden_binder};
ghost use Rattle.gx_normal.specs.Normalisation.{left_of_path};

use crate::construct::{at, call, context_item, number};
use gx_base::place::Place;
use gx_base::stack::Stack;
use gx_core::expression::{BinaryOp, Binder, CoreExpr, Form};
use gx_funcs::function::Function;
use gx_num::Number;
use gx_resolved::tree::{Construct, ResolvedExpr};
use gx_types::step::{Axis, Test};
use std::alloc::{AllocError, Global};

/// The numbers of the variables of a context: of its item, of the position of the item, and of the size of the context.
#[derive(Clone, Copy)]
pub struct ContextNumbers {
    pub item: Option<u32>,
    pub position: Option<u32>,
    pub size: Option<u32>,
}

impl ContextNumbers {
    /// Where there is no context.
    pub(crate) fn none() -> ContextNumbers
        ensures { result ≡ no_context }
    {
        ContextNumbers {
            item: None,
            position: None,
            size: None,
        }
    }
}

/// What may be asked of a context beside its item.
#[derive(Clone, Copy)]
pub enum Asked {
    Position,
    Last,
}

/// Which variables a context has beside that of its item: that of the position, those of the source and of its size, all of them, or
/// one more for a position that counts from the end.
#[derive(Clone, Copy)]
pub enum ContextUse {
    Item,
    Position,
    Size,
    PositionAndSize,
    Backwards,
}

// What is left to be searched: a tree, trees, or the first of them alone.
#[derive(Clone, Copy)]
pub(crate) enum Searched<'a> {
    Tree(&'a ResolvedExpr),
    Trees(&'a [ResolvedExpr]),
    First(&'a [ResolvedExpr]),
}

/// Whether an expression asks something of its context. The search ends long before its loop does.
pub(crate) fn asks_context(
    alloc: Global,
    what: Asked,
    tree: &ResolvedExpr,
) -> Result<bool, AllocError>
    ensures { IfOk result (λ answer. answer ≡ asks_context what tree.now) }
{
    let mut left = Stack::new(alloc);
    left.push(Searched::Tree(tree))?;
    for _ in 0..u64::MAX {
        let Some(searched) = left.pop() else {
            return Ok(false);
        };
        if search(what, searched, &mut left)? {
            return Ok(true);
        }
    }
    Err(AllocError)
}

// Whether what is asked stands at the root; its parts are left to be searched.
fn search<'a>(
    what: Asked,
    searched: Searched<'a>,
    left: &mut Stack<Searched<'a>>,
) -> Result<bool, AllocError>
    ensures found { IfOk result (λ found. found ≡ true → any_asks what (searched.entry ∷ left.old) ≡ true) }
    ensures left { IfOk result (λ found. found ≡ false → any_asks what left.new ≡ any_asks what (searched.entry ∷ left.old)) }
{
    match searched {
        Searched::Tree(tree) => {
            if is_question(what, &tree.construct) {
                return Ok(true);
            }
            if has_own_context(&tree.construct) {
                left.push(Searched::First(tree.parts.as_slice()))?;
            } else {
                left.push(Searched::Trees(tree.parts.as_slice()))?;
            }
        }
        Searched::Trees([first, others @ ..]) => {
            left.push(Searched::Trees(others))?;
            left.push(Searched::Tree(first))?;
        }
        Searched::First([first, ..]) => left.push(Searched::Tree(first))?,
        Searched::Trees([]) | Searched::First([]) => {}
    }
    Ok(false)
}

fn is_question(what: Asked, construct: &Construct) -> bool
    ensures { result ≡ is_question what construct.now }
{
    match (what, construct) {
        (Asked::Position, Construct::Call(Function::Position))
        | (Asked::Last, Construct::Call(Function::Last)) => true,
        _ => false,
    }
}

// Whether the parts of a construct but the first one have a context of their own.
fn has_own_context(construct: &Construct) -> bool
    ensures { result ≡ has_own_context construct.now }
{
    matches!(construct, Construct::Path(_) | Construct::Filtered)
}

/// The use of the context of the right part of a path.
pub(crate) fn path_use(position: bool, size: bool) -> ContextUse
    ensures { result ≡ path_use position size }
{
    match (position, size) {
        (false, false) => ContextUse::Item,
        (true, false) => ContextUse::Position,
        (false, true) => ContextUse::Size,
        (true, true) => ContextUse::PositionAndSize,
    }
}

/// The use of the context of a predicate, which always looks at the position.
pub(crate) fn predicate_use(reverse: bool, size: bool) -> ContextUse
    ensures { result ≡ predicate_use reverse size }
{
    match (reverse, size) {
        (false, false) => ContextUse::Position,
        (false, true) => ContextUse::PositionAndSize,
        (true, _) => ContextUse::Backwards,
    }
}

/// The numbers of the variables of a context, from the free number on.
pub(crate) fn context_numbers(context: ContextUse, free: u32) -> Result<ContextNumbers, AllocError>
    ensures { IfOk result (λ numbers. numbers ≡ context_numbers context free) }
{
    let one = behind(free, 1)?;
    let two = behind(free, 2)?;
    let three = behind(free, 3)?;
    let four = behind(free, 4)?;
    let (item, position, size) = match context {
        ContextUse::Item => (free, None, None),
        ContextUse::Position => (free, Some(one), None),
        ContextUse::Size => (two, None, Some(one)),
        ContextUse::PositionAndSize => (two, Some(three), Some(one)),
        ContextUse::Backwards => (two, Some(four), Some(one)),
    };
    let item = Some(item);
    Ok(ContextNumbers {
        item,
        position,
        size,
    })
}

/// The number that is free behind them.
pub(crate) fn behind_context(context: ContextUse, free: u32) -> Result<u32, AllocError>
    ensures { IfOk result (λ next. next ≡ behind_context context free) }
{
    let count = match context {
        ContextUse::Item => 1,
        ContextUse::Position => 2,
        ContextUse::Size => 3,
        ContextUse::PositionAndSize => 4,
        ContextUse::Backwards => 5,
    };
    behind(free, count)
}

/// The number that comes so many behind another.
pub(crate) fn behind(number: u32, count: u32) -> Result<u32, AllocError>
    ensures { IfOk result (λ n. n ≡ number + count) }
{
    match number.checked_add(count) {
        Some(number) => Ok(number),
        None => Err(AllocError),
    }
}

/// The body for each item of the source, with the variables of the context from the free number on.
pub(crate) fn loop_at(
    alloc: Global,
    context: ContextUse,
    ordered: bool,
    place: Place,
    free: u32,
    source: Box<CoreExpr>,
    body: Box<CoreExpr>,
) -> Result<CoreExpr, AllocError>
    ensures { IfOk result (λ e. e ≡ loop_at context ordered place free source.value body.value) }
{
    match context {
        ContextUse::Item => ordered_for(alloc, ordered, place, free, 0, source, body),
        ContextUse::Position => {
            let position = behind(free, 1)?;
            ordered_for(alloc, ordered, place, free, position, source, body)
        }
        ContextUse::Size | ContextUse::PositionAndSize => {
            let position = match context {
                ContextUse::Size => 0,
                _ => behind(free, 3)?,
            };
            let each = each_of_bound(alloc, ordered, place, free, position, body)?;
            with_size(alloc, place, free, source, each)
        }
        ContextUse::Backwards => {
            let position = behind(free, 3)?;
            let body = with_position_from_end(alloc, place, free, body)?;
            let each = each_of_bound(alloc, ordered, place, free, position, body)?;
            with_size(alloc, place, free, source, each)
        }
    }
}

// The body for each item of the source that is bound.
fn each_of_bound(
    alloc: Global,
    ordered: bool,
    place: Place,
    free: u32,
    position: u32,
    body: Box<CoreExpr>,
) -> Result<Box<CoreExpr>, AllocError>
    ensures { IfOk result (λ e. e.value ≡ ordered_if ordered place (hidden_for place (free + 2) position (hidden_variable place free) body.value)) }
{
    let item = behind(free, 2)?;
    let source = Box::new(alloc, variable(place, free))?;
    let each = ordered_for(alloc, ordered, place, item, position, source, body)?;
    Ok(Box::new(alloc, each)?)
}

// The body with the variable of a position that counts from the end.
fn with_position_from_end(
    alloc: Global,
    place: Place,
    free: u32,
    body: Box<CoreExpr>,
) -> Result<Box<CoreExpr>, AllocError>
    ensures { IfOk result (λ e. e.value ≡ hidden_let place (free + 4) (position_from_end place (free + 1) (free + 3)) body.value) }
{
    let size = behind(free, 1)?;
    let position = behind(free, 3)?;
    let turned = behind(free, 4)?;
    let value = position_from_end(alloc, place, size, position)?;
    Ok(Box::new(alloc, hidden_let(place, turned, value, body))?)
}

// A position that counts from the end.
fn position_from_end(
    alloc: Global,
    place: Place,
    size: u32,
    position: u32,
) -> Result<Box<CoreExpr>, AllocError>
    ensures { IfOk result (λ e. e.value ≡ position_from_end place size position) }
{
    let size = Box::new(alloc, variable(place, size))?;
    let position = Box::new(alloc, variable(place, position))?;
    let behind = Box::new(
        alloc,
        at(place, Form::Binary(BinaryOp::Sub, size, position)),
    )?;
    let one = Box::new(alloc, number(place, Number::int(1)))?;
    Ok(Box::new(alloc, at(place, Form::Binary(BinaryOp::Add, behind, one)))?)
}

// The source and its size are bound first.
fn with_size(
    alloc: Global,
    place: Place,
    free: u32,
    source: Box<CoreExpr>,
    body: Box<CoreExpr>,
) -> Result<CoreExpr, AllocError>
    ensures { IfOk result (λ e. e ≡ with_size place free source.value body.value) }
{
    let size = behind(free, 1)?;
    let counted = Box::new(alloc, variable(place, free))?;
    let count = Box::new(alloc, call(alloc, place, Function::Count, counted)?)?;
    let body = Box::new(alloc, hidden_let(place, size, count, body))?;
    Ok(hidden_let(place, free, source, body))
}

// A `for` over a source, in document order where that is so.
fn ordered_for(
    alloc: Global,
    ordered: bool,
    place: Place,
    variable: u32,
    position: u32,
    source: Box<CoreExpr>,
    body: Box<CoreExpr>,
) -> Result<CoreExpr, AllocError>
    ensures { IfOk result (λ e. e ≡ ordered_if ordered place (hidden_for place variable position source.value body.value)) }
{
    let binder = hidden_binder(place, variable);
    let each = at(place, Form::For(binder, position, source, body));
    if !ordered {
        return Ok(each);
    }
    let each = Box::new(alloc, each)?;
    Ok(at(place, Form::Order(each)))
}

fn hidden_let(place: Place, variable: u32, value: Box<CoreExpr>, body: Box<CoreExpr>) -> CoreExpr
    ensures { result ≡ hidden_let place variable value.value body.value }
{
    at(
        place,
        Form::Let(hidden_binder(place, variable), value, body),
    )
}

// A variable of Core alone.
fn hidden_binder(place: Place, variable: u32) -> Binder
    ensures { result ≡ hidden_binder place variable }
{
    Binder {
        variable,
        place,
        kind: None,
    }
}

/// Such a variable where it is named.
pub(crate) fn variable(place: Place, number: u32) -> CoreExpr
    ensures { result ≡ hidden_variable place number }
{
    context_item(place, Some(number))
}

/// A path of two parts, with the variables of the context of the right one from the free number on.
pub(crate) fn path(
    alloc: Global,
    context: ContextUse,
    place: Place,
    free: u32,
    first: Box<CoreExpr>,
    second: Box<CoreExpr>,
) -> Result<CoreExpr, AllocError>
    ensures { IfOk result (λ e. e ≡ path_with context place free first.value second.value) }
{
    let nodes = Box::new(alloc, at(place, Form::Nodes(first)))?;
    loop_at(alloc, context, true, place, free, nodes, second)
}

/// The left part of a path with `//`: a path from it to `descendant-or-self::node()`, the context item of the step the variable with
/// this number.
pub(crate) fn with_descendants(
    alloc: Global,
    place: Place,
    number: u32,
    left: CoreExpr,
) -> Result<CoreExpr, AllocError>
    ensures { IfOk result (λ e. e ≡ (left_of_path true place (left, number)).0) }
{
    let left = Box::new(alloc, left)?;
    let step = Form::Step(Axis::DescendantOrSelf, Test::Node, number);
    let step = Box::new(alloc, at(place, step))?;
    path(alloc, ContextUse::Item, place, number, left, step)
}
