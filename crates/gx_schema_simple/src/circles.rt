// Circles of types.

ghost use Rattle.std.specs.Prelude.{◌≡◌, ◌<◌, ◌+◌, ℕ, Bool, true, false, length, Some, None, slice_index_or, IfOk, IsTrue, ◌↔◌};
ghost use Rattle.gx_schema_simple.specs.Circles.{StandsOnCircle, is_circular};
ghost use Rattle.gx_schema_simple.specs.CircularTypes.{first_circular, first_circular_from};
ghost use Rattle.gx_schema_simple.specs.Varieties.{IsMarked};
ghost use Rattle.std.specs.Bool.{MatchBool};
ghost use Rattle.gx_schema_simple.specs.Walk.{has_mark, walk_at, IsUnreached, IsReachedOrOutside, IsUnmarked, IsMarkedOrOutside, IsClosed, BeganBelow, WalksTo, MarksGoOn, MarksCircle, IsCircleSearch};

use crate::type_form::{TypeForm, references};
use std::alloc::{AllocError, Global};

/// Which declarations stand on a circle, where each names at most one: those from which a way of one step or more leads back to
/// them. One that leads to a circle does not stand on it, and a number of no declaration names none. Each declaration is looked at
/// twice at most.
pub fn circular(alloc: Global, bases: &[Option<usize>]) -> Result<Vec<bool>, AllocError>
    ensures sized { IfOk result (λ marks. length marks.items ≡ length bases.now) }
    ensures exact { IfOk result (λ marks. (number : ℕ) → IsTrue (slice_index_or marks.items number false) ↔ StandsOnCircle bases.now number) }
    ensures decided { IfOk result (λ marks. (number : ℕ) → slice_index_or marks.items number false ≡ is_circular bases.now number) }
{
    let mut walks = vec![in alloc; None; bases.len()]?;
    let mut marks = vec![in alloc; false; bases.len()]?;
    for start in 0..bases.len() {
        search_from(bases, &mut walks, &mut marks, start);
    }
    Ok(marks)
}

/// Marks at the types that stand on a circle of what types name.
pub fn circular_types(alloc: Global, forms: &[TypeForm]) -> Result<Vec<bool>, AllocError>
    ensures { IfOk result (λ marks. IsMarked forms.now marks.items) }
{
    let named = references(alloc, forms)?;
    circular(alloc, named.as_slice())
}

/// The least number of a type that stands on a circle.
pub fn first_circular(alloc: Global, forms: &[TypeForm]) -> Result<Option<usize>, AllocError>
    ensures { IfOk result (λ found. found ≡ first_circular forms.now) }
{
    let marks = circular_types(alloc, forms)?;
    for number in 0..forms.len() {
        if is_marked(marks.as_slice(), number) {
            return Ok(Some(number));
        }
    }
    Ok(None)
}

// Walks on from a declaration, and marks the circle to which the walk comes.
fn search_from(
    bases: &[Option<usize>],
    walks: &mut Vec<Option<usize>>,
    marks: &mut Vec<bool>,
    start: usize,
)
    requires search { IsCircleSearch bases.now walks.old.items marks.old.items start }
    requires within { start < length bases.now }
    ensures { IsCircleSearch bases.now walks.new.items marks.new.items (start + 1) }
{
    if let Some(end) = walk(bases, walks, start) {
        mark(bases, marks, end);
    }
}

// Walks from a declaration to one that was reached before; the answer is that one, where this walk has reached it.
fn walk(bases: &[Option<usize>], walks: &mut Vec<Option<usize>>, start: usize) -> Option<usize>
    requires closed { IsClosed bases.now walks.old.items }
    requires below { BeganBelow walks.old.items start }
    requires within { start < length bases.now }
    ensures { WalksTo bases.now walks.old.items walks.new.items start result }
{
    let mut number = start;
    while is_unreached(walks.as_slice(), number) {
        walks[number] = Some(start);
        match bases[number] {
            None => return None,
            Some(next) => number = next,
        }
    }
    if is_reached_from(walks.as_slice(), number, start) {
        Some(number)
    } else {
        None
    }
}

// Whether a number is that of a declaration that was not reached.
fn is_unreached(walks: &[Option<usize>], number: usize) -> bool
    ensures { MatchBool result (IsUnreached walks.now number) (IsReachedOrOutside walks.now number) }
{
    match walks.get(number) {
        Some(None) => true,
        Some(Some(_from)) => false,
        None => false,
    }
}

// Whether the walk from a start was the first to reach a declaration.
fn is_reached_from(walks: &[Option<usize>], number: usize, start: usize) -> bool
    ensures { IsTrue result ↔ (walk_at walks.now number ≡ Some start) }
{
    match walks.get(number) {
        Some(Some(from)) => *from == start,
        _ => false,
    }
}

/// Whether a declaration is marked.
pub fn is_marked(marks: &[bool], number: usize) -> bool
    ensures { result ≡ has_mark marks.now number }
{
    marks.get(number).copied().unwrap_or(false)
}

// Whether a number is that of a declaration that is not marked.
fn is_unmarked(marks: &[bool], number: usize) -> bool
    ensures { MatchBool result (IsUnmarked marks.now number) (IsMarkedOrOutside marks.now number) }
{
    matches!(marks.get(number), Some(false))
}

// Marks the circle on which a declaration stands.
fn mark(bases: &[Option<usize>], marks: &mut Vec<bool>, end: usize)
    requires circle { StandsOnCircle bases.now end }
    requires sized { length marks.old.items ≡ length bases.now }
    requires onward { MarksGoOn bases.now marks.old.items }
    ensures { MarksCircle bases.now marks.old.items marks.new.items end }
{
    let mut number = end;
    while is_unmarked(marks.as_slice(), number) {
        marks[number] = true;
        if let Some(next) = bases[number] {
            number = next;
        }
    }
}
