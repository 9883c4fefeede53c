// Sets of the start and the positions of a type, and what they come to behind a shape.

ghost use Rattle.std.specs.Prelude.{◌≡◌, IfOk, true, drop, slice_index_or, false};
ghost use Rattle.gx_include_positions.specs.Positions.{both_set};
ghost use Rattle.gx_include_positions.specs.Step.{single, has_start, all_next, step_over, is_end};
ghost use Rattle.gx_include_positions.specs.Test.{is_taken};

use crate::places::{end_of, follow, follow_taking};
use gx_types::schemas::Schemas;
use gx_types::sequence_type::Ty;
use gx_types::shape::Shape;
use std::alloc::{AllocError, Global};

/// The set of one number alone: 0 for the start, and then the positions in the order of the text.
pub fn only(alloc: Global, place: usize) -> Result<Vec<bool>, AllocError>
    ensures { IfOk result (λ set. set.items ≡ single place) }
{
    let mut set = vec![in alloc; false; place]?;
    set.push(true)?;
    Ok(set)
}

// Whether the start is in a set, and the positions of the set.
fn split(set: &[bool]) -> (bool, &[bool])
    ensures start { result.0 ≡ has_start set.now }
    ensures positions { result.1.now ≡ drop 1 set.now }
{
    match set.split_first() {
        Some((start, positions)) => (*start, positions),
        None => (false, set),
    }
}

/// The positions that may come next behind a set.
pub fn next_positions(alloc: Global, t: &Ty, set: &[bool]) -> Result<Vec<bool>, AllocError>
    ensures { IfOk result (λ next. next.items ≡ all_next t.now set.now) }
{
    let mut next = Vec::new(alloc);
    next.push(false)?;
    let (start, positions) = split(set);
    follow(t, start, positions, &mut next)?;
    Ok(next)
}

/// The positions that a set comes to behind a shape.
#[tactic(auto, using(crate::proofs::Passing::passing_is))]
pub fn behind(
    alloc: Global,
    schemas: &Schemas,
    t: &Ty,
    shape: &Shape,
    set: &[bool],
) -> Result<Vec<bool>, AllocError>
    ensures { IfOk result (λ next. next.items ≡ step_over t.now (is_taken schemas.now shape.now) set.now) }
{
    let mut next = Vec::with_capacity(alloc, set.len())?;
    next.push(false)?;
    let (start, positions) = split(set);
    follow_taking(schemas, shape, t, start, positions, &mut next)?;
    Ok(next)
}

/// Whether a list of the type may end at a member of a set.
pub fn ends_at(t: &Ty, set: &[bool]) -> bool
    ensures { result ≡ is_end t.now set.now }
{
    let (start, positions) = split(set);
    let end = end_of(t, positions);
    (start && end.nullable) || end.ends
}

/// Whether a number is in a set.
pub fn is_set(set: &[bool], place: usize) -> bool
    ensures { result ≡ slice_index_or set.now place false }
{
    match set.get(place) {
        Some(marked) => *marked,
        None => false,
    }
}
