// Elements at some positions of a list, of which the first has the position 1 (Functions and Operators, sections 15.1.7, 15.1.8 and
// 15.1.10).

ghost use Rattle.std.specs.Prelude.{◌≡◌, ◌++◌, List};
ghost use Rattle.gx_funcs.specs.Positions.{from_position, so_many_from, without_position, inserted_before};

use crate::whole::{nearest_whole, positions_before};
use gx_num::Number;

/// The elements from a position on (section 15.1.10).
pub fn from_position<T>(start: Number, items: &[T]) -> &[T]
    ensures { result.now ≡ from_position start items.now }
{
    let skipped = positions_before(nearest_whole(start), items.len());
    &items[skipped..]
}

/// So many elements from a position on (section 15.1.10).
pub fn so_many_from<T>(start: Number, count: Number, items: &[T]) -> &[T]
    ensures { result.now ≡ so_many_from start count items.now }
{
    let least = nearest_whole(start);
    let limit = least.saturating_add(nearest_whole(count));
    let skipped = positions_before(least, items.len());
    let ended = positions_before(limit, items.len()).max(skipped);
    &items[skipped..ended]
}

/// The elements before a position, and those from it on (section 15.1.7).
pub fn split_at_position<T>(position: i128, items: &[T]) -> (&[T], &[T])
    ensures { (others : List T) → inserted_before position others items.now ≡ result.0.now ++ others ++ result.1.now }
{
    items.split_at(positions_before(position, items.len()))
}

/// The elements before a position, and those behind it (section 15.1.8).
pub fn without_position<T>(position: i128, items: &[T]) -> (&[T], &[T])
    ensures { without_position position items.now ≡ result.0.now ++ result.1.now }
{
    let (first, rest) = items.split_at(positions_before(position, items.len()));
    let removed = if position < 1 { 0 } else { rest.len().min(1) };
    (first, &rest[removed..])
}
