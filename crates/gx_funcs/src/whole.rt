// Whole numbers as positions.

ghost use Rattle.std.specs.Prelude.{◌≡◌, int_lt, min, pos};
ghost use Rattle.gx_num.specs.Number.{units_of};
ghost use Rattle.gx_num.specs.Arithmetic.{exact_round, truncated};
ghost use Rattle.gx_funcs.specs.Positions.{positions_before};

use gx_num::{Number, compare, round, to_int};
use std::cmp::Ordering;

// What a number beyond these is rounded to.
const GREATEST: i128 = 1_000_000_000_000;

// The whole number that is nearest to a number, of two that are as near the greater, also where it is out of the range of decimals.
pub(crate) fn nearest_whole(a: Number) -> i128
    ensures { result ≡ truncated (exact_round a) }
{
    let greatest = if is_negative(&a) { -GREATEST } else { GREATEST };
    match round(a) {
        Ok(rounded) => to_int(rounded),
        Err(_) => greatest,
    }
}

fn is_negative(a: &Number) -> bool
    ensures { result ≡ int_lt (units_of a.now) (pos 0) }
{
    compare(*a, Number::int(0)) == Ordering::Less
}

// How many positions stand before one, but no more than so many.
pub(crate) fn positions_before(position: i128, most: usize) -> usize
    ensures { result ≡ min (positions_before position) most }
{
    if position < 1 {
        0
    } else {
        usize::try_from(position - 1).unwrap_or(most).min(most)
    }
}
