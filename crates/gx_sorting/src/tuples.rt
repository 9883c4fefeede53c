// Tuples in the order of their keys.
ghost use Rattle.std.specs.Prelude.{◌≡◌, IfOk, length, drop, ◌*◌};
ghost use Rattle.std.specs.List.{range_with_len};
ghost use Rattle.gx_sorting.specs.KeyComparison.{keys_cmp};
ghost use Rattle.gx_sorting.specs.Sorting.{sorted};
ghost use Rattle.gx_sorting.specs.Tuples.{keys_from, tuple_precedes};

use crate::keys::{KeyOrder, compare_keys};
use gx_facets::Atomic;
use std::alloc::{AllocError, Global};
use std::cmp::Ordering;

/// The numbers of the tuples from 0 on, stably sorted by their keys. The keys of all tuples stand behind one another, those of a
/// tuple in the order of `orders`, and as many as there are orders (XQuery 1.0, section 3.8.3).
pub fn sorted_numbers(
    alloc: Global,
    orders: &[KeyOrder],
    keys: &[Option<Atomic>],
    count: usize,
) -> Result<Vec<usize>, AllocError>
    ensures { IfOk result (λ numbers. numbers.items ≡ sorted (tuple_precedes orders.now keys.now) (range_with_len 0 count)) }
{
    let mut numbers = numbers_below(alloc, count)?;
    numbers.sort_by(|a, b| compare_tuples(orders, keys, *a, *b))?;
    Ok(numbers)
}

fn numbers_below(alloc: Global, count: usize) -> Result<Vec<usize>, AllocError>
    ensures { IfOk result (λ numbers. numbers.items ≡ range_with_len 0 count) }
{
    (0..count).collect(alloc)
}

fn compare_tuples(orders: &[KeyOrder], keys: &[Option<Atomic>], a: usize, b: usize) -> Ordering
    ensures { result ≡ keys_cmp orders.now (keys_from orders.now keys.now a) (keys_from orders.now keys.now b) }
{
    let width = orders.len();
    compare_keys(orders, keys_at(keys, width, a), keys_at(keys, width, b))
}

fn keys_at(keys: &[Option<Atomic>], width: usize, number: usize) -> &[Option<Atomic>]
    ensures { result.now ≡ drop (number * width) keys.now }
{
    let start = (number as u128 * width as u128).min(keys.len() as u128);
    &keys[start as usize..]
}
