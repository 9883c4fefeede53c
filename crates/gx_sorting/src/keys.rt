// The order of keys.
ghost use Rattle.std.specs.declared.cmp.Ordering.TheVariants.{Less, Greater};
ghost use Rattle.std.specs.Prelude.{◌≡◌, drop, if◌then◌else◌, option_copied};
ghost use Rattle.gx_sorting.specs.ValueOrder.{family_rank, value_cmp};
ghost use Rattle.gx_sorting.specs.KeyComparison.{rising, key_cmp, keys_cmp, leading_value};

use gx_facets::{AtomValue, Atomic, compare_values};
use std::cmp::Ordering;

/// How a key orders (XQuery 1.0, section 3.8.3).
#[derive(Clone, Copy)]
pub struct KeyOrder {
    /// The greatest key comes first.
    pub descending: bool,
    /// The empty key is greater than each value, and else it is less.
    pub greatest: bool,
}

/// The order of the keys of two tuples: by the first orders and keys that differ. A key that is missing is an empty one, and keys
/// behind the last order do not count (XQuery 1.0, section 3.8.3).
#[tactic(auto, using(crate::proofs::Comparisons::first_keys))]
pub fn compare_keys(orders: &[KeyOrder], a: &[Option<Atomic>], b: &[Option<Atomic>]) -> Ordering
    ensures { result ≡ keys_cmp orders.now a.now b.now }
{
    let mut rest = orders;
    let mut first = a;
    let mut second = b;
    while let Some((order, others)) = rest.split_first() {
        match compare_key(*order, value_at_front(first), value_at_front(second)) {
            Ordering::Equal => {}
            unequal => return unequal,
        }
        rest = others;
        first = behind_front(first);
        second = behind_front(second);
    }
    Ordering::Equal
}

fn value_at_front(keys: &[Option<Atomic>]) -> Option<&AtomValue>
    ensures { option_copied result ≡ leading_value keys.now }
{
    match keys {
        [Some(atomic), ..] => Some(&atomic.value),
        _ => None,
    }
}

fn behind_front(keys: &[Option<Atomic>]) -> &[Option<Atomic>]
    ensures { result.now ≡ drop 1 keys.now }
{
    match keys {
        [] => keys,
        [_, others @ ..] => others,
    }
}

fn compare_key(order: KeyOrder, a: Option<&AtomValue>, b: Option<&AtomValue>) -> Ordering
    ensures { result ≡ key_cmp order (option_copied a.entry) (option_copied b.entry) }
{
    if order.descending {
        compare_rising(order.greatest, b, a)
    } else {
        compare_rising(order.greatest, a, b)
    }
}

#[tactic(auto, using(crate::proofs::Comparisons::empty_keys))]
fn compare_rising(greatest: bool, a: Option<&AtomValue>, b: Option<&AtomValue>) -> Ordering
    ensures { result ≡ rising greatest (option_copied a.entry) (option_copied b.entry) }
{
    match (a, b) {
        (Some(x), Some(y)) => compare_all_values(x, y),
        (None, None) => Ordering::Equal,
        (None, Some(_)) => beside_value(greatest),
        (Some(_), None) => beside_value(!greatest),
    }
}

fn beside_value(greatest: bool) -> Ordering
    ensures { result ≡ (if greatest then Greater else Less) }
{
    if greatest {
        Ordering::Greater
    } else {
        Ordering::Less
    }
}

#[tactic(auto, using(crate::proofs::Comparisons::compared_values))]
fn compare_all_values(a: &AtomValue, b: &AtomValue) -> Ordering
    ensures { result ≡ value_cmp a.now b.now }
{
    match compare_values(a, b) {
        Some(ordering) => ordering,
        None => family(a).cmp(&family(b)),
    }
}

fn family(value: &AtomValue) -> u8
    ensures { result ≡ family_rank value.now }
{
    match value {
        AtomValue::Untyped(_) | AtomValue::Str(_) => 0,
        AtomValue::Truth(_) => 1,
        AtomValue::Num(_) => 2,
    }
}
