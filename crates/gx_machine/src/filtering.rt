// Items that are picked by their numbers, where they stand.

ghost use Rattle.std.specs.Prelude.{◌≡◌, ◌++◌, ◌<◌, length, IfSome, OnOk, take, drop};
ghost use Rattle.gx_core.specs.Filtering.{counted_so, final_of, item_numbered, nth_of};
ghost use Rattle.gx_model.specs.Forest.{Forest as PlainForest};
ghost use Rattle.gx_model.specs.Item.{Items};
ghost use Rattle.gx_store.specs.Items.{items_in};
ghost use Rattle.gx_machine.specs.OneItem.{item_found};

use crate::operand::{cut_off, values_from};
use gx_store::item::Item;
use std::alloc::AllocError;

// Keeps, of the values from the first number on, the item of a number.
pub(crate) fn keep_nth(
    number: i128,
    reverse: bool,
    first: usize,
    values: &mut Vec<Item>,
) -> Result<(), AllocError>
    ensures { (later : PlainForest) → OnOk result (items_in later values.new.items ≡ take first (items_in later values.old.items) ++ nth_of number reverse (drop first (items_in later values.old.items))) }
{
    let count = values_from(values, first).len();
    keep_found(index_of(number, reverse, count), first, values)
}

// Keeps, of the values from the first number on, the last item, which is the first one from the other end.
pub(crate) fn keep_last(
    reverse: bool,
    first: usize,
    values: &mut Vec<Item>,
) -> Result<(), AllocError>
    ensures { (later : PlainForest) → OnOk result (items_in later values.new.items ≡ take first (items_in later values.old.items) ++ final_of reverse (drop first (items_in later values.old.items))) }
{
    let count = values_from(values, first).len();
    keep_found(place_of(1, !reverse, count), first, values)
}

// Where the item of a number stands among so many items.
fn index_of(number: i128, reverse: bool, count: usize) -> Option<usize>
    ensures found { (items : Items) → length items ≡ count → nth_of number reverse items ≡ item_found result items }
    ensures within { IfSome result (λ index. index < count) }
{
    match usize::try_from(number) {
        Ok(number) => place_of(number, reverse, count),
        Err(_) => None,
    }
}

// The same for a number that may be one of an item.
#[tactic(auto, using(crate::proofs::Picked::numbered_from_end, crate::proofs::Picked::numbered_beyond))]
fn place_of(number: usize, reverse: bool, count: usize) -> Option<usize>
    ensures found { (items : Items) → length items ≡ count → item_numbered number (counted_so reverse items) ≡ item_found result items }
    ensures within { IfSome result (λ index. index < count) }
{
    if number == 0 || number > count {
        return None;
    }
    if reverse {
        Some(count - number)
    } else {
        Some(number - 1)
    }
}

// Keeps, of the values from the first number on, the one that was found, or none.
fn keep_found(found: Option<usize>, first: usize, values: &mut Vec<Item>) -> Result<(), AllocError>
    requires { IfSome found (λ index. index < length (drop first values.old.items)) }
    ensures { (later : PlainForest) → OnOk result (items_in later values.new.items ≡ take first (items_in later values.old.items) ++ item_found found (drop first (items_in later values.old.items))) }
{
    let Some(index) = found else {
        cut_off(values, first);
        return Ok(());
    };
    values.truncate(first + index + 1);
    let Some(item) = values.pop() else {
        return Ok(());
    };
    values.truncate(first);
    Ok(values.push(item)?)
}
