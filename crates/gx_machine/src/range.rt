// Ranges of integers.

ghost use Rattle.std.specs.Prelude.{◌≡◌, ◌<◌, ◌≤◌, ◌++◌, OnOk, MatchOption, IfSome};
ghost use Rattle.gx_base.specs.declared.limits.TheConstants.{RANGE_ITEMS};
ghost use Rattle.gx_model.specs.Forest.{Forest};
ghost use Rattle.gx_model.specs.Item.{atom, atoms};
ghost use Rattle.gx_core.specs.Ranging.{integer_of_item, integers_from, range_length};
ghost use Rattle.gx_store.specs.Items.{items_in};
ghost use Rattle.gx_machine.specs.Answering.{IntegersFit};

use crate::operand::push_atom;
use gx_base::limits::RANGE_ITEMS;
use gx_facets::{AtomValue, Atomic};
use gx_funcs::numbers::number_atom;
use gx_num::Number;
use gx_store::item::Item;
use std::alloc::AllocError;

// The integer that a value is.
pub(crate) fn integer_of(value: &Atomic) -> Option<i128>
    ensures { result ≡ integer_of_item (atom value.now) }
{
    match &value.value {
        AtomValue::Num(Number::Int(i)) => Some(i.value()),
        _ => None,
    }
}

// How many integers there are from the first to the last, where they are no more than the limit.
pub(crate) fn range_count(first: i128, last: i128) -> Option<u32>
    ensures counted { MatchOption result (RANGE_ITEMS < range_length first last) (λ n. n ≡ range_length first last) }
    ensures limited { IfSome result (λ n. n ≤ RANGE_ITEMS) }
    ensures fits { IfSome result (λ n. IntegersFit first n) }
{
    if last < first {
        return Some(0);
    }
    let steps = last.checked_sub(first)?;
    if steps < i128::from(RANGE_ITEMS) {
        Some(steps as u32 + 1)
    } else {
        None
    }
}

// Puts so many integers behind the values, from the first on.
pub(crate) fn put_integers(
    first: i128,
    count: u32,
    values: &mut Vec<Item>,
) -> Result<(), AllocError>
    requires { IntegersFit first count }
    ensures { (later : Forest) → OnOk result (items_in later values.new.items ≡ items_in later values.old.items ++ atoms (integers_from first count)) }
{
    values.reserve(count as usize)?;
    for offset in 0..count {
        let integer = first + i128::from(offset);
        push_atom(number_atom(Number::int(integer)), values)?;
    }
    Ok(())
}
