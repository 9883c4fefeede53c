// Ascending numbers of rows.

ghost use Rattle.std.specs.Prelude.{◌≡◌, ℕ, nat_eq, OnOk};
ghost use Rattle.std.specs.List.{list_any};
ghost use Rattle.gx_join_table.specs.RowNumbers.{AscendFrom, is_last, with_last};

use std::alloc::AllocError;

// Puts a number behind the others, unless it is the last one.
pub(crate) fn put_last(numbers: &mut Vec<usize>, number: usize) -> Result<(), AllocError>
    ensures { OnOk result (numbers.new.items ≡ with_last numbers.old.items number) }
{
    if !ends_with(numbers.as_slice(), number) {
        numbers.push(number)?;
    }
    Ok(())
}

fn ends_with(numbers: &[usize], number: usize) -> bool
    ensures { result ≡ is_last number numbers.now }
{
    match numbers.last() {
        Some(last) => *last == number,
        None => false,
    }
}

// The numbers in ascending order, each once.
pub(crate) fn ordered(numbers: Vec<usize>) -> Vec<usize>
    ensures ascending { AscendFrom 0 result.items }
    ensures same { (n : ℕ) → list_any (nat_eq n) result.items ≡ list_any (nat_eq n) numbers.items }
{
    let mut ordered = numbers;
    ordered.sort_unstable();
    ordered.dedup();
    ordered
}
