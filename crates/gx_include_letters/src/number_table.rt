// Numbers by places.

ghost use Rattle.std.specs.Prelude.{◌≡◌, ◌<◌, ◌++◌, [], ◌∷◌, ℕ, nat_eq, if◌then◌else◌, OnOk, length};
ghost use Rattle.gx_include_letters.specs.ItemIndex.{numbers_at};

use std::alloc::{AllocError, Global};

/// Puts a number behind those that stand at a place of a table.
pub fn add_number(
    alloc: Global,
    place: usize,
    number: usize,
    table: &mut Vec<Vec<usize>>,
) -> Result<(), AllocError>
    ensures { OnOk result ((p : ℕ) → numbers_at table.new.items p ≡ numbers_at table.old.items p ++ (if nat_eq place p then number ∷ [] else [])) }
{
    make_room(alloc, place, table)?;
    table[place].push(number)?;
    Ok(())
}

// Puts empty places behind those that there are, until a place is among them.
fn make_room(alloc: Global, place: usize, table: &mut Vec<Vec<usize>>) -> Result<(), AllocError>
    ensures room { OnOk result (place < length table.new.items) }
    ensures same { OnOk result ((p : ℕ) → numbers_at table.new.items p ≡ numbers_at table.old.items p) }
{
    while table.len() <= place {
        table.push(Vec::new(alloc))?;
    }
    Ok(())
}
