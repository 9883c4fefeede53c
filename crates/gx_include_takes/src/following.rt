// The positions that may come next behind each position of a type, and what sets of places come to.

ghost use Rattle.std.specs.Prelude.{◌≡◌, ◌+◌, ◌*◌, ◌^◌, ◌<◌, ◌≤◌, ◌/◌, ◌&&◌, ◌||◌, ℕ, IfOk, OnOk, IsTrue, ◌↔◌, true, false, length, slice_index_or};
ghost use Rattle.gx_include_takes.specs.Bits.{has_bit};
ghost use Rattle.gx_include_takes.specs.Following.{AreFollowing, FollowsMember, follows_block, members_in};
ghost use Rattle.gx_include_positions.specs.Step.{single, all_next, is_end};

use crate::bits::{has, intersect, packed, union, unite, word_at};
use gx_include_positions::step::{ends_at, next_positions, only};
use gx_types::sequence_type::Ty;
use std::alloc::{AllocError, Global};

// The positions that may come next behind each choice of places of each block of four, for so many places: the start of a type
// and its positions.
pub(crate) fn following(alloc: Global, t: &Ty, count: usize) -> Result<Vec<Vec<u64>>, AllocError>
    ensures { IfOk result (λ rows. AreFollowing t.now ((count / 4 + 1) * 16) rows.items) }
{
    let mut rows = Vec::new(alloc);
    for block in 0..count / 4 + 1 {
        add_block(alloc, t, block, &mut rows)?;
    }
    Ok(rows)
}

// Puts the rows of a block behind those of the blocks before it.
fn add_block(
    alloc: Global,
    t: &Ty,
    block: usize,
    rows: &mut Vec<Vec<u64>>,
) -> Result<(), AllocError>
    requires bound { block < 2 ^ 62 }
    requires before { AreFollowing t.now (block * 16) rows.old.items }
    ensures { OnOk result (AreFollowing t.now ((block + 1) * 16) rows.new.items) }
{
    rows.push(Vec::new(alloc))?;
    for bit in 0..4usize {
        add_place(alloc, t, block, bit, rows)?;
    }
    Ok(())
}

// Puts the rows of a block that have one place more behind those that have only places before it.
fn add_place(
    alloc: Global,
    t: &Ty,
    block: usize,
    bit: usize,
    rows: &mut Vec<Vec<u64>>,
) -> Result<(), AllocError>
    requires bound { block < 2 ^ 62 }
    requires within { bit < 4 }
    requires before { AreFollowing t.now (block * 16 + 2 ^ bit) rows.old.items }
    ensures { OnOk result (AreFollowing t.now (block * 16 + 2 ^ (bit + 1)) rows.new.items) }
{
    let last = row_of(alloc, t, block * 4 + bit)?;
    for members in 0..1usize << bit {
        let row = union(
            alloc,
            rows[block * 16 + members].as_slice(),
            last.as_slice(),
        )?;
        rows.push(row)?;
    }
    Ok(())
}

// The positions that may come next behind one.
fn row_of(alloc: Global, t: &Ty, origin: usize) -> Result<Vec<u64>, AllocError>
    ensures { IfOk result (λ row. (place : ℕ) → has_bit row.items place ≡ slice_index_or (all_next t.now (single origin)) place false) }
{
    let set = only(alloc, origin)?;
    let next = next_positions(alloc, t, set.as_slice())?;
    let row = packed(alloc, next.as_slice())?;
    Ok(row)
}

// The places of a mask that may come next behind those of a set.
pub(crate) fn places_coming(
    alloc: Global,
    rows: &[Vec<u64>],
    mask: &[u64],
    places: &[u64],
) -> Result<Vec<u64>, AllocError>
    ensures { IfOk result (λ after. (place : ℕ) → (has_bit after.items place ≡ true) ↔ (FollowsMember rows.now places.now place × (has_bit mask.now place ≡ true))) }
{
    let mut after = vec![in alloc; 0; mask.len()]?;
    for block in 0..rows.len() / 16 + 1 {
        add_next(rows, places, block, &mut after);
    }
    intersect(&mut after, mask);
    Ok(after)
}

// Puts the places that may come next behind the members of a set in a block into another set, as far as that has room.
fn add_next(rows: &[Vec<u64>], places: &[u64], block: usize, after: &mut Vec<u64>)
    requires { block ≤ length rows.now / 16 }
    ensures room { length after.new.items ≡ length after.old.items }
    ensures bits { (place : ℕ) → place / 64 < length after.old.items → has_bit after.new.items place ≡ has_bit after.old.items place || follows_block rows.now places.now block place }
{
    if let Some(row) = rows.get(block * 16 + members_in_block(places, block)) {
        unite(after, row.as_slice());
    }
}

// The members of a set in a block, as the bits of a number.
fn members_in_block(places: &[u64], block: usize) -> usize
    ensures { result ≡ members_in places.now block }
{
    ((word_at(places, block / 16) >> (block % 16 * 4)) % 16) as usize
}

// Whether a list of the type may end at one of some places.
pub(crate) fn ends_at_one(
    alloc: Global,
    t: &Ty,
    count: usize,
    places: &[u64],
) -> Result<bool, AllocError>
    requires { (place : ℕ) → has_bit places.now place ≡ true → place < count }
    ensures { IfOk result (λ end. IsTrue end ↔ ((place : ℕ) × (has_bit places.now place ≡ true) × (is_end t.now (single place) ≡ true))) }
{
    for place in 0..count {
        if ends_at_member(alloc, t, places, place)? {
            return Ok(true);
        }
    }
    Ok(false)
}

// Whether a place is in a set, and a list of the type may end at it.
fn ends_at_member(alloc: Global, t: &Ty, places: &[u64], place: usize) -> Result<bool, AllocError>
    ensures { IfOk result (λ end. end ≡ (has_bit places.now place && is_end t.now (single place))) }
{
    if !has(places, place) {
        return Ok(false);
    }
    let set = only(alloc, place)?;
    Ok(ends_at(t, set.as_slice()))
}
