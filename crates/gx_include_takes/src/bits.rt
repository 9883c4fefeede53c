// Sets of numbers as bits, 64 to a word.

ghost use Rattle.std.specs.Prelude.{◌≡◌, ◌==◌, ◌&&◌, ◌||◌, ◌<◌, ◌/◌, ℕ, IfOk, false, length, slice_index_or};
ghost use Rattle.gx_include_takes.specs.Bits.{has_bit};

use std::alloc::{AllocError, Global};

// Whether a number is in a set.
pub(crate) fn has(set: &[u64], number: usize) -> bool
    ensures { result ≡ has_bit set.now number }
{
    (word_at(set, number / 64) >> (number % 64)) & 1 == 1
}

// The word of an index, 0 behind the last one.
pub(crate) fn word_at(set: &[u64], index: usize) -> u64
    ensures { result ≡ slice_index_or set.now index 0 }
{
    match set.get(index) {
        Some(word) => *word,
        None => 0,
    }
}

// Puts a number into a set that has room for it.
fn insert(set: &mut Vec<u64>, number: usize)
    requires { number / 64 < length set.old.items }
    ensures room { length set.new.items ≡ length set.old.items }
    ensures bits { (other : ℕ) → has_bit set.new.items other ≡ (other == number) || has_bit set.old.items other }
{
    let word = number / 64;
    set[word] = set[word] | (1u64 << (number % 64));
}

// Puts a number into a set that has room for it, if a flag says so.
fn insert_if(set: &mut Vec<u64>, number: usize, flag: bool)
    requires { number / 64 < length set.old.items }
    ensures room { length set.new.items ≡ length set.old.items }
    ensures bits { (other : ℕ) → has_bit set.new.items other ≡ ((other == number) && flag) || has_bit set.old.items other }
{
    if flag {
        insert(set, number);
    }
}

// Keeps those members of a set that are in another one.
pub(crate) fn intersect(set: &mut Vec<u64>, other: &[u64])
    ensures { (number : ℕ) → has_bit set.new.items number ≡ has_bit set.old.items number && has_bit other.now number }
{
    for word in 0..set.len() {
        set[word] = set[word] & word_at(other, word);
    }
}

// Puts the members of another set into a set, as far as that has room.
pub(crate) fn unite(set: &mut Vec<u64>, other: &[u64])
    ensures room { length set.new.items ≡ length set.old.items }
    ensures bits { (number : ℕ) → number / 64 < length set.old.items → has_bit set.new.items number ≡ has_bit set.old.items number || has_bit other.now number }
{
    let count = set.len().min(other.len());
    for word in 0..count {
        set[word] = set[word] | other[word];
    }
}

// The numbers that are in one of two sets.
pub(crate) fn union(alloc: Global, one: &[u64], other: &[u64]) -> Result<Vec<u64>, AllocError>
    ensures { IfOk result (λ set. (number : ℕ) → has_bit set.items number ≡ has_bit one.now number || has_bit other.now number) }
{
    let mut set = vec![in alloc; 0; one.len().max(other.len())]?;
    unite(&mut set, one);
    unite(&mut set, other);
    Ok(set)
}

// The set of the numbers whose flags are set.
pub(crate) fn packed(alloc: Global, flags: &[bool]) -> Result<Vec<u64>, AllocError>
    ensures { IfOk result (λ set. (number : ℕ) → has_bit set.items number ≡ slice_index_or flags.now number false) }
{
    let mut set = vec![in alloc; 0; flags.len() / 64 + 1]?;
    for number in 0..flags.len() {
        insert_if(&mut set, number, flags[number]);
    }
    Ok(set)
}
