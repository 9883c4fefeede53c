// Rows of keys and of their sorting.

use crate::values::atomic;
use gx_facets::Atomic;
use gx_sorting::{KeyOrder, compare_keys, sorted_numbers};
use rows_words::not_a_row;
use std::alloc::{AllocError, Global};

/// The numbers of tuples, sorted by their keys: orders, each a direction and the place of the empty key, and behind `of` the keys
/// of the tuples, each a type with a text, where `no key` is the empty one.
pub fn sort_row(alloc: Global, words: &[&str]) -> Result<String, AllocError> {
    match words.iter().position(|word| *word == "of") {
        Some(middle) => sorted_with(alloc, &words[..middle], &words[middle + 1..]),
        None => not_a_row(alloc),
    }
}

fn sorted_with(alloc: Global, orders: &[&str], keys: &[&str]) -> Result<String, AllocError> {
    let orders = orders_of(alloc, orders)?;
    let keys = keys_of(alloc, keys)?;
    let count = keys.len() / orders.len().max(1);
    let numbers = sorted_numbers(alloc, orders.as_slice(), keys.as_slice(), count)?;
    format!(in alloc; "{:?}", numbers.as_slice())
}

/// The order of the keys of two tuples: orders, and behind `of` the keys of one, and behind `to` those of the other.
pub fn keys_row(alloc: Global, words: &[&str]) -> Result<String, AllocError> {
    match words.iter().position(|word| *word == "of") {
        Some(middle) => compared_with(alloc, &words[..middle], &words[middle + 1..]),
        None => not_a_row(alloc),
    }
}

fn compared_with(alloc: Global, orders: &[&str], keys: &[&str]) -> Result<String, AllocError> {
    let orders = orders_of(alloc, orders)?;
    match keys.iter().position(|word| *word == "to") {
        Some(middle) => {
            compared_keys(
                alloc,
                orders.as_slice(),
                &keys[..middle],
                &keys[middle + 1..],
            )
        }
        None => not_a_row(alloc),
    }
}

fn compared_keys(
    alloc: Global,
    orders: &[KeyOrder],
    a: &[&str],
    b: &[&str],
) -> Result<String, AllocError> {
    let a = keys_of(alloc, a)?;
    let b = keys_of(alloc, b)?;
    format!(in alloc; "{:?}", compare_keys(orders, a.as_slice(), b.as_slice()))
}

fn orders_of(alloc: Global, words: &[&str]) -> Result<Vec<KeyOrder>, AllocError> {
    let mut orders = Vec::new(alloc);
    for pair in words.chunks(2) {
        if let [direction, place] = pair {
            orders.push(KeyOrder {
                descending: *direction == "descending",
                greatest: *place == "greatest",
            })?;
        }
    }
    Ok(orders)
}

fn keys_of(alloc: Global, words: &[&str]) -> Result<Vec<Option<Atomic>>, AllocError> {
    let mut keys = Vec::new(alloc);
    for pair in words.chunks(2) {
        if let [kind, text] = pair {
            keys.push(atomic(alloc, kind, text).ok())?;
        }
    }
    Ok(keys)
}
