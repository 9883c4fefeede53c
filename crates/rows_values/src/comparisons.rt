// Rows of comparisons.

use crate::casts::fault;
use crate::values::{atomics, value};
use gx_atomic::{Op, compare_any, compare_single, try_compare_any};
use gx_facets::{AtomValue, Atomic};
use rows_words::not_a_row;
use std::alloc::{AllocError, Global};

fn operator(word: &str) -> Op {
    match word {
        "eq" => Op::Eq,
        "ne" => Op::Ne,
        "lt" => Op::Lt,
        "le" => Op::Le,
        "gt" => Op::Gt,
        _ => Op::Ge,
    }
}

/// The value comparison of two values, each given by its type and its text.
pub fn single_row(
    alloc: Global,
    op: &str,
    a: (&str, &str),
    b: (&str, &str),
) -> Result<String, AllocError> {
    match value(alloc, a.0, a.1) {
        Ok(a) => single_with(alloc, operator(op), &a, b),
        Err(fault) => format!(in alloc; "{fault:?}"),
    }
}

fn single_with(
    alloc: Global,
    op: Op,
    a: &AtomValue,
    b: (&str, &str),
) -> Result<String, AllocError> {
    match value(alloc, b.0, b.1) {
        Ok(b) => format!(in alloc; "{:?}", compare_single(op, a, &b)),
        Err(fault) => format!(in alloc; "{fault:?}"),
    }
}

/// The general comparison of two lists, with `to` between them.
pub fn any_row(alloc: Global, op: &str, lists: &[&str]) -> Result<String, AllocError> {
    match lists.iter().position(|word| *word == "to") {
        Some(middle) => any_with(alloc, op, &lists[..middle], &lists[middle + 1..]),
        None => not_a_row(alloc),
    }
}

fn any_with(alloc: Global, op: &str, a: &[&str], b: &[&str]) -> Result<String, AllocError> {
    let a = atomics(alloc, a)?;
    let b = atomics(alloc, b)?;
    any_answer(alloc, operator(op), a.as_slice(), b.as_slice())
}

fn any_answer(alloc: Global, op: Op, a: &[Atomic], b: &[Atomic]) -> Result<String, AllocError> {
    if try_compare_any(op, a, b).is_none() {
        return String::from_str(alloc, "not comparable");
    }
    match compare_any(op, a, b) {
        Ok(truth) => format!(in alloc; "{truth}"),
        Err(error) => fault(alloc, error),
    }
}
