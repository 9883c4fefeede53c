//! Worked values of texts, names, numbers and atomic values, of casts, comparisons and sorting of these,
//! and of functions over atomic values: each line of standard input is a call with its arguments, and is written again with its answer.
#![tactic(auto)]

mod casts;
mod codes;
mod comparisons;
mod functions;
mod names;
mod numbers;
mod sorting;
mod values;

use casts::{cast_row, effective_row, fits_row};
use codes::code_row;
use comparisons::{any_row, single_row};
use functions::call_row;
use names::{build_row, names_row, texts_row, type_names_row};
use numbers::{number, one_number, two_numbers};
use rows_words::not_a_row;
use rows_words::words::words;
use sorting::{keys_row, sort_row};
use std::alloc::{AllocError, Global};
use std::io;
use values::{admits_list_row, admits_row, order_row, value_row};

fn main(rt: HostRuntime) -> io::Result<()> {
    for line in rt.lines(rt.alloc()) {
        let line = line?;
        match row_answer(rt.alloc(), line.as_str()) {
            Ok(answer) => println!(rt; "{line} = {answer}")?,
            Err(_) => println!(rt; "{line} = no memory")?,
        }
    }
    Ok(())
}

fn row_answer(alloc: Global, row: &str) -> Result<String, AllocError> {
    let words = words(alloc, row)?;
    let mut parts = Vec::new(alloc);
    for word in &words {
        parts.push(word.as_str())?;
    }
    answer(alloc, parts.as_slice())
}

fn answer(alloc: Global, words: &[&str]) -> Result<String, AllocError> {
    match words {
        ["build", a, b] => build_row(alloc, a, b),
        ["texts", a, b] => texts_row(alloc, a, b),
        ["names", a, b] => names_row(alloc, a, b),
        ["type_names", a, b] => type_names_row(alloc, a, b),
        ["code", name] => code_row(alloc, name),
        _ => value_answer(alloc, words),
    }
}

fn value_answer(alloc: Global, words: &[&str]) -> Result<String, AllocError> {
    match words {
        ["read_value", kind, text] => value_row(alloc, kind, text),
        ["compare_values", t, a, u, b] => order_row(alloc, (t, a), (u, b)),
        ["admits", facets @ .., "of", kind, text] => admits_row(alloc, facets, kind, text),
        ["admits_list", facets @ .., "of", kind, text] => {
            admits_list_row(alloc, facets, kind, text)
        }
        _ => operation_answer(alloc, words),
    }
}

fn operation_answer(alloc: Global, words: &[&str]) -> Result<String, AllocError> {
    match words {
        ["cast", kind, text, to] => cast_row(alloc, kind, text, to),
        ["fits", kind, text, to] => fits_row(alloc, kind, text, to),
        ["effective", kind, text] => effective_row(alloc, kind, text),
        ["single", op, t, a, u, b] => single_row(alloc, op, (t, a), (u, b)),
        ["any", op, lists @ ..] => any_row(alloc, op, lists),
        _ => sorting_answer(alloc, words),
    }
}

fn sorting_answer(alloc: Global, words: &[&str]) -> Result<String, AllocError> {
    match words {
        ["sort", words @ ..] => sort_row(alloc, words),
        ["compare_keys", words @ ..] => keys_row(alloc, words),
        ["call", name, words @ ..] => call_row(alloc, name, words),
        [call, a] => one_number(alloc, call, a),
        [call, a, b] => two_numbers(alloc, call, number(a), number(b)),
        _ => not_a_row(alloc),
    }
}
