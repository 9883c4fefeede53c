//! Worked values of types, of their texts and of inclusion: each line of standard input is a call with its arguments, and is written again
//! with its answer.
#![tactic(auto)]

mod inclusions;
mod operators;
mod rows;
mod texts;
mod types;

use inclusions::{included_row, takes_row};
use rows::{derives_row, item_takes_row, type_row};
use rows_words::not_a_row;
use rows_words::words::words;
use std::alloc::{AllocError, Global};
use std::io;
use texts::{read_row, texts_row};

fn main(rt: HostRuntime) -> io::Result<()> {
    for line in rt.lines(rt.alloc()) {
        let line = line?;
        match row_answer(rt.alloc(), line.as_str()) {
            Ok(answer) => println!(rt; "{line} = {answer}")?,
            Err(_) => println!(rt; "{line} = no memory")?,
        }
    }
    Ok(())
}

fn row_answer(alloc: Global, row: &str) -> Result<String, AllocError> {
    let words = words(alloc, row)?;
    let mut borrowed = Vec::new(alloc);
    for word in &words {
        borrowed.push(word.as_str())?;
    }
    answer(alloc, borrowed.as_slice())
}

fn answer(alloc: Global, words: &[&str]) -> Result<String, AllocError> {
    match words {
        ["derives", t, u] => derives_row(alloc, t, u),
        ["takes", item, shape] => item_takes_row(alloc, item, shape),
        ["included", limit, types @ ..] => included_row(alloc, limit, types),
        ["takes_list", types @ ..] => takes_row(alloc, types),
        ["read", text] => read_row(alloc, text),
        ["texts", left, right] => texts_row(alloc, left, right),
        [call, words @ ..] => type_row(alloc, call, words),
        [] => not_a_row(alloc),
    }
}
