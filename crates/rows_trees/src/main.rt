//! Worked values of trees, of documents and of the serialiser: each line of standard input is a call with the parts of its trees, and is
//! written again with its answer.
#![tactic(auto)]

mod documents;
mod parts;

use documents::{bytes_of, fronts_row, joined, read_row, source_row};
use gx_io::MemorySink;
use gx_serial::item::serialise;
use gx_tree::erase::erase;
use gx_tree::same::same;
use gx_tree::string_value::string_value;
use gx_tree::tree::Tree;
use parts::Parts;
use rows_words::not_a_row;
use rows_words::words::words;
use std::alloc::{AllocError, Global};
use std::fmt::Debug;
use std::{io, str};

fn main(rt: HostRuntime) -> io::Result<()> {
    for line in rt.lines(rt.alloc()) {
        let line = line?;
        match row_answer(rt.alloc(), line.as_str()) {
            Ok(answer) => println!(rt; "{line} = {answer}")?,
            Err(_) => println!(rt; "{line} = no memory")?,
        }
    }
    Ok(())
}

fn row_answer(alloc: Global, row: &str) -> Result<String, AllocError> {
    let words = words(alloc, row)?;
    let mut borrowed = Vec::new(alloc);
    for word in &words {
        borrowed.push(word.as_str())?;
    }
    match borrowed.as_slice() {
        ["serialise", "failing", put, words @ ..] => {
            serialise_row(alloc, put.parse::<u64>().unwrap_or(0), words)
        }
        ["serialise", words @ ..] => serialise_row(alloc, 0, words),
        ["read", "bytes", words @ ..] => read_row(alloc, &bytes_of(alloc, words)?),
        ["read", words @ ..] => read_row(alloc, joined(alloc, words)?.as_bytes()),
        ["source", words @ ..] => source_row(alloc, joined(alloc, words)?.as_bytes()),
        ["fronts", text] => fronts_row(alloc, text),
        [call, words @ ..] => tree_row(alloc, call, words),
        [] => not_a_row(alloc),
    }
}

// The bytes of an answer, where the put of that number fails.
fn serialise_row(alloc: Global, failing: u64, words: &[&str]) -> Result<String, AllocError> {
    let mut parts = Parts::new(alloc);
    parts.take_words(alloc, words)?;
    let items = parts.into_items(alloc)?;
    let mut sink = MemorySink::new(alloc);
    sink.fail_at(failing)?;
    let result = serialise(alloc, items.as_slice(), &mut sink);
    shown(alloc, result.err(), &sink)
}

fn shown<E: Debug + Drop>(
    alloc: Global,
    fault: Option<E>,
    sink: &MemorySink,
) -> Result<String, AllocError> {
    let bytes = sink.bytes();
    match (fault, str::from_utf8(bytes)) {
        (None, Ok(text)) => format!(in alloc; "{text:?}"),
        (None, Err(_)) => format!(in alloc; "{bytes:?}"),
        (Some(fault), _) => format!(in alloc; "{fault:?} behind {} bytes", bytes.len()),
    }
}

fn tree_row(alloc: Global, call: &str, words: &[&str]) -> Result<String, AllocError> {
    let mut parts = Parts::new(alloc);
    parts.take_words(alloc, words)?;
    match (call, parts.trees()) {
        ("string_value", [tree]) => format!(in alloc; "{:?}", string_value(alloc, tree)?),
        ("same", [a, b]) => format!(in alloc; "{}", same(a, b)),
        ("erases", [a, b]) => erases_row(alloc, a, b),
        _ => not_a_row(alloc),
    }
}

// Whether a copy of a tree, erased, is another tree.
fn erases_row(alloc: Global, tree: &Tree, other: &Tree) -> Result<String, AllocError> {
    let copy = tree.clone()?;
    format!(in alloc; "{}", same(&erase(alloc, &copy)?, other))
}
