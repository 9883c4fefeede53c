//! Worked values of steps, of their types and of the store of numbered nodes: each line of standard input is a call with its
//! arguments, and is written again with its answer.
#![tactic(auto)]

mod arguments;
mod made;
mod nodes;
mod orders;
mod parts;
mod shown;
mod stored;
mod types;

use arguments::{axis_of, node_of, nodes_of, shown_nodes, test_of};
use gx_model::axis::axis;
use gx_model::forest::Forest;
use gx_model::node::Node;
use gx_model::order::{before, in_document_order};
use gx_types::schemas::Schemas;
use gx_types::step::{Axis, Test};
use parts::Parts;
use rows_words::not_a_row;
use rows_words::words::words;
use std::alloc::{AllocError, Global};
use std::io;
use stored::store_row;
use types::{data_row, type_row};

fn main(rt: HostRuntime) -> io::Result<()> {
    for line in rt.lines(rt.alloc()) {
        let line = line?;
        match row_answer(rt.alloc(), line.as_str()) {
            Ok(answer) => println!(rt; "{line} = {answer}")?,
            Err(_) => println!(rt; "{line} = no memory")?,
        }
    }
    Ok(())
}

fn row_answer(alloc: Global, row: &str) -> Result<String, AllocError> {
    let words = words(alloc, row)?;
    let mut borrowed = Vec::new(alloc);
    for word in &words {
        borrowed.push(word.as_str())?;
    }
    match borrowed.as_slice() {
        ["store", words @ ..] => store_row(alloc, words),
        ["before", a, b] => before_row(alloc, a, b),
        ["step", axis, test, node, words @ ..] => step_row(alloc, axis, test, node, words),
        ["order", nodes, words @ ..] => order_row(alloc, nodes, words),
        ["type", axis, test, context] => type_row(alloc, axis, test, context),
        ["data", t] => data_row(alloc, t),
        _ => not_a_row(alloc),
    }
}

fn before_row(alloc: Global, a: &str, b: &str) -> Result<String, AllocError> {
    let a = node_of(alloc, a)?;
    let b = node_of(alloc, b)?;
    format!(in alloc; "{} {}", before(&a, &b), before(&b, &a))
}

// Nodes in document order, in the trees that the words make.
fn order_row(alloc: Global, nodes: &str, words: &[&str]) -> Result<String, AllocError> {
    let nodes = nodes_of(alloc, nodes)?;
    let mut parts = Parts::new(alloc);
    parts.take_words(alloc, words)?;
    let trees = parts.into_trees();
    let ordered = in_document_order(&Forest { trees }, nodes);
    shown_nodes(alloc, ordered.as_slice())
}

// The nodes on an axis in the trees that the words make.
fn step_row(
    alloc: Global,
    along: &str,
    test: &str,
    node: &str,
    words: &[&str],
) -> Result<String, AllocError> {
    let test = test_of(alloc, test)?;
    let node = node_of(alloc, node)?;
    step_in_words(alloc, along, &test, &node, words)
}

fn step_in_words(
    alloc: Global,
    along: &str,
    test: &Test,
    node: &Node,
    words: &[&str],
) -> Result<String, AllocError> {
    let mut parts = Parts::new(alloc);
    parts.take_words(alloc, words)?;
    let trees = parts.into_trees();
    step_in_forest(alloc, along, test, node, &Forest { trees })
}

fn step_in_forest(
    alloc: Global,
    along: &str,
    test: &Test,
    node: &Node,
    forest: &Forest,
) -> Result<String, AllocError> {
    let schemas = Schemas::empty(alloc)?;
    match axis_of(along) {
        Some(along) => step(alloc, &schemas, forest, node, along, test),
        None => not_a_row(alloc),
    }
}

fn step(
    alloc: Global,
    schemas: &Schemas,
    forest: &Forest,
    node: &Node,
    along: Axis,
    test: &Test,
) -> Result<String, AllocError> {
    let found = axis(alloc, schemas, forest, node, along, test)?;
    shown_nodes(alloc, found.as_slice())
}
