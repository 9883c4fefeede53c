// Rows of the store of numbered nodes, beside the forest of the same trees.

use crate::arguments::{axis_of, shown_nodes, test_of};
use crate::made::Made;
use crate::nodes::{near_row, string_row, tree_row, typed_row};
use crate::orders::{before_row, combined_row, equal_row, order_row};
use crate::shown::{node_of, push_numbers};
use gx_model::node::Node;
use gx_store::number::NodeId;
use gx_types::step::{Axis, Test};
use rows_words::not_a_row;
use std::alloc::{AllocError, Global};

/// What a call answers of a store of the trees that the words behind its arguments make.
pub fn store_row(alloc: Global, words: &[&str]) -> Result<String, AllocError> {
    match words {
        [call, rest @ ..] => {
            let (arguments, trees) = rest.split_at(argument_count(call).min(rest.len()));
            call_answer(alloc, call, arguments, trees)
        }
        [] => not_a_row(alloc),
    }
}

// How many words stand between a call and the trees.
fn argument_count(call: &str) -> usize {
    match call {
        "places" => 0,
        "near" | "string" | "typed" | "tree" | "order" | "root" => 1,
        _ => 2,
    }
}

fn call_answer(
    alloc: Global,
    call: &str,
    arguments: &[&str],
    trees: &[&str],
) -> Result<String, AllocError> {
    let made = Made::new(alloc, trees)?;
    let answer = answer_in(alloc, call, arguments, &made);
    drop(made);
    answer
}

fn answer_in(
    alloc: Global,
    call: &str,
    arguments: &[&str],
    made: &Made,
) -> Result<String, AllocError> {
    match (call, arguments) {
        ("places", _) => places_row(alloc, made),
        ("step", [along, test]) => step_row(alloc, along, test, made),
        ("near", [node]) => near_row(alloc, node, made),
        ("string", [node]) => string_row(alloc, node, made),
        ("typed", [node]) => typed_row(alloc, node, made),
        ("tree", [node]) => tree_row(alloc, node, made),
        ("before", [a, b]) => before_row(alloc, a, b, made),
        ("root", [node]) => root_row(alloc, node, made),
        ("equal", [a, b]) => equal_row(alloc, a, b, made),
        ("order", [nodes]) => order_row(alloc, nodes, made),
        (operator, [first, second]) => combined_row(alloc, operator, first, second, made),
        _ => not_a_row(alloc),
    }
}

// The nodes of all numbers, in order.
fn places_row(alloc: Global, made: &Made) -> Result<String, AllocError> {
    let shown = shown_nodes(alloc, made.places.as_slice())?;
    format!(in alloc; "{}: {shown}", made.store.count())
}

// The root of the tree that a node is in, beside that of its place in the forest.
fn root_row(alloc: Global, node: &str, made: &Made) -> Result<String, AllocError> {
    let node = node_of(node);
    match (made.store.root(node), made.places.get(node.number)) {
        (Some(root), Some(place)) => {
            let own = Node::root(alloc, place.tree)?;
            let agree = made.stands_for(root, &own);
            format!(in alloc; "{} {}", root.number, agreement(agree))
        }
        (None, None) => String::from_str(alloc, "nothing"),
        _ => String::from_str(alloc, agreement(false)),
    }
}

// What a step finds from each node, and from a number past them, as the numbers of nodes.
fn step_row(alloc: Global, along: &str, test: &str, made: &Made) -> Result<String, AllocError> {
    match axis_of(along) {
        Some(along) => steps(alloc, made, along, &test_of(alloc, test)?),
        None => not_a_row(alloc),
    }
}

fn steps(alloc: Global, made: &Made, along: Axis, test: &Test) -> Result<String, AllocError> {
    let mut shown = String::new(alloc);
    let mut agree = true;
    for number in 0..made.places.len().saturating_add(1) {
        let node = NodeId { number };
        let found = made.store.on_axis(&made.schemas, node, along, test)?;
        let own = made.model_step(alloc, number, along, test)?;
        agree = agree && made.stand_for(found.as_slice(), own.as_slice());
        push_step(alloc, number, found.as_slice(), &mut shown)?;
    }
    format!(in alloc; "{shown}{}", agreement(agree))
}

fn agreement(agree: bool) -> &'static str {
    if agree {
        "as the forest"
    } else {
        "unlike the forest"
    }
}

// Puts down what is found from a node, if anything is.
fn push_step(
    alloc: Global,
    number: usize,
    found: &[NodeId],
    shown: &mut String,
) -> Result<(), AllocError> {
    if found.is_empty() {
        return Ok(());
    }
    let from = format!(in alloc; "{number}:")?;
    shown.push_str(from.as_str())?;
    push_numbers(alloc, found, shown)?;
    shown.push_str("; ")?;
    Ok(())
}
