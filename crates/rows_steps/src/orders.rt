// Rows of two nodes and of sequences of nodes.

use crate::made::Made;
use crate::shown::{node_of, nodes_of, shown_numbers};
use rows_words::not_a_row;
use std::alloc::{AllocError, Global};

/// Whether one of two nodes comes before the other.
pub fn before_row(alloc: Global, a: &str, b: &str, made: &Made) -> Result<String, AllocError> {
    let (a, b) = (node_of(a), node_of(b));
    format!(in alloc; "{} {}", made.store.before(a, b), made.store.before(b, a))
}

/// Whether two nodes are deep-equal, one with the other and the other way round.
pub fn equal_row(alloc: Global, a: &str, b: &str, made: &Made) -> Result<String, AllocError> {
    let (a, b) = (node_of(a), node_of(b));
    let (equal, turned) = (
        made.store.are_deep_equal(a, b),
        made.store.are_deep_equal(b, a),
    );
    format!(in alloc; "{equal} {turned}")
}

/// Nodes in document order.
pub fn order_row(alloc: Global, nodes: &str, made: &Made) -> Result<String, AllocError> {
    let ordered = made.store.distinct_order(nodes_of(alloc, nodes)?);
    shown_numbers(alloc, ordered.as_slice())
}

/// The union, the intersection or the difference of two sequences of nodes.
pub fn combined_row(
    alloc: Global,
    operator: &str,
    first: &str,
    second: &str,
    made: &Made,
) -> Result<String, AllocError> {
    let first = nodes_of(alloc, first)?;
    let second = nodes_of(alloc, second)?;
    let found = match operator {
        "union" => made.store.union(first, second)?,
        "intersect" => made.store.intersect(first, second)?,
        "except" => made.store.except(first, second)?,
        _ => return not_a_row(alloc),
    };
    shown_numbers(alloc, found.as_slice())
}
