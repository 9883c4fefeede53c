// Syntax trees taken apart by a loop, so that dropping long chains takes no stack in proportion to their length.

use crate::expression::{Expr, ExprNode};
use std::alloc::Global;

/// Drops a tree part by part: chains and what stands in parentheses. Other nodes stand inside one another at most as often as
/// expressions may; they, and what finds no memory, are dropped as they are.
pub fn dismantle(alloc: Global, tree: Expr) {
    let mut parts = Vec::new(alloc);
    set_aside(tree, &mut parts);
    for _ in 0..u64::MAX {
        match parts.pop() {
            Some(part) => set_aside(Box::into_inner(part), &mut parts),
            None => return,
        }
    }
}

// The parts of what nests to the left, and of what stands in parentheses.
fn set_aside(tree: Expr, parts: &mut Vec<Box<Expr>>) {
    let (_place, node) = tree.into_parts();
    match node {
        ExprNode::Parenthesised(inner) => keep(inner, parts),
        ExprNode::Signed(_minus, inner) => keep(inner, parts),
        ExprNode::Sequence(first, second) => keep_both(first, second, parts),
        ExprNode::Binary(_operator, first, second) => keep_both(first, second, parts),
        ExprNode::Path(_descendants, first, second) => keep_both(first, second, parts),
        _ => {}
    }
}

fn keep(part: Box<Expr>, parts: &mut Vec<Box<Expr>>) {
    let _kept = parts.push(part);
}

fn keep_both(first: Box<Expr>, second: Box<Expr>, parts: &mut Vec<Box<Expr>>) {
    keep(first, parts);
    keep(second, parts);
}
