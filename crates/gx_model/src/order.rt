// Document order.

ghost use Rattle.std.specs.Prelude.{◌≡◌, is_some, Some};
ghost use Rattle.std.specs.List.{list_any};
ghost use Rattle.gx_model.specs.Forest.{PlainNode, attribute_at, node_in};
ghost use Rattle.gx_model.specs.Location.{located, location_of};
ghost use Rattle.gx_model.specs.DocumentOrder.{comes_before, path_comes_first, attribute_comes_first, in_document_order as put_in_order, same_node, ascends as nodes_ascend};
ghost use Rattle.gx_model.specs.OrderLaws.{Ascends};

use crate::axis::tree_of;
use crate::forest::Forest;
use crate::lookup::{attributes, tree_below};
use crate::node::Node;
use gx_tree::tree::Tree;

/// Whether a node comes before another one in document order: trees come by their numbers, a node before its attributes,
/// these before its children, and children in order with all that they hold (XQuery 1.0 and XPath 2.0 Data Model, section
/// 2.4).
pub fn before(a: &Node, b: &Node) -> bool
    ensures { result ≡ comes_before a.now b.now }
{
    if a.tree != b.tree {
        return a.tree < b.tree;
    }
    comes_first(
        a.path.as_slice(),
        a.attribute,
        b.path.as_slice(),
        b.attribute,
    )
}

// Whether one node of a tree comes before another.
fn comes_first(p: &[usize], a: Option<usize>, q: &[usize], b: Option<usize>) -> bool
    ensures { result ≡ path_comes_first p.now a q.now b }
{
    let mut p = p;
    let mut q = q;
    while let (Some((m, p_rest)), Some((n, q_rest))) = (p.split_first(), q.split_first()) {
        if m != n {
            return m < n;
        }
        p = p_rest;
        q = q_rest;
    }
    match (p.is_empty(), q.is_empty()) {
        (true, true) => attribute_first(a, b),
        (ended, _) => ended,
    }
}

// Whether one of a node and its attributes comes before another.
fn attribute_first(a: Option<usize>, b: Option<usize>) -> bool
    ensures { result ≡ attribute_comes_first a b }
{
    match (a, b) {
        (None, Some(_)) => true,
        (Some(m), Some(n)) => m < n,
        _ => false,
    }
}

/// Nodes in document order, each once, without those that the forest has not (XQuery 1.0, section 3.2). Nodes that come in order
/// already are not sorted.
pub fn in_document_order(forest: &Forest, nodes: Vec<Node>) -> Vec<Node>
    ensures { result.items ≡ put_in_order forest.now nodes.items }
{
    let mut ordered = sorted(nodes);
    ordered.retain(|node| has_node(forest, node));
    ordered
}

// The nodes in document order, each once.
fn sorted(nodes: Vec<Node>) -> Vec<Node>
    ensures ascending { Ascends comes_before result.items }
    ensures same { (n : PlainNode) → list_any (same_node n) result.items ≡ list_any (same_node n) nodes.items }
{
    if ascends(nodes.as_slice()) {
        return nodes;
    }
    let mut nodes = nodes;
    nodes.sort_unstable();
    nodes.dedup();
    nodes
}

// Whether each node comes before the next.
fn ascends(nodes: &[Node]) -> bool
    ensures { result ≡ nodes_ascend nodes.now }
{
    let mut rest = nodes;
    while let Some((first, others)) = rest.split_first() {
        if let Some((second, _)) = others.split_first() {
            if !before(first, second) {
                return false;
            }
        }
        rest = others;
    }
    true
}

// Whether the forest has a node.
fn has_node(forest: &Forest, node: &Node) -> bool
    ensures { result ≡ is_some (node_in forest.now node.now) }
{
    match tree_of(forest, node.tree) {
        Some(root) => has_node_in(root, node),
        None => false,
    }
}

fn has_node_in(root: &Tree, node: &Node) -> bool
    ensures { result ≡ is_some (located root.now (location_of node.now)) }
{
    match (tree_below(root, node.path.as_slice()), node.attribute) {
        (Some(_), None) => true,
        (Some(tree), Some(position)) => has_attribute(tree, position),
        (None, _) => false,
    }
}

fn has_attribute(tree: &Tree, position: usize) -> bool
    ensures { result ≡ is_some (attribute_at (Some position) tree.now) }
{
    position < attributes(tree).len()
}
