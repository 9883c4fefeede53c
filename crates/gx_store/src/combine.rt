// Combinations of sequences of nodes.

ghost use Rattle.std.specs.Prelude.{◌≡◌, Bool, not, [], ◌∷◌, ◌++◌, IfOk, OnOk, map, filter, if◌then◌else◌};
ghost use Rattle.std.specs.List.{list_any, prefix_len};
ghost use Rattle.gx_model.specs.Forest.{Forest as PlainForest};
ghost use Rattle.gx_model.specs.Growth.{Extends};
ghost use Rattle.gx_model.specs.DocumentOrder.{in_document_order};
ghost use Rattle.gx_model.specs.OrderLaws.{Ascends};
ghost use Rattle.gx_nodes.specs.Entries.{place_of_number};
ghost use Rattle.gx_store.specs.declared.number.NodeId.{NodeId as PlainNodeId};
ghost use Rattle.gx_store.specs.Combined.{union_of_nodes, intersection_of_nodes, difference_of_nodes};
ghost use Rattle.gx_store.specs.NumberOrder.{number_lt, wants, selects, begins_with as list_begins_with, without_first};

use crate::number::NodeId;
use crate::order::sorted;
use crate::store::Store;
use std::alloc::{AllocError, Global};

impl Store {
    /// The nodes that occur in either of two sequences, in document order and each once, without those that the store has not (XQuery 1.0,
    /// section 3.3.3).
    pub fn union(&self, first: Vec<NodeId>, second: Vec<NodeId>) -> Result<Vec<NodeId>, AllocError>
        ensures { (later : PlainForest) → Extends self.now later → IfOk result (λ found. map (λ m. place_of_number later m.number) found.items ≡ union_of_nodes self.now (map (λ m. place_of_number later m.number) first.items) (map (λ m. place_of_number later m.number) second.items)) }
    {
        let left = sorted(first);
        let right = sorted(second);
        let mut found = merged(self.allocator(), left.as_slice(), right.as_slice())?;
        self.keep_own(&mut found);
        Ok(found)
    }

    /// The nodes that occur in both of two sequences, in document order and each once, without those that the store has not (XQuery 1.0,
    /// section 3.3.3).
    pub fn intersect(
        &self,
        first: Vec<NodeId>,
        second: Vec<NodeId>,
    ) -> Result<Vec<NodeId>, AllocError>
        ensures { (later : PlainForest) → Extends self.now later → IfOk result (λ found. map (λ m. place_of_number later m.number) found.items ≡ intersection_of_nodes self.now (map (λ m. place_of_number later m.number) first.items) (map (λ m. place_of_number later m.number) second.items)) }
    {
        self.compared(first, second, true)
    }

    /// The nodes that occur in the first of two sequences and not in the second, in document order and each once, without those that the
    /// store has not (XQuery 1.0, section 3.3.3).
    pub fn except(&self, first: Vec<NodeId>, second: Vec<NodeId>) -> Result<Vec<NodeId>, AllocError>
        ensures { (later : PlainForest) → Extends self.now later → IfOk result (λ found. map (λ m. place_of_number later m.number) found.items ≡ difference_of_nodes self.now (map (λ m. place_of_number later m.number) first.items) (map (λ m. place_of_number later m.number) second.items)) }
    {
        self.compared(first, second, false)
    }

    // The nodes of a sequence that occur in another one, if these are wanted, or else the others.
    fn compared(
        &self,
        first: Vec<NodeId>,
        second: Vec<NodeId>,
        wanted: bool,
    ) -> Result<Vec<NodeId>, AllocError>
        ensures { (later : PlainForest) → Extends self.now later → IfOk result (λ found. map (λ m. place_of_number later m.number) found.items ≡ in_document_order self.now (map (λ m. place_of_number later m.number) (filter (selects wanted second.items) first.items))) }
    {
        let left = sorted(first);
        let right = sorted(second);
        let mut found = selected(self.allocator(), left.as_slice(), right.as_slice(), wanted)?;
        self.keep_own(&mut found);
        Ok(found)
    }
}

// All nodes of two lists that ascend, in order and each once.
fn merged(alloc: Global, nodes: &[NodeId], others: &[NodeId]) -> Result<Vec<NodeId>, AllocError>
    requires nodes_ascend { Ascends number_lt nodes.now }
    requires others_ascend { Ascends number_lt others.now }
    ensures ascending { IfOk result (λ found. Ascends number_lt found.items) }
    ensures same { IfOk result (λ found. (test : PlainNodeId → Bool) → list_any test found.items ≡ list_any test (nodes.now ++ others.now)) }
{
    let mut found = Vec::new(alloc);
    let mut rest = others;
    for node in nodes {
        let (before, behind) = split(rest, *node);
        found.extend_from_slice(before)?;
        found.push(*node)?;
        rest = without(behind, *node);
    }
    found.extend_from_slice(rest)?;
    Ok(found)
}

// The nodes of a list that stand in another one, if these are wanted, or else the others. Both lists ascend.
fn selected(
    alloc: Global,
    nodes: &[NodeId],
    others: &[NodeId],
    wanted: bool,
) -> Result<Vec<NodeId>, AllocError>
    requires nodes_ascend { Ascends number_lt nodes.now }
    requires others_ascend { Ascends number_lt others.now }
    ensures { IfOk result (λ found. found.items ≡ filter (selects wanted others.now) nodes.now) }
{
    let mut found = Vec::new(alloc);
    let mut rest = others;
    for node in nodes {
        let (_, behind) = split(rest, *node);
        keep(&mut found, *node, begins_with(behind, *node), wanted)?;
        rest = behind;
    }
    Ok(found)
}

// Puts a node behind others where it stands in a list and this is wanted, or neither.
fn keep(
    found: &mut Vec<NodeId>,
    node: NodeId,
    is_there: bool,
    wanted: bool,
) -> Result<(), AllocError>
    ensures { OnOk result (found.new.items ≡ found.old.items ++ (if wants wanted is_there then node ∷ [] else [])) }
{
    if is_there == wanted {
        found.push(node)?;
    }
    Ok(())
}

// The nodes of a list that ascends before another node, and the others.
fn split<'a>(nodes: &'a [NodeId], node: NodeId) -> (&'a [NodeId], &'a [NodeId])
    requires { Ascends number_lt nodes.now }
    ensures before { result.0.now ≡ filter (λ m. number_lt m node) nodes.now }
    ensures behind { result.1.now ≡ filter (λ m. not (number_lt m node)) nodes.now }
{
    nodes.split_at(count_before(nodes, node))
}

// How many nodes at the front of a list come before another one.
fn count_before(nodes: &[NodeId], node: NodeId) -> usize
    ensures { result ≡ prefix_len (λ m. number_lt m node) nodes.now }
{
    nodes
        .iter()
        .take_while(|other| other.number < node.number)
        .count()
}

fn begins_with(nodes: &[NodeId], node: NodeId) -> bool
    ensures { result ≡ list_begins_with nodes.now node }
{
    match nodes.split_first() {
        Some((first, _)) => node == *first,
        None => false,
    }
}

// The nodes of a list behind one that it begins with.
fn without<'a>(nodes: &'a [NodeId], node: NodeId) -> &'a [NodeId]
    ensures { result.now ≡ without_first node nodes.now }
{
    match nodes.split_first() {
        Some((first, others)) if node == *first => others,
        _ => nodes,
    }
}
