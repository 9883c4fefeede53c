// Nodes in document order.

ghost use Rattle.std.specs.Prelude.{◌≡◌, Bool, map, filter, nat_lt};
ghost use Rattle.std.specs.List.{list_any};
ghost use Rattle.gx_model.specs.Forest.{Forest as PlainForest};
ghost use Rattle.gx_model.specs.Growth.{Extends};
ghost use Rattle.gx_model.specs.DocumentOrder.{in_document_order};
ghost use Rattle.gx_model.specs.OrderLaws.{Ascends};
ghost use Rattle.gx_nodes.specs.Entries.{count_in, place_of_number};
ghost use Rattle.gx_store.specs.declared.number.NodeId.{NodeId as PlainNodeId};
ghost use Rattle.gx_store.specs.NumberOrder.{number_lt, numbers_ascend};

use crate::number::NodeId;
use crate::store::Store;

impl Store {
    /// Nodes in document order, each once, without those that the store has not (XQuery 1.0, section 3.2). Nodes that come in order
    /// already are not sorted.
    pub fn distinct_order(&self, nodes: Vec<NodeId>) -> Vec<NodeId>
        ensures { (later : PlainForest) → Extends self.now later → map (λ m. place_of_number later m.number) result.items ≡ in_document_order self.now (map (λ m. place_of_number later m.number) nodes.items) }
    {
        let mut ordered = sorted(nodes);
        self.keep_own(&mut ordered);
        ordered
    }

    // Leaves out the nodes that the store has not.
    pub(crate) fn keep_own(&self, nodes: &mut Vec<NodeId>)
        ensures { nodes.new.items ≡ filter (λ m. nat_lt m.number (count_in self.now)) nodes.old.items }
    {
        let count = self.count();
        nodes.retain(|node| node.number < count);
    }
}

// The nodes in document order, each once.
pub(crate) fn sorted(nodes: Vec<NodeId>) -> Vec<NodeId>
    ensures ascending { Ascends number_lt result.items }
    ensures same { (test : PlainNodeId → Bool) → list_any test result.items ≡ list_any test nodes.items }
{
    if ascends(nodes.as_slice()) {
        return nodes;
    }
    let mut nodes = nodes;
    nodes.sort_unstable();
    nodes.dedup();
    nodes
}

// Whether each number is below the next.
fn ascends(nodes: &[NodeId]) -> bool
    ensures { result ≡ numbers_ascend nodes.now }
{
    let mut rest = nodes;
    while let Some((first, others)) = rest.split_first() {
        if let Some((second, _)) = others.split_first() {
            if first.number >= second.number {
                return false;
            }
        }
        rest = others;
    }
    true
}
