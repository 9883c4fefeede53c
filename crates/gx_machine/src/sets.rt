// Combinations of sequences of nodes.

ghost use Rattle.std.specs.Prelude.{◌≡◌, ◌&&◌, IfOk, IfErr};
ghost use Rattle.std.specs.List.{list_all};
ghost use Rattle.gx_model.specs.DocumentOrder.{in_document_order};
ghost use Rattle.gx_model.specs.Forest.{Forest as PlainForest};
ghost use Rattle.gx_model.specs.Growth.{Extends};
ghost use Rattle.gx_core.specs.CombiningNodes.{combined as combined_places, nodes_combined};
ghost use Rattle.gx_core.specs.Outcome.{gives};
ghost use Rattle.gx_core.specs.Paths.{is_node};
ghost use Rattle.gx_store.specs.Items.{items_in};
ghost use Rattle.gx_store.specs.Places.{node_places};
ghost use Rattle.gx_machine.specs.Answering.{answer_items, AnswerFits};
ghost use Rattle.gx_machine.specs.Failing.{FailsSo};

use crate::answer::Answer;
use crate::failure::Failure;
use crate::nodes::nodes_among;
use crate::operand::all_nodes;
use gx_core::expression::NodeCombination;
use gx_store::item::Item;
use gx_store::number::NodeId;
use gx_store::store::Store;
use std::alloc::{AllocError, Global};

// The nodes of two operands that an operator selects, in document order and each once.
pub(crate) fn combined(
    alloc: Global,
    store: &Store,
    operator: NodeCombination,
    left: &[Item],
    right: &[Item],
) -> Result<Answer, Failure>
    ensures value { (later : PlainForest) → Extends store.now later → IfOk result (λ r.
        nodes_combined operator (items_in later left.now) (items_in later right.now) store.now ≡ gives (answer_items later r) store.now) }
    ensures fits { IfOk result (λ r. AnswerFits r) }
    ensures failed { (later : PlainForest) → Extends store.now later → IfErr result (λ e. FailsSo e (nodes_combined operator (items_in later left.now) (items_in later right.now) store.now)) }
{
    if !are_nodes(left, right) {
        return Err(Failure::Wrong);
    }
    let first = nodes_among(alloc, left)?;
    let second = nodes_among(alloc, right)?;
    let nodes = combined_nodes(store, operator, first, second)?;
    Ok(Answer::NodeSequence(nodes))
}

// Whether all items of two operands are nodes.
fn are_nodes(left: &[Item], right: &[Item]) -> bool
    ensures { (later : PlainForest) → result ≡ (list_all is_node (items_in later left.now) && list_all is_node (items_in later right.now)) }
{
    all_nodes(left) && all_nodes(right)
}

fn combined_nodes(
    store: &Store,
    operator: NodeCombination,
    left: Vec<NodeId>,
    right: Vec<NodeId>,
) -> Result<Vec<NodeId>, AllocError>
    ensures { (later : PlainForest) → Extends store.now later → IfOk result (λ nodes.
        node_places later nodes.items ≡ in_document_order store.now (combined_places operator (node_places later left.items) (node_places later right.items))) }
{
    match operator {
        NodeCombination::Union => store.union(left, right),
        NodeCombination::Intersect => store.intersect(left, right),
        NodeCombination::Except => store.except(left, right),
    }
}
