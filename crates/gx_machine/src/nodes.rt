// Operators over nodes: steps, comparisons, document order, and typed values.

ghost use Rattle.std.specs.Prelude.{◌≡◌, ◌++◌, OnOk, IfOk, IfErr, map, Some};
ghost use Rattle.std.specs.Option.{option_map};
ghost use Rattle.gx_model.specs.Atomization.{atomized, values_of_item};
ghost use Rattle.gx_model.specs.Forest.{Forest as PlainForest};
ghost use Rattle.gx_model.specs.Growth.{Extends};
ghost use Rattle.gx_model.specs.Item.{node, atoms};
ghost use Rattle.gx_core.specs.Outcome.{gives, given};
ghost use Rattle.gx_core.specs.ComparingNodes.{node_comparison};
ghost use Rattle.gx_core.specs.Paths.{places_of, put_in_order, stepped};
ghost use Rattle.gx_nodes.specs.Entries.{place_of_number};
ghost use Rattle.gx_store.specs.Items.{item_in, items_in};
ghost use Rattle.gx_store.specs.Places.{node_places};
ghost use Rattle.gx_machine.specs.Failing.{FailsSo};
ghost use Rattle.gx_machine.specs.OrderedItems.{ordered_items};

use crate::failure::Failure;
use crate::operand::{all_nodes, any_node, only_node, push_atom};
use gx_core::expression::NodeComparison;
use gx_facets::Atomic;
use gx_store::item::Item;
use gx_store::number::NodeId;
use gx_store::store::Store;
use gx_types::schemas::Schemas;
use gx_types::step::{Axis, Test};
use std::alloc::{AllocError, Global};

// The nodes on an axis from the node that an operand is.
pub(crate) fn stepped(
    schemas: &Schemas,
    store: &Store,
    axis: Axis,
    test: &Test,
    operand: &[Item],
) -> Result<Vec<NodeId>, Failure>
    ensures value { (later : PlainForest) → Extends store.now later → IfOk result (λ found.
        stepped schemas.now axis test.now (items_in later operand.now) store.now ≡ gives (map node (node_places later found.items)) store.now) }
    ensures failed { (later : PlainForest) → Extends store.now later → IfErr result (λ e. FailsSo e (stepped schemas.now axis test.now (items_in later operand.now) store.now)) }
{
    match only_node(operand) {
        Some(from) => Ok(store.on_axis(schemas, from, axis, test)?),
        None => Err(Failure::Wrong),
    }
}

// Whether two nodes compare so: a node is one number, and document order is that of numbers.
#[tactic(auto, using(crate::proofs::NodeOperators::same_is, crate::proofs::NodeOperators::before_is))]
pub(crate) fn nodes_compare(op: NodeComparison, left: NodeId, right: NodeId) -> bool
    ensures { (later : PlainForest) → result ≡ node_comparison op (place_of_number later left.number) (place_of_number later right.number) }
{
    match op {
        NodeComparison::Is => left.number == right.number,
        NodeComparison::Before => left.number < right.number,
        NodeComparison::After => right.number < left.number,
    }
}

// The nodes among items.
pub(crate) fn nodes_among(alloc: Global, items: &[Item]) -> Result<Vec<NodeId>, AllocError>
    ensures { (later : PlainForest) → IfOk result (λ nodes. node_places later nodes.items ≡ places_of (items_in later items.now)) }
{
    let mut nodes = Vec::with_capacity(alloc, items.len())?;
    for item in items {
        if let Item::Node(node) = item {
            nodes.push(*node)?;
        }
    }
    Ok(nodes)
}

// Nodes in document order, each once; atomic values stay as they are, which is None.
pub(crate) fn put_in_order(
    alloc: Global,
    store: &Store,
    operand: &[Item],
) -> Result<Option<Vec<NodeId>>, Failure>
    ensures value { (later : PlainForest) → Extends store.now later → IfOk result (λ nodes.
        put_in_order (items_in later operand.now) store.now ≡ gives (ordered_items later (items_in later operand.now) nodes) store.now) }
    ensures failed { (later : PlainForest) → Extends store.now later → IfErr result (λ e. FailsSo e (put_in_order (items_in later operand.now) store.now)) }
{
    if all_nodes(operand) {
        let nodes = nodes_among(alloc, operand)?;
        return Ok(Some(store.distinct_order(nodes)));
    }
    if any_node(operand) {
        return Err(Failure::Wrong);
    }
    Ok(None)
}

// The typed values of items one behind another.
pub(crate) fn atomized(
    alloc: Global,
    schemas: &Schemas,
    store: &Store,
    items: &[Item],
) -> Result<Vec<Item>, Failure>
    ensures value { (later : PlainForest) → Extends store.now later → IfOk result (λ typed. atomized schemas.now store.now (items_in later items.now) ≡ Some (items_in later typed.items)) }
    ensures failed { (later : PlainForest) → Extends store.now later → IfErr result (λ e.
        FailsSo e (given (atomized schemas.now store.now (items_in later items.now)) (λ typed. gives typed store.now))) }
{
    let mut typed = Vec::with_capacity(alloc, items.len())?;
    for item in items {
        push_typed(schemas, store, item, &mut typed)?;
    }
    Ok(typed)
}

// Adds the typed values of an item.
fn push_typed(
    schemas: &Schemas,
    store: &Store,
    item: &Item,
    typed: &mut Vec<Item>,
) -> Result<(), Failure>
    ensures value { (later : PlainForest) → Extends store.now later → OnOk result (
        option_map (λ values. items_in later typed.old.items ++ values) (values_of_item schemas.now store.now (item_in later item.now)) ≡ Some (items_in later typed.new.items)) }
    ensures failed { (later : PlainForest) → Extends store.now later → IfErr result (λ e.
        FailsSo e (given (values_of_item schemas.now store.now (item_in later item.now)) (λ values. gives values store.now))) }
{
    match item {
        Item::Atom(value) => Ok(push_atom(value.clone()?, typed)?),
        Item::Node(node) => match store.typed_value(schemas, *node)? {
            Some(values) => Ok(append_atoms(values.as_slice(), typed)?),
            None => Err(Failure::Wrong),
        },
    }
}

// Adds atomic values behind the items.
fn append_atoms(values: &[Atomic], items: &mut Vec<Item>) -> Result<(), AllocError>
    ensures { (later : PlainForest) → OnOk result (items_in later items.new.items ≡ items_in later items.old.items ++ atoms values.now) }
{
    for value in values {
        push_atom(value.clone()?, items)?;
    }
    Ok(())
}

// Adds nodes behind the items.
pub(crate) fn append_nodes(nodes: &[NodeId], items: &mut Vec<Item>) -> Result<(), AllocError>
    ensures { (later : PlainForest) → OnOk result (items_in later items.new.items ≡ items_in later items.old.items ++ map node (node_places later nodes.now)) }
{
    items.reserve(nodes.len())?;
    for node in nodes {
        items.push(Item::Node(*node))?;
    }
    Ok(())
}
