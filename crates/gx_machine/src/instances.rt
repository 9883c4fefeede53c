// Instances of types (XQuery 1.0, section 2.5.4).

ghost use Rattle.std.specs.Prelude.{◌≡◌};
ghost use Rattle.std.specs.List.{list_all};
ghost use Rattle.gx_types.specs.declared.shape.Shape.TheVariants as shapes;
ghost use Rattle.gx_model.specs.Belongs.{item_shape};
ghost use Rattle.gx_model.specs.Forest.{Forest as PlainForest};
ghost use Rattle.gx_model.specs.Growth.{Extends};
ghost use Rattle.gx_model.specs.Item.{node as a_node};
ghost use Rattle.gx_core.specs.Instances.{is_instance, item_matches, found_matches, shape_matches};
ghost use Rattle.gx_nodes.specs.Entries.{place_of_number};
ghost use Rattle.gx_store.specs.Items.{item_in, items_in};

use gx_facets::Atomic;
use gx_store::item::Item;
use gx_store::number::NodeId;
use gx_store::store::Store;
use gx_types::derivation::derives;
use gx_types::item_type::ItemType;
use gx_types::schemas::Schemas;
use gx_types::sequence_type::{Ty, TyNode};

// Whether a value is an instance of a type: it has as many items as the indicator allows, and each matches.
pub(crate) fn is_instance(schemas: &Schemas, store: &Store, kind: &Ty, values: &[Item]) -> bool
    ensures { (later : PlainForest) → Extends store.now later → result ≡ is_instance schemas.now store.now kind.now (items_in later values.now) }
{
    match &kind.node {
        TyNode::Empty => values.len() == 0,
        TyNode::Optional(part) => values.len() <= 1 && all_match(schemas, store, part, values),
        TyNode::Star(part) => all_match(schemas, store, part, values),
        TyNode::Plus(part) => 1 <= values.len() && all_match(schemas, store, part, values),
        _ => values.len() == 1 && all_match(schemas, store, kind, values),
    }
}

// Whether all items match a type of one item.
fn all_match(schemas: &Schemas, store: &Store, kind: &Ty, values: &[Item]) -> bool
    ensures { (later : PlainForest) → Extends store.now later → result ≡ list_all (item_matches schemas.now store.now kind.now) (items_in later values.now) }
{
    let mut rest = values;
    while let Some((value, others)) = rest.split_first() {
        if !matches_type(schemas, store, kind, value) {
            return false;
        }
        rest = others;
    }
    true
}

// Whether an item matches an item type, or one of those in a choice.
fn matches_type(schemas: &Schemas, store: &Store, kind: &Ty, value: &Item) -> bool
    ensures { (later : PlainForest) → Extends store.now later → result ≡ item_matches schemas.now store.now kind.now (item_in later value.now) }
{
    match &kind.node {
        TyNode::Item(kind) => matches_item_type(schemas, store, kind, value),
        TyNode::Alt(first, second) => {
            matches_type(schemas, store, first, value)
                || matches_type(schemas, store, second, value)
        }
        _ => false,
    }
}

fn matches_item_type(schemas: &Schemas, store: &Store, kind: &ItemType, value: &Item) -> bool
    ensures { (later : PlainForest) → Extends store.now later → result ≡ found_matches schemas.now kind.now (item_shape store.now (item_in later value.now)) }
{
    match value {
        Item::Atom(value) => atom_matches(schemas, kind, value),
        Item::Node(node) => node_matches(schemas, store, kind, *node),
    }
}

fn atom_matches(schemas: &Schemas, kind: &ItemType, value: &Atomic) -> bool
    ensures { result ≡ shape_matches schemas.now kind.now (shapes.Atom value.now.kind) }
{
    match kind {
        ItemType::Atom(kind) => derives(schemas, &value.kind, kind),
        _ => false,
    }
}

// The test of derivation is exact under the declared types.
fn node_matches(schemas: &Schemas, store: &Store, kind: &ItemType, node: NodeId) -> bool
    ensures { (later : PlainForest) → Extends store.now later → result ≡ found_matches schemas.now kind.now (item_shape store.now (a_node (place_of_number later node.number))) }
{
    let _declared = schemas.types();
    store.meets(schemas, node, kind)
}
