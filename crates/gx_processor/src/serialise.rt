// The writing of values.

ghost use Rattle.std.specs.Prelude.{◌≡◌, IfOk, string_bytes};
ghost use Rattle.gx_processor.specs.Serialisation.{serialised, serial_item, node_item};
ghost use Rattle.gx_model.specs.Forest.{node_in};
ghost use Rattle.gx_nodes.specs.Entries.{place_of_number};
ghost use Rattle.gx_store.specs.Items.{item_in, items_in};

use gx_base::text::Text;
use gx_facets::print_value;
use gx_serial::item::{AnswerText, SerialItem};
use gx_store::item::Item;
use gx_store::number::NodeId;
use gx_store::store::Store;
use std::alloc::{AllocError, Global};

/// The text of a value, as the serialiser writes an answer (Serialization, section 2).
pub fn serialise(alloc: Global, store: &Store, value: &[Item]) -> Result<String, AllocError>
    ensures { IfOk result (λ text. string_bytes text ≡ serialised store.now (items_in store.now value.now)) }
{
    let mut answer = AnswerText::new(alloc);
    for item in value {
        let item = serial_item(alloc, store, item)?;
        answer.add(alloc, &item)?;
    }
    Ok(answer.into_text().into_string())
}

fn serial_item(alloc: Global, store: &Store, item: &Item) -> Result<SerialItem, AllocError>
    ensures { IfOk result (λ made. made ≡ serial_item store.now (item_in store.now item.now)) }
{
    match item {
        Item::Atom(atomic) => Ok(SerialItem::Text(print_value(alloc, &atomic.value)?)),
        Item::Node(node) => node_item(alloc, store, *node),
    }
}

fn node_item(alloc: Global, store: &Store, node: NodeId) -> Result<SerialItem, AllocError>
    ensures { IfOk result (λ made. made ≡ node_item (node_in store.now (place_of_number store.now node.number))) }
{
    match store.to_tree(node)? {
        Some(tree) => Ok(SerialItem::Tree(tree)),
        None => Ok(SerialItem::Text(Text::empty(alloc)?)),
    }
}
