// Items.

ghost use Rattle.std.specs.Prelude.{◌≡◌};

use crate::number::NodeId;
use gx_facets::Atomic;
use std::alloc::AllocError;

/// An item: an atomic value, or a node of a store by its number (XQuery 1.0 and XPath 2.0 Data Model, section 2).
#[derive(Drop)]
pub enum Item {
    Atom(Atomic),
    Node(NodeId),
}

impl Clone for Item {
    ghost is_clone = { λ item copy. copy ≡ item };

    fn clone(&self) -> Result<Item, AllocError> {
        match self {
            Item::Atom(value) => Ok(Item::Atom(value.clone()?)),
            Item::Node(node) => Ok(Item::Node(*node)),
        }
    }
}
