// Items.

ghost use Rattle.std.specs.Prelude.{◌≡◌};
ghost use Rattle.gx_model.specs.Item.{atom, node};

use crate::node::Node;
use gx_facets::Atomic;
use std::alloc::AllocError;
use std::marker::Model;

/// An item (XQuery 1.0 and XPath 2.0 Data Model, section 2). Copying it takes no memory.
#[derive(Drop)]
pub struct ModelItem {
    pub form: ItemForm,
}

/// What an item is: an atomic value or a node.
#[derive(Drop)]
pub enum ItemForm {
    Atom(Atomic),
    Node(Node),
}

impl Model for ModelItem {
    ghost use Rattle.gx_model.specs.Item.{Item};

    ghost Value = { Item };

    ghost use Rattle.gx_model.specs.ItemView.{item_of};

    ghost view = { λ item. item_of item.form };
}

impl ModelItem {
    /// An atomic value.
    pub fn atom(value: Atomic) -> ModelItem
        ensures { result ≡ atom value }
    {
        ModelItem {
            form: ItemForm::Atom(value),
        }
    }

    /// A node.
    pub fn node(place: Node) -> ModelItem
        ensures { result ≡ node place }
    {
        ModelItem {
            form: ItemForm::Node(place),
        }
    }
}

impl Clone for ModelItem {
    ghost is_clone = { λ item copy. copy ≡ item };

    fn clone(&self) -> Result<ModelItem, AllocError> {
        match &self.form {
            ItemForm::Atom(value) => Ok(ModelItem::atom(value.clone()?)),
            ItemForm::Node(place) => Ok(ModelItem::node(place.clone()?)),
        }
    }
}
