// What item types take of nodes.

ghost use Rattle.std.specs.Prelude.{◌≡◌, ◌<◌, IsTrue, ◌↔◌, Option, option_copied};
ghost use Rattle.std.specs.Option.{option_map, IsSomeAnd};
ghost use Rattle.gx_types.specs.declared.shape.Shape.TheVariants as shapes;
ghost use Rattle.gx_types.specs.Derivation.{DerivesFrom};
ghost use Rattle.gx_types.specs.SchemaSet.{SchemaSet};
ghost use Rattle.gx_types.specs.ItemTakes.{ItemTakes, name_fits};
ghost use Rattle.gx_model.specs.Belongs.{shape_of};
ghost use Rattle.gx_model.specs.Forest.{Forest as PlainForest, node_in};
ghost use Rattle.gx_model.specs.Growth.{Extends};
ghost use Rattle.gx_nodes.specs.Entries.{count_in, entry_in, place_of_number};
ghost use Rattle.gx_nodes.specs.Near.{inner_trees};
ghost use Rattle.gx_store.specs.Shaped.{element_label_of, only_label as label_of_only, document_shape};
ghost use Rattle.gx_store.specs.Stored.{FitsForm};

use crate::labels::Label;
use crate::number::NodeId;
use crate::row::Form;
use crate::store::Store;
use gx_base::name::Name;
use gx_base::type_name::TypeName;
use gx_types::derivation::derives;
use gx_types::item_type::ItemType;
use gx_types::schemas::Schemas;

impl Store {
    /// Whether an item type takes the shape of a node (XQuery 1.0, section 2.5.4); it takes none that the store has not.
    pub fn meets(&self, schemas: &Schemas, node: NodeId, item: &ItemType) -> bool
        ensures { (later : PlainForest) → Extends self.now later → (IsTrue result ↔ IsSomeAnd (option_map shape_of (node_in self.now (place_of_number later node.number))) (ItemTakes schemas.now item.now)) }
    {
        match self.row(node.number) {
            Some(row) => self.is_taken(schemas, node, &row.form, item),
            None => false,
        }
    }

    // The same of a node that the store has.
    fn is_taken(&self, schemas: &Schemas, node: NodeId, form: &Form, item: &ItemType) -> bool
        requires there { node.number < count_in self.now }
        requires form { FitsForm form.now (entry_in self.now node.number).tree }
        ensures { IsTrue result ↔ ItemTakes schemas.now item.now (shape_of (entry_in self.now node.number).tree) }
    {
        match form {
            Form::Document => document_is_taken(schemas, self.only_label(node.number), item),
            Form::Element {
                label: _,
                attributes: _,
            } => element_is_taken(schemas, self.label_of(node), item),
            Form::Attribute { label: _, value: _ } => {
                attribute_is_taken(schemas, self.label_of(node), item)
            }
            Form::Text(_) => text_is_taken(item),
        }
    }

    // The label of the one child of a node, where that is an element.
    pub(crate) fn only_label(&self, number: usize) -> Option<&Label>
        requires { number < count_in self.now }
        ensures { option_copied result ≡ label_of_only (inner_trees (entry_in self.now number).tree) }
    {
        let mut children = self.children_of(number);
        let Some(child) = children.next() else {
            return None;
        };
        if children.next().is_some() {
            return None;
        }
        self.element_label(child)
    }

    // The label of an element.
    fn element_label(&self, node: NodeId) -> Option<&Label>
        ensures { option_copied result ≡ element_label_of (entry_in self.now node.number).tree }
    {
        let Some(row) = self.row(node.number) else {
            return None;
        };
        match &row.form {
            Form::Element {
                label: _,
                attributes: _,
            } => self.label(node),
            _ => None,
        }
    }
}

fn document_is_taken(schemas: &Schemas, child: Option<&Label>, item: &ItemType) -> bool
    ensures { IsTrue result ↔ ItemTakes schemas.now item.now (document_shape (option_copied child.entry)) }
{
    match (item, child) {
        (ItemType::Document(None), _) => true,
        (ItemType::Document(Some((name, kind))), Some(label)) => fits(schemas, label, name, kind),
        _ => false,
    }
}

fn element_is_taken(schemas: &Schemas, label: &Label, item: &ItemType) -> bool
    ensures { IsTrue result ↔ ItemTakes schemas.now item.now (shapes.Elem label.now.name label.now.kind) }
{
    match item {
        ItemType::Element { name, kind } => fits(schemas, label, name, kind),
        _ => false,
    }
}

fn attribute_is_taken(schemas: &Schemas, label: &Label, item: &ItemType) -> bool
    ensures { IsTrue result ↔ ItemTakes schemas.now item.now (shapes.Attr label.now.name label.now.kind) }
{
    match item {
        ItemType::Attribute { name, kind } => fits(schemas, label, name, kind),
        _ => false,
    }
}

fn text_is_taken(item: &ItemType) -> bool
    ensures { (schemas : SchemaSet) → (IsTrue result ↔ ItemTakes schemas item.now shapes.Text) }
{
    matches!(item, ItemType::Text)
}

// Whether a label has the name, if one is asked for, and a type that is derived from that type.
fn fits(schemas: &Schemas, label: &Label, name: &Option<Name>, kind: &TypeName) -> bool
    ensures { IsTrue result ↔ (IsTrue (name_fits name.now label.now.name) × DerivesFrom schemas.now label.now.kind kind.now) }
{
    has_name(name, &label.name) && derives(schemas, &label.kind, kind)
}

fn has_name(wanted: &Option<Name>, name: &Name) -> bool
    ensures { result ≡ name_fits wanted.now name.now }
{
    match wanted {
        Some(wanted) => wanted == name,
        None => true,
    }
}
