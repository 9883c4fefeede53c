// Stores of numbered nodes.

ghost use Rattle.std.specs.Prelude.{◌≡◌, ℕ, suc, ◌+◌, ◌<◌, ◌≤◌, ◌↔◌, ◌++◌, ◌∷◌, [], IsTrue, IfOk, OnOk, OnErr, MatchOption, Some, None, IsSome, IfSome, option_copied};
ghost use Rattle.std.specs.Global.{Global as PlainGlobal};
ghost use Rattle.std.specs.Option.{option_map};
ghost use Rattle.gx_model.specs.Forest.{Forest as PlainForest, node_in, then_found};
ghost use Rattle.gx_model.specs.DocumentOrder.{comes_before};
ghost use Rattle.gx_model.specs.Growth.{Extends};
ghost use Rattle.gx_nodes.specs.Entries.{count_in, entry_in, place_of_number};
ghost use Rattle.gx_nodes.specs.Near.{parent_in};
ghost use Rattle.gx_store.specs.Left.{left_out};
ghost use Rattle.gx_store.specs.Stored.{IsRowOf, FitsForm, below_in, attributes_at, attributes_in_form, label_of_form, name_of_tree, kind_of, label_in};

use crate::children::Group;
use crate::labels::{Label, Labels};
use crate::load::rows_of;
use crate::number::NodeId;
use crate::row::{Form, Row};
use gx_base::name::Name;
use gx_base::type_name::TypeName;
use gx_tree::tree::Tree;
use std::alloc::{AllocError, Global};
use std::marker::Model;

/// Trees whose nodes have numbers in document order, which contracts see as a forest (XQuery 1.0 and XPath 2.0 Data Model, section
/// 2.4).
pub struct Store {
    alloc: Global,
    labels: Labels,
    rows: Vec<Row>,
}

impl Model for Store {
    ghost use Rattle.gx_model.specs.Forest.{Forest as PlainForest};
    ghost use Rattle.gx_tree.specs.contracts.tree.Tree as trees;
    ghost use Rattle.std.specs.Coded.{coded_list};

    ghost Value = { PlainForest };

    ghost coded = { coded_list trees.the_row.coded };

    ghost use Rattle.gx_store.specs.Stored.{forest_seen, IsStored};

    ghost view = { λ s. forest_seen s.labels.labels.keys s.rows.items };

    ghost invariant = { λ s. IsStored s.labels.labels.keys s.rows.items };
}

impl Drop for Store {
    fn drop(self) {
        let Store {
            alloc: _alloc,
            labels: _labels,
            rows: _rows,
        } = self;
    }
}

impl Store {
    /// A store without trees, which takes no memory.
    pub fn new(alloc: Global) -> Store
        ensures { result ≡ [] }
    {
        Store {
            alloc,
            labels: Labels::new(alloc),
            rows: Vec::new(alloc),
        }
    }

    /// Adds a tree behind the others, and gives its root; all nodes keep their numbers.
    pub fn load(&mut self, tree: &Tree) -> Result<NodeId, AllocError>
        ensures root { IfOk result (λ node. node.number ≡ count_in self.old) }
        ensures loaded { OnOk result (self.new ≡ self.old ++ tree.now ∷ []) }
        ensures kept { OnErr result (self.new ≡ self.old) }
    {
        let node = NodeId {
            number: self.rows.len(),
        };
        let fresh = rows_of(self.alloc, &mut self.labels, tree)?;
        append_rows(&mut self.rows, fresh)?;
        Ok(node)
    }

    /// The allocator that the store was made with; all allocators of this type are one.
    pub fn allocator(&self) -> Global
        ensures { (other : PlainGlobal) → result ≡ other }
    {
        self.alloc
    }

    /// How many nodes the store has.
    pub fn count(&self) -> usize
        ensures { result ≡ count_in self.now }
    {
        self.rows.len()
    }

    /// Whether the store has a node.
    pub fn has(&self, node: NodeId) -> bool
        ensures { IsTrue result ↔ (node.number < count_in self.now) }
    {
        node.number < self.count()
    }

    // The row of a number, if the store has the node.
    pub(crate) fn row(&self, number: usize) -> Option<&Row>
        ensures { MatchOption result (count_in self.now ≤ number) (λ row. IsRowOf self.now number row.now) }
    {
        if number < self.rows.len() {
            Some(&self.rows[number])
        } else {
            None
        }
    }

    // What a node is.
    pub(crate) fn form(&self, number: usize) -> &Form
        requires { number < count_in self.now }
        ensures { FitsForm result.now (entry_in self.now number).tree }
    {
        &self.rows[number].form
    }

    // The number behind a node and all below it.
    pub(crate) fn after(&self, number: usize) -> usize
        requires { number < count_in self.now }
        ensures next { result ≡ suc (number + below_in self.now number) }
        ensures within { result ≤ count_in self.now }
    {
        let below = self.rows[number].below as usize;
        number + 1 + below
    }

    // The number behind a node and its attributes.
    pub(crate) fn after_attributes(&self, number: usize) -> usize
        requires { number < count_in self.now }
        ensures next { result ≡ suc (number + attributes_at self.now number) }
        ensures within { result ≤ count_in self.now }
    {
        let attributes = attribute_count(&self.rows[number].form);
        number + 1 + attributes
    }

    // The number behind a node.
    pub(crate) fn following(&self, number: usize) -> usize
        requires { number < count_in self.now }
        ensures next { result ≡ suc number }
        ensures within { result ≤ count_in self.now }
    {
        let _rows = &self.rows;
        number + 1
    }

    // The number behind a node of a group and what is left out behind it.
    pub(crate) fn behind(&self, group: Group, number: usize) -> usize
        requires { number < count_in self.now }
        ensures { result ≡ suc (number + left_out group self.now number) }
    {
        match group {
            Group::Attributes => self.following(number),
            Group::Children => self.after(number),
            Group::Descendants => self.after_attributes(number),
        }
    }

    // The label of a node, if the store has the node and it has one.
    pub(crate) fn label(&self, node: NodeId) -> Option<&Label>
        ensures { option_copied result ≡ label_in self.now node.number }
    {
        if node.number < self.rows.len() {
            label_in_form(&self.labels, &self.rows[node.number].form)
        } else {
            None
        }
    }

    // The label of an element or an attribute.
    pub(crate) fn label_of(&self, node: NodeId) -> &Label
        requires { IsSome (label_in self.now node.number) }
        ensures { label_in self.now node.number ≡ Some result.now }
    {
        match self.label(node) {
            Some(label) => label,
            None => unreachable!(),
        }
    }

    /// The name of an element or an attribute; None at other nodes, and where the store has not the node.
    pub fn name(&self, node: NodeId) -> Option<&Name>
        ensures { (later : PlainForest) → Extends self.now later → option_copied result ≡ then_found (node_in self.now (place_of_number later node.number)) name_of_tree }
    {
        match self.label(node) {
            Some(label) => Some(&label.name),
            None => None,
        }
    }

    /// The type of an element or an attribute; None at other nodes, and where the store has not the node.
    pub fn annotation(&self, node: NodeId) -> Option<&TypeName>
        ensures { (later : PlainForest) → Extends self.now later → option_copied result ≡ then_found (node_in self.now (place_of_number later node.number)) kind_of }
    {
        match self.label(node) {
            Some(label) => Some(&label.kind),
            None => None,
        }
    }

    /// The parent of a node, if the store has the node and it has one: that of an attribute is its element.
    pub fn parent(&self, node: NodeId) -> Option<NodeId>
        ensures parent { (later : PlainForest) → Extends self.now later → option_map (λ p. place_of_number later p.number) result ≡ parent_in self.now (place_of_number later node.number) }
        ensures before { IfSome result (λ p. p.number < node.number) }
    {
        let Some(row) = self.row(node.number) else {
            return None;
        };
        let up = row.up as usize;
        if up == 0 {
            return None;
        }
        Some(NodeId {
            number: node.number - up,
        })
    }

    /// Whether a node comes before another one in document order.
    pub fn before(&self, a: NodeId, b: NodeId) -> bool
        ensures { result ≡ comes_before (place_of_number self.now a.number) (place_of_number self.now b.number) }
    {
        a.number < b.number
    }
}

// Puts fresh rows behind others; where there are no others, without a copy.
fn append_rows(rows: &mut Vec<Row>, fresh: Vec<Row>) -> Result<(), AllocError>
    ensures added { OnOk result (rows.new.items ≡ rows.old.items ++ fresh.items) }
    ensures kept { OnErr result (rows.new.items ≡ rows.old.items) }
{
    if rows.is_empty() {
        *rows = fresh;
        return Ok(());
    }
    let mut fresh = fresh;
    Ok(rows.append(&mut fresh)?)
}

fn attribute_count(form: &Form) -> usize
    ensures { result ≡ attributes_in_form form.now }
{
    match form {
        Form::Element {
            label: _,
            attributes,
        } => *attributes as usize,
        _ => 0,
    }
}

// The label of an element or an attribute.
fn label_in_form<'a>(labels: &'a Labels, form: &Form) -> Option<&'a Label>
    ensures { option_copied result ≡ label_of_form labels.now.labels.keys form.now }
{
    match form {
        Form::Element {
            label,
            attributes: _,
        } => labels.label(*label),
        Form::Attribute { label, value: _ } => labels.label(*label),
        Form::Document | Form::Text(_) => None,
    }
}
