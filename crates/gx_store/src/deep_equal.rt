// Whether nodes are deep-equal (Functions and Operators, section 15.3.1).

ghost use Rattle.std.specs.Prelude.{◌≡◌, ◌<◌, IfSome};
ghost use Rattle.std.specs.List.{list_all, list_any};
ghost use Rattle.gx_model.specs.DeepEqual.{are_equal_nodes, are_equal_trees};
ghost use Rattle.gx_model.specs.Forest.{Forest as PlainForest};
ghost use Rattle.gx_model.specs.Growth.{Extends};
ghost use Rattle.gx_nodes.specs.Entries.{count_in, entry_in, place_of_number};
ghost use Rattle.gx_store.specs.Agreeing.{nodes_agree, numbers_agree, are_attributes_alike, are_called_alike, attribute_trees, IsAttributeAt};
ghost use Rattle.gx_store.specs.Stored.{FitsForm, label_in};

use crate::number::NodeId;
use crate::row::Form;
use crate::store::Store;

impl Store {
    /// Whether two nodes are equal in names, attributes and texts; false where the store has not one of them. Takes no memory.
    pub fn are_deep_equal(&self, a: NodeId, b: NodeId) -> bool
        ensures { (later : PlainForest) → Extends self.now later → result ≡ are_equal_nodes self.now (place_of_number later a.number) (place_of_number later b.number) }
    {
        self.has(a) && self.has(b) && self.have_equal_trees(a.number, b.number)
    }

    // The same of nodes that the store has: one pair of rows after another, the attributes together with their element.
    fn have_equal_trees(&self, a: usize, b: usize) -> bool
        requires a { a < count_in self.now }
        requires b { b < count_in self.now }
        ensures { result ≡ are_equal_trees (entry_in self.now a).tree (entry_in self.now b).tree }
    {
        let end = self.after(a);
        let mut one = a;
        let mut other = b;
        while one < end {
            if !self.rows_agree(one, other) {
                return false;
            }
            one = self.after_attributes(one);
            other = self.after_attributes(other);
        }
        true
    }

    // Whether two nodes agree apart from their children, with as many nodes below them.
    fn rows_agree(&self, one: usize, other: usize) -> bool
        ensures { result ≡ numbers_agree self.now one other }
    {
        let Some(row) = self.row(one) else {
            return false;
        };
        let Some(beside) = self.row(other) else {
            return false;
        };
        row.below == beside.below && self.forms_agree(one, other, &row.form, &beside.form)
    }

    // Whether two nodes agree apart from their children.
    fn forms_agree(&self, one: usize, other: usize, form: &Form, beside: &Form) -> bool
        requires one { one < count_in self.now }
        requires other { other < count_in self.now }
        requires form { FitsForm form.now (entry_in self.now one).tree }
        requires beside { FitsForm beside.now (entry_in self.now other).tree }
        ensures { result ≡ nodes_agree (entry_in self.now one).tree (entry_in self.now other).tree }
    {
        match (form, beside) {
            (Form::Document, Form::Document) => true,
            (
                Form::Element {
                    label: _,
                    attributes: own,
                },
                Form::Element {
                    label: _,
                    attributes: others,
                },
            ) => {
                self.are_called_alike(one, other)
                    && own == others
                    && self.all_have_equals(one, other)
            }
            (
                Form::Attribute {
                    label: _,
                    value: own,
                },
                Form::Attribute {
                    label: _,
                    value: others,
                },
            ) => self.are_called_alike(one, other) && own == others,
            (Form::Text(own), Form::Text(others)) => own == others,
            _ => false,
        }
    }

    // Whether two nodes have names, and equal ones.
    fn are_called_alike(&self, one: usize, other: usize) -> bool
        ensures { result ≡ are_called_alike (label_in self.now one) (label_in self.now other) }
    {
        match (
            self.label(NodeId { number: one }),
            self.label(NodeId { number: other }),
        ) {
            (Some(own), Some(others)) => own.name == others.name,
            _ => false,
        }
    }

    // Whether each attribute of a node has an equal one among those of another node, where it is sought first at the same position.
    fn all_have_equals(&self, one: usize, other: usize) -> bool
        requires one { one < count_in self.now }
        requires other { other < count_in self.now }
        ensures { result ≡ list_all (λ t. list_any (are_attributes_alike t) (attribute_trees self.now other)) (attribute_trees self.now one) }
    {
        let mut others = self.attributes_of(other);
        for own in self.attributes_of(one) {
            let beside = others.next();
            if !self.has_equal(own.number, beside, other) {
                return false;
            }
        }
        true
    }

    // Whether an attribute has an equal one among those of a node, of which one is tried first.
    fn has_equal(&self, own: usize, first: Option<NodeId>, other: usize) -> bool
        requires there { other < count_in self.now }
        requires first { IfSome first (IsAttributeAt self.now other) }
        ensures { result ≡ list_any (are_attributes_alike (entry_in self.now own).tree) (attribute_trees self.now other) }
    {
        if let Some(first) = first
            && self.are_attributes_alike(own, first.number)
        {
            return true;
        }
        for attribute in self.attributes_of(other) {
            if self.are_attributes_alike(own, attribute.number) {
                return true;
            }
        }
        false
    }

    // Whether two nodes are attributes, and equal in name and value.
    fn are_attributes_alike(&self, one: usize, other: usize) -> bool
        ensures { result ≡ are_attributes_alike (entry_in self.now one).tree (entry_in self.now other).tree }
    {
        let Some(row) = self.row(one) else {
            return false;
        };
        let Some(beside) = self.row(other) else {
            return false;
        };
        match (&row.form, &beside.form) {
            (
                Form::Attribute {
                    label: _,
                    value: own,
                },
                Form::Attribute {
                    label: _,
                    value: others,
                },
            ) => self.are_called_alike(one, other) && own == others,
            _ => false,
        }
    }
}
