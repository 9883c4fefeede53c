// Steps along an axis.

ghost use Rattle.std.specs.Prelude.{◌≡◌, ◌<◌, ◌++◌, [], ◌∷◌, filter, IfOk, OnOk, option_map, option_to_list};
ghost use Rattle.gx_model.specs.Axes.{on_axis as nodes_on_axis};
ghost use Rattle.gx_model.specs.Belongs.{shape_of, only_element};
ghost use Rattle.gx_model.specs.Forest.{Forest as PlainForest};
ghost use Rattle.gx_model.specs.Growth.{Extends};
ghost use Rattle.gx_model.specs.NodeTest.{asked, meets as shape_meets};
ghost use Rattle.gx_nodes.specs.Entries.{count_in, entry_in, place_of_number};
ghost use Rattle.gx_nodes.specs.Near.{ancestors_in, descendants_in, inner_trees};
ghost use Rattle.gx_store.specs.Places.{node_places, passes_on};
ghost use Rattle.gx_store.specs.Stored.{FitsForm};

use crate::children::NodesBelow;
use crate::number::NodeId;
use crate::row::Form;
use crate::store::Store;
use gx_base::name::Name;
use gx_base::type_name::TypeName;
use gx_model::node_test::{
    is_attribute_axis, passes_attribute, passes_document, passes_element, passes_text,
};
use gx_types::schemas::Schemas;
use gx_types::step::{Axis, Test};
use std::alloc::AllocError;

impl Store {
    /// The nodes on an axis from a node that pass a test, in document order; none where the store has not the node. A name is that of
    /// an attribute on the attribute axis, and else of an element (XQuery 1.0, section 3.2.1).
    pub fn on_axis(
        &self,
        schemas: &Schemas,
        node: NodeId,
        axis: Axis,
        test: &Test,
    ) -> Result<Vec<NodeId>, AllocError>
        ensures { (later : PlainForest) → Extends self.now later → IfOk result (λ found. node_places later found.items ≡ nodes_on_axis schemas.now self.now (place_of_number later node.number) axis test.now) }
    {
        match axis {
            Axis::Child => self.among(schemas, axis, test, self.children(node)),
            Axis::Attribute => self.among(schemas, axis, test, self.attributes(node)),
            Axis::Descendant => self.among(schemas, axis, test, self.descendants(node)),
            Axis::DescendantOrSelf => self.with_descendants(schemas, axis, test, node),
            Axis::SelfAxis => self.if_passing(schemas, axis, test, Some(node)),
            Axis::Parent => self.if_passing(schemas, axis, test, self.parent(node)),
            Axis::Ancestor => self.passing_ancestors(schemas, axis, test, node),
            Axis::AncestorOrSelf => self.with_ancestors(schemas, axis, test, node),
        }
    }

    // Those of a group of nodes that pass.
    fn among(
        &self,
        schemas: &Schemas,
        axis: Axis,
        test: &Test,
        nodes: NodesBelow<'_>,
    ) -> Result<Vec<NodeId>, AllocError>
        ensures { (later : PlainForest) → Extends self.now later → IfOk result (λ found. node_places later found.items ≡ filter (passes_on schemas.now self.now axis test.now) (node_places later nodes.entry)) }
    {
        let mut found = Vec::new(self.allocator());
        self.push_passing(schemas, axis, test, nodes, &mut found)?;
        Ok(found)
    }

    // Those of a node and its descendants that pass.
    fn with_descendants(
        &self,
        schemas: &Schemas,
        axis: Axis,
        test: &Test,
        node: NodeId,
    ) -> Result<Vec<NodeId>, AllocError>
        ensures { (later : PlainForest) → Extends self.now later → IfOk result (λ found. node_places later found.items ≡ filter (passes_on schemas.now self.now axis test.now) (place_of_number later node.number ∷ descendants_in self.now (place_of_number later node.number))) }
    {
        let mut found = self.if_passing(schemas, axis, test, Some(node))?;
        self.push_passing(schemas, axis, test, self.descendants(node), &mut found)?;
        Ok(found)
    }

    // Puts those of a group of nodes that pass behind others.
    fn push_passing(
        &self,
        schemas: &Schemas,
        axis: Axis,
        test: &Test,
        nodes: NodesBelow<'_>,
        found: &mut Vec<NodeId>,
    ) -> Result<(), AllocError>
        ensures { (later : PlainForest) → Extends self.now later → OnOk result (node_places later found.new.items ≡ node_places later found.old.items ++ filter (passes_on schemas.now self.now axis test.now) (node_places later nodes.entry)) }
    {
        for node in nodes {
            self.push_if_passing(schemas, axis, test, node, found)?;
        }
        Ok(())
    }

    fn push_if_passing(
        &self,
        schemas: &Schemas,
        axis: Axis,
        test: &Test,
        node: NodeId,
        found: &mut Vec<NodeId>,
    ) -> Result<(), AllocError>
        ensures { (later : PlainForest) → Extends self.now later → OnOk result (node_places later found.new.items ≡ node_places later found.old.items ++ filter (passes_on schemas.now self.now axis test.now) (place_of_number later node.number ∷ [])) }
    {
        if self.passes(schemas, axis, test, node) {
            found.push(node)?;
        }
        Ok(())
    }

    // The node, if there is one and it passes.
    fn if_passing(
        &self,
        schemas: &Schemas,
        axis: Axis,
        test: &Test,
        node: Option<NodeId>,
    ) -> Result<Vec<NodeId>, AllocError>
        ensures { (later : PlainForest) → Extends self.now later → IfOk result (λ found. node_places later found.items ≡ filter (passes_on schemas.now self.now axis test.now) (node_places later (option_to_list node))) }
    {
        let mut found = Vec::new(self.allocator());
        if let Some(node) = node {
            self.push_if_passing(schemas, axis, test, node, &mut found)?;
        }
        Ok(found)
    }

    // Those of the ancestors of a node that pass.
    fn passing_ancestors(
        &self,
        schemas: &Schemas,
        axis: Axis,
        test: &Test,
        node: NodeId,
    ) -> Result<Vec<NodeId>, AllocError>
        ensures { (later : PlainForest) → Extends self.now later → IfOk result (λ found. node_places later found.items ≡ filter (passes_on schemas.now self.now axis test.now) (ancestors_in self.now (place_of_number later node.number))) }
    {
        let mut found = self.ancestors(node)?;
        self.keep_passing(schemas, axis, test, &mut found);
        Ok(found)
    }

    // Those of the ancestors of a node and of itself that pass.
    fn with_ancestors(
        &self,
        schemas: &Schemas,
        axis: Axis,
        test: &Test,
        node: NodeId,
    ) -> Result<Vec<NodeId>, AllocError>
        ensures { (later : PlainForest) → Extends self.now later → IfOk result (λ found. node_places later found.items ≡ filter (passes_on schemas.now self.now axis test.now) (ancestors_in self.now (place_of_number later node.number) ++ place_of_number later node.number ∷ [])) }
    {
        let mut found = self.ancestors(node)?;
        found.push(node)?;
        self.keep_passing(schemas, axis, test, &mut found);
        Ok(found)
    }

    // The ancestors of a node, the root first; none where the store has not the node.
    fn ancestors(&self, node: NodeId) -> Result<Vec<NodeId>, AllocError>
        ensures { (later : PlainForest) → Extends self.now later → IfOk result (λ found. node_places later found.items ≡ ancestors_in self.now (place_of_number later node.number)) }
    {
        let mut found = Vec::new(self.allocator());
        let mut here = node;
        while let Some(parent) = self.parent(here) {
            found.push(parent)?;
            here = parent;
        }
        found.reverse();
        Ok(found)
    }

    // Leaves out the nodes that do not pass.
    fn keep_passing(&self, schemas: &Schemas, axis: Axis, test: &Test, nodes: &mut Vec<NodeId>)
        ensures { (later : PlainForest) → Extends self.now later → node_places later nodes.new.items ≡ filter (passes_on schemas.now self.now axis test.now) (node_places later nodes.old.items) }
    {
        nodes.retain(|node| self.passes(schemas, axis, test, *node));
    }

    // Whether the store has a node and it passes a test.
    fn passes(&self, schemas: &Schemas, axis: Axis, test: &Test, node: NodeId) -> bool
        ensures here { result ≡ passes_on schemas.now self.now axis test.now (place_of_number self.now node.number) }
        ensures later { (later : PlainForest) → Extends self.now later → result ≡ passes_on schemas.now self.now axis test.now (place_of_number later node.number) }
    {
        match self.row(node.number) {
            Some(row) => self.form_passes(schemas, is_attribute_axis(axis), test, node, &row.form),
            None => false,
        }
    }

    // Whether a node that the store has passes a test, where a name is an attribute's on the attribute axis alone.
    fn form_passes(
        &self,
        schemas: &Schemas,
        attributes: bool,
        test: &Test,
        node: NodeId,
        form: &Form,
    ) -> bool
        requires there { node.number < count_in self.now }
        requires form { FitsForm form.now (entry_in self.now node.number).tree }
        ensures { result ≡ shape_meets schemas.now (asked schemas.now attributes test.now) (shape_of (entry_in self.now node.number).tree) }
    {
        match form {
            Form::Document => {
                passes_document(schemas, attributes, test, self.only_element(node.number))
            }
            Form::Element {
                label: _,
                attributes: _,
            } => {
                let label = self.label_of(node);
                passes_element(schemas, attributes, test, &label.name, &label.kind)
            }
            Form::Attribute { label: _, value: _ } => {
                let label = self.label_of(node);
                passes_attribute(schemas, attributes, test, &label.name, &label.kind)
            }
            Form::Text(_) => passes_text(schemas, attributes, test),
        }
    }

    // The name and the type of the one child of a node, where that is an element.
    fn only_element(&self, number: usize) -> Option<(&Name, &TypeName)>
        requires { number < count_in self.now }
        ensures { option_map (λ e. (e.0.now, e.1.now)) result ≡ only_element (inner_trees (entry_in self.now number).tree) }
    {
        match self.only_label(number) {
            Some(label) => Some((&label.name, &label.kind)),
            None => None,
        }
    }
}
