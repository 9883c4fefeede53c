// Trees as a forest and as a store, with the node of each number.

use crate::parts::Parts;
use gx_model::axis::axis;
use gx_model::forest::Forest;
use gx_model::node::Node;
use gx_store::number::NodeId;
use gx_store::store::Store;
use gx_tree::tree::Tree;
use gx_types::schemas::Schemas;
use gx_types::step::{Axis, Test};
use std::alloc::{AllocError, Global};

#[derive(Drop)]
pub struct Made {
    pub schemas: Schemas,
    pub forest: Forest,
    pub store: Store,
    pub places: Vec<Node>,
}

impl Made {
    /// What the words make.
    pub fn new(alloc: Global, words: &[&str]) -> Result<Made, AllocError> {
        let mut parts = Parts::new(alloc);
        parts.take_words(alloc, words)?;
        let schemas = Schemas::empty(alloc)?;
        let store = store_of(alloc, parts.trees())?;
        let forest = Forest {
            trees: parts.into_trees(),
        };
        let places = places_of(alloc, &schemas, &forest)?;
        Ok(Made {
            schemas,
            forest,
            store,
            places,
        })
    }

    /// The nodes that a step in the forest finds; none past all nodes.
    pub fn model_step(
        &self,
        alloc: Global,
        number: usize,
        along: Axis,
        test: &Test,
    ) -> Result<Vec<Node>, AllocError> {
        match self.places.get(number) {
            Some(node) => axis(alloc, &self.schemas, &self.forest, node, along, test),
            None => Ok(Vec::new(alloc)),
        }
    }

    /// Whether numbers stand for these nodes.
    pub fn stand_for(&self, numbers: &[NodeId], nodes: &[Node]) -> bool {
        if numbers.len() != nodes.len() {
            return false;
        }
        for (id, node) in numbers.iter().zip(nodes) {
            if !self.stands_for(*id, node) {
                return false;
            }
        }
        true
    }

    /// Whether a number stands for this node.
    pub fn stands_for(&self, id: NodeId, node: &Node) -> bool {
        match self.places.get(id.number) {
            Some(place) => place == node,
            None => false,
        }
    }
}

fn store_of(alloc: Global, trees: &[Tree]) -> Result<Store, AllocError> {
    let mut store = Store::new(alloc);
    for tree in trees {
        store.load(tree)?;
    }
    Ok(store)
}

// All nodes in document order: each node with its attributes behind it.
fn places_of(alloc: Global, schemas: &Schemas, forest: &Forest) -> Result<Vec<Node>, AllocError> {
    let mut places = Vec::new(alloc);
    for number in 0..forest.trees.len() {
        let root = Node::root(alloc, number)?;
        let along = Axis::DescendantOrSelf;
        for node in axis(alloc, schemas, forest, &root, along, &Test::Node)? {
            push_with_attributes(alloc, schemas, forest, node, &mut places)?;
        }
    }
    Ok(places)
}

fn push_with_attributes(
    alloc: Global,
    schemas: &Schemas,
    forest: &Forest,
    node: Node,
    places: &mut Vec<Node>,
) -> Result<(), AllocError> {
    let attributes = axis(alloc, schemas, forest, &node, Axis::Attribute, &Test::Node)?;
    places.push(node)?;
    for attribute in attributes {
        places.push(attribute)?;
    }
    Ok(())
}
