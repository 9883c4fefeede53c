// Rows of single nodes.

use crate::made::Made;
use crate::shown::{node_of, shown_numbers};
use gx_base::name::Name;
use gx_facets::{Atomic, print_value};
use gx_model::copied::copied_tree;
use gx_store::children::NodesBelow;
use gx_store::number::NodeId;
use gx_tree::same::same;
use gx_tree::tree::Tree;
use std::alloc::{AllocError, Global};

/// The name of a node, its parent, its attributes, its children and its descendants.
pub fn near_row(alloc: Global, node: &str, made: &Made) -> Result<String, AllocError> {
    let node = node_of(node);
    let name = shown_name(alloc, made.store.name(node))?;
    let parent = shown_parent(alloc, made.store.parent(node))?;
    let attributes = shown_group(alloc, made.store.attributes(node))?;
    let children = shown_group(alloc, made.store.children(node))?;
    let descendants = shown_group(alloc, made.store.descendants(node))?;
    format!(in alloc; "{name} in {parent}: {attributes} / {children} / {descendants}")
}

fn shown_name(alloc: Global, name: Option<&Name>) -> Result<String, AllocError> {
    match name {
        Some(name) => String::from_str(alloc, name.local.as_str()),
        None => String::from_str(alloc, "-"),
    }
}

fn shown_parent(alloc: Global, parent: Option<NodeId>) -> Result<String, AllocError> {
    match parent {
        Some(parent) => format!(in alloc; "{}", parent.number),
        None => String::from_str(alloc, "nothing"),
    }
}

fn shown_group(alloc: Global, nodes: NodesBelow<'_>) -> Result<String, AllocError> {
    let mut found = Vec::new(alloc);
    for node in nodes {
        found.push(node)?;
    }
    shown_numbers(alloc, found.as_slice())
}

/// The string value of a node.
pub fn string_row(alloc: Global, node: &str, made: &Made) -> Result<String, AllocError> {
    let text = made.store.string_value(node_of(node))?;
    format!(in alloc; "{:?}", text.as_str())
}

/// The typed value of a node.
pub fn typed_row(alloc: Global, node: &str, made: &Made) -> Result<String, AllocError> {
    match made.store.typed_value(&made.schemas, node_of(node))? {
        Some(values) => shown_values(alloc, values.as_slice()),
        None => String::from_str(alloc, "none"),
    }
}

fn shown_values(alloc: Global, values: &[Atomic]) -> Result<String, AllocError> {
    let mut shown = String::new(alloc);
    for (index, atomic) in values.iter().enumerate() {
        if index > 0 {
            shown.push('|')?;
        }
        shown.push_str(print_value(alloc, &atomic.value)?.as_str())?;
    }
    Ok(shown)
}

/// Whether the tree of a node is that of its place in the forest.
pub fn tree_row(alloc: Global, node: &str, made: &Made) -> Result<String, AllocError> {
    let node = node_of(node);
    let copy = made.store.to_tree(node)?;
    let own = match made.places.get(node.number) {
        Some(place) => copied_tree(&made.forest, place)?,
        None => None,
    };
    String::from_str(alloc, compared(&copy, &own))
}

fn compared(copy: &Option<Tree>, own: &Option<Tree>) -> &'static str {
    match (copy, own) {
        (Some(copy), Some(own)) if same(copy, own) => "same",
        (None, None) => "none",
        _ => "different",
    }
}
