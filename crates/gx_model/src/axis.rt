// Steps along an axis.

ghost use Rattle.std.specs.Prelude.{◌≡◌, ◌++◌, [], ◌∷◌, map, IfOk, OnOk, Option, Some, None, option_copied, slice_get};
ghost use Rattle.gx_types.specs.declared.step.Axis.TheVariants as axes;
ghost use Rattle.gx_model.specs.Forest.{attribute_at, tree_at};
ghost use Rattle.gx_model.specs.Location.{location_of, node_of_tree};
ghost use Rattle.gx_model.specs.Axes.{leads_to, locations_on, on_axis, passes, passes_there};
ghost use Rattle.gx_model.specs.Stepping.{kept_if, passing_children, children_found, passing_attributes, attributes_found, self_found, path_up, parent_path as path_of_parent, parent_found};

use crate::forest::Forest;
use crate::lookup::{attributes, children, tree_below};
use crate::node::{Node, keep, keep_sharing};
use crate::node_test::{passes_attribute, passes_test};
use crate::path::Path;
use crate::search::search;
use gx_tree::attribute::Attribute;
use gx_tree::tree::Tree;
use gx_types::schemas::Schemas;
use gx_types::step::{Axis, Test};
use std::alloc::{AllocError, Global};

/// The nodes on an axis from a node that pass a test, in document order. A name is that of an attribute on the attribute axis,
/// and else of an element (XQuery 1.0, section 3.2.1).
pub fn axis(
    alloc: Global,
    schemas: &Schemas,
    forest: &Forest,
    node: &Node,
    axis: Axis,
    test: &Test,
) -> Result<Vec<Node>, AllocError>
    ensures { IfOk result (λ found. found.items ≡ on_axis schemas.now forest.now node.now axis test.now) }
{
    match tree_of(forest, node.tree) {
        Some(root) => step(alloc, schemas, root, node, axis, test),
        None => Ok(Vec::new(alloc)),
    }
}

// The tree of a number.
pub(crate) fn tree_of(forest: &Forest, number: usize) -> Option<&Tree>
    ensures { option_copied result ≡ slice_get forest.now number }
{
    if number < forest.trees.len() {
        Some(&forest.trees[number])
    } else {
        None
    }
}

// The nodes on an axis in a tree.
fn step(
    alloc: Global,
    schemas: &Schemas,
    root: &Tree,
    node: &Node,
    axis: Axis,
    test: &Test,
) -> Result<Vec<Node>, AllocError>
    ensures { IfOk result (λ found. found.items ≡ map (node_of_tree node.now.tree) (locations_on (leads_to axis (location_of node.now)) (passes schemas.now axis test.now) root.now)) }
{
    match axis {
        Axis::Child => child_step(alloc, schemas, root, node, test),
        Axis::Attribute => attribute_step(alloc, schemas, root, node, test),
        Axis::SelfAxis => self_step(alloc, schemas, root, node, test),
        Axis::Parent => parent_step(alloc, schemas, root, node, test),
        Axis::Descendant | Axis::DescendantOrSelf | Axis::Ancestor | Axis::AncestorOrSelf => {
            search(alloc, schemas, root, node, axis, test)
        }
    }
}

// The children of a node.
fn child_step(
    alloc: Global,
    schemas: &Schemas,
    root: &Tree,
    node: &Node,
    test: &Test,
) -> Result<Vec<Node>, AllocError>
    ensures { IfOk result (λ found. found.items ≡ map (node_of_tree node.now.tree) (children_found (passes schemas.now axes.Child test.now) (location_of node.now) root.now)) }
{
    if node.attribute.is_some() {
        return Ok(Vec::new(alloc));
    }
    match tree_below(root, node.path.as_slice()) {
        Some(parent) => children_passing(alloc, schemas, node, children(parent), test),
        None => Ok(Vec::new(alloc)),
    }
}

fn children_passing(
    alloc: Global,
    schemas: &Schemas,
    parent: &Node,
    trees: &[Tree],
    test: &Test,
) -> Result<Vec<Node>, AllocError>
    ensures { IfOk result (λ found. found.items ≡ map (node_of_tree parent.now.tree) (passing_children (passes schemas.now axes.Child test.now) parent.now.path 0 trees.now)) }
{
    let mut found = Vec::new(alloc);
    for (position, tree) in trees.iter().enumerate() {
        keep_child(alloc, schemas, parent, position, tree, test, &mut found)?;
    }
    Ok(found)
}

fn keep_child(
    alloc: Global,
    schemas: &Schemas,
    parent: &Node,
    position: usize,
    tree: &Tree,
    test: &Test,
    found: &mut Vec<Node>,
) -> Result<(), AllocError>
    ensures { OnOk result (found.new.items ≡ found.old.items ++ map (node_of_tree parent.now.tree) (passing_children (passes schemas.now axes.Child test.now) parent.now.path position (tree.now ∷ []))) }
{
    if passes_test(schemas, false, test, tree) {
        found.push(child_of(alloc, parent, position)?)?;
    }
    Ok(())
}

// The node of a child's position.
fn child_of(alloc: Global, parent: &Node, position: usize) -> Result<Node, AllocError>
    ensures { IfOk result (λ node. node ≡ record { tree = parent.now.tree; path = parent.now.path ++ position ∷ []; attribute = None }) }
{
    let above = parent.path.as_slice();
    let mut positions = Vec::with_capacity(alloc, above.len().saturating_add(1))?;
    positions.extend_from_slice(above)?;
    positions.push(position)?;
    Ok(Node {
        tree: parent.tree,
        path: Path::from_vec(alloc, positions)?,
        attribute: None,
    })
}

// The attributes of a node.
fn attribute_step(
    alloc: Global,
    schemas: &Schemas,
    root: &Tree,
    node: &Node,
    test: &Test,
) -> Result<Vec<Node>, AllocError>
    ensures { IfOk result (λ found. found.items ≡ map (node_of_tree node.now.tree) (attributes_found (passes schemas.now axes.Attribute test.now) (location_of node.now) root.now)) }
{
    if node.attribute.is_some() {
        return Ok(Vec::new(alloc));
    }
    match tree_below(root, node.path.as_slice()) {
        Some(owner) => attributes_passing(alloc, schemas, node, attributes(owner), test),
        None => Ok(Vec::new(alloc)),
    }
}

fn attributes_passing(
    alloc: Global,
    schemas: &Schemas,
    owner: &Node,
    attributes: &[Attribute],
    test: &Test,
) -> Result<Vec<Node>, AllocError>
    ensures { IfOk result (λ found. found.items ≡ map (node_of_tree owner.now.tree) (passing_attributes (passes schemas.now axes.Attribute test.now) owner.now.path 0 attributes.now)) }
{
    let mut found = Vec::new(alloc);
    for (position, attribute) in attributes.iter().enumerate() {
        keep_attribute(schemas, owner, position, attribute, test, &mut found)?;
    }
    Ok(found)
}

fn keep_attribute(
    schemas: &Schemas,
    owner: &Node,
    position: usize,
    attribute: &Attribute,
    test: &Test,
    found: &mut Vec<Node>,
) -> Result<(), AllocError>
    ensures { OnOk result (found.new.items ≡ found.old.items ++ map (node_of_tree owner.now.tree) (passing_attributes (passes schemas.now axes.Attribute test.now) owner.now.path position (attribute.now ∷ []))) }
{
    let passes = passes_attribute(schemas, true, test, &attribute.name, &attribute.kind);
    keep_sharing(passes, owner.tree, &owner.path, Some(position), found)
}

// The node itself.
fn self_step(
    alloc: Global,
    schemas: &Schemas,
    root: &Tree,
    node: &Node,
    test: &Test,
) -> Result<Vec<Node>, AllocError>
    ensures { IfOk result (λ found. found.items ≡ map (node_of_tree node.now.tree) (self_found (passes schemas.now axes.SelfAxis test.now) (location_of node.now) root.now)) }
{
    let passes = match tree_below(root, node.path.as_slice()) {
        Some(tree) => passes_at(schemas, tree, node.attribute, test),
        None => false,
    };
    let mut found = Vec::new(alloc);
    keep_sharing(passes, node.tree, &node.path, node.attribute, &mut found)?;
    Ok(found)
}

// Whether a node or its attribute at a position passes.
fn passes_at(schemas: &Schemas, tree: &Tree, attribute: Option<usize>, test: &Test) -> bool
    ensures { result ≡ passes_there (passes schemas.now axes.SelfAxis test.now) (attribute_at attribute tree.now) }
{
    match attribute {
        None => passes_test(schemas, false, test, tree),
        Some(position) => {
            let list = attributes(tree);
            position < list.len()
                && passes_attribute(
                    schemas,
                    false,
                    test,
                    &list[position].name,
                    &list[position].kind,
                )
        }
    }
}

// The parent of a node.
fn parent_step(
    alloc: Global,
    schemas: &Schemas,
    root: &Tree,
    node: &Node,
    test: &Test,
) -> Result<Vec<Node>, AllocError>
    ensures { IfOk result (λ found. found.items ≡ map (node_of_tree node.now.tree) (parent_found (passes schemas.now axes.Parent test.now) (location_of node.now) root.now)) }
{
    let Some(path) = parent_path(node) else {
        return Ok(Vec::new(alloc));
    };
    let passes = match tree_below(root, path) {
        Some(parent) => passes_test(schemas, false, test, parent),
        None => false,
    };
    let mut found = Vec::new(alloc);
    keep(alloc, passes, node.tree, path, None, &mut found)?;
    Ok(found)
}

// The path of the parent: that of the element of an attribute, and else the path without its last position.
fn parent_path(node: &Node) -> Option<&[usize]>
    ensures { option_copied result ≡ path_of_parent (location_of node.now) }
{
    if node.attribute.is_some() {
        return Some(node.path.as_slice());
    }
    path_above(node.path.as_slice())
}

fn path_above(path: &[usize]) -> Option<&[usize]>
    ensures { option_copied result ≡ path_up path.now }
{
    match path.split_last() {
        Some((_, front)) => Some(front),
        None => None,
    }
}
