// Copies of the trees of nodes.

ghost use Rattle.std.specs.Prelude.{◌≡◌, IfOk, Option, Some, None};
ghost use Rattle.gx_tree.specs.PlainTree.{attribute};
ghost use Rattle.gx_model.specs.Forest.{attribute_at, node_in};
ghost use Rattle.gx_model.specs.Location.{located, location_of};

use crate::axis::tree_of;
use crate::forest::Forest;
use crate::lookup::{attributes, tree_below};
use crate::node::Node;
use gx_tree::tree::{Tree, TreeNode};
use std::alloc::AllocError;

/// A copy of a node with all that it holds; None exactly where the forest has not the node.
pub fn copied_tree(forest: &Forest, node: &Node) -> Result<Option<Tree>, AllocError>
    ensures { IfOk result (λ copy. copy ≡ node_in forest.now node.now) }
{
    match tree_of(forest, node.tree) {
        Some(root) => copied_in(root, node),
        None => Ok(None),
    }
}

fn copied_in(root: &Tree, node: &Node) -> Result<Option<Tree>, AllocError>
    ensures { IfOk result (λ copy. copy ≡ located root.now (location_of node.now)) }
{
    match (tree_below(root, node.path.as_slice()), node.attribute) {
        (Some(tree), None) => Ok(Some(tree.clone()?)),
        (Some(tree), Some(position)) => copied_attribute(tree, position),
        (None, _) => Ok(None),
    }
}

// A copy of the attribute at a position.
fn copied_attribute(tree: &Tree, position: usize) -> Result<Option<Tree>, AllocError>
    ensures { IfOk result (λ copy. copy ≡ attribute_at (Some position) tree.now) }
{
    let list = attributes(tree);
    if position < list.len() {
        Ok(Some(Tree {
            node: TreeNode::Attribute(list[position].clone()?),
        }))
    } else {
        Ok(None)
    }
}
