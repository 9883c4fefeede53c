// The parts of trees, by their positions.

ghost use Rattle.std.specs.Prelude.{◌≡◌, option_copied, slice_get};
ghost use Rattle.gx_model.specs.Forest.{children_of, own_attributes, tree_at};

use gx_tree::attribute::Attribute;
use gx_tree::tree::{Tree, TreeNode};

// The children of a node.
#[tactic(auto, using(crate::proofs::LookupLemmas::children_back))]
pub(crate) fn children(tree: &Tree) -> &[Tree]
    ensures { result.now ≡ children_of tree.now }
{
    match &tree.node {
        TreeNode::Document(children) => children.as_slice(),
        TreeNode::Element {
            name: _,
            kind: _,
            attributes: _,
            children,
        } => children.as_slice(),
        TreeNode::Attribute(_) | TreeNode::Text(_) => &[],
    }
}

// The attributes of an element.
pub(crate) fn attributes(tree: &Tree) -> &[Attribute]
    ensures { result.now ≡ own_attributes tree.now }
{
    match &tree.node {
        TreeNode::Element {
            name: _,
            kind: _,
            attributes,
            children: _,
        } => attributes.as_slice(),
        _ => &[],
    }
}

// The tree of the node that is so far down.
pub(crate) fn tree_below<'a>(tree: &'a Tree, path: &[usize]) -> Option<&'a Tree>
    ensures { option_copied result ≡ tree_at tree.now path.now }
{
    let mut here = tree;
    let mut way = path;
    while let Some((position, rest)) = way.split_first() {
        let trees = children(here);
        if *position >= trees.len() {
            return None;
        }
        here = &trees[*position];
        way = rest;
    }
    Some(here)
}
