// The attributes at the front of content, and what stands behind them.

ghost use Rattle.std.specs.Prelude.{◌≡◌, ◌≤◌, ◌++◌, ◌∷◌, [], IfOk, OnOk, length};
ghost use Rattle.std.specs.List.{prefix_len};
ghost use Rattle.gx_tree.specs.OwnNames.{has_attribute};
ghost use Rattle.gx_nodes.specs.Rows.{attributes_among};
ghost use Rattle.gx_core.specs.Constructing.{leading_attributes, behind_attributes, is_attribute as is_attribute_tree, holds_attribute as list_holds_attribute, repeats_name as list_repeats_name};

use gx_tree::attribute::Attribute;
use gx_tree::tree::{Tree, TreeNode};
use std::alloc::{AllocError, Global};

// Content in two parts.
#[derive(Drop)]
pub(crate) struct ElementContent {
    pub attributes: Vec<Attribute>,
    pub children: Vec<Tree>,
}

// The attributes at the front of content, and the other nodes.
pub(crate) fn parted(alloc: Global, content: Vec<Tree>) -> Result<ElementContent, AllocError>
    ensures attributes { IfOk result (λ parts. parts.attributes.items ≡ leading_attributes content.items) }
    ensures children { IfOk result (λ parts. parts.children.items ≡ behind_attributes content.items) }
{
    let mut front = content;
    let count = count_of_attributes(front.as_slice());
    let children = front.split_off(count)?;
    let attributes = attributes_of(alloc, front.as_slice())?;
    Ok(ElementContent {
        attributes,
        children,
    })
}

// How many attributes stand at the front of trees.
fn count_of_attributes(trees: &[Tree]) -> usize
    ensures count { result ≡ prefix_len is_attribute_tree trees.now }
    ensures within { result ≤ length trees.now }
{
    trees.iter().take_while(|tree| is_attribute(tree)).count()
}

fn is_attribute(tree: &Tree) -> bool
    ensures { result ≡ is_attribute_tree tree.now }
{
    matches!(&tree.node, TreeNode::Attribute(_))
}

// Copies of the attributes among trees.
fn attributes_of(alloc: Global, trees: &[Tree]) -> Result<Vec<Attribute>, AllocError>
    ensures { IfOk result (λ found. found.items ≡ attributes_among trees.now) }
{
    let mut attributes = Vec::new(alloc);
    for tree in trees {
        push_attribute(&mut attributes, tree)?;
    }
    Ok(attributes)
}

fn push_attribute(attributes: &mut Vec<Attribute>, tree: &Tree) -> Result<(), AllocError>
    ensures { OnOk result (attributes.new.items ≡ attributes.old.items ++ attributes_among (tree.now ∷ [])) }
{
    if let TreeNode::Attribute(attribute) = &tree.node {
        attributes.push(attribute.clone()?)?;
    }
    Ok(())
}

// Whether there is an attribute among trees.
pub(crate) fn holds_attribute(trees: &[Tree]) -> bool
    ensures { result ≡ list_holds_attribute trees.now }
{
    trees.iter().any(|tree| is_attribute(tree))
}

// Whether two attributes have equal names.
pub(crate) fn repeats_name(attributes: &[Attribute]) -> bool
    ensures { result ≡ list_repeats_name attributes.now }
{
    let mut left = attributes;
    while let Some((first, others)) = left.split_first() {
        if is_repeated(first, others) {
            return true;
        }
        left = others;
    }
    false
}

// Whether another attribute has the name of this one.
fn is_repeated(attribute: &Attribute, others: &[Attribute]) -> bool
    ensures { result ≡ has_attribute others.now attribute.now }
{
    others.iter().any(|other| attribute.name == other.name)
}
