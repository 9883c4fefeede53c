// Trees of nodes.
ghost use Rattle.std.specs.Prelude.{◌≡◌, IfOk};

use crate::attribute::Attribute;
use gx_base::name::Name;
use gx_base::text::Text;
use gx_base::type_name::TypeName;
use std::alloc::AllocError;
use std::marker::Model;

/// A node with all that it holds (XQuery 1.0 and XPath 2.0 Data Model, section 2.2).
#[cycle(tree)]
#[derive(Drop)]
pub struct Tree {
    pub node: TreeNode,
}

/// One level of a tree. The children of a document or an element are elements and texts.
#[cycle(tree)]
#[derive(Drop)]
pub enum TreeNode {
    Document(Vec<Tree>),
    Element {
        name: Name,
        kind: TypeName,
        attributes: Vec<Attribute>,
        children: Vec<Tree>,
    },
    Attribute(Attribute),
    Text(Text),
}

impl Model for Tree {
    ghost use Rattle.gx_tree.specs.PlainTree.{PlainTree, tree_size};
    ghost use Rattle.gx_tree.specs.TreeCode.{plain_tree_code};
    ghost use Rattle.gx_base.specs.contracts.name.Name as names;
    ghost use Rattle.gx_base.specs.contracts.type_name.TypeName as kinds;
    ghost use Rattle.gx_tree.specs.contracts.attribute.Attribute as attributes;

    ghost Value = { PlainTree };

    ghost coded = { plain_tree_code names.the_row.coded kinds.the_row.coded attributes.the_row.coded };

    ghost use Rattle.gx_tree.specs.TreeView.{plain_tree_of};

    ghost view = { λ t. plain_tree_of t.node };

    ghost size = { tree_size };

    ghost use Rattle.gx_tree.specs.TreeParts.{child_trees_are_smaller};

    ghost size_decreases = { λ t h. child_trees_are_smaller t.node };
}

impl Clone for Tree {
    ghost use Rattle.std.specs.Prelude.{◌≡◌};

    ghost is_clone = { λ t copy. copy ≡ t };

    #[cycle(clone)]
    fn clone(&self) -> Result<Tree, AllocError> {
        match &self.node {
            TreeNode::Document(children) => Ok(Tree {
                node: TreeNode::Document(clone_all(children)?),
            }),
            TreeNode::Element {
                name,
                kind,
                attributes,
                children,
            } => Ok(Tree {
                node: TreeNode::Element {
                    name: name.clone()?,
                    kind: kind.clone()?,
                    attributes: clone_attributes(attributes)?,
                    children: clone_all(children)?,
                },
            }),
            TreeNode::Attribute(attribute) => Ok(Tree {
                node: TreeNode::Attribute(attribute.clone()?),
            }),
            TreeNode::Text(text) => Ok(Tree {
                node: TreeNode::Text(text.clone()?),
            }),
        }
    }
}

#[cycle(clone)]
fn clone_all(trees: &Vec<Tree>) -> Result<Vec<Tree>, AllocError>
    ensures { IfOk result (λ copies. copies.items ≡ trees.now.items) }
{
    let mut copies = Vec::with_capacity(*trees.allocator(), trees.len())?;
    for tree in trees {
        copies.push(tree.clone()?)?;
    }
    Ok(copies)
}

fn clone_attributes(attributes: &Vec<Attribute>) -> Result<Vec<Attribute>, AllocError>
    ensures { IfOk result (λ copies. copies.items ≡ attributes.now.items) }
{
    let mut copies = Vec::with_capacity(*attributes.allocator(), attributes.len())?;
    for attribute in attributes {
        copies.push(attribute.clone()?)?;
    }
    Ok(copies)
}
