// Trees without their annotations.
ghost use Rattle.std.specs.Prelude.{◌≡◌, IfOk, map};
ghost use Rattle.gx_tree.specs.Erasure.{erased, erased_attribute};

use crate::attribute::Attribute;
use crate::tree::{Tree, TreeNode};
use gx_base::type_name::{Builtin, TypeName};
use std::alloc::{AllocError, Global};

/// The tree with the type xs:untyped on every element and xs:untypedAtomic on every attribute (XQuery 1.0, section
/// 3.7.1.3, with construction mode strip).
#[cycle(erase)]
#[tactic(auto, using(crate::proofs::TreesLemmas::erased_all_trees))]
pub fn erase(alloc: Global, tree: &Tree) -> Result<Tree, AllocError>
    ensures { IfOk result (λ copy. copy ≡ erased tree.now) }
{
    match &tree.node {
        TreeNode::Document(children) => Ok(Tree {
            node: TreeNode::Document(erase_all(alloc, children)?),
        }),
        TreeNode::Element {
            name,
            kind: _,
            attributes,
            children,
        } => Ok(Tree {
            node: TreeNode::Element {
                name: name.clone()?,
                kind: TypeName::Builtin(Builtin::Untyped),
                attributes: erase_attributes(alloc, attributes)?,
                children: erase_all(alloc, children)?,
            },
        }),
        TreeNode::Attribute(attribute) => Ok(Tree {
            node: TreeNode::Attribute(attribute.erase()?),
        }),
        TreeNode::Text(text) => Ok(Tree {
            node: TreeNode::Text(text.clone()?),
        }),
    }
}

#[cycle(erase)]
fn erase_all(alloc: Global, trees: &Vec<Tree>) -> Result<Vec<Tree>, AllocError>
    ensures { IfOk result (λ copies. copies.items ≡ map erased trees.now.items) }
{
    let mut copies = Vec::with_capacity(alloc, trees.len())?;
    for tree in trees {
        copies.push(erase(alloc, tree)?)?;
    }
    Ok(copies)
}

fn erase_attributes(
    alloc: Global,
    attributes: &Vec<Attribute>,
) -> Result<Vec<Attribute>, AllocError>
    ensures { IfOk result (λ copies. copies.items ≡ map erased_attribute attributes.now.items) }
{
    let mut copies = Vec::with_capacity(alloc, attributes.len())?;
    for attribute in attributes {
        copies.push(attribute.erase()?)?;
    }
    Ok(copies)
}
