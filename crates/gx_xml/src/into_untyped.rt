// Documents without types, of sources that are let go as their trees are made.

ghost use Rattle.gx_xml.specs.Untyped.{attribute_as_untyped, untyped_attributes, untyped_child, untyped_document, untyped_element};
ghost use Rattle.gx_tree.specs.PlainTree.{a_tree, document, no_trees};
ghost use Rattle.std.specs.Prelude.{◌≡◌, IfOk, map};

use crate::source::{Source, SourceAttribute, SourceChild, SourceElement};
use crate::untyped::is_instance_namespace;
use gx_base::type_name::{Builtin, TypeName};
use gx_tree::attribute::Attribute;
use gx_tree::tree::{Tree, TreeNode};
use std::alloc::{AllocError, Global};

/// The tree that `untyped` makes. Each part of the source is let go as soon as its node is made, and names and texts are taken over.
pub fn into_untyped(alloc: Global, source: Source) -> Result<Tree, AllocError>
    ensures { IfOk result (λ t. t ≡ untyped_document source.root) }
{
    let Source { root } = source;
    document(alloc, into_element(alloc, root)?)
}

// The document node over a tree.
fn document(alloc: Global, tree: Tree) -> Result<Tree, AllocError>
    ensures { IfOk result (λ t. t ≡ document (a_tree tree no_trees)) }
{
    let mut children = Vec::new(alloc);
    children.push(tree)?;
    Ok(Tree {
        node: TreeNode::Document(children),
    })
}

#[cycle(into_untyped)]
#[tactic(auto, using(crate::proofs::UntypedLemmas::untyped_contents_trees))]
fn into_element(alloc: Global, element: SourceElement) -> Result<Tree, AllocError>
    ensures { IfOk result (λ t. t ≡ untyped_element element) }
{
    let SourceElement {
        name,
        declarations: _,
        attributes,
        children,
    } = element;
    let attributes = into_attributes(alloc, attributes)?;
    let children = into_contents(alloc, children)?;
    Ok(Tree {
        node: TreeNode::Element {
            name,
            kind: TypeName::Builtin(Builtin::Untyped),
            attributes,
            children,
        },
    })
}

#[cycle(into_untyped)]
fn into_contents(alloc: Global, children: Vec<SourceChild>) -> Result<Vec<Tree>, AllocError>
    ensures { IfOk result (λ ts. ts.items ≡ map untyped_child children.items) }
{
    let mut trees = Vec::with_capacity(alloc, children.len())?;
    let mut left = children.into_iter();
    while let Some(child) = left.next() {
        trees.push(into_child(alloc, child)?)?;
    }
    Ok(trees)
}

#[cycle(into_untyped)]
fn into_child(alloc: Global, child: SourceChild) -> Result<Tree, AllocError>
    ensures { IfOk result (λ t. t ≡ untyped_child child) }
{
    match child {
        SourceChild::Element(element) => into_element(alloc, element),
        SourceChild::Text(text) => Ok(Tree {
            node: TreeNode::Text(text),
        }),
    }
}

// The attributes, without those that speak of schemas.
fn into_attributes(
    alloc: Global,
    attributes: Vec<SourceAttribute>,
) -> Result<Vec<Attribute>, AllocError>
    ensures { IfOk result (λ kept. kept.items ≡ untyped_attributes attributes.items) }
{
    let mut kept = Vec::with_capacity(alloc, attributes.len())?;
    let mut left = attributes.into_iter();
    while let Some(attribute) = left.next() {
        if !is_instance_namespace(&attribute.name.uri) {
            kept.push(into_attribute(attribute))?;
        }
    }
    Ok(kept)
}

fn into_attribute(attribute: SourceAttribute) -> Attribute
    ensures { result ≡ attribute_as_untyped attribute }
{
    let SourceAttribute { name, value } = attribute;
    let kind = TypeName::Builtin(Builtin::UntypedAtomic);
    Attribute { name, kind, value }
}
