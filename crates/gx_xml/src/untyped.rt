// Documents without types.

ghost use Rattle.gx_xml.specs.Untyped.{is_instance_namespace, untyped_attributes, untyped_child, untyped_document, untyped_element};
ghost use Rattle.std.specs.Prelude.{◌≡◌, IfOk, map};

use crate::source::{Source, SourceAttribute, SourceChild, SourceElement};
use gx_base::text::Text;
use gx_base::type_name::{Builtin, TypeName};
use gx_tree::attribute::Attribute;
use gx_tree::tree::{Tree, TreeNode};
use std::alloc::{AllocError, Global};

/// The document node over the tree, with xs:untyped on every element and xs:untypedAtomic on every attribute (XQuery 1.0 and
/// XPath 2.0 Data Model, sections 6.1 to 6.3), without the attributes of schema instances, as `xsi:type` (XML Schema 1.0, part 1,
/// section 2.6).
pub fn untyped(alloc: Global, source: &Source) -> Result<Tree, AllocError>
    ensures { IfOk result (λ t. t ≡ untyped_document source.now.root) }
{
    let mut children = Vec::with_capacity(alloc, 1)?;
    children.push(untyped_element(alloc, &source.root)?)?;
    Ok(Tree {
        node: TreeNode::Document(children),
    })
}

#[cycle(untyped)]
#[tactic(auto, using(crate::proofs::UntypedLemmas::untyped_contents_trees))]
fn untyped_element(alloc: Global, element: &SourceElement) -> Result<Tree, AllocError>
    ensures { IfOk result (λ t. t ≡ untyped_element element.now) }
{
    Ok(Tree {
        node: TreeNode::Element {
            name: element.name.clone()?,
            kind: TypeName::Builtin(Builtin::Untyped),
            attributes: untyped_attributes(alloc, element.attributes.as_slice())?,
            children: untyped_contents(alloc, &element.children)?,
        },
    })
}

#[cycle(untyped)]
fn untyped_contents(alloc: Global, children: &Vec<SourceChild>) -> Result<Vec<Tree>, AllocError>
    ensures { IfOk result (λ ts. ts.items ≡ map untyped_child children.now.items) }
{
    let mut trees = Vec::with_capacity(alloc, children.len())?;
    for child in children {
        trees.push(untyped_child(alloc, child)?)?;
    }
    Ok(trees)
}

#[cycle(untyped)]
fn untyped_child(alloc: Global, child: &SourceChild) -> Result<Tree, AllocError>
    ensures { IfOk result (λ t. t ≡ untyped_child child.now) }
{
    match child {
        SourceChild::Element(element) => untyped_element(alloc, element),
        SourceChild::Text(text) => Ok(Tree {
            node: TreeNode::Text(text.clone()?),
        }),
    }
}

// The attributes, without those that speak of schemas.
fn untyped_attributes(
    alloc: Global,
    attributes: &[SourceAttribute],
) -> Result<Vec<Attribute>, AllocError>
    ensures { IfOk result (λ copies. copies.items ≡ untyped_attributes attributes.now) }
{
    let mut copies = Vec::with_capacity(alloc, attributes.len())?;
    let mut left = attributes;
    while let Some((attribute, others)) = left.split_first() {
        if !is_instance_namespace(&attribute.name.uri) {
            copies.push(Attribute {
                name: attribute.name.clone()?,
                kind: TypeName::Builtin(Builtin::UntypedAtomic),
                value: attribute.value.clone()?,
            })?;
        }
        left = others;
    }
    Ok(copies)
}

#[tactic(auto, unfolding(crate::specs::Untyped::is_instance_namespace))]
pub(crate) fn is_instance_namespace(uri: &Text) -> bool
    ensures { result ≡ is_instance_namespace uri.now }
{
    uri.as_str() == "http://www.w3.org/2001/XMLSchema-instance"
}
