// Constructors.

ghost use Rattle.std.specs.Prelude.{◌≡◌, [], ◌∷◌, ◌++◌, IfOk, IfErr, OnOk, OnErr};
ghost use Rattle.gx_tree.specs.PlainTree.{text as a_text_node};
ghost use Rattle.gx_model.specs.Forest.{Forest as PlainForest};
ghost use Rattle.gx_model.specs.Growth.{Extends};
ghost use Rattle.gx_nodes.specs.Entries.{count_in};
ghost use Rattle.gx_store.specs.Items.{items_in};
ghost use Rattle.gx_core.specs.Constructing.{attribute_built, built, document_built, built_element, built_document, built_within, depth_limit};
ghost use Rattle.gx_build.specs.Parts.{parts_in};
ghost use Rattle.gx_build.specs.Made.{IsMade, RefusesTree};

use crate::content::{content_of, content_of_items};
use crate::depth::is_deeper;
use crate::error::BuildError;
use crate::parted::{ElementContent, holds_attribute, parted, repeats_name};
use gx_base::limits::CONSTRUCTED_DEPTH;
use gx_base::name::Name;
use gx_base::text::Text;
use gx_base::type_name::{Builtin, TypeName};
use gx_store::item::Item;
use gx_store::number::NodeId;
use gx_store::store::Store;
use gx_tree::attribute::Attribute;
use gx_tree::tree::{Tree, TreeNode};
use std::alloc::{AllocError, Global};

/// An element of a name with the content of parts, as a tree behind the others of the store (XQuery 1.0, section 3.7.1.3).
pub fn element(store: &mut Store, name: &Name, parts: &[Vec<Item>]) -> Result<NodeId, BuildError>
    ensures made { (later : PlainForest) → Extends store.old later → IfOk result (λ node. IsMade store.old store.new node.number (built name.now (parts_in later parts.now) store.old)) }
    ensures refused { (later : PlainForest) → Extends store.old later → IfErr result (λ e. RefusesTree e (built name.now (parts_in later parts.now) store.old)) }
    ensures kept { OnErr result (store.new ≡ store.old) }
{
    let tree = element_tree(store, name, parts)?;
    load(store, tree)
}

/// A document of the content of items, as a tree behind the others of the store (XQuery 1.0, section 3.7.3.3).
pub fn document(store: &mut Store, content: &[Item]) -> Result<NodeId, BuildError>
    ensures made { (later : PlainForest) → Extends store.old later → IfOk result (λ node. IsMade store.old store.new node.number (document_built (items_in later content.now) store.old)) }
    ensures refused { (later : PlainForest) → Extends store.old later → IfErr result (λ e. RefusesTree e (document_built (items_in later content.now) store.old)) }
    ensures kept { OnErr result (store.new ≡ store.old) }
{
    let tree = document_tree(store, content)?;
    load(store, tree)
}

/// An attribute of a name and a value, as a tree behind the others of the store (XQuery 1.0, section 3.7.3.2).
pub fn attribute(store: &mut Store, name: &Name, value: &Text) -> Result<NodeId, AllocError>
    ensures root { IfOk result (λ node. node.number ≡ count_in store.old) }
    ensures made { OnOk result (store.new ≡ store.old ++ attribute_built name.now value.now ∷ []) }
    ensures kept { OnErr result (store.new ≡ store.old) }
{
    let node = TreeNode::Attribute(Attribute {
        name: name.clone()?,
        kind: TypeName::Builtin(Builtin::UntypedAtomic),
        value: value.clone()?,
    });
    store.load(&Tree { node })
}

/// A text of a value, as a tree behind the others of the store (XQuery 1.0, section 3.7.3.4).
pub fn text(store: &mut Store, value: &Text) -> Result<NodeId, AllocError>
    ensures root { IfOk result (λ node. node.number ≡ count_in store.old) }
    ensures made { OnOk result (store.new ≡ store.old ++ a_text_node value.now ∷ []) }
    ensures kept { OnErr result (store.new ≡ store.old) }
{
    let node = TreeNode::Text(value.clone()?);
    store.load(&Tree { node })
}

// The element that is to be put into the store, if it is not too deep.
fn element_tree(store: &Store, name: &Name, parts: &[Vec<Item>]) -> Result<Tree, BuildError>
    ensures made { (later : PlainForest) → Extends store.now later → IfOk result (λ tree. built name.now (parts_in later parts.now) store.now ≡ built_within depth_limit tree) }
    ensures refused { (later : PlainForest) → Extends store.now later → IfErr result (λ e. RefusesTree e (built name.now (parts_in later parts.now) store.now)) }
{
    match content_of(store, parts)? {
        Some(content) => element_of(store.allocator(), name, content),
        None => Err(BuildError::WrongContent),
    }
}

// The element of a name and of content in which texts are merged.
fn element_of(alloc: Global, name: &Name, content: Vec<Tree>) -> Result<Tree, BuildError>
    ensures made { IfOk result (λ tree. built_element depth_limit name.now content.items ≡ built_within depth_limit tree) }
    ensures refused { IfErr result (λ e. RefusesTree e (built_element depth_limit name.now content.items)) }
{
    let ElementContent {
        attributes,
        children,
    } = parted(alloc, content)?;
    if holds_attribute(children.as_slice()) {
        return Err(BuildError::WrongContent);
    }
    if repeats_name(attributes.as_slice()) {
        return Err(BuildError::DuplicateAttribute);
    }
    let name = name.clone()?;
    Ok(Tree {
        node: TreeNode::Element {
            name,
            kind: TypeName::Builtin(Builtin::Untyped),
            attributes,
            children,
        },
    })
}

// The document that is to be put into the store, if it is not too deep.
fn document_tree(store: &Store, content: &[Item]) -> Result<Tree, BuildError>
    ensures made { (later : PlainForest) → Extends store.now later → IfOk result (λ tree. document_built (items_in later content.now) store.now ≡ built_within depth_limit tree) }
    ensures refused { (later : PlainForest) → Extends store.now later → IfErr result (λ e. RefusesTree e (document_built (items_in later content.now) store.now)) }
{
    match content_of_items(store, content)? {
        Some(children) => document_of(children),
        None => Err(BuildError::WrongContent),
    }
}

// The document of content in which texts are merged.
fn document_of(children: Vec<Tree>) -> Result<Tree, BuildError>
    ensures made { IfOk result (λ tree. built_document depth_limit children.items ≡ built_within depth_limit tree) }
    ensures refused { IfErr result (λ e. RefusesTree e (built_document depth_limit children.items)) }
{
    if holds_attribute(children.as_slice()) {
        return Err(BuildError::WrongContent);
    }
    Ok(Tree {
        node: TreeNode::Document(children),
    })
}

// Puts a tree that is not too deep behind the others of the store.
fn load(store: &mut Store, tree: Tree) -> Result<NodeId, BuildError>
    ensures made { IfOk result (λ node. IsMade store.old store.new node.number (built_within depth_limit tree)) }
    ensures refused { IfErr result (λ e. RefusesTree e (built_within depth_limit tree)) }
    ensures kept { OnErr result (store.new ≡ store.old) }
{
    let deeper = is_deeper(store.allocator(), &tree, CONSTRUCTED_DEPTH)?;
    if deeper {
        return Err(BuildError::TooDeep);
    }
    let node = store.load(&tree)?;
    Ok(node)
}
