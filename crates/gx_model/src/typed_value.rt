// Typed values.

ghost use Rattle.std.specs.Prelude.{◌≡◌, true, ◌∷◌, [], IfOk, MatchOption, Some, None, is_some};
ghost use Rattle.gx_model.specs.Forest.{attribute_at, node_in, then_found};
ghost use Rattle.gx_types.specs.SchemaSet.{declaration_of};
ghost use Rattle.gx_model.specs.Location.{located, location_of};
ghost use Rattle.gx_model.specs.TypedValue.{found_string_value, typed_value_of, value_of_node, untyped_atomic, value_at_type, declared_value as value_as_declared, value_by_content as value_of_content, complex_value as value_of_model, simple_value as value_of_text};

use crate::axis::tree_of;
use crate::forest::Forest;
use crate::lookup::{attributes, tree_below};
use crate::node::Node;
use gx_base::text::Text;
use gx_base::type_name::{Builtin, TypeName};
use gx_facets::{AtomValue, Atomic, ValueRead};
use gx_tree::string_value::string_value;
use gx_tree::tree::{Tree, TreeNode};
use gx_types::declaration::Content;
use gx_types::schemas::Schemas;
use gx_types::sequence_type::{Ty, TyNode};
use gx_types::simple_value::read_simple;
use std::alloc::{AllocError, Global};

/// The typed value of a node of the forest that has one: that of a document, of a text, of an element or an attribute without a
/// type and of mixed content is its string value as one value of type xs:untypedAtomic; simple types and simple content have the
/// values that the string value stands for, and empty content has no values (XQuery 1.0 and XPath 2.0 Data Model, sections
/// 3.3.1.2 and 6.1.2 to 6.7.2).
pub fn typed_value(
    alloc: Global,
    schemas: &Schemas,
    forest: &Forest,
    node: &Node,
) -> Result<Vec<Atomic>, AllocError>
    requires { is_some (value_of_node schemas.now forest.now node.now) ≡ true }
    ensures { IfOk result (λ values. value_of_node schemas.now forest.now node.now ≡ Some values.items) }
{
    match try_typed_value(alloc, schemas, forest, node)? {
        Some(values) => Ok(values),
        None => unreachable!(),
    }
}

/// The typed value of a node, as `typed_value` has it; None exactly where the forest has not the node or the node has no typed
/// value: its type has element-only content, is xs:anyType, is not declared, or has not its text among those of its values
/// (XQuery 1.0 and XPath 2.0 Data Model, sections 3.3.1.2 and 6.1.2 to 6.7.2).
pub fn try_typed_value(
    alloc: Global,
    schemas: &Schemas,
    forest: &Forest,
    node: &Node,
) -> Result<Option<Vec<Atomic>>, AllocError>
    ensures { IfOk result (λ found. MatchOption found (value_of_node schemas.now forest.now node.now ≡ None)
        (λ values. value_of_node schemas.now forest.now node.now ≡ Some values.items)) }
{
    match tree_of(forest, node.tree) {
        Some(root) => value_in(alloc, schemas, root, node),
        None => Ok(None),
    }
}

fn value_in(
    alloc: Global,
    schemas: &Schemas,
    root: &Tree,
    node: &Node,
) -> Result<Option<Vec<Atomic>>, AllocError>
    ensures { IfOk result (λ found. MatchOption found (then_found (located root.now (location_of node.now)) (typed_value_of schemas.now) ≡ None)
        (λ values. then_found (located root.now (location_of node.now)) (typed_value_of schemas.now) ≡ Some values.items)) }
{
    match (tree_below(root, node.path.as_slice()), node.attribute) {
        (Some(tree), None) => value_of_tree(alloc, schemas, tree),
        (Some(tree), Some(position)) => value_of_attribute(alloc, schemas, tree, position),
        (None, _) => Ok(None),
    }
}

fn value_of_tree(
    alloc: Global,
    schemas: &Schemas,
    tree: &Tree,
) -> Result<Option<Vec<Atomic>>, AllocError>
    ensures { IfOk result (λ found. MatchOption found (typed_value_of schemas.now tree.now ≡ None) (λ values. typed_value_of schemas.now tree.now ≡ Some values.items)) }
{
    let text = string_value(alloc, tree)?;
    match &tree.node {
        TreeNode::Document(_) | TreeNode::Text(_) => Ok(Some(untyped_value(alloc, text)?)),
        TreeNode::Element {
            name: _,
            kind,
            attributes: _,
            children: _,
        } => value_at_type(alloc, schemas, kind, text),
        TreeNode::Attribute(attribute) => value_at_type(alloc, schemas, &attribute.kind, text),
    }
}

// The typed value of the attribute at a position.
fn value_of_attribute(
    alloc: Global,
    schemas: &Schemas,
    tree: &Tree,
    position: usize,
) -> Result<Option<Vec<Atomic>>, AllocError>
    ensures { IfOk result (λ found. MatchOption found (then_found (attribute_at (Some position) tree.now) (typed_value_of schemas.now) ≡ None)
        (λ values. then_found (attribute_at (Some position) tree.now) (typed_value_of schemas.now) ≡ Some values.items)) }
{
    let list = attributes(tree);
    if position >= list.len() {
        return Ok(None);
    }
    let text = list[position].value.clone()?;
    value_at_type(alloc, schemas, &list[position].kind, text)
}

/// The typed value of an element or an attribute of a type with this string value, if it has one.
pub fn value_at_type(
    alloc: Global,
    schemas: &Schemas,
    kind: &TypeName,
    text: Text,
) -> Result<Option<Vec<Atomic>>, AllocError>
    ensures { IfOk result (λ found. MatchOption found (value_at_type schemas.now kind.now text ≡ None) (λ values. value_at_type schemas.now kind.now text ≡ Some values.items)) }
{
    match kind {
        TypeName::Builtin(Builtin::AnyType) => Ok(None),
        TypeName::Builtin(Builtin::Untyped | Builtin::UntypedAtomic) => {
            Ok(Some(untyped_value(alloc, text)?))
        }
        TypeName::Builtin(_) => simple_value(alloc, schemas, kind, &text),
        TypeName::Named(_) | TypeName::Anonymous(_) => declared_value(alloc, schemas, kind, text),
    }
}

fn declared_value(
    alloc: Global,
    schemas: &Schemas,
    kind: &TypeName,
    text: Text,
) -> Result<Option<Vec<Atomic>>, AllocError>
    ensures { IfOk result (λ found. MatchOption found (value_as_declared schemas.now kind.now (declaration_of schemas.now kind.now) text ≡ None)
        (λ values. value_as_declared schemas.now kind.now (declaration_of schemas.now kind.now) text ≡ Some values.items)) }
{
    match schemas.declared(kind) {
        Some(declared) => value_by_content(alloc, schemas, kind, &declared.content, text),
        None => Ok(None),
    }
}

fn value_by_content(
    alloc: Global,
    schemas: &Schemas,
    kind: &TypeName,
    content: &Content,
    text: Text,
) -> Result<Option<Vec<Atomic>>, AllocError>
    ensures { IfOk result (λ found. MatchOption found (value_of_content schemas.now kind.now content.now text ≡ None)
        (λ values. value_of_content schemas.now kind.now content.now text ≡ Some values.items)) }
{
    match content {
        Content::Complex { mixed, model } => complex_value(alloc, *mixed, model, text),
        Content::Atomic(_) | Content::List(_, _) | Content::Simple(_, _) => {
            simple_value(alloc, schemas, kind, &text)
        }
    }
}

// Mixed content has its text as value, empty content no values, and element-only content no typed value.
fn complex_value(
    alloc: Global,
    mixed: bool,
    model: &Ty,
    text: Text,
) -> Result<Option<Vec<Atomic>>, AllocError>
    ensures { IfOk result (λ found. MatchOption found (value_of_model mixed model.now text ≡ None) (λ values. value_of_model mixed model.now text ≡ Some values.items)) }
{
    match (mixed, &model.node) {
        (true, _) => Ok(Some(untyped_value(alloc, text)?)),
        (false, TyNode::Empty) => Ok(Some(Vec::new(alloc))),
        (false, _) => Ok(None),
    }
}

// The values of a text at a type with simple values, if it stands for any.
fn simple_value(
    alloc: Global,
    schemas: &Schemas,
    kind: &TypeName,
    text: &Text,
) -> Result<Option<Vec<Atomic>>, AllocError>
    ensures { IfOk result (λ found. MatchOption found (value_of_text schemas.now kind.now text.now ≡ None) (λ values. value_of_text schemas.now kind.now text.now ≡ Some values.items)) }
{
    match read_simple(alloc, schemas, kind, text) {
        Ok(values) => Ok(Some(values)),
        Err(ValueRead::Memory) => Err(AllocError),
        Err(_) => Ok(None),
    }
}

/// A text as one value of type xs:untypedAtomic.
pub fn untyped_value(alloc: Global, text: Text) -> Result<Vec<Atomic>, AllocError>
    ensures { IfOk result (λ values. values.items ≡ untyped_atomic text ∷ []) }
{
    let mut values = Vec::with_capacity(alloc, 1)?;
    values.push(Atomic {
        value: AtomValue::Untyped(text),
        kind: TypeName::Builtin(Builtin::UntypedAtomic),
    })?;
    Ok(values)
}

/// The string value of a node, which is empty where the forest has not the node (XQuery 1.0 and XPath 2.0 Data Model, section
/// 5.13).
pub fn string_value_of(alloc: Global, forest: &Forest, node: &Node) -> Result<Text, AllocError>
    ensures { IfOk result (λ text. text ≡ found_string_value (node_in forest.now node.now)) }
{
    match tree_of(forest, node.tree) {
        Some(root) => string_value_in(alloc, root, node),
        None => Text::empty(alloc),
    }
}

fn string_value_in(alloc: Global, root: &Tree, node: &Node) -> Result<Text, AllocError>
    ensures { IfOk result (λ text. text ≡ found_string_value (located root.now (location_of node.now))) }
{
    match (tree_below(root, node.path.as_slice()), node.attribute) {
        (Some(tree), None) => string_value(alloc, tree),
        (Some(tree), Some(position)) => attribute_value(alloc, tree, position),
        (None, _) => Text::empty(alloc),
    }
}

// The value of the attribute at a position.
fn attribute_value(alloc: Global, tree: &Tree, position: usize) -> Result<Text, AllocError>
    ensures { IfOk result (λ text. text ≡ found_string_value (attribute_at (Some position) tree.now)) }
{
    let list = attributes(tree);
    if position < list.len() {
        list[position].value.clone()
    } else {
        Text::empty(alloc)
    }
}
