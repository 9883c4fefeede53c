// Trees as rows.

ghost use Rattle.std.specs.Prelude.{◌≡◌, ◌+◌, ◌*◌, ◌<◌, ◌++◌, ◌∷◌, [], List, OnOk, IfOk, length};
ghost use Rattle.gx_tree.specs.PlainTree.{tree_size};
ghost use Rattle.gx_nodes.specs.Rows.{PlainRow, tree_rows};
ghost use Rattle.gx_store.specs.Grown.{Grows};
ghost use Rattle.gx_store.specs.Opened.{Stand, opening_rows, rows_to_come, AreWithin, WillBe, size_left};
ghost use Rattle.gx_store.specs.RowView.{Adds, row_of_attribute, attribute_rows, closed_at};

use crate::labels::Labels;
use crate::number::narrow;
use crate::row::{Form, Row};
use gx_base::name::Name;
use gx_base::stack::Stack;
use gx_base::type_name::TypeName;
use gx_tree::attribute::Attribute;
use gx_tree::tree::{Tree, TreeNode};
use std::alloc::{AllocError, Global};

// A document or an element whose row is put down: where the row stands, and the children that are left.
#[derive(Drop)]
pub(crate) struct Opened<'a> {
    at: usize,
    left: &'a [Tree],
}

// The rows of a tree.
pub(crate) fn rows_of(
    alloc: Global,
    labels: &mut Labels,
    tree: &Tree,
) -> Result<Vec<Row>, AllocError>
    ensures grows { Grows labels.old.labels.keys labels.new.labels.keys }
    ensures rows { IfOk result (λ rows. Stand labels.new.labels.keys rows.items (tree_rows 0 tree.now)) }
{
    let mut rows = Vec::new(alloc);
    let mut opened = Stack::new(alloc);
    open(labels, &mut rows, &mut opened, 0, tree)?;
    while let Some(node) = opened.pop() {
        go_on(labels, &mut rows, &mut opened, node)?;
    }
    Ok(rows)
}

// Puts down the next child of a node, or closes the node where none is left.
fn go_on<'a>(
    labels: &mut Labels,
    rows: &mut Vec<Row>,
    opened: &mut Stack<Opened<'a>>,
    node: Opened<'a>,
) -> Result<(), AllocError>
    requires { AreWithin (length rows.old.items) (node ∷ opened.old) }
    ensures grows { Grows labels.old.labels.keys labels.new.labels.keys }
    ensures comes { (plain : List PlainRow) → Stand labels.old.labels.keys rows.old.items plain → OnOk result (WillBe labels.new.labels.keys rows.new.items opened.new (rows_to_come plain (node.entry ∷ opened.old))) }
    ensures less { OnOk result (size_left opened.new < size_left (node.entry ∷ opened.old)) }
{
    let Some((child, left)) = node.left.split_first() else {
        return close(rows, node.at);
    };
    let up = rows.len() - node.at;
    opened.push(Opened { at: node.at, left })?;
    open(labels, rows, opened, up, child)
}

// Puts down a node, whose parent stands so far before it, with its attributes.
fn open<'a>(
    labels: &mut Labels,
    rows: &mut Vec<Row>,
    opened: &mut Stack<Opened<'a>>,
    up: usize,
    tree: &'a Tree,
) -> Result<(), AllocError>
    ensures grows { Grows labels.old.labels.keys labels.new.labels.keys }
    ensures comes { (plain : List PlainRow) → Stand labels.old.labels.keys rows.old.items plain → AreWithin (length rows.old.items) opened.old → OnOk result (WillBe labels.new.labels.keys rows.new.items opened.new (rows_to_come (plain ++ tree_rows up tree.now) opened.old)) }
    ensures less { OnOk result (size_left opened.new < size_left opened.old + 2 * tree_size tree.now) }
{
    let at = rows.len();
    match &tree.node {
        TreeNode::Document(children) => {
            push_row(rows, Form::Document, up)?;
            opened.push(Opened {
                at,
                left: children.as_slice(),
            })
        }
        TreeNode::Element {
            name,
            kind,
            attributes,
            children,
        } => {
            push_element(labels, rows, up, name, kind, attributes)?;
            opened.push(Opened {
                at,
                left: children.as_slice(),
            })
        }
        TreeNode::Attribute(attribute) => push_attribute(labels, rows, up, attribute),
        TreeNode::Text(text) => push_row(rows, Form::Text(text.clone()?), up),
    }
}

// Puts the rows of an element and its attributes behind others.
fn push_element(
    labels: &mut Labels,
    rows: &mut Vec<Row>,
    up: usize,
    name: &Name,
    kind: &TypeName,
    list: &Vec<Attribute>,
) -> Result<(), AllocError>
    ensures grows { Grows labels.old.labels.keys labels.new.labels.keys }
    ensures added { OnOk result (Adds labels.new.labels.keys rows.old.items rows.new.items (opening_rows up name.now kind.now list.now.items)) }
{
    let label = labels.number_of(name, kind)?;
    let attributes = narrow(list.len())?;
    push_row(rows, Form::Element { label, attributes }, up)?;
    push_attributes(labels, rows, list)
}

// Puts the rows of the attributes of an element, which stands before them, behind others.
fn push_attributes(
    labels: &mut Labels,
    rows: &mut Vec<Row>,
    list: &Vec<Attribute>,
) -> Result<(), AllocError>
    ensures grows { Grows labels.old.labels.keys labels.new.labels.keys }
    ensures added { OnOk result (Adds labels.new.labels.keys rows.old.items rows.new.items (attribute_rows 0 list.now.items)) }
{
    for (position, attribute) in list.iter().enumerate() {
        push_attribute(labels, rows, position + 1, attribute)?;
    }
    Ok(())
}

fn push_attribute(
    labels: &mut Labels,
    rows: &mut Vec<Row>,
    up: usize,
    attribute: &Attribute,
) -> Result<(), AllocError>
    ensures grows { Grows labels.old.labels.keys labels.new.labels.keys }
    ensures added { OnOk result (Adds labels.new.labels.keys rows.old.items rows.new.items (row_of_attribute up attribute.now ∷ [])) }
{
    let label = labels.number_of(&attribute.name, &attribute.kind)?;
    let value = attribute.value.clone()?;
    push_row(rows, Form::Attribute { label, value }, up)
}

// Puts a row behind others, with nothing below it yet.
fn push_row(rows: &mut Vec<Row>, form: Form, up: usize) -> Result<(), AllocError>
    ensures { OnOk result (rows.new.items ≡ rows.old.items ++ (record { form = form; up = up; below = 0 }) ∷ []) }
{
    let up = narrow(up)?;
    rows.push(Row { form, up, below: 0 })?;
    Ok(())
}

// Counts what has been put behind a row as what is below it.
fn close(rows: &mut Vec<Row>, at: usize) -> Result<(), AllocError>
    requires { at < length rows.old.items }
    ensures { OnOk result (rows.new.items ≡ closed_at at rows.old.items) }
{
    let below = narrow(rows.len() - at - 1)?;
    let row = &mut rows[at];
    row.below = below;
    Ok(())
}
