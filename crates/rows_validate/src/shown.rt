// Trees as rows show them.

use gx_base::name::Name;
use gx_base::text::Text;
use gx_tree::attribute::Attribute;
use gx_tree::tree::{Tree, TreeNode};
use gx_typetext::print::print_type_name;
use std::alloc::{AllocError, Global};

// How deep trees are shown.
const DEPTH: usize = 250;

/// The tree: of each element its name as it is written, its type, and in parentheses its attributes, each behind `@`, and its children.
pub fn shown_tree(alloc: Global, tree: &Tree) -> Result<String, AllocError> {
    let mut shown = String::new(alloc);
    show(alloc, &mut shown, tree, DEPTH)?;
    String::from_str(alloc, shown.as_str().trim_start())
}

#[cycle(show)]
fn show(alloc: Global, shown: &mut String, tree: &Tree, depth: usize) -> Result<(), AllocError> {
    if depth == 0 {
        return Ok(());
    }
    match &tree.node {
        TreeNode::Document(children) => show_all(alloc, shown, children, depth - 1),
        TreeNode::Element {
            name,
            kind,
            attributes,
            children,
        } => {
            show_name(shown, name)?;
            shown.push(' ')?;
            shown.push_str(print_type_name(alloc, kind)?.as_str())?;
            shown.push('(')?;
            show_attributes(alloc, shown, attributes)?;
            show_all(alloc, shown, children, depth - 1)?;
            Ok(shown.push(')')?)
        }
        TreeNode::Attribute(attribute) => show_attribute(alloc, shown, attribute),
        TreeNode::Text(text) => show_text(alloc, shown, text),
    }
}

#[cycle(show)]
fn show_all(
    alloc: Global,
    shown: &mut String,
    trees: &[Tree],
    depth: usize,
) -> Result<(), AllocError> {
    for tree in trees {
        shown.push(' ')?;
        show(alloc, shown, tree, depth)?;
    }
    Ok(())
}

fn show_name(shown: &mut String, name: &Name) -> Result<(), AllocError> {
    if !name.prefix.is_empty() {
        shown.push_str(name.prefix.as_str())?;
        shown.push(':')?;
    }
    Ok(shown.push_str(name.local.as_str())?)
}

fn show_attributes(
    alloc: Global,
    shown: &mut String,
    attributes: &[Attribute],
) -> Result<(), AllocError> {
    for attribute in attributes {
        shown.push(' ')?;
        show_attribute(alloc, shown, attribute)?;
    }
    Ok(())
}

fn show_attribute(
    alloc: Global,
    shown: &mut String,
    attribute: &Attribute,
) -> Result<(), AllocError> {
    shown.push('@')?;
    show_name(shown, &attribute.name)?;
    shown.push(' ')?;
    shown.push_str(print_type_name(alloc, &attribute.kind)?.as_str())?;
    shown.push(' ')?;
    show_text(alloc, shown, &attribute.value)
}

fn show_text(alloc: Global, shown: &mut String, text: &Text) -> Result<(), AllocError> {
    let quoted = format!(in alloc; "{text:?}")?;
    Ok(shown.push_str(quoted.as_str())?)
}
