// Trees as text.
ghost use Rattle.std.specs.Prelude.{◌≡◌, ◌++◌, OnOk};
ghost use Rattle.gx_tree.specs.PlainTree.{trees_of};
ghost use Rattle.gx_serial.specs.Markup.{tagged, spelled_markup, spelled_content, spelled_end, all_spelled};
ghost use Rattle.gx_serial.specs.Marked.{marked, all_marked, scope_within, tag_of};

use crate::escape::{push_ascii, push_text};
use crate::tag::{push_name, push_start};
use gx_base::name::Name;
use gx_base::text::Text;
use gx_base::text_builder::TextBuilder;
use gx_namespaces::bindings::Bindings;
use gx_tree::attribute::Attribute;
use gx_tree::tree::{Tree, TreeNode};
use std::alloc::{AllocError, Global};

// Adds the text of a tree, under the bindings in force.
#[cycle(push_tree)]
pub(crate) fn push_tree<'a>(
    alloc: Global,
    out: &mut TextBuilder,
    scope: &mut Bindings,
    tree: &'a Tree,
) -> Result<(), AllocError>
    ensures text { OnOk result (out.new ≡ out.old ++ spelled_markup (marked scope.old tree.now)) }
    ensures scope { OnOk result (scope.new ≡ scope.old) }
{
    match &tree.node {
        TreeNode::Document(children) => push_trees(alloc, out, scope, children),
        TreeNode::Element {
            name,
            kind: _,
            attributes,
            children,
        } => push_element(alloc, out, scope, name, attributes, children),
        TreeNode::Attribute(_) => Ok(()),
        TreeNode::Text(text) => push_text(out, text),
    }
}

#[cycle(push_tree)]
fn push_element<'a>(
    alloc: Global,
    out: &mut TextBuilder,
    scope: &mut Bindings,
    name: &'a Name,
    attributes: &'a Vec<Attribute>,
    children: &'a Vec<Tree>,
) -> Result<(), AllocError>
    ensures text { OnOk result (out.new ≡ out.old
        ++ spelled_markup (tagged (tag_of scope.old name.now attributes.now.items)
        (all_marked (scope_within scope.old name.now attributes.now.items) (trees_of children.now.items)))) }
    ensures scope { OnOk result (scope.new ≡ scope.old) }
{
    let outer = scope.len();
    push_start(alloc, out, scope, name, attributes.as_slice())?;
    push_content(alloc, out, scope, name, children)?;
    scope.truncate(outer);
    Ok(())
}

// Adds what follows a start tag.
#[cycle(push_tree)]
fn push_content<'a>(
    alloc: Global,
    out: &mut TextBuilder,
    scope: &mut Bindings,
    name: &'a Name,
    children: &'a Vec<Tree>,
) -> Result<(), AllocError>
    ensures text { OnOk result (out.new ≡ out.old
        ++ spelled_content name.now.prefix name.now.local (all_marked scope.old (trees_of children.now.items))) }
    ensures scope { OnOk result (scope.new ≡ scope.old) }
{
    if children.is_empty() {
        return push_ascii(out, "/>");
    }
    out.push('>')?;
    push_trees(alloc, out, scope, children)?;
    push_end(out, name)?;
    Ok(())
}

fn push_end(out: &mut TextBuilder, name: &Name) -> Result<(), AllocError>
    ensures { OnOk result (out.new ≡ out.old ++ spelled_end name.now.prefix name.now.local) }
{
    push_ascii(out, "</")?;
    push_name(out, &name.prefix, &name.local)?;
    out.push('>')
}

#[cycle(push_tree)]
fn push_trees<'a>(
    alloc: Global,
    out: &mut TextBuilder,
    scope: &mut Bindings,
    trees: &'a Vec<Tree>,
) -> Result<(), AllocError>
    ensures text { OnOk result (out.new
        ≡ out.old ++ all_spelled (all_marked scope.old (trees_of trees.now.items))) }
    ensures scope { OnOk result (scope.new ≡ scope.old) }
{
    for tree in trees {
        push_tree(alloc, out, scope, tree)?;
    }
    Ok(())
}
