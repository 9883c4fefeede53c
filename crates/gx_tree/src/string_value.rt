// String values.
ghost use Rattle.std.specs.Prelude.{◌≡◌, ◌++◌, IfOk, OnOk};
ghost use Rattle.gx_tree.specs.PlainTree.{trees_of};
ghost use Rattle.gx_tree.specs.StringValue.{string_value, string_values};

use crate::tree::{Tree, TreeNode};
use gx_base::text::Text;
use gx_base::text_builder::TextBuilder;
use std::alloc::{AllocError, Global};

/// The string value: the texts that the node holds, in document order, one after another, or the value of an
/// attribute (XQuery 1.0 and XPath 2.0 Data Model, section 6).
pub fn string_value(alloc: Global, tree: &Tree) -> Result<Text, AllocError>
    ensures { IfOk result (λ value. value ≡ string_value tree.now) }
{
    let mut value = TextBuilder::new(alloc);
    push_texts(&mut value, tree)?;
    value.finish()
}

#[cycle(push_texts)]
fn push_texts(value: &mut TextBuilder, tree: &Tree) -> Result<(), AllocError>
    ensures { OnOk result (value.new ≡ value.old ++ string_value tree.now) }
{
    match &tree.node {
        TreeNode::Document(children) => push_all(value, children),
        TreeNode::Element {
            name: _,
            kind: _,
            attributes: _,
            children,
        } => push_all(value, children),
        TreeNode::Attribute(attribute) => value.push_text(&attribute.value),
        TreeNode::Text(text) => value.push_text(text),
    }
}

#[cycle(push_texts)]
fn push_all(value: &mut TextBuilder, trees: &Vec<Tree>) -> Result<(), AllocError>
    ensures { OnOk result (value.new ≡ value.old ++ string_values (trees_of trees.now.items)) }
{
    for tree in trees {
        push_texts(value, tree)?;
    }
    Ok(())
}
