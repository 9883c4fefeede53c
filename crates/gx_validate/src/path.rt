// Paths to elements that break a rule.

ghost use Rattle.std.specs.Prelude.{◌≡◌, ◌++◌, IfOk, OnOk, Result};
ghost use Rattle.gx_qnames.specs.Words.{written_name};
ghost use Rattle.gx_tree.specs.PlainTree.{PlainTree};
ghost use Rattle.gx_validate.specs.Outcome.{Fault, IsInvalid, is_element_named, number_among_siblings, path_step, within_step};

use crate::invalid::Invalid;
use gx_base::name::Name;
use gx_base::text::Text;
use gx_base::text_builder::TextBuilder;
use gx_tree::tree::{Tree, TreeNode};
use std::alloc::{AllocError, Global};

fn is_element_named(tree: &Tree, name: &Name) -> bool
    ensures { result ≡ is_element_named name.now tree.now }
{
    match &tree.node {
        TreeNode::Element { name: own, .. } => name == own,
        TreeNode::Document(_) | TreeNode::Attribute(_) | TreeNode::Text(_) => false,
    }
}

/// The number of an element behind siblings of these trees, among those of its name.
pub fn number_among_siblings(done: &Vec<Tree>, name: &Name) -> usize
    ensures { result ≡ number_among_siblings done.now.items name.now }
{
    let mut number = 1;
    for tree in done {
        if is_element_named(tree, name) {
            number += 1;
        }
    }
    number
}

// Adds a name with its prefix.
#[tactic(auto, using(std::proofs::Common::append_assoc))]
fn add_name(path: &mut TextBuilder, name: &Name) -> Result<(), AllocError>
    ensures { OnOk result (path.new ≡ path.old ++ written_name name.now) }
{
    if name.prefix.is_empty() {
        return path.push_text(&name.local);
    }
    path.push_text(&name.prefix)?;
    path.push(':')?;
    path.push_text(&name.local)
}

// The path with a step in front.
#[tactic(auto, using(std::proofs::Common::append_assoc))]
fn path_behind(alloc: Global, name: &Name, number: usize, path: &Text) -> Result<Text, AllocError>
    ensures { IfOk result (λ whole. whole ≡ path_step name.now number ++ path.now) }
{
    let digits = format!(in alloc; "{number}")?;
    let mut whole = TextBuilder::new(alloc);
    whole.push('/')?;
    add_name(&mut whole, name)?;
    whole.push('[')?;
    whole.push_str(digits.as_str())?;
    whole.push(']')?;
    whole.push_text(path)?;
    whole.finish()
}

/// What is at fault within the element of a step.
pub fn within_step(alloc: Global, name: &Name, number: usize, invalid: Invalid) -> Invalid
    ensures { (outcome : Result PlainTree Fault) → IsInvalid invalid outcome → IsInvalid result (within_step (path_step name.now number) outcome) }
{
    match invalid {
        Invalid::Refused { rule, path } => match path_behind(alloc, name, number, &path) {
            Ok(path) => Invalid::Refused { rule, path },
            Err(AllocError) => Invalid::Memory,
        },
        Invalid::Memory => Invalid::Memory,
    }
}
