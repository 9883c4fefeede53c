// Depths of trees.

ghost use Rattle.std.specs.Prelude.{◌≡◌, suc, ◌+◌, ◌*◌, ◌<◌, ◌∷◌, IfOk, OnOk, true, not, nat_lt, ◌||◌};
ghost use Rattle.gx_tree.specs.PlainTree.{tree_size, trees_of, trees_size};
ghost use Rattle.gx_core.specs.Constructing.{depth_of_tree, depth_of_trees};
ghost use Rattle.gx_build.specs.Depths.{are_too_deep, levels_left};

use gx_base::stack::Stack;
use gx_tree::tree::{Tree, TreeNode};
use std::alloc::{AllocError, Global};

// Trees that stand side by side and are left, and how deep they may be.
#[derive(Drop)]
pub(crate) struct Level<'a> {
    trees: &'a [Tree],
    limit: u32,
}

// Whether a tree is deeper than a limit.
pub(crate) fn is_deeper(alloc: Global, tree: &Tree, limit: u32) -> Result<bool, AllocError>
    ensures { IfOk result (λ deep. deep ≡ nat_lt limit (depth_of_tree tree.now)) }
{
    let mut levels = Stack::new(alloc);
    if !enter(&mut levels, tree, limit)? {
        return Ok(true);
    }
    while let Some(level) = levels.pop() {
        if !go_on(&mut levels, level)? {
            return Ok(true);
        }
    }
    Ok(false)
}

// Enters the next tree of a level; false where it is too deep.
fn go_on<'a>(levels: &mut Stack<Level<'a>>, level: Level<'a>) -> Result<bool, AllocError>
    ensures depth { IfOk result (λ within. (not within || are_too_deep levels.new) ≡ are_too_deep (level.entry ∷ levels.old)) }
    ensures less { OnOk result (levels_left levels.new < levels_left (level.entry ∷ levels.old)) }
{
    let Some((tree, trees)) = level.trees.split_first() else {
        return Ok(true);
    };
    let limit = level.limit;
    levels.push(Level { trees, limit })?;
    enter(levels, tree, limit)
}

// Puts down what stands in a tree as a level; false where the tree is too deep by itself or by its attributes.
fn enter<'a>(levels: &mut Stack<Level<'a>>, tree: &'a Tree, limit: u32) -> Result<bool, AllocError>
    ensures depth { IfOk result (λ within. (not within || are_too_deep levels.new) ≡ (nat_lt limit (depth_of_tree tree.now) || are_too_deep levels.old)) }
    ensures less { OnOk result (levels_left levels.new < levels_left levels.old + 2 * tree_size tree.now) }
{
    if limit == 0 {
        return Ok(false);
    }
    let limit = limit - 1;
    match &tree.node {
        TreeNode::Document(children) => push_level(levels, children, limit),
        TreeNode::Element {
            name: _,
            kind: _,
            attributes,
            children,
        } => {
            if limit == 0 && !attributes.is_empty() {
                return Ok(false);
            }
            push_level(levels, children, limit)
        }
        TreeNode::Attribute(_) | TreeNode::Text(_) => Ok(true),
    }
}

fn push_level<'a>(
    levels: &mut Stack<Level<'a>>,
    trees: &'a Vec<Tree>,
    limit: u32,
) -> Result<bool, AllocError>
    ensures entered { IfOk result (λ within. within ≡ true) }
    ensures depth { OnOk result (are_too_deep levels.new ≡ (nat_lt limit (depth_of_trees (trees_of trees.now.items)) || are_too_deep levels.old)) }
    ensures less { OnOk result (levels_left levels.new ≡ suc (2 * trees_size (trees_of trees.now.items) + levels_left levels.old)) }
{
    levels.push(Level {
        trees: trees.as_slice(),
        limit,
    })?;
    Ok(true)
}
