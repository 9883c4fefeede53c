// Whole expressions.

ghost use Rattle.std.specs.Prelude.{◌≡◌, IfOk};
ghost use Rattle.gx_names_scope.specs.Refused.{Judges};
ghost use Rattle.gx_names_trees.specs.TreeRefusals.{tree_refusals};
ghost use Rattle.gx_names_trees.specs.TreeResolution.{tree_resolved};

use crate::resolving::Resolving;
use gx_ast::expression::Expr;
use gx_names_scope::names::Names;
use gx_names_scope::refusal::NameRefusal;
use gx_resolved::tree::ResolvedExpr;
use std::alloc::Global;

/// A tree with its names resolved, and what names stand for behind it.
pub fn resolve_tree<'s>(
    alloc: Global,
    names: Names<'s>,
    tree: &Expr,
) -> Result<(ResolvedExpr, Names<'s>), NameRefusal>
    ensures refusals { Judges result (tree_refusals names.entry tree.now) }
    ensures tree { IfOk result (λ r. r.0 ≡ tree_resolved names.entry tree.now) }
    ensures names { IfOk result (λ r. r.1 ≡ names.entry) }
{
    let mut resolving = Resolving::new(alloc, names, tree)?;
    // The tasks end long before the loop does.
    for _ in 0..u64::MAX {
        match resolving.tasks.pop() {
            None => return Ok(resolving.result()),
            Some(task) => {
                if let Err(refusal) = resolving.step(alloc, task) {
                    resolving.dismantle(alloc);
                    return Err(refusal);
                }
            }
        }
    }
    Err(NameRefusal::Memory)
}
