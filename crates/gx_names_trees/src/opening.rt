// Trees in the making, the innermost on top: a finished tree becomes the last part of the tree around it.

ghost use Rattle.std.specs.Prelude.{◌≡◌, ◌∷◌, OnOk, IfOk};
ghost use Rattle.gx_names_scope.specs.declared.tasks.Task.TheVariants as task;
ghost use Rattle.gx_resolved.specs.ResolvedTree.{no_resolved, resolved_at};
ghost use Rattle.gx_names_trees.specs.Resolving.{adopted, closed, with_part};

use gx_base::place::Place;
use gx_base::stack::Stack;
use gx_names_scope::tasks::{Task, put_two};
use gx_resolved::tree::{Construct, ResolvedExpr};
use std::alloc::{AllocError, Global};

// Makes a finished tree the last part of the innermost open one.
fn adopt(unfinished: &mut Stack<ResolvedExpr>, tree: ResolvedExpr) -> Result<(), AllocError>
    ensures { OnOk result (unfinished.new ≡ adopted tree unfinished.old) }
{
    match unfinished.pop() {
        None => unfinished.push(tree),
        Some(around) => {
            let around = with_part(around, tree)?;
            unfinished.push(around)
        }
    }
}

// A tree with one more part.
#[tactic(auto, using(crate::proofs::ResolvingLemmas::parts_with_one_more))]
fn with_part(around: ResolvedExpr, tree: ResolvedExpr) -> Result<ResolvedExpr, AllocError>
    ensures { IfOk result (λ e. e ≡ with_part around tree) }
{
    let mut around = around;
    around.parts.push(tree)?;
    Ok(around)
}

/// Closes the innermost open tree.
pub(crate) fn close(unfinished: &mut Stack<ResolvedExpr>) -> Result<(), AllocError>
    ensures { OnOk result (unfinished.new ≡ closed unfinished.old) }
{
    match unfinished.pop() {
        None => Ok(()),
        Some(tree) => adopt(unfinished, tree),
    }
}

// A tree that has no parts.
fn without_parts(alloc: Global, place: Place, construct: Construct) -> ResolvedExpr
    ensures { result ≡ resolved_at place construct no_resolved }
{
    ResolvedExpr {
        place,
        construct,
        parts: Vec::new(alloc),
    }
}

/// A finished tree without parts.
pub(crate) fn leaf(
    alloc: Global,
    unfinished: &mut Stack<ResolvedExpr>,
    place: Place,
    construct: Construct,
) -> Result<(), AllocError>
    ensures { OnOk result (unfinished.new ≡ adopted (resolved_at place construct no_resolved) unfinished.old) }
{
    adopt(unfinished, without_parts(alloc, place, construct))
}

/// Opens a tree, with a task inside it.
pub(crate) fn open_one<'a>(
    alloc: Global,
    tasks: &mut Stack<Task<'a>>,
    unfinished: &mut Stack<ResolvedExpr>,
    place: Place,
    construct: Construct,
    inside: Task<'a>,
) -> Result<(), AllocError>
    ensures tasks { OnOk result (tasks.new ≡ inside.entry ∷ task.Close ∷ tasks.old) }
    ensures unfinished { OnOk result (unfinished.new ≡ resolved_at place construct no_resolved ∷ unfinished.old) }
{
    unfinished.push(without_parts(alloc, place, construct))?;
    put_two(tasks, inside, Task::Close)
}

/// Opens a tree, with two tasks inside it.
pub(crate) fn open_two<'a>(
    alloc: Global,
    tasks: &mut Stack<Task<'a>>,
    unfinished: &mut Stack<ResolvedExpr>,
    place: Place,
    construct: Construct,
    first: Task<'a>,
    second: Task<'a>,
) -> Result<(), AllocError>
    ensures tasks { OnOk result (tasks.new ≡ first.entry ∷ second.entry ∷ task.Close ∷ tasks.old) }
    ensures unfinished { OnOk result (unfinished.new ≡ resolved_at place construct no_resolved ∷ unfinished.old) }
{
    open_one(alloc, tasks, unfinished, place, construct, second)?;
    tasks.push(first)
}
