// The tasks of paths and of predicates, which give contexts to their parts.

ghost use Rattle.gx_normal.specs.declared.signatures.Signatures.{Signatures};
ghost use Rattle.std.specs.Prelude.{◌≡◌, ◌≢◌, ℕ, List, [], ◌∷◌, length, IfSome, IsNone, OnOk};
ghost use Rattle.gx_resolved.specs.ResolvedView.{resolved_parts};
ghost use Rattle.gx_core.specs.Expression.{CoreExpression};
ghost use Rattle.gx_normal.specs.Clauses.{Numbers as PlainNumbers};
ghost use Rattle.gx_normal.specs.Contexts.{behind_context, focus_with};
ghost use Rattle.gx_normal.specs.Normalisation.{core_of, left_of_path, path_core, predicates_core};
ghost use Rattle.gx_normal.specs.Normalising.{added, core_left, core_to_make, left_with, condition_left, Made};
ghost use Rattle.gx_normal.specs.declared.focus.Focus.{Focus as PlainFocus};
ghost use Rattle.gx_normal.specs.declared.normalising.Task.TheVariants as tasks;

use crate::construct::empty;
use crate::contexts::{
    Asked, ContextUse, asks_context, behind, behind_context, path, path_use, predicate_use,
    with_descendants,
};
use crate::filters::{Predicate, filter, is_reverse_step, last, numbered, predicate_of};
use crate::normalising::{Normalising, Task};
use gx_base::place::Place;
use gx_base::stack::Stack;
use gx_resolved::tree::ResolvedExpr;
use std::alloc::{AllocError, Global};

impl<'a> Normalising<'a> {
    // The left part of a path, and then the right one.
    pub(crate) fn open_path(
        &mut self,
        alloc: Global,
        descendants: bool,
        place: Place,
        parts: &'a [ResolvedExpr],
    ) -> Result<(), AllocError>
        ensures { OnOk result (core_to_make self.new ≡ (let path = path_core self.old.signatures.now descendants place (resolved_parts parts.now) self.old.numbers self.old.focus self.old.free in
            core_left self.old.signatures.now self.old.tasks (added path.0 self.old.made) self.old.numbers self.old.focus path.1)) }
    {
        let Some((first, second)) = two_parts(parts) else {
            return self.add(alloc, empty(place));
        };
        self.made.push(Stack::new(alloc))?;
        self.tasks.push(Task::Enter(place, second))?;
        put_descent(&mut self.tasks, descendants, place)?;
        self.tasks.push(Task::Normalise(first))
    }

    // Makes the last part a path from it to its descendants, through a variable with the free number.
    pub(crate) fn descend(&mut self, alloc: Global, place: Place) -> Result<(), AllocError>
        ensures { OnOk result (core_to_make self.new ≡ left_with (tasks.Descend place) self.old) }
    {
        let number = self.free;
        let Some(next) = number.checked_add(1) else {
            return Err(AllocError);
        };
        self.free = next;
        let Some(mut parts) = self.made.pop() else {
            return Ok(());
        };
        let Some(left) = parts.pop() else {
            return self.lose(alloc);
        };
        parts.push(with_descendants(alloc, place, number, left)?)?;
        self.made.push(parts)
    }

    // The variables of the context of the right part are numbered from the free number on.
    pub(crate) fn enter(
        &mut self,
        alloc: Global,
        place: Place,
        second: &'a ResolvedExpr,
    ) -> Result<(), AllocError>
        ensures { OnOk result (core_to_make self.new ≡ left_with (tasks.Enter place second.entry) self.old) }
    {
        let number = self.free;
        let position = asks_context(alloc, Asked::Position, second)?;
        let context = path_use(position, asks_context(alloc, Asked::Last, second)?);
        self.tasks.push(Task::FinishPath(context, place, number))?;
        self.enter_context(context, second)
    }

    // Normalises an expression in a context whose variables are numbered from the free number on.
    fn enter_context(
        &mut self,
        context: ContextUse,
        inner: &'a ResolvedExpr,
    ) -> Result<(), AllocError>
        ensures { OnOk result (core_to_make self.new ≡ (let e = core_of self.old.signatures.now inner.now self.old.numbers (focus_with self.old.focus context self.old.free) (behind_context context self.old.free) in
            core_left self.old.signatures.now self.old.tasks (added e.0 self.old.made) self.old.numbers self.old.focus e.1)) }
    {
        let focus = self.focus.with_context(context, self.free)?;
        let free = behind_context(context, self.free)?;
        self.tasks.push(Task::Leave(self.focus))?;
        self.tasks.push(Task::Normalise(inner))?;
        self.focus = focus;
        self.free = free;
        Ok(())
    }

    pub(crate) fn finish_path(
        &mut self,
        alloc: Global,
        context: ContextUse,
        place: Place,
        number: u32,
    ) -> Result<(), AllocError>
        ensures { OnOk result (core_to_make self.new ≡ left_with (tasks.FinishPath context place number) self.old) }
    {
        let Some(mut parts) = self.made.pop() else {
            return Ok(());
        };
        let Some(second) = parts.pop() else {
            return self.lose(alloc);
        };
        let Some(first) = parts.pop() else {
            return self.lose(alloc);
        };
        let second = Box::new(alloc, second)?;
        let first = Box::new(alloc, first)?;
        let path = path(alloc, context, place, number, first, second)?;
        self.add(alloc, path)
    }

    // An expression, and then its predicates.
    pub(crate) fn open_filtered(
        &mut self,
        alloc: Global,
        place: Place,
        parts: &'a [ResolvedExpr],
    ) -> Result<(), AllocError>
        ensures { OnOk result (core_to_make self.new ≡ (let e = predicates_core self.old.signatures.now place (resolved_parts parts.now) self.old.numbers self.old.focus self.old.free in
            core_left self.old.signatures.now self.old.tasks (added e.0 self.old.made) self.old.numbers self.old.focus e.1)) }
    {
        let Some((operand, predicates)) = parts.split_first() else {
            return self.add(alloc, empty(place));
        };
        self.tasks
            .push(Task::Filter(is_reverse_step(operand), place, predicates))?;
        self.tasks.push(Task::Normalise(operand))
    }

    // Filters the last part by the first predicate, and leaves the others to the tasks.
    pub(crate) fn filter(
        &mut self,
        alloc: Global,
        reverse: bool,
        place: Place,
        predicates: &'a [ResolvedExpr],
    ) -> Result<(), AllocError>
        ensures { OnOk result (core_to_make self.new ≡ left_with (tasks.Filter reverse place predicates.entry) self.old) }
    {
        let Some(mut parts) = self.made.pop() else {
            return Ok(());
        };
        let Some(e) = parts.pop() else {
            return self.lose(alloc);
        };
        let Some((first, others)) = predicates.split_first() else {
            parts.push(e)?;
            return self.made.push(parts);
        };
        self.tasks.push(Task::Filter(reverse, place, others))?;
        match predicate_of(first)? {
            Predicate::Numbered(number) => {
                parts.push(numbered(alloc, place, number, reverse, e)?)?;
                self.made.push(parts)
            }
            Predicate::Last => {
                parts.push(last(alloc, place, reverse, e)?)?;
                self.made.push(parts)
            }
            Predicate::Condition => {
                parts.push(e)?;
                self.made.push(parts)?;
                self.enter_predicate(alloc, reverse, place, first)
            }
        }
    }

    // The variables of the context of a condition are numbered from the free number on.
    fn enter_predicate(
        &mut self,
        alloc: Global,
        reverse: bool,
        place: Place,
        condition: &'a ResolvedExpr,
    ) -> Result<(), AllocError>
        ensures { OnOk result (core_to_make self.new ≡ condition_left reverse place condition.now self.old) }
    {
        let number = self.free;
        let context = predicate_use(reverse, asks_context(alloc, Asked::Last, condition)?);
        self.tasks
            .push(Task::FinishPredicate(context, place, number))?;
        self.enter_context(context, condition)
    }

    // The variables of the cases have the free numbers.
    pub(crate) fn finish_predicate(
        &mut self,
        alloc: Global,
        context: ContextUse,
        place: Place,
        number: u32,
    ) -> Result<(), AllocError>
        ensures { OnOk result (core_to_make self.new ≡ left_with (tasks.FinishPredicate context place number) self.old) }
    {
        let Some(mut parts) = self.made.pop() else {
            return Ok(());
        };
        let Some(condition) = parts.pop() else {
            return self.lose(alloc);
        };
        let Some(e) = parts.pop() else {
            return self.lose(alloc);
        };
        let free = self.free;
        let condition = Box::new(alloc, condition)?;
        let e = Box::new(alloc, e)?;
        parts.push(filter(alloc, context, place, number, free, e, condition)?)?;
        self.made.push(parts)?;
        self.free = behind(free, 2)?;
        Ok(())
    }
}

// Puts down that a path goes from its left part, which is made next, to the descendants, where it does.
fn put_descent(
    tasks: &mut Stack<Task<'_>>,
    descendants: bool,
    place: Place,
) -> Result<(), AllocError>
    ensures { (signatures : Signatures) (left : CoreExpression) (parts : List CoreExpression) (outer : Made) (numbers : PlainNumbers) (focus : PlainFocus) (free : ℕ)
        → OnOk result (core_left signatures tasks.new ((left ∷ parts) ∷ outer) numbers focus free
        ≡ (let descended = left_of_path descendants place (left, free) in core_left signatures tasks.old ((descended.0 ∷ parts) ∷ outer) numbers focus descended.1)) }
{
    if descendants {
        tasks.push(Task::Descend(place))
    } else {
        Ok(())
    }
}

// The two parts, if there are two.
fn two_parts(parts: &[ResolvedExpr]) -> Option<(&ResolvedExpr, &ResolvedExpr)>
    ensures some { IfSome result (λ r. parts.now ≡ r.0.now ∷ r.1.now ∷ []) }
    ensures none { IsNone result → length parts.now ≢ 2 }
{
    match parts {
        [first, second] => Some((first, second)),
        _ => None,
    }
}
