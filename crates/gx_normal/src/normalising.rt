// A normalisation in its midst: the tasks that are left, and the Core expressions that are there.

ghost use Rattle.std.specs.Prelude.{◌≡◌, [], ◌∷◌, IfOk, OnOk};
ghost use Rattle.gx_resolved.specs.ResolvedView.{resolved_parts};
ghost use Rattle.gx_normal.specs.Clauses.{ended};
ghost use Rattle.gx_normal.specs.Constructs.{context_item_at, step_at};
ghost use Rattle.gx_normal.specs.Normalisation.{constructed, core_of, cores_of, number_at, variable_at};
ghost use Rattle.gx_normal.specs.Normalising.{added, core_left, IsOnePart, left_behind, core_to_make, left_with};
ghost use Rattle.gx_normal.specs.declared.normalising.Task.TheVariants as tasks;

use crate::clauses::{Ending, bind_clause, clause, clause_part, flwor_ending, unbind_clause};
use crate::construct::{at, boolean_around, construct, context_item, empty, step};
use crate::constructors::is_kept_part;
use crate::contexts::ContextUse;
use crate::focus::Focus;
use crate::signatures::Signatures;
use gx_base::place::Place;
use gx_base::stack::Stack;
use gx_core::dismantle::dismantle;
use gx_core::expression::{CoreExpr, Form};
use gx_funcs::function::Function;
use gx_resolved::nested_map::NestedMap;
use gx_resolved::tree::{Construct, ResolvedExpr};
use gx_types::step::{Axis, Test};
use std::alloc::{AllocError, Global};

/// The numbers of the variables in scope, by the places of their binders.
pub(crate) type Numbers = NestedMap<Place, u32>;

// A task: to normalise a tree, or trees, or clauses, and what they end in, at the place of their expression; to bind the variables of a
// clause, whose part is there, in the clauses behind it; to take the innermost number away; to put the parts of a clause together, whose
// variables have the numbers from one on; to make the last part what clauses end in; to go from the left part of a path, which is there,
// to its descendants; to normalise the right part of a path, whose left part is there; to filter the last part by predicates, which count
// from the end where that is true; to filter the part before the last one by the last one, a condition whose context has the variables from
// a number on; to go back to the focus outside of it; to put the parts of a path together; to make a branch of a typeswitch of its
// part, whose variable has a number; or to put those of another construct together.
#[derive(Drop)]
pub(crate) enum Task<'a> {
    Normalise(&'a ResolvedExpr),
    Parts(&'a [ResolvedExpr]),
    Clauses(Ending, Place, &'a [ResolvedExpr]),
    Bind(Ending, Place, &'a Construct, &'a [ResolvedExpr]),
    Unbind,
    FinishClause(Ending, Place, &'a Construct, u32),
    End(Ending),
    Descend(Place),
    Enter(Place, &'a ResolvedExpr),
    Filter(bool, Place, &'a [ResolvedExpr]),
    FinishPredicate(ContextUse, Place, u32),
    Leave(Focus),
    FinishPath(ContextUse, Place, u32),
    FinishBranch(Place, &'a Construct, u32),
    Finish(Place, &'a Construct),
}

// `signatures` are those of the functions that the query declares; `made` has the parts that are there of each construct in the making, the innermost on top; `focus` has the numbers of the variables of
// the context; `free` is the first number that no variable has so far.
#[derive(Drop)]
pub(crate) struct Normalising<'a> {
    pub(crate) signatures: &'a Signatures,
    pub(crate) tasks: Stack<Task<'a>>,
    pub(crate) made: Stack<Stack<CoreExpr>>,
    pub(crate) numbers: Numbers,
    pub(crate) focus: Focus,
    pub(crate) free: u32,
}

impl<'a> Normalising<'a> {
    // The normalisation of a tree.
    pub(crate) fn new(
        alloc: Global,
        signatures: &'a Signatures,
        tree: &'a ResolvedExpr,
        numbers: Numbers,
        focus: Focus,
        free: u32,
    ) -> Result<Normalising<'a>, AllocError>
        ensures { IfOk result (λ n. core_to_make n
            ≡ record { made = ((core_of signatures.now tree.now numbers focus free).0 ∷ []) ∷ []; numbers = numbers; focus = focus; free = (core_of signatures.now tree.now numbers focus free).1 }) }
    {
        let mut tasks = Stack::new(alloc);
        tasks.push(Task::Normalise(tree))?;
        Ok(Normalising {
            signatures,
            tasks,
            made: Stack::new(alloc),
            numbers,
            focus,
            free,
        })
    }

    // The Core, where no task is left, with the numbers in scope and the one that is free.
    pub(crate) fn result(mut self) -> (CoreExpr, Numbers, u32)
        requires { IsOnePart self.made }
        ensures core { self.entry.made ≡ (result.0 ∷ []) ∷ [] }
        ensures numbers { result.1 ≡ self.entry.numbers }
        ensures free { result.2 ≡ self.entry.free }
    {
        let Some(mut parts) = self.made.pop() else {
            unreachable!()
        };
        match parts.pop() {
            Some(part) => (part, self.numbers, self.free),
            None => unreachable!(),
        }
    }

    // Does a task.
    pub(crate) fn step(&mut self, alloc: Global, task: Task<'a>) -> Result<(), AllocError>
        ensures { OnOk result (core_to_make self.new ≡ left_with task.entry self.old) }
    {
        match task {
            Task::Normalise(tree) => self.open(alloc, tree),
            Task::Parts(trees) => self.open_parts(trees),
            Task::Clauses(ending, place, parts) => self.open_clauses(alloc, ending, place, parts),
            Task::Bind(ending, place, clause, others) => self.bind(ending, place, clause, others),
            Task::Unbind => self.numbers.unbind(),
            Task::FinishClause(ending, place, clause, number) => {
                self.finish_clause(alloc, ending, place, clause, number)
            }
            Task::End(ending) => self.end(alloc, ending),
            Task::Descend(place) => self.descend(alloc, place),
            Task::Enter(place, second) => self.enter(alloc, place, second),
            Task::Leave(outer) => {
                self.focus = outer;
                Ok(())
            }
            Task::Filter(reverse, place, predicates) => {
                self.filter(alloc, reverse, place, predicates)
            }
            Task::FinishPredicate(context, place, number) => {
                self.finish_predicate(alloc, context, place, number)
            }
            Task::FinishPath(context, place, number) => {
                self.finish_path(alloc, context, place, number)
            }
            Task::FinishBranch(place, branch, number) => {
                self.finish_branch(alloc, place, branch, number)
            }
            Task::Finish(place, construct) => self.finish(alloc, place, construct),
        }
    }

    // Makes an expression the last part of the innermost construct.
    pub(crate) fn add(&mut self, alloc: Global, e: CoreExpr) -> Result<(), AllocError>
        ensures made { OnOk result (self.new.made ≡ added e self.old.made) }
        ensures tasks { self.new.tasks ≡ self.old.tasks }
        ensures numbers { self.new.numbers ≡ self.old.numbers }
        ensures focus { self.new.focus ≡ self.old.focus }
        ensures free { self.new.free ≡ self.old.free }
        ensures signatures { self.new.signatures.now ≡ self.old.signatures.now }
    {
        let mut parts = match self.made.pop() {
            Some(parts) => parts,
            None => Stack::new(alloc),
        };
        parts.push(e)?;
        self.made.push(parts)
    }

    fn open(&mut self, alloc: Global, tree: &'a ResolvedExpr) -> Result<(), AllocError>
        ensures { OnOk result (core_to_make self.new ≡ left_with (tasks.Normalise tree.entry) self.old) }
    {
        match &tree.construct {
            Construct::Variable(_, binder) => self.variable(alloc, tree.place, *binder),
            Construct::Context => self.context_variable(alloc, tree.place, self.focus.context.item),
            Construct::Call(Function::Position) => {
                self.context_variable(alloc, tree.place, self.focus.context.position)
            }
            Construct::Call(Function::Last) => {
                self.context_variable(alloc, tree.place, self.focus.context.size)
            }
            Construct::Step(axis, test) => self.step_from_context(alloc, tree.place, *axis, test),
            Construct::ParentStep => {
                self.step_from_context(alloc, tree.place, Axis::Parent, &Test::Node)
            }
            Construct::Flwor => {
                let parts = tree.parts.as_slice();
                let ending = flwor_ending(parts, self.focus.greatest);
                self.open_clauses(alloc, ending, tree.place, parts)
            }
            Construct::Quantified(every) => {
                let parts = tree.parts.as_slice();
                self.open_clauses(alloc, Ending::Condition(*every), tree.place, parts)
            }
            Construct::Path(descendants) => {
                self.open_path(alloc, *descendants, tree.place, tree.parts.as_slice())
            }
            Construct::Filtered => self.open_filtered(alloc, tree.place, tree.parts.as_slice()),
            Construct::Case(_, _) | Construct::Default(_) => {
                self.open_branch(alloc, tree.place, &tree.construct, tree.parts.as_slice())
            }
            construct => self.open_construct(alloc, tree.place, construct, tree.parts.as_slice()),
        }
    }

    fn variable(&mut self, alloc: Global, place: Place, binder: Place) -> Result<(), AllocError>
        ensures { OnOk result (core_to_make self.new ≡ left_behind (variable_at place (number_at self.old.numbers binder)) self.old) }
    {
        let e = match self.numbers.find(&binder) {
            Some(number) => at(place, Form::Var(*number)),
            None => empty(place),
        };
        self.add(alloc, e)
    }

    // The item of the context, the position of the item, or the size of the context, by the number of its variable.
    fn context_variable(
        &mut self,
        alloc: Global,
        place: Place,
        number: Option<u32>,
    ) -> Result<(), AllocError>
        ensures { OnOk result (core_to_make self.new ≡ left_behind (context_item_at place number) self.old) }
    {
        self.add(alloc, context_item(place, number))
    }

    // A step from the item of the context.
    fn step_from_context(
        &mut self,
        alloc: Global,
        place: Place,
        axis: Axis,
        test: &Test,
    ) -> Result<(), AllocError>
        ensures { OnOk result (core_to_make self.new ≡ left_behind (step_at place self.old.focus.context.item axis test.now) self.old) }
    {
        let step = step(place, self.focus.context.item, axis, test)?;
        self.add(alloc, step)
    }

    // Any construct that binds nothing.
    #[tactic(auto, using(crate::proofs::MakingLemmas::all_finished))]
    fn open_construct(
        &mut self,
        alloc: Global,
        place: Place,
        construct: &'a Construct,
        parts: &'a [ResolvedExpr],
    ) -> Result<(), AllocError>
        ensures { OnOk result (core_to_make self.new ≡ (let cores = cores_of self.old.signatures.now (resolved_parts parts.now) self.old.numbers self.old.focus self.old.free in
            core_left self.old.signatures.now self.old.tasks (added (constructed self.old.signatures.now place construct.now cores.0) self.old.made) self.old.numbers self.old.focus cores.1)) }
    {
        self.made.push(Stack::new(alloc))?;
        self.tasks.push(Task::Finish(place, construct))?;
        self.tasks.push(Task::Parts(parts))
    }

    #[tactic(auto, using(crate::proofs::MakingLemmas::kept_in_front, crate::proofs::MakingLemmas::left_out))]
    fn open_parts(&mut self, trees: &'a [ResolvedExpr]) -> Result<(), AllocError>
        ensures { OnOk result (core_to_make self.new ≡ left_with (tasks.Parts trees.entry) self.old) }
    {
        let Some((first, others)) = trees.split_first() else {
            return Ok(());
        };
        self.tasks.push(Task::Parts(others))?;
        if !is_kept_part(self.focus, first) {
            return Ok(());
        }
        self.tasks.push(Task::Normalise(first))
    }

    // The first clause, or what the clauses end in.
    fn open_clauses(
        &mut self,
        alloc: Global,
        ending: Ending,
        place: Place,
        parts: &'a [ResolvedExpr],
    ) -> Result<(), AllocError>
        ensures { OnOk result (core_to_make self.new ≡ left_with (tasks.Clauses ending place parts.entry) self.old) }
    {
        let Some((first, others)) = parts.split_first() else {
            return self.add(alloc, empty(place));
        };
        let Some(part) = clause_part(first) else {
            self.tasks.push(Task::End(ending))?;
            return self.tasks.push(Task::Normalise(first));
        };
        self.made.push(Stack::new(alloc))?;
        self.tasks
            .push(Task::Bind(ending, place, &first.construct, others))?;
        self.tasks.push(Task::Normalise(part))
    }

    // Gives the variables of a clause the free numbers, and puts the rest to the tasks.
    fn bind(
        &mut self,
        ending: Ending,
        place: Place,
        clause: &'a Construct,
        others: &'a [ResolvedExpr],
    ) -> Result<(), AllocError>
        ensures { OnOk result (core_to_make self.new ≡ left_with (tasks.Bind ending place clause.entry others.entry) self.old) }
    {
        let number = self.free;
        self.free = bind_clause(&mut self.numbers, clause, number)?;
        self.tasks
            .push(Task::FinishClause(ending, place, clause, number))?;
        unbind_clause(&mut self.tasks, clause)?;
        self.tasks.push(Task::Clauses(ending, place, others))
    }

    fn finish_clause(
        &mut self,
        alloc: Global,
        ending: Ending,
        place: Place,
        of: &Construct,
        number: u32,
    ) -> Result<(), AllocError>
        ensures { OnOk result (core_to_make self.new ≡ left_with (tasks.FinishClause ending place of.entry number) self.old) }
    {
        let Some(mut parts) = self.made.pop() else {
            return Ok(());
        };
        let Some(rest) = parts.pop() else {
            return self.lose(alloc);
        };
        let Some(part) = parts.pop() else {
            return self.lose(alloc);
        };
        let part = Box::new(alloc, part)?;
        let rest = Box::new(alloc, rest)?;
        let e = clause(alloc, ending, place, of, number, part, rest)?;
        self.add(alloc, e)
    }

    // Makes the last part what clauses end in.
    fn end(&mut self, alloc: Global, ending: Ending) -> Result<(), AllocError>
        ensures { OnOk result (core_to_make self.new ≡ left_with (tasks.End ending) self.old) }
    {
        let Some(mut parts) = self.made.pop() else {
            return Ok(());
        };
        let Some(last) = parts.pop() else {
            return self.lose(alloc);
        };
        parts.push(ended(alloc, ending, last)?)?;
        self.made.push(parts)
    }

    // Forgets what is there, where a part is missing.
    pub(crate) fn lose(&mut self, alloc: Global) -> Result<(), AllocError>
        ensures made { self.new.made ≡ [] }
        ensures tasks { self.new.tasks ≡ self.old.tasks }
        ensures numbers { self.new.numbers ≡ self.old.numbers }
        ensures focus { self.new.focus ≡ self.old.focus }
        ensures free { self.new.free ≡ self.old.free }
        ensures signatures { self.new.signatures.now ≡ self.old.signatures.now }
    {
        self.made = Stack::new(alloc);
        Ok(())
    }

    #[tactic(auto, using(crate::proofs::MakingLemmas::behind_twice))]
    fn finish(&mut self, alloc: Global, place: Place, of: &Construct) -> Result<(), AllocError>
        ensures { OnOk result (core_to_make self.new ≡ left_with (tasks.Finish place of.entry) self.old) }
    {
        let Some(parts) = self.made.pop() else {
            return Ok(());
        };
        let e = construct(alloc, self.signatures, place, of, parts.into_items())?;
        self.add(alloc, e)
    }

    // Drops what there is, each tree by a loop.
    pub(crate) fn dismantle(self, alloc: Global) {
        for parts in self.made.into_items() {
            for part in parts.into_items() {
                dismantle(alloc, part);
            }
        }
    }
}

// What clauses end in.
fn ended(alloc: Global, ending: Ending, last: CoreExpr) -> Result<CoreExpr, AllocError>
    ensures { IfOk result (λ e. e ≡ ended ending last) }
{
    match ending {
        Ending::Returned => Ok(last),
        Ending::Condition(_) => {
            let last = Box::new(alloc, last)?;
            Ok(Box::into_inner(boolean_around(alloc, last)?))
        }
        Ending::Sorted(_) => {
            let place = last.outer;
            let returned = Box::new(alloc, last)?;
            let form = Form::Block(Vec::new(alloc), Vec::new(alloc), returned);
            Ok(at(place, form))
        }
    }
}
