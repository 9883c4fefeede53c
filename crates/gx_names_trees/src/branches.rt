// Sort keys, and the branches of a typeswitch.

ghost use Rattle.std.specs.Prelude.{◌≡◌, ◌++◌, OnOk};
ghost use Rattle.gx_ast.specs.SyntaxTree.{typeswitch};
ghost use Rattle.gx_ast.specs.SyntaxView.{cases_of};
ghost use Rattle.gx_names_scope.specs.declared.tasks.Task.TheVariants as task;
ghost use Rattle.gx_names_scope.specs.Refused.{Proceeds};
ghost use Rattle.gx_names_trees.specs.Resolving.{refusals_of_rest, refusals_with, trees_behind, trees_of_rest, trees_with};
ghost use Rattle.gx_names_trees.specs.TreeRefusals.{form_refusals};
ghost use Rattle.gx_names_trees.specs.TreeResolution.{form_resolved};

use crate::binders::{case_construct, optional_name};
use crate::opening::{open_one, open_two};
use crate::resolving::Resolving;
use gx_ast::expression::{Case, Expr, Key};
use gx_ast::sequence_type::DefaultHead;
use gx_base::place::Place;
use gx_names_scope::refusal::NameRefusal;
use gx_names_scope::tasks::{Task, put_two};
use gx_resolved::tree::Construct;
use std::alloc::{AllocError, Global};

impl<'a, 's> Resolving<'a, 's> {
    // The first sort key, or none.
    pub(crate) fn open_keys(&mut self, alloc: Global, keys: &'a [Key]) -> Result<(), AllocError>
        ensures refusals { OnOk result (refusals_of_rest self.new ≡ refusals_with (task.Keys keys.entry) self.old) }
        ensures trees { OnOk result (trees_of_rest self.new ≡ trees_with (task.Keys keys.entry) self.old) }
    {
        let Some((first, others)) = keys.split_first() else {
            return Ok(());
        };
        self.tasks.push(Task::Keys(others))?;
        let place = first.value.place;
        let construct = Construct::Key(first.order);
        let tasks = &mut self.tasks;
        let inside = Task::Tree(&first.value);
        open_one(alloc, tasks, &mut self.unfinished, place, construct, inside)
    }

    #[tactic(auto, using(crate::proofs::ResolvingLemmas::branches_closed))]
    pub(crate) fn open_typeswitch(
        &mut self,
        alloc: Global,
        place: Place,
        operand: &'a Expr,
        cases: &'a [Case],
        head: &'a DefaultHead,
        otherwise: &'a Expr,
    ) -> Result<(), NameRefusal>
        ensures refusals { Proceeds result (form_refusals self.old.names place (typeswitch operand.now (cases_of cases.now) head.now otherwise.now) ++ refusals_of_rest self.old) (refusals_of_rest self.new) }
        ensures trees { OnOk result (trees_of_rest self.new ≡ trees_behind (form_resolved self.old.names place (typeswitch operand.now (cases_of cases.now) head.now otherwise.now)) self.old) }
    {
        let tasks = &mut self.tasks;
        let unfinished = &mut self.unfinished;
        let construct = Construct::Typeswitch;
        let first = Task::Cases(cases);
        let second = Task::Default(head, otherwise);
        open_two(alloc, tasks, unfinished, place, construct, first, second)?;
        Ok(self.tasks.push(Task::Tree(operand))?)
    }

    // The first case, or none.
    #[tactic(auto, using(gx_names_scope::proofs::RefusalLemmas::refused_before, gx_names_scope::proofs::ScopeLemmas::unbound_again))]
    pub(crate) fn open_cases(&mut self, alloc: Global, cases: &'a [Case]) -> Result<(), NameRefusal>
        ensures refusals { Proceeds result (refusals_with (task.Cases cases.entry) self.old) (refusals_of_rest self.new) }
        ensures trees { OnOk result (trees_of_rest self.new ≡ trees_with (task.Cases cases.entry) self.old) }
    {
        let Some((first, others)) = cases.split_first() else {
            return Ok(());
        };
        let head = &first.head;
        let behind = Task::UnbindOptional(&head.variable);
        put_two(&mut self.tasks, behind, Task::Cases(others))?;
        match case_construct(alloc, &self.names, head) {
            Ok(construct) => {
                let tasks = &mut self.tasks;
                let inside = Task::Tree(&first.body);
                let place = head.place;
                open_one(alloc, tasks, &mut self.unfinished, place, construct, inside)?;
                Ok(self.tasks.push(Task::BindOptional(&head.variable))?)
            }
            Err(refusal) => Err(refusal),
        }
    }

    #[tactic(auto, using(gx_names_scope::proofs::RefusalLemmas::refused_before, gx_names_scope::proofs::ScopeLemmas::unbound_again))]
    pub(crate) fn open_default(
        &mut self,
        alloc: Global,
        head: &'a DefaultHead,
        otherwise: &'a Expr,
    ) -> Result<(), NameRefusal>
        ensures refusals { Proceeds result (refusals_with (task.Default head.entry otherwise.entry) self.old) (refusals_of_rest self.new) }
        ensures trees { OnOk result (trees_of_rest self.new ≡ trees_with (task.Default head.entry otherwise.entry) self.old) }
    {
        self.tasks.push(Task::UnbindOptional(&head.variable))?;
        match optional_name(alloc, &self.names, &head.variable) {
            Ok(bound) => {
                let tasks = &mut self.tasks;
                let construct = Construct::Default(bound);
                let inside = Task::Tree(otherwise);
                let place = head.place;
                open_one(alloc, tasks, &mut self.unfinished, place, construct, inside)?;
                Ok(self.tasks.push(Task::BindOptional(&head.variable))?)
            }
            Err(refusal) => Err(refusal),
        }
    }
}
