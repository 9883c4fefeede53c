// A resolution in its midst: the tasks that are left, and the trees in the making.

ghost use Rattle.std.specs.Prelude.{◌≡◌, ◌≢◌, [], ◌∷◌, ◌++◌, OnOk, IfOk, Some, unwrap_or};
ghost use Rattle.gx_base.specs.declared.code.Code.TheVariants as codes;
ghost use Rattle.gx_names_scope.specs.Environment.{binder_of};
ghost use Rattle.gx_names_scope.specs.Refusing.{unless_found};
ghost use Rattle.gx_ast.specs.SyntaxTree.{cast_as, castable_as, conditional, filtered, instance_of, treat_as};
ghost use Rattle.gx_ast.specs.SyntaxView.{keys_of, trees_of};
ghost use Rattle.gx_names_scope.specs.declared.tasks.Task.TheVariants as task;
ghost use Rattle.gx_resolved.specs.declared.tree.Construct.TheVariants as constructs;
ghost use Rattle.gx_names_trees.specs.TreeRefusals.{form_refusals, keys_refusals, tree_refusals, use_refusals};
ghost use Rattle.gx_names_types.specs.Steps.{step_refusals, step_tested, axis_of_step};
ghost use Rattle.gx_names_scope.specs.Refused.{Judges, Proceeds};
ghost use Rattle.gx_resolved.specs.ResolvedTree.{and_parts, no_resolved, one_resolved, resolved_at, two_resolved};
ghost use Rattle.gx_names_trees.specs.TreeResolution.{form_resolved, keys_resolved, tree_resolved, use_resolved};
ghost use Rattle.gx_base.specs.Stacked.{first};
ghost use Rattle.gx_names_trees.specs.Resolving.{adopted, all_adopted, bound_rest_refusals, bound_rest_resolved, refusals_of_rest, refusals_with, rest_refusals, rest_resolved, trees_behind, trees_left, trees_of_rest, trees_with, with_part};

use crate::binders::bound_construct;
use crate::opening::{close, leaf, open_one, open_two};
use gx_ast::expression::{Binding, Clause, Expr, ExprNode};
use gx_ast::name::QName;
use gx_ast::sequence_type::{AxisStep, SequenceType, SingleType};
use gx_base::code::Code;
use gx_base::name::{Name, SharedName};
use gx_base::place::Place;
use gx_base::stack::Stack;
use gx_names_scope::names::Names;
use gx_names_scope::refusal::{NameRefusal, refused};
use gx_names_scope::start_tags::leave_namespaces;
use gx_names_scope::tasks::{Rest, Task, put_bound, put_two};
use gx_names_types::steps::{axis_of_step, check_step, step_tested};
use gx_names_types::type_names::{atomic_named, check_target, check_type, type_written};
use gx_resolved::dismantle::dismantle;
use gx_resolved::nested_map::NestedMap;
use gx_resolved::tree::{BindingWord, Construct, ResolvedExpr};
use std::alloc::{AllocError, Global};

// The attributes of a start tag that were resolved, by their names, with their places.
pub(crate) type AttributeNames = NestedMap<SharedName, Place>;

// `unfinished` has the trees in the making, and `tags` the open start tags, the innermost on top.
#[derive(Drop)]
pub(crate) struct Resolving<'a, 's> {
    pub(crate) tasks: Stack<Task<'a>>,
    pub(crate) unfinished: Stack<ResolvedExpr>,
    pub(crate) tags: Stack<AttributeNames>,
    pub(crate) names: Names<'s>,
}

impl<'a, 's> Resolving<'a, 's> {
    // The resolution of a tree.
    #[tactic(auto, using(crate::proofs::ResolvingLemmas::nothing_behind))]
    pub(crate) fn new(
        alloc: Global,
        names: Names<'s>,
        tree: &'a Expr,
    ) -> Result<Resolving<'a, 's>, AllocError>
        ensures refusals { IfOk result (λ r. refusals_of_rest r ≡ tree_refusals names.entry tree.now) }
        ensures trees { IfOk result (λ r. trees_of_rest r ≡ (tree_resolved names.entry tree.now ∷ [], names.entry)) }
    {
        let mut tasks = Stack::new(alloc);
        tasks.push(Task::Tree(tree))?;
        Ok(Resolving {
            tasks,
            unfinished: Stack::new(alloc),
            tags: Stack::new(alloc),
            names,
        })
    }

    // The tree, where no task is left, and what names stand for behind it.
    pub(crate) fn result(mut self) -> (ResolvedExpr, Names<'s>)
        requires { self.unfinished ≢ [] }
        ensures tree { first self.entry.unfinished ≡ Some result.0 }
        ensures names { result.1 ≡ self.entry.names }
    {
        match self.unfinished.pop() {
            Some(tree) => (tree, self.names),
            None => unreachable!(),
        }
    }

    // Drops the trees that a refusal leaves, each by a loop.
    pub(crate) fn dismantle(self, alloc: Global) {
        for tree in self.unfinished.into_items() {
            dismantle(alloc, tree);
        }
    }

    // Does a task.
    pub(crate) fn step(&mut self, alloc: Global, task: Task<'a>) -> Result<(), NameRefusal>
        ensures refusals { Proceeds result (refusals_with task.entry self.old) (refusals_of_rest self.new) }
        ensures trees { OnOk result (trees_of_rest self.new ≡ trees_with task.entry self.old) }
    {
        let done = match task {
            Task::Tree(tree) => return self.open_tree(alloc, tree),
            Task::Trees(trees) => self.open_trees(trees),
            Task::Clauses(rest) => return self.open_rest(alloc, rest),
            Task::Keys(keys) => self.open_keys(alloc, keys),
            Task::Cases(cases) => return self.open_cases(alloc, cases),
            Task::Default(head, otherwise) => return self.open_default(alloc, head, otherwise),
            Task::Bind(variable) => self.names.bind_variable(alloc, variable),
            Task::BindOptional(variable) => self.names.bind_optional(alloc, variable),
            Task::Unbind => self.names.unbind_variable(),
            Task::UnbindOptional(variable) => self.names.unbind_optional(variable),
            Task::Written(kind) => return self.check_type(alloc, kind),
            Task::Target(target) => return self.check_target(alloc, target),
            Task::Attributes(attributes) => return self.open_attributes(alloc, attributes),
            Task::AttributeParts(value, place) => self.open_attribute_parts(alloc, value, place),
            Task::Parts(content, place) => self.open_parts(alloc, content, place),
            Task::LeaveTag(attributes) => leave_namespaces(&mut self.names, attributes),
            Task::Close => close(&mut self.unfinished),
        };
        Ok(done?)
    }

    #[tactic(auto, using(gx_names_scope::proofs::RefusalLemmas::judged_proceeds))]
    fn check_target(&mut self, alloc: Global, target: &QName) -> Result<(), NameRefusal>
        ensures refusals { Proceeds result (refusals_with (task.Target target.entry) self.old) (refusals_of_rest self.new) }
        ensures same { self.new ≡ self.old }
    {
        check_target(alloc, &self.names, target)
    }

    #[tactic(auto, using(gx_names_scope::proofs::RefusalLemmas::judged_proceeds))]
    fn check_type(&mut self, alloc: Global, kind: &SequenceType) -> Result<(), NameRefusal>
        ensures refusals { Proceeds result (refusals_with (task.Written kind.entry) self.old) (refusals_of_rest self.new) }
        ensures same { self.new ≡ self.old }
    {
        check_type(alloc, &self.names, kind)
    }

    // The first tree, or none.
    fn open_trees(&mut self, trees: &'a [Expr]) -> Result<(), AllocError>
        ensures refusals { OnOk result (refusals_of_rest self.new ≡ refusals_with (task.Trees trees.entry) self.old) }
        ensures trees { OnOk result (trees_of_rest self.new ≡ trees_with (task.Trees trees.entry) self.old) }
    {
        let Some((first, others)) = trees.split_first() else {
            return Ok(());
        };
        put_two(&mut self.tasks, Task::Tree(first), Task::Trees(others))
    }

    fn open_three(
        &mut self,
        alloc: Global,
        place: Place,
        test: &'a Expr,
        chosen: &'a Expr,
        otherwise: &'a Expr,
    ) -> Result<(), NameRefusal>
        ensures refusals { Proceeds result (form_refusals self.old.names place (conditional test.now chosen.now otherwise.now) ++ refusals_of_rest self.old) (refusals_of_rest self.new) }
        ensures trees { OnOk result (trees_of_rest self.new ≡ trees_behind (form_resolved self.old.names place (conditional test.now chosen.now otherwise.now)) self.old) }
    {
        let tasks = &mut self.tasks;
        let unfinished = &mut self.unfinished;
        let first = Task::Tree(chosen);
        let second = Task::Tree(otherwise);
        open_two(
            alloc,
            tasks,
            unfinished,
            place,
            Construct::If,
            first,
            second,
        )?;
        Ok(self.tasks.push(Task::Tree(test))?)
    }

    // Opens a tree, and puts its parts to the tasks.
    fn open_tree(&mut self, alloc: Global, tree: &'a Expr) -> Result<(), NameRefusal>
        ensures refusals { Proceeds result (refusals_with (task.Tree tree.entry) self.old) (refusals_of_rest self.new) }
        ensures trees { OnOk result (trees_of_rest self.new ≡ trees_with (task.Tree tree.entry) self.old) }
    {
        let place = tree.place;
        match &tree.node {
            ExprNode::Number(value) => self.add_leaf(alloc, place, Construct::Number(**value)),
            ExprNode::String(text) => Ok(self.text(alloc, place, text)?),
            ExprNode::Variable(name) => self.variable(alloc, place, name),
            ExprNode::Parenthesised(inner) => {
                self.open_with_one(alloc, place, Construct::Parenthesised, inner)
            }
            ExprNode::Empty => self.add_leaf(alloc, place, Construct::Empty),
            ExprNode::Context => self.add_leaf(alloc, place, Construct::Context),
            ExprNode::Call(call) => {
                self.open_call(alloc, place, &call.name, call.arguments.as_slice())
            }
            ExprNode::Sequence(first, second) => {
                self.open_with_two(alloc, place, Construct::Sequence, first, second)
            }
            ExprNode::Flwor(flwor) => {
                let rest = Rest {
                    word: BindingWord::Let,
                    bindings: &[],
                    clauses: flwor.clauses.as_slice(),
                    keys: flwor.keys.as_slice(),
                    returned: &flwor.returned,
                };
                self.open_bindings(alloc, place, Construct::Flwor, rest)
            }
            ExprNode::Quantified(quantified) => {
                let rest = Rest {
                    word: BindingWord::Satisfies,
                    bindings: quantified.bindings.as_slice(),
                    clauses: &[],
                    keys: &[],
                    returned: &quantified.condition,
                };
                let construct = Construct::Quantified(quantified.every);
                self.open_bindings(alloc, place, construct, rest)
            }
            ExprNode::Typeswitch(switch) => self.open_typeswitch(
                alloc,
                place,
                &switch.operand,
                switch.cases.as_slice(),
                &switch.default,
                &switch.otherwise,
            ),
            ExprNode::If(test, chosen, otherwise) => {
                self.open_three(alloc, place, test, chosen, otherwise)
            }
            ExprNode::Binary(operator, left, right) => {
                self.open_with_two(alloc, place, Construct::Binary(*operator), left, right)
            }
            ExprNode::InstanceOf(operand, kind) => self.open_instance(alloc, place, operand, kind),
            ExprNode::TreatAs(operand, kind) => self.open_treat(alloc, place, operand, kind),
            ExprNode::CastableAs(operand, kind) => self.open_castable(alloc, place, operand, kind),
            ExprNode::CastAs(operand, kind) => self.open_cast(alloc, place, operand, kind),
            ExprNode::Signed(minus, operand) => {
                self.open_with_one(alloc, place, Construct::Signed(*minus), operand)
            }
            ExprNode::Path(descendants, left, right) => {
                self.open_with_two(alloc, place, Construct::Path(*descendants), left, right)
            }
            ExprNode::Step(step) => self.step_from_context(alloc, place, step),
            ExprNode::ParentStep => self.add_leaf(alloc, place, Construct::ParentStep),
            ExprNode::Filtered(filtered) => {
                let predicates = filtered.predicates.as_slice();
                self.open_filtered(alloc, place, &filtered.operand, predicates)
            }
            ExprNode::Direct(element) => {
                let attributes = element.attributes.as_slice();
                let content = element.content.as_slice();
                self.open_direct(alloc, place, &element.name, attributes, content)
            }
            ExprNode::Document(content) => {
                self.open_with_one(alloc, place, Construct::Document, content)
            }
            ExprNode::TextNode(content) => {
                self.open_with_one(alloc, place, Construct::TextNode, content)
            }
            ExprNode::Element(name, content) => self.open_element(alloc, place, name, content),
            ExprNode::EmptyElement(name) => self.empty_element(alloc, place, name),
            ExprNode::Attribute(name, content) => self.open_attribute(alloc, place, name, content),
            ExprNode::EmptyAttribute(name) => self.empty_attribute(alloc, place, name),
        }
    }

    // A tree without parts.
    fn add_leaf(
        &mut self,
        alloc: Global,
        place: Place,
        construct: Construct,
    ) -> Result<(), NameRefusal>
        ensures refusals { Proceeds result (refusals_of_rest self.old) (refusals_of_rest self.new) }
        ensures trees { OnOk result (trees_of_rest self.new ≡ trees_behind (resolved_at place construct no_resolved) self.old) }
    {
        Ok(leaf(alloc, &mut self.unfinished, place, construct)?)
    }

    // A tree of one part.
    fn open_with_one(
        &mut self,
        alloc: Global,
        place: Place,
        construct: Construct,
        part: &'a Expr,
    ) -> Result<(), NameRefusal>
        ensures refusals { Proceeds result (tree_refusals self.old.names part.now ++ refusals_of_rest self.old) (refusals_of_rest self.new) }
        ensures trees { OnOk result (trees_of_rest self.new ≡ trees_behind (resolved_at place construct (one_resolved (tree_resolved self.old.names part.now))) self.old) }
    {
        let tasks = &mut self.tasks;
        let inside = Task::Tree(part);
        Ok(open_one(alloc, tasks, &mut self.unfinished, place, construct, inside)?)
    }

    // A tree of two parts.
    fn open_with_two(
        &mut self,
        alloc: Global,
        place: Place,
        construct: Construct,
        first: &'a Expr,
        second: &'a Expr,
    ) -> Result<(), NameRefusal>
        ensures refusals { Proceeds result ((tree_refusals self.old.names first.now ++ tree_refusals self.old.names second.now) ++ refusals_of_rest self.old) (refusals_of_rest self.new) }
        ensures trees { OnOk result (trees_of_rest self.new ≡ trees_behind (resolved_at place construct (two_resolved (tree_resolved self.old.names first.now) (tree_resolved self.old.names second.now))) self.old) }
    {
        let tasks = &mut self.tasks;
        let first = Task::Tree(first);
        let second = Task::Tree(second);
        Ok(open_two(
            alloc,
            tasks,
            &mut self.unfinished,
            place,
            construct,
            first,
            second,
        )?)
    }

    fn open_cast(
        &mut self,
        alloc: Global,
        place: Place,
        operand: &'a Expr,
        kind: &'a SingleType,
    ) -> Result<(), NameRefusal>
        ensures refusals { Proceeds result (form_refusals self.old.names place (cast_as operand.now kind.now) ++ refusals_of_rest self.old) (refusals_of_rest self.new) }
        ensures trees { OnOk result (trees_of_rest self.new ≡ trees_behind (form_resolved self.old.names place (cast_as operand.now kind.now)) self.old) }
    {
        let target = atomic_named(alloc, &self.names, &kind.name)?;
        let tasks = &mut self.tasks;
        let unfinished = &mut self.unfinished;
        let construct = Construct::CastAs(target, kind.optional);
        let first = Task::Tree(operand);
        let second = Task::Target(&kind.name);
        Ok(open_two(alloc, tasks, unfinished, place, construct, first, second)?)
    }

    fn open_castable(
        &mut self,
        alloc: Global,
        place: Place,
        operand: &'a Expr,
        kind: &'a SingleType,
    ) -> Result<(), NameRefusal>
        ensures refusals { Proceeds result (form_refusals self.old.names place (castable_as operand.now kind.now) ++ refusals_of_rest self.old) (refusals_of_rest self.new) }
        ensures trees { OnOk result (trees_of_rest self.new ≡ trees_behind (form_resolved self.old.names place (castable_as operand.now kind.now)) self.old) }
    {
        let target = atomic_named(alloc, &self.names, &kind.name)?;
        let tasks = &mut self.tasks;
        let unfinished = &mut self.unfinished;
        let construct = Construct::CastableAs(target, kind.optional);
        let first = Task::Tree(operand);
        let second = Task::Target(&kind.name);
        Ok(open_two(alloc, tasks, unfinished, place, construct, first, second)?)
    }

    fn open_instance(
        &mut self,
        alloc: Global,
        place: Place,
        operand: &'a Expr,
        kind: &'a SequenceType,
    ) -> Result<(), NameRefusal>
        ensures refusals { Proceeds result (form_refusals self.old.names place (instance_of operand.now kind.now) ++ refusals_of_rest self.old) (refusals_of_rest self.new) }
        ensures trees { OnOk result (trees_of_rest self.new ≡ trees_behind (form_resolved self.old.names place (instance_of operand.now kind.now)) self.old) }
    {
        let written = type_written(alloc, &self.names, kind)?;
        let tasks = &mut self.tasks;
        let unfinished = &mut self.unfinished;
        let construct = Construct::InstanceOf(written);
        let first = Task::Tree(operand);
        let second = Task::Written(kind);
        Ok(open_two(alloc, tasks, unfinished, place, construct, first, second)?)
    }

    fn open_treat(
        &mut self,
        alloc: Global,
        place: Place,
        operand: &'a Expr,
        kind: &'a SequenceType,
    ) -> Result<(), NameRefusal>
        ensures refusals { Proceeds result (form_refusals self.old.names place (treat_as operand.now kind.now) ++ refusals_of_rest self.old) (refusals_of_rest self.new) }
        ensures trees { OnOk result (trees_of_rest self.new ≡ trees_behind (form_resolved self.old.names place (treat_as operand.now kind.now)) self.old) }
    {
        let written = type_written(alloc, &self.names, kind)?;
        let tasks = &mut self.tasks;
        let unfinished = &mut self.unfinished;
        let construct = Construct::TreatAs(written);
        let first = Task::Tree(operand);
        let second = Task::Written(kind);
        Ok(open_two(alloc, tasks, unfinished, place, construct, first, second)?)
    }

    // An expression with its predicates.
    #[tactic(auto, using(crate::proofs::FilteredLemmas::predicates_closed))]
    fn open_filtered(
        &mut self,
        alloc: Global,
        place: Place,
        operand: &'a Expr,
        predicates: &'a [Expr],
    ) -> Result<(), NameRefusal>
        ensures refusals { Proceeds result (form_refusals self.old.names place (filtered place operand.now (trees_of predicates.now)) ++ refusals_of_rest self.old) (refusals_of_rest self.new) }
        ensures trees { OnOk result (trees_of_rest self.new ≡ trees_behind (form_resolved self.old.names place (filtered place operand.now (trees_of predicates.now))) self.old) }
    {
        let tasks = &mut self.tasks;
        let unfinished = &mut self.unfinished;
        let construct = Construct::Filtered;
        let first = Task::Tree(operand);
        let second = Task::Trees(predicates);
        Ok(open_two(alloc, tasks, unfinished, place, construct, first, second)?)
    }

    // A use of a variable.
    #[tactic(auto, using(gx_names_scope::proofs::RefusalLemmas::refused_before))]
    fn variable(&mut self, alloc: Global, place: Place, name: &QName) -> Result<(), NameRefusal>
        ensures refusals { Proceeds result (use_refusals self.old.names place name.now ++ refusals_of_rest self.old) (refusals_of_rest self.new) }
        ensures trees { OnOk result (trees_of_rest self.new ≡ trees_behind (resolved_at place (use_resolved self.old.names place name.now) no_resolved) self.old) }
    {
        let construct = used(alloc, &self.names, place, name)?;
        Ok(leaf(alloc, &mut self.unfinished, place, construct)?)
    }

    // A step from the context.
    #[tactic(auto, using(gx_names_scope::proofs::RefusalLemmas::refused_before))]
    fn step_from_context(
        &mut self,
        alloc: Global,
        place: Place,
        step: &AxisStep,
    ) -> Result<(), NameRefusal>
        ensures refusals { Proceeds result (step_refusals self.old.names step.now ++ refusals_of_rest self.old) (refusals_of_rest self.new) }
        ensures trees { OnOk result (trees_of_rest self.new ≡ trees_behind (resolved_at place (constructs.Step (axis_of_step step.now) (step_tested self.old.names step.now)) no_resolved) self.old) }
    {
        check_step(alloc, &self.names, step)?;
        let test = step_tested(alloc, &self.names, step)?;
        Ok(leaf(
            alloc,
            &mut self.unfinished,
            place,
            Construct::Step(axis_of_step(step), test),
        )?)
    }

    // What has bindings: a FLWOR or a quantified expression.
    #[tactic(auto, using(crate::proofs::ResolvingLemmas::all_closed))]
    fn open_bindings(
        &mut self,
        alloc: Global,
        place: Place,
        construct: Construct,
        rest: Rest<'a>,
    ) -> Result<(), NameRefusal>
        ensures refusals { Proceeds result (rest_refusals self.old.names rest.entry ++ refusals_of_rest self.old) (refusals_of_rest self.new) }
        ensures trees { OnOk result (trees_of_rest self.new ≡ trees_behind (resolved_at place construct (rest_resolved self.old.names rest.entry)) self.old) }
    {
        let tasks = &mut self.tasks;
        let inside = Task::Clauses(rest);
        Ok(open_one(alloc, tasks, &mut self.unfinished, place, construct, inside)?)
    }

    // Puts the next operand to the tasks, or, where all variables are bound, the sort keys and what is returned.
    #[tactic(auto, using(crate::proofs::ResolvingLemmas::one_more_adopted))]
    fn open_rest(&mut self, alloc: Global, rest: Rest<'a>) -> Result<(), NameRefusal>
        ensures refusals { Proceeds result (refusals_with (task.Clauses rest.entry) self.old) (refusals_of_rest self.new) }
        ensures trees { OnOk result (trees_of_rest self.new ≡ trees_with (task.Clauses rest.entry) self.old) }
    {
        if let Some((first, bindings)) = rest.bindings.split_first() {
            return self.open_binding(alloc, first, Rest { bindings, ..rest });
        }
        let done = match rest.clauses.split_first() {
            None => self.open_returned(rest),
            Some((Clause::For(_, bindings), clauses)) => self.tasks.push(Task::Clauses(Rest {
                word: BindingWord::For,
                bindings: bindings.as_slice(),
                clauses,
                ..rest
            })),
            Some((Clause::Let(_, bindings), clauses)) => self.tasks.push(Task::Clauses(Rest {
                word: BindingWord::Let,
                bindings: bindings.as_slice(),
                clauses,
                ..rest
            })),
            Some((Clause::Where(place, condition), clauses)) => {
                let rest = Rest {
                    bindings: &[],
                    clauses,
                    ..rest
                };
                self.open_where(alloc, *place, condition, rest)
            }
        };
        Ok(done?)
    }

    // The sort keys, and what is returned.
    #[tactic(auto, using(crate::proofs::ResolvingLemmas::one_more_adopted))]
    fn open_returned(&mut self, rest: Rest<'a>) -> Result<(), AllocError>
        ensures refusals { OnOk result (refusals_of_rest self.new ≡ (keys_refusals self.old.names (keys_of rest.entry.keys.now) ++ tree_refusals self.old.names rest.entry.returned.now) ++ refusals_of_rest self.old) }
        ensures trees { OnOk result (trees_of_rest self.new ≡ trees_left self.old.names self.old.tasks (all_adopted (and_parts (keys_resolved self.old.names (keys_of rest.entry.keys.now)) (one_resolved (tree_resolved self.old.names rest.entry.returned.now))) self.old.unfinished)) }
    {
        put_two(
            &mut self.tasks,
            Task::Keys(rest.keys),
            Task::Tree(rest.returned),
        )
    }

    // A condition, and what follows it.
    fn open_where(
        &mut self,
        alloc: Global,
        place: Place,
        condition: &'a Expr,
        rest: Rest<'a>,
    ) -> Result<(), AllocError>
        ensures refusals { OnOk result (refusals_of_rest self.new ≡ tree_refusals self.old.names condition.now ++ (rest_refusals self.old.names rest.entry ++ refusals_of_rest self.old)) }
        ensures trees { OnOk result (trees_of_rest self.new ≡ trees_left self.old.names self.old.tasks (all_adopted (rest_resolved self.old.names rest.entry) (adopted (resolved_at place constructs.Where (one_resolved (tree_resolved self.old.names condition.now))) self.old.unfinished))) }
    {
        self.tasks.push(Task::Clauses(rest))?;
        let tasks = &mut self.tasks;
        let inside = Task::Tree(condition);
        open_one(
            alloc,
            tasks,
            &mut self.unfinished,
            place,
            Construct::Where,
            inside,
        )
    }

    // A binding, and what follows it.
    #[tactic(auto, using(gx_names_scope::proofs::RefusalLemmas::refused_before, gx_names_scope::proofs::ScopeLemmas::binding_gone))]
    fn open_binding(
        &mut self,
        alloc: Global,
        first: &'a Binding,
        rest: Rest<'a>,
    ) -> Result<(), NameRefusal>
        ensures refusals { Proceeds result (bound_rest_refusals self.old.names first.now rest.entry ++ refusals_of_rest self.old) (refusals_of_rest self.new) }
        ensures trees { OnOk result (trees_of_rest self.new ≡ trees_left self.old.names self.old.tasks (all_adopted (bound_rest_resolved self.old.names first.now rest.entry) self.old.unfinished)) }
    {
        let bound = &first.bound;
        put_bound(&mut self.tasks, &bound.variable, &bound.position, rest)?;
        match bound_construct(alloc, &self.names, rest.word, bound) {
            Ok(construct) => {
                let place = bound.variable.place;
                let tasks = &mut self.tasks;
                let inside = Task::Tree(&first.value);
                Ok(open_one(alloc, tasks, &mut self.unfinished, place, construct, inside)?)
            }
            Err(refusal) => Err(refusal),
        }
    }
}

// The variable that is used.
fn used(
    alloc: Global,
    names: &Names<'_>,
    place: Place,
    name: &QName,
) -> Result<Construct, NameRefusal>
    ensures refusals { Judges result (use_refusals names.now place name.now) }
    ensures construct { IfOk result (λ construct. construct ≡ use_resolved names.now place name.now) }
{
    match names.plain_name(name)? {
        Some(name) => used_by_name(alloc, names, place, name),
        None => Err(refused(place, Code::XPST0081)),
    }
}

// The variable that has this name in scope.
fn used_by_name(
    alloc: Global,
    names: &Names<'_>,
    place: Place,
    name: Name,
) -> Result<Construct, NameRefusal>
    ensures refusals { Judges result (unless_found (binder_of names.now.variables name) place codes.XPST0008) }
    ensures construct { IfOk result (λ construct. construct ≡ constructs.Variable name (unwrap_or (binder_of names.now.variables name) place)) }
{
    let name = SharedName::new(alloc, name)?;
    match names.binder(&name) {
        Some(binder) => Ok(Construct::Variable(name, *binder)),
        None => Err(refused(place, Code::XPST0008)),
    }
}
