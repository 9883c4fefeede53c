// What expressions use of what is declared outside them.

ghost use Rattle.std.specs.Prelude.{◌≡◌, [], ◌∷◌, ◌++◌, OnOk, IfOk};
ghost use Rattle.gx_ast.specs.SyntaxTree.{call};
ghost use Rattle.gx_ast.specs.SyntaxView.{attributes_of, parts_of, trees_of};
ghost use Rattle.gx_names_scope.specs.declared.tasks.Task.TheVariants as task;
ghost use Rattle.gx_names_scope.specs.Environment.{called_name, plain_name};
ghost use Rattle.gx_names_scope.specs.StartTags.{with_namespaces};
ghost use Rattle.gx_names_scope.specs.Environment.{with_bound};
ghost use Rattle.gx_names_uses.specs.Uses.{attributes_uses, form_uses, function_used, parts_uses, tree_uses, variable_used};
ghost use Rattle.gx_names_uses.specs.Using.{rest_uses, scope_of_rest, scope_with, uses_left, uses_of_rest, uses_with};

use gx_ast::expression::{
    AttributePart, Binding, Case, Clause, DirectAttribute, Expr, ExprNode, Key, Part,
};
use gx_ast::name::QName;
use gx_ast::sequence_type::DefaultHead;
use gx_base::name::SharedName;
use gx_base::place::Place;
use gx_base::stack::Stack;
use gx_names_scope::names::Names;
use gx_names_scope::signature::Signature;
use gx_names_scope::start_tags::{declare_namespaces, leave_namespaces};
use gx_names_scope::tasks::{Rest, Task, put_bound, put_two};
use gx_resolved::tree::BindingWord;
use std::alloc::{AllocError, Global};
use std::marker::Model;
use std::rc::Rc;

/// What an expression uses: a variable that is not bound in it, or a function that is not one of the standard.
#[derive(Drop)]
pub enum Use {
    Variable(SharedName),
    Function(Signature),
}

impl Clone for Use {
    ghost is_clone = { λ used copy. copy ≡ used };

    fn clone(&self) -> Result<Use, AllocError> {
        match self {
            Use::Variable(name) => Ok(Use::Variable(name.clone()?)),
            Use::Function(function) => Ok(Use::Function(function.clone()?)),
        }
    }
}

/// Uses that their copies share: copying them takes no memory.
#[derive(Drop)]
pub struct SharedUses {
    shared: Rc<Vec<Use>>,
}

impl Model for SharedUses {
    ghost use Rattle.std.specs.Prelude.{List};
    ghost use Rattle.gx_names_uses.specs.declared.uses.Use.{Use};

    ghost Value = { List Use };

    ghost view = { λ u. u.shared.value.items };
}

impl SharedUses {
    /// Uses to be shared.
    pub fn new(alloc: Global, uses: Vec<Use>) -> Result<SharedUses, AllocError>
        ensures { IfOk result (λ shared. shared ≡ uses.items) }
    {
        Ok(SharedUses {
            shared: Rc::new(alloc, uses)?,
        })
    }

    /// The uses.
    pub fn as_slice(&self) -> &[Use]
        ensures { result.now ≡ self.now }
    {
        self.shared.as_ref().as_slice()
    }
}

impl Clone for SharedUses {
    ghost is_clone = { λ uses copy. copy ≡ uses };

    fn clone(&self) -> Result<SharedUses, AllocError> {
        Ok(SharedUses {
            shared: self.shared.clone()?,
        })
    }
}

// A search in its midst: the tasks that are left, and what is used before them.
#[derive(Drop)]
struct Using<'a, 's> {
    tasks: Stack<Task<'a>>,
    uses: Vec<Use>,
    names: Names<'s>,
}

/// What a tree uses, and what names stand for behind it. The tasks end long before the loop does.
pub fn tree_uses<'s>(
    alloc: Global,
    names: Names<'s>,
    tree: &Expr,
) -> Result<(Vec<Use>, Names<'s>), AllocError>
    ensures uses { IfOk result (λ r. r.0.items ≡ tree_uses names.entry tree.now) }
    ensures names { IfOk result (λ r. r.1 ≡ names.entry) }
{
    let mut using = Using::new(alloc, names, tree)?;
    for _ in 0..u64::MAX {
        match using.tasks.pop() {
            None => return Ok((using.uses, using.names)),
            Some(task) => using.step(alloc, task)?,
        }
    }
    Err(AllocError)
}

impl<'a, 's> Using<'a, 's> {
    #[tactic(auto, using(crate::proofs::UsesLemmas::no_more_uses))]
    fn new(alloc: Global, names: Names<'s>, tree: &'a Expr) -> Result<Using<'a, 's>, AllocError>
        ensures uses { IfOk result (λ u. uses_of_rest u ≡ tree_uses names.entry tree.now) }
        ensures names { IfOk result (λ u. scope_of_rest u ≡ names.entry) }
    {
        let mut tasks = Stack::new(alloc);
        tasks.push(Task::Tree(tree))?;
        Ok(Using {
            tasks,
            uses: Vec::new(alloc),
            names,
        })
    }

    // Does a task.
    fn step(&mut self, alloc: Global, task: Task<'a>) -> Result<(), AllocError>
        ensures uses { OnOk result (uses_of_rest self.new ≡ uses_with task.entry self.old) }
        ensures names { OnOk result (scope_of_rest self.new ≡ scope_with task.entry self.old) }
    {
        match task {
            Task::Tree(tree) => self.open_tree(alloc, tree),
            Task::Trees(trees) => self.open_trees(trees),
            Task::Clauses(rest) => self.open_rest(rest),
            Task::Keys(keys) => self.open_keys(keys),
            Task::Cases(cases) => self.open_cases(cases),
            Task::Default(head, otherwise) => self.open_default(head, otherwise),
            Task::Bind(variable) => self.names.bind_variable(alloc, variable),
            Task::BindOptional(variable) => self.names.bind_optional(alloc, variable),
            Task::Unbind => self.names.unbind_variable(),
            Task::UnbindOptional(variable) => self.names.unbind_optional(variable),
            Task::Written(_) | Task::Target(_) | Task::Close => Ok(()),
            Task::Attributes(attributes) => self.open_attributes(attributes),
            Task::AttributeParts(value, place) => self.open_attribute_parts(value, place),
            Task::Parts(content, place) => self.open_parts(content, place),
            Task::LeaveTag(attributes) => leave_namespaces(&mut self.names, attributes),
        }
    }

    fn open_tree(&mut self, alloc: Global, tree: &'a Expr) -> Result<(), AllocError>
        ensures uses { OnOk result (uses_of_rest self.new ≡ uses_with (task.Tree tree.entry) self.old) }
        ensures names { OnOk result (scope_of_rest self.new ≡ scope_with (task.Tree tree.entry) self.old) }
    {
        match &tree.node {
            ExprNode::Number(_)
            | ExprNode::String(_)
            | ExprNode::Empty
            | ExprNode::Context
            | ExprNode::Step(_)
            | ExprNode::ParentStep
            | ExprNode::EmptyElement(_)
            | ExprNode::EmptyAttribute(_) => Ok(()),
            ExprNode::Variable(name) => self.variable(alloc, name),
            ExprNode::Call(call) => self.call(alloc, &call.name, call.arguments.as_slice()),
            ExprNode::Parenthesised(inner)
            | ExprNode::InstanceOf(inner, _)
            | ExprNode::TreatAs(inner, _)
            | ExprNode::CastableAs(inner, _)
            | ExprNode::CastAs(inner, _)
            | ExprNode::Signed(_, inner)
            | ExprNode::Document(inner)
            | ExprNode::TextNode(inner)
            | ExprNode::Element(_, inner)
            | ExprNode::Attribute(_, inner) => self.tasks.push(Task::Tree(inner)),
            ExprNode::Sequence(first, second)
            | ExprNode::Binary(_, first, second)
            | ExprNode::Path(_, first, second) => put_two(
                &mut self.tasks,
                Task::Tree(first),
                Task::Tree(second),
            ),
            ExprNode::If(test, chosen, otherwise) => {
                self.tasks.push(Task::Tree(otherwise))?;
                put_two(&mut self.tasks, Task::Tree(test), Task::Tree(chosen))
            }
            ExprNode::Flwor(flwor) => {
                let rest = Rest {
                    word: BindingWord::Let,
                    bindings: &[],
                    clauses: flwor.clauses.as_slice(),
                    keys: flwor.keys.as_slice(),
                    returned: &flwor.returned,
                };
                self.tasks.push(Task::Clauses(rest))
            }
            ExprNode::Quantified(quantified) => {
                let rest = Rest {
                    word: BindingWord::Satisfies,
                    bindings: quantified.bindings.as_slice(),
                    clauses: &[],
                    keys: &[],
                    returned: &quantified.condition,
                };
                self.tasks.push(Task::Clauses(rest))
            }
            ExprNode::Typeswitch(switch) => {
                self.tasks
                    .push(Task::Default(&switch.default, &switch.otherwise))?;
                let cases = Task::Cases(switch.cases.as_slice());
                put_two(&mut self.tasks, Task::Tree(&switch.operand), cases)
            }
            ExprNode::Filtered(filtered) => {
                let predicates = Task::Trees(filtered.predicates.as_slice());
                put_two(&mut self.tasks, Task::Tree(&filtered.operand), predicates)
            }
            ExprNode::Direct(element) => {
                let attributes = element.attributes.as_slice();
                self.open_direct(alloc, tree.place, attributes, element.content.as_slice())
            }
        }
    }

    // The first tree, or none.
    fn open_trees(&mut self, trees: &'a [Expr]) -> Result<(), AllocError>
        ensures uses { OnOk result (uses_of_rest self.new ≡ uses_with (task.Trees trees.entry) self.old) }
        ensures names { OnOk result (scope_of_rest self.new ≡ scope_with (task.Trees trees.entry) self.old) }
    {
        let Some((first, others)) = trees.split_first() else {
            return Ok(());
        };
        put_two(&mut self.tasks, Task::Tree(first), Task::Trees(others))
    }

    // A variable, where it is not bound inside.
    #[tactic(auto, using(crate::proofs::UsesLemmas::one_more_use))]
    fn variable(&mut self, alloc: Global, name: &QName) -> Result<(), AllocError>
        ensures uses { OnOk result (uses_of_rest self.new ≡ self.old.uses.items ++ (variable_used self.old.names (plain_name self.old.names name.now) ++ uses_left self.old.names self.old.tasks)) }
        ensures names { OnOk result (scope_of_rest self.new ≡ scope_of_rest self.old) }
    {
        let Some(name) = self.names.plain_name(name)? else {
            return Ok(());
        };
        let name = SharedName::new(alloc, name)?;
        if self.names.binder(&name).is_some() {
            return Ok(());
        }
        self.uses.push(Use::Variable(name))?;
        Ok(())
    }

    // A call: the function, where it is not one of the standard, and the arguments.
    #[tactic(auto, using(crate::proofs::UsesLemmas::all_called))]
    fn call(&mut self, alloc: Global, name: &QName, arguments: &'a [Expr]) -> Result<(), AllocError>
        ensures uses { OnOk result (uses_of_rest self.new ≡ self.old.uses.items ++ (form_uses self.old.names (call name.now (trees_of arguments.now)) ++ uses_left self.old.names self.old.tasks)) }
        ensures names { OnOk result (scope_of_rest self.new ≡ scope_of_rest self.old) }
    {
        self.function(alloc, name, arguments.len())?;
        self.tasks.push(Task::Trees(arguments))
    }

    fn function(&mut self, alloc: Global, name: &QName, arity: usize) -> Result<(), AllocError>
        ensures uses { OnOk result (self.new.uses.items ≡ self.old.uses.items ++ function_used (called_name self.old.names name.now) arity) }
        ensures tasks { self.new.tasks ≡ self.old.tasks }
        ensures names { self.new.names ≡ self.old.names }
    {
        let Some(name) = self.names.called_name(name)? else {
            return Ok(());
        };
        if self.names.is_standard_function(&name) {
            return Ok(());
        }
        let name = SharedName::new(alloc, name)?;
        self.uses.push(Use::Function(Signature { name, arity }))?;
        Ok(())
    }

    // The next operand, or, where all variables are bound, the sort keys and what is returned.
    fn open_rest(&mut self, rest: Rest<'a>) -> Result<(), AllocError>
        ensures uses { OnOk result (uses_of_rest self.new ≡ uses_with (task.Clauses rest.entry) self.old) }
        ensures names { OnOk result (scope_of_rest self.new ≡ scope_with (task.Clauses rest.entry) self.old) }
    {
        if let Some((first, bindings)) = rest.bindings.split_first() {
            return self.open_binding(first, Rest { bindings, ..rest });
        }
        match rest.clauses.split_first() {
            None => {
                put_two(
                    &mut self.tasks,
                    Task::Keys(rest.keys),
                    Task::Tree(rest.returned),
                )
            }
            Some((Clause::For(_, bindings), clauses)) => {
                let rest = Rest {
                    bindings: bindings.as_slice(),
                    clauses,
                    ..rest
                };
                Ok(self.tasks.push(Task::Clauses(rest))?)
            }
            Some((Clause::Let(_, bindings), clauses)) => {
                let rest = Rest {
                    bindings: bindings.as_slice(),
                    clauses,
                    ..rest
                };
                Ok(self.tasks.push(Task::Clauses(rest))?)
            }
            Some((Clause::Where(_, condition), clauses)) => {
                self.tasks.push(Task::Clauses(Rest {
                    bindings: &[],
                    clauses,
                    ..rest
                }))?;
                self.tasks.push(Task::Tree(condition))
            }
        }
    }

    // A binding, and what follows it.
    #[tactic(auto, using(gx_names_scope::proofs::ScopeLemmas::binding_gone))]
    fn open_binding(&mut self, first: &'a Binding, rest: Rest<'a>) -> Result<(), AllocError>
        ensures uses { OnOk result (uses_of_rest self.new ≡ self.old.uses.items ++ ((tree_uses self.old.names first.now.value ++ rest_uses (with_bound first.now.bound self.old.names) rest.entry) ++ uses_left self.old.names self.old.tasks)) }
        ensures names { OnOk result (scope_of_rest self.new ≡ scope_of_rest self.old) }
    {
        let bound = &first.bound;
        put_bound(&mut self.tasks, &bound.variable, &bound.position, rest)?;
        self.tasks.push(Task::Tree(&first.value))
    }

    // The first sort key, or none.
    fn open_keys(&mut self, keys: &'a [Key]) -> Result<(), AllocError>
        ensures uses { OnOk result (uses_of_rest self.new ≡ uses_with (task.Keys keys.entry) self.old) }
        ensures names { OnOk result (scope_of_rest self.new ≡ scope_with (task.Keys keys.entry) self.old) }
    {
        let Some((first, others)) = keys.split_first() else {
            return Ok(());
        };
        put_two(
            &mut self.tasks,
            Task::Tree(&first.value),
            Task::Keys(others),
        )
    }

    // The first case, or none.
    #[tactic(auto, using(gx_names_scope::proofs::ScopeLemmas::unbound_again))]
    fn open_cases(&mut self, cases: &'a [Case]) -> Result<(), AllocError>
        ensures uses { OnOk result (uses_of_rest self.new ≡ uses_with (task.Cases cases.entry) self.old) }
        ensures names { OnOk result (scope_of_rest self.new ≡ scope_with (task.Cases cases.entry) self.old) }
    {
        let Some((first, others)) = cases.split_first() else {
            return Ok(());
        };
        let variable = &first.head.variable;
        put_two(
            &mut self.tasks,
            Task::UnbindOptional(variable),
            Task::Cases(others),
        )?;
        put_two(
            &mut self.tasks,
            Task::BindOptional(variable),
            Task::Tree(&first.body),
        )
    }

    #[tactic(auto, using(gx_names_scope::proofs::ScopeLemmas::unbound_again))]
    fn open_default(&mut self, head: &'a DefaultHead, otherwise: &'a Expr) -> Result<(), AllocError>
        ensures uses { OnOk result (uses_of_rest self.new ≡ uses_with (task.Default head.entry otherwise.entry) self.old) }
        ensures names { OnOk result (scope_of_rest self.new ≡ scope_with (task.Default head.entry otherwise.entry) self.old) }
    {
        self.tasks.push(Task::UnbindOptional(&head.variable))?;
        self.tasks.push(Task::Tree(otherwise))?;
        self.tasks.push(Task::BindOptional(&head.variable))
    }

    // A direct element, in the scope of the namespaces of its start tag.
    #[tactic(auto, using(gx_names_scope::proofs::StartTagLemmas::namespaces_gone))]
    fn open_direct(
        &mut self,
        alloc: Global,
        place: Place,
        attributes: &'a [DirectAttribute],
        content: &'a [Part],
    ) -> Result<(), AllocError>
        ensures uses { OnOk result (uses_of_rest self.new ≡ self.old.uses.items ++ ((attributes_uses (with_namespaces (attributes_of attributes.now) self.old.names) (attributes_of attributes.now) ++ parts_uses (with_namespaces (attributes_of attributes.now) self.old.names) (parts_of content.now)) ++ uses_left self.old.names self.old.tasks)) }
        ensures names { OnOk result (scope_of_rest self.new ≡ scope_of_rest self.old) }
    {
        declare_namespaces(alloc, &mut self.names, attributes)?;
        open_inside(&mut self.tasks, place, attributes, content)?;
        Ok(())
    }

    // The first attribute, or none.
    fn open_attributes(&mut self, attributes: &'a [DirectAttribute]) -> Result<(), AllocError>
        ensures uses { OnOk result (uses_of_rest self.new ≡ uses_with (task.Attributes attributes.entry) self.old) }
        ensures names { OnOk result (scope_of_rest self.new ≡ scope_of_rest self.old) }
    {
        let Some((first, others)) = attributes.split_first() else {
            return Ok(());
        };
        let value = Task::AttributeParts(first.value.as_slice(), first.name.place);
        put_two(&mut self.tasks, value, Task::Attributes(others))
    }

    // The first part of the value of an attribute, or none.
    fn open_attribute_parts(
        &mut self,
        value: &'a [AttributePart],
        place: Place,
    ) -> Result<(), AllocError>
        ensures uses { OnOk result (uses_of_rest self.new ≡ uses_with (task.AttributeParts value.entry place) self.old) }
        ensures names { OnOk result (scope_of_rest self.new ≡ scope_of_rest self.old) }
    {
        let Some((first, others)) = value.split_first() else {
            return Ok(());
        };
        self.tasks.push(Task::AttributeParts(others, place))?;
        match first {
            AttributePart::Text(_) => Ok(()),
            AttributePart::Enclosed(value) => self.tasks.push(Task::Tree(value)),
        }
    }

    // The first part of the content of an element, or none.
    fn open_parts(&mut self, content: &'a [Part], place: Place) -> Result<(), AllocError>
        ensures uses { OnOk result (uses_of_rest self.new ≡ uses_with (task.Parts content.entry place) self.old) }
        ensures names { OnOk result (scope_of_rest self.new ≡ scope_of_rest self.old) }
    {
        let Some((first, others)) = content.split_first() else {
            return Ok(());
        };
        self.tasks.push(Task::Parts(others, place))?;
        match first {
            Part::Blank(_) | Part::Text(_) => Ok(()),
            Part::Element(tree) | Part::Enclosed(tree) => self.tasks.push(Task::Tree(tree)),
        }
    }
}

// Puts the attributes and the content of an element to the tasks, and the end of its start tag's scope behind them.
fn open_inside<'a>(
    tasks: &mut Stack<Task<'a>>,
    place: Place,
    attributes: &'a [DirectAttribute],
    content: &'a [Part],
) -> Result<(), AllocError>
    ensures { OnOk result (tasks.new ≡ task.Attributes attributes.entry ∷ task.Parts content.entry place ∷ task.LeaveTag attributes.entry ∷ tasks.old) }
{
    tasks.push(Task::LeaveTag(attributes))?;
    put_two(
        tasks,
        Task::Attributes(attributes),
        Task::Parts(content, place),
    )
}
