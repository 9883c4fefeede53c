// What is left to do in a walk through a tree that keeps its own stack.

ghost use Rattle.std.specs.Prelude.{◌≡◌, ◌∷◌, OnOk};
ghost use Rattle.gx_names_scope.specs.declared.tasks.Task.TheVariants as task;

use gx_ast::expression::{AttributePart, Binding, Case, Clause, DirectAttribute, Expr, Key, Part};
use gx_ast::name::{QName, Variable};
use gx_ast::sequence_type::{DefaultHead, SequenceType};
use gx_base::place::Place;
use gx_base::stack::Stack;
use gx_resolved::tree::BindingWord;
use std::alloc::AllocError;

/// What follows in a FLWOR or a quantified expression: bindings of a clause with that word, clauses, sort keys, and what is returned.
#[derive(Clone, Copy)]
pub struct Rest<'a> {
    pub word: BindingWord,
    pub bindings: &'a [Binding],
    pub clauses: &'a [Clause],
    pub keys: &'a [Key],
    pub returned: &'a Expr,
}

/// A task: to resolve a tree, or trees, which become the last parts of the innermost open tree, likewise what follows in a FLWOR, sort
/// keys, cases and a default, the attributes that are left of the innermost open start tag, parts of a value and of content; to bind
/// variables, and to take them away; to leave an element with its namespaces; to look at a type; or to close the innermost open tree.
#[derive(Clone, Copy)]
pub enum Task<'a> {
    Tree(&'a Expr),
    Trees(&'a [Expr]),
    Clauses(Rest<'a>),
    Keys(&'a [Key]),
    Cases(&'a [Case]),
    Default(&'a DefaultHead, &'a Expr),
    Bind(&'a Variable),
    BindOptional(&'a Option<Variable>),
    Unbind,
    UnbindOptional(&'a Option<Variable>),
    Written(&'a SequenceType),
    Target(&'a QName),
    Attributes(&'a [DirectAttribute]),
    AttributeParts(&'a [AttributePart], Place),
    Parts(&'a [Part], Place),
    LeaveTag(&'a [DirectAttribute]),
    Close,
}

/// Puts two tasks on top.
pub fn put_two<'a>(
    tasks: &mut Stack<Task<'a>>,
    first: Task<'a>,
    second: Task<'a>,
) -> Result<(), AllocError>
    ensures { OnOk result (tasks.new ≡ first.entry ∷ second.entry ∷ tasks.old) }
{
    tasks.push(second)?;
    tasks.push(first)
}

/// Puts what follows a bound value on top, in the scope of its variables.
pub fn put_bound<'a>(
    tasks: &mut Stack<Task<'a>>,
    variable: &'a Variable,
    position: &'a Option<Variable>,
    rest: Rest<'a>,
) -> Result<(), AllocError>
    ensures { OnOk result (tasks.new ≡ task.Bind variable.entry ∷ task.BindOptional position.entry ∷ task.Clauses rest.entry ∷ task.UnbindOptional position.entry ∷ task.Unbind ∷ tasks.old) }
{
    put_two(tasks, Task::UnbindOptional(position), Task::Unbind)?;
    tasks.push(Task::Clauses(rest))?;
    put_two(tasks, Task::Bind(variable), Task::BindOptional(position))
}
