// Calls of functions.

ghost use Rattle.std.specs.Prelude.{◌≡◌, ◌∷◌, ◌++◌, OnOk, IfOk, length};
ghost use Rattle.gx_ast.specs.SyntaxTree.{call};
ghost use Rattle.gx_ast.specs.SyntaxView.{trees_of};
ghost use Rattle.gx_names_scope.specs.Refused.{Judges, Proceeds};
ghost use Rattle.gx_names_scope.specs.declared.tasks.Task.TheVariants as task;
ghost use Rattle.gx_names_trees.specs.Calls.{called_construct, context_argument, is_string_call, standard_function, type_constructed};
ghost use Rattle.gx_names_trees.specs.Resolving.{refusals_of_rest, trees_behind, trees_of_rest};
ghost use Rattle.gx_names_trees.specs.TreeRefusals.{call_refusals, form_refusals};
ghost use Rattle.gx_names_trees.specs.TreeResolution.{call_resolved, form_resolved};
ghost use Rattle.gx_resolved.specs.ResolvedTree.{resolved_at};

use crate::opening::{leaf, open_one};
use crate::resolving::Resolving;
use gx_ast::expression::Expr;
use gx_ast::name::QName;
use gx_base::code::Code;
use gx_base::name::{Name, SharedName};
use gx_base::place::Place;
use gx_base::stack::Stack;
use gx_base::text::Text;
use gx_base::type_name::{Builtin, TypeName};
use gx_funcs::function::{Function, find_local};
use gx_names_scope::names::Names;
use gx_names_scope::refusal::{NameRefusal, refused};
use gx_names_scope::tasks::Task;
use gx_resolved::tree::{Construct, ResolvedExpr};
use gx_typetext::known::atomic_with_name;
use std::alloc::{AllocError, Global};

impl<'a, 's> Resolving<'a, 's> {
    // A call of a function, which is found by its name and the number of arguments.
    #[tactic(auto, using(crate::proofs::ResolvingLemmas::call_refused, crate::proofs::ResolvingLemmas::call_proceeds, crate::proofs::ResolvingLemmas::call_made))]
    pub(crate) fn open_call(
        &mut self,
        alloc: Global,
        place: Place,
        name: &QName,
        arguments: &'a [Expr],
    ) -> Result<(), NameRefusal>
        ensures refusals { Proceeds result (form_refusals self.old.names place (call name.now (trees_of arguments.now)) ++ refusals_of_rest self.old) (refusals_of_rest self.new) }
        ensures trees { OnOk result (trees_of_rest self.new ≡ trees_behind (form_resolved self.old.names place (call name.now (trees_of arguments.now))) self.old) }
    {
        match called(alloc, &self.names, place, name, arguments.len()) {
            Ok(construct) => {
                let tasks = &mut self.tasks;
                let unfinished = &mut self.unfinished;
                Ok(open_arguments(alloc, tasks, unfinished, place, construct, arguments)?)
            }
            Err(refusal) => Err(refusal),
        }
    }
}

// Opens a call, with its arguments to be resolved inside it.
fn open_arguments<'a>(
    alloc: Global,
    tasks: &mut Stack<Task<'a>>,
    unfinished: &mut Stack<ResolvedExpr>,
    place: Place,
    construct: Construct,
    arguments: &'a [Expr],
) -> Result<(), AllocError>
    ensures tasks { OnOk result (tasks.new ≡ task.Trees arguments.entry ∷ task.Close ∷ tasks.old) }
    ensures unfinished { OnOk result (unfinished.new ≡ resolved_at place construct (context_argument place construct (length arguments.now)) ∷ unfinished.old) }
{
    let of_context = arguments.len() == 0 && is_string_call(&construct);
    let inside = Task::Trees(arguments);
    open_one(alloc, tasks, unfinished, place, construct, inside)?;
    if of_context {
        return leaf(alloc, unfinished, place, Construct::Context);
    }
    Ok(())
}

fn is_string_call(construct: &Construct) -> bool
    ensures { result ≡ is_string_call construct.now }
{
    matches!(construct, Construct::Call(Function::String))
}

// The function that is called.
fn called(
    alloc: Global,
    names: &Names<'_>,
    place: Place,
    name: &QName,
    arity: usize,
) -> Result<Construct, NameRefusal>
    ensures refusals { Judges result (call_refusals names.now place name.now arity) }
    ensures function { IfOk result (λ construct. construct ≡ call_resolved names.now name.now arity) }
{
    let Some(name) = names.called_name(name)? else {
        return Err(refused(place, Code::XPST0081));
    };
    match called_construct(alloc, names, name, arity)? {
        Some(construct) => Ok(construct),
        None => Err(refused(place, Code::XPST0017)),
    }
}

// What a call by this name with so many arguments is; None exactly where there is no such function.
fn called_construct(
    alloc: Global,
    names: &Names<'_>,
    name: Name,
    arity: usize,
) -> Result<Option<Construct>, AllocError>
    ensures { IfOk result (λ construct. construct ≡ called_construct names.now name arity) }
{
    if names.is_standard_function(&name) {
        return Ok(find_standard(&name.local, arity).map(Construct::Call));
    }
    let name = SharedName::new(alloc, name)?;
    if names.is_declared(name.clone()?, arity) {
        return Ok(Some(Construct::CallDeclared(name)));
    }
    match type_constructed(alloc, names, name.name(), arity)? {
        Some(builtin) => Ok(Some(Construct::CastAs(TypeName::Builtin(builtin), true))),
        None => Ok(None),
    }
}

// The function of the standard that is called by this local name; `string` without an argument is called with the context item.
fn find_standard(local: &Text, arity: usize) -> Option<Function>
    ensures { result ≡ standard_function local.now arity }
{
    if arity == 0 && local.as_str() == "string" {
        Some(Function::String)
    } else {
        find_local(local, arity)
    }
}

// The built-in type that a constructor function of this name casts its one argument to.
fn type_constructed(
    alloc: Global,
    names: &Names<'_>,
    name: &Name,
    arity: usize,
) -> Result<Option<Builtin>, AllocError>
    ensures { IfOk result (λ t. t ≡ type_constructed names.now name.now arity) }
{
    if arity != 1 {
        return Ok(None);
    }
    let atomic = atomic_with_name(alloc, names.schemas(), name)?;
    match &atomic {
        Some(TypeName::Builtin(Builtin::AnyAtomic)) => Ok(None),
        Some(TypeName::Builtin(builtin)) => Ok(Some(*builtin)),
        _ => Ok(None),
    }
}
