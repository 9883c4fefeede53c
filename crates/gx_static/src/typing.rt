// A typing in its midst: the tasks that are left, and the typed parts that are there.

ghost use Rattle.std.specs.Prelude.{◌≡◌, ◌≢◌, [], ◌∷◌, None, Some, IfOk, IfErr, OnOk};
ghost use Rattle.gx_types.specs.SchemaSet.{SchemaSet};
ghost use Rattle.gx_core.specs.ExpressionView.{operator_of, parts_of};
ghost use Rattle.gx_static.specs.Judgement.{typed};
ghost use Rattle.gx_static.specs.QueryJudgement.{core_typed};
ghost use Rattle.gx_static.specs.Typing.{continued, finished, judgement_of, judgement_with, EndsRejected};
ghost use Rattle.gx_static.specs.declared.typing.Task.TheVariants as tasks;

use crate::error::InferError;
use crate::forms::{form, form_type, last};
use crate::globals::tasks_of;
use crate::item_tests::atomic;
use crate::places::refusal;
use gx_base::name::Name;
use gx_base::place::Place;
use gx_base::stack::Stack;
use gx_base::type_name::Builtin;
use gx_core::cases::{Cases, TypeCase};
use gx_core::dismantle::{dismantle, dismantle_declarations, dismantle_form};
use gx_core::expression::{
    Binder, Core, CoreExpr, CoreFunction, Form, TypedCore, TypedDeclaration, TypedExpr,
};
use gx_core::listed::Listed;
use gx_core::operator::Operator;
use gx_core::scope::Scope;
use gx_funcs::function::Function;
use gx_types::schemas::Schemas;
use gx_types::sequence_type::Ty;
use gx_types::type_rules::prime;
use std::alloc::{AllocError, Global};

// A task: to infer the type of an expression, whose typed form goes on top of the parts; to bind a variable to the type of the
// part on top, or to that of an item of it, and another one to that of the position of the item; to type the branches of a
// switch, whose operand is on top, or those that are left, over an operand of a type; to take the innermost binding away; to make
// the expression of an operator, of a call with so many arguments, or of a switch with so many branches, at its place and that of
// its outermost parentheses, of the parts on top; to type the body of a function with its parameters in
// scope, and to declare the function, whose body is the part on top; to declare a global variable, whose value is the part on top;
// or to declare an external variable.
#[derive(Drop)]
pub(crate) enum Task {
    Infer(CoreExpr),
    Bind(u32),
    BindItem(u32, u32),
    Branches(Stack<TypeCase>, u32, Stack<CoreExpr>),
    NextBranch(Ty, Stack<TypeCase>, u32, Stack<CoreExpr>),
    Unbind,
    Finish(Place, Place, Operator),
    FinishCall(Place, Place, Function, usize),
    FinishSwitch(Place, Place, Cases, u32, usize),
    OpenFunction(CoreFunction),
    DeclareFunction(Place, Name, Listed<Binder>, Ty),
    Declare(Name, Binder),
    External(Name, Binder),
}

#[derive(Drop)]
pub(crate) struct Typing {
    pub(crate) tasks: Stack<Task>,
    pub(crate) parts: Stack<TypedExpr>,
    pub(crate) scope: Scope<Ty>,
    pub(crate) declared: Vec<TypedDeclaration>,
}

impl Typing {
    // The typing of a query.
    #[tactic(auto, using(crate::proofs::Declaring::tasks_come_to_the_judgement))]
    pub(crate) fn new(alloc: Global, core: Core) -> Result<Typing, AllocError>
        ensures { (schemas : SchemaSet) → IfOk result (λ t. judgement_of schemas t ≡ Some (core_typed schemas core)) }
    {
        let tasks = tasks_of(alloc, core)?;
        Ok(Typing {
            tasks,
            parts: Stack::new(alloc),
            scope: Scope::new(alloc),
            declared: Vec::new(alloc),
        })
    }

    // The typed query, where no task is left.
    pub(crate) fn result(mut self) -> TypedCore
        requires { self.parts ≢ [] }
        ensures { (schemas : SchemaSet) → continued schemas [] self.parts self.scope self.declared.items ≡ Some (typed result) }
    {
        match self.parts.pop() {
            Some(body) => TypedCore {
                declarations: Listed::from_vec(self.declared),
                body,
            },
            None => unreachable!(),
        }
    }

    // Drops the tasks, the parts and the declarations that a refusal leaves, each tree by a loop.
    pub(crate) fn dismantle(self, alloc: Global) {
        for task in self.tasks.into_items() {
            dismantle_task(alloc, task);
        }
        for part in self.parts.into_items() {
            dismantle(alloc, part);
        }
        dismantle_declarations(alloc, self.declared);
    }

    // Does a task.
    pub(crate) fn step(
        &mut self,
        alloc: Global,
        schemas: &Schemas,
        task: Task,
    ) -> Result<(), InferError>
        requires { judgement_with schemas.now task self.now ≢ None }
        ensures typed { OnOk result (judgement_of schemas.now self.new ≡ judgement_with schemas.now task self.old) }
        ensures rejected { IfErr result (λ e. EndsRejected e (judgement_with schemas.now task self.old)) }
    {
        match task {
            Task::Infer(expression) => Ok(self.open(alloc, expression)?),
            Task::Bind(variable) => Ok(self.bind(variable)?),
            Task::BindItem(variable, position) => Ok(self.bind_item(alloc, variable, position)?),
            Task::Branches(cases, default, branches) => {
                Ok(self.open_branches(cases, default, branches)?)
            }
            Task::NextBranch(operand, cases, default, branches) => {
                Ok(self.next_branch(operand, cases, default, branches)?)
            }
            Task::Unbind => {
                self.scope.unbind();
                Ok(())
            }
            Task::Finish(place, outer, operator) => {
                self.finish(alloc, schemas, place, outer, operator)
            }
            Task::FinishCall(place, outer, function, count) => {
                self.finish_call(alloc, schemas, place, outer, function, count)
            }
            Task::FinishSwitch(place, outer, cases, default, count) => {
                self.finish_switch(alloc, schemas, place, outer, cases, default, count)
            }
            Task::OpenFunction(function) => Ok(self.open_function(function)?),
            Task::DeclareFunction(place, name, parameters, result) => {
                self.declare_function(alloc, schemas, place, name, parameters, result)
            }
            Task::Declare(name, binder) => self.declare(alloc, schemas, name, binder),
            Task::External(name, binder) => Ok(self.declare_external(name, binder)?),
        }
    }

    // Binds a variable to the type of the part on top.
    fn bind(&mut self, variable: u32) -> Result<(), AllocError>
        requires { self.now.parts ≢ [] }
        ensures { (schemas : SchemaSet) → OnOk result (judgement_of schemas self.new ≡ judgement_with schemas (tasks.Bind variable) self.old) }
    {
        let Some(value) = self.parts.pop() else {
            unreachable!();
        };
        self.scope.bind(variable, value.kind.clone()?)?;
        self.parts.push(value)
    }

    // Binds a variable to the type of an item of the part on top, and another one to that of the position of the item.
    #[tactic(auto, using(gx_core::proofs::LoopBindings::position_is_bound))]
    fn bind_item(&mut self, alloc: Global, variable: u32, position: u32) -> Result<(), AllocError>
        requires { self.now.parts ≢ [] }
        ensures { (schemas : SchemaSet) → OnOk result (judgement_of schemas self.new ≡ judgement_with schemas (tasks.BindItem variable position) self.old) }
    {
        let Some(source) = self.parts.pop() else {
            unreachable!();
        };
        if position != 0 {
            self.scope.bind(position, atomic(alloc, Builtin::Integer)?)?;
        }
        self.scope.bind(variable, prime(alloc, &source.kind)?)?;
        self.parts.push(source)
    }

    // Makes the expression of an operator of the parts on top.
    #[tactic(auto, using(crate::proofs::Continuing::parts_are_there))]
    fn finish(
        &mut self,
        alloc: Global,
        schemas: &Schemas,
        place: Place,
        outer: Place,
        operator: Operator,
    ) -> Result<(), InferError>
        requires { judgement_with schemas.now (tasks.Finish place outer operator) self.now ≢ None }
        ensures typed { OnOk result (judgement_of schemas.now self.new ≡ judgement_with schemas.now (tasks.Finish place outer operator) self.old) }
        ensures rejected { IfErr result (λ e. EndsRejected e (judgement_with schemas.now (tasks.Finish place outer operator) self.old)) }
    {
        let form = form(alloc, operator, &mut self.parts)?;
        self.conclude(alloc, schemas, place, outer, form)
    }

    // Makes the call of a function of so many parts on top.
    #[tactic(auto, using(crate::proofs::Continuing::parts_are_there))]
    fn finish_call(
        &mut self,
        alloc: Global,
        schemas: &Schemas,
        place: Place,
        outer: Place,
        function: Function,
        count: usize,
    ) -> Result<(), InferError>
        requires { judgement_with schemas.now (tasks.FinishCall place outer function count) self.now ≢ None }
        ensures typed { OnOk result (judgement_of schemas.now self.new ≡ judgement_with schemas.now (tasks.FinishCall place outer function count) self.old) }
        ensures rejected { IfErr result (λ e. EndsRejected e (judgement_with schemas.now (tasks.FinishCall place outer function count) self.old)) }
    {
        let arguments = last(alloc, count, &mut self.parts)?;
        self.conclude(
            alloc,
            schemas,
            place,
            outer,
            Form::Call(function, arguments),
        )
    }

    // Makes the expression of this form, whose parts have been taken.
    pub(crate) fn conclude(
        &mut self,
        alloc: Global,
        schemas: &Schemas,
        place: Place,
        outer: Place,
        form: Form<Ty>,
    ) -> Result<(), InferError>
        ensures typed { OnOk result (judgement_of schemas.now self.new
            ≡ finished schemas.now place outer (operator_of form) self.old.scope
            (λ t below. continued schemas.now self.old.tasks (t ∷ below) self.old.scope self.old.declared.items) (parts_of form) self.old.parts) }
        ensures rejected { IfErr result (λ e. EndsRejected e (finished schemas.now place outer (operator_of form) self.old.scope
            (λ t below. continued schemas.now self.old.tasks (t ∷ below) self.old.scope self.old.declared.items) (parts_of form) self.old.parts)) }
    {
        match form_type(alloc, schemas, &form, &self.scope) {
            Ok(kind) => Ok(
                self.parts.push(TypedExpr {
                    place,
                    outer,
                    kind,
                    form,
                })?,
            ),
            Err(error) => {
                let refusal = refusal(place, &form, error);
                dismantle_form(alloc, form);
                Err(refusal)
            }
        }
    }
}

// Drops a task, each tree by a loop.
fn dismantle_task(alloc: Global, task: Task) {
    match task {
        Task::Infer(expression) => dismantle(alloc, expression),
        Task::OpenFunction(function) => dismantle(alloc, function.body),
        Task::Branches(_, _, branches) => dismantle_all(alloc, branches.into_items()),
        Task::NextBranch(_, _, _, branches) => dismantle_all(alloc, branches.into_items()),
        _ => {}
    }
}

// Drops expressions, each by a loop.
fn dismantle_all(alloc: Global, expressions: Vec<CoreExpr>) {
    for expression in expressions {
        dismantle(alloc, expression);
    }
}
