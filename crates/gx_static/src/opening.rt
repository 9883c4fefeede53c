// The tasks of an expression: to type its parts, and then to make it.

ghost use Rattle.std.specs.Prelude.{◌≡◌, ◌++◌, [], ◌∷◌, length, OnOk};
ghost use Rattle.gx_types.specs.SchemaSet.{SchemaSet};
ghost use Rattle.gx_core.specs.declared.operator.Operator.TheVariants as operators;
ghost use Rattle.gx_core.specs.Expression.{annotation_of};
ghost use Rattle.gx_static.specs.Judgement.{judged};
ghost use Rattle.gx_static.specs.Typing.{continued, then_typed, typed_in_order, judgement_of, judgement_with, item_type_bound};
ghost use Rattle.gx_static.specs.declared.typing.Task.TheVariants as tasks;

use crate::typing::{Task, Typing};
use gx_base::place::Place;
use gx_core::expression::{Binder, CoreExpr, Form};
use gx_core::operator::Operator;
use gx_funcs::function::Function;
use std::alloc::{AllocError, Global};

impl Typing {
    // Puts down the tasks of an expression: to type its parts, and then to make it.
    pub(crate) fn open(&mut self, alloc: Global, expression: CoreExpr) -> Result<(), AllocError>
        ensures { (schemas : SchemaSet) → OnOk result (judgement_of schemas self.new ≡ judgement_with schemas (tasks.Infer expression) self.old) }
    {
        let (place, outer, _kind, form) = expression.into_parts();
        match form {
            Form::Lit(value) => self.open_leaf(place, outer, Operator::Lit(value)),
            Form::Var(number) => self.open_leaf(place, outer, Operator::Var(number)),
            Form::Empty => self.open_leaf(place, outer, Operator::Empty),
            Form::Seq(first, second) => self.open_pair(place, outer, Operator::Seq, first, second),
            Form::For(binder, position, source, body) => {
                let variable = binder.variable;
                let operator = Operator::For(binder, position);
                self.open_loop(place, outer, operator, variable, position, source, body)
            }
            Form::SomeIn(binder, source, test) => {
                let variable = binder.variable;
                let operator = Operator::SomeIn(binder);
                self.open_loop(place, outer, operator, variable, 0, source, test)
            }
            Form::EveryIn(binder, source, test) => {
                let variable = binder.variable;
                let operator = Operator::EveryIn(binder);
                self.open_loop(place, outer, operator, variable, 0, source, test)
            }
            Form::Let(binder, value, body) => self.open_let(place, outer, binder, value, body),
            Form::Block(clauses, keys, body) => {
                self.open_block(alloc, place, outer, clauses, keys, body)
            }
            Form::If(condition, chosen, otherwise) => {
                self.open_conditional(place, outer, condition, chosen, otherwise)
            }
            Form::Cast(operand, kind, optional) => {
                self.open_single(place, outer, Operator::Cast(kind, optional), operand)
            }
            Form::Castable(operand, kind, optional) => {
                self.open_single(place, outer, Operator::Castable(kind, optional), operand)
            }
            Form::Treat(operand, kind) => {
                self.open_single(place, outer, Operator::Treat(kind), operand)
            }
            Form::Step(axis, test, number) => {
                self.open_leaf(place, outer, Operator::Step(axis, test, number))
            }
            Form::Nodes(operand) => self.open_single(place, outer, Operator::Nodes, operand),
            Form::Order(operand) => self.open_single(place, outer, Operator::Order, operand),
            Form::Switch(operand, cases, default, branches) => {
                self.open_switch(alloc, place, outer, operand, cases, default, branches)
            }
            Form::Nth(operand, number, reverse) => {
                self.open_single(place, outer, Operator::Nth(number, reverse), operand)
            }
            Form::Final(operand, reverse) => {
                self.open_single(place, outer, Operator::Final(reverse), operand)
            }
            Form::DataOf(operand) => self.open_single(place, outer, Operator::DataOf, operand),
            Form::NoContext => self.open_leaf(place, outer, Operator::NoContext),
            Form::Call(function, arguments) => { self.open_call(place, outer, function, arguments) }
            Form::Construct(constructor, parts) => {
                let operator = Operator::Construct(constructor, parts.len());
                self.open_parts(place, outer, operator, parts)
            }
            Form::User(signature, arguments) => {
                let operator = Operator::User(signature, arguments.len());
                self.open_parts(place, outer, operator, arguments)
            }
            Form::Neg(operand) => self.open_single(place, outer, Operator::Neg, operand),
            Form::Binary(operator, left, right) => {
                self.open_pair(place, outer, Operator::Binary(operator), left, right)
            }
        }
    }

    fn open_leaf(
        &mut self,
        place: Place,
        outer: Place,
        operator: Operator,
    ) -> Result<(), AllocError>
        ensures { (schemas : SchemaSet) → OnOk result (judgement_of schemas self.new ≡ judgement_with schemas (tasks.Finish place outer operator) self.old) }
    {
        self.tasks.push(Task::Finish(place, outer, operator))
    }

    // An operator of one part.
    fn open_single(
        &mut self,
        place: Place,
        outer: Place,
        operator: Operator,
        operand: Box<CoreExpr>,
    ) -> Result<(), AllocError>
        ensures { (schemas : SchemaSet) → OnOk result (judgement_of schemas self.new
            ≡ typed_in_order schemas (operand.value ∷ []) self.old.scope
            (λ parts. continued schemas (tasks.Finish place outer operator ∷ self.old.tasks) parts self.old.scope self.old.declared.items) self.old.parts) }
    {
        self.tasks.push(Task::Finish(place, outer, operator))?;
        self.tasks.push(Task::Infer(Box::into_inner(operand)))
    }

    // An operator of two parts that binds nothing.
    fn open_pair(
        &mut self,
        place: Place,
        outer: Place,
        operator: Operator,
        first: Box<CoreExpr>,
        second: Box<CoreExpr>,
    ) -> Result<(), AllocError>
        ensures { (schemas : SchemaSet) → OnOk result (judgement_of schemas self.new
            ≡ typed_in_order schemas (first.value ∷ second.value ∷ []) self.old.scope
            (λ parts. continued schemas (tasks.Finish place outer operator ∷ self.old.tasks) parts self.old.scope self.old.declared.items) self.old.parts) }
    {
        self.tasks.push(Task::Finish(place, outer, operator))?;
        self.tasks.push(Task::Infer(Box::into_inner(second)))?;
        self.tasks.push(Task::Infer(Box::into_inner(first)))
    }

    fn open_conditional(
        &mut self,
        place: Place,
        outer: Place,
        condition: Box<CoreExpr>,
        chosen: Box<CoreExpr>,
        otherwise: Box<CoreExpr>,
    ) -> Result<(), AllocError>
        ensures { (schemas : SchemaSet) → OnOk result (judgement_of schemas self.new
            ≡ typed_in_order schemas (condition.value ∷ chosen.value ∷ otherwise.value ∷ []) self.old.scope
            (λ parts. continued schemas (tasks.Finish place outer operators.If ∷ self.old.tasks) parts self.old.scope self.old.declared.items) self.old.parts) }
    {
        self.tasks.push(Task::Finish(place, outer, Operator::If))?;
        self.tasks.push(Task::Infer(Box::into_inner(otherwise)))?;
        self.tasks.push(Task::Infer(Box::into_inner(chosen)))?;
        self.tasks.push(Task::Infer(Box::into_inner(condition)))
    }

    // A call of so many arguments as there are.
    #[tactic(auto, using(crate::proofs::Continuing::last_typed))]
    fn open_call(
        &mut self,
        place: Place,
        outer: Place,
        function: Function,
        mut arguments: Vec<CoreExpr>,
    ) -> Result<(), AllocError>
        ensures { (schemas : SchemaSet) → OnOk result (judgement_of schemas self.new
            ≡ typed_in_order schemas arguments.items self.old.scope
            (λ parts. continued schemas (tasks.FinishCall place outer function (length arguments.items) ∷ self.old.tasks) parts self.old.scope self.old.declared.items) self.old.parts) }
    {
        self.tasks
            .push(Task::FinishCall(place, outer, function, arguments.len()))?;
        while let Some(argument) = arguments.pop() {
            self.tasks.push(Task::Infer(argument))?;
        }
        Ok(())
    }

    // An operator of any number of parts that binds nothing.
    #[tactic(auto, using(crate::proofs::Continuing::last_typed))]
    fn open_parts(
        &mut self,
        place: Place,
        outer: Place,
        operator: Operator,
        mut parts: Vec<CoreExpr>,
    ) -> Result<(), AllocError>
        ensures { (schemas : SchemaSet) → OnOk result (judgement_of schemas self.new
            ≡ typed_in_order schemas parts.items self.old.scope
            (λ typed. continued schemas (tasks.Finish place outer operator ∷ self.old.tasks) typed self.old.scope self.old.declared.items) self.old.parts) }
    {
        self.tasks.push(Task::Finish(place, outer, operator))?;
        while let Some(part) = parts.pop() {
            self.tasks.push(Task::Infer(part))?;
        }
        Ok(())
    }

    // The body is typed with the variable in scope, which has an item of the operand, and with that of the position.
    #[tactic(auto, using(crate::proofs::Continuing::two_are_unbound))]
    fn open_loop(
        &mut self,
        place: Place,
        outer: Place,
        operator: Operator,
        variable: u32,
        position: u32,
        source: Box<CoreExpr>,
        body: Box<CoreExpr>,
    ) -> Result<(), AllocError>
        ensures { (schemas : SchemaSet) → OnOk result (judgement_of schemas self.new
            ≡ then_typed (judged schemas source.value self.old.scope) (λ t. then_typed (judged schemas body.value (item_type_bound variable position t ++ self.old.scope))
            (λ u. continued schemas (tasks.Finish place outer operator ∷ self.old.tasks) (u ∷ t ∷ self.old.parts) self.old.scope self.old.declared.items))) }
    {
        self.tasks.push(Task::Finish(place, outer, operator))?;
        self.tasks.push(Task::Unbind)?;
        if position != 0 {
            self.tasks.push(Task::Unbind)?;
        }
        self.tasks.push(Task::Infer(Box::into_inner(body)))?;
        self.tasks.push(Task::BindItem(variable, position))?;
        self.tasks.push(Task::Infer(Box::into_inner(source)))
    }

    // The body is typed with the variable in scope, which has the value.
    fn open_let(
        &mut self,
        place: Place,
        outer: Place,
        binder: Binder,
        value: Box<CoreExpr>,
        body: Box<CoreExpr>,
    ) -> Result<(), AllocError>
        ensures { (schemas : SchemaSet) → OnOk result (judgement_of schemas self.new
            ≡ then_typed (judged schemas value.value self.old.scope) (λ t. then_typed (judged schemas body.value ((binder.variable, annotation_of t) ∷ self.old.scope))
            (λ u. continued schemas (tasks.Finish place outer (operators.Let binder) ∷ self.old.tasks) (u ∷ t ∷ self.old.parts) self.old.scope self.old.declared.items))) }
    {
        let variable = binder.variable;
        self.tasks
            .push(Task::Finish(place, outer, Operator::Let(binder)))?;
        self.tasks.push(Task::Unbind)?;
        self.tasks.push(Task::Infer(Box::into_inner(body)))?;
        self.tasks.push(Task::Bind(variable))?;
        self.tasks.push(Task::Infer(Box::into_inner(value)))
    }
}
