// An expression is opened: its parts are put to the work, with what is to be made of them.

ghost use Rattle.std.specs.Prelude.{◌≡◌, OnOk, IfErr};
ghost use Rattle.gx_model.specs.Forest.{Forest as PlainForest};
ghost use Rattle.gx_model.specs.Growth.{Extends};
ghost use Rattle.gx_core.specs.Bindings.{look_up};
ghost use Rattle.gx_core.specs.Outcome.{gives, given};
ghost use Rattle.gx_core.specs.Meaning.{CallOutcomes, Context};
ghost use Rattle.gx_core.specs.Paths.{stepped as step_meaning};
ghost use Rattle.gx_machine.specs.Failing.{FailsSo};
ghost use Rattle.gx_machine.specs.Resume.{context_with, outcome_of, outcome_with, outcome_behind, outcome_then, items_of};
ghost use Rattle.gx_machine.specs.declared.evaluation.Pending.TheVariants as work;

use crate::change::Change;
use crate::evaluation::{Evaluation, Pending};
use crate::failure::Failure;
use crate::nodes::{append_nodes, stepped};
use crate::operand::{append_all, push_atom};
use crate::single::Single;
use gx_core::expression::Form;
use gx_plan::plan::PlanExpr;
use gx_store::store::Store;
use gx_types::schemas::Schemas;
use gx_types::step::{Axis, Test};
use std::alloc::{AllocError, Global};

impl<'a> Evaluation<'a> {
    // Puts the parts of an expression to the work, with what is to be made of them.
    pub(crate) fn open(
        &mut self,
        alloc: Global,
        schemas: &Schemas,
        store: &Store,
        expression: &'a PlanExpr,
    ) -> Result<(), Failure>
        ensures value { (calls : CallOutcomes) (later : PlainForest) → Extends store.now later → OnOk result (outcome_of (context_with schemas.now calls) store.now later self.new ≡ outcome_with (context_with schemas.now calls) store.now later (work.Evaluate expression.entry) self.old) }
        ensures failed { (calls : CallOutcomes) (later : PlainForest) → Extends store.now later → IfErr result (λ e. FailsSo e (outcome_with (context_with schemas.now calls) store.now later (work.Evaluate expression.entry) self.old)) }
    {
        match &expression.form {
            Form::Lit(value) => Ok(push_atom(value.clone()?, &mut self.values)?),
            Form::Var(number) => self.append_variable(*number),
            Form::Empty => Ok(()),
            Form::Seq(left, right) => Ok(self.open_part(left, Pending::Evaluate(right))?),
            Form::For(binder, position, source, body) => {
                let role = expression.kind.role;
                Ok(self.open_for(alloc, role, binder, *position, source, body)?)
            }
            Form::SomeIn(binder, source, test) => Ok(self.open_search(binder, true, source, test)?),
            Form::EveryIn(binder, source, test) => {
                Ok(self.open_search(binder, false, source, test)?)
            }
            Form::Block(clauses, keys, body) => Ok(self.open_block(clauses, keys, body)?),
            Form::Let(binder, value, body) => Ok(self.open_let(binder, value, body)?),
            Form::If(condition, chosen, otherwise) => {
                Ok(self.open_if(condition, chosen, otherwise)?)
            }
            Form::Cast(operand, kind, allows_empty) => {
                self.open_single(
                    alloc,
                    schemas,
                    store,
                    Single::Cast(kind, *allows_empty),
                    operand,
                )
            }
            Form::Castable(operand, kind, allows_empty) => {
                let castable = Single::Castable(kind, *allows_empty);
                self.open_single(alloc, schemas, store, castable, operand)
            }
            Form::Treat(operand, kind) => Ok(self.open_change(Change::Treat(kind), operand)?),
            Form::Step(axis, test, from) => self.append_step(schemas, store, *axis, test, *from),
            Form::Nodes(operand) => Ok(self.open_change(Change::OnlyNodes, operand)?),
            Form::Order(operand) => Ok(self.open_ordered(operand)?),
            Form::Nth(operand, number, reverse) => {
                Ok(self.open_change(Change::Nth(*number, *reverse), operand)?)
            }
            Form::Final(operand, reverse) => {
                Ok(self.open_change(Change::Final(*reverse), operand)?)
            }
            Form::DataOf(operand) => Ok(self.open_change(Change::Data, operand)?),
            Form::NoContext => Err(Failure::Wrong),
            Form::Call(function, arguments) => {
                self.open_call(alloc, schemas, store, *function, arguments.as_slice())
            }
            Form::Construct(constructor, parts) => {
                Ok(self.open_construct(constructor, parts.as_slice())?)
            }
            Form::User(signature, arguments) => {
                Ok(self.open_user_call(signature, arguments.as_slice())?)
            }
            Form::Neg(operand) => self.open_single(alloc, schemas, store, Single::Neg, operand),
            Form::Binary(operator, left, right) => {
                self.open_binary(alloc, schemas, store, *operator, left, right)
            }
            Form::Switch(operand, cases, default, branches) => {
                Ok(self.open_switch(operand, cases.as_slice(), *default, branches.as_slice())?)
            }
        }
    }

    // A part that is evaluated first, and what is done behind it.
    pub(crate) fn open_part(
        &mut self,
        part: &'a PlanExpr,
        behind: Pending<'a>,
    ) -> Result<(), AllocError>
        ensures { (k : Context) (forest later : PlainForest) → OnOk result (outcome_of k forest later self.new ≡ outcome_then k forest later part.now behind.entry self.old) }
    {
        self.work.push(behind)?;
        self.work.push(Pending::Evaluate(part))
    }

    // Adds the value of a variable behind those that are there.
    fn append_variable(&mut self, number: u32) -> Result<(), Failure>
        ensures value { (k : Context) (forest later : PlainForest) → OnOk result (outcome_of k forest later self.new
            ≡ outcome_behind k later (given (look_up (items_of later self.old.scope) number) (λ xs. gives xs forest)) self.old) }
        ensures failed { (k : Context) (forest later : PlainForest) → IfErr result (λ e. FailsSo e
            (outcome_behind k later (given (look_up (items_of later self.old.scope) number) (λ xs. gives xs forest)) self.old)) }
    {
        match self.scope.find(number) {
            Some(bound) => Ok(append_all(bound.as_slice(), &mut self.values)?),
            None => Err(Failure::Wrong),
        }
    }

    // Adds the nodes of a step from the node of a variable.
    fn append_step(
        &mut self,
        schemas: &Schemas,
        store: &Store,
        axis: Axis,
        test: &Test,
        number: u32,
    ) -> Result<(), Failure>
        ensures value { (calls : CallOutcomes) (later : PlainForest) → Extends store.now later → OnOk result (outcome_of (context_with schemas.now calls) store.now later self.new
            ≡ outcome_behind (context_with schemas.now calls) later (given (look_up (items_of later self.old.scope) number) (λ xs. step_meaning schemas.now axis test.now xs store.now)) self.old) }
        ensures failed { (calls : CallOutcomes) (later : PlainForest) → Extends store.now later → IfErr result (λ e. FailsSo e
            (outcome_behind (context_with schemas.now calls) later (given (look_up (items_of later self.old.scope) number) (λ xs. step_meaning schemas.now axis test.now xs store.now)) self.old)) }
    {
        let Some(bound) = self.scope.find(number) else {
            return Err(Failure::Wrong);
        };
        let found = stepped(schemas, store, axis, test, bound.as_slice())?;
        Ok(append_nodes(found.as_slice(), &mut self.values)?)
    }
}
