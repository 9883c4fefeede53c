// Calls of declared functions (XQuery 1.0, section 3.1.5): no call takes the machine's stack.

ghost use Rattle.std.specs.Prelude.{◌≡◌, ◌⊎◌, ℕ, ◌++◌, ◌∷◌, [], false, List, IfOk, OnOk, IfErr, option_copied, slice_get};
ghost use Rattle.gx_types.specs.SchemaSet.{SchemaSet};
ghost use Rattle.gx_model.specs.Forest.{Forest as PlainForest};
ghost use Rattle.gx_model.specs.Growth.{Extends};
ghost use Rattle.gx_model.specs.Item.{Items};
ghost use Rattle.gx_core.specs.Functions.{arguments_bound};
ghost use Rattle.gx_joins.specs.JoinedMeaning.{joined_calls, joined_context, joined_meaning as joined};
ghost use Rattle.gx_plan.specs.Plan.{FunctionOfPlan as PlainFunction};
ghost use Rattle.gx_core.specs.declared.signature.FunctionSignature.{FunctionSignature as PlainSignature};
ghost use Rattle.gx_core.specs.Meaning.{Bindings};
ghost use Rattle.gx_core.specs.Outcome.{Outcome, gives};
ghost use Rattle.gx_store.specs.Items.{items_in};
ghost use Rattle.gx_machine.specs.BoundItems.{bounds_in};
ghost use Rattle.gx_machine.specs.Failing.{FailsSo};
ghost use Rattle.gx_machine.specs.Growing.{GrowsHonestly};
ghost use Rattle.gx_machine.specs.Frames.{functions_in, frames_resumed, function_called, outcome_of_calls, outcome_of_calls_with};
ghost use Rattle.gx_machine.specs.Resume.{between_marks, items_of, outcome_behind};
ghost use Rattle.gx_machine.specs.declared.evaluation.Pending.TheVariants as work;

use crate::bound::{Bound, take_bound};
use crate::converting::{converted_arguments, converted_value};
use crate::evaluation::{Evaluation, Pending};
use crate::failure::Failure;
use crate::locals::Locals;
use crate::operand::move_behind;
use gx_base::code::Code;
use gx_base::stack::Stack;
use gx_core::expression::Binder;
use gx_core::scope::Scope;
use gx_core::signature::FunctionSignature;
use gx_join_table::steps::Steps;
use gx_plan::plan::{PlanExpr, PlanFunction};
use gx_store::item::Item;
use gx_store::store::Store;
use gx_types::schemas::Schemas;
use gx_types::sequence_type::Ty;
use std::alloc::{AllocError, Global};
use std::mem;
use std::sync::ledger::Ledger;

// The functions of a query in the order of their declarations, and its globals that are bound.
#[derive(Clone, Copy)]
pub(crate) struct Declared<'a> {
    pub(crate) functions: &'a [&'a PlanFunction],
    pub(crate) globals: &'a Scope<Bound>,
}

// An evaluation that waits for the value of a function which it has called, in which so many more calls may be active, and the type of
// the function's result.
#[derive(Drop)]
pub(crate) struct Frame<'a> {
    evaluation: Evaluation<'a>,
    left: u32,
    result: &'a Ty,
}

// An expression in its midst: the evaluation of the innermost call, or of the expression where there is none; how many more calls may
// be active in it; and the evaluations that wait.
#[derive(Drop)]
pub(crate) struct ActiveCalls<'a> {
    innermost: Evaluation<'a>,
    left: u32,
    waiting: Stack<Frame<'a>>,
}

impl<'a> ActiveCalls<'a> {
    // An expression, in which so many calls may be active.
    fn new(
        alloc: Global,
        declared: Declared<'a>,
        limit: u32,
        expression: &'a PlanExpr,
    ) -> Result<ActiveCalls<'a>, AllocError>
        ensures { (schemas : SchemaSet) (forest later : PlainForest) → let globals = items_of later declared.entry.globals.now in
            IfOk result (λ active. outcome_of_calls schemas (functions_in declared.entry.functions.now) globals forest later active
            ≡ joined (joined_context schemas (functions_in declared.entry.functions.now) globals limit) expression.now globals forest) }
    {
        let scope = Locals::new(alloc, declared.globals);
        Ok(ActiveCalls {
            innermost: Evaluation::new(alloc, expression, scope)?,
            left: limit,
            waiting: Stack::new(alloc),
        })
    }

    // Does the next piece of work. Where none is left and no evaluation waits, there is nothing to do.
    fn advance<L: Ledger>(
        &mut self,
        alloc: Global,
        schemas: &Schemas,
        store: &mut Store,
        declared: Declared<'a>,
        steps: &mut Steps<L>,
    ) -> Result<bool, Failure>
        ensures grows { (store.new ≡ store.old) ⊎ GrowsHonestly schemas.now store.old store.new }
        ensures same { (later : PlainForest) → Extends store.new later → let globals = items_of later declared.entry.globals.now in
            OnOk result (outcome_of_calls schemas.now (functions_in declared.entry.functions.now) globals store.new later self.new
            ≡ outcome_of_calls schemas.now (functions_in declared.entry.functions.now) globals store.old later self.old) }
        ensures ended { (later : PlainForest) → let globals = items_of later declared.entry.globals.now in
            IfOk result (λ more. more ≡ false → outcome_of_calls schemas.now (functions_in declared.entry.functions.now) globals store.new later self.new
            ≡ gives (items_in later self.new.innermost.values.items) store.new) }
        ensures failed { (later : PlainForest) → Extends store.new later → let globals = items_of later declared.entry.globals.now in
            IfErr result (λ e. FailsSo e (outcome_of_calls schemas.now (functions_in declared.entry.functions.now) globals store.old later self.old)) }
    {
        if let Some(pending) = self.innermost.work.pop() {
            self.step(alloc, schemas, store, declared, pending, steps)?;
            return Ok(true);
        }
        let Some(frame) = self.waiting.pop() else {
            return Ok(false);
        };
        self.leave(alloc, schemas, store, frame)?;
        Ok(true)
    }

    // Does a piece of the work of the innermost call.
    fn step<L: Ledger>(
        &mut self,
        alloc: Global,
        schemas: &Schemas,
        store: &mut Store,
        declared: Declared<'a>,
        pending: Pending<'a>,
        steps: &mut Steps<L>,
    ) -> Result<(), Failure>
        ensures grows { (store.new ≡ store.old) ⊎ GrowsHonestly schemas.now store.old store.new }
        ensures value { (later : PlainForest) → Extends store.new later → let globals = items_of later declared.entry.globals.now in
            OnOk result (outcome_of_calls schemas.now (functions_in declared.entry.functions.now) globals store.new later self.new
            ≡ outcome_of_calls_with schemas.now (functions_in declared.entry.functions.now) globals store.old later pending.entry self.old) }
        ensures failed { (later : PlainForest) → Extends store.new later → let globals = items_of later declared.entry.globals.now in
            IfErr result (λ e. FailsSo e (outcome_of_calls_with schemas.now (functions_in declared.entry.functions.now) globals store.old later pending.entry self.old)) }
    {
        match pending {
            Pending::Enter(signature, count) => {
                self.enter(alloc, schemas, store, declared, signature, count)
            }
            other => self.innermost.step(alloc, schemas, store, other, steps),
        }
    }

    // Calls a function with so many arguments, which stand behind the last marks.
    fn enter(
        &mut self,
        alloc: Global,
        schemas: &Schemas,
        store: &Store,
        declared: Declared<'a>,
        signature: &'a FunctionSignature,
        count: usize,
    ) -> Result<(), Failure>
        ensures value { (later : PlainForest) → Extends store.now later → let globals = items_of later declared.entry.globals.now in
            OnOk result (outcome_of_calls schemas.now (functions_in declared.entry.functions.now) globals store.now later self.new
            ≡ outcome_of_calls_with schemas.now (functions_in declared.entry.functions.now) globals store.now later (work.Enter signature.entry count) self.old) }
        ensures failed { (later : PlainForest) → Extends store.now later → let globals = items_of later declared.entry.globals.now in
            IfErr result (λ e. FailsSo e (outcome_of_calls_with schemas.now (functions_in declared.entry.functions.now) globals store.now later (work.Enter signature.entry count) self.old)) }
    {
        let caller = &mut self.innermost;
        let operands = take_arguments(alloc, count, &mut caller.marks, &mut caller.values)?;
        let parameters = signature.parameters.as_slice();
        let arguments = converted_arguments(alloc, schemas, store, parameters, operands)?;
        self.call(alloc, declared, signature.number, arguments)
    }

    // Calls the function of a number with these arguments, where a call may still be active.
    fn call(
        &mut self,
        alloc: Global,
        declared: Declared<'a>,
        number: u32,
        arguments: Vec<Bound>,
    ) -> Result<(), Failure>
        ensures value { (schemas : SchemaSet) (signature : PlainSignature) (forest later : PlainForest) → signature.number ≡ number → let globals = items_of later declared.entry.globals.now in
            OnOk result (outcome_of_calls schemas (functions_in declared.entry.functions.now) globals forest later self.new
            ≡ frames_resumed schemas (functions_in declared.entry.functions.now) globals later self.old.waiting (outcome_behind (joined_context schemas (functions_in declared.entry.functions.now) globals self.old.left) later
            (joined_calls schemas (functions_in declared.entry.functions.now) globals self.old.left signature (bounds_in later arguments.items) forest) self.old.innermost)) }
        ensures failed { (schemas : SchemaSet) (signature : PlainSignature) (forest later : PlainForest) → signature.number ≡ number → let globals = items_of later declared.entry.globals.now in
            IfErr result (λ e. FailsSo e (joined_calls schemas (functions_in declared.entry.functions.now) globals self.old.left signature (bounds_in later arguments.items) forest)) }
    {
        let Some(left) = self.left.checked_sub(1) else {
            drop(arguments);
            return Err(Failure::Raised(Code::GLXD0001));
        };
        let Some(function) = function_at(declared.functions, number) else {
            drop(arguments);
            return Err(Failure::Wrong);
        };
        Ok(self.open_body(alloc, declared.globals, left, function, arguments)?)
    }

    // The body of a function is evaluated, in which so many calls may be active.
    fn open_body(
        &mut self,
        alloc: Global,
        globals: &'a Scope<Bound>,
        left: u32,
        function: &'a PlanFunction,
        arguments: Vec<Bound>,
    ) -> Result<(), AllocError>
        ensures { (schemas : SchemaSet) (functions : List PlainFunction) (forest later : PlainForest) → let bound = items_of later globals.now in
            OnOk result (outcome_of_calls schemas functions bound forest later self.new
            ≡ frames_resumed schemas functions bound later self.old.waiting (outcome_behind (joined_context schemas functions bound self.old.left) later
            (function_called schemas functions bound left (bounds_in later arguments.items) forest function.now) self.old.innermost)) }
    {
        let mut scope = Locals::new(alloc, globals);
        bind_arguments(function.parameters.as_slice(), arguments, &mut scope)?;
        let body = Evaluation::new(alloc, &function.body, scope)?;
        let caller = mem::replace(&mut self.innermost, body);
        let waiting = Frame {
            evaluation: caller,
            left: mem::replace(&mut self.left, left),
            result: &function.result,
        };
        Ok(self.waiting.push(waiting)?)
    }

    // Gives the value of the innermost call to the evaluation that waits for it.
    fn leave(
        &mut self,
        alloc: Global,
        schemas: &Schemas,
        store: &Store,
        frame: Frame<'a>,
    ) -> Result<(), Failure>
        ensures value { (functions : List PlainFunction) (globals : Bindings) (later : PlainForest) → Extends store.now later → OnOk result (
            outcome_of_calls schemas.now functions globals store.now later self.new
            ≡ frames_resumed schemas.now functions globals later (frame.entry ∷ self.old.waiting) (gives (items_in later self.old.innermost.values.items) store.now)) }
        ensures failed { (functions : List PlainFunction) (globals : Bindings) (later : PlainForest) → Extends store.now later → IfErr result (λ e. FailsSo e (
            frames_resumed schemas.now functions globals later (frame.entry ∷ self.old.waiting) (gives (items_in later self.old.innermost.values.items) store.now))) }
    {
        let Frame {
            evaluation,
            left,
            result,
        } = frame;
        let called = mem::replace(&mut self.innermost, evaluation);
        self.left = left;
        let value = values_of(called);
        let found = converted_value(alloc, schemas, store, result, value)?;
        Ok(move_behind(found, &mut self.innermost.values)?)
    }
}

// The value of an expression in which so many calls may be active. The work ends long before the loop does.
pub(crate) fn value_of<L: Ledger>(
    alloc: Global,
    schemas: &Schemas,
    store: &mut Store,
    declared: Declared<'_>,
    limit: u32,
    expression: &PlanExpr,
    steps: &mut Steps<L>,
) -> Result<Vec<Item>, Failure>
    ensures grows { GrowsHonestly schemas.now store.old store.new }
    ensures value { (later : PlainForest) → Extends store.new later → let globals = items_of later declared.entry.globals.now in IfOk result (λ v.
        joined (joined_context schemas.now (functions_in declared.entry.functions.now) globals limit) expression.now globals store.old ≡ gives (items_in later v.items) store.new) }
    ensures failed { (later : PlainForest) → Extends store.new later → let globals = items_of later declared.entry.globals.now in IfErr result (λ e.
        FailsSo e (joined (joined_context schemas.now (functions_in declared.entry.functions.now) globals limit) expression.now globals store.old)) }
{
    let mut active = ActiveCalls::new(alloc, declared, limit, expression)?;
    for _ in 0..u64::MAX {
        if !active.advance(alloc, schemas, store, declared, steps)? {
            return Ok(values_of(active.innermost));
        }
    }
    Err(Failure::Memory)
}

// The values of an evaluation that is at its end.
fn values_of(evaluation: Evaluation<'_>) -> Vec<Item>
    ensures { result.items ≡ evaluation.entry.values.items }
{
    let Evaluation { values, .. } = evaluation;
    values
}

// The function of a number.
fn function_at<'a>(functions: &[&'a PlanFunction], number: u32) -> Option<&'a PlanFunction>
    ensures { option_copied result ≡ slice_get (functions_in functions.now) number }
{
    functions.get(number as usize).copied()
}

// Takes the arguments behind so many last marks, in order.
fn take_arguments(
    alloc: Global,
    count: usize,
    marks: &mut Stack<usize>,
    values: &mut Vec<Item>,
) -> Result<Stack<Bound>, Failure>
    ensures taken { (later : PlainForest) (next : List Items → List ℕ → Items → Outcome Items) → IfOk result (λ arguments.
        between_marks count marks.old (items_in later values.old.items) [] next ≡ next (bounds_in later arguments) marks.new (items_in later values.new.items)) }
    ensures failed { (later : PlainForest) (next : List Items → List ℕ → Items → Outcome Items) → IfErr result (λ e.
        FailsSo e (between_marks count marks.old (items_in later values.old.items) [] next)) }
{
    let mut arguments = Stack::new(alloc);
    for _ in 0..count {
        let Some(mark) = marks.pop() else {
            return Err(Failure::Wrong);
        };
        arguments.push(take_bound(alloc, values, mark)?)?;
    }
    Ok(arguments)
}

// Binds each parameter to its argument, the first one innermost.
fn bind_arguments(
    parameters: &[Binder],
    arguments: Vec<Bound>,
    scope: &mut Locals<'_>,
) -> Result<(), AllocError>
    ensures { (later : PlainForest) → OnOk result (items_of later scope.new ≡ arguments_bound parameters.now (bounds_in later arguments.items) ++ items_of later scope.old) }
{
    let mut arguments = arguments;
    arguments.truncate(parameters.len());
    let mut rest = &parameters[..arguments.len()];
    while let Some((parameter, front)) = rest.split_last() {
        let Some(argument) = arguments.pop() else {
            return Err(AllocError);
        };
        scope.bind(parameter.variable, argument)?;
        rest = front;
    }
    Ok(())
}
