// Calls of functions over atomic values (XQuery 1.0, section 3.1.5).

ghost use Rattle.std.specs.Prelude.{◌≡◌, ◌∷◌, [], IfOk, IfErr, List, Some};
ghost use Rattle.gx_facets.specs.declared.Atomic.{Atomic as AtomicValue};
ghost use Rattle.gx_funcs.specs.Function.{value_parameters_of};
ghost use Rattle.gx_funcs.specs.Values.{lists_of, value_answer};
ghost use Rattle.gx_model.specs.Forest.{Forest as PlainForest};
ghost use Rattle.gx_model.specs.Growth.{Extends};
ghost use Rattle.gx_model.specs.Item.{Items};
ghost use Rattle.gx_build.specs.Parts.{parts_in};
ghost use Rattle.gx_core.specs.Arguments.{argument_values, all_argument_values};
ghost use Rattle.gx_core.specs.Calling.{value_called};
ghost use Rattle.gx_core.specs.Comparing.{atoms_among as atoms_of};
ghost use Rattle.gx_core.specs.Outcome.{Outcome, gives, after, given};
ghost use Rattle.gx_store.specs.Items.{items_in};
ghost use Rattle.gx_machine.specs.Answering.{answer_items, AnswerFits, values_found};
ghost use Rattle.gx_machine.specs.Failing.{FailsSo};

use crate::answer::Answer;
use crate::converting::converted_items;
use crate::failure::Failure;
use crate::nodes::atomized;
use crate::operand::atoms_among;
use gx_base::type_name::TypeName;
use gx_facets::Atomic;
use gx_funcs::function::{Conversion, Function};
use gx_funcs::value_function::ValueFunction;
use gx_funcs::values::{CallError, apply_to_values};
use gx_store::item::Item;
use gx_store::store::Store;
use gx_types::schemas::Schemas;
use std::alloc::Global;

// What a function answers of one argument.
pub(crate) fn called_with_value(
    alloc: Global,
    schemas: &Schemas,
    store: &Store,
    function: ValueFunction,
    argument: &[Item],
) -> Result<Answer, Failure>
    ensures value { (later : PlainForest) → Extends store.now later → IfOk result (λ r. value_called schemas.now function (items_in later argument.now ∷ []) store.now ≡ gives (answer_items later r) store.now) }
    ensures fits { IfOk result (λ r. AnswerFits r) }
    ensures failed { (later : PlainForest) → Extends store.now later → IfErr result (λ e. FailsSo e (value_called schemas.now function (items_in later argument.now ∷ []) store.now)) }
{
    let Some(parameter) = Function::OfValues(function).parameter(0) else {
        return Err(Failure::Wrong);
    };
    let values = argument_values(
        alloc,
        schemas,
        store,
        parameter.takes.conversion(),
        argument,
    )?;
    if Function::OfValues(function).arity() != 1 {
        drop(values);
        return Err(Failure::Wrong);
    }
    let mut arguments = Vec::with_capacity(alloc, 1)?;
    arguments.push(values)?;
    answer_of(alloc, function, arguments.as_slice())
}

// What a function answers of several arguments.
pub(crate) fn called_with_values(
    alloc: Global,
    schemas: &Schemas,
    store: &Store,
    function: ValueFunction,
    operands: &[Vec<Item>],
) -> Result<Answer, Failure>
    ensures value { (later : PlainForest) → Extends store.now later → IfOk result (λ r. value_called schemas.now function (parts_in later operands.now) store.now ≡ gives (answer_items later r) store.now) }
    ensures fits { IfOk result (λ r. AnswerFits r) }
    ensures failed { (later : PlainForest) → Extends store.now later → IfErr result (λ e. FailsSo e (value_called schemas.now function (parts_in later operands.now) store.now)) }
{
    let arguments = all_argument_values(alloc, schemas, store, function, operands)?;
    answer_of(alloc, function, arguments.as_slice())
}

// The atomic values of arguments from the left, each as its parameter asks for it.
fn all_argument_values(
    alloc: Global,
    schemas: &Schemas,
    store: &Store,
    function: ValueFunction,
    operands: &[Vec<Item>],
) -> Result<Vec<Vec<Atomic>>, Failure>
    ensures value { (later : PlainForest) → Extends store.now later → IfOk result (λ found.
        all_argument_values schemas.now (value_parameters_of function) (parts_in later operands.now) store.now ≡ gives (lists_of found.items) store.now) }
    ensures failed { (later : PlainForest) (next : List (List AtomicValue) → PlainForest → Outcome Items) → Extends store.now later → IfErr result (λ e.
        FailsSo e (after (all_argument_values schemas.now (value_parameters_of function) (parts_in later operands.now) store.now) next)) }
{
    let mut found = Vec::with_capacity(alloc, operands.len())?;
    let mut left = operands;
    let mut number = 0;
    while let Some((operand, others)) = left.split_first() {
        let Some(parameter) = Function::OfValues(function).parameter(number) else {
            return Err(Failure::Wrong);
        };
        let conversion = parameter.takes.conversion();
        found.push(argument_values(alloc, schemas, store, conversion, operand.as_slice())?)?;
        left = others;
        number += 1;
    }
    if number == Function::OfValues(function).arity() {
        Ok(found)
    } else {
        Err(Failure::Wrong)
    }
}

// The atomic values of an argument.
fn argument_values(
    alloc: Global,
    schemas: &Schemas,
    store: &Store,
    conversion: Conversion,
    argument: &[Item],
) -> Result<Vec<Atomic>, Failure>
    ensures value { (later : PlainForest) → Extends store.now later → IfOk result (λ values. argument_values conversion schemas.now (items_in later argument.now) store.now ≡ gives values.items store.now) }
    ensures failed { (later : PlainForest) (next : List AtomicValue → PlainForest → Outcome Items) → Extends store.now later → IfErr result (λ e.
        FailsSo e (after (argument_values conversion schemas.now (items_in later argument.now) store.now) next)) }
{
    match conversion {
        Conversion::Nothing => only_atoms(alloc, argument),
        Conversion::Data => {
            let typed = atomized(alloc, schemas, store, argument)?;
            only_atoms(alloc, typed.as_slice())
        }
        Conversion::DataAndCast(kind) => {
            let kind = TypeName::Builtin(kind);
            let cast = converted_items(alloc, schemas, store, &kind, argument)?;
            only_atoms(alloc, cast.as_slice())
        }
    }
}

// The atomic values that items are.
fn only_atoms(alloc: Global, items: &[Item]) -> Result<Vec<Atomic>, Failure>
    ensures value { (later : PlainForest) → IfOk result (λ values. atoms_of (items_in later items.now) ≡ Some values.items) }
    ensures failed { (later : PlainForest) (next : List AtomicValue → Outcome Items) → IfErr result (λ e. FailsSo e (given (atoms_of (items_in later items.now)) next)) }
{
    match atoms_among(alloc, items)? {
        Some(values) => Ok(values),
        None => Err(Failure::Wrong),
    }
}

// What a function answers of the values of its arguments.
fn answer_of(
    alloc: Global,
    function: ValueFunction,
    arguments: &[Vec<Atomic>],
) -> Result<Answer, Failure>
    ensures value { (forest later : PlainForest) → IfOk result (λ r. values_found (value_answer function (lists_of arguments.now)) forest ≡ gives (answer_items later r) forest) }
    ensures fits { IfOk result (λ r. AnswerFits r) }
    ensures failed { (forest : PlainForest) → IfErr result (λ e. FailsSo e (values_found (value_answer function (lists_of arguments.now)) forest)) }
{
    match apply_to_values(alloc, function, arguments) {
        Ok(values) => Ok(Answer::Values(values)),
        Err(CallError::Raised(code)) => Err(Failure::Raised(code)),
        Err(CallError::NotOfParameters) => Err(Failure::Wrong),
        Err(CallError::Memory) => Err(Failure::Memory),
    }
}
