// Functions over numbers (Functions and Operators, sections 6.4 and 15.4).

ghost use Rattle.std.specs.Prelude.{◌≡◌, Some, option_map, is_some};
ghost use Rattle.gx_num.specs.Arithmetic.{in_range_or_overflow};
ghost use Rattle.gx_funcs.specs.Numbers.{number_of_value, numbers_of_values, number_atom, number_answer, fault_code, sum_with, total, divided_by, average, compares, foremost, foremost_of, exact_of, of_one_number};
ghost use Rattle.gx_funcs.specs.Values.{AnswersCall, with_numbers, answers};

use crate::value_function::ValueFunction;
use crate::values::{CallError, one_value};
use gx_atomic::{Op, compare_single};
use gx_base::code::Code;
use gx_base::type_name::{Builtin, TypeName};
use gx_facets::{AtomValue, Atomic};
use gx_num::{NumFault, Number, abs, add, ceiling, div, floor, round};
use std::alloc::Global;

/// A number as an atomic value.
pub fn number_atom(number: Number) -> Atomic
    ensures { result ≡ number_atom number }
{
    let builtin = match number {
        Number::Int(_) => Builtin::Integer,
        Number::Dec(_) => Builtin::Decimal,
    };
    Atomic {
        value: AtomValue::Num(number),
        kind: TypeName::Builtin(builtin),
    }
}

/// The code of a fault of arithmetic (Functions and Operators, section 6.2).
pub fn fault_code(fault: NumFault) -> Code
    ensures { result ≡ fault_code fault }
{
    match fault {
        NumFault::Overflow => Code::FOAR0002,
        NumFault::DivZero => Code::FOAR0001,
    }
}

/// The number that a value is, if it is one.
pub fn number_of(value: &Atomic) -> Option<Number>
    ensures { result ≡ number_of_value value.now.value }
{
    match &value.value {
        AtomValue::Num(number) => Some(*number),
        _ => None,
    }
}

// Whether all values are numbers.
#[tactic(auto, using(crate::proofs::NumberLemmas::number_here, crate::proofs::NumberLemmas::number_missing))]
fn are_numbers(values: &[Atomic]) -> bool
    ensures { result ≡ is_some (numbers_of_values values.now) }
{
    let mut left = values;
    while let Some((value, others)) = left.split_first() {
        if number_of(value).is_none() {
            return false;
        }
        left = others;
    }
    true
}

// One number as an answer, or the code of its fault.
fn number_answer(alloc: Global, number: Result<Number, NumFault>) -> Result<Vec<Atomic>, CallError>
    ensures { AnswersCall result (Some (number_answer number)) }
{
    match number {
        Ok(number) => one_value(alloc, number_atom(number)),
        Err(fault) => Err(CallError::Raised(fault_code(fault))),
    }
}

/// The sum of numbers, from zero on (section 15.4.4).
#[tactic(auto, using(crate::proofs::NumberLemmas::sum_there, crate::proofs::NumberLemmas::sum_missing))]
pub(crate) fn sum(alloc: Global, values: &[Atomic]) -> Result<Vec<Atomic>, CallError>
    ensures { AnswersCall result (with_numbers values.now (λ ns. Some (number_answer (total ns)))) }
{
    match total(values) {
        Some(sum) => number_answer(alloc, sum),
        None => Err(CallError::NotOfParameters),
    }
}

// The sum of values, if all are numbers.
#[tactic(auto, using(crate::proofs::NumberLemmas::one_number_more, crate::proofs::NumberLemmas::number_missing))]
fn total(values: &[Atomic]) -> Option<Result<Number, NumFault>>
    ensures { result ≡ option_map total (numbers_of_values values.now) }
{
    let mut sum = Ok(Number::int(0));
    let mut left = values;
    while let Some((value, others)) = left.split_first() {
        sum = sum_with(sum, number_of(value)?);
        left = others;
    }
    Some(sum)
}

// A sum with a number more.
fn sum_with(sum: Result<Number, NumFault>, number: Number) -> Result<Number, NumFault>
    ensures { result ≡ sum_with sum number }
{
    add(sum?, number)
}

/// The average of numbers, if there is one (section 15.4.1).
#[tactic(auto, using(crate::proofs::NumberLemmas::average_there, crate::proofs::NumberLemmas::sum_missing))]
pub(crate) fn average(alloc: Global, values: &[Atomic]) -> Result<Vec<Atomic>, CallError>
    ensures { AnswersCall result (with_numbers values.now (λ ns. Some (average ns))) }
{
    if values.is_empty() {
        return Ok(Vec::new(alloc));
    }
    match total(values) {
        Some(sum) => number_answer(alloc, divided_by(sum, values.len() as i128)),
        None => Err(CallError::NotOfParameters),
    }
}

// A sum divided by a whole number.
fn divided_by(sum: Result<Number, NumFault>, count: i128) -> Result<Number, NumFault>
    ensures { result ≡ divided_by sum count }
{
    div(sum?, Number::int(count))
}

/// The first of the least numbers, or of the greatest ones, by the operator of their order (sections 15.4.3 and 15.4.2).
#[tactic(auto, using(crate::proofs::NumberLemmas::numbers_there, crate::proofs::NumberLemmas::numbers_missing))]
pub(crate) fn foremost(alloc: Global, op: Op, values: &[Atomic]) -> Result<Vec<Atomic>, CallError>
    ensures { AnswersCall result (with_numbers values.now (λ ns. answers (foremost_of op values.now))) }
{
    if !are_numbers(values) {
        return Err(CallError::NotOfParameters);
    }
    match values.split_first() {
        Some((first, others)) => one_value(alloc, foremost_among(op, first, others).clone()?),
        None => Ok(Vec::new(alloc)),
    }
}

// The first value that stands in an order to those before it, and is not behind those that follow.
fn foremost_among<'a>(op: Op, first: &'a Atomic, others: &'a [Atomic]) -> &'a Atomic
    ensures { result.now ≡ foremost op first.now others.now }
{
    let mut best = first;
    let mut left = others;
    while let Some((value, rest)) = left.split_first() {
        if compares(op, value, best) {
            best = value;
        }
        left = rest;
    }
    best
}

// Whether an operator holds of two values; it does of none that cannot be compared.
pub(crate) fn compares(op: Op, a: &Atomic, b: &Atomic) -> bool
    ensures { result ≡ compares op a.now b.now }
{
    compare_single(op, &a.value, &b.value).unwrap_or(false)
}

/// What `abs`, `floor`, `ceiling` and `round` make of at most one number (section 6.4).
#[tactic(auto, using(crate::proofs::NumberLemmas::no_one_number))]
pub(crate) fn of_one_number(
    alloc: Global,
    function: ValueFunction,
    values: &[Atomic],
) -> Result<Vec<Atomic>, CallError>
    ensures { AnswersCall result (with_numbers values.now (of_one_number (exact_of function))) }
{
    match values {
        [] => Ok(Vec::new(alloc)),
        [value] => match number_of(value) {
            Some(number) => number_answer(alloc, made_of(function, number)),
            None => Err(CallError::NotOfParameters),
        },
        _ => Err(CallError::NotOfParameters),
    }
}

// The number that a function makes of another.
fn made_of(function: ValueFunction, number: Number) -> Result<Number, NumFault>
    ensures { result ≡ in_range_or_overflow (exact_of function number) }
{
    match function {
        ValueFunction::Abs => abs(number),
        ValueFunction::Floor => floor(number),
        ValueFunction::Ceiling => ceiling(number),
        _ => round(number),
    }
}
