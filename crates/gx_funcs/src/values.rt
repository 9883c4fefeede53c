// Functions over atomic values, applied to the values of their arguments.

ghost use Rattle.std.specs.Prelude.{◌≡◌, IfOk, IfErr, [], ◌∷◌, Some, Ok};
ghost use Rattle.gx_funcs.specs.Values.{lists_of, value_answer, answers, AnswersCall, FailsCall};

use crate::distinct::{distinct_values, index_of};
use crate::normal_forms::{normalize, normalize_to};
use crate::numbers::{average, foremost, of_one_number, sum};
use crate::strings::{
    codepoints_to_string, compare, string_to_codepoints, substring, substring_from,
};
use crate::value_function::ValueFunction;
use gx_atomic::Op;
use gx_base::code::Code;
use gx_facets::Atomic;
use std::alloc::{AllocError, Global};

/// Why a call of a function over atomic values answers no values.
#[derive(Clone, Copy, PartialEq, Eq)]
pub enum CallError {
    /// A dynamic error with this code.
    Raised(Code),
    /// The arguments are not of the function's parameters.
    NotOfParameters,
    /// Memory ran out.
    Memory,
}

impl From<AllocError> for CallError {
    ghost use Rattle.gx_funcs.specs.declared.values.CallError.TheVariants.{Memory};

    ghost from_gives = { λ _ e. e ≡ Memory };

    fn from(_error: AllocError) -> CallError {
        CallError::Memory
    }
}

/// The values that a function over atomic values answers of the values of its arguments (Functions and Operators, sections 6.4, 7.2,
/// 7.3.2, 7.4.3, 7.4.6, 15.1.3, 15.1.6 and 15.4). NotOfParameters exactly where these are not of its parameters.
#[tactic(auto, using(crate::proofs::CallLemmas::no_such_arity))]
pub fn apply_to_values(
    alloc: Global,
    function: ValueFunction,
    arguments: &[Vec<Atomic>],
) -> Result<Vec<Atomic>, CallError>
    ensures answered { IfOk result (λ v. value_answer function (lists_of arguments.now) ≡ Some (Ok v.items)) }
    ensures failed { IfErr result (λ error. FailsCall error (value_answer function (lists_of arguments.now))) }
{
    match arguments {
        [values] => of_one(alloc, function, values.as_slice()),
        [first, second] => of_two(alloc, function, first.as_slice(), second.as_slice()),
        [first, second, third] => of_three(
            alloc,
            function,
            first.as_slice(),
            second.as_slice(),
            third.as_slice(),
        ),
        _ => Err(CallError::NotOfParameters),
    }
}

// What a function answers of one argument.
fn of_one(
    alloc: Global,
    function: ValueFunction,
    values: &[Atomic],
) -> Result<Vec<Atomic>, CallError>
    ensures { AnswersCall result (value_answer function (values.now ∷ [])) }
{
    match function {
        ValueFunction::Sum => sum(alloc, values),
        ValueFunction::Average => average(alloc, values),
        ValueFunction::Min => foremost(alloc, Op::Lt, values),
        ValueFunction::Max => foremost(alloc, Op::Gt, values),
        ValueFunction::Abs | ValueFunction::Floor | ValueFunction::Ceiling | ValueFunction::Round =>
            of_one_number(alloc, function, values),
        ValueFunction::Normalize => normalize(alloc, values),
        ValueFunction::CodepointsToString => codepoints_to_string(alloc, values),
        ValueFunction::StringToCodepoints => string_to_codepoints(alloc, values),
        ValueFunction::DistinctValues => distinct_values(alloc, values),
        ValueFunction::SubstringFrom
        | ValueFunction::Substring
        | ValueFunction::Compare
        | ValueFunction::NormalizeTo
        | ValueFunction::IndexOf => Err(CallError::NotOfParameters),
    }
}

// What a function answers of two arguments.
fn of_two(
    alloc: Global,
    function: ValueFunction,
    first: &[Atomic],
    second: &[Atomic],
) -> Result<Vec<Atomic>, CallError>
    ensures { AnswersCall result (value_answer function (first.now ∷ second.now ∷ [])) }
{
    match function {
        ValueFunction::SubstringFrom => substring_from(alloc, first, second),
        ValueFunction::Compare => compare(alloc, first, second),
        ValueFunction::NormalizeTo => normalize_to(alloc, first, second),
        ValueFunction::IndexOf => index_of(alloc, first, second),
        _ => Err(CallError::NotOfParameters),
    }
}

// What a function answers of three arguments.
fn of_three(
    alloc: Global,
    function: ValueFunction,
    first: &[Atomic],
    second: &[Atomic],
    third: &[Atomic],
) -> Result<Vec<Atomic>, CallError>
    ensures { AnswersCall result (value_answer function (first.now ∷ second.now ∷ third.now ∷ [])) }
{
    match function {
        ValueFunction::Substring => substring(alloc, first, second, third),
        _ => Err(CallError::NotOfParameters),
    }
}

// One value as an answer.
pub(crate) fn one_value(alloc: Global, atom: Atomic) -> Result<Vec<Atomic>, CallError>
    ensures { AnswersCall result (answers (atom ∷ [])) }
{
    Ok(list_of_one(alloc, atom)?)
}

fn list_of_one(alloc: Global, atom: Atomic) -> Result<Vec<Atomic>, AllocError>
    ensures { IfOk result (λ v. v.items ≡ atom ∷ []) }
{
    Ok(vec![in alloc; atom]?)
}
