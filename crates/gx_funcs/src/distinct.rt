// Values that are equal (Functions and Operators, sections 15.1.3, 15.1.6 and 15.3.1).

ghost use Rattle.std.specs.Prelude.{◌≡◌, ◌∷◌, [], IfOk};
ghost use Rattle.gx_funcs.specs.Distinct.{are_equal_values, distinct_values, equal_positions};
ghost use Rattle.gx_funcs.specs.Values.{AnswersCall, answers, value_answer};
ghost use Rattle.gx_funcs.specs.declared.value_function.ValueFunction.TheVariants as functions;

use crate::function::integer_atom;
use crate::numbers::compares;
use crate::values::CallError;
use gx_atomic::{Op, key};
use gx_facets::Atomic;
use std::alloc::{AllocError, Global};
use std::collections::HashSet;

/// Whether two values are equal; values that cannot be compared are not (section 15.3.1).
pub fn are_equal_values(a: &Atomic, b: &Atomic) -> bool
    ensures { result ≡ are_equal_values a.now b.now }
{
    compares(Op::Eq, a, b)
}

/// The values of which none before them is equal (section 15.1.6).
pub(crate) fn distinct_values(alloc: Global, values: &[Atomic]) -> Result<Vec<Atomic>, CallError>
    ensures { AnswersCall result (answers (distinct_values values.now)) }
{
    Ok(first_of_equals(alloc, values)?)
}

fn first_of_equals(alloc: Global, values: &[Atomic]) -> Result<Vec<Atomic>, AllocError>
    ensures { IfOk result (λ v. v.items ≡ distinct_values values.now) }
{
    let mut seen = HashSet::new(alloc);
    let mut found = Vec::new(alloc);
    let mut left = values;
    while let Some((value, others)) = left.split_first() {
        if seen.insert(key(value)?)? {
            found.push(value.clone()?)?;
        }
        left = others;
    }
    Ok(found)
}

/// The positions of the values that are equal to one (section 15.1.3).
pub(crate) fn index_of(
    alloc: Global,
    values: &[Atomic],
    searched: &[Atomic],
) -> Result<Vec<Atomic>, CallError>
    ensures { AnswersCall result (value_answer functions.IndexOf (values.now ∷ searched.now ∷ [])) }
{
    match searched {
        [searched] => Ok(equal_positions(alloc, searched, values)?),
        _ => Err(CallError::NotOfParameters),
    }
}

fn equal_positions(
    alloc: Global,
    searched: &Atomic,
    values: &[Atomic],
) -> Result<Vec<Atomic>, AllocError>
    ensures { IfOk result (λ v. v.items ≡ equal_positions searched.now values.now) }
{
    let mut positions = Vec::new(alloc);
    for (index, value) in values.iter().enumerate() {
        if are_equal_values(value, searched) {
            positions.push(integer_atom(index as i128 + 1))?;
        }
    }
    Ok(positions)
}
