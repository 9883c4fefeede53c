// Rows of functions over atomic values.

use crate::values::atomics;
use gx_base::text::Text;
use gx_facets::{Atomic, print_value};
use gx_funcs::function::{Function, find_local};
use gx_funcs::value_function::ValueFunction;
use gx_funcs::values::{CallError, apply_to_values};
use rows_words::not_a_row;
use std::alloc::{AllocError, Global};

/// What the function of a name answers of arguments, which have a comma between them, each with the types and the texts of its values.
pub fn call_row(alloc: Global, name: &str, words: &[&str]) -> Result<String, AllocError> {
    let arguments = arguments(alloc, words)?;
    let name = Text::from_str(alloc, name)?;
    match find_local(&name, arguments.len()) {
        Some(Function::OfValues(function)) => called(alloc, function, arguments.as_slice()),
        _ => not_a_row(alloc),
    }
}

fn arguments(alloc: Global, words: &[&str]) -> Result<Vec<Vec<Atomic>>, AllocError> {
    let mut arguments = Vec::new(alloc);
    for argument in words.split(|word| *word == ",") {
        arguments.push(atomics(alloc, argument)?)?;
    }
    Ok(arguments)
}

fn called(
    alloc: Global,
    function: ValueFunction,
    arguments: &[Vec<Atomic>],
) -> Result<String, AllocError> {
    match apply_to_values(alloc, function, arguments) {
        Ok(values) => shown(alloc, values.as_slice()),
        Err(CallError::Raised(code)) => String::from_str(alloc, code.text()),
        Err(CallError::NotOfParameters) => String::from_str(alloc, "not of the parameters"),
        Err(CallError::Memory) => Err(AllocError),
    }
}

fn shown(alloc: Global, values: &[Atomic]) -> Result<String, AllocError> {
    let mut row = format!(in alloc; "{} values", values.len())?;
    for value in values {
        let text = print_value(alloc, &value.value)?;
        let kind = &value.kind;
        let item = format!(in alloc; ", {kind:?} {text:?}")?;
        row.push_str(item.as_str())?;
    }
    Ok(row)
}
