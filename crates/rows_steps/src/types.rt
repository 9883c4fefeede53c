// Rows of the types of steps and of typed values.

use crate::arguments::{axis_of, test_of};
use gx_base::limits::FILE_BYTES;
use gx_base::text::Text;
use gx_steptype::axis_type::axis_type;
use gx_steptype::data_type::data_type;
use gx_steptype::error::StepError;
use gx_types::schemas::Schemas;
use gx_types::sequence_type::Ty;
use gx_types::step::Test;
use gx_typetext::print::print_type;
use gx_typetext::read::{TypeRead, read_type};
use rows_words::not_a_row;
use std::alloc::{AllocError, Global};

/// The type of a step along an axis from a node of a type that is written as a text.
pub fn type_row(alloc: Global, along: &str, test: &str, text: &str) -> Result<String, AllocError> {
    let test = test_of(alloc, test)?;
    let schemas = Schemas::empty(alloc)?;
    type_of_step(alloc, &schemas, along, &test, text)
}

/// The type of the typed values of a type that is written as a text.
pub fn data_row(alloc: Global, text: &str) -> Result<String, AllocError> {
    let schemas = Schemas::empty(alloc)?;
    type_of_values(alloc, &schemas, text)
}

fn type_of_step(
    alloc: Global,
    schemas: &Schemas,
    along: &str,
    test: &Test,
    text: &str,
) -> Result<String, AllocError> {
    match read(alloc, schemas, text) {
        Ok(context) => shown_step(alloc, schemas, along, test, &context),
        Err(_) => not_a_row(alloc),
    }
}

fn type_of_values(alloc: Global, schemas: &Schemas, text: &str) -> Result<String, AllocError> {
    match read(alloc, schemas, text) {
        Ok(t) => shown(alloc, data_type(alloc, schemas, &t)),
        Err(_) => not_a_row(alloc),
    }
}

fn shown_step(
    alloc: Global,
    schemas: &Schemas,
    along: &str,
    test: &Test,
    context: &Ty,
) -> Result<String, AllocError> {
    match axis_of(along) {
        Some(axis) => shown(alloc, axis_type(alloc, schemas, axis, test, context)),
        None => not_a_row(alloc),
    }
}

// A type as its text, or the refusal.
fn shown(alloc: Global, answer: Result<Ty, StepError>) -> Result<String, AllocError> {
    match answer {
        Ok(t) => shown_type(alloc, &t),
        Err(error) => format!(in alloc; "{error:?}"),
    }
}

fn shown_type(alloc: Global, t: &Ty) -> Result<String, AllocError> {
    format!(in alloc; "{}", print_type(alloc, t)?.as_str())
}

fn read(alloc: Global, schemas: &Schemas, text: &str) -> Result<Ty, TypeRead> {
    let text = Text::from_str(alloc, text)?;
    if text.as_str().len() > FILE_BYTES {
        return Err(TypeRead::Memory);
    }
    read_type(alloc, schemas, &text)
}
