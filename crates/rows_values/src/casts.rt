// Rows of casts, of values that fit a type, and of effective boolean values.

use crate::values::{atomic, value};
use gx_atomic::{CastError, cast, effective_boolean_value, fits};
use gx_base::type_name::TypeName;
use gx_facets::{Atomic, print_value};
use gx_types::schemas::Schemas;
use rows_words::names::type_name;
use std::alloc::{AllocError, Global};

/// The cast of the value of a text at a type to another type.
pub fn cast_row(alloc: Global, kind: &str, text: &str, to: &str) -> Result<String, AllocError> {
    let to = type_name(alloc, to)?;
    match atomic(alloc, kind, text) {
        Ok(a) => cast_answer(alloc, &a, &to),
        Err(fault) => format!(in alloc; "{fault:?}"),
    }
}

fn cast_answer(alloc: Global, a: &Atomic, to: &TypeName) -> Result<String, AllocError> {
    let schemas = Schemas::empty(alloc)?;
    match cast(alloc, &schemas, a, to) {
        Ok(found) => shown(alloc, &found),
        Err(error) => fault(alloc, error),
    }
}

fn shown(alloc: Global, a: &Atomic) -> Result<String, AllocError> {
    let text = print_value(alloc, &a.value)?;
    let kind = &a.kind;
    format!(in alloc; "{kind:?} {text:?}")
}

/// The code of an error.
pub fn fault(alloc: Global, error: CastError) -> Result<String, AllocError> {
    match error.code() {
        Some(code) => String::from_str(alloc, code.text()),
        None => String::from_str(alloc, "no memory"),
    }
}

/// Whether the value of a text at a type fits another type.
pub fn fits_row(alloc: Global, kind: &str, text: &str, to: &str) -> Result<String, AllocError> {
    let to = type_name(alloc, to)?;
    match atomic(alloc, kind, text) {
        Ok(a) => fits_answer(alloc, a, to),
        Err(fault) => format!(in alloc; "{fault:?}"),
    }
}

fn fits_answer(alloc: Global, a: Atomic, to: TypeName) -> Result<String, AllocError> {
    let schemas = Schemas::empty(alloc)?;
    let a = Atomic {
        value: a.value.clone()?,
        kind: to,
    };
    format!(in alloc; "{}", fits(&schemas, &a))
}

/// The effective boolean value of the value of a text at a type.
pub fn effective_row(alloc: Global, kind: &str, text: &str) -> Result<String, AllocError> {
    match value(alloc, kind, text) {
        Ok(value) => format!(in alloc; "{}", effective_boolean_value(&value)),
        Err(fault) => format!(in alloc; "{fault:?}"),
    }
}
