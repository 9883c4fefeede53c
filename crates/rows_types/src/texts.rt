// Rows of type texts.

use crate::inclusions::verdict_row;
use gx_base::limits::{FILE_BYTES, INCLUSION_PAIRS};
use gx_base::text::Text;
use gx_types::schemas::Schemas;
use gx_types::sequence_type::Ty;
use gx_typetext::print::print_type;
use gx_typetext::read::{TypeRead, read_type};
use std::alloc::{AllocError, Global};

/// The type that a text is read as, printed, or why it is none.
pub fn read_row(alloc: Global, text: &str) -> Result<String, AllocError> {
    match read(alloc, text) {
        Ok(t) => format!(in alloc; "{}", print_type(alloc, &t)?.as_str()),
        Err(error) => error_row(alloc, &error),
    }
}

/// Whether the type of one text is included in that of another one.
pub fn texts_row(alloc: Global, left: &str, right: &str) -> Result<String, AllocError> {
    match read(alloc, left) {
        Ok(left) => right_row(alloc, &left, right),
        Err(error) => error_row(alloc, &error),
    }
}

fn right_row(alloc: Global, left: &Ty, right: &str) -> Result<String, AllocError> {
    match read(alloc, right) {
        Ok(right) => verdict_row(alloc, left, &right, Some(INCLUSION_PAIRS as u64)),
        Err(error) => error_row(alloc, &error),
    }
}

fn read(alloc: Global, text: &str) -> Result<Ty, TypeRead> {
    let schemas = Schemas::empty(alloc)?;
    let text = Text::from_str(alloc, text)?;
    if text.as_str().len() > FILE_BYTES {
        return Err(TypeRead::Memory);
    }
    read_type(alloc, &schemas, &text)
}

fn error_row(alloc: Global, error: &TypeRead) -> Result<String, AllocError> {
    match error {
        TypeRead::BadType(place) => format!(in alloc; "BadType {}:{}", place.line, place.column),
        TypeRead::UnknownName(name) => format!(in alloc; "UnknownName {}", name.as_str()),
        TypeRead::Memory => String::from_str(alloc, "no memory"),
    }
}
