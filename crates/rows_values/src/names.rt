// Rows of texts and names.

use gx_base::text::Text;
use gx_base::text_builder::TextBuilder;
use gx_base::type_name::TypeName;
use rows_words::names::{name, type_name};
use std::alloc::{AllocError, Global};

/// The text of a text, a string slice and a mark, one behind the other.
pub fn build_row(alloc: Global, first: &str, second: &str) -> Result<String, AllocError> {
    let mut builder = TextBuilder::new(alloc);
    builder.push_text(&Text::from_str(alloc, first)?)?;
    builder.push_str(second)?;
    builder.push('!')?;
    format!(in alloc; "{:?}", builder.finish()?)
}

/// The order of two texts, and whether they are equal.
pub fn texts_row(alloc: Global, a: &str, b: &str) -> Result<String, AllocError> {
    let a = Text::from_str(alloc, a)?;
    let b = Text::from_str(alloc, b)?;
    compared(alloc, &a, &b)
}

/// The order of two names, and whether they are equal.
pub fn names_row(alloc: Global, a: &str, b: &str) -> Result<String, AllocError> {
    let a = name(alloc, a)?;
    let b = name(alloc, b)?;
    compared(alloc, &a, &b)
}

/// The order of two names of types, and whether they are equal.
pub fn type_names_row(alloc: Global, a: &str, b: &str) -> Result<String, AllocError> {
    let a = type_name(alloc, a)?;
    with_type_name(alloc, &a, b)
}

fn with_type_name(alloc: Global, a: &TypeName, b: &str) -> Result<String, AllocError> {
    let b = type_name(alloc, b)?;
    compared(alloc, a, &b)
}

fn compared<T: Ord>(alloc: Global, a: &T, b: &T) -> Result<String, AllocError> {
    format!(in alloc; "{:?} {}", a.cmp(b), a == b)
}
