// Rows of atomic values and facets.

use gx_base::text::Text;
use gx_base::type_name::{Builtin, TypeName};
use gx_facets::restriction::{AtomValues, Enumeration};
use gx_facets::{
    AtomValue, Atomic, Facets, ValueRead, admits, admits_list, compare_values, print_value,
    read_value,
};
use gx_num::Number;
use rows_words::builtins::builtin;
use std::alloc::{AllocError, Global};

/// The value of a text at a built-in type.
pub fn value(alloc: Global, kind: &str, text: &str) -> Result<AtomValue, ValueRead> {
    let kind = builtin(kind).unwrap_or(Builtin::AnyType);
    read_value(alloc, kind, &Text::from_str(alloc, text)?)
}

/// The value with the type.
pub fn atomic(alloc: Global, kind: &str, text: &str) -> Result<Atomic, ValueRead> {
    let value = value(alloc, kind, text)?;
    Ok(item(kind, value))
}

/// The values of a list of types, each with a text behind it.
pub fn atomics(alloc: Global, words: &[&str]) -> Result<Vec<Atomic>, AllocError> {
    let mut items = Vec::new(alloc);
    for pair in words.chunks(2) {
        if let [kind, text] = pair {
            if let Ok(item) = atomic(alloc, kind, text) {
                items.push(item)?;
            }
        }
    }
    Ok(items)
}

/// The kind and the text of the value that a text stands for.
pub fn value_row(alloc: Global, kind: &str, text: &str) -> Result<String, AllocError> {
    match value(alloc, kind, text) {
        Ok(value) => shown(alloc, &value),
        Err(fault) => format!(in alloc; "{fault:?}"),
    }
}

fn shown(alloc: Global, value: &AtomValue) -> Result<String, AllocError> {
    let kind = kind_of(value);
    let text = print_value(alloc, value)?;
    format!(in alloc; "{kind} {text:?}")
}

fn kind_of(value: &AtomValue) -> &'static str {
    match value {
        AtomValue::Untyped(_) => "untyped",
        AtomValue::Str(_) => "string",
        AtomValue::Truth(_) => "boolean",
        AtomValue::Num(Number::Int(_)) => "integer",
        AtomValue::Num(Number::Dec(_)) => "decimal",
    }
}

/// The order of two values, each given by its type and its text.
pub fn order_row(alloc: Global, a: (&str, &str), b: (&str, &str)) -> Result<String, AllocError> {
    match value(alloc, a.0, a.1) {
        Ok(a) => order_with(alloc, &a, b),
        Err(fault) => format!(in alloc; "{fault:?}"),
    }
}

fn order_with(alloc: Global, a: &AtomValue, b: (&str, &str)) -> Result<String, AllocError> {
    match value(alloc, b.0, b.1) {
        Ok(b) => format!(in alloc; "{:?}", compare_values(a, &b)),
        Err(fault) => format!(in alloc; "{fault:?}"),
    }
}

/// Whether facets admit a value.
pub fn admits_row(
    alloc: Global,
    facets: &[&str],
    kind: &str,
    text: &str,
) -> Result<String, AllocError> {
    let facets = facets_of(alloc, facets);
    admits_value(alloc, &facets, kind, text)
}

fn admits_value(
    alloc: Global,
    facets: &Facets,
    kind: &str,
    text: &str,
) -> Result<String, AllocError> {
    match value(alloc, kind, text) {
        Ok(value) => format!(in alloc; "{}", admits(facets, &value)),
        Err(fault) => format!(in alloc; "{fault:?}"),
    }
}

/// Whether facets admit the list of the values in a text.
pub fn admits_list_row(
    alloc: Global,
    facets: &[&str],
    kind: &str,
    text: &str,
) -> Result<String, AllocError> {
    let facets = facets_of(alloc, facets);
    admits_items(alloc, &facets, kind, text)
}

fn admits_items(
    alloc: Global,
    facets: &Facets,
    kind: &str,
    text: &str,
) -> Result<String, AllocError> {
    let items = items(alloc, kind, text)?;
    format!(in alloc; "{}", admits_list(facets, items.as_slice()))
}

// The facets of a row: each by its name, with a type and a text behind a bound or an entry, and a number behind a length.
fn facets_of(alloc: Global, words: &[&str]) -> Facets {
    Facets {
        values: enumeration(alloc, words).unwrap_or(Enumeration::from_vec(Vec::new(alloc))),
        min_inclusive: bound(alloc, words, "minInclusive"),
        max_inclusive: bound(alloc, words, "maxInclusive"),
        min_exclusive: bound(alloc, words, "minExclusive"),
        max_exclusive: bound(alloc, words, "maxExclusive"),
        length: length(words, "length"),
        min_length: length(words, "minLength"),
        max_length: length(words, "maxLength"),
    }
}

fn bound(alloc: Global, words: &[&str], facet: &str) -> Option<AtomValue> {
    for window in words.windows(3) {
        if let [name, kind, text] = window {
            if *name == facet {
                return value(alloc, kind, text).ok();
            }
        }
    }
    None
}

fn length(words: &[&str], facet: &str) -> Option<u64> {
    for window in words.windows(2) {
        if let [name, number] = window {
            if *name == facet {
                return number.parse::<u64>().ok();
            }
        }
    }
    None
}

fn enumeration(alloc: Global, words: &[&str]) -> Result<Enumeration, AllocError> {
    let mut entries = Vec::new(alloc);
    for window in words.windows(3) {
        if let ["entry", kind, text] = window {
            entries.push(AtomValues::from_vec(values(alloc, kind, text)?))?;
        }
    }
    Ok(Enumeration::from_vec(entries))
}

fn values(alloc: Global, kind: &str, text: &str) -> Result<Vec<AtomValue>, AllocError> {
    let mut values = Vec::new(alloc);
    for word in text.split_whitespace() {
        if let Ok(value) = value(alloc, kind, word) {
            values.push(value)?;
        }
    }
    Ok(values)
}

fn items(alloc: Global, kind: &str, text: &str) -> Result<Vec<Atomic>, AllocError> {
    let mut items = Vec::new(alloc);
    for word in text.split_whitespace() {
        if let Ok(value) = value(alloc, kind, word) {
            items.push(item(kind, value))?;
        }
    }
    Ok(items)
}

fn item(kind: &str, value: AtomValue) -> Atomic {
    let kind = builtin(kind).unwrap_or(Builtin::AnyType);
    Atomic {
        value,
        kind: TypeName::Builtin(kind),
    }
}
