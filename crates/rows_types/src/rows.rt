// Rows of types.

use crate::operators::operator_row;
use crate::types::{item_type, shape, types};
use gx_base::type_name::TypeName;
use gx_types::derivation::{derives, item_takes};
use gx_types::item_type::ItemType;
use gx_types::schemas::Schemas;
use gx_types::sequence_type::Ty;
use gx_types::shape::Shape;
use gx_types::type_rules::{occurrence, prime};
use gx_typetext::print::print_type;
use rows_words::names::type_name;
use rows_words::not_a_row;
use std::alloc::{AllocError, Global};

/// What a call answers for the types that the words make.
pub fn type_row(alloc: Global, call: &str, words: &[&str]) -> Result<String, AllocError> {
    let types = types(alloc, words)?;
    match (call, types.as_slice()) {
        ("type", [t]) => shown(alloc, t),
        ("prime", [t]) => shown(alloc, &prime(alloc, t)?),
        ("occurrence", [t]) => occurrence_row(alloc, t),
        ("same", [t, u]) => format!(in alloc; "{}", t.same(u)),
        (operator, parts) => operator_row(alloc, operator, parts),
    }
}

pub(crate) fn shown(alloc: Global, t: &Ty) -> Result<String, AllocError> {
    String::from_str(alloc, print_type(alloc, t)?.as_str())
}

fn occurrence_row(alloc: Global, t: &Ty) -> Result<String, AllocError> {
    let occurrence = occurrence(t);
    format!(in alloc; "{} {}", occurrence.least, occurrence.greatest)
}

/// Whether a type is derived from another one.
pub fn derives_row(alloc: Global, t: &str, u: &str) -> Result<String, AllocError> {
    let t = type_name(alloc, t)?;
    derives_from(alloc, &t, u)
}

fn derives_from(alloc: Global, t: &TypeName, u: &str) -> Result<String, AllocError> {
    let u = type_name(alloc, u)?;
    let schemas = Schemas::empty(alloc)?;
    format!(in alloc; "{}", derives(&schemas, t, &u))
}

/// Whether an item type takes a shape.
pub fn item_takes_row(alloc: Global, item: &str, shaped: &str) -> Result<String, AllocError> {
    let item = item_type(alloc, item)?;
    takes_shaped(alloc, &item, shaped)
}

fn takes_shaped(alloc: Global, item: &ItemType, shaped: &str) -> Result<String, AllocError> {
    let shape = shape(alloc, shaped)?;
    takes_shape(alloc, item, &shape)
}

fn takes_shape(alloc: Global, item: &ItemType, shape: &Shape) -> Result<String, AllocError> {
    let schemas = Schemas::empty(alloc)?;
    format!(in alloc; "{}", item_takes(&schemas, item, shape))
}
