// Rows of inclusions, and of the lists of shapes that types take.

use crate::types::types;
use gx_include::include::included;
use gx_include::verdict::{IncludeError, Verdict};
use gx_include_takes::take::takes;
use gx_types::item_type::ItemType;
use gx_types::schemas::Schemas;
use gx_types::sequence_type::{Ty, TyNode};
use gx_types::shape::Shape;
use gx_typetext::shapes::print_shapes;
use rows_words::not_a_row;
use std::alloc::{AllocError, Global};

/// Whether the first type that the words make is included in the second one, within a limit or `-` for none.
pub fn included_row(alloc: Global, limit: &str, words: &[&str]) -> Result<String, AllocError> {
    let types = types(alloc, words)?;
    match types.as_slice() {
        [left, right] => verdict_row(alloc, left, right, limit.parse::<u64>().ok()),
        _ => not_a_row(alloc),
    }
}

/// Whether one type is included in another one.
pub fn verdict_row(
    alloc: Global,
    left: &Ty,
    right: &Ty,
    limit: Option<u64>,
) -> Result<String, AllocError> {
    let schemas = Schemas::empty(alloc)?;
    match included(alloc, &schemas, left, right, limit) {
        Ok(Verdict::Yes) => String::from_str(alloc, "yes"),
        Ok(Verdict::No(list)) => no_row(alloc, list.as_slice()),
        Err(IncludeError::TooManyPairs) => String::from_str(alloc, "unknown"),
        Err(IncludeError::Memory) => Err(AllocError),
    }
}

fn no_row(alloc: Global, list: &[Shape]) -> Result<String, AllocError> {
    let list = print_shapes(alloc, list)?;
    format!(in alloc; "no: {}", list.as_str())
}

/// Whether the first type takes a shape of each item type behind it.
pub fn takes_row(alloc: Global, words: &[&str]) -> Result<String, AllocError> {
    let types = types(alloc, words)?;
    match types.as_slice() {
        [t, items @ ..] => takes_items(alloc, t, items),
        [] => not_a_row(alloc),
    }
}

fn takes_items(alloc: Global, t: &Ty, items: &[Ty]) -> Result<String, AllocError> {
    let mut list = Vec::new(alloc);
    for item in items {
        list.push(shape_of(item)?)?;
    }
    takes_list(alloc, t, list.as_slice())
}

fn takes_list(alloc: Global, t: &Ty, list: &[Shape]) -> Result<String, AllocError> {
    let schemas = Schemas::empty(alloc)?;
    let answer = takes(alloc, &schemas, t, list)?;
    format!(in alloc; "{answer}")
}

// The shape that an item type names, or a text.
fn shape_of(t: &Ty) -> Result<Shape, AllocError> {
    match &t.node {
        TyNode::Item(item) => shape_of_item(item),
        _ => Ok(Shape::Text),
    }
}

fn shape_of_item(item: &ItemType) -> Result<Shape, AllocError> {
    match item {
        ItemType::Element {
            name: Some(name),
            kind,
        } => {
            let name = name.clone()?;
            Ok(Shape::Elem(name, kind.clone()?))
        }
        ItemType::Attribute {
            name: Some(name),
            kind,
        } => {
            let name = name.clone()?;
            Ok(Shape::Attr(name, kind.clone()?))
        }
        ItemType::Document(Some((Some(name), kind))) => {
            let name = name.clone()?;
            Ok(Shape::Doc(Some((name, kind.clone()?))))
        }
        ItemType::Document(_) => Ok(Shape::Doc(None)),
        ItemType::Atom(kind) => Ok(Shape::Atom(kind.clone()?)),
        _ => Ok(Shape::Text),
    }
}
