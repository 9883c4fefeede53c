// Types from their parts, each word behind its parts.

use gx_base::name::Name;
use gx_types::item_type::ItemType;
use gx_types::occurrence::Occurrence;
use gx_types::sequence_type::Ty;
use gx_types::shape::Shape;
use gx_types::type_rules::{alt, choose, factor, join, limit, optional, plus, seq, star, times};
use rows_words::names::{name, type_name};
use std::alloc::{AllocError, Global};

const AT_MOST_ONCE: Occurrence = Occurrence {
    least: 0,
    greatest: 1,
};

const ANY_NUMBER: Occurrence = Occurrence {
    least: 0,
    greatest: 2,
};

const ONCE_OR_MORE: Occurrence = Occurrence {
    least: 1,
    greatest: 2,
};

const ONCE: Occurrence = Occurrence {
    least: 1,
    greatest: 1,
};

const NOT_AT_ALL: Occurrence = Occurrence {
    least: 0,
    greatest: 0,
};

/// The types that words make on a stack: `none`, `empty` and item types; `,`, `|` and `&` (a sequence without the limit)
/// behind two types; `?`, `*`, `+`, `once`, `never-more`, and the rules `opt`, `star`, `plus`, `limit` and `factor` behind
/// one; `chooseN` behind the N types of a choice; and `seqN` and `joinN` behind the type that they repeat.
pub fn types(alloc: Global, words: &[&str]) -> Result<Vec<Ty>, AllocError> {
    let mut stack = Vec::new(alloc);
    for word in words {
        take_word(alloc, &mut stack, word)?;
    }
    Ok(stack)
}

fn take_word(alloc: Global, stack: &mut Vec<Ty>, word: &str) -> Result<(), AllocError> {
    match word {
        "," | "|" | "&" => take_two(alloc, stack, word),
        "?" => repeat(alloc, stack, AT_MOST_ONCE),
        "*" => repeat(alloc, stack, ANY_NUMBER),
        "+" => repeat(alloc, stack, ONCE_OR_MORE),
        "once" => repeat(alloc, stack, ONCE),
        "never-more" => repeat(alloc, stack, NOT_AT_ALL),
        "opt" | "star" | "plus" | "limit" | "factor" => take_one(alloc, stack, word),
        "none" => Ok(stack.push(Ty::none())?),
        "empty" => Ok(stack.push(Ty::empty())?),
        _ => take_counted(alloc, stack, word),
    }
}

fn take_two(alloc: Global, stack: &mut Vec<Ty>, word: &str) -> Result<(), AllocError> {
    if let (Some(second), Some(first)) = (stack.pop(), stack.pop()) {
        stack.push(of_two(alloc, word, first, second)?)?;
    }
    Ok(())
}

fn of_two(alloc: Global, word: &str, first: Ty, second: Ty) -> Result<Ty, AllocError> {
    match word {
        "," => seq(alloc, first, second),
        "|" => alt(alloc, first, second),
        _ => join(alloc, &first, &second),
    }
}

fn repeat(alloc: Global, stack: &mut Vec<Ty>, often: Occurrence) -> Result<(), AllocError> {
    if let Some(part) = stack.pop() {
        stack.push(times(alloc, part, often)?)?;
    }
    Ok(())
}

fn take_one(alloc: Global, stack: &mut Vec<Ty>, word: &str) -> Result<(), AllocError> {
    if let Some(part) = stack.pop() {
        stack.push(of_one(alloc, word, part)?)?;
    }
    Ok(())
}

fn of_one(alloc: Global, word: &str, part: Ty) -> Result<Ty, AllocError> {
    match word {
        "opt" => optional(alloc, &part),
        "star" => star(alloc, &part),
        "plus" => plus(alloc, &part),
        "factor" => factor(alloc, &part),
        _ => limit(alloc, part),
    }
}

fn take_counted(alloc: Global, stack: &mut Vec<Ty>, word: &str) -> Result<(), AllocError> {
    if let Some(count) = word.strip_prefix("choose") {
        choice(alloc, stack, count.parse::<usize>().unwrap_or(0))
    } else if let Some(count) = word.strip_prefix("seq") {
        copies(alloc, stack, ",", count.parse::<u8>().unwrap_or(0))
    } else if let Some(count) = word.strip_prefix("join") {
        copies(alloc, stack, "&", count.parse::<u8>().unwrap_or(0))
    } else {
        let item = item_type(alloc, word)?;
        Ok(stack.push(Ty::of_item(alloc, item)?)?)
    }
}

fn choice(alloc: Global, stack: &mut Vec<Ty>, count: usize) -> Result<(), AllocError> {
    let members = stack.split_off(stack.len().saturating_sub(count))?;
    Ok(stack.push(choose(alloc, members.as_slice())?)?)
}

fn copies(alloc: Global, stack: &mut Vec<Ty>, word: &str, count: u8) -> Result<(), AllocError> {
    if let Some(part) = stack.pop() {
        stack.push(of_copies(alloc, word, &part, count)?)?;
    }
    Ok(())
}

fn of_copies(alloc: Global, word: &str, part: &Ty, count: u8) -> Result<Ty, AllocError> {
    let mut made = Ty::empty();
    for _ in 0..count {
        made = of_two(alloc, word, made, part.clone()?)?;
    }
    Ok(made)
}

// The kind of node, and its name or `*` and its type.
fn parts(word: &str) -> (&str, &str, &str) {
    let (node, inside) = word.split_once(':').unwrap_or((word, ""));
    let (named, typed) = inside.rsplit_once(':').unwrap_or(("*", "anyType"));
    (node, named, typed)
}

fn name_or_any(alloc: Global, word: &str) -> Result<Option<Name>, AllocError> {
    if word == "*" {
        return Ok(None);
    }
    Ok(Some(name(alloc, word)?))
}

/// An item type as `element:NAME:TYPE`, `attribute:NAME:TYPE`, `document:NAME:TYPE`, `document`, `text`, or the name of an
/// atomic type.
pub fn item_type(alloc: Global, word: &str) -> Result<ItemType, AllocError> {
    match (word, parts(word)) {
        ("text", _) => Ok(ItemType::Text),
        ("document", _) => Ok(ItemType::Document(None)),
        (_, ("element", named, typed)) => {
            let name = name_or_any(alloc, named)?;
            let kind = type_name(alloc, typed)?;
            Ok(ItemType::Element { name, kind })
        }
        (_, ("attribute", named, typed)) => {
            let name = name_or_any(alloc, named)?;
            let kind = type_name(alloc, typed)?;
            Ok(ItemType::Attribute { name, kind })
        }
        (_, ("document", named, typed)) => {
            let name = name_or_any(alloc, named)?;
            let kind = type_name(alloc, typed)?;
            Ok(ItemType::Document(Some((name, kind))))
        }
        _ => Ok(ItemType::Atom(type_name(alloc, word)?)),
    }
}

/// The shape of an item, written as an item type.
pub fn shape(alloc: Global, word: &str) -> Result<Shape, AllocError> {
    match (word, parts(word)) {
        ("text", _) => Ok(Shape::Text),
        ("document", _) => Ok(Shape::Doc(None)),
        (_, ("element", named, typed)) => {
            let name = name(alloc, named)?;
            Ok(Shape::Elem(name, type_name(alloc, typed)?))
        }
        (_, ("attribute", named, typed)) => {
            let name = name(alloc, named)?;
            Ok(Shape::Attr(name, type_name(alloc, typed)?))
        }
        (_, ("document", named, typed)) => {
            let name = name(alloc, named)?;
            Ok(Shape::Doc(Some((name, type_name(alloc, typed)?))))
        }
        _ => Ok(Shape::Atom(type_name(alloc, word)?)),
    }
}
