// Documents of rows: what is read of them.

use gx_base::limits::FILE_BYTES;
use gx_base::place::Place;
use gx_serial::item::{SerialItem, answer_text};
use gx_tree::tree::Tree;
use gx_xml::document::read_document;
use gx_xml::refusal::{XmlRefusal, XmlRule};
use gx_xml::source::Source;
use gx_xml::untyped::untyped;
use rows_words::not_a_row;
use std::alloc::{AllocError, Global};

/// What is read of the bytes: the text of the untyped tree, or the refusal.
pub fn read_row(alloc: Global, bytes: &[u8]) -> Result<String, AllocError> {
    if bytes.len() > FILE_BYTES {
        return not_a_row(alloc);
    }
    match read_document(alloc, bytes) {
        Ok(source) => untyped_text(alloc, &source),
        Err(refusal) => refusal_text(alloc, refusal),
    }
}

fn untyped_text(alloc: Global, source: &Source) -> Result<String, AllocError> {
    serial_text(alloc, untyped(alloc, source)?)
}

fn serial_text(alloc: Global, tree: Tree) -> Result<String, AllocError> {
    let text = answer_text(alloc, &[SerialItem::Tree(tree)])?.finish()?;
    format!(in alloc; "{:?}", text.as_str())
}

fn refusal_text(alloc: Global, refusal: XmlRefusal) -> Result<String, AllocError> {
    match refusal {
        XmlRefusal::Refused { place, rule } => {
            format!(in alloc; "{rule:?} {}:{}", place.line, place.column)
        }
        XmlRefusal::Memory => String::from_str(alloc, "no memory"),
    }
}

/// The document itself as it was read, with its declarations.
pub fn source_row(alloc: Global, bytes: &[u8]) -> Result<String, AllocError> {
    if bytes.len() > FILE_BYTES {
        return not_a_row(alloc);
    }
    match read_document(alloc, bytes) {
        Ok(source) => format!(in alloc; "{source:?}"),
        Err(refusal) => refusal_text(alloc, refusal),
    }
}

/// The text that the words say: each of them, or so many copies of it where `copied` and a number follow.
pub fn joined(alloc: Global, words: &[&str]) -> Result<String, AllocError> {
    let mut text = String::new(alloc);
    let mut taken = 0usize;
    for _ in words {
        match words.get(taken..).unwrap_or(&[]) {
            [word, "copied", count, ..] => {
                for _ in 0..count.parse::<u16>().unwrap_or(0) {
                    text.push_str(word)?;
                }
                taken = taken.saturating_add(3);
            }
            [word, ..] => {
                text.push_str(word)?;
                taken = taken.saturating_add(1);
            }
            [] => {}
        }
    }
    Ok(text)
}

/// The bytes that the words say.
pub fn bytes_of(alloc: Global, words: &[&str]) -> Result<Vec<u8>, AllocError> {
    let mut bytes = Vec::new(alloc);
    for word in words {
        bytes.push(word.parse::<u8>().unwrap_or(0))?;
    }
    Ok(bytes)
}

/// The fronts of a text that are not Malformed at their end, by the number of their bytes; and the others are counted.
pub fn fronts_row(alloc: Global, text: &str) -> Result<String, AllocError> {
    let mut ended = 0u32;
    let mut others = Vec::new(alloc);
    for (end, _) in text.char_indices() {
        let front = text.get(..end).unwrap_or("");
        if ends_early(alloc, front) {
            ended = ended.saturating_add(1);
        } else {
            others.push(end)?;
        }
    }
    format!(in alloc; "{ended} end early, not {others:?}")
}

// Whether the front is Malformed at its end.
fn ends_early(alloc: Global, front: &str) -> bool {
    if front.len() > FILE_BYTES {
        return false;
    }
    match read_document(alloc, front.as_bytes()) {
        Err(
            XmlRefusal::Refused {
                place,
                rule: XmlRule::Malformed,
            },
        ) => place == end_of(front),
        _ => false,
    }
}

// The place of the end of a text.
fn end_of(text: &str) -> Place {
    let mut place = Place { line: 1, column: 1 };
    for c in text.chars() {
        place = behind(place, c);
    }
    place
}

// The place behind a character, where no CR is.
fn behind(place: Place, c: char) -> Place {
    if c == '\n' {
        let line = place.line.saturating_add(1);
        return Place { line, column: 1 };
    }
    let column = place.column.saturating_add(1);
    Place {
        line: place.line,
        column,
    }
}
