//! Worked values of schema documents and of validation. A row is `parts`, `files` or `written` and the texts of schema files; or a schema
//! file in this folder, the name of a global element, and the text of a document, which is written again with the tree of the document
//! and its types, or with the rule that is broken and the path of the element that breaks it.
#![tactic(auto)]

mod shown;
mod written;

use gx_base::limits::FILE_BYTES;
use gx_base::name::Name;
use gx_io::{FileLibrary, Library};
use gx_schema::import::import;
use gx_schema::refusal::SchemaRefusal;
use gx_types::schemas::Schemas;
use gx_validate::invalid::Invalid;
use gx_validate::validate::validate;
use gx_xml::document::read_document;
use gx_xml::source::Source;
use rows_words::names::name;
use rows_words::not_a_row;
use rows_words::words::words;
use shown::shown_tree;
use std::alloc::{AllocError, Global};
use std::fs::Files;
use std::io;
use written::{files_row, parts_row, written_row};

fn main(rt: HostRuntime) -> io::Result<()> {
    for line in rt.lines(rt.alloc()) {
        let line = line?;
        match row_answer(rt.alloc(), &rt, line.as_str()) {
            Ok(answer) => println!(rt; "{line} = {answer}")?,
            Err(_) => println!(rt; "{line} = no memory")?,
        }
    }
    Ok(())
}

fn row_answer<R: Files>(alloc: Global, files: &R, row: &str) -> Result<String, AllocError> {
    let words = words(alloc, row)?;
    match words.as_slice() {
        [call, texts @ ..] => match call.as_str() {
            "parts" => parts_row(alloc, texts),
            "files" => files_row(alloc, texts),
            "written" => written_row(alloc, texts),
            file => validation_row(alloc, files, file, texts),
        },
        [] => not_a_row(alloc),
    }
}

// The document of a text under the schema of a file.
fn validation_row<R: Files>(
    alloc: Global,
    files: &R,
    file: &str,
    words: &[String],
) -> Result<String, AllocError> {
    match words {
        [root, text] => match source_in(alloc, files, file)? {
            Some(schema) => imported(alloc, schema, root.as_str(), text.as_str()),
            None => not_a_row(alloc),
        },
        _ => not_a_row(alloc),
    }
}

// The document in a file.
fn source_in<R: Files>(alloc: Global, files: &R, file: &str) -> Result<Option<Source>, AllocError> {
    let mut library = FileLibrary::new(files);
    match library.load(alloc, file, FILE_BYTES) {
        Ok(bytes) => Ok(source_of(alloc, &bytes)),
        Err(_) => Ok(None),
    }
}

fn source_of(alloc: Global, bytes: &[u8]) -> Option<Source> {
    if bytes.len() > FILE_BYTES {
        return None;
    }
    read_document(alloc, bytes).ok()
}

// The document under the schemas of a file.
fn imported(alloc: Global, schema: Source, root: &str, text: &str) -> Result<String, AllocError> {
    match import(alloc, &[schema]) {
        Ok(schemas) => {
            let root = name(alloc, root)?;
            match source_of(alloc, text.as_bytes()) {
                Some(source) => validated(alloc, &schemas, &root, &source),
                None => String::from_str(alloc, "no document"),
            }
        }
        Err(refusal) => refused(alloc, refusal),
    }
}

fn refused(alloc: Global, refusal: SchemaRefusal) -> Result<String, AllocError> {
    match refusal {
        SchemaRefusal::Refused {
            rule,
            file,
            name,
            ..
        } => format!(in alloc; "{rule:?} {file} {}", name.as_str()),
        SchemaRefusal::Memory => String::from_str(alloc, "no memory"),
    }
}

fn validated(
    alloc: Global,
    schemas: &Schemas,
    root: &Name,
    source: &Source,
) -> Result<String, AllocError> {
    if schemas.global(root).is_none() {
        return String::from_str(alloc, "no global element");
    }
    match validate(alloc, schemas, root, source) {
        Ok(tree) => shown_tree(alloc, &tree),
        Err(Invalid::Refused { rule, path }) => format!(in alloc; "{rule:?} {}", path.as_str()),
        Err(Invalid::Memory) => String::from_str(alloc, "no memory"),
    }
}
