// Rows of schema documents as they are written: the texts of schema files, with what they say, or with the first construct that is
// outside the profile.

use gx_base::limits::FILE_BYTES;
use gx_schema_syntax::profile::{ProfileRefusal, schema_documents};
use gx_xml::document::read_document;
use gx_xml::source::Source;
use std::alloc::{AllocError, Global};

/// Whether what stands in the schemas of files is within the profile.
pub fn parts_row(alloc: Global, texts: &[String]) -> Result<String, AllocError> {
    verdict(alloc, &sources(alloc, texts, true)?)
}

/// Whether files of these texts are within the profile.
pub fn files_row(alloc: Global, texts: &[String]) -> Result<String, AllocError> {
    verdict(alloc, &sources(alloc, texts, false)?)
}

/// What files of these texts say.
pub fn written_row(alloc: Global, texts: &[String]) -> Result<String, AllocError> {
    shown(alloc, &sources(alloc, texts, false)?)
}

// The documents of the texts that are well-formed.
fn sources(alloc: Global, texts: &[String], inside: bool) -> Result<Vec<Source>, AllocError> {
    let mut sources = Vec::new(alloc);
    for text in texts {
        let text = if inside {
            schema_of(alloc, text.as_str())?
        } else {
            text.clone()?
        };
        add_source(alloc, text.as_bytes(), &mut sources)?;
    }
    Ok(sources)
}

fn schema_of(alloc: Global, parts: &str) -> Result<String, AllocError> {
    format!(in alloc;
        "<xs:schema xmlns:xs=\"http://www.w3.org/2001/XMLSchema\">{parts}</xs:schema>"
    )
}

fn add_source(alloc: Global, bytes: &[u8], sources: &mut Vec<Source>) -> Result<(), AllocError> {
    if bytes.len() > FILE_BYTES {
        return Ok(());
    }
    if let Ok(source) = read_document(alloc, bytes) {
        sources.push(source)?;
    }
    Ok(())
}

// Whether the files are within the profile.
fn verdict(alloc: Global, sources: &[Source]) -> Result<String, AllocError> {
    match schema_documents(alloc, sources) {
        Ok(documents) => format!(in alloc; "{} within", documents.len()),
        Err(refusal) => refused(alloc, &refusal),
    }
}

fn refused(alloc: Global, refusal: &ProfileRefusal) -> Result<String, AllocError> {
    match refusal {
        ProfileRefusal::Outside { file, name } => format!(in alloc; "{} in {file}", name.as_str()),
        ProfileRefusal::Memory => String::from_str(alloc, "no memory"),
    }
}

// What the files say.
fn shown(alloc: Global, sources: &[Source]) -> Result<String, AllocError> {
    match schema_documents(alloc, sources) {
        Ok(documents) => format!(in alloc; "{documents:?}"),
        Err(refusal) => refused(alloc, &refusal),
    }
}
