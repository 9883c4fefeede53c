//! Rows of answers. A row of the input has words, a query, a fault and documents, with `#` between them; the row of the output
//! has them again, and the status, the output and the fault line with which the public call answers.
//!
//! The library holds the query as `q.xq`. A line break, a carriage return and any other byte of it are written `\n`, `\r`
//! and `\x` with two digits, and the word without letters `""`. The fault is a load or a put that fails, or the length of
//! the file, which then has spaces in front of the query. A document is the name of its file and its text.
#![tactic(auto)]

use gx_io::{MemoryLibrary, MemorySink};
use gx_processor::processor::galax;
use std::alloc::{AllocError, Global};
use std::io;

fn main(rt: HostRuntime) -> io::Result<()> {
    for line in rt.lines(rt.alloc()) {
        let line = line?;
        let answer = row_answer(rt.alloc(), line.as_str())?;
        println!(rt; "{line} = {answer}")?;
    }
    Ok(())
}

fn row_answer(alloc: Global, row: &str) -> Result<String, AllocError> {
    let mut parts = row.split(" # ");
    let words = parts.next().unwrap_or("");
    let query = parts.next().unwrap_or("");
    let fault = parts.next().unwrap_or("").trim();
    let mut library = MemoryLibrary::new(alloc);
    let bytes = file_of(alloc, query, fault.parse::<usize>().unwrap_or(0))?;
    library.add("q.xq", bytes.as_slice())?;
    for document in parts {
        add_document(alloc, document, &mut library)?;
    }
    answer_text(alloc, words, &mut library, fault)
}

// A file with a document.
fn add_document(alloc: Global, text: &str, library: &mut MemoryLibrary) -> Result<(), AllocError> {
    let (name, document) = text.split_once(' ').unwrap_or((text, ""));
    let bytes = bytes_of(alloc, document)?;
    library.add(name, bytes.as_slice())
}

fn answer_text(
    alloc: Global,
    words: &str,
    library: &mut MemoryLibrary,
    fault: &str,
) -> Result<String, AllocError> {
    let words = words_of(alloc, words)?;
    let mut out = MemorySink::new(alloc);
    let mut err = MemorySink::new(alloc);
    match fault {
        "load fails" => library.fail_at(1)?,
        "second load fails" => library.fail_at(2)?,
        "out fails" => out.fail_at(1)?,
        "err fails" => err.fail_at(1)?,
        _ => {}
    }
    let status = galax(alloc, words.as_slice(), library, &mut out, &mut err);
    format!(in alloc;
        "{status:?} {:?} {:?}",
        shown(out.bytes()),
        shown(err.bytes())
    )
}

// The words of a row, with single spaces between them.
fn words_of(alloc: Global, text: &str) -> Result<Vec<String>, AllocError> {
    let mut words = Vec::new(alloc);
    for word in text.split(' ') {
        match word {
            "" => {}
            "\"\"" => words.push(String::new(alloc))?,
            _ => words.push(String::from_str(alloc, word)?)?,
        }
    }
    Ok(words)
}

// The bytes of a query, behind as many spaces as the length wants.
fn file_of(alloc: Global, query: &str, length: usize) -> Result<Vec<u8>, AllocError> {
    let query = bytes_of(alloc, query)?;
    let mut file = vec![in alloc; b' '; length.saturating_sub(query.len())]?;
    file.extend_from_slice(query.as_slice())?;
    Ok(file)
}

fn bytes_of(alloc: Global, text: &str) -> Result<Vec<u8>, AllocError> {
    let mut bytes = Vec::new(alloc);
    let mut pieces = text.split('\\');
    if let Some(first) = pieces.next() {
        bytes.extend_from_slice(first.as_bytes())?;
    }
    for piece in pieces {
        let (byte, rest) = escaped(piece.as_bytes());
        bytes.push(byte)?;
        bytes.extend_from_slice(rest)?;
    }
    Ok(bytes)
}

// The byte that stands behind a backslash, and what follows it.
fn escaped(piece: &[u8]) -> (u8, &[u8]) {
    match piece {
        [b'n', rest @ ..] => (b'\n', rest),
        [b'r', rest @ ..] => (b'\r', rest),
        [b'x', high, low, rest @ ..] => ((hex_digit(*high) << 4) | hex_digit(*low), rest),
        _ => (b'\\', piece),
    }
}

// The value of a hexadecimal digit.
fn hex_digit(digit: u8) -> u8 {
    match digit {
        b'0'..=b'9' => digit - b'0',
        b'a'..=b'f' => digit - b'a' + 10,
        _ => 0,
    }
}

fn shown(bytes: &[u8]) -> &str {
    std::str::from_utf8(bytes).unwrap_or("?")
}
