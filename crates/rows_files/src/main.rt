//! Rows of files and writers. `load NAME LIMIT` is answered with what the file library loads of a file in this folder, and
//! `put TEXT` with what another reader finds in a file right behind the put of the text to a sink over a buffered writer.
#![tactic(auto)]

use gx_io::{FileLibrary, Library, LoadError, Sink, WriterSink};
use std::alloc::{AllocError, Global};
use std::fs::Files;
use std::io::BufWriter;
use std::{fs, io};

const WRITTEN: &str = "written.txt";

fn main(rt: HostRuntime) -> io::Result<()> {
    for line in rt.lines(rt.alloc()) {
        let line = line?;
        let answer = row_answer(rt.alloc(), &rt, line.as_str())?;
        println!(rt; "{line} = {answer}")?;
    }
    Ok(())
}

fn row_answer<R: Files>(alloc: Global, files: &R, row: &str) -> io::Result<String> {
    match row.split_once(' ') {
        Some(("load", rest)) => match rest.split_once(' ') {
            Some((name, limit)) => {
                let limit = limit.parse::<usize>().unwrap_or(0);
                Ok(loaded(alloc, files, name, limit)?)
            }
            None => Ok(String::from_str(alloc, "not a row")?),
        },
        Some(("put", text)) => put(alloc, files, text),
        _ => Ok(String::from_str(alloc, "not a row")?),
    }
}

fn loaded<R: Files>(
    alloc: Global,
    files: &R,
    name: &str,
    limit: usize,
) -> Result<String, AllocError> {
    let mut library = FileLibrary::new(files);
    match library.load(alloc, name, limit) {
        Ok(bytes) => {
            let text = std::str::from_utf8(bytes.as_slice()).unwrap_or("?");
            format!(in alloc; "{text:?}")
        }
        Err(LoadError::TooLong { length }) => format!(in alloc; "TooLong {length}"),
        Err(LoadError::Failed) => String::from_str(alloc, "Failed"),
        Err(LoadError::Memory) => String::from_str(alloc, "Memory"),
    }
}

fn put<R: Files>(alloc: Global, files: &R, text: &str) -> io::Result<String> {
    let file = fs::create(files, WRITTEN)?;
    let mut sink = WriterSink::new(BufWriter::new(alloc, file)?);
    let result = sink.put(text.as_bytes());
    let seen = loaded(alloc, files, WRITTEN, 100)?;
    Ok(format!(in alloc; "{result:?} {seen}")?)
}
