//! Galax: a statically typed XQuery 1.0 processor.
#![tactic(auto)]

use gx_io::{FileLibrary, WriterSink};
use gx_processor::processor::galax;
use gx_processor::status::Status;
use std::env;
use std::io::ErrorKind;
use std::process::ExitCode;

// The exit status where the system refuses the words, or one of them is not UTF-8.
const NO_WORDS: u8 = 9;

fn main(rt: HostRuntime) -> ExitCode {
    let starved = ExitCode::from(Status::Memory.code());
    let words = match env::args(&rt) {
        Ok(words) => words,
        Err(error) if error.kind() == ErrorKind::OutOfMemory => return starved,
        Err(_) => return ExitCode::from(NO_WORDS),
    };
    let Ok(words) = words.skip(1).collect::<Vec<String>>(rt.alloc()) else {
        return starved;
    };
    let mut library = FileLibrary::new(&rt);
    let mut out = WriterSink::new(rt.stdout());
    let mut err = WriterSink::new(rt.stderr());
    let status = galax(
        rt.alloc(),
        words.as_slice(),
        &mut library,
        &mut out,
        &mut err,
    );
    ExitCode::from(status.code())
}
