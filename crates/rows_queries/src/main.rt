//! Rows of query texts. A row of the input is a text; the row of the output has it again, and its syntax tree, or the rule that
//! refuses it and the place. A row that begins with `?` shows only whether the text has a tree, and one that begins with `!` the names of
//! the query, resolved where no schema is loaded. In a row `\n`, `\r`, `\t`, `\\` and `\1` (the character with the number 1) stand for
//! characters.
#![tactic(auto)]

mod names;
mod prolog;
mod show;

use gx_ast::query::Query;
use gx_parse::parser::parse;
use gx_parse_grammar::refusal::SyntaxRefusal;
use std::alloc::{AllocError, Global};
use std::io;

fn main(rt: HostRuntime) -> io::Result<()> {
    for line in rt.lines(rt.alloc()) {
        let line = line?;
        let answer = row_answer(rt.alloc(), line.as_str())?;
        println!(rt; "{line} = {answer}")?;
    }
    Ok(())
}

// What is shown of a query.
#[derive(Clone, Copy)]
enum Shown {
    Tree,
    Names,
    Nothing,
}

fn row_answer(alloc: Global, row: &str) -> Result<String, AllocError> {
    if let Some(row) = row.strip_prefix('?') {
        answer(alloc, row, Shown::Nothing)
    } else if let Some(row) = row.strip_prefix('!') {
        answer(alloc, row, Shown::Names)
    } else {
        answer(alloc, row, Shown::Tree)
    }
}

fn answer(alloc: Global, row: &str, shown: Shown) -> Result<String, AllocError> {
    let mut out = String::new(alloc);
    let text = query_text(alloc, row)?;
    if text.len() > 16777216 {
        out.push_str("too long")?;
        return Ok(out);
    }
    match parse(alloc, text.as_bytes()) {
        Err(refusal) => show_refusal(&mut out, refusal)?,
        Ok(query) => show_parsed(alloc, &mut out, &query, shown)?,
    }
    Ok(out)
}

fn show_refusal(out: &mut String, refusal: SyntaxRefusal) -> Result<(), AllocError> {
    match refusal {
        SyntaxRefusal::Refused { rule, place } => {
            let line = place.line;
            let column = place.column;
            write!(out, "{rule:?} {line}:{column}")
        }
        SyntaxRefusal::Memory => out.push_str("memory"),
    }
}

fn show_parsed(
    alloc: Global,
    out: &mut String,
    query: &Query,
    shown: Shown,
) -> Result<(), AllocError> {
    match shown {
        Shown::Tree => prolog::show_query(alloc, out, query),
        Shown::Names => names::show_resolution(alloc, out, query),
        Shown::Nothing => out.push_str("a query"),
    }
}

// The query text that a row writes.
fn query_text(alloc: Global, row: &str) -> Result<String, AllocError> {
    let mut text = String::new(alloc);
    let mut behind_backslash = false;
    for c in row.chars() {
        if behind_backslash {
            text.push(escaped(c))?;
            behind_backslash = false;
        } else if c == '\\' {
            behind_backslash = true;
        } else {
            text.push(c)?;
        }
    }
    Ok(text)
}

// The character that stands behind a backslash.
fn escaped(c: char) -> char {
    match c {
        'n' => '\n',
        'r' => '\r',
        't' => '\t',
        '1' => '\u{1}',
        other => other,
    }
}
