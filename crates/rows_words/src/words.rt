// The words of a row.

use std::alloc::{AllocError, Global};

// What the next character of a row belongs to.
#[derive(Clone, Copy)]
enum Within {
    Plain,
    Quotes,
    Escape,
    Code(u32),
}

/// The words of a row, each ended by one space. What stands in quotes is taken with its spaces, where `\n`, `\t`, `\r`
/// and `\u{HEX}` stand for characters, and another character behind a `\` for itself.
pub fn words(alloc: Global, row: &str) -> Result<Vec<String>, AllocError> {
    let mut words = Vec::new(alloc);
    let mut word = String::new(alloc);
    let mut within = Within::Plain;
    for c in row.chars() {
        if c == ' ' && matches!(within, Within::Plain) {
            words.push(word)?;
            word = String::new(alloc);
        } else {
            within = add_character(&mut word, within, c)?;
        }
    }
    words.push(word)?;
    Ok(words)
}

// Adds what a character of a word stands for, and says what the next belongs to.
fn add_character(word: &mut String, within: Within, c: char) -> Result<Within, AllocError> {
    match (within, c) {
        (Within::Plain, '"') => Ok(Within::Quotes),
        (Within::Quotes, '"') => Ok(Within::Plain),
        (Within::Quotes, '\\') => Ok(Within::Escape),
        (Within::Escape, 'u') => Ok(Within::Code(0)),
        (Within::Code(code), _) => add_code(word, code, c),
        (Within::Escape, _) => {
            word.push(escaped(c))?;
            Ok(Within::Quotes)
        }
        _ => {
            word.push(c)?;
            Ok(within)
        }
    }
}

// Takes a digit of a character's code in, or adds the character at its end.
fn add_code(word: &mut String, code: u32, c: char) -> Result<Within, AllocError> {
    if c == '}' {
        word.push(char::from_u32(code).unwrap_or('?'))?;
        return Ok(Within::Quotes);
    }
    let digit = c.to_digit(16).unwrap_or(0);
    Ok(Within::Code(code.wrapping_mul(16).wrapping_add(digit)))
}

fn escaped(c: char) -> char {
    match c {
        'n' => '\n',
        't' => '\t',
        'r' => '\r',
        _ => c,
    }
}
