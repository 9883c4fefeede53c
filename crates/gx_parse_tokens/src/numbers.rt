// Numeric literals at the front of a text.

ghost use Rattle.std.specs.Prelude.{◌≡◌, ◌++◌, ◌≤◌, ◌-◌, [], ◌∷◌, take, length, Bool, true, false, IfOk, MatchOption, Some, None, string_bytes, Err, Ok, if◌then◌else◌};
ghost use Rattle.gx_grammar.specs.Tokens.{all_pass, behind_run, seen_word};
ghost use Rattle.gx_parse_grammar.specs.Characters.{is_digit};
ghost use Rattle.gx_parse_grammar.specs.Numeral.{any_digit, has_point, number_of};
ghost use Rattle.gx_parse_tokens.specs.Numbers.{IsNoNumber, LiteralIs, behind_literal};
ghost use Rattle.gx_parse_grammar.specs.Tokens.{begins_number, starts_fraction};

use crate::characters::is_digit;
use gx_num::{Number, read_dec, read_int};
use std::alloc::{AllocError, Global};

/// The numeric literal that stands at the front of a text, if one does.
#[derive(Clone, Copy)]
pub enum LiteralFound<'a> {
    /// None does. So much is left behind the longest front that opens one.
    Nothing(usize),
    /// The number is too large or too precise.
    TooLarge,
    /// The number, and what is behind it.
    Number(Number, &'a [char]),
}

// What is behind the digits at the front.
fn behind_digits(text: &[char]) -> &[char]
    ensures { result.now ≡ behind_run is_digit text.now }
{
    let mut rest = text;
    while let [character, tail @ ..] = rest {
        if !is_digit(*character) {
            break;
        }
        rest = tail;
    }
    rest
}

// What is behind the digits at the front, and behind a point with its digits.
fn behind_literal(text: &[char]) -> &[char]
    ensures { result.now ≡ behind_literal text.now }
{
    match behind_digits(text) {
        ['.', tail @ ..] => behind_digits(tail),
        rest => rest,
    }
}

// Whether one of the characters is a digit.
fn any_digit(text: &[char]) -> bool
    ensures { result ≡ any_digit text.now }
{
    for character in text {
        if is_digit(*character) {
            return true;
        }
    }
    false
}

fn has_point(text: &[char]) -> bool
    ensures { result ≡ has_point text.now }
{
    for character in text {
        if *character == '.' {
            return true;
        }
    }
    false
}

// Digits and points as a string, which has a byte for each.
fn ascii(alloc: Global, text: &[char]) -> Result<String, AllocError>
    requires { all_pass begins_number text.now ≡ true }
    ensures { IfOk result (λ s. string_bytes s ≡ text.now) }
{
    let mut string = String::with_capacity(alloc, text.len())?;
    for character in text {
        string.push(*character)?;
    }
    Ok(string)
}

// The number that digits with a point write, if it is within the limits.
#[tactic(auto, unfolding(gx_parse_grammar::specs::Numeral::number_of))]
fn number_of(alloc: Global, text: &[char]) -> Result<Option<Number>, AllocError>
    requires { all_pass begins_number text.now ≡ true }
    ensures { IfOk result (λ o. MatchOption o (IsNoNumber (number_of text.now)) (λ n. number_of text.now ≡ Ok n)) }
{
    let string = ascii(alloc, text)?;
    if has_point(text) {
        match read_dec(string.as_str()) {
            Ok(value) => Ok(Some(Number::Dec(value))),
            Err(_) => Ok(None),
        }
    } else {
        match read_int(string.as_str()) {
            Ok(value) => Ok(Some(Number::int(value))),
            Err(_) => Ok(None),
        }
    }
}

/// How many characters are left behind a `.` at the front, or where there is none.
pub fn point_seen(text: &[char]) -> usize
    ensures { result ≡ seen_word (46 ∷ []) text.now }
{
    match text {
        ['.', tail @ ..] => tail.len(),
        _ => text.len(),
    }
}

/// Whether a `.` with a digit behind it stands at the front.
pub fn starts_fraction(text: &[char]) -> bool
    ensures { result ≡ starts_fraction text.now }
{
    match text {
        ['.', character, ..] => is_digit(*character),
        _ => false,
    }
}

/// The numeric literal at the front (XQuery 1.0, section 3.1.1).
pub fn find_number(alloc: Global, text: &[char]) -> Result<LiteralFound<'_>, AllocError>
    ensures { IfOk result (LiteralIs text.now) }
{
    let behind = behind_literal(text);
    let digits = &text[..text.len() - behind.len()];
    if !any_digit(digits) {
        return Ok(LiteralFound::Nothing(behind.len()));
    }
    match number_of(alloc, digits)? {
        None => Ok(LiteralFound::TooLarge),
        Some(number) => Ok(LiteralFound::Number(number, behind)),
    }
}
