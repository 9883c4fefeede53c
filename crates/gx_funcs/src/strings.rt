// Functions that take strings apart and compare them (Functions and Operators, sections 7.2, 7.3.2 and 7.4.3).

ghost use Rattle.std.specs.Prelude.{◌≡◌, ◌∷◌, [], drop, take, Some, Ok, IfOk, MatchResult, option_map};
ghost use Rattle.std.specs.Str.{chars};
ghost use Rattle.gx_funcs.specs.Positions.{from_position, so_many_from};
ghost use Rattle.gx_funcs.specs.Strings.{sign_of_order, compared_texts, codepoints_of, character_with_code, text_of_codepoints};
ghost use Rattle.gx_funcs.specs.Values.{AnswersCall, FailsCall, answers, string_or_empty, one_number_of, printed_values, compared, integer_of_value, integers_of_values, string_answer, value_answer};
ghost use Rattle.gx_funcs.specs.declared.value_function.ValueFunction.TheVariants as functions;

use crate::function::{integer_atom, string_atom};
use crate::numbers::number_of;
use crate::values::{CallError, one_value};
use crate::whole::{nearest_whole, positions_before};
use gx_base::characters::{is_char, next_character};
use gx_base::code::Code;
use gx_base::text::Text;
use gx_base::text_builder::TextBuilder;
use gx_facets::{AtomValue, Atomic, print_value};
use gx_num::Number;
use std::alloc::{AllocError, Global};
use std::cmp::Ordering;

// ---- arguments

// The string of at most one value, which is empty where there is none.
pub(crate) fn string_or_empty(alloc: Global, values: &[Atomic]) -> Result<Option<Text>, AllocError>
    ensures { IfOk result (λ text. text ≡ string_or_empty values.now) }
{
    match values {
        [] => Ok(Some(Text::empty(alloc)?)),
        [value] => Ok(Some(print_value(alloc, &value.value)?)),
        _ => Ok(None),
    }
}

// The one number.
#[tactic(auto, using(crate::proofs::NumberLemmas::not_one_number, crate::proofs::NumberLemmas::one_number_alone))]
fn one_number(values: &[Atomic]) -> Option<Number>
    ensures { result ≡ one_number_of values.now }
{
    match values {
        [value] => number_of(value),
        _ => None,
    }
}

// ---- parts of a string

/// The characters of a string from a position on (section 7.4.3).
pub(crate) fn substring_from(
    alloc: Global,
    strings: &[Atomic],
    starts: &[Atomic],
) -> Result<Vec<Atomic>, CallError>
    ensures { AnswersCall result (value_answer functions.SubstringFrom (strings.now ∷ starts.now ∷ [])) }
{
    let Some(text) = string_or_empty(alloc, strings)? else {
        return Err(CallError::NotOfParameters);
    };
    let Some(start) = one_number(starts) else {
        return Err(CallError::NotOfParameters);
    };
    one_value(alloc, string_atom(from_position(alloc, start, &text)?))
}

/// So many characters of a string from a position on (section 7.4.3).
pub(crate) fn substring(
    alloc: Global,
    strings: &[Atomic],
    starts: &[Atomic],
    lengths: &[Atomic],
) -> Result<Vec<Atomic>, CallError>
    ensures { AnswersCall result (value_answer functions.Substring (strings.now ∷ starts.now ∷ lengths.now ∷ [])) }
{
    let Some(text) = string_or_empty(alloc, strings)? else {
        return Err(CallError::NotOfParameters);
    };
    let (Some(start), Some(length)) = (one_number(starts), one_number(lengths)) else {
        return Err(CallError::NotOfParameters);
    };
    one_value(
        alloc,
        string_atom(so_many_from(alloc, start, length, &text)?),
    )
}

fn from_position(alloc: Global, start: Number, text: &Text) -> Result<Text, AllocError>
    ensures { IfOk result (λ t. t ≡ from_position start text.now) }
{
    let text = text.as_str();
    let skipped = positions_before(nearest_whole(start), text.len());
    Text::from_str(alloc, behind(text, skipped))
}

fn so_many_from(
    alloc: Global,
    start: Number,
    length: Number,
    text: &Text,
) -> Result<Text, AllocError>
    ensures { IfOk result (λ t. t ≡ so_many_from start length text.now) }
{
    let text = text.as_str();
    let least = nearest_whole(start);
    let limit = least.saturating_add(nearest_whole(length));
    let skipped = positions_before(least, text.len());
    let ended = positions_before(limit, text.len());
    first_characters(alloc, behind(text, skipped), ended.saturating_sub(skipped))
}

// What stands behind so many characters.
fn behind(text: &str, count: usize) -> &str
    ensures { chars result.now ≡ drop count (chars text.now) }
{
    let mut rest = text.chars();
    let mut more = count;
    while more > 0 {
        let Some(_) = next_character(&mut rest) else {
            return "";
        };
        more -= 1;
    }
    rest.as_str()
}

// The text of so many characters, or of all where there are fewer.
fn first_characters(alloc: Global, text: &str, count: usize) -> Result<Text, AllocError>
    ensures { IfOk result (λ t. t ≡ take count (chars text.now)) }
{
    let mut done = TextBuilder::new(alloc);
    let mut rest = text.chars();
    let mut more = count;
    while more > 0 {
        let Some(c) = next_character(&mut rest) else {
            return done.finish();
        };
        done.push(c)?;
        more -= 1;
    }
    done.finish()
}

// ---- the order of two strings

/// -1, 0 or 1 by the order of two strings; nothing where one is missing (section 7.3.2).
pub(crate) fn compare(
    alloc: Global,
    first: &[Atomic],
    second: &[Atomic],
) -> Result<Vec<Atomic>, CallError>
    ensures { AnswersCall result (compared (printed_values first.now) (printed_values second.now)) }
{
    match (first, second) {
        ([a], [b]) => compare_texts(
            alloc,
            &print_value(alloc, &a.value)?,
            &print_value(alloc, &b.value)?,
        ),
        ([], [] | [_]) | ([_], []) => Ok(Vec::new(alloc)),
        _ => Err(CallError::NotOfParameters),
    }
}

fn compare_texts(alloc: Global, a: &Text, b: &Text) -> Result<Vec<Atomic>, CallError>
    ensures { AnswersCall result (answers (compared_texts a.now b.now ∷ [])) }
{
    one_value(alloc, integer_atom(sign(a.cmp(b))))
}

fn sign(order: Ordering) -> i128
    ensures { result ≡ sign_of_order order }
{
    match order {
        Ordering::Less => -1,
        Ordering::Equal => 0,
        Ordering::Greater => 1,
    }
}

// ---- code points

/// The code points of the characters of a string (section 7.2.2).
pub(crate) fn string_to_codepoints(
    alloc: Global,
    strings: &[Atomic],
) -> Result<Vec<Atomic>, CallError>
    ensures { AnswersCall result (value_answer functions.StringToCodepoints (strings.now ∷ [])) }
{
    match string_or_empty(alloc, strings)? {
        Some(text) => Ok(codepoints_of(alloc, &text)?),
        None => Err(CallError::NotOfParameters),
    }
}

fn codepoints_of(alloc: Global, text: &Text) -> Result<Vec<Atomic>, AllocError>
    ensures { IfOk result (λ v. v.items ≡ codepoints_of text.now) }
{
    let mut points = Vec::new(alloc);
    let mut rest = text.as_str().chars();
    while let Some(c) = next_character(&mut rest) {
        points.push(integer_atom(i128::from(c as u32)))?;
    }
    Ok(points)
}

/// The string of some code points (section 7.2.1).
pub(crate) fn codepoints_to_string(
    alloc: Global,
    points: &[Atomic],
) -> Result<Vec<Atomic>, CallError>
    ensures { AnswersCall result (value_answer functions.CodepointsToString (points.now ∷ [])) }
{
    match integers_of(alloc, points)? {
        Some(codepoints) => one_value(
            alloc,
            string_atom(text_of_codepoints(alloc, codepoints.as_slice())?),
        ),
        None => Err(CallError::NotOfParameters),
    }
}

// The integers that values are, if all are integers.
#[tactic(auto, using(crate::proofs::CodepointLemmas::integers_from, crate::proofs::CodepointLemmas::one_integer_more, crate::proofs::CodepointLemmas::integer_missing))]
fn integers_of(alloc: Global, values: &[Atomic]) -> Result<Option<Vec<i128>>, AllocError>
    ensures { IfOk result (λ found. option_map (λ v. v.items) found ≡ integers_of_values values.now) }
{
    let mut integers = Vec::new(alloc);
    let mut left = values;
    while let Some((value, others)) = left.split_first() {
        match integer_of(value) {
            Some(integer) => integers.push(integer)?,
            None => return Ok(None),
        }
        left = others;
    }
    Ok(Some(integers))
}

fn integer_of(value: &Atomic) -> Option<i128>
    ensures { result ≡ integer_of_value value.now.value }
{
    match &value.value {
        AtomValue::Num(Number::Int(integer)) => Some(integer.value()),
        _ => None,
    }
}

// The string of some integers, each of which is to be the code point of a character.
#[tactic(auto, using(crate::proofs::CodepointLemmas::text_from, crate::proofs::CodepointLemmas::one_character_more, crate::proofs::CodepointLemmas::no_character))]
fn text_of_codepoints(alloc: Global, codepoints: &[i128]) -> Result<Text, CallError>
    ensures { MatchResult result (λ t. text_of_codepoints codepoints.now ≡ Ok t) (λ error. FailsCall error (Some (string_answer (text_of_codepoints codepoints.now)))) }
{
    let mut done = TextBuilder::new(alloc);
    let mut left = codepoints;
    while let Some((codepoint, others)) = left.split_first() {
        match character_with_code(*codepoint) {
            Some(character) => done.push(character)?,
            None => return Err(CallError::Raised(Code::FOCH0001)),
        }
        left = others;
    }
    Ok(done.finish()?)
}

// The character with a code point, if it is one of XML.
#[tactic(auto, using(crate::proofs::CharacterLemmas::no_code, crate::proofs::CharacterLemmas::no_scalar, crate::proofs::CharacterLemmas::code_is))]
fn character_with_code(codepoint: i128) -> Option<char>
    ensures { result ≡ character_with_code codepoint }
{
    let Ok(code) = u32::try_from(codepoint) else {
        return None;
    };
    match char::from_u32(code) {
        Some(character) if is_char(character) => Some(character),
        _ => None,
    }
}
