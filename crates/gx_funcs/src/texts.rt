// Functions over strings, applied to the texts of their arguments.

ghost use Rattle.std.specs.Prelude.{◌≡◌, ◌++◌, [], ◌∷◌, ◌==◌, pos, map, length, IfOk, OnOk, ℕ, List, Vec, is_some, option_map, None, Some, nat_eq, drop};
ghost use Rattle.std.specs.HashMap.{get};
ghost use Rattle.std.specs.List.{starts_with, ends_with};
ghost use Rattle.std.specs.Str.{chars, IsUtf8};
ghost use Rattle.std.specs.Str.Iter.{chars_rest};
ghost use Rattle.gx_facets.specs.WhiteSpace.{collapsed};
ghost use Rattle.gx_funcs.specs.Targets.{unless_ended};
ghost use Rattle.gx_funcs.specs.Texts.{text_or_empty, one_text, only_text, two_texts, texts_of, concatenated, joined, split_at_first, before_first_text, behind_first_text, first_character, in_place_of, target, translated, text_answer};
ghost use Rattle.gx_funcs.specs.Function.{string_atom, truth_atom, integer_atom};
ghost use Rattle.gx_funcs.specs.declared.text_function.TextFunction.TheVariants as texts;

use crate::function::{integer_atom, string_atom, truth_atom};
use crate::text_function::TextFunction;
use gx_base::characters::next_character;
use gx_base::text::Text;
use gx_base::text_builder::TextBuilder;
use gx_base::type_name::Builtin;
use gx_facets::{AtomValue, Atomic, read_value};
use std::alloc::{AllocError, Global};
use std::collections::HashMap;
use std::str::Chars;

/// The one atomic value that a function over strings answers of the texts of its arguments; None exactly where these are not of its
/// parameters (Functions and Operators, sections 7.4 and 7.5).
pub fn apply_to_texts(
    alloc: Global,
    function: TextFunction,
    arguments: &[Vec<Text>],
) -> Result<Option<Atomic>, AllocError>
    ensures { IfOk result (λ answer. answer ≡ text_answer function (texts_of arguments.now)) }
{
    match function {
        TextFunction::StringLength => string_length(alloc, arguments),
        TextFunction::Concat(count) => concat(alloc, count, arguments),
        TextFunction::StringJoin => string_join(alloc, arguments),
        TextFunction::NormalizeSpace => normalize_space(alloc, arguments),
        TextFunction::Translate => translate(alloc, arguments),
        TextFunction::Contains => contains(alloc, arguments),
        TextFunction::StartsWith => starts_with(alloc, arguments),
        TextFunction::EndsWith => ends_with(alloc, arguments),
        TextFunction::SubstringBefore => substring_before(alloc, arguments),
        TextFunction::SubstringAfter => substring_after(alloc, arguments),
    }
}

// The text of at most one value, which is empty where there is none.
fn text_or_empty(alloc: Global, argument: &[Text]) -> Result<Option<Text>, AllocError>
    ensures { IfOk result (λ text. text ≡ text_or_empty argument.now) }
{
    match argument {
        [] => Ok(Some(Text::empty(alloc)?)),
        [text] => Ok(Some(text.clone()?)),
        _ => Ok(None),
    }
}

// The text of one value.
fn one_text(argument: &[Text]) -> Result<Option<Text>, AllocError>
    ensures { IfOk result (λ text. text ≡ one_text argument.now) }
{
    match argument {
        [text] => Ok(Some(text.clone()?)),
        _ => Ok(None),
    }
}

// The text of the only argument.
fn only_text(alloc: Global, arguments: &[Vec<Text>]) -> Result<Option<Text>, AllocError>
    ensures { IfOk result (λ text. text ≡ only_text (texts_of arguments.now)) }
{
    match arguments {
        [argument] => text_or_empty(alloc, argument.as_slice()),
        _ => Ok(None),
    }
}

// The texts of the two arguments.
fn two_texts(alloc: Global, arguments: &[Vec<Text>]) -> Result<Option<(Text, Text)>, AllocError>
    ensures { IfOk result (λ both. both ≡ two_texts (texts_of arguments.now)) }
{
    let [first, second] = arguments else {
        return Ok(None);
    };
    let first = text_or_empty(alloc, first.as_slice())?;
    let second = text_or_empty(alloc, second.as_slice())?;
    match (first, second) {
        (Some(first), Some(second)) => Ok(Some((first, second))),
        _ => Ok(None),
    }
}

fn string_length(alloc: Global, arguments: &[Vec<Text>]) -> Result<Option<Atomic>, AllocError>
    ensures { IfOk result (λ answer. answer ≡ text_answer texts.StringLength (texts_of arguments.now)) }
{
    match only_text(alloc, arguments)? {
        Some(text) => Ok(Some(integer_atom(length_of(&text)))),
        None => Ok(None),
    }
}

fn normalize_space(alloc: Global, arguments: &[Vec<Text>]) -> Result<Option<Atomic>, AllocError>
    ensures { IfOk result (λ answer. answer ≡ text_answer texts.NormalizeSpace (texts_of arguments.now)) }
{
    match only_text(alloc, arguments)? {
        Some(text) => Ok(Some(string_atom(without_spare_space(alloc, &text)?))),
        None => Ok(None),
    }
}

fn contains(alloc: Global, arguments: &[Vec<Text>]) -> Result<Option<Atomic>, AllocError>
    ensures { IfOk result (λ answer. answer ≡ text_answer texts.Contains (texts_of arguments.now)) }
{
    match two_texts(alloc, arguments)? {
        Some((text, searched)) => Ok(Some(truth_atom(occurs(&text, &searched)))),
        None => Ok(None),
    }
}

fn starts_with(alloc: Global, arguments: &[Vec<Text>]) -> Result<Option<Atomic>, AllocError>
    ensures { IfOk result (λ answer. answer ≡ text_answer texts.StartsWith (texts_of arguments.now)) }
{
    match two_texts(alloc, arguments)? {
        Some((text, searched)) => Ok(Some(truth_atom(begins(&text, &searched)))),
        None => Ok(None),
    }
}

fn ends_with(alloc: Global, arguments: &[Vec<Text>]) -> Result<Option<Atomic>, AllocError>
    ensures { IfOk result (λ answer. answer ≡ text_answer texts.EndsWith (texts_of arguments.now)) }
{
    match two_texts(alloc, arguments)? {
        Some((text, searched)) => Ok(Some(truth_atom(ends(&text, &searched)))),
        None => Ok(None),
    }
}

fn substring_before(alloc: Global, arguments: &[Vec<Text>]) -> Result<Option<Atomic>, AllocError>
    ensures { IfOk result (λ answer. answer ≡ text_answer texts.SubstringBefore (texts_of arguments.now)) }
{
    match two_texts(alloc, arguments)? {
        Some((text, searched)) => Ok(Some(string_atom(before_first(alloc, &text, &searched)?))),
        None => Ok(None),
    }
}

fn substring_after(alloc: Global, arguments: &[Vec<Text>]) -> Result<Option<Atomic>, AllocError>
    ensures { IfOk result (λ answer. answer ≡ text_answer texts.SubstringAfter (texts_of arguments.now)) }
{
    match two_texts(alloc, arguments)? {
        Some((text, searched)) => Ok(Some(string_atom(behind_first(alloc, &text, &searched)?))),
        None => Ok(None),
    }
}

fn concat(
    alloc: Global,
    count: usize,
    arguments: &[Vec<Text>],
) -> Result<Option<Atomic>, AllocError>
    ensures { IfOk result (λ answer. answer ≡ text_answer (texts.Concat count) (texts_of arguments.now)) }
{
    if count != arguments.len() {
        return Ok(None);
    }
    match concatenated(alloc, arguments)? {
        Some(text) => Ok(Some(string_atom(text))),
        None => Ok(None),
    }
}

// The texts of arguments one behind another, where each has at most one.
fn concatenated(alloc: Global, arguments: &[Vec<Text>]) -> Result<Option<Text>, AllocError>
    ensures { IfOk result (λ text. text ≡ concatenated (texts_of arguments.now)) }
{
    let mut whole = TextBuilder::new(alloc);
    let mut left = arguments;
    while let Some((argument, others)) = left.split_first() {
        match argument.as_slice() {
            [] => {}
            [text] => whole.push_text(text)?,
            _ => return Ok(None),
        }
        left = others;
    }
    Ok(Some(whole.finish()?))
}

fn string_join(alloc: Global, arguments: &[Vec<Text>]) -> Result<Option<Atomic>, AllocError>
    ensures { IfOk result (λ answer. answer ≡ text_answer texts.StringJoin (texts_of arguments.now)) }
{
    let [strings, separator] = arguments else {
        return Ok(None);
    };
    match one_text(separator.as_slice())? {
        Some(separator) => Ok(Some(string_atom(joined(alloc, &separator, strings.as_slice())?))),
        None => Ok(None),
    }
}

// Texts with a separator between them.
#[tactic(auto, using(crate::proofs::ListedTexts::joined_from, crate::proofs::ListedTexts::one_text_more))]
fn joined(alloc: Global, separator: &Text, strings: &[Text]) -> Result<Text, AllocError>
    ensures { IfOk result (λ text. text ≡ joined separator.now strings.now) }
{
    let Some((first, others)) = strings.split_first() else {
        return Text::empty(alloc);
    };
    let mut whole = TextBuilder::new(alloc);
    whole.push_text(first)?;
    let mut left = others;
    while let Some((text, rest)) = left.split_first() {
        whole.push_text(separator)?;
        whole.push_text(text)?;
        left = rest;
    }
    whole.finish()
}

// How many characters a text has.
#[tactic(auto, using(crate::proofs::TextLemmas::characters_of))]
fn length_of(text: &Text) -> i128
    ensures { result ≡ pos (length text.now) }
{
    count_of(text.as_str()) as i128
}

fn count_of(text: &str) -> usize
    ensures { result ≡ length (chars text.now) }
{
    text.chars().count()
}

// The text as white space is collapsed.
pub(crate) fn without_spare_space(alloc: Global, text: &Text) -> Result<Text, AllocError>
    ensures { IfOk result (λ t. t ≡ collapsed text.now) }
{
    match read_value(alloc, Builtin::Token, text) {
        Ok(value) => match &value {
            AtomValue::Str(token) => token.clone(),
            _ => unreachable!(),
        },
        Err(_) => Err(AllocError),
    }
}

// Whether a text occurs in another.
fn occurs(text: &Text, searched: &Text) -> bool
    ensures { result ≡ is_some (split_at_first searched.now text.now) }
{
    text.as_str().contains(searched.as_str())
}

// Whether a text begins with another.
fn begins(text: &Text, searched: &Text) -> bool
    ensures { result ≡ starts_with ◌==◌ text.now searched.now }
{
    text.as_str().starts_with(searched.as_str())
}

// Whether a text ends with another.
fn ends(text: &Text, searched: &Text) -> bool
    ensures { result ≡ ends_with ◌==◌ text.now searched.now }
{
    text.as_str().ends_with(searched.as_str())
}

// What stands before the first occurrence of a text in another.
fn before_first(alloc: Global, text: &Text, searched: &Text) -> Result<Text, AllocError>
    ensures { IfOk result (λ t. t ≡ before_first_text searched.now text.now) }
{
    match text.as_str().split_once(searched.as_str()) {
        Some((before, _)) => Text::from_str(alloc, before),
        None => Text::empty(alloc),
    }
}

// What stands behind the first occurrence of a text in another.
fn behind_first(alloc: Global, text: &Text, searched: &Text) -> Result<Text, AllocError>
    ensures { IfOk result (λ t. t ≡ behind_first_text searched.now text.now) }
{
    match text.as_str().split_once(searched.as_str()) {
        Some((_, behind)) => Text::from_str(alloc, behind),
        None => Text::empty(alloc),
    }
}

fn translate(alloc: Global, arguments: &[Vec<Text>]) -> Result<Option<Atomic>, AllocError>
    ensures { IfOk result (λ answer. answer ≡ text_answer texts.Translate (texts_of arguments.now)) }
{
    let [text, from, to] = arguments else {
        return Ok(None);
    };
    let text = text_or_empty(alloc, text.as_slice())?;
    let from = one_text(from.as_slice())?;
    let to = one_text(to.as_slice())?;
    let (Some(text), Some(from), Some(to)) = (text, from, to) else {
        return Ok(None);
    };
    Ok(Some(string_atom(translated(alloc, &from, &to, &text)?)))
}

// What each character of a text becomes, where it becomes another one or goes.
type CharacterMap = HashMap<char, Option<char>>;

// A text with each character that a map names in its place.
fn translated(alloc: Global, from: &Text, to: &Text, text: &Text) -> Result<Text, AllocError>
    ensures { IfOk result (λ t. t ≡ translated from.now to.now text.now) }
{
    let map = character_map(alloc, from, to)?;
    let mut done = TextBuilder::new(alloc);
    let mut rest = text.as_str().chars();
    while let Some(c) = next_character(&mut rest) {
        put(&mut done, c, map.get(&c).copied())?;
    }
    done.finish()
}

// Adds a character as a map has it: itself, where the map does not name it.
fn put(
    done: &mut TextBuilder,
    character: char,
    target: Option<Option<char>>,
) -> Result<(), AllocError>
    ensures { OnOk result (done.new ≡ done.old ++ in_place_of character target) }
{
    match target {
        None => done.push(character),
        Some(Some(other)) => done.push(other),
        Some(None) => Ok(()),
    }
}

// The map from the characters of a text to those of another, of which the first counts.
fn character_map(alloc: Global, from: &Text, to: &Text) -> Result<CharacterMap, AllocError>
    ensures { IfOk result (λ map. (c : ℕ) → get nat_eq map c ≡ target from.now to.now c) }
{
    let mut map = HashMap::new(alloc);
    let mut ended = false;
    let mut sources = from.as_str().chars();
    let mut targets = to.as_str().chars();
    while let Some(source) = next_character(&mut sources) {
        let target = next_target(&mut targets, &mut ended);
        if !map.contains_key(&source) {
            map.insert(source, target)?;
        }
    }
    Ok(map)
}

// The next character of a text that may have ended.
fn next_target(targets: &mut Chars<'_>, ended: &mut bool) -> Option<char>
    requires { IsUtf8 (chars_rest targets.old) }
    ensures text { IsUtf8 (chars_rest targets.new) }
    ensures target { result ≡ first_character (unless_ended ended.old (chars (chars_rest targets.old))) }
    ensures behind { unless_ended ended.new (chars (chars_rest targets.new)) ≡ drop 1 (unless_ended ended.old (chars (chars_rest targets.old))) }
{
    if *ended {
        return None;
    }
    let target = next_character(targets);
    *ended = target.is_none();
    target
}
