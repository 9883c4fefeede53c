// Functions that bring strings into a normalization form (Functions and Operators, section 7.4.6).

ghost use Rattle.std.specs.Prelude.{◌≡◌, ◌∷◌, [], map, Some, IfOk, string_bytes, encode_utf8_all};
ghost use Rattle.std.specs.Char.{to_ascii_uppercase};
ghost use Rattle.std.specs.Str.{chars};
ghost use Rattle.unicode_normalization.specs.Forms.{normalize};
ghost use Rattle.gx_funcs.specs.Strings.{form_name, form_named, normal_form, normalized_as};
ghost use Rattle.gx_funcs.specs.Values.{AnswersCall, one_string_of, value_answer};
ghost use Rattle.gx_funcs.specs.declared.value_function.ValueFunction.TheVariants as functions;

use crate::function::string_atom;
use crate::strings::string_or_empty;
use crate::texts::without_spare_space;
use crate::values::{CallError, one_value};
use gx_base::characters::next_character;
use gx_base::code::Code;
use gx_base::text::Text;
use gx_base::text_builder::TextBuilder;
use gx_facets::{Atomic, print_value};
use std::alloc::{AllocError, Global};
use unicode_normalization::{Form, to_nfc, to_nfd, to_nfkc, to_nfkd};

/// The normalization form C of a string (section 7.4.6).
pub(crate) fn normalize(alloc: Global, strings: &[Atomic]) -> Result<Vec<Atomic>, CallError>
    ensures { AnswersCall result (value_answer functions.Normalize (strings.now ∷ [])) }
{
    match string_or_empty(alloc, strings)? {
        Some(text) => normalized_as(alloc, Some(Some(Form::Nfc)), &text),
        None => Err(CallError::NotOfParameters),
    }
}

/// The normalization form of this name, or the string itself where the name is empty (section 7.4.6).
pub(crate) fn normalize_to(
    alloc: Global,
    strings: &[Atomic],
    forms: &[Atomic],
) -> Result<Vec<Atomic>, CallError>
    ensures { AnswersCall result (value_answer functions.NormalizeTo (strings.now ∷ forms.now ∷ [])) }
{
    let Some(text) = string_or_empty(alloc, strings)? else {
        return Err(CallError::NotOfParameters);
    };
    let Some(form) = one_string(alloc, forms)? else {
        return Err(CallError::NotOfParameters);
    };
    normalized_as(alloc, form_of(alloc, &form)?, &text)
}

// The string of one value.
fn one_string(alloc: Global, values: &[Atomic]) -> Result<Option<Text>, AllocError>
    ensures { IfOk result (λ text. text ≡ one_string_of values.now) }
{
    match values {
        [value] => Ok(Some(print_value(alloc, &value.value)?)),
        _ => Ok(None),
    }
}

// No form at all, or a form, if a text is its name.
fn form_of(alloc: Global, name: &Text) -> Result<Option<Option<Form>>, AllocError>
    ensures { IfOk result (λ form. form ≡ form_named (form_name name.now)) }
{
    let name = in_capitals(alloc, &without_spare_space(alloc, name)?)?;
    Ok(form_named(name.as_str()))
}

fn form_named(name: &str) -> Option<Option<Form>>
    ensures { result ≡ form_named name.now }
{
    match name {
        "" => Some(None),
        "NFC" => Some(Some(Form::Nfc)),
        "NFD" => Some(Some(Form::Nfd)),
        "NFKC" => Some(Some(Form::Nfkc)),
        "NFKD" => Some(Some(Form::Nfkd)),
        _ => None,
    }
}

// A text with capitals for its ASCII letters.
fn in_capitals(alloc: Global, text: &Text) -> Result<Text, AllocError>
    ensures { IfOk result (λ t. t ≡ map to_ascii_uppercase text.now) }
{
    let mut done = TextBuilder::new(alloc);
    let mut rest = text.as_str().chars();
    while let Some(c) = next_character(&mut rest) {
        done.push(c.to_ascii_uppercase())?;
    }
    done.finish()
}

fn normalized_as(
    alloc: Global,
    form: Option<Option<Form>>,
    text: &Text,
) -> Result<Vec<Atomic>, CallError>
    ensures { AnswersCall result (Some (normalized_as form text.now)) }
{
    match form {
        Some(form) => one_value(alloc, string_atom(normal_form(alloc, form, text)?)),
        None => Err(CallError::Raised(Code::FOCH0003)),
    }
}

fn normal_form(alloc: Global, form: Option<Form>, text: &Text) -> Result<Text, AllocError>
    ensures { IfOk result (λ t. t ≡ normal_form form text.now) }
{
    match form {
        Some(form) => normalized(alloc, form, text),
        None => text.clone(),
    }
}

// A text in a normalization form.
#[tactic(auto, using(crate::proofs::CodepointLemmas::characters_spelled, crate::proofs::TextLemmas::chars_from))]
fn normalized(alloc: Global, form: Form, text: &Text) -> Result<Text, AllocError>
    ensures { IfOk result (λ t. t ≡ normalize form text.now) }
{
    Text::from_string(alloc, normal_string(alloc, form, text.as_str())?)
}

fn normal_string(alloc: Global, form: Form, text: &str) -> Result<String, AllocError>
    ensures { IfOk result (λ s. string_bytes s ≡ encode_utf8_all (normalize form (chars text.now))) }
{
    match form {
        Form::Nfc => to_nfc(alloc, text),
        Form::Nfd => to_nfd(alloc, text),
        Form::Nfkc => to_nfkc(alloc, text),
        Form::Nfkd => to_nfkd(alloc, text),
    }
}
