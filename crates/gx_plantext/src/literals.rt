// The texts of literals.

ghost use Rattle.std.specs.Prelude.{◌≡◌, ◌++◌, OnOk};
ghost use Rattle.gx_plantext.specs.LiteralText.{literal_text, quoted_text, quotes_doubled, is_whole_decimal, whole_places};

use gx_base::characters::next_character;
use gx_base::text::Text;
use gx_base::text_builder::TextBuilder;
use gx_facets::{AtomValue, print_value};
use gx_num::{Number, is_zero, modulo};
use std::alloc::{AllocError, Global};

// Adds a literal: a number, or a string in quotation marks.
#[tactic(auto, using(std::proofs::Common::append_assoc))]
pub(crate) fn push_literal(
    alloc: Global,
    text: &mut TextBuilder,
    value: &AtomValue,
) -> Result<(), AllocError>
    ensures { OnOk result (text.new ≡ text.old ++ literal_text value.now) }
{
    match value {
        AtomValue::Untyped(characters) | AtomValue::Str(characters) => push_quoted(
            text, characters,
        ),
        AtomValue::Truth(_) => text.push_text(&print_value(alloc, value)?),
        AtomValue::Num(number) => {
            text.push_text(&print_value(alloc, value)?)?;
            push_whole_places(text, *number)
        }
    }
}

// Adds a text in quotation marks.
#[tactic(auto, using(std::proofs::Common::append_assoc))]
fn push_quoted(text: &mut TextBuilder, characters: &Text) -> Result<(), AllocError>
    ensures { OnOk result (text.new ≡ text.old ++ quoted_text characters.now) }
{
    text.push('"')?;
    push_doubled(text, characters)?;
    text.push('"')
}

// Adds a text with each quotation mark twice.
fn push_doubled(text: &mut TextBuilder, characters: &Text) -> Result<(), AllocError>
    ensures { OnOk result (text.new ≡ text.old ++ quotes_doubled characters.now) }
{
    let mut rest = characters.as_str().chars();
    while let Some(character) = next_character(&mut rest) {
        if character == '"' {
            text.push('"')?;
        }
        text.push(character)?;
    }
    Ok(())
}

// Adds the places of a decimal that is whole.
fn push_whole_places(text: &mut TextBuilder, number: Number) -> Result<(), AllocError>
    ensures { OnOk result (text.new ≡ text.old ++ whole_places number) }
{
    if is_whole_decimal(number) {
        text.push_str(".0")?;
    }
    Ok(())
}

fn is_whole_decimal(number: Number) -> bool
    ensures { result ≡ is_whole_decimal number }
{
    match number {
        Number::Int(_) => false,
        Number::Dec(_) => match modulo(number, Number::int(1)) {
            Ok(rest) => is_zero(&rest),
            Err(_) => false,
        },
    }
}
