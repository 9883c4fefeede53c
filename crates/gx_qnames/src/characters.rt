// Texts as characters, and the forms of names and numbers.

ghost use Rattle.std.specs.Prelude.{◌≡◌, IfOk};
ghost use Rattle.std.specs.List.{list_all};
ghost use Rattle.gx_base.specs.NameCharacters.{is_ncname_character, lies_between};
ghost use Rattle.gx_qnames.specs.Lexical.{colon_in, is_blank, is_digits, is_local_name, is_qname, local_in, prefix_in};

use gx_base::characters::{is_name_character, is_name_start, is_white_space, next_character};
use gx_base::text::Text;
use gx_base::text_builder::TextBuilder;
use std::alloc::{AllocError, Global};

/// The characters of a text.
pub fn characters(alloc: Global, text: &Text) -> Result<Vec<char>, AllocError>
    ensures { IfOk result (λ characters. characters.items ≡ text.now) }
{
    let mut characters = Vec::new(alloc);
    let mut rest = text.as_str().chars();
    while let Some(character) = next_character(&mut rest) {
        characters.push(character)?;
    }
    Ok(characters)
}

/// The text of characters.
pub fn text_of(alloc: Global, characters: &[char]) -> Result<Text, AllocError>
    ensures { IfOk result (λ text. text ≡ characters.now) }
{
    let mut builder = TextBuilder::new(alloc);
    for character in characters {
        builder.push(*character)?;
    }
    builder.finish()
}

fn is_digit(character: char) -> bool
    ensures { result ≡ lies_between 48 57 character }
{
    matches!(character, '0'..='9')
}

fn are_digits(characters: &[char]) -> bool
    ensures { result ≡ list_all (λ c. lies_between 48 57 c) characters.now }
{
    characters.iter().all(|c| is_digit(*c))
}

/// Whether there are digits, and nothing else.
pub fn is_digits(characters: &[char]) -> bool
    ensures { result ≡ is_digits characters.now }
{
    match characters.split_first() {
        Some((first, others)) => is_digit(*first) && are_digits(others),
        None => false,
    }
}

/// Whether there is white space at most.
pub fn is_blank(characters: &[char]) -> bool
    ensures { result ≡ is_blank characters.now }
{
    characters.iter().all(|c| is_white_space(*c))
}

fn are_name_characters(characters: &[char]) -> bool
    ensures { result ≡ list_all is_ncname_character characters.now }
{
    characters.iter().all(|c| is_name_character(*c))
}

/// Whether the characters are a name without a colon (Namespaces in XML 1.0, section 3).
pub fn is_local_name(characters: &[char]) -> bool
    ensures { result ≡ is_local_name characters.now }
{
    match characters.split_first() {
        Some((first, others)) => is_name_start(*first) && are_name_characters(others),
        None => false,
    }
}

fn colon_in(characters: &[char]) -> Option<usize>
    ensures { result ≡ colon_in characters.now }
{
    characters.iter().position(|c| *c == ':')
}

/// Whether the characters are a name with or without a prefix (Namespaces in XML 1.0, section 4).
pub fn is_qname(characters: &[char]) -> bool
    ensures { result ≡ is_qname characters.now }
{
    match colon_in(characters) {
        Some(colon) => is_local_name(&characters[..colon])
            && is_local_name(&characters[colon + 1..]),
        None => is_local_name(characters),
    }
}

/// What stands in front of the first colon.
pub fn prefix_in(characters: &[char]) -> &[char]
    ensures { result.now ≡ prefix_in characters.now }
{
    match colon_in(characters) {
        Some(colon) => &characters[..colon],
        None => &[],
    }
}

/// What stands behind the first colon, or all where there is none.
pub fn local_in(characters: &[char]) -> &[char]
    ensures { result.now ≡ local_in characters.now }
{
    match colon_in(characters) {
        Some(colon) => &characters[colon + 1..],
        None => characters,
    }
}
