// The characters that numbers, names and comments are made of.

ghost use Rattle.std.specs.Prelude.{◌≡◌};
ghost use Rattle.gx_base.specs.NameCharacters.{lies_between};
ghost use Rattle.gx_parse_grammar.specs.Characters.{is_digit, is_word_character};
ghost use Rattle.gx_parse_grammar.specs.Tokens.{begins_at, begins_attribute, begins_sign, begins_step};
ghost use Rattle.gx_parse_grammar.specs.Words.{ends_at};

use gx_base::characters::{is_name_start, is_white_space};
use gx_parse_grammar::word::{Barrier, Ending};

// Whether the character lies between two, which count as well.
fn lies(low: u32, high: u32, c: char) -> bool
    ensures { result ≡ lies_between low high c }
{
    let code = c as u32;
    low <= code && code <= high
}

pub fn is_digit(c: char) -> bool
    ensures { result ≡ is_digit c }
{
    lies(48, 57, c)
}

// Whether the character is one of names, but neither `-` nor `.`.
#[tactic(auto, unfolding(gx_parse_grammar::specs::Characters::is_word_character))]
fn is_word_character(c: char) -> bool
    ensures { result ≡ is_word_character c }
{
    is_name_start(c) || is_digit(c) || c == '\u{b7}' || lies(768, 879, c) || lies(8255, 8256, c)
}

/// Whether the character may not stand behind a word with that ending.
pub fn ends_at(ending: Ending, c: char) -> bool
    ensures { result ≡ ends_at ending c }
{
    match ending {
        Ending::Free => false,
        Ending::Name => is_word_character(c),
        Ending::Less => c == '=' || c == '<',
        Ending::Greater => c == '=' || c == '>',
        Ending::Slash => c == '/',
        Ending::Point => c == '.' || is_digit(c),
        Ending::Quote => c == '"',
        Ending::Apostrophe => c == '\'',
        Ending::Tag => c == '/' || c == '!',
        Ending::Brace => c == '{',
        Ending::Colon => c == ':',
    }
}

fn begins_sign(c: char) -> bool
    ensures { result ≡ begins_sign c }
{
    c == '+' || c == '-'
}

fn begins_step(c: char) -> bool
    ensures { result ≡ begins_step c }
{
    is_name_start(c)
        || is_digit(c)
        || c == '.'
        || c == '$'
        || c == '('
        || c == '"'
        || c == '\''
        || c == '@'
        || c == '*'
        || c == '<'
}

/// Whether what may not begin at a limit would begin with the character.
pub fn begins_at(barrier: Barrier, c: char) -> bool
    ensures { result ≡ begins_at barrier c }
{
    match barrier {
        Barrier::Single => begins_step(c) || begins_sign(c),
        Barrier::Step => begins_step(c),
        Barrier::Sign => begins_sign(c),
        Barrier::Predicate => c == '[',
    }
}

/// Whether an attribute, or white space in front of one, begins with the character.
pub fn begins_attribute(c: char) -> bool
    ensures { result ≡ begins_attribute c }
{
    is_name_start(c) || is_white_space(c)
}
