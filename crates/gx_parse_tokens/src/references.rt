// References to characters at the front of a text.

ghost use Rattle.std.specs.Prelude.{◌≡◌, ◌≤◌, ◌<◌, [], ◌∷◌, MatchOption, Some, None, false, true, if◌then◌else◌, length};
ghost use Rattle.gx_grammar.specs.First.{scans_any, seen_any};
ghost use Rattle.gx_grammar.specs.Tokens.{behind_run, seen_word};
ghost use Rattle.gx_grammar.specs.Value.{characters, node, nothing};
ghost use Rattle.gx_grammar.specs.Walks.{behind_walk, reached, walk_of};
ghost use Rattle.gx_base.specs.NameCharacters.{is_xml_character};
ghost use Rattle.gx_parse_grammar.specs.Nodes.{Found as the_word};
ghost use Rattle.gx_parse_grammar.specs.References.{closes, closes_behind, code_value, grown, is_figure, numbering, scan_numeric, scan_semicolon, seen_numeric, worth};
ghost use Rattle.gx_parse_grammar.specs.Strings.{parts_of};
ghost use Rattle.gx_parse_grammar.specs.Tokens.{entity_value, entity_words, faults, reference, reference_code, reference_fault, scan, seen};

use crate::characters::is_digit;
use crate::runs::find_text;
use crate::scan::{behind_letters, find, find_only};
use gx_base::characters::is_char;
use gx_parse_grammar::runs::{Quote, Radix, Run};
use gx_parse_grammar::word::Word;

// The greatest code point.
const GREATEST: u32 = 1114111;

const ENTITIES: [Word; 5] = [
    Word::LessEntity,
    Word::GreaterEntity,
    Word::AmpersandEntity,
    Word::QuoteEntity,
    Word::ApostropheEntity,
];

/// A reference by number at the front of a text.
#[derive(Clone, Copy)]
pub struct NumericFound<'a> {
    /// The character, and what is behind the reference.
    pub character: Option<(char, &'a [char])>,
    /// Whether a reference is written there, be it to a character or not.
    pub closes: bool,
    /// What is left behind the longest front that opens one.
    pub seen: usize,
}

/// A reference at the front of a text.
#[derive(Clone, Copy)]
pub struct ReferenceFound<'a> {
    /// The character, and what is behind the reference.
    pub character: Option<(char, &'a [char])>,
    /// Whether one is written there that names no character.
    pub is_bad: bool,
    /// What is left behind the longest front that opens one.
    pub seen: usize,
}

fn is_figure(radix: Radix, c: char) -> bool
    ensures { result ≡ is_figure radix c }
{
    match radix {
        Radix::Decimal => is_digit(c),
        Radix::Hexadecimal => {
            is_digit(c) || (('A'..='F').contains(&c) || ('a'..='f').contains(&c))
        }
    }
}

// What a digit is worth.
fn worth(c: char) -> u32
    ensures { result ≡ worth c }
{
    let code = c as u32;
    if code <= 57 {
        code.saturating_sub(48)
    } else if code <= 70 {
        code - 55
    } else {
        code.saturating_sub(87)
    }
}

// The number with one more digit.
fn grown(radix: Radix, number: u32, c: char) -> u32
    requires { number ≤ 1114111 }
    ensures { result ≡ grown radix number c }
{
    let base = match radix {
        Radix::Decimal => 10,
        Radix::Hexadecimal => 16,
    };
    base * number + worth(c)
}

// The number at the front, as far as it is no greater than the greatest code point, and what is behind it.
fn number(radix: Radix, text: &[char]) -> (u32, &[char])
    ensures number { result.0 ≡ reached (numbering radix) 0 (walk_of (numbering radix) 0 text.now) }
    ensures behind { result.1.now ≡ behind_walk (numbering radix) 0 text.now }
{
    let mut number = 0;
    let mut rest = text;
    while let [character, tail @ ..] = rest {
        let next = grown(radix, number, *character);
        if !(is_figure(radix, *character) && next <= GREATEST) {
            break;
        }
        number = next;
        rest = tail;
    }
    (number, rest)
}

// What is behind the digits at the front.
fn behind_figures(radix: Radix, text: &[char]) -> &[char]
    ensures { result.now ≡ behind_run (is_figure radix) text.now }
{
    let mut rest = text;
    while let [character, tail @ ..] = rest {
        if !is_figure(radix, *character) {
            break;
        }
        rest = tail;
    }
    rest
}

// What is behind a `;`, if one stands there.
fn behind_semicolon(text: &[char]) -> Option<&[char]>
    ensures found { MatchOption result (scan_semicolon text.now ≡ None) (λ tail. scan_semicolon text.now ≡ Some (nothing, tail.now)) }
    ensures seen { MatchOption result (seen_word (59 ∷ []) text.now ≡ length text.now) (λ tail. (seen_word (59 ∷ []) text.now ≡ length tail.now) × (length tail.now < length text.now)) }
{
    match text {
        [';', tail @ ..] => Some(tail),
        _ => None,
    }
}

// Whether digits with a `;` stand there.
fn closes_behind(radix: Radix, text: &[char]) -> bool
    ensures { result ≡ closes_behind radix text.now }
{
    let behind = behind_figures(radix, text);
    if behind.len() == text.len() {
        return false;
    }
    behind_semicolon(behind).is_some()
}

// The Char of that number, if there is one.
fn numbered(number: u32) -> Option<char>
    ensures { MatchOption result (is_xml_character number ≡ false) (λ c. (c ≡ number) × (is_xml_character number ≡ true)) }
{
    match char::from_u32(number) {
        Some(c) if is_char(c) => Some(c),
        _ => None,
    }
}

// The reference by number at the front.
fn find_numeric(radix: Radix, text: &[char]) -> NumericFound<'_>
    ensures character { MatchOption result.character (scan_numeric radix text.now ≡ None) (λ r. scan_numeric radix text.now ≡ Some (code_value r.0, r.1.now)) }
    ensures closes { result.closes ≡ closes radix text.now }
    ensures seen { result.seen ≡ seen_numeric radix text.now }
{
    let (rest, whole) = behind_letters(radix.prefix(), text);
    if !whole {
        return NumericFound {
            character: None,
            closes: false,
            seen: rest.len(),
        };
    }
    let closes = closes_behind(radix, rest);
    let (number, behind) = number(radix, rest);
    if behind.len() == rest.len() {
        return NumericFound {
            character: None,
            closes,
            seen: rest.len(),
        };
    }
    let Some(tail) = behind_semicolon(behind) else {
        return NumericFound {
            character: None,
            closes,
            seen: behind.len(),
        };
    };
    let character = match numbered(number) {
        Some(c) => Some((c, tail)),
        None => None,
    };
    NumericFound {
        character,
        closes,
        seen: tail.len(),
    }
}

// The character that an entity stands for (XML 1.0, section 4.6).
fn entity_character(word: Word) -> char
    ensures { entity_value (node (the_word word)) ≡ characters (result ∷ []) }
{
    match word {
        Word::LessEntity => '<',
        Word::GreaterEntity => '>',
        Word::AmpersandEntity => '&',
        Word::QuoteEntity => '"',
        _ => '\'',
    }
}

/// The reference at the front (XQuery 1.0, section 3.1.1).
pub fn find_reference(text: &[char]) -> ReferenceFound<'_>
    ensures character { MatchOption result.character (scan reference text.now ≡ None) (λ r. scan reference text.now ≡ Some (characters (r.0 ∷ []), r.1.now)) }
    ensures bad { reference_fault text.now ≡ (if result.is_bad then (Some reference_code) else None) }
    ensures seen { result.seen ≡ seen reference text.now }
{
    let entity = find(&ENTITIES, text);
    let decimal = find_numeric(Radix::Decimal, text);
    let hexadecimal = find_numeric(Radix::Hexadecimal, text);
    let seen = entity.seen.min(decimal.seen.min(hexadecimal.seen));
    let character = match (entity.word, decimal.character) {
        (Some((word, behind)), _) => Some((entity_character(word), behind)),
        (None, Some(found)) => Some(found),
        (None, None) => hexadecimal.character,
    };
    let is_bad = character.is_none() && (decimal.closes || hexadecimal.closes);
    ReferenceFound {
        character,
        is_bad,
        seen,
    }
}

/// Literal text, two quotes or a reference at the front of a text.
#[derive(Clone, Copy)]
pub struct PartFound {
    /// Whether one of them stands there.
    pub stands: bool,
    /// What is left behind the longest front that opens one.
    pub seen: usize,
}

/// Looks for literal text, two quotes or a reference, as in a string literal with these quotes.
pub fn find_part(quote: Quote, text: &[char]) -> PartFound
    ensures stands { result.stands ≡ scans_any scan faults (parts_of quote) text.now }
    ensures seen { result.seen ≡ seen_any seen (parts_of quote) text.now }
{
    let literal = find_text(Run::String(quote), text);
    let doubled = find_only(quote.doubled(), text);
    let reference = find_reference(text);
    let stands = literal.behind.is_some()
        | doubled.word.is_some()
        | reference.character.is_some()
        | reference.is_bad;
    let seen = literal.seen.min(doubled.seen.min(reference.seen));
    PartFound { stands, seen }
}
