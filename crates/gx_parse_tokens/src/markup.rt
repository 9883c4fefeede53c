// White space, names of end tags, CDATA sections and what begins pieces of direct constructors, at the front of a text.

ghost use Rattle.std.specs.Prelude.{◌≡◌, ◌≤◌, ◌∷◌, ◌++◌, [], ℕ, List, MatchOption, None, Some};
ghost use Rattle.gx_base.specs.WhiteSpace.{is_white_space};
ghost use Rattle.gx_grammar.specs.Tokens.{behind_run};
ghost use Rattle.gx_grammar.specs.Value.{nothing};
ghost use Rattle.gx_grammar.specs.Walks.{behind_walk};
ghost use Rattle.gx_parse_grammar.specs.Direct.{content_pieces_of, start_of, value_pieces_of};
ghost use Rattle.gx_parse_tokens.specs.Markup.{LooksAt};
ghost use Rattle.gx_parse_grammar.specs.Tokens.{Token, cdata_walk, reference, scan, seen, starts_element, tag_name, text_run, white};
ghost use Rattle.gx_parse_grammar.specs.Basics.{word_of};
ghost use Rattle.gx_parse_grammar.specs.declared.word.Word.TheVariants as words;

use crate::references::find_reference;
use crate::runs::find_text;
use crate::scan::{behind_letters, find_only};
use gx_base::characters::{is_char, is_name_character, is_name_start, is_white_space};
use gx_parse_grammar::runs::{Quote, Run};
use gx_parse_grammar::word::Word;

/// What is behind the white space at the front.
pub fn behind_white(text: &[char]) -> &[char]
    ensures { result.now ≡ behind_run is_white_space text.now }
{
    let mut rest = text;
    while let [character, tail @ ..] = rest {
        if !is_white_space(*character) {
            break;
        }
        rest = tail;
    }
    rest
}

/// What is behind a token at the front of a text.
#[derive(Clone, Copy)]
pub struct MarkupFound<'a> {
    /// What is behind it, if it stands there.
    pub behind: Option<&'a [char]>,
    /// What is left behind the longest front that opens it.
    pub seen: usize,
}

/// White space, of at least one character.
pub fn find_white(text: &[char]) -> MarkupFound<'_>
    ensures behind { MatchOption result.behind (scan white text.now ≡ None) (λ rest. scan white text.now ≡ Some (nothing, rest.now)) }
    ensures seen { result.seen ≡ seen white text.now }
{
    match text {
        [character, ..] if is_white_space(*character) => {
            let behind = behind_white(text);
            MarkupFound {
                behind: Some(behind),
                seen: behind.len(),
            }
        }
        _ => MarkupFound {
            behind: None,
            seen: text.len(),
        },
    }
}

/// The name of an end tag (XML 1.0, section 3.1).
pub fn find_tag_name<'a>(letters: &[char], text: &'a [char]) -> MarkupFound<'a>
    ensures behind { MatchOption result.behind (scan (tag_name letters.now) text.now ≡ None) (λ rest. scan (tag_name letters.now) text.now ≡ Some (nothing, rest.now)) }
    ensures seen { result.seen ≡ seen (tag_name letters.now) text.now }
{
    let (rest, whole) = behind_letters(letters, text);
    let ends = match rest {
        [character, ..] => !is_name_character(*character),
        [] => true,
    };
    MarkupFound {
        behind: if whole && ends { Some(rest) } else { None },
        seen: rest.len(),
    }
}

// So many `]` stand in front of a character, two at most, behind the character and so many.
fn brackets(count: u8, c: char) -> u8
    requires { count ≤ 2 }
    ensures { result ≡ cdata_walk.next count c }
{
    if c == ']' { 2.min(count + 1) } else { 0 }
}

/// What is behind the characters of a CDATA section, which end in front of the `>` of `]]>` (XML 1.0, section 2.7).
pub fn behind_cdata(text: &[char]) -> &[char]
    ensures { result.now ≡ behind_walk cdata_walk 0 text.now }
{
    let mut rest = text;
    let mut count = 0;
    while let [character, tail @ ..] = rest {
        if (count == 2 && *character == '>') || !is_char(*character) {
            break;
        }
        count = brackets(count, *character);
        rest = tail;
    }
    rest
}

/// Whether one of some tokens stands at the front of a text, and what is left behind the longest front that opens one.
#[derive(Clone, Copy)]
pub struct Looked {
    pub stands: bool,
    pub seen: usize,
}

// A look at both.
fn either(first: Looked, second: Looked) -> Looked
    ensures { (ts us : List Token) (x : List ℕ) → LooksAt ts x first → LooksAt us x second → LooksAt (ts ++ us) x result }
{
    Looked {
        stands: first.stands | second.stands,
        seen: first.seen.min(second.seen),
    }
}

/// Looks for white space.
pub fn look_at_white(text: &[char]) -> Looked
    ensures { LooksAt (white ∷ []) text.now result }
{
    let found = find_white(text);
    Looked {
        stands: found.behind.is_some(),
        seen: found.seen,
    }
}

fn look_at_word(word: Word, text: &[char]) -> Looked
    ensures { LooksAt (word_of word ∷ []) text.now result }
{
    let found = find_only(word, text);
    Looked {
        stands: found.word.is_some(),
        seen: found.seen,
    }
}

fn look_at_text(run: Run, text: &[char]) -> Looked
    ensures { LooksAt (text_run run ∷ []) text.now result }
{
    let found = find_text(run, text);
    Looked {
        stands: found.behind.is_some(),
        seen: found.seen,
    }
}

fn look_at_reference(text: &[char]) -> Looked
    ensures { LooksAt (reference ∷ []) text.now result }
{
    let found = find_reference(text);
    Looked {
        stands: found.character.is_some() | found.is_bad,
        seen: found.seen,
    }
}

/// Whether a `<` with the start of a name stands at the front.
pub fn starts_element(text: &[char]) -> bool
    ensures { result ≡ starts_element text.now }
{
    match text {
        ['<', character, ..] => is_name_start(*character),
        _ => false,
    }
}

fn look_at_element(levels: u8, text: &[char]) -> Looked
    ensures { LooksAt (start_of levels ∷ []) text.now result }
{
    let found = look_at_word(Word::TagOpen, text);
    if levels > 1 {
        return found;
    }
    Looked {
        stands: starts_element(text),
        seen: found.seen,
    }
}

// Looks for braces.
fn look_at_braces(text: &[char]) -> Looked
    ensures { LooksAt (word_of words.TwoOpenBraces ∷ word_of words.TwoCloseBraces ∷ word_of words.BraceOpen ∷ []) text.now result }
{
    let opens = look_at_word(Word::TwoOpenBraces, text);
    let closes = look_at_word(Word::TwoCloseBraces, text);
    let encloses = look_at_word(Word::BraceOpen, text);
    either(opens, either(closes, encloses))
}

/// Looks for a piece of an attribute value with these quotes.
pub fn look_at_value_piece(quote: Quote, text: &[char]) -> Looked
    ensures { LooksAt (value_pieces_of quote) text.now result }
{
    let literal = look_at_text(Run::Attribute(quote), text);
    let doubled = look_at_word(quote.doubled(), text);
    let reference = look_at_reference(text);
    let braces = look_at_braces(text);
    either(literal, either(doubled, either(reference, braces)))
}

/// Looks for a piece of the content of an element at that level.
pub fn look_at_content_piece(levels: u8, text: &[char]) -> Looked
    ensures { LooksAt (content_pieces_of (start_of levels)) text.now result }
{
    let literal = look_at_text(Run::Content, text);
    let reference = look_at_reference(text);
    let cdata = look_at_word(Word::CdataOpen, text);
    let braces = look_at_braces(text);
    let element = look_at_element(levels, text);
    either(
        literal,
        either(reference, either(cdata, either(braces, element))),
    )
}
