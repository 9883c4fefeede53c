// Symbols, runs and words at the front of a text.

ghost use Rattle.gx_grammar.specs.First.{head_passes};
ghost use Rattle.gx_grammar.specs.Tokens.{behind_common, strip};
ghost use Rattle.gx_grammar.specs.Walks.{behind_walk, reached, walk_of};
ghost use Rattle.gx_xml.specs.Characters.{spelled};
ghost use Rattle.gx_xml.specs.Found.{IsWordFound, Words, entry, stop_characters};
ghost use Rattle.gx_xml.specs.Marks.{named_entities, number_signs, only_if, mark_word, choice_words};
ghost use Rattle.gx_xml.specs.Runs.{walk_for};
ghost use Rattle.gx_xml.specs.declared.marks.Choice.TheVariants as choice_of;
ghost use Rattle.gx_xml.specs.declared.marks.Choice.TheVariants.{Declaration, DeclarationStart};
ghost use Rattle.std.specs.Prelude.{◌≡◌, ◌≤◌, ◌<◌, ◌+◌, ◌∷◌, [], ◌++◌, None, Some, false, if◌then◌else◌, length, true, option_map, IfSome, IsNone};
ghost use Rattle.std.specs.Str.{chars};

use crate::characters::Characters;
use crate::marks::{Choice, Mark};
use crate::plain::plain_part;
use crate::runs::{Base, Quote, Run};

/// What is behind a symbol, if it stands at the front, and what is left behind the longest front that opens it.
#[derive(Clone, Copy)]
pub struct SymbolFound<'a> {
    pub behind: Option<Characters<'a>>,
    pub seen: usize,
}

/// A run, what is behind it, and the state there.
#[derive(Clone, Copy)]
pub struct RunFound<'a> {
    pub run: Characters<'a>,
    pub behind: Characters<'a>,
    pub state: u32,
}

/// A word with what is behind it, if one stands at the front, and what is left behind the longest front that opens one.
#[derive(Clone, Copy)]
pub struct WordFound<'a> {
    pub word: Option<(Mark, Characters<'a>)>,
    pub seen: usize,
}

/// Which character may not stand behind a word.
#[derive(Clone, Copy)]
pub enum Stop {
    Nothing,
    /// One that tells other markup from a start tag.
    Markup,
    /// The letter `x`.
    LetterX,
}

// What is behind the letters that a text begins with, and whether these are all.
fn behind_letters<'a>(letters: &[char], text: Characters<'a>) -> (Characters<'a>, bool)
    ensures common { spelled result.0 ≡ behind_common letters.now (spelled text.entry) }
    ensures whole { strip letters.now (spelled text.entry) ≡ (if result.1 then (Some (spelled result.0)) else None) }
{
    let mut rest = text;
    for letter in letters {
        match rest.first() {
            Some((character, tail)) if character == *letter => rest = tail,
            _ => return (rest, false),
        }
    }
    (rest, true)
}

// What is behind a text that another one begins with.
fn behind_text<'a>(front: &str, text: &'a str) -> Option<&'a str>
    ensures { IfSome result (λ behind. chars text.now ≡ chars front.now ++ chars behind.now) }
{
    text.strip_prefix(front)
}

// What is behind characters, where a text begins with all of them.
fn behind_all<'a>(letters: Characters<'_>, text: Characters<'a>) -> Option<Characters<'a>>
    ensures { IfSome result (λ behind. spelled text.entry ≡ spelled letters.entry ++ spelled behind) }
{
    let behind = behind_text(letters.text, text.text)?;
    let count = text.count - letters.count;
    Some(Characters {
        text: behind,
        count,
    })
}

// What is behind the characters that a text begins with, and whether these are all.
fn behind_spelling<'a>(letters: Characters<'_>, text: Characters<'a>) -> (Characters<'a>, bool)
    ensures common { spelled result.0 ≡ behind_common (spelled letters.entry) (spelled text.entry) }
    ensures whole { strip (spelled letters.entry) (spelled text.entry) ≡ (if result.1 then (Some (spelled result.0)) else None) }
{
    if let Some(behind) = behind_all(letters, text) {
        return (behind, true);
    }
    let mut rest = text;
    let mut left = letters;
    while let Some((letter, others)) = left.first() {
        match rest.first() {
            Some((character, tail)) if character == letter => rest = tail,
            _ => return (rest, false),
        }
        left = others;
    }
    (rest, true)
}

/// The symbol at the front.
pub fn find_symbol<'a>(letters: &[char], text: Characters<'a>) -> SymbolFound<'a>
    ensures behind { strip letters.now (spelled text.entry) ≡ option_map spelled result.behind }
    ensures seen { result.seen ≡ length (behind_common letters.now (spelled text.entry)) }
    ensures bounded { result.seen ≤ length (spelled text.entry) }
    ensures shorter { IfSome result.behind (λ rest. length (spelled rest) + length letters.now ≡ length (spelled text.entry)) }
{
    let (rest, whole) = behind_letters(letters, text);
    let seen = rest.len();
    let behind = if whole { Some(rest) } else { None };
    SymbolFound { behind, seen }
}

/// The symbol of these characters at the front.
pub fn find_spelling<'a>(letters: Characters<'_>, text: Characters<'a>) -> SymbolFound<'a>
    ensures behind { strip (spelled letters.entry) (spelled text.entry) ≡ option_map spelled result.behind }
    ensures seen { result.seen ≡ length (behind_common (spelled letters.entry) (spelled text.entry)) }
    ensures bounded { result.seen ≤ length (spelled text.entry) }
    ensures shorter { IfSome result.behind (λ rest. length (spelled rest) + length (spelled letters.entry) ≡ length (spelled text.entry)) }
{
    let (rest, whole) = behind_spelling(letters, text);
    let seen = rest.len();
    let behind = if whole { Some(rest) } else { None };
    SymbolFound { behind, seen }
}

/// The run at the front, from a state on.
pub fn find_run(run: Run, state: u32, text: Characters<'_>) -> RunFound<'_>
    requires { state ≤ 1114111 }
    ensures run { spelled result.run ≡ walk_of (walk_for run) state (spelled text.entry) }
    ensures behind { spelled result.behind ≡ behind_walk (walk_for run) state (spelled text.entry) }
    ensures state { result.state ≡ reached (walk_for run) state (walk_of (walk_for run) state (spelled text.entry)) }
    ensures whole { spelled text.entry ≡ spelled result.run ++ spelled result.behind }
{
    let mut state = state;
    let mut count = 0;
    let mut rest = text;
    while let Some((character, tail)) = rest.first() {
        if !run.goes(state, character) {
            break;
        }
        let plain = plain_part(run, run.next(state, character), tail);
        state = plain.state;
        count += 1 + plain.run.len();
        rest = plain.behind;
    }
    let run = text.front(count, rest);
    RunFound {
        run,
        behind: rest,
        state,
    }
}

impl Stop {
    fn stops(self, c: char) -> bool
        ensures { result ≡ stop_characters self c }
    {
        match self {
            Stop::Nothing => false,
            Stop::Markup => c == '!' || c == '/' || c == '?',
            Stop::LetterX => c == 'x',
        }
    }

    // Whether a word may end before this.
    fn lets(self, rest: Characters<'_>) -> bool
        ensures { result ≡ (if (head_passes (stop_characters self) (spelled rest.entry)) then false else true) }
    {
        match rest.first() {
            None => true,
            Some((character, _)) => !self.stops(character),
        }
    }
}

// No word.
fn no_word(text: Characters<'_>) -> WordFound<'_>
    ensures { IsWordFound [] (spelled text.entry) result }
{
    WordFound {
        word: None,
        seen: text.len(),
    }
}

// A word whose end no other word goes beyond.
fn found_word(mark: Mark, behind: Characters<'_>) -> WordFound<'_>
    ensures word { result.word ≡ Some (mark, behind.entry) }
    ensures seen { result.seen ≡ length (spelled behind.entry) }
{
    WordFound {
        word: Some((mark, behind)),
        seen: behind.len(),
    }
}

// The word, or what was found of others.
fn or_word<'a>(
    letters: &[char],
    stop: Stop,
    mark: Mark,
    others: WordFound<'a>,
    text: Characters<'a>,
) -> WordFound<'a>
    requires { 0 < length letters.now }
    ensures { (es : Words) → IsWordFound es (spelled text.entry) others.entry → IsWordFound (entry letters.now stop mark ∷ es) (spelled text.entry) result }
{
    let found = find_symbol(letters, text);
    let seen = found.seen.min(others.seen);
    let word = match found.behind {
        Some(behind) if stop.lets(behind) => Some((mark, behind)),
        _ => others.word,
    };
    WordFound { word, seen }
}

// The word with no character that may not stand behind it, or what was found of others.
fn or<'a>(
    letters: &[char],
    mark: Mark,
    others: WordFound<'a>,
    text: Characters<'a>,
) -> WordFound<'a>
    requires { 0 < length letters.now }
    ensures { (es : Words) → IsWordFound es (spelled text.entry) others.entry → IsWordFound (mark_word letters.now mark ∷ es) (spelled text.entry) result }
{
    or_word(letters, Stop::Nothing, mark, others, text)
}

fn declaration_start(text: Characters<'_>) -> WordFound<'_>
    ensures { IsWordFound (choice_words DeclarationStart) (spelled text.entry) result }
{
    let mark = Mark::Declaration;
    let found = no_word(text);
    let found = or(&['<', '?', 'x', 'm', 'l', '\r'], mark, found, text);
    let found = or(&['<', '?', 'x', 'm', 'l', '\n'], mark, found, text);
    let found = or(&['<', '?', 'x', 'm', 'l', '\t'], mark, found, text);
    or(&['<', '?', 'x', 'm', 'l', ' '], mark, found, text)
}

fn declaration_part(spaced: bool, encoding: bool, text: Characters<'_>) -> WordFound<'_>
    ensures { IsWordFound (choice_words (Declaration spaced encoding)) (spelled text.entry) result }
{
    let end = &['?', '>'];
    let found = no_word(text);
    if !spaced {
        return or(end, Mark::Only, found, text);
    }
    let standalone = &['s', 't', 'a', 'n', 'd', 'a', 'l', 'o', 'n', 'e'];
    if !encoding {
        let found = or(standalone, Mark::Standalone, found, text);
        return or(end, Mark::Only, found, text);
    }
    let word = &['e', 'n', 'c', 'o', 'd', 'i', 'n', 'g'];
    let found = or(word, Mark::Encoding, found, text);
    let found = or(standalone, Mark::Standalone, found, text);
    or(end, Mark::Only, found, text)
}

fn quote(text: Characters<'_>) -> WordFound<'_>
    ensures { IsWordFound (choice_words choice_of.Quote) (spelled text.entry) result }
{
    let found = no_word(text);
    let found = or(&['\''], Mark::Quote(Quote::Single), found, text);
    or(&['"'], Mark::Quote(Quote::Double), found, text)
}

fn encoding(text: Characters<'_>) -> WordFound<'_>
    ensures { IsWordFound (choice_words choice_of.Encoding) (spelled text.entry) result }
{
    let found = no_word(text);
    let found = or(&['u', 't', 'f', '-', '8'], Mark::Only, found, text);
    let found = or(&['u', 't', 'F', '-', '8'], Mark::Only, found, text);
    let found = or(&['u', 'T', 'f', '-', '8'], Mark::Only, found, text);
    let found = or(&['u', 'T', 'F', '-', '8'], Mark::Only, found, text);
    let found = or(&['U', 't', 'f', '-', '8'], Mark::Only, found, text);
    let found = or(&['U', 't', 'F', '-', '8'], Mark::Only, found, text);
    let found = or(&['U', 'T', 'f', '-', '8'], Mark::Only, found, text);
    or(&['U', 'T', 'F', '-', '8'], Mark::Only, found, text)
}

fn answer(text: Characters<'_>) -> WordFound<'_>
    ensures { IsWordFound (choice_words choice_of.Answer) (spelled text.entry) result }
{
    let found = no_word(text);
    let found = or(&['n', 'o'], Mark::Only, found, text);
    or(&['y', 'e', 's'], Mark::Only, found, text)
}

fn prolog(text: Characters<'_>) -> WordFound<'_>
    ensures { IsWordFound (choice_words choice_of.Prolog) (spelled text.entry) result }
{
    let found = no_word(text);
    let found = or_word(&['<'], Stop::Markup, Mark::StartTag, found, text);
    let found = or(&['<', '?'], Mark::Instruction, found, text);
    or(&['<', '!', '-', '-'], Mark::Comment, found, text)
}

fn epilog(text: Characters<'_>) -> WordFound<'_>
    ensures { IsWordFound (choice_words choice_of.Epilog) (spelled text.entry) result }
{
    let found = no_word(text);
    let found = or(&['<', '?'], Mark::Instruction, found, text);
    or(&['<', '!', '-', '-'], Mark::Comment, found, text)
}

fn tag_end(text: Characters<'_>) -> WordFound<'_>
    ensures { IsWordFound (choice_words choice_of.TagEnd) (spelled text.entry) result }
{
    if let Some(('>', behind)) = text.first() {
        return found_word(Mark::Open, behind);
    }
    let found = no_word(text);
    let found = or(&['/', '>'], Mark::Empty, found, text);
    or(&['>'], Mark::Open, found, text)
}

// The word, if it may stand, or what was found of others.
fn or_if<'a>(
    may_stand: bool,
    letters: &[char],
    mark: Mark,
    others: WordFound<'a>,
    text: Characters<'a>,
) -> WordFound<'a>
    requires { 0 < length letters.now }
    ensures { (es : Words) → IsWordFound es (spelled text.entry) others.entry → IsWordFound (only_if may_stand (mark_word letters.now mark) ++ es) (spelled text.entry) result }
{
    if may_stand {
        or(letters, mark, others, text)
    } else {
        others
    }
}

fn behind_value(quote: Quote, closes: bool, refers: bool, text: Characters<'_>) -> WordFound<'_>
    ensures { IsWordFound (choice_words (choice_of.Value quote closes refers)) (spelled text.entry) result }
{
    let found = no_word(text);
    let found = or_if(refers, &['&'], Mark::Reference, found, text);
    or_if(closes, &[quote.character()], Mark::Only, found, text)
}

fn entities(text: Characters<'_>) -> WordFound<'_>
    ensures { IsWordFound named_entities (spelled text.entry) result }
{
    let found = no_word(text);
    let found = or(
        &['q', 'u', 'o', 't', ';'],
        Mark::Character('"'),
        found,
        text,
    );
    let found = or(
        &['a', 'p', 'o', 's', ';'],
        Mark::Character('\''),
        found,
        text,
    );
    let found = or(&['a', 'm', 'p', ';'], Mark::Character('&'), found, text);
    let found = or(&['g', 't', ';'], Mark::Character('>'), found, text);
    or(&['l', 't', ';'], Mark::Character('<'), found, text)
}

// A number sign, or what was found of others.
fn number_sign<'a>(others: WordFound<'a>, text: Characters<'a>) -> WordFound<'a>
    ensures { (es : Words) → IsWordFound es (spelled text.entry) others.entry → IsWordFound (number_signs ++ es) (spelled text.entry) result }
{
    let decimal = Mark::Numeral(Base::Decimal);
    let found = or_word(&['#'], Stop::LetterX, decimal, others, text);
    or(&['#', 'x'], Mark::Numeral(Base::Hexadecimal), found, text)
}

fn reference(named: bool, text: Characters<'_>) -> WordFound<'_>
    ensures { IsWordFound (choice_words (choice_of.Reference named)) (spelled text.entry) result }
{
    if named {
        return number_sign(entities(text), text);
    }
    number_sign(no_word(text), text)
}

// The word of a tag, which most words of content are, at its front.
fn tag_start(text: Characters<'_>) -> Option<WordFound<'_>>
    ensures { IfSome result (IsWordFound (choice_words choice_of.Content) (spelled text.entry)) }
{
    let (first, behind) = text.first()?;
    if first != '<' {
        return None;
    }
    let (second, tail) = behind.first()?;
    if second == '/' {
        return Some(found_word(Mark::EndTag, tail));
    }
    if Stop::Markup.stops(second) {
        return None;
    }
    Some(found_word(Mark::StartTag, behind))
}

fn content(text: Characters<'_>) -> WordFound<'_>
    ensures { IsWordFound (choice_words choice_of.Content) (spelled text.entry) result }
{
    match tag_start(text) {
        Some(found) => found,
        None => other_content(text),
    }
}

fn other_content(text: Characters<'_>) -> WordFound<'_>
    ensures { IsWordFound (choice_words choice_of.Content) (spelled text.entry) result }
{
    let found = no_word(text);
    let found = or(&['<', '?'], Mark::Instruction, found, text);
    let found = or(
        &['<', '!', '[', 'C', 'D', 'A', 'T', 'A', '['],
        Mark::CData,
        found,
        text,
    );
    let found = or(&['<', '!', '-', '-'], Mark::Comment, found, text);
    let found = or(&['&'], Mark::Reference, found, text);
    let found = or_word(&['<'], Stop::Markup, Mark::StartTag, found, text);
    or(&['<', '/'], Mark::EndTag, found, text)
}

/// The word of a choice that stands at the front.
pub fn find_word(choice: Choice, text: Characters<'_>) -> WordFound<'_>
    ensures { IsWordFound (choice_words choice) (spelled text.entry) result }
{
    match choice {
        Choice::DeclarationStart => declaration_start(text),
        Choice::Declaration { spaced, encoding } => declaration_part(spaced, encoding, text),
        Choice::Quote => quote(text),
        Choice::Encoding => encoding(text),
        Choice::Answer => answer(text),
        Choice::Prolog => prolog(text),
        Choice::Epilog => epilog(text),
        Choice::TagEnd => tag_end(text),
        Choice::Value {
            quote,
            closes,
            refers,
        } => behind_value(quote, closes, refers, text),
        Choice::Reference { named } => reference(named, text),
        Choice::Content => content(text),
    }
}
