// Symbols, words and runs at the front of a text.

ghost use Rattle.std.specs.Prelude.{◌≡◌, ◌≤◌, [], ◌∷◌, ◌++◌, length, MatchOption, IfOk, Some, None, if◌then◌else◌, true, false};
ghost use Rattle.gx_grammar.specs.First.{head_passes};
ghost use Rattle.gx_grammar.specs.Tokens.{behind_common, behind_run, run_of, scan_name, scan_word, seen_name, seen_word, strip};
ghost use Rattle.gx_grammar.specs.Value.{characters, nothing};
ghost use Rattle.gx_base.specs.NameCharacters.{is_ncname_character};
ghost use Rattle.gx_typetext.specs.Letters.{goes, starts, stops};
ghost use Rattle.gx_typetext.specs.Nodes.{TypeTextNode};
ghost use Rattle.gx_typetext.specs.Tokens.{keyword, named, scan, seen, symbol};

use crate::letters::Run;
use gx_base::characters::is_name_character;
use gx_base::text::Text;
use gx_base::text_builder::TextBuilder;
use std::alloc::{AllocError, Global};

/// What is behind a token, if it stands at the front, and what is left behind the longest front that opens it.
#[derive(Clone, Copy)]
pub struct Found<'a> {
    pub behind: Option<&'a [char]>,
    pub seen: usize,
}

/// A run of characters with what is behind it, if one stands at the front, and what is left behind the longest front that
/// opens one.
#[derive(Drop)]
pub struct RunFound<'a> {
    pub run: Option<(Text, &'a [char])>,
    pub seen: usize,
}

// What is behind the letters that a text begins with, and whether these are all.
fn behind_letters<'a>(letters: &[char], text: &'a [char]) -> (&'a [char], bool)
    ensures common { result.0.now ≡ behind_common letters.now text.now }
    ensures whole { strip letters.now text.now ≡ (if result.1 then (Some result.0.now) else None) }
{
    let mut rest = text;
    for letter in letters {
        match rest {
            [character, tail @ ..] if *character == *letter => rest = tail,
            _ => return (rest, false),
        }
    }
    (rest, true)
}

/// The symbol at the front.
pub fn find_symbol<'a>(letters: &[char], text: &'a [char]) -> Found<'a>
    ensures behind { MatchOption result.behind (scan (symbol letters.now) text.now ≡ None) (λ rest. scan (symbol letters.now) text.now ≡ Some (nothing, rest.now)) }
    ensures seen { result.seen ≡ seen (symbol letters.now) text.now }
    ensures bounded { result.seen ≤ length text.now }
{
    let (rest, whole) = behind_letters(letters, text);
    let seen = rest.len();
    let behind = if whole { Some(rest) } else { None };
    Found { behind, seen }
}

// Whether a word may end before this.
fn may_end(rest: &[char]) -> bool
    ensures { result ≡ (if (head_passes is_ncname_character rest.now) then false else true) }
{
    match rest {
        [] => true,
        [character, ..] => !is_name_character(*character),
    }
}

/// The word at the front.
pub fn find_keyword<'a>(letters: &[char], text: &'a [char]) -> Found<'a>
    ensures behind { MatchOption result.behind (scan (keyword letters.now) text.now ≡ None) (λ rest. scan (keyword letters.now) text.now ≡ Some (nothing, rest.now)) }
    ensures seen { result.seen ≡ seen (keyword letters.now) text.now }
{
    let (rest, whole) = behind_letters(letters, text);
    let seen = rest.len();
    if whole && may_end(rest) {
        let behind = Some(rest);
        return Found { behind, seen };
    }
    Found { behind: None, seen }
}

// The character with those of a run behind it, and what is behind these.
fn run_from(
    alloc: Global,
    run: Run,
    first: char,
    text: &[char],
) -> Result<(Text, &[char]), AllocError>
    ensures { IfOk result (λ r. (r.0 ≡ first ∷ run_of (goes run) text.now) × (r.1.now ≡ behind_run (goes run) text.now)) }
{
    let mut letters = TextBuilder::new(alloc);
    letters.push(first)?;
    let mut rest = text;
    while let [character, tail @ ..] = rest {
        if !run.goes(*character) {
            break;
        }
        letters.push(*character)?;
        rest = tail;
    }
    Ok((letters.finish()?, rest))
}

// Whether a run may end before this.
fn run_ends(run: Run, rest: &[char]) -> bool
    ensures { result ≡ (if (head_passes (stops run) rest.now) then false else true) }
{
    match rest {
        [] => true,
        [character, ..] => !run.stops(*character),
    }
}

/// The run of characters at the front.
pub fn find_run(alloc: Global, run: Run, text: &[char]) -> Result<RunFound<'_>, AllocError>
    ensures run { IfOk result (λ f. MatchOption f.run (scan (named run) text.now ≡ None) (λ r. scan (named run) text.now ≡ Some (characters r.0, r.1.now))) }
    ensures seen { IfOk result (λ f. f.seen ≡ seen (named run) text.now) }
{
    let [first, tail @ ..] = text else {
        return Ok(RunFound { run: None, seen: 0 });
    };
    if !run.starts(*first) {
        let seen = text.len();
        return Ok(RunFound { run: None, seen });
    }
    let (letters, rest) = run_from(alloc, run, *first, tail)?;
    let seen = rest.len();
    if run_ends(run, rest) {
        let run = Some((letters, rest));
        return Ok(RunFound { run, seen });
    }
    Ok(RunFound { run: None, seen })
}
