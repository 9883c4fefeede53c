// Words at the front of a text.

ghost use Rattle.std.specs.Prelude.{◌≡◌, ◌≤◌, [], ◌∷◌, length, MatchOption, Some, None, if◌then◌else◌, true, false};
ghost use Rattle.gx_grammar.specs.First.{head_passes};
ghost use Rattle.gx_grammar.specs.Tokens.{behind_common, scan_word, seen_word, strip};
ghost use Rattle.gx_grammar.specs.Value.{node};
ghost use Rattle.gx_grammar.specs.Words.{scan_one_of, seen_one_of};
ghost use Rattle.gx_parse_grammar.specs.Nodes.{Found as the_word};
ghost use Rattle.gx_parse_grammar.specs.Tokens.{entries};
ghost use Rattle.gx_parse_grammar.specs.Words.{ends_at, ending_of, letters_of};

use crate::characters::ends_at;
use gx_parse_grammar::word::{Word, WordSet};

/// The word that stands at the front of a text, if one does.
#[derive(Clone, Copy)]
pub struct Found<'a> {
    /// The word, and what is behind it.
    pub word: Option<(Word, &'a [char])>,
    /// What is left behind the longest front that opens one of the words.
    pub seen: usize,
}

// What is behind the letters that a text begins with, and whether these are all.
pub fn behind_letters<'a>(letters: &[char], text: &'a [char]) -> (&'a [char], bool)
    ensures common { result.0.now ≡ behind_common letters.now text.now }
    ensures whole { strip letters.now text.now ≡ (if result.1 then (Some result.0.now) else None) }
{
    let mut rest = text;
    for letter in letters {
        match rest {
            [character, tail @ ..] if *character == *letter => rest = tail,
            _ => return (rest, false),
        }
    }
    (rest, true)
}

// Whether the word may end before this.
fn may_end(word: Word, rest: &[char]) -> bool
    ensures { result ≡ (if (head_passes (ends_at (ending_of word)) rest.now) then false else true) }
{
    match rest {
        [] => true,
        [character, ..] => !ends_at(word.ending(), *character),
    }
}

/// The word, if it stands at the front.
pub fn find_word(word: Word, text: &[char]) -> Found<'_>
    ensures word { MatchOption result.word (scan_word (node (the_word word)) (letters_of word) (ends_at (ending_of word)) text.now ≡ None) (λ r. scan_word (node (the_word word)) (letters_of word) (ends_at (ending_of word)) text.now ≡ Some (node (the_word r.0), r.1.now)) }
    ensures seen { result.seen ≡ seen_word (letters_of word) text.now }
    ensures bounded { result.seen ≤ length text.now }
{
    let (rest, whole) = behind_letters(word.letters(), text);
    let seen = rest.len();
    if whole && may_end(word, rest) {
        Found {
            word: Some((word, rest)),
            seen,
        }
    } else {
        Found { word: None, seen }
    }
}

/// The one of the words that stands at the front.
pub fn find<'a>(words: &[Word], text: &'a [char]) -> Found<'a>
    ensures word { MatchOption result.word (scan_one_of (entries words.now) text.now ≡ None) (λ r. scan_one_of (entries words.now) text.now ≡ Some (node (the_word r.0), r.1.now)) }
    ensures seen { result.seen ≡ seen_one_of (entries words.now) text.now }
    ensures bounded { result.seen ≤ length text.now }
{
    let mut found = Found {
        word: None,
        seen: text.len(),
    };
    for word in words {
        let here = find_word(*word, text);
        found.seen = found.seen.min(here.seen);
        if found.word.is_none() {
            found.word = here.word;
        }
    }
    found
}

/// The word, if it stands at the front.
pub fn find_only(word: Word, text: &[char]) -> Found<'_>
    ensures word { MatchOption result.word (scan_one_of (entries (word ∷ [])) text.now ≡ None) (λ r. scan_one_of (entries (word ∷ [])) text.now ≡ Some (node (the_word r.0), r.1.now)) }
    ensures seen { result.seen ≡ seen_one_of (entries (word ∷ [])) text.now }
{
    let set = WordSet::Only(word);
    find(set.words(), text)
}
