// Two words at the front of a text, with white space and comments between.

ghost use Rattle.std.specs.Prelude.{◌≡◌, ◌≤◌, length, MatchOption, None, Some};
ghost use Rattle.gx_grammar.specs.Value.{node};
ghost use Rattle.gx_parse_grammar.specs.Nodes.{Found as the_word};
ghost use Rattle.gx_parse_grammar.specs.Tokens.{leading, scan, seen};

use crate::scan::{Found, find, find_word};
use gx_gaps::gap::gap;
use gx_parse_grammar::word::{Word, WordSet};

/// The word with one of the others behind it, which is the one that was found.
pub fn find_leading(word: Word, set: WordSet, text: &[char]) -> Found<'_>
    ensures word { MatchOption result.word (scan (leading word set) text.now ≡ None) (λ r. scan (leading word set) text.now ≡ Some (node (the_word r.0), r.1.now)) }
    ensures seen { result.seen ≡ seen (leading word set) text.now }
    ensures bounded { result.seen ≤ length text.now }
{
    let first = find_word(word, text);
    let Some((_, behind)) = first.word else {
        return first;
    };
    let space = gap(behind);
    let Some(rest) = space.behind else {
        return Found {
            word: None,
            seen: first.seen.min(space.seen),
        };
    };
    let second = find(set.words(), rest);
    Found {
        word: second.word,
        seen: first.seen.min(space.seen.min(second.seen)),
    }
}
