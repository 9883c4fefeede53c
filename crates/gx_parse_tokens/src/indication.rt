// Occurrence indicators at the front of a text.

ghost use Rattle.std.specs.Prelude.{◌≡◌, MatchOption, None, Some};
ghost use Rattle.gx_grammar.specs.First.{head_passes};
ghost use Rattle.gx_parse_tokens.specs.Indications.{found_made};
ghost use Rattle.gx_parse_grammar.specs.Tokens.{indication, scan, seen, stops_type};

use crate::scan::find;
use gx_gaps::gap::gap;
use gx_parse_grammar::word::{Word, WordSet};

/// An indicator at the front of a text.
#[derive(Clone, Copy)]
pub struct IndicationFound<'a> {
    /// The indicator, if one stands there.
    pub word: Option<Word>,
    /// What is behind it and its gap, unless a type cannot end there.
    pub behind: Option<&'a [char]>,
    /// What is left behind the longest front that opens an indicator with its gap.
    pub seen: usize,
}

// Whether a type without an indicator does not end here.
fn is_stopped(text: &[char]) -> bool
    ensures { result ≡ head_passes stops_type text.now }
{
    match text {
        [] => false,
        [character, ..] => {
            *character == '?' || *character == '*' || *character == '+' || *character == '('
        }
    }
}

/// The indicator at the front with the gap behind it, or nothing (XQuery 1.0, appendix A.1.1, occurrence-indicators).
pub fn find_indication(text: &[char]) -> IndicationFound<'_>
    ensures behind { MatchOption result.behind (scan indication text.now ≡ None) (λ rest. scan indication text.now ≡ Some (found_made result.word, rest.now)) }
    ensures seen { result.seen ≡ seen indication text.now }
{
    let found = find(WordSet::Indicators.words(), text);
    match found.word {
        Some((word, rest)) => {
            let gap = gap(rest);
            IndicationFound {
                word: Some(word),
                behind: gap.behind,
                seen: found.seen.min(gap.seen).min(text.len()),
            }
        }
        None if is_stopped(text) => IndicationFound {
            word: None,
            behind: None,
            seen: found.seen.min(text.len()),
        },
        None => IndicationFound {
            word: None,
            behind: Some(text),
            seen: found.seen.min(text.len()),
        },
    }
}
