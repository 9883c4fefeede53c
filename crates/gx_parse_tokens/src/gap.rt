// White space and comments, with a character behind them.

ghost use Rattle.std.specs.Prelude.{◌≡◌, ◌≤◌, Some, None, MatchOption, length};
ghost use Rattle.gx_grammar.specs.Value.{nothing};
ghost use Rattle.gx_parse_grammar.specs.Tokens.{gap_not_open, gap_then_dollar, gap_then_neither, gap_then_open, scan, seen, scan_gap_brace, seen_gap_brace};

use gx_gaps::gap::{GapFound, gap};

/// Goes past white space and comments with a `(` behind them.
pub fn parenthesis(text: &[char]) -> GapFound<'_>
    ensures behind { MatchOption result.behind (scan gap_then_open text.now ≡ None) (λ rest. scan gap_then_open text.now ≡ Some (nothing, rest.now)) }
    ensures seen { result.seen ≡ seen gap_then_open text.now }
    ensures bounded { result.seen ≤ length text.now }
{
    let found = gap(text);
    let Some(rest) = found.behind else {
        return found;
    };
    match rest {
        ['(', tail @ ..] => GapFound {
            behind: Some(tail),
            seen: found.seen.min(tail.len()),
        },
        _ => GapFound {
            behind: None,
            seen: found.seen.min(rest.len()),
        },
    }
}

/// Goes past white space and comments with no `(` behind them.
pub fn no_parenthesis(text: &[char]) -> GapFound<'_>
    ensures behind { MatchOption result.behind (scan gap_not_open text.now ≡ None) (λ rest. scan gap_not_open text.now ≡ Some (nothing, rest.now)) }
    ensures seen { result.seen ≡ seen gap_not_open text.now }
{
    let found = gap(text);
    let Some(rest) = found.behind else {
        return found;
    };
    let seen = found.seen.min(rest.len());
    match rest {
        ['(', ..] => GapFound { behind: None, seen },
        _ => GapFound {
            behind: Some(rest),
            seen,
        },
    }
}

/// Goes past white space and comments with a `$` behind them.
pub fn dollar(text: &[char]) -> GapFound<'_>
    ensures behind { MatchOption result.behind (scan gap_then_dollar text.now ≡ None) (λ rest. scan gap_then_dollar text.now ≡ Some (nothing, rest.now)) }
    ensures seen { result.seen ≡ seen gap_then_dollar text.now }
    ensures bounded { result.seen ≤ length text.now }
{
    let found = gap(text);
    let Some(rest) = found.behind else {
        return found;
    };
    match rest {
        ['$', tail @ ..] => GapFound {
            behind: Some(tail),
            seen: found.seen.min(tail.len()),
        },
        _ => GapFound {
            behind: None,
            seen: found.seen.min(rest.len()),
        },
    }
}

/// Goes past white space and comments with a `{` behind them.
pub fn brace(text: &[char]) -> GapFound<'_>
    ensures behind { MatchOption result.behind (scan_gap_brace text.now ≡ None) (λ rest. scan_gap_brace text.now ≡ Some (nothing, rest.now)) }
    ensures seen { result.seen ≡ seen_gap_brace text.now }
{
    let found = gap(text);
    let Some(rest) = found.behind else {
        return found;
    };
    match rest {
        ['{', tail @ ..] => GapFound {
            behind: Some(tail),
            seen: found.seen.min(tail.len()),
        },
        _ => GapFound {
            behind: None,
            seen: found.seen.min(rest.len()),
        },
    }
}

/// Goes past white space and comments with neither `$` nor `(` behind them.
pub fn neither(text: &[char]) -> GapFound<'_>
    ensures behind { MatchOption result.behind (scan gap_then_neither text.now ≡ None) (λ rest. scan gap_then_neither text.now ≡ Some (nothing, rest.now)) }
    ensures seen { result.seen ≡ seen gap_then_neither text.now }
{
    let found = gap(text);
    let Some(rest) = found.behind else {
        return found;
    };
    let seen = found.seen.min(rest.len());
    match rest {
        ['$' | '(', ..] => GapFound { behind: None, seen },
        _ => GapFound {
            behind: Some(rest),
            seen,
        },
    }
}
