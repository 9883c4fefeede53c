// White space and comments.

ghost use Rattle.std.specs.Prelude.{◌≡◌, ◌+◌, ◌≤◌, ◌<◌, ◌^◌, IsNone, IfSome, Some, None, MatchOption, length, [], ◌∷◌};
ghost use Rattle.gx_grammar.specs.Gaps.{begins_comment, behind_gap, ends_comment, seen_gap};
ghost use Rattle.gx_base.specs.NameCharacters.{is_xml_character};
ghost use Rattle.gx_gaps.specs.GapSteps.{GoesOn, Stops};

use gx_base::characters::{is_char, is_white_space};

fn begins_comment(c: char, e: char) -> bool
    ensures { result ≡ begins_comment c e }
{
    c == '(' && e == ':'
}

fn ends_comment(c: char, e: char) -> bool
    ensures { result ≡ ends_comment c e }
{
    c == ':' && e == ')'
}

// The first character, and what is behind it.
fn first(text: &[char]) -> Option<(char, &[char])>
    ensures some { IfSome result (λ r. text.now ≡ r.0 ∷ r.1.now) }
    ensures none { IsNone result → text.now ≡ [] }
{
    match text {
        [] => None,
        [character, tail @ ..] => Some((*character, tail)),
    }
}

// One step over white space, or to the inside of a comment, and how many comments are open then.
fn outside_step(rest: &[char]) -> Option<(&[char], usize)>
    ensures on { IfSome result (λ r. GoesOn 0 rest.now r.1 r.0.now) }
    ensures stop { IsNone result → Stops 0 rest.now }
{
    let Some((c, tail)) = first(rest) else {
        return None;
    };
    if is_white_space(c) {
        return Some((tail, 0));
    }
    let Some((e, behind)) = first(tail) else {
        return None;
    };
    if begins_comment(c, e) {
        return Some((behind, 1));
    }
    None
}

// One step within comments, of which so many are open, and how many are open then.
fn inside_step(rest: &[char], depth: usize) -> Option<(&[char], usize)>
    requires open { 0 < depth }
    requires bounded { depth + length rest.now < 2 ^ 64 }
    ensures on { IfSome result (λ r. GoesOn depth rest.now r.1 r.0.now) }
    ensures stop { IsNone result → Stops depth rest.now }
{
    let Some((c, tail)) = first(rest) else {
        return None;
    };
    let Some((e, behind)) = first(tail) else {
        return if is_char(c) {
            Some((tail, depth))
        } else {
            None
        };
    };
    if begins_comment(c, e) {
        return Some((behind, depth + 1));
    }
    if ends_comment(c, e) {
        return Some((behind, depth - 1));
    }
    if is_char(c) {
        Some((tail, depth))
    } else {
        None
    }
}

// One step over white space and comments, of which so many are open, and how many are open then.
fn gap_step(rest: &[char], depth: usize) -> Option<(&[char], usize)>
    requires { depth + length rest.now < 2 ^ 64 }
    ensures on { IfSome result (λ r. GoesOn depth rest.now r.1 r.0.now) }
    ensures stop { IsNone result → Stops depth rest.now }
{
    if depth == 0 {
        outside_step(rest)
    } else {
        inside_step(rest, depth)
    }
}

/// White space and comments at the front of a text.
#[derive(Clone, Copy)]
pub struct GapFound<'a> {
    /// What is behind them, unless a comment is not closed.
    pub behind: Option<&'a [char]>,
    /// What is left behind the longest opening of white space and comments.
    pub seen: usize,
}

/// Goes past white space and comments (XQuery 1.0, appendix A.2.4.1 and section 2.6).
pub fn gap(text: &[char]) -> GapFound<'_>
    ensures behind { MatchOption result.behind (behind_gap is_xml_character 0 text.now ≡ None) (λ rest. behind_gap is_xml_character 0 text.now ≡ Some rest.now) }
    ensures seen { result.seen ≡ seen_gap is_xml_character 0 text.now }
    ensures bounded { result.seen ≤ length text.now }
{
    let mut rest = text;
    let mut depth = 0;
    while let Some((next, open)) = gap_step(rest, depth) {
        rest = next;
        depth = open;
    }
    if depth > 0 {
        return GapFound {
            behind: None,
            seen: rest.len(),
        };
    }
    let seen = match rest {
        ['(', tail @ ..] => tail.len(),
        _ => rest.len(),
    };
    GapFound {
        behind: Some(rest),
        seen,
    }
}
