// White space in lexical forms.
ghost use Rattle.std.specs.Prelude.{◌≡◌, [], ◌∷◌, ◌<◌, length, IfOk, IfSome, IfNone, OnSome, ℕ, List, true, false, MatchBool};
ghost use Rattle.std.specs.Str.{chars, IsUtf8};
ghost use Rattle.std.specs.Str.Iter.{chars_rest};
ghost use Rattle.gx_base.specs.Text.{same_text};
ghost use Rattle.gx_facets.specs.WhiteSpace.{replaced, collapsed, behind_space};
ghost use Rattle.gx_facets.specs.Value.{lexical_form};

use gx_base::characters::{is_white_space, next_character};
use gx_base::text::Text;
use gx_base::text_builder::TextBuilder;
use std::alloc::{AllocError, Global};
use std::str::Chars;

/// The text with a space for each tab, line feed and carriage return.
pub fn replace(alloc: Global, text: &Text) -> Result<Text, AllocError>
    ensures { IfOk result (λ t. t ≡ replaced text.now) }
{
    let mut done = TextBuilder::new(alloc);
    let mut rest = text.as_str().chars();
    while let Some(c) = next_character(&mut rest) {
        done.push(if is_white_space(c) { ' ' } else { c })?;
    }
    done.finish()
}

/// The text without white space at its ends, and with one space for each run of it.
pub fn collapse(alloc: Global, text: &Text) -> Result<Text, AllocError>
    ensures { IfOk result (λ t. t ≡ collapsed text.now) }
{
    let mut done = TextBuilder::new(alloc);
    let mut gap = false;
    let mut rest = text.as_str().chars();
    while let Some(c) = next_character(&mut rest) {
        if is_white_space(c) {
            gap = true;
        } else {
            if gap && !done.is_empty() {
                done.push(' ')?;
            }
            done.push(c)?;
            gap = false;
        }
    }
    done.finish()
}

/// Whether the text is the word once white space is gone from its ends and each run of it is one space. It takes no
/// memory.
#[tactic(auto, using(crate::proofs::CollapsedForms::same_forms))]
pub fn collapses_to(text: &Text, word: &str) -> bool
    ensures { result ≡ same_text (lexical_form text.now) word.now }
{
    is_collapsed_to(text.as_str(), word)
}

fn is_collapsed_to(text: &str, word: &str) -> bool
    ensures { result ≡ same_text (collapsed (chars text.now)) (chars word.now) }
{
    let mut begun = false;
    let mut gap = false;
    let mut wanted = word.chars();
    let mut rest = text.chars();
    while let Some(c) = next_character(&mut rest) {
        if is_white_space(c) {
            gap = true;
        } else if continues(&mut wanted, begun && gap, c) {
            begun = true;
            gap = false;
        } else {
            return false;
        }
    }
    next_character(&mut wanted).is_none()
}

// Takes a character off the front of what is wanted, with a space before it where there is a gap.
fn continues(wanted: &mut Chars<'_>, gap: bool, character: char) -> bool
    requires { IsUtf8 (chars_rest wanted.old) }
    ensures text { IsUtf8 (chars_rest wanted.new) }
    ensures taken { MatchBool result
        (chars (chars_rest wanted.old) ≡ behind_space gap character (chars (chars_rest wanted.new)))
        ((cs : List ℕ) → same_text (behind_space gap character cs) (chars (chars_rest wanted.old)) ≡ false) }
{
    if gap {
        takes(wanted, ' ') && takes(wanted, character)
    } else {
        takes(wanted, character)
    }
}

// Takes a character off the front of what is wanted.
fn takes(wanted: &mut Chars<'_>, character: char) -> bool
    requires { IsUtf8 (chars_rest wanted.old) }
    ensures text { IsUtf8 (chars_rest wanted.new) }
    ensures taken { MatchBool result
        (chars (chars_rest wanted.old) ≡ character ∷ chars (chars_rest wanted.new))
        ((cs : List ℕ) → same_text (character ∷ cs) (chars (chars_rest wanted.old)) ≡ false) }
{
    match next_character(wanted) {
        Some(next) => next == character,
        None => false,
    }
}
