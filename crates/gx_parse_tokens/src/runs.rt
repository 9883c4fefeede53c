// Literal text in string literals and direct constructors.

ghost use Rattle.std.specs.Prelude.{◌≡◌, ◌++◌, false, IfOk, MatchOption, None, OnErr, OnOk, Some, List, ℕ};
ghost use Rattle.gx_grammar.specs.Tokens.{behind_run, run_of};
ghost use Rattle.gx_parse_grammar.specs.References.{is_run_character, shown_character, shown_at, text_of, text_value};
ghost use Rattle.gx_parse_grammar.specs.Tokens.{scan, seen, text_run};
ghost use Rattle.gx_parse_grammar.specs.declared.runs.Run.TheVariants as runs;

use gx_base::characters::is_char;
use gx_base::text_builder::TextBuilder;
use gx_parse_grammar::runs::Run;
use std::alloc::AllocError;

/// Whether the character stands for itself there.
pub fn is_run_character(run: Run, c: char) -> bool
    ensures { result ≡ is_run_character run c }
{
    match run {
        Run::String(quote) => c != '&' && (c != quote.symbol() && is_char(c)),
        Run::Attribute(quote) => {
            c != '&'
                && (c != quote.symbol() && (c != '<' && (c != '{' && (c != '}' && is_char(c)))))
        }
        Run::Content => c != '&' && (c != '<' && (c != '{' && (c != '}' && is_char(c)))),
    }
}

// What the character is shown_character as: tabs and line feeds in attribute values are spaces (XML 1.0, section 3.3.3).
fn shown_character(run: Run, c: char) -> char
    ensures { result ≡ shown_character run c }
{
    match run {
        Run::Attribute(_) if c == '\t' || c == '\n' => ' ',
        _ => c,
    }
}

// Adds what a character is, behind a carriage return or not.
fn push_shown(builder: &mut TextBuilder, run: Run, after: bool, c: char) -> Result<(), AllocError>
    ensures ok { OnOk result (builder.new ≡ builder.old ++ shown_at run after c) }
    ensures err { OnErr result (builder.new ≡ builder.old) }
{
    if c == '\n' && after {
        return Ok(());
    }
    let line_end = if c == '\r' { '\n' } else { c };
    builder.push(shown_character(run, line_end))
}

/// What is behind the literal text at the front.
pub fn behind_text(run: Run, text: &[char]) -> &[char]
    ensures { result.now ≡ behind_run (is_run_character run) text.now }
{
    let mut rest = text;
    while let [character, tail @ ..] = rest {
        if !is_run_character(run, *character) {
            break;
        }
        rest = tail;
    }
    rest
}

/// Adds the literal text at the front, with its line ends as line feeds, and gives what is behind it. An `Err` may have
/// added some of it.
pub fn push_text<'a>(
    builder: &mut TextBuilder,
    run: Run,
    text: &'a [char],
) -> Result<&'a [char], AllocError>
    ensures text { OnOk result (builder.new ≡ builder.old ++ text_of run false (run_of (is_run_character run) text.now)) }
    ensures rest { IfOk result (λ rest. rest.now ≡ behind_run (is_run_character run) text.now) }
    ensures some { OnErr result ((cs : List ℕ) × (builder.new ≡ builder.old ++ cs)) }
{
    let mut rest = text;
    let mut after = false;
    while let [character, tail @ ..] = rest {
        if !is_run_character(run, *character) {
            break;
        }
        push_shown(builder, run, after, *character)?;
        after = *character == '\r';
        rest = tail;
    }
    Ok(rest)
}

/// Adds all characters of the content of an element, with their line ends as line feeds. An `Err` may have added some of them.
pub fn push_characters(builder: &mut TextBuilder, text: &[char]) -> Result<(), AllocError>
    ensures text { OnOk result (builder.new ≡ builder.old ++ text_of runs.Content false text.now) }
    ensures some { OnErr result ((cs : List ℕ) × (builder.new ≡ builder.old ++ cs)) }
{
    let mut after = false;
    for character in text {
        push_shown(builder, Run::Content, after, *character)?;
        after = *character == '\r';
    }
    Ok(())
}

/// Literal text at the front of a text.
#[derive(Clone, Copy)]
pub struct TextFound<'a> {
    /// What is behind it, if some stands there.
    pub behind: Option<&'a [char]>,
    /// What is left behind the longest front that opens it.
    pub seen: usize,
}

/// The literal text at the front, if some stands there.
pub fn find_text(run: Run, text: &[char]) -> TextFound<'_>
    ensures behind { MatchOption result.behind (scan (text_run run) text.now ≡ None) (λ rest. (scan (text_run run) text.now ≡ Some (text_value run (run_of (is_run_character run) text.now), rest.now)) × (rest.now ≡ behind_run (is_run_character run) text.now)) }
    ensures seen { result.seen ≡ seen (text_run run) text.now }
{
    match text {
        [character, ..] if is_run_character(run, *character) => {
            let behind = behind_text(run, text);
            TextFound {
                behind: Some(behind),
                seen: behind.len(),
            }
        }
        _ => TextFound {
            behind: None,
            seen: text.len(),
        },
    }
}
