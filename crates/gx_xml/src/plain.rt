// Plain characters: those of ASCII with which runs of some kinds always go on.

ghost use Rattle.gx_grammar.specs.Tokens.{all_pass};
ghost use Rattle.gx_grammar.specs.Walks.{all_walk, reached};
ghost use Rattle.gx_xml.specs.Characters.{spelled};
ghost use Rattle.gx_xml.specs.Plain.{RunsOnWith, is_plain_character, state_behind};
ghost use Rattle.gx_xml.specs.Runs.{walk_for};
ghost use Rattle.gx_xml.specs.declared.plain.Plain.TheVariants.{Text};
ghost use Rattle.gx_base.specs.NameCharacters.{lies_between};
ghost use Rattle.std.specs.Prelude.{◌≡◌, ◌≤◌, ◌<◌, ◌++◌, IfSome, length, take, true};
ghost use Rattle.std.specs.Str.{chars};

use crate::characters::Characters;
use crate::runs::Run;
use crate::scan::RunFound;

// So many bytes are looked at as a whole.
const PART: usize = 16;

/// Kinds of plain characters.
#[derive(Clone, Copy)]
pub enum Plain {
    /// Those of text and of values, which are no brackets.
    Text,
    /// Those of names behind the first one.
    Name,
}

impl Plain {
    // Whether a byte is such a character.
    fn has(self, byte: u8) -> bool
        ensures { result ≡ is_plain_character self byte }
    {
        match self {
            Plain::Text => is_text(byte),
            Plain::Name => {
                (97 <= byte && byte <= 122)
                    || (65 <= byte && byte <= 90)
                    || (48 <= byte && byte <= 57)
                    || byte == 95
            }
        }
    }

    // How many of them stand at the front, as far as they fill parts that are looked at as a whole. Few names fill one.
    fn count_in_parts(self, bytes: &[u8]) -> usize
        ensures within { result ≤ length bytes.now }
        ensures plain { all_pass (is_plain_character self) (take result bytes.now) ≡ true }
    {
        match self {
            Plain::Text => text_in_parts(bytes),
            Plain::Name => 0,
        }
    }

    // How many of them stand at the front.
    fn count(self, bytes: &[u8]) -> usize
        ensures within { result ≤ length bytes.now }
        ensures plain { all_pass (is_plain_character self) (take result bytes.now) ≡ true }
    {
        let mut count = self.count_in_parts(bytes);
        while count < bytes.len() {
            if !self.has(bytes[count]) {
                break;
            }
            count += 1;
        }
        count
    }

    // Those at the front of a text, and what is behind them.
    fn split_text(self, text: &str) -> (&str, &str)
        ensures whole { chars text.now ≡ chars result.0.now ++ chars result.1.now }
        ensures plain { all_pass (is_plain_character self) (chars result.0.now) ≡ true }
        ensures each { length (chars result.0.now) ≡ length result.0.now }
    {
        let count = self.count(text.as_bytes());
        text.split_at(count)
    }

    // Those at the front, and the characters behind them.
    fn split<'a>(self, text: Characters<'a>) -> (Characters<'a>, Characters<'a>)
        ensures whole { spelled text.entry ≡ spelled result.0 ++ spelled result.1 }
        ensures plain { all_pass (is_plain_character self) (spelled result.0) ≡ true }
    {
        let (front, behind) = self.split_text(text.text);
        let front = Characters {
            text: front,
            count: front.len(),
        };
        let behind = Characters {
            text: behind,
            count: text.count - front.count,
        };
        (front, behind)
    }

    // The state of a run behind them.
    fn state_behind(self) -> u32
        ensures value { result ≡ state_behind self }
        ensures small { result ≤ 1 }
    {
        match self {
            Plain::Text => 0,
            Plain::Name => 1,
        }
    }
}

// Whether a byte lies between two, which count as well; without a branch, so that many bytes are tested at once.
fn lies(low: u8, high: u8, byte: u8) -> bool
    ensures { result ≡ lies_between low high byte }
{
    (low <= byte) & (byte <= high)
}

// Whether a byte is a plain character of text.
fn is_text(byte: u8) -> bool
    ensures { result ≡ is_plain_character Text byte }
{
    lies(97, 126, byte) | ((byte == 32) | (lies(40, 59, byte) | lies(64, 92, byte)))
}

// Whether all bytes are plain characters of text.
fn are_text(bytes: &[u8]) -> bool
    ensures { result ≡ all_pass (is_plain_character Text) bytes.now }
{
    let mut all = true;
    for byte in bytes {
        all = all & is_text(*byte);
    }
    all
}

// How many plain characters of text stand at the front, as far as they fill parts.
fn text_in_parts(bytes: &[u8]) -> usize
    ensures within { result ≤ length bytes.now }
    ensures plain { all_pass (is_plain_character Text) (take result bytes.now) ≡ true }
{
    let mut count = 0;
    let mut left = bytes;
    while left.len() >= PART {
        let (part, others) = left.split_at(PART);
        if !are_text(part) {
            break;
        }
        count += PART;
        left = others;
    }
    count
}

// The plain characters with which a run goes on from a state on.
fn plain_for(run: Run, state: u32) -> Option<Plain>
    ensures { IfSome result (λ plain. RunsOnWith plain (walk_for run) state) }
{
    match run {
        Run::Text => Some(Plain::Text),
        Run::Value(_) => Some(Plain::Text),
        Run::Name if state == 1 => Some(Plain::Name),
        _ => None,
    }
}

/// Plain characters at the front of a text, with which a run goes on from a state on.
pub fn plain_part(run: Run, state: u32, text: Characters<'_>) -> RunFound<'_>
    requires { state ≤ 1114111 }
    ensures whole { spelled text.entry ≡ spelled result.run ++ spelled result.behind }
    ensures walks { all_walk (walk_for run) state (spelled result.run) ≡ true }
    ensures state { result.state ≡ reached (walk_for run) state (spelled result.run) }
    ensures bounded { result.state ≤ 1114111 }
{
    let Some(plain) = plain_for(run, state) else {
        return RunFound {
            run: Characters::none(),
            behind: text,
            state,
        };
    };
    let (run, behind) = plain.split(text);
    if run.is_empty() {
        return RunFound { run, behind, state };
    }
    let state = plain.state_behind();
    RunFound { run, behind, state }
}
