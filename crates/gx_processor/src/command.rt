// The words of the command line.

ghost use Rattle.std.specs.Prelude.{◌≡◌, ◌==◌, ◌≤◌, length, option_map, IfSome, IsTrue};
ghost use Rattle.std.specs.List.{list_all, list_any};
ghost use Rattle.gx_processor.specs.Command.{bytes_of, is_binding, is_operand, command_named, command_of, texts_to_compare, workload_asked};
ghost use Rattle.gx_demo.specs.declared.workload.TheConstants.{WORKLOAD_ITEMS};
ghost use Rattle.gx_processor.specs.CommandView.{plain_command, plain_texts};

use gx_base::limits::WORD_BYTES;
use gx_demo::workload::items_asked;

/// What the words ask for, with the name of the query's file.
#[derive(Clone, Copy)]
pub enum Command<'a> {
    /// `run FILE NAME=FILE ..`: the value of the query, with the words that bind its external variables.
    Run(&'a str, &'a [String]),
    /// `check FILE`: the type of the query.
    Check(&'a str),
    /// `plan FILE`: the plan of the query.
    Plan(&'a str),
}

impl<'a> Command<'a> {
    ghost use Rattle.std.specs.Prelude.{◌≡◌};
    ghost use Rattle.gx_processor.specs.Command.{query_file};
    ghost use Rattle.gx_processor.specs.CommandView.{plain_command};

    /// The file of the query.
    pub fn file(self) -> &'a str
        ensures { result.now ≡ query_file (plain_command self.entry) }
    {
        match self {
            Command::Run(file, _) | Command::Check(file) | Command::Plan(file) => file,
        }
    }
}

/// The command that the words name, if they name one.
pub fn command_of_words(words: &[String]) -> Option<Command<'_>>
    ensures { option_map plain_command result ≡ command_of (bytes_of words.now) }
{
    let Some((name, others)) = words.split_first() else {
        return None;
    };
    let Some((file, others)) = others.split_first() else {
        return None;
    };
    if is_operand(file.as_str()) {
        command_named(name.as_str(), file.as_str(), others)
    } else {
        None
    }
}

/// The two type texts that the words compare, if they are `subtype` and two texts.
pub fn texts_to_compare(words: &[String]) -> Option<(&str, &str)>
    ensures texts { option_map plain_texts result ≡ texts_to_compare (bytes_of words.now) }
    ensures left { IfSome result (λ texts. length texts.0.now ≤ WORD_BYTES) }
    ensures right { IfSome result (λ texts. length texts.1.now ≤ WORD_BYTES) }
{
    match words {
        [name, left, right]
            if name.as_str() == "subtype"
                && is_operand(left.as_str())
                && is_operand(right.as_str()) => { Some((left.as_str(), right.as_str())) }
        _ => None,
    }
}

/// The number of items that the words ask the workload for, if they are `demo` and such a number.
pub fn workload_asked(words: &[String]) -> Option<u32>
    ensures items { result ≡ workload_asked (bytes_of words.now) }
    ensures within { IfSome result (λ items. items ≤ WORKLOAD_ITEMS) }
{
    match words {
        [name, number] if name.as_str() == "demo" => items_asked(number.as_str()),
        _ => None,
    }
}

fn command_named<'a>(name: &str, file: &'a str, others: &'a [String]) -> Option<Command<'a>>
    ensures { option_map plain_command result ≡ command_named name.now file.now (bytes_of others.now) }
{
    if name == "run" && are_bindings(others) {
        return Some(Command::Run(file, others));
    }
    if name == "check" && others.is_empty() {
        return Some(Command::Check(file));
    }
    if name == "plan" && others.is_empty() {
        return Some(Command::Plan(file));
    }
    None
}

// Whether each word binds a variable.
fn are_bindings(words: &[String]) -> bool
    ensures { result ≡ list_all is_binding (bytes_of words.now) }
{
    let mut left = words;
    while let Some((word, others)) = left.split_first() {
        if !is_binding(word.as_str()) {
            return false;
        }
        left = others;
    }
    true
}

fn is_binding(word: &str) -> bool
    ensures { result ≡ is_binding word.now }
{
    is_operand(word) && has_equals(word.as_bytes())
}

fn has_equals(bytes: &[u8]) -> bool
    ensures { result ≡ list_any (λ c. c == 61) bytes.now }
{
    let mut left = bytes;
    while let Some((byte, others)) = left.split_first() {
        if *byte == b'=' {
            return true;
        }
        left = others;
    }
    false
}

fn is_operand(word: &str) -> bool
    ensures operand { result ≡ is_operand word.now }
    ensures within { IsTrue result → length word.now ≤ WORD_BYTES }
{
    match word.as_bytes() {
        [] => false,
        [first, ..] => *first != b'-' && word.len() <= WORD_BYTES,
    }
}
