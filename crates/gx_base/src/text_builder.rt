// A text that grows.

ghost use Rattle.std.specs.Prelude.{◌≡◌, [], ◌∷◌, ◌++◌, IfOk, OnOk, OnErr, IsTrue, ◌↔◌, string_bytes};
ghost use Rattle.std.specs.Str.{chars, encode_utf8_all};

use crate::text::{Text, has_no_character};
use std::alloc::{AllocError, Global};
use std::marker::Model;

/// A text in the making, which contracts see as the list of its characters so far.
#[derive(Drop)]
pub struct TextBuilder {
    alloc: Global,
    text: String,
}

impl Model for TextBuilder {
    ghost use Rattle.std.specs.Prelude.{List, ℕ, string_bytes};
    ghost use Rattle.std.specs.Str.{chars};

    ghost Value = { List ℕ };

    ghost view = { λ builder. chars (string_bytes builder.text) };
}

#[tactic(auto, using(crate::proofs::TextLemmas::string_rules))]
impl TextBuilder {
    /// A text without characters, which takes no memory.
    pub fn new(alloc: Global) -> TextBuilder
        ensures { result ≡ [] }
    {
        TextBuilder {
            alloc,
            text: String::new(alloc),
        }
    }

    /// The characters so far, in UTF-8.
    pub fn as_str(&self) -> &str
        ensures { result.now ≡ encode_utf8_all self.now }
    {
        self.text.as_str()
    }

    /// Whether there is no character yet.
    pub fn is_empty(&self) -> bool
        ensures { IsTrue result ↔ (self.now ≡ []) }
    {
        has_no_character(&self.text)
    }

    /// Adds a character at the end. An `Err` leaves the text as it was.
    pub fn push(&mut self, character: char) -> Result<(), AllocError>
        ensures ok { OnOk result (self.new ≡ self.old ++ character ∷ []) }
        ensures err { OnErr result (self.new ≡ self.old) }
    {
        Ok(self.text.push(character)?)
    }

    /// Adds a text at the end. An `Err` leaves the text as it was.
    pub fn push_text(&mut self, other: &Text) -> Result<(), AllocError>
        ensures ok { OnOk result (self.new ≡ self.old ++ other.now) }
        ensures err { OnErr result (self.new ≡ self.old) }
    {
        Ok(self.text.push_str(other.as_str())?)
    }

    /// Adds the characters of another text in the making. An `Err` leaves the text as it was.
    pub fn append(&mut self, other: &TextBuilder) -> Result<(), AllocError>
        ensures ok { OnOk result (self.new ≡ self.old ++ other.now) }
        ensures err { OnErr result (self.new ≡ self.old) }
    {
        Ok(self.text.push_str(other.text.as_str())?)
    }

    /// Adds the characters of a string slice at the end. An `Err` leaves the text as it was.
    pub fn push_str(&mut self, other: &str) -> Result<(), AllocError>
        ensures ok { OnOk result (self.new ≡ self.old ++ chars other.now) }
        ensures err { OnErr result (self.new ≡ self.old) }
    {
        Ok(self.text.push_str(other)?)
    }

    /// The characters in UTF-8, as a string that keeps their memory.
    pub fn into_string(self) -> String
        ensures { string_bytes result ≡ encode_utf8_all self }
    {
        let TextBuilder { alloc: _, text } = self;
        text
    }

    /// The text of these characters, which keeps their memory.
    pub fn finish(self) -> Result<Text, AllocError>
        ensures { IfOk result (λ text. text ≡ self) }
    {
        let TextBuilder { alloc, text } = self;
        Text::from_string(alloc, text)
    }
}
