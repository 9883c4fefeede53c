// Texts of names and short values, of which equal ones share their characters.

ghost use Rattle.gx_xml.specs.Characters.{spelled};
ghost use Rattle.std.specs.Prelude.{◌≡◌, ◌<◌, ◌↔◌, IfOk, IsTrue, string_bytes};
ghost use Rattle.std.specs.Str.{chars};

use crate::characters::Characters;
use gx_base::text::Text;
use std::alloc::{AllocError, Global};

// How many texts are kept.
const SLOTS: usize = 4096;

// Up to so many bytes a value is short.
const SHORT: usize = 7;

/// Texts that were made, each in the slot of its characters: of those of one slot the last is kept.
#[derive(Drop)]
pub struct SharedTexts {
    kept: Vec<Option<Text>>,
}

impl SharedTexts {
    /// No text.
    pub fn new(alloc: Global) -> Result<SharedTexts, AllocError> {
        let mut kept = Vec::with_capacity(alloc, SLOTS)?;
        for _ in 0..SLOTS {
            kept.push(None)?;
        }
        Ok(SharedTexts { kept })
    }

    /// The text of characters, which shares those of an equal text that is kept.
    pub fn text_of(&mut self, alloc: Global, characters: Characters<'_>) -> Result<Text, AllocError>
        ensures { IfOk result (λ t. t ≡ spelled characters.entry) }
    {
        let slot = slot_of(characters);
        if let Some(Some(text)) = self.kept.get(slot)
            && has_characters(text, characters)
        {
            return text.clone();
        }
        let text = Text::from_str(alloc, characters.text)?;
        if let Some(place) = self.kept.get_mut(slot) {
            *place = Some(text.clone()?);
        }
        Ok(text)
    }

    /// The text of a string, which shares the characters of an equal text that is kept where it is short.
    #[tactic(auto, using(gx_base::proofs::TextLemmas::string_rules))]
    pub fn text_of_string(&mut self, alloc: Global, string: String) -> Result<Text, AllocError>
        ensures { IfOk result (λ t. t ≡ chars (string_bytes string)) }
    {
        if string.len() > SHORT {
            return Text::from_string(alloc, string);
        }
        self.text_of(alloc, Characters::new(string.as_str()))
    }
}

// The slot of characters.
fn slot_of(characters: Characters<'_>) -> usize
    ensures { result < SLOTS }
{
    let mut slot = 0;
    for byte in characters.text.as_bytes() {
        slot = (slot * 31 + *byte as usize) % SLOTS;
    }
    slot
}

// Whether a text has these characters.
fn has_characters(text: &Text, characters: Characters<'_>) -> bool
    ensures { IsTrue result ↔ (text.now ≡ spelled characters.entry) }
{
    spells(text, characters.text)
}

#[tactic(auto, using(gx_base::proofs::TextLemmas::string_rules))]
fn spells(text: &Text, characters: &str) -> bool
    ensures { IsTrue result ↔ (text.now ≡ chars characters.now) }
{
    text.as_str() == characters
}
