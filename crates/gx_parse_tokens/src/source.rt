// A text with the places of its characters.

ghost use Rattle.std.specs.Prelude.{◌≡◌, ◌+◌, ◌≤◌, All, IfOk, [], length};
ghost use Rattle.gx_grammar.specs.Places.{place_at};

use gx_base::place::Place;
use gx_base::text::Text;
use gx_grammar::place::PlaceWalk;
use std::alloc::{AllocError, Global};
use std::marker::Model;

// So many characters lie between two marks.
const SPACING: usize = 64;

/// The place of a character.
#[derive(Clone, Copy)]
pub struct Mark {
    /// How many characters stand before it.
    pub position: usize,
    /// Its place.
    pub place: Place,
}

/// A text with marks, from which the place of any character is near, an allocator, and a text without characters. Contracts
/// see the text.
#[derive(Drop)]
pub struct Source<'a> {
    alloc: Global,
    text: &'a [char],
    marks: Vec<Mark>,
    empty: Text,
    ghost numbered: { length text.now ≤ 16777216 },
    ghost right: { All (λ m. m.place ≡ place_at text.now m.position) marks.items },
    ghost without_characters: { empty ≡ [] },
}

impl<'a> Model for Source<'a> {
    ghost use Rattle.std.specs.Prelude.{ℕ, List};

    ghost Value = { List ℕ };

    ghost view = { λ p. p.text.now };
}

impl<'a> Source<'a> {
    /// The places of a text.
    pub fn new(alloc: Global, text: &'a [char]) -> Result<Source<'a>, AllocError>
        requires { length text.now ≤ 16777216 }
        ensures { IfOk result (λ p. p ≡ text.now) }
    {
        let empty = Text::empty(alloc)?;
        let mut walk = PlaceWalk::new(text);
        let mut marks = Vec::new(alloc);
        for index in 0..text.len() / SPACING + 1 {
            let position = index * SPACING;
            let place = walk.advance(position);
            marks.push(Mark { position, place })?;
        }
        Ok(Source {
            alloc,
            text,
            marks,
            empty,
        })
    }
}

impl Source<'_> {
    ghost use Rattle.gx_parse_grammar.specs.Grammar.{place_in};

    /// The allocator.
    pub fn alloc(&self) -> Global {
        self.alloc
    }

    /// The text without characters, which all that ask for it share.
    pub fn no_characters(&self) -> Result<Text, AllocError>
        ensures { IfOk result (λ text. text ≡ []) }
    {
        self.empty.clone()
    }

    /// The place of the character where so many are left.
    pub fn place(&self, left: usize) -> Place
        ensures { result ≡ place_in self.now left }
    {
        self.at_position(self.text.len().saturating_sub(left))
    }

    /// The place of the character behind which so many are left.
    pub fn place_before(&self, left: usize) -> Place
        ensures { result ≡ place_in self.now (left + 1) }
    {
        self.at_position(self.text.len().saturating_sub(left).saturating_sub(1))
    }

    // The place of the character in front of which so many stand.
    fn at_position(&self, position: usize) -> Place
        requires { position ≤ length self.now }
        ensures { result ≡ place_at self.now position }
    {
        if let Some(mark) = self.marks.get(position / SPACING) {
            if mark.position <= position {
                let mut walk = PlaceWalk {
                    text: self.text,
                    position: mark.position,
                    place: mark.place,
                };
                return walk.advance(position);
            }
        }
        PlaceWalk::new(self.text).advance(position)
    }
}
