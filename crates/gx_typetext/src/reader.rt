// A reader of the tokens of type texts, which gives up for good.

ghost use Rattle.std.specs.Prelude.{◌≡◌, ◌∷◌, [], ◌↔◌, IsTrue};
ghost use Rattle.gx_grammar.specs.Apart.{is};
ghost use Rattle.gx_grammar.specs.First.{by_character, by_tokens};
ghost use Rattle.gx_grammar.specs.Ran.{IsDone, Looked, Loses, Ran, left_of};
ghost use Rattle.gx_grammar.specs.Reading.{start};
ghost use Rattle.gx_grammar.specs.Value.{characters, nothing};
ghost use Rattle.gx_typetext.specs.Standings.{HasEndedAs, WasGiven, read_type_token};
ghost use Rattle.gx_typetext.specs.Tokens.{no_faults, gap, keyword, named, scan, seen, symbol};

use crate::letters::Run;
use crate::scan::{find_keyword, find_run, find_symbol};
use gx_base::text::Text;
use gx_gaps::gap::gap;
use std::alloc::Global;
use std::marker::Model;

/// Why a reader reads nothing more.
#[derive(Clone, Copy, PartialEq, Eq)]
pub enum End {
    /// Nothing fits behind the furthest character, of which so many are left.
    Unfit(usize),
    /// Memory did not suffice.
    Lost,
}

/// What is left of a text, how many characters are left behind the furthest one that fitted so far, and whether reading
/// has ended.
#[derive(Drop)]
pub struct Reader<'a> {
    rest: &'a [char],
    far: usize,
    end: Option<End>,
}

impl<'a> Model for Reader<'a> {
    ghost use Rattle.gx_grammar.specs.Ran.{Standing};
    ghost use Rattle.gx_typetext.specs.Standings.{reader_standing};

    ghost Value = { Standing };

    ghost view = { λ r. reader_standing r.rest.now r.far r.end };
}

impl<'a> Reader<'a> {
    ghost use Rattle.gx_grammar.specs.Ran.{Going};

    /// A reader at the front of a text.
    pub fn new(text: &'a [char]) -> Reader<'a>
        ensures { result ≡ Going (start text.now) }
    {
        Reader {
            rest: text,
            far: text.len(),
            end: None,
        }
    }
}

impl Reader<'_> {
    /// How many characters are left.
    pub fn left(&self) -> usize
        ensures { result ≡ left_of self.now }
    {
        match self.end {
            None => self.rest.len(),
            Some(_) => 0,
        }
    }

    /// Whether reading has ended.
    pub fn has_ended(&self) -> bool
        ensures { IsTrue result ↔ IsDone self.now }
    {
        self.end.is_some()
    }

    /// How the reading of a whole text ended; none where nothing is left of it.
    pub fn outcome(&self) -> Option<End>
        ensures { HasEndedAs result self.now }
    {
        match self.end {
            Some(end) => Some(end),
            None if self.rest.is_empty() => None,
            None => Some(End::Unfit(self.far)),
        }
    }

    /// Reads nothing more, since memory does not suffice.
    pub fn lose(&mut self)
        ensures { Loses self.old self.new }
    {
        if self.end.is_none() {
            self.end = Some(End::Lost);
        }
    }

    /// Goes past white space and comments.
    #[tactic(auto, unfolding(crate::specs::Standings::read_type_token))]
    pub fn gap(&mut self)
        ensures { Ran nothing self.old self.new (read_type_token gap) }
    {
        if self.end.is_some() {
            return;
        }
        let found = gap(self.rest);
        self.far = self.far.min(found.seen);
        match found.behind {
            Some(behind) => self.rest = behind,
            None => self.end = Some(End::Unfit(self.far)),
        }
    }

    /// Reads a symbol.
    #[tactic(auto, unfolding(crate::specs::Standings::read_type_token))]
    pub fn symbol(&mut self, letters: &[char])
        ensures { Ran nothing self.old self.new (read_type_token (symbol letters.now)) }
    {
        if self.end.is_some() {
            return;
        }
        let found = find_symbol(letters, self.rest);
        self.far = self.far.min(found.seen);
        match found.behind {
            Some(behind) => self.rest = behind,
            None => self.end = Some(End::Unfit(self.far)),
        }
    }

    /// Reads a word.
    #[tactic(auto, unfolding(crate::specs::Standings::read_type_token))]
    pub fn keyword(&mut self, letters: &[char])
        ensures { Ran nothing self.old self.new (read_type_token (keyword letters.now)) }
    {
        if self.end.is_some() {
            return;
        }
        let found = find_keyword(letters, self.rest);
        self.far = self.far.min(found.seen);
        match found.behind {
            Some(behind) => self.rest = behind,
            None => self.end = Some(End::Unfit(self.far)),
        }
    }

    /// Reads a run of characters.
    #[tactic(auto, unfolding(crate::specs::Standings::read_type_token))]
    pub fn run(&mut self, alloc: Global, run: Run) -> Option<Text>
        ensures { WasGiven characters result self.old self.new (read_type_token (named run)) }
    {
        if self.end.is_some() {
            return None;
        }
        let Ok(found) = find_run(alloc, run, self.rest) else {
            self.end = Some(End::Lost);
            return None;
        };
        self.far = self.far.min(found.seen);
        match found.run {
            Some((letters, behind)) => {
                self.rest = behind;
                Some(letters)
            }
            None => {
                self.end = Some(End::Unfit(self.far));
                None
            }
        }
    }

    /// Whether the character stands first.
    pub fn starts_with(&mut self, symbol: char) -> bool
        ensures { Looked result self.old self.new (by_character (is symbol)) }
    {
        if self.end.is_some() {
            return false;
        }
        self.far = self.far.min(self.rest.len());
        match self.rest {
            [] => false,
            [character, ..] => *character == symbol,
        }
    }

    /// Whether the symbol stands first.
    pub fn looks_at(&mut self, letters: &[char]) -> bool
        ensures { Looked result self.old self.new (by_tokens scan no_faults seen (symbol letters.now ∷ [])) }
    {
        if self.end.is_some() {
            return false;
        }
        let found = find_symbol(letters, self.rest);
        self.far = self.far.min(found.seen);
        found.behind.is_some()
    }
}
