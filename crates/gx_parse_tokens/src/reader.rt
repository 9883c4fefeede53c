// A reader of tokens, which gives up for good.

ghost use Rattle.std.specs.Prelude.{◌≡◌, ◌==◌, ◌≤◌, [], ◌∷◌, length, min, true, false, IfOk, IfSome, ◌+◌, MatchOption, MatchResult, IsNone, Some, None};
ghost use Rattle.gx_grammar.specs.Apart.{is};
ghost use Rattle.gx_grammar.specs.First.{by_character};
ghost use Rattle.gx_grammar.specs.Ran.{IsDone, Looked, Loses, Makes, Ran, left_of};
ghost use Rattle.gx_grammar.specs.Reading.{start};
ghost use Rattle.gx_grammar.specs.Value.{characters, node, nothing};
ghost use Rattle.gx_base.specs.NameCharacters.{is_ncname_start};
ghost use Rattle.gx_parse_grammar.specs.Grammar.{at_tokens};
ghost use Rattle.gx_parse_grammar.specs.Nodes.{Found, name_length};
ghost use Rattle.gx_parse_tokens.specs.Indications.{found_made};
ghost use Rattle.gx_parse_tokens.specs.Names.{name_made};
ghost use Rattle.gx_parse_tokens.specs.Reading.{Ended, NameRead, read_number, read_one};
ghost use Rattle.gx_parse_grammar.specs.Tokens.{barred, barred_words, gap, gap_not_open, gap_then_dollar, gap_then_neither, gap_then_open, indication, local_wildcard, ncname, number_end, one_of, reference, text_run, leading, constructor, no_constructor, word_end};
ghost use Rattle.gx_parse_tokens.specs.Reading.{Added};
ghost use Rattle.gx_parse_grammar.specs.Direct.{content_pieces_of, start_of, value_pieces_of};
ghost use Rattle.gx_parse_grammar.specs.Tokens.{blank, cdata_text, import_words, no_attribute, no_element, setter_words, tag_name, white};
ghost use Rattle.gx_parse_grammar.specs.Strings.{parts_of};
ghost use Rattle.gx_parse_grammar.specs.NodeTests.{wildcard_made};
ghost use Rattle.gx_parse_grammar.specs.Types.{Gave};

use crate::characters::{begins_at, begins_attribute};
use crate::constructor::{find_constructor, look_at_constructor, starts_constructor};
use crate::gap::{dollar, neither, no_parenthesis, parenthesis};
use crate::indication::find_indication;
use crate::leading::find_leading;
use crate::markup::{
    behind_cdata, behind_white, find_tag_name, find_white, look_at_content_piece,
    look_at_value_piece, look_at_white, starts_element,
};
use crate::names::{ReadName, find_local_wildcard, find_name, find_ncname};
use crate::numbers::{LiteralFound, find_number, point_seen, starts_fraction};
use crate::references::{find_part, find_reference};
use crate::runs::{find_text, push_characters, push_text};
use crate::scan::{find, find_only};
use crate::shared_texts::SharedTexts;
use gx_base::characters::is_name_start;
use gx_base::text::Text;
use gx_base::text_builder::TextBuilder;
use gx_gaps::gap::gap;
use gx_num::Number;
use gx_parse_grammar::runs::{Quote, Run};
use gx_parse_grammar::word::{Barrier, Word, WordSet};
use std::alloc::Global;
use std::marker::Model;

/// Why a reader gave up.
#[derive(Clone, Copy, PartialEq, Eq)]
pub enum Refused {
    /// Nothing fits behind the furthest character, of which so many are left.
    Unfit(usize),
    /// A limit of nesting or of a chain is met where so many characters are left.
    Limit(usize),
    /// A number is too large or too precise where so many characters are left.
    Number(usize),
    /// A reference names no character where so many are left.
    Reference(usize),
}

/// Why a reader reads nothing more.
#[derive(Clone, Copy, PartialEq, Eq)]
pub enum End {
    /// It gave up.
    GaveUp(Refused),
    /// Memory did not suffice.
    Lost,
}

/// What is left of a text, how many characters are left behind the furthest one that fitted so far, whether reading has
/// ended, and the parts of names that were read.
#[derive(Drop)]
pub struct Reader<'a> {
    rest: &'a [char],
    far: usize,
    end: Option<End>,
    parts: SharedTexts,
}

impl<'a> Model for Reader<'a> {
    ghost use Rattle.gx_grammar.specs.Ran.{Standing};
    ghost use Rattle.gx_parse_tokens.specs.Reading.{standing_of};

    ghost Value = { Standing };

    ghost view = { λ r. standing_of r.rest.now r.far r.end };
}

impl<'a> Reader<'a> {
    ghost use Rattle.gx_grammar.specs.Ran.{Going};

    /// A reader at the front of a text.
    pub fn new(alloc: Global, text: &'a [char]) -> Reader<'a>
        ensures { result ≡ Going (start text.now) }
    {
        Reader {
            rest: text,
            far: text.len(),
            end: None,
            parts: SharedTexts::new(alloc),
        }
    }
}

impl Reader<'_> {
    /// How many characters are left.
    pub fn left(&self) -> usize
        ensures { result ≡ left_of self.now }
    {
        match self.end {
            None => self.rest.len(),
            Some(_) => 0,
        }
    }

    /// How the reading of a whole text ended; none where nothing is left of it.
    pub fn outcome(&self) -> Option<End>
        ensures { Ended result self.now }
    {
        match self.end {
            Some(end) => Some(end),
            None if self.rest.is_empty() => None,
            None => Some(End::GaveUp(Refused::Unfit(self.far))),
        }
    }

    /// Goes past white space and comments.
    #[tactic(auto, unfolding(crate::specs::Reading::read_one))]
    pub fn gap(&mut self)
        ensures { Ran nothing self.old self.new (read_one gap) }
    {
        if self.end.is_some() {
            return;
        }
        let found = gap(self.rest);
        self.far = self.far.min(found.seen);
        match found.behind {
            Some(behind) => self.rest = behind,
            None => self.end = Some(End::GaveUp(Refused::Unfit(self.far))),
        }
    }

    /// Reads nothing more, since memory does not suffice.
    pub fn lose(&mut self)
        ensures { Loses self.old self.new }
    {
        if self.end.is_none() {
            self.end = Some(End::Lost);
        }
    }

    /// Whether the character stands first.
    pub fn starts_with(&mut self, symbol: char) -> bool
        ensures { Looked result self.old self.new (by_character (is symbol)) }
    {
        if self.end.is_some() {
            return false;
        }
        self.far = self.far.min(self.rest.len());
        match self.rest {
            [] => false,
            [character, ..] => *character == symbol,
        }
    }

    /// Whether a name may begin here.
    pub fn starts_name(&mut self) -> bool
        ensures { Looked result self.old self.new (by_character is_ncname_start) }
    {
        if self.end.is_some() {
            return false;
        }
        self.far = self.far.min(self.rest.len());
        match self.rest {
            [] => false,
            [character, ..] => is_name_start(*character),
        }
    }

    /// Whether one of the words stands first.
    pub fn looks_at(&mut self, set: WordSet) -> bool
        ensures { Looked result self.old self.new (at_tokens (one_of set ∷ [])) }
    {
        if self.end.is_some() {
            return false;
        }
        let found = find(set.words(), self.rest);
        self.far = self.far.min(found.seen);
        found.word.is_some()
    }

    /// Whether one that may not stand does.
    pub fn looks_barred(&mut self, barrier: Barrier) -> bool
        ensures { Looked result self.old self.new (at_tokens (barred barrier ∷ [])) }
    {
        if self.end.is_some() {
            return false;
        }
        self.far = self.far.min(self.rest.len());
        match self.rest {
            [] => false,
            [character, ..] => begins_at(barrier, *character),
        }
    }

    /// Reads one of the words.
    #[tactic(auto, unfolding(crate::specs::Reading::read_one))]
    pub fn word(&mut self, set: WordSet) -> Word
        ensures { Ran (node (Found result)) self.old self.new (read_one (one_of set)) }
    {
        if self.end.is_some() {
            return Word::Comma;
        }
        let found = find(set.words(), self.rest);
        match found.word {
            Some((word, behind)) => {
                self.rest = behind;
                self.far = self.far.min(found.seen);
                word
            }
            None => {
                self.far = self.far.min(found.seen);
                self.end = Some(End::GaveUp(Refused::Unfit(self.far)));
                Word::Comma
            }
        }
    }

    /// Reads a token that may not stand.
    #[tactic(auto, unfolding(crate::specs::Reading::read_one))]
    pub fn barrier(&mut self, barrier: Barrier)
        ensures read { Ran nothing self.old self.new (read_one (barred barrier)) }
        ensures ended { IsDone self.new }
    {
        if self.end.is_some() {
            return;
        }
        self.far = self.far.min(self.rest.len());
        let refused = match self.rest {
            [character, ..] if begins_at(barrier, *character) => Refused::Limit(self.rest.len()),
            _ => Refused::Unfit(self.far),
        };
        self.end = Some(End::GaveUp(refused));
    }

    /// Reads the end of a number, behind which no name begins.
    #[tactic(auto, unfolding(crate::specs::Reading::read_one))]
    pub fn number_end(&mut self)
        ensures { Ran nothing self.old self.new (read_one number_end) }
    {
        if self.end.is_some() {
            return;
        }
        self.far = self.far.min(self.rest.len());
        if let [character, ..] = self.rest {
            if is_name_start(*character) {
                self.end = Some(End::GaveUp(Refused::Unfit(self.far)));
            }
        }
    }

    /// Reads the end of a word, behind which no `.` with a digit stands where the word is a keyword.
    #[tactic(auto, unfolding(crate::specs::Reading::read_one))]
    pub fn word_end(&mut self, keyword: bool)
        ensures { Ran nothing self.old self.new (read_one (word_end keyword)) }
    {
        if self.end.is_some() {
            return;
        }
        if !keyword {
            self.far = self.far.min(self.rest.len());
            return;
        }
        self.far = self.far.min(point_seen(self.rest));
        if starts_fraction(self.rest) {
            self.end = Some(End::GaveUp(Refused::Unfit(self.far)));
        }
    }

    /// Reads a numeric literal.
    #[tactic(auto, unfolding(crate::specs::Reading::read_one, crate::specs::Reading::read_number))]
    pub fn number(&mut self, alloc: Global) -> Number
        ensures { Ran result self.old self.new read_number }
    {
        if self.end.is_some() {
            return Number::int(0);
        }
        match find_number(alloc, self.rest) {
            Err(_) => self.end = Some(End::Lost),
            Ok(LiteralFound::TooLarge) => {
                self.end = Some(End::GaveUp(Refused::Number(self.rest.len())));
            }
            Ok(LiteralFound::Nothing(seen)) => {
                self.far = self.far.min(seen);
                self.end = Some(End::GaveUp(Refused::Unfit(self.far)));
            }
            Ok(LiteralFound::Number(number, behind)) => {
                self.rest = behind;
                self.far = self.far.min(behind.len());
                return number;
            }
        }
        Number::int(0)
    }

    /// Reads a name.
    #[tactic(auto, unfolding(crate::specs::Reading::read_one))]
    pub fn name(&mut self, alloc: Global) -> Option<ReadName>
        ensures read { NameRead result self.old self.new }
        ensures placed { IfSome result (λ n. left_of self.new + name_length (name_made n) ≡ left_of self.old) }
    {
        if self.end.is_some() {
            return None;
        }
        let Ok(found) = find_name(alloc, &mut self.parts, self.rest) else {
            self.end = Some(End::Lost);
            return None;
        };
        self.far = self.far.min(found.seen);
        match found.name {
            Some((name, behind)) => {
                self.rest = behind;
                Some(name)
            }
            None => {
                self.end = Some(End::GaveUp(Refused::Unfit(self.far)));
                None
            }
        }
    }

    /// Reads an NCName.
    #[tactic(auto, unfolding(crate::specs::Reading::read_one))]
    pub fn ncname(&mut self, alloc: Global) -> Option<Text>
        ensures { Gave characters result self.old self.new (read_one ncname) }
    {
        if self.end.is_some() {
            return None;
        }
        let Ok(found) = find_ncname(alloc, self.rest) else {
            self.end = Some(End::Lost);
            return None;
        };
        self.far = self.far.min(found.seen);
        match found.name {
            Some((name, behind)) => {
                self.rest = behind;
                Some(name)
            }
            None => {
                self.end = Some(End::GaveUp(Refused::Unfit(self.far)));
                None
            }
        }
    }

    /// Reads `:*`, if it stands there, and nothing behind a name with a prefix.
    #[tactic(auto, unfolding(crate::specs::Reading::read_one))]
    pub fn local_wildcard(&mut self, prefixed: bool) -> bool
        ensures read { Ran (wildcard_made result) self.old self.new (read_one (local_wildcard prefixed)) }
        ensures any { result ≡ true → left_of self.new + 2 ≡ left_of self.old }
        ensures none { result ≡ false → left_of self.new ≡ left_of self.old }
    {
        if self.end.is_some() {
            return false;
        }
        if prefixed {
            self.far = self.far.min(self.rest.len());
            return false;
        }
        let found = find_local_wildcard(self.rest);
        self.far = self.far.min(found.seen);
        match found.behind {
            Some(behind) => {
                self.rest = behind;
                true
            }
            None => false,
        }
    }

    /// Whether a `(` stands behind white space and comments.
    pub fn looks_at_parenthesis(&mut self) -> bool
        ensures { Looked result self.old self.new (at_tokens (gap_then_open ∷ [])) }
    {
        if self.end.is_some() {
            return false;
        }
        let found = parenthesis(self.rest);
        self.far = self.far.min(found.seen);
        found.behind.is_some()
    }

    /// Reads white space and comments with a `(` behind them.
    #[tactic(auto, unfolding(crate::specs::Reading::read_one))]
    pub fn parenthesis(&mut self)
        ensures { Ran nothing self.old self.new (read_one gap_then_open) }
    {
        if self.end.is_some() {
            return;
        }
        let found = parenthesis(self.rest);
        self.far = self.far.min(found.seen);
        match found.behind {
            Some(behind) => self.rest = behind,
            None => self.end = Some(End::GaveUp(Refused::Unfit(self.far))),
        }
    }

    /// Reads white space and comments with no `(` behind them.
    #[tactic(auto, unfolding(crate::specs::Reading::read_one))]
    pub fn no_parenthesis(&mut self)
        ensures { Ran nothing self.old self.new (read_one gap_not_open) }
    {
        if self.end.is_some() {
            return;
        }
        let found = no_parenthesis(self.rest);
        self.far = self.far.min(found.seen);
        match found.behind {
            Some(behind) => self.rest = behind,
            None => self.end = Some(End::GaveUp(Refused::Unfit(self.far))),
        }
    }

    /// Whether a `$` stands behind white space and comments.
    pub fn looks_at_dollar(&mut self) -> bool
        ensures { Looked result self.old self.new (at_tokens (gap_then_dollar ∷ [])) }
    {
        if self.end.is_some() {
            return false;
        }
        let found = dollar(self.rest);
        self.far = self.far.min(found.seen);
        found.behind.is_some()
    }

    /// Reads white space and comments with a `$` behind them.
    #[tactic(auto, unfolding(crate::specs::Reading::read_one))]
    pub fn dollar(&mut self)
        ensures { Ran nothing self.old self.new (read_one gap_then_dollar) }
    {
        if self.end.is_some() {
            return;
        }
        let found = dollar(self.rest);
        self.far = self.far.min(found.seen);
        match found.behind {
            Some(behind) => self.rest = behind,
            None => self.end = Some(End::GaveUp(Refused::Unfit(self.far))),
        }
    }

    /// Reads white space and comments with neither `$` nor `(` behind them.
    #[tactic(auto, unfolding(crate::specs::Reading::read_one))]
    pub fn neither(&mut self)
        ensures { Ran nothing self.old self.new (read_one gap_then_neither) }
    {
        if self.end.is_some() {
            return;
        }
        let found = neither(self.rest);
        self.far = self.far.min(found.seen);
        match found.behind {
            Some(behind) => self.rest = behind,
            None => self.end = Some(End::GaveUp(Refused::Unfit(self.far))),
        }
    }

    /// Whether one of the words stands first, where it may not stand.
    pub fn looks_at_barred(&mut self, set: WordSet) -> bool
        ensures { Looked result self.old self.new (at_tokens (barred_words set ∷ [])) }
    {
        if self.end.is_some() {
            return false;
        }
        let found = find(set.words(), self.rest);
        self.far = self.far.min(found.seen);
        found.word.is_some()
    }

    /// Reads one of the words, which may not stand.
    #[tactic(auto, unfolding(crate::specs::Reading::read_one))]
    pub fn barred(&mut self, set: WordSet)
        ensures read { Ran nothing self.old self.new (read_one (barred_words set)) }
        ensures ended { IsDone self.new }
    {
        if self.end.is_some() {
            return;
        }
        let found = find(set.words(), self.rest);
        let refused = match found.word {
            Some(_) => Refused::Limit(self.rest.len()),
            None => Refused::Unfit(self.far.min(found.seen)),
        };
        self.far = self.far.min(found.seen);
        self.end = Some(End::GaveUp(refused));
    }

    /// Whether the word stands first, with one of the others behind it.
    pub fn looks_at_leading(&mut self, word: Word, set: WordSet) -> bool
        ensures { Looked result self.old self.new (at_tokens (leading word set ∷ [])) }
    {
        if self.end.is_some() {
            return false;
        }
        let found = find_leading(word, set, self.rest);
        self.far = self.far.min(found.seen);
        found.word.is_some()
    }

    /// Whether a declaration of the first part of a prolog stands first.
    pub fn looks_at_setting(&mut self) -> bool
        ensures { Looked result self.old self.new (at_tokens (setter_words ∷ import_words ∷ [])) }
    {
        if self.end.is_some() {
            return false;
        }
        let declared = find_leading(Word::Declare, WordSet::Setters, self.rest);
        let imported = find_leading(Word::Import, WordSet::Only(Word::Schema), self.rest);
        self.far = self.far.min(declared.seen).min(imported.seen);
        declared.word.is_some() || imported.word.is_some()
    }

    /// Reads the word with one of the others behind it, which is the result.
    #[tactic(auto, unfolding(crate::specs::Reading::read_one))]
    pub fn leading(&mut self, word: Word, set: WordSet) -> Word
        ensures { Ran (node (Found result)) self.old self.new (read_one (leading word set)) }
    {
        if self.end.is_some() {
            return Word::Comma;
        }
        let found = find_leading(word, set, self.rest);
        self.far = self.far.min(found.seen);
        match found.word {
            Some((second, behind)) => {
                self.rest = behind;
                second
            }
            None => {
                self.end = Some(End::GaveUp(Refused::Unfit(self.far)));
                Word::Comma
            }
        }
    }

    /// Reads an indicator with its gap, or nothing where neither an indicator nor a `(` stands.
    #[tactic(auto, unfolding(crate::specs::Reading::read_one))]
    pub fn indication(&mut self) -> Option<Word>
        ensures { Ran (found_made result) self.old self.new (read_one indication) }
    {
        if self.end.is_some() {
            return None;
        }
        let found = find_indication(self.rest);
        self.far = self.far.min(found.seen);
        match found.behind {
            Some(behind) => {
                self.rest = behind;
                found.word
            }
            None => {
                self.end = Some(End::GaveUp(Refused::Unfit(self.far)));
                None
            }
        }
    }

    /// Whether literal text, two quotes or a reference stand first, as in a string literal with these quotes.
    pub fn looks_at_part(&mut self, quote: Quote) -> bool
        ensures { Looked result self.old self.new (at_tokens (parts_of quote)) }
    {
        if self.end.is_some() {
            return false;
        }
        let found = find_part(quote, self.rest);
        self.far = self.far.min(found.seen);
        found.stands
    }

    /// Reads literal text, and adds it.
    pub fn text(&mut self, run: Run, builder: &mut TextBuilder)
        ensures { Added builder.old builder.new (λ cs. Ran (characters cs) self.old self.new (read_one (text_run run))) }
    {
        if self.end.is_some() {
            return;
        }
        let found = find_text(run, self.rest);
        self.far = self.far.min(found.seen);
        let Some(behind) = found.behind else {
            self.end = Some(End::GaveUp(Refused::Unfit(self.far)));
            return;
        };
        match push_text(builder, run, self.rest) {
            Ok(_) => self.rest = behind,
            Err(_) => self.end = Some(End::Lost),
        }
    }

    /// Reads a reference, as its character.
    #[tactic(auto, unfolding(crate::specs::Reading::read_one))]
    pub fn reference(&mut self) -> char
        ensures { Ran (characters (result ∷ [])) self.old self.new (read_one reference) }
    {
        if self.end.is_some() {
            return '?';
        }
        let found = find_reference(self.rest);
        if found.is_bad {
            self.end = Some(End::GaveUp(Refused::Reference(self.rest.len())));
            return '?';
        }
        self.far = self.far.min(found.seen);
        match found.character {
            Some((character, behind)) => {
                self.rest = behind;
                character
            }
            None => {
                self.end = Some(End::GaveUp(Refused::Unfit(self.far)));
                '?'
            }
        }
    }

    /// Whether white space stands first.
    pub fn looks_at_white(&mut self) -> bool
        ensures { Looked result self.old self.new (at_tokens (white ∷ [])) }
    {
        if self.end.is_some() {
            return false;
        }
        let looked = look_at_white(self.rest);
        self.far = self.far.min(looked.seen);
        looked.stands
    }

    /// Reads white space, of at least one character.
    #[tactic(auto, unfolding(crate::specs::Reading::read_one))]
    pub fn white(&mut self)
        ensures { Ran nothing self.old self.new (read_one white) }
    {
        if self.end.is_some() {
            return;
        }
        let found = find_white(self.rest);
        self.far = self.far.min(found.seen);
        match found.behind {
            Some(behind) => self.rest = behind,
            None => self.end = Some(End::GaveUp(Refused::Unfit(self.far))),
        }
    }

    /// Reads white space of any number of characters.
    #[tactic(auto, unfolding(crate::specs::Reading::read_one))]
    pub fn blank(&mut self)
        ensures { Ran nothing self.old self.new (read_one blank) }
    {
        if self.end.is_some() {
            return;
        }
        self.rest = behind_white(self.rest);
        self.far = self.far.min(self.rest.len());
    }

    /// Reads nothing, where neither a name begins nor white space stands.
    #[tactic(auto, unfolding(crate::specs::Reading::read_one))]
    pub fn no_attribute(&mut self)
        ensures { Ran nothing self.old self.new (read_one no_attribute) }
    {
        if self.end.is_some() {
            return;
        }
        self.far = self.far.min(self.rest.len());
        if let [character, ..] = self.rest {
            if begins_attribute(*character) {
                self.end = Some(End::GaveUp(Refused::Unfit(self.far)));
            }
        }
    }

    /// Reads the name of an end tag, which has these characters.
    #[tactic(auto, unfolding(crate::specs::Reading::read_one))]
    pub fn tag_name(&mut self, letters: &[char])
        ensures { Ran nothing self.old self.new (read_one (tag_name letters.now)) }
    {
        if self.end.is_some() {
            return;
        }
        let found = find_tag_name(letters, self.rest);
        self.far = self.far.min(found.seen);
        match found.behind {
            Some(behind) => self.rest = behind,
            None => self.end = Some(End::GaveUp(Refused::Unfit(self.far))),
        }
    }

    /// Reads a `<` with the start of a name, which may not stand.
    #[tactic(auto, unfolding(crate::specs::Reading::read_one))]
    pub fn no_element(&mut self)
        ensures read { Ran nothing self.old self.new (read_one no_element) }
        ensures ended { IsDone self.new }
    {
        if self.end.is_some() {
            return;
        }
        let seen = find_only(Word::TagOpen, self.rest).seen;
        self.far = self.far.min(seen);
        let refused = if starts_element(self.rest) {
            Refused::Limit(self.rest.len())
        } else {
            Refused::Unfit(self.far)
        };
        self.end = Some(End::GaveUp(refused));
    }

    /// Reads the characters of a CDATA section with the two `]` behind them, and adds them without these.
    pub fn cdata(&mut self, builder: &mut TextBuilder)
        ensures { Added builder.old builder.new (λ cs. Ran (characters cs) self.old self.new (read_one cdata_text)) }
    {
        if self.end.is_some() {
            return;
        }
        let behind = behind_cdata(self.rest);
        self.far = self.far.min(behind.len());
        let count = self.rest.len().saturating_sub(behind.len());
        if count == 0 {
            self.end = Some(End::GaveUp(Refused::Unfit(self.far)));
            return;
        }
        match push_characters(builder, &self.rest[..count.saturating_sub(2)]) {
            Ok(_) => self.rest = behind,
            Err(_) => self.end = Some(End::Lost),
        }
    }

    /// Whether a piece of an attribute value with these quotes stands first.
    pub fn looks_at_value_piece(&mut self, quote: Quote) -> bool
        ensures { Looked result self.old self.new (at_tokens (value_pieces_of quote)) }
    {
        if self.end.is_some() {
            return false;
        }
        let looked = look_at_value_piece(quote, self.rest);
        self.far = self.far.min(looked.seen);
        looked.stands
    }

    /// Whether a piece of the content of an element at that level stands first.
    pub fn looks_at_content_piece(&mut self, levels: u8) -> bool
        ensures { Looked result self.old self.new (at_tokens (content_pieces_of (start_of levels))) }
    {
        if self.end.is_some() {
            return false;
        }
        let looked = look_at_content_piece(levels, self.rest);
        self.far = self.far.min(looked.seen);
        looked.stands
    }

    /// Whether a name with a `{` behind its gap stands first.
    pub fn looks_at_constructor(&mut self) -> bool
        ensures { Looked result self.old self.new (at_tokens (constructor ∷ [])) }
    {
        if self.end.is_some() {
            return false;
        }
        let looked = look_at_constructor(self.rest);
        self.far = self.far.min(looked.seen);
        looked.stands
    }

    /// Reads a name with the `{` behind its gap.
    #[tactic(auto, unfolding(crate::specs::Reading::read_one))]
    pub fn constructor(&mut self, alloc: Global) -> Option<ReadName>
        ensures { Gave name_made result self.old self.new (read_one constructor) }
    {
        if self.end.is_some() {
            return None;
        }
        let Ok(found) = find_constructor(alloc, &mut self.parts, self.rest) else {
            self.end = Some(End::Lost);
            return None;
        };
        self.far = self.far.min(found.seen);
        match found.name {
            Some((name, behind)) => {
                self.rest = behind;
                Some(name)
            }
            None => {
                self.end = Some(End::GaveUp(Refused::Unfit(self.far)));
                None
            }
        }
    }

    /// Reads nothing, where neither such a name stands nor one that is no keyword.
    #[tactic(auto, unfolding(crate::specs::Reading::read_one))]
    pub fn no_constructor(&mut self)
        ensures { Ran nothing self.old self.new (read_one no_constructor) }
    {
        if self.end.is_some() {
            return;
        }
        let looked = look_at_constructor(self.rest);
        self.far = self.far.min(looked.seen);
        if starts_constructor(self.rest) {
            self.end = Some(End::GaveUp(Refused::Unfit(self.far)));
        }
    }
}
