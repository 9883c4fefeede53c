// A reader of the tokens of documents, which gives up for good. Having given up it does nothing more, and what its steps
// answer then counts for nothing.

ghost use Rattle.gx_grammar.specs.Ran.{IsDone, Ran, left_of};
ghost use Rattle.gx_grammar.specs.Reading.{start};
ghost use Rattle.gx_grammar.specs.Value.{characters, nothing};
ghost use Rattle.gx_xml.specs.Nodes.{mark_value};
ghost use Rattle.gx_xml.specs.declared.marks.Mark.TheVariants.{Only};
ghost use Rattle.gx_xml.specs.Standings.{HasEndedWith, code_of_fault, read_document_token};
ghost use Rattle.gx_tree.specs.Binding.{xmlns};
ghost use Rattle.gx_xml.specs.Tokens.{choice, declared_prefix, is_target, maybe_choice, maybe_run, names_character, numeral_value, numeral, prolog_mark, run, symbol, tag_end, target};
ghost use Rattle.gx_xml.specs.Characters.{spelled};
ghost use Rattle.std.specs.Str.{chars};
ghost use Rattle.std.specs.Prelude.{◌≡◌, ◌≤◌, ◌<◌, ◌⊎◌, ◌↔◌, IfSome, IsNone, IsSome, IsTrue, bytes_eq, false, true, length};

use crate::characters::Characters;
use crate::marks::{Choice, Mark, Maybe};
use crate::refusal::XmlRule;
use crate::runs::{Base, Run};
use crate::scan::{find_run, find_spelling, find_symbol, find_word};
use gx_base::characters::is_char;
use std::marker::Model;

// The beginning of a document type declaration.
const DOCTYPE: [char; 9] = ['<', '!', 'D', 'O', 'C', 'T', 'Y', 'P', 'E'];

// Whether the name is not `xml` in any case of letters.
fn is_target(name: Characters<'_>) -> bool
    ensures { result ≡ is_target (spelled name.entry) }
{
    let Some((x, behind)) = name.first() else {
        return true;
    };
    let Some((m, behind)) = behind.first() else {
        return true;
    };
    let Some((l, behind)) = behind.first() else {
        return true;
    };
    if !behind.is_empty() {
        return true;
    }
    !((x == 'x' || x == 'X') && (m == 'm' || m == 'M') && (l == 'l' || l == 'L'))
}

/// Whether the name is `xmlns`.
pub fn is_xmlns(name: Characters<'_>) -> bool
    ensures { result ≡ bytes_eq (spelled name.entry) xmlns }
{
    is_text_xmlns(name.text)
}

fn is_text_xmlns(text: &str) -> bool
    ensures { result ≡ bytes_eq (chars text.now) xmlns }
{
    text == "xmlns"
}

// The character with the number, if it is a Char, and the expected one.
fn named_character(expected: Option<char>, number: u32) -> Option<char>
    ensures none { IsNone result → names_character expected number ≡ false }
    ensures some { IfSome result (λ c. (c ≡ number) × (names_character expected number ≡ true)) }
{
    let character = char::from_u32(number)?;
    if !is_char(character) {
        return None;
    }
    match expected {
        None => Some(character),
        Some(other) if other == character => Some(character),
        Some(_) => None,
    }
}

/// Why a reader reads nothing more.
#[derive(Clone, Copy)]
pub enum End {
    /// Nothing fits behind the furthest character, of which so many are left.
    Unfit(usize),
    /// The rule refuses what stands where so many characters are left.
    Faulty(XmlRule, usize),
}

/// What is left of a text, how many characters are left behind the furthest one that fitted so far, and whether reading
/// has ended.
#[derive(Drop)]
pub struct Reader<'a> {
    rest: Characters<'a>,
    far: usize,
    end: Option<End>,
}

impl<'a> Model for Reader<'a> {
    ghost use Rattle.gx_grammar.specs.Ran.{Standing};
    ghost use Rattle.gx_xml.specs.Characters.{spelled};
    ghost use Rattle.gx_xml.specs.Standings.{document_standing};

    ghost Value = { Standing };

    ghost view = { λ r. document_standing (spelled r.rest) r.far r.end };
}

impl<'a> Reader<'a> {
    ghost use Rattle.gx_grammar.specs.Ran.{Going};

    /// A reader at the front of a text.
    pub fn new(text: Characters<'a>) -> Reader<'a>
        ensures { result ≡ Going (start (spelled text.entry)) }
    {
        Reader {
            rest: text,
            far: text.len(),
            end: None,
        }
    }

    /// Reads a run from a state on.
    #[tactic(auto, unfolding(crate::specs::Standings::read_document_token))]
    pub fn run(&mut self, kind: Run, state: u32) -> Characters<'a>
        requires { state ≤ 1114111 }
        ensures read { Ran (characters (spelled result)) self.old self.new (read_document_token (run kind state)) }
        ensures shrinks { left_of self.new ≤ left_of self.old }
    {
        if self.end.is_some() {
            return Characters::none();
        }
        let found = find_run(kind, state, self.rest);
        self.far = self.far.min(found.behind.len());
        if found.run.is_empty() {
            self.end = Some(End::Unfit(self.far));
        } else {
            self.rest = found.behind;
        }
        found.run
    }

    /// Reads a run from a state on, if there is one.
    #[tactic(auto, unfolding(crate::specs::Standings::read_document_token))]
    pub fn maybe_run(&mut self, kind: Run, state: u32) -> Characters<'a>
        requires { state ≤ 1114111 }
        ensures read { Ran (characters (spelled result)) self.old self.new (read_document_token (maybe_run kind state)) }
        ensures shrinks { left_of self.new ≤ left_of self.old }
    {
        if self.end.is_some() {
            return Characters::none();
        }
        let found = find_run(kind, state, self.rest);
        self.far = self.far.min(found.behind.len());
        self.rest = found.behind;
        found.run
    }

    /// Reads the target of a processing instruction.
    #[tactic(auto, unfolding(crate::specs::Standings::read_document_token))]
    pub fn target(&mut self) -> Characters<'a>
        ensures read { Ran (characters (spelled result)) self.old self.new (read_document_token target) }
        ensures shrinks { left_of self.new ≤ left_of self.old }
    {
        if self.end.is_some() {
            return Characters::none();
        }
        let found = find_run(Run::Name, 0, self.rest);
        self.far = self.far.min(found.behind.len());
        if found.run.is_empty() || !is_target(found.run) {
            self.end = Some(End::Unfit(self.far));
        } else {
            self.rest = found.behind;
        }
        found.run
    }

    /// Reads a prefix that may be declared.
    #[tactic(auto, unfolding(crate::specs::Standings::read_document_token))]
    pub fn declared_prefix(&mut self) -> Characters<'a>
        ensures read { Ran (characters (spelled result)) self.old self.new (read_document_token declared_prefix) }
        ensures shrinks { left_of self.new ≤ left_of self.old }
    {
        if self.end.is_some() {
            return Characters::none();
        }
        let found = find_run(Run::Name, 0, self.rest);
        self.far = self.far.min(found.behind.len());
        if found.run.is_empty() || is_xmlns(found.run) {
            self.end = Some(End::Unfit(self.far));
        } else {
            self.rest = found.behind;
        }
        found.run
    }

    /// Reads the digits of a character reference, and gives the character with them.
    #[tactic(auto, unfolding(crate::specs::Standings::read_document_token))]
    pub fn numeral(&mut self, base: Base, expected: Option<char>) -> (Characters<'a>, char)
        ensures read { Ran (characters (spelled result.0)) self.old self.new (read_document_token (numeral base expected)) }
        ensures number { IsDone self.new ⊎ (result.1 ≡ numeral_value base expected (spelled result.0)) }
        ensures shrinks { left_of self.new ≤ left_of self.old }
    {
        if self.end.is_some() {
            return (Characters::none(), '\0');
        }
        let found = find_run(Run::Numeral(base, expected), 0, self.rest);
        self.far = self.far.min(found.behind.len());
        if found.run.is_empty() {
            self.end = Some(End::Unfit(self.far));
            return (Characters::none(), '\0');
        }
        let Some(character) = named_character(expected, found.state) else {
            self.end = Some(End::Unfit(self.far));
            return (Characters::none(), '\0');
        };
        self.rest = found.behind;
        (found.run, character)
    }
}

impl Reader<'_> {
    /// How many characters are left.
    pub fn left(&self) -> usize
        ensures { result ≡ left_of self.now }
    {
        match self.end {
            None => self.rest.len(),
            Some(_) => 0,
        }
    }

    /// Whether reading has ended.
    pub fn has_ended(&self) -> bool
        ensures { IsTrue result ↔ IsDone self.now }
    {
        self.end.is_some()
    }

    /// How the reading of a whole text ended; none where nothing is left of it.
    pub fn outcome(&self) -> Option<End>
        ensures { HasEndedWith result self.now }
    {
        match self.end {
            Some(end) => Some(end),
            None if self.rest.is_empty() => None,
            None => Some(End::Unfit(self.far)),
        }
    }

    /// Reads a symbol.
    #[tactic(auto, unfolding(crate::specs::Standings::read_document_token))]
    pub fn symbol(&mut self, letters: &[char])
        ensures read { Ran nothing self.old self.new (read_document_token (symbol letters.now)) }
        ensures shrinks { left_of self.new ≤ left_of self.old }
    {
        if self.end.is_some() {
            return;
        }
        let found = find_symbol(letters, self.rest);
        self.far = self.far.min(found.seen);
        match found.behind {
            Some(behind) => self.rest = behind,
            None => self.end = Some(End::Unfit(self.far)),
        }
    }

    /// Reads a symbol of these characters.
    #[tactic(auto, unfolding(crate::specs::Standings::read_document_token))]
    pub fn spelling(&mut self, letters: Characters<'_>)
        ensures read { Ran nothing self.old self.new (read_document_token (symbol (spelled letters.entry))) }
        ensures shrinks { left_of self.new ≤ left_of self.old }
    {
        if self.end.is_some() {
            return;
        }
        let found = find_spelling(letters, self.rest);
        self.far = self.far.min(found.seen);
        match found.behind {
            Some(behind) => self.rest = behind,
            None => self.end = Some(End::Unfit(self.far)),
        }
    }

    /// Reads one of the words.
    #[tactic(auto, unfolding(crate::specs::Standings::read_document_token))]
    pub fn choice(&mut self, among: Choice) -> Mark
        ensures read { Ran (mark_value result) self.old self.new (read_document_token (choice among)) }
        ensures shrinks { left_of self.new ≤ left_of self.old }
        ensures shorter { IsDone self.new ⊎ (left_of self.new < left_of self.old) }
    {
        if self.end.is_some() {
            return Mark::Only;
        }
        let found = find_word(among, self.rest);
        self.far = self.far.min(found.seen);
        match found.word {
            Some((mark, behind)) => {
                self.rest = behind;
                mark
            }
            None => {
                self.end = Some(End::Unfit(self.far));
                Mark::Only
            }
        }
    }

    /// Reads one of the words, if one stands there.
    #[tactic(auto, unfolding(crate::specs::Standings::read_document_token))]
    pub fn maybe_choice(&mut self, among: Maybe) -> Mark
        ensures read { Ran (mark_value result) self.old self.new (read_document_token (maybe_choice among)) }
        ensures shrinks { left_of self.new ≤ left_of self.old }
        ensures shorter { (result ≡ Only) ⊎ (left_of self.new < left_of self.old) }
    {
        if self.end.is_some() {
            return Mark::Only;
        }
        let found = find_word(among.choice(), self.rest);
        self.far = self.far.min(found.seen);
        match found.word {
            Some((mark, behind)) => {
                self.rest = behind;
                mark
            }
            None => Mark::Only,
        }
    }

    /// Reads the end of a tag, if it has no fault.
    #[tactic(auto, unfolding(crate::specs::Standings::read_document_token))]
    pub fn tag_end(&mut self, fault: Option<XmlRule>) -> Mark
        ensures read { Ran (mark_value result) self.old self.new (read_document_token (tag_end (code_of_fault fault))) }
        ensures shrinks { left_of self.new ≤ left_of self.old }
        ensures faulty { IsSome fault → IsDone self.new }
    {
        if self.end.is_some() {
            return Mark::Only;
        }
        let found = find_word(Choice::TagEnd, self.rest);
        let Some((mark, behind)) = found.word else {
            self.far = self.far.min(found.seen);
            self.end = Some(End::Unfit(self.far));
            return Mark::Only;
        };
        if let Some(rule) = fault {
            self.end = Some(End::Faulty(rule, self.rest.len()));
            return Mark::Only;
        }
        self.far = self.far.min(found.seen);
        self.rest = behind;
        mark
    }

    /// Reads what may stand in front of the root.
    #[tactic(auto, unfolding(crate::specs::Standings::read_document_token))]
    pub fn prolog_mark(&mut self) -> Mark
        ensures read { Ran (mark_value result) self.old self.new (read_document_token prolog_mark) }
        ensures shrinks { left_of self.new ≤ left_of self.old }
        ensures shorter { IsDone self.new ⊎ (left_of self.new < left_of self.old) }
    {
        if self.end.is_some() {
            return Mark::Only;
        }
        if find_symbol(&DOCTYPE, self.rest).behind.is_some() {
            self.end = Some(End::Faulty(XmlRule::Doctype, self.rest.len()));
            return Mark::Only;
        }
        let found = find_word(Choice::Prolog, self.rest);
        self.far = self.far.min(found.seen);
        match found.word {
            Some((mark, behind)) => {
                self.rest = behind;
                mark
            }
            None => {
                self.end = Some(End::Unfit(self.far));
                Mark::Only
            }
        }
    }
}
