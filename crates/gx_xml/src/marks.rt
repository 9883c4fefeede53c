// What decides how a document goes on.

ghost use Rattle.gx_xml.specs.declared.marks.Mark.TheVariants.{Declaration, Open, Reference};
ghost use Rattle.gx_xml.specs.Marks.{is_item, is_misc, maybe_words};
ghost use Rattle.std.specs.Prelude.{◌≡◌, ◌↔◌, IsTrue};

use crate::runs::{Base, Quote};

/// The words between which a document chooses.
#[derive(Clone, Copy)]
pub enum Choice {
    /// The beginning of the XML declaration, with a white space character.
    DeclarationStart,
    /// What may stand behind a part of the XML declaration: its end; behind white space also `standalone`, and `encoding` if
    /// it was not there.
    Declaration {
        spaced: bool,
        encoding: bool,
    },
    /// A quote.
    Quote,
    /// UTF-8 in any case of letters.
    Encoding,
    /// `yes` or `no`.
    Answer,
    /// In front of the root: a comment, a processing instruction, the root.
    Prolog,
    /// Behind the root: a comment, a processing instruction.
    Epilog,
    /// The end of a start tag or of an empty-element tag.
    TagEnd,
    /// In a value: the closing quote, if it may stand there, and a reference, if it may.
    Value {
        quote: Quote,
        closes: bool,
        refers: bool,
    },
    /// Behind `&`: the number sign of a character reference, and the named entities, if they may stand there.
    Reference {
        named: bool,
    },
    /// What stands behind character data.
    Content,
}

/// Words of which none need stand there.
#[derive(Clone, Copy)]
pub enum Maybe {
    /// The beginning of the XML declaration.
    DeclarationStart,
    /// What may stand behind the root.
    Epilog,
}

impl Maybe {
    /// The words.
    pub fn choice(self) -> Choice
        ensures { result ≡ maybe_words self }
    {
        match self {
            Maybe::DeclarationStart => Choice::DeclarationStart,
            Maybe::Epilog => Choice::Epilog,
        }
    }
}

/// What a word says.
#[derive(Clone, Copy)]
pub enum Mark {
    /// A word of which only one says how to go on.
    Only,
    Declaration,
    Encoding,
    Standalone,
    Quote(Quote),
    Comment,
    Instruction,
    CData,
    Reference,
    StartTag,
    EndTag,
    Open,
    Empty,
    /// A character, for which a named entity stands.
    Character(char),
    Numeral(Base),
}

impl Mark {
    /// Whether it says that a reference follows.
    pub fn is_reference(self) -> bool
        ensures { IsTrue result ↔ (self ≡ Reference) }
    {
        match self {
            Mark::Reference => true,
            _ => false,
        }
    }

    /// Whether it says that a start tag ends, behind which content stands.
    pub fn is_open(self) -> bool
        ensures { IsTrue result ↔ (self ≡ Open) }
    {
        match self {
            Mark::Open => true,
            _ => false,
        }
    }

    /// Whether more content follows.
    pub fn is_item(self) -> bool
        ensures { result ≡ is_item self }
    {
        match self {
            Mark::Comment => true,
            Mark::Instruction => true,
            Mark::CData => true,
            Mark::Reference => true,
            Mark::StartTag => true,
            _ => false,
        }
    }

    /// Whether it says that a comment or a processing instruction begins.
    pub fn is_misc(self) -> bool
        ensures { result ≡ is_misc self }
    {
        match self {
            Mark::Comment => true,
            Mark::Instruction => true,
            _ => false,
        }
    }

    /// Whether it says that an XML declaration begins.
    pub fn is_declaration(self) -> bool
        ensures { IsTrue result ↔ (self ≡ Declaration) }
    {
        match self {
            Mark::Declaration => true,
            _ => false,
        }
    }
}
