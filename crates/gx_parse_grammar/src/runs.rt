// Where literal text stands, and what it stands between.

ghost use Rattle.std.specs.Prelude.{◌≡◌};
ghost use Rattle.gx_parse_grammar.specs.References.{prefix_of, quote_of};
ghost use Rattle.gx_parse_grammar.specs.Strings.{closing_of, doubled_of, opening_of};

use crate::word::Word;

/// The quotes round a string literal or an attribute value.
#[derive(Clone, Copy, PartialEq, Eq)]
pub enum Quote {
    /// `"`.
    Double,
    /// `'`.
    Single,
}

/// Where literal text stands.
#[derive(Clone, Copy, PartialEq, Eq)]
pub enum Run {
    /// In a string literal with these quotes.
    String(Quote),
    /// In the value of a direct attribute with these quotes.
    Attribute(Quote),
    /// In the content of a direct element.
    Content,
}

/// How the number of a character reference is written.
#[derive(Clone, Copy, PartialEq, Eq)]
pub enum Radix {
    Decimal,
    Hexadecimal,
}

impl Radix {
    /// What a reference begins with (XML 1.0, section 4.1).
    pub fn prefix(self) -> &'static [char]
        ensures { result.now ≡ prefix_of self }
    {
        match self {
            Radix::Decimal => &['&', '#'],
            Radix::Hexadecimal => &['&', '#', 'x'],
        }
    }
}

impl Quote {
    /// The character.
    pub fn symbol(self) -> char
        ensures { result ≡ quote_of self }
    {
        match self {
            Quote::Double => '"',
            Quote::Single => '\'',
        }
    }

    /// The quote in front.
    pub fn opening(self) -> Word
        ensures { result ≡ opening_of self }
    {
        match self {
            Quote::Double => Word::Quote,
            Quote::Single => Word::Apostrophe,
        }
    }

    /// The quote behind.
    pub fn closing(self) -> Word
        ensures { result ≡ closing_of self }
    {
        match self {
            Quote::Double => Word::QuoteEnd,
            Quote::Single => Word::ApostropheEnd,
        }
    }

    /// Two quotes, which stand for one.
    pub fn doubled(self) -> Word
        ensures { result ≡ doubled_of self }
    {
        match self {
            Quote::Double => Word::TwoQuotes,
            Quote::Single => Word::TwoApostrophes,
        }
    }
}
