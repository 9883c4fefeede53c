// Runs of characters.

ghost use Rattle.gx_base.specs.NameCharacters.{is_ncname_character, lies_between};
ghost use Rattle.std.specs.Prelude.{◌≡◌, ◌≤◌, ◌<◌, true};
ghost use Rattle.gx_xml.specs.Runs.{digit_of, is_digit_of, is_front_of, is_text_character, may_become, quote_character, radix, run_goes, run_next, spells_at};
ghost use Rattle.gx_xml.specs.declared.runs.Run.TheVariants.{Numeral, Text};
ghost use Rattle.gx_tree.specs.Binding.{xml_uri};

use gx_base::characters::{is_char, is_name_character, is_name_start, is_white_space};

/// The quotes round a value.
#[derive(Clone, Copy)]
pub enum Quote {
    Double,
    Single,
}

/// The base of a character reference (XML 1.0, section 4.1).
#[derive(Clone, Copy)]
pub enum Base {
    Decimal,
    Hexadecimal,
}

/// Runs of characters, each of which is as long as it can be.
#[derive(Clone, Copy)]
pub enum Run {
    /// White space.
    Space,
    /// An NCName.
    Name,
    /// One colon.
    Colon,
    /// One byte order mark.
    ByteOrderMark,
    /// Decimal digits.
    Digits,
    /// Character data in front of markup, a reference, or the `>` of `]]>`.
    Text,
    /// A CDATA section behind `<![CDATA[`, as far as the `]]` at its end.
    CData,
    /// A comment behind `<!--`, as far as the `--` at its end.
    Comment,
    /// A processing instruction behind its target and white space, as far as the `?` at its end.
    Instruction,
    /// Characters of a value in such quotes, in front of a reference.
    Value(Quote),
    /// The URI of the prefix `xml`, from the character on that the state counts.
    NamespaceOfXml,
    /// The digits of a character reference; where a character is expected, they can become the number of that one.
    Numeral(Base, Option<char>),
}

impl Quote {
    /// The character of the quote.
    pub fn character(self) -> char
        ensures { result ≡ quote_character self }
    {
        match self {
            Quote::Double => '"',
            Quote::Single => '\'',
        }
    }
}

impl Base {
    /// How many digits there are.
    pub fn radix(self) -> u32
        ensures value { result ≡ radix self }
        ensures small { result ≤ 16 }
    {
        match self {
            Base::Decimal => 10,
            Base::Hexadecimal => 16,
        }
    }

    fn has_digit(self, c: char) -> bool
        ensures { result ≡ is_digit_of self c }
    {
        match self {
            Base::Decimal => is_decimal_digit(c),
            Base::Hexadecimal => is_decimal_digit(c) || lies(65, 70, c) || lies(97, 102, c),
        }
    }
}

// Whether the character lies between two, which count as well.
fn lies(low: u32, high: u32, c: char) -> bool
    ensures { result ≡ lies_between low high c }
{
    let code = c as u32;
    low <= code && code <= high
}

fn is_decimal_digit(c: char) -> bool
    ensures { result ≡ lies_between 48 57 c }
{
    lies(48, 57, c)
}

// The value of a digit.
fn digit_value(c: char) -> u32
    requires { c < 128 }
    ensures value { result ≡ digit_of c }
    ensures small { result < 128 }
{
    let code = c as u32;
    if code <= 57 {
        code.saturating_sub(48)
    } else if code <= 70 {
        code.saturating_sub(55)
    } else {
        code.saturating_sub(87)
    }
}

// Whether a number is what is left of another where some of its last digits are taken away, at most so many.
fn is_front_of(radix: u32, count: u32, whole: u32, front: u32) -> bool
    requires { 0 < radix }
    ensures { result ≡ is_front_of radix count whole front }
{
    if count == 0 {
        return front == whole;
    }
    front == whole || is_front_of(radix, count - 1, whole / radix, front)
}

// Whether a number can become that of a character, and of the expected one.
fn may_become(radix: u32, expected: Option<char>, number: u32) -> bool
    requires { 0 < radix }
    ensures { result ≡ may_become radix expected number }
{
    match expected {
        None => number <= 1114111,
        Some(c) => number <= 1114111 && is_front_of(radix, 7, c as u32, number),
    }
}

// Whether the digit may stand behind those that make the number.
fn takes_digit(base: Base, expected: Option<char>, number: u32, c: char) -> bool
    requires { number ≤ 1114111 }
    ensures { result ≡ run_goes (Numeral base expected) number c }
{
    base.has_digit(c)
        && may_become(
            base.radix(),
            expected,
            number * base.radix() + digit_value(c),
        )
}

/// The URI of the prefix `xml`.
pub const XML_URI: [char; 36] = [
    'h', 't', 't', 'p', ':', '/', '/', 'w', 'w', 'w', '.', 'w', '3', '.', 'o', 'r', 'g', '/', 'X',
    'M', 'L', '/', '1', '9', '9', '8', '/', 'n', 'a', 'm', 'e', 's', 'p', 'a', 'c', 'e',
];

// Whether the character stands at a position of the characters.
fn stands_at(characters: &[char], position: usize, c: char) -> bool
    ensures { result ≡ spells_at characters.now position c }
{
    match characters.get(position) {
        Some(other) => *other == c,
        None => false,
    }
}

// Whether the character stands at a position of the URI of the prefix `xml`.
fn spells_xml_uri(position: u32, c: char) -> bool
    ensures { result ≡ spells_at xml_uri position c }
{
    stands_at(&XML_URI, position as usize, c)
}

// A Char but `<` and `&`.
fn is_text(c: char) -> bool
    ensures { result ≡ is_text_character c }
{
    is_char(c) && c != '<' && c != '&'
}

// Whether a character of ASCII may stand in a name behind its first one.
#[tactic(auto, unfolding(gx_base::specs::NameCharacters::is_ncname_start, gx_base::specs::NameCharacters::is_ncname_character))]
fn is_ascii_name_character(c: char) -> bool
    requires { c < 128 }
    ensures { result ≡ is_ncname_character c }
{
    lies(97, 122, c) || lies(65, 90, c) || lies(48, 57, c) || c == '_' || c == '-' || c == '.'
}

// Whether a character may stand in a name behind its first one. Those of ASCII, which most names have alone, need fewer tests.
fn may_stand_in_name(c: char) -> bool
    ensures { result ≡ is_ncname_character c }
{
    if c <= '\u{7f}' {
        is_ascii_name_character(c)
    } else {
        is_name_character(c)
    }
}

// How many brackets stand behind a character, two at most.
fn brackets(before: u32, c: char) -> u32
    ensures { result ≡ run_next Text before c }
{
    if c != ']' {
        0
    } else if before == 0 {
        1
    } else {
        2
    }
}

impl Run {
    /// Whether the character may stand in the run, behind characters with this state.
    pub fn goes(self, state: u32, c: char) -> bool
        requires { state ≤ 1114111 }
        ensures { result ≡ run_goes self state c }
    {
        match self {
            Run::Space => is_white_space(c),
            Run::Name => {
                if state == 0 {
                    is_name_start(c)
                } else {
                    may_stand_in_name(c)
                }
            }
            Run::Colon => state == 0 && c == ':',
            Run::ByteOrderMark => state == 0 && c == '\u{feff}',
            Run::Digits => is_decimal_digit(c),
            Run::Text => is_text(c) && !(state == 2 && c == '>'),
            Run::CData => is_char(c) && !(state == 2 && c == '>'),
            Run::Comment => is_char(c) && state != 2,
            Run::Instruction => is_char(c) && !(state == 1 && c == '>'),
            Run::Value(quote) => is_text(c) && c != quote.character(),
            Run::NamespaceOfXml => spells_xml_uri(state, c),
            Run::Numeral(base, expected) => takes_digit(base, expected, state, c),
        }
    }

    /// The state behind the character.
    pub fn next(self, state: u32, c: char) -> u32
        requires bounded { state ≤ 1114111 }
        requires goes { run_goes self state c ≡ true }
        ensures value { result ≡ run_next self state c }
        ensures bounded { result ≤ 1114111 }
    {
        match self {
            Run::Space | Run::Digits | Run::Value(_) => 0,
            Run::Name | Run::Colon | Run::ByteOrderMark => 1,
            Run::Text | Run::CData => brackets(state, c),
            Run::Comment => {
                if c != '-' {
                    0
                } else if state == 0 {
                    1
                } else {
                    2
                }
            }
            Run::Instruction => { if c == '?' { 1 } else { 0 } }
            Run::NamespaceOfXml => state + 1,
            Run::Numeral(base, _) => state * base.radix() + digit_value(c),
        }
    }
}
