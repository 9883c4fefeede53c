// Characters, one after another.

ghost use Rattle.std.specs.Prelude.{◌≡◌, [], ◌∷◌, ◌<◌, length, IfNone, IfSome, OnSome};
ghost use Rattle.std.specs.Str.{chars, IsUtf8};
ghost use Rattle.std.specs.Str.Iter.{chars_rest};
ghost use Rattle.gx_base.specs.NameCharacters.{is_ncname_character, is_ncname_start, is_xml_character, lies_between};
ghost use Rattle.gx_base.specs.WhiteSpace.{is_white_space};

use std::str::Chars;

/// Takes the next character of a text.
pub fn next_character(rest: &mut Chars<'_>) -> Option<char>
    requires { IsUtf8 (chars_rest rest.old) }
    ensures text { IsUtf8 (chars_rest rest.new) }
    ensures end { IfNone result (chars (chars_rest rest.old) ≡ []) }
    ensures next { IfSome result (λ c. chars (chars_rest rest.old) ≡ c ∷ chars (chars_rest rest.new)) }
    ensures shorter { OnSome result (length (chars_rest rest.new) < length (chars_rest rest.old)) }
{
    rest.next()
}

/// Whether the character is white space: a space, a tab, a line feed or a carriage return (XML 1.0, section 2.3).
pub fn is_white_space(character: char) -> bool
    ensures { result ≡ is_white_space character }
{
    matches!(character, ' ' | '\t' | '\n' | '\r')
}

// Whether the character lies between two, which count as well.
fn lies(low: u32, high: u32, c: char) -> bool
    ensures { result ≡ lies_between low high c }
{
    let code = c as u32;
    low <= code && code <= high
}

/// Whether an NCName may begin with the character (Namespaces in XML 1.0, section 3).
#[tactic(auto, unfolding(crate::specs::NameCharacters::is_ncname_start))]
pub fn is_name_start(c: char) -> bool
    ensures { result ≡ is_ncname_start c }
{
    lies(97, 122, c)
        || lies(65, 90, c)
        || c == '_'
        || lies(192, 214, c)
        || lies(216, 246, c)
        || lies(248, 767, c)
        || lies(880, 893, c)
        || lies(895, 8191, c)
        || lies(8204, 8205, c)
        || lies(8304, 8591, c)
        || lies(11264, 12271, c)
        || lies(12289, 55295, c)
        || lies(63744, 64975, c)
        || lies(65008, 65533, c)
        || lies(65536, 983039, c)
}

/// Whether an NCName may have the character behind its first one.
#[tactic(auto, unfolding(crate::specs::NameCharacters::is_ncname_character))]
pub fn is_name_character(c: char) -> bool
    ensures { result ≡ is_ncname_character c }
{
    is_name_start(c)
        || lies(48, 57, c)
        || c == '-'
        || c == '.'
        || c == '\u{b7}'
        || lies(768, 879, c)
        || lies(8255, 8256, c)
}

/// Whether the character is a Char (XML 1.0, section 2.2).
#[tactic(auto, unfolding(crate::specs::NameCharacters::is_xml_character))]
pub fn is_char(c: char) -> bool
    ensures { result ≡ is_xml_character c }
{
    lies(32, 55295, c)
        || c == '\t'
        || c == '\n'
        || c == '\r'
        || lies(57344, 65533, c)
        || lies(65536, 1114111, c)
}
