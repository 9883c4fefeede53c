// The characters that names and comments are made of.

ghost use Rattle.std.specs.Prelude.{◌≡◌};
ghost use Rattle.gx_typetext.specs.Letters.{goes, starts, stops};

use gx_base::characters::{is_name_character, is_name_start};

/// A run of characters: an NCName, or a URI in braces.
#[derive(Clone, Copy, PartialEq, Eq)]
pub enum Run {
    Local,
    Uri,
}

impl Run {
    /// Whether a run begins with the character.
    pub fn starts(self, c: char) -> bool
        ensures { result ≡ starts self c }
    {
        match self {
            Run::Local => is_name_start(c),
            Run::Uri => c != '}',
        }
    }

    /// Whether a run goes on with the character.
    pub fn goes(self, c: char) -> bool
        ensures { result ≡ goes self c }
    {
        match self {
            Run::Local => is_name_character(c),
            Run::Uri => c != '}',
        }
    }

    /// Whether the character may not stand behind a run.
    pub fn stops(self, c: char) -> bool
        ensures { result ≡ stops self c }
    {
        match self {
            Run::Local => c == ':',
            Run::Uri => false,
        }
    }
}
