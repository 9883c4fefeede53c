// Characters of a text in UTF-8.

ghost use Rattle.std.specs.Prelude.{◌≡◌, ◌∷◌, ◌++◌, [], ◌==◌, IfSome, IsNone, length, take, bytes_eq};
ghost use Rattle.std.specs.Str.{chars};
ghost use Rattle.gx_xml.specs.Beginnings.{begins_character};

use gx_base::characters::next_character;

/// Characters that stand behind one another in a text, and how many they are.
#[derive(Clone, Copy)]
pub struct Characters<'a> {
    pub text: &'a str,
    pub count: usize,
    pub ghost counted: { count ≡ length (chars text.now) },
}

// The first character of a text, and what is behind it.
fn first_of(text: &str) -> Option<(char, &str)>
    ensures some { IfSome result (λ r. chars text.now ≡ r.0 ∷ chars r.1.now) }
    ensures none { IsNone result → chars text.now ≡ [] }
{
    let mut rest = text.chars();
    match next_character(&mut rest) {
        Some(character) => Some((character, rest.as_str())),
        None => None,
    }
}

// Whether a character begins with the byte.
fn begins_character(byte: u8) -> bool
    ensures { result ≡ begins_character byte }
{
    !(128 <= byte && byte <= 191)
}

/// How many characters a text has.
pub fn count_of(text: &str) -> usize
    ensures { result ≡ length (chars text.now) }
{
    let bytes = text.as_bytes();
    let mut count = 0;
    for byte in bytes {
        if begins_character(*byte) {
            count += 1;
        }
    }
    count
}

// What stands in front of the last part of a text, where this is so many characters.
fn front_of<'a>(text: &'a str, behind: &str, count: usize) -> &'a str
    requires { chars text.now ≡ take count (chars text.now) ++ chars behind.now }
    ensures { chars result.now ≡ take count (chars text.now) }
{
    let (front, _) = text.split_at(text.len() - behind.len());
    front
}

impl<'a> Characters<'a> {
    ghost use Rattle.gx_xml.specs.Characters.{spelled};

    /// The characters of a text.
    pub fn new(text: &'a str) -> Characters<'a>
        ensures { spelled result ≡ chars text.now }
    {
        let count = count_of(text);
        Characters { text, count }
    }

    /// No characters.
    pub fn none() -> Characters<'a>
        ensures { spelled result ≡ [] }
    {
        Characters { text: "", count: 0 }
    }

    /// How many characters there are.
    pub fn len(self) -> usize
        ensures { result ≡ length (spelled self.entry) }
    {
        self.count
    }

    /// Whether there are none.
    pub fn is_empty(self) -> bool
        ensures { result ≡ (length (spelled self.entry) == 0) }
    {
        self.count == 0
    }

    /// The first character, and those behind it.
    pub fn first(self) -> Option<(char, Characters<'a>)>
        ensures some { IfSome result (λ r. spelled self.entry ≡ r.0 ∷ spelled r.1) }
        ensures none { IsNone result → spelled self.entry ≡ [] }
    {
        let (character, text) = first_of(self.text)?;
        let count = self.count - 1;
        Some((character, Characters { text, count }))
    }

    /// The first characters, so many, behind which others stand.
    pub fn front(self, count: usize, behind: Characters<'_>) -> Characters<'a>
        requires { spelled self ≡ take count (spelled self) ++ spelled behind }
        ensures { spelled result ≡ take count (spelled self.entry) }
    {
        let text = front_of(self.text, behind.text, count);
        let count = self.count - behind.count;
        Characters { text, count }
    }

    /// The first characters, at most so many.
    pub fn up_to(self, most: usize) -> Characters<'a>
        ensures { spelled result ≡ take most (spelled self.entry) }
    {
        let mut count = 0;
        let mut rest = self;
        while count < most {
            let Some((_, behind)) = rest.first() else {
                break;
            };
            rest = behind;
            count += 1;
        }
        self.front(count, rest)
    }
}
