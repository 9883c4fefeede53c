// The place of a character in a text.

ghost use Rattle.gx_grammar.specs.Places.{IsPlaceAt, ends_line, place_at, place_behind, place_from};
ghost use Rattle.std.specs.Prelude.{◌≡◌, ◌≤◌, ◌<◌, ◌+◌, ◌-◌, ◌^◌, drop, length, List, ℕ};

use gx_base::place::Place;

fn ends_line(c: char, rest: &[char]) -> bool
    ensures { result ≡ ends_line c rest.now }
{
    match c {
        '\n' => true,
        '\r' => match rest.first() {
            Some(&next) => next != '\n',
            None => true,
        },
        _ => false,
    }
}

// The place behind the character c, where the text goes on with `rest`.
fn place_behind(place: Place, c: char, rest: &[char]) -> Place
    requires line { place.line < 2 ^ 32 - 1 }
    requires column { place.column < 2 ^ 32 - 1 }
    ensures { result ≡ place_behind place c rest.now }
{
    if ends_line(c, rest) {
        Place {
            line: place.line + 1,
            column: 1,
        }
    } else {
        Place {
            line: place.line,
            column: place.column + 1,
        }
    }
}

// The place at `end`, walked from the place at `begin`.
fn place_between(text: &[char], begin: usize, place: Place, end: usize) -> Place
    requires forward { begin ≤ end }
    requires within { end ≤ length text.now }
    requires numbered { length text.now < 2 ^ 32 - 1 }
    requires counted { place ≡ place_at text.now begin }
    ensures { result ≡ place_at text.now end }
{
    let mut place = place;
    for index in begin..end {
        place = place_behind(place, text[index], &text[index + 1..]);
    }
    place
}

/// The place of the character at a position, counted in characters from 0. The position may be the end of
/// the text. CR LF, CR and LF are one line end each (XQuery 1.0, appendix A.2.3; XML 1.0, section 2.11).
pub fn place_of(text: &[char], position: usize) -> Place
    requires within { position ≤ length text.now }
    requires numbered { length text.now < 2 ^ 32 - 1 }
    ensures { result ≡ place_at text.now position }
{
    place_between(text, 0, Place { line: 1, column: 1 }, position)
}

/// The place of a refusal, where `far` characters of the text are left behind the furthest one that fitted.
pub fn refusal_place(text: &[char], far: usize) -> Place
    requires within { far ≤ length text.now }
    requires numbered { length text.now < 2 ^ 32 - 1 }
    ensures { result ≡ place_at text.now (length text.now - far) }
{
    place_of(text, text.len() - far)
}

/// A position in a text that moves forward, and its place. The places of many positions, in their order, take
/// one walk over the text.
#[derive(Drop)]
pub struct PlaceWalk<'a> {
    pub text: &'a [char],
    pub position: usize,
    pub place: Place,
    pub ghost counted: { place ≡ place_at text.now position },
    pub ghost within: { position ≤ length text.now },
    pub ghost numbered: { length text.now < 2 ^ 32 - 1 },
}

impl<'a> PlaceWalk<'a> {
    /// A walk that begins at the first character.
    pub fn new(text: &'a [char]) -> Self
        requires { length text.now < 2 ^ 32 - 1 }
        ensures text { result.text.now ≡ text.now }
        ensures position { result.position ≡ 0 }
    {
        PlaceWalk {
            text,
            position: 0,
            place: Place { line: 1, column: 1 },
        }
    }

    /// Moves forward, and gives the place there.
    pub fn advance(&mut self, position: usize) -> Place
        requires forward { self.old.position ≤ position }
        requires inside { position ≤ length self.old.text.now }
        ensures place { result ≡ place_at self.old.text.now position }
        ensures moved { self.new.position ≡ position }
        ensures same { self.new.text.now ≡ self.old.text.now }
    {
        let place = place_between(self.text, self.position, self.place, position);
        self.position = position;
        self.place = place;
        place
    }
}

/// The place that a position has: its line is one more than the line ends before it, and its column one more
/// than the characters between the beginning of the line and it.
pub fn place_counts_lines()
    ensures { (text : List ℕ) (n : ℕ) → n ≤ length text → IsPlaceAt text n (place_at text n) }
{}
