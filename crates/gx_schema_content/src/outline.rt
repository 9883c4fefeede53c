// What is seen of contents without writing them out.

ghost use Rattle.std.specs.Prelude.{◌≡◌};
ghost use Rattle.gx_schema_content.specs.Outlines.{bounded_outline, chosen_outlines, empty_outline, is_empty_outline, joined_outlines, unknown_outline};

use gx_schema_components::component::Bounds;

/// What is seen of a content of any number of positions, which is not written out.
#[derive(Clone, Copy)]
pub enum Outline {
    /// It is none, as a choice without members is.
    Never,
    /// It is empty.
    Empty,
    /// It holds more.
    Filled,
}

impl Outline {
    /// The outline of a content and one behind it.
    pub fn joined(self, second: Outline) -> Outline
        ensures { result ≡ joined_outlines self second }
    {
        match (self, second) {
            (Outline::Never, _) | (Outline::Filled, Outline::Never) => Outline::Never,
            (Outline::Empty, second) => second,
            (Outline::Filled, _) => Outline::Filled,
        }
    }

    /// The outline of a choice of two contents.
    pub fn or(self, other: Outline) -> Outline
        ensures { result ≡ chosen_outlines self other }
    {
        match (self, other) {
            (Outline::Filled, _) | (_, Outline::Filled) => Outline::Filled,
            (Outline::Never, Outline::Never) => Outline::Never,
            _ => Outline::Empty,
        }
    }

    /// The outline of a content as often as bounds say.
    pub fn bounded(self, bounds: Bounds) -> Outline
        ensures { result ≡ bounded_outline bounds self }
    {
        if bounds.greatest == Some(0) {
            return Outline::Empty;
        }
        match self {
            Outline::Never if bounds.least == 0 => Outline::Empty,
            outline => outline,
        }
    }

    /// Whether a content of this outline is empty.
    pub fn is_empty(self) -> bool
        ensures { result ≡ is_empty_outline self }
    {
        matches!(self, Outline::Empty)
    }
}

/// What is seen of the content that a type comes to, and whether texts are allowed in it.
#[derive(Clone, Copy)]
pub struct TypeOutline {
    pub content: Outline,
    pub mixed: bool,
}

impl TypeOutline {
    /// That of a type without elements and texts.
    pub fn empty() -> TypeOutline
        ensures { result ≡ empty_outline }
    {
        TypeOutline {
            content: Outline::Empty,
            mixed: false,
        }
    }

    /// What is put for a type whose content is not known.
    pub fn unknown() -> TypeOutline
        ensures { result ≡ unknown_outline }
    {
        TypeOutline {
            content: Outline::Never,
            mixed: false,
        }
    }
}
