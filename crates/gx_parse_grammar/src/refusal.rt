// Why a query is refused.

ghost use Rattle.std.specs.Prelude.{◌≡◌};

use gx_base::place::Place;
use std::alloc::AllocError;

/// The rules by which a query is refused.
#[derive(Clone, Copy, Debug, PartialEq, Eq)]
pub enum SyntaxRule {
    /// The bytes are not UTF-8. The place is that of the first character that cannot be read.
    NotUtf8,
    /// The text is outside the grammar. The place is that of the end of its longest front that a query may begin with.
    Syntax,
    /// An expression stands inside too many others, or a chain has too many members. The place is that of the first
    /// character of the first such expression or member.
    TooNested,
    /// A numeric literal is too large or too precise. The place is that of its first character.
    LiteralTooLarge,
    /// A character reference names no character. The place is that of its `&`.
    BadReference,
}

/// Why bytes have no syntax tree.
#[derive(Clone, Copy, PartialEq, Eq)]
pub enum SyntaxRefusal {
    /// A rule refuses them.
    Refused {
        /// The rule.
        rule: SyntaxRule,
        /// Where.
        place: Place,
    },
    /// Memory did not suffice.
    Memory,
}

impl From<AllocError> for SyntaxRefusal {
    ghost use Rattle.gx_parse_grammar.specs.declared.refusal.SyntaxRefusal.TheVariants.{Memory};

    ghost from_gives = { λ _ e. e ≡ Memory };

    fn from(_e: AllocError) -> SyntaxRefusal {
        SyntaxRefusal::Memory
    }
}
