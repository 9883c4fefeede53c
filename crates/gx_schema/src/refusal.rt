// Refusals of schema files.

use gx_base::text::Text;
use gx_types::shape::Shape;
use std::alloc::AllocError;

/// The rules that schema files keep to: no construct is outside the profile of XML Schema that is read; each name is declared;
/// declarations agree; a restriction allows nothing that its base does not; no declaration is part of itself; nothing passes a limit;
/// and restrictions can be judged within the limit on pairs (XML Schema 1.0 part 1, sections 3.4.6, 3.6.6, 3.8.6 and 3.14.6).
#[derive(Clone, Copy, Debug, PartialEq, Eq)]
pub enum SchemaRule {
    NotInProfile,
    UnknownName,
    Inconsistent,
    NotARestriction,
    Circular,
    TooLarge,
    TooManyPairs,
}

/// Why schema files declare nothing: they break a rule, first in the file of this number, counted from 0, where the construct or the
/// declaration has this name; or memory is wanting. The list is empty but for a restriction: it has shapes that the content of the
/// type takes and that of its base does not, or the one attribute that is not allowed.
#[derive(Drop)]
pub enum SchemaRefusal {
    Refused {
        rule: SchemaRule,
        file: u32,
        name: Text,
        list: Vec<Shape>,
    },
    Memory,
}

impl From<AllocError> for SchemaRefusal {
    ghost use Rattle.std.specs.Prelude.{◌≡◌};
    ghost use Rattle.gx_schema.specs.declared.refusal.SchemaRefusal.TheVariants.{Memory};

    ghost from_gives = { λ _ e. e ≡ Memory };

    fn from(_error: AllocError) -> SchemaRefusal {
        SchemaRefusal::Memory
    }
}
