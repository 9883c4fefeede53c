// Why a document is not valid.

use gx_base::text::Text;
use std::alloc::AllocError;

/// The rules of validity (XML Schema 1.0 part 1, sections 2.6, 3.3.4, 3.4.4 and 3.14.4).
#[derive(Clone, Copy, Debug, PartialEq, Eq)]
pub enum InvalidRule {
    /// The root has another name than the one that is asked for.
    WrongRoot,
    /// The children are none that the content of the element's type takes.
    WrongContent,
    /// The element lacks an attribute that its type requires.
    MissingAttribute,
    /// The element has an attribute that its type does not allow.
    ExtraAttribute,
    /// The text of the element, or the value of an attribute, is none of its simple type.
    BadSimpleValue,
    /// The attribute `xsi:type` names no type that is derived from the declared one.
    BadXsiType,
    /// A text stands where elements alone may stand, or nothing.
    TextInElementContent,
    /// The element has the attribute `xsi:nil`, and no element is nillable.
    Nil,
}

/// The first rule that a document breaks, with the path of the element that breaks it; or memory is wanting. A path has for each
/// element from the root a step `/name[k]`: its name as it is written, and its number among the siblings of that expanded name.
#[derive(Drop)]
pub enum Invalid {
    Refused { rule: InvalidRule, path: Text },
    Memory,
}

impl From<AllocError> for Invalid {
    ghost use Rattle.std.specs.Prelude.{◌≡◌};
    ghost use Rattle.gx_validate.specs.declared.invalid.Invalid.TheVariants.{Memory};

    ghost from_gives = { λ _ e. e ≡ Memory };

    fn from(_error: AllocError) -> Invalid {
        Invalid::Memory
    }
}
