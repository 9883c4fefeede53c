// Why a query is refused.

ghost use Rattle.std.specs.Prelude.{◌≡◌};
ghost use Rattle.gx_names_scope.specs.declared.refusal.NameRefusal.TheVariants as refusals;

use gx_base::code::Code;
use gx_base::place::Place;
use std::alloc::{AllocError, AllocFailed};

/// A refusal: its code, and its place.
#[derive(Clone, Copy, PartialEq, Eq)]
pub struct Refusal {
    pub code: Code,
    pub place: Place,
}

/// Why a query is not resolved: the first refusal, or want of memory.
#[derive(Clone, Copy, PartialEq, Eq)]
pub enum NameRefusal {
    Refused { code: Code, place: Place },
    Memory,
}

impl From<AllocError> for NameRefusal {
    ghost use Rattle.std.specs.Prelude.{◌≡◌};
    ghost use Rattle.gx_names_scope.specs.declared.refusal.NameRefusal.TheVariants.{Memory};

    ghost from_gives = { λ _ e. e ≡ Memory };

    fn from(_error: AllocError) -> NameRefusal {
        NameRefusal::Memory
    }
}

impl<T: Drop> From<AllocFailed<T>> for NameRefusal {
    ghost use Rattle.std.specs.Prelude.{◌≡◌};
    ghost use Rattle.gx_names_scope.specs.declared.refusal.NameRefusal.TheVariants.{Memory};

    ghost from_gives = { λ _ e. e ≡ Memory };

    fn from(_error: AllocFailed<T>) -> NameRefusal {
        NameRefusal::Memory
    }
}

/// A refusal of this code at this place.
pub fn refused(place: Place, code: Code) -> NameRefusal
    ensures { result ≡ refusals.Refused code place }
{
    NameRefusal::Refused { code, place }
}
