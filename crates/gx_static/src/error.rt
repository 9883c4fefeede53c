// Why there is no type.

use gx_base::code::Code;
use gx_base::place::Place;
use std::alloc::{AllocError, AllocFailed};

/// Why a query has no type: an expression to which the static rules give none, or want of memory.
#[derive(Clone, Copy, PartialEq, Eq)]
pub enum InferError {
    NoType { place: Place, code: Code },
    Memory,
}

/// Why an operator has no type: its rule gives none, with a code that stands at a part, counted from 0, or at the operator
/// itself; or want of memory.
#[derive(Clone, Copy, Debug, PartialEq, Eq)]
pub enum RuleError {
    NoType { code: Code, part: Option<u32> },
    Memory,
}

impl From<AllocError> for InferError {
    ghost use Rattle.std.specs.Prelude.{◌≡◌};
    ghost use Rattle.gx_static.specs.declared.error.InferError.TheVariants.{Memory};

    ghost from_gives = { λ _ e. e ≡ Memory };

    fn from(_error: AllocError) -> InferError {
        InferError::Memory
    }
}

impl<T: Drop> From<AllocFailed<T>> for InferError {
    ghost use Rattle.std.specs.Prelude.{◌≡◌};
    ghost use Rattle.gx_static.specs.declared.error.InferError.TheVariants.{Memory};

    ghost from_gives = { λ _ e. e ≡ Memory };

    fn from(_error: AllocFailed<T>) -> InferError {
        InferError::Memory
    }
}

impl From<AllocError> for RuleError {
    ghost use Rattle.std.specs.Prelude.{◌≡◌};
    ghost use Rattle.gx_static.specs.declared.error.RuleError.TheVariants.{Memory};

    ghost from_gives = { λ _ e. e ≡ Memory };

    fn from(_error: AllocError) -> RuleError {
        RuleError::Memory
    }
}

impl<T: Drop> From<AllocFailed<T>> for RuleError {
    ghost use Rattle.std.specs.Prelude.{◌≡◌};
    ghost use Rattle.gx_static.specs.declared.error.RuleError.TheVariants.{Memory};

    ghost from_gives = { λ _ e. e ≡ Memory };

    fn from(_error: AllocFailed<T>) -> RuleError {
        RuleError::Memory
    }
}
