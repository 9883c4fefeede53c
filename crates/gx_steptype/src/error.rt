// Why a step or a typed value has no type.

use std::alloc::AllocError;

/// Why a step or a typed value has no type. `NotANode` is XPTY0020, and `NoTypedValue` FOTY0012 (XQuery 1.0, sections 3.2.1 and
/// 2.5.2).
#[derive(Debug, Drop)]
pub enum StepError {
    NotANode,
    NoTypedValue,
    Memory,
}

impl From<AllocError> for StepError {
    ghost use Rattle.std.specs.Prelude.{◌≡◌};
    ghost use Rattle.gx_steptype.specs.declared.error.StepError.TheVariants.{Memory};

    ghost from_gives = { λ e r. r ≡ Memory };

    fn from(_error: AllocError) -> StepError {
        StepError::Memory
    }
}
