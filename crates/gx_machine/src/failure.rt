// Why an evaluation has no value.

use gx_base::code::Code;
use gx_build::error::BuildError;
use std::alloc::{AllocError, AllocFailed};

// A dynamic error, a type error, or want of memory.
#[derive(Clone, Copy, PartialEq, Eq)]
pub(crate) enum Failure {
    Raised(Code),
    Wrong,
    Memory,
}

impl From<AllocError> for Failure {
    ghost use Rattle.std.specs.Prelude.{◌≡◌};
    ghost use Rattle.gx_machine.specs.declared.failure.Failure.TheVariants.{Memory};

    ghost from_gives = { λ _ e. e ≡ Memory };

    fn from(_error: AllocError) -> Failure {
        Failure::Memory
    }
}

impl<T: Drop> From<AllocFailed<T>> for Failure {
    ghost use Rattle.std.specs.Prelude.{◌≡◌};
    ghost use Rattle.gx_machine.specs.declared.failure.Failure.TheVariants.{Memory};

    ghost from_gives = { λ _ e. e ≡ Memory };

    fn from(_error: AllocFailed<T>) -> Failure {
        Failure::Memory
    }
}

impl From<BuildError> for Failure {
    ghost use Rattle.std.specs.Prelude.{◌≡◌};
    ghost use Rattle.gx_machine.specs.BuildFailures.{failure_of};

    ghost from_gives = { λ error e. e ≡ failure_of error };

    fn from(error: BuildError) -> Failure {
        match error {
            BuildError::DuplicateAttribute => Failure::Raised(Code::XQDY0025),
            BuildError::TooDeep => Failure::Raised(Code::GLXD0003),
            BuildError::WrongContent => Failure::Wrong,
            BuildError::Memory => Failure::Memory,
        }
    }
}
