// Answers on inclusion.

use gx_types::shape::Shape;
use std::alloc::AllocError;

/// Whether a type is included in another one. `No` has a list of shapes that the left type takes and the right type does not.
#[derive(Drop)]
pub enum Verdict {
    Yes,
    No(Vec<Shape>),
}

/// Why an inclusion has no verdict: more pairs than the limit are reached, or memory did not suffice.
#[derive(Clone, Copy, PartialEq, Eq)]
pub enum IncludeError {
    TooManyPairs,
    Memory,
}

impl From<AllocError> for IncludeError {
    ghost use Rattle.std.specs.Prelude.{◌≡◌};
    ghost use Rattle.gx_include.specs.declared.verdict.IncludeError.TheVariants.{Memory};

    ghost from_gives = { λ _ e. e ≡ Memory };

    fn from(_error: AllocError) -> IncludeError {
        IncludeError::Memory
    }
}
