// Refusals of constructors.

use std::alloc::AllocError;

/// Why a tree was not made.
#[derive(Drop)]
pub enum BuildError {
    /// There is no memory.
    Memory,
    /// Two attributes have equal names (XQDY0025).
    DuplicateAttribute,
    /// The tree would be too deep (GLXD0003).
    TooDeep,
    /// The store has not a node of the content, or an attribute comes behind other content (XQTY0024).
    WrongContent,
}

impl From<AllocError> for BuildError {
    ghost use Rattle.std.specs.Prelude.{◌≡◌};
    ghost use Rattle.gx_build.specs.declared.error.BuildError.TheVariants.{Memory};

    ghost from_gives = { λ error made. made ≡ Memory };

    fn from(_error: AllocError) -> BuildError {
        BuildError::Memory
    }
}
