// Why a load or a put was refused.
use std::alloc::AllocError;
use thiserror::Error;

/// Why a file was not loaded.
#[derive(Clone, Copy, PartialEq, Eq, Debug, Error)]
pub enum LoadError {
    /// The file could not be read. The library's count of faults rose.
    #[error("the file could not be read")]
    Failed,
    /// The file is longer than the limit. The length is in bytes.
    #[error("the file is too long: {length} bytes")]
    TooLong { length: u64 },
    /// Memory is wanting.
    #[error("out of memory")]
    Memory,
}

impl From<AllocError> for LoadError {
    ghost use Rattle.std.specs.Prelude.{◌≡◌};
    ghost use Rattle.gx_io.specs.declared.errors.LoadError.TheVariants.{Memory};

    ghost from_gives = { λ _ error. error ≡ Memory };

    fn from(_error: AllocError) -> LoadError {
        LoadError::Memory
    }
}

/// Why a piece was not written.
#[derive(Clone, Copy, PartialEq, Eq, Debug, Error)]
pub enum PutError {
    /// The piece could not be written. The sink's count of faults rose.
    #[error("the bytes could not be written")]
    Failed,
    /// Memory is wanting.
    #[error("out of memory")]
    Memory,
}

impl From<AllocError> for PutError {
    ghost use Rattle.std.specs.Prelude.{◌≡◌};
    ghost use Rattle.gx_io.specs.declared.errors.PutError.TheVariants.{Memory};

    ghost from_gives = { λ _ error. error ≡ Memory };

    fn from(_error: AllocError) -> PutError {
        PutError::Memory
    }
}
