// A library of files.
ghost use Rattle.std.specs.Prelude.{◌≡◌, ℕ, ◌≤◌, List, Option, None, Some, IfOk, IfErr, IfSome, IsErrOf, vec_len};
ghost use Rattle.gx_io.specs.Faults.{Rose};
ghost use Rattle.gx_io.specs.Load.{file_of, IsFailedOrMemory, TellsLengthAbove, TooLongExactlyAbove};

use crate::errors::LoadError;
use std::alloc::Global;

/// Files by name.
pub trait Library {
    /// The files, as pairs of a name's bytes and the contents, where the library tells them.
    ghost files: { Self → Option (List (List ℕ × List ℕ)) };

    /// How many loads failed. A count at the greatest `u64` stays there.
    ghost faults: { Self → ℕ };

    /// What one call of `load` with that name makes of a library.
    ghost was_loaded: { Self → List ℕ → Self → Type 0 };

    /// Loads the whole file of that name, if it has at most `limit` bytes.
    fn load(&mut self, alloc: Global, name: &str, limit: usize) -> Result<Vec<u8>, LoadError>
        ensures call { was_loaded self.old name.now self.new }

        // A load changes no file, and its count of faults never falls.
        ensures told { files self.new ≡ files self.old }
        ensures counted { faults self.old ≤ faults self.new }

        ensures within { IfOk result (λ bytes. vec_len bytes ≤ limit) }
        ensures whole { IfSome (files self.old)
            (λ held. IfOk result (λ bytes. file_of held name.now ≡ Some bytes.items)) }
        ensures absent { IfSome (files self.old)
            (λ held. file_of held name.now ≡ None → IsFailedOrMemory result) }

        ensures failed { IsErrOf result LoadError.Failed → Rose (faults self.old) (faults self.new) }
        ensures above { IfErr result (TellsLengthAbove limit) }
        ensures too_long { IfSome (files self.old)
            (λ held. TooLongExactlyAbove limit (file_of held name.now) result) };
}
