// A sink of bytes.
ghost use Rattle.std.specs.Prelude.{◌≡◌, ℕ, ◌≤◌, ◌↔◌, List, [], Option, OnOk, OnErr, IsOk, IsSome, IsErrOf};
ghost use Rattle.gx_io.specs.Faults.{Rose};
ghost use Rattle.gx_io.specs.Put.{GrowsBy, GrowsByPrefix};

use crate::errors::PutError;

/// Takes bytes, a piece at a time.
pub trait Sink {
    /// The bytes written, where the sink tells them.
    ghost written: { Self → Option (List ℕ) };

    /// How many puts failed. A count at the greatest `u64` stays there.
    ghost faults: { Self → ℕ };

    /// What one call of `put` with that piece makes of a sink.
    ghost was_put: { Self → List ℕ → Self → Type 0 };

    /// Writes a piece, whole at Ok. After a refusal a prefix of the piece has gone out.
    fn put(&mut self, bytes: &[u8]) -> Result<(), PutError>
        ensures call { was_put self.old bytes.now self.new }

        ensures told { IsSome (written self.old) ↔ IsSome (written self.new) }
        ensures ok { OnOk result (GrowsBy (written self.old) (written self.new) bytes.now) }
        ensures err { OnErr result (GrowsByPrefix (written self.old) (written self.new) bytes.now) }
        ensures empty { bytes.now ≡ [] → IsOk result }

        ensures counted { faults self.old ≤ faults self.new }
        ensures failed { IsErrOf result PutError.Failed → Rose (faults self.old) (faults self.new) };
}
