// What declarations mean where all references among them come to an end.

ghost use Rattle.std.specs.Prelude.{◌≡◌, ℕ, IfOk, MatchOption};
ghost use Rattle.gx_references.specs.Known.{known};
ghost use Rattle.gx_schema_content.specs.Knots.{meaning_at_ends};

use gx_references::body::Body;
use gx_references::meanings::meanings;
use std::alloc::{AllocError, Global};

/// What each declaration means, where all references among them come to an end; else nothing is known.
pub fn known_meanings<B: Body>(
    alloc: Global,
    bodies: &[B],
) -> Result<Vec<Option<B::Meaning>>, AllocError>
    ensures { IfOk result (λ table. (number : ℕ) → known B.nothing table.items number ≡ meaning_at_ends B.named B.meant B.nothing bodies.now number) }
{
    match meanings(alloc, bodies)? {
        Some(table) => Ok(table),
        None => Ok(Vec::new(alloc)),
    }
}
