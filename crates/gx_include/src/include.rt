// Inclusion of types.

ghost use Rattle.std.specs.Prelude.{◌≡◌, IfErr, IfOk};
ghost use Rattle.gx_include.specs.Answer.{HasNoVerdict, IsAnswer};

use crate::decide::decide;
use crate::verdict::{IncludeError, Verdict};
use gx_include_derivations::derivations::Derivations;
use gx_include_letters::alphabet::alphabet;
use gx_types::schemas::Schemas;
use gx_types::sequence_type::Ty;
use std::alloc::Global;

/// Whether every list of well-formed shapes that the left type takes is taken by the right type (XQuery 1.0 and XPath 2.0 Formal
/// Semantics, section 8.3). `No` has the list of the first run of letters that the right type refuses, by length and then by
/// position and letter from the front. `TooManyPairs` comes exactly where more pairs than the limit are reached; without a limit
/// every inclusion is decided.
pub fn included(
    alloc: Global,
    schemas: &Schemas,
    left: &Ty,
    right: &Ty,
    limit: Option<u64>,
) -> Result<Verdict, IncludeError>
    ensures verdict { IfOk result (λ verdict. IsAnswer schemas.now left.now right.now limit verdict) }
    ensures none { IfErr result (HasNoVerdict schemas.now left.now right.now limit) }
{
    let mut derivations = Derivations::new(alloc, schemas)?;
    included_by(alloc, &mut derivations, left, right, limit)
}

/// The same by derivations, which serve for all inclusions that are asked of the same schemas.
pub fn included_by(
    alloc: Global,
    derivations: &mut Derivations<'_>,
    left: &Ty,
    right: &Ty,
    limit: Option<u64>,
) -> Result<Verdict, IncludeError>
    ensures verdict { IfOk result (λ verdict. IsAnswer derivations.old left.now right.now limit verdict) }
    ensures none { IfErr result (HasNoVerdict derivations.old left.now right.now limit) }
    ensures kept { derivations.new ≡ derivations.old }
{
    let letters = alphabet(alloc, derivations, left, right)?;
    let verdict = decide(alloc, left, right, letters.as_slice(), limit)?;
    Ok(verdict)
}
