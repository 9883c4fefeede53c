// The test of inclusion.

ghost use Rattle.std.specs.Prelude.{◌≡◌, IfOk};
ghost use Rattle.gx_include.specs.Decision.{is_included};

use crate::include::included;
use crate::laws::{inclusion_is_decided, no_excludes_inclusion};
use crate::verdict::{IncludeError, Verdict};
use gx_types::schemas::Schemas;
use gx_types::sequence_type::Ty;
use std::alloc::{AllocError, Global};

/// Whether a type is included in another one (XQuery 1.0 and XPath 2.0 Formal Semantics, section 8.3).
pub fn is_included(
    alloc: Global,
    schemas: &Schemas,
    left: &Ty,
    right: &Ty,
) -> Result<bool, AllocError>
    ensures { IfOk result (λ answer. answer ≡ is_included schemas.now left.now right.now) }
{
    inclusion_is_decided();
    no_excludes_inclusion();
    let _types = schemas.types();
    match included(alloc, schemas, left, right, None) {
        Ok(Verdict::Yes) => Ok(true),
        Ok(Verdict::No(_list)) => Ok(false),
        Err(IncludeError::TooManyPairs) => unreachable!(),
        Err(IncludeError::Memory) => Err(AllocError),
    }
}
