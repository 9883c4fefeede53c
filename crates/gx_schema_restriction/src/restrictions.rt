// The restrictions among the types of schemas.

ghost use Rattle.std.specs.Prelude.{◌≡◌, IfOk, option_copied, slice_get};
ghost use Rattle.gx_schema_restriction.specs.Restrictions.{AreSoundBelow, AreJudged, is_restricted};

use crate::restriction::restricts_by;
use gx_include::verdict::{IncludeError, Verdict};
use gx_include_derivations::derivations::Derivations;
use gx_types::declaration::Declared;
use gx_types::schemas::Schemas;
use gx_types::shape::Shape;
use std::alloc::{AllocError, Global};

/// Whether all restrictions among the types of schemas are sound; or the number of the first that is not, with a list of shapes that
/// it allows and its base does not, or of the first that cannot be judged within the limit on pairs.
#[derive(Drop)]
pub enum Restrictions {
    Sound,
    Unsound { number: usize, list: Vec<Shape> },
    Undecided { number: usize },
}

/// Judges those types of schemas that are restrictions, in their order (XML Schema 1.0 part 1, section 3.4.6): by the number of a type,
/// whether it is one. Past the last of these marks no type is.
pub fn judge_restrictions(
    alloc: Global,
    schemas: &Schemas,
    restricted: &[bool],
    pairs: usize,
) -> Result<Restrictions, AllocError>
    ensures { IfOk result (AreJudged schemas.now pairs restricted.now) }
{
    let mut derivations = Derivations::new(alloc, schemas)?;
    let judged = judge_by(alloc, &mut derivations, restricted, pairs)?;
    Ok(judged)
}

// The same by derivations.
fn judge_by(
    alloc: Global,
    derivations: &mut Derivations<'_>,
    restricted: &[bool],
    pairs: usize,
) -> Result<Restrictions, AllocError>
    ensures { IfOk result (AreJudged derivations.old pairs restricted.now) }
{
    let types = derivations.schemas().types();
    let mut number = 0;
    while let Some(declared) = type_at(types, number) {
        if is_restricted(restricted, number) {
            match restricts_by(alloc, derivations, declared, pairs) {
                Ok(Verdict::Yes) => {}
                Ok(Verdict::No(list)) => return Ok(Restrictions::Unsound { number, list }),
                Err(IncludeError::TooManyPairs) => return Ok(Restrictions::Undecided { number }),
                Err(IncludeError::Memory) => return Err(AllocError),
            }
        }
        number += 1;
    }
    Ok(Restrictions::Sound)
}

fn type_at(types: &[Declared], number: usize) -> Option<&Declared>
    ensures { option_copied result ≡ slice_get types.now number }
{
    types.get(number)
}

fn is_restricted(restricted: &[bool], number: usize) -> bool
    ensures { result ≡ is_restricted restricted.now number }
{
    match restricted.get(number) {
        Some(mark) => *mark,
        None => false,
    }
}
