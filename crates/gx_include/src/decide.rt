// The answer of a walk.

ghost use Rattle.std.specs.Prelude.{◌≡◌, ◌≤◌, ◌++◌, [], ◌∷◌, ℕ, List, IfOk, IfErr, OnOk, length, slice_get};
ghost use Rattle.gx_types.specs.SchemaSet.{SchemaSet};
ghost use Rattle.gx_include_letters.specs.Letters.{AreLetters, ServeAll};
ghost use Rattle.gx_include.specs.Origins.{AreRuns};
ghost use Rattle.gx_include.specs.Outcome.{IsOutcome};
ghost use Rattle.gx_include.specs.Pairs.{start_pair};
ghost use Rattle.gx_include.specs.Runs.{shapes_of_letter, shapes_of};
ghost use Rattle.gx_include.specs.Verdict.{IsNoVerdictOver, IsVerdictOver};
ghost use Rattle.gx_include.specs.Walk.{run_at};

use crate::by_place::LettersByPlace;
use crate::pair::Pair;
use crate::verdict::{IncludeError, Verdict};
use crate::walk::{Origin, Outcome, walk};
use gx_include_followers::followers::Followers;
use gx_include_followers::number_set::NumberSet;
use gx_include_letters::letter::Letter;
use gx_types::sequence_type::Ty;
use gx_types::shape::Shape;
use indexmap::IndexSet;
use std::alloc::{AllocError, Global};

// Whether a type is included in another one, by letters of their positions.
pub(crate) fn decide(
    alloc: Global,
    left: &Ty,
    right: &Ty,
    letters: &[Letter],
    limit: Option<u64>,
) -> Result<Verdict, IncludeError>
    ensures verdict { IfOk result (λ verdict. (schemas : SchemaSet) → AreLetters schemas left.now right.now letters.now → ServeAll schemas left.now right.now letters.now → IsVerdictOver schemas left.now right.now letters.now limit verdict) }
    ensures none { IfErr result (IsNoVerdictOver left.now right.now letters.now limit) }
{
    let left = Followers::new(alloc, left)?;
    let right = Followers::new(alloc, right)?;
    let letters = LettersByPlace::new(alloc, letters)?;
    decide_by(alloc, &left, &right, &letters, limit)
}

// The same by what may come next behind the positions of each type.
fn decide_by(
    alloc: Global,
    left: &Followers<'_>,
    right: &Followers<'_>,
    letters: &LettersByPlace<'_>,
    limit: Option<u64>,
) -> Result<Verdict, IncludeError>
    ensures verdict { IfOk result (λ verdict. (schemas : SchemaSet) → AreLetters schemas left.now right.now letters.now → ServeAll schemas left.now right.now letters.now → IsVerdictOver schemas left.now right.now letters.now limit verdict) }
    ensures none { IfErr result (IsNoVerdictOver left.now right.now letters.now limit) }
{
    let mut pairs = start_pairs(alloc)?;
    let mut origins = Vec::new(alloc);
    let outcome = walk(alloc, left, right, letters, limit, &mut pairs, &mut origins)?;
    match outcome {
        Outcome::Safe => Ok(Verdict::Yes),
        Outcome::TooMany => Err(IncludeError::TooManyPairs),
        Outcome::Bad(place) => {
            let run = run_of(alloc, origins.as_slice(), place)?;
            let list = spell(alloc, letters.letters(), run)?;
            Ok(Verdict::No(list))
        }
    }
}

// The pair before the first letter.
fn start_pairs(alloc: Global) -> Result<IndexSet<Pair>, AllocError>
    ensures { IfOk result (λ pairs. pairs.keys ≡ start_pair ∷ []) }
{
    let mut pairs = IndexSet::new(alloc);
    let set = NumberSet::only(alloc, 0)?;
    pairs.insert_full(Pair { place: 0, set })?;
    Ok(pairs)
}

// The numbers of the letters by which a pair was found, the newest first.
fn run_of(alloc: Global, origins: &[Origin], place: usize) -> Result<Vec<usize>, AllocError>
    requires runs { (runs : List (List ℕ)) × AreRuns origins.now runs }
    requires within { place ≤ length origins.now }
    ensures { IfOk result (λ run. (runs : List (List ℕ)) → AreRuns origins.now runs → run.items ≡ run_at runs place) }
{
    let mut run = Vec::new(alloc);
    let mut at = place;
    while at > 0 {
        let origin = origins[at - 1];
        run.push(origin.letter)?;
        at = origin.from;
    }
    Ok(run)
}

// The shapes of the letters of a run, the oldest first.
fn spell(alloc: Global, letters: &[Letter], run: Vec<usize>) -> Result<Vec<Shape>, AllocError>
    ensures { IfOk result (λ list. list.items ≡ shapes_of letters.now run.items) }
{
    let mut pending = run;
    let mut list = Vec::new(alloc);
    while let Some(number) = pending.pop() {
        add_shape(letters, number, &mut list)?;
    }
    Ok(list)
}

// Puts the shape of a letter behind those of a list.
fn add_shape(letters: &[Letter], number: usize, list: &mut Vec<Shape>) -> Result<(), AllocError>
    ensures { OnOk result (list.new.items ≡ list.old.items ++ shapes_of_letter (slice_get letters.now number)) }
{
    if number < letters.len() {
        list.push(letters[number].shape.clone()?)?;
    }
    Ok(())
}
