// Declarations that are part of themselves.

ghost use Rattle.std.specs.Prelude.{◌≡◌, ◌≢◌, ◌≤◌, ◌<◌, ◌∷◌, ◌++◌, [], ℕ, false, length, slice_index_or, IfOk, IsTrue, OnOk};
ghost use Rattle.gx_references.specs.Circles.{is_circular_among};
ghost use Rattle.gx_references.specs.PlainReferences.{numbers_in};
ghost use Rattle.gx_references.specs.Reach.{IsReach};
ghost use Rattle.gx_references.specs.Search.{work};

use crate::body::Body;
use crate::laws::circles_are_endless;
use crate::meanings::meanings;
use std::alloc::{AllocError, Global};

/// Which declarations are part of themselves, where each names the numbers of its list: those from which a way of one reference or
/// more leads back to them. One that leads to a circle is not part of it, and a number of no declaration names itself alone. Where
/// all references come to an end each declaration is looked at once; else there is a search from each.
pub fn circular_among(alloc: Global, references: &[Vec<usize>]) -> Result<Vec<bool>, AllocError>
    ensures sized { IfOk result (λ marks. length marks.items ≡ length references.now) }
    ensures exact { IfOk result (λ marks. (number : ℕ) → slice_index_or marks.items number false ≡ is_circular_among numbers_in references.now number) }
{
    if all_end(alloc, references)? {
        return Ok(vec![in alloc; false; references.len()]?);
    }
    let mut marks = Vec::with_capacity(alloc, references.len())?;
    for number in 0..references.len() {
        marks.push(is_circular(alloc, references, number)?)?;
    }
    Ok(marks)
}

/// A list of numbers means nothing, and names its numbers.
impl Body for Vec<usize> {
    type Meaning = ();

    ghost use Rattle.gx_references.specs.PlainReferences.{numbers_in, no_meaning, no_meaning_agrees};

    ghost named = { numbers_in };

    ghost meant = { no_meaning };

    ghost nothing = { tt };

    ghost same = { no_meaning_agrees };

    fn references(&self, _alloc: Global) -> Result<Vec<usize>, AllocError> {
        self.clone()
    }

    fn meaning(&self, _alloc: Global, _table: &[Option<()>]) -> Result<(), AllocError> {
        Ok(())
    }
}

// Whether all references come to an end; then no declaration is part of itself.
fn all_end(alloc: Global, references: &[Vec<usize>]) -> Result<bool, AllocError>
    ensures { IfOk result (λ ended. IsTrue ended → (number : ℕ) → is_circular_among numbers_in references.now number ≡ false) }
{
    circles_are_endless::<Vec<usize>>();
    Ok(meanings(alloc, references)?.is_some())
}

// Whether a way leads from a declaration back to it.
fn is_circular(alloc: Global, references: &[Vec<usize>], start: usize) -> Result<bool, AllocError>
    requires { start < length references.now }
    ensures { IfOk result (λ found. found ≡ is_circular_among numbers_in references.now start) }
{
    let mut reached = vec![in alloc; false; references.len()]?;
    let mut pending = references[start].references(alloc)?;
    while let Some(number) = pending.pop() {
        if number == start {
            return Ok(true);
        }
        follow(references, &mut reached, &mut pending, number)?;
    }
    Ok(false)
}

// Goes on from a declaration that is reached for the first time to all that it names.
fn follow(
    references: &[Vec<usize>],
    reached: &mut Vec<bool>,
    pending: &mut Vec<usize>,
    number: usize,
) -> Result<(), AllocError>
    requires { length reached.old.items ≡ length references.now }
    ensures reach { OnOk result ((start : ℕ) → number ≢ start → IsReach numbers_in references.now start reached.old.items (pending.old.items ++ number ∷ []) →
        IsReach numbers_in references.now start reached.new.items pending.new.items) }
    ensures less { OnOk result (work numbers_in references.now reached.new.items pending.new.items ≤ work numbers_in references.now reached.old.items pending.old.items) }
{
    let Some(named) = references.get(number) else {
        return Ok(());
    };
    if is_reached(reached.as_slice(), number) {
        return Ok(());
    }
    reached[number] = true;
    pending.extend_from_slice(named.as_slice())?;
    Ok(())
}

// Whether a declaration is marked.
fn is_reached(reached: &[bool], number: usize) -> bool
    ensures { result ≡ slice_index_or reached.now number false }
{
    reached.get(number).copied().unwrap_or(false)
}
