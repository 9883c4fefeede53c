// A walk in breadth over the pairs that letters lead to.

ghost use Rattle.std.specs.Prelude.{◌≡◌, ◌+◌, ◌<◌, ◌≤◌, [], ◌∷◌, IfOk, OnOk, length, slice_get, ℕ, Bool, List};
ghost use Rattle.gx_types.specs.SequenceType.{SequenceType};
ghost use Rattle.gx_include_positions.specs.Step.{single, all_next};
ghost use Rattle.gx_include.specs.Pairs.{start_pair, moved, moved_by, is_bad};
ghost use Rattle.gx_include.specs.Origins.{AreRuns, IsNoted, IsNotedIfFound};
ghost use Rattle.gx_include.specs.Traced.{Traced};
ghost use Rattle.gx_include.specs.Outcome.{IsOutcome, outcome_at, exceeds, first_bad_place, is_settled};
ghost use Rattle.gx_include.specs.ByPlace.{HasLettersAt};
ghost use Rattle.gx_include.specs.Expanding.{Expanding};
ghost use Rattle.gx_include.specs.Walk.{StayInPlace};

use crate::by_place::LettersByPlace;
use crate::pair::Pair;
use gx_include_followers::followers::Followers;
use gx_include_followers::number_set::NumberSet;
use gx_include_letters::letter::Letter;
use indexmap::IndexSet;
use std::alloc::{AllocError, Global};

// By which letter of which earlier pair a pair was found.
#[derive(Clone, Copy)]
pub struct Origin {
    pub from: usize,
    pub letter: usize,
}

// The places that may come next behind a pair.
fn nexts(
    alloc: Global,
    left: &Followers<'_>,
    right: &Followers<'_>,
    pair: &Pair,
) -> Result<(NumberSet, NumberSet), AllocError>
    ensures left { IfOk result (λ next. next.0 ≡ all_next left.now (single pair.now.0)) }
    ensures right { IfOk result (λ next. next.1 ≡ all_next right.now pair.now.1) }
{
    let place = NumberSet::only(alloc, pair.place)?;
    let left = left.next(alloc, &place)?;
    let right = right.next(alloc, &pair.set)?;
    Ok((left, right))
}

// Whether a list may end at a pair on the left and not on the right.
fn refuses(
    alloc: Global,
    left: &Followers<'_>,
    right: &Followers<'_>,
    pair: &Pair,
) -> Result<bool, AllocError>
    ensures { IfOk result (λ bad. bad ≡ is_bad left.now right.now pair.now) }
{
    let place = NumberSet::only(alloc, pair.place)?;
    Ok(left.ends(&place) && !right.ends(&pair.set))
}

// Where a letter leads, from the places that may come next on either side.
fn target(
    alloc: Global,
    left: &NumberSet,
    right: &NumberSet,
    letter: &Letter,
) -> Result<Option<Pair>, AllocError>
    ensures { IfOk result (λ pair. pair ≡ moved left.now right.now letter.now) }
{
    if !left.has(letter.place) {
        return Ok(None);
    }
    let set = right.meet(alloc, &letter.takers)?;
    Ok(Some(Pair {
        place: letter.place,
        set,
    }))
}

// Puts a pair with its origin behind those that are found, unless it is among them.
fn note(
    pairs: &mut IndexSet<Pair>,
    origins: &mut Vec<Origin>,
    pair: Pair,
    origin: Origin,
) -> Result<(), AllocError>
    ensures { OnOk result (IsNoted pairs.old.keys origins.old.items pair origin pairs.new.keys origins.new.items) }
{
    let (_, added) = pairs.insert_full(pair)?;
    if added {
        origins.push(origin)?;
    }
    Ok(())
}

// Puts a pair, if there is one, behind those that are found, unless it is among them.
fn note_found(
    pairs: &mut IndexSet<Pair>,
    origins: &mut Vec<Origin>,
    found: Option<Pair>,
    origin: Origin,
) -> Result<(), AllocError>
    ensures { OnOk result (IsNotedIfFound pairs.old.keys origins.old.items found origin pairs.new.keys origins.new.items) }
{
    match found {
        Some(pair) => note(pairs, origins, pair, origin),
        None => Ok(()),
    }
}

// Looks at the letters that may come next behind a pair.
fn expand(
    alloc: Global,
    left: &Followers<'_>,
    right: &Followers<'_>,
    letters: &LettersByPlace<'_>,
    at: usize,
    pairs: &mut IndexSet<Pair>,
    origins: &mut Vec<Origin>,
) -> Result<(), AllocError>
    requires traced { Traced left.now right.now letters.now pairs.old.keys origins.old.items at 0 }
    requires within { at < length pairs.old.keys }
    ensures traced { OnOk result (Traced left.now right.now letters.now pairs.new.keys origins.new.items (at + 1) 0) }
    ensures kept { OnOk result (StayInPlace pairs.old.keys pairs.new.keys) }
{
    let (next_left, next_right) = nexts(alloc, left, right, &pairs[at])?;
    let numbers = letters.numbers_in(alloc, &next_left)?;
    let letters = letters.letters();
    look(
        alloc,
        &next_left,
        &next_right,
        letters,
        &numbers,
        at,
        pairs,
        origins,
    )?;
    Ok(())
}

// Looks at the letters of some numbers, where the others may not come next.
fn look(
    alloc: Global,
    left: &NumberSet,
    right: &NumberSet,
    letters: &[Letter],
    numbers: &NumberSet,
    at: usize,
    pairs: &mut IndexSet<Pair>,
    origins: &mut Vec<Origin>,
) -> Result<(), AllocError>
    requires count { length numbers.now ≡ length letters.now }
    requires has { HasLettersAt letters.now left.now numbers.now }
    ensures { OnOk result ((a b : SequenceType) (old : List (ℕ × List Bool)) → Expanding a b letters.now old pairs.old.keys origins.old.items at 0 left.now right.now → Expanding a b letters.now old pairs.new.keys origins.new.items at (length letters.now) left.now right.now) }
{
    for number in numbers.members() {
        let origin = Origin {
            from: at,
            letter: *number,
        };
        follow(alloc, left, right, letters, origin, pairs, origins)?;
    }
    Ok(())
}

// Notes where the letter of an origin leads, if it leads anywhere.
fn follow(
    alloc: Global,
    left: &NumberSet,
    right: &NumberSet,
    letters: &[Letter],
    origin: Origin,
    pairs: &mut IndexSet<Pair>,
    origins: &mut Vec<Origin>,
) -> Result<(), AllocError>
    requires { origin.letter < length letters.now }
    ensures { OnOk result (IsNotedIfFound pairs.old.keys origins.old.items (moved_by left.now right.now (slice_get letters.now origin.letter)) origin pairs.new.keys origins.new.items) }
{
    let found = target(alloc, left, right, &letters[origin.letter])?;
    note_found(pairs, origins, found, origin)
}

/// What a walk comes to: no pair is bad, the pair at this place is the first bad one, or more pairs than the limit were found.
#[derive(Clone, Copy)]
pub enum Outcome {
    Safe,
    Bad(usize),
    TooMany,
}

// Walks over the pairs that the letters lead to from the start. Without a limit the walk ends at the first bad pair.
pub(crate) fn walk(
    alloc: Global,
    left: &Followers<'_>,
    right: &Followers<'_>,
    letters: &LettersByPlace<'_>,
    limit: Option<u64>,
    pairs: &mut IndexSet<Pair>,
    origins: &mut Vec<Origin>,
) -> Result<Outcome, AllocError>
    requires pairs { pairs.old.keys ≡ start_pair ∷ [] }
    requires origins { origins.old.items ≡ [] }
    ensures { IfOk result (λ outcome. IsOutcome left.now right.now letters.now limit pairs.new.keys origins.new.items outcome) }
{
    let mut bad = None;
    let mut at = 0;
    while at < pairs.len() {
        bad = judge(alloc, left, right, &pairs[at], at, bad)?;
        if ends_early(limit, bad) {
            return Ok(outcome_of(bad));
        }
        expand(alloc, left, right, letters, at, pairs, origins)?;
        if is_past(limit, pairs.len()) {
            return Ok(Outcome::TooMany);
        }
        at += 1;
    }
    Ok(outcome_of(bad))
}

// The first bad pair so far, where the pairs before this one were judged.
fn judge(
    alloc: Global,
    left: &Followers<'_>,
    right: &Followers<'_>,
    pair: &Pair,
    at: usize,
    bad: Option<usize>,
) -> Result<Option<usize>, AllocError>
    ensures { IfOk result (λ first. first ≡ first_bad_place bad (is_bad left.now right.now pair.now) at) }
{
    if bad.is_some() {
        return Ok(bad);
    }
    if refuses(alloc, left, right, pair)? {
        Ok(Some(at))
    } else {
        Ok(None)
    }
}

// Whether nothing more is to be known: a bad pair was found, and pairs are not counted.
fn ends_early(limit: Option<u64>, bad: Option<usize>) -> bool
    ensures { result ≡ is_settled limit bad }
{
    limit.is_none() && bad.is_some()
}

// The outcome of a walk that was not cut off.
fn outcome_of(bad: Option<usize>) -> Outcome
    ensures { result ≡ outcome_at bad }
{
    match bad {
        Some(at) => Outcome::Bad(at),
        None => Outcome::Safe,
    }
}

// Whether there are more than a limit allows.
fn is_past(limit: Option<u64>, count: usize) -> bool
    ensures { result ≡ exceeds limit count }
{
    match limit {
        Some(limit) => limit < count as u64,
        None => false,
    }
}
