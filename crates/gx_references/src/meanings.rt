// What declarations mean.

ghost use Rattle.std.specs.Prelude.{◌≡◌, ◌≤◌, ◌<◌, ◌∷◌, ◌++◌, [], ℕ, List, Bool, true, false, Some, None, IfOk, OnOk, MatchOption, length, slice_set, slice_get, slice_index_or};
ghost use Rattle.std.specs.List.{list_all};
ghost use Rattle.std.specs.Bool.{MatchBool};
ghost use Rattle.gx_references.specs.References.{AreMeanings, AreEndless, named_by};
ghost use Rattle.gx_references.specs.Known.{table_entry, has_entry, known};
ghost use Rattle.gx_references.specs.Search.{IsSearch, work, unopened_work};

use crate::body::Body;
use std::alloc::{AllocError, Global};

/// What each of these declarations means; None exactly where the references from one of them come to no end. Each declaration
/// is looked at once, in order of depth.
pub fn meanings<B: Body>(
    alloc: Global,
    bodies: &[B],
) -> Result<Option<Vec<Option<B::Meaning>>>, AllocError>
    ensures { IfOk result (λ r. MatchOption r (AreEndless B.named bodies.now) (λ table. AreMeanings B.named B.meant B.nothing bodies.now table.items)) }
{
    let mut table = empty_table(alloc, bodies.len())?;
    let mut opened = all_closed(alloc, bodies.len())?;
    let mut pending = all_numbers(alloc, bodies.len())?;
    while let Some(number) = pending.pop() {
        if !visit(alloc, bodies, &mut table, &mut opened, &mut pending, number)? {
            return Ok(None);
        }
    }
    Ok(Some(table))
}

// A table that has no meanings.
fn empty_table<M: Drop>(alloc: Global, count: usize) -> Result<Vec<Option<M>>, AllocError>
    ensures sized { IfOk result (λ table. length table.items ≡ count) }
    ensures empty { IfOk result (λ table. (number : ℕ) → table_entry table.items number ≡ None) }
{
    let mut table = Vec::with_capacity(alloc, count)?;
    for _ in 0..count {
        table.push(None)?;
    }
    Ok(table)
}

// No declaration is open.
fn all_closed(alloc: Global, count: usize) -> Result<Vec<bool>, AllocError>
    ensures sized { IfOk result (λ opened. length opened.items ≡ count) }
    ensures closed { IfOk result (λ opened. (number : ℕ) → slice_index_or opened.items number false ≡ false) }
{
    let mut opened = Vec::with_capacity(alloc, count)?;
    for _ in 0..count {
        opened.push(false)?;
    }
    Ok(opened)
}

// The numbers of all declarations.
fn all_numbers(alloc: Global, count: usize) -> Result<Vec<usize>, AllocError>
    ensures sized { IfOk result (λ numbers. length numbers.items ≡ count) }
    ensures numbers { IfOk result (λ numbers. (number : ℕ) → number < count → slice_index_or numbers.items number 0 ≡ number) }
{
    let mut numbers = Vec::with_capacity(alloc, count)?;
    for number in 0..count {
        numbers.push(number)?;
    }
    Ok(numbers)
}

// Goes on with a declaration; false where it is part of itself, or refers to no declaration.
fn visit<B: Body>(
    alloc: Global,
    bodies: &[B],
    table: &mut Vec<Option<B::Meaning>>,
    opened: &mut Vec<bool>,
    pending: &mut Vec<usize>,
    number: usize,
) -> Result<bool, AllocError>
    requires { IsSearch B.named B.meant B.nothing bodies.now table.old.items opened.old.items (pending.old.items ++ number ∷ []) }
    ensures search { IfOk result (λ goes_on. MatchBool goes_on
        (IsSearch B.named B.meant B.nothing bodies.now table.new.items opened.new.items pending.new.items) (AreEndless B.named bodies.now)) }
    ensures less { OnOk result (work B.named bodies.now opened.new.items pending.new.items ≤ work B.named bodies.now opened.old.items pending.old.items) }
{
    let Some(body) = bodies.get(number) else {
        return Ok(false);
    };
    if is_known(table.as_slice(), number) {
        return Ok(true);
    }
    let references = body.references(alloc)?;
    if is_open(opened.as_slice(), number) {
        return define(alloc, body, table, number, references.as_slice());
    }
    open(opened, pending, number, references.as_slice())?;
    Ok(true)
}

// Opens a declaration: what it names comes before it.
fn open(
    opened: &mut Vec<bool>,
    pending: &mut Vec<usize>,
    number: usize,
    references: &[usize],
) -> Result<(), AllocError>
    requires { number < length opened.old.items }
    ensures opened { OnOk result (opened.new.items ≡ slice_set opened.old.items number true) }
    ensures pending { OnOk result (pending.new.items ≡ (pending.old.items ++ number ∷ []) ++ references.now) }
{
    opened[number] = true;
    pending.push(number)?;
    pending.extend_from_slice(references)
}

// Puts the meaning of a declaration into the table; false where one that it names is not known.
fn define<B: Body>(
    alloc: Global,
    body: &B,
    table: &mut Vec<Option<B::Meaning>>,
    number: usize,
    references: &[usize],
) -> Result<bool, AllocError>
    requires { number < length table.old.items }
    ensures known { IfOk result (λ defined. defined ≡ list_all (has_entry table.old.items) references.now) }
    ensures defined { IfOk result (λ defined. MatchBool defined
        (table.new.items ≡ slice_set table.old.items number (Some (B.meant (known B.nothing table.old.items) body.now)))
        (table.new.items ≡ table.old.items)) }
{
    if !are_known(table.as_slice(), references) {
        return Ok(false);
    }
    let meaning = body.meaning(alloc, table.as_slice())?;
    keep(table, number, meaning);
    Ok(true)
}

// Puts a meaning into the table.
fn keep<M: Drop>(table: &mut Vec<Option<M>>, number: usize, meaning: M)
    requires { number < length table.old.items }
    ensures { table.new.items ≡ slice_set table.old.items number (Some meaning) }
{
    table[number] = Some(meaning);
}

// Whether the table has meanings for all of these numbers.
fn are_known<M>(table: &[Option<M>], numbers: &[usize]) -> bool
    ensures { result ≡ list_all (has_entry table.now) numbers.now }
{
    numbers.iter().all(|&number| is_known(table, number))
}

// Whether the table has a meaning at a number.
fn is_known<M>(table: &[Option<M>], number: usize) -> bool
    ensures { result ≡ has_entry table.now number }
{
    matches!(table.get(number), Some(Some(_)))
}

// Whether a declaration is open.
fn is_open(opened: &[bool], number: usize) -> bool
    ensures { result ≡ slice_index_or opened.now number false }
{
    opened.get(number).copied().unwrap_or(false)
}
