// A content as often as a particle occurs.

ghost use Rattle.std.specs.Prelude.{◌≡◌, IfOk};
ghost use Rattle.gx_types.specs.TypeRules.{joined_types};
ghost use Rattle.gx_types.specs.Indicator.{optional_of};
ghost use Rattle.gx_schema_content.specs.Occurrences.{bounded, copies, further_copies, least_copies, optional_copies};

use gx_schema_components::component::Bounds;
use gx_types::sequence_type::{Ty, TyNode};
use gx_types::type_rules::{join, optional, star};
use std::alloc::{AllocError, Global};

/// A content as often as bounds say: so many copies one behind another, and then a star, or optional copies each inside the one
/// before it (XML Schema 1.0 part 1, section 3.9.4).
pub fn bounded(alloc: Global, bounds: Bounds, t: &Ty) -> Result<Ty, AllocError>
    ensures { IfOk result (λ u. u ≡ bounded bounds t.now) }
{
    let least = copies(alloc, least_copies(bounds), t)?;
    let further = further_copies(alloc, bounds.least, bounds.greatest, t)?;
    join(alloc, &least, &further)
}

// The least number of copies, where no more than the greatest number are allowed.
fn least_copies(bounds: Bounds) -> u32
    ensures { result ≡ least_copies bounds.least bounds.greatest }
{
    match bounds.greatest {
        None => bounds.least,
        Some(greatest) => bounds.least.min(greatest),
    }
}

// So many copies. Those of an empty content are not made one by one.
#[tactic(auto, using(crate::proofs::Copies::copies_of_nothing, crate::proofs::Copies::copies_of_never))]
fn copies(alloc: Global, count: u32, t: &Ty) -> Result<Ty, AllocError>
    ensures { IfOk result (λ u. u ≡ copies count t.now) }
{
    match &t.node {
        TyNode::Empty => Ok(Ty::empty()),
        TyNode::Never if count > 0 => Ok(Ty::none()),
        _ => copies_one_by_one(alloc, count, t),
    }
}

fn copies_one_by_one(alloc: Global, count: u32, t: &Ty) -> Result<Ty, AllocError>
    ensures { IfOk result (λ u. u ≡ copies count t.now) }
{
    let mut done = Ty::empty();
    for _ in 0..count {
        done = join(alloc, &done, t)?;
    }
    Ok(done)
}

// What may stand behind the least number of copies.
fn further_copies(
    alloc: Global,
    least: u32,
    greatest: Option<u32>,
    t: &Ty,
) -> Result<Ty, AllocError>
    ensures { IfOk result (λ u. u ≡ further_copies least greatest t.now) }
{
    match greatest {
        None => star(alloc, t),
        Some(greatest) => optional_copies(alloc, greatest.saturating_sub(least), t),
    }
}

// At most so many copies. Those of an empty content are not made one by one.
#[tactic(auto, using(crate::proofs::Copies::optional_copies_of_nothing, crate::proofs::Copies::optional_copies_of_never))]
fn optional_copies(alloc: Global, count: u32, t: &Ty) -> Result<Ty, AllocError>
    ensures { IfOk result (λ u. u ≡ optional_copies count t.now) }
{
    match &t.node {
        TyNode::Empty | TyNode::Never => Ok(Ty::empty()),
        _ => optional_one_by_one(alloc, count, t),
    }
}

fn optional_one_by_one(alloc: Global, count: u32, t: &Ty) -> Result<Ty, AllocError>
    ensures { IfOk result (λ u. u ≡ optional_copies count t.now) }
{
    let mut done = Ty::empty();
    for _ in 0..count {
        done = optional_behind(alloc, t, &done)?;
    }
    Ok(done)
}

fn optional_behind(alloc: Global, t: &Ty, further: &Ty) -> Result<Ty, AllocError>
    ensures { IfOk result (λ u. u ≡ optional_of (joined_types t.now further.now)) }
{
    let joined = join(alloc, t, further)?;
    optional(alloc, &joined)
}
