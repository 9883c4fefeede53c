// How types are made of types.

ghost use Rattle.std.specs.Prelude.{◌≡◌, ◌≤◌, ◌-◌, [], ◌∷◌, map, IfOk, OnOk, SomeIff};
ghost use Rattle.std.specs.List.{list_any};
ghost use Rattle.gx_types.specs.Occurrence.{occurrence_of};
ghost use Rattle.gx_types.specs.SequenceType.{item, both as both_types, either as either_type};
ghost use Rattle.gx_types.specs.TypeRules.{times_of, positions_of, factored, limited, joined_types, followed_by, sequence_of, choice_of};
ghost use Rattle.gx_types.specs.Indicator.{optional_of, star_of, plus_of, times_by};
ghost use Rattle.gx_types.specs.Choice.{choice_with, has_empty, gathered, choice_among};
ghost use Rattle.gx_types.specs.Prime.{prime_of, items_of};
ghost use Rattle.gx_types.specs.Alternatives.{with_types, with_alternatives, alternatives_among, choice_from};

use crate::occurrence::Occurrence;
use crate::sequence_type::{Ty, TyNode};
use gx_base::limits::TYPE_POSITIONS;
use indexmap::IndexSet;
use std::alloc::{AllocError, Global};
use std::rc::Rc;

/// How many items the values of a type have (Formal Semantics, section 8.4.1). `none` and an item count once, the least
/// number of a sequence is 1 where that of a part is, and a choice has the smaller least and the greater greatest number.
pub fn occurrence(t: &Ty) -> Occurrence
    ensures { result ≡ occurrence_of t.now }
{
    match &t.node {
        TyNode::Never | TyNode::Item(_) => Occurrence {
            least: 1,
            greatest: 1,
        },
        TyNode::Empty => Occurrence {
            least: 0,
            greatest: 0,
        },
        TyNode::Seq(first, second) => {
            let first = occurrence(first);
            let second = occurrence(second);
            Occurrence {
                least: first.least.max(second.least),
                greatest: (first.greatest + second.greatest).min(2),
            }
        }
        TyNode::Alt(first, second) => {
            let first = occurrence(first);
            let second = occurrence(second);
            Occurrence {
                least: first.least.min(second.least),
                greatest: first.greatest.max(second.greatest),
            }
        }
        TyNode::Optional(part) => Occurrence {
            least: 0,
            greatest: occurrence(part).greatest,
        },
        TyNode::Star(_) => Occurrence {
            least: 0,
            greatest: 2,
        },
        TyNode::Plus(part) => Occurrence {
            least: occurrence(part).least,
            greatest: 2,
        },
    }
}

/// The sequence of two types: no value in either is none in both, and the empty sequence vanishes. A type of more than 64
/// positions becomes its prime type, as often as it occurs (Formal Semantics, section 8.4.1).
pub fn seq(alloc: Global, first: Ty, second: Ty) -> Result<Ty, AllocError>
    ensures { IfOk result (λ t. t ≡ sequence_of first second) }
{
    sequence_within_limit(alloc, &first, &second)
}

/// The choice of two types: choices in it are flattened, `none` and later equal members are dropped, and a member of the
/// empty sequence makes the rest optional. A type of more than 64 positions becomes its prime type, as often as it occurs
/// (Formal Semantics, section 8.4.1).
pub fn alt(alloc: Global, first: Ty, second: Ty) -> Result<Ty, AllocError>
    ensures { IfOk result (λ t. t ≡ choice_of first second) }
{
    choice_within_limit(alloc, &[first, second])
}

/// A type as often as an occurrence says. A type of more than 64 positions becomes its prime type, as often as it occurs
/// (Formal Semantics, section 8.4.1).
pub fn times(alloc: Global, t: Ty, times: Occurrence) -> Result<Ty, AllocError>
    ensures { IfOk result (λ u. u ≡ times_of t times) }
{
    limit(alloc, repeat(alloc, &t, times)?)
}

/// The choice of the item types of a type, in the order of their first appearance (Formal Semantics, section 8.4.1).
#[tactic(auto, using(crate::proofs::Alternatives::prime_from))]
pub fn prime(alloc: Global, t: &Ty) -> Result<Ty, AllocError>
    ensures { IfOk result (λ u. u ≡ prime_of t.now) }
{
    let mut items = IndexSet::new(alloc);
    add_items(&mut items, t)?;
    choice(alloc, items.as_slice())
}

/// The prime type of a type, as often as the type occurs, however long it is.
pub fn factor(alloc: Global, t: &Ty) -> Result<Ty, AllocError>
    ensures { IfOk result (λ u. u ≡ factored t.now) }
{
    let items = prime(alloc, t)?;
    repeat(alloc, &items, occurrence(t))
}

/// A type of at most 64 positions as it is, and a longer one as its prime type, as often as it occurs. A rule of several
/// steps makes its type without the limit, and calls this once at its end.
pub fn limit(alloc: Global, t: Ty) -> Result<Ty, AllocError>
    ensures { IfOk result (λ u. u ≡ limited t) }
{
    match room_after(&t, TYPE_POSITIONS) {
        Some(_) => Ok(t),
        None => factor(alloc, &t),
    }
}

/// The sequence of two types, however long it is.
pub fn join(alloc: Global, first: &Ty, second: &Ty) -> Result<Ty, AllocError>
    ensures { IfOk result (λ t. t ≡ joined_types first.now second.now) }
{
    match &first.node {
        TyNode::Never => Ok(Ty::none()),
        TyNode::Empty => second.clone(),
        _ => follow(alloc, first, second),
    }
}

/// The choice of all types of a list, made at once, however long it is.
pub fn choose(alloc: Global, types: &[Ty]) -> Result<Ty, AllocError>
    ensures { IfOk result (λ t. t ≡ choice_among types.now) }
{
    let choice = gather(alloc, types)?;
    if some_holds_empty(types) {
        optional(alloc, &choice)
    } else {
        Ok(choice)
    }
}

/// A type as often as an occurrence says, however long it is.
pub fn repeat(alloc: Global, t: &Ty, times: Occurrence) -> Result<Ty, AllocError>
    ensures { IfOk result (λ u. u ≡ times_by t.now times.least times.greatest) }
{
    match (times.least, times.greatest) {
        (_, 0) => Ok(Ty::empty()),
        (0, 1) => optional(alloc, t),
        (0, _) => star(alloc, t),
        (_, 1) => t.clone(),
        _ => plus(alloc, t),
    }
}

/// A type at most once.
pub fn optional(alloc: Global, t: &Ty) -> Result<Ty, AllocError>
    ensures { IfOk result (λ u. u ≡ optional_of t.now) }
{
    let node = match &t.node {
        TyNode::Never | TyNode::Empty => TyNode::Empty,
        TyNode::Optional(part) => TyNode::Optional(part.clone()?),
        TyNode::Plus(part) | TyNode::Star(part) => TyNode::Star(part.clone()?),
        _ => TyNode::Optional(t.as_part(alloc)?),
    };
    Ok(Ty { node })
}

/// A type any number of times.
pub fn star(alloc: Global, t: &Ty) -> Result<Ty, AllocError>
    ensures { IfOk result (λ u. u ≡ star_of t.now) }
{
    let node = match &t.node {
        TyNode::Never | TyNode::Empty => TyNode::Empty,
        TyNode::Optional(part) | TyNode::Plus(part) | TyNode::Star(part) => {
            TyNode::Star(part.clone()?)
        }
        _ => TyNode::Star(t.as_part(alloc)?),
    };
    Ok(Ty { node })
}

/// A type once or more.
pub fn plus(alloc: Global, t: &Ty) -> Result<Ty, AllocError>
    ensures { IfOk result (λ u. u ≡ plus_of t.now) }
{
    let node = match &t.node {
        TyNode::Never => TyNode::Never,
        TyNode::Empty => TyNode::Empty,
        TyNode::Optional(part) | TyNode::Star(part) => TyNode::Star(part.clone()?),
        TyNode::Plus(part) => TyNode::Plus(part.clone()?),
        _ => TyNode::Plus(t.as_part(alloc)?),
    };
    Ok(Ty { node })
}

fn sequence_within_limit(alloc: Global, first: &Ty, second: &Ty) -> Result<Ty, AllocError>
    ensures { IfOk result (λ t. t ≡ sequence_of first.now second.now) }
{
    limit(alloc, join(alloc, first, second)?)
}

fn choice_within_limit(alloc: Global, types: &[Ty]) -> Result<Ty, AllocError>
    ensures { IfOk result (λ t. t ≡ limited (choice_among types.now)) }
{
    limit(alloc, choose(alloc, types)?)
}

fn follow(alloc: Global, first: &Ty, second: &Ty) -> Result<Ty, AllocError>
    ensures { IfOk result (λ t. t ≡ followed_by first.now second.now) }
{
    match &second.node {
        TyNode::Never => Ok(Ty::none()),
        TyNode::Empty => first.clone(),
        _ => both(alloc, first, second),
    }
}

fn both(alloc: Global, first: &Ty, second: &Ty) -> Result<Ty, AllocError>
    ensures { IfOk result (λ t. t ≡ both_types first.now second.now) }
{
    let (first, second) = parts(alloc, first, second)?;
    Ok(Ty {
        node: TyNode::Seq(first, second),
    })
}

fn either(alloc: Global, first: &Ty, second: &Ty) -> Result<Ty, AllocError>
    ensures { IfOk result (λ t. t ≡ either_type first.now second.now) }
{
    let (first, second) = parts(alloc, first, second)?;
    Ok(Ty {
        node: TyNode::Alt(first, second),
    })
}

// Two types as parts.
fn parts(alloc: Global, first: &Ty, second: &Ty) -> Result<(Rc<Ty>, Rc<Ty>), AllocError>
    ensures first { IfOk result (λ parts. parts.0.value ≡ first.now) }
    ensures second { IfOk result (λ parts. parts.1.value ≡ second.now) }
{
    let first = first.as_part(alloc)?;
    Ok((first, second.as_part(alloc)?))
}

// The members of all types of a list, the empty sequence apart.
#[tactic(auto, using(crate::proofs::Alternatives::gathered_from))]
fn gather(alloc: Global, types: &[Ty]) -> Result<Ty, AllocError>
    ensures { IfOk result (λ t. t ≡ gathered types.now) }
{
    let members = alternatives(alloc, types)?;
    choice(alloc, members.as_slice())
}

// The alternatives of all types of a list.
fn alternatives(alloc: Global, types: &[Ty]) -> Result<IndexSet<Ty>, AllocError>
    ensures { IfOk result (λ found. found.keys ≡ alternatives_among types.now) }
{
    let mut found = IndexSet::new(alloc);
    for t in types {
        add_alternatives(&mut found, t)?;
    }
    Ok(found)
}

// Whether a type of a list has the empty sequence as a member.
fn some_holds_empty(types: &[Ty]) -> bool
    ensures { result ≡ list_any has_empty types.now }
{
    types.iter().any(holds_empty)
}

// Whether a member of a choice is the empty sequence.
fn holds_empty(t: &Ty) -> bool
    ensures { result ≡ has_empty t.now }
{
    match &t.node {
        TyNode::Empty => true,
        TyNode::Alt(first, second) => holds_empty(first) || holds_empty(second),
        _ => false,
    }
}

// Puts the alternatives of a type behind those of a set, unless an equal one is there.
fn add_alternatives(found: &mut IndexSet<Ty>, t: &Ty) -> Result<(), AllocError>
    ensures { OnOk result (found.new.keys ≡ with_alternatives found.old.keys t.now) }
{
    match &t.node {
        TyNode::Never | TyNode::Empty => Ok(()),
        TyNode::Alt(first, second) => {
            add_alternatives(found, first)?;
            add_alternatives(found, second)
        }
        _ => add_type(found, t),
    }
}

// Puts the item types of a type behind the types of a set, unless an equal one is there.
fn add_items(items: &mut IndexSet<Ty>, t: &Ty) -> Result<(), AllocError>
    ensures { OnOk result (items.new.keys ≡ with_types items.old.keys (map item (items_of t.now))) }
{
    match &t.node {
        TyNode::Never | TyNode::Empty => Ok(()),
        TyNode::Item(_) => add_type(items, t),
        TyNode::Seq(first, second) | TyNode::Alt(first, second) => {
            add_items(items, first)?;
            add_items(items, second)
        }
        TyNode::Optional(part) | TyNode::Star(part) | TyNode::Plus(part) => add_items(items, part),
    }
}

// Puts a type behind those of a set, unless an equal one is there.
fn add_type(types: &mut IndexSet<Ty>, t: &Ty) -> Result<(), AllocError>
    ensures { OnOk result (types.new.keys ≡ with_types types.old.keys (t.now ∷ [])) }
{
    types.insert(t.clone()?)?;
    Ok(())
}

// The choice with each type of a list as one more alternative.
fn choice(alloc: Global, types: &[Ty]) -> Result<Ty, AllocError>
    ensures { IfOk result (λ t. t ≡ choice_from types.now) }
{
    let mut choice = Ty::none();
    for t in types {
        choice = or_else(alloc, &choice, t)?;
    }
    Ok(choice)
}

// A choice with one more alternative.
fn or_else(alloc: Global, choice: &Ty, member: &Ty) -> Result<Ty, AllocError>
    ensures { IfOk result (λ t. t ≡ choice_with choice.now member.now) }
{
    match &choice.node {
        TyNode::Never => member.clone(),
        _ => either(alloc, choice, member),
    }
}

// How many more positions there is room for after those of a type, or none where there is no room for them.
fn room_after(t: &Ty, room: usize) -> Option<usize>
    ensures { SomeIff result (positions_of t.now ≤ room) (room - positions_of t.now) }
{
    match &t.node {
        TyNode::Never | TyNode::Empty => Some(room),
        TyNode::Item(_) => room.checked_sub(1),
        TyNode::Seq(first, second) | TyNode::Alt(first, second) => {
            let room = room_after(first, room)?;
            room_after(second, room)
        }
        TyNode::Optional(part) | TyNode::Star(part) | TyNode::Plus(part) => room_after(part, room),
    }
}
