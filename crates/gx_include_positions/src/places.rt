// The positions of a type at which a list of shapes may stand, and how they move on.

ghost use Rattle.std.specs.Prelude.{◌&&◌, ◌||◌, ◌≡◌, ◌++◌, IfOk, OnOk, drop, true, slice_index_or, false};
ghost use Rattle.gx_types.specs.ItemTakes.{name_fits};
ghost use Rattle.gx_types.specs.TypeRules.{positions_of};
ghost use Rattle.gx_include_positions.specs.Passing.{next_passing};
ghost use Rattle.gx_include_positions.specs.Positions.{is_nullable, may_end, next_of, both_set};
ghost use Rattle.gx_include_positions.specs.Test.{is_taken};

use gx_base::name::Name;
use gx_types::derivation::derives;
use gx_types::item_type::ItemType;
use gx_types::schemas::Schemas;
use gx_types::sequence_type::{Ty, TyNode};
use gx_types::shape::Shape;
use std::alloc::{AllocError, Global};

// Whether a type takes the empty list, whether a list may end at one of its marked positions, and the marks behind its own.
#[derive(Clone, Copy)]
pub(crate) struct Ending<'a> {
    pub nullable: bool,
    pub ends: bool,
    pub rest: &'a [bool],
}

// How lists of a type may end, where `marks` begins with a mark for each of its positions.
pub(crate) fn end_of<'a>(t: &Ty, marks: &'a [bool]) -> Ending<'a>
    ensures nullable { result.nullable ≡ is_nullable t.now }
    ensures ends { result.ends ≡ may_end t.now marks.now }
    ensures rest { result.rest.now ≡ drop (positions_of t.now) marks.now }
{
    match &t.node {
        TyNode::Never => no_item(false, marks),
        TyNode::Empty => no_item(true, marks),
        TyNode::Item(_) => end_of_item(marks),
        TyNode::Seq(first, second) => {
            let first = end_of(first, marks);
            in_sequence(first, end_of(second, first.rest))
        }
        TyNode::Alt(first, second) => {
            let first = end_of(first, marks);
            in_choice(first, end_of(second, first.rest))
        }
        TyNode::Optional(part) | TyNode::Star(part) => optional(end_of(part, marks)),
        TyNode::Plus(part) => end_of(part, marks),
    }
}

// A type without items.
fn no_item(nullable: bool, marks: &[bool]) -> Ending<'_>
    ensures nullable { result.nullable ≡ nullable }
    ensures ends { result.ends ≡ false }
    ensures rest { result.rest.now ≡ marks.now }
{
    Ending {
        nullable,
        ends: false,
        rest: marks,
    }
}

// One type and then another.
fn in_sequence<'a>(first: Ending<'a>, second: Ending<'a>) -> Ending<'a>
    ensures nullable { result.nullable ≡ first.entry.nullable && second.entry.nullable }
    ensures ends { result.ends ≡ (first.entry.ends && second.entry.nullable) || second.entry.ends }
    ensures rest { result.rest.now ≡ second.entry.rest.now }
{
    Ending {
        nullable: first.nullable && second.nullable,
        ends: (first.ends && second.nullable) || second.ends,
        rest: second.rest,
    }
}

// One type or another.
fn in_choice<'a>(first: Ending<'a>, second: Ending<'a>) -> Ending<'a>
    ensures nullable { result.nullable ≡ first.entry.nullable || second.entry.nullable }
    ensures ends { result.ends ≡ first.entry.ends || second.entry.ends }
    ensures rest { result.rest.now ≡ second.entry.rest.now }
{
    Ending {
        nullable: first.nullable || second.nullable,
        ends: first.ends || second.ends,
        rest: second.rest,
    }
}

// A type or the empty sequence.
fn optional(part: Ending<'_>) -> Ending<'_>
    ensures nullable { result.nullable ≡ true }
    ensures ends { result.ends ≡ part.entry.ends }
    ensures rest { result.rest.now ≡ part.entry.rest.now }
{
    Ending {
        nullable: true,
        ..part
    }
}

// How a list of one item may end.
fn end_of_item(marks: &[bool]) -> Ending<'_>
    ensures nullable { result.nullable ≡ false }
    ensures ends { result.ends ≡ slice_index_or marks.now 0 false }
    ensures rest { result.rest.now ≡ drop 1 marks.now }
{
    match marks.split_first() {
        Some((marked, rest)) => Ending {
            nullable: false,
            ends: *marked,
            rest,
        },
        None => Ending {
            nullable: false,
            ends: false,
            rest: marks,
        },
    }
}

// Whether a shape is one that an item type takes.
fn takes_shape(schemas: &Schemas, shape: &Shape, item: &ItemType) -> bool
    ensures { result ≡ is_taken schemas.now shape.now item.now }
{
    match (item, shape) {
        (ItemType::Element { name, kind }, Shape::Elem(given, t)) => {
            fits(name, given) && derives(schemas, t, kind)
        }
        (ItemType::Attribute { name, kind }, Shape::Attr(given, t)) => {
            fits(name, given) && derives(schemas, t, kind)
        }
        (ItemType::Text, Shape::Text) => true,
        (ItemType::Document(None), Shape::Doc(_)) => true,
        (ItemType::Document(Some((name, kind))), Shape::Doc(Some((given, t)))) => {
            fits(name, given) && derives(schemas, t, kind)
        }
        (ItemType::Atom(kind), Shape::Atom(t)) => derives(schemas, t, kind),
        _ => false,
    }
}

/// Whether a name fits an optional one.
pub fn fits(wanted: &Option<Name>, name: &Name) -> bool
    ensures { result ≡ name_fits wanted.now name.now }
{
    match wanted {
        Some(wanted) => wanted == name,
        None => true,
    }
}

// Puts behind `next` which positions of a type may come next, where `marks` begins with a mark for each of its positions,
// and a list of the type may begin here where `begins` says so.
pub(crate) fn follow<'a>(
    t: &Ty,
    begins: bool,
    marks: &'a [bool],
    next: &mut Vec<bool>,
) -> Result<Ending<'a>, AllocError>
    ensures next { OnOk result (next.new.items ≡ next.old.items ++ next_of t.now begins marks.now) }
    ensures nullable { IfOk result (λ e. e.nullable ≡ is_nullable t.now) }
    ensures ends { IfOk result (λ e. e.ends ≡ may_end t.now marks.now) }
    ensures rest { IfOk result (λ e. e.rest.now ≡ drop (positions_of t.now) marks.now) }
{
    match &t.node {
        TyNode::Never | TyNode::Empty => Ok(end_of(t, marks)),
        TyNode::Item(_) => {
            next.push(begins)?;
            Ok(end_of(t, marks))
        }
        TyNode::Seq(first, second) => {
            let first = follow(first, begins, marks, next)?;
            let behind = (begins && first.nullable) || first.ends;
            let second = follow(second, behind, first.rest, next)?;
            Ok(in_sequence(first, second))
        }
        TyNode::Alt(first, second) => {
            let first = follow(first, begins, marks, next)?;
            let second = follow(second, begins, first.rest, next)?;
            Ok(in_choice(first, second))
        }
        TyNode::Optional(part) => Ok(optional(follow(part, begins, marks, next)?)),
        TyNode::Star(part) => {
            let again = begins || end_of(part, marks).ends;
            Ok(optional(follow(part, again, marks, next)?))
        }
        TyNode::Plus(part) => {
            let again = begins || end_of(part, marks).ends;
            follow(part, again, marks, next)
        }
    }
}

// Puts behind `next` which positions of a type may come next and have an item type that takes a shape, in one walk.
pub(crate) fn follow_taking<'a>(
    schemas: &Schemas,
    shape: &Shape,
    t: &Ty,
    begins: bool,
    marks: &'a [bool],
    next: &mut Vec<bool>,
) -> Result<Ending<'a>, AllocError>
    ensures next { OnOk result (next.new.items ≡ next.old.items ++ next_passing t.now (is_taken schemas.now shape.now) begins marks.now) }
    ensures nullable { IfOk result (λ e. e.nullable ≡ is_nullable t.now) }
    ensures ends { IfOk result (λ e. e.ends ≡ may_end t.now marks.now) }
    ensures rest { IfOk result (λ e. e.rest.now ≡ drop (positions_of t.now) marks.now) }
{
    match &t.node {
        TyNode::Never | TyNode::Empty => Ok(end_of(t, marks)),
        TyNode::Item(kind) => {
            next.push(begins && takes_shape(schemas, shape, kind))?;
            Ok(end_of(t, marks))
        }
        TyNode::Seq(first, second) => {
            let first = follow_taking(schemas, shape, first, begins, marks, next)?;
            let behind = (begins && first.nullable) || first.ends;
            let second = follow_taking(schemas, shape, second, behind, first.rest, next)?;
            Ok(in_sequence(first, second))
        }
        TyNode::Alt(first, second) => {
            let first = follow_taking(schemas, shape, first, begins, marks, next)?;
            let second = follow_taking(schemas, shape, second, begins, first.rest, next)?;
            Ok(in_choice(first, second))
        }
        TyNode::Optional(part) => {
            let part = follow_taking(schemas, shape, part, begins, marks, next)?;
            Ok(optional(part))
        }
        TyNode::Star(part) => {
            let again = begins || end_of(part, marks).ends;
            let part = follow_taking(schemas, shape, part, again, marks, next)?;
            Ok(optional(part))
        }
        TyNode::Plus(part) => {
            let again = begins || end_of(part, marks).ends;
            follow_taking(schemas, shape, part, again, marks, next)
        }
    }
}

/// The flags that are set in both lists.
pub fn meet(alloc: Global, one: &[bool], other: &[bool]) -> Result<Vec<bool>, AllocError>
    ensures { IfOk result (λ met. met.items ≡ both_set one.now other.now) }
{
    let mut met = Vec::new(alloc);
    let mut pending = (one, other);
    while let (Some((x, xs)), Some((y, ys))) = (pending.0.split_first(), pending.1.split_first()) {
        met.push(*x && *y)?;
        pending = (xs, ys);
    }
    Ok(met)
}
