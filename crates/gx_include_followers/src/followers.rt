// What may come next behind the start and the positions of a type.

ghost use Rattle.std.specs.Prelude.{◌≡◌, ◌≤◌, ◌+◌, ◌-◌, ◌++◌, ◌&&◌, ◌||◌, [], ◌∷◌, map, reverse, true, false, if◌then◌else◌, option_copied, IfOk, OnOk, slice_get};
ghost use Rattle.std.specs.List.{flat_map, list_any};
ghost use Rattle.gx_types.specs.TypeRules.{positions_of};
ghost use Rattle.gx_include_positions.specs.Positions.{is_nullable};
ghost use Rattle.gx_include_positions.specs.Step.{all_next, is_end};
ghost use Rattle.gx_include_followers.specs.Behind.{behind_each, ends_of};
ghost use Rattle.gx_include_followers.specs.Rope.{numbers_of};
ghost use Rattle.gx_include_followers.specs.Rows.{IsOutline, behind_row, end_row, said_of};

use crate::number_set::NumberSet;
use crate::rope::{Rope, add_numbers, joined};
use gx_types::sequence_type::{Ty, TyNode};
use std::alloc::{AllocError, Global};
use std::marker::Model;
use std::rc::Rc;

// What is known of a part of a type: the number of its first position, the positions at which a list may begin, and whether it
// takes the empty list.
#[derive(Drop)]
pub struct Outline {
    first: usize,
    firsts: Rc<Rope>,
    nullable: bool,
}

// The positions that may come next behind a position, and whether a list may end there.
#[derive(Drop)]
pub struct Row {
    behind: Rc<Rope>,
    end: bool,
}

/// What may come next behind the start and each position of a type, found once. The rows stand in the order from the last
/// position to the first.
#[derive(Drop)]
pub struct Followers<'a> {
    t: &'a Ty,
    outline: Outline,
    rows: Vec<Row>,
}

impl<'a> Model for Followers<'a> {
    ghost use Rattle.gx_types.specs.SequenceType.{SequenceType};
    ghost use Rattle.gx_types.specs.TypeCode.{type_code};
    ghost use Rattle.gx_include_followers.specs.Rows.{AreFollowers};

    ghost Value = { SequenceType };

    ghost coded = { type_code };

    ghost view = { λ followers. followers.t.now };

    ghost invariant = { λ followers. AreFollowers followers.t.now followers.outline followers.rows.items };
}

impl<'a> Followers<'a> {
    /// The followers in a type.
    pub fn new(alloc: Global, t: &'a Ty) -> Result<Followers<'a>, AllocError>
        ensures { IfOk result (λ followers. followers ≡ t.now) }
    {
        let end = count(t)?.checked_add(1).ok_or(AllocError)?;
        let nothing = Rc::new(alloc, Rope::Empty)?;
        let mut rows = Vec::new(alloc);
        let outline = add_rows(alloc, t, end, &nothing, true, &mut rows)?;
        Ok(Followers { t, outline, rows })
    }

    /// The places that may come next behind those of a set.
    pub fn next(&self, alloc: Global, set: &NumberSet) -> Result<NumberSet, AllocError>
        ensures { IfOk result (λ next. next ≡ all_next self.now set.now) }
    {
        let rows = self.rows.as_slice();
        let numbers = behind_all(alloc, &self.outline.firsts, rows, set.members())?;
        Ok(NumberSet::of(rows.len() + 1, numbers))
    }

    /// Whether a list of the type may end at a member of a set.
    pub fn ends(&self, set: &NumberSet) -> bool
        ensures { result ≡ is_end self.now set.now }
    {
        ends_at_one(self.outline.nullable, self.rows.as_slice(), set.members())
    }
}

// How many positions a type has.
fn count(t: &Ty) -> Result<usize, AllocError>
    ensures { IfOk result (λ count. count ≡ positions_of t.now) }
{
    match &t.node {
        TyNode::Never | TyNode::Empty => Ok(0),
        TyNode::Item(_) => Ok(1),
        TyNode::Seq(one, other) | TyNode::Alt(one, other) => {
            let first = count(one)?;
            first.checked_add(count(other)?).ok_or(AllocError)
        }
        TyNode::Optional(part) | TyNode::Star(part) | TyNode::Plus(part) => count(part),
    }
}

// A part without positions that ends before a number.
fn no_position(alloc: Global, end: usize, nullable: bool) -> Result<Outline, AllocError>
    ensures { IfOk result (λ outline. (outline.first ≡ end) × (numbers_of outline.firsts.value ≡ []) × (outline.nullable ≡ nullable)) }
{
    Ok(Outline {
        first: end,
        firsts: Rc::new(alloc, Rope::Empty)?,
        nullable,
    })
}

// A part of one position that ends before a number.
fn one_position(alloc: Global, end: usize) -> Result<Outline, AllocError>
    requires { 1 ≤ end }
    ensures { IfOk result (λ outline. (outline.first + 1 ≡ end) × (numbers_of outline.firsts.value ≡ outline.first ∷ []) × (outline.nullable ≡ false)) }
{
    let first = end - 1;
    Ok(Outline {
        first,
        firsts: Rc::new(alloc, Rope::One(first))?,
        nullable: false,
    })
}

// One part and then another.
fn in_sequence(alloc: Global, one: &Outline, other: &Outline) -> Result<Outline, AllocError>
    ensures first { IfOk result (λ outline. outline.first ≡ one.now.first) }
    ensures firsts { IfOk result (λ outline. numbers_of outline.firsts.value ≡ numbers_of one.now.firsts.value ++ (if one.now.nullable then numbers_of other.now.firsts.value else [])) }
    ensures nullable { IfOk result (λ outline. outline.nullable ≡ one.now.nullable && other.now.nullable) }
{
    let firsts = if one.nullable {
        joined(alloc, &one.firsts, &other.firsts)?
    } else {
        one.firsts.clone()?
    };
    Ok(Outline {
        first: one.first,
        firsts,
        nullable: one.nullable && other.nullable,
    })
}

// One part or another.
fn in_choice(alloc: Global, one: &Outline, other: &Outline) -> Result<Outline, AllocError>
    ensures first { IfOk result (λ outline. outline.first ≡ one.now.first) }
    ensures firsts { IfOk result (λ outline. numbers_of outline.firsts.value ≡ numbers_of one.now.firsts.value ++ numbers_of other.now.firsts.value) }
    ensures nullable { IfOk result (λ outline. outline.nullable ≡ one.now.nullable || other.now.nullable) }
{
    Ok(Outline {
        first: one.first,
        firsts: joined(alloc, &one.firsts, &other.firsts)?,
        nullable: one.nullable || other.nullable,
    })
}

// A part or the empty sequence.
fn optional(part: Outline) -> Outline
    ensures { (result.first ≡ part.first) × (result.firsts ≡ part.firsts) × (result.nullable ≡ true) }
{
    Outline {
        nullable: true,
        ..part
    }
}

// The outline of a part of a type that ends before a number.
fn outline_of(alloc: Global, t: &Ty, end: usize) -> Result<Outline, AllocError>
    requires { positions_of t.now ≤ end }
    ensures { IfOk result (λ outline. IsOutline t.now end outline) }
{
    match &t.node {
        TyNode::Never => no_position(alloc, end, false),
        TyNode::Empty => no_position(alloc, end, true),
        TyNode::Item(_) => one_position(alloc, end),
        TyNode::Seq(one, other) => {
            let other = outline_of(alloc, other, end)?;
            let one = outline_of(alloc, one, other.first)?;
            in_sequence(alloc, &one, &other)
        }
        TyNode::Alt(one, other) => {
            let other = outline_of(alloc, other, end)?;
            let one = outline_of(alloc, one, other.first)?;
            in_choice(alloc, &one, &other)
        }
        TyNode::Optional(part) | TyNode::Star(part) => {
            let part = outline_of(alloc, part, end)?;
            Ok(optional(part))
        }
        TyNode::Plus(part) => outline_of(alloc, part, end),
    }
}

// What may come next behind the last position in front of a part.
fn behind_part(
    alloc: Global,
    part: &Outline,
    nullable: bool,
    after: &Rc<Rope>,
) -> Result<Rc<Rope>, AllocError>
    ensures { IfOk result (λ behind. numbers_of behind.value ≡ numbers_of part.now.firsts.value ++ (if nullable then numbers_of after.now.value else [])) }
{
    if nullable {
        joined(alloc, &part.firsts, after)
    } else {
        part.firsts.clone()
    }
}

// Puts the rows of the positions of a part of a type that ends before a number behind those of the positions that follow it.
fn add_rows(
    alloc: Global,
    t: &Ty,
    end: usize,
    after: &Rc<Rope>,
    ends: bool,
    rows: &mut Vec<Row>,
) -> Result<Outline, AllocError>
    requires { positions_of t.now ≤ end }
    ensures outline { IfOk result (λ outline. IsOutline t.now end outline) }
    ensures behind { IfOk result (λ outline. map behind_row rows.new.items ≡ map behind_row rows.old.items ++ reverse (behind_each outline.first t.now (numbers_of after.now.value))) }
    ensures ends { OnOk result (map end_row rows.new.items ≡ map end_row rows.old.items ++ reverse (ends_of t.now ends)) }
{
    match &t.node {
        TyNode::Never => no_position(alloc, end, false),
        TyNode::Empty => no_position(alloc, end, true),
        TyNode::Item(_) => {
            add_row(after, ends, rows)?;
            one_position(alloc, end)
        }
        TyNode::Seq(one, other) => {
            let other = add_rows(alloc, other, end, after, ends, rows)?;
            let behind = behind_part(alloc, &other, other.nullable, after)?;
            let end = ends && other.nullable;
            let one = add_rows(alloc, one, other.first, &behind, end, rows)?;
            in_sequence(alloc, &one, &other)
        }
        TyNode::Alt(one, other) => {
            let other = add_rows(alloc, other, end, after, ends, rows)?;
            let one = add_rows(alloc, one, other.first, after, ends, rows)?;
            in_choice(alloc, &one, &other)
        }
        TyNode::Optional(part) => {
            let part = add_rows(alloc, part, end, after, ends, rows)?;
            Ok(optional(part))
        }
        TyNode::Star(part) => {
            let behind = behind_part(alloc, &outline_of(alloc, part, end)?, true, after)?;
            let part = add_rows(alloc, part, end, &behind, ends, rows)?;
            Ok(optional(part))
        }
        TyNode::Plus(part) => {
            let behind = behind_part(alloc, &outline_of(alloc, part, end)?, true, after)?;
            add_rows(alloc, part, end, &behind, ends, rows)
        }
    }
}

// Puts the row of a position behind others.
fn add_row(behind: &Rc<Rope>, end: bool, rows: &mut Vec<Row>) -> Result<(), AllocError>
    ensures behind { OnOk result (map behind_row rows.new.items ≡ map behind_row rows.old.items ++ numbers_of behind.now.value ∷ []) }
    ensures ends { OnOk result (map end_row rows.new.items ≡ map end_row rows.old.items ++ end ∷ []) }
{
    let behind = behind.clone()?;
    rows.push(Row { behind, end })?;
    Ok(())
}

// The row of a position by its number, which begins at 1.
fn row_of(rows: &[Row], place: usize) -> Option<&Row>
    requires { 1 ≤ place }
    ensures { option_copied result ≡ slice_get (reverse rows.now) (place - 1) }
{
    let index = rows.len().checked_sub(place)?;
    rows.get(index)
}

// Puts the positions that may come next behind a place behind others.
fn add_behind(
    firsts: &Rope,
    rows: &[Row],
    place: usize,
    numbers: &mut Vec<usize>,
) -> Result<(), AllocError>
    ensures { OnOk result (numbers.new.items ≡ numbers.old.items ++ said_of (numbers_of firsts.now) (map behind_row rows.now) [] place) }
{
    if place == 0 {
        return add_numbers(firsts, numbers);
    }
    match row_of(rows, place) {
        Some(row) => add_numbers(&row.behind, numbers),
        None => Ok(()),
    }
}

// The positions that may come next behind the members of a set.
fn behind_all(
    alloc: Global,
    firsts: &Rope,
    rows: &[Row],
    members: &[usize],
) -> Result<Vec<usize>, AllocError>
    ensures { IfOk result (λ numbers. numbers.items ≡ flat_map (said_of (numbers_of firsts.now) (map behind_row rows.now) []) members.now) }
{
    let mut numbers = Vec::new(alloc);
    for place in members {
        add_behind(firsts, rows, *place, &mut numbers)?;
    }
    Ok(numbers)
}

// Whether a list may end at a place.
fn ends_at(nullable: bool, rows: &[Row], place: usize) -> bool
    ensures { result ≡ said_of nullable (map end_row rows.now) false place }
{
    if place == 0 {
        return nullable;
    }
    match row_of(rows, place) {
        Some(row) => row.end,
        None => false,
    }
}

// Whether a list may end at a member of a set.
fn ends_at_one(nullable: bool, rows: &[Row], members: &[usize]) -> bool
    ensures { result ≡ list_any (said_of nullable (map end_row rows.now) false) members.now }
{
    for place in members {
        if ends_at(nullable, rows, *place) {
            return true;
        }
    }
    false
}
