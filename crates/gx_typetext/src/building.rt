// How the type of pieces is built from the front.

ghost use Rattle.std.specs.Prelude.{◌≡◌, IfOk, OnOk, Some};
ghost use Rattle.gx_typetext.specs.Building.{type_of_pieces};
ghost use Rattle.gx_typetext.specs.KnownNames.{first_unknown};
ghost use Rattle.gx_typetext.specs.TypeReading.{ReadAs};
ghost use Rattle.gx_typetext.specs.WrittenTypes.{choice_of_units, with_indicator};

use crate::known::operand_type;
use crate::read::TypeRead;
use crate::written::{Indicator, Piece};
use gx_types::schemas::Schemas;
use gx_types::sequence_type::Ty;
use gx_types::type_rules::{choose, join, optional, plus, star};
use std::alloc::{AllocError, Global};
use std::collections::VecDeque;
use std::marker::Model;
use std::mem;

// What was read between parentheses: the sequence in front of the last choice, the members of that choice in front of the
// last unit, and that unit.
#[derive(Drop)]
pub struct Part {
    sequence: Ty,
    members: Vec<Ty>,
    unit: Ty,
}

impl Model for Part {
    ghost use Rattle.gx_typetext.specs.Building.{BuiltPart};
    ghost use Rattle.std.specs.Coded.{codes};
    ghost use Rattle.gx_types.specs.TypeCode.{type_code};

    ghost Value = { BuiltPart };

    ghost coded = { Prim.hlevel (codes, type_code) };

    ghost view = { λ p. record { sequence = p.sequence; members = p.members.items; unit = p.unit } };
}

impl Part {
    ghost use Rattle.gx_typetext.specs.Building.{no_part_yet, built_type};

    pub fn new(alloc: Global) -> Part
        ensures { result ≡ no_part_yet }
    {
        Part {
            sequence: Ty::empty(),
            members: Vec::new(alloc),
            unit: Ty::empty(),
        }
    }

    // The type of the part.
    pub fn into_type(self, alloc: Global) -> Result<Ty, AllocError>
        ensures { IfOk result (λ t. t ≡ built_type self) }
    {
        let Part {
            sequence,
            mut members,
            unit,
        } = self;
        members.push(unit)?;
        let choice = choice_of_units(alloc, members.as_slice())?;
        join(alloc, &sequence, &choice)
    }
}

// A choice of units: of one unit it is that unit.
fn choice_of_units(alloc: Global, types: &[Ty]) -> Result<Ty, AllocError>
    ensures { IfOk result (λ t. t ≡ choice_of_units types.now) }
{
    match types {
        [] => Ok(Ty::none()),
        [only] => only.clone(),
        _ => choose(alloc, types),
    }
}

// A type under an indicator.
fn indicated(alloc: Global, indicator: Indicator, t: &Ty) -> Result<Ty, AllocError>
    ensures { IfOk result (λ u. u ≡ with_indicator (Some indicator) t.now) }
{
    match indicator {
        Indicator::Optional => optional(alloc, t),
        Indicator::Star => star(alloc, t),
        Indicator::Plus => plus(alloc, t),
    }
}

// The part that the last piece belongs to, and those round it, the innermost first.
#[derive(Drop)]
pub struct Parts {
    inner: Part,
    outer: VecDeque<Part>,
}

impl Model for Parts {
    ghost use Rattle.gx_typetext.specs.Building.{BuiltParts};
    ghost use Rattle.std.specs.Coded.{codes};
    ghost use Rattle.gx_types.specs.TypeCode.{type_code};

    ghost Value = { BuiltParts };

    ghost coded = { Prim.hlevel (codes, type_code) };

    ghost view = { λ p. record { inner = p.inner; outer = p.outer.items } };
}

impl Parts {
    ghost use Rattle.std.specs.Prelude.{MatchResult};
    ghost use Rattle.gx_typetext.specs.Building.{nothing_built, built_type, built_with, part_opened, part_closed, choice_begun, unit_begun, unit_is};
    ghost use Rattle.gx_typetext.specs.KnownNames.{unknown_in_piece};
    ghost use Rattle.gx_typetext.specs.TypeReading.{IsUnknownName};

    pub fn new(alloc: Global) -> Parts
        ensures { result ≡ nothing_built }
    {
        Parts {
            inner: Part::new(alloc),
            outer: VecDeque::new(alloc),
        }
    }

    fn open(&mut self, alloc: Global) -> Result<(), AllocError>
        ensures { OnOk result (self.new ≡ part_opened self.old) }
    {
        let part = mem::replace(&mut self.inner, Part::new(alloc));
        self.outer.push_front(part)?;
        Ok(())
    }

    fn close(&mut self, alloc: Global) -> Result<(), AllocError>
        ensures { OnOk result (self.new ≡ part_closed self.old) }
    {
        let part = match self.outer.pop_front() {
            Some(part) => part,
            None => Part::new(alloc),
        };
        let closed = mem::replace(&mut self.inner, part);
        self.inner.unit = closed.into_type(alloc)?;
        Ok(())
    }

    fn separate_choices(&mut self, alloc: Global) -> Result<(), AllocError>
        ensures { OnOk result (self.new ≡ choice_begun self.old) }
    {
        let part = mem::replace(&mut self.inner, Part::new(alloc));
        self.inner.sequence = part.into_type(alloc)?;
        Ok(())
    }

    fn separate_units(&mut self) -> Result<(), AllocError>
        ensures { OnOk result (self.new ≡ unit_begun self.old) }
    {
        let unit = mem::replace(&mut self.inner.unit, Ty::empty());
        self.inner.members.push(unit)?;
        Ok(())
    }

    fn indicate(&mut self, alloc: Global, indicator: Indicator) -> Result<(), AllocError>
        ensures { OnOk result (self.new ≡ unit_is self.old (with_indicator (Some indicator) self.old.inner.unit)) }
    {
        self.inner.unit = indicated(alloc, indicator, &self.inner.unit)?;
        Ok(())
    }

    // Goes on by a piece.
    pub fn add(&mut self, alloc: Global, schemas: &Schemas, piece: &Piece) -> Result<(), TypeRead>
        ensures { MatchResult result (λ _. (unknown_in_piece schemas.now piece.now ≡ None) × (self.new ≡ built_with schemas.now self.old piece.now)) (λ e. IsUnknownName e (unknown_in_piece schemas.now piece.now)) }
    {
        match piece {
            Piece::Opening => Ok(self.open(alloc)?),
            Piece::Closing => Ok(self.close(alloc)?),
            Piece::Comma => Ok(self.separate_choices(alloc)?),
            Piece::Bar => Ok(self.separate_units()?),
            Piece::Indicated(indicator) => Ok(self.indicate(alloc, *indicator)?),
            Piece::Operand(operand) => {
                self.inner.unit = operand_type(alloc, schemas, operand)?;
                Ok(())
            }
        }
    }

    // The type of all pieces.
    pub fn into_type(self, alloc: Global) -> Result<Ty, AllocError>
        ensures { IfOk result (λ t. t ≡ built_type self.inner) }
    {
        self.inner.into_type(alloc)
    }
}

/// The type of pieces, or the first name in them that is unknown.
pub(crate) fn type_of_pieces(
    alloc: Global,
    schemas: &Schemas,
    pieces: &[Piece],
) -> Result<Ty, TypeRead>
    ensures { ReadAs result (first_unknown schemas.now pieces.now) (type_of_pieces schemas.now pieces.now) }
{
    let mut parts = Parts::new(alloc);
    for piece in pieces {
        parts.add(alloc, schemas, piece)?;
    }
    Ok(parts.into_type(alloc)?)
}
