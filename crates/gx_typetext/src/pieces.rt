// The pieces of a type text.

ghost use Rattle.std.specs.Prelude.{◌≡◌, IfOk, IfSome, OnOk, MatchResult, Ok, Err};
ghost use Rattle.gx_typetext.specs.Grammar.{behind, operand};
ghost use Rattle.gx_typetext.specs.Pieces.{Extended, Finished, MarkedOn, PiecesAre, error_of};
ghost use Rattle.gx_typetext.specs.Steps.{production_of};

use crate::reader::{End, Reader};
use crate::steps::{Stage, indicator, operand_step, separator_step};
use crate::written::Piece;
use std::alloc::{AllocError, Global};

/// Why a text has no pieces of a type: nothing fits behind the furthest character, of which so many are left; or memory did
/// not suffice.
#[derive(Clone, Copy, PartialEq, Eq)]
pub enum PiecesError {
    Unfit(usize),
    Memory,
}

// Reads an operand, or a `(` in front of one.
fn due_step(
    alloc: Global,
    reader: &mut Reader<'_>,
    pieces: &mut Vec<Piece>,
    depth: u32,
    room: u32,
) -> Result<Option<Stage>, AllocError>
    ensures { IfOk result (λ next. Extended pieces.old.items pieces.new.items next (operand depth room) reader.old reader.new) }
{
    let Some((piece, next)) = operand_step(alloc, reader, depth, room) else {
        return Ok(None);
    };
    pieces.push(piece)?;
    Ok(Some(next))
}

// Reads an indicator, if one stands there.
fn mark_step(reader: &mut Reader<'_>, pieces: &mut Vec<Piece>) -> Result<(), AllocError>
    ensures { OnOk result (MarkedOn pieces.old.items pieces.new.items reader.old reader.new) }
{
    let Some(mark) = indicator(reader) else {
        return Ok(());
    };
    pieces.push(Piece::Indicated(mark))?;
    Ok(())
}

// Reads what stands behind an operand.
fn behind_step(
    reader: &mut Reader<'_>,
    pieces: &mut Vec<Piece>,
    depth: u32,
    room: u32,
) -> Result<Option<Stage>, AllocError>
    ensures { IfOk result (λ next. Extended pieces.old.items pieces.new.items next (behind depth room) reader.old reader.new) }
{
    mark_step(reader, pieces)?;
    let Some((piece, next)) = separator_step(reader, depth, room) else {
        return Ok(None);
    };
    pieces.push(piece)?;
    Ok(Some(next))
}

// Reads what is due.
fn step(
    alloc: Global,
    reader: &mut Reader<'_>,
    pieces: &mut Vec<Piece>,
    stage: Stage,
) -> Result<Option<Stage>, AllocError>
    ensures { IfOk result (λ next. Extended pieces.old.items pieces.new.items next (production_of stage) reader.old reader.new) }
{
    if stage.is_due {
        due_step(alloc, reader, pieces, stage.depth, stage.room)
    } else {
        behind_step(reader, pieces, stage.depth, stage.room)
    }
}

// Reads all pieces in at most so many steps; none where these do not suffice.
fn all_pieces(
    alloc: Global,
    reader: &mut Reader<'_>,
    steps: usize,
) -> Result<Option<Vec<Piece>>, AllocError>
    ensures { IfOk result (λ read. IfSome read (λ pieces. Finished pieces.items reader.old reader.new)) }
{
    let mut pieces = Vec::new(alloc);
    let mut stage = Stage {
        is_due: true,
        depth: 0,
        room: 1024,
    };
    for _ in 0..steps {
        let Some(next) = step(alloc, reader, &mut pieces, stage)? else {
            return Ok(Some(pieces));
        };
        if reader.has_ended() {
            return Ok(Some(pieces));
        }
        stage = next;
    }
    Ok(None)
}

// Why there are no pieces, by how reading ended.
fn error_of(end: End) -> PiecesError
    ensures { result ≡ error_of end }
{
    match end {
        End::Unfit(far) => PiecesError::Unfit(far),
        End::Lost => PiecesError::Memory,
    }
}

/// Reads the pieces of a type text (XQuery 1.0, section 2.5.3, with `,` between the parts of a sequence and `|` between the
/// members of a choice). At most 40 parentheses stand in one another, and at most 1,024 positions in the text.
pub fn read_pieces(alloc: Global, text: &[char]) -> Result<Vec<Piece>, PiecesError>
    ensures { MatchResult result (λ pieces. PiecesAre text.now (Ok pieces.items)) (λ e. PiecesAre text.now (Err e)) }
{
    let mut reader = Reader::new(text);
    reader.gap();
    let Ok(read) = all_pieces(alloc, &mut reader, text.len().saturating_add(1)) else {
        return Err(PiecesError::Memory);
    };
    let Some(pieces) = read else {
        return Err(PiecesError::Memory);
    };
    match reader.outcome() {
        None => Ok(pieces),
        Some(end) => Err(error_of(end)),
    }
}
