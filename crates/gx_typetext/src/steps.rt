// The reader of the pieces of type texts, piece by piece.

ghost use Rattle.std.specs.Prelude.{◌≡◌, ◌<◌, ◌^◌, ◌-◌, ℕ, Some, suc, nat_le, true};
ghost use Rattle.gx_typetext.specs.Grammar.{item, nested, separated};
ghost use Rattle.gx_typetext.specs.Steps.{Marked, Stepped, named_step, operand_then, word_phrase};

use crate::letters::Run;
use crate::names::{braced, content, lexeme, nothing_inside, prefixed, word};
use crate::reader::Reader;
use crate::words::{bare, name_word, room_bare, room_inside, with_inside};
use crate::written::{Indicator, Operand, Piece, WrittenItem, WrittenName};
use std::alloc::Global;

/// Whether an operand is due, how many parentheses are open, and how many positions are left.
#[derive(Clone, Copy, PartialEq, Eq)]
pub struct Stage {
    pub is_due: bool,
    pub depth: u32,
    pub room: u32,
}

// An operand with the stage behind it.
fn behind(operand: Operand, depth: u32, room: u32) -> Option<(Piece, Stage)>
    ensures { result ≡ operand_then operand depth room }
{
    let is_due = false;
    let stage = Stage {
        is_due,
        depth,
        room,
    };
    Some((Piece::Operand(operand), stage))
}

// An atomic type with the stage behind it.
fn behind_name(name: Option<WrittenName>, depth: u32, room: u32) -> Option<(Piece, Stage)>
    ensures { result ≡ named_step name depth room }
{
    match name {
        None => None,
        Some(name) => behind(Operand::Item(WrittenItem::Atomic(name)), depth, room),
    }
}

// Reads an item type that begins with a word, or `none` or `empty-sequence()`.
fn word_operand(
    alloc: Global,
    reader: &mut Reader<'_>,
    depth: u32,
    room: u32,
) -> Option<(Piece, Stage)>
    requires { room < 2 ^ 32 - 1 }
    ensures { Stepped result (word_phrase depth room) reader.old reader.new }
{
    let Some(local) = reader.run(alloc, Run::Local) else {
        return None;
    };
    let word = name_word(&local);
    reader.gap();
    let Some(inside_room) = room_inside(word, room) else {
        return behind(bare(word, local), depth, room_bare(word, room));
    };
    if !reader.starts_with('(') {
        return behind(bare(word, local), depth, room_bare(word, room));
    }
    let Some(inside) = content(alloc, reader, word) else {
        return None;
    };
    behind(with_inside(word, inside), depth, inside_room)
}

// Reads `none` or `empty-sequence()`, where no position is left.
fn last_operand(reader: &mut Reader<'_>, depth: u32) -> Option<(Piece, Stage)>
    ensures { Stepped result (item depth 0) reader.old reader.new }
{
    if reader.starts_with('n') {
        word(reader, &['n', 'o', 'n', 'e']);
        return behind(Operand::Never, depth, 0);
    }
    word(
        reader,
        &[
            'e', 'm', 'p', 't', 'y', '-', 's', 'e', 'q', 'u', 'e', 'n', 'c', 'e',
        ],
    );
    nothing_inside(reader);
    behind(Operand::Empty, depth, 0)
}

// Reads an item type, or `none` or `empty-sequence()`.
fn item_operand(
    alloc: Global,
    reader: &mut Reader<'_>,
    depth: u32,
    room: u32,
) -> Option<(Piece, Stage)>
    ensures { Stepped result (item depth room) reader.old reader.new }
{
    if room == 0 {
        return last_operand(reader, depth);
    }
    let room = room - 1;
    if reader.starts_with('{') {
        let name = braced(alloc, reader);
        return behind_name(name, depth, room);
    }
    if reader.looks_at(&['x', 's', ':']) {
        let name = prefixed(alloc, reader);
        return behind_name(name, depth, room);
    }
    word_operand(alloc, reader, depth, room)
}

/// Reads an operand, or a `(` in front of one.
pub fn operand_step(
    alloc: Global,
    reader: &mut Reader<'_>,
    depth: u32,
    room: u32,
) -> Option<(Piece, Stage)>
    ensures { Stepped result (nested (nat_le (suc depth) 40) depth room) reader.old reader.new }
{
    if depth >= 40 {
        return item_operand(alloc, reader, depth, room);
    }
    if reader.starts_with('(') {
        lexeme(reader, &['(']);
        let depth = depth + 1;
        let is_due = true;
        let stage = Stage {
            is_due,
            depth,
            room,
        };
        return Some((Piece::Opening, stage));
    }
    item_operand(alloc, reader, depth, room)
}

/// Reads an indicator, if one stands there (XQuery 1.0, section 2.5.3).
pub fn indicator(reader: &mut Reader<'_>) -> Option<Indicator>
    ensures { (depth room : ℕ) → Marked result depth room reader.old reader.new }
{
    if reader.starts_with('?') {
        lexeme(reader, &['?']);
        return Some(Indicator::Optional);
    }
    if reader.starts_with('*') {
        lexeme(reader, &['*']);
        return Some(Indicator::Star);
    }
    if reader.starts_with('+') {
        lexeme(reader, &['+']);
        return Some(Indicator::Plus);
    }
    None
}

// A piece that an operand follows, with the stage behind it.
fn before_operand(piece: Piece, depth: u32, room: u32) -> Option<(Piece, Stage)>
    ensures { result ≡ Some (piece, record { is_due = true; depth = depth; room = room }) }
{
    let is_due = true;
    let stage = Stage {
        is_due,
        depth,
        room,
    };
    Some((piece, stage))
}

/// Reads a separator, or a `)` where a parenthesis is open.
pub fn separator_step(reader: &mut Reader<'_>, depth: u32, room: u32) -> Option<(Piece, Stage)>
    ensures { Stepped result (separated depth room) reader.old reader.new }
{
    if reader.starts_with(',') {
        lexeme(reader, &[',']);
        return before_operand(Piece::Comma, depth, room);
    }
    if reader.starts_with('|') {
        lexeme(reader, &['|']);
        return before_operand(Piece::Bar, depth, room);
    }
    if depth == 0 {
        return None;
    }
    lexeme(reader, &[')']);
    let depth = depth - 1;
    let is_due = false;
    let stage = Stage {
        is_due,
        depth,
        room,
    };
    Some((Piece::Closing, stage))
}
