// The reader of the parts of direct constructors that hold no expressions (XQuery 1.0, section 3.7.1).

ghost use Rattle.std.specs.Prelude.{◌≡◌, ◌++◌, ℕ, List};
ghost use Rattle.gx_grammar.specs.Ran.{Ran};
ghost use Rattle.gx_grammar.specs.Value.{nothing};
ghost use Rattle.gx_parse_grammar.specs.Basics.{name};
ghost use Rattle.gx_parse_grammar.specs.Direct.{behind_attribute, cdata, end_tag, piece_made, reference_piece, symbol_piece, text_piece};
ghost use Rattle.gx_parse_constructors.specs.DirectReading.{MadeOrLost, OnePiece, ends_text};
ghost use Rattle.gx_parse_grammar.specs.Grammar.{place_in};
ghost use Rattle.gx_parse_tokens.specs.Names.{name_made};
ghost use Rattle.gx_parse_grammar.specs.Nodes.{Made};
ghost use Rattle.gx_parse_grammar.specs.Pieces.{content_of_pieces, attribute_value_of};
ghost use Rattle.gx_parse_tokens.specs.Reading.{read_in};
ghost use Rattle.gx_parse_grammar.specs.Types.{Gave, named};

use crate::strings::push;
use gx_ast::expression::{AttributePart, Part};
use gx_ast::name::QName;
use gx_base::text_builder::TextBuilder;
use gx_parse_grammar::pieces::{Piece, attribute_value_of, content_of_pieces};
use gx_parse_grammar::runs::Run;
use gx_parse_grammar::word::{Word, WordSet};
use gx_parse_parts::parts::with_item;
use gx_parse_parts::trees::fitted;
use gx_parse_tokens::names::ReadName;
use gx_parse_tokens::reader::Reader;
use gx_parse_tokens::source::Source;

/// The parts of the content that was read so far, and the pieces behind them, which come to no parts yet.
#[derive(Drop)]
pub struct ContentRead {
    pub parts: Vec<Part>,
    pub pieces: Vec<Piece>,
}

/// Reads a name.
pub fn bare_name(reader: &mut Reader<'_>, source: &Source<'_>) -> Option<QName>
    ensures { (n : ℕ) → Gave named result reader.old reader.new (read_in source.now n (name (place_in source.now))) }
{
    let place = source.place(reader.left());
    let Some(name) = reader.name(source.alloc()) else {
        return None;
    };
    match name.at(source, place) {
        Ok(written) => Some(written),
        Err(_) => {
            reader.lose();
            None
        }
    }
}

/// Reads what stands behind an attribute.
pub fn behind_attribute(reader: &mut Reader<'_>)
    ensures { (text : List ℕ) (n : ℕ) → Ran nothing reader.old reader.new (read_in text n behind_attribute) }
{
    if reader.looks_at_white() {
        reader.white();
    } else {
        reader.no_attribute();
    }
}

/// The parts of an attribute value; none where memory does not suffice.
pub fn value_parts(
    reader: &mut Reader<'_>,
    source: &Source<'_>,
    pieces: Vec<Piece>,
) -> Vec<AttributePart>
    ensures { MadeOrLost result.items (attribute_value_of pieces.items) reader.old reader.new }
{
    match attribute_value_of(source.alloc(), pieces) {
        Ok(parts) => fitted(parts),
        Err(_) => {
            reader.lose();
            Vec::new(source.alloc())
        }
    }
}

/// Reads a piece that is a reference.
pub fn reference_piece(reader: &mut Reader<'_>, source: &Source<'_>) -> Piece
    ensures { (n : ℕ) → Ran (piece_made result) reader.old reader.new (read_in source.now n reference_piece) }
{
    let mut text = TextBuilder::new(source.alloc());
    let character = reader.reference();
    push(reader, &mut text, character);
    Piece::Kept(text)
}

/// Reads a word that stands for a character.
pub fn symbol_piece(reader: &mut Reader<'_>, source: &Source<'_>, word: Word, symbol: char) -> Piece
    ensures { (n : ℕ) → Ran (piece_made result) reader.old reader.new (read_in source.now n (symbol_piece word symbol)) }
{
    let mut text = TextBuilder::new(source.alloc());
    reader.word(WordSet::Only(word));
    push(reader, &mut text, symbol);
    Piece::Literal(text)
}

/// Reads literal text.
pub fn text_piece(reader: &mut Reader<'_>, source: &Source<'_>, run: Run) -> Piece
    ensures { (n : ℕ) → Ran (piece_made result) reader.old reader.new (read_in source.now n (text_piece run)) }
{
    let mut text = TextBuilder::new(source.alloc());
    reader.text(run, &mut text);
    Piece::Literal(text)
}

/// Reads a CDATA section.
pub fn cdata(reader: &mut Reader<'_>, source: &Source<'_>) -> Piece
    ensures { (n : ℕ) → Ran (piece_made result) reader.old reader.new (read_in source.now n cdata) }
{
    let mut text = TextBuilder::new(source.alloc());
    reader.word(WordSet::Only(Word::CdataOpen));
    reader.cdata(&mut text);
    reader.word(WordSet::Only(Word::TagEnd));
    Piece::Kept(text)
}

/// Reads the end tag of the element with that name.
pub fn end_tag(reader: &mut Reader<'_>, source: &Source<'_>, name: &ReadName)
    ensures { (n : ℕ) → (v : Made) × Ran v reader.old reader.new (read_in source.now n (end_tag (name_made name.now))) }
{
    reader.word(WordSet::Only(Word::EndTagOpen));
    let Ok(letters) = name.letters(source.alloc()) else {
        reader.lose();
        return;
    };
    reader.tag_name(letters.as_slice());
    reader.blank();
    reader.word(WordSet::Only(Word::TagEnd));
}

/// The content with a piece more. An element or an enclosed expression ends the text in front of it, so that what was read
/// becomes parts there, and no second list of all pieces is kept.
pub fn with_piece(
    reader: &mut Reader<'_>,
    source: &Source<'_>,
    read: ContentRead,
    piece: Piece,
) -> ContentRead
    ensures { OnePiece (read.parts.items, read.pieces.items) piece (result.parts.items, result.pieces.items) reader.old reader.new }
{
    let ends_text = ends_text(&piece);
    let ContentRead { parts, pieces } = read;
    let pieces = with_item(reader, pieces, piece);
    let read = ContentRead { parts, pieces };
    if !ends_text {
        return read;
    }
    let parts = all_parts(reader, source, read);
    ContentRead {
        parts,
        pieces: Vec::new(source.alloc()),
    }
}

// Whether the piece ends the text in front of it.
fn ends_text(piece: &Piece) -> bool
    ensures { result ≡ ends_text piece.now }
{
    matches!(piece, Piece::Element(_) | Piece::Enclosed(_))
}

/// The parts of all that was read; others where memory does not suffice.
pub fn all_parts(reader: &mut Reader<'_>, source: &Source<'_>, read: ContentRead) -> Vec<Part>
    ensures { MadeOrLost result.items (read.parts.items ++ content_of_pieces read.pieces.items) reader.old reader.new }
{
    let ContentRead { parts, pieces } = read;
    let further = content_parts(reader, source, pieces);
    with_parts(reader, parts, further)
}

// The parts with further ones; others where memory does not suffice.
fn with_parts(reader: &mut Reader<'_>, parts: Vec<Part>, further: Vec<Part>) -> Vec<Part>
    ensures { MadeOrLost result.items (parts.items ++ further.items) reader.old reader.new }
{
    let mut list = parts;
    if list.is_empty() {
        return further;
    }
    let mut further = further;
    if list.append(&mut further).is_err() {
        reader.lose();
        return list;
    }
    list
}

// The parts of content; none where memory does not suffice.
fn content_parts(reader: &mut Reader<'_>, source: &Source<'_>, pieces: Vec<Piece>) -> Vec<Part>
    ensures { MadeOrLost result.items (content_of_pieces pieces.items) reader.old reader.new }
{
    match content_of_pieces(source.alloc(), pieces) {
        Ok(parts) => parts,
        Err(_) => {
            reader.lose();
            Vec::new(source.alloc())
        }
    }
}
