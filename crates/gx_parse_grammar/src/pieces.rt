// What attribute values and the content of direct elements are made of as they are written, and the parts that it comes to.

ghost use Rattle.std.specs.Prelude.{◌≡◌, [], ◌∷◌, ◌++◌, IfOk, OnOk};
ghost use Rattle.gx_ast.specs.declared.expression.AttributePart.TheVariants as attribute_parts;
ghost use Rattle.gx_base.specs.WhiteSpace.{is_white_space};
ghost use Rattle.gx_grammar.specs.Tokens.{all_pass};
ghost use Rattle.gx_parse_grammar.specs.declared.pieces.Pending.TheVariants as pendings;
ghost use Rattle.gx_parse_grammar.specs.Pieces.{content_behind, content_of_pieces, pending_parts, text_parts, value_behind, attribute_value_of, with_kept, with_literal};

use gx_ast::expression::{AttributePart, Expr, Part};
use gx_base::characters::{is_white_space, next_character};
use gx_base::text::Text;
use gx_base::text_builder::TextBuilder;
use std::alloc::{AllocError, Global};
use std::mem;

/// A piece as it is written (XQuery 1.0, sections 3.7.1.1 and 3.7.1.3).
#[derive(Drop)]
pub enum Piece {
    /// Literal characters.
    Literal(TextBuilder),
    /// The characters of a reference or of a CDATA section.
    Kept(TextBuilder),
    /// A direct element.
    Element(Expr),
    /// An enclosed expression.
    Enclosed(Expr),
}

/// Text that stands in no part yet.
#[derive(Drop)]
pub enum Pending {
    Nothing,
    /// Literal characters alone.
    Literal(TextBuilder),
    /// Characters, among them some of a reference or of a CDATA section.
    Kept(TextBuilder),
}

/// The parts of content so far, and the text behind them.
#[derive(Drop)]
pub struct Content {
    pub parts: Vec<Part>,
    pub pending: Pending,
}

/// The parts of an attribute value so far, and the text behind them.
#[derive(Drop)]
pub struct Value {
    pub parts: Vec<AttributePart>,
    pub text: TextBuilder,
}

// Two texts, one behind the other.
fn joined(front: TextBuilder, back: TextBuilder) -> Result<TextBuilder, AllocError>
    ensures { IfOk result (λ text. text ≡ front ++ back) }
{
    let mut text = front;
    text.append(&back)?;
    Ok(text)
}

// The text with literal characters behind it.
fn with_literal(pending: Pending, text: TextBuilder) -> Result<Pending, AllocError>
    ensures { IfOk result (λ p. p ≡ with_literal pending text) }
{
    match pending {
        Pending::Nothing => Ok(Pending::Literal(text)),
        Pending::Literal(front) => Ok(Pending::Literal(joined(front, text)?)),
        Pending::Kept(front) => Ok(Pending::Kept(joined(front, text)?)),
    }
}

// The text with the characters of a reference or of a CDATA section behind it.
fn with_kept(pending: Pending, text: TextBuilder) -> Result<Pending, AllocError>
    ensures { IfOk result (λ p. p ≡ with_kept pending text) }
{
    match pending {
        Pending::Nothing => Ok(Pending::Kept(text)),
        Pending::Literal(front) | Pending::Kept(front) => Ok(Pending::Kept(joined(front, text)?)),
    }
}

// Whether the text is white space alone.
fn is_blank(text: &Text) -> bool
    ensures { result ≡ all_pass is_white_space text.now }
{
    let mut rest = text.as_str().chars();
    while let Some(character) = next_character(&mut rest) {
        if !is_white_space(character) {
            return false;
        }
    }
    true
}

// The part of literal characters.
fn literal_part(text: TextBuilder) -> Result<Part, AllocError>
    ensures { IfOk result (λ part. pending_parts (pendings.Literal text) ≡ part ∷ []) }
{
    let text = text.finish()?;
    if is_blank(&text) {
        Ok(Part::Blank(text))
    } else {
        Ok(Part::Text(text))
    }
}

impl Pending {
    // Adds literal characters.
    fn push_literal(&mut self, text: TextBuilder) -> Result<(), AllocError>
        ensures { OnOk result (self.new ≡ with_literal self.old text) }
    {
        let front = mem::replace(self, Pending::Nothing);
        *self = with_literal(front, text)?;
        Ok(())
    }

    // Adds the characters of a reference or of a CDATA section.
    fn push_kept(&mut self, text: TextBuilder) -> Result<(), AllocError>
        ensures { OnOk result (self.new ≡ with_kept self.old text) }
    {
        let front = mem::replace(self, Pending::Nothing);
        *self = with_kept(front, text)?;
        Ok(())
    }
}

impl Content {
    // Makes a part of the text behind the parts.
    fn flush(&mut self) -> Result<(), AllocError>
        ensures parts { OnOk result (self.new.parts.items ≡ self.old.parts.items ++ pending_parts self.old.pending) }
        ensures pending { OnOk result (self.new.pending ≡ pendings.Nothing) }
    {
        let part = match mem::replace(&mut self.pending, Pending::Nothing) {
            Pending::Nothing => return Ok(()),
            Pending::Literal(text) => literal_part(text)?,
            Pending::Kept(text) => Part::Text(text.finish()?),
        };
        self.parts.push(part)?;
        Ok(())
    }

    // Adds a part.
    fn push_part(&mut self, part: Part) -> Result<(), AllocError>
        ensures parts { OnOk result (self.new.parts.items ≡ self.old.parts.items ++ pending_parts self.old.pending ++ part ∷ []) }
        ensures pending { OnOk result (self.new.pending ≡ pendings.Nothing) }
    {
        let part = self.flush().and(Ok(part))?;
        self.parts.push(part)?;
        Ok(())
    }

    // Adds a piece.
    fn push(&mut self, piece: Piece) -> Result<(), AllocError>
        ensures { OnOk result ((self.new.parts.items, self.new.pending) ≡ content_behind (self.old.parts.items, self.old.pending) piece) }
    {
        match piece {
            Piece::Element(element) => self.push_part(Part::Element(element)),
            Piece::Enclosed(value) => self.push_part(Part::Enclosed(value)),
            Piece::Literal(text) => self.pending.push_literal(text),
            Piece::Kept(text) => self.pending.push_kept(text),
        }
    }
}

/// The parts that the pieces of the content of an element come to (XQuery 1.0, section 3.7.1.4).
pub fn content_of_pieces(alloc: Global, pieces: Vec<Piece>) -> Result<Vec<Part>, AllocError>
    ensures { IfOk result (λ list. list.items ≡ content_of_pieces pieces.items) }
{
    let mut content = Content {
        parts: Vec::new(alloc),
        pending: Pending::Nothing,
    };
    for piece in pieces {
        content.push(piece)?;
    }
    content.flush()?;
    let Content { parts, pending: _ } = content;
    Ok(parts)
}

impl Value {
    // Makes a part of the text behind the parts, if it has characters.
    fn flush(&mut self, alloc: Global) -> Result<(), AllocError>
        ensures parts { OnOk result (self.new.parts.items ≡ self.old.parts.items ++ text_parts self.old.text) }
        ensures text { OnOk result (self.new.text ≡ []) }
    {
        if self.text.is_empty() {
            return Ok(());
        }
        let text = mem::replace(&mut self.text, TextBuilder::new(alloc));
        self.parts.push(AttributePart::Text(text.finish()?))?;
        Ok(())
    }

    // Adds the value of an enclosed expression.
    fn push_enclosed(&mut self, alloc: Global, value: Expr) -> Result<(), AllocError>
        ensures parts { OnOk result (self.new.parts.items ≡ self.old.parts.items ++ text_parts self.old.text ++ attribute_parts.Enclosed value ∷ []) }
        ensures text { OnOk result (self.new.text ≡ []) }
    {
        let value = self.flush(alloc).and(Ok(value))?;
        self.parts.push(AttributePart::Enclosed(value))?;
        Ok(())
    }

    // Adds a piece.
    fn push(&mut self, alloc: Global, piece: Piece) -> Result<(), AllocError>
        ensures { OnOk result ((self.new.parts.items, self.new.text) ≡ value_behind (self.old.parts.items, self.old.text) piece) }
    {
        match piece {
            Piece::Element(_) => Ok(()),
            Piece::Enclosed(value) => self.push_enclosed(alloc, value),
            Piece::Literal(text) | Piece::Kept(text) => self.text.append(&text),
        }
    }
}

/// The parts that the pieces of an attribute value come to (XQuery 1.0, section 3.7.1.1).
pub fn attribute_value_of(
    alloc: Global,
    pieces: Vec<Piece>,
) -> Result<Vec<AttributePart>, AllocError>
    ensures { IfOk result (λ list. list.items ≡ attribute_value_of pieces.items) }
{
    let mut value = Value {
        parts: Vec::new(alloc),
        text: TextBuilder::new(alloc),
    };
    for piece in pieces {
        value.push(alloc, piece)?;
    }
    value.flush(alloc)?;
    let Value { parts, text: _ } = value;
    Ok(parts)
}
