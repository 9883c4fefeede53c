// The reading of type texts.

ghost use Rattle.std.specs.Prelude.{◌≡◌, ◌≤◌, IfOk, MatchResult, length};
ghost use Rattle.std.specs.Str.{chars, encode_utf8_all};
ghost use Rattle.gx_typetext.specs.Reading.{HasPieces, IsRefusedAt};
ghost use Rattle.gx_typetext.specs.TypeReading.{IsTypeRefused, IsTypeText};

use crate::building::type_of_pieces;
use crate::pieces::{PiecesError, read_pieces};
use crate::written::Piece;
use gx_base::limits::FILE_BYTES;
use gx_base::place::Place;
use gx_base::text::Text;
use gx_grammar::place::refusal_place;
use gx_types::schemas::Schemas;
use gx_types::sequence_type::Ty;
use std::alloc::{AllocError, Global};

/// Why a text stands for no type: it is no type text, and the place is the end of its longest front that begins one; or a name
/// in it is unknown, of which the text has the first; or memory did not suffice.
#[derive(Drop)]
pub enum TypeRead {
    BadType(Place),
    UnknownName(Text),
    Memory,
}

impl From<AllocError> for TypeRead {
    ghost use Rattle.gx_typetext.specs.declared.read.TypeRead.TheVariants.{Memory};

    ghost from_gives = { λ _ e. e ≡ Memory };

    fn from(_error: AllocError) -> TypeRead {
        TypeRead::Memory
    }
}

/// Reads a type text (XQuery 1.0, section 2.5.3, with `,` between the parts of a sequence and `|` between the members of a
/// choice). Names are written `local`, `xs:local` and `{uri}local`; an item type that is a name by itself is that of an atomic
/// type. At most 40 parentheses stand in one another, and at most 1,024 positions in the text.
pub fn read_type(alloc: Global, schemas: &Schemas, text: &Text) -> Result<Ty, TypeRead>
    requires { length (encode_utf8_all text.now) ≤ FILE_BYTES }
    ensures { MatchResult result (λ t. IsTypeText schemas.now text.now t) (λ e. IsTypeRefused schemas.now text.now e) }
{
    match read_written(alloc, text) {
        Ok(pieces) => type_of_pieces(alloc, schemas, pieces.as_slice()),
        Err(WrittenError::BadType(place)) => Err(TypeRead::BadType(place)),
        Err(WrittenError::Memory) => Err(TypeRead::Memory),
    }
}

/// Why a text is no type text: nothing fits at the place, which is the end of the longest front of the text that opens a
/// type text; or memory did not suffice.
#[derive(Clone, Copy, PartialEq, Eq)]
pub enum WrittenError {
    BadType(Place),
    Memory,
}

// The characters of a string.
fn characters(alloc: Global, text: &str) -> Result<Vec<char>, AllocError>
    ensures { IfOk result (λ v. v.items ≡ chars text.now) }
{
    text.chars().collect(alloc)
}

// The characters of a text.
fn characters_of(alloc: Global, text: &Text) -> Result<Vec<char>, AllocError>
    ensures { IfOk result (λ v. v.items ≡ text.now) }
{
    let list = characters(alloc, text.as_str())?;
    Ok(list)
}

/// Reads the pieces of a type text (XQuery 1.0, section 2.5.3, with `,` between the parts of a sequence and `|` between the
/// members of a choice). Names are written `local`, `xs:local` and `{uri}local`. At most 40 parentheses stand in one
/// another, and at most 1,024 positions in the text.
pub fn read_written(alloc: Global, text: &Text) -> Result<Vec<Piece>, WrittenError>
    requires { length text.now ≤ 16777216 }
    ensures { MatchResult result (λ pieces. HasPieces text.now pieces.items) (λ e. IsRefusedAt text.now e) }
{
    let Ok(list) = characters_of(alloc, text) else {
        return Err(WrittenError::Memory);
    };
    match read_pieces(alloc, &list) {
        Ok(pieces) => Ok(pieces),
        Err(PiecesError::Memory) => Err(WrittenError::Memory),
        Err(PiecesError::Unfit(far)) => {
            let far = far.min(list.len());
            Err(WrittenError::BadType(refusal_place(&list, far)))
        }
    }
}
