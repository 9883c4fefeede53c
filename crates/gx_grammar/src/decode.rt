// Characters from bytes.

ghost use Rattle.std.specs.Prelude.{◌≡◌, ◌≤◌, ◌<◌, ◌-◌, ◌^◌, length, true, IfOk, IfErr, encode_utf8_all};
ghost use Rattle.std.specs.Str.{all_scalars, chars, IsValidUpTo};
ghost use Rattle.gx_grammar.specs.Decoding.{IsFault, IsUnreadableAt};

use crate::place::place_of;
use gx_base::place::Place;
use std::alloc::{AllocError, Global};
use std::str::from_utf8;

/// Why bytes could not be decoded.
#[derive(Clone, Copy, PartialEq, Eq)]
pub enum DecodeError {
    /// The bytes are not UTF-8. The place is that of the first character that cannot be read.
    NotUtf8(Place),
    /// Memory did not suffice.
    Memory,
}

impl From<AllocError> for DecodeError {
    ghost use Rattle.gx_grammar.specs.declared.decode.DecodeError.TheVariants.{Memory};
    ghost use Rattle.std.specs.Prelude.{◌≡◌};

    ghost from_gives = { λ _ e. e ≡ Memory };

    fn from(_: AllocError) -> Self {
        DecodeError::Memory
    }
}

// The characters of a text.
fn characters(alloc: Global, text: &str) -> Result<Vec<char>, AllocError>
    ensures { IfOk result (λ v. v.items ≡ chars text.now) }
{
    text.chars().collect(alloc)
}

// The place behind the characters that the front of the bytes spells.
fn unreadable(alloc: Global, bytes: &[u8], readable: usize) -> Result<Place, AllocError>
    requires short { length bytes.now < 2 ^ 32 - 1 }
    requires longest { IsValidUpTo bytes.now readable }
    ensures { IfOk result (IsUnreadableAt bytes.now) }
{
    let front = characters(alloc, from_utf8(&bytes[..readable]).unwrap())?;
    Ok(place_of(&front, front.len()))
}

/// The characters that the bytes spell in UTF-8.
pub fn decode(alloc: Global, bytes: &[u8]) -> Result<Vec<char>, DecodeError>
    requires { length bytes.now < 2 ^ 32 - 1 }
    ensures text { IfOk result (λ v. encode_utf8_all v.items ≡ bytes.now) }
    ensures characters { IfOk result (λ v. all_scalars v.items ≡ true) }
    ensures fault { IfErr result (IsFault bytes.now) }
{
    match from_utf8(bytes) {
        Ok(text) => Ok(characters(alloc, text)?),
        Err(fault) => Err(DecodeError::NotUtf8(unreadable(alloc, bytes, fault.valid_up_to())?)),
    }
}
