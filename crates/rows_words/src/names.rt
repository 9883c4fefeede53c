// Names and the names of types.

use crate::builtins::builtin;
use gx_base::name::{Name, SharedName};
use gx_base::text::Text;
use gx_base::type_name::TypeName;
use std::alloc::{AllocError, Global};

/// A name as `{uri}prefix:local`, where the URI with its braces and the prefix with its colon may be left out.
pub fn name(alloc: Global, word: &str) -> Result<Name, AllocError> {
    let (uri, rest) = word
        .strip_prefix('{')
        .and_then(|rest| rest.split_once('}'))
        .unwrap_or(("", word));
    let (prefix, local) = rest.split_once(':').unwrap_or(("", rest));
    Ok(Name {
        uri: Text::from_str(alloc, uri)?,
        prefix: Text::from_str(alloc, prefix)?,
        local: Text::from_str(alloc, local)?,
    })
}

/// The name of a type: a built-in one, the anonymous one of a number behind `#`, or a declared one.
pub fn type_name(alloc: Global, word: &str) -> Result<TypeName, AllocError> {
    if let Some(found) = builtin(word) {
        return Ok(TypeName::Builtin(found));
    }
    match word.strip_prefix('#') {
        Some(number) => Ok(TypeName::Anonymous(number.parse::<u32>().unwrap_or(0))),
        None => Ok(TypeName::Named(SharedName::new(alloc, name(alloc, word)?)?)),
    }
}
