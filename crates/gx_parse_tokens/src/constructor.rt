// What computed constructors of elements and attributes begin with.

ghost use Rattle.std.specs.Prelude.{◌≡◌, [], ◌∷◌, IfOk, MatchOption, None, Some};
ghost use Rattle.gx_parse_tokens.specs.Markup.{LooksAt};
ghost use Rattle.gx_parse_tokens.specs.Names.{name_made};
ghost use Rattle.gx_parse_grammar.specs.Tokens.{constructor, scan, seen, starts_constructor};

use crate::gap::brace;
use crate::markup::Looked;
use crate::names::{NameFound, begins_no_word, find_name, find_name_end};
use crate::shared_texts::SharedTexts;
use std::alloc::{AllocError, Global};

/// Whether a name with a `{` behind its gap stands at the front, and what is left behind the longest front that opens one.
pub fn look_at_constructor(text: &[char]) -> Looked
    ensures looks { LooksAt (constructor ∷ []) text.now result }
    ensures seen { result.seen ≡ seen constructor text.now }
{
    let name = find_name_end(text);
    let Some(behind) = name.behind else {
        return Looked {
            stands: false,
            seen: name.seen,
        };
    };
    let space = brace(behind);
    Looked {
        stands: space.behind.is_some(),
        seen: name.seen.min(space.seen),
    }
}

/// Whether a constructor stands at the front, or a name that is no keyword.
pub fn starts_constructor(text: &[char]) -> bool
    ensures { result ≡ starts_constructor text.now }
{
    look_at_constructor(text).stands || begins_no_word(text)
}

/// The name at the front with the `{` behind its gap (XQuery 1.0, section 3.7.3).
pub fn find_constructor<'a>(
    alloc: Global,
    parts: &mut SharedTexts,
    text: &'a [char],
) -> Result<NameFound<'a>, AllocError>
    ensures name { IfOk result (λ f. MatchOption f.name (scan constructor text.now ≡ None) (λ r. scan constructor text.now ≡ Some (name_made r.0, r.1.now))) }
    ensures seen { IfOk result (λ f. f.seen ≡ seen constructor text.now) }
{
    let NameFound { name, seen } = find_name(alloc, parts, text)?;
    let Some((name, behind)) = name else {
        return Ok(NameFound { name: None, seen });
    };
    let space = brace(behind);
    let seen = seen.min(space.seen);
    let Some(rest) = space.behind else {
        return Ok(NameFound { name: None, seen });
    };
    Ok(NameFound {
        name: Some((name, rest)),
        seen,
    })
}
