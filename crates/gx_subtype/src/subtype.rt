// The comparison of two types that are written as texts.

ghost use Rattle.std.specs.Prelude.{◌≡◌, ◌≤◌, ◌++◌, codes, length, IfOk, MatchResult, string_bytes, Some};
ghost use Rattle.std.specs.Str.{chars, encode_utf8_all};
ghost use Rattle.gx_types.specs.SchemaSet.{no_declarations};
ghost use Rattle.gx_typetext.specs.ShapeText.{shapes_text};
ghost use Rattle.gx_typetext.specs.TypeReading.{IsTypeText};
ghost use Rattle.gx_subtype.specs.Comparison.{verdict_bytes, IsAnswerOn, IsAnswerText, IsNoTypeOn, IsUnanswered};

use gx_base::limits::{FILE_BYTES, INCLUSION_PAIRS};
use gx_base::text::Text;
use gx_include::include::included;
use gx_include::verdict::{IncludeError, Verdict};
use gx_types::schemas::Schemas;
use gx_types::sequence_type::Ty;
use gx_types::shape::Shape;
use gx_typetext::read::{TypeRead, read_type};
use gx_typetext::shapes::print_shapes;
use std::alloc::{AllocError, Global};

/// One of two texts.
#[derive(Clone, Copy, PartialEq, Eq)]
pub enum Side {
    Left,
    Right,
}

/// Why two texts have no answer: one of them stands for no type, or memory did not suffice.
#[derive(Clone, Copy, PartialEq, Eq)]
pub enum SubtypeError {
    NoType(Side),
    Memory,
}

impl From<AllocError> for SubtypeError {
    ghost use Rattle.gx_subtype.specs.declared.subtype.SubtypeError.TheVariants.{Memory};

    ghost from_gives = { λ _ e. e ≡ Memory };

    fn from(_error: AllocError) -> SubtypeError {
        SubtypeError::Memory
    }
}

/// Whether each value of the type of the left text is one of the type of the right text (XQuery 1.0 and XPath 2.0 Formal
/// Semantics, section 8.3), with the built-in types alone: `yes`; `no: ` and the first list of shapes that the left type takes and
/// the right one does not; or `unknown`, exactly where more than 200,000 pairs are reached. The left text is judged first.
pub fn subtype(alloc: Global, left: &str, right: &str) -> Result<String, SubtypeError>
    requires left { length left.now ≤ FILE_BYTES }
    requires right { length right.now ≤ FILE_BYTES }
    ensures { MatchResult result (λ text. IsAnswerText (chars left.now) (chars right.now) (string_bytes text)) (λ e. IsUnanswered (chars left.now) (chars right.now) e) }
{
    let left = type_of(alloc, left, Side::Left)?;
    let right = type_of(alloc, right, Side::Right)?;
    Ok(verdict_on(alloc, &left, &right)?)
}

// The type of a text.
fn type_of(alloc: Global, text: &str, side: Side) -> Result<Ty, SubtypeError>
    requires { length text.now ≤ FILE_BYTES }
    ensures { MatchResult result (λ t. IsTypeText no_declarations (chars text.now) t) (λ e. IsNoTypeOn side (chars text.now) e) }
{
    let schemas = Schemas::empty(alloc)?;
    let text = Text::from_str(alloc, text)?;
    match read_type(alloc, &schemas, &text) {
        Ok(t) => Ok(t),
        Err(TypeRead::BadType(_)) => Err(SubtypeError::NoType(side)),
        Err(TypeRead::UnknownName(_)) => Err(SubtypeError::NoType(side)),
        Err(TypeRead::Memory) => Err(SubtypeError::Memory),
    }
}

// What is answered on two types.
fn verdict_on(alloc: Global, left: &Ty, right: &Ty) -> Result<String, AllocError>
    ensures { IfOk result (λ text. IsAnswerOn left.now right.now (string_bytes text)) }
{
    let schemas = Schemas::empty(alloc)?;
    match included(alloc, &schemas, left, right, Some(INCLUSION_PAIRS as u64)) {
        Ok(verdict) => verdict_text(alloc, &verdict),
        Err(IncludeError::TooManyPairs) => String::from_str(alloc, "unknown"),
        Err(IncludeError::Memory) => Err(AllocError),
    }
}

// What is answered by a verdict.
fn verdict_text(alloc: Global, verdict: &Verdict) -> Result<String, AllocError>
    ensures { IfOk result (λ text. string_bytes text ≡ verdict_bytes verdict.now) }
{
    match verdict {
        Verdict::Yes => String::from_str(alloc, "yes"),
        Verdict::No(list) => no_text(alloc, list.as_slice()),
    }
}

fn no_text(alloc: Global, list: &[Shape]) -> Result<String, AllocError>
    ensures { IfOk result (λ text. string_bytes text ≡ codes "no: " ++ encode_utf8_all (shapes_text list.now)) }
{
    let list = print_shapes(alloc, list)?;
    let mut text = String::from_str(alloc, "no: ")?;
    text.push_str(list.as_str())?;
    Ok(text)
}
