// The parser of queries.

ghost use Rattle.std.specs.Prelude.{◌≡◌, ◌≤◌, length, IfOk, IfErr};
ghost use Rattle.gx_parse.specs.Outcome.{left_at, syntax_refusal_at, rule_of};
ghost use Rattle.gx_parse_grammar.specs.Query.{IsQuery, Parses, RefusesBytes, RefusesText, parsed};

use crate::definitions::query;
use gx_ast::query::Query;
use gx_base::limits::FILE_BYTES;
use gx_grammar::decode::{DecodeError, decode};
use gx_parse_grammar::refusal::{SyntaxRefusal, SyntaxRule};
use gx_parse_tokens::reader::{End, Reader, Refused};
use gx_parse_tokens::source::Source;
use std::alloc::Global;

/// The syntax tree of the bytes of a query (XQuery 1.0, section 4), where lines and columns count from 1. White space and
/// nested comments may stand between tokens (XQuery 1.0, appendix A.2.4.1).
pub fn parse(alloc: Global, bytes: &[u8]) -> Result<Query, SyntaxRefusal>
    requires { length bytes.now ≤ FILE_BYTES }
    // The bytes are those of a query with this tree.
    ensures tree { IfOk result (λ t. Parses bytes.now (parsed t)) }
    // The bytes have no tree, and the rule refuses them at the place.
    ensures refused { IfErr result (λ e. RefusesBytes e bytes.now) }
{
    match decode(alloc, bytes) {
        Ok(text) => parse_text(alloc, text.as_slice()),
        Err(DecodeError::NotUtf8(place)) => Err(SyntaxRefusal::Refused {
            rule: SyntaxRule::NotUtf8,
            place,
        }),
        Err(DecodeError::Memory) => Err(SyntaxRefusal::Memory),
    }
}

// The syntax tree of a text.
fn parse_text(alloc: Global, text: &[char]) -> Result<Query, SyntaxRefusal>
    requires { length text.now ≤ FILE_BYTES }
    ensures tree { IfOk result (λ t. IsQuery text.now t) }
    ensures refused { IfErr result (λ e. RefusesText e text.now) }
{
    let source = Source::new(alloc, text)?;
    let mut reader = Reader::new(alloc, text);
    let tree = query(&mut reader, &source);
    match reader.outcome() {
        None => Ok(tree),
        Some(end) => Err(refusal(&source, end)),
    }
}

// The refusal of a text whose reading ended so.
fn refusal(source: &Source<'_>, end: End) -> SyntaxRefusal
    ensures { result ≡ syntax_refusal_at source.now end }
{
    match end {
        End::Lost => SyntaxRefusal::Memory,
        End::GaveUp(refused) => {
            let rule = rule_of(refused);
            let place = source.place(left_at(refused));
            SyntaxRefusal::Refused { rule, place }
        }
    }
}

// The rule by which a reader gave up.
fn rule_of(refused: Refused) -> SyntaxRule
    ensures { result ≡ rule_of refused }
{
    match refused {
        Refused::Unfit(_) => SyntaxRule::Syntax,
        Refused::Limit(_) => SyntaxRule::TooNested,
        Refused::Number(_) => SyntaxRule::LiteralTooLarge,
        Refused::Reference(_) => SyntaxRule::BadReference,
    }
}

// How many characters are left where a reader gave up.
fn left_at(refused: Refused) -> usize
    ensures { result ≡ left_at refused }
{
    match refused {
        Refused::Unfit(left)
        | Refused::Limit(left)
        | Refused::Number(left)
        | Refused::Reference(left) => left,
    }
}
