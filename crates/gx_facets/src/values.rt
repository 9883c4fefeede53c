// The text of a value, and the order of values.
ghost use Rattle.std.specs.Prelude.{◌≡◌, IfOk, is_some};
ghost use Rattle.gx_facets.specs.Value.{printed_value, order_of, same_family};

use crate::AtomValue;
use gx_base::text::Text;
use gx_num::{compare, print_number};
use std::alloc::{AllocError, Global};
use std::cmp::Ordering;

/// The text of the value: a string's characters, `true` or `false`, or a number in digits.
#[tactic(auto, using(crate::proofs::Texts::boolean_texts))]
pub fn print_value(alloc: Global, value: &AtomValue) -> Result<Text, AllocError>
    ensures { IfOk result (λ t. t ≡ printed_value value.now) }
{
    match value {
        AtomValue::Untyped(text) => text.clone(),
        AtomValue::Str(text) => text.clone(),
        AtomValue::Truth(true) => Text::from_str(alloc, "true"),
        AtomValue::Truth(false) => Text::from_str(alloc, "false"),
        AtomValue::Num(number) => Text::from_string(alloc, print_number(alloc, *number)?),
    }
}

/// The order of two values: strings and untyped values by code points, `false` before `true`, numbers by their values.
/// None exactly where one is of another of these three families.
pub fn compare_values(a: &AtomValue, b: &AtomValue) -> Option<Ordering>
    ensures order { result ≡ order_of a.now b.now }
    ensures family { is_some result ≡ same_family a.now b.now }
{
    match (a, b) {
        (AtomValue::Untyped(s) | AtomValue::Str(s), AtomValue::Untyped(t) | AtomValue::Str(t)) => {
            Some(s.cmp(t))
        }
        (AtomValue::Truth(p), AtomValue::Truth(q)) => Some(p.cmp(q)),
        (AtomValue::Num(m), AtomValue::Num(n)) => Some(compare(*m, *n)),
        _ => None,
    }
}
