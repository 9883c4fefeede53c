// The effective boolean value.
ghost use Rattle.std.specs.Prelude.{◌≡◌};
ghost use Rattle.gx_atomic.specs.EffectiveBoolean.{effective_boolean_value};

use gx_facets::AtomValue;
use gx_num::is_zero;

/// The effective boolean value of one atomic value: a boolean itself; a string or an untyped value is true where it is not
/// empty, and a number where it is not zero (XQuery 1.0, section 2.4.3; Functions and Operators, section 15.1.1).
pub fn effective_boolean_value(value: &AtomValue) -> bool
    ensures { result ≡ effective_boolean_value value.now }
{
    match value {
        AtomValue::Untyped(text) | AtomValue::Str(text) => !text.is_empty(),
        AtomValue::Truth(truth) => *truth,
        AtomValue::Num(number) => !is_zero(number),
    }
}
