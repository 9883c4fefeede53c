// How often particles may occur.

ghost use Rattle.std.specs.Prelude.{◌≡◌, ◌≤◌, ◌+◌, ◌*◌, nat_le, length};
ghost use Rattle.gx_schema_components.specs.Bounds.{BeginsWithDigit, bounds_of, digit_at, is_at_most_greatest, number_behind, number_of_text, number_written, saturated};

use crate::component::Bounds;
use gx_base::text::Text;
use gx_schema_syntax::written;

/// The bounds of a particle, from their digits (XML Schema 1.0 part 1, section 3.9.1).
pub fn bounds_of(bounds: &written::Bounds) -> Bounds
    ensures { result ≡ bounds_of bounds.now }
{
    let least = bounds.least.as_str().as_bytes();
    match &bounds.greatest {
        None => Bounds {
            least: saturated(least),
            greatest: None,
            are_ordered: true,
        },
        Some(text) => {
            let greatest = text.as_str().as_bytes();
            Bounds {
                least: saturated(least),
                greatest: Some(saturated(greatest)),
                are_ordered: is_at_most(least, greatest),
            }
        }
    }
}

// The number that a digit stands for; a byte that is no digit counts as the nearest one.
fn digit_at(byte: u8) -> u8
    ensures { result ≡ digit_at byte }
{
    byte.saturating_sub(b'0').min(9)
}

// The number that digits write; a number past the greatest `u32` counts as that number.
#[tactic(auto, using(crate::proofs::Digits::saturated_behind))]
fn saturated(digits: &[u8]) -> u32
    ensures { result ≡ saturated (number_written digits.now) }
{
    let mut value = 0u32;
    let mut left = digits;
    while let Some((byte, others)) = left.split_first() {
        value = behind(value, digit_at(*byte));
        left = others;
    }
    value
}

// A number with one more digit.
fn behind(value: u32, digit: u8) -> u32
    requires { digit ≤ 9 }
    ensures { result ≡ saturated (10 * value + digit) }
{
    match value.checked_mul(10) {
        Some(tens) => tens.saturating_add(digit as u32),
        None => u32::MAX,
    }
}

// The digits from the first on that is not zero.
fn significant(digits: &[u8]) -> &[u8]
    ensures number { number_written result.now ≡ number_written digits.now }
    ensures begins { BeginsWithDigit result.now }
{
    let mut left = digits;
    while let Some((byte, others)) = left.split_first() {
        if digit_at(*byte) > 0 {
            return left;
        }
        left = others;
    }
    left
}

// Whether the number that digits write is not above another.
#[tactic(auto, using(crate::proofs::Digits::at_most_by_length))]
fn is_at_most(least: &[u8], greatest: &[u8]) -> bool
    ensures { result ≡ nat_le (number_written least.now) (number_written greatest.now) }
{
    let least = significant(least);
    let greatest = significant(greatest);
    if least.len() == greatest.len() {
        is_at_most_behind(least, greatest)
    } else {
        least.len() < greatest.len()
    }
}

// The same of as many digits, by the first two that differ.
#[tactic(auto, using(crate::proofs::Digits::at_most_by_digits))]
fn is_at_most_behind(least: &[u8], greatest: &[u8]) -> bool
    requires { length least.now ≡ length greatest.now }
    ensures { result ≡ nat_le (number_written least.now) (number_written greatest.now) }
{
    let mut left = least;
    let mut right = greatest;
    while let Some((a, others)) = left.split_first() {
        let Some((b, others_of_greatest)) = right.split_first() else {
            return false;
        };
        let a = digit_at(*a);
        let b = digit_at(*b);
        if a != b {
            return a < b;
        }
        left = others;
        right = others_of_greatest;
    }
    true
}
