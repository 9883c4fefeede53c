// Numbers from their lexical forms.
ghost use Rattle.std.specs.Prelude.{◌≡◌, ◌^◌, ◌<◌, ◌≤◌, pos, true, length, if◌then◌else◌, SomeIff};
ghost use Rattle.std.specs.Str.Parse.{digits_value, without_leading_sign, starts_with_minus};
ghost use Rattle.gx_num.specs.Lexical.{ReadsInteger, ReadsDecimal, integer_of, decimal_of, all_digits, before_point, behind_point};
ghost use Rattle.gx_num.specs.Lexical.{without_trailing_zeros, units_in_places, signed, decimal_of_digits};
ghost use Rattle.gx_num.specs.Number.{fits_integer};

use crate::{Dec, NumRead};

// The magnitude of the least integer, 2^127.
const LEAST_MAGNITUDE: u128 = 0x8000_0000_0000_0000_0000_0000_0000_0000;

// A decimal's magnitude is below this.
const WHOLE_LIMIT: u128 = 1_000_000_000_000;

/// The xs:integer of the text: an optional sign, then one digit or more, and nothing else. NotANumber exactly where the
/// text has not that form, else TooLarge exactly where the number is out of range.
pub fn read_int(text: &str) -> Result<i128, NumRead>
    ensures exact { result ≡ integer_of text.now }
    ensures forms { ReadsInteger text.now result }
{
    read_integer(text.as_bytes())
}

fn read_integer(text: &[u8]) -> Result<i128, NumRead>
    ensures { result ≡ integer_of text.now }
{
    let (negative, digits) = split_sign(text);
    if digits.is_empty() || !are_digits(digits) {
        return Err(NumRead::NotANumber);
    }
    match natural(digits) {
        Some(magnitude) => integer_with_sign(negative, magnitude),
        None => Err(NumRead::TooLarge),
    }
}

fn split_sign(text: &[u8]) -> (bool, &[u8])
    ensures sign { result.0 ≡ starts_with_minus text.now }
    ensures rest { result.1.now ≡ without_leading_sign text.now }
{
    match text {
        [b'-', rest @ ..] => (true, rest),
        [b'+', rest @ ..] => (false, rest),
        _ => (false, text),
    }
}

fn are_digits(text: &[u8]) -> bool
    ensures { result ≡ all_digits text.now }
{
    text.iter().all(|byte| byte.is_ascii_digit())
}

#[tactic(auto, using(crate::proofs::Digits::natural_steps))]
fn natural(digits: &[u8]) -> Option<u128>
    requires { all_digits digits.now ≡ true }
    ensures { SomeIff result (digits_value 10 digits.now < 2 ^ 128) (digits_value 10 digits.now) }
{
    let mut value: u128 = 0;
    for digit in digits {
        value = value.checked_mul(10)?.checked_add((*digit - b'0') as u128)?;
    }
    Some(value)
}

fn integer_with_sign(negative: bool, magnitude: u128) -> Result<i128, NumRead>
    ensures { result ≡ (if fits_integer (signed negative magnitude) then Ok (signed negative magnitude) else Err NumRead.TooLarge) }
{
    if magnitude < LEAST_MAGNITUDE {
        let value = magnitude as i128;
        Ok(if negative { -value } else { value })
    } else if negative && magnitude == LEAST_MAGNITUDE {
        Ok(i128::MIN)
    } else {
        Err(NumRead::TooLarge)
    }
}

/// The xs:decimal of the text: an optional sign, then one digit or more with at most one point, which may stand first
/// or last. NotANumber exactly where the text has not that form; else TooLarge exactly where the magnitude is 10^12 or
/// more; else TooPrecise exactly where more than 6 places remain after trailing zeros are dropped.
pub fn read_dec(text: &str) -> Result<Dec, NumRead>
    ensures exact { result ≡ decimal_of text.now }
    ensures forms { ReadsDecimal text.now result }
{
    read_decimal(text.as_bytes())
}

fn read_decimal(text: &[u8]) -> Result<Dec, NumRead>
    ensures { result ≡ decimal_of text.now }
{
    let (negative, digits) = split_sign(text);
    let (whole, fraction) = split_point(digits);
    if whole.is_empty() && fraction.is_empty() || !are_digits(whole) || !are_digits(fraction) {
        return Err(NumRead::NotANumber);
    }
    decimal_with_sign(negative, whole, fraction)
}

#[tactic(auto, using(crate::proofs::Places::digits_kept))]
fn decimal_with_sign(negative: bool, whole: &[u8], fraction: &[u8]) -> Result<Dec, NumRead>
    requires whole { all_digits whole.now ≡ true }
    requires fraction { all_digits fraction.now ≡ true }
    ensures { result ≡ decimal_of_digits negative whole.now fraction.now }
{
    let whole = match natural(whole) {
        Some(value) if value < WHOLE_LIMIT => value as u64,
        _ => return Err(NumRead::TooLarge),
    };
    let fraction = trim_zeros(fraction);
    if fraction.len() > 6 {
        return Err(NumRead::TooPrecise);
    }
    let units = whole * 1_000_000 + millionths(fraction);
    Ok(units_with_sign(negative, units))
}

fn units_with_sign(negative: bool, units: u64) -> Dec
    requires { units < 1000000000000000000 }
    ensures { result ≡ signed negative units }
{
    let units = units as i64;
    Dec {
        units: if negative { -units } else { units },
    }
}

// The places, which are no more than 6, in units of 10^-6.
#[tactic(auto, using(crate::proofs::Digits::places_steps))]
fn millionths(places: &[u8]) -> u64
    requires digits { all_digits places.now ≡ true }
    requires short { length places.now ≤ 6 }
    ensures value { result ≡ units_in_places places.now }
    ensures bound { result < 1000000 }
{
    let mut units: u64 = 0;
    for digit in places {
        units = units * 10 + (*digit - b'0') as u64;
    }
    units * 10u64.pow(6 - places.len() as u32)
}

// The text before the first point, and behind it.
fn split_point(text: &[u8]) -> (&[u8], &[u8])
    ensures whole { result.0.now ≡ before_point text.now }
    ensures fraction { result.1.now ≡ behind_point text.now }
{
    for (i, byte) in text.iter().enumerate() {
        if *byte == b'.' {
            return (&text[..i], &text[i + 1..]);
        }
    }
    (text, &text[text.len()..])
}

fn trim_zeros(digits: &[u8]) -> &[u8]
    ensures { result.now ≡ without_trailing_zeros digits.now }
{
    let mut len = digits.len();
    while len > 0 && digits[len - 1] == b'0' {
        len -= 1;
    }
    &digits[..len]
}
