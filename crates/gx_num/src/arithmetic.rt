// The operations on numbers, each exact over whole numbers.
ghost use Rattle.std.specs.Prelude.{◌≡◌, ◌≢◌, ◌<◌, ◌↔◌, IsTrue, ◌*ℤ◌, neg_ℤ, pos, unsigned_abs, int_div, int_rem, MatchResult, MatchOption};
ghost use Rattle.std.specs.Ordering.{int_cmp};
ghost use Rattle.gx_num.specs.Number.{units_of, FitsInteger, FitsDecimal, InRange, IsZero, is_zero};
ghost use Rattle.gx_num.specs.Arithmetic.{operands_of, OperandsFit, OverflowUnless, DivZeroOrOverflowUnless, in_range_or_overflow};
ghost use Rattle.gx_num.specs.Arithmetic.{exact_sum, exact_difference, exact_product, exact_quotient, exact_integer_quotient, exact_remainder};
ghost use Rattle.gx_num.specs.Arithmetic.{sum_of, difference_of, product_of, quotient_of, integer_quotient_of, remainder_of, decimal_of_integer};
ghost use Rattle.gx_num.specs.Arithmetic.{exact_negation, exact_magnitude, whole_below, exact_floor, exact_ceiling, exact_round, truncated};
ghost use Rattle.gx_num.specs.Operands.{AreOperands};

use crate::{Dec, NumFault, Number};
use std::cmp::Ordering;

// A decimal's magnitude, in units, is below this.
const DECIMAL_LIMIT: i128 = 1_000_000_000_000_000_000;

// An integer that is converted to a decimal has a magnitude below this.
const WHOLE_LIMIT: i128 = 1_000_000_000_000;

// One is so many units of 10^-6.
const UNITS: i128 = 1_000_000;

// Two operands at one type.
enum Operands {
    Integers(i128, i128),
    Decimals(Dec, Dec),
}

impl Dec {
    fn of_units(units: i128) -> Result<Dec, NumFault>
        ensures { OverflowUnless result (FitsDecimal units) units }
    {
        if -DECIMAL_LIMIT < units && units < DECIMAL_LIMIT {
            Ok(Dec {
                units: units as i64,
            })
        } else {
            Err(NumFault::Overflow)
        }
    }
}

/// The integer as a decimal. Overflow exactly where its magnitude is 10^12 or more.
pub fn to_dec(a: i128) -> Result<Dec, NumFault>
    ensures exact { result ≡ decimal_of_integer a }
    ensures when { OverflowUnless result (FitsDecimal (a *ℤ pos 1000000)) (a *ℤ pos 1000000) }
{
    if -WHOLE_LIMIT < a && a < WHOLE_LIMIT {
        Ok(Dec {
            units: a as i64 * 1_000_000,
        })
    } else {
        Err(NumFault::Overflow)
    }
}

fn at_one_type(a: Number, b: Number) -> Result<Operands, NumFault>
    ensures { MatchResult result (AreOperands a b) (λ e. (e ≡ NumFault.Overflow) × ¬ OperandsFit (operands_of a b)) }
{
    match a {
        Number::Int(x) => match b {
            Number::Int(y) => Ok(Operands::Integers(x.value(), y.value())),
            Number::Dec(y) => Ok(Operands::Decimals(to_dec(x.value())?, y)),
        },
        Number::Dec(x) => match b {
            Number::Int(y) => Ok(Operands::Decimals(x, to_dec(y.value())?)),
            Number::Dec(y) => Ok(Operands::Decimals(x, y)),
        },
    }
}

fn integer(value: Option<i128>) -> Result<Number, NumFault>
    ensures { MatchOption value (result ≡ Err NumFault.Overflow) (λ i. result ≡ Ok (Number.Int i)) }
{
    match value {
        Some(i) => Ok(Number::int(i)),
        None => Err(NumFault::Overflow),
    }
}

fn decimal(units: i128) -> Result<Number, NumFault>
    ensures { OverflowUnless result (FitsDecimal units) (Number.Dec units) }
{
    Ok(Number::Dec(Dec::of_units(units)?))
}

/// The sum. Overflow exactly where a converted operand or the sum is out of range.
pub fn add(a: Number, b: Number) -> Result<Number, NumFault>
    ensures exact { result ≡ sum_of a b }
    ensures when { let o = operands_of a b in OverflowUnless result (OperandsFit o × InRange (exact_sum o)) (exact_sum o) }
{
    match at_one_type(a, b)? {
        Operands::Integers(x, y) => integer(x.checked_add(y)),
        Operands::Decimals(x, y) => decimal((x.units + y.units) as i128),
    }
}

/// The difference. Overflow exactly where a converted operand or the difference is out of range.
pub fn sub(a: Number, b: Number) -> Result<Number, NumFault>
    ensures exact { result ≡ difference_of a b }
    ensures when { let o = operands_of a b in OverflowUnless result (OperandsFit o × InRange (exact_difference o)) (exact_difference o) }
{
    match at_one_type(a, b)? {
        Operands::Integers(x, y) => integer(x.checked_sub(y)),
        Operands::Decimals(x, y) => decimal((x.units - y.units) as i128),
    }
}

/// The product, of decimals truncated toward zero to 6 places. Overflow exactly where a converted operand or the
/// product is out of range.
pub fn mul(a: Number, b: Number) -> Result<Number, NumFault>
    ensures exact { result ≡ product_of a b }
    ensures when { let o = operands_of a b in OverflowUnless result (OperandsFit o × InRange (exact_product o)) (exact_product o) }
{
    match at_one_type(a, b)? {
        Operands::Integers(x, y) => integer(x.checked_mul(y)),
        Operands::Decimals(x, y) => decimal(product(x, y) / UNITS),
    }
}

// In units of 10^-12.
fn product(x: Dec, y: Dec) -> i128
    ensures { result ≡ x *ℤ y }
{
    x.units as i128 * y.units as i128
}

fn nonzero(divisor: Number) -> Result<Number, NumFault>
    ensures { MatchResult result (λ d. (d ≡ divisor) × ¬ IsZero divisor) (λ e. (e ≡ NumFault.DivZero) × IsZero divisor) }
{
    if is_zero(&divisor) {
        Err(NumFault::DivZero)
    } else {
        Ok(divisor)
    }
}

/// Whether the number is zero.
pub fn is_zero(a: &Number) -> bool
    ensures exact { result ≡ is_zero a.now }
    ensures when { IsTrue result ↔ IsZero a.now }
{
    match a {
        Number::Int(i) => i.value() == 0,
        Number::Dec(d) => d.units == 0,
    }
}

fn decimal_of(a: Number) -> Result<Dec, NumFault>
    ensures { OverflowUnless result (FitsDecimal (units_of a)) (units_of a) }
{
    match a {
        Number::Int(i) => to_dec(i.value()),
        Number::Dec(d) => Ok(d),
    }
}

/// The quotient, a decimal truncated toward zero to 6 places. DivZero exactly where `b` is zero; else Overflow exactly
/// where an operand is out of range as a decimal or the quotient is.
pub fn div(a: Number, b: Number) -> Result<Number, NumFault>
    ensures exact { result ≡ quotient_of a b }
    ensures when { DivZeroOrOverflowUnless result (IsZero b)
        (FitsDecimal (units_of a) × FitsDecimal (units_of b) × FitsDecimal (exact_quotient a b)) (Number.Dec (exact_quotient a b)) }
{
    let divisor = nonzero(b)?;
    let x = decimal_of(a)?;
    let y = decimal_of(divisor)?;
    decimal(quotient(x, y))
}

// In units, truncated toward zero.
fn quotient(x: Dec, y: Dec) -> i128
    requires { y ≢ pos 0 }
    ensures { result ≡ int_div (x *ℤ pos 1000000) y }
{
    x.units as i128 * UNITS / y.units as i128
}

/// The quotient truncated toward zero to an integer. DivZero exactly where `b` is zero; else Overflow exactly where a
/// converted operand or the quotient is out of range.
pub fn idiv(a: Number, b: Number) -> Result<i128, NumFault>
    ensures exact { result ≡ integer_quotient_of a b }
    ensures when { let o = operands_of a b in DivZeroOrOverflowUnless result (IsZero b)
        (OperandsFit o × FitsInteger (exact_integer_quotient o)) (exact_integer_quotient o) }
{
    match at_one_type(a, nonzero(b)?)? {
        Operands::Integers(x, y) => x.checked_div(y).ok_or(NumFault::Overflow),
        Operands::Decimals(x, y) => Ok((x.units / y.units) as i128),
    }
}

/// What truncated division leaves, with the sign of `a`. DivZero exactly where `b` is zero; else Overflow exactly where
/// a converted operand is out of range.
pub fn modulo(a: Number, b: Number) -> Result<Number, NumFault>
    ensures exact { result ≡ remainder_of a b }
    ensures when { let o = operands_of a b in DivZeroOrOverflowUnless result (IsZero b) (OperandsFit o) (exact_remainder o) }
{
    match at_one_type(a, nonzero(b)?)? {
        Operands::Integers(x, y) => Ok(Number::int(integer_remainder(x, y))),
        Operands::Decimals(x, y) => Ok(Number::Dec(Dec {
            units: x.units % y.units,
        })),
    }
}

// Division by -1 leaves nothing, also where its quotient is out of range.
fn integer_remainder(x: i128, y: i128) -> i128
    requires { y ≢ pos 0 }
    ensures { result ≡ int_rem x y }
{
    if y == -1 { 0 } else { x % y }
}

/// The number with the other sign. Overflow exactly at the least integer.
pub fn negate(a: Number) -> Result<Number, NumFault>
    ensures exact { result ≡ in_range_or_overflow (exact_negation a) }
    ensures when { OverflowUnless result (InRange (exact_negation a)) (exact_negation a) }
{
    match a {
        Number::Int(i) => integer(i.value().checked_neg()),
        Number::Dec(d) => Ok(Number::Dec(Dec { units: -d.units })),
    }
}

/// The magnitude. Overflow exactly at the least integer.
pub fn abs(a: Number) -> Result<Number, NumFault>
    ensures exact { result ≡ in_range_or_overflow (exact_magnitude a) }
    ensures when { OverflowUnless result (InRange (exact_magnitude a)) (exact_magnitude a) }
{
    match a {
        Number::Int(i) => integer(i.value().checked_abs()),
        Number::Dec(d) => Ok(Number::Dec(Dec {
            units: d.units.abs(),
        })),
    }
}

/// The greatest whole number of the same type that is not above `a`. Overflow exactly where it is out of range.
pub fn floor(a: Number) -> Result<Number, NumFault>
    ensures exact { result ≡ in_range_or_overflow (exact_floor a) }
    ensures when { OverflowUnless result (InRange (exact_floor a)) (exact_floor a) }
{
    match a {
        Number::Int(i) => Ok(Number::Int(i)),
        Number::Dec(d) => decimal(whole_below_units(d.units) as i128),
    }
}

// The greatest multiple of a whole unit that is not above `units`.
fn whole_below_units(units: i64) -> i64
    requires { unsigned_abs units < 2000000000000000000 }
    ensures value { result ≡ whole_below units }
    ensures bound { unsigned_abs result < 2000001000000000000 }
{
    units.div_euclid(1_000_000) * 1_000_000
}

// The least multiple of a whole unit that is not below `units`.
fn whole_above_units(units: i64) -> i64
    requires { unsigned_abs units < 2000000000000000000 }
    ensures { result ≡ neg_ℤ (whole_below (neg_ℤ units)) }
{
    let below = whole_below_units(-units);
    -below
}

/// The least whole number of the same type that is not below `a`. Overflow exactly where it is out of range.
pub fn ceiling(a: Number) -> Result<Number, NumFault>
    ensures exact { result ≡ in_range_or_overflow (exact_ceiling a) }
    ensures when { OverflowUnless result (InRange (exact_ceiling a)) (exact_ceiling a) }
{
    match a {
        Number::Int(i) => Ok(Number::Int(i)),
        Number::Dec(d) => decimal(whole_above_units(d.units) as i128),
    }
}

/// The nearest whole number of the same type; of two that are as near, the greater. Overflow exactly where it is out of
/// range.
pub fn round(a: Number) -> Result<Number, NumFault>
    ensures exact { result ≡ in_range_or_overflow (exact_round a) }
    ensures when { OverflowUnless result (InRange (exact_round a)) (exact_round a) }
{
    match a {
        Number::Int(i) => Ok(Number::Int(i)),
        Number::Dec(d) => decimal(whole_below_units(d.units + 500_000) as i128),
    }
}

/// The integer, or the decimal truncated toward zero.
pub fn to_int(a: Number) -> i128
    ensures { result ≡ truncated a }
{
    match a {
        Number::Int(i) => i.value(),
        Number::Dec(d) => (d.units / 1_000_000) as i128,
    }
}

/// The order of the two values, exact across the two types.
pub fn compare(a: Number, b: Number) -> Ordering
    ensures { result ≡ int_cmp (units_of a) (units_of b) }
{
    match a {
        Number::Int(x) => match b {
            Number::Int(y) => x.value().cmp(&y.value()),
            Number::Dec(y) => compare_with_decimal(x.value(), y),
        },
        Number::Dec(x) => match b {
            Number::Int(y) => compare_with_decimal(y.value(), x).reverse(),
            Number::Dec(y) => x.units.cmp(&y.units),
        },
    }
}

fn compare_with_decimal(x: i128, y: Dec) -> Ordering
    ensures { result ≡ int_cmp (x *ℤ pos 1000000) y }
{
    match to_dec(x) {
        Ok(d) => d.units.cmp(&y.units),
        Err(_) if x < 0 => Ordering::Less,
        Err(_) => Ordering::Greater,
    }
}
