// The text of a number.
ghost use Rattle.std.specs.Prelude.{◌≡◌, ◌++◌, ◌^◌, ◌<◌, ◌≤◌, IfOk, OnOk};
ghost use Rattle.std.specs.String.{string_bytes};
ghost use Rattle.gx_num.specs.Printed.{printed, signed_units_text, units_text, fraction_text, places_text};

use crate::{Dec, Number};
use std::alloc::{AllocError, Global};

/// The number's text: digits with no leading zeros, after a `-` where it is negative; of a decimal that is not whole
/// then a point and its places with no trailing zeros. The only error is want of memory.
pub fn print_number(alloc: Global, a: Number) -> Result<String, AllocError>
    ensures { IfOk result (λ text. string_bytes text ≡ printed a) }
{
    match a {
        Number::Int(i) => format!(in alloc; "{}", i.value()),
        Number::Dec(d) => print_decimal(alloc, d),
    }
}

fn print_decimal(alloc: Global, d: Dec) -> Result<String, AllocError>
    ensures { IfOk result (λ text. string_bytes text ≡ signed_units_text d) }
{
    let magnitude = d.units.unsigned_abs();
    if d.units < 0 {
        print_units(alloc, "-", magnitude)
    } else {
        print_units(alloc, "", magnitude)
    }
}

// Units of 10^-6, after a sign.
fn print_units(alloc: Global, sign: &str, units: u64) -> Result<String, AllocError>
    ensures { IfOk result (λ text. string_bytes text ≡ sign.now ++ units_text units) }
{
    let whole = units / 1_000_000;
    let mut text = format!(in alloc; "{sign}{whole}")?;
    push_fraction(&mut text, units % 1_000_000)?;
    Ok(text)
}

fn push_fraction(text: &mut String, units: u64) -> Result<(), AllocError>
    requires { units < 1000000 }
    ensures { OnOk result (string_bytes text.new ≡ string_bytes text.old ++ fraction_text units) }
{
    if units == 0 {
        return Ok(());
    }
    text.push('.')?;
    push_places(text, units)
}

// Adds the places of so many units of 10^-6, up to the last that is not zero.
#[tactic(auto, unfolding(crate::specs::Printed::places_text))]
fn push_places(text: &mut String, units: u64) -> Result<(), AllocError>
    requires { units < 1000000 }
    ensures { OnOk result (string_bytes text.new ≡ string_bytes text.old ++ places_text 6 units) }
{
    let mut rest = units;
    let mut places = 6;
    while rest > 0 {
        places -= 1;
        let weight = 10u64.pow(places);
        text.push((b'0' + (rest / weight) as u8) as char)?;
        rest %= weight;
    }
    Ok(())
}
