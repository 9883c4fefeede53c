// Characters as they are written.
ghost use Rattle.std.specs.Prelude.{◌≡◌, ◌+◌, ◌<◌, ◌≤◌, ◌∷◌, [], ◌++◌, List, IsTrue, nat_lt, OnOk, IfNone, IfSome, OnSome, length};
ghost use Rattle.std.specs.List.{list_all};
ghost use Rattle.std.specs.Str.{chars, IsUtf8};
ghost use Rattle.std.specs.Str.Iter.{chars_rest};
ghost use Rattle.gx_serial.specs.Escape.{digit, reference, escaped_in_text, escaped_in_value, text_escaped, value_escaped};

use gx_base::characters::next_character;
use gx_base::text::Text;
use gx_base::text_builder::TextBuilder;
use std::alloc::AllocError;

// Adds an ASCII text at the end.
pub(crate) fn push_ascii(out: &mut TextBuilder, text: &str) -> Result<(), AllocError>
    requires { IsTrue (list_all (λ c. nat_lt c 128) text.now) }
    ensures { OnOk result (out.new ≡ out.old ++ text.now) }
{
    for byte in text.as_bytes() {
        out.push(char::from(*byte))?;
    }
    Ok(())
}

// A digit below 16.
fn digit(n: u8) -> char
    requires { n < 16 }
    ensures { result ≡ digit n }
{
    if n < 10 {
        char::from(b'0' + n)
    } else {
        char::from(b'A' - 10 + n)
    }
}

// Adds a reference to a character below 256.
fn push_reference(out: &mut TextBuilder, code: u8) -> Result<(), AllocError>
    ensures { OnOk result (out.new ≡ out.old ++ reference code) }
{
    push_ascii(out, "&#x")?;
    if code >= 16 {
        out.push(digit(code / 16))?;
    }
    out.push(digit(code % 16))?;
    out.push(';')
}

// Adds a character of a text.
fn push_in_text(out: &mut TextBuilder, c: char) -> Result<(), AllocError>
    ensures { OnOk result (out.new ≡ out.old ++ escaped_in_text c) }
{
    if c == '&' {
        push_ascii(out, "&amp;")
    } else if c == '<' {
        push_ascii(out, "&lt;")
    } else if c == '>' {
        push_ascii(out, "&gt;")
    } else if c == '\u{2028}' {
        push_ascii(out, "&#x2028;")
    } else if c == '\r' || (c >= '\u{7f}' && c <= '\u{9f}') {
        push_reference(out, c as u32 as u8)
    } else {
        out.push(c)
    }
}

// Adds a character of an attribute's value.
fn push_in_value(out: &mut TextBuilder, c: char) -> Result<(), AllocError>
    ensures { OnOk result (out.new ≡ out.old ++ escaped_in_value c) }
{
    if c == '"' {
        push_ascii(out, "&quot;")
    } else if c == '\t' || c == '\n' {
        push_reference(out, c as u32 as u8)
    } else {
        push_in_text(out, c)
    }
}

// Adds the characters of a text.
pub(crate) fn push_text(out: &mut TextBuilder, text: &Text) -> Result<(), AllocError>
    ensures { OnOk result (out.new ≡ out.old ++ text_escaped text.now) }
{
    let mut rest = text.as_str().chars();
    while let Some(c) = next_character(&mut rest) {
        push_in_text(out, c)?;
    }
    Ok(())
}

// Adds the characters of an attribute's value.
pub(crate) fn push_value(out: &mut TextBuilder, text: &Text) -> Result<(), AllocError>
    ensures { OnOk result (out.new ≡ out.old ++ value_escaped text.now) }
{
    let mut rest = text.as_str().chars();
    while let Some(c) = next_character(&mut rest) {
        push_in_value(out, c)?;
    }
    Ok(())
}
