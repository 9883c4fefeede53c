// The texts of numbers, names and types.

ghost use Rattle.std.specs.Prelude.{◌≡◌, ◌++◌, OnOk};
ghost use Rattle.std.specs.Fmt.{signed_decimal};
ghost use Rattle.std.specs.Str.{chars};
ghost use Rattle.gx_typetext.specs.NameText.{name_text, type_name_text};
ghost use Rattle.gx_typetext.specs.TypeText.{type_text};
ghost use Rattle.gx_plantext.specs.TermText.{number_text};

use gx_base::name::Name;
use gx_base::text_builder::TextBuilder;
use gx_base::type_name::TypeName;
use gx_types::sequence_type::Ty;
use gx_typetext::print::{print_name, print_type, print_type_name};
use std::alloc::{AllocError, Global};

// Adds a number.
pub(crate) fn push_decimal(
    alloc: Global,
    text: &mut TextBuilder,
    number: u32,
) -> Result<(), AllocError>
    ensures { OnOk result (text.new ≡ text.old ++ number_text number) }
{
    let digits = format!(in alloc; "{number}")?;
    text.push_str(digits.as_str())
}

// Adds a number with its sign.
pub(crate) fn push_signed(
    alloc: Global,
    text: &mut TextBuilder,
    number: i128,
) -> Result<(), AllocError>
    ensures { OnOk result (text.new ≡ text.old ++ chars (signed_decimal number)) }
{
    let digits = format!(in alloc; "{number}")?;
    text.push_str(digits.as_str())
}

// Adds a name.
pub(crate) fn push_name(
    alloc: Global,
    text: &mut TextBuilder,
    name: &Name,
) -> Result<(), AllocError>
    ensures { OnOk result (text.new ≡ text.old ++ name_text name.now) }
{
    let printed = print_name(alloc, name)?;
    text.push_text(&printed)
}

// Adds the name of a type.
pub(crate) fn push_type_name(
    alloc: Global,
    text: &mut TextBuilder,
    name: &TypeName,
) -> Result<(), AllocError>
    ensures { OnOk result (text.new ≡ text.old ++ type_name_text name.now) }
{
    let printed = print_type_name(alloc, name)?;
    text.push_text(&printed)
}

// Adds a type.
pub(crate) fn push_type(alloc: Global, text: &mut TextBuilder, t: &Ty) -> Result<(), AllocError>
    ensures { OnOk result (text.new ≡ text.old ++ type_text t.now) }
{
    let printed = print_type(alloc, t)?;
    text.push_text(&printed)
}
