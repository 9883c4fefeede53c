// The text of a type.

ghost use Rattle.std.specs.Prelude.{◌≡◌, ◌++◌, OnOk, IfOk};
ghost use Rattle.gx_typetext.specs.NameText.{name_text, type_name_text};
ghost use Rattle.gx_typetext.specs.TypeText.{opening_parenthesis, closing_parenthesis, text_in, type_text};

use crate::context::Context;
use crate::item_text::{write_item, write_name, write_type_name, write_word};
use gx_base::name::Name;
use gx_base::text::Text;
use gx_base::text_builder::TextBuilder;
use gx_base::type_name::TypeName;
use gx_types::sequence_type::{Ty, TyNode};
use std::alloc::{AllocError, Global};

/// The text of a type (XQuery 1.0, section 2.5.3, with `,` between the parts of a sequence and `|` between the members of
/// a choice). A choice in a sequence, a sequence in a choice, and either of them under an indicator stand in parentheses.
/// The choices that `node()` and `item()` stand for are written by their members. A name is written with its URI in
/// braces, or as `xs:name` in the schema namespace, and an anonymous type as `#n`.
pub fn print_type(alloc: Global, t: &Ty) -> Result<Text, AllocError>
    ensures { IfOk result (λ text. text ≡ type_text t.now) }
{
    let mut text = TextBuilder::new(alloc);
    write_type(alloc, &mut text, Context::Whole, t)?;
    text.finish()
}

/// The text of a name: its local part, behind its URI in braces, or behind `xs:` in the schema namespace.
pub fn print_name(alloc: Global, name: &Name) -> Result<Text, AllocError>
    ensures { IfOk result (λ text. text ≡ name_text name.now) }
{
    let mut text = TextBuilder::new(alloc);
    write_name(alloc, &mut text, name)?;
    text.finish()
}

/// The text of the name of a type; that of an anonymous one is `#n`.
pub fn print_type_name(alloc: Global, name: &TypeName) -> Result<Text, AllocError>
    ensures { IfOk result (λ text. text ≡ type_name_text name.now) }
{
    let mut text = TextBuilder::new(alloc);
    write_type_name(alloc, &mut text, name)?;
    text.finish()
}

// Adds a type at the end.
#[tactic(auto, using(std::proofs::Common::append_assoc))]
fn write_type(
    alloc: Global,
    text: &mut TextBuilder,
    context: Context,
    t: &Ty,
) -> Result<(), AllocError>
    ensures { OnOk result (text.new ≡ text.old ++ text_in context t.now) }
{
    match &t.node {
        TyNode::Never => write_word(alloc, text, "none"),
        TyNode::Empty => write_word(alloc, text, "empty-sequence()"),
        TyNode::Item(item) => write_item(alloc, text, item),
        TyNode::Seq(first, second) => {
            let wrapped = context.wraps_sequence();
            write_opening(alloc, text, wrapped)?;
            write_type(alloc, text, Context::Sequence, first)?;
            write_word(alloc, text, ", ")?;
            write_type(alloc, text, Context::Sequence, second)?;
            write_closing(alloc, text, wrapped)
        }
        TyNode::Alt(first, second) => {
            let wrapped = context.wraps_choice();
            write_opening(alloc, text, wrapped)?;
            write_type(alloc, text, Context::Choice, first)?;
            write_word(alloc, text, " | ")?;
            write_type(alloc, text, Context::Choice, second)?;
            write_closing(alloc, text, wrapped)
        }
        TyNode::Optional(part) => {
            write_opening(alloc, text, context.wraps_indicated())?;
            write_type(alloc, text, Context::Indicator, part)?;
            write_word(alloc, text, "?")?;
            write_closing(alloc, text, context.wraps_indicated())
        }
        TyNode::Star(part) => {
            write_opening(alloc, text, context.wraps_indicated())?;
            write_type(alloc, text, Context::Indicator, part)?;
            write_word(alloc, text, "*")?;
            write_closing(alloc, text, context.wraps_indicated())
        }
        TyNode::Plus(part) => {
            write_opening(alloc, text, context.wraps_indicated())?;
            write_type(alloc, text, Context::Indicator, part)?;
            write_word(alloc, text, "+")?;
            write_closing(alloc, text, context.wraps_indicated())
        }
    }
}

// Adds an opening parenthesis where one is wanted.
fn write_opening(alloc: Global, text: &mut TextBuilder, wrapped: bool) -> Result<(), AllocError>
    ensures { OnOk result (text.new ≡ text.old ++ opening_parenthesis wrapped) }
{
    if wrapped {
        write_word(alloc, text, "(")?;
    }
    Ok(())
}

// Adds a closing parenthesis where one is wanted.
fn write_closing(alloc: Global, text: &mut TextBuilder, wrapped: bool) -> Result<(), AllocError>
    ensures { OnOk result (text.new ≡ text.old ++ closing_parenthesis wrapped) }
{
    if wrapped {
        write_word(alloc, text, ")")?;
    }
    Ok(())
}
