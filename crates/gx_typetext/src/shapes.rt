// The text of a list of shapes.

ghost use Rattle.std.specs.Prelude.{◌≡◌, ◌++◌, OnOk, IfOk, codes};
ghost use Rattle.gx_typetext.specs.NameText.{word};
ghost use Rattle.gx_typetext.specs.ItemText.{item_text};
ghost use Rattle.gx_typetext.specs.ShapeText.{item_type_of_shape, further_text, shapes_text};

use crate::item_text::{write_item, write_word};
use gx_base::text::Text;
use gx_base::text_builder::TextBuilder;
use gx_types::item_type::ItemType;
use gx_types::shape::Shape;
use std::alloc::{AllocError, Global};

/// The text of a list of shapes, with `, ` between them: each is written as the item type of its name and its type, and a list
/// without shapes as `empty-sequence()`.
pub fn print_shapes(alloc: Global, list: &[Shape]) -> Result<Text, AllocError>
    ensures { IfOk result (λ text. text ≡ shapes_text list.now) }
{
    let mut text = TextBuilder::new(alloc);
    match list.split_first() {
        Some((first, others)) => {
            write_shape(alloc, &mut text, first)?;
            write_further(alloc, &mut text, others)?;
        }
        None => write_word(alloc, &mut text, "empty-sequence()")?,
    }
    text.finish()
}

fn write_further(alloc: Global, text: &mut TextBuilder, list: &[Shape]) -> Result<(), AllocError>
    ensures { OnOk result (text.new ≡ text.old ++ further_text list.now) }
{
    for shape in list {
        write_behind(alloc, text, shape)?;
    }
    Ok(())
}

#[tactic(auto, using(std::proofs::Common::append_assoc))]
fn write_behind(alloc: Global, text: &mut TextBuilder, shape: &Shape) -> Result<(), AllocError>
    ensures { OnOk result (text.new ≡ text.old ++ (word (codes ", ") ++ item_text (item_type_of_shape shape.now))) }
{
    write_word(alloc, text, ", ")?;
    write_shape(alloc, text, shape)
}

fn write_shape(alloc: Global, text: &mut TextBuilder, shape: &Shape) -> Result<(), AllocError>
    ensures { OnOk result (text.new ≡ text.old ++ item_text (item_type_of_shape shape.now)) }
{
    let item = item_of_shape(shape)?;
    write_item(alloc, text, &item)
}

// The item type of a shape's name and type.
fn item_of_shape(shape: &Shape) -> Result<ItemType, AllocError>
    ensures { IfOk result (λ item. item ≡ item_type_of_shape shape.now) }
{
    match shape {
        Shape::Elem(name, kind) => {
            let name = Some(name.clone()?);
            Ok(ItemType::Element {
                name,
                kind: kind.clone()?,
            })
        }
        Shape::Attr(name, kind) => {
            let name = Some(name.clone()?);
            Ok(ItemType::Attribute {
                name,
                kind: kind.clone()?,
            })
        }
        Shape::Text => Ok(ItemType::Text),
        Shape::Doc(None) => Ok(ItemType::Document(None)),
        Shape::Doc(Some((name, kind))) => {
            let name = Some(name.clone()?);
            Ok(ItemType::Document(Some((name, kind.clone()?))))
        }
        Shape::Atom(kind) => Ok(ItemType::Atom(kind.clone()?)),
    }
}
