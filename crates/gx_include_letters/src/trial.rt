// The shapes that are tried at the positions of types.

ghost use Rattle.std.specs.Prelude.{◌≡◌, ◌++◌, [], ◌∷◌, map, IfOk, OnOk};
ghost use Rattle.gx_include_letters.specs.Trials.{other_name, IsOther, made, named_shapes, trial_shapes, untyped};
ghost use Rattle.gx_types.specs.declared.shape.Shape.TheVariants.{Atom};

use gx_base::name::Name;
use gx_base::text::Text;
use gx_base::type_name::TypeName;
use gx_types::shape::Shape;
use indexmap::IndexSet;
use std::alloc::{AllocError, Global};

/// The items that have a name and a type.
#[derive(Clone, Copy)]
pub enum Sort {
    Element,
    Attribute,
    Document,
}

// `other`, or `other` with a number behind it.
fn numbered_name(alloc: Global, number: u64) -> Result<Name, AllocError>
    ensures { IfOk result (λ name. name ≡ other_name number) }
{
    let local = if number == 0 {
        String::from_str(alloc, "other")?
    } else {
        format!(in alloc; "other{number}")?
    };
    Ok(Name {
        uri: Text::empty(alloc)?,
        prefix: Text::empty(alloc)?,
        local: Text::from_string(alloc, local)?,
    })
}

// The first of `other`, `other1`, `other2` and so on that is not in a set. A set is smaller than the count of these.
pub(crate) fn other_than(alloc: Global, names: &IndexSet<Name>) -> Result<Name, AllocError>
    ensures { IfOk result (λ name. IsOther names.now.keys name) }
{
    for number in 0..u64::MAX {
        let name = numbered_name(alloc, number)?;
        if !names.contains(&name) {
            return Ok(name);
        }
    }
    Err(AllocError)
}

// An item of a sort with a name and a type.
fn make(sort: Sort, name: &Name, t: &TypeName) -> Result<Shape, AllocError>
    ensures { IfOk result (λ shape. shape ≡ made sort name.now t.now) }
{
    let name = name.clone()?;
    let t = t.clone()?;
    Ok(match sort {
        Sort::Element => Shape::Elem(name, t),
        Sort::Attribute => Shape::Attr(name, t),
        Sort::Document => Shape::Doc(Some((name, t))),
    })
}

fn add_typed(
    shapes: &mut Vec<Shape>,
    sort: Sort,
    name: &Name,
    types: &[TypeName],
) -> Result<(), AllocError>
    ensures { OnOk result (shapes.new.items ≡ shapes.old.items ++ map (λ t. made sort name.now t) types.now) }
{
    for t in types {
        shapes.push(make(sort, name, t)?)?;
    }
    Ok(())
}

fn add_named(
    shapes: &mut Vec<Shape>,
    sort: Sort,
    names: &[Name],
    types: &[TypeName],
) -> Result<(), AllocError>
    ensures { OnOk result (shapes.new.items ≡ shapes.old.items ++ named_shapes sort types.now names.now) }
{
    for name in names {
        add_typed(shapes, sort, name, types)?;
    }
    Ok(())
}

fn add_atoms(shapes: &mut Vec<Shape>, types: &[TypeName]) -> Result<(), AllocError>
    ensures { OnOk result (shapes.new.items ≡ shapes.old.items ++ map Atom types.now) }
{
    for t in types {
        shapes.push(Shape::Atom(t.clone()?))?;
    }
    Ok(())
}

// The shapes that are tried: atomic values by type, elements and attributes by name and type, a text, and documents without
// and with an element.
pub(crate) fn trials(
    alloc: Global,
    types: &[TypeName],
    element_types: &[TypeName],
    names: &[Name],
) -> Result<Vec<Shape>, AllocError>
    requires { element_types.now ≡ untyped ∷ types.now }
    ensures { IfOk result (λ shapes. shapes.items ≡ trial_shapes types.now names.now) }
{
    let mut shapes = Vec::new(alloc);
    add_atoms(&mut shapes, types)?;
    add_named(&mut shapes, Sort::Element, names, element_types)?;
    add_named(&mut shapes, Sort::Attribute, names, types)?;
    shapes.push(Shape::Text)?;
    shapes.push(Shape::Doc(None))?;
    add_named(&mut shapes, Sort::Document, names, element_types)?;
    Ok(shapes)
}
