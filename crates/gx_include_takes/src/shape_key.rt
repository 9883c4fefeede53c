// Shapes as keys of tables.

ghost use Rattle.std.specs.Prelude.{◌≡◌, IfOk, IsTrue, true};
ghost use Rattle.gx_include_takes.specs.Automaton.{shape_keyed, shape_key, same_step};

use gx_base::name::Name;
use gx_base::type_name::TypeName;
use gx_types::shape::Shape;
use std::alloc::AllocError;

// A shape. Two are equal where they are of one sort, with equal names and equal types.
#[derive(PartialEq, Eq, Hash, Drop)]
pub enum ShapeKey {
    Element(Name, TypeName),
    Attribute(Name, TypeName),
    Text,
    Document,
    DocumentOf(Name, TypeName),
    Atom(TypeName),
}

// A shape that is read in the state of a number.
#[derive(PartialEq, Eq, Hash, Drop)]
pub struct StepKey {
    pub state: usize,
    pub shape: ShapeKey,
}

// The key of a shape, which shares its names.
pub(crate) fn key_of(shape: &Shape) -> Result<ShapeKey, AllocError>
    ensures { IfOk result (λ key. shape_keyed key ≡ shape.now) }
{
    match shape {
        Shape::Elem(name, kind) => Ok(ShapeKey::Element(name.clone()?, kind.clone()?)),
        Shape::Attr(name, kind) => Ok(ShapeKey::Attribute(name.clone()?, kind.clone()?)),
        Shape::Text => Ok(ShapeKey::Text),
        Shape::Doc(None) => Ok(ShapeKey::Document),
        Shape::Doc(Some((name, kind))) => Ok(ShapeKey::DocumentOf(name.clone()?, kind.clone()?)),
        Shape::Atom(kind) => Ok(ShapeKey::Atom(kind.clone()?)),
    }
}

// Whether a key is that of a shape in a state. Of other shapes than elements and texts it is not said.
pub(crate) fn is_step_of(key: &StepKey, state: usize, shape: &Shape) -> bool
    ensures { IsTrue result → same_step key.now (record { state = state; shape = shape_key shape.now }) ≡ true }
{
    if key.state != state {
        return false;
    }
    match (&key.shape, shape) {
        (ShapeKey::Element(name, kind), Shape::Elem(given, t)) => name == given && kind == t,
        (ShapeKey::Text, Shape::Text) => true,
        _ => false,
    }
}
