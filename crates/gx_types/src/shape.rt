// The shapes of items.

ghost use Rattle.std.specs.Prelude.{◌≡◌};

use gx_base::name::Name;
use gx_base::type_name::TypeName;
use std::alloc::AllocError;

/// What a type sees of an item: the name and the type annotation of an element, the name and the type of an attribute, a
/// text, a document with the name and the annotation of its one child where that is an element, or the type of an atomic
/// value (XQuery 1.0, section 2.5.4).
pub enum Shape {
    Elem(Name, TypeName),
    Attr(Name, TypeName),
    Text,
    Doc(Option<(Name, TypeName)>),
    Atom(TypeName),
}

impl Drop for Shape {
    fn drop(self) {
        match self {
            Shape::Elem(_name, _type_name) => {}
            Shape::Attr(_name, _type_name) => {}
            Shape::Text => {}
            Shape::Doc(_option) => {}
            Shape::Atom(_type_name) => {}
        }
    }
}

impl Clone for Shape {
    ghost is_clone = { λ shape copy. copy ≡ shape };

    fn clone(&self) -> Result<Shape, AllocError> {
        match self {
            Shape::Elem(name, kind) => Ok(Shape::Elem(name.clone()?, kind.clone()?)),
            Shape::Attr(name, kind) => Ok(Shape::Attr(name.clone()?, kind.clone()?)),
            Shape::Text => Ok(Shape::Text),
            Shape::Doc(None) => Ok(Shape::Doc(None)),
            Shape::Doc(Some((name, kind))) => {
                let name = name.clone()?;
                Ok(Shape::Doc(Some((name, kind.clone()?))))
            }
            Shape::Atom(kind) => Ok(Shape::Atom(kind.clone()?)),
        }
    }
}
