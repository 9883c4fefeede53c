// Shapes as they are read in a state.

use gx_base::name::Name;
use gx_base::type_name::TypeName;

// One thing that item types look at in a shape: its name, which is left out where none of them asks for it, or its sort with
// its type. Features with equal names or equal types are equal.
#[derive(Clone, Copy, PartialEq, Eq, Hash)]
pub enum Feature<'a> {
    Named(&'a Name),
    Unnamed,
    Element(&'a TypeName),
    Attribute(&'a TypeName),
    Text,
    Document,
    DocumentOf(&'a TypeName),
    Atom(&'a TypeName),
}

// A shape by its name and by its sort and type.
#[derive(Clone, Copy, PartialEq, Eq, Hash)]
pub struct Symbol<'a> {
    pub name: Feature<'a>,
    pub kind: Feature<'a>,
}

// A symbol that is read in the state of a number.
#[derive(Clone, Copy, PartialEq, Eq, Hash)]
pub struct Reading<'a> {
    pub state: usize,
    pub symbol: Symbol<'a>,
}
