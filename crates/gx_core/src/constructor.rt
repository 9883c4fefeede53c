// Constructors of nodes.

use gx_base::name::Name;

/// What is made of the values of parts (XQuery 1.0, sections 3.7.1 and 3.7.3).
#[derive(Drop)]
pub enum Constructor {
    /// An element of a name; its attributes come first among the parts.
    Element(Name),
    /// An attribute of a name.
    Attribute(Name),
    /// A text, or nothing where there is no value.
    Text,
    /// A document.
    Document,
}
