// What the names of sequence types say, and the parts of these types.

use gx_ast::name::QName;
use gx_ast::sequence_type::{Indicator, TestedName};
use gx_base::place::Place;

/// The names of kind tests (XQuery 1.0, section 2.5.4).
#[derive(Clone, Copy, PartialEq, Eq)]
pub enum KindWord {
    Node,
    Text,
    Document,
    Element,
    Attribute,
    SchemaElement,
}

/// What a name at the front of a sequence type says (XQuery 1.0, section 2.5.3).
#[derive(Clone, Copy, PartialEq, Eq)]
pub enum TypeWord {
    EmptySequence,
    Item,
    Kind(KindWord),
    Atomic,
}

/// What stands in the parentheses of a kind test.
#[derive(Drop)]
pub enum TestContent {
    /// A name or `*` and a type's name, or nothing.
    Tested(Option<TestedName>),
    /// A name.
    Name(QName),
    /// The test of an element, at its word.
    Element(Place, Option<TestedName>),
    /// The test of a declared element, at its word.
    Declared(Place, QName),
}

/// What stands behind the name of a sequence type.
#[derive(Drop)]
pub struct TypeTail {
    /// What stands in parentheses, if they stand there.
    pub content: Option<TestContent>,
    pub indicator: Indicator,
}
