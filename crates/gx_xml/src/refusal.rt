// Why bytes are no document.

use gx_base::place::Place;

/// The rule that refuses a document.
#[derive(Clone, Copy, Debug, PartialEq, Eq)]
pub enum XmlRule {
    /// The bytes are not UTF-8.
    NotUtf8,
    /// The characters are no document.
    Malformed,
    /// A document type declaration stands in front of the root.
    Doctype,
    /// A prefix of a start tag is not bound.
    UnboundPrefix,
    /// A start tag has two attributes with one expanded name, or two declarations of one prefix.
    DuplicateAttribute,
    /// More than 200 elements stand in one another.
    TooDeep,
}

/// Why bytes are no document, with the place of the rule; or memory did not suffice.
#[derive(Clone, Copy, PartialEq, Eq)]
pub enum XmlRefusal {
    Refused { place: Place, rule: XmlRule },
    Memory,
}
