// The parts of a type text, as they are written.

use gx_base::text::Text;

/// What stands before the local part of a name: nothing, `xs:`, or a URI in braces.
#[derive(Drop)]
pub enum Space {
    Nowhere,
    Schema,
    Uri(Text),
}

/// A name as it is written.
#[derive(Drop)]
pub struct WrittenName {
    pub space: Space,
    pub local: Text,
}

/// What stands in the parentheses of an element or attribute test. Where no name is written, or `*`, there is none.
#[derive(Drop)]
pub struct WrittenTest {
    pub name: Option<WrittenName>,
    pub kind: Option<WrittenName>,
}

/// What stands in the parentheses of an item type: nothing, a test, or the test of a document's element.
#[derive(Drop)]
pub enum Inside {
    Nothing,
    Test(WrittenTest),
    Element(WrittenTest),
    Declared(WrittenName),
}

/// What a name without a prefix at the front of an item type says.
#[derive(Clone, Copy, PartialEq, Eq)]
pub enum NameWord {
    Never,
    Empty,
    Node,
    Item,
    Text,
    Document,
    Element,
    Attribute,
    Schema,
    Other,
}

/// An item type as it is written (XQuery 1.0, section 2.5.3).
#[derive(Drop)]
pub enum WrittenItem {
    AnyNode,
    AnyItem,
    Text,
    Document,
    DocumentOf(WrittenTest),
    DocumentOfDeclared(WrittenName),
    Element(WrittenTest),
    Attribute(WrittenTest),
    Declared(WrittenName),
    Atomic(WrittenName),
}

/// What stands between separators, without its indicator and its parentheses.
#[derive(Drop)]
pub enum Operand {
    Never,
    Empty,
    Item(WrittenItem),
}

/// An occurrence indicator (XQuery 1.0, section 2.5.3).
#[derive(Clone, Copy, PartialEq, Eq)]
pub enum Indicator {
    Optional,
    Star,
    Plus,
}

/// A piece of a type text.
#[derive(Drop)]
pub enum Piece {
    Opening,
    Closing,
    Comma,
    Bar,
    Indicated(Indicator),
    Operand(Operand),
}
