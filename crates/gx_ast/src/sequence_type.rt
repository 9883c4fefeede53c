// Sequence types and kind tests as they are written.

use crate::boxed::Boxed;
use crate::name::{Axis, NameTest, QName, Variable};
use gx_base::place::Place;

/// How often an item type occurs (XQuery 1.0, section 2.5.3).
#[derive(Clone, Copy, Debug, PartialEq, Eq)]
pub enum Indicator {
    /// No indicator: once.
    Once,
    /// `?`.
    Optional,
    /// `*`.
    Star,
    /// `+`.
    Plus,
}

/// What stands in the parentheses of an element or attribute test: a name or `*`, and the type behind a comma.
#[derive(Debug)]
pub struct TestedName {
    /// The name; none for `*`.
    pub name: Option<QName>,
    /// The type's name.
    pub kind: Option<QName>,
}

impl Drop for TestedName {
    fn drop(self) {
        let TestedName {
            name: _name,
            kind: _kind,
        } = self;
    }
}

/// A kind test, at its word (XQuery 1.0, section 2.5.4).
#[derive(Debug)]
pub enum KindTest {
    /// `node()`.
    Node(Place),
    /// `text()`.
    Text(Place),
    /// `document-node()`.
    Document(Place),
    /// `document-node(element(..))`.
    DocumentOf(Place, Place, Option<TestedName>),
    /// `document-node(schema-element(..))`.
    DocumentOfDeclared(Place, Place, QName),
    /// `element(..)`.
    Element(Place, Option<TestedName>),
    /// `attribute(..)`.
    Attribute(Place, Option<TestedName>),
    /// `schema-element(..)`.
    Declared(Place, QName),
}

impl Drop for KindTest {
    fn drop(self) {
        match self {
            KindTest::Node(_place) => {}
            KindTest::Text(_place) => {}
            KindTest::Document(_place) => {}
            KindTest::DocumentOf(_place, _element, _tested) => {}
            KindTest::DocumentOfDeclared(_place, _element, _name) => {}
            KindTest::Element(_place, _tested) => {}
            KindTest::Attribute(_place, _tested) => {}
            KindTest::Declared(_place, _name) => {}
        }
    }
}

/// An item type.
#[derive(Debug)]
pub enum ItemType {
    /// `item()`.
    Item(Place),
    /// A kind test.
    Kind(KindTest),
    /// The name of an atomic type.
    Atomic(QName),
}

impl Drop for ItemType {
    fn drop(self) {
        match self {
            ItemType::Item(_place) => {}
            ItemType::Kind(_kind_test) => {}
            ItemType::Atomic(_name) => {}
        }
    }
}

/// A sequence type (XQuery 1.0, section 2.5.3).
#[derive(Debug)]
pub enum SequenceType {
    /// `empty-sequence()`.
    Empty(Place),
    /// An item type with its indicator.
    Items(ItemType, Indicator),
}

impl Drop for SequenceType {
    fn drop(self) {
        match self {
            SequenceType::Empty(_place) => {}
            SequenceType::Items(_item_type, _indicator) => {}
        }
    }
}

/// The type of a cast: a name, and whether `?` stands behind it.
#[derive(Debug)]
pub struct SingleType {
    pub name: QName,
    pub optional: bool,
}

impl Drop for SingleType {
    fn drop(self) {
        let SingleType {
            name: _name,
            optional: _optional,
        } = self;
    }
}

/// A node test.
#[derive(Debug)]
pub enum NodeTest {
    Kind(Boxed<KindTest>),
    Name(Boxed<NameTest>),
}

impl Drop for NodeTest {
    fn drop(self) {
        match self {
            NodeTest::Kind(_test) => {}
            NodeTest::Name(_test) => {}
        }
    }
}

/// An axis step without its predicates: the axis as it is written, if it is, and the test. `@` is the attribute axis.
#[derive(Debug)]
pub struct AxisStep {
    pub axis: Option<Axis>,
    pub test: NodeTest,
}

impl Drop for AxisStep {
    fn drop(self) {
        let AxisStep {
            axis: _axis,
            test: _test,
        } = self;
    }
}

/// A variable that is bound, with its type, and with its position behind `at`.
#[derive(Debug)]
pub struct BoundVariable {
    pub variable: Variable,
    pub kind: Option<SequenceType>,
    pub position: Option<Variable>,
}

impl Drop for BoundVariable {
    fn drop(self) {
        let BoundVariable {
            variable: _variable,
            kind: _kind,
            position: _position,
        } = self;
    }
}

/// What stands before `return` in a case of a typeswitch, at the word `case`.
#[derive(Debug)]
pub struct CaseHead {
    pub place: Place,
    pub variable: Option<Variable>,
    pub kind: SequenceType,
}

impl Drop for CaseHead {
    fn drop(self) {
        let CaseHead {
            place: _place,
            variable: _variable,
            kind: _kind,
        } = self;
    }
}

/// What stands before `return` in the default of a typeswitch, at the word `default`.
#[derive(Debug)]
pub struct DefaultHead {
    pub place: Place,
    pub variable: Option<Variable>,
}

impl Drop for DefaultHead {
    fn drop(self) {
        let DefaultHead {
            place: _place,
            variable: _variable,
        } = self;
    }
}

/// Where the empty sequence stands in an order.
#[derive(Clone, Copy, Debug, PartialEq, Eq)]
pub enum EmptyOrder {
    /// Nothing is said.
    Default,
    /// `empty greatest`.
    Greatest,
    /// `empty least`.
    Least,
}

/// How a sort key orders.
#[derive(Clone, Copy, Debug, PartialEq, Eq)]
pub struct KeyOrder {
    pub descending: bool,
    pub empty: EmptyOrder,
}
