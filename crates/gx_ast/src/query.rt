// Queries with their prologs.

use crate::expression::Expr;
use crate::items::Items;
use crate::name::{QName, Variable};
use crate::sequence_type::{EmptyOrder, SequenceType};
use gx_base::place::Place;
use gx_base::text::Text;

/// A version declaration, with the encoding that it names (XQuery 1.0, section 4.1).
#[derive(Drop)]
pub struct Version {
    pub place: Place,
    pub encoding: Option<Text>,
}

/// The prefix that a declaration binds, at its first character.
#[derive(Drop)]
pub struct Prefix {
    pub place: Place,
    pub name: Text,
}

/// What an import of a schema binds its namespace to (XQuery 1.0, section 4.11).
#[derive(Drop)]
pub enum SchemaPrefix {
    /// Nothing.
    Unnamed,
    /// A prefix.
    Named(Prefix),
    /// The names of elements without a prefix.
    Default,
}

/// A declaration in the first part of a prolog, at `declare` or `import` (XQuery 1.0, section 4).
#[derive(Drop)]
pub struct Setting {
    pub place: Place,
    pub node: SettingNode,
}

/// What a declaration in the first part of a prolog says.
#[derive(Drop)]
pub enum SettingNode {
    /// `declare namespace`, with the prefix and the URI.
    Namespace(Prefix, Text),
    /// `declare default element namespace`.
    DefaultElementNamespace(Text),
    /// `declare boundary-space`, with whether it is preserved.
    BoundarySpace(bool),
    /// `declare construction strip`.
    Construction,
    /// `declare ordering ordered`.
    Ordering,
    /// `declare default order empty`.
    EmptyOrder(EmptyOrder),
    /// `declare copy-namespaces no-preserve, no-inherit`.
    CopyNamespaces,
    /// `import schema`, with what its namespace is bound to, the namespace and the locations.
    Schema(SchemaPrefix, Text, Items<Text>),
}

/// The value of a declared variable.
#[derive(Drop)]
pub enum Initialiser {
    /// It is given from outside.
    External,
    /// The expression behind `:=`.
    Value(Expr),
}

/// A parameter of a function.
#[derive(Drop)]
pub struct Parameter {
    pub variable: Variable,
    pub kind: Option<SequenceType>,
}

/// A declaration in the second part of a prolog, at `declare` (XQuery 1.0, sections 4.14 and 4.15).
#[derive(Drop)]
pub struct Definition {
    pub place: Place,
    pub node: DefinitionNode,
}

/// What a declaration in the second part of a prolog says.
#[derive(Drop)]
pub enum DefinitionNode {
    /// `declare variable`.
    Variable(Variable, Option<SequenceType>, Initialiser),
    /// `declare function`, with its parameters, its result type and its body.
    Function(QName, Items<Parameter>, Option<SequenceType>, Expr),
}

/// A query (XQuery 1.0, section 4).
#[derive(Drop)]
pub struct Query {
    pub version: Option<Version>,
    pub settings: Items<Setting>,
    pub definitions: Items<Definition>,
    pub body: Expr,
}
