// Queries in which each name is resolved.

use gx_ast::expression::BinaryOperator;
use gx_ast::items::Items;
use gx_ast::sequence_type::{EmptyOrder, KeyOrder};
use gx_base::name::{Name, SharedName};
use gx_base::place::Place;
use gx_base::text::Text;
use gx_base::type_name::TypeName;
use gx_funcs::function::Function;
use gx_num::Number;
use gx_types::sequence_type::Ty;
use gx_types::step::{Axis, Test};
use std::marker::Model;

/// A variable that is bound, at its `$`, and the type that is written at it.
pub struct BoundName {
    pub name: SharedName,
    pub place: Place,
    pub kind: Option<Ty>,
}

impl Drop for BoundName {
    fn drop(self) {
        let BoundName {
            name: _name,
            place: _place,
            kind: _kind,
        } = self;
    }
}

/// The word of a clause that binds variables.
#[derive(Clone, Copy, PartialEq, Eq)]
pub enum BindingWord {
    For,
    Let,
    /// `some` or `every`.
    Satisfies,
}

/// What stands at the root of a part of a query, with what it has beside its parts: one variant for each construct (XQuery 1.0,
/// section 3). A binding, a clause, a sort key, a branch of a typeswitch and an attribute of a direct element are parts of their own.
pub enum Construct {
    /// A numeric literal.
    Number(Number),
    /// A string literal.
    String(Text),
    /// A variable, with the place of its binder's `$`.
    Variable(SharedName, Place),
    /// `()`.
    Empty,
    /// An expression in parentheses.
    Parenthesised,
    /// `.`.
    Context,
    /// A call of a built-in function. Its parts are the arguments.
    Call(Function),
    /// A call of a function that the query declares. Its parts are the arguments.
    CallDeclared(SharedName),
    /// Two expressions with a comma between.
    Sequence,
    /// A FLWOR: its clauses, its sort keys, and what is returned.
    Flwor,
    /// A `for` of one variable, with that of its position, over its operand.
    For(BoundName, Option<BoundName>),
    /// A `let` of one variable, with its value.
    Let(BoundName),
    /// `where`, with its condition.
    Where,
    /// A sort key.
    Key(KeyOrder),
    /// `some`, or `every` where that is true: its bindings, and its condition.
    Quantified(bool),
    /// A binding of a quantified expression, over its operand.
    In(BoundName),
    /// A typeswitch: its operand, its cases, and its default.
    Typeswitch,
    /// A case of a typeswitch, with its branch.
    Case(Option<BoundName>, Ty),
    /// The default of a typeswitch, with its branch.
    Default(Option<BoundName>),
    /// `if`, `then` and `else`.
    If,
    /// Two operands with an operator between.
    Binary(BinaryOperator),
    /// `instance of` a type.
    InstanceOf(Ty),
    /// `treat as` a type.
    TreatAs(Ty),
    /// `castable as` a type, of an empty operand too where that is true.
    CastableAs(TypeName, bool),
    /// `cast as` a type, of an empty operand too where that is true.
    CastAs(TypeName, bool),
    /// A sign, `-` where that is true.
    Signed(bool),
    /// A path of two parts, with `//` between where that is true.
    Path(bool),
    /// An axis step.
    Step(Axis, Test),
    /// `..`.
    ParentStep,
    /// An expression, and its predicates.
    Filtered,
    /// `document { .. }`.
    Document,
    /// `text { .. }`.
    TextNode,
    /// `element q { .. }`, or without a part `element q {}`.
    Element(Name),
    /// `attribute q { .. }`, or without a part `attribute q {}`.
    Attribute(Name),
    /// A direct element. Its parts are its attributes, but for namespace declarations, and then the parts of its content.
    DirectElement(Name),
    /// An attribute of a direct element, with the parts of its value.
    DirectAttribute(SharedName),
    /// White space alone in the content of a direct element, which stays only where boundary-space is preserved.
    Blank(Text),
}

impl Drop for Construct {
    fn drop(self) {
        match self {
            Construct::Number(_value) => {}
            Construct::String(_text) => {}
            Construct::Variable(_name, _binder) => {}
            Construct::Empty => {}
            Construct::Parenthesised => {}
            Construct::Context => {}
            Construct::Call(_function) => {}
            Construct::CallDeclared(_name) => {}
            Construct::Sequence => {}
            Construct::Flwor => {}
            Construct::For(_bound, _position) => {}
            Construct::Let(_bound) => {}
            Construct::Where => {}
            Construct::Key(_order) => {}
            Construct::Quantified(_every) => {}
            Construct::In(_bound) => {}
            Construct::Typeswitch => {}
            Construct::Case(_bound, _kind) => {}
            Construct::Default(_bound) => {}
            Construct::If => {}
            Construct::Binary(_operator) => {}
            Construct::InstanceOf(_kind) => {}
            Construct::TreatAs(_kind) => {}
            Construct::CastableAs(_kind, _optional) => {}
            Construct::CastAs(_kind, _optional) => {}
            Construct::Signed(_minus) => {}
            Construct::Path(_deep) => {}
            Construct::Step(_axis, _test) => {}
            Construct::ParentStep => {}
            Construct::Filtered => {}
            Construct::Document => {}
            Construct::TextNode => {}
            Construct::Element(_name) => {}
            Construct::Attribute(_name) => {}
            Construct::DirectElement(_name) => {}
            Construct::DirectAttribute(_name) => {}
            Construct::Blank(_text) => {}
        }
    }
}

/// A part of a query in which each name is resolved: a construct over its parts, which are in the order of the text.
pub struct ResolvedExpr {
    pub place: Place,
    pub construct: Construct,
    pub parts: Vec<ResolvedExpr>,
}

impl Drop for ResolvedExpr {
    fn drop(self) {
        let ResolvedExpr {
            place: _place,
            construct: _construct,
            parts: _parts,
        } = self;
    }
}

impl ResolvedExpr {
    ghost use Rattle.std.specs.Prelude.{◌≡◌};
    ghost use Rattle.gx_resolved.specs.ResolvedTree.{parts_of_tree};
    ghost use Rattle.gx_resolved.specs.ResolvedView.{resolved_parts};

    /// The parts of the tree.
    pub fn into_parts(self) -> Vec<ResolvedExpr>
        ensures { parts_of_tree self ≡ resolved_parts result.items }
    {
        let ResolvedExpr {
            place: _place,
            construct: _construct,
            parts,
        } = self;
        parts
    }
}

impl Model for ResolvedExpr {
    ghost use Rattle.gx_resolved.specs.ResolvedTree.{ResolvedTree, resolved_size};
    ghost use Rattle.gx_resolved.specs.ResolvedCode.{resolved_code};

    ghost Value = { ResolvedTree };

    ghost coded = { resolved_code };

    ghost use Rattle.gx_resolved.specs.ResolvedView.{resolved_parts};
    ghost use Rattle.gx_resolved.specs.ResolvedTree.{resolved_at};

    ghost view = { λ e. resolved_at e.place e.construct (resolved_parts e.parts.items) };

    ghost size = { resolved_size };

    ghost use Rattle.gx_resolved.specs.ResolvedParts.{resolved_parts_are_smaller};

    ghost size_decreases = { λ e h. resolved_parts_are_smaller e.parts.items };
}

/// A global variable with its value, at `declare` (XQuery 1.0, section 4.14).
#[derive(Drop)]
pub struct Global {
    pub place: Place,
    pub bound: BoundName,
    pub value: ResolvedExpr,
}

/// An external variable, at `declare` (XQuery 1.0, section 4.14).
#[derive(Drop)]
pub struct External {
    pub place: Place,
    pub bound: BoundName,
}

/// A function with its parameters, the type of its result, and its body, at `declare` (XQuery 1.0, section 4.15).
#[derive(Drop)]
pub struct FunctionDeclaration {
    pub place: Place,
    pub name: SharedName,
    pub parameters: Items<BoundName>,
    pub result: Option<Ty>,
    pub body: ResolvedExpr,
}

/// What the setters of a prolog say (XQuery 1.0, sections 4.3 and 4.8).
#[derive(Clone, Copy, PartialEq, Eq)]
pub struct Settings {
    pub preserves_boundary_space: bool,
    pub empty_order: EmptyOrder,
}

/// A declaration of the second part of a prolog.
#[derive(Drop)]
pub enum Declaration {
    /// A variable with a value.
    Global(Global),
    /// An external variable.
    External(External),
    /// A function.
    Function(FunctionDeclaration),
}

/// A query in which each name is resolved: its settings, its declarations in the order of the text, and its body.
#[derive(Drop)]
pub struct Resolved {
    pub settings: Settings,
    pub declarations: Items<Declaration>,
    pub body: ResolvedExpr,
}
