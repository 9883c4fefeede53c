// Expressions and direct constructors.

ghost use Rattle.std.specs.Prelude.{◌≡◌};

use crate::name::QName;
use crate::sequence_type::{
    AxisStep, BoundVariable, CaseHead, DefaultHead, KeyOrder, SequenceType, SingleType,
};
use gx_base::place::Place;
use gx_base::text::Text;
use gx_num::Number;
use std::marker::Model;

/// The operators with two operands (XQuery 1.0, appendix A.4).
#[derive(Clone, Copy, Debug, PartialEq, Eq)]
pub enum BinaryOperator {
    Or,
    And,
    Equal,
    NotEqual,
    Less,
    LessOrEqual,
    Greater,
    GreaterOrEqual,
    ValueEqual,
    ValueNotEqual,
    ValueLess,
    ValueLessOrEqual,
    ValueGreater,
    ValueGreaterOrEqual,
    Is,
    Before,
    After,
    To,
    Add,
    Subtract,
    Multiply,
    Divide,
    DivideInteger,
    Modulo,
    Union,
    Intersect,
    Except,
}

/// An expression. Its place is that of its first token, of its operator where it has one between its parts, of the word of
/// a FLWOR, a quantified expression, a typeswitch or a conditional, and, where predicates stand behind it, of the expression
/// in front of them.
#[cycle(expression)]
pub struct Expr {
    pub place: Place,
    pub node: ExprNode,
}

impl Drop for Expr {
    #[cycle(expression)]
    fn drop(self) {
        let Expr {
            place: _place,
            node: _node,
        } = self;
    }
}

impl Expr {
    ghost use Rattle.gx_ast.specs.SyntaxView.{syntax_of};

    /// The place, and what stands at the root.
    pub fn into_parts(self) -> (Place, ExprNode)
        ensures { self ≡ syntax_of result.0 result.1 }
    {
        let Expr { place, node } = self;
        (place, node)
    }
}

/// What stands at the root of an expression (XQuery 1.0, section 3). What is large or rare is in a box, so that an operator
/// or a literal takes few bytes.
#[cycle(expression)]
#[derive(Drop)]
pub enum ExprNode {
    /// A numeric literal.
    Number(Box<Number>),
    /// A string literal.
    String(Text),
    /// A variable.
    Variable(QName),
    /// An expression in parentheses.
    Parenthesised(Box<Expr>),
    /// `()`.
    Empty,
    /// `.`.
    Context,
    /// A function call.
    Call(Box<Call>),
    /// Two expressions with a comma between. `a, b, c` is `(a, b), c`.
    Sequence(Box<Expr>, Box<Expr>),
    /// A FLWOR.
    Flwor(Box<Flwor>),
    /// A quantified expression.
    Quantified(Box<Quantified>),
    /// A typeswitch.
    Typeswitch(Box<Typeswitch>),
    /// `if`, `then` and `else`.
    If(Box<Expr>, Box<Expr>, Box<Expr>),
    /// Two operands with an operator between. Chains nest to the left.
    Binary(BinaryOperator, Box<Expr>, Box<Expr>),
    /// `instance of`.
    InstanceOf(Box<Expr>, Box<SequenceType>),
    /// `treat as`.
    TreatAs(Box<Expr>, Box<SequenceType>),
    /// `castable as`.
    CastableAs(Box<Expr>, Box<SingleType>),
    /// `cast as`.
    CastAs(Box<Expr>, Box<SingleType>),
    /// A sign, `-` where that is true.
    Signed(bool, Box<Expr>),
    /// A path of two parts, with `//` between where that is true. Paths nest to the left.
    Path(bool, Box<Expr>, Box<Expr>),
    /// An axis step.
    Step(AxisStep),
    /// `..`.
    ParentStep,
    /// An expression with its predicates.
    Filtered(Box<Filtered>),
    /// A direct element, at its `<`.
    Direct(Box<DirectElement>),
    /// `document { .. }`.
    Document(Box<Expr>),
    /// `text { .. }`.
    TextNode(Box<Expr>),
    /// `element q { .. }`.
    Element(Box<QName>, Box<Expr>),
    /// `element q {}`.
    EmptyElement(QName),
    /// `attribute q { .. }`.
    Attribute(Box<QName>, Box<Expr>),
    /// `attribute q {}`.
    EmptyAttribute(QName),
}

/// A function call.
#[cycle(expression)]
#[derive(Drop)]
pub struct Call {
    pub name: QName,
    pub arguments: Vec<Expr>,
}

/// A FLWOR, and whether its order is stable (XQuery 1.0, section 3.8). `order` is the place of the first word of the clause that
/// orders, or, where there is none, that of `return`.
#[cycle(expression)]
#[derive(Drop)]
pub struct Flwor {
    pub clauses: Vec<Clause>,
    pub order: Place,
    pub stable: bool,
    pub keys: Vec<Key>,
    pub returned: Expr,
}

/// `some`, or `every` where that is true, with its condition behind `satisfies` (XQuery 1.0, section 3.11).
#[cycle(expression)]
#[derive(Drop)]
pub struct Quantified {
    pub every: bool,
    pub bindings: Vec<Binding>,
    pub condition: Expr,
}

/// A typeswitch, with the head of its default and the expression behind that (XQuery 1.0, section 3.12.2).
#[cycle(expression)]
#[derive(Drop)]
pub struct Typeswitch {
    pub operand: Expr,
    pub cases: Vec<Case>,
    pub default: DefaultHead,
    pub otherwise: Expr,
}

/// An expression with its predicates, of which the first `[` has the place (XQuery 1.0, sections 3.2.2 and 3.3.2).
#[cycle(expression)]
#[derive(Drop)]
pub struct Filtered {
    pub place: Place,
    pub operand: Expr,
    pub predicates: Vec<Expr>,
}

/// A binding of a `for`, a `let` or a quantified expression.
#[cycle(expression)]
#[derive(Drop)]
pub struct Binding {
    pub bound: BoundVariable,
    pub value: Expr,
}

/// A clause of a FLWOR, at its word.
#[cycle(expression)]
#[derive(Drop)]
pub enum Clause {
    For(Place, Vec<Binding>),
    Let(Place, Vec<Binding>),
    Where(Place, Expr),
}

/// A sort key.
#[cycle(expression)]
#[derive(Drop)]
pub struct Key {
    pub value: Expr,
    pub order: KeyOrder,
}

/// A case of a typeswitch.
#[cycle(expression)]
#[derive(Drop)]
pub struct Case {
    pub head: CaseHead,
    pub body: Expr,
}

/// A direct element (XQuery 1.0, section 3.7.1).
#[cycle(expression)]
#[derive(Drop)]
pub struct DirectElement {
    pub name: QName,
    pub attributes: Vec<DirectAttribute>,
    pub content: Vec<Part>,
}

/// An attribute of a direct element.
#[cycle(expression)]
#[derive(Drop)]
pub struct DirectAttribute {
    pub name: QName,
    pub value: Vec<AttributePart>,
}

/// A part of the value of a direct attribute.
#[cycle(expression)]
#[derive(Drop)]
pub enum AttributePart {
    /// Characters and references.
    Text(Text),
    /// An enclosed expression.
    Enclosed(Expr),
}

/// A part of the content of a direct element.
#[cycle(expression)]
#[derive(Drop)]
pub enum Part {
    /// Literal white space alone.
    Blank(Text),
    /// Characters, references and CDATA sections.
    Text(Text),
    /// A direct element.
    Element(Expr),
    /// An enclosed expression.
    Enclosed(Expr),
}

impl Model for Expr {
    ghost use Rattle.gx_ast.specs.SyntaxTree.{SyntaxTree, syntax_size};
    ghost use Rattle.gx_ast.specs.SyntaxCode.{syntax_code};
    ghost use Rattle.gx_base.specs.contracts.place.Place as places;
    ghost use Rattle.gx_ast.specs.contracts.name.QName as names;
    ghost use Rattle.gx_num.specs.contracts.Number as numbers;
    ghost use Rattle.gx_ast.specs.contracts.sequence_type.AxisStep as steps;
    ghost use Rattle.gx_ast.specs.contracts.sequence_type.BoundVariable as bounds;
    ghost use Rattle.gx_ast.specs.contracts.sequence_type.CaseHead as cases;
    ghost use Rattle.gx_ast.specs.contracts.sequence_type.DefaultHead as defaults;
    ghost use Rattle.gx_ast.specs.contracts.sequence_type.KeyOrder as orders;
    ghost use Rattle.gx_ast.specs.contracts.sequence_type.SequenceType as kinds;
    ghost use Rattle.gx_ast.specs.contracts.sequence_type.SingleType as singles;
    ghost use Rattle.gx_ast.specs.contracts.expression.BinaryOperator as operators;

    ghost Value = { SyntaxTree };

    ghost coded = { syntax_code places.the_row.coded names.the_row.coded numbers.the_row.coded steps.the_row.coded bounds.the_row.coded cases.the_row.coded defaults.the_row.coded orders.the_row.coded kinds.the_row.coded singles.the_row.coded operators.the_row.coded };

    ghost use Rattle.gx_ast.specs.SyntaxView.{syntax_of};

    ghost view = { λ e. syntax_of e.place e.node };

    ghost size = { syntax_size };

    ghost use Rattle.gx_ast.specs.SyntaxParts.{parts_are_smaller};

    ghost size_decreases = { λ e h. parts_are_smaller e.place e.node };
}
