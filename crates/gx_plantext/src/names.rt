// The names of operators.

ghost use Rattle.std.specs.Prelude.{◌≡◌};
ghost use Rattle.gx_core.specs.ExpressionView.{operator_of, kind_of_clause};
ghost use Rattle.gx_plantext.specs.OperatorNames.{binary_name, constructor_name, operator_name, clause_name};
ghost use Rattle.gx_plantext.specs.NodeTestText.{axis_name};

use gx_core::constructor::Constructor;
use gx_core::expression::{BinaryOp, Clause, Form};
use gx_plan::plan::Carried;
use gx_types::step::Axis;

// The name of an operator.
pub(crate) fn operator_name(form: &Form<Carried>) -> &'static str
    ensures { result.now ≡ operator_name (operator_of form.now) }
{
    match form {
        Form::Lit(_) => "lit",
        Form::Var(_) => "var",
        Form::Empty => "empty",
        Form::Seq(_, _) => "seq",
        Form::For(_, _, _, _) => "for",
        Form::Let(_, _, _) => "let",
        Form::If(_, _, _) => "if",
        Form::Cast(_, _, _) => "cast",
        Form::Castable(_, _, _) => "castable",
        Form::Step(_, _, _) => "step",
        Form::Nodes(_) => "nodes",
        Form::Order(_) => "order",
        Form::SomeIn(_, _, _) => "some",
        Form::EveryIn(_, _, _) => "every",
        Form::Switch(_, _, _, _) => "switch",
        Form::Nth(_, _, _) => "nth",
        Form::Final(_, _) => "final",
        Form::Block(_, _, _) => "block",
        Form::DataOf(_) => "data",
        Form::NoContext => "nocontext",
        Form::Call(function, _) => function.name(),
        Form::Neg(_) => "neg",
        Form::Binary(operator, _, _) => binary_name(*operator),
        Form::Construct(constructor, _) => constructor_name(constructor),
        Form::Treat(_, _) => "treat",
        Form::User(_, _) => "user",
    }
}

fn binary_name(operator: BinaryOp) -> &'static str
    ensures { result.now ≡ binary_name operator }
{
    match operator {
        BinaryOp::Add => "add",
        BinaryOp::Sub => "sub",
        BinaryOp::Mul => "mul",
        BinaryOp::Div => "div",
        BinaryOp::IDiv => "idiv",
        BinaryOp::Mod => "mod",
        BinaryOp::Eq => "eq",
        BinaryOp::Ne => "ne",
        BinaryOp::Lt => "lt",
        BinaryOp::Le => "le",
        BinaryOp::Gt => "gt",
        BinaryOp::Ge => "ge",
        BinaryOp::AnyEq => "any-eq",
        BinaryOp::AnyNe => "any-ne",
        BinaryOp::AnyLt => "any-lt",
        BinaryOp::AnyLe => "any-le",
        BinaryOp::AnyGt => "any-gt",
        BinaryOp::AnyGe => "any-ge",
        BinaryOp::Is => "is",
        BinaryOp::Before => "before",
        BinaryOp::After => "after",
        BinaryOp::To => "to",
        BinaryOp::Union => "union",
        BinaryOp::Intersect => "intersect",
        BinaryOp::Except => "except",
    }
}

fn constructor_name(constructor: &Constructor) -> &'static str
    ensures { result.now ≡ constructor_name constructor.now }
{
    match constructor {
        Constructor::Element(_) => "elem",
        Constructor::Attribute(_) => "attr",
        Constructor::Text => "text",
        Constructor::Document => "doc",
    }
}

// The name of a clause of a block.
pub(crate) fn clause_name(clause: &Clause<Carried>) -> &'static str
    ensures { result.now ≡ clause_name (kind_of_clause clause.now) }
{
    match clause {
        Clause::For(_, _, _) => "for",
        Clause::Let(_, _) => "let",
        Clause::Where(_) => "where",
    }
}

// The name of an axis.
pub(crate) fn axis_name(axis: Axis) -> &'static str
    ensures { result.now ≡ axis_name axis }
{
    match axis {
        Axis::Child => "child",
        Axis::Descendant => "descendant",
        Axis::DescendantOrSelf => "descendant-or-self",
        Axis::SelfAxis => "self",
        Axis::Attribute => "attribute",
        Axis::Parent => "parent",
        Axis::Ancestor => "ancestor",
        Axis::AncestorOrSelf => "ancestor-or-self",
    }
}
