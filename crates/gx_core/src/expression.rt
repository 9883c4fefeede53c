// Core expressions, as they are normalised and with their types.

ghost use Rattle.std.specs.Prelude.{◌≡◌};
ghost use Rattle.gx_core.specs.BinaryOperators.{class_of};

use crate::cases::Cases;
use crate::constructor::Constructor;
use crate::listed::Listed;
use crate::signature::FunctionSignature;
use gx_atomic::Op;
use gx_base::name::Name;
use gx_base::place::Place;
use gx_base::type_name::TypeName;
use gx_facets::Atomic;
use gx_funcs::function::Function;
use gx_sorting::KeyOrder;
use gx_types::sequence_type::Ty;
use gx_types::step::{Axis, Test};
use std::marker::Model;

/// A whole query in Core: its declarations in order, and its body (XQuery 1.0 and XPath 2.0 Formal Semantics, section 2.3).
/// Each expression carries a `K`.
#[derive(Drop)]
pub struct Query<K> {
    pub declarations: Listed<Declaration<K>>,
    pub body: Expr<K>,
}

/// A query as it is normalised.
pub type Core = Query<()>;

/// A query whose expressions have their types.
pub type TypedCore = Query<Ty>;

/// A declaration of the prolog.
#[derive(Drop)]
pub enum Declaration<K> {
    /// A global variable, with its value unless it is external (XQuery 1.0, section 4.14).
    Global {
        name: Name,
        binder: Binder,
        value: Option<Expr<K>>,
    },
    /// A function.
    Function(DeclaredFunction<K>),
}

/// A function that the query declares, with its place, its parameters and the type of its result (XQuery 1.0, section 4.15).
#[derive(Drop)]
pub struct DeclaredFunction<K> {
    pub place: Place,
    pub name: Name,
    pub parameters: Listed<Binder>,
    pub result: Ty,
    pub body: Expr<K>,
}

/// A function of a query as it is normalised.
pub type CoreFunction = DeclaredFunction<()>;

/// A function whose expressions have their types.
pub type TypedFunction = DeclaredFunction<Ty>;

/// A declaration of a query as it is normalised.
pub type CoreDeclaration = Declaration<()>;

/// A declaration whose expressions have their types.
pub type TypedDeclaration = Declaration<Ty>;

/// The binding occurrence of a variable: its number, the place of its `$`, and the type that is written behind `as`.
pub struct Binder {
    pub variable: u32,
    pub place: Place,
    pub kind: Option<Ty>,
}

impl Drop for Binder {
    fn drop(self) {
        let Binder {
            variable: _variable,
            place: _place,
            kind: _kind,
        } = self;
    }
}

/// The operators of two operands (XQuery 1.0, sections 3.3.1, 3.3.3, 3.4 and 3.5).
#[derive(Clone, Copy, PartialEq, Eq)]
pub enum BinaryOp {
    Add,
    Sub,
    Mul,
    /// `div`.
    Div,
    /// `idiv`.
    IDiv,
    Mod,
    /// `eq`, and so on.
    Eq,
    Ne,
    Lt,
    Le,
    Gt,
    Ge,
    /// `=`, and so on.
    AnyEq,
    AnyNe,
    AnyLt,
    AnyLe,
    AnyGt,
    AnyGe,
    Is,
    /// `<<`.
    Before,
    /// `>>`.
    After,
    To,
    Union,
    Intersect,
    Except,
}

/// The operators of arithmetic (XQuery 1.0, section 3.4).
#[derive(Clone, Copy, PartialEq, Eq)]
pub enum ArithmeticOp {
    Add,
    Sub,
    Mul,
    Div,
    IDiv,
    Mod,
}

/// The comparisons of nodes (XQuery 1.0, section 3.5.3): one is the other, comes before it in document order, or comes after it.
#[derive(Clone, Copy)]
pub enum NodeComparison {
    Is,
    Before,
    After,
}

/// The combinations of sequences of nodes (XQuery 1.0, section 3.3.3): the nodes of either, of both, or of the first alone.
#[derive(Clone, Copy)]
pub enum NodeCombination {
    Union,
    Intersect,
    Except,
}

/// What an operator of two operands does.
#[derive(Clone, Copy)]
pub enum BinaryClass {
    /// Arithmetic.
    Arithmetic(ArithmeticOp),
    /// A value comparison.
    Value(Op),
    /// A general comparison.
    General(Op),
    /// A comparison of nodes.
    Nodes(NodeComparison),
    /// A range of integers.
    Range,
    /// A combination of sequences of nodes.
    Combination(NodeCombination),
}

impl BinaryOp {
    /// What the operator does.
    pub fn class(self) -> BinaryClass
        ensures { result ≡ class_of self }
    {
        match self {
            BinaryOp::Add => BinaryClass::Arithmetic(ArithmeticOp::Add),
            BinaryOp::Sub => BinaryClass::Arithmetic(ArithmeticOp::Sub),
            BinaryOp::Mul => BinaryClass::Arithmetic(ArithmeticOp::Mul),
            BinaryOp::Div => BinaryClass::Arithmetic(ArithmeticOp::Div),
            BinaryOp::IDiv => BinaryClass::Arithmetic(ArithmeticOp::IDiv),
            BinaryOp::Mod => BinaryClass::Arithmetic(ArithmeticOp::Mod),
            BinaryOp::Eq => BinaryClass::Value(Op::Eq),
            BinaryOp::Ne => BinaryClass::Value(Op::Ne),
            BinaryOp::Lt => BinaryClass::Value(Op::Lt),
            BinaryOp::Le => BinaryClass::Value(Op::Le),
            BinaryOp::Gt => BinaryClass::Value(Op::Gt),
            BinaryOp::Ge => BinaryClass::Value(Op::Ge),
            BinaryOp::AnyEq => BinaryClass::General(Op::Eq),
            BinaryOp::AnyNe => BinaryClass::General(Op::Ne),
            BinaryOp::AnyLt => BinaryClass::General(Op::Lt),
            BinaryOp::AnyLe => BinaryClass::General(Op::Le),
            BinaryOp::AnyGt => BinaryClass::General(Op::Gt),
            BinaryOp::AnyGe => BinaryClass::General(Op::Ge),
            BinaryOp::Is => BinaryClass::Nodes(NodeComparison::Is),
            BinaryOp::Before => BinaryClass::Nodes(NodeComparison::Before),
            BinaryOp::After => BinaryClass::Nodes(NodeComparison::After),
            BinaryOp::To => BinaryClass::Range,
            BinaryOp::Union => BinaryClass::Combination(NodeCombination::Union),
            BinaryOp::Intersect => BinaryClass::Combination(NodeCombination::Intersect),
            BinaryOp::Except => BinaryClass::Combination(NodeCombination::Except),
        }
    }
}

/// A Core expression, with what it carries: its type `kind` in typed Core, and nothing before. `place` is its own place, `outer`
/// that of its outermost parentheses as they were written; the two are equal where there are none.
#[cycle(core_tree)]
pub struct Expr<K> {
    pub place: Place,
    pub outer: Place,
    pub kind: K,
    pub form: Form<K>,
}

/// An expression as it is normalised.
pub type CoreExpr = Expr<()>;

/// An expression with its type.
pub type TypedExpr = Expr<Ty>;

/// An expression inside another one.
pub type Part<K> = Box<Expr<K>>;

/// What an expression is, with its parts in the order of evaluation. A variable stands by its number, which is 0 where there is none.
#[cycle(core_tree)]
#[derive(Drop)]
pub enum Form<K> {
    /// A literal.
    Lit(Atomic),
    /// A variable.
    Var(u32),
    /// The empty sequence.
    Empty,
    /// Two sequences, one behind the other.
    Seq(Part<K>, Part<K>),
    /// `for`, with the variable of the position of the item: its source and its body.
    For(Binder, u32, Part<K>, Part<K>),
    /// `let`: its value and its body.
    Let(Binder, Part<K>, Part<K>),
    /// A conditional: its condition, and what stands behind `then` and behind `else`.
    If(Part<K>, Part<K>, Part<K>),
    /// A cast to a type; the flag says whether the operand may be empty.
    Cast(Part<K>, TypeName, bool),
    /// Whether there is such a cast.
    Castable(Part<K>, TypeName, bool),
    /// A step along an axis, with a test, from the node that a variable is bound to.
    Step(Axis, Test, u32),
    /// An operand of nodes alone; an atomic value is an error.
    Nodes(Part<K>),
    /// An operand with its nodes in document order, each once, or its atomic values as they are.
    Order(Part<K>),
    /// `some`, of one variable: its source and its test.
    SomeIn(Binder, Part<K>, Part<K>),
    /// `every`, of one variable: its source and its test.
    EveryIn(Binder, Part<K>, Part<K>),
    /// The branch of the first case whose type an operand is of, or of the default, with the variable of the default.
    Switch(Part<K>, Cases, u32, Vec<Expr<K>>),
    /// The item with a number; the flag says whether items are counted from the end.
    Nth(Part<K>, i128, bool),
    /// The last item; the flag says whether items are counted from the end, so that this is the first one.
    Final(Part<K>, bool),
    /// A FLWOR with sort keys: its clauses, its keys, and what it returns for each tuple.
    Block(Vec<Clause<K>>, Vec<SortKey<K>>, Part<K>),
    /// The atomization of an operand.
    DataOf(Part<K>),
    /// What looks at a context where there is none.
    NoContext,
    /// A call of a built-in function.
    Call(Function, Vec<Expr<K>>),
    /// The negation of a number.
    Neg(Part<K>),
    /// An operator of two operands.
    Binary(BinaryOp, Part<K>, Part<K>),
    /// A constructor of a node, over the parts of its content.
    Construct(Constructor, Vec<Expr<K>>),
    /// An operand that is an instance of a type; any other one is an error.
    Treat(Part<K>, Ty),
    /// A call of a function that the query declares.
    User(FunctionSignature, Vec<Expr<K>>),
}

/// A clause of a block (XQuery 1.0, sections 3.8.1 and 3.8.2).
#[cycle(core_tree)]
#[derive(Drop)]
pub enum Clause<K> {
    /// A variable for each item of a source, with the variable of the position of the item, or 0 where there is none.
    For(Binder, u32, Expr<K>),
    /// A variable for a value.
    Let(Binder, Expr<K>),
    /// A condition that keeps a tuple.
    Where(Expr<K>),
}

/// A clause as it is normalised.
pub type CoreClause = Clause<()>;

/// A clause whose expressions have their types.
pub type TypedClause = Clause<Ty>;

/// A key of the tuples of a block (XQuery 1.0, section 3.8.3).
#[cycle(core_tree)]
#[derive(Drop)]
pub struct SortKey<K> {
    pub value: Expr<K>,
    pub order: KeyOrder,
}

/// A key as it is normalised.
pub type CoreKey = SortKey<()>;

/// A key whose expressions have their types.
pub type TypedKey = SortKey<Ty>;

impl<K> Model for Expr<K> {
    ghost use Rattle.gx_core.specs.Expression.{Expression, expression_size};
    ghost use Rattle.gx_core.specs.ExpressionCode.{expression_code};

    ghost Value = { Expression K };

    ghost coded = { expression_code K.code };

    ghost use Rattle.gx_core.specs.ExpressionView.{expression_of};

    ghost view = { expression_of };

    ghost size = { expression_size };

    ghost use Rattle.gx_core.specs.ExpressionParts.{parts_are_smaller};

    ghost size_decreases = { λ a h. parts_are_smaller a.form };
}

impl<K: Drop> Drop for Expr<K> {
    #[cycle(core_tree)]
    fn drop(self) {
        let Expr {
            place: _place,
            outer: _outer,
            kind: _kind,
            form: _form,
        } = self;
    }
}

impl<K> Expr<K> {
    ghost use Rattle.gx_core.specs.Expression.{At};
    ghost use Rattle.gx_core.specs.ExpressionView.{operator_of, parts_of};

    /// The places of the expression, what it carries, and what it is.
    pub fn into_parts(self) -> (Place, Place, K, Form<K>)
        ensures { self ≡ At result.0 result.1 result.2 (operator_of result.3) (parts_of result.3) }
    {
        let Expr {
            place,
            outer,
            kind,
            form,
        } = self;
        (place, outer, kind, form)
    }
}
