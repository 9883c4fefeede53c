// Core operators.

use crate::cases::Cases;
use crate::constructor::Constructor;
use crate::expression::{BinaryOp, Binder};
use crate::listed::Listed;
use crate::signature::FunctionSignature;
use gx_base::type_name::TypeName;
use gx_facets::Atomic;
use gx_funcs::function::Function;
use gx_sorting::KeyOrder;
use gx_types::sequence_type::Ty;
use gx_types::step::{Axis, Test};

/// One operator of Core, with what it has beside its parts: one variant for each form of an expression. The parts of an
/// operator are its expressions in the order written.
#[derive(Drop)]
pub enum Operator {
    Lit(Atomic),
    Var(u32),
    Empty,
    Seq,
    For(Binder, u32),
    Let(Binder),
    If,
    Cast(TypeName, bool),
    Castable(TypeName, bool),
    Step(Axis, Test, u32),
    Nodes,
    Order,
    SomeIn(Binder),
    EveryIn(Binder),
    Switch(Cases, u32),
    Nth(i128, bool),
    Final(bool),
    Block(Listed<ClauseKind>, Listed<KeyOrder>),
    DataOf,
    NoContext,
    Call(Function),
    Neg,
    Binary(BinaryOp),
    /// A constructor over so many parts.
    Construct(Constructor, usize),
    Treat(Ty),
    /// A call of a declared function with so many arguments.
    User(FunctionSignature, usize),
}

/// What a clause of a block has beside its part.
#[derive(Drop)]
pub enum ClauseKind {
    For(Binder, u32),
    Let(Binder),
    Where,
}
