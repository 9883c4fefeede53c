// Plans: typed Core without operators that typing alone needs, in which some loops are marked as joins.

use gx_core::expression::{Clause, Declaration, DeclaredFunction, Expr, Part, Query, SortKey};
use gx_core::scope::Scope;
use gx_types::sequence_type::Ty;

/// How an operator stands in a plan.
#[derive(Clone, Copy, PartialEq, Eq)]
pub enum Role {
    /// An operator of its own.
    Own,
    /// The outer loop of a join. The join is two nested loops whose inner body compares two keys; it is one operator with five
    /// parts: the sources of the loops, the keys, and what there is for each pair whose keys are equal.
    Join,
    /// The inner loop of a join, its test, the comparison of its keys, or the empty sequence that there is for a pair whose keys
    /// are not equal.
    InJoin,
}

/// What an operator of a plan carries: the type of its value, and how it stands in the plan.
pub struct Carried {
    pub kind: Ty,
    pub role: Role,
}

impl Drop for Carried {
    fn drop(self) {
        let Carried {
            kind: _kind,
            role: _role,
        } = self;
    }
}

/// An expression of a plan.
pub type PlanExpr = Expr<Carried>;

/// A part of an expression of a plan.
pub type PlanPart = Part<Carried>;

/// A clause of a block of a plan.
pub type PlanClause = Clause<Carried>;

/// A key of a block of a plan.
pub type PlanKey = SortKey<Carried>;

/// A function of a plan.
pub type PlanFunction = DeclaredFunction<Carried>;

/// A declaration of a plan.
pub type PlanDeclaration = Declaration<Carried>;

/// A query of a plan, its declarations and its body.
pub type PlanQuery = Query<Carried>;

/// A query as it is to be evaluated: its declarations and its body, and the types that its variables carry.
#[derive(Drop)]
pub struct Plan {
    pub query: PlanQuery,
    pub variables: Scope<Ty>,
}
