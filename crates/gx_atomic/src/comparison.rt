// Comparisons of atomic values.
ghost use Rattle.std.specs.Prelude.{◌≡◌, IsSome, IfErr, [], ◌∷◌};
ghost use Rattle.gx_atomic.specs.Comparison.{holds, value_comparison, is_decisive, pair_comparison, general_comparison};

use crate::casting::{CastError, cast_to_boolean};
use gx_facets::{AtomValue, Atomic, compare_values};
use std::cmp::Ordering;

/// A comparison operator (XQuery 1.0, section 3.5): `eq` and `=`, `ne` and `!=`, `lt` and `<`, `le` and `<=`, `gt` and `>`,
/// `ge` and `>=`.
#[derive(Clone, Copy, PartialEq, Eq)]
pub enum Op {
    Eq,
    Ne,
    Lt,
    Le,
    Gt,
    Ge,
}

impl Op {
    /// Whether the operator holds of two values in this order.
    pub fn holds(self, order: Ordering) -> bool
        ensures { result ≡ holds self order }
    {
        match self {
            Op::Eq => order.is_eq(),
            Op::Ne => order.is_ne(),
            Op::Lt => order.is_lt(),
            Op::Le => order.is_le(),
            Op::Gt => order.is_gt(),
            Op::Ge => order.is_ge(),
        }
    }
}

/// The value comparison of two values (XQuery 1.0, section 3.5.1): strings and untyped values by code points, `false`
/// before `true`, numbers by their values. None exactly where one is of another of these three families.
pub fn compare_single(op: Op, a: &AtomValue, b: &AtomValue) -> Option<bool>
    ensures { result ≡ value_comparison op a.now b.now }
{
    match compare_values(a, b) {
        Some(order) => Some(op.holds(order)),
        None => None,
    }
}

/// The general comparison of two lists (XQuery 1.0, section 3.5.2): whether a pair of them compares so, looking at the
/// pairs left item first, up to the first that does. An untyped value is cast to xs:boolean where it meets a boolean.
/// FORG0001 exactly where a cast fails before that pair. It takes no memory. No two values that cannot be compared may come
/// before the pair that decides; `try_compare_any` is the test.
pub fn compare_any(op: Op, a: &[Atomic], b: &[Atomic]) -> Result<bool, CastError>
    requires { IsSome (general_comparison op a.now b.now) }
    ensures exact { general_comparison op a.now b.now ≡ Some result }
    ensures fault { IfErr result (λ error. error ≡ CastError.FORG0001) }
{
    match try_compare_any(op, a, b) {
        Some(decision) => decision,
        None => unreachable!(),
    }
}

/// The general comparison of two lists, as `compare_any` has it; None exactly where two values that cannot be compared come
/// before a pair that decides.
pub fn try_compare_any(op: Op, a: &[Atomic], b: &[Atomic]) -> Option<Result<bool, CastError>>
    ensures { result ≡ general_comparison op a.now b.now }
{
    for left in a {
        let decision = compare_with_each(op, left, b);
        if is_decisive(decision) {
            return decision;
        }
    }
    Some(Ok(false))
}

// The comparison of the list of one value with another list.
#[tactic(auto, using(crate::proofs::Decisions::comparison_right))]
fn compare_with_each(op: Op, left: &Atomic, b: &[Atomic]) -> Option<Result<bool, CastError>>
    ensures { result ≡ general_comparison op (left.now ∷ []) b.now }
{
    for right in b {
        let decision = compare_pair(op, &left.value, &right.value);
        if is_decisive(decision) {
            return decision;
        }
    }
    Some(Ok(false))
}

fn is_decisive(decision: Option<Result<bool, CastError>>) -> bool
    ensures { result ≡ is_decisive decision }
{
    !matches!(decision, Some(Ok(false)))
}

fn compare_pair(op: Op, a: &AtomValue, b: &AtomValue) -> Option<Result<bool, CastError>>
    ensures { result ≡ pair_comparison op a.now b.now }
{
    match (a, b) {
        (AtomValue::Untyped(_), AtomValue::Truth(_)) => match cast_to_boolean(a) {
            Ok(truth) => compare_single(op, &truth, b).map(Ok),
            Err(error) => Some(Err(error)),
        },
        (AtomValue::Truth(_), AtomValue::Untyped(_)) => match cast_to_boolean(b) {
            Ok(truth) => compare_single(op, a, &truth).map(Ok),
            Err(error) => Some(Err(error)),
        },
        _ => compare_single(op, a, b).map(Ok),
    }
}
