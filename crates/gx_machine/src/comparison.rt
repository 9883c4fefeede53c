// Comparisons of atomic values.

ghost use Rattle.std.specs.Prelude.{◌≡◌, ◌<◌, IfOk, IfErr, ◌∷◌, [], length};
ghost use Rattle.gx_model.specs.Forest.{Forest};
ghost use Rattle.gx_model.specs.Item.{atom, atoms};
ghost use Rattle.gx_core.specs.Outcome.{gives};
ghost use Rattle.gx_core.specs.Comparing.{compared_items, generally_compared};
ghost use Rattle.gx_store.specs.Items.{items_in};
ghost use Rattle.gx_machine.specs.Answering.{failure_of};
ghost use Rattle.gx_machine.specs.Failing.{FailsSo};

use crate::failure::Failure;
use crate::operand::{atoms_among, only_atom};
use gx_atomic::{CastError, Op, compare_single, try_compare_any};
use gx_base::code::Code;
use gx_facets::Atomic;
use gx_funcs::function::truth_atom;
use gx_store::item::Item;
use std::alloc::Global;
use std::slice;

// A value comparison of two values.
pub(crate) fn compared(op: Op, left: &Atomic, right: &Atomic) -> Result<Atomic, Failure>
    ensures value { (forest : Forest) → IfOk result (λ r. compared_items op (atom left.now) (atom right.now) forest ≡ gives (atom r ∷ []) forest) }
    ensures failed { (forest : Forest) → IfErr result (λ e. FailsSo e (compared_items op (atom left.now) (atom right.now) forest)) }
{
    match compare_single(op, &left.value, &right.value) {
        Some(truth) => Ok(truth_atom(truth)),
        None => Err(Failure::Wrong),
    }
}

// A general comparison. Operands of one item take no memory.
#[tactic(auto, using(crate::proofs::Operands::left_is_empty, crate::proofs::Operands::right_is_empty))]
pub(crate) fn generally_compared(
    alloc: Global,
    op: Op,
    left: &[Item],
    right: &[Item],
) -> Result<Atomic, Failure>
    ensures value { (forest later : Forest) → IfOk result (λ r. generally_compared op (items_in later left.now) (items_in later right.now) forest ≡ gives (atom r ∷ []) forest) }
    ensures failed { (forest later : Forest) → IfErr result (λ e. FailsSo e (generally_compared op (items_in later left.now) (items_in later right.now) forest)) }
{
    if left.is_empty() || right.is_empty() {
        return Ok(truth_atom(false));
    }
    match (only_atom(left), only_atom(right)) {
        (Some(left), Some(right)) => {
            compared_lists(op, slice::from_ref(left), slice::from_ref(right))
        }
        _ => compared_copies(alloc, op, left, right),
    }
}

// A general comparison of operands that are not empty, by copies of their atomic values.
fn compared_copies(alloc: Global, op: Op, left: &[Item], right: &[Item]) -> Result<Atomic, Failure>
    requires left_one { 0 < length left.now }
    requires right_one { 0 < length right.now }
    ensures value { (forest later : Forest) → IfOk result (λ r. generally_compared op (items_in later left.now) (items_in later right.now) forest ≡ gives (atom r ∷ []) forest) }
    ensures failed { (forest later : Forest) → IfErr result (λ e. FailsSo e (generally_compared op (items_in later left.now) (items_in later right.now) forest)) }
{
    let Some(left_values) = atoms_among(alloc, left)? else {
        return Err(Failure::Wrong);
    };
    let Some(right_values) = atoms_among(alloc, right)? else {
        return Err(Failure::Wrong);
    };
    compared_lists(op, left_values.as_slice(), right_values.as_slice())
}

// A general comparison of atomic values.
fn compared_lists(op: Op, left: &[Atomic], right: &[Atomic]) -> Result<Atomic, Failure>
    ensures value { (forest : Forest) → IfOk result (λ r. generally_compared op (atoms left.now) (atoms right.now) forest ≡ gives (atom r ∷ []) forest) }
    ensures failed { (forest : Forest) → IfErr result (λ e. FailsSo e (generally_compared op (atoms left.now) (atoms right.now) forest)) }
{
    match try_compare_any(op, left, right) {
        Some(Ok(truth)) => Ok(truth_atom(truth)),
        Some(Err(error)) => Err(cast_failure(error)),
        None => Err(Failure::Wrong),
    }
}

// The failure of a cast.
pub(crate) fn cast_failure(error: CastError) -> Failure
    ensures { result ≡ failure_of error }
{
    match error {
        CastError::FORG0001 => Failure::Raised(Code::FORG0001),
        CastError::FOCA0001 => Failure::Raised(Code::FOCA0001),
        CastError::FOCA0003 => Failure::Raised(Code::FOCA0003),
        CastError::FOCA0006 => Failure::Raised(Code::FOCA0006),
        CastError::Memory => Failure::Memory,
    }
}
