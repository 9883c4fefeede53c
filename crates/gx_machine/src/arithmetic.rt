// Arithmetic on atomic values.

ghost use Rattle.std.specs.Prelude.{◌≡◌, IfOk, IfErr, ◌∷◌, []};
ghost use Rattle.gx_model.specs.Forest.{Forest};
ghost use Rattle.gx_model.specs.Item.{atom};
ghost use Rattle.gx_core.specs.Outcome.{gives};
ghost use Rattle.gx_core.specs.Arithmetic.{computed_of_items, negation_of_item, result_of};
ghost use Rattle.gx_store.specs.Items.{item_in};
ghost use Rattle.gx_machine.specs.Failing.{FailsSo};

use crate::failure::Failure;
use gx_core::expression::ArithmeticOp;
use gx_facets::{AtomValue, Atomic};
use gx_funcs::numbers::{fault_code, number_atom};
use gx_num::{NumFault, Number, add, div, idiv, modulo, mul, negate, sub};
use gx_store::item::Item;

// What an operation makes of two values.
pub(crate) fn computed(
    operation: ArithmeticOp,
    left: &Atomic,
    right: &Atomic,
) -> Result<Atomic, Failure>
    ensures value { (forest : Forest) → IfOk result (λ r. computed_of_items operation (atom left.now) (atom right.now) forest ≡ gives (atom r ∷ []) forest) }
    ensures failed { (forest : Forest) → IfErr result (λ e. FailsSo e (computed_of_items operation (atom left.now) (atom right.now) forest)) }
{
    match (&left.value, &right.value) {
        (AtomValue::Num(m), AtomValue::Num(n)) => match result_of(operation, *m, *n) {
            Ok(number) => Ok(number_atom(number)),
            Err(fault) => Err(Failure::Raised(fault_code(fault))),
        },
        _ => Err(Failure::Wrong),
    }
}

// The negation of a value.
pub(crate) fn negated(operand: &Item) -> Result<Atomic, Failure>
    ensures value { (forest later : Forest) → IfOk result (λ r. negation_of_item (item_in later operand.now) forest ≡ gives (atom r ∷ []) forest) }
    ensures failed { (forest later : Forest) → IfErr result (λ e. FailsSo e (negation_of_item (item_in later operand.now) forest)) }
{
    match operand {
        Item::Atom(operand) => negated_atom(operand),
        Item::Node(_) => Err(Failure::Wrong),
    }
}

fn negated_atom(operand: &Atomic) -> Result<Atomic, Failure>
    ensures value { (forest : Forest) → IfOk result (λ r. negation_of_item (atom operand.now) forest ≡ gives (atom r ∷ []) forest) }
    ensures failed { (forest : Forest) → IfErr result (λ e. FailsSo e (negation_of_item (atom operand.now) forest)) }
{
    match &operand.value {
        AtomValue::Num(n) => match negate(*n) {
            Ok(number) => Ok(number_atom(number)),
            Err(fault) => Err(Failure::Raised(fault_code(fault))),
        },
        _ => Err(Failure::Wrong),
    }
}

fn result_of(operation: ArithmeticOp, left: Number, right: Number) -> Result<Number, NumFault>
    ensures { result ≡ result_of operation left right }
{
    match operation {
        ArithmeticOp::Add => add(left, right),
        ArithmeticOp::Sub => sub(left, right),
        ArithmeticOp::Mul => mul(left, right),
        ArithmeticOp::Div => div(left, right),
        ArithmeticOp::IDiv => match idiv(left, right) {
            Ok(quotient) => Ok(Number::int(quotient)),
            Err(fault) => Err(fault),
        },
        ArithmeticOp::Mod => modulo(left, right),
    }
}
