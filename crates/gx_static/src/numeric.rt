// The static rules of arithmetic and of ranges.

ghost use Rattle.std.specs.Prelude.{◌≡◌, IfOk, IfErr};
ghost use Rattle.gx_static.specs.Rule.{has_type, arithmetic_rule, arithmetic_type, number_type, integer_if, negation_rule, both_occur, range_rule};
ghost use Rattle.gx_static.specs.Refusal.{RefusesType};

use crate::error::RuleError;
use crate::item_tests::{atomic, is_all_in, is_never, is_optional_in, no_type};
use gx_base::code::Code;
use gx_base::type_name::Builtin;
use gx_core::expression::ArithmeticOp;
use gx_types::occurrence::Occurrence;
use gx_types::schemas::Schemas;
use gx_types::sequence_type::Ty;
use gx_types::type_rules::{occurrence, star, times};
use std::alloc::Global;

// An integer where all operands are.
pub(crate) fn integer_if(whole: bool) -> Builtin
    ensures { result ≡ integer_if whole }
{
    if whole {
        Builtin::Integer
    } else {
        Builtin::Decimal
    }
}

// The type of a number that is made of two.
fn number_type(schemas: &Schemas, operation: ArithmeticOp, left: &Ty, right: &Ty) -> Builtin
    ensures { result ≡ number_type schemas.now operation left.now right.now }
{
    match operation {
        ArithmeticOp::Div => Builtin::Decimal,
        ArithmeticOp::IDiv => Builtin::Integer,
        ArithmeticOp::Add | ArithmeticOp::Sub | ArithmeticOp::Mul | ArithmeticOp::Mod => integer_if(
            is_all_in(schemas, Builtin::Integer, left)
                && is_all_in(schemas, Builtin::Integer, right),
        ),
    }
}

// As often as the shorter of two operands.
fn both_occur(left: &Ty, right: &Ty) -> Occurrence
    ensures { result ≡ both_occur left.now right.now }
{
    let first = occurrence(left);
    let second = occurrence(right);
    Occurrence {
        least: first.least.min(second.least),
        greatest: first.greatest.min(second.greatest),
    }
}

// The type of arithmetic: none where the left operand has none, empty where an operand is, and optional where an operand
// may be empty.
pub(crate) fn arithmetic_type(
    alloc: Global,
    schemas: &Schemas,
    operation: ArithmeticOp,
    left: &Ty,
    right: &Ty,
) -> Result<Ty, RuleError>
    ensures typed { IfOk result (λ t. arithmetic_rule schemas.now operation left.now right.now ≡ has_type t) }
    ensures refused { IfErr result (λ e. RefusesType e (arithmetic_rule schemas.now operation left.now right.now)) }
{
    let are_numbers = is_optional_in(schemas, Builtin::Decimal, left)
        && is_optional_in(schemas, Builtin::Decimal, right);
    if !are_numbers {
        return Err(no_type(Code::XPTY0004));
    }
    if is_never(left) {
        return Ok(Ty::none());
    }
    let number = atomic(alloc, number_type(schemas, operation, left, right))?;
    Ok(times(alloc, number, both_occur(left, right))?)
}

// The type of a negation.
pub(crate) fn negation_type(alloc: Global, schemas: &Schemas, operand: &Ty) -> Result<Ty, RuleError>
    ensures typed { IfOk result (λ t. negation_rule schemas.now operand.now ≡ has_type t) }
    ensures refused { IfErr result (λ e. RefusesType e (negation_rule schemas.now operand.now)) }
{
    if !is_optional_in(schemas, Builtin::Decimal, operand) {
        return Err(no_type(Code::XPTY0004));
    }
    let number = atomic(
        alloc,
        integer_if(is_all_in(schemas, Builtin::Integer, operand)),
    )?;
    Ok(times(alloc, number, occurrence(operand))?)
}

// The type of a range.
pub(crate) fn range_type(
    alloc: Global,
    schemas: &Schemas,
    left: &Ty,
    right: &Ty,
) -> Result<Ty, RuleError>
    ensures typed { IfOk result (λ t. range_rule schemas.now left.now right.now ≡ has_type t) }
    ensures refused { IfErr result (λ e. RefusesType e (range_rule schemas.now left.now right.now)) }
{
    let are_integers = is_optional_in(schemas, Builtin::Integer, left)
        && is_optional_in(schemas, Builtin::Integer, right);
    if !are_integers {
        return Err(no_type(Code::XPTY0004));
    }
    let integer = atomic(alloc, Builtin::Integer)?;
    Ok(star(alloc, &integer)?)
}
