// The types of items that are picked by their numbers, and of switches.

ghost use Rattle.std.specs.Prelude.{◌≡◌, IfOk, IfErr};
ghost use Rattle.gx_types.specs.Choice.{choice_among};
ghost use Rattle.gx_types.specs.TypeRules.{limited};
ghost use Rattle.gx_static.specs.Rule.{has_type, is_first, one_of_type, switch_rule};
ghost use Rattle.gx_static.specs.Refusal.{RefusesType};

use crate::error::RuleError;
use crate::item_tests::no_type;
use gx_base::code::Code;
use gx_core::cases::TypeCase;
use gx_types::occurrence::Occurrence;
use gx_types::sequence_type::Ty;
use gx_types::type_rules::{choose, limit, occurrence, prime, times};
use std::alloc::{AllocError, Global};

// The type of at most one item of an operand.
pub(crate) fn one_of_type(alloc: Global, certain: bool, operand: &Ty) -> Result<Ty, AllocError>
    ensures { IfOk result (λ t. t ≡ one_of_type certain operand.now) }
{
    let items = prime(alloc, operand)?;
    let whole = occurrence(operand);
    let occurs = Occurrence {
        least: if certain { whole.least } else { 0 },
        greatest: whole.greatest.min(1),
    };
    times(alloc, items, occurs)
}

// Whether a number is that of the first item.
pub(crate) fn is_first(number: i128) -> bool
    ensures { result ≡ is_first number }
{
    match number {
        1 => true,
        _ => false,
    }
}

// The type of a switch, which has a branch for each case and one for the default.
pub(crate) fn switch_type(
    alloc: Global,
    cases: &[TypeCase],
    branches: &[Ty],
) -> Result<Ty, RuleError>
    ensures typed { IfOk result (λ t. switch_rule cases.now branches.now ≡ has_type t) }
    ensures refused { IfErr result (λ e. RefusesType e (switch_rule cases.now branches.now)) }
{
    match branches.split_last() {
        Some((_, others)) if others.len() == cases.len() => Ok(choice(alloc, branches)?),
        _ => Err(no_type(Code::XPTY0004)),
    }
}

fn choice(alloc: Global, types: &[Ty]) -> Result<Ty, AllocError>
    ensures { IfOk result (λ t. t ≡ limited (choice_among types.now)) }
{
    let all = choose(alloc, types)?;
    limit(alloc, all)
}
