// The types of what functions over items answer.

ghost use Rattle.std.specs.Prelude.{◌≡◌, IfOk};
ghost use Rattle.gx_steptype.specs.StepType.{node_type as type_of_node};
ghost use Rattle.gx_types.specs.TypeRules.{sequence_of};
ghost use Rattle.gx_static.specs.Rule.{as_optional, as_often, at_least_one_of, item_answer_type};

use crate::filtering::one_of_type;
use crate::item_tests::atomic;
use crate::nodes::some_of_type;
use crate::rules::sequence_type;
use crate::value_types::{as_often, as_optional};
use gx_base::type_name::Builtin;
use gx_funcs::item_function::ItemFunction;
use gx_steptype::axis_type::node_type;
use gx_types::occurrence::Occurrence;
use gx_types::sequence_type::Ty;
use gx_types::type_rules::{occurrence, prime, times};
use std::alloc::{AllocError, Global};

// The type of what a function answers, from those of its first and its third argument.
pub(crate) fn item_answer_type(
    alloc: Global,
    function: ItemFunction,
    first: &Ty,
    third: &Ty,
) -> Result<Ty, AllocError>
    ensures { IfOk result (λ t. t ≡ item_answer_type function first.now third.now) }
{
    match function {
        ItemFunction::Name | ItemFunction::LocalName => atomic(alloc, Builtin::Str),
        ItemFunction::Root => root_type(alloc, first),
        ItemFunction::Reverse => as_often(alloc, first),
        ItemFunction::SubsequenceFrom | ItemFunction::Subsequence | ItemFunction::Remove =>
            some_of_type(alloc, first),
        ItemFunction::InsertBefore => inserted_type(alloc, first, third),
        ItemFunction::ZeroOrOne => one_of_type(alloc, true, first),
        ItemFunction::OneOrMore => at_least_one_of(alloc, first),
        ItemFunction::ExactlyOne => prime(alloc, first),
        ItemFunction::DeepEqual => atomic(alloc, Builtin::Boolean),
        ItemFunction::Error => Ok(Ty::none()),
    }
}

// A node, or none where there may be no argument.
fn root_type(alloc: Global, argument: &Ty) -> Result<Ty, AllocError>
    ensures { IfOk result (λ t. t ≡ as_optional argument.now type_of_node) }
{
    let node = node_type(alloc)?;
    as_optional(alloc, argument, node)
}

// Items of both arguments in any order.
fn inserted_type(alloc: Global, items: &Ty, inserted: &Ty) -> Result<Ty, AllocError>
    ensures { IfOk result (λ t. t ≡ as_often (sequence_of items.now inserted.now)) }
{
    let both = sequence_type(alloc, items, inserted)?;
    as_often(alloc, &both)
}

// Items of a type, of which there is one at least.
fn at_least_one_of(alloc: Global, t: &Ty) -> Result<Ty, AllocError>
    ensures { IfOk result (λ r. r ≡ at_least_one_of t.now) }
{
    let items = prime(alloc, t)?;
    let occurs = Occurrence {
        least: 1,
        greatest: occurrence(t).greatest.max(1),
    };
    times(alloc, items, occurs)
}
