// The types of what functions over atomic values answer.

ghost use Rattle.std.specs.Prelude.{◌≡◌, IfOk};
ghost use Rattle.gx_types.specs.SequenceType.{optional as at_most_one, star as any_number};
ghost use Rattle.gx_base.specs.declared.type_name.Builtin.TheVariants.{Integer, Decimal};
ghost use Rattle.gx_static.specs.Rule.{atomic, integer_if, is_all_in, as_optional, rounded_type, as_often, value_answer_type};

use crate::filtering::one_of_type;
use crate::item_tests::{atomic, is_all_in};
use crate::numeric::integer_if;
use gx_base::type_name::Builtin;
use gx_funcs::value_function::ValueFunction;
use gx_types::occurrence::Occurrence;
use gx_types::schemas::Schemas;
use gx_types::sequence_type::Ty;
use gx_types::type_rules::{occurrence, optional, prime, star, times};
use std::alloc::{AllocError, Global};

// The type of what a function answers, from that of its first argument.
pub(crate) fn value_answer_type(
    alloc: Global,
    schemas: &Schemas,
    function: ValueFunction,
    first: &Ty,
) -> Result<Ty, AllocError>
    ensures { IfOk result (λ t. t ≡ value_answer_type schemas.now function first.now) }
{
    match function {
        ValueFunction::Sum => whole_type(alloc, schemas, first),
        ValueFunction::Average => average_type(alloc, first),
        ValueFunction::Min | ValueFunction::Max => one_of_type(alloc, true, first),
        ValueFunction::Abs | ValueFunction::Floor | ValueFunction::Ceiling | ValueFunction::Round =>
            rounded_type(alloc, schemas, first),
        ValueFunction::SubstringFrom
        | ValueFunction::Substring
        | ValueFunction::Normalize
        | ValueFunction::NormalizeTo
        | ValueFunction::CodepointsToString => atomic(alloc, Builtin::Str),
        ValueFunction::Compare => optional_integer(alloc),
        ValueFunction::StringToCodepoints | ValueFunction::IndexOf => integers(alloc),
        ValueFunction::DistinctValues => as_often(alloc, first),
    }
}

// Of an integer where all items are integers, and else of a decimal.
fn whole_type(alloc: Global, schemas: &Schemas, t: &Ty) -> Result<Ty, AllocError>
    ensures { IfOk result (λ r. r ≡ atomic (integer_if (is_all_in schemas.now Integer t.now))) }
{
    atomic(alloc, integer_if(is_all_in(schemas, Builtin::Integer, t)))
}

// One value, or none where an argument may have none.
pub(crate) fn as_optional(alloc: Global, argument: &Ty, t: Ty) -> Result<Ty, AllocError>
    ensures { IfOk result (λ r. r ≡ as_optional argument.now t) }
{
    let occurs = Occurrence {
        least: occurrence(argument).least,
        greatest: 1,
    };
    times(alloc, t, occurs)
}

fn average_type(alloc: Global, argument: &Ty) -> Result<Ty, AllocError>
    ensures { IfOk result (λ t. t ≡ as_optional argument.now (atomic Decimal)) }
{
    let decimal = atomic(alloc, Builtin::Decimal)?;
    as_optional(alloc, argument, decimal)
}

fn rounded_type(alloc: Global, schemas: &Schemas, argument: &Ty) -> Result<Ty, AllocError>
    ensures { IfOk result (λ t. t ≡ rounded_type schemas.now argument.now) }
{
    let number = whole_type(alloc, schemas, argument)?;
    as_optional(alloc, argument, number)
}

fn optional_integer(alloc: Global) -> Result<Ty, AllocError>
    ensures { IfOk result (λ t. t ≡ at_most_one (atomic Integer)) }
{
    let integer = atomic(alloc, Builtin::Integer)?;
    optional(alloc, &integer)
}

fn integers(alloc: Global) -> Result<Ty, AllocError>
    ensures { IfOk result (λ t. t ≡ any_number (atomic Integer)) }
{
    let integer = atomic(alloc, Builtin::Integer)?;
    star(alloc, &integer)
}

// Items of a type, as often as it occurs.
pub(crate) fn as_often(alloc: Global, t: &Ty) -> Result<Ty, AllocError>
    ensures { IfOk result (λ r. r ≡ as_often t.now) }
{
    let items = prime(alloc, t)?;
    times(alloc, items, occurrence(t))
}
