// The static rule of calls of built-in functions.

ghost use Rattle.std.specs.Prelude.{◌≡◌, ◌++◌, [], ◌∷◌, true, IfOk, IfErr, IsTrue, OnOk, Some};
ghost use Rattle.gx_funcs.specs.Function.{parameters_of};
ghost use Rattle.gx_types.specs.SequenceType.{both, star as any_number};
ghost use Rattle.gx_include.specs.Decision.{is_included};
ghost use Rattle.gx_steptype.specs.StepType.{node_type as type_of_node, any_item};
ghost use Rattle.gx_static.specs.Rule.{has_type, atomic, has_effective_boolean, boolean_types, takes_argument, seen_argument, argument_ruling, call_answer_ruling, called_type, type_ruled, seen_at, item_call_type, call_rule, Ruling, has_none};
ghost use Rattle.gx_static.specs.Refusal.{RefusesType};

use crate::comparison::{Family, is_all_of_family, is_of_family};
use crate::conversions::untyped_cast;
use crate::error::RuleError;
use crate::item_tests::{
    atomic, is_all_atomic, is_all_in, is_at_least_one, is_at_most_one, is_optional_in, no_type,
};
use crate::item_types::item_answer_type;
use crate::nodes::is_optional_node;
use crate::rules::data_type;
use crate::value_types::value_answer_type;
use gx_base::code::Code;
use gx_base::type_name::{Builtin, TypeName};
use gx_funcs::function::{Conversion, Function, Parameter, ParameterType};
use gx_funcs::item_function::ItemFunction;
use gx_include::decision::is_included;
use gx_steptype::axis_type::{item_type, node_type};
use gx_types::item_type::ItemType;
use gx_types::schemas::Schemas;
use gx_types::sequence_type::{Ty, TyNode};
use gx_types::type_rules::{choose, join, star};
use std::alloc::{AllocError, Global};

// Whether a parameter takes the values of a type, which are atomized where it does so.
fn takes_argument(
    alloc: Global,
    schemas: &Schemas,
    takes: ParameterType,
    argument: &Ty,
) -> Result<bool, AllocError>
    ensures { IfOk result (λ answer. answer ≡ takes_argument schemas.now takes argument.now) }
{
    match takes {
        ParameterType::Items => Ok(true),
        ParameterType::OptionalItem => Ok(is_at_most_one(argument)),
        ParameterType::TruthValue => is_boolean_type(alloc, schemas, argument),
        ParameterType::OptionalText => Ok(
            is_at_most_one(argument) && is_all_of_family(schemas, Family::Text, argument),
        ),
        ParameterType::OneText => Ok(
            is_at_least_one(argument)
                && is_at_most_one(argument)
                && is_all_of_family(schemas, Family::Text, argument),
        ),
        ParameterType::Texts => Ok(is_all_of_family(schemas, Family::Text, argument)),
        ParameterType::OptionalValue => Ok(is_at_most_one(argument) && is_all_atomic(argument)),
        ParameterType::OptionalNumber => Ok(is_optional_in(schemas, Builtin::Decimal, argument)),
        ParameterType::OneNumber => Ok(
            is_at_least_one(argument)
                && is_at_most_one(argument)
                && is_all_in(schemas, Builtin::Decimal, argument),
        ),
        ParameterType::Numbers => Ok(is_all_in(schemas, Builtin::Decimal, argument)),
        ParameterType::Integers => Ok(is_all_in(schemas, Builtin::Integer, argument)),
        ParameterType::Values => Ok(is_all_atomic(argument)),
        ParameterType::OneValue => Ok(
            is_at_least_one(argument) && is_at_most_one(argument) && is_all_atomic(argument),
        ),
        ParameterType::OptionalNode => is_optional_node(alloc, schemas, argument),
        ParameterType::OneInteger => Ok(
            is_at_least_one(argument)
                && is_at_most_one(argument)
                && is_all_in(schemas, Builtin::Integer, argument),
        ),
    }
}

// Whether the values of a type have an effective boolean value. Types of one value are known to, without a test of inclusion.
fn is_boolean_type(alloc: Global, schemas: &Schemas, t: &Ty) -> Result<bool, AllocError>
    ensures { IfOk result (λ answer. answer ≡ is_included schemas.now t.now boolean_types) }
{
    if is_one_truth(schemas, t) {
        return Ok(true);
    }
    let boolean = boolean_types(alloc)?;
    is_included(alloc, schemas, t, &boolean)
}

// A type of one atomic value that has an effective boolean value, or of none, is one of the boolean types.
fn is_one_truth(schemas: &Schemas, t: &Ty) -> bool
    ensures { IsTrue result → is_included schemas.now t.now boolean_types ≡ true }
{
    let _types = schemas.types();
    match &t.node {
        TyNode::Item(kind) => has_effective_boolean(schemas, kind),
        TyNode::Optional(part) => match &part.node {
            TyNode::Item(kind) => has_effective_boolean(schemas, kind),
            _ => false,
        },
        _ => false,
    }
}

fn has_effective_boolean(schemas: &Schemas, kind: &ItemType) -> bool
    ensures { result ≡ has_effective_boolean schemas.now kind.now }
{
    is_of_family(schemas, Family::Truth, kind)
        || is_of_family(schemas, Family::Text, kind)
        || is_of_family(schemas, Family::Number, kind)
}

// The types of the values that have an effective boolean value (XQuery 1.0, section 2.4.3).
#[tactic(auto, unfolding(crate::specs::Rule::boolean_types))]
fn boolean_types(alloc: Global) -> Result<Ty, AllocError>
    ensures { IfOk result (λ t. t ≡ boolean_types) }
{
    let mut members = Vec::new(alloc);
    members.push(Ty::empty())?;
    add_node_first(alloc, &mut members)?;
    add_atomic(alloc, Builtin::Boolean, &mut members)?;
    add_atomic(alloc, Builtin::Str, &mut members)?;
    add_atomic(alloc, Builtin::UntypedAtomic, &mut members)?;
    add_atomic(alloc, Builtin::Decimal, &mut members)?;
    choose(alloc, &members)
}

// Adds the type of a node and any items behind it.
fn add_node_first(alloc: Global, members: &mut Vec<Ty>) -> Result<(), AllocError>
    ensures { OnOk result (members.new.items ≡ members.old.items ++ both type_of_node (any_number any_item) ∷ []) }
{
    let items = any_items(alloc)?;
    let node = node_type(alloc)?;
    members.push(join(alloc, &node, &items)?)?;
    Ok(())
}

// The type of any items.
fn any_items(alloc: Global) -> Result<Ty, AllocError>
    ensures { IfOk result (λ t. t ≡ any_number any_item) }
{
    let item = item_type(alloc)?;
    star(alloc, &item)
}

// Adds the type of an atomic value of a built-in type.
fn add_atomic(alloc: Global, builtin: Builtin, members: &mut Vec<Ty>) -> Result<(), AllocError>
    ensures { OnOk result (members.new.items ≡ members.old.items ++ atomic builtin ∷ []) }
{
    members.push(atomic(alloc, builtin)?)?;
    Ok(())
}

// The type of what a call gives; Core calls no function that looks at the context.
fn called_type(function: Function) -> Option<Builtin>
    ensures { result ≡ called_type function }
{
    match function {
        Function::Position | Function::Last => None,
        _ => function.result(),
    }
}

// The type of what a function answers of arguments that its parameters take.
fn answer_type(
    alloc: Global,
    schemas: &Schemas,
    function: Function,
    arguments: &[Ty],
) -> Result<Ty, RuleError>
    ensures typed { IfOk result (λ t. call_answer_ruling schemas.now function arguments.now ≡ has_type t) }
    ensures refused { IfErr result (λ e. RefusesType e (call_answer_ruling schemas.now function arguments.now)) }
{
    if let Some(over_values) = function.value_function() {
        let first = seen_at(alloc, schemas, function, arguments, 0)?;
        let answer = value_answer_type(alloc, schemas, over_values, &first);
        drop(first);
        return Ok(answer?);
    }
    if let Some(over_items) = function.item_function() {
        return Ok(item_call_type(alloc, schemas, over_items, function, arguments)?);
    }
    match called_type(function) {
        Some(builtin) => Ok(atomic(alloc, builtin)?),
        None => Err(no_type(Code::XPTY0004)),
    }
}

// The type of what a function over items answers.
fn item_call_type(
    alloc: Global,
    schemas: &Schemas,
    over_items: ItemFunction,
    function: Function,
    arguments: &[Ty],
) -> Result<Ty, AllocError>
    ensures { IfOk result (λ t. t ≡ item_call_type schemas.now over_items (parameters_of function) arguments.now) }
{
    let first = seen_at(alloc, schemas, function, arguments, 0)?;
    let Ok(third) = seen_at(alloc, schemas, function, arguments, 2) else {
        drop(first);
        return Err(AllocError);
    };
    let answer = item_answer_type(alloc, over_items, &first, &third);
    drop(third);
    drop(first);
    answer
}

// The type of the argument with a number, counted from 0, as its parameter asks for it, if it has one.
fn seen_at(
    alloc: Global,
    schemas: &Schemas,
    function: Function,
    arguments: &[Ty],
    number: usize,
) -> Result<Ty, AllocError>
    ensures { IfOk result (λ t. t ≡ seen_at schemas.now (parameters_of function) arguments.now number) }
{
    match (function.parameter(number), arguments.get(number)) {
        (Some(parameter), Some(argument)) => type_seen(alloc, schemas, parameter.takes, argument),
        _ => Ok(Ty::none()),
    }
}

fn type_seen(
    alloc: Global,
    schemas: &Schemas,
    takes: ParameterType,
    argument: &Ty,
) -> Result<Ty, AllocError>
    ensures { IfOk result (λ t. t ≡ type_ruled (seen_argument schemas.now takes argument.now)) }
{
    match seen_argument(alloc, schemas, takes, argument) {
        Ok(seen) => Ok(seen),
        Err(RuleError::NoType { .. }) => Ok(Ty::none()),
        Err(RuleError::Memory) => Err(AllocError),
    }
}

// The code of an argument stands at it.
fn at_argument(number: usize, code: Code) -> RuleError
    ensures { RefusesType result (has_none code (Some number)) }
{
    match u32::try_from(number) {
        Ok(number) => RuleError::NoType {
            code,
            part: Some(number),
        },
        Err(_) => RuleError::Memory,
    }
}

// The type of an argument as its parameter sees it; a code stands at the argument.
fn seen_argument(
    alloc: Global,
    schemas: &Schemas,
    takes: ParameterType,
    argument: &Ty,
) -> Result<Ty, RuleError>
    ensures typed { IfOk result (λ t. seen_argument schemas.now takes argument.now ≡ has_type t) }
    ensures refused { IfErr result (λ e. RefusesType e (seen_argument schemas.now takes argument.now)) }
{
    match takes.conversion() {
        Conversion::Nothing => Ok(argument.clone()?),
        Conversion::Data => data_type(alloc, schemas, argument),
        Conversion::DataAndCast(kind) => {
            let values = data_type(alloc, schemas, argument)?;
            Ok(untyped_cast(alloc, &TypeName::Builtin(kind), values)?)
        }
    }
}

// Whether a parameter takes an argument; else the code that stands at it.
fn check_argument(
    alloc: Global,
    schemas: &Schemas,
    parameter: Parameter,
    number: usize,
    argument: &Ty,
) -> Result<(), RuleError>
    ensures taken { (next : Ruling) → OnOk result (argument_ruling schemas.now parameter number next argument.now ≡ next) }
    ensures refused { (next : Ruling) → IfErr result (λ e. RefusesType e (argument_ruling schemas.now parameter number next argument.now)) }
{
    let seen = match seen_argument(alloc, schemas, parameter.takes, argument) {
        Ok(seen) => seen,
        Err(RuleError::NoType { code, .. }) => return Err(at_argument(number, code)),
        Err(RuleError::Memory) => return Err(RuleError::Memory),
    };
    let takes = takes_argument(alloc, schemas, parameter.takes, &seen);
    drop(seen);
    if takes? {
        Ok(())
    } else {
        Err(at_argument(number, parameter.code))
    }
}

// The type of a call of a built-in function.
#[tactic(auto, unfolding(crate::specs::Rule::call_rule))]
pub(crate) fn call_type(
    alloc: Global,
    schemas: &Schemas,
    function: Function,
    arguments: &[Ty],
) -> Result<Ty, RuleError>
    ensures typed { IfOk result (λ t. call_rule schemas.now function arguments.now ≡ has_type t) }
    ensures refused { IfErr result (λ e. RefusesType e (call_rule schemas.now function arguments.now)) }
{
    let mut left = arguments;
    let mut number = 0;
    while let Some((argument, behind)) = left.split_first() {
        let Some(parameter) = function.parameter(number) else {
            return Err(no_type(Code::XPTY0004));
        };
        check_argument(alloc, schemas, parameter, number, argument)?;
        left = behind;
        number += 1;
    }
    if number == function.arity() {
        answer_type(alloc, schemas, function, arguments)
    } else {
        Err(no_type(Code::XPTY0004))
    }
}
