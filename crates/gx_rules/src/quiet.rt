// Expressions that raise no error and make no node.

ghost use Rattle.std.specs.Prelude.{◌≡◌, drop, IfOk, map};
ghost use Rattle.gx_funcs.specs.Function.{parameters_of, conversion_of};
ghost use Rattle.gx_core.specs.BinaryOperators.{class_of};
ghost use Rattle.gx_plan.specs.Plan.{kind_carried};
ghost use Rattle.gx_static.specs.Rule.{all_items};
ghost use Rattle.gx_rules.specs.Guards.{compare_quietly, are_compared_quietly, is_quiet_class, is_quiet_value_function, is_quiet_item_function, is_quiet_function, is_string, is_converted_quietly, are_converted_quietly, is_quiet_at, is_quiet, is_in_join, are_keys_of_one_family};

use gx_base::type_name::Builtin;
use gx_core::expression::{BinaryClass, Form};
use gx_funcs::function::{Conversion, Function, Parameter};
use gx_funcs::item_function::ItemFunction;
use gx_funcs::value_function::ValueFunction;
use gx_plan::plan::{PlanExpr, Role};
use gx_plan::walk::Walk;
use gx_static::comparison::{Family, is_all_of_family, is_of_family};
use gx_static::item_tests::is_all_in;
use gx_steptype::data_type::data_type;
use gx_steptype::error::StepError;
use gx_types::item_type::ItemType;
use gx_types::schemas::Schemas;
use gx_types::sequence_type::{Ty, TyNode};
use std::alloc::{AllocError, Global};

/// Whether nothing in an expression raises an error or makes a node (XQuery 1.0, section 2.3.4). The walk ends long before the loop
/// does.
#[tactic(auto, using(crate::proofs::Walking::quiet_next, crate::proofs::Walking::quiet_goes_on))]
pub fn is_quiet(alloc: Global, schemas: &Schemas, expression: &PlanExpr) -> Result<bool, AllocError>
    ensures { IfOk result (λ answer. answer ≡ is_quiet schemas.now expression.now) }
{
    let mut walk = Walk::new(alloc, expression)?;
    for _ in 0..u64::MAX {
        match walk.next()? {
            None => return Ok(true),
            Some(next) => {
                if !is_quiet_at(alloc, schemas, next)? {
                    return Ok(false);
                }
            }
        }
    }
    Err(AllocError)
}

// Whether the operator of an expression raises no error and makes no node.
#[tactic(auto, using(crate::proofs::Making::kinds_of_all))]
fn is_quiet_at(alloc: Global, schemas: &Schemas, expression: &PlanExpr) -> Result<bool, AllocError>
    ensures { IfOk result (λ answer. answer ≡ is_quiet_at schemas.now expression.now) }
{
    match &expression.form {
        Form::Binary(operator, left, right) => Ok(
            is_in_join(expression.kind.role)
                || is_quiet_class(schemas, operator.class(), &left.kind.kind, &right.kind.kind),
        ),
        Form::Neg(_)
        | Form::Cast(_, _, _)
        | Form::Treat(_, _)
        | Form::Construct(_, _)
        | Form::User(_, _) => Ok(false),
        Form::Call(function, arguments) => {
            if is_quiet_function(*function) {
                are_converted_quietly(alloc, schemas, *function, arguments.as_slice())
            } else {
                Ok(false)
            }
        }
        _ => Ok(true),
    }
}

fn is_in_join(role: Role) -> bool
    ensures { result ≡ is_in_join role }
{
    matches!(role, Role::InJoin)
}

fn is_quiet_class(schemas: &Schemas, class: BinaryClass, left: &Ty, right: &Ty) -> bool
    ensures { result ≡ is_quiet_class schemas.now class left.now right.now }
{
    match class {
        BinaryClass::Arithmetic(_) | BinaryClass::Range => false,
        BinaryClass::General(_) => are_compared_quietly(schemas, left, right),
        BinaryClass::Value(_) | BinaryClass::Nodes(_) | BinaryClass::Combination(_) => true,
    }
}

// Whether each pair of items of two types is compared without a cast.
fn are_compared_quietly(schemas: &Schemas, left: &Ty, right: &Ty) -> bool
    ensures { result ≡ are_compared_quietly schemas.now left.now right.now }
{
    match &left.node {
        TyNode::Never | TyNode::Empty => true,
        TyNode::Item(kind) => is_compared_quietly(schemas, kind, right),
        TyNode::Seq(first, second) | TyNode::Alt(first, second) => {
            are_compared_quietly(schemas, first, right)
                && are_compared_quietly(schemas, second, right)
        }
        TyNode::Optional(part) | TyNode::Star(part) | TyNode::Plus(part) => {
            are_compared_quietly(schemas, part, right)
        }
    }
}

fn is_compared_quietly(schemas: &Schemas, kind: &ItemType, t: &Ty) -> bool
    ensures { result ≡ all_items (compare_quietly schemas.now kind.now) t.now }
{
    match &t.node {
        TyNode::Never | TyNode::Empty => true,
        TyNode::Item(other) => compare_quietly(schemas, kind, other),
        TyNode::Seq(first, second) | TyNode::Alt(first, second) => {
            is_compared_quietly(schemas, kind, first) && is_compared_quietly(schemas, kind, second)
        }
        TyNode::Optional(part) | TyNode::Star(part) | TyNode::Plus(part) => {
            is_compared_quietly(schemas, kind, part)
        }
    }
}

fn compare_quietly(schemas: &Schemas, a: &ItemType, b: &ItemType) -> bool
    ensures { result ≡ compare_quietly schemas.now a.now b.now }
{
    (is_of_family(schemas, Family::Number, a) && is_of_family(schemas, Family::Number, b))
        || (is_of_family(schemas, Family::Text, a) && is_of_family(schemas, Family::Text, b))
        || (is_of_family(schemas, Family::Truth, a) && is_of_family(schemas, Family::Truth, b))
}

fn is_quiet_function(function: Function) -> bool
    ensures { result ≡ is_quiet_function function }
{
    match function {
        Function::OfValues(function) => is_quiet_value_function(function),
        Function::OfItems(function) => is_quiet_item_function(function),
        _ => true,
    }
}

fn is_quiet_value_function(function: ValueFunction) -> bool
    ensures { result ≡ is_quiet_value_function function }
{
    !matches!(
        function,
        ValueFunction::Sum
            | ValueFunction::Average
            | ValueFunction::Abs
            | ValueFunction::Floor
            | ValueFunction::Ceiling
            | ValueFunction::Round
            | ValueFunction::NormalizeTo
            | ValueFunction::CodepointsToString
    )
}

fn is_quiet_item_function(function: ItemFunction) -> bool
    ensures { result ≡ is_quiet_item_function function }
{
    !matches!(
        function,
        ItemFunction::ZeroOrOne
            | ItemFunction::OneOrMore
            | ItemFunction::ExactlyOne
            | ItemFunction::Error
    )
}

// Whether each argument of a call is converted without a cast that may fail.
#[tactic(auto, using(crate::proofs::Arguments::none_behind, crate::proofs::Arguments::one_fails, crate::proofs::Arguments::one_less, crate::proofs::Arguments::none_is_left))]
fn are_converted_quietly(
    alloc: Global,
    schemas: &Schemas,
    function: Function,
    arguments: &[PlanExpr],
) -> Result<bool, AllocError>
    ensures { IfOk result (λ answer. answer ≡ are_converted_quietly schemas.now (parameters_of function) (map kind_carried arguments.now)) }
{
    let mut left = arguments;
    let mut number = 0;
    while let Some((argument, others)) = left.split_first() {
        let Some(parameter) = function.parameter(number) else {
            return Ok(true);
        };
        if !is_taken_quietly(alloc, schemas, parameter, argument)? {
            return Ok(false);
        }
        left = others;
        number += 1;
    }
    Ok(true)
}

// Whether an argument is converted so for its parameter.
fn is_taken_quietly(
    alloc: Global,
    schemas: &Schemas,
    parameter: Parameter,
    argument: &PlanExpr,
) -> Result<bool, AllocError>
    ensures { IfOk result (λ answer. answer ≡ is_converted_quietly schemas.now (conversion_of parameter.takes) (kind_carried argument.now)) }
{
    let conversion = parameter.takes.conversion();
    is_converted_quietly(alloc, schemas, conversion, &argument.kind.kind)
}

fn is_converted_quietly(
    alloc: Global,
    schemas: &Schemas,
    conversion: Conversion,
    argument: &Ty,
) -> Result<bool, AllocError>
    ensures { IfOk result (λ answer. answer ≡ is_converted_quietly schemas.now conversion argument.now) }
{
    match conversion {
        Conversion::Nothing | Conversion::Data => Ok(true),
        Conversion::DataAndCast(kind) => {
            if is_string(kind) {
                return Ok(true);
            }
            match data_type(alloc, schemas, argument) {
                Ok(values) => Ok(is_all_in(schemas, kind, &values)),
                Err(StepError::NoTypedValue) => Ok(false),
                Err(StepError::NotANode) => unreachable!(),
                Err(StepError::Memory) => Err(AllocError),
            }
        }
    }
}

fn is_string(kind: Builtin) -> bool
    ensures { result ≡ is_string kind }
{
    matches!(kind, Builtin::Str)
}

/// Whether all keys of two types are numbers, or all are strings and untyped values.
pub fn are_keys_of_one_family(schemas: &Schemas, left: &Ty, right: &Ty) -> bool
    ensures { result ≡ are_keys_of_one_family schemas.now left.now right.now }
{
    (is_all_of_family(schemas, Family::Number, left)
        && is_all_of_family(schemas, Family::Number, right))
        || (is_all_of_family(schemas, Family::Text, left)
            && is_all_of_family(schemas, Family::Text, right))
}
