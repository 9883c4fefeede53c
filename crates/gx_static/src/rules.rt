// The static rules of the operators.

ghost use Rattle.std.specs.Prelude.{◌≡◌, length, IfOk, IfErr, IsTrue};
ghost use Rattle.gx_types.specs.SchemaSet.{SchemaSet};
ghost use Rattle.gx_types.specs.Prime.{prime_of};
ghost use Rattle.gx_types.specs.TypeRules.{sequence_of};
ghost use Rattle.gx_core.specs.BinaryOperators.{class_of};
ghost use Rattle.gx_static.specs.Rule.{rule, arity, has_type, binary_rule, literal_rule, shown_type, data_rule, conditional_rule, cast_rule, castable_rule, is_as_written, for_rule, let_rule, quantifier_rule};
ghost use Rattle.gx_static.specs.Refusal.{RefusesType};

use crate::block::block_type;
use crate::call::call_type;
use crate::comparison::{general_comparison_type, value_comparison_type};
use crate::constructors::constructor_type;
use crate::conversions::user_type;
use crate::error::RuleError;
use crate::filtering::{is_first, one_of_type, switch_type};
use crate::item_tests::{
    atomic, is_all_atomic, is_at_least_one, is_at_most_one, is_atomic, is_optional_in, no_type,
};
use crate::nodes::{node_comparison_type, node_set_type};
use crate::numeric::{arithmetic_type, negation_type, range_type};
use crate::path::{nodes_type, order_type, step_type};
use gx_base::code::Code;
use gx_base::type_name::{Builtin, TypeName};
use gx_core::expression::{BinaryClass, BinaryOp, Binder};
use gx_core::operator::Operator;
use gx_facets::{AtomValue, Atomic};
use gx_include::decision::is_included;
use gx_num::Number;
use gx_steptype::data_type::data_type as type_of_data;
use gx_steptype::error::StepError;
use gx_types::item_type::ItemType;
use gx_types::schemas::Schemas;
use gx_types::sequence_type::{Ty, TyNode};
use gx_types::type_rules::{alt, occurrence, prime, seq, times};
use std::alloc::{AllocError, Global};

/// The type that the static rule of an operator gives, from the types of its parts; the one part of a variable and of a
/// step is what the variable is bound to (XQuery 1.0 and XPath 2.0 Formal Semantics, section 4). A step that gives nothing, whatever
/// the node is, has the type of the empty sequence here.
pub fn operator_type(
    alloc: Global,
    schemas: &Schemas,
    operator: &Operator,
    parts: &[Ty],
) -> Result<Ty, RuleError>
    requires { length parts.now ≡ arity operator.now }
    ensures typed { IfOk result (λ t. rule schemas.now operator.now parts.now ≡ has_type t) }
    ensures refused { IfErr result (λ e. RefusesType e (rule schemas.now operator.now parts.now)) }
{
    match (operator, parts) {
        (Operator::Lit(value), []) => literal_type(alloc, value),
        (Operator::Var(_), [bound]) => Ok(bound.clone()?),
        (Operator::Empty, []) => Ok(Ty {
            node: TyNode::Empty,
        }),
        (Operator::Seq, [first, second]) => Ok(sequence_type(alloc, first, second)?),
        (Operator::For(binder, _), [source, body]) => {
            for_type(alloc, schemas, binder, source, body)
        }
        (Operator::SomeIn(binder) | Operator::EveryIn(binder), [source, test]) => {
            quantifier_type(alloc, schemas, binder, source, test)
        }
        (Operator::Block(clauses, keys), parts) => {
            block_type(alloc, schemas, clauses.as_slice(), keys.as_slice(), parts)
        }
        (Operator::Let(binder), [value, body]) => let_type(alloc, schemas, binder, value, body),
        (Operator::If, [condition, chosen, otherwise]) => {
            conditional_type(alloc, schemas, condition, chosen, otherwise)
        }
        (Operator::Cast(kind, optional), [operand]) => cast_type(alloc, kind, *optional, operand),
        (Operator::Castable(_, _), [operand]) => castable_type(alloc, operand),
        (Operator::Treat(kind), [_operand]) => Ok(kind.clone()?),
        (Operator::Step(axis, test, _), [context]) => {
            step_type(alloc, schemas, *axis, test, context)
        }
        (Operator::Nodes, [operand]) => nodes_type(alloc, schemas, operand),
        (Operator::Order, [operand]) => order_type(alloc, schemas, operand),
        (Operator::Switch(cases, _), [_operand, branches @ ..]) => {
            switch_type(alloc, cases.as_slice(), branches)
        }
        (Operator::Nth(number, _), [operand]) => {
            Ok(one_of_type(alloc, is_first(*number), operand)?)
        }
        (Operator::Final(_), [operand]) => Ok(one_of_type(alloc, true, operand)?),
        (Operator::DataOf, [operand]) => data_type(alloc, schemas, operand),
        (Operator::NoContext, []) => Err(no_type(Code::XPDY0002)),
        (Operator::Call(function), arguments) => call_type(alloc, schemas, *function, arguments),
        (Operator::Construct(constructor, _), parts) => {
            constructor_type(alloc, schemas, constructor, parts)
        }
        (Operator::User(signature, _), arguments) => {
            user_type(alloc, schemas, signature, arguments)
        }
        (Operator::Neg, [operand]) => negation_type(alloc, schemas, operand),
        (Operator::Binary(operator), [left, right]) => {
            binary_type(alloc, schemas, *operator, left, right)
        }
        _ => unreachable!(),
    }
}

// The type of one value behind another one.
pub(crate) fn sequence_type(alloc: Global, first: &Ty, second: &Ty) -> Result<Ty, AllocError>
    ensures { IfOk result (λ t. t ≡ sequence_of first.now second.now) }
{
    let first = first.clone()?;
    seq(alloc, first, second.clone()?)
}

// The type of an operator of two operands.
pub(crate) fn binary_type(
    alloc: Global,
    schemas: &Schemas,
    operator: BinaryOp,
    left: &Ty,
    right: &Ty,
) -> Result<Ty, RuleError>
    ensures typed { IfOk result (λ t. binary_rule schemas.now (class_of operator) left.now right.now ≡ has_type t) }
    ensures refused { IfErr result (λ e. RefusesType e (binary_rule schemas.now (class_of operator) left.now right.now)) }
{
    match operator.class() {
        BinaryClass::Arithmetic(operation) => {
            arithmetic_type(alloc, schemas, operation, left, right)
        }
        BinaryClass::Value(_) => value_comparison_type(alloc, schemas, left, right),
        BinaryClass::General(_) => general_comparison_type(alloc, schemas, left, right),
        BinaryClass::Nodes(_) => node_comparison_type(alloc, schemas, left, right),
        BinaryClass::Range => range_type(alloc, schemas, left, right),
        BinaryClass::Combination(operation) => node_set_type(
            alloc, schemas, operation, left, right,
        ),
    }
}

// Whether a type is included in the one that is written at a binder.
pub(crate) fn is_as_written(
    alloc: Global,
    schemas: &Schemas,
    binder: &Binder,
    given: &Ty,
) -> Result<bool, AllocError>
    ensures { IfOk result (λ answer. answer ≡ is_as_written schemas.now binder.now.kind given.now) }
{
    match &binder.kind {
        Some(written) => is_included(alloc, schemas, given, written),
        None => Ok(true),
    }
}

// The type of a `for` is that of its body, as often as its operand occurs.
pub(crate) fn for_type(
    alloc: Global,
    schemas: &Schemas,
    binder: &Binder,
    source: &Ty,
    body: &Ty,
) -> Result<Ty, RuleError>
    ensures typed { IfOk result (λ t. for_rule schemas.now binder.now source.now body.now ≡ has_type t) }
    ensures refused { IfErr result (λ e. RefusesType e (for_rule schemas.now binder.now source.now body.now)) }
{
    if is_item_as_written(alloc, schemas, binder, source)? {
        let body = body.clone()?;
        Ok(times(alloc, body, occurrence(source))?)
    } else {
        Err(no_type(Code::XPTY0004))
    }
}

// The type of a test of some item, or of every one.
pub(crate) fn quantifier_type(
    alloc: Global,
    schemas: &Schemas,
    binder: &Binder,
    source: &Ty,
    test: &Ty,
) -> Result<Ty, RuleError>
    ensures typed { IfOk result (λ t. quantifier_rule schemas.now binder.now source.now test.now ≡ has_type t) }
    ensures refused { IfErr result (λ e. RefusesType e (quantifier_rule schemas.now binder.now source.now test.now)) }
{
    if is_item_as_written(alloc, schemas, binder, source)?
        && is_at_least_one(test)
        && is_optional_in(schemas, Builtin::Boolean, test)
    {
        Ok(atomic(alloc, Builtin::Boolean)?)
    } else {
        Err(no_type(Code::XPTY0004))
    }
}

// Whether the type of an item of a type is included in the one that is written at a binder.
pub(crate) fn is_item_as_written(
    alloc: Global,
    schemas: &Schemas,
    binder: &Binder,
    source: &Ty,
) -> Result<bool, AllocError>
    ensures { IfOk result (λ answer. answer ≡ is_as_written schemas.now binder.now.kind (prime_of source.now)) }
{
    match &binder.kind {
        Some(written) => {
            let item = prime(alloc, source)?;
            is_included(alloc, schemas, &item, written)
        }
        None => Ok(true),
    }
}

// The type of a `let` is that of its body.
pub(crate) fn let_type(
    alloc: Global,
    schemas: &Schemas,
    binder: &Binder,
    value: &Ty,
    body: &Ty,
) -> Result<Ty, RuleError>
    ensures typed { IfOk result (λ t. let_rule schemas.now binder.now value.now body.now ≡ has_type t) }
    ensures refused { IfErr result (λ e. RefusesType e (let_rule schemas.now binder.now value.now body.now)) }
{
    if is_as_written(alloc, schemas, binder, value)? {
        Ok(body.clone()?)
    } else {
        Err(no_type(Code::XPTY0004))
    }
}

// A literal has the type that its value shows.
pub(crate) fn literal_type(alloc: Global, value: &Atomic) -> Result<Ty, RuleError>
    ensures typed { IfOk result (λ t. literal_rule value.now ≡ has_type t) }
    ensures refused { IfErr result (λ e. RefusesType e (literal_rule value.now)) }
{
    let kind = ItemType::Atom(value.kind.clone()?);
    let shown = ItemType::Atom(TypeName::Builtin(shown_type(&value.value)));
    if kind.same(&shown) {
        Ok(Ty::of_item(alloc, kind)?)
    } else {
        Err(no_type(Code::XPTY0004))
    }
}

// The type that an atomic value shows.
fn shown_type(value: &AtomValue) -> Builtin
    ensures { result ≡ shown_type value.now }
{
    match value {
        AtomValue::Untyped(_) => Builtin::UntypedAtomic,
        AtomValue::Str(_) => Builtin::Str,
        AtomValue::Truth(_) => Builtin::Boolean,
        AtomValue::Num(Number::Int(_)) => Builtin::Integer,
        AtomValue::Num(Number::Dec(_)) => Builtin::Decimal,
    }
}

// The type of typed values. Atomic values of one type are their own.
#[tactic(auto, unfolding(crate::specs::Rule::data_rule))]
pub(crate) fn data_type(alloc: Global, schemas: &Schemas, operand: &Ty) -> Result<Ty, RuleError>
    ensures typed { IfOk result (λ t. data_rule schemas.now operand.now ≡ has_type t) }
    ensures refused { IfErr result (λ e. RefusesType e (data_rule schemas.now operand.now)) }
{
    if is_its_own_data(operand) {
        return Ok(operand.clone()?);
    }
    match type_of_data(alloc, schemas, operand) {
        Ok(t) => Ok(t),
        Err(StepError::NotANode) => unreachable!(),
        Err(StepError::NoTypedValue) => Err(no_type(Code::FOTY0012)),
        Err(StepError::Memory) => Err(RuleError::Memory),
    }
}

// A type of atomic values of one type, with an indicator or without, is that of their typed values.
#[tactic(auto, unfolding(crate::specs::Rule::data_rule))]
fn is_its_own_data(t: &Ty) -> bool
    ensures { (schemas : SchemaSet) → IsTrue result → data_rule schemas t.now ≡ has_type t.now }
{
    match &t.node {
        TyNode::Item(kind) => is_atomic(kind),
        TyNode::Optional(part) | TyNode::Star(part) | TyNode::Plus(part) => match &part.node {
            TyNode::Item(kind) => is_atomic(kind),
            _ => false,
        },
        _ => false,
    }
}

// The type of a conditional.
pub(crate) fn conditional_type(
    alloc: Global,
    schemas: &Schemas,
    condition: &Ty,
    chosen: &Ty,
    otherwise: &Ty,
) -> Result<Ty, RuleError>
    ensures typed { IfOk result (λ t. conditional_rule schemas.now condition.now chosen.now otherwise.now ≡ has_type t) }
    ensures refused { IfErr result (λ e. RefusesType e (conditional_rule schemas.now condition.now chosen.now otherwise.now)) }
{
    if is_at_least_one(condition) && is_optional_in(schemas, Builtin::Boolean, condition) {
        let chosen = chosen.clone()?;
        Ok(alt(alloc, chosen, otherwise.clone()?)?)
    } else {
        Err(no_type(Code::XPTY0004))
    }
}

// The type of a cast.
pub(crate) fn cast_type(
    alloc: Global,
    kind: &TypeName,
    optional: bool,
    operand: &Ty,
) -> Result<Ty, RuleError>
    ensures typed { IfOk result (λ t. cast_rule kind.now optional operand.now ≡ has_type t) }
    ensures refused { IfErr result (λ e. RefusesType e (cast_rule kind.now optional operand.now)) }
{
    let is_operand = (optional || is_at_least_one(operand))
        && is_at_most_one(operand)
        && is_all_atomic(operand);
    if !is_operand {
        return Err(no_type(Code::XPTY0004));
    }
    let target = Ty::of_item(alloc, ItemType::Atom(kind.clone()?))?;
    Ok(times(alloc, target, occurrence(operand))?)
}

// The type of a test whether there is a cast.
pub(crate) fn castable_type(alloc: Global, operand: &Ty) -> Result<Ty, RuleError>
    ensures typed { IfOk result (λ t. castable_rule operand.now ≡ has_type t) }
    ensures refused { IfErr result (λ e. RefusesType e (castable_rule operand.now)) }
{
    if is_at_most_one(operand) && is_all_atomic(operand) {
        Ok(atomic(alloc, Builtin::Boolean)?)
    } else {
        Err(no_type(Code::XPTY0004))
    }
}
