// The static rules of steps, of their operands and of document order.

ghost use Rattle.std.specs.Prelude.{◌≡◌, true, IfOk, IfErr, IsTrue};
ghost use Rattle.gx_core.specs.Bindings.{look_up};
ghost use Rattle.gx_include.specs.Decision.{is_included};
ghost use Rattle.gx_static.specs.Rule.{has_type, step_rule, step_ruling, reaching, nodes_type, nodes_rule, order_rule, all_items, is_node_item};
ghost use Rattle.gx_static.specs.Refusal.{RefusesType};

use crate::error::RuleError;
use crate::item_tests::{is_all_atomic, is_empty, is_never, no_type};
use gx_base::code::Code;
use gx_base::type_name::{Builtin, TypeName};
use gx_core::scope::Scope;
use gx_include::decision::is_included;
use gx_steptype::axis_type::{axis_type, node_type};
use gx_steptype::error::StepError;
use gx_types::derivation::derives;
use gx_types::item_type::ItemType;
use gx_types::schemas::Schemas;
use gx_types::sequence_type::{Ty, TyNode};
use gx_types::step::{Axis, Test};
use gx_types::type_rules::{occurrence, prime, star, times};
use std::alloc::{AllocError, Global};

// The type of a step from the node of a variable.
pub(crate) fn step_in_scope(
    alloc: Global,
    schemas: &Schemas,
    axis: Axis,
    test: &Test,
    number: u32,
    scope: &Scope<Ty>,
) -> Result<Ty, RuleError>
    ensures typed { IfOk result (λ t. step_ruling schemas.now axis test.now number (look_up scope.now number) ≡ has_type t) }
    ensures refused { IfErr result (λ e. RefusesType e (step_ruling schemas.now axis test.now number (look_up scope.now number))) }
{
    match scope.find(number) {
        Some(context) => reaching_step_type(alloc, schemas, axis, test, context),
        None => Err(no_type(Code::XPST0008)),
    }
}

// The type of a step that gives something.
fn reaching_step_type(
    alloc: Global,
    schemas: &Schemas,
    axis: Axis,
    test: &Test,
    context: &Ty,
) -> Result<Ty, RuleError>
    ensures typed { IfOk result (λ t. reaching context.now (step_rule schemas.now axis test.now context.now) ≡ has_type t) }
    ensures refused { IfErr result (λ e. RefusesType e (reaching context.now (step_rule schemas.now axis test.now context.now))) }
{
    let given = step_type(alloc, schemas, axis, test, context)?;
    if is_empty(&given) && !is_never(context) {
        Err(no_type(Code::XPST0005))
    } else {
        Ok(given)
    }
}

// The type of a step from one node.
pub(crate) fn step_type(
    alloc: Global,
    schemas: &Schemas,
    axis: Axis,
    test: &Test,
    context: &Ty,
) -> Result<Ty, RuleError>
    ensures typed { IfOk result (λ t. step_rule schemas.now axis test.now context.now ≡ has_type t) }
    ensures refused { IfErr result (λ e. RefusesType e (step_rule schemas.now axis test.now context.now)) }
{
    match axis_type(alloc, schemas, axis, test, context) {
        Ok(t) => Ok(t),
        Err(StepError::NotANode) => Err(no_type(Code::XPTY0020)),
        Err(StepError::NoTypedValue) => unreachable!(),
        Err(StepError::Memory) => Err(RuleError::Memory),
    }
}

// The type of an operand of nodes alone.
pub(crate) fn nodes_type(alloc: Global, schemas: &Schemas, operand: &Ty) -> Result<Ty, RuleError>
    ensures typed { IfOk result (λ t. nodes_rule schemas.now operand.now ≡ has_type t) }
    ensures refused { IfErr result (λ e. RefusesType e (nodes_rule schemas.now operand.now)) }
{
    if are_nodes(alloc, schemas, operand)? {
        Ok(operand.clone()?)
    } else {
        Err(no_type(Code::XPTY0019))
    }
}

// The type of an operand in document order.
pub(crate) fn order_type(alloc: Global, schemas: &Schemas, operand: &Ty) -> Result<Ty, RuleError>
    ensures typed { IfOk result (λ t. order_rule schemas.now operand.now ≡ has_type t) }
    ensures refused { IfErr result (λ e. RefusesType e (order_rule schemas.now operand.now)) }
{
    if are_nodes(alloc, schemas, operand)? {
        let items = prime(alloc, operand)?;
        return Ok(times(alloc, items, occurrence(operand))?);
    }
    if is_all_atomic(operand) {
        Ok(operand.clone()?)
    } else {
        Err(no_type(Code::XPTY0018))
    }
}

// Whether a type is of nodes alone. A type whose item types are of nodes is known to be, without a test of inclusion.
pub(crate) fn are_nodes(alloc: Global, schemas: &Schemas, t: &Ty) -> Result<bool, AllocError>
    ensures { IfOk result (λ answer. answer ≡ is_included schemas.now t.now nodes_type) }
{
    if is_of_nodes(schemas, t) {
        return Ok(true);
    }
    let node = node_type(alloc)?;
    is_included(alloc, schemas, t, &star(alloc, &node)?)
}

// A type whose item types are of nodes is included in that of nodes.
fn is_of_nodes(schemas: &Schemas, t: &Ty) -> bool
    ensures { IsTrue result → is_included schemas.now t.now nodes_type ≡ true }
{
    let _types = schemas.types();
    is_all_nodes(schemas, t)
}

// Whether all item types of a type are of nodes.
pub(crate) fn is_all_nodes(schemas: &Schemas, t: &Ty) -> bool
    ensures { result ≡ all_items (is_node_item schemas.now) t.now }
{
    match &t.node {
        TyNode::Never | TyNode::Empty => true,
        TyNode::Item(kind) => is_node_item(schemas, kind),
        TyNode::Seq(first, second) | TyNode::Alt(first, second) => {
            is_all_nodes(schemas, first) && is_all_nodes(schemas, second)
        }
        TyNode::Optional(part) | TyNode::Star(part) | TyNode::Plus(part) => {
            is_all_nodes(schemas, part)
        }
    }
}

fn is_node_item(schemas: &Schemas, kind: &ItemType) -> bool
    ensures { result ≡ is_node_item schemas.now kind.now }
{
    match kind {
        ItemType::Element { name: _, kind } => {
            derives(schemas, kind, &TypeName::Builtin(Builtin::AnyType))
        }
        ItemType::Attribute { name: _, kind } => {
            derives(schemas, kind, &TypeName::Builtin(Builtin::AnySimple))
        }
        ItemType::Text | ItemType::Document(_) => true,
        ItemType::Atom(_) => false,
    }
}
