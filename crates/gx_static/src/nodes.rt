// The static rules of comparisons of nodes and of combinations of sequences of nodes.

ghost use Rattle.std.specs.Prelude.{◌≡◌, true, ◌&&◌, IfOk, IfErr, IsTrue};
ghost use Rattle.gx_include.specs.Decision.{is_included};
ghost use Rattle.gx_types.specs.Occurrence.{occurrence_of, occurs};
ghost use Rattle.gx_types.specs.Prime.{prime_of};
ghost use Rattle.gx_types.specs.TypeRules.{times_of};
ghost use Rattle.gx_static.specs.Rule.{has_type, all_items, is_at_most_one, is_node_item, optional_node, node_comparison_rule, set_type, set_rule};
ghost use Rattle.gx_static.specs.Refusal.{RefusesType};

use crate::comparison::compared_type;
use crate::error::RuleError;
use crate::item_tests::{is_at_most_one, no_type};
use crate::path::{are_nodes, is_all_nodes};
use crate::rules::sequence_type;
use gx_base::code::Code;
use gx_core::expression::NodeCombination;
use gx_include::decision::is_included;
use gx_steptype::axis_type::node_type;
use gx_types::occurrence::Occurrence;
use gx_types::schemas::Schemas;
use gx_types::sequence_type::Ty;
use gx_types::type_rules::{occurrence, optional, prime, times};
use std::alloc::{AllocError, Global};

// The type of a comparison of nodes.
pub(crate) fn node_comparison_type(
    alloc: Global,
    schemas: &Schemas,
    left: &Ty,
    right: &Ty,
) -> Result<Ty, RuleError>
    ensures typed { IfOk result (λ t. node_comparison_rule schemas.now left.now right.now ≡ has_type t) }
    ensures refused { IfErr result (λ e. RefusesType e (node_comparison_rule schemas.now left.now right.now)) }
{
    if is_optional_node(alloc, schemas, left)? && is_optional_node(alloc, schemas, right)? {
        Ok(compared_type(alloc, left, right)?)
    } else {
        Err(no_type(Code::XPTY0004))
    }
}

// Whether a type is of at most one node. A type of at most one item whose item types are of nodes is known to be, without a test of
// inclusion.
pub(crate) fn is_optional_node(alloc: Global, schemas: &Schemas, t: &Ty) -> Result<bool, AllocError>
    ensures { IfOk result (λ answer. answer ≡ is_included schemas.now t.now optional_node) }
{
    if is_one_node_or_none(schemas, t) {
        return Ok(true);
    }
    let node = node_type(alloc)?;
    is_included(alloc, schemas, t, &optional(alloc, &node)?)
}

// A type of at most one item whose item types are of nodes is included in that of a node.
fn is_one_node_or_none(schemas: &Schemas, t: &Ty) -> bool
    ensures { IsTrue result → is_included schemas.now t.now optional_node ≡ true }
{
    let _types = schemas.types();
    has_one_node_item(schemas, t)
}

// Whether a type is of at most one item, and its item types are of nodes.
fn has_one_node_item(schemas: &Schemas, t: &Ty) -> bool
    ensures { result ≡ (is_at_most_one t.now && all_items (is_node_item schemas.now) t.now) }
{
    is_at_most_one(t) && is_all_nodes(schemas, t)
}

// The type of a combination of sequences of nodes.
pub(crate) fn node_set_type(
    alloc: Global,
    schemas: &Schemas,
    operator: NodeCombination,
    left: &Ty,
    right: &Ty,
) -> Result<Ty, RuleError>
    ensures typed { IfOk result (λ t. set_rule schemas.now operator left.now right.now ≡ has_type t) }
    ensures refused { IfErr result (λ e. RefusesType e (set_rule schemas.now operator left.now right.now)) }
{
    if are_nodes(alloc, schemas, left)? && are_nodes(alloc, schemas, right)? {
        Ok(set_type(alloc, operator, left, right)?)
    } else {
        Err(no_type(Code::XPTY0004))
    }
}

// Items of both operands, or of the left one.
fn set_type(
    alloc: Global,
    operator: NodeCombination,
    left: &Ty,
    right: &Ty,
) -> Result<Ty, AllocError>
    ensures { IfOk result (λ t. t ≡ set_type operator left.now right.now) }
{
    match operator {
        NodeCombination::Union => {
            let both = sequence_type(alloc, left, right)?;
            let items = prime(alloc, &both)?;
            times(alloc, items, occurrence(&both))
        }
        NodeCombination::Intersect | NodeCombination::Except => some_of_type(alloc, left),
    }
}

// Some of the items of a value, or none.
pub(crate) fn some_of_type(alloc: Global, t: &Ty) -> Result<Ty, AllocError>
    ensures { IfOk result (λ u. u ≡ times_of (prime_of t.now) (occurs 0 (occurrence_of t.now).greatest)) }
{
    let items = prime(alloc, t)?;
    let occurs = Occurrence {
        least: 0,
        greatest: occurrence(t).greatest,
    };
    times(alloc, items, occurs)
}
