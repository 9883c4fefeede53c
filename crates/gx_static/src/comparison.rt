// The static rules of comparisons.

ghost use Rattle.std.specs.Prelude.{◌≡◌, IfOk, IfErr};
ghost use Rattle.gx_static.specs.Rule.{has_type, all_items, is_of_family, are_of_family, are_of_one_family, compared_occur, value_comparison_type, value_comparison_rule, are_comparable_items, are_comparable_types, general_comparison_rule};
ghost use Rattle.gx_static.specs.Refusal.{RefusesType};

use crate::error::RuleError;
use crate::item_tests::{atomic, is_at_most_one, is_atomic_in, is_never, no_type};
use gx_base::code::Code;
use gx_base::type_name::Builtin;
use gx_types::item_type::ItemType;
use gx_types::occurrence::Occurrence;
use gx_types::schemas::Schemas;
use gx_types::sequence_type::{Ty, TyNode};
use gx_types::type_rules::{occurrence, times};
use std::alloc::{AllocError, Global};

/// A family of values that compare with one another (XQuery 1.0, section 3.5.1).
#[derive(Clone, Copy)]
pub enum Family {
    /// Numbers.
    Number,
    /// Strings and untyped values.
    Text,
    /// Booleans.
    Truth,
}

/// Whether the items of an item type are of a family.
pub fn is_of_family(schemas: &Schemas, family: Family, kind: &ItemType) -> bool
    ensures { result ≡ is_of_family schemas.now family kind.now }
{
    match family {
        Family::Number => is_atomic_in(schemas, Builtin::Decimal, kind),
        Family::Text => {
            is_atomic_in(schemas, Builtin::Str, kind)
                || is_atomic_in(schemas, Builtin::UntypedAtomic, kind)
        }
        Family::Truth => is_atomic_in(schemas, Builtin::Boolean, kind),
    }
}

/// Whether all items of a type are of a family.
pub fn is_all_of_family(schemas: &Schemas, family: Family, t: &Ty) -> bool
    ensures { result ≡ all_items (is_of_family schemas.now family) t.now }
{
    match &t.node {
        TyNode::Never | TyNode::Empty => true,
        TyNode::Item(kind) => is_of_family(schemas, family, kind),
        TyNode::Seq(first, second) | TyNode::Alt(first, second) => {
            is_all_of_family(schemas, family, first) && is_all_of_family(schemas, family, second)
        }
        TyNode::Optional(part) | TyNode::Star(part) | TyNode::Plus(part) => {
            is_all_of_family(schemas, family, part)
        }
    }
}

fn are_of_family(schemas: &Schemas, left: &Ty, right: &Ty, family: Family) -> bool
    ensures { result ≡ are_of_family schemas.now left.now right.now family }
{
    is_all_of_family(schemas, family, left) && is_all_of_family(schemas, family, right)
}

pub(crate) fn are_of_one_family(schemas: &Schemas, left: &Ty, right: &Ty) -> bool
    ensures { result ≡ are_of_one_family schemas.now left.now right.now }
{
    are_of_family(schemas, left, right, Family::Number)
        || are_of_family(schemas, left, right, Family::Text)
        || are_of_family(schemas, left, right, Family::Truth)
}

// Once, or at most once where an operand may be empty.
fn compared_occur(left: &Ty, right: &Ty) -> Occurrence
    ensures { result ≡ compared_occur left.now right.now }
{
    Occurrence {
        least: occurrence(left).least.min(occurrence(right).least),
        greatest: 1,
    }
}

// The type of a value comparison.
pub(crate) fn value_comparison_type(
    alloc: Global,
    schemas: &Schemas,
    left: &Ty,
    right: &Ty,
) -> Result<Ty, RuleError>
    ensures typed { IfOk result (λ t. value_comparison_rule schemas.now left.now right.now ≡ has_type t) }
    ensures refused { IfErr result (λ e. RefusesType e (value_comparison_rule schemas.now left.now right.now)) }
{
    let are_comparable = is_at_most_one(left)
        && is_at_most_one(right)
        && are_of_one_family(schemas, left, right);
    if !are_comparable {
        return Err(no_type(Code::XPTY0004));
    }
    Ok(compared_type(alloc, left, right)?)
}

// The type of a comparison of single items.
pub(crate) fn compared_type(alloc: Global, left: &Ty, right: &Ty) -> Result<Ty, AllocError>
    ensures { IfOk result (λ t. t ≡ value_comparison_type left.now right.now) }
{
    if is_never(left) {
        return Ok(Ty::none());
    }
    let truth = atomic(alloc, Builtin::Boolean)?;
    times(alloc, truth, compared_occur(left, right))
}

// Whether the items of two item types can be compared.
fn are_comparable_items(schemas: &Schemas, a: &ItemType, b: &ItemType) -> bool
    ensures { result ≡ are_comparable_items schemas.now a.now b.now }
{
    let number = is_of_family(schemas, Family::Number, a)
        && is_of_family(schemas, Family::Number, b);
    let text = is_of_family(schemas, Family::Text, a) && is_of_family(schemas, Family::Text, b);
    let truth = is_of_family(schemas, Family::Truth, a) && is_of_family(schemas, Family::Truth, b);
    let untyped_left = is_atomic_in(schemas, Builtin::UntypedAtomic, a)
        && is_of_family(schemas, Family::Truth, b);
    let untyped_right = is_of_family(schemas, Family::Truth, a)
        && is_atomic_in(schemas, Builtin::UntypedAtomic, b);
    number || text || truth || untyped_left || untyped_right
}

// Whether the items of an item type can be compared with all items of a type.
fn is_comparable_with(schemas: &Schemas, kind: &ItemType, t: &Ty) -> bool
    ensures { result ≡ all_items (are_comparable_items schemas.now kind.now) t.now }
{
    match &t.node {
        TyNode::Never | TyNode::Empty => true,
        TyNode::Item(other) => are_comparable_items(schemas, kind, other),
        TyNode::Seq(first, second) | TyNode::Alt(first, second) => {
            is_comparable_with(schemas, kind, first) && is_comparable_with(schemas, kind, second)
        }
        TyNode::Optional(part) | TyNode::Star(part) | TyNode::Plus(part) => {
            is_comparable_with(schemas, kind, part)
        }
    }
}

// Whether the items of a type can be compared with all items of another.
fn are_comparable_types(schemas: &Schemas, left: &Ty, right: &Ty) -> bool
    ensures { result ≡ are_comparable_types schemas.now left.now right.now }
{
    match &left.node {
        TyNode::Never | TyNode::Empty => true,
        TyNode::Item(kind) => is_comparable_with(schemas, kind, right),
        TyNode::Seq(first, second) | TyNode::Alt(first, second) => {
            are_comparable_types(schemas, first, right)
                && are_comparable_types(schemas, second, right)
        }
        TyNode::Optional(part) | TyNode::Star(part) | TyNode::Plus(part) => {
            are_comparable_types(schemas, part, right)
        }
    }
}

// The type of a general comparison.
pub(crate) fn general_comparison_type(
    alloc: Global,
    schemas: &Schemas,
    left: &Ty,
    right: &Ty,
) -> Result<Ty, RuleError>
    ensures typed { IfOk result (λ t. general_comparison_rule schemas.now left.now right.now ≡ has_type t) }
    ensures refused { IfErr result (λ e. RefusesType e (general_comparison_rule schemas.now left.now right.now)) }
{
    if !are_comparable_types(schemas, left, right) {
        return Err(no_type(Code::XPTY0004));
    }
    if is_never(left) {
        return Ok(Ty::none());
    }
    Ok(atomic(alloc, Builtin::Boolean)?)
}
