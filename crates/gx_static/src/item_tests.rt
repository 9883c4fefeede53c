// Tests of types and of their items.

ghost use Rattle.std.specs.Prelude.{◌≡◌, None, IfOk};
ghost use Rattle.gx_types.specs.SequenceType.{never, nothing};
ghost use Rattle.gx_types.specs.SameType.{same_type};
ghost use Rattle.gx_static.specs.Rule.{is_at_most_one, is_at_least_one, is_optional_in, is_all_in, is_atomic_in, atomic, all_items, is_atomic};
ghost use Rattle.gx_static.specs.declared.error.RuleError.TheVariants as errors;

use crate::error::RuleError;
use gx_base::code::Code;
use gx_base::type_name::{Builtin, TypeName};
use gx_types::derivation::derives;
use gx_types::item_type::ItemType;
use gx_types::schemas::Schemas;
use gx_types::sequence_type::{Ty, TyNode};
use gx_types::type_rules::occurrence;
use std::alloc::{AllocError, Global};

// No type, with a code that stands at the operator itself.
pub(crate) fn no_type(code: Code) -> RuleError
    ensures { result ≡ errors.NoType code None }
{
    RuleError::NoType { code, part: None }
}

/// The type of an atomic value of a built-in type.
pub fn atomic(alloc: Global, builtin: Builtin) -> Result<Ty, AllocError>
    ensures { IfOk result (λ t. t ≡ atomic builtin) }
{
    Ty::of_item(alloc, ItemType::Atom(TypeName::Builtin(builtin)))
}

/// Whether the values of a type have at most one item.
pub fn is_at_most_one(t: &Ty) -> bool
    ensures { result ≡ is_at_most_one t.now }
{
    occurrence(t).greatest <= 1
}

/// Whether the values of a type have at least one item.
pub fn is_at_least_one(t: &Ty) -> bool
    ensures { result ≡ is_at_least_one t.now }
{
    1 <= occurrence(t).least
}

// Whether a type is of at most one item, which is of a built-in type.
pub(crate) fn is_optional_in(schemas: &Schemas, builtin: Builtin, t: &Ty) -> bool
    ensures { result ≡ is_optional_in schemas.now builtin t.now }
{
    is_at_most_one(t) && is_all_in(schemas, builtin, t)
}

/// Whether all items of a type are atomic values of a built-in type.
pub fn is_all_in(schemas: &Schemas, builtin: Builtin, t: &Ty) -> bool
    ensures { result ≡ is_all_in schemas.now builtin t.now }
{
    match &t.node {
        TyNode::Never | TyNode::Empty => true,
        TyNode::Item(kind) => is_atomic_in(schemas, builtin, kind),
        TyNode::Seq(first, second) => {
            is_all_in(schemas, builtin, first) && is_all_in(schemas, builtin, second)
        }
        TyNode::Alt(first, second) => {
            is_all_in(schemas, builtin, first) && is_all_in(schemas, builtin, second)
        }
        TyNode::Optional(part) => is_all_in(schemas, builtin, part),
        TyNode::Star(part) => is_all_in(schemas, builtin, part),
        TyNode::Plus(part) => is_all_in(schemas, builtin, part),
    }
}

pub(crate) fn is_atomic_in(schemas: &Schemas, builtin: Builtin, kind: &ItemType) -> bool
    ensures { result ≡ is_atomic_in schemas.now builtin kind.now }
{
    match kind {
        ItemType::Atom(kind) => derives(schemas, kind, &TypeName::Builtin(builtin)),
        _ => false,
    }
}

// Whether all items of a type are atomic values.
pub(crate) fn is_all_atomic(t: &Ty) -> bool
    ensures { result ≡ all_items is_atomic t.now }
{
    match &t.node {
        TyNode::Never | TyNode::Empty => true,
        TyNode::Item(kind) => is_atomic(kind),
        TyNode::Seq(first, second) | TyNode::Alt(first, second) => {
            is_all_atomic(first) && is_all_atomic(second)
        }
        TyNode::Optional(part) | TyNode::Star(part) | TyNode::Plus(part) => is_all_atomic(part),
    }
}

pub(crate) fn is_atomic(kind: &ItemType) -> bool
    ensures { result ≡ is_atomic kind.now }
{
    matches!(kind, ItemType::Atom(_))
}

pub(crate) fn is_never(t: &Ty) -> bool
    ensures { result ≡ same_type never t.now }
{
    Ty::none().same(t)
}

pub(crate) fn is_empty(t: &Ty) -> bool
    ensures { result ≡ same_type nothing t.now }
{
    Ty::empty().same(t)
}
