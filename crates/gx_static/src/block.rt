// The static rule of blocks.

ghost use Rattle.std.specs.Prelude.{◌≡◌, IfOk, IfErr};
ghost use Rattle.gx_static.specs.Rule.{has_type, allows_clause, allows_key, product, clause_occurs, tuples_occur, returned_rule, block_rule};
ghost use Rattle.gx_static.specs.Refusal.{RefusesType};

use crate::comparison::are_of_one_family;
use crate::error::RuleError;
use crate::item_tests::{is_at_least_one, is_at_most_one, is_optional_in, no_type};
use crate::rules::{is_as_written, is_item_as_written};
use gx_base::code::Code;
use gx_base::type_name::Builtin;
use gx_core::operator::ClauseKind;
use gx_sorting::KeyOrder;
use gx_types::occurrence::Occurrence;
use gx_types::schemas::Schemas;
use gx_types::sequence_type::Ty;
use gx_types::type_rules::{occurrence, times};
use std::alloc::{AllocError, Global};

// The type of a block with these clauses and keys, from the types of its parts.
pub(crate) fn block_type(
    alloc: Global,
    schemas: &Schemas,
    clauses: &[ClauseKind],
    keys: &[KeyOrder],
    types: &[Ty],
) -> Result<Ty, RuleError>
    ensures typed { IfOk result (λ t. block_rule schemas.now clauses.now keys.now types.now ≡ has_type t) }
    ensures refused { IfErr result (λ e. RefusesType e (block_rule schemas.now clauses.now keys.now types.now)) }
{
    let tuples = tuples_occur(clauses, types);
    let mut rest = clauses;
    let mut left = types;
    let mut number: u32 = 0;
    while let Some((clause, others)) = rest.split_first() {
        let Some((part, behind)) = left.split_first() else {
            return Err(no_type(Code::XPTY0004));
        };
        if !allows_clause(alloc, schemas, clause, part)? {
            return Err(RuleError::NoType {
                code: Code::XPTY0004,
                part: Some(number),
            });
        }
        let Some(next) = number.checked_add(1) else {
            return Err(RuleError::Memory);
        };
        number = next;
        rest = others;
        left = behind;
    }
    returned_type(alloc, schemas, keys, tuples, left)
}

// The type of what is returned, as often as there are tuples, behind the types of the keys.
fn returned_type(
    alloc: Global,
    schemas: &Schemas,
    keys: &[KeyOrder],
    tuples: Occurrence,
    types: &[Ty],
) -> Result<Ty, RuleError>
    ensures typed { IfOk result (λ t. returned_rule (allows_key schemas.now) keys.now tuples types.now ≡ has_type t) }
    ensures refused { IfErr result (λ e. RefusesType e (returned_rule (allows_key schemas.now) keys.now tuples types.now)) }
{
    let mut rest = keys;
    let mut left = types;
    while let Some((_order, others)) = rest.split_first() {
        let Some((key, behind)) = left.split_first() else {
            return Err(no_type(Code::XPTY0004));
        };
        if !allows_key(schemas, key) {
            return Err(no_type(Code::XPTY0004));
        }
        rest = others;
        left = behind;
    }
    match left {
        [body] => {
            let body = body.clone()?;
            Ok(times(alloc, body, tuples)?)
        }
        _ => Err(no_type(Code::XPTY0004)),
    }
}

fn allows_clause(
    alloc: Global,
    schemas: &Schemas,
    clause: &ClauseKind,
    part: &Ty,
) -> Result<bool, AllocError>
    ensures { IfOk result (λ answer. answer ≡ allows_clause schemas.now clause.now part.now) }
{
    match clause {
        ClauseKind::For(binder, _) => is_item_as_written(alloc, schemas, binder, part),
        ClauseKind::Let(binder) => is_as_written(alloc, schemas, binder, part),
        ClauseKind::Where => {
            Ok(is_at_least_one(part) && is_optional_in(schemas, Builtin::Boolean, part))
        }
    }
}

fn allows_key(schemas: &Schemas, key: &Ty) -> bool
    ensures { result ≡ allows_key schemas.now key.now }
{
    is_at_most_one(key) && are_of_one_family(schemas, key, key)
}

// How often tuples occur.
fn tuples_occur(clauses: &[ClauseKind], types: &[Ty]) -> Occurrence
    ensures { result ≡ tuples_occur clauses.now types.now }
{
    let count = clauses.len().min(types.len());
    let mut tuples = Occurrence {
        least: 1,
        greatest: 1,
    };
    let mut left = count;
    while left > 0 {
        left -= 1;
        tuples = clause_occurs(&clauses[left], &types[left], tuples);
    }
    tuples
}

fn clause_occurs(clause: &ClauseKind, part: &Ty, behind: Occurrence) -> Occurrence
    ensures { result ≡ clause_occurs clause.now part.now behind }
{
    match clause {
        ClauseKind::For(_, _) => product(occurrence(part), behind),
        ClauseKind::Let(_) => behind,
        ClauseKind::Where => Occurrence {
            least: 0,
            greatest: behind.greatest,
        },
    }
}

fn product(o: Occurrence, p: Occurrence) -> Occurrence
    ensures { result ≡ product o p }
{
    Occurrence {
        least: o.least * p.least,
        greatest: (o.greatest * p.greatest).min(2),
    }
}
