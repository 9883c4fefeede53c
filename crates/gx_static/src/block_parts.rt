// Blocks over their parts: their forms, their types, and the places of their codes.

ghost use Rattle.std.specs.Prelude.{◌≡◌, ◌+◌, ◌∷◌, [], length, map, IfOk, IfErr};
ghost use Rattle.gx_core.specs.Expression.{annotation_of, outer_of, all_parts};
ghost use Rattle.gx_core.specs.ExpressionView.{kind_of_clause, order_of_key, operator_of, part_of_clause, parts_of, parts_of_block};
ghost use Rattle.gx_core.specs.declared.operator.Operator.TheVariants as operators;
ghost use Rattle.gx_static.specs.Judgement.{clause_places, code_place};
ghost use Rattle.gx_static.specs.Rule.{block_rule, has_type};
ghost use Rattle.gx_static.specs.Refusal.{RefusesType};

use crate::block::block_type;
use crate::error::RuleError;
use gx_base::place::Place;
use gx_core::expression::{Binder, Form, SortKey, TypedClause, TypedExpr, TypedKey};
use gx_core::operator::ClauseKind;
use gx_sorting::KeyOrder;
use gx_types::schemas::Schemas;
use gx_types::sequence_type::Ty;
use std::alloc::{AllocError, Global};

// A block over its parts.
pub(crate) fn block_form(
    alloc: Global,
    mut kinds: Vec<ClauseKind>,
    mut orders: Vec<KeyOrder>,
    mut parts: Vec<TypedExpr>,
) -> Result<Form<Ty>, AllocError>
    requires { length parts.items ≡ length kinds.items + length orders.items + 1 }
    ensures operator { IfOk result (λ form. operator_of form ≡ operators.Block kinds.items orders.items) }
    ensures parts { IfOk result (λ form. parts_of form ≡ all_parts parts.items) }
{
    let Some(body) = parts.pop() else {
        unreachable!()
    };
    let body = Box::new(alloc, body)?;
    let mut keys = Vec::new(alloc);
    while let Some(order) = orders.pop() {
        let Some(value) = parts.pop() else {
            unreachable!()
        };
        keys.push(SortKey { value, order })?;
    }
    keys.reverse();
    let mut clauses = Vec::new(alloc);
    while let Some(kind) = kinds.pop() {
        let Some(part) = parts.pop() else {
            unreachable!()
        };
        clauses.push(clause(kind, part))?;
    }
    clauses.reverse();
    Ok(Form::Block(clauses, keys, body))
}

// A clause over its part.
fn clause(kind: ClauseKind, part: TypedExpr) -> TypedClause
    ensures kind { kind_of_clause result ≡ kind }
    ensures part { part_of_clause result ≡ part }
{
    match kind {
        ClauseKind::For(binder, position) => TypedClause::For(binder, position, part),
        ClauseKind::Let(binder) => TypedClause::Let(binder, part),
        ClauseKind::Where => TypedClause::Where(part),
    }
}

// The type of a block.
pub(crate) fn block_form_type(
    alloc: Global,
    schemas: &Schemas,
    clauses: &[TypedClause],
    keys: &[TypedKey],
    body: &TypedExpr,
) -> Result<Ty, RuleError>
    ensures typed { IfOk result (λ t. block_rule schemas.now (map kind_of_clause clauses.now) (map order_of_key keys.now) (map annotation_of (parts_of_block clauses.now keys.now body.now)) ≡ has_type t) }
    ensures refused { IfErr result (λ e. RefusesType e (block_rule schemas.now (map kind_of_clause clauses.now) (map order_of_key keys.now) (map annotation_of (parts_of_block clauses.now keys.now body.now)))) }
{
    let mut kinds = Vec::new(alloc);
    let mut types = Vec::new(alloc);
    for clause in clauses {
        kinds.push(kind_of(clause)?)?;
        types.push(part_of(clause).kind.clone()?)?;
    }
    let mut orders = Vec::new(alloc);
    for key in keys {
        orders.push(key.order)?;
        types.push(key.value.kind.clone()?)?;
    }
    types.push(body.kind.clone()?)?;
    block_type(alloc, schemas, &kinds, &orders, &types)
}

// What a clause has beside its part.
fn kind_of(clause: &TypedClause) -> Result<ClauseKind, AllocError>
    ensures { IfOk result (λ kind. kind ≡ kind_of_clause clause.now) }
{
    match clause {
        TypedClause::For(binder, position, _) => Ok(ClauseKind::For(copy(binder)?, *position)),
        TypedClause::Let(binder, _) => Ok(ClauseKind::Let(copy(binder)?)),
        TypedClause::Where(_) => Ok(ClauseKind::Where),
    }
}

fn copy(binder: &Binder) -> Result<Binder, AllocError>
    ensures { IfOk result (λ copied. copied ≡ binder.now) }
{
    let kind = match &binder.kind {
        Some(kind) => Some(kind.clone()?),
        None => None,
    };
    Ok(Binder {
        variable: binder.variable,
        place: binder.place,
        kind,
    })
}

fn part_of(clause: &TypedClause) -> &TypedExpr
    ensures { result.now ≡ part_of_clause clause.now }
{
    match clause {
        TypedClause::For(_, _, part) | TypedClause::Let(_, part) | TypedClause::Where(part) => part,
    }
}

// Where the code of a block stands: at a clause, at another part, or at the block itself.
pub(crate) fn block_place(
    place: Place,
    clauses: &[TypedClause],
    keys: &[TypedKey],
    body: &TypedExpr,
    part: Option<u32>,
) -> Place
    ensures { result ≡ code_place place (clause_places (map kind_of_clause clauses.now) (map outer_of (parts_of_block clauses.now keys.now body.now))) part }
{
    let Some(number) = part else {
        return place;
    };
    let number = number as usize;
    if let Some(clause) = clauses.get(number) {
        return clause_place(clause);
    }
    let behind = number - clauses.len();
    match keys.get(behind) {
        Some(key) => key.value.outer,
        None if behind == keys.len() => body.outer,
        None => place,
    }
}

fn clause_place(clause: &TypedClause) -> Place
    ensures { clause_places (kind_of_clause clause.now ∷ []) (outer_of (part_of_clause clause.now) ∷ []) ≡ result ∷ [] }
{
    match clause {
        TypedClause::For(binder, _, _) | TypedClause::Let(binder, _) => binder.place,
        TypedClause::Where(part) => part.outer,
    }
}
