// Loops over one item, and loops that are joins.

ghost use Rattle.std.specs.Prelude.{◌≡◌, ◌∷◌, [], ◌&&◌, IfOk};
ghost use Rattle.gx_core.specs.declared.operator.Operator.TheVariants as operators;
ghost use Rattle.gx_core.specs.Bindings.{Types};
ghost use Rattle.gx_core.specs.Expression.{At, two_parts};
ghost use Rattle.gx_plan.specs.Plan.{kind_carried};
ghost use Rattle.gx_rules.specs.Guards.{is_flat, is_own_role};
ghost use Rattle.gx_rules.specs.Rules.{first_position, made_let, occurs_once, with_position};
ghost use Rattle.gx_rewrite.specs.Rewriting.{rewritten_at};

use crate::joins::{is_join_loop, joined};
use crate::order::is_own;
use crate::parts::two;
use crate::rewrite::{Head, is_flat};
use gx_base::place::Place;
use gx_base::type_name::Builtin;
use gx_core::expression::{Binder, Form};
use gx_core::operator::Operator;
use gx_funcs::function::integer_atom;
use gx_plan::plan::{Carried, PlanExpr, PlanPart, Role};
use gx_rules::made::{made_as, occurs_once};
use gx_static::item_tests::{atomic, is_at_most_one};
use gx_types::schemas::Schemas;
use std::alloc::{AllocError, Global};

// The variables of a loop, its source and its body.
#[derive(Drop)]
pub(crate) struct LoopParts {
    pub(crate) binder: Binder,
    pub(crate) position: u32,
    pub(crate) source: PlanPart,
    pub(crate) body: PlanPart,
}

// A loop: a `let` where its source has one item, a join where its body is a loop over a comparison of keys, or as it is.
#[tactic(auto, using(crate::proofs::LoopLemmas::single_applies, crate::proofs::LoopLemmas::join_applies, crate::proofs::LoopLemmas::loop_stays))]
pub(crate) fn looped(
    alloc: Global,
    schemas: &Schemas,
    head: Head,
    parts: LoopParts,
    flat: &[bool],
) -> Result<(PlanExpr, bool), AllocError>
    requires { flat.now ≡ is_flat parts.source.value ∷ is_flat parts.body.value ∷ [] }
    ensures made { (variables : Types) → IfOk result (λ r. r.0 ≡ rewritten_at (record { schemas = schemas.now; variables = variables }) (At head.place head.outer head.carried (operators.For parts.binder parts.position) (two_parts parts.source.value parts.body.value))) }
    ensures flat { IfOk result (λ r. r.1 ≡ is_flat r.0) }
{
    let Head {
        place,
        outer,
        carried,
    } = head;
    if is_single(carried.role, &parts.source) {
        drop(carried);
        return single(alloc, schemas, place, parts, flat[1]);
    }
    let LoopParts {
        binder,
        position,
        source,
        body,
    } = parts;
    if is_join_loop(
        alloc,
        schemas,
        carried.role,
        binder.variable,
        position,
        &body,
    )? {
        drop(carried);
        return joined(alloc, schemas, place, binder, source, Box::into_inner(body));
    }
    let kept = PlanExpr {
        place,
        outer,
        kind: carried,
        form: Form::For(binder, position, source, body),
    };
    let is_flat = is_flat(&kept, flat);
    Ok((kept, is_flat))
}

// Whether a loop in this role goes over one item.
fn is_single(role: Role, source: &PlanExpr) -> bool
    ensures { result ≡ is_own_role role && occurs_once (kind_carried source.now) }
{
    is_own(role) && occurs_once(&source.kind.kind)
}

// A loop over one item as a `let`.
fn single(
    alloc: Global,
    schemas: &Schemas,
    place: Place,
    parts: LoopParts,
    flat: bool,
) -> Result<(PlanExpr, bool), AllocError>
    requires { flat ≡ is_flat parts.body.value }
    ensures made { IfOk result (λ r. r.0 ≡ made_let schemas.now place parts.binder parts.source.value (with_position schemas.now place parts.position parts.body.value)) }
    ensures flat { IfOk result (λ r. r.1 ≡ is_flat r.0) }
{
    let LoopParts {
        binder,
        position,
        source,
        body,
    } = parts;
    let (body, flat) = with_position(alloc, schemas, place, position, body, flat)?;
    let parts = two(alloc, Box::into_inner(source), body)?;
    let made = made_as(
        alloc,
        schemas,
        Role::Own,
        place,
        Operator::Let(binder),
        parts,
    )?;
    let is_flat = is_at_most_one(&made.kind.kind) || flat;
    Ok((made, is_flat))
}

// The body of a loop over one item, with the position of the item.
fn with_position(
    alloc: Global,
    schemas: &Schemas,
    place: Place,
    position: u32,
    body: PlanPart,
    flat: bool,
) -> Result<(PlanExpr, bool), AllocError>
    requires { flat ≡ is_flat body.value }
    ensures made { IfOk result (λ r. r.0 ≡ with_position schemas.now place position body.value) }
    ensures flat { IfOk result (λ r. r.1 ≡ is_flat r.0) }
{
    if position == 0 {
        return Ok((Box::into_inner(body), flat));
    }
    let first = first_position(alloc, place)?;
    let parts = two(alloc, first, Box::into_inner(body))?;
    let binder = Binder {
        variable: position,
        place,
        kind: None,
    };
    let made = made_as(
        alloc,
        schemas,
        Role::Own,
        place,
        Operator::Let(binder),
        parts,
    )?;
    let is_flat = is_at_most_one(&made.kind.kind) || flat;
    Ok((made, is_flat))
}

// The position of the one item of a loop.
fn first_position(alloc: Global, place: Place) -> Result<PlanExpr, AllocError>
    ensures { IfOk result (λ e. e ≡ first_position place) }
{
    let kind = atomic(alloc, Builtin::Integer)?;
    Ok(PlanExpr {
        place,
        outer: place,
        kind: Carried {
            kind,
            role: Role::Own,
        },
        form: Form::Lit(integer_atom(1)),
    })
}
