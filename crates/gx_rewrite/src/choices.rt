// Switches that are decided, and operators that change nothing.

ghost use Rattle.std.specs.Prelude.{◌≡◌, ◌∷◌, ◌≤◌, drop, length, map, IfOk};
ghost use Rattle.gx_core.specs.declared.operator.Operator.TheVariants as operators;
ghost use Rattle.gx_core.specs.Bindings.{Types};
ghost use Rattle.gx_core.specs.Expression.{At, a_part, all_parts, one_part};
ghost use Rattle.gx_plan.specs.Plan.{kind_carried};
ghost use Rattle.gx_rules.specs.Guards.{is_flat};
ghost use Rattle.gx_rules.specs.Rules.{any_atomic_values, plain_binder, made_let};
ghost use Rattle.gx_rewrite.specs.Rewriting.{rewritten_at};
ghost use Rattle.gx_rewrite.specs.Shapes.{is_decided, chosen_variable, is_idle_call};

use crate::parts::two;
use crate::rewrite::{Head, is_flat};
use gx_base::place::Place;
use gx_base::type_name::{Builtin, TypeName};
use gx_core::cases::{Cases, TypeCase};
use gx_core::expression::{Binder, Form};
use gx_core::operator::Operator;
use gx_funcs::function::Function;
use gx_include::decision::is_included;
use gx_plan::plan::{Carried, PlanExpr, PlanPart, Role};
use gx_rules::made::made_as;
use gx_static::item_tests::{atomic, is_at_most_one};
use gx_types::item_type::ItemType;
use gx_types::schemas::Schemas;
use gx_types::sequence_type::Ty;
use gx_types::type_rules::star;
use std::alloc::{AllocError, Global};

// The operand of a switch, its cases, the variable of the default, and its branches.
#[derive(Drop)]
pub(crate) struct SwitchParts {
    pub(crate) operand: PlanPart,
    pub(crate) cases: Cases,
    pub(crate) default: u32,
    pub(crate) branches: Vec<PlanExpr>,
}

// A switch: a `let` where its first branch is chosen for certain, or as it is.
#[tactic(auto, using(crate::proofs::ChoiceLemmas::decided_applies, crate::proofs::ChoiceLemmas::switch_stays, crate::proofs::ChoiceLemmas::facts_of_branches))]
pub(crate) fn switched(
    alloc: Global,
    schemas: &Schemas,
    head: Head,
    parts: SwitchParts,
    flat: &[bool],
) -> Result<(PlanExpr, bool), AllocError>
    requires { flat.now ≡ is_flat parts.operand.value ∷ map is_flat parts.branches.items }
    ensures made { (variables : Types) → IfOk result (λ r. r.0 ≡ rewritten_at (record { schemas = schemas.now; variables = variables }) (At head.place head.outer head.carried (operators.Switch parts.cases parts.default) (a_part parts.operand.value (all_parts parts.branches.items)))) }
    ensures flat { IfOk result (λ r. r.1 ≡ is_flat r.0) }
{
    let Head {
        place,
        outer,
        carried,
    } = head;
    let SwitchParts {
        operand,
        cases,
        default,
        branches,
    } = parts;
    if is_decided(
        alloc,
        schemas,
        &operand,
        cases.as_slice(),
        branches.as_slice(),
    )? {
        drop(carried);
        let variable = chosen_variable(cases.as_slice(), default);
        drop(cases);
        return chosen(
            alloc,
            schemas,
            place,
            variable,
            operand,
            first_of(branches),
            flat[1],
        );
    }
    let kept = PlanExpr {
        place,
        outer,
        kind: carried,
        form: Form::Switch(operand, cases, default, branches),
    };
    let is_flat = is_flat(&kept, flat);
    Ok((kept, is_flat))
}

// Whether the first of some branches is chosen for certain.
fn is_decided(
    alloc: Global,
    schemas: &Schemas,
    operand: &PlanExpr,
    cases: &[TypeCase],
    branches: &[PlanExpr],
) -> Result<bool, AllocError>
    ensures { IfOk result (λ answer. answer ≡ is_decided schemas.now (kind_carried operand.now) cases.now branches.now) }
{
    match (cases, branches) {
        ([], [_]) => Ok(true),
        ([case, ..], [_, ..]) => is_included(alloc, schemas, &operand.kind.kind, &case.kind),
        _ => Ok(false),
    }
}

// The variable of the first branch.
fn chosen_variable(cases: &[TypeCase], default: u32) -> u32
    ensures { result ≡ chosen_variable cases.now default }
{
    match cases.first() {
        Some(case) => case.variable,
        None => default,
    }
}

// The first branch, with its variable bound to the operand.
fn chosen(
    alloc: Global,
    schemas: &Schemas,
    place: Place,
    variable: u32,
    operand: PlanPart,
    branch: PlanExpr,
    flat: bool,
) -> Result<(PlanExpr, bool), AllocError>
    requires { flat ≡ is_flat branch }
    ensures made { IfOk result (λ r. r.0 ≡ made_let schemas.now place (plain_binder variable place) operand.value branch) }
    ensures flat { IfOk result (λ r. r.1 ≡ is_flat r.0) }
{
    let binder = Binder {
        variable,
        place,
        kind: None,
    };
    let parts = two(alloc, Box::into_inner(operand), branch)?;
    let made = made_as(
        alloc,
        schemas,
        Role::Own,
        place,
        Operator::Let(binder),
        parts,
    )?;
    let is_flat = is_at_most_one(&made.kind.kind) || flat;
    Ok((made, is_flat))
}

// A call: its argument where that is a boolean whose effective boolean value is asked for, or as it is.
#[tactic(auto, using(crate::proofs::ChoiceLemmas::idle_call_goes, crate::proofs::ChoiceLemmas::call_stays, crate::proofs::ChoiceLemmas::facts_of_arguments))]
pub(crate) fn called(
    alloc: Global,
    schemas: &Schemas,
    head: Head,
    function: Function,
    arguments: Vec<PlanExpr>,
    flat: &[bool],
) -> Result<(PlanExpr, bool), AllocError>
    requires { flat.now ≡ map is_flat arguments.items }
    ensures made { (variables : Types) → IfOk result (λ r. r.0 ≡ rewritten_at (record { schemas = schemas.now; variables = variables }) (At head.place head.outer head.carried (operators.Call function) (all_parts arguments.items))) }
    ensures flat { IfOk result (λ r. r.1 ≡ is_flat r.0) }
{
    let Head {
        place,
        outer,
        carried,
    } = head;
    if is_idle_call(alloc, schemas, function, arguments.as_slice())? {
        drop(carried);
        return Ok((first_of(arguments), flat[0]));
    }
    let kept = PlanExpr {
        place,
        outer,
        kind: carried,
        form: Form::Call(function, arguments),
    };
    let is_flat = is_flat(&kept, flat);
    Ok((kept, is_flat))
}

// Whether a call asks for the effective boolean value of a boolean.
fn is_idle_call(
    alloc: Global,
    schemas: &Schemas,
    function: Function,
    arguments: &[PlanExpr],
) -> Result<bool, AllocError>
    ensures { IfOk result (λ answer. answer ≡ is_idle_call schemas.now function arguments.now) }
{
    match (function, arguments) {
        (Function::Boolean, [argument]) => {
            let boolean = atomic(alloc, Builtin::Boolean)?;
            is_included(alloc, schemas, &argument.kind.kind, &boolean)
        }
        _ => Ok(false),
    }
}

// Typed values: the operand where it is atomic values already, or as they are.
#[tactic(auto, using(crate::proofs::ChoiceLemmas::idle_data_goes, crate::proofs::ChoiceLemmas::data_stays))]
pub(crate) fn atomized(
    alloc: Global,
    schemas: &Schemas,
    head: Head,
    operand: PlanPart,
    flat: bool,
) -> Result<(PlanExpr, bool), AllocError>
    requires { flat ≡ is_flat operand.value }
    ensures made { (variables : Types) → IfOk result (λ r. r.0 ≡ rewritten_at (record { schemas = schemas.now; variables = variables }) (At head.place head.outer head.carried operators.DataOf (one_part operand.value))) }
    ensures flat { IfOk result (λ r. r.1 ≡ is_flat r.0) }
{
    let Head {
        place,
        outer,
        carried,
    } = head;
    let values = any_atomic_values(alloc)?;
    if is_included(alloc, schemas, &operand.kind.kind, &values)? {
        drop(carried);
        return Ok((Box::into_inner(operand), flat));
    }
    let is_flat = is_at_most_one(&carried.kind);
    Ok((
        PlanExpr {
            place,
            outer,
            kind: carried,
            form: Form::DataOf(operand),
        },
        is_flat,
    ))
}

// The type of any atomic values.
fn any_atomic_values(alloc: Global) -> Result<Ty, AllocError>
    ensures { IfOk result (λ t. t ≡ any_atomic_values) }
{
    let value = Ty::of_item(alloc, ItemType::Atom(TypeName::Builtin(Builtin::AnyAtomic)))?;
    star(alloc, &value)
}

// The first of some expressions.
fn first_of(expressions: Vec<PlanExpr>) -> PlanExpr
    requires { 1 ≤ length expressions.items }
    ensures { expressions.items ≡ result ∷ drop 1 expressions.items }
{
    let mut expressions = expressions;
    expressions.remove(0)
}
