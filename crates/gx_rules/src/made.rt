// Operators that a rule makes.

ghost use Rattle.std.specs.Prelude.{◌≡◌, length, map, IfOk, OnOk};
ghost use Rattle.gx_types.specs.SequenceType.{star as any_number};
ghost use Rattle.gx_types.specs.Occurrence.{occurrence_of};
ghost use Rattle.gx_core.specs.Expression.{all_parts};
ghost use Rattle.gx_core.specs.Bindings.{look_up};
ghost use Rattle.gx_static.specs.Rule.{arity};
ghost use Rattle.gx_plan.specs.Operands.{HasPlaceFor};
ghost use Rattle.gx_plan.specs.Plan.{kind_carried};
ghost use Rattle.gx_steptype.specs.StepType.{any_item};
ghost use Rattle.gx_rules.specs.Rules.{made_as, made_kind, made_step, step_kinds, occurs_once, IsStepOperator};

use gx_base::place::Place;
use gx_core::operator::Operator;
use gx_core::scope::Scope;
use gx_plan::operands::form_of;
use gx_plan::plan::{Carried, PlanExpr, Role};
use gx_static::error::RuleError;
use gx_static::rules::operator_type;
use gx_steptype::axis_type::item_type;
use gx_types::schemas::Schemas;
use gx_types::sequence_type::Ty;
use gx_types::step::{Axis, Test};
use gx_types::type_rules::{occurrence, star};
use std::alloc::{AllocError, Global};

/// An operator over its parts, which carries the type that its static rule gives for the types that they carry, or that of any items
/// where the rule gives none (XQuery 1.0 and XPath 2.0 Formal Semantics, section 4).
#[tactic(auto, using(crate::proofs::Making::kinds_of_all))]
pub fn made_as(
    alloc: Global,
    schemas: &Schemas,
    role: Role,
    place: Place,
    operator: Operator,
    parts: Vec<PlanExpr>,
) -> Result<PlanExpr, AllocError>
    requires place { HasPlaceFor operator (length parts.items) }
    requires arity { length parts.items ≡ arity operator }
    ensures { IfOk result (λ e. e ≡ made_as role schemas.now place operator (all_parts parts.items)) }
{
    let Ok(kind) = kind_over(alloc, schemas, &operator, parts.as_slice()) else {
        drop(operator);
        return Err(AllocError);
    };
    match form_of(alloc, operator, parts) {
        Ok(form) => Ok(PlanExpr {
            place,
            outer: place,
            kind: Carried { kind, role },
            form,
        }),
        Err(error) => {
            drop(kind);
            Err(error)
        }
    }
}

// The type that an operator that is made carries over parts.
fn kind_over(
    alloc: Global,
    schemas: &Schemas,
    operator: &Operator,
    parts: &[PlanExpr],
) -> Result<Ty, AllocError>
    requires { length parts.now ≡ arity operator.now }
    ensures { IfOk result (λ t. t ≡ made_kind schemas.now operator.now (map kind_carried parts.now)) }
{
    let mut kinds = Vec::new(alloc);
    for part in parts {
        kinds.push(part.kind.kind.clone()?)?;
    }
    made_kind(alloc, schemas, operator, &kinds)
}

fn made_kind(
    alloc: Global,
    schemas: &Schemas,
    operator: &Operator,
    kinds: &[Ty],
) -> Result<Ty, AllocError>
    requires { length kinds.now ≡ arity operator.now }
    ensures { IfOk result (λ t. t ≡ made_kind schemas.now operator.now kinds.now) }
{
    match operator_type(alloc, schemas, operator, kinds) {
        Ok(kind) => Ok(kind),
        Err(RuleError::NoType { .. }) => any_items(alloc),
        Err(RuleError::Memory) => Err(AllocError),
    }
}

// The type of any items.
fn any_items(alloc: Global) -> Result<Ty, AllocError>
    ensures { IfOk result (λ t. t ≡ any_number any_item) }
{
    let item = item_type(alloc)?;
    star(alloc, &item)
}

/// A step to the descendants of the node of a variable that pass a test (XQuery 1.0, section 3.2.1).
pub fn made_step(
    alloc: Global,
    schemas: &Schemas,
    variables: &Scope<Ty>,
    place: Place,
    test: Test,
    variable: u32,
) -> Result<PlanExpr, AllocError>
    ensures { IfOk result (λ e. e ≡ made_step (record { schemas = schemas.now; variables = variables.now }) place test variable) }
{
    let operator = Operator::Step(Axis::Descendant, test, variable);
    let Ok(kind) = kind_of_step(alloc, schemas, variables, &operator, variable) else {
        drop(operator);
        return Err(AllocError);
    };
    match form_of(alloc, operator, Vec::new(alloc)) {
        Ok(form) => Ok(PlanExpr {
            place,
            outer: place,
            kind: Carried {
                kind,
                role: Role::Own,
            },
            form,
        }),
        Err(error) => {
            drop(kind);
            Err(error)
        }
    }
}

// The type of a step from the node of a variable.
#[tactic(auto, using(crate::proofs::Making::steps_have_a_variable, crate::proofs::Making::steps_have_one_part))]
fn kind_of_step(
    alloc: Global,
    schemas: &Schemas,
    variables: &Scope<Ty>,
    operator: &Operator,
    variable: u32,
) -> Result<Ty, AllocError>
    requires { IsStepOperator operator.now }
    ensures { IfOk result (λ t. t ≡ made_kind schemas.now operator.now (step_kinds (look_up variables.now variable))) }
{
    match variables.find(variable) {
        Some(kind) => {
            let mut kinds = Vec::new(alloc);
            kinds.push(kind.clone()?)?;
            made_kind(alloc, schemas, operator, &kinds)
        }
        None => any_items(alloc),
    }
}

/// Whether the values of a type have exactly one item.
pub fn occurs_once(t: &Ty) -> bool
    ensures { result ≡ occurs_once t.now }
{
    let occurs = occurrence(t);
    occurs.least == 1 && occurs.greatest == 1
}
