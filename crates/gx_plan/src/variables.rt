// The types that variables carry.

ghost use Rattle.std.specs.Prelude.{◌≡◌, ◌∷◌, ◌++◌, [], IfOk, OnOk};
ghost use Rattle.gx_base.specs.declared.type_name.Builtin.TheVariants.{Integer};
ghost use Rattle.gx_base.specs.declared.type_name.TypeName.TheVariants.{Builtin as BuiltinType};
ghost use Rattle.gx_types.specs.declared.item_type.ItemType.TheVariants.{Atom};
ghost use Rattle.gx_types.specs.Prime.{prime_of};
ghost use Rattle.gx_types.specs.SequenceType.{item};
ghost use Rattle.gx_core.specs.Bindings.{position_bound};
ghost use Rattle.gx_core.specs.QueryMeaning.{external_types, parameter_types};
ghost use Rattle.gx_plan.specs.Variables.{case_variables, with_variables_at, with_variables_in, with_variables_of_clauses, with_variables_declared, variables_of_query};

use crate::plan::{Carried, PlanClause, PlanDeclaration, PlanExpr};
use crate::walk::Walk;
use gx_base::type_name::{Builtin, TypeName};
use gx_core::cases::TypeCase;
use gx_core::expression::{Binder, Clause, Form, Query};
use gx_core::scope::Scope;
use gx_types::item_type::ItemType;
use gx_types::sequence_type::Ty;
use gx_types::type_rules::prime;
use std::alloc::{AllocError, Global};

// The types that the variables of a plan carry.
#[tactic(auto, using(crate::proofs::VariableLemmas::one_by_one))]
pub(crate) fn variables_of(alloc: Global, query: &Query<Carried>) -> Result<Scope<Ty>, AllocError>
    ensures { IfOk result (λ variables. variables ≡ variables_of_query query.now) }
{
    let mut variables = Scope::new(alloc);
    let mut left = query.declarations.as_slice();
    while let Some((declaration, others)) = left.split_first() {
        bind_declared(alloc, declaration, &mut variables)?;
        left = others;
    }
    bind_all(alloc, &query.body, &mut variables)?;
    Ok(variables)
}

fn bind_declared(
    alloc: Global,
    declaration: &PlanDeclaration,
    variables: &mut Scope<Ty>,
) -> Result<(), AllocError>
    ensures { OnOk result (variables.new ≡ with_variables_declared (declaration.now ∷ []) variables.old) }
{
    match declaration {
        PlanDeclaration::Global {
            binder,
            value: Some(value),
            ..
        } => {
            bind_all(alloc, value, variables)?;
            variables.bind(binder.variable, value.kind.kind.clone()?)
        }
        PlanDeclaration::Global {
            binder,
            value: None,
            ..
        } => bind_written(binder, variables),
        PlanDeclaration::Function(function) => {
            bind_parameters(function.parameters.as_slice(), variables)?;
            bind_all(alloc, &function.body, variables)
        }
    }
}

// Binds a variable to the type that is written at it.
fn bind_written(binder: &Binder, variables: &mut Scope<Ty>) -> Result<(), AllocError>
    ensures { OnOk result (variables.new ≡ external_types binder.now binder.now.kind ++ variables.old) }
{
    match &binder.kind {
        Some(kind) => variables.bind(binder.variable, kind.clone()?),
        None => Ok(()),
    }
}

#[tactic(auto, using(crate::proofs::VariableLemmas::last_parameter))]
fn bind_parameters(parameters: &[Binder], variables: &mut Scope<Ty>) -> Result<(), AllocError>
    ensures { OnOk result (variables.new ≡ parameter_types parameters.now ++ variables.old) }
{
    let mut left = parameters;
    while let Some((last, others)) = left.split_last() {
        let kind = match &last.kind {
            Some(kind) => kind.clone()?,
            None => Ty::none(),
        };
        variables.bind(last.variable, kind)?;
        left = others;
    }
    Ok(())
}

// Binds the variables of an expression and of all that stand in it. The walk ends long before the loop does.
#[tactic(auto, using(crate::proofs::VariableLemmas::met_next))]
fn bind_all(
    alloc: Global,
    expression: &PlanExpr,
    variables: &mut Scope<Ty>,
) -> Result<(), AllocError>
    ensures { OnOk result (variables.new ≡ with_variables_in expression.now variables.old) }
{
    let mut walk = Walk::new(alloc, expression)?;
    for _ in 0..u64::MAX {
        match walk.next()? {
            None => return Ok(()),
            Some(next) => bind_own(alloc, next, variables)?,
        }
    }
    Err(AllocError)
}

// Binds the variables that an operator binds for its parts.
#[tactic(auto, using(crate::proofs::VariableLemmas::of_a_block))]
fn bind_own(
    alloc: Global,
    expression: &PlanExpr,
    variables: &mut Scope<Ty>,
) -> Result<(), AllocError>
    ensures { OnOk result (variables.new ≡ with_variables_at expression.now variables.old) }
{
    match &expression.form {
        Form::For(binder, position, source, _) => {
            bind_position(alloc, *position, variables)?;
            bind_item(alloc, binder, &source.kind.kind, variables)
        }
        Form::SomeIn(binder, source, _) | Form::EveryIn(binder, source, _) => {
            bind_item(alloc, binder, &source.kind.kind, variables)
        }
        Form::Let(binder, value, _) => variables.bind(binder.variable, value.kind.kind.clone()?),
        Form::Switch(operand, cases, default, _) => {
            bind_optional(*default, &operand.kind.kind, variables)?;
            bind_cases(cases.as_slice(), variables)
        }
        Form::Block(clauses, _, _) => bind_clauses(alloc, clauses.as_slice(), variables),
        _ => Ok(()),
    }
}

// Binds a variable to the type of an item.
fn bind_item(
    alloc: Global,
    binder: &Binder,
    source: &Ty,
    variables: &mut Scope<Ty>,
) -> Result<(), AllocError>
    ensures { OnOk result (variables.new ≡ (binder.now.variable, prime_of source.now) ∷ variables.old) }
{
    variables.bind(binder.variable, prime(alloc, source)?)
}

// Binds the variable of a position, where there is one.
fn bind_position(alloc: Global, position: u32, variables: &mut Scope<Ty>) -> Result<(), AllocError>
    ensures { OnOk result (variables.new ≡ position_bound position (item (Atom (BuiltinType Integer))) ++ variables.old) }
{
    if position != 0 {
        let integer = Ty::of_item(alloc, ItemType::Atom(TypeName::Builtin(Builtin::Integer)))?;
        variables.bind(position, integer)?;
    }
    Ok(())
}

// Binds the variable of a case or of a default, where there is one.
fn bind_optional(variable: u32, kind: &Ty, variables: &mut Scope<Ty>) -> Result<(), AllocError>
    ensures { OnOk result (variables.new ≡ position_bound variable kind.now ++ variables.old) }
{
    if variable != 0 {
        variables.bind(variable, kind.clone()?)?;
    }
    Ok(())
}

#[tactic(auto, using(crate::proofs::VariableLemmas::last_case))]
fn bind_cases(cases: &[TypeCase], variables: &mut Scope<Ty>) -> Result<(), AllocError>
    ensures { OnOk result (variables.new ≡ case_variables cases.now variables.old) }
{
    let mut left = cases;
    while let Some((last, others)) = left.split_last() {
        bind_optional(last.variable, &last.kind, variables)?;
        left = others;
    }
    Ok(())
}

fn bind_clauses(
    alloc: Global,
    clauses: &[PlanClause],
    variables: &mut Scope<Ty>,
) -> Result<(), AllocError>
    ensures { OnOk result (variables.new ≡ with_variables_of_clauses clauses.now variables.old) }
{
    let mut left = clauses;
    while let Some((clause, others)) = left.split_first() {
        match clause {
            Clause::For(binder, position, source) => {
                bind_position(alloc, *position, variables)?;
                bind_item(alloc, binder, &source.kind.kind, variables)?;
            }
            Clause::Let(binder, value) => {
                variables.bind(binder.variable, value.kind.kind.clone()?)?
            }
            Clause::Where(_) => {}
        }
        left = others;
    }
    Ok(())
}
