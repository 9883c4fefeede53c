// The fields of operators that are no expressions.

ghost use Rattle.std.specs.Prelude.{◌≡◌, [], ◌∷◌, OnOk};
ghost use Rattle.gx_core.specs.declared.operator.Operator.TheVariants as operators;
ghost use Rattle.gx_core.specs.ExpressionView.{operator_of, parts_of, kind_of_clause};
ghost use Rattle.gx_typetext.specs.TypeText.{type_text};
ghost use Rattle.gx_plantext.specs.TermText.{number_text};
ghost use Rattle.gx_plantext.specs.OperatorFields.{clause_fields, constructed_fields, fields_before, fields_behind, order_fields, target_fields};
ghost use Rattle.gx_plantext.specs.PlanText.{join_fields, loop_fields};
ghost use Rattle.gx_plantext.specs.Printing.{AddsFields};

use crate::names::axis_name;
use crate::terms::Terms;
use gx_base::type_name::TypeName;
use gx_core::cases::TypeCase;
use gx_core::constructor::Constructor;
use gx_core::expression::{Clause, Form};
use gx_plan::plan::{Carried, PlanExpr};
use gx_sorting::KeyOrder;
use gx_types::step::{Axis, Test};
use std::alloc::AllocError;

// Adds what an operator has before its parts.
#[tactic(auto, using(crate::proofs::TermLemmas::nothing_added))]
pub(crate) fn add_before(terms: &mut Terms, form: &Form<Carried>) -> Result<(), AllocError>
    ensures { OnOk result (AddsFields terms.old (fields_before (operator_of form.now)) terms.new) }
{
    match form {
        Form::Var(number) => terms.number(*number),
        Form::For(binder, position, _, _) => add_two_numbers(terms, binder.variable, *position),
        Form::Let(binder, _, _) | Form::SomeIn(binder, _, _) | Form::EveryIn(binder, _, _) => {
            terms.number(binder.variable)
        }
        Form::Step(axis, test, number) => add_step(terms, *axis, test, *number),
        Form::Construct(constructor, _) => add_constructed_name(terms, constructor),
        Form::User(signature, _) => terms.name(&signature.name),
        _ => Ok(()),
    }
}

#[tactic(auto, using(crate::proofs::TermLemmas::field_and))]
fn add_two_numbers(terms: &mut Terms, first: u32, second: u32) -> Result<(), AllocError>
    ensures { OnOk result (AddsFields terms.old (number_text first ∷ number_text second ∷ []) terms.new) }
{
    terms.number(first)?;
    terms.number(second)
}

#[tactic(auto, using(crate::proofs::TermLemmas::field_and))]
fn add_step(terms: &mut Terms, axis: Axis, test: &Test, number: u32) -> Result<(), AllocError>
    ensures { OnOk result (AddsFields terms.old (fields_before (operators.Step axis test.now number)) terms.new) }
{
    terms.word(axis_name(axis))?;
    terms.node_test(test)?;
    terms.number(number)
}

#[tactic(auto, using(crate::proofs::TermLemmas::nothing_added))]
fn add_constructed_name(terms: &mut Terms, constructor: &Constructor) -> Result<(), AllocError>
    ensures { OnOk result (AddsFields terms.old (constructed_fields constructor.now) terms.new) }
{
    match constructor {
        Constructor::Element(name) | Constructor::Attribute(name) => terms.name(name),
        Constructor::Text | Constructor::Document => Ok(()),
    }
}

// Adds what an operator has behind its parts.
#[tactic(auto, using(crate::proofs::TermLemmas::nothing_added))]
pub(crate) fn add_behind(terms: &mut Terms, form: &Form<Carried>) -> Result<(), AllocError>
    ensures { OnOk result (AddsFields terms.old (fields_behind (operator_of form.now)) terms.new) }
{
    match form {
        Form::Cast(_, kind, optional) | Form::Castable(_, kind, optional) => {
            add_target(terms, kind, *optional)
        }
        Form::Treat(_, kind) => terms.sequence_type(kind),
        Form::Nth(_, number, _) => terms.signed_number(*number),
        _ => Ok(()),
    }
}

// Adds the type of a cast.
#[tactic(auto, using(crate::proofs::TermLemmas::field_and))]
fn add_target(terms: &mut Terms, kind: &TypeName, optional: bool) -> Result<(), AllocError>
    ensures { OnOk result (AddsFields terms.old (target_fields kind.now optional) terms.new) }
{
    terms.type_name(kind)?;
    terms.word(if optional { "opt" } else { "one" })
}

// Adds what a clause of a block has before its part.
#[tactic(auto, using(crate::proofs::TermLemmas::nothing_added))]
pub(crate) fn add_clause(terms: &mut Terms, clause: &Clause<Carried>) -> Result<(), AllocError>
    ensures { OnOk result (AddsFields terms.old (clause_fields (kind_of_clause clause.now)) terms.new) }
{
    match clause {
        Clause::For(binder, position, _) => add_two_numbers(terms, binder.variable, *position),
        Clause::Let(binder, _) => terms.number(binder.variable),
        Clause::Where(_) => Ok(()),
    }
}

// Adds the type and the variable of a case.
#[tactic(auto, using(crate::proofs::TermLemmas::field_and))]
pub(crate) fn add_case(terms: &mut Terms, case: &TypeCase) -> Result<(), AllocError>
    ensures { OnOk result (AddsFields terms.old (type_text case.now.kind ∷ number_text case.now.variable ∷ []) terms.new) }
{
    terms.sequence_type(&case.kind)?;
    terms.number(case.variable)
}

// Adds how a key of a block orders.
#[tactic(auto, using(crate::proofs::TermLemmas::field_and))]
pub(crate) fn add_order(terms: &mut Terms, order: KeyOrder) -> Result<(), AllocError>
    ensures { OnOk result (AddsFields terms.old (order_fields order) terms.new) }
{
    terms.word(if order.descending {
        "descending"
    } else {
        "ascending"
    })?;
    terms.word(if order.greatest { "greatest" } else { "least" })
}

// Adds the variables of a join.
#[tactic(auto, using(crate::proofs::TermLemmas::field_and, crate::proofs::TermLemmas::nothing_added))]
pub(crate) fn add_join_variables(terms: &mut Terms, form: &Form<Carried>) -> Result<(), AllocError>
    ensures { OnOk result (AddsFields terms.old (join_fields (operator_of form.now) (parts_of form.now)) terms.new) }
{
    match form {
        Form::For(binder, _, _, body) => {
            terms.number(binder.variable)?;
            add_loop_variable(terms, body)
        }
        _ => Ok(()),
    }
}

// Adds the variable of a loop.
#[tactic(auto, using(crate::proofs::TermLemmas::nothing_added))]
fn add_loop_variable(terms: &mut Terms, expression: &PlanExpr) -> Result<(), AllocError>
    ensures { OnOk result (AddsFields terms.old (loop_fields expression.now) terms.new) }
{
    match &expression.form {
        Form::For(binder, _, _, _) => terms.number(binder.variable),
        _ => Ok(()),
    }
}
