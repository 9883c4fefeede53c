// The text of a plan.

ghost use Rattle.std.specs.Prelude.{◌≡◌, ◌∷◌, ◌++◌, map, true, IfOk, OnOk};
ghost use Rattle.std.specs.List.{flat_map};
ghost use Rattle.gx_typetext.specs.NameText.{name_text};
ghost use Rattle.gx_plantext.specs.PlanText.{declaration_text, function_text, global_text, parameter_text, plan_text};
ghost use Rattle.gx_plantext.specs.Printing.{AddsFields};

use crate::pending::add_expression;
use crate::terms::Terms;
use gx_base::text::Text;
use gx_core::expression::{Binder, Declaration, DeclaredFunction};
use gx_plan::plan::{Carried, Plan, PlanDeclaration, PlanExpr};
use std::alloc::{AllocError, Global};

/// The text of a plan: its declarations but for external variables, each with `; ` behind it, and its body. An operator is a term, its
/// name with its fields in parentheses. Fields are the parts, written likewise, numbers of variables, names, types and node tests; a
/// literal stands alone, a string in quotation marks. Places and types that are written behind `as` are left out.
pub fn print_plan(alloc: Global, plan: &Plan) -> Result<Text, AllocError>
    ensures { IfOk result (λ text. text ≡ plan_text plan.now) }
{
    let mut terms = Terms::new(alloc);
    add_declarations(alloc, &mut terms, plan.query.declarations.as_slice())?;
    add_expression(alloc, &mut terms, &plan.query.body)?;
    terms.finish()
}

fn add_declarations(
    alloc: Global,
    terms: &mut Terms,
    declarations: &[PlanDeclaration],
) -> Result<(), AllocError>
    requires { terms.old.is_first ≡ true }
    ensures text { OnOk result (terms.new.text ≡ terms.old.text ++ flat_map declaration_text declarations.now) }
    ensures first { OnOk result (terms.new.is_first ≡ true) }
{
    let mut rest = declarations;
    while let Some((declaration, others)) = rest.split_first() {
        add_declaration(alloc, terms, declaration)?;
        rest = others;
    }
    Ok(())
}

fn add_declaration(
    alloc: Global,
    terms: &mut Terms,
    declaration: &PlanDeclaration,
) -> Result<(), AllocError>
    requires { terms.old.is_first ≡ true }
    ensures text { OnOk result (terms.new.text ≡ terms.old.text ++ declaration_text declaration.now) }
    ensures first { OnOk result (terms.new.is_first ≡ true) }
{
    match declaration {
        Declaration::Global { value: None, .. } => Ok(()),
        Declaration::Global {
            binder,
            value: Some(value),
            ..
        } => add_global(alloc, terms, binder, value),
        Declaration::Function(function) => add_function(alloc, terms, function),
    }
}

#[tactic(auto, using(crate::proofs::TermLemmas::term_declared))]
fn add_global(
    alloc: Global,
    terms: &mut Terms,
    binder: &Binder,
    value: &PlanExpr,
) -> Result<(), AllocError>
    requires { terms.old.is_first ≡ true }
    ensures text { OnOk result (terms.new.text ≡ terms.old.text ++ global_text binder.now value.now) }
    ensures first { OnOk result (terms.new.is_first ≡ true) }
{
    terms.open("global")?;
    terms.number(binder.variable)?;
    add_expression(alloc, terms, value)?;
    terms.end_declaration()
}

#[tactic(auto, using(crate::proofs::TermLemmas::term_declared))]
fn add_function(
    alloc: Global,
    terms: &mut Terms,
    function: &DeclaredFunction<Carried>,
) -> Result<(), AllocError>
    requires { terms.old.is_first ≡ true }
    ensures text { OnOk result (terms.new.text ≡ terms.old.text ++ function_text function.now) }
    ensures first { OnOk result (terms.new.is_first ≡ true) }
{
    terms.open("function")?;
    add_signature(terms, function)?;
    add_expression(alloc, terms, &function.body)?;
    terms.end_declaration()
}

// Adds the name of a function and the numbers of its parameters.
#[tactic(auto, using(crate::proofs::TermLemmas::field_and))]
fn add_signature(terms: &mut Terms, function: &DeclaredFunction<Carried>) -> Result<(), AllocError>
    ensures { OnOk result (AddsFields terms.old (name_text function.now.name ∷ map parameter_text function.now.parameters) terms.new) }
{
    terms.name(&function.name)?;
    add_parameters(terms, function.parameters.as_slice())
}

#[tactic(auto, using(crate::proofs::TermLemmas::text_left, crate::proofs::TermLemmas::first_left))]
fn add_parameters(terms: &mut Terms, parameters: &[Binder]) -> Result<(), AllocError>
    ensures { OnOk result (AddsFields terms.old (map parameter_text parameters.now) terms.new) }
{
    let mut rest = parameters;
    while let Some((parameter, others)) = rest.split_first() {
        terms.number(parameter.variable)?;
        rest = others;
    }
    Ok(())
}
