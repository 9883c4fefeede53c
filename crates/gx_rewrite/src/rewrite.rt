// Plans rewritten from below.

ghost use Rattle.std.specs.Prelude.{◌≡◌, IfOk};
ghost use Rattle.gx_core.specs.ExpressionView.{operator_of};
ghost use Rattle.gx_plan.specs.Remaking.{frame_made, IsReady};
ghost use Rattle.gx_rules.specs.Guards.{is_flat};
ghost use Rattle.gx_rules.specs.Normal.{IsRewritten, setting_of};
ghost use Rattle.gx_rewrite.specs.Rewriting.{rewritten_at, rewritten_operator};
ghost use Rattle.gx_rewrite.specs.Shapes.{some_rule_asks_for, parts_flat};

use crate::choices::{SwitchParts, atomized, called, switched};
use crate::loops::{LoopParts, looped};
use crate::order::ordered;
use gx_base::place::Place;
use gx_core::expression::Form;
use gx_core::scope::Scope;
use gx_plan::operands::form_of;
use gx_plan::plan::{Carried, Plan, PlanExpr};
use gx_plan::remake::{Frame, Remake, remake_query};
use gx_rules::flat::is_flat_over;
use gx_static::item_tests::is_at_most_one;
use gx_types::schemas::Schemas;
use gx_types::sequence_type::Ty;
use std::alloc::{AllocError, Global};

/// A plan to which no rule applies, and to which finitely many applications of the rules lead from the plan given. Its variables carry
/// the types that they carried.
#[tactic(auto, using(crate::proofs::Rewritten::query_is_rewritten))]
pub fn rewrite(alloc: Global, schemas: &Schemas, plan: Plan) -> Result<Plan, AllocError>
    ensures rewritten { IfOk result (λ other. IsRewritten (setting_of schemas.now plan) plan.query other.query) }
    ensures variables { IfOk result (λ other. other.variables ≡ plan.variables) }
{
    let Plan { query, variables } = plan;
    let rewriter = Rewriter {
        schemas,
        variables: &variables,
    };
    let query = remake_query(alloc, &rewriter, query)?;
    Ok(Plan { query, variables })
}

// What the rules look at.
#[derive(Drop)]
pub(crate) struct Rewriter<'a> {
    pub(crate) schemas: &'a Schemas,
    pub(crate) variables: &'a Scope<Ty>,
}

// Where an operator stands, and what it carries.
#[derive(Drop)]
pub(crate) struct Head {
    pub(crate) place: Place,
    pub(crate) outer: Place,
    pub(crate) carried: Carried,
}

impl<'a> Remake<Carried, Carried, bool> for Rewriter<'a> {
    ghost make = { λ rewriter. rewritten_operator (record { schemas = rewriter.schemas.now; variables = rewriter.variables.now }) };

    ghost facts = { λ rewriter e. is_flat e };

    #[tactic(auto, using(crate::proofs::Forms::facts_of_parts))]
    fn remake(
        &self,
        alloc: Global,
        frame: Frame<Carried, Carried, bool>,
    ) -> Result<(PlanExpr, bool), AllocError>
        requires { IsReady is_flat frame }
        ensures made { IfOk result (λ r. r.0 ≡ frame_made (rewritten_operator (record { schemas = self.now.schemas.now; variables = self.now.variables.now })) frame) }
        ensures facts { IfOk result (λ r. r.1 ≡ is_flat r.0) }
    {
        let Frame {
            place,
            outer,
            carried,
            operator,
            parts,
            facts,
            ..
        } = frame;
        match form_of(alloc, operator, parts) {
            Ok(form) => {
                let expression = PlanExpr {
                    place,
                    outer,
                    kind: carried,
                    form,
                };
                rewritten(alloc, self, expression, facts.as_slice())
            }
            Err(error) => {
                drop(carried);
                Err(error)
            }
        }
    }
}

// An expression whose parts are rewritten, rewritten itself, and whether it is flat.
#[tactic(auto, using(crate::proofs::Forms::others_stay, crate::proofs::ChoiceLemmas::facts_of_branches, crate::proofs::ChoiceLemmas::facts_of_arguments))]
fn rewritten(
    alloc: Global,
    rewriter: &Rewriter<'_>,
    expression: PlanExpr,
    flat: &[bool],
) -> Result<(PlanExpr, bool), AllocError>
    requires { flat.now ≡ parts_flat expression }
    ensures made { IfOk result (λ r. r.0 ≡ rewritten_at (record { schemas = rewriter.now.schemas.now; variables = rewriter.now.variables.now }) expression) }
    ensures flat { IfOk result (λ r. r.1 ≡ is_flat r.0) }
{
    if !some_rule_asks_for(&expression.form) {
        let is_flat = is_flat(&expression, flat);
        return Ok((expression, is_flat));
    }
    let (place, outer, carried, form) = expression.into_parts();
    let head = Head {
        place,
        outer,
        carried,
    };
    match form {
        Form::Order(operand) => ordered(alloc, rewriter, head, operand, flat[0]),
        Form::For(binder, position, source, body) => {
            let parts = LoopParts {
                binder,
                position,
                source,
                body,
            };
            looped(alloc, rewriter.schemas, head, parts, flat)
        }
        Form::Switch(operand, cases, default, branches) => {
            let parts = SwitchParts {
                operand,
                cases,
                default,
                branches,
            };
            switched(alloc, rewriter.schemas, head, parts, flat)
        }
        Form::Call(function, arguments) => {
            called(alloc, rewriter.schemas, head, function, arguments, flat)
        }
        Form::DataOf(operand) => atomized(alloc, rewriter.schemas, head, operand, flat[0]),
        _ => unreachable!(),
    }
}

fn some_rule_asks_for(form: &Form<Carried>) -> bool
    ensures { result ≡ some_rule_asks_for (operator_of form.now) }
{
    matches!(
        form,
        Form::Order(_)
            | Form::For(_, _, _, _)
            | Form::Switch(_, _, _, _)
            | Form::Call(_, _)
            | Form::DataOf(_)
    )
}

// Whether an expression is flat, of whose parts it is known whether they are.
pub(crate) fn is_flat(expression: &PlanExpr, flat: &[bool]) -> bool
    requires { flat.now ≡ parts_flat expression.now }
    ensures { result ≡ is_flat expression.now }
{
    is_at_most_one(&expression.kind.kind) || is_flat_over(&expression.form, flat)
}
