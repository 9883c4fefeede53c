// Plans of queries, and their texts.

ghost use Rattle.std.specs.Prelude.{◌≡◌, IfOk, string_bytes};
ghost use Rattle.gx_processor.specs.PlanBytes.{IsPlanText, IsRewrittenPlan, compiled_plan, plan_bytes};

use crate::output::line_of;
use crate::query::TypedQuery;
use gx_core::dismantle::dismantle_query;
use gx_core::expression::TypedCore;
use gx_plan::compile::compile;
use gx_plan::plan::Plan;
use gx_plantext::print::print_plan;
use gx_rewrite::rewrite::rewrite;
use gx_types::schemas::Schemas;
use std::alloc::{AllocError, Global};

/// A plan of a query to which no rule of rewriting applies. The query ends here.
pub fn plan_of(alloc: Global, schemas: &Schemas, core: TypedCore) -> Result<Plan, AllocError>
    ensures { IfOk result (λ plan. IsRewrittenPlan schemas.now (compiled_plan core) plan) }
{
    match compile(alloc, core) {
        Ok(plan) => rewrite(alloc, schemas, plan),
        Err(error) => Err(error),
    }
}

/// The text of a plan of a query to which no rule of rewriting applies, and a line feed. The query ends here.
pub fn plan_text(alloc: Global, query: TypedQuery) -> Result<String, AllocError>
    ensures { IfOk result (λ text. IsPlanText query.schemas query.core (string_bytes text)) }
{
    let TypedQuery { schemas, core } = query;
    match plan_of(alloc, &schemas, core) {
        Ok(plan) => printed(alloc, plan),
        Err(error) => Err(error),
    }
}

// The text of a plan, which ends here, and a line feed.
fn printed(alloc: Global, plan: Plan) -> Result<String, AllocError>
    ensures { IfOk result (λ text. string_bytes text ≡ plan_bytes plan) }
{
    let text = print_plan(alloc, &plan);
    dismantle_plan(alloc, plan);
    line_of(alloc, &text?)
}

/// Drops a plan, its trees by a loop.
pub fn dismantle_plan(alloc: Global, plan: Plan) {
    let Plan {
        query,
        variables: _variables,
    } = plan;
    dismantle_query(alloc, query);
}
