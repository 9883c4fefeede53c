// The evaluation of plans.

ghost use Rattle.std.specs.Prelude.{◌≡◌, ◌≢◌, ◌<◌, IfOk, IfErr, All};
ghost use Rattle.gx_model.specs.Belongs.{Belongs};
ghost use Rattle.gx_model.specs.Growth.{Extends};
ghost use Rattle.gx_model.specs.Honest.{IsHonest};
ghost use Rattle.gx_core.specs.QueryMeaning.{plain_query, DocumentsFit, IsSoundQuery};
ghost use Rattle.gx_plan.specs.Plan.{kind_carried, typed_query};
ghost use Rattle.gx_plan.specs.PlanMeaning.{plan_outcome};
ghost use Rattle.gx_rules.specs.Normal.{IsNormalPlan};
ghost use Rattle.gx_core.specs.Outcome.{gives, wrong};
ghost use Rattle.gx_core.specs.Refusal.{Fails};
ghost use Rattle.gx_nodes.specs.Entries.{count_in};
ghost use Rattle.gx_store.specs.Items.{items_in};
ghost use Rattle.gx_store.specs.Places.{node_places};
ghost use Rattle.gx_eval.specs.TableJoins.{MayJoinByTables};

use gx_core::dyn_error::DynError;
use gx_core::laws::{query_meaning_looks_at_no_type, sound_queries_keep_their_types};
use gx_machine::evaluator::joined_value;
use gx_plan::laws::plans_have_the_outcome_of_their_typed_core;
use gx_plan::plan::Plan;
use gx_store::item::Item;
use gx_store::number::NodeId;
use gx_store::store::Store;
use gx_types::schemas::Schemas;
use std::alloc::Global;

/// The value of a plan to which no rule of rewriting applies, whose joins may be evaluated by tables of keys and which does not go
/// wrong, or the dynamic error that it raises (XQuery 1.0, section 2.2.3.2), with the documents of its external variables, nodes of the
/// store in the order of their declarations. The globals are evaluated in order before the body. Where the forest is honest, the
/// documents are of their declared types and the plan is sound, the value belongs to the type that the plan carries. Whatever the
/// answer, the store keeps its nodes.
pub fn evaluate(
    alloc: Global,
    schemas: &Schemas,
    plan: &Plan,
    store: &mut Store,
    documents: &[NodeId],
) -> Result<Vec<Item>, DynError>
    requires normal { IsNormalPlan schemas.now plan.now }
    requires there { All (λ m. m.number < count_in store.old) documents.now }
    requires joins { MayJoinByTables schemas.now plan.now.query (node_places store.old documents.now) store.old }
    requires right { plan_outcome schemas.now plan.now.query (node_places store.old documents.now) store.old ≢ wrong }
    ensures extends { Extends store.old store.new }
    ensures honest { IsHonest schemas.now store.old → IsHonest schemas.now store.new }
    ensures value { IfOk result (λ v. plan_outcome schemas.now plan.now.query (node_places store.old documents.now) store.old ≡ gives (items_in store.new v.items) store.new) }
    ensures raised { IfErr result (λ e. Fails e (plan_outcome schemas.now plan.now.query (node_places store.old documents.now) store.old)) }
    ensures belongs { IsHonest schemas.now store.old → DocumentsFit schemas.now store.old (plain_query (typed_query plan.now.query)).declarations (node_places store.old documents.now) → IsSoundQuery schemas.now (typed_query plan.now.query)
        → IfOk result (λ v. Belongs schemas.now store.new (items_in store.new v.items) (kind_carried plan.now.query.body)) }
{
    query_meaning_looks_at_no_type();
    sound_queries_keep_their_types();
    plans_have_the_outcome_of_their_typed_core();
    joined_value(alloc, schemas, &plan.query, store, documents)
}
