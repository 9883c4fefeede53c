// The values of plans.

ghost use Rattle.std.specs.Prelude.{◌≡◌, ◌≢◌, ◌<◌, IfOk, IfErr, All};
ghost use Rattle.gx_base.specs.declared.limits.TheConstants.{ACTIVE_CALLS};
ghost use Rattle.gx_model.specs.Forest.{Forest as PlainForest};
ghost use Rattle.gx_model.specs.Growth.{Extends};
ghost use Rattle.gx_model.specs.Honest.{IsHonest};
ghost use Rattle.gx_core.specs.Outcome.{gives, wrong};
ghost use Rattle.gx_core.specs.Refusal.{Fails};
ghost use Rattle.gx_joins.specs.JoinedMeaning.{joined_outcome};
ghost use Rattle.gx_nodes.specs.Entries.{count_in};
ghost use Rattle.gx_store.specs.Items.{items_in};
ghost use Rattle.gx_store.specs.Places.{node_places};
ghost use Rattle.gx_machine.specs.Failing.{FailsSo};
ghost use Rattle.gx_machine.specs.Growing.{GrowsHonestly};

use crate::declarations::query_value;
use crate::failure::Failure;
use gx_base::limits::ACTIVE_CALLS;
use gx_core::dyn_error::DynError;
use gx_join_table::steps::Steps;
use gx_model::laws::growth_is_an_order;
use gx_plan::plan::PlanQuery;
use gx_store::item::Item;
use gx_store::number::NodeId;
use gx_store::store::Store;
use gx_types::schemas::Schemas;
use std::alloc::Global;
use std::marker::Brand;
use std::sync::ledger::{Blank, Ledger};

/// The value of a plan with hash joins in the place of its joins, which does not go wrong, or the dynamic error that it raises (XQuery
/// 1.0, section 2.2.3.2), with the documents of its external variables, nodes of the store in the order of their declarations. The
/// globals are evaluated in order before the body. Whatever the answer, the store keeps its nodes.
pub fn joined_value(
    alloc: Global,
    schemas: &Schemas,
    query: &PlanQuery,
    store: &mut Store,
    documents: &[NodeId],
) -> Result<Vec<Item>, DynError>
    requires there { All (λ m. m.number < count_in store.old) documents.now }
    requires right { joined_outcome ACTIVE_CALLS schemas.now query.now (node_places store.old documents.now) store.old ≢ wrong }
    ensures extends { Extends store.old store.new }
    ensures honest { IsHonest schemas.now store.old → IsHonest schemas.now store.new }
    ensures value { IfOk result (λ v. joined_outcome ACTIVE_CALLS schemas.now query.now (node_places store.old documents.now) store.old ≡ gives (items_in store.new v.items) store.new) }
    ensures raised { IfErr result (λ e. Fails e (joined_outcome ACTIVE_CALLS schemas.now query.now (node_places store.old documents.now) store.old)) }
{
    growth_is_an_order();
    let steps = Blank::new(1);
    match counted_value::<Brand>(alloc, schemas, query, store, documents, steps) {
        Ok(items) => Ok(items),
        Err(Failure::Raised(code)) => Err(DynError::Raised(code)),
        Err(Failure::Memory) => Err(DynError::Memory),
        Err(Failure::Wrong) => unreachable!(),
    }
}

// The value of a query, whose steps are counted in a new ledger.
fn counted_value<L: Ledger>(
    alloc: Global,
    schemas: &Schemas,
    query: &PlanQuery,
    store: &mut Store,
    documents: &[NodeId],
    steps: Blank,
) -> Result<Vec<Item>, Failure>
    requires name { steps.name ≡ L.name }
    requires parts { steps.parts ≡ L.parts }
    requires some { 0 < L.parts }
    ensures grows { GrowsHonestly schemas.now store.old store.new }
    ensures value { (later : PlainForest) → Extends store.new later → IfOk result (λ v.
        joined_outcome ACTIVE_CALLS schemas.now query.now (node_places later documents.now) store.old ≡ gives (items_in later v.items) store.new) }
    ensures failed { (later : PlainForest) → Extends store.new later → IfErr result (λ e.
        FailsSo e (joined_outcome ACTIVE_CALLS schemas.now query.now (node_places later documents.now) store.old)) }
{
    let mut steps = Steps::<L>::start(steps);
    query_value(
        alloc,
        schemas,
        query,
        store,
        documents,
        ACTIVE_CALLS,
        &mut steps,
    )
}
