// The declarations of a query.

ghost use Rattle.std.specs.Prelude.{◌≡◌, ◌⊎◌, ◌∷◌, [], List, IfOk, IfErr};
ghost use Rattle.gx_model.specs.Forest.{Forest as PlainForest};
ghost use Rattle.gx_model.specs.Growth.{Extends};
ghost use Rattle.gx_core.specs.Functions.{functions_of};
ghost use Rattle.gx_core.specs.Meaning.{Bindings};
ghost use Rattle.gx_core.specs.Outcome.{Outcome, gives, after};
ghost use Rattle.gx_plan.specs.Plan.{DeclarationOfPlan as PlainDeclaration};
ghost use Rattle.gx_joins.specs.JoinedMeaning.{joined_globals, joined_outcome};
ghost use Rattle.gx_model.specs.Item.{Items};
ghost use Rattle.gx_store.specs.Items.{items_in};
ghost use Rattle.gx_store.specs.Places.{node_places};
ghost use Rattle.gx_machine.specs.Failing.{FailsSo};
ghost use Rattle.gx_machine.specs.Frames.{functions_in};
ghost use Rattle.gx_machine.specs.Growing.{GrowsHonestly};
ghost use Rattle.gx_machine.specs.Resume.{items_of};

use crate::bound::{Bound, take_bound};
use crate::failure::Failure;
use crate::frames::{Declared, value_of};
use gx_core::scope::Scope;
use gx_join_table::steps::Steps;
use gx_plan::plan::{PlanDeclaration, PlanFunction, PlanQuery};
use gx_store::item::Item;
use gx_store::number::NodeId;
use gx_store::store::Store;
use gx_types::schemas::Schemas;
use std::alloc::{AllocError, Global};
use std::sync::ledger::Ledger;

// The value of a query in which so many calls may be active: the globals are evaluated in order before the body.
pub(crate) fn query_value<L: Ledger>(
    alloc: Global,
    schemas: &Schemas,
    core: &PlanQuery,
    store: &mut Store,
    documents: &[NodeId],
    limit: u32,
    steps: &mut Steps<L>,
) -> Result<Vec<Item>, Failure>
    ensures grows { GrowsHonestly schemas.now store.old store.new }
    ensures value { (later : PlainForest) → Extends store.new later → IfOk result (λ v.
        joined_outcome limit schemas.now core.now (node_places later documents.now) store.old ≡ gives (items_in later v.items) store.new) }
    ensures failed { (later : PlainForest) → Extends store.new later → IfErr result (λ e.
        FailsSo e (joined_outcome limit schemas.now core.now (node_places later documents.now) store.old)) }
{
    let declarations = core.declarations.as_slice();
    let functions = functions_among(alloc, declarations)?;
    let functions = functions.as_slice();
    let globals = bound_globals(
        alloc,
        schemas,
        store,
        functions,
        limit,
        declarations,
        documents,
        steps,
    )?;
    let declared = Declared {
        functions,
        globals: &globals,
    };
    value_of(alloc, schemas, store, declared, limit, &core.body, steps)
}

// The functions among declarations.
fn functions_among<'a>(
    alloc: Global,
    declarations: &'a [PlanDeclaration],
) -> Result<Vec<&'a PlanFunction>, AllocError>
    ensures { IfOk result (λ functions. functions_in functions.items ≡ functions_of declarations.now) }
{
    let mut functions = Vec::new(alloc);
    for declaration in declarations {
        if let PlanDeclaration::Function(function) = declaration {
            functions.push(function)?;
        }
    }
    Ok(functions)
}

// The globals in order, each bound to its value, or to the next document where it is external.
fn bound_globals<L: Ledger>(
    alloc: Global,
    schemas: &Schemas,
    store: &mut Store,
    functions: &[&PlanFunction],
    limit: u32,
    declarations: &[PlanDeclaration],
    documents: &[NodeId],
    steps: &mut Steps<L>,
) -> Result<Scope<Bound>, Failure>
    ensures grows { GrowsHonestly schemas.now store.old store.new }
    ensures value { (later : PlainForest) → Extends store.new later → IfOk result (λ globals.
        joined_globals schemas.now (functions_in functions.now) limit declarations.now (node_places later documents.now) [] store.old ≡ gives (items_of later globals) store.new) }
    ensures failed { (later : PlainForest) (next : Bindings → PlainForest → Outcome Items) → Extends store.new later → IfErr result (λ e.
        FailsSo e (after (joined_globals schemas.now (functions_in functions.now) limit declarations.now (node_places later documents.now) [] store.old) next)) }
{
    let mut globals = Scope::new(alloc);
    let mut rest = declarations;
    let mut left = documents;
    while let Some((declaration, others)) = rest.split_first() {
        left = bind_global(
            alloc,
            schemas,
            store,
            functions,
            limit,
            declaration,
            left,
            &mut globals,
            steps,
        )?;
        rest = others;
    }
    Ok(globals)
}

// Binds the variable of a declaration behind the globals that are bound, and gives the documents that are left.
fn bind_global<'d, L: Ledger>(
    alloc: Global,
    schemas: &Schemas,
    store: &mut Store,
    functions: &[&PlanFunction],
    limit: u32,
    declaration: &PlanDeclaration,
    documents: &'d [NodeId],
    globals: &mut Scope<Bound>,
    steps: &mut Steps<L>,
) -> Result<&'d [NodeId], Failure>
    ensures grows { (store.new ≡ store.old) ⊎ GrowsHonestly schemas.now store.old store.new }
    ensures value { (others : List PlainDeclaration) (later : PlainForest) → Extends store.new later → IfOk result (λ left.
        joined_globals schemas.now (functions_in functions.now) limit (declaration.now ∷ others) (node_places later documents.now) (items_of later globals.old) store.old
        ≡ joined_globals schemas.now (functions_in functions.now) limit others (node_places later left.now) (items_of later globals.new) store.new) }
    ensures failed { (others : List PlainDeclaration) (later : PlainForest) (next : Bindings → PlainForest → Outcome Items) → Extends store.new later → IfErr result (λ e.
        FailsSo e (after (joined_globals schemas.now (functions_in functions.now) limit (declaration.now ∷ others) (node_places later documents.now) (items_of later globals.old) store.old) next)) }
{
    match declaration {
        PlanDeclaration::Function(_) => Ok(documents),
        PlanDeclaration::Global {
            binder,
            value: Some(value),
            ..
        } => {
            let declared = Declared { functions, globals };
            let mut items = value_of(alloc, schemas, store, declared, limit, value, steps)?;
            let bound = take_bound(alloc, &mut items, 0)?;
            globals.bind(binder.variable, bound)?;
            Ok(documents)
        }
        PlanDeclaration::Global {
            binder,
            value: None,
            ..
        } => {
            let Some((document, others)) = documents.split_first() else {
                return Err(Failure::Wrong);
            };
            globals.bind(binder.variable, Bound::One(Item::Node(*document)))?;
            Ok(others)
        }
    }
}
