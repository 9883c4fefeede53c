// Operators that change their operand where it stands.

ghost use Rattle.std.specs.Prelude.{◌≡◌, ◌∷◌, [], OnOk, IfErr, drop};
ghost use Rattle.gx_core.specs.Outcome.{gives};
ghost use Rattle.gx_core.specs.Meaning.{CallOutcomes, Context, acts};
ghost use Rattle.gx_core.specs.declared.operator.Operator.TheVariants as operators;
ghost use Rattle.gx_model.specs.Forest.{Forest as PlainForest};
ghost use Rattle.gx_model.specs.Growth.{Extends};
ghost use Rattle.gx_store.specs.Items.{items_in};
ghost use Rattle.gx_machine.specs.Failing.{FailsSo};
ghost use Rattle.gx_machine.specs.Operators.{changing_operator};
ghost use Rattle.gx_machine.specs.Resume.{changed, context_with};

use crate::failure::Failure;
use crate::filtering::{keep_last, keep_nth};
use crate::instances::is_instance;
use crate::nodes::{append_nodes, atomized, put_in_order};
use crate::operand::{all_nodes, any_node, cut_off, move_behind, values_from};
use gx_base::code::Code;
use gx_store::item::Item;
use gx_store::store::Store;
use gx_types::schemas::Schemas;
use gx_types::sequence_type::Ty;
use std::alloc::Global;

// Atomization, the test that all items are nodes, document order, the item of a number, the last one, or the test of a type.
#[derive(Clone, Copy)]
pub(crate) enum Change<'a> {
    Data,
    OnlyNodes,
    Order,
    Nth(i128, bool),
    Final(bool),
    Treat(&'a Ty),
}

// Changes the values from a number of them on.
pub(crate) fn change_values(
    alloc: Global,
    schemas: &Schemas,
    store: &Store,
    operator: Change<'_>,
    first: usize,
    values: &mut Vec<Item>,
) -> Result<(), Failure>
    ensures value { (calls : CallOutcomes) (later : PlainForest) → Extends store.now later → OnOk result (changed (context_with schemas.now calls) (changing_operator operator.entry) first (items_in later values.old.items) store.now ≡ gives (items_in later values.new.items) store.now) }
    ensures failed { (calls : CallOutcomes) (later : PlainForest) → Extends store.now later → IfErr result (λ e. FailsSo e (acts (context_with schemas.now calls) (changing_operator operator.entry) (drop first (items_in later values.old.items) ∷ []) store.now)) }
{
    match operator {
        Change::Data => atomize(alloc, schemas, store, first, values),
        Change::OnlyNodes => check_nodes(first, values),
        Change::Order => order(alloc, store, first, values),
        Change::Nth(number, reverse) => Ok(keep_nth(number, reverse, first, values)?),
        Change::Final(reverse) => Ok(keep_last(reverse, first, values)?),
        Change::Treat(kind) => treat(schemas, store, kind, first, values),
    }
}

// Atomic values stay where they stand.
fn atomize(
    alloc: Global,
    schemas: &Schemas,
    store: &Store,
    first: usize,
    values: &mut Vec<Item>,
) -> Result<(), Failure>
    ensures value { (calls : CallOutcomes) (later : PlainForest) → Extends store.now later → OnOk result (changed (context_with schemas.now calls) operators.DataOf first (items_in later values.old.items) store.now ≡ gives (items_in later values.new.items) store.now) }
    ensures failed { (calls : CallOutcomes) (later : PlainForest) → Extends store.now later → IfErr result (λ e. FailsSo e (acts (context_with schemas.now calls) operators.DataOf (drop first (items_in later values.old.items) ∷ []) store.now)) }
{
    let operand = values_from(values, first);
    if !any_node(operand) {
        return Ok(());
    }
    let typed = atomized(alloc, schemas, store, operand)?;
    cut_off(values, first);
    Ok(move_behind(typed, values)?)
}

fn check_nodes(first: usize, values: &mut Vec<Item>) -> Result<(), Failure>
    ensures value { (k : Context) (forest later : PlainForest) → OnOk result (changed k operators.Nodes first (items_in later values.old.items) forest ≡ gives (items_in later values.new.items) forest) }
    ensures failed { (k : Context) (forest later : PlainForest) → IfErr result (λ e. FailsSo e (acts k operators.Nodes (drop first (items_in later values.old.items) ∷ []) forest)) }
{
    let operand = values_from(values, first);
    if all_nodes(operand) {
        Ok(())
    } else {
        Err(Failure::Wrong)
    }
}

fn order(alloc: Global, store: &Store, first: usize, values: &mut Vec<Item>) -> Result<(), Failure>
    ensures value { (k : Context) (later : PlainForest) → Extends store.now later → OnOk result (changed k operators.Order first (items_in later values.old.items) store.now ≡ gives (items_in later values.new.items) store.now) }
    ensures failed { (k : Context) (later : PlainForest) → Extends store.now later → IfErr result (λ e. FailsSo e (acts k operators.Order (drop first (items_in later values.old.items) ∷ []) store.now)) }
{
    let operand = values_from(values, first);
    let Some(nodes) = put_in_order(alloc, store, operand)? else {
        return Ok(());
    };
    cut_off(values, first);
    Ok(append_nodes(nodes.as_slice(), values)?)
}

// An instance of a type stays where it stands; any other value is an error.
fn treat(
    schemas: &Schemas,
    store: &Store,
    kind: &Ty,
    first: usize,
    values: &mut Vec<Item>,
) -> Result<(), Failure>
    ensures value { (calls : CallOutcomes) (later : PlainForest) → Extends store.now later → OnOk result (changed (context_with schemas.now calls) (operators.Treat kind.now) first (items_in later values.old.items) store.now ≡ gives (items_in later values.new.items) store.now) }
    ensures failed { (calls : CallOutcomes) (later : PlainForest) → Extends store.now later → IfErr result (λ e. FailsSo e (acts (context_with schemas.now calls) (operators.Treat kind.now) (drop first (items_in later values.old.items) ∷ []) store.now)) }
{
    let operand = values_from(values, first);
    if is_instance(schemas, store, kind, operand) {
        Ok(())
    } else {
        Err(Failure::Raised(Code::XPDY0050))
    }
}
