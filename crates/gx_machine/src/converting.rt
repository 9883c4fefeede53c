// The function conversion rules (XQuery 1.0, section 3.1.5).

ghost use Rattle.std.specs.Prelude.{◌≡◌, ◌∷◌, [], List, IfOk, IfErr, IfSome, Some, None, option_copied, not, ◌&&◌};
ghost use Rattle.std.specs.List.{list_all};
ghost use Rattle.gx_types.specs.SchemaSet.{SchemaSet};
ghost use Rattle.gx_model.specs.Forest.{Forest as PlainForest};
ghost use Rattle.gx_model.specs.Growth.{Extends};
ghost use Rattle.gx_model.specs.Item.{Items};
ghost use Rattle.gx_core.specs.Converting.{atomic_type, expected_atomic, is_untyped, is_any_atomic_type, item_converted, items_converted, converted, converted_to, arguments_converted};
ghost use Rattle.gx_core.specs.Outcome.{Outcome, gives, after};
ghost use Rattle.gx_store.specs.Items.{item_in, items_in};
ghost use Rattle.gx_machine.specs.BoundItems.{bound_items, bounds_in};
ghost use Rattle.gx_machine.specs.Converting.{is_left_alone};
ghost use Rattle.gx_machine.specs.Failing.{FailsSo};

use crate::bound::Bound;
use crate::failure::Failure;
use crate::nodes::atomized;
use crate::single::cast_of_atom;
use gx_base::stack::Stack;
use gx_base::type_name::{Builtin, TypeName};
use gx_facets::AtomValue;
use gx_store::item::Item;
use gx_store::store::Store;
use gx_types::item_type::ItemType;
use gx_types::schemas::Schemas;
use gx_types::sequence_type::{Ty, TyNode};
use std::alloc::Global;
use std::rc::Rc;

// Arguments from the left, each to the type of its parameter.
pub(crate) fn converted_arguments(
    alloc: Global,
    schemas: &Schemas,
    store: &Store,
    parameters: &[Ty],
    arguments: Stack<Bound>,
) -> Result<Vec<Bound>, Failure>
    ensures value { (later : PlainForest) → Extends store.now later → IfOk result (λ found.
        arguments_converted schemas.now parameters.now (bounds_in later arguments) store.now ≡ gives (bounds_in later found.items) store.now) }
    ensures failed { (later : PlainForest) (next : List Items → PlainForest → Outcome Items) → Extends store.now later → IfErr result (λ e.
        FailsSo e (after (arguments_converted schemas.now parameters.now (bounds_in later arguments) store.now) next)) }
{
    let mut found = Vec::with_capacity(alloc, parameters.len())?;
    let mut arguments = arguments;
    let mut rest = parameters;
    while let Some(argument) = arguments.pop() {
        let Some((expected, others)) = rest.split_first() else {
            drop(argument);
            return Err(Failure::Wrong);
        };
        found.push(converted_argument(alloc, schemas, store, expected, argument)?)?;
        rest = others;
    }
    if rest.is_empty() {
        Ok(found)
    } else {
        Err(Failure::Wrong)
    }
}

// An argument as the type of its parameter asks for it.
fn converted_argument(
    alloc: Global,
    schemas: &Schemas,
    store: &Store,
    expected: &Ty,
    argument: Bound,
) -> Result<Bound, Failure>
    ensures value { (later : PlainForest) → Extends store.now later → IfOk result (λ found.
        converted schemas.now expected.now (bound_items later argument) store.now ≡ gives (bound_items later found) store.now) }
    ensures failed { (later : PlainForest) → Extends store.now later → IfErr result (λ e.
        FailsSo e (converted schemas.now expected.now (bound_items later argument) store.now)) }
{
    let Some(kind) = conversion(expected, argument.as_slice()) else {
        return Ok(argument);
    };
    let found = converted_items(alloc, schemas, store, kind, argument.as_slice());
    drop(argument);
    Ok(Bound::Many(Rc::new(alloc, found?)?))
}

// The value of a function as the type of its result asks for it.
pub(crate) fn converted_value(
    alloc: Global,
    schemas: &Schemas,
    store: &Store,
    expected: &Ty,
    value: Vec<Item>,
) -> Result<Vec<Item>, Failure>
    ensures value { (later : PlainForest) → Extends store.now later → IfOk result (λ found.
        converted schemas.now expected.now (items_in later value.items) store.now ≡ gives (items_in later found.items) store.now) }
    ensures failed { (later : PlainForest) → Extends store.now later → IfErr result (λ e.
        FailsSo e (converted schemas.now expected.now (items_in later value.items) store.now)) }
{
    let Some(kind) = conversion(expected, value.as_slice()) else {
        return Ok(value);
    };
    converted_items(alloc, schemas, store, kind, value.as_slice())
}

// The atomic type that is expected, where some of the items are to be converted to it.
fn conversion<'t>(expected: &'t Ty, items: &[Item]) -> Option<&'t TypeName>
    ensures some { IfSome result (λ kind. expected_atomic expected.now ≡ Some kind.now) }
    ensures none { (schemas : SchemaSet) (forest later : PlainForest) → result ≡ None → converted schemas expected.now (items_in later items.now) forest ≡ gives (items_in later items.now) forest }
{
    match expected_atomic(expected) {
        None => None,
        Some(kind) if all_stay(kind, items) => None,
        Some(kind) => Some(kind),
    }
}

// The type of the values of an expected type, where these are atomic.
fn expected_atomic(expected: &Ty) -> Option<&TypeName>
    ensures { option_copied result ≡ expected_atomic expected.now }
{
    match &expected.node {
        TyNode::Item(kind) => atomic_type(kind),
        TyNode::Optional(part) => expected_atomic(part),
        TyNode::Star(part) => expected_atomic(part),
        TyNode::Plus(part) => expected_atomic(part),
        _ => None,
    }
}

fn atomic_type(kind: &ItemType) -> Option<&TypeName>
    ensures { option_copied result ≡ atomic_type kind.now }
{
    match kind {
        ItemType::Atom(kind) => Some(kind),
        _ => None,
    }
}

// Whether no item is changed where values of an atomic type are expected.
fn all_stay(kind: &TypeName, items: &[Item]) -> bool
    ensures { (later : PlainForest) → result ≡ list_all (is_left_alone kind.now) (items_in later items.now) }
{
    let mut rest = items;
    while let Some((item, others)) = rest.split_first() {
        if !item_stays(kind, item) {
            return false;
        }
        rest = others;
    }
    true
}

fn item_stays(kind: &TypeName, item: &Item) -> bool
    ensures { (later : PlainForest) → result ≡ is_left_alone kind.now (item_in later item.now) }
{
    match item {
        Item::Atom(value) => !is_cast(kind, &value.value),
        Item::Node(_) => false,
    }
}

// Whether a value is cast where values of an atomic type are expected.
fn is_cast(kind: &TypeName, value: &AtomValue) -> bool
    ensures { result ≡ (is_untyped value.now && not (is_any_atomic_type kind.now)) }
{
    match value {
        AtomValue::Untyped(_) => !is_any_atomic_type(kind),
        _ => false,
    }
}

fn is_any_atomic_type(kind: &TypeName) -> bool
    ensures { result ≡ is_any_atomic_type kind.now }
{
    matches!(kind, TypeName::Builtin(Builtin::AnyAtomic))
}

// Items that are atomized, and the untyped ones of them cast.
pub(crate) fn converted_items(
    alloc: Global,
    schemas: &Schemas,
    store: &Store,
    kind: &TypeName,
    items: &[Item],
) -> Result<Vec<Item>, Failure>
    ensures value { (later : PlainForest) → Extends store.now later → IfOk result (λ found.
        converted_to (Some kind.now) schemas.now (items_in later items.now) store.now ≡ gives (items_in later found.items) store.now) }
    ensures failed { (later : PlainForest) → Extends store.now later → IfErr result (λ e.
        FailsSo e (converted_to (Some kind.now) schemas.now (items_in later items.now) store.now)) }
{
    let typed = atomized(alloc, schemas, store, items)?;
    untyped_cast(alloc, schemas, kind, typed.as_slice())
}

// Atomic values from the left, the untyped ones cast.
fn untyped_cast(
    alloc: Global,
    schemas: &Schemas,
    kind: &TypeName,
    typed: &[Item],
) -> Result<Vec<Item>, Failure>
    ensures value { (forest later : PlainForest) → IfOk result (λ found. items_converted schemas.now kind.now (items_in later typed.now) forest ≡ gives (items_in later found.items) forest) }
    ensures failed { (forest later : PlainForest) → IfErr result (λ e. FailsSo e (items_converted schemas.now kind.now (items_in later typed.now) forest)) }
{
    let mut found = Vec::with_capacity(alloc, typed.len())?;
    let mut rest = typed;
    while let Some((item, others)) = rest.split_first() {
        found.push(converted_item(alloc, schemas, kind, item)?)?;
        rest = others;
    }
    Ok(found)
}

fn converted_item(
    alloc: Global,
    schemas: &Schemas,
    kind: &TypeName,
    item: &Item,
) -> Result<Item, Failure>
    ensures value { (forest later : PlainForest) → IfOk result (λ found. item_converted schemas.now kind.now (item_in later item.now) forest ≡ gives (item_in later found ∷ []) forest) }
    ensures failed { (forest later : PlainForest) → IfErr result (λ e. FailsSo e (item_converted schemas.now kind.now (item_in later item.now) forest)) }
{
    match item {
        Item::Atom(value) if is_cast(kind, &value.value) => {
            match cast_of_atom(alloc, schemas, kind, value) {
                Ok(found) => Ok(Item::Atom(found)),
                Err(failure) => Err(failure),
            }
        }
        Item::Atom(value) => Ok(Item::Atom(value.clone()?)),
        Item::Node(_) => Err(Failure::Wrong),
    }
}
