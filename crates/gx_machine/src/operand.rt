// The items of an operand.

ghost use Rattle.std.specs.Prelude.{◌≡◌, ◌++◌, ◌∷◌, [], length, OnOk, IfOk, take, drop, option_copied, option_map, MatchOption, Some, None, IfSome, IsSome, IsNone, slice_get};
ghost use Rattle.std.specs.List.{list_all, list_any};
ghost use Rattle.gx_model.specs.Forest.{Forest as PlainForest};
ghost use Rattle.gx_model.specs.Item.{atom, atoms};
ghost use Rattle.gx_core.specs.Comparing.{atoms_among, condition_of, truth_of_value};
ghost use Rattle.gx_core.specs.Paths.{is_node as item_is_node};
ghost use Rattle.gx_nodes.specs.Entries.{place_of_number};
ghost use Rattle.gx_store.specs.Items.{item_in, items_in};
ghost use Rattle.gx_machine.specs.OneItem.{only_atom, only_node};

use gx_facets::{AtomValue, Atomic};
use gx_store::item::Item;
use gx_store::number::NodeId;
use std::alloc::{AllocError, Global};

fn is_node(item: &Item) -> bool
    ensures { (later : PlainForest) → result ≡ item_is_node (item_in later item.now) }
{
    matches!(item, Item::Node(_))
}

// Whether all items are nodes.
pub(crate) fn all_nodes(items: &[Item]) -> bool
    ensures { (later : PlainForest) → result ≡ list_all item_is_node (items_in later items.now) }
{
    let mut rest = items;
    while let Some((item, others)) = rest.split_first() {
        if !is_node(item) {
            return false;
        }
        rest = others;
    }
    true
}

// Whether an item is a node.
pub(crate) fn any_node(items: &[Item]) -> bool
    ensures { (later : PlainForest) → result ≡ list_any item_is_node (items_in later items.now) }
{
    let mut rest = items;
    while let Some((item, others)) = rest.split_first() {
        if is_node(item) {
            return true;
        }
        rest = others;
    }
    false
}

// The node that a value of one item is.
#[tactic(auto, using(crate::proofs::Operands::many_are_no_node))]
pub(crate) fn only_node(items: &[Item]) -> Option<NodeId>
    ensures { (later : PlainForest) → option_map (λ m. place_of_number later m.number) result ≡ only_node (items_in later items.now) }
{
    match items {
        [Item::Node(node)] => Some(*node),
        _ => None,
    }
}

// The atomic value that a value of one item is.
#[tactic(auto, using(crate::proofs::Operands::many_are_no_atom))]
pub(crate) fn only_atom(items: &[Item]) -> Option<&Atomic>
    ensures { (later : PlainForest) → option_copied result ≡ only_atom (items_in later items.now) }
{
    match items {
        [Item::Atom(value)] => Some(value),
        _ => None,
    }
}

// The boolean that a value of one item is.
#[tactic(auto, using(crate::proofs::Operands::condition_is))]
pub(crate) fn condition_of(items: &[Item]) -> Option<bool>
    ensures { (later : PlainForest) → result ≡ condition_of (items_in later items.now) }
{
    match only_atom(items) {
        Some(value) => truth_of(&value.value),
        None => None,
    }
}

fn truth_of(value: &AtomValue) -> Option<bool>
    ensures { result ≡ truth_of_value value.now }
{
    match value {
        AtomValue::Truth(truth) => Some(*truth),
        _ => None,
    }
}

// The atomic values that the items are, if no item is a node.
pub(crate) fn atoms_among(alloc: Global, items: &[Item]) -> Result<Option<Vec<Atomic>>, AllocError>
    ensures { (later : PlainForest) → IfOk result (λ found.
        MatchOption found (atoms_among (items_in later items.now) ≡ None) (λ values. atoms_among (items_in later items.now) ≡ Some values.items)) }
{
    let mut values = Vec::with_capacity(alloc, items.len())?;
    for item in items {
        match item {
            Item::Atom(value) => values.push(value.clone()?)?,
            Item::Node(_) => return Ok(None),
        }
    }
    Ok(Some(values))
}

// The item of a number.
pub(crate) fn item_at(items: &[Item], number: usize) -> Option<&Item>
    ensures { option_copied result ≡ slice_get items.now number }
{
    items.get(number)
}

// The items before a number of them, and those from it on.
pub(crate) fn cut_at(items: &[Item], number: usize) -> (&[Item], &[Item])
    ensures front { (later : PlainForest) → items_in later result.0.now ≡ take number (items_in later items.now) }
    ensures rest { (later : PlainForest) → items_in later result.1.now ≡ drop number (items_in later items.now) }
{
    if number <= items.len() {
        items.split_at(number)
    } else {
        (items, &[])
    }
}

// How many values there are.
pub(crate) fn count_of(values: &Vec<Item>) -> usize
    ensures { (later : PlainForest) → result ≡ length (items_in later values.now.items) }
{
    values.len()
}

// The values from a number of them on.
pub(crate) fn values_from(values: &Vec<Item>, number: usize) -> &[Item]
    ensures { (later : PlainForest) → items_in later result.now ≡ drop number (items_in later values.now.items) }
{
    let (_, rest) = cut_at(values.as_slice(), number);
    rest
}

// Leaves the values before a number of them.
pub(crate) fn cut_off(values: &mut Vec<Item>, number: usize)
    ensures { (later : PlainForest) → items_in later values.new.items ≡ take number (items_in later values.old.items) }
{
    values.truncate(number);
}

// Takes the values from a number of them on.
pub(crate) fn split_at(
    alloc: Global,
    values: &mut Vec<Item>,
    number: usize,
) -> Result<Vec<Item>, AllocError>
    ensures front { (later : PlainForest) → OnOk result (items_in later values.new.items ≡ take number (items_in later values.old.items)) }
    ensures rest { (later : PlainForest) → IfOk result (λ taken. items_in later taken.items ≡ drop number (items_in later values.old.items)) }
{
    if number <= values.len() {
        values.split_off(number)
    } else {
        Ok(Vec::new(alloc))
    }
}

// Takes the value that is alone from a number of them on; where none is, or more are, all stay.
pub(crate) fn pop_only(values: &mut Vec<Item>, number: usize) -> Option<Item>
    ensures alone { (later : PlainForest) → IfSome result (λ item. drop number (items_in later values.old.items) ≡ item_in later item ∷ []) }
    ensures front { (later : PlainForest) → IsSome result → items_in later values.new.items ≡ take number (items_in later values.old.items) }
    ensures kept { IsNone result → values.new.items ≡ values.old.items }
{
    if values_from(values, number).len() != 1 {
        return None;
    }
    let Some(item) = values.pop() else {
        return None;
    };
    Some(item)
}

// Moves the values from a number of them on behind others.
pub(crate) fn move_from(
    alloc: Global,
    values: &mut Vec<Item>,
    number: usize,
    others: &mut Vec<Item>,
) -> Result<(), AllocError>
    ensures front { (later : PlainForest) → OnOk result (items_in later values.new.items ≡ take number (items_in later values.old.items)) }
    ensures moved { (later : PlainForest) → OnOk result (items_in later others.new.items ≡ items_in later others.old.items ++ drop number (items_in later values.old.items)) }
{
    if let Some(item) = pop_only(values, number) {
        return Ok(others.push(item)?);
    }
    let taken = split_at(alloc, values, number)?;
    move_behind(taken, others)
}

// Adds an atomic value behind the values.
pub(crate) fn push_atom(value: Atomic, values: &mut Vec<Item>) -> Result<(), AllocError>
    ensures { (later : PlainForest) → OnOk result (items_in later values.new.items ≡ items_in later values.old.items ++ atom value ∷ []) }
{
    Ok(values.push(Item::Atom(value))?)
}

// Puts copies of atomic values behind the values.
pub(crate) fn put_atoms(added: &[Atomic], values: &mut Vec<Item>) -> Result<(), AllocError>
    ensures { (later : PlainForest) → OnOk result (items_in later values.new.items ≡ items_in later values.old.items ++ atoms added.now) }
{
    values.reserve(added.len())?;
    for value in added {
        push_atom(value.clone()?, values)?;
    }
    Ok(())
}

// Adds copies of the items behind the values.
pub(crate) fn append_all(items: &[Item], values: &mut Vec<Item>) -> Result<(), AllocError>
    ensures { (later : PlainForest) → OnOk result (items_in later values.new.items ≡ items_in later values.old.items ++ items_in later items.now) }
{
    for item in items {
        values.push(item.clone()?)?;
    }
    Ok(())
}

// Moves items behind the values.
pub(crate) fn move_behind(taken: Vec<Item>, values: &mut Vec<Item>) -> Result<(), AllocError>
    ensures { (later : PlainForest) → OnOk result (items_in later values.new.items ≡ items_in later values.old.items ++ items_in later taken.items) }
{
    let mut taken = taken;
    values.append(&mut taken)
}
