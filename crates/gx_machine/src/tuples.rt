// The tuples that clauses have found.

ghost use Rattle.std.specs.Prelude.{◌≡◌, ◌++◌, [], take, drop, map, IfOk, OnOk, option_copied, slice_get};
ghost use Rattle.gx_model.specs.Forest.{Forest as PlainForest};
ghost use Rattle.gx_core.specs.Blocks.{key_of};
ghost use Rattle.gx_core.specs.ExpressionView.{order_of_key};
ghost use Rattle.gx_store.specs.Items.{items_in};
ghost use Rattle.gx_machine.specs.BoundItems.{items_of};
ghost use Rattle.gx_machine.specs.FoundTuples.{numbers_in_order};

use crate::bound::Bound;
use crate::locals::Locals;
use gx_facets::Atomic;
use gx_plan::plan::PlanKey;
use gx_sorting::{KeyOrder, sorted_numbers};
use gx_store::item::Item;
use std::alloc::{AllocError, Global};

// What clauses bind in a tuple, the innermost first.
pub(crate) type Row = Vec<(u32, Bound)>;

// The keys of all tuples, behind one another; what is bound in each tuple; and the numbers of the tuples of blocks that are sorted, each
// counted from the first tuple of its block.
#[derive(Drop)]
pub(crate) struct Tuples {
    pub(crate) keys: Vec<Option<Atomic>>,
    pub(crate) rows: Vec<Row>,
    pub(crate) numbers: Vec<usize>,
}

impl Tuples {
    pub(crate) fn new(alloc: Global) -> Tuples
        ensures keys { result.keys.items ≡ [] }
        ensures rows { result.rows.items ≡ [] }
        ensures numbers { result.numbers.items ≡ [] }
    {
        Tuples {
            keys: Vec::new(alloc),
            rows: Vec::new(alloc),
            numbers: Vec::new(alloc),
        }
    }
}

// A copy of so many innermost bindings.
pub(crate) fn innermost(alloc: Global, scope: &Locals<'_>, count: usize) -> Result<Row, AllocError>
    ensures { (later : PlainForest) → IfOk result (λ row. items_of later row.items ≡ take count (items_of later scope.now)) }
{
    let mut row = Vec::with_capacity(alloc, count)?;
    for depth in 0..count {
        let Some((variable, bound)) = scope.at_depth(depth) else {
            return Err(AllocError);
        };
        row.push((variable, bound.copy()?))?;
    }
    Ok(row)
}

// Binds what is bound in a tuple.
pub(crate) fn bind_row(row: &[(u32, Bound)], scope: &mut Locals<'_>) -> Result<(), AllocError>
    ensures { (later : PlainForest) → OnOk result (items_of later scope.new ≡ items_of later row.now ++ items_of later scope.old) }
{
    let mut rest = row;
    while let Some(((variable, bound), inner)) = rest.split_last() {
        scope.bind(*variable, bound.copy()?)?;
        rest = inner;
    }
    Ok(())
}

// What is bound in the tuple of a number.
pub(crate) fn row_at(rows: &[Row], number: usize) -> Option<&Row>
    ensures { option_copied result ≡ slice_get rows.now number }
{
    rows.get(number)
}

// Takes so many innermost bindings away.
#[tactic(auto, using(crate::proofs::BlockResuming::dropped_again))]
pub(crate) fn unbind_innermost(scope: &mut Locals<'_>, count: usize) -> Result<(), AllocError>
    ensures { OnOk result (scope.new ≡ drop count scope.old) }
{
    let mut left = count;
    while left > 0 {
        scope.unbind()?;
        left -= 1;
    }
    Ok(())
}

// The key that a value is, if it is one.
pub(crate) fn key_of(value: &[Item]) -> Result<Option<Option<Atomic>>, AllocError>
    ensures { (later : PlainForest) → IfOk result (λ key. key ≡ key_of (items_in later value.now)) }
{
    match value {
        [] => Ok(Some(None)),
        [Item::Atom(value)] => Ok(Some(Some(value.clone()?))),
        _ => Ok(None),
    }
}

// The numbers of so many tuples in the order of their keys.
pub(crate) fn numbers_in_order(
    alloc: Global,
    sort_keys: &[PlanKey],
    keys: &[Option<Atomic>],
    count: usize,
) -> Result<Vec<usize>, AllocError>
    ensures { IfOk result (λ numbers. numbers.items ≡ numbers_in_order (map order_of_key sort_keys.now) keys.now count) }
{
    let orders = orders_of(alloc, sort_keys)?;
    sorted_numbers(alloc, &orders, keys, count)
}

fn orders_of(alloc: Global, sort_keys: &[PlanKey]) -> Result<Vec<KeyOrder>, AllocError>
    ensures { IfOk result (λ orders. orders.items ≡ map order_of_key sort_keys.now) }
{
    let mut orders = Vec::new(alloc);
    for key in sort_keys {
        orders.push(key.order)?;
    }
    Ok(orders)
}

// What stands from a number on.
pub(crate) fn elements_from<T>(elements: &[T], first: usize) -> &[T]
    ensures { result.now ≡ drop first elements.now }
{
    if first <= elements.len() {
        &elements[first..]
    } else {
        &[]
    }
}
