// Whether items are deep-equal (Functions and Operators, section 15.3.1).

ghost use Rattle.std.specs.Prelude.{◌≡◌};
ghost use Rattle.gx_model.specs.Forest.{Forest as PlainForest};
ghost use Rattle.gx_model.specs.Growth.{Extends};
ghost use Rattle.gx_core.specs.DeepEqual.{are_deep_equal, are_equal_items};
ghost use Rattle.gx_store.specs.Items.{item_in, items_in};

use gx_funcs::distinct::are_equal_values;
use gx_store::item::Item;
use gx_store::store::Store;

// Whether two sequences are equal item by item.
pub(crate) fn are_deep_equal(store: &Store, xs: &[Item], ys: &[Item]) -> bool
    ensures { (later : PlainForest) → Extends store.now later → result ≡ are_deep_equal store.now (items_in later xs.now) (items_in later ys.now) }
{
    let mut left = xs;
    let mut others = ys;
    while let Some((x, behind)) = left.split_first() {
        let Some((y, beside)) = others.split_first() else {
            return false;
        };
        if !are_equal_items(store, x, y) {
            return false;
        }
        left = behind;
        others = beside;
    }
    others.is_empty()
}

// Whether two items are equal values or equal nodes.
fn are_equal_items(store: &Store, x: &Item, y: &Item) -> bool
    ensures { (later : PlainForest) → Extends store.now later → result ≡ are_equal_items store.now (item_in later x.now) (item_in later y.now) }
{
    match (x, y) {
        (Item::Atom(a), Item::Atom(b)) => are_equal_values(a, b),
        (Item::Node(a), Item::Node(b)) => store.are_deep_equal(*a, *b),
        _ => false,
    }
}
