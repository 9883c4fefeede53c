// Types with other types in the place of their item types.

ghost use Rattle.std.specs.Prelude.{◌≡◌, ◌++◌, IfOk, OnOk};
ghost use Rattle.gx_types.specs.SequenceType.{SequenceType};
ghost use Rattle.gx_types.specs.declared.item_type.ItemType.{ItemType as KindOfItem};
ghost use Rattle.gx_steptype.specs.Replaced.{replaced_items, alternatives};

use gx_types::item_type::ItemType;
use gx_types::sequence_type::{Ty, TyNode};
use gx_types::type_rules::{choose, join, optional, plus, star};
use std::alloc::{AllocError, Global};

/// What stands in the place of an item type.
pub trait Replacement {
    ghost gives: { Self → KindOfItem → SequenceType };

    // What was found for one item type may be kept for the next.
    ghost fits: { Self → Type 0 };

    fn replace(&mut self, alloc: Global, item: &ItemType) -> Result<Ty, AllocError>
        requires { fits self.old }
        ensures same { gives self.new ≡ gives self.old }
        ensures fits { fits self.new }
        ensures given { IfOk result (λ t. t ≡ gives self.old item.now) };
}

/// A type with what a replacement gives in the place of each item type, however long it is.
#[cycle(replace)]
pub fn replace<R: Replacement>(alloc: Global, with: &mut R, t: &Ty) -> Result<Ty, AllocError>
    requires { R.fits with.old }
    ensures same { R.gives with.new ≡ R.gives with.old }
    ensures fits { R.fits with.new }
    ensures replaced { IfOk result (λ u. u ≡ replaced_items (R.gives with.old) t.now) }
{
    match &t.node {
        TyNode::Never => Ok(Ty::none()),
        TyNode::Empty => Ok(Ty::empty()),
        TyNode::Item(kind) => with.replace(alloc, kind),
        TyNode::Seq(first, second) => {
            let first = replace(alloc, with, first)?;
            let second = replace(alloc, with, second)?;
            join(alloc, &first, &second)
        }
        TyNode::Alt(first, second) => {
            let mut members = Vec::new(alloc);
            add_alternatives(alloc, with, first, &mut members)?;
            add_alternatives(alloc, with, second, &mut members)?;
            choose(alloc, &members)
        }
        TyNode::Optional(part) => optional(alloc, &replace(alloc, with, part)?),
        TyNode::Star(part) => star(alloc, &replace(alloc, with, part)?),
        TyNode::Plus(part) => plus(alloc, &replace(alloc, with, part)?),
    }
}

// Adds what a type gives to a choice: of a choice what its members give.
#[cycle(replace)]
fn add_alternatives<R: Replacement>(
    alloc: Global,
    with: &mut R,
    t: &Ty,
    members: &mut Vec<Ty>,
) -> Result<(), AllocError>
    requires { R.fits with.old }
    ensures same { R.gives with.new ≡ R.gives with.old }
    ensures fits { R.fits with.new }
    ensures added { OnOk result (members.new.items ≡ members.old.items ++ alternatives (R.gives with.old) t.now) }
{
    match &t.node {
        TyNode::Alt(first, second) => {
            add_alternatives(alloc, with, first, members)?;
            add_alternatives(alloc, with, second, members)
        }
        _ => Ok(members.push(replace(alloc, with, t)?)?),
    }
}
