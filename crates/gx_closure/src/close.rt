// Sets that are closed under a step.

ghost use Rattle.std.specs.Prelude.{◌≡◌, ◌<◌, List, OnOk, length};
ghost use Rattle.std.specs.List.{slice_get};
ghost use Rattle.indexmap.specs.IndexSet.{insert_all};
ghost use Rattle.gx_closure.specs.Closure.{successors_of, IsGrown};

use indexmap::IndexSet;
use std::alloc::{AllocError, Global};
use std::hash::Hash;

/// What values lead to.
pub trait Step<T: Eq + Hash + Drop> {
    /// The values that a value leads to.
    ghost next: { Self → T → List T };

    /// What is kept between this and the values that are found so far.
    ghost fits: { Self → List T → Type 0 };

    /// Puts all that the value at a place leads to behind those that are found, unless an equal value is there.
    fn add_next(
        &mut self,
        alloc: Global,
        at: usize,
        found: &mut IndexSet<T>,
    ) -> Result<(), AllocError>
        requires within { at < length found.old.keys }
        requires fits { fits self.old found.old.keys }
        ensures added { OnOk result (found.new.keys ≡ insert_all T.eq found.old.keys (successors_of (next self.old) (slice_get found.old.keys at))) }
        ensures same { OnOk result (next self.new ≡ next self.old) }
        ensures fits { OnOk result (fits self.new found.new.keys) };
}

/// Puts all values that those of a set lead to behind them, breadth first: each value is looked at once.
pub fn close<T: Eq + Hash + Drop, S: Step<T>>(
    alloc: Global,
    step: &mut S,
    found: &mut IndexSet<T>,
) -> Result<(), AllocError>
    requires { S.fits step.old found.old.keys }
    ensures { OnOk result (IsGrown T.eq (S.next step.old) found.old.keys found.new.keys) }
{
    let mut at = 0;
    while at < found.len() {
        step.add_next(alloc, at, found)?;
        at += 1;
    }
    Ok(())
}
