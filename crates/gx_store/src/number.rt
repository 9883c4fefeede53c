// Numbers of nodes.

ghost use Rattle.std.specs.Prelude.{◌≡◌, IfOk};

use std::alloc::AllocError;
use std::cmp::Ordering;

/// A node of a store: how many nodes of the store come before it in document order.
#[derive(Clone, Copy)]
pub struct NodeId {
    pub number: usize,
}

impl PartialEq for NodeId {
    ghost use Rattle.std.specs.Cmp.{partial_equiv_from_equiv};
    ghost use Rattle.gx_store.specs.NumberOrder.{number_eq, numbers_are_equivalent};

    ghost eq = { number_eq };

    ghost laws = { partial_equiv_from_equiv numbers_are_equivalent };

    fn eq(&self, other: &NodeId) -> bool {
        self.number == other.number
    }
}

impl Eq for NodeId {
    ghost use Rattle.gx_store.specs.NumberOrder.{numbers_are_equivalent};

    ghost laws = { numbers_are_equivalent };
}

impl Ord for NodeId {
    ghost use Rattle.std.specs.Cmp.Rules.{comparing};
    ghost use Rattle.std.proofs.Common.{rules};
    ghost use Rattle.gx_store.specs.NumberOrder.{number_cmp, numbers_are_ordered};

    ghost cmp = { number_cmp };

    ghost total = { numbers_are_ordered };

    ghost matches_partial_cmp = { Prim.search (comparing, rules) };

    ghost matches_eq = { Prim.search (comparing, rules) };

    // Document order.
    fn cmp(&self, other: &NodeId) -> Ordering {
        self.number.cmp(&other.number)
    }
}

impl PartialOrd for NodeId {
    ghost use Rattle.std.specs.Cmp.{partial_order_from_own_ties};
    ghost use Rattle.std.specs.Cmp.Rules.{comparing};
    ghost use Rattle.std.specs.Ordering.{as_partial_cmp};
    ghost use Rattle.std.proofs.Common.{rules};
    ghost use Rattle.gx_store.specs.NumberOrder.{number_cmp};

    ghost partial_cmp = { as_partial_cmp number_cmp };

    ghost laws = { partial_order_from_own_ties (Prim.search (comparing, rules)) (Prim.search (comparing, rules)) };

    fn partial_cmp(&self, other: &NodeId) -> Option<Ordering> {
        Some(self.cmp(other))
    }
}

// A count of nodes, of which no memory holds more.
pub(crate) fn narrow(number: usize) -> Result<u32, AllocError>
    ensures { IfOk result (λ narrowed. narrowed ≡ number) }
{
    match u32::try_from(number) {
        Ok(narrowed) => Ok(narrowed),
        Err(_) => Err(AllocError),
    }
}
