// Nodes of a forest.

ghost use Rattle.std.specs.Prelude.{◌≡◌, ◌++◌, [], map, IfOk, OnOk, None};
ghost use Rattle.gx_model.specs.Location.{node_of_tree};
ghost use Rattle.gx_model.specs.Stepping.{kept_if};

use crate::path::Path;
use std::alloc::{AllocError, Global};
use std::cmp::Ordering;
use std::marker::Model;

/// A node of a forest: the number of its tree, the positions that lead to it from the root, and the position of the
/// attribute where it is one, all counted from 0 (XQuery 1.0 and XPath 2.0 Data Model, section 2.4). Copying it takes no memory.
#[derive(Drop)]
pub struct Node {
    pub tree: usize,
    pub path: Path,
    pub attribute: Option<usize>,
}

impl Model for Node {
    ghost use Rattle.gx_model.specs.Forest.{PlainNode};

    ghost Value = { PlainNode };

    ghost view = { λ n. record { tree = n.tree; path = n.path; attribute = n.attribute } };
}

impl Node {
    /// The root of a tree.
    pub fn root(alloc: Global, tree: usize) -> Result<Node, AllocError>
        ensures { IfOk result (λ node. node ≡ record { tree = tree; path = []; attribute = None }) }
    {
        Ok(Node {
            tree,
            path: Path::from_vec(alloc, Vec::new(alloc))?,
            attribute: None,
        })
    }
}

impl Clone for Node {
    ghost is_clone = { λ node copy. copy ≡ node };

    // The copy shares the path.
    fn clone(&self) -> Result<Node, AllocError> {
        Ok(Node {
            tree: self.tree,
            path: self.path.clone()?,
            attribute: self.attribute,
        })
    }
}

impl PartialEq for Node {
    ghost use Rattle.std.specs.Cmp.Rules.{comparing};
    ghost use Rattle.std.proofs.Common.{rules};
    ghost use Rattle.gx_model.specs.NodeOrder.{node_eq};

    ghost eq = { node_eq };

    ghost laws = { Prim.search (comparing, rules) };

    fn eq(&self, other: &Node) -> bool {
        self.tree == other.tree
            && self.path.as_slice() == other.path.as_slice()
            && self.attribute == other.attribute
    }
}

impl Eq for Node {
    ghost use Rattle.std.specs.Cmp.Rules.{comparing};
    ghost use Rattle.std.proofs.Common.{rules};

    ghost laws = { Prim.search (comparing, rules) };
}

impl Ord for Node {
    ghost use Rattle.std.specs.Cmp.Rules.{comparing};
    ghost use Rattle.std.proofs.Common.{rules};
    ghost use Rattle.gx_model.specs.NodeOrder.{node_cmp};

    ghost cmp = { node_cmp };

    ghost total = { Prim.search (comparing, rules) };

    ghost matches_partial_cmp = { Prim.search (comparing, rules) };

    ghost matches_eq = { Prim.search (comparing, rules) };

    // Document order: a path comes before those that go on from it.
    fn cmp(&self, other: &Node) -> Ordering {
        self.tree
            .cmp(&other.tree)
            .then(self.path.as_slice().cmp(other.path.as_slice()))
            .then(self.attribute.cmp(&other.attribute))
    }
}

impl PartialOrd for Node {
    ghost use Rattle.std.specs.Cmp.{partial_order_from_own_ties};
    ghost use Rattle.std.specs.Cmp.Rules.{comparing};
    ghost use Rattle.std.specs.Ordering.{as_partial_cmp};
    ghost use Rattle.std.proofs.Common.{rules};
    ghost use Rattle.gx_model.specs.NodeOrder.{node_cmp};

    ghost partial_cmp = { as_partial_cmp node_cmp };

    ghost laws = { partial_order_from_own_ties (Prim.search (comparing, rules)) (Prim.search (comparing, rules)) };

    fn partial_cmp(&self, other: &Node) -> Option<Ordering> {
        Some(self.cmp(other))
    }
}

// The node at a place of a tree.
fn node_at(
    alloc: Global,
    tree: usize,
    path: &[usize],
    attribute: Option<usize>,
) -> Result<Node, AllocError>
    ensures { IfOk result (λ node. node ≡ record { tree = tree; path = path.now; attribute = attribute }) }
{
    Ok(Node {
        tree,
        path: Path::from_vec(alloc, Vec::from_slice(alloc, path)?)?,
        attribute,
    })
}

// Adds the node at a place of a tree, if it passes.
pub(crate) fn keep(
    alloc: Global,
    passes: bool,
    tree: usize,
    path: &[usize],
    attribute: Option<usize>,
    found: &mut Vec<Node>,
) -> Result<(), AllocError>
    ensures { OnOk result (found.new.items ≡ found.old.items ++ map (node_of_tree tree) (kept_if passes (record { path = path.now; attribute = attribute }))) }
{
    if passes {
        found.push(node_at(alloc, tree, path, attribute)?)?;
    }
    Ok(())
}

// Adds the node at a place of a tree, if it passes, with a path that is shared.
pub(crate) fn keep_sharing(
    passes: bool,
    tree: usize,
    path: &Path,
    attribute: Option<usize>,
    found: &mut Vec<Node>,
) -> Result<(), AllocError>
    ensures { OnOk result (found.new.items ≡ found.old.items ++ map (node_of_tree tree) (kept_if passes (record { path = path.now; attribute = attribute }))) }
{
    if passes {
        let path = path.clone()?;
        found.push(Node {
            tree,
            path,
            attribute,
        })?;
    }
    Ok(())
}
