// Roots of nodes (Functions and Operators, section 14.9).

ghost use Rattle.std.specs.Prelude.{◌≡◌};
ghost use Rattle.std.specs.Option.{option_map};
ghost use Rattle.gx_model.specs.Forest.{Forest as PlainForest};
ghost use Rattle.gx_model.specs.Growth.{Extends};
ghost use Rattle.gx_model.specs.Roots.{root_in};
ghost use Rattle.gx_nodes.specs.Entries.{place_of_number};

use crate::number::NodeId;
use crate::store::Store;

impl Store {
    /// The root of the tree that a node is in, if the store has the node.
    pub fn root(&self, node: NodeId) -> Option<NodeId>
        ensures { (later : PlainForest) → Extends self.now later → option_map (λ root. place_of_number later root.number) result ≡ root_in self.now (place_of_number later node.number) }
    {
        if !self.has(node) {
            return None;
        }
        let mut root = node;
        while let Some(parent) = self.parent(root) {
            root = parent;
        }
        Some(root)
    }
}
