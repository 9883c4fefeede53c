// The attributes, the children and the descendants of a node, in document order.

ghost use Rattle.std.specs.Prelude.{◌≡◌, suc, ◌+◌, ◌<◌, map};
ghost use Rattle.gx_model.specs.Forest.{Forest as PlainForest};
ghost use Rattle.gx_model.specs.Growth.{Extends};
ghost use Rattle.gx_nodes.specs.Entries.{count_in, place_of_number};
ghost use Rattle.gx_nodes.specs.Near.{attributes_in, child_nodes_in, descendants_in};
ghost use Rattle.gx_store.specs.Stored.{below_in, attributes_at};
ghost use Rattle.gx_store.specs.Left.{children_left, attributes_left, descendants_left};

use crate::number::NodeId;
use crate::store::Store;
use std::marker::Model;

// The nodes below a node that are gone over.
#[derive(Clone, Copy)]
pub(crate) enum Group {
    Attributes,
    Children,
    Descendants,
}

/// The nodes of one group below a node that are left, which contracts see as a list: its attributes, its children or its descendants.
pub struct NodesBelow<'a> {
    store: &'a Store,
    group: Group,
    next: usize,
    end: usize,
}

impl<'a> Model for NodesBelow<'a> {
    ghost use Rattle.std.specs.Prelude.{List};
    ghost use Rattle.gx_store.specs.declared.number.NodeId.{NodeId};

    ghost Value = { List NodeId };

    ghost use Rattle.std.specs.Prelude.{◌≤◌};
    ghost use Rattle.gx_nodes.specs.Entries.{count_in};
    ghost use Rattle.gx_store.specs.Left.{nodes_left};

    ghost view = { λ c. nodes_left c.group c.store.now c.next c.end };

    ghost invariant = { λ c. c.end ≤ count_in c.store.now };
}

impl Drop for NodesBelow<'_> {
    fn drop(self) {
        let NodesBelow {
            store: _store,
            group: _group,
            next: _next,
            end: _end,
        } = self;
    }
}

impl Iterator for NodesBelow<'_> {
    type Item = NodeId;

    ghost use Rattle.std.specs.Iterator.{YieldsFirst, item_count};

    ghost next_gives = { YieldsFirst (λ c. c) };

    ghost remaining = { item_count (λ c. c) };

    fn next(&mut self) -> Option<NodeId> {
        if self.next >= self.end {
            return None;
        }
        let number = self.next;
        self.next = self.store.behind(self.group, number);
        Some(NodeId { number })
    }
}

impl Store {
    /// The children of a node, in order; none where the store has not the node.
    pub fn children(&self, node: NodeId) -> NodesBelow<'_>
        ensures { (later : PlainForest) → Extends self.now later → map (λ m. place_of_number later m.number) result ≡ child_nodes_in self.now (place_of_number later node.number) }
    {
        if self.has(node) {
            self.children_of(node.number)
        } else {
            NodesBelow {
                store: self,
                group: Group::Children,
                next: 0,
                end: 0,
            }
        }
    }

    // The children of a number's node, by their numbers.
    pub(crate) fn children_of(&self, number: usize) -> NodesBelow<'_>
        requires { number < count_in self.now }
        ensures { result ≡ children_left self.now (suc (number + attributes_at self.now number)) (suc (number + below_in self.now number)) }
    {
        NodesBelow {
            store: self,
            group: Group::Children,
            next: self.after_attributes(number),
            end: self.after(number),
        }
    }

    /// The attributes of a node, in order; none where the store has not the node.
    pub fn attributes(&self, node: NodeId) -> NodesBelow<'_>
        ensures { (later : PlainForest) → Extends self.now later → map (λ m. place_of_number later m.number) result ≡ attributes_in self.now (place_of_number later node.number) }
    {
        if self.has(node) {
            self.attributes_of(node.number)
        } else {
            NodesBelow {
                store: self,
                group: Group::Attributes,
                next: 0,
                end: 0,
            }
        }
    }

    // The attributes of a number's node, by their numbers.
    pub(crate) fn attributes_of(&self, number: usize) -> NodesBelow<'_>
        requires { number < count_in self.now }
        ensures { result ≡ attributes_left (suc number) (suc (number + attributes_at self.now number)) }
    {
        NodesBelow {
            store: self,
            group: Group::Attributes,
            next: self.following(number),
            end: self.after_attributes(number),
        }
    }

    /// The descendants of a node in document order, attributes not among them; none where the store has not the node.
    pub fn descendants(&self, node: NodeId) -> NodesBelow<'_>
        ensures { (later : PlainForest) → Extends self.now later → map (λ m. place_of_number later m.number) result ≡ descendants_in self.now (place_of_number later node.number) }
    {
        self.descendants_of(node)
    }

    // The same, by their numbers.
    pub(crate) fn descendants_of(&self, node: NodeId) -> NodesBelow<'_>
        ensures { result ≡ descendants_left self.now (suc (node.number + attributes_at self.now node.number)) (suc (node.number + below_in self.now node.number)) }
    {
        if self.has(node) {
            NodesBelow {
                store: self,
                group: Group::Descendants,
                next: self.after_attributes(node.number),
                end: self.after(node.number),
            }
        } else {
            NodesBelow {
                store: self,
                group: Group::Descendants,
                next: 0,
                end: 0,
            }
        }
    }
}
