// Content of constructors.

ghost use Rattle.std.specs.Prelude.{◌≡◌, ◌∷◌, [], ◌++◌, List, Some, IfOk, OnOk};
ghost use Rattle.std.specs.Option.{option_map};
ghost use Rattle.gx_facets.specs.Value.{printed_value};
ghost use Rattle.gx_tree.specs.PlainTree.{PlainTree, text as a_text};
ghost use Rattle.gx_model.specs.Forest.{node_in};
ghost use Rattle.gx_nodes.specs.Entries.{place_of_number};
ghost use Rattle.gx_store.specs.Items.{items_in};
ghost use Rattle.gx_core.specs.Constructing.{children_or_self, copies_of, content_after, content_of_parts, merged_content};
ghost use Rattle.gx_build.specs.Parts.{parts_in};
ghost use Rattle.gx_build.specs.Making.{content_seen, content_with, content_if, space_if, text_if, is_atom as is_atomic_value, item_content};

use gx_base::text_builder::TextBuilder;
use gx_facets::{Atomic, print_value};
use gx_store::item::Item;
use gx_store::number::NodeId;
use gx_store::store::Store;
use gx_tree::tree::{Tree, TreeNode};
use std::alloc::{AllocError, Global};
use std::mem;

// The content of parts, where texts that stand side by side are one; None where the store has not a node of it.
pub(crate) fn content_of(
    store: &Store,
    parts: &[Vec<Item>],
) -> Result<Option<Vec<Tree>>, AllocError>
    ensures { IfOk result (λ found. option_map (λ ts. ts.items) found ≡ option_map merged_content (content_of_parts store.now (parts_in store.now parts.now))) }
{
    let mut content = Content::new(store.allocator());
    for part in parts {
        if !content.push_part(store, part.as_slice())? {
            return Ok(None);
        }
    }
    Ok(Some(content.finish()?))
}

// The same of one part.
pub(crate) fn content_of_items(
    store: &Store,
    items: &[Item],
) -> Result<Option<Vec<Tree>>, AllocError>
    ensures { IfOk result (λ found. option_map (λ ts. ts.items) found ≡ option_map merged_content (content_of_parts store.now (items_in store.now items.now ∷ []))) }
{
    let mut content = Content::new(store.allocator());
    if !content.push_part(store, items)? {
        return Ok(None);
    }
    Ok(Some(content.finish()?))
}

// Trees that are done, and behind them a text that may go on.
#[derive(Drop)]
pub(crate) struct Content {
    alloc: Global,
    trees: Vec<Tree>,
    pending: TextBuilder,
}

impl Content {
    fn new(alloc: Global) -> Content
        ensures { (rest : List PlainTree) → content_seen result rest ≡ merged_content rest }
    {
        Content {
            alloc,
            trees: Vec::new(alloc),
            pending: TextBuilder::new(alloc),
        }
    }

    // Puts what a part gives behind the content; false where the store has not a node of it.
    fn push_part(&mut self, store: &Store, part: &[Item]) -> Result<bool, AllocError>
        ensures { (rest : List PlainTree) → IfOk result (λ found. content_if found self.new rest ≡ content_with self.old (content_after store.now [] (items_in store.now part.now)) rest) }
    {
        let mut behind_value = false;
        for item in part {
            if !self.push_item(store, item, behind_value)? {
                return Ok(false);
            }
            behind_value = is_atom(item);
        }
        Ok(true)
    }

    // The same of one item, behind another value of its part or not.
    fn push_item(
        &mut self,
        store: &Store,
        item: &Item,
        behind_value: bool,
    ) -> Result<bool, AllocError>
        ensures { (rest : List PlainTree) → IfOk result (λ found. content_if found self.new rest ≡ content_with self.old (item_content behind_value store.now item.now) rest) }
    {
        match item {
            Item::Atom(value) => {
                self.push_value(value, behind_value)?;
                Ok(true)
            }
            Item::Node(node) => self.push_copies(store, *node),
        }
    }

    // Puts the text of an atomic value behind the content.
    fn push_value(&mut self, value: &Atomic, behind_value: bool) -> Result<(), AllocError>
        ensures { (rest : List PlainTree) → OnOk result (content_seen self.new rest ≡ content_seen self.old (a_text (space_if behind_value ++ printed_value value.now.value) ∷ rest)) }
    {
        let text = print_value(self.alloc, &value.value)?;
        push_space(&mut self.pending, behind_value)?;
        self.pending.push_text(&text)?;
        Ok(())
    }

    // Puts copies of what a node gives behind the content; false where the store has not the node.
    fn push_copies(&mut self, store: &Store, node: NodeId) -> Result<bool, AllocError>
        ensures { (rest : List PlainTree) → IfOk result (λ found. content_if found self.new rest ≡ content_with self.old (option_map copies_of (node_in store.now (place_of_number store.now node.number))) rest) }
    {
        let Some(copy) = store.to_erased_tree(node)? else {
            return Ok(false);
        };
        self.push_erased(copy)?;
        Ok(true)
    }

    // Puts a node behind the content, and of a document its children.
    fn push_erased(&mut self, tree: Tree) -> Result<(), AllocError>
        ensures { (rest : List PlainTree) → OnOk result (content_seen self.new rest ≡ content_seen self.old (children_or_self tree ++ rest)) }
    {
        match tree.node {
            TreeNode::Document(children) => self.push_nodes(children),
            node => self.push_node(Tree { node }),
        }
    }

    fn push_nodes(&mut self, trees: Vec<Tree>) -> Result<(), AllocError>
        ensures { (rest : List PlainTree) → OnOk result (content_seen self.new rest ≡ content_seen self.old (trees.items ++ rest)) }
    {
        for tree in trees {
            self.push_node(tree)?;
        }
        Ok(())
    }

    // Puts a node behind the content.
    fn push_node(&mut self, tree: Tree) -> Result<(), AllocError>
        ensures { (rest : List PlainTree) → OnOk result (content_seen self.new rest ≡ content_seen self.old (tree ∷ rest)) }
    {
        if let TreeNode::Text(text) = &tree.node {
            self.pending.push_text(text)?;
            return Ok(());
        }
        self.end_text()?;
        self.trees.push(tree)?;
        Ok(())
    }

    // Ends the text that may go on.
    fn end_text(&mut self) -> Result<(), AllocError>
        ensures trees { OnOk result (self.new.trees.items ≡ self.old.trees.items ++ text_if self.old.pending) }
        ensures pending { OnOk result (self.new.pending ≡ []) }
    {
        if self.pending.is_empty() {
            return Ok(());
        }
        let text = mem::replace(&mut self.pending, TextBuilder::new(self.alloc)).finish()?;
        self.trees.push(Tree {
            node: TreeNode::Text(text),
        })?;
        Ok(())
    }

    // All of the content.
    fn finish(self) -> Result<Vec<Tree>, AllocError>
        ensures { IfOk result (λ trees. trees.items ≡ content_seen self []) }
    {
        let mut content = self;
        content.end_text()?;
        let Content {
            alloc: _,
            trees,
            pending: _,
        } = content;
        Ok(trees)
    }
}

fn is_atom(item: &Item) -> bool
    ensures { result ≡ is_atomic_value item.now }
{
    matches!(item, Item::Atom(_))
}

// Puts a space behind a text, if it is to stand between two values.
fn push_space(text: &mut TextBuilder, behind_value: bool) -> Result<(), AllocError>
    ensures { OnOk result (text.new ≡ text.old ++ space_if behind_value) }
{
    if behind_value {
        text.push(' ')?;
    }
    Ok(())
}
