// Trees of nodes.

ghost use Rattle.std.specs.Prelude.{◌≡◌, ℕ, suc, ◌+◌, ◌<◌, ◌≤◌, [], ◌∷◌, ◌++◌, map, IfOk, OnOk};
ghost use Rattle.std.specs.Option.{option_map};
ghost use Rattle.gx_tree.specs.Erasure.{erased};
ghost use Rattle.gx_model.specs.Forest.{Forest as PlainForest, node_in, own_attributes};
ghost use Rattle.gx_model.specs.Growth.{Extends};
ghost use Rattle.gx_nodes.specs.Entries.{count_in, entry_in, place_of_number};
ghost use Rattle.gx_nodes.specs.Rows.{attributes_among};
ghost use Rattle.gx_store.specs.Stored.{below_in, attributes_at};
ghost use Rattle.gx_store.specs.declared.to_tree.Annotations.{Annotations as PlainAnnotations};
ghost use Rattle.gx_store.specs.Copied.{tree_as, attribute_as, kind_as, copy_of, IsCopying, AreRound, AreCopying, IsCopiedOr, left_to_copy};

use crate::labels::Label;
use crate::number::NodeId;
use crate::row::Form;
use crate::store::Store;
use gx_base::stack::Stack;
use gx_base::text::Text;
use gx_base::type_name::{Builtin, TypeName};
use gx_tree::attribute::Attribute;
use gx_tree::tree::{Tree, TreeNode};
use std::alloc::AllocError;

// Whether copies keep their types.
#[derive(Clone, Copy)]
pub(crate) enum Annotations {
    Kept,
    Erased,
}

// A node that is copied: copies of the first of its children, and where the others stand.
#[derive(Drop)]
pub(crate) struct Copying {
    node: NodeId,
    copied: Vec<Tree>,
    next: usize,
    end: usize,
}

impl Store {
    /// A copy of a node with all that it holds, which shares its names and texts; None exactly where the store has not the node.
    pub fn to_tree(&self, node: NodeId) -> Result<Option<Tree>, AllocError>
        ensures { (later : PlainForest) → Extends self.now later → IfOk result (λ copy. copy ≡ node_in self.now (place_of_number later node.number)) }
    {
        if self.has(node) {
            Ok(Some(self.copy(node, Annotations::Kept)?))
        } else {
            Ok(None)
        }
    }

    /// The same with every element xs:untyped and every attribute xs:untypedAtomic.
    pub fn to_erased_tree(&self, node: NodeId) -> Result<Option<Tree>, AllocError>
        ensures { (later : PlainForest) → Extends self.now later → IfOk result (λ copy. copy ≡ option_map erased (node_in self.now (place_of_number later node.number))) }
    {
        if self.has(node) {
            Ok(Some(self.copy(node, Annotations::Erased)?))
        } else {
            Ok(None)
        }
    }

    // A copy of a node that the store has.
    fn copy(&self, node: NodeId, annotations: Annotations) -> Result<Tree, AllocError>
        requires { node.number < count_in self.now }
        ensures { IfOk result (λ tree. tree ≡ copy_of annotations self.now node.number) }
    {
        let mut opened = Stack::new(self.allocator());
        opened.push(self.begin(node))?;
        while let Some(here) = opened.pop() {
            if let Some(tree) = self.go_on(&mut opened, here, annotations)? {
                return Ok(tree);
            }
        }
        unreachable!()
    }

    // A node of which nothing is copied yet.
    fn begin(&self, node: NodeId) -> Copying
        requires { node.number < count_in self.now }
        ensures begun { (annotations : PlainAnnotations) → IsCopying annotations self.now [] result }
        ensures node { result.node ≡ node }
        ensures next { result.next ≡ suc (node.number + attributes_at self.now node.number) }
        ensures end { result.end ≡ suc (node.number + below_in self.now node.number) }
    {
        Copying {
            node,
            copied: Vec::new(self.allocator()),
            next: self.after_attributes(node.number),
            end: self.after(node.number),
        }
    }

    // Begins with the next child of a node, or ends the node where no child is left; the copy where this was the outermost node.
    fn go_on(
        &self,
        opened: &mut Stack<Copying>,
        here: Copying,
        annotations: Annotations,
    ) -> Result<Option<Tree>, AllocError>
        requires { IsCopying annotations self.now [] here }
        ensures copied { (root : ℕ) → AreRound annotations self.now root here.node.number opened.old → IfOk result (IsCopiedOr (AreCopying annotations self.now root opened.new) (copy_of annotations self.now root)) }
        ensures less { OnOk result (left_to_copy self.now opened.new < left_to_copy self.now (here ∷ opened.old)) }
    {
        if here.next < here.end {
            self.begin_next(opened, here)?;
            return Ok(None);
        }
        let tree = self.end(here, annotations)?;
        match opened.pop() {
            Some(outer) => {
                put_copy(opened, outer, tree)?;
                Ok(None)
            }
            None => Ok(Some(tree)),
        }
    }

    // Begins with the next child of a node.
    fn begin_next(&self, opened: &mut Stack<Copying>, here: Copying) -> Result<(), AllocError>
        requires left { here.next < here.end }
        requires within { here.end ≤ count_in self.now }
        ensures copied { (annotations : PlainAnnotations) (root : ℕ) → IsCopying annotations self.now [] here → AreRound annotations self.now root here.node.number opened.old → OnOk result (AreCopying annotations self.now root opened.new) }
        ensures less { OnOk result (left_to_copy self.now opened.new < left_to_copy self.now (here ∷ opened.old)) }
    {
        let child = NodeId { number: here.next };
        let mut rest = here;
        rest.next = self.after(child.number);
        opened.push(rest)?;
        opened.push(self.begin(child))?;
        Ok(())
    }

    // The copy of a node whose children are all copied.
    fn end(&self, here: Copying, annotations: Annotations) -> Result<Tree, AllocError>
        requires copying { IsCopying annotations self.now [] here }
        requires all { here.end ≤ here.next }
        ensures { IfOk result (λ tree. tree ≡ copy_of annotations self.now here.node.number) }
    {
        let Copying {
            node,
            copied,
            next: _,
            end: _,
        } = here;
        match self.form(node.number) {
            Form::Document => Ok(Tree {
                node: TreeNode::Document(copied),
            }),
            Form::Element {
                label: _,
                attributes: _,
            } => {
                let label = self.label_of(node);
                Ok(Tree {
                    node: TreeNode::Element {
                        name: label.name.clone()?,
                        kind: kind_of_copy(&label.kind, Builtin::Untyped, annotations)?,
                        attributes: self.own_attributes(node, annotations)?,
                        children: copied,
                    },
                })
            }
            Form::Attribute { label: _, value } => Ok(Tree {
                node: TreeNode::Attribute(attribute(self.label_of(node), value, annotations)?),
            }),
            Form::Text(text) => Ok(Tree {
                node: TreeNode::Text(text.clone()?),
            }),
        }
    }

    // Copies of the attributes of a node that the store has.
    fn own_attributes(
        &self,
        node: NodeId,
        annotations: Annotations,
    ) -> Result<Vec<Attribute>, AllocError>
        requires { node.number < count_in self.now }
        ensures { IfOk result (λ list. list.items ≡ map (attribute_as annotations) (own_attributes (entry_in self.now node.number).tree)) }
    {
        let mut list = Vec::new(self.allocator());
        for own in self.attributes_of(node.number) {
            self.push_attribute(&mut list, own, annotations)?;
        }
        Ok(list)
    }

    // Puts a copy of a node behind others, if it is an attribute.
    fn push_attribute(
        &self,
        list: &mut Vec<Attribute>,
        node: NodeId,
        annotations: Annotations,
    ) -> Result<(), AllocError>
        ensures { OnOk result (list.new.items ≡ list.old.items ++ map (attribute_as annotations) (attributes_among ((entry_in self.now node.number).tree ∷ []))) }
    {
        let Some(row) = self.row(node.number) else {
            return Ok(());
        };
        if let Form::Attribute { label: _, value } = &row.form {
            make_room(list)?;
            list.push(attribute(self.label_of(node), value, annotations)?)?;
        }
        Ok(())
    }
}

// Puts the copy of a child behind those of the children before it.
fn put_copy(opened: &mut Stack<Copying>, outer: Copying, tree: Tree) -> Result<(), AllocError>
    ensures copied { (annotations : PlainAnnotations) (forest : PlainForest) (root inner : ℕ) → AreRound annotations forest root inner (outer ∷ opened.old) → tree ≡ copy_of annotations forest inner → OnOk result (AreCopying annotations forest root opened.new) }
    ensures less { (forest : PlainForest) → OnOk result (left_to_copy forest opened.new ≡ left_to_copy forest (outer ∷ opened.old)) }
{
    let mut here = outer;
    make_room(&mut here.copied)?;
    here.copied.push(tree)?;
    opened.push(here)
}

// Makes room for one more, and for one alone where it is the first.
fn make_room<T: Drop>(items: &mut Vec<T>) -> Result<(), AllocError>
    ensures { items.new.items ≡ items.old.items }
{
    if items.is_empty() {
        items.reserve_exact(1)?;
    }
    Ok(())
}

fn attribute(label: &Label, value: &Text, annotations: Annotations) -> Result<Attribute, AllocError>
    ensures { IfOk result (λ a. a ≡ attribute_as annotations (record { name = label.now.name; kind = label.now.kind; value = value.now })) }
{
    Ok(Attribute {
        name: label.name.clone()?,
        kind: kind_of_copy(&label.kind, Builtin::UntypedAtomic, annotations)?,
        value: value.clone()?,
    })
}

// The type that a copy has, where this is the type of those without types.
fn kind_of_copy(
    kind: &TypeName,
    without: Builtin,
    annotations: Annotations,
) -> Result<TypeName, AllocError>
    ensures { IfOk result (λ copy. copy ≡ kind_as annotations without kind.now) }
{
    match annotations {
        Annotations::Kept => kind.clone(),
        Annotations::Erased => Ok(TypeName::Builtin(without)),
    }
}
