// Trees, made of their parts.

use gx_base::text::Text;
use gx_tree::attribute::Attribute;
use gx_tree::tree::{Tree, TreeNode};
use rows_words::names::{name, type_name};
use std::alloc::{AllocError, Global};
use std::mem;

/// What a row has made so far: attributes for the next element, and trees that no element holds yet.
#[derive(Drop)]
pub struct Parts {
    attributes: Vec<Attribute>,
    trees: Vec<Tree>,
}

impl Parts {
    pub fn new(alloc: Global) -> Parts {
        Parts {
            attributes: Vec::new(alloc),
            trees: Vec::new(alloc),
        }
    }

    /// The trees that no element or document holds.
    pub fn trees(&self) -> &[Tree] {
        self.trees.as_slice()
    }

    /// Takes what the words say, each part behind its own parts.
    pub fn take_words(&mut self, alloc: Global, words: &[&str]) -> Result<(), AllocError> {
        let mut taken = 0usize;
        for _ in words {
            let rest = words.get(taken..).unwrap_or(&[]);
            taken = taken.saturating_add(self.take_part(alloc, rest)?);
        }
        Ok(())
    }

    // Takes the part that the first words say, and gives the number of these words.
    fn take_part(&mut self, alloc: Global, words: &[&str]) -> Result<usize, AllocError> {
        match words {
            ["text", text, ..] => {
                self.text(alloc, text)?;
                Ok(2)
            }
            ["attribute", name, kind, value, ..] => {
                self.attribute(alloc, name, kind, value)?;
                Ok(4)
            }
            ["element", name, kind, children, ..] => {
                self.element(alloc, name, kind, children)?;
                Ok(4)
            }
            ["document", children, ..] => {
                self.document(children)?;
                Ok(2)
            }
            ["lone", ..] => {
                self.lone_attributes(alloc)?;
                Ok(1)
            }
            _ => Ok(0),
        }
    }

    /// The trees, with the allocator's vector.
    pub fn into_trees(self) -> Vec<Tree> {
        let Parts {
            attributes: _,
            trees,
        } = self;
        trees
    }

    fn text(&mut self, alloc: Global, text: &str) -> Result<(), AllocError> {
        let node = TreeNode::Text(Text::from_str(alloc, text)?);
        Ok(self.trees.push(Tree { node })?)
    }

    fn attribute(
        &mut self,
        alloc: Global,
        named: &str,
        kind: &str,
        value: &str,
    ) -> Result<(), AllocError> {
        let attribute = Attribute {
            name: name(alloc, named)?,
            kind: type_name(alloc, kind)?,
            value: Text::from_str(alloc, value)?,
        };
        Ok(self.attributes.push(attribute)?)
    }

    // An element of the attributes so far and the last trees.
    fn element(
        &mut self,
        alloc: Global,
        named: &str,
        kind: &str,
        children: &str,
    ) -> Result<(), AllocError> {
        let name = name(alloc, named)?;
        let kind = type_name(alloc, kind)?;
        let children = self.take_trees(children)?;
        let node = TreeNode::Element {
            name,
            kind,
            attributes: mem::replace(&mut self.attributes, Vec::new(alloc)),
            children,
        };
        Ok(self.trees.push(Tree { node })?)
    }

    fn document(&mut self, children: &str) -> Result<(), AllocError> {
        let node = TreeNode::Document(self.take_trees(children)?);
        Ok(self.trees.push(Tree { node })?)
    }

    // The attributes so far, each as a tree of its own.
    fn lone_attributes(&mut self, alloc: Global) -> Result<(), AllocError> {
        for attribute in mem::replace(&mut self.attributes, Vec::new(alloc)) {
            let node = TreeNode::Attribute(attribute);
            self.trees.push(Tree { node })?;
        }
        Ok(())
    }

    // So many of the last trees.
    fn take_trees(&mut self, count: &str) -> Result<Vec<Tree>, AllocError> {
        let count = count.parse::<usize>().unwrap_or(0);
        let kept = self.trees.len().saturating_sub(count);
        self.trees.split_off(kept)
    }
}
