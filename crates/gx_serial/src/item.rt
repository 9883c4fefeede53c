// What is serialised.
ghost use Rattle.std.specs.Prelude.{◌≡◌, ◌≤◌, List, [], ◌∷◌, ◌++◌, IfOk, OnOk, OnErr, IsErrOf};
ghost use Rattle.std.specs.Str.{encode_utf8_all};
ghost use Rattle.gx_io.specs.Faults.{Rose};
ghost use Rattle.gx_io.specs.Put.{GrowsBy, GrowsByPrefix};
ghost use Rattle.gx_serial.specs.declared.item.SerialItem.{SerialItem};
ghost use Rattle.gx_serial.specs.Answer.{answer_text, text_with};
ghost use Rattle.gx_serial.specs.Markup.{spelled_markup};
ghost use Rattle.gx_serial.specs.Marked.{marked};
ghost use Rattle.gx_serial.specs.Binding.{outermost_scope};

use crate::escape::push_text;
use crate::put::put_in_pieces;
use crate::write::push_tree;
use gx_base::text::Text;
use gx_base::text_builder::TextBuilder;
use gx_io::{PutError, Sink};
use gx_namespaces::bindings::Bindings;
use gx_tree::tree::Tree;
use std::alloc::{AllocError, Global};
use std::marker::Model;

/// An item of an answer: the text of an atomic value, or a node with all that it holds. A node is no attribute.
#[derive(Drop)]
pub enum SerialItem {
    Text(Text),
    Tree(Tree),
}

/// Puts the text of the items to the sink, in UTF-8 and in pieces of some kilobytes (XSLT 2.0 and XQuery 1.0
/// Serialization, sections 2 and 5). Adjacent atomic values are separated by one space; a document gives its children.
/// After a refusal the sink has grown by a prefix of the text.
pub fn serialise<S: Sink>(alloc: Global, items: &[SerialItem], sink: &mut S) -> Result<(), PutError>
    ensures ok { OnOk result (GrowsBy (S.written sink.old) (S.written sink.new) (encode_utf8_all (answer_text items.now))) }
    ensures err { OnErr result
        (GrowsByPrefix (S.written sink.old) (S.written sink.new) (encode_utf8_all (answer_text items.now))) }

    ensures counted { S.faults sink.old ≤ S.faults sink.new }
    ensures failed { IsErrOf result PutError.Failed → Rose (S.faults sink.old) (S.faults sink.new) }
{
    match answer_text(alloc, items) {
        Ok(text) => put_in_pieces(sink, text.as_str().as_bytes()),
        Err(_) => Err(PutError::Memory),
    }
}

/// The text of the items, which `serialise` puts.
pub fn answer_text(alloc: Global, items: &[SerialItem]) -> Result<TextBuilder, AllocError>
    ensures { IfOk result (λ text. text ≡ answer_text items.now) }
{
    let mut answer = AnswerText::new(alloc);
    for item in items {
        answer.add(alloc, item)?;
    }
    Ok(answer.into_text())
}

/// The text of an answer to which items are added one after another.
#[derive(Drop)]
pub struct AnswerText {
    text: TextBuilder,
    follows_value: bool,
}

impl Model for AnswerText {
    ghost use Rattle.gx_serial.specs.Answer.{PartialAnswer};

    ghost Value = { PartialAnswer };

    ghost view = { λ a. record { text = a.text; follows_value = a.follows_value } };
}

impl AnswerText {
    /// The answer without items.
    pub fn new(alloc: Global) -> AnswerText
        ensures { (items : List SerialItem) → text_with result items ≡ answer_text items }
    {
        AnswerText {
            text: TextBuilder::new(alloc),
            follows_value: false,
        }
    }

    /// Adds an item, with a space before an atomic value that follows another one.
    pub fn add(&mut self, alloc: Global, item: &SerialItem) -> Result<(), AllocError>
        ensures { OnOk result ((rest : List SerialItem) → text_with self.new rest ≡ text_with self.old (item.now ∷ rest)) }
    {
        match item {
            SerialItem::Text(text) => {
                if self.follows_value {
                    self.text.push(' ')?;
                }
                self.follows_value = true;
                push_text(&mut self.text, text)
            }
            SerialItem::Tree(tree) => {
                self.follows_value = false;
                push_outermost(alloc, &mut self.text, tree)
            }
        }
    }

    /// The text of the items that were added.
    pub fn into_text(self) -> TextBuilder
        ensures { result ≡ text_with self [] }
    {
        self.text
    }
}

// Adds a tree that stands in no element.
fn push_outermost(alloc: Global, out: &mut TextBuilder, tree: &Tree) -> Result<(), AllocError>
    ensures { OnOk result (out.new ≡ out.old ++ spelled_markup (marked outermost_scope tree.now)) }
{
    let mut scope = Bindings::outermost(alloc)?;
    push_tree(alloc, out, &mut scope, tree)
}
