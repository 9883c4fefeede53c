// String values.

ghost use Rattle.std.specs.Prelude.{◌≡◌, ◌++◌, IfOk, OnOk, option_copied, MatchOption, []};
ghost use Rattle.gx_model.specs.Forest.{Forest as PlainForest, node_in};
ghost use Rattle.gx_model.specs.Growth.{Extends};
ghost use Rattle.gx_model.specs.TypedValue.{found_string_value};
ghost use Rattle.gx_nodes.specs.Entries.{place_of_number};
ghost use Rattle.gx_store.specs.Stored.{own_text_in, text_of_form};

use crate::number::NodeId;
use crate::row::Form;
use crate::store::Store;
use gx_base::text::Text;
use gx_base::text_builder::TextBuilder;
use std::alloc::AllocError;

impl Store {
    /// The string value of a node, which is empty where the store has not the node (XQuery 1.0 and XPath 2.0 Data Model, section 5.13).
    pub fn string_value(&self, node: NodeId) -> Result<Text, AllocError>
        ensures { (later : PlainForest) → Extends self.now later → IfOk result (λ text. text ≡ found_string_value (node_in self.now (place_of_number later node.number))) }
    {
        let mut value = TextBuilder::new(self.allocator());
        self.push_own_text(&mut value, node.number)?;
        for below in self.descendants_of(node) {
            self.push_own_text(&mut value, below.number)?;
        }
        value.finish()
    }

    // Puts the text of a text node, or the value of an attribute, behind a text.
    fn push_own_text(&self, value: &mut TextBuilder, number: usize) -> Result<(), AllocError>
        ensures { OnOk result (value.new ≡ value.old ++ own_text_in self.now number) }
    {
        let Some(row) = self.row(number) else {
            return Ok(());
        };
        push_text_of(value, &row.form)
    }
}

fn push_text_of(value: &mut TextBuilder, form: &Form) -> Result<(), AllocError>
    ensures { OnOk result (value.new ≡ value.old ++ text_of_form form.now) }
{
    match form {
        Form::Attribute {
            label: _,
            value: text,
        } => value.push_text(text),
        Form::Text(text) => value.push_text(text),
        Form::Document
        | Form::Element {
            label: _,
            attributes: _,
        } => Ok(()),
    }
}
