// Typed values.

ghost use Rattle.std.specs.Prelude.{◌≡◌, ◌<◌, IfOk, MatchOption, Some, None};
ghost use Rattle.gx_tree.specs.StringValue.{string_value as string_of_tree};
ghost use Rattle.gx_model.specs.Forest.{Forest as PlainForest};
ghost use Rattle.gx_model.specs.Growth.{Extends};
ghost use Rattle.gx_model.specs.TypedValue.{typed_value_of, value_of_node};
ghost use Rattle.gx_nodes.specs.Entries.{count_in, entry_in, place_of_number};

use crate::number::NodeId;
use crate::store::Store;
use gx_base::text::Text;
use gx_facets::Atomic;
use gx_model::typed_value::{untyped_value, value_at_type};
use gx_types::schemas::Schemas;
use std::alloc::AllocError;

impl Store {
    /// The typed value of a node; None exactly where the store has not the node or the node has no typed value: its type has
    /// element-only content, is xs:anyType, is not declared, or has not its text among those of its values (XQuery 1.0 and XPath 2.0
    /// Data Model, sections 3.3.1.2 and 6.1.2 to 6.7.2).
    pub fn typed_value(
        &self,
        schemas: &Schemas,
        node: NodeId,
    ) -> Result<Option<Vec<Atomic>>, AllocError>
        ensures { (later : PlainForest) → Extends self.now later → IfOk result (λ found. MatchOption found (value_of_node schemas.now self.now (place_of_number later node.number) ≡ None)
            (λ values. value_of_node schemas.now self.now (place_of_number later node.number) ≡ Some values.items)) }
    {
        if self.has(node) {
            let text = self.string_value(node)?;
            self.value_of(schemas, node, text)
        } else {
            Ok(None)
        }
    }

    // The same of a node that the store has, from its string value.
    fn value_of(
        &self,
        schemas: &Schemas,
        node: NodeId,
        text: Text,
    ) -> Result<Option<Vec<Atomic>>, AllocError>
        requires { text ≡ string_of_tree (entry_in self.now node.number).tree }
        ensures { IfOk result (λ found. MatchOption found (typed_value_of schemas.now (entry_in self.now node.number).tree ≡ None)
            (λ values. typed_value_of schemas.now (entry_in self.now node.number).tree ≡ Some values.items)) }
    {
        match self.label(node) {
            Some(label) => value_at_type(self.allocator(), schemas, &label.kind, text),
            None => Ok(Some(untyped_value(self.allocator(), text)?)),
        }
    }
}
