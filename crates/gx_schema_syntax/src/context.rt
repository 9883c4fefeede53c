// What a schema document says of its declarations.

use gx_base::text::Text;

/// The target namespace of a schema document, empty where it has none, and whether its local elements and attributes are in it
/// (XML Schema 1.0 part 1, section 3.15.2).
#[derive(Drop)]
pub struct Context {
    pub target: Text,
    pub elements_are_qualified: bool,
    pub attributes_are_qualified: bool,
}
