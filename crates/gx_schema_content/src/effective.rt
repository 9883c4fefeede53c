// What the contents of types come to.

use gx_types::sequence_type::Ty;

/// The content that a type comes to, texts left out, and whether texts are allowed in it (XML Schema 1.0 part 1, section
/// 3.4.2).
#[derive(Drop)]
pub struct Effective {
    pub content: Ty,
    pub mixed: bool,
}
