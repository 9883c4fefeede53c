// References to schema components.

use gx_qnames::reference::Reference;

/// The kinds of schema components that are referred to by name (XML Schema 1.0 part 1, section 2.2).
#[derive(Clone, Copy, PartialEq, Eq)]
pub enum ComponentKind {
    TypeDefinition,
    ElementDeclaration,
    AttributeDeclaration,
    GroupDefinition,
    AttributeGroupDefinition,
}

/// A reference to a component of a kind, at the element of a number (XML Schema 1.0 part 1, section 3.15.3).
#[derive(Drop)]
pub struct Mention {
    pub place: u64,
    pub kind: ComponentKind,
    pub reference: Reference,
}
