// What schemas declare.

ghost use Rattle.std.specs.Prelude.{◌≡◌};

use crate::sequence_type::Ty;
use gx_base::name::Name;
use gx_base::type_name::TypeName;
use gx_facets::Facets;
use std::marker::Model;

/// An attribute that a complex type allows, with its type, and whether an element must have it (XML Schema 1.0 part 1,
/// section 3.5).
pub struct AttributeUse {
    pub name: Name,
    pub kind: TypeName,
    pub required: bool,
}

impl Drop for AttributeUse {
    fn drop(self) {
        let AttributeUse {
            name: _name,
            kind: _kind,
            required: _required,
        } = self;
    }
}

/// The attributes of a type in their order, which contracts see as a list.
#[derive(Drop)]
pub struct AttributeUses {
    items: Vec<AttributeUse>,
}

impl Model for AttributeUses {
    ghost use Rattle.std.specs.Prelude.{List};
    ghost use Rattle.gx_types.specs.declared.declaration.AttributeUse.{AttributeUse};

    ghost Value = { List AttributeUse };

    ghost view = { λ uses. uses.items.items };
}

impl AttributeUses {
    /// The attributes of the vector, in its order.
    pub fn from_vec(items: Vec<AttributeUse>) -> AttributeUses
        ensures { result ≡ items.items }
    {
        AttributeUses { items }
    }

    /// Gives the vector back.
    pub fn into_vec(self) -> Vec<AttributeUse>
        ensures { result.items ≡ self }
    {
        let AttributeUses { items } = self;
        items
    }

    /// The attributes in their order.
    pub fn as_slice(&self) -> &[AttributeUse]
        ensures { result.now ≡ self.now }
    {
        self.items.as_slice()
    }
}

/// What a declared type holds (XML Schema 1.0 part 1, sections 3.4 and 3.14).
pub enum Content {
    /// A simple type of one value, with the facets of its own.
    Atomic(Facets),
    /// A simple type of a list of values of that type, with the facets of its own.
    List(TypeName, Facets),
    /// A complex type with the values of that simple type, and with the facets of its own.
    Simple(TypeName, Facets),
    /// A complex type with a content model over its element children, and its texts where it is mixed.
    Complex { mixed: bool, model: Ty },
}

impl Drop for Content {
    fn drop(self) {
        match self {
            Content::Atomic(_facets) => {}
            Content::List(_type_name, _facets) => {}
            Content::Simple(_type_name, _facets) => {}
            Content::Complex {
                mixed: _mixed,
                model: _model,
            } => {}
        }
    }
}

/// A declared type with the type that it is derived from (XML Schema 1.0 part 1, sections 3.4 and 3.14).
pub struct Declared {
    pub name: TypeName,
    pub base: TypeName,
    pub content: Content,
    pub attributes: AttributeUses,
}

impl Drop for Declared {
    fn drop(self) {
        let Declared {
            name: _name,
            base: _base,
            content: _content,
            attributes: _attributes,
        } = self;
    }
}

/// A global element with its type (XML Schema 1.0 part 1, section 3.3).
pub struct GlobalElement {
    pub name: Name,
    pub kind: TypeName,
}

impl Drop for GlobalElement {
    fn drop(self) {
        let GlobalElement {
            name: _name,
            kind: _kind,
        } = self;
    }
}
