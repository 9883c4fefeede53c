// Schema components, in which numbers stand in the place of names.

use gx_base::name::Name;
use gx_base::type_name::{Builtin, TypeName};
use gx_schema_syntax::role::Compositor;
use gx_schema_syntax::written::{ContentKind, WrittenFacets};
use gx_types::declaration::AttributeUse;
use std::marker::Model;

/// A type that another one is derived from or made of: built in, or the declared one of a number.
#[derive(Clone, Copy)]
pub enum Base {
    Builtin(Builtin),
    Declared(usize),
}

/// How often a particle occurs: at least so often, and at most so often, or any number of times where nothing is said (XML Schema
/// 1.0 part 1, section 3.9.1). A number past the greatest `u32` counts as that number. `are_ordered` says of the numbers as they
/// are written that the first is not above the second.
#[derive(Clone, Copy)]
pub struct Bounds {
    pub least: u32,
    pub greatest: Option<u32>,
    pub are_ordered: bool,
}

/// What a particle holds: an element with its type, or the model group of a number (XML Schema 1.0 part 1, section 3.9.1).
pub enum Term {
    Element { name: Name, kind: TypeName },
    Group(usize),
}

impl Drop for Term {
    fn drop(self) {
        match self {
            Term::Element {
                name: _name,
                kind: _kind,
            } => {}
            Term::Group(_usize) => {}
        }
    }
}

/// A part of a content (XML Schema 1.0 part 1, section 3.9). A `place` here and below is the number of the element that it was
/// written as.
#[derive(Drop)]
pub struct Particle {
    pub place: u64,
    pub bounds: Bounds,
    pub term: Term,
}

/// Particles in their order, which contracts see as a list.
#[derive(Drop)]
pub struct Particles {
    items: Vec<Particle>,
}

impl Model for Particles {
    ghost use Rattle.std.specs.Prelude.{List};
    ghost use Rattle.gx_schema_components.specs.declared.component.Particle.{Particle};

    ghost Value = { List Particle };

    ghost view = { λ particles. particles.items.items };
}

impl Particles {
    ghost use Rattle.std.specs.Prelude.{◌≡◌};

    /// The particles of the vector, in its order.
    pub fn from_vec(items: Vec<Particle>) -> Particles
        ensures { result ≡ items.items }
    {
        Particles { items }
    }

    /// The particles in their order.
    pub fn as_slice(&self) -> &[Particle]
        ensures { result.now ≡ self.now }
    {
        self.items.as_slice()
    }
}

/// A model group (XML Schema 1.0 part 1, sections 3.7 and 3.8). Each has a number: first those of group definitions, in the order
/// of the definitions, each a sequence of the particle that it is written with; then those that stand in definitions and types,
/// each behind the groups that stand in it.
#[derive(Drop)]
pub struct ModelGroup {
    pub compositor: Compositor,
    pub particles: Particles,
}

/// A group definition (XML Schema 1.0 part 1, section 3.7). Its number is that of its model group.
#[derive(Drop)]
pub struct GroupDefinition {
    pub place: u64,
    pub name: Name,
}

/// An attribute that is allowed, one that is prohibited, or the attribute group of a number (XML Schema 1.0 part 1, sections 3.2.2
/// and 3.6.2).
pub enum AttributePart {
    Use { place: u64, attribute: AttributeUse },
    Prohibited { place: u64, name: Name },
    Group { place: u64, number: usize },
}

impl Drop for AttributePart {
    fn drop(self) {
        match self {
            AttributePart::Use {
                place: _place,
                attribute: _attribute,
            } => {}
            AttributePart::Prohibited {
                place: _place,
                name: _name,
            } => {}
            AttributePart::Group {
                place: _place,
                number: _number,
            } => {}
        }
    }
}

/// The parts of a list of attributes in their order, which contracts see as a list.
#[derive(Drop)]
pub struct AttributeParts {
    items: Vec<AttributePart>,
}

impl Model for AttributeParts {
    ghost use Rattle.std.specs.Prelude.{List};
    ghost use Rattle.gx_schema_components.specs.declared.component.AttributePart.{AttributePart};

    ghost Value = { List AttributePart };

    ghost view = { λ parts. parts.items.items };
}

impl AttributeParts {
    ghost use Rattle.std.specs.Prelude.{◌≡◌};

    /// The parts of the vector, in its order.
    pub fn from_vec(items: Vec<AttributePart>) -> AttributeParts
        ensures { result ≡ items.items }
    {
        AttributeParts { items }
    }

    /// The parts in their order.
    pub fn as_slice(&self) -> &[AttributePart]
        ensures { result.now ≡ self.now }
    {
        self.items.as_slice()
    }
}

/// An attribute group definition (XML Schema 1.0 part 1, section 3.6).
#[derive(Drop)]
pub struct AttributeGroup {
    pub place: u64,
    pub name: Name,
    pub parts: AttributeParts,
}

/// A global element or attribute declaration (XML Schema 1.0 part 1, sections 3.2 and 3.3).
#[derive(Drop)]
pub struct Declaration {
    pub place: u64,
    pub name: Name,
    pub kind: TypeName,
}

/// A simple type: a restriction of its base by facets, or lists of items of a type (XML Schema 1.0 part 1, section 3.14).
pub enum SimpleType {
    Restriction {
        place: u64,
        base: Base,
        facets: WrittenFacets,
    },
    List {
        place: u64,
        item: Base,
    },
}

impl Drop for SimpleType {
    fn drop(self) {
        match self {
            SimpleType::Restriction {
                place: _place,
                base: _base,
                facets: _facets,
            } => {}
            SimpleType::List {
                place: _place,
                item: _item,
            } => {}
        }
    }
}

/// What a complex type is derived from, as simple or as complex content.
#[derive(Clone, Copy)]
pub struct DerivedFrom {
    pub place: u64,
    pub content: ContentKind,
    pub base: Base,
}

/// How a complex type is derived: it names no base, or it extends or restricts one (XML Schema 1.0 part 1, section 3.4.1).
#[derive(Clone, Copy)]
pub enum Derivation {
    Own,
    Extends(DerivedFrom),
    Restricts(DerivedFrom),
}

/// A complex type with what is written at it (XML Schema 1.0 part 1, section 3.4): whether it is mixed, the facets of simple
/// content, its content and its attributes.
pub struct ComplexType {
    pub mixed: bool,
    pub derivation: Derivation,
    pub facets: WrittenFacets,
    pub content: Option<Particle>,
    pub attributes: AttributeParts,
}

impl Drop for ComplexType {
    fn drop(self) {
        let ComplexType {
            mixed: _mixed,
            derivation: _derivation,
            facets: _facets,
            content: _content,
            attributes: _attributes,
        } = self;
    }
}

/// What a type is.
pub enum TypeForm {
    Simple(SimpleType),
    Complex(ComplexType),
}

impl Drop for TypeForm {
    fn drop(self) {
        match self {
            TypeForm::Simple(_simple_type) => {}
            TypeForm::Complex(_complex_type) => {}
        }
    }
}

/// A type definition, global or anonymous. Its number is its place among the types of all documents.
pub struct TypeComponent {
    pub place: u64,
    pub name: TypeName,
    pub form: TypeForm,
}

impl Drop for TypeComponent {
    fn drop(self) {
        let TypeComponent {
            place: _place,
            name: _name,
            form: _form,
        } = self;
    }
}

/// The components of schema documents (XML Schema 1.0 part 1, section 2.2), each list in the order of the documents. A number is
/// the index in the list of its kind.
#[derive(Drop)]
pub struct Components {
    pub types: Vec<TypeComponent>,
    pub elements: Vec<Declaration>,
    pub attributes: Vec<Declaration>,
    pub groups: Vec<GroupDefinition>,
    pub model_groups: Vec<ModelGroup>,
    pub attribute_groups: Vec<AttributeGroup>,
}
