// Element particles.

ghost use Rattle.std.specs.Prelude.{◌≡◌, IfOk};
ghost use Rattle.gx_schema_content.specs.Elements.{same_written_name, same_written_type};

use gx_base::name::Name;
use gx_base::type_name::TypeName;
use indexmap::IndexSet;
use std::alloc::{AllocError, Global};
use std::hash::{Hash, Hasher};
use std::marker::Model;
use std::rc::Rc;

/// An element particle of a content (XML Schema 1.0 part 1, section 3.9): the number of the element that it was written as, and the
/// name and the type of what it allows.
#[derive(Drop)]
pub struct ElementParticle {
    pub place: u64,
    pub name: Name,
    pub kind: TypeName,
}

impl Clone for ElementParticle {
    ghost is_clone = { λ element copy. copy ≡ element };

    fn clone(&self) -> Result<ElementParticle, AllocError> {
        Ok(ElementParticle {
            place: self.place,
            name: self.name.clone()?,
            kind: self.kind.clone()?,
        })
    }
}

/// An element particle that its copies share: copying it takes no memory.
#[derive(Drop)]
pub struct SharedElement {
    shared: Rc<ElementParticle>,
}

impl Model for SharedElement {
    ghost use Rattle.gx_schema_content.specs.declared.elements.ElementParticle.{ElementParticle};

    ghost Value = { ElementParticle };

    ghost view = { λ element. element.shared.value };
}

impl SharedElement {
    /// An element particle to be shared.
    pub fn new(alloc: Global, element: ElementParticle) -> Result<SharedElement, AllocError>
        ensures { IfOk result (λ shared. shared ≡ element) }
    {
        Ok(SharedElement {
            shared: Rc::new(alloc, element)?,
        })
    }

    /// The element particle.
    pub fn element(&self) -> &ElementParticle
        ensures { result.now ≡ self.now }
    {
        self.shared.as_ref()
    }
}

impl Clone for SharedElement {
    ghost is_clone = { λ element copy. copy ≡ element };

    fn clone(&self) -> Result<SharedElement, AllocError> {
        Ok(SharedElement {
            shared: self.shared.clone()?,
        })
    }
}

impl PartialEq for SharedElement {
    ghost use Rattle.std.specs.Cmp.{partial_equiv_from_equiv};
    ghost use Rattle.gx_schema_content.specs.Elements.{same_particle};
    ghost use Rattle.gx_schema_content.specs.ElementLaws.{particles_are_equivalent};

    ghost eq = { same_particle };

    ghost laws = { partial_equiv_from_equiv particles_are_equivalent };

    fn eq(&self, other: &SharedElement) -> bool {
        let (one, another) = (self.element(), other.element());
        one.place == another.place
            && is_written_as(&one.name, &another.name)
            && has_type_written_as(&one.kind, &another.kind)
    }
}

impl Eq for SharedElement {
    ghost use Rattle.gx_schema_content.specs.ElementLaws.{particles_are_equivalent};

    ghost laws = { particles_are_equivalent };
}

impl Hash for SharedElement {
    ghost use Rattle.std.specs.Cmp.Rules.{hashing};
    ghost use Rattle.std.specs.Hash as fed;
    ghost use Rattle.std.proofs.Common.{rules};

    ghost hash_input = { λ element. fed.u64 element.place };

    ghost respects_eq = { Prim.search (hashing, rules) };

    fn hash<H: Hasher>(&self, state: &mut H) {
        self.element().place.hash(state);
    }
}

// Whether two names are equal and have one prefix.
fn is_written_as(one: &Name, another: &Name) -> bool
    ensures { result ≡ same_written_name one.now another.now }
{
    one == another && one.prefix == another.prefix
}

fn has_type_written_as(one: &TypeName, another: &TypeName) -> bool
    ensures { result ≡ same_written_type one.now another.now }
{
    match (one, another) {
        (TypeName::Named(one), TypeName::Named(another)) => {
            is_written_as(one.name(), another.name())
        }
        _ => one == another,
    }
}

/// Element particles in their order, each once, which contracts see as a list. Lists share their particles.
#[derive(Drop)]
pub struct ElementParticles {
    items: IndexSet<SharedElement>,
}

impl Model for ElementParticles {
    ghost use Rattle.std.specs.Prelude.{List};
    ghost use Rattle.gx_schema_content.specs.declared.elements.ElementParticle.{ElementParticle};

    ghost Value = { List ElementParticle };

    ghost view = { λ elements. elements.items.keys };
}

impl ElementParticles {
    ghost use Rattle.std.specs.Prelude.{◌≡◌, [], OnOk};
    ghost use Rattle.gx_schema_content.specs.Elements.{with_particle};

    /// No particles.
    pub fn none(alloc: Global) -> ElementParticles
        ensures { result ≡ [] }
    {
        ElementParticles {
            items: IndexSet::new(alloc),
        }
    }

    /// Puts a particle behind the others, where it is none of them.
    pub fn add(&mut self, element: SharedElement) -> Result<(), AllocError>
        ensures { OnOk result (self.new ≡ with_particle self.old element) }
    {
        self.items.insert(element)?;
        Ok(())
    }

    /// The particles in their order.
    pub fn as_slice(&self) -> &[SharedElement]
        ensures { result.now ≡ self.now }
    {
        self.items.as_slice()
    }
}
