// The element particles of groups and types.

ghost use Rattle.std.specs.Prelude.{◌≡◌, [], ℕ, IfOk, OnOk, map};
ghost use Rattle.gx_references.specs.Known.{known};
ghost use Rattle.gx_schema_content.specs.ElementKnots.{elements_of_group, elements_of_type};
ghost use Rattle.gx_schema_content.specs.ElementViews.{group_listed, listed_over, type_listed};
ghost use Rattle.gx_schema_content.specs.Elements.{complex_elements, elements_of_base, form_elements, may_occur, particle_elements, particles_elements, type_elements, with_particles, written_elements};
ghost use Rattle.gx_schema_content.specs.Knots.{meaning_at_ends};
ghost use Rattle.gx_schema_content.specs.Sources.{extended_types};

use crate::elements::{ElementParticle, ElementParticles, SharedElement};
use crate::group_content::groups_in;
use crate::knot::known_meanings;
use crate::source::{ContentSource, extended_types, source};
use gx_base::name::Name;
use gx_base::type_name::TypeName;
use gx_references::body::Body;
use gx_schema_components::component::{
    Base, ComplexType, ModelGroup, Particle, Term, TypeComponent, TypeForm,
};
use std::alloc::{AllocError, Global};

/// A model group among others.
#[derive(Clone, Copy)]
pub struct GroupElements<'a> {
    pub group: &'a ModelGroup,
}

impl<'a> Body for GroupElements<'a> {
    type Meaning = ElementParticles;

    ghost use Rattle.std.specs.Prelude.{[]};
    ghost use Rattle.gx_schema_content.specs.Elements.{group_elements};
    ghost use Rattle.gx_schema_content.specs.ElementLaws.{group_elements_agree};
    ghost use Rattle.gx_schema_content.specs.GroupContents.{groups_in};

    ghost named = { λ body. groups_in body.group.now };

    ghost meant = { λ groups body. group_elements groups body.group.now };

    ghost nothing = { [] };

    ghost same = { λ f g body agree. group_elements_agree f g body.group.now agree };

    fn references(&self, alloc: Global) -> Result<Vec<usize>, AllocError> {
        groups_in(alloc, self.group)
    }

    fn meaning(
        &self,
        alloc: Global,
        table: &[Option<ElementParticles>],
    ) -> Result<ElementParticles, AllocError> {
        let mut elements = ElementParticles::none(alloc);
        add_particles(alloc, table, self.group.particles.as_slice(), &mut elements)?;
        Ok(elements)
    }
}

/// A type among others, with the element particles of all groups.
#[derive(Clone, Copy)]
pub struct TypeElements<'a> {
    pub component: &'a TypeComponent,
    pub groups: &'a [Option<ElementParticles>],
}

impl<'a> Body for TypeElements<'a> {
    type Meaning = ElementParticles;

    ghost use Rattle.std.specs.Prelude.{[]};
    ghost use Rattle.gx_references.specs.Known.{known};
    ghost use Rattle.gx_schema_content.specs.Elements.{type_elements};
    ghost use Rattle.gx_schema_content.specs.ElementLaws.{type_elements_agree};
    ghost use Rattle.gx_schema_content.specs.Sources.{extended_types};

    ghost named = { λ body. extended_types body.component.now };

    ghost meant = { λ types body. type_elements (known [] body.groups.now) types body.component.now };

    ghost nothing = { [] };

    ghost same = { λ f g body agree. type_elements_agree (known [] body.groups.now) f g body.component.now agree };

    fn references(&self, alloc: Global) -> Result<Vec<usize>, AllocError> {
        extended_types(alloc, self.component)
    }

    fn meaning(
        &self,
        alloc: Global,
        table: &[Option<ElementParticles>],
    ) -> Result<ElementParticles, AllocError> {
        let mut elements = ElementParticles::none(alloc);
        add_form(
            alloc,
            self.groups,
            table,
            &self.component.form,
            &mut elements,
        )?;
        Ok(elements)
    }
}

/// The element particles of a table at a number.
pub fn known_elements(table: &[Option<ElementParticles>], number: usize) -> &[SharedElement]
    ensures { result.now ≡ known [] table.now number }
{
    match table.get(number) {
        Some(Some(elements)) => elements.as_slice(),
        _ => &[],
    }
}

fn may_occur(greatest: Option<u32>) -> bool
    ensures { result ≡ may_occur greatest }
{
    match greatest {
        None => true,
        Some(greatest) => 0 < greatest,
    }
}

fn element_particle(
    alloc: Global,
    place: u64,
    name: &Name,
    kind: &TypeName,
) -> Result<SharedElement, AllocError>
    ensures { IfOk result (λ element. element ≡ record { place = place; name = name.now; kind = kind.now }) }
{
    let name = name.clone()?;
    let kind = kind.clone()?;
    SharedElement::new(alloc, ElementParticle { place, name, kind })
}

fn add_each(copied: &[SharedElement], elements: &mut ElementParticles) -> Result<(), AllocError>
    ensures { OnOk result (elements.new ≡ with_particles elements.old copied.now) }
{
    for element in copied {
        elements.add(element.clone()?)?;
    }
    Ok(())
}

// Adds the element particles of a particle, over those of groups.
fn add_particle(
    alloc: Global,
    groups: &[Option<ElementParticles>],
    particle: &Particle,
    elements: &mut ElementParticles,
) -> Result<(), AllocError>
    ensures { OnOk result (elements.new ≡ with_particles elements.old (particle_elements (known [] groups.now) particle.now)) }
{
    if !may_occur(particle.bounds.greatest) {
        return Ok(());
    }
    match &particle.term {
        Term::Element { name, kind } => {
            elements.add(element_particle(alloc, particle.place, name, kind)?)
        }
        Term::Group(number) => add_each(known_elements(groups, *number), elements),
    }
}

// Adds those of particles.
fn add_particles(
    alloc: Global,
    groups: &[Option<ElementParticles>],
    particles: &[Particle],
    elements: &mut ElementParticles,
) -> Result<(), AllocError>
    ensures { OnOk result (elements.new ≡ with_particles elements.old (particles_elements (known [] groups.now) particles.now)) }
{
    for particle in particles {
        add_particle(alloc, groups, particle, elements)?;
    }
    Ok(())
}

// Adds those of a type.
fn add_form(
    alloc: Global,
    groups: &[Option<ElementParticles>],
    types: &[Option<ElementParticles>],
    form: &TypeForm,
    elements: &mut ElementParticles,
) -> Result<(), AllocError>
    ensures { OnOk result (elements.new ≡ with_particles elements.old (form_elements (known [] groups.now) (known [] types.now) form.now)) }
{
    match form {
        TypeForm::Simple(_) => Ok(()),
        TypeForm::Complex(definition) => add_complex(alloc, groups, types, definition, elements),
    }
}

fn add_complex(
    alloc: Global,
    groups: &[Option<ElementParticles>],
    types: &[Option<ElementParticles>],
    definition: &ComplexType,
    elements: &mut ElementParticles,
) -> Result<(), AllocError>
    ensures { OnOk result (elements.new ≡ with_particles elements.old (complex_elements (known [] groups.now) (known [] types.now) definition.now)) }
{
    match source(definition.derivation) {
        ContentSource::Simple => Ok(()),
        ContentSource::Written => add_written(alloc, groups, &definition.content, elements),
        ContentSource::Behind(base) => {
            add_each(elements_of_base(types, base), elements)?;
            add_written(alloc, groups, &definition.content, elements)
        }
    }
}

fn elements_of_base(types: &[Option<ElementParticles>], base: Base) -> &[SharedElement]
    ensures { result.now ≡ elements_of_base (known [] types.now) base }
{
    match base {
        Base::Builtin(_) => &[],
        Base::Declared(number) => known_elements(types, number),
    }
}

// Adds those of a content as it is written.
fn add_written(
    alloc: Global,
    groups: &[Option<ElementParticles>],
    content: &Option<Particle>,
    elements: &mut ElementParticles,
) -> Result<(), AllocError>
    ensures { OnOk result (elements.new ≡ with_particles elements.old (written_elements (known [] groups.now) content.now)) }
{
    match content {
        None => Ok(()),
        Some(particle) => add_particle(alloc, groups, particle, elements),
    }
}

/// The element particles of the contents of all types, each once: those of groups where the groups are referred to, and those of
/// bases before those that extensions add (XML Schema 1.0 part 1, section 3.4.2). None are seen where the references among groups
/// or among types come to no end.
pub fn element_lists(
    alloc: Global,
    types: &[TypeComponent],
    groups: &[ModelGroup],
) -> Result<Vec<Option<ElementParticles>>, AllocError>
    ensures { IfOk result (λ table. (number : ℕ) → known [] table.items number ≡ elements_of_type types.now groups.now number) }
{
    let groups = lists_of_groups(alloc, groups)?;
    lists_of_types(alloc, types, groups.as_slice())
}

fn lists_of_groups(
    alloc: Global,
    groups: &[ModelGroup],
) -> Result<Vec<Option<ElementParticles>>, AllocError>
    ensures { IfOk result (λ table. (number : ℕ) → known [] table.items number ≡ elements_of_group groups.now number) }
{
    let bodies = listed_groups(alloc, groups)?;
    known_meanings(alloc, bodies.as_slice())
}

fn listed_groups(alloc: Global, groups: &[ModelGroup]) -> Result<Vec<GroupElements<'_>>, AllocError>
    ensures { IfOk result (λ bodies. map group_listed bodies.items ≡ groups.now) }
{
    let mut bodies = Vec::with_capacity(alloc, groups.len())?;
    for group in groups {
        bodies.push(GroupElements { group })?;
    }
    Ok(bodies)
}

// Those of types, over the element particles of groups.
fn lists_of_types(
    alloc: Global,
    types: &[TypeComponent],
    groups: &[Option<ElementParticles>],
) -> Result<Vec<Option<ElementParticles>>, AllocError>
    ensures { IfOk result (λ table. (number : ℕ) → known [] table.items number ≡ meaning_at_ends extended_types (type_elements (known [] groups.now)) [] types.now number) }
{
    let bodies = listed_types(alloc, types, groups)?;
    known_meanings(alloc, bodies.as_slice())
}

fn listed_types<'a>(
    alloc: Global,
    types: &'a [TypeComponent],
    groups: &'a [Option<ElementParticles>],
) -> Result<Vec<TypeElements<'a>>, AllocError>
    ensures { IfOk result (λ bodies. map type_listed bodies.items ≡ map (listed_over (known [] groups.now)) types.now) }
{
    let mut bodies = Vec::with_capacity(alloc, types.len())?;
    for component in types {
        bodies.push(TypeElements { component, groups })?;
    }
    Ok(bodies)
}
