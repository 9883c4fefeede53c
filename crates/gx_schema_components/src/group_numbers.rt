// The model groups of particles, each with a number.

ghost use Rattle.std.specs.Prelude.{◌≡◌, ◌∷◌, [], ◌++◌, ◌+◌, length, IfOk, OnOk};
ghost use Rattle.gx_schema_syntax.specs.ParticleTree.{particles_of};
ghost use Rattle.gx_schema_components.specs.GroupNumbers.{content_placed, definitions_placed, element_term, group_of_definition, particle_placed, particle_with, referred_element, with_group, particles_of_content, particles_placed};
ghost use Rattle.gx_schema_components.specs.ReferredView.{globals_in};

use crate::bounds::bounds_of;
use crate::component::{ModelGroup, Particle, Particles, Term};
use crate::mention::ComponentKind;
use crate::referred::{GlobalTables, TypedName, group_referred, local_component};
use gx_schema_syntax::role::Compositor;
use gx_schema_syntax::written;
use gx_schema_syntax::written::{GlobalDeclaration, LocalDeclaration};
use std::alloc::{AllocError, Global};

fn element_term(element: TypedName) -> Term
    ensures { result ≡ element_term element }
{
    let TypedName { name, kind } = element;
    Term::Element { name, kind }
}

fn referred_element(
    globals: &GlobalTables,
    declaration: &LocalDeclaration,
) -> Result<Term, AllocError>
    ensures { IfOk result (λ term. term ≡ referred_element (globals_in globals.now) declaration.now) }
{
    let elements = globals.elements.as_slice();
    let component = ComponentKind::ElementDeclaration;
    let element = local_component(globals, component, elements, declaration)?;
    Ok(element_term(element))
}

fn particle_with(place: u64, bounds: &written::Bounds, term: Term) -> Particle
    ensures { result ≡ particle_with place bounds.now term }
{
    Particle {
        place,
        bounds: bounds_of(bounds),
        term,
    }
}

// The particle, in which groups have numbers; the groups in it are added to the others.
#[cycle(particles)]
fn particle_placed(
    alloc: Global,
    globals: &GlobalTables,
    first: usize,
    groups: &mut Vec<ModelGroup>,
    particle: &written::Particle,
) -> Result<Particle, AllocError>
    ensures groups { OnOk result (groups.new.items ≡ (particle_placed (globals_in globals.now) first groups.old.items particle.now).groups) }
    ensures placed { IfOk result (λ placed. placed ≡ (particle_placed (globals_in globals.now) first groups.old.items particle.now).placed) }
{
    let place = particle.place;
    match &particle.term {
        written::Term::Element(declaration) => {
            let term = referred_element(globals, declaration)?;
            Ok(particle_with(place, &particle.bounds, term))
        }
        written::Term::Group(reference) => {
            let number = group_referred(globals, ComponentKind::GroupDefinition, reference);
            Ok(particle_with(place, &particle.bounds, Term::Group(number)))
        }
        written::Term::Model(compositor, particles) => {
            let number = group_placed(alloc, globals, first, groups, *compositor, particles)?;
            Ok(particle_with(place, &particle.bounds, Term::Group(number)))
        }
    }
}

// Adds a model group of particles behind the groups in them, and answers its number.
#[cycle(particles)]
fn group_placed(
    alloc: Global,
    globals: &GlobalTables,
    first: usize,
    groups: &mut Vec<ModelGroup>,
    compositor: Compositor,
    particles: &[written::Particle],
) -> Result<usize, AllocError>
    ensures groups { OnOk result (groups.new.items ≡ with_group compositor (particles_placed (globals_in globals.now) first groups.old.items (particles_of particles.now))) }
    ensures number { IfOk result (λ number. number ≡ first + length (particles_placed (globals_in globals.now) first groups.old.items (particles_of particles.now)).groups) }
{
    let particles = particles_placed(alloc, globals, first, groups, particles)?;
    let number = first.checked_add(groups.len()).ok_or(AllocError)?;
    let particles = Particles::from_vec(particles);
    groups.push(ModelGroup {
        compositor,
        particles,
    })?;
    Ok(number)
}

#[cycle(particles)]
fn particles_placed(
    alloc: Global,
    globals: &GlobalTables,
    first: usize,
    groups: &mut Vec<ModelGroup>,
    particles: &[written::Particle],
) -> Result<Vec<Particle>, AllocError>
    ensures groups { OnOk result (groups.new.items ≡ (particles_placed (globals_in globals.now) first groups.old.items (particles_of particles.now)).groups) }
    ensures placed { IfOk result (λ placed. placed.items ≡ (particles_placed (globals_in globals.now) first groups.old.items (particles_of particles.now)).placed) }
{
    let mut placed = Vec::new(alloc);
    let mut left = particles;
    while let Some((particle, others)) = left.split_first() {
        placed.push(particle_placed(alloc, globals, first, groups, particle)?)?;
        left = others;
    }
    Ok(placed)
}

/// The particle of a content, in which groups have numbers; the groups in it are added to the others.
pub fn content_placed(
    alloc: Global,
    globals: &GlobalTables,
    first: usize,
    groups: &mut Vec<ModelGroup>,
    content: &Option<written::Particle>,
) -> Result<Option<Particle>, AllocError>
    ensures groups { OnOk result (groups.new.items ≡ (content_placed (globals_in globals.now) first groups.old.items content.now).groups) }
    ensures placed { IfOk result (λ placed. placed ≡ (content_placed (globals_in globals.now) first groups.old.items content.now).placed) }
{
    match content {
        Some(particle) => {
            let particle = particle_placed(alloc, globals, first, groups, particle)?;
            Ok(Some(particle))
        }
        None => Ok(None),
    }
}

fn particles_of_content(alloc: Global, content: Option<Particle>) -> Result<Particles, AllocError>
    ensures { IfOk result (λ particles. particles ≡ particles_of_content content) }
{
    match content {
        Some(particle) => Ok(Particles::from_vec(vec![in alloc; particle]?)),
        None => Ok(Particles::from_vec(Vec::new(alloc))),
    }
}

fn definition_placed(
    alloc: Global,
    globals: &GlobalTables,
    first: usize,
    groups: &mut Vec<ModelGroup>,
    content: &Option<written::Particle>,
) -> Result<ModelGroup, AllocError>
    ensures groups { OnOk result (groups.new.items ≡ (content_placed (globals_in globals.now) first groups.old.items content.now).groups) }
    ensures group { IfOk result (λ group. group ≡ group_of_definition (content_placed (globals_in globals.now) first groups.old.items content.now).placed) }
{
    let content = content_placed(alloc, globals, first, groups, content)?;
    let particles = particles_of_content(alloc, content)?;
    Ok(ModelGroup {
        compositor: Compositor::Sequence,
        particles,
    })
}

// Adds the group of a declaration, if it is a group definition.
fn add_definition(
    alloc: Global,
    globals: &GlobalTables,
    first: usize,
    groups: &mut Vec<ModelGroup>,
    declaration: &GlobalDeclaration,
    definitions: &mut Vec<ModelGroup>,
) -> Result<(), AllocError>
    ensures groups { OnOk result (groups.new.items ≡ (definitions_placed (globals_in globals.now) first groups.old.items (declaration.now ∷ [])).groups) }
    ensures items { OnOk result (definitions.new.items ≡ definitions.old.items ++ (definitions_placed (globals_in globals.now) first groups.old.items (declaration.now ∷ [])).placed) }
{
    if let GlobalDeclaration::Group {
        place: _,
        name: _,
        particle,
    } = declaration
    {
        definitions.push(definition_placed(alloc, globals, first, groups, particle)?)?;
    }
    Ok(())
}

/// Adds the groups of group definitions; the groups in them are added to the others.
#[tactic(auto, using(std::proofs::lemmas::Grind::common_steps, crate::proofs::Placed::definition_steps))]
pub fn add_definitions(
    alloc: Global,
    globals: &GlobalTables,
    first: usize,
    groups: &mut Vec<ModelGroup>,
    declarations: &[GlobalDeclaration],
    definitions: &mut Vec<ModelGroup>,
) -> Result<(), AllocError>
    ensures groups { OnOk result (groups.new.items ≡ (definitions_placed (globals_in globals.now) first groups.old.items declarations.now).groups) }
    ensures items { OnOk result (definitions.new.items ≡ definitions.old.items ++ (definitions_placed (globals_in globals.now) first groups.old.items declarations.now).placed) }
{
    let mut left = declarations;
    while let Some((declaration, others)) = left.split_first() {
        add_definition(alloc, globals, first, groups, declaration, definitions)?;
        left = others;
    }
    Ok(())
}
