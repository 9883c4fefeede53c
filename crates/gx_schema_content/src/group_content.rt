// The contents of particles and of model groups.

ghost use Rattle.std.specs.Prelude.{◌≡◌, ℕ, IfOk, map, fold};
ghost use Rattle.gx_types.specs.SequenceType.{never, nothing};
ghost use Rattle.gx_types.specs.TypeRules.{joined_types};
ghost use Rattle.gx_references.specs.Known.{known};
ghost use Rattle.gx_schema_content.specs.GroupContents.{groups_in, group_of_particle, term_content, particle_content, group_content, content_that_fits};

use crate::occurrences::bounded;
use gx_references::body::Body;
use gx_schema_components::component::{ModelGroup, Particle, Term};
use gx_schema_syntax::role::Compositor;
use gx_types::item_type::ItemType;
use gx_types::sequence_type::Ty;
use gx_types::type_rules::{choose, join};
use std::alloc::{AllocError, Global};

/// A model group among others, and whether its content has no more positions than a content may have.
#[derive(Clone, Copy)]
pub struct GroupContent<'a> {
    pub group: &'a ModelGroup,
    pub fits: bool,
}

impl<'a> Body for GroupContent<'a> {
    type Meaning = Ty;

    ghost use Rattle.gx_types.specs.SequenceType.{never};
    ghost use Rattle.gx_schema_content.specs.GroupContents.{groups_in, content_that_fits};
    ghost use Rattle.gx_schema_content.specs.GroupLaws.{content_that_fits_agrees};

    ghost named = { λ body. groups_in body.group.now };

    ghost meant = { λ groups body. content_that_fits body.fits groups body.group.now };

    ghost nothing = { never };

    ghost same = { λ f g body agree. content_that_fits_agrees body.fits f g body.group.now agree };

    fn references(&self, alloc: Global) -> Result<Vec<usize>, AllocError> {
        groups_in(alloc, self.group)
    }

    fn meaning(&self, alloc: Global, table: &[Option<Ty>]) -> Result<Ty, AllocError> {
        if self.fits {
            group_content(alloc, table, self.group)
        } else {
            Ok(Ty::none())
        }
    }
}

/// The numbers of the groups that a group holds.
pub fn groups_in(alloc: Global, group: &ModelGroup) -> Result<Vec<usize>, AllocError>
    ensures { IfOk result (λ numbers. numbers.items ≡ groups_in group.now) }
{
    group
        .particles
        .as_slice()
        .iter()
        .filter_map(group_of)
        .collect(alloc)
}

fn group_of(particle: &Particle) -> Option<usize>
    ensures { result ≡ group_of_particle particle.now }
{
    match &particle.term {
        Term::Element { .. } => None,
        Term::Group(number) => Some(*number),
    }
}

/// The content of a particle, over a table of the contents of groups (XML Schema 1.0 part 1, section 3.9).
pub fn particle_content(
    alloc: Global,
    table: &[Option<Ty>],
    particle: &Particle,
) -> Result<Ty, AllocError>
    ensures { IfOk result (λ t. t ≡ particle_content (known never table.now) particle.now) }
{
    let once = term_content(alloc, table, &particle.term)?;
    bounded(alloc, particle.bounds, &once)
}

fn term_content(alloc: Global, table: &[Option<Ty>], term: &Term) -> Result<Ty, AllocError>
    ensures { IfOk result (λ t. t ≡ term_content (known never table.now) term.now) }
{
    match term {
        Term::Element { name, kind } => {
            let name = name.clone()?;
            let kind = kind.clone()?;
            Ty::of_item(
                alloc,
                ItemType::Element {
                    name: Some(name),
                    kind,
                },
            )
        }
        Term::Group(number) => known_content(table, *number),
    }
}

fn known_content(table: &[Option<Ty>], number: usize) -> Result<Ty, AllocError>
    ensures { IfOk result (λ t. t ≡ known never table.now number) }
{
    match table.get(number) {
        Some(Some(content)) => content.clone(),
        _ => Ok(Ty::none()),
    }
}

/// The content of a model group, over a table of the contents of groups (XML Schema 1.0 part 1, section 3.8.4).
pub fn group_content(
    alloc: Global,
    table: &[Option<Ty>],
    group: &ModelGroup,
) -> Result<Ty, AllocError>
    ensures { IfOk result (λ t. t ≡ group_content (known never table.now) group.now) }
{
    match group.compositor {
        Compositor::Sequence => sequence(alloc, table, group.particles.as_slice()),
        Compositor::Choice => {
            let contents = contents(alloc, table, group.particles.as_slice())?;
            choose(alloc, contents.as_slice())
        }
    }
}

// Contents one behind another, nested to the left.
fn sequence(alloc: Global, table: &[Option<Ty>], particles: &[Particle]) -> Result<Ty, AllocError>
    ensures { IfOk result (λ t. t ≡ fold (λ done particle. joined_types done (particle_content (known never table.now) particle)) nothing particles.now) }
{
    let mut done = Ty::empty();
    for particle in particles {
        done = behind(alloc, &done, table, particle)?;
    }
    Ok(done)
}

fn behind(
    alloc: Global,
    done: &Ty,
    table: &[Option<Ty>],
    particle: &Particle,
) -> Result<Ty, AllocError>
    ensures { IfOk result (λ t. t ≡ joined_types done.now (particle_content (known never table.now) particle.now)) }
{
    let next = particle_content(alloc, table, particle)?;
    join(alloc, done, &next)
}

fn contents(
    alloc: Global,
    table: &[Option<Ty>],
    particles: &[Particle],
) -> Result<Vec<Ty>, AllocError>
    ensures { IfOk result (λ contents. contents.items ≡ map (particle_content (known never table.now)) particles.now) }
{
    let mut contents = Vec::with_capacity(alloc, particles.len())?;
    for particle in particles {
        contents.push(particle_content(alloc, table, particle)?)?;
    }
    Ok(contents)
}
