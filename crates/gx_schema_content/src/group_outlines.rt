// The outlines of model groups.

ghost use Rattle.std.specs.Prelude.{◌≡◌, ℕ, IfOk, map};
ghost use Rattle.gx_references.specs.Known.{known};
ghost use Rattle.gx_schema_content.specs.declared.outline.Outline.TheVariants.{Never};
ghost use Rattle.gx_schema_content.specs.OutlineKnots.{outline_of_group};
ghost use Rattle.gx_schema_content.specs.OutlineViews.{group_outlined};
ghost use Rattle.gx_schema_content.specs.Outlines.{choice_outline, group_outline, particle_outline, sequence_outline, term_outline};

use crate::group_content::groups_in;
use crate::knot::known_meanings;
use crate::outline::Outline;
use gx_references::body::Body;
use gx_schema_components::component::{ModelGroup, Particle, Term};
use gx_schema_syntax::role::Compositor;
use std::alloc::{AllocError, Global};

/// A model group among others.
#[derive(Clone, Copy)]
pub struct OutlinedGroup<'a> {
    pub group: &'a ModelGroup,
}

impl<'a> Body for OutlinedGroup<'a> {
    type Meaning = Outline;

    ghost use Rattle.gx_schema_content.specs.declared.outline.Outline.TheVariants.{Never};
    ghost use Rattle.gx_schema_content.specs.GroupContents.{groups_in};
    ghost use Rattle.gx_schema_content.specs.OutlineLaws.{group_outline_agrees};
    ghost use Rattle.gx_schema_content.specs.Outlines.{group_outline};

    ghost named = { λ body. groups_in body.group.now };

    ghost meant = { λ groups body. group_outline groups body.group.now };

    ghost nothing = { Never };

    ghost same = { λ f g body agree. group_outline_agrees f g body.group.now agree };

    fn references(&self, alloc: Global) -> Result<Vec<usize>, AllocError> {
        groups_in(alloc, self.group)
    }

    fn meaning(&self, _alloc: Global, table: &[Option<Outline>]) -> Result<Outline, AllocError> {
        Ok(group_outline(table, self.group))
    }
}

fn group_outline(table: &[Option<Outline>], group: &ModelGroup) -> Outline
    ensures { result ≡ group_outline (known Never table.now) group.now }
{
    match group.compositor {
        Compositor::Sequence => sequence_outline(table, group.particles.as_slice()),
        Compositor::Choice => choice_outline(table, group.particles.as_slice()),
    }
}

fn sequence_outline(table: &[Option<Outline>], particles: &[Particle]) -> Outline
    ensures { result ≡ sequence_outline (known Never table.now) particles.now }
{
    let mut done = Outline::Empty;
    for particle in particles {
        done = done.joined(particle_outline(table, particle));
    }
    done
}

fn choice_outline(table: &[Option<Outline>], particles: &[Particle]) -> Outline
    ensures { result ≡ choice_outline (known Never table.now) particles.now }
{
    let mut done = Outline::Never;
    for particle in particles {
        done = done.or(particle_outline(table, particle));
    }
    done
}

/// The outline of a particle, over a table of those of groups.
pub fn particle_outline(table: &[Option<Outline>], particle: &Particle) -> Outline
    ensures { result ≡ particle_outline (known Never table.now) particle.now }
{
    term_outline(table, &particle.term).bounded(particle.bounds)
}

fn term_outline(table: &[Option<Outline>], term: &Term) -> Outline
    ensures { result ≡ term_outline (known Never table.now) term.now }
{
    match term {
        Term::Element { .. } => Outline::Filled,
        Term::Group(number) => known_outline(table, *number),
    }
}

fn known_outline(table: &[Option<Outline>], number: usize) -> Outline
    ensures { result ≡ known Never table.now number }
{
    match table.get(number) {
        Some(Some(outline)) => *outline,
        _ => Outline::Never,
    }
}

/// The outline of each model group. Where the references among groups come to no end, none is seen.
pub fn group_outlines(
    alloc: Global,
    groups: &[ModelGroup],
) -> Result<Vec<Option<Outline>>, AllocError>
    ensures { IfOk result (λ table. (number : ℕ) → known Never table.items number ≡ outline_of_group groups.now number) }
{
    let bodies = outlined_groups(alloc, groups)?;
    known_meanings(alloc, bodies.as_slice())
}

fn outlined_groups(
    alloc: Global,
    groups: &[ModelGroup],
) -> Result<Vec<OutlinedGroup<'_>>, AllocError>
    ensures { IfOk result (λ bodies. map group_outlined bodies.items ≡ groups.now) }
{
    let mut bodies = Vec::with_capacity(alloc, groups.len())?;
    for group in groups {
        bodies.push(OutlinedGroup { group })?;
    }
    Ok(bodies)
}
