// How many positions contents have.

ghost use Rattle.std.specs.Prelude.{◌≡◌, ◌+◌, ℕ};
ghost use Rattle.gx_references.specs.Known.{known};
ghost use Rattle.gx_schema_content.specs.Occurrences.{times_counted};
ghost use Rattle.gx_schema_content.specs.GroupPositions.{counted, group_positions, particle_positions, positions_together, term_positions};

use crate::group_content::groups_in;
use gx_base::limits::CONTENT_POSITIONS;
use gx_references::body::Body;
use gx_schema_components::component::{Bounds, ModelGroup, Particle, Term};
use std::alloc::{AllocError, Global};

/// A model group among others, whose positions are counted: all to one more than the limit.
#[derive(Clone, Copy)]
pub struct GroupPositions<'a> {
    pub group: &'a ModelGroup,
}

impl<'a> Body for GroupPositions<'a> {
    type Meaning = usize;

    ghost use Rattle.gx_schema_content.specs.GroupContents.{groups_in};
    ghost use Rattle.gx_schema_content.specs.GroupPositions.{counted, group_positions};
    ghost use Rattle.gx_schema_content.specs.GroupLaws.{group_positions_agree};

    ghost named = { λ body. groups_in body.group.now };

    ghost meant = { λ groups body. counted (group_positions groups body.group.now) };

    ghost nothing = { 0 };

    ghost same = { λ f g body agree. group_positions_agree f g body.group.now agree };

    fn references(&self, alloc: Global) -> Result<Vec<usize>, AllocError> {
        groups_in(alloc, self.group)
    }

    fn meaning(&self, _alloc: Global, table: &[Option<usize>]) -> Result<usize, AllocError> {
        Ok(group_positions(table, self.group))
    }
}

/// The positions of a model group, over a table of those of groups.
pub fn group_positions(table: &[Option<usize>], group: &ModelGroup) -> usize
    ensures { result ≡ counted (group_positions (known 0 table.now) group.now) }
{
    positions_together(table, group.particles.as_slice())
}

fn positions_together(table: &[Option<usize>], particles: &[Particle]) -> usize
    ensures { result ≡ counted (positions_together (known 0 table.now) particles.now) }
{
    let mut total = 0;
    for particle in particles {
        total = count_more(total, particle_positions(table, particle));
    }
    total
}

// More positions, to one more than the limit.
fn count_more(total: usize, more: usize) -> usize
    ensures { result ≡ counted (total + more) }
{
    total.saturating_add(more).min(CONTENT_POSITIONS + 1)
}

/// The positions of a particle, over a table of those of groups.
pub fn particle_positions(table: &[Option<usize>], particle: &Particle) -> usize
    ensures { result ≡ counted (particle_positions (known 0 table.now) particle.now) }
{
    times_counted(particle.bounds, term_positions(table, &particle.term))
}

fn term_positions(table: &[Option<usize>], term: &Term) -> usize
    ensures { result ≡ term_positions (known 0 table.now) term.now }
{
    match term {
        Term::Element { .. } => 1,
        Term::Group(number) => known_positions(table, *number),
    }
}

/// The positions that a table has for a number.
pub fn known_positions(table: &[Option<usize>], number: usize) -> usize
    ensures { result ≡ known 0 table.now number }
{
    match table.get(number) {
        Some(Some(positions)) => *positions,
        _ => 0,
    }
}

fn times_counted(bounds: Bounds, count: usize) -> usize
    ensures { result ≡ counted (times_counted bounds.least bounds.greatest count) }
{
    let times = match bounds.greatest {
        Some(greatest) => greatest as usize,
        None => bounds.least as usize + 1,
    };
    count.saturating_mul(times).min(CONTENT_POSITIONS + 1)
}
