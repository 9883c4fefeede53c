// How many positions the contents of complex types have.

ghost use Rattle.std.specs.Prelude.{◌≡◌, ◌+◌, ℕ, IfOk};
ghost use Rattle.gx_references.specs.Known.{known};
ghost use Rattle.gx_schema_content.specs.GroupPositions.{counted};
ghost use Rattle.gx_schema_content.specs.TypePositions.{complex_positions, component_positions, positions_of_base, sourced_positions, written_positions};

use crate::group_positions::{known_positions, particle_positions};
use crate::source::{ContentSource, extended_types, source};
use gx_base::limits::CONTENT_POSITIONS;
use gx_references::body::Body;
use gx_schema_components::component::{Base, ComplexType, Particle, TypeComponent, TypeForm};
use std::alloc::{AllocError, Global};

/// A type among others, whose positions are counted over those of all model groups: all to one more than the limit.
#[derive(Clone, Copy)]
pub struct TypePositions<'a> {
    pub component: &'a TypeComponent,
    pub groups: &'a [Option<usize>],
}

impl<'a> Body for TypePositions<'a> {
    type Meaning = usize;

    ghost use Rattle.gx_references.specs.Known.{known};
    ghost use Rattle.gx_schema_content.specs.GroupPositions.{counted};
    ghost use Rattle.gx_schema_content.specs.Sources.{extended_types};
    ghost use Rattle.gx_schema_content.specs.TypePositions.{component_positions};
    ghost use Rattle.gx_schema_content.specs.TypeLaws.{type_positions_agree};

    ghost named = { λ body. extended_types body.component.now };

    ghost meant = { λ types body. counted (component_positions (known 0 body.groups.now) types body.component.now) };

    ghost nothing = { 0 };

    ghost same = { λ f g body agree. type_positions_agree (known 0 body.groups.now) f g body.component.now agree };

    fn references(&self, alloc: Global) -> Result<Vec<usize>, AllocError> {
        extended_types(alloc, self.component)
    }

    fn meaning(&self, _alloc: Global, table: &[Option<usize>]) -> Result<usize, AllocError> {
        Ok(component_positions(self.groups, table, self.component))
    }
}

/// The positions of the content of a type, texts left out, over tables of those of groups and of types.
pub fn component_positions(
    groups: &[Option<usize>],
    types: &[Option<usize>],
    component: &TypeComponent,
) -> usize
    ensures { result ≡ counted (component_positions (known 0 groups.now) (known 0 types.now) component.now) }
{
    match &component.form {
        TypeForm::Simple(_) => 0,
        TypeForm::Complex(definition) => complex_positions(groups, types, definition),
    }
}

#[tactic(auto, using(crate::proofs::Counted::sourced_counted))]
fn complex_positions(
    groups: &[Option<usize>],
    types: &[Option<usize>],
    definition: &ComplexType,
) -> usize
    ensures { result ≡ counted (complex_positions (known 0 groups.now) (known 0 types.now) definition.now) }
{
    let written = written_positions(groups, &definition.content);
    sourced_positions(types, source(definition.derivation), written)
}

fn sourced_positions(types: &[Option<usize>], source: ContentSource, written: usize) -> usize
    ensures { result ≡ counted (sourced_positions (known 0 types.now) source written) }
{
    match source {
        ContentSource::Simple => 0,
        ContentSource::Written => written.min(CONTENT_POSITIONS + 1),
        ContentSource::Behind(base) => base_positions(types, base)
            .saturating_add(written)
            .min(CONTENT_POSITIONS + 1),
    }
}

fn written_positions(groups: &[Option<usize>], content: &Option<Particle>) -> usize
    ensures { result ≡ counted (written_positions (known 0 groups.now) content.now) }
{
    match content {
        None => 0,
        Some(particle) => particle_positions(groups, particle),
    }
}

fn base_positions(types: &[Option<usize>], base: Base) -> usize
    ensures { result ≡ positions_of_base (known 0 types.now) base }
{
    match base {
        Base::Builtin(_) => 0,
        Base::Declared(number) => known_positions(types, number),
    }
}
