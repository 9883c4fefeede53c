// The outlines of complex types.

ghost use Rattle.std.specs.Prelude.{◌≡◌, ℕ, IfOk, map};
ghost use Rattle.gx_references.specs.Known.{known};
ghost use Rattle.gx_schema_content.specs.declared.outline.Outline.TheVariants.{Never};
ghost use Rattle.gx_schema_content.specs.Knots.{meaning_at_ends};
ghost use Rattle.gx_schema_content.specs.OutlineViews.{outlined_over, type_outlined};
ghost use Rattle.gx_schema_content.specs.Outlines.{complex_outline, outline_of_base, sourced_outline, type_outline, unknown_outline, written_outline};
ghost use Rattle.gx_schema_content.specs.Sources.{extended_types};

use crate::group_outlines::particle_outline;
use crate::knot::known_meanings;
use crate::outline::{Outline, TypeOutline};
use crate::source::{ContentSource, extended_types, source};
use gx_references::body::Body;
use gx_schema_components::component::{Base, ComplexType, Particle, TypeComponent, TypeForm};
use std::alloc::{AllocError, Global};

/// A type among others, with the outlines of all model groups.
#[derive(Clone, Copy)]
pub struct OutlinedType<'a> {
    pub component: &'a TypeComponent,
    pub groups: &'a [Option<Outline>],
}

impl<'a> Body for OutlinedType<'a> {
    type Meaning = TypeOutline;

    ghost use Rattle.gx_references.specs.Known.{known};
    ghost use Rattle.gx_schema_content.specs.declared.outline.Outline.TheVariants.{Never};
    ghost use Rattle.gx_schema_content.specs.OutlineLaws.{type_outline_agrees};
    ghost use Rattle.gx_schema_content.specs.Outlines.{type_outline, unknown_outline};
    ghost use Rattle.gx_schema_content.specs.Sources.{extended_types};

    ghost named = { λ body. extended_types body.component.now };

    ghost meant = { λ types body. type_outline (known Never body.groups.now) types body.component.now };

    ghost nothing = { unknown_outline };

    ghost same = { λ f g body agree. type_outline_agrees (known Never body.groups.now) f g body.component.now agree };

    fn references(&self, alloc: Global) -> Result<Vec<usize>, AllocError> {
        extended_types(alloc, self.component)
    }

    fn meaning(
        &self,
        _alloc: Global,
        table: &[Option<TypeOutline>],
    ) -> Result<TypeOutline, AllocError> {
        Ok(type_outline(self.groups, table, self.component))
    }
}

fn type_outline(
    groups: &[Option<Outline>],
    types: &[Option<TypeOutline>],
    component: &TypeComponent,
) -> TypeOutline
    ensures { result ≡ type_outline (known Never groups.now) (known unknown_outline types.now) component.now }
{
    match &component.form {
        TypeForm::Simple(_) => TypeOutline::empty(),
        TypeForm::Complex(definition) => complex_outline(groups, types, definition),
    }
}

fn complex_outline(
    groups: &[Option<Outline>],
    types: &[Option<TypeOutline>],
    definition: &ComplexType,
) -> TypeOutline
    ensures { result ≡ complex_outline (known Never groups.now) (known unknown_outline types.now) definition.now }
{
    let written = written_outline(groups, &definition.content);
    sourced_outline(
        types,
        source(definition.derivation),
        definition.mixed,
        written,
    )
}

/// The outline of the content that is written at a type, over a table of those of groups.
pub fn written_outline(groups: &[Option<Outline>], content: &Option<Particle>) -> Outline
    ensures { result ≡ written_outline (known Never groups.now) content.now }
{
    match content {
        None => Outline::Empty,
        Some(particle) => particle_outline(groups, particle),
    }
}

fn sourced_outline(
    types: &[Option<TypeOutline>],
    source: ContentSource,
    mixed: bool,
    written: Outline,
) -> TypeOutline
    ensures { result ≡ sourced_outline (known unknown_outline types.now) source mixed written }
{
    match source {
        ContentSource::Simple => TypeOutline::empty(),
        ContentSource::Written => TypeOutline {
            content: written,
            mixed,
        },
        ContentSource::Behind(base) => {
            let base = outline_of_base(types, base);
            TypeOutline {
                content: base.content.joined(written),
                mixed: mixed || (written.is_empty() && base.mixed),
            }
        }
    }
}

/// The outline of a base, over a table of those of types.
pub fn outline_of_base(types: &[Option<TypeOutline>], base: Base) -> TypeOutline
    ensures { result ≡ outline_of_base (known unknown_outline types.now) base }
{
    match base {
        Base::Builtin(_) => TypeOutline::empty(),
        Base::Declared(number) => known_outline(types, number),
    }
}

fn known_outline(table: &[Option<TypeOutline>], number: usize) -> TypeOutline
    ensures { result ≡ known unknown_outline table.now number }
{
    match table.get(number) {
        Some(Some(outline)) => *outline,
        _ => TypeOutline::unknown(),
    }
}

/// The outline of each type, over those of model groups. Where the references among types come to no end, none is seen.
pub fn type_outlines(
    alloc: Global,
    types: &[TypeComponent],
    groups: &[Option<Outline>],
) -> Result<Vec<Option<TypeOutline>>, AllocError>
    ensures { IfOk result (λ table. (number : ℕ) → known unknown_outline table.items number ≡ meaning_at_ends extended_types (type_outline (known Never groups.now)) unknown_outline types.now number) }
{
    let bodies = outlined_types(alloc, types, groups)?;
    known_meanings(alloc, bodies.as_slice())
}

fn outlined_types<'a>(
    alloc: Global,
    types: &'a [TypeComponent],
    groups: &'a [Option<Outline>],
) -> Result<Vec<OutlinedType<'a>>, AllocError>
    ensures { IfOk result (λ bodies. map type_outlined bodies.items ≡ map (outlined_over (known Never groups.now)) types.now) }
{
    let mut bodies = Vec::with_capacity(alloc, types.len())?;
    for component in types {
        bodies.push(OutlinedType { component, groups })?;
    }
    Ok(bodies)
}
