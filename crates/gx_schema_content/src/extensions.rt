// Extensions that are mixed where their bases are not, or the other way round.

ghost use Rattle.std.specs.Prelude.{◌≡◌, IfOk};
ghost use Rattle.gx_schema_content.specs.Extensions.{differ, differing_extension, earlier_extension, first_differing_extension, first_differing_from, form_differs, place_of_derivation, place_of_form};
ghost use Rattle.gx_schema_content.specs.KnownView.{known_by};
ghost use Rattle.gx_schema_content.specs.OutlinedExtensions.{outline_differs, outlined_definition_differs};

use crate::group_outlines::group_outlines;
use crate::outline::{Outline, TypeOutline};
use crate::source::{ContentSource, source};
use crate::type_outlines::{outline_of_base, type_outlines, written_outline};
use gx_schema_components::component::{
    ComplexType, Derivation, ModelGroup, TypeComponent, TypeForm,
};
use std::alloc::{AllocError, Global};

/// An extension that differs from its base in being mixed: where it is, and the number of its type.
#[derive(Clone, Copy)]
pub struct DifferingExtension {
    pub place: u64,
    pub number: usize,
}

/// What is known of groups and types: their outlines.
#[derive(Clone, Copy)]
pub struct OutlineTables<'a> {
    pub groups: &'a [Option<Outline>],
    pub types: &'a [Option<TypeOutline>],
}

/// The first extension by place that is mixed where its base is not, or is not where its base is, unless the base is empty, or it adds
/// nothing and is not mixed itself (XML Schema 1.0 part 1, section 3.4.6). Contents of any number of positions are seen.
pub fn first_differing_extension(
    alloc: Global,
    types: &[TypeComponent],
    groups: &[ModelGroup],
) -> Result<Option<DifferingExtension>, AllocError>
    ensures { IfOk result (λ found. found ≡ first_differing_extension types.now groups.now) }
{
    let groups = group_outlines(alloc, groups)?;
    let outlines = type_outlines(alloc, types, groups.as_slice())?;
    let tables = OutlineTables {
        groups: groups.as_slice(),
        types: outlines.as_slice(),
    };
    Ok(first_differing(&tables, types))
}

fn first_differing(
    tables: &OutlineTables<'_>,
    types: &[TypeComponent],
) -> Option<DifferingExtension>
    ensures { result ≡ first_differing_from (outlined_definition_differs (known_by tables.now)) 0 types.now }
{
    let mut first = None;
    for number in (0..types.len()).rev() {
        let differing = differing_extension(tables, number, &types[number].form);
        first = earlier_extension(differing, first);
    }
    first
}

fn differing_extension(
    tables: &OutlineTables<'_>,
    number: usize,
    form: &TypeForm,
) -> Option<DifferingExtension>
    ensures { result ≡ differing_extension (outlined_definition_differs (known_by tables.now)) number form.now }
{
    form_differs(tables, form).then(|| DifferingExtension {
        place: place_of_form(form),
        number,
    })
}

// The earlier of two by place, and the first at one place.
fn earlier_extension(
    one: Option<DifferingExtension>,
    other: Option<DifferingExtension>,
) -> Option<DifferingExtension>
    ensures { result ≡ earlier_extension one other }
{
    match (one, other) {
        (None, other) => other,
        (Some(one), None) => Some(one),
        (Some(one), Some(other)) => {
            if one.place <= other.place {
                Some(one)
            } else {
                Some(other)
            }
        }
    }
}

fn place_of_form(form: &TypeForm) -> u64
    ensures { result ≡ place_of_form form.now }
{
    match form {
        TypeForm::Simple(_) => 0,
        TypeForm::Complex(definition) => place_of_derivation(definition.derivation),
    }
}

fn place_of_derivation(derivation: Derivation) -> u64
    ensures { result ≡ place_of_derivation derivation }
{
    match derivation {
        Derivation::Own => 0,
        Derivation::Extends(from) | Derivation::Restricts(from) => from.place,
    }
}

fn form_differs(tables: &OutlineTables<'_>, form: &TypeForm) -> bool
    ensures { result ≡ form_differs (outlined_definition_differs (known_by tables.now)) form.now }
{
    match form {
        TypeForm::Simple(_) => false,
        TypeForm::Complex(definition) => definition_differs(tables, definition),
    }
}

fn definition_differs(tables: &OutlineTables<'_>, definition: &ComplexType) -> bool
    ensures { result ≡ outlined_definition_differs (known_by tables.now) definition.now }
{
    match source(definition.derivation) {
        ContentSource::Simple | ContentSource::Written => false,
        ContentSource::Behind(base) => {
            let added = written_outline(tables.groups, &definition.content);
            outline_differs(definition.mixed, added, outline_of_base(tables.types, base))
        }
    }
}

fn outline_differs(mixed: bool, added: Outline, base: TypeOutline) -> bool
    ensures { result ≡ outline_differs mixed added base }
{
    let is_empty_base = base.content.is_empty() && !base.mixed;
    differ(mixed, base.mixed) && (!is_empty_base && (!added.is_empty() || mixed))
}

fn differ(one: bool, other: bool) -> bool
    ensures { result ≡ differ one other }
{
    if one { !other } else { other }
}
