// What simple types mean.

ghost use Rattle.std.specs.Prelude.{◌≡◌, ◌++◌, ℕ, [], Some, None, IfOk, OnOk, map, length, slice_get, option_map, option_copied};
ghost use Rattle.std.specs.Option.{option_to_list};
ghost use Rattle.gx_references.specs.Known.{known};
ghost use Rattle.gx_types.specs.SimpleView.{simple_view, facets_view};
ghost use Rattle.gx_schema_simple.specs.Circles.{named_next};
ghost use Rattle.gx_schema_simple.specs.Meanings.{all_facets_of, list_meaning, meaning_by, meaning_seen, own_facets_over};

use crate::own_facets::facets_read;
use crate::type_form::{TypeForm, base_number};
use crate::variety::{TypeVariety, base_variety};
use gx_base::type_name::{Builtin, TypeName};
use gx_facets::Facets;
use gx_schema_components::component::Base;
use gx_types::simple_type::{AtomicType, SimpleType, Variety};
use std::alloc::{AllocError, Global};

/// The facets that each type has of its own, over the varieties of types.
pub fn own_facets(
    alloc: Global,
    forms: &[TypeForm],
    varieties: &[Option<TypeVariety>],
) -> Result<Vec<Facets>, AllocError>
    ensures { IfOk result (λ own. own.items ≡ map (own_facets_over (known TypeVariety.Hidden varieties.now)) forms.now) }
{
    let mut own = Vec::with_capacity(alloc, forms.len())?;
    for form in forms {
        let facets = own_facets_of(alloc, form, varieties)?;
        own.push(facets)?;
    }
    Ok(own)
}

/// The facets that a type has of its own, over the varieties of types.
pub fn own_facets_of(
    alloc: Global,
    form: &TypeForm,
    varieties: &[Option<TypeVariety>],
) -> Result<Facets, AllocError>
    ensures { IfOk result (λ own. own ≡ own_facets_over (known TypeVariety.Hidden varieties.now) form.now) }
{
    match form {
        TypeForm::Restriction { base, facets, .. } | TypeForm::SimpleContent { base, facets } => {
            let meaning = meaning(alloc, &[], &[], varieties, *base)?;
            facets_read(alloc, &meaning, facets.as_slice())
        }
        TypeForm::List { .. } | TypeForm::ComplexContent { .. } => facets_read(alloc, &None, &[]),
    }
}

/// What a type means, with the facets of all its bases, over those that each type has of its own and over the varieties of types;
/// None where its values are not seen.
pub fn meaning<'a>(
    alloc: Global,
    bases: &[Option<usize>],
    own: &'a [Facets],
    varieties: &[Option<TypeVariety>],
    t: Base,
) -> Result<Option<SimpleType<'a>>, AllocError>
    ensures { IfOk result (λ found. option_map simple_view found ≡ meaning_seen (all_facets_of bases.now own.now) (known TypeVariety.Hidden varieties.now) t) }
{
    match base_variety(varieties, t) {
        TypeVariety::Hidden | TypeVariety::NoValues => Ok(None),
        TypeVariety::Atomic(bottom) => {
            let item = atomic_type(alloc, bases, own, t, bottom)?;
            Ok(Some(SimpleType {
                variety: Variety::Atomic,
                item,
                facets: Vec::new(alloc),
            }))
        }
        TypeVariety::List(item) => match base_variety(varieties, item) {
            TypeVariety::Atomic(bottom) => {
                let item = atomic_type(alloc, bases, own, item, bottom)?;
                let facets = all_facets(alloc, bases, own, t)?;
                Ok(Some(SimpleType {
                    variety: Variety::List,
                    item,
                    facets,
                }))
            }
            _ => Ok(None),
        },
    }
}

fn atomic_type<'a>(
    alloc: Global,
    bases: &[Option<usize>],
    own: &'a [Facets],
    t: Base,
    bottom: Builtin,
) -> Result<AtomicType<'a>, AllocError>
    ensures kind { IfOk result (λ item. item.kind ≡ TypeName.Builtin bottom) }
    ensures bottom { IfOk result (λ item. item.bottom ≡ bottom) }
    ensures facets { IfOk result (λ item. facets_view item.facets ≡ all_facets_of bases.now own.now t) }
{
    let facets = all_facets(alloc, bases, own, t)?;
    Ok(AtomicType {
        kind: TypeName::Builtin(bottom),
        bottom,
        facets,
    })
}

// The facets of a type and of all its bases, which are no more than there are types.
fn all_facets<'a>(
    alloc: Global,
    bases: &[Option<usize>],
    own: &'a [Facets],
    t: Base,
) -> Result<Vec<&'a Facets>, AllocError>
    ensures { IfOk result (λ facets. facets_view facets ≡ all_facets_of bases.now own.now t) }
{
    let mut facets = Vec::new(alloc);
    let mut next = base_number(t);
    for _ in 0..own.len() {
        let Some(number) = next else {
            return Ok(facets);
        };
        facets = with_own_facets(facets, own, number)?;
        next = next_number(bases, number);
    }
    Ok(facets)
}

fn with_own_facets<'a>(
    mut facets: Vec<&'a Facets>,
    own: &'a [Facets],
    number: usize,
) -> Result<Vec<&'a Facets>, AllocError>
    ensures { IfOk result (λ all. facets_view all ≡ facets_view facets.entry ++ option_to_list (slice_get own.now number)) }
{
    match own_at(own, number) {
        Some(of_type) => {
            facets.push(of_type)?;
            Ok(facets)
        }
        None => Ok(facets),
    }
}

fn own_at(own: &[Facets], number: usize) -> Option<&Facets>
    ensures { option_copied result ≡ slice_get own.now number }
{
    own.get(number)
}

fn next_number(bases: &[Option<usize>], number: usize) -> Option<usize>
    ensures { result ≡ named_next bases.now number }
{
    bases.get(number).copied().unwrap_or(None)
}
