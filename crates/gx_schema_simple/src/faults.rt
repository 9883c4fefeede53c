// Inconsistent simple types.

ghost use Rattle.std.specs.Prelude.{◌≡◌, ◌++◌, ◌||◌, ◌&&◌, not, ℕ, [], ◌∷◌, Some, None, IfOk, OnOk, length, option_map, option_copied, is_ok};
ghost use Rattle.gx_references.specs.Known.{known};
ghost use Rattle.gx_types.specs.SimpleView.{simple_view};
ghost use Rattle.gx_schema_simple.specs.Circles.{is_circular};
ghost use Rattle.gx_schema_simple.specs.Faults.{applies, applies_to_builtin, earlier_fault, facet_fault, facet_faults, fault_if, faults_from, first_type_fault, is_bound, is_complex, is_complex_form, is_length, is_list, is_sound_facet, simple_faults, stands_for_values, type_faults};
ghost use Rattle.gx_schema_simple.specs.Forms.{references_of};
ghost use Rattle.gx_schema_simple.specs.Meanings.{all_facets_of, meaning_seen};
ghost use Rattle.gx_schema_simple.specs.Varieties.{IsMarked, variety_of, variety_of_base};
ghost use Rattle.gx_schema_simple.specs.Walk.{has_mark};
ghost use Rattle.gx_schema_simple.specs.Looks.{seen_by};

use crate::circles::{circular_types, is_marked};
use crate::meaning::{meaning, own_facets};
use crate::type_form::{TypeForm, followed};
use crate::variety::{TypeVariety, base_variety, varieties};
use gx_base::text::Text;
use gx_base::type_name::Builtin;
use gx_facets::{Facets, ValueRead};
use gx_schema_components::component::Base;
use gx_schema_syntax::role::FacetKind;
use gx_schema_syntax::written::WrittenFacet;
use gx_types::simple_type::SimpleType;
use std::alloc::{AllocError, Global};

/// A fault of a type: where it is, and the number of the type that holds it.
#[derive(Clone, Copy)]
pub struct Fault {
    pub place: u64,
    pub number: usize,
}

/// What is seen of types: their forms, marks at those on circles, their varieties, their bases, and the facets of their own.
#[derive(Clone, Copy)]
pub struct Look<'a> {
    pub forms: &'a [TypeForm],
    pub marks: &'a [bool],
    pub varieties: &'a [Option<TypeVariety>],
    pub bases: &'a [Option<usize>],
    pub own: &'a [Facets],
}

/// The first fault by place of simple types, and of facets of simple content: a simple type whose base is complex; a list whose
/// items are complex or lists; and a facet that does not apply to the values of the base, or whose value is none of them (XML Schema
/// 1.0 part 1, section 3.14.6; part 2, sections 4.1.2 and 4.3). Nothing is seen of a type that stands on a circle.
pub fn first_type_fault(alloc: Global, forms: &[TypeForm]) -> Result<Option<Fault>, AllocError>
    ensures { IfOk result (λ fault. fault ≡ first_type_fault (simple_faults forms.now)) }
{
    let marks = circular_types(alloc, forms)?;
    let varieties = varieties(alloc, forms, marks.as_slice())?;
    first_fault_seen(alloc, forms, marks.as_slice(), varieties.as_slice())
}

// The first fault by place, over marks at the types on circles and over the varieties of types.
fn first_fault_seen(
    alloc: Global,
    forms: &[TypeForm],
    marks: &[bool],
    varieties: &[Option<TypeVariety>],
) -> Result<Option<Fault>, AllocError>
    requires marks { IsMarked forms.now marks.now }
    requires varieties { (number : ℕ) → known TypeVariety.Hidden varieties.now number ≡ variety_of forms.now number }
    ensures { IfOk result (λ fault. fault ≡ first_type_fault (simple_faults forms.now)) }
{
    let bases = followed(alloc, forms)?;
    let own = own_facets(alloc, forms, varieties)?;
    let look = Look {
        forms,
        marks,
        varieties,
        bases: bases.as_slice(),
        own: own.as_slice(),
    };
    first_noted(alloc, &look)
}

// The first fault by place of the types that are looked at.
fn first_noted(alloc: Global, look: &Look<'_>) -> Result<Option<Fault>, AllocError>
    ensures { IfOk result (λ fault. fault ≡ first_type_fault (faults_from look.now.forms.now (seen_by look.now) 0 look.now.forms.now)) }
{
    let mut best = None;
    for (number, form) in look.forms.iter().enumerate() {
        note_type(alloc, look, number, form, &mut best)?;
    }
    Ok(best)
}

fn note_type(
    alloc: Global,
    look: &Look<'_>,
    number: usize,
    form: &TypeForm,
    best: &mut Option<Fault>,
) -> Result<(), AllocError>
    ensures { OnOk result (best.new ≡ earlier_fault best.old (first_type_fault (type_faults look.now.forms.now (seen_by look.now) number form.now))) }
{
    match form {
        TypeForm::Restriction {
            place,
            base,
            facets,
        } => {
            note_where(is_complex(look, *base), *place, number, best);
            note_facets(alloc, look, *base, number, facets.as_slice(), best)
        }
        TypeForm::List { place, item } => {
            let is_wrong = is_complex(look, *item) || is_list(base_variety(look.varieties, *item));
            note_where(is_wrong, *place, number, best);
            Ok(())
        }
        TypeForm::SimpleContent { base, facets } => {
            note_facets(alloc, look, *base, number, facets.as_slice(), best)
        }
        TypeForm::ComplexContent { .. } => Ok(()),
    }
}

fn note_facets(
    alloc: Global,
    look: &Look<'_>,
    base: Base,
    number: usize,
    facets: &[WrittenFacet],
    best: &mut Option<Fault>,
) -> Result<(), AllocError>
    ensures { OnOk result (best.new ≡ earlier_fault best.old (first_type_fault (facet_faults (variety_of_base (seen_by look.now).variety base) ((seen_by look.now).meaning base) number facets.now))) }
{
    if facets.is_empty() {
        return Ok(());
    }
    let variety = base_variety(look.varieties, base);
    let meaning = meaning(alloc, look.bases, look.own, look.varieties, base)?;
    note_unsound(alloc, variety, &meaning, number, facets, best)
}

// Keeps the earliest of the facets that are faulty over a base.
fn note_unsound(
    alloc: Global,
    variety: TypeVariety,
    base: &Option<SimpleType<'_>>,
    number: usize,
    facets: &[WrittenFacet],
    best: &mut Option<Fault>,
) -> Result<(), AllocError>
    ensures { OnOk result (best.new ≡ earlier_fault best.old (first_type_fault (facet_faults variety (option_map simple_view base.now) number facets.now))) }
{
    for facet in facets {
        let is_sound = is_sound_facet(alloc, variety, base, facet)?;
        note_where(!is_sound, facet.place, number, best);
    }
    Ok(())
}

fn is_sound_facet(
    alloc: Global,
    variety: TypeVariety,
    base: &Option<SimpleType<'_>>,
    facet: &WrittenFacet,
) -> Result<bool, AllocError>
    ensures { IfOk result (λ is_sound. is_sound ≡ is_sound_facet variety (option_map simple_view base.now) facet.now) }
{
    if !applies(variety, facet.kind) {
        return Ok(false);
    }
    if is_length(facet.kind) {
        return Ok(true);
    }
    stands_for_values(alloc, base, &facet.value)
}

// Whether a text stands for values of a type, if these are seen.
fn stands_for_values(
    alloc: Global,
    base: &Option<SimpleType<'_>>,
    text: &Text,
) -> Result<bool, AllocError>
    ensures { IfOk result (λ stands. stands ≡ stands_for_values (option_map simple_view base.now) text.now) }
{
    let Some(base) = base else {
        return Ok(true);
    };
    match base.read(alloc, text) {
        Ok(_) => Ok(true),
        Err(ValueRead::Memory) => Err(AllocError),
        Err(_) => Ok(false),
    }
}

fn applies(variety: TypeVariety, kind: FacetKind) -> bool
    ensures { result ≡ applies variety kind }
{
    match variety {
        TypeVariety::Hidden | TypeVariety::NoValues => true,
        TypeVariety::Atomic(bottom) => applies_to_builtin(bottom, kind),
        TypeVariety::List(_) => !is_bound(kind),
    }
}

fn applies_to_builtin(bottom: Builtin, kind: FacetKind) -> bool
    ensures { result ≡ applies_to_builtin bottom kind }
{
    match bottom {
        Builtin::Str | Builtin::NormalizedStr | Builtin::Token => !is_bound(kind),
        Builtin::AnyType
        | Builtin::Untyped
        | Builtin::AnySimple
        | Builtin::AnyAtomic
        | Builtin::UntypedAtomic
        | Builtin::Boolean => false,
        _ => !is_length(kind),
    }
}

fn is_length(kind: FacetKind) -> bool
    ensures { result ≡ is_length kind }
{
    matches!(
        kind,
        FacetKind::Length | FacetKind::MinLength | FacetKind::MaxLength
    )
}

fn is_bound(kind: FacetKind) -> bool
    ensures { result ≡ is_bound kind }
{
    matches!(
        kind,
        FacetKind::MinInclusive
            | FacetKind::MaxInclusive
            | FacetKind::MinExclusive
            | FacetKind::MaxExclusive
    )
}

fn is_list(variety: TypeVariety) -> bool
    ensures { result ≡ is_list variety }
{
    matches!(variety, TypeVariety::List(_))
}

// Whether a type is seen to be complex.
fn is_complex(look: &Look<'_>, base: Base) -> bool
    ensures { result ≡ is_complex (seen_by look.now).is_on_circle look.now.forms.now base }
{
    match base {
        Base::Builtin(_) => false,
        Base::Declared(number) => {
            !is_marked(look.marks, number) && is_complex_form(look.forms.get(number))
        }
    }
}

fn is_complex_form(form: Option<&TypeForm>) -> bool
    ensures { result ≡ is_complex_form (option_copied form.entry) }
{
    matches!(
        form,
        Some(TypeForm::SimpleContent { .. } | TypeForm::ComplexContent { .. })
    )
}

// Keeps the earlier fault, where there is another one.
fn note_where(is_faulty: bool, place: u64, number: usize, best: &mut Option<Fault>)
    ensures { best.new ≡ earlier_fault best.old (first_type_fault (fault_if is_faulty place number)) }
{
    if !is_faulty {
        return;
    }
    match *best {
        Some(found) if found.place <= place => {}
        _ => *best = Some(Fault { place, number }),
    }
}
