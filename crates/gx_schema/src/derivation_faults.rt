// Complex types over bases of another kind.

ghost use Rattle.std.specs.Prelude.{◌≡◌, not, slice_get, option_copied};
ghost use Rattle.gx_schema_simple.specs.Faults.{earlier_fault};
ghost use Rattle.gx_schema.specs.DerivationFaults.{derivation_fault, derivation_place, first_derivation_fault, has_complex_content, has_derivation_fault, has_simple_values, kind_fits_base};

use gx_schema_components::component::{Base, Derivation, TypeComponent, TypeForm as ComponentForm};
use gx_schema_simple::faults::Fault;
use gx_schema_simple::type_form::TypeForm;
use gx_schema_syntax::written::ContentKind;

/// The first fault by place of complex types, over the forms of all types: simple content over a base without it, or complex content
/// over a base that is simple or has simple content (XML Schema 1.0 part 1, sections 3.4.3 and 3.4.6).
pub fn first_derivation_fault(forms: &[TypeForm], types: &[TypeComponent]) -> Option<Fault>
    ensures { result ≡ first_derivation_fault forms.now 0 types.now }
{
    let mut first = None;
    for number in (0..types.len()).rev() {
        first = earlier_fault(derivation_fault(forms, number, &types[number].form), first);
    }
    first
}

fn derivation_fault(forms: &[TypeForm], number: usize, form: &ComponentForm) -> Option<Fault>
    ensures { result ≡ derivation_fault forms.now number form.now }
{
    match form {
        ComponentForm::Simple(_) => None,
        ComponentForm::Complex(definition) => {
            if has_derivation_fault(forms, definition.derivation) {
                let place = derivation_place(definition.derivation);
                return Some(Fault { place, number });
            }
            None
        }
    }
}

fn has_derivation_fault(forms: &[TypeForm], derivation: Derivation) -> bool
    ensures { result ≡ has_derivation_fault forms.now derivation }
{
    match derivation {
        Derivation::Own => false,
        Derivation::Extends(from) | Derivation::Restricts(from) => {
            !kind_fits_base(forms, from.content, from.base)
        }
    }
}

fn derivation_place(derivation: Derivation) -> u64
    ensures { result ≡ derivation_place derivation }
{
    match derivation {
        Derivation::Own => 0,
        Derivation::Extends(from) | Derivation::Restricts(from) => from.place,
    }
}

// The earlier of two by place, and the first at one place.
fn earlier_fault(one: Option<Fault>, other: Option<Fault>) -> Option<Fault>
    ensures { result ≡ earlier_fault one other }
{
    match (one, other) {
        (None, other) => other,
        (Some(one), None) => Some(one),
        (Some(one), Some(other)) => {
            if one.place <= other.place {
                Some(one)
            } else {
                Some(other)
            }
        }
    }
}

fn kind_fits_base(forms: &[TypeForm], content: ContentKind, base: Base) -> bool
    ensures { result ≡ kind_fits_base forms.now content base }
{
    match (content, base) {
        (ContentKind::Simple, Base::Builtin(_)) => true,
        (ContentKind::Simple, Base::Declared(number)) => !has_complex_content(forms.get(number)),
        (ContentKind::Complex, Base::Builtin(_)) => false,
        (ContentKind::Complex, Base::Declared(number)) => !has_simple_values(forms.get(number)),
    }
}

fn has_complex_content(form: Option<&TypeForm>) -> bool
    ensures { result ≡ has_complex_content (option_copied form.entry) }
{
    matches!(form, Some(TypeForm::ComplexContent { .. }))
}

fn has_simple_values(form: Option<&TypeForm>) -> bool
    ensures { result ≡ has_simple_values (option_copied form.entry) }
{
    matches!(
        form,
        Some(TypeForm::Restriction { .. } | TypeForm::List { .. } | TypeForm::SimpleContent { .. })
    )
}
