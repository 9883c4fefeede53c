// Types, as far as the values of simple types tell of them.

ghost use Rattle.std.specs.Prelude.{◌≡◌, IfOk};
ghost use Rattle.gx_schema.specs.TypeForms.{form_of_content, form_of_derivation, form_of_simple_type, form_of_type, forms_of};

use gx_schema_components::component::{
    Base, Derivation, SimpleType, TypeComponent, TypeForm as ComponentForm,
};
use gx_schema_simple::type_form::TypeForm;
use gx_schema_syntax::written::{ContentKind, WrittenFacets};
use std::alloc::{AllocError, Global};

/// The forms of types.
pub fn type_forms(alloc: Global, types: &[TypeComponent]) -> Result<Vec<TypeForm>, AllocError>
    ensures { IfOk result (λ forms. forms.items ≡ forms_of types.now) }
{
    let mut forms = Vec::with_capacity(alloc, types.len())?;
    let mut left = types;
    while let Some((component, others)) = left.split_first() {
        forms.push(form_of_type(alloc, &component.form)?)?;
        left = others;
    }
    Ok(forms)
}

fn form_of_type(alloc: Global, form: &ComponentForm) -> Result<TypeForm, AllocError>
    ensures { IfOk result (λ shown. shown ≡ form_of_type form.now) }
{
    match form {
        ComponentForm::Simple(definition) => form_of_simple_type(alloc, definition),
        ComponentForm::Complex(definition) => {
            form_of_derivation(alloc, definition.derivation, &definition.facets)
        }
    }
}

fn form_of_simple_type(alloc: Global, definition: &SimpleType) -> Result<TypeForm, AllocError>
    ensures { IfOk result (λ form. form ≡ form_of_simple_type definition.now) }
{
    match definition {
        SimpleType::Restriction {
            place,
            base,
            facets,
        } => Ok(TypeForm::Restriction {
            place: *place,
            base: *base,
            facets: facets.copied(alloc)?,
        }),
        SimpleType::List { place, item } => Ok(TypeForm::List {
            place: *place,
            item: *item,
        }),
    }
}

fn form_of_derivation(
    alloc: Global,
    derivation: Derivation,
    facets: &WrittenFacets,
) -> Result<TypeForm, AllocError>
    ensures { IfOk result (λ form. form ≡ form_of_derivation derivation facets.now) }
{
    match derivation {
        Derivation::Own => Ok(TypeForm::ComplexContent { base: None }),
        Derivation::Extends(from) | Derivation::Restricts(from) => {
            form_of_content(alloc, from.content, from.base, facets)
        }
    }
}

fn form_of_content(
    alloc: Global,
    content: ContentKind,
    base: Base,
    facets: &WrittenFacets,
) -> Result<TypeForm, AllocError>
    ensures { IfOk result (λ form. form ≡ form_of_content content base facets.now) }
{
    match content {
        ContentKind::Simple => Ok(TypeForm::SimpleContent {
            base,
            facets: facets.copied(alloc)?,
        }),
        ContentKind::Complex => Ok(TypeForm::ComplexContent { base: Some(base) }),
    }
}
