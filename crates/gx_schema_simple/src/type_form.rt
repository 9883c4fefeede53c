// Types of schemas, as far as simple types look at them.

ghost use Rattle.std.specs.Prelude.{◌≡◌, IfOk, map};
ghost use Rattle.gx_schema_simple.specs.Forms.{base_number, named_base, followed_base, reference_of, followed_of};

use gx_schema_components::component::Base;
use gx_schema_syntax::written::WrittenFacets;
use std::alloc::{AllocError, Global};

/// A declared type (XML Schema 1.0 part 1, sections 3.4 and 3.14). A place is the number of an element in document order.
#[derive(Drop)]
pub enum TypeForm {
    /// A simple type that restricts its base by facets.
    Restriction {
        place: u64,
        base: Base,
        facets: WrittenFacets,
    },
    /// A simple type of lists of items.
    List {
        place: u64,
        item: Base,
    },
    /// A complex type with simple content; an extension has no facets.
    SimpleContent {
        base: Base,
        facets: WrittenFacets,
    },
    /// A complex type with complex content, which may name a base.
    ComplexContent {
        base: Option<Base>,
    },
}

/// The declared types that types name, as base or as item type.
pub fn references(alloc: Global, forms: &[TypeForm]) -> Result<Vec<Option<usize>>, AllocError>
    ensures { IfOk result (λ numbers. numbers.items ≡ map reference_of forms.now) }
{
    let mut numbers = Vec::with_capacity(alloc, forms.len())?;
    for form in forms {
        numbers.push(reference(form))?;
    }
    Ok(numbers)
}

/// The declared types on which the values of types rest.
pub fn followed(alloc: Global, forms: &[TypeForm]) -> Result<Vec<Option<usize>>, AllocError>
    ensures { IfOk result (λ numbers. numbers.items ≡ map followed_of forms.now) }
{
    let mut numbers = Vec::with_capacity(alloc, forms.len())?;
    for form in forms {
        numbers.push(followed_by(form))?;
    }
    Ok(numbers)
}

fn reference(form: &TypeForm) -> Option<usize>
    ensures { result ≡ reference_of form.now }
{
    match form {
        TypeForm::Restriction { base, .. } | TypeForm::SimpleContent { base, .. } => {
            base_number(*base)
        }
        TypeForm::List { item, .. } => base_number(*item),
        TypeForm::ComplexContent { base: Some(base) } => base_number(*base),
        TypeForm::ComplexContent { base: None } => None,
    }
}

fn followed_by(form: &TypeForm) -> Option<usize>
    ensures { result ≡ followed_of form.now }
{
    match form {
        TypeForm::Restriction { base, .. } | TypeForm::SimpleContent { base, .. } => {
            base_number(*base)
        }
        TypeForm::List { .. } | TypeForm::ComplexContent { .. } => None,
    }
}

/// The number of a type, if it is declared.
pub fn base_number(base: Base) -> Option<usize>
    ensures { result ≡ base_number base }
{
    match base {
        Base::Builtin(_) => None,
        Base::Declared(number) => Some(number),
    }
}
