// The numbers of elements and of anonymous types, in document order over all files.

ghost use Rattle.std.specs.Prelude.{◌≡◌, IfOk};
ghost use Rattle.gx_xml.specs.SourceView.{contents_of};
ghost use Rattle.gx_schema_syntax.specs.Numbers.{is_anonymous_type, numbers_behind, numbers_behind_all, numbers_inside};

use crate::children::is_given;
use crate::words::{is_annotation, is_schema_element};
use gx_base::name::Name;
use gx_xml::source::{SourceAttribute, SourceChild, SourceElement};
use std::alloc::AllocError;

/// The number of the next element, and that of the next anonymous type. Annotations and what stands in them are not counted.
#[derive(Clone, Copy, PartialEq, Eq)]
pub struct Numbers {
    pub element: u64,
    pub anonymous: u32,
}

// A type without a name is anonymous.
fn is_anonymous_type(name: &Name, attributes: &[SourceAttribute]) -> bool
    ensures { result ≡ is_anonymous_type name.now attributes.now }
{
    (is_schema_element("complexType", name) || is_schema_element("simpleType", name))
        && !is_given("name", attributes)
}

/// The numbers of the first part of an element. More than there are numbers is as if memory were wanting.
pub fn numbers_inside(at: Numbers, element: &SourceElement) -> Result<Numbers, AllocError>
    ensures { IfOk result (λ inside. inside ≡ numbers_inside at element.now) }
{
    let next = at.element.checked_add(1).ok_or(AllocError)?;
    if is_anonymous_type(&element.name, &element.attributes) {
        let anonymous = at.anonymous.checked_add(1).ok_or(AllocError)?;
        return Ok(Numbers {
            element: next,
            anonymous,
        });
    }
    Ok(Numbers {
        element: next,
        anonymous: at.anonymous,
    })
}

/// The numbers behind an element and all that stands in it.
#[cycle(numbers)]
pub fn numbers_behind(at: Numbers, element: &SourceElement) -> Result<Numbers, AllocError>
    ensures { IfOk result (λ behind. behind ≡ numbers_behind at element.now) }
{
    if is_annotation(&element.name) {
        return Ok(at);
    }
    numbers_behind_all(numbers_inside(at, element)?, &element.children)
}

#[cycle(numbers)]
fn numbers_behind_all(at: Numbers, children: &[SourceChild]) -> Result<Numbers, AllocError>
    ensures { IfOk result (λ behind. behind ≡ numbers_behind_all at (contents_of children.now)) }
{
    let mut at = at;
    let mut left = children;
    while let Some((child, others)) = left.split_first() {
        if let SourceChild::Element(element) = child {
            at = numbers_behind(at, element)?;
        }
        left = others;
    }
    Ok(at)
}
