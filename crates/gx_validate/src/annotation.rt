// The types of elements.

ghost use Rattle.std.specs.Prelude.{◌≡◌, [], IfOk, option_copied};
ghost use Rattle.std.specs.List.{list_any};
ghost use Rattle.gx_xml.specs.Untyped.{is_instance_namespace};
ghost use Rattle.gx_validate.specs.Annotation.{annotation, bound_type, built_in_type, declared_type_named, known_type, type_named_in, where_derived, without_space_around};
ghost use Rattle.gx_validate.specs.ElementContent.{type_in_content};
ghost use Rattle.gx_validate.specs.InstanceAttributes.{given_type, has_nil, is_instance_attribute};
ghost use Rattle.gx_qnames.specs.ScopeView.{declared_in};

use crate::white_space::without_space_around;
use gx_base::name::{Name, SharedName};
use gx_base::text::Text;
use gx_base::type_name::{Builtin, TypeName};
use gx_qnames::characters::{characters, is_qname};
use gx_qnames::reference::{Reference, named_builtin, reference_of_characters};
use gx_qnames::scope::{Scope, within};
use gx_qnames::words::is_schema_uri;
use gx_types::derivation::derives;
use gx_types::schemas::Schemas;
use gx_xml::source::{SourceAttribute, SourceElement};
use std::alloc::{AllocError, Global};

/// Whether a URI is that of the namespace of schema instances (XML Schema 1.0 part 1, section 2.6).
#[tactic(auto, unfolding(gx_xml::specs::Untyped::is_instance_namespace))]
pub fn is_instance_namespace(uri: &Text) -> bool
    ensures { result ≡ is_instance_namespace uri.now }
{
    uri.as_str() == "http://www.w3.org/2001/XMLSchema-instance"
}

// Whether an attribute has this local name in that namespace.
fn is_instance_attribute(local: &str, name: &Name) -> bool
    ensures { result ≡ is_instance_attribute local.now name.now }
{
    is_instance_namespace(&name.uri) && name.local.as_str() == local
}

// The value of the attribute `xsi:type`.
fn given_type(attributes: &[SourceAttribute]) -> Option<&Text>
    ensures { option_copied result ≡ given_type attributes.now }
{
    let mut left = attributes;
    while let Some((attribute, others)) = left.split_first() {
        if is_instance_attribute("type", &attribute.name) {
            return Some(&attribute.value);
        }
        left = others;
    }
    None
}

/// Whether there is an attribute `xsi:nil`.
pub fn has_nil(attributes: &[SourceAttribute]) -> bool
    ensures { result ≡ has_nil attributes.now }
{
    attributes
        .iter()
        .any(|attribute| is_instance_attribute("nil", &attribute.name))
}

// The type that a reference stands for, where it is bound and known.
fn bound_type(
    alloc: Global,
    schemas: &Schemas,
    reference: &Reference,
) -> Result<Option<TypeName>, AllocError>
    ensures { IfOk result (λ t. t ≡ bound_type schemas.now reference.now) }
{
    if reference.is_bound {
        known_type(alloc, schemas, reference)
    } else {
        Ok(None)
    }
}

fn known_type(
    alloc: Global,
    schemas: &Schemas,
    reference: &Reference,
) -> Result<Option<TypeName>, AllocError>
    ensures { IfOk result (λ t. t ≡ known_type schemas.now reference.now) }
{
    match built_in_type(reference) {
        Some(builtin) => Ok(Some(TypeName::Builtin(builtin))),
        None => declared_type(alloc, schemas, &reference.name),
    }
}

// The built-in type that a reference names.
fn built_in_type(reference: &Reference) -> Option<Builtin>
    ensures { result ≡ built_in_type reference.now }
{
    if is_schema_uri(&reference.name.uri) {
        named_builtin(reference)
    } else {
        None
    }
}

// The declared type of a name, as its declaration names it.
fn declared_type(
    alloc: Global,
    schemas: &Schemas,
    name: &Name,
) -> Result<Option<TypeName>, AllocError>
    ensures { IfOk result (λ t. t ≡ declared_type_named schemas.now name.now) }
{
    let name = TypeName::Named(SharedName::new(alloc, name.clone()?)?);
    match schemas.declared(&name) {
        Some(declared) => Ok(Some(declared.name.clone()?)),
        None => Ok(None),
    }
}

// The type that a text names.
fn type_named_in(
    alloc: Global,
    schemas: &Schemas,
    scope: &Scope<'_>,
    characters: &[char],
) -> Result<Option<TypeName>, AllocError>
    ensures { IfOk result (λ t. t ≡ type_named_in schemas.entry.now (declared_in scope.entry.now) characters.entry.now) }
{
    if !is_qname(characters) {
        return Ok(None);
    }
    let reference = reference_of_characters(alloc, scope, characters)?;
    bound_type(alloc, schemas, &reference)
}

fn where_derived(schemas: &Schemas, declared: &TypeName, t: Option<TypeName>) -> Option<TypeName>
    ensures { result ≡ where_derived schemas.now declared.now t }
{
    t.filter(|t| derives(schemas, t, declared))
}

/// The type of an element: the declared one, or that which `xsi:type` names and which is derived from it; None exactly where
/// `xsi:type` is bad (XML Schema 1.0 part 1, section 3.3.4, Element Locally Valid (Element), clause 4).
pub fn annotation(
    alloc: Global,
    schemas: &Schemas,
    scope: &Scope<'_>,
    declared: &TypeName,
    attributes: &[SourceAttribute],
) -> Result<Option<TypeName>, AllocError>
    ensures { IfOk result (λ t. t ≡ annotation schemas.entry.now (declared_in scope.entry.now) declared.entry.now attributes.entry.now) }
{
    match given_type(attributes) {
        Some(value) => {
            let characters = characters(alloc, value)?;
            let named = type_named_in(alloc, schemas, scope, without_space_around(&characters))?;
            Ok(where_derived(schemas, declared, named))
        }
        None => Ok(Some(declared.clone()?)),
    }
}

/// The type with which an element counts in the content that it stands in.
pub fn type_in_content<'a>(
    alloc: Global,
    schemas: &Schemas,
    scope: &Scope<'a>,
    declared: &TypeName,
    element: &'a SourceElement,
) -> Result<TypeName, AllocError>
    ensures { IfOk result (λ t. t ≡ type_in_content schemas.entry.now (declared_in scope.entry.now) declared.entry.now element.entry.now) }
{
    if given_type(&element.attributes).is_none() {
        return declared.clone();
    }
    let inner = within(alloc, scope, &element.declarations)?;
    match annotation(alloc, schemas, &inner, declared, &element.attributes)? {
        Some(t) => Ok(t),
        None => declared.clone(),
    }
}
