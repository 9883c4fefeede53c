// The attributes of elements.

ghost use Rattle.std.specs.Prelude.{◌≡◌, ◌&&◌, ◌++◌, not, is_none, IfOk, OnOk, option_copied};
ghost use Rattle.std.specs.List.{list_any};
ghost use Rattle.gx_validate.specs.Outcome.{typed_attributes};
ghost use Rattle.gx_model.specs.DeclaredContent.{use_named, uses_allowed};
ghost use Rattle.gx_validate.specs.Rules.{type_of_attribute, counts, has_extra, is_extra, is_present, type_of_use, lacks_required};

use crate::annotation::is_instance_namespace;
use gx_base::name::Name;
use gx_base::type_name::{Builtin, TypeName};
use gx_tree::attribute::Attribute;
use gx_types::declaration::{AttributeUse, Declared};
use gx_xml::source::SourceAttribute;
use std::alloc::{AllocError, Global};

/// The attributes that a type allows.
pub fn uses_allowed(holder: Option<&Declared>) -> &[AttributeUse]
    ensures { result.now ≡ uses_allowed (option_copied holder.entry) }
{
    match holder {
        Some(declared) => declared.attributes.as_slice(),
        None => &[],
    }
}

/// Whether an attribute does not speak of schemas.
pub fn counts(attribute: &SourceAttribute) -> bool
    ensures { result ≡ counts attribute.now }
{
    !is_instance_namespace(&attribute.name.uri)
}

fn use_named<'a>(uses: &'a [AttributeUse], name: &Name) -> Option<&'a AttributeUse>
    ensures { option_copied result ≡ use_named uses.now name.now }
{
    uses.iter().find(|given| given.name == *name)
}

/// The type that a type gives an attribute.
pub fn type_of_attribute(uses: &[AttributeUse], name: &Name) -> Result<TypeName, AllocError>
    ensures { IfOk result (λ t. t ≡ type_of_attribute uses.now name.now) }
{
    match use_named(uses, name) {
        Some(given) => given.kind.clone(),
        None => Ok(TypeName::Builtin(Builtin::UntypedAtomic)),
    }
}

fn is_extra(uses: &[AttributeUse], attribute: &SourceAttribute) -> bool
    ensures { result ≡ is_extra uses.now attribute.now }
{
    counts(attribute) && use_named(uses, &attribute.name).is_none()
}

/// Whether there is an attribute that a type does not allow.
pub fn has_extra(uses: &[AttributeUse], attributes: &[SourceAttribute]) -> bool
    ensures { result ≡ has_extra uses.now attributes.now }
{
    attributes.iter().any(|attribute| is_extra(uses, attribute))
}

fn is_present(attributes: &[SourceAttribute], name: &Name) -> bool
    ensures { result ≡ is_present attributes.now name.now }
{
    attributes
        .iter()
        .any(|attribute| counts(attribute) && *name == attribute.name)
}

/// Whether there is none of an attribute that a type requires.
pub fn lacks_required(uses: &[AttributeUse], attributes: &[SourceAttribute]) -> bool
    ensures { result ≡ lacks_required uses.now attributes.now }
{
    uses.iter().any(|given| given.required && !is_present(attributes, &given.name))
}

/// The attributes with their types.
pub fn typed_attributes(
    alloc: Global,
    uses: &[AttributeUse],
    attributes: &[SourceAttribute],
) -> Result<Vec<Attribute>, AllocError>
    ensures { IfOk result (λ typed. typed.items ≡ typed_attributes uses.now attributes.now) }
{
    let mut typed = Vec::new(alloc);
    let mut left = attributes;
    while let Some((attribute, others)) = left.split_first() {
        if counts(attribute) {
            typed.push(typed_attribute(uses, attribute)?)?;
        }
        left = others;
    }
    Ok(typed)
}

fn typed_attribute(
    uses: &[AttributeUse],
    attribute: &SourceAttribute,
) -> Result<Attribute, AllocError>
    ensures { IfOk result (λ a. a ≡ record { name = attribute.now.name; kind = type_of_attribute uses.now attribute.now.name; value = attribute.now.value }) }
{
    let kind = type_of_attribute(uses, &attribute.name)?;
    let name = attribute.name.clone()?;
    let value = attribute.value.clone()?;
    Ok(Attribute { name, kind, value })
}

/// The same, of attributes that are taken over.
pub fn into_typed_attributes(
    alloc: Global,
    uses: &[AttributeUse],
    attributes: Vec<SourceAttribute>,
) -> Result<Vec<Attribute>, AllocError>
    ensures { IfOk result (λ typed. typed.items ≡ typed_attributes uses.now attributes.items) }
{
    let mut typed = Vec::with_capacity(alloc, attributes.len())?;
    let mut left = attributes.into_iter();
    while let Some(attribute) = left.next() {
        if counts(&attribute) {
            typed.push(into_typed_attribute(uses, attribute)?)?;
        }
    }
    Ok(typed)
}

fn into_typed_attribute(
    uses: &[AttributeUse],
    attribute: SourceAttribute,
) -> Result<Attribute, AllocError>
    ensures { IfOk result (λ a. a ≡ record { name = attribute.name; kind = type_of_attribute uses.now attribute.name; value = attribute.value }) }
{
    let kind = type_of_attribute(uses, &attribute.name)?;
    let SourceAttribute { name, value } = attribute;
    Ok(Attribute { name, kind, value })
}
