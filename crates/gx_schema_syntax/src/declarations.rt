// What is written of elements and attributes.

ghost use Rattle.std.specs.Prelude.{◌≡◌, [], ◌∷◌, IfOk, codes, option_map, unwrap_or};
ghost use Rattle.std.specs.Option.{option_copied};
ghost use Rattle.gx_xml.specs.SourceView.{contents_of};
ghost use Rattle.gx_schema_syntax.specs.Contents.{given_value};
ghost use Rattle.gx_schema_syntax.specs.Declarations.{bounds_written, greatest_written, is_qualified_by, declared_kind, local_declaration, local_namespace, name_written, type_found, type_in, type_named, type_of_reference, type_within, written_kind};
ghost use Rattle.gx_qnames.specs.ScopeView.{declared_in};

use crate::children::{given_value, holds_named};
use crate::written::{Bounds, LocalDeclaration, TypeReference};
use gx_base::name::Name;
use gx_base::text::Text;
use gx_base::text_builder::TextBuilder;
use gx_base::type_name::Builtin;
use gx_qnames::reference::{Reference, named_builtin, reference_in};
use gx_qnames::scope::Scope;
use gx_qnames::words::{has_spelling, is_schema_uri};
use gx_xml::source::{SourceAttribute, SourceChild};
use std::alloc::{AllocError, Global};

/// A text, or the empty one where there is none.
pub fn text_or_empty(alloc: Global, text: Option<&Text>) -> Result<Text, AllocError>
    ensures { IfOk result (λ copy. copy ≡ unwrap_or (option_copied text.entry) []) }
{
    match text {
        Some(text) => text.clone(),
        None => Text::empty(alloc),
    }
}

// The digit that stands for a bound that is not written.
fn one(alloc: Global) -> Result<Text, AllocError>
    ensures { IfOk result (λ text. text ≡ codes "1") }
{
    let mut digits = TextBuilder::new(alloc);
    digits.push('1')?;
    digits.finish()
}

/// The name of a declaration in a namespace.
pub fn name_written(
    alloc: Global,
    uri: &Text,
    attributes: &[SourceAttribute],
) -> Result<Name, AllocError>
    ensures { IfOk result (λ name. name ≡ name_written uri.now attributes.now) }
{
    let local = text_or_empty(alloc, given_value("name", attributes))?;
    let prefix = Text::empty(alloc)?;
    let uri = uri.clone()?;
    Ok(Name { uri, prefix, local })
}

fn is_qualified(attributes: &[SourceAttribute], otherwise: bool) -> bool
    ensures { result ≡ is_qualified_by (given_value (codes "form") attributes.now) otherwise }
{
    match given_value("form", attributes) {
        Some(form) => has_spelling("qualified", form),
        None => otherwise,
    }
}

/// The namespace of a local declaration (XML Schema 1.0 part 1, sections 3.2.2 and 3.3.2).
pub fn local_namespace(
    alloc: Global,
    target: &Text,
    otherwise: bool,
    attributes: &[SourceAttribute],
) -> Result<Text, AllocError>
    ensures { IfOk result (λ uri. uri ≡ local_namespace target.now otherwise attributes.now) }
{
    if is_qualified(attributes, otherwise) {
        target.clone()
    } else {
        Text::empty(alloc)
    }
}

fn type_of_reference(reference: Reference) -> TypeReference
    ensures { result ≡ type_of_reference reference }
{
    if !is_schema_uri(&reference.name.uri) {
        return TypeReference::Declared(reference);
    }
    match named_builtin(&reference) {
        Some(builtin) => TypeReference::Builtin(builtin),
        None => TypeReference::Declared(reference),
    }
}

fn type_in(alloc: Global, scope: &Scope<'_>, value: &Text) -> Result<TypeReference, AllocError>
    ensures { IfOk result (λ kind. kind ≡ type_in (declared_in scope.entry.now) value.entry.now) }
{
    Ok(type_of_reference(reference_in(alloc, scope, value)?))
}

/// The type that an attribute names.
pub fn type_named(
    alloc: Global,
    attribute: &str,
    scope: &Scope<'_>,
    attributes: &[SourceAttribute],
) -> Result<TypeReference, AllocError>
    ensures { IfOk result (λ kind. kind ≡ type_named attribute.entry.now (declared_in scope.entry.now) attributes.entry.now) }
{
    let value = text_or_empty(alloc, given_value(attribute, attributes))?;
    type_in(alloc, scope, &value)
}

fn written_kind(
    alloc: Global,
    scope: &Scope<'_>,
    attributes: &[SourceAttribute],
) -> Result<Option<TypeReference>, AllocError>
    ensures { IfOk result (λ kind. kind ≡ written_kind (declared_in scope.entry.now) attributes.entry.now) }
{
    match given_value("type", attributes) {
        Some(value) => Ok(Some(type_in(alloc, scope, value)?)),
        None => Ok(None),
    }
}

fn type_within(default: Builtin, children: &[SourceChild], number: u32) -> TypeReference
    ensures { result ≡ type_within default (contents_of children.now) number }
{
    if holds_named("complexType", children) || holds_named("simpleType", children) {
        TypeReference::Anonymous(number)
    } else {
        TypeReference::Builtin(default)
    }
}

/// The type of an element or attribute that is declared: the one that is named, the anonymous one of this number within, or the
/// default.
pub fn declared_kind(
    alloc: Global,
    default: Builtin,
    scope: &Scope<'_>,
    attributes: &[SourceAttribute],
    children: &[SourceChild],
    number: u32,
) -> Result<TypeReference, AllocError>
    ensures { IfOk result (λ kind. kind ≡ declared_kind default (declared_in scope.entry.now) attributes.entry.now (contents_of children.entry.now) number) }
{
    match written_kind(alloc, scope, attributes)? {
        Some(kind) => Ok(kind),
        None => Ok(type_within(default, children, number)),
    }
}

/// A local element or attribute: a declaration in a namespace, or a reference to a global one.
pub fn local_declaration(
    alloc: Global,
    default: Builtin,
    uri: &Text,
    scope: &Scope<'_>,
    attributes: &[SourceAttribute],
    children: &[SourceChild],
    number: u32,
) -> Result<LocalDeclaration, AllocError>
    ensures { IfOk result (λ declaration. declaration ≡ local_declaration default uri.entry.now (declared_in scope.entry.now) attributes.entry.now (contents_of children.entry.now) number) }
{
    match given_value("ref", attributes) {
        Some(value) => {
            let reference = reference_in(alloc, scope, value)?;
            let kind = written_kind(alloc, scope, attributes)?;
            Ok(LocalDeclaration::Referred { reference, kind })
        }
        None => {
            let name = name_written(alloc, uri, attributes)?;
            let kind = declared_kind(alloc, default, scope, attributes, children, number)?;
            Ok(LocalDeclaration::Declared { name, kind })
        }
    }
}

fn greatest_written(
    alloc: Global,
    attributes: &[SourceAttribute],
) -> Result<Option<Text>, AllocError>
    ensures { IfOk result (λ greatest. greatest ≡ greatest_written (given_value (codes "maxOccurs") attributes.now)) }
{
    match given_value("maxOccurs", attributes) {
        Some(value) if has_spelling("unbounded", value) => Ok(None),
        Some(value) => Ok(Some(value.clone()?)),
        None => Ok(Some(one(alloc)?)),
    }
}

/// How often a particle may occur.
pub fn bounds_written(alloc: Global, attributes: &[SourceAttribute]) -> Result<Bounds, AllocError>
    ensures { IfOk result (λ bounds. bounds ≡ bounds_written attributes.now) }
{
    let greatest = greatest_written(alloc, attributes)?;
    let least = match given_value("minOccurs", attributes) {
        Some(value) => value.clone()?,
        None => one(alloc)?,
    };
    Ok(Bounds { least, greatest })
}
