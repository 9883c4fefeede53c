// Where the contents of complex types come from.

ghost use Rattle.std.specs.Prelude.{◌≡◌, IfOk};
ghost use Rattle.gx_schema_content.specs.Sources.{extended_by, extended_types, extension_source, restriction_source, source_of};

use gx_schema_components::component::{Base, Derivation, TypeComponent, TypeForm};
use gx_schema_syntax::written::ContentKind;
use std::alloc::{AllocError, Global};

/// Where the content of a complex type comes from (XML Schema 1.0 part 1, section 3.4.2).
#[derive(Clone, Copy)]
pub enum ContentSource {
    /// The content is simple, without elements.
    Simple,
    /// It is what is written at the type.
    Written,
    /// It is what is written at the type, behind the content of its base.
    Behind(Base),
}

/// Where the content of a type of a derivation comes from: an extension adds to its base, and a restriction takes its place.
pub fn source(derivation: Derivation) -> ContentSource
    ensures { result ≡ source_of derivation }
{
    match derivation {
        Derivation::Own => ContentSource::Written,
        Derivation::Extends(from) => extension_source(from.content, from.base),
        Derivation::Restricts(from) => restriction_source(from.content),
    }
}

fn extension_source(content: ContentKind, base: Base) -> ContentSource
    ensures { result ≡ extension_source content base }
{
    match content {
        ContentKind::Simple => ContentSource::Simple,
        ContentKind::Complex => ContentSource::Behind(base),
    }
}

fn restriction_source(content: ContentKind) -> ContentSource
    ensures { result ≡ restriction_source content }
{
    match content {
        ContentKind::Simple => ContentSource::Simple,
        ContentKind::Complex => ContentSource::Written,
    }
}

/// The declared type to whose content a type adds.
pub fn extended_types(alloc: Global, component: &TypeComponent) -> Result<Vec<usize>, AllocError>
    ensures { IfOk result (λ numbers. numbers.items ≡ extended_types component.now) }
{
    match &component.form {
        TypeForm::Simple(_) => Ok(Vec::new(alloc)),
        TypeForm::Complex(definition) => extended_by(alloc, source(definition.derivation)),
    }
}

fn extended_by(alloc: Global, source: ContentSource) -> Result<Vec<usize>, AllocError>
    ensures { IfOk result (λ numbers. numbers.items ≡ extended_by source) }
{
    match source {
        ContentSource::Behind(Base::Declared(number)) => Ok(vec![in alloc; number]?),
        _ => Ok(Vec::new(alloc)),
    }
}
