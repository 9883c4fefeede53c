// The contents of complex types.

ghost use Rattle.std.specs.Prelude.{◌≡◌, ℕ, IfOk};
ghost use Rattle.gx_types.specs.SequenceType.{never};
ghost use Rattle.gx_types.specs.TypeRules.{joined_types};
ghost use Rattle.gx_references.specs.Known.{known};
ghost use Rattle.gx_schema_content.specs.TypeContents.{complex_content, content_of_base, empty_content, form_content, is_nothing, sourced_content, unknown_content, written_content};

use crate::effective::Effective;
use crate::group_content::particle_content;
use crate::source::{ContentSource, extended_types, source};
use gx_references::body::Body;
use gx_schema_components::component::{Base, ComplexType, Particle, TypeComponent, TypeForm};
use gx_types::sequence_type::{Ty, TyNode};
use gx_types::type_rules::join;
use std::alloc::{AllocError, Global};

/// A type among others, with the contents of all model groups, and whether its content has no more positions than a content may
/// have.
#[derive(Clone, Copy)]
pub struct TypeContent<'a> {
    pub component: &'a TypeComponent,
    pub groups: &'a [Option<Ty>],
    pub fits: bool,
}

impl<'a> Body for TypeContent<'a> {
    type Meaning = Effective;

    ghost use Rattle.gx_types.specs.SequenceType.{never};
    ghost use Rattle.gx_references.specs.Known.{known};
    ghost use Rattle.gx_schema_content.specs.Sources.{extended_types};
    ghost use Rattle.gx_schema_content.specs.TypeContents.{unknown_content, type_content_that_fits};
    ghost use Rattle.gx_schema_content.specs.TypeLaws.{type_content_that_fits_agrees};

    ghost named = { λ body. extended_types body.component.now };

    ghost meant = { λ types body. type_content_that_fits body.fits (known never body.groups.now) types body.component.now };

    ghost nothing = { unknown_content };

    ghost same = { λ f g body agree. type_content_that_fits_agrees body.fits (known never body.groups.now) f g body.component.now agree };

    fn references(&self, alloc: Global) -> Result<Vec<usize>, AllocError> {
        extended_types(alloc, self.component)
    }

    fn meaning(&self, alloc: Global, table: &[Option<Effective>]) -> Result<Effective, AllocError> {
        if self.fits {
            form_content(alloc, self.groups, table, &self.component.form)
        } else {
            Ok(unknown_content())
        }
    }
}

// The content of a type, over tables of the contents of groups and of types (XML Schema 1.0 part 1, section 3.4.2).
fn form_content(
    alloc: Global,
    groups: &[Option<Ty>],
    types: &[Option<Effective>],
    form: &TypeForm,
) -> Result<Effective, AllocError>
    ensures { IfOk result (λ effective. effective ≡ form_content (known never groups.now) (known unknown_content types.now) form.now) }
{
    match form {
        TypeForm::Simple(_) => Ok(empty_content()),
        TypeForm::Complex(definition) => complex_content(alloc, groups, types, definition),
    }
}

fn complex_content(
    alloc: Global,
    groups: &[Option<Ty>],
    types: &[Option<Effective>],
    definition: &ComplexType,
) -> Result<Effective, AllocError>
    ensures { IfOk result (λ effective. effective ≡ complex_content (known never groups.now) (known unknown_content types.now) definition.now) }
{
    let written = written_content(alloc, groups, &definition.content)?;
    sourced_content(
        alloc,
        types,
        source(definition.derivation),
        definition.mixed,
        written,
    )
}

// The content that is written at a type, over a table of the contents of groups.
fn written_content(
    alloc: Global,
    groups: &[Option<Ty>],
    content: &Option<Particle>,
) -> Result<Ty, AllocError>
    ensures { IfOk result (λ t. t ≡ written_content (known never groups.now) content.now) }
{
    match content {
        None => Ok(Ty::empty()),
        Some(particle) => particle_content(alloc, groups, particle),
    }
}

// What a type holds that has this written content.
fn sourced_content(
    alloc: Global,
    types: &[Option<Effective>],
    source: ContentSource,
    mixed: bool,
    written: Ty,
) -> Result<Effective, AllocError>
    ensures { IfOk result (λ effective. effective ≡ sourced_content (known unknown_content types.now) source mixed written) }
{
    match source {
        ContentSource::Simple => Ok(empty_content()),
        ContentSource::Written => Ok(Effective {
            content: written,
            mixed,
        }),
        ContentSource::Behind(base) => {
            let mixed = mixed || (is_empty(&written) && base_is_mixed(types, base));
            let content = behind_base(alloc, types, base, &written)?;
            Ok(Effective { content, mixed })
        }
    }
}

fn behind_base(
    alloc: Global,
    types: &[Option<Effective>],
    base: Base,
    written: &Ty,
) -> Result<Ty, AllocError>
    ensures { IfOk result (λ t. t ≡ joined_types (content_of_base (known unknown_content types.now) base).content written.now) }
{
    let content = base_content(types, base)?;
    join(alloc, &content, written)
}

// The content of a base, over a table of the contents of types.
fn base_content(types: &[Option<Effective>], base: Base) -> Result<Ty, AllocError>
    ensures { IfOk result (λ t. t ≡ (content_of_base (known unknown_content types.now) base).content) }
{
    match base {
        Base::Builtin(_) => Ok(Ty::empty()),
        Base::Declared(number) => match types.get(number) {
            Some(Some(effective)) => effective.content.clone(),
            _ => Ok(Ty::none()),
        },
    }
}

// Whether a base has texts, over a table of the contents of types.
fn base_is_mixed(types: &[Option<Effective>], base: Base) -> bool
    ensures { result ≡ (content_of_base (known unknown_content types.now) base).mixed }
{
    match base {
        Base::Builtin(_) => false,
        Base::Declared(number) => match types.get(number) {
            Some(Some(effective)) => effective.mixed,
            _ => false,
        },
    }
}

// Whether a content is empty.
fn is_empty(t: &Ty) -> bool
    ensures { result ≡ is_nothing t.now }
{
    matches!(&t.node, TyNode::Empty)
}

fn empty_content() -> Effective
    ensures { result ≡ empty_content }
{
    Effective {
        content: Ty::empty(),
        mixed: false,
    }
}

/// What is put for a type whose content is not known, or has too many positions.
pub fn unknown_content() -> Effective
    ensures { result ≡ unknown_content }
{
    Effective {
        content: Ty::none(),
        mixed: false,
    }
}
