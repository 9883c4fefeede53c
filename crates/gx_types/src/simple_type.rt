// Types with simple values.

ghost use Rattle.std.specs.Prelude.{◌≡◌, [], ◌∷◌, ◌++◌, filter_map, IfOk, option_copied, option_map};
ghost use Rattle.gx_types.specs.BaseChain.{own_declaration, own_content, BasesEnd};
ghost use Rattle.gx_types.specs.SimpleType.{own_facets, all_facets, bottom_of, atomic_meaning, simple_meaning, meaning_among, simple_meaning_of, meaning_without_values, restricted, declared_atomic, atomic_of_content};
ghost use Rattle.gx_types.specs.SimpleView.{atomic_view, simple_view, facets_view};

use crate::declaration::{Content, Declared};
use crate::declared_types::DeclaredTypes;
use crate::schemas::Schemas;
use gx_base::type_name::{Builtin, TypeName};
use gx_facets::Facets;
use std::alloc::{AllocError, Global};

/// Whether a value is one atomic value or a list of them (XML Schema 1.0 part 2, section 2.5.1).
#[derive(Clone, Copy, PartialEq, Eq)]
pub enum Variety {
    Atomic,
    List,
}

/// An atomic type: its values are those of the built-in type that each of the facets admits.
#[derive(Drop)]
pub struct AtomicType<'a> {
    pub kind: TypeName,
    pub bottom: Builtin,
    pub facets: Vec<&'a Facets>,
}

/// A type with simple values: one value of the atomic type, or a list of items of it, that each of the further facets admits
/// (XML Schema 1.0 part 1, sections 3.4 and 3.14).
#[derive(Drop)]
pub struct SimpleType<'a> {
    pub variety: Variety,
    pub item: AtomicType<'a>,
    pub facets: Vec<&'a Facets>,
}

/// What the type means: its variety, its item type and the facets of all its bases. A type without simple values is given as
/// one of xs:anySimpleType, at which no text has a value.
pub fn simple_type<'a>(
    alloc: Global,
    schemas: &'a Schemas,
    t: &TypeName,
) -> Result<SimpleType<'a>, AllocError>
    ensures { IfOk result (λ s. simple_view s ≡ simple_meaning_of schemas.now t.now) }
{
    type_with_values(alloc, schemas.declared_types(), t)
}

/// What an atomic type means that is declared; None exactly where the type is not declared as one.
pub fn declared_atomic_type<'a>(
    alloc: Global,
    schemas: &'a Schemas,
    t: &TypeName,
) -> Result<Option<AtomicType<'a>>, AllocError>
    ensures { IfOk result (λ found. option_map atomic_view found ≡ declared_atomic schemas.now t.now) }
{
    atomic_type_among(alloc, schemas.declared_types(), t)
}

fn atomic_type_among<'a>(
    alloc: Global,
    types: &'a DeclaredTypes,
    t: &TypeName,
) -> Result<Option<AtomicType<'a>>, AllocError>
    requires { BasesEnd types.now }
    ensures { IfOk result (λ found. option_map atomic_view found ≡ atomic_of_content types.now t.now (own_content types.now t.now)) }
{
    match content(types, t) {
        Some(Content::Atomic(_)) => Ok(Some(atomic_type(alloc, types, t)?)),
        _ => Ok(None),
    }
}

fn type_with_values<'a>(
    alloc: Global,
    types: &'a DeclaredTypes,
    t: &TypeName,
) -> Result<SimpleType<'a>, AllocError>
    requires { BasesEnd types.now }
    ensures { IfOk result (λ s. simple_view s ≡ meaning_among types.now t.now) }
{
    match content(types, t) {
        Some(Content::Simple(kind, _)) => {
            let facets = with_all_facets(Vec::new(alloc), types, t)?;
            restricted_type(alloc, types, kind, facets)
        }
        _ => restricted_type(alloc, types, t, Vec::new(alloc)),
    }
}

// The simple type with these facets besides its own.
fn restricted_type<'a>(
    alloc: Global,
    types: &'a DeclaredTypes,
    t: &TypeName,
    facets: Vec<&'a Facets>,
) -> Result<SimpleType<'a>, AllocError>
    requires { BasesEnd types.now }
    ensures { IfOk result (λ s. simple_view s ≡ restricted (facets_view facets.entry) (simple_meaning types.now t.now (own_content types.now t.now))) }
{
    match content(types, t) {
        None | Some(Content::Atomic(_)) => Ok(SimpleType {
            variety: Variety::Atomic,
            item: atomic_type(alloc, types, t)?,
            facets,
        }),
        Some(Content::List(item, _)) => Ok(SimpleType {
            variety: Variety::List,
            item: atomic_type(alloc, types, item)?,
            facets: with_all_facets(facets, types, t)?,
        }),
        Some(Content::Simple(_, _)) | Some(Content::Complex { .. }) => Ok(SimpleType {
            variety: Variety::Atomic,
            item: without_values(alloc, t)?,
            facets,
        }),
    }
}

fn without_values<'a>(alloc: Global, t: &TypeName) -> Result<AtomicType<'a>, AllocError>
    ensures { IfOk result (λ a. atomic_view a ≡ meaning_without_values t.now) }
{
    Ok(AtomicType {
        kind: t.clone()?,
        bottom: Builtin::AnySimple,
        facets: Vec::new(alloc),
    })
}

fn atomic_type<'a>(
    alloc: Global,
    types: &'a DeclaredTypes,
    t: &TypeName,
) -> Result<AtomicType<'a>, AllocError>
    requires { BasesEnd types.now }
    ensures { IfOk result (λ a. atomic_view a ≡ atomic_meaning types.now t.now) }
{
    Ok(AtomicType {
        kind: t.clone()?,
        bottom: bottom(types, t),
        facets: with_all_facets(Vec::new(alloc), types, t)?,
    })
}

// The facets, and those of a type and of all its bases.
fn with_all_facets<'a>(
    mut facets: Vec<&'a Facets>,
    types: &'a DeclaredTypes,
    t: &TypeName,
) -> Result<Vec<&'a Facets>, AllocError>
    requires { BasesEnd types.now }
    ensures { IfOk result (λ all. facets_view all ≡ facets_view facets.entry ++ all_facets types.now t.now) }
{
    let mut base = t;
    while let Some(declared) = own_declaration(types, base) {
        facets = with_own_facets(facets, &declared.content)?;
        base = &declared.base;
    }
    Ok(facets)
}

// The facets, and those that a type with this content adds to its base.
fn with_own_facets<'a>(
    mut facets: Vec<&'a Facets>,
    content: &'a Content,
) -> Result<Vec<&'a Facets>, AllocError>
    ensures { IfOk result (λ all. facets_view all ≡ facets_view facets.entry ++ filter_map own_facets (content.now ∷ [])) }
{
    match own_facets(content) {
        Some(own) => {
            facets.push(own)?;
            Ok(facets)
        }
        None => Ok(facets),
    }
}

// The built-in type at which the bases of a type end.
fn bottom(types: &DeclaredTypes, t: &TypeName) -> Builtin
    requires { BasesEnd types.now }
    ensures { result ≡ bottom_of types.now t.now }
{
    let mut end = t;
    while let Some(declared) = own_declaration(types, end) {
        end = &declared.base;
    }
    match end {
        TypeName::Builtin(builtin) => *builtin,
        TypeName::Named(_) | TypeName::Anonymous(_) => Builtin::AnySimple,
    }
}

fn own_facets(content: &Content) -> Option<&Facets>
    ensures { option_copied result ≡ own_facets content.now }
{
    match content {
        Content::Atomic(facets) | Content::List(_, facets) | Content::Simple(_, facets) => {
            Some(facets)
        }
        Content::Complex { .. } => None,
    }
}

fn content<'a>(types: &'a DeclaredTypes, t: &TypeName) -> Option<&'a Content>
    ensures { option_copied result ≡ own_content types.now t.now }
{
    match own_declaration(types, t) {
        Some(declared) => Some(&declared.content),
        None => None,
    }
}

fn own_declaration<'a>(types: &'a DeclaredTypes, t: &TypeName) -> Option<&'a Declared>
    ensures { option_copied result ≡ own_declaration types.now t.now }
{
    match t {
        TypeName::Builtin(_) => None,
        TypeName::Named(_) | TypeName::Anonymous(_) => types.declaration(t),
    }
}
