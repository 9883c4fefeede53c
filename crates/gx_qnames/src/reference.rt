// Names in the values of attributes.

ghost use Rattle.std.specs.Prelude.{◌≡◌, IfOk, [], map};
ghost use Rattle.gx_qnames.specs.Builtins.{builtin_among, is_outside_profile, nameable_builtin, named_builtin};
ghost use Rattle.gx_tree.specs.Binding.{xml_uri};
ghost use Rattle.gx_qnames.specs.BuiltinView.{builtin_row_of};
ghost use Rattle.gx_qnames.specs.Scope.{reference_in, reference_to, uri_in_scope};
ghost use Rattle.gx_qnames.specs.ScopeView.{declared_in};

use crate::characters::{characters, local_in, prefix_in, text_of};
use crate::scope::{Scope, declared_uri};
use crate::words::{has_spelling, is_schema_uri};
use gx_base::name::Name;
use gx_base::text::Text;
use gx_base::type_name::Builtin;
use std::alloc::{AllocError, Global};

/// What a name in the value of an attribute refers to, expanded by the namespace declarations in scope (XML Schema 1.0 part 1,
/// section 3.15.3). Where its prefix is not bound the name has no URI.
#[derive(Debug)]
pub struct Reference {
    pub name: Name,
    pub is_bound: bool,
}

impl Drop for Reference {
    fn drop(self) {
        let Reference {
            name: _name,
            is_bound: _is_bound,
        } = self;
    }
}

// The URI of the prefix `xml`.
fn xml_uri(alloc: Global) -> Result<Text, AllocError>
    ensures { IfOk result (λ uri. uri ≡ xml_uri) }
{
    Text::from_str(alloc, "http://www.w3.org/XML/1998/namespace")
}

// The URI of a prefix.
fn uri_in_scope(alloc: Global, scope: &Scope<'_>, prefix: &Text) -> Result<Option<Text>, AllocError>
    ensures { IfOk result (λ uri. uri ≡ uri_in_scope (declared_in scope.entry.now) prefix.entry.now) }
{
    if has_spelling("xml", prefix) {
        return Ok(Some(xml_uri(alloc)?));
    }
    match declared_uri(scope, prefix) {
        Some(uri) => Ok(Some(uri.clone()?)),
        None if prefix.is_empty() => Ok(Some(Text::empty(alloc)?)),
        None => Ok(None),
    }
}

/// What the name in a value refers to.
pub fn reference_in(alloc: Global, scope: &Scope<'_>, value: &Text) -> Result<Reference, AllocError>
    ensures { IfOk result (λ reference. reference ≡ reference_in (declared_in scope.entry.now) value.entry.now) }
{
    let characters = characters(alloc, value)?;
    reference_of_characters(alloc, scope, &characters)
}

/// What a name of these characters refers to.
pub fn reference_of_characters(
    alloc: Global,
    scope: &Scope<'_>,
    characters: &[char],
) -> Result<Reference, AllocError>
    ensures { IfOk result (λ reference. reference ≡ reference_in (declared_in scope.entry.now) characters.entry.now) }
{
    let prefix = text_of(alloc, prefix_in(characters))?;
    let local = text_of(alloc, local_in(characters))?;
    let uri = uri_in_scope(alloc, scope, &prefix)?;
    let none = Text::empty(alloc)?;
    Ok(reference_to(uri, none, prefix, local))
}

fn reference_to(uri: Option<Text>, none: Text, prefix: Text, local: Text) -> Reference
    requires { none ≡ [] }
    ensures { result ≡ reference_to uri prefix local }
{
    let is_bound = uri.is_some();
    let uri = uri.unwrap_or(none);
    Reference {
        name: Name { uri, prefix, local },
        is_bound,
    }
}

/// A row of the table of built-in types: a local name in the namespace of schema documents, and the type.
#[derive(Clone, Copy)]
struct BuiltinRow {
    name: &'static str,
    builtin: Builtin,
}

const BUILTINS: [BuiltinRow; 18] = [
    BuiltinRow {
        name: "string",
        builtin: Builtin::Str,
    },
    BuiltinRow {
        name: "normalizedString",
        builtin: Builtin::NormalizedStr,
    },
    BuiltinRow {
        name: "token",
        builtin: Builtin::Token,
    },
    BuiltinRow {
        name: "boolean",
        builtin: Builtin::Boolean,
    },
    BuiltinRow {
        name: "decimal",
        builtin: Builtin::Decimal,
    },
    BuiltinRow {
        name: "integer",
        builtin: Builtin::Integer,
    },
    BuiltinRow {
        name: "nonPositiveInteger",
        builtin: Builtin::NonPositive,
    },
    BuiltinRow {
        name: "negativeInteger",
        builtin: Builtin::Negative,
    },
    BuiltinRow {
        name: "long",
        builtin: Builtin::Long,
    },
    BuiltinRow {
        name: "int",
        builtin: Builtin::Int,
    },
    BuiltinRow {
        name: "short",
        builtin: Builtin::Short,
    },
    BuiltinRow {
        name: "byte",
        builtin: Builtin::Byte,
    },
    BuiltinRow {
        name: "nonNegativeInteger",
        builtin: Builtin::NonNegative,
    },
    BuiltinRow {
        name: "unsignedLong",
        builtin: Builtin::UnsignedLong,
    },
    BuiltinRow {
        name: "unsignedInt",
        builtin: Builtin::UnsignedInt,
    },
    BuiltinRow {
        name: "unsignedShort",
        builtin: Builtin::UnsignedShort,
    },
    BuiltinRow {
        name: "unsignedByte",
        builtin: Builtin::UnsignedByte,
    },
    BuiltinRow {
        name: "positiveInteger",
        builtin: Builtin::Positive,
    },
];

// The built-in type that schema documents may name by this local name (XML Schema 1.0 part 2, section 3).
#[tactic(auto, unfolding(crate::specs::Builtins::nameable_builtin))]
fn nameable_builtin(local: &str) -> Option<Builtin>
    ensures { result ≡ nameable_builtin local.now }
{
    builtin_among(&BUILTINS, local)
}

fn builtin_among(rows: &[BuiltinRow], local: &str) -> Option<Builtin>
    ensures { result ≡ builtin_among (map builtin_row_of rows.now) local.now }
{
    let mut left = rows;
    while let Some((row, others)) = left.split_first() {
        if row.name == local {
            return Some(row.builtin);
        }
        left = others;
    }
    None
}

/// The built-in type that a reference names.
pub fn named_builtin(reference: &Reference) -> Option<Builtin>
    ensures { result ≡ named_builtin reference.now }
{
    nameable_builtin(reference.name.local.as_str())
}

/// Whether a reference to a type names one in the namespace of schema documents that is outside the profile.
pub fn is_outside_profile(reference: &Reference) -> bool
    ensures { result ≡ is_outside_profile reference.now }
{
    is_schema_uri(&reference.name.uri) && named_builtin(reference).is_none()
}
