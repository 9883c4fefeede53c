// Names that are declared twice.

ghost use Rattle.std.specs.Prelude.{◌≡◌, IfOk};
ghost use Rattle.gx_schema.specs.Doubled.{doubled_declared_name, doubled_of_kind, doubled_type, doubled_type_name, is_number};
ghost use Rattle.gx_schema.specs.TypeNumbers.{own_type_number, AreTypeNumbers};

use crate::found::{Found, found_by_number, globals_found, types_found};
use crate::type_numbers::{TypeNumbers, number_of, type_numbers};
use gx_base::name::Name;
use gx_base::type_name::TypeName;
use gx_references::names::numbers;
use gx_schema_components::mention::ComponentKind;
use gx_schema_components::names::{names_of_kind, type_names_in};
use gx_schema_syntax::written::SchemaDocument;
use std::alloc::{AllocError, Global};

/// The first type whose name another one in front of it has.
pub fn doubled_type(
    alloc: Global,
    documents: &[SchemaDocument],
) -> Result<Option<Found>, AllocError>
    ensures { IfOk result (λ found. found ≡ doubled_type documents.now) }
{
    let names = type_names_in(alloc, documents)?;
    match doubled_type_name(alloc, names.as_slice())? {
        Some(number) => {
            let types = types_found(alloc, documents)?;
            Ok(Some(found_by_number(alloc, types, number)?))
        }
        None => Ok(None),
    }
}

/// The first declaration of a kind other than that of types whose name another one of the kind in front of it has.
pub fn doubled_of_kind(
    alloc: Global,
    documents: &[SchemaDocument],
    kind: ComponentKind,
) -> Result<Option<Found>, AllocError>
    ensures { IfOk result (λ found. found ≡ doubled_of_kind documents.now kind) }
{
    let names = names_of_kind(alloc, kind, documents)?;
    match doubled_declared_name(alloc, names.as_slice())? {
        Some(number) => {
            let declarations = globals_found(alloc, kind, documents)?;
            Ok(Some(found_by_number(alloc, declarations, number)?))
        }
        None => Ok(None),
    }
}

fn doubled_declared_name(alloc: Global, names: &[Name]) -> Result<Option<usize>, AllocError>
    ensures { IfOk result (λ number. number ≡ doubled_declared_name names.now) }
{
    let table = numbers(alloc, names)?;
    for (number, name) in names.iter().enumerate() {
        if !is_number(number, table.get(name).copied()) {
            return Ok(Some(number));
        }
    }
    Ok(None)
}

fn doubled_type_name(alloc: Global, names: &[TypeName]) -> Result<Option<usize>, AllocError>
    ensures { IfOk result (λ number. number ≡ doubled_type_name names.now) }
{
    let table = type_numbers(alloc, names)?;
    for (number, name) in names.iter().enumerate() {
        if !has_number(names, &table, number, name) {
            return Ok(Some(number));
        }
    }
    Ok(None)
}

// Whether the number of a type is this one.
fn has_number(declared: &[TypeName], numbers: &TypeNumbers, number: usize, name: &TypeName) -> bool
    requires { AreTypeNumbers declared.now numbers.now }
    ensures { result ≡ is_number number (own_type_number declared.now name.now) }
{
    is_number(number, number_of(numbers, name))
}

fn is_number(number: usize, found: Option<usize>) -> bool
    ensures { result ≡ is_number number found }
{
    found == Some(number)
}
