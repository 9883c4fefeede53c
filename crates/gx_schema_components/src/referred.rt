// What references refer to.

ghost use Rattle.std.specs.Prelude.{◌≡◌, IfOk};
ghost use Rattle.gx_schema_components.specs.NamesView.{number_in_tables};
ghost use Rattle.gx_schema_components.specs.Referred.{base_of_number, base_referred, declaration_referred, group_referred, local_component, type_numbered, type_referred, typed_name, unknown_type};
ghost use Rattle.gx_schema_components.specs.ReferredView.{globals_in};

use crate::component::{Base, Declaration};
use crate::mention::ComponentKind;
use crate::names::{DeclaredNumbers, number_in_tables};
use gx_base::name::Name;
use gx_base::type_name::{Builtin, TypeName};
use gx_qnames::reference::Reference;
use gx_schema_syntax::written::{LocalDeclaration, TypeReference};
use std::alloc::AllocError;

/// The name of an element or an attribute with its type.
#[derive(Drop)]
pub struct TypedName {
    pub name: Name,
    pub kind: TypeName,
}

/// What names refer to: the numbers of names, the types' names by number, and the global elements and attributes.
#[derive(Drop)]
pub struct GlobalTables {
    pub numbers: DeclaredNumbers,
    pub types: Vec<TypeName>,
    pub elements: Vec<Declaration>,
    pub attributes: Vec<Declaration>,
}

fn type_numbered(types: &[TypeName], number: Option<usize>) -> Result<TypeName, AllocError>
    ensures { IfOk result (λ name. name ≡ type_numbered types.now number) }
{
    match number {
        Some(number) => match types.get(number) {
            Some(name) => name.clone(),
            None => Ok(TypeName::Builtin(Builtin::AnyType)),
        },
        None => Ok(TypeName::Builtin(Builtin::AnyType)),
    }
}

/// The name of the type that is referred to.
pub fn type_referred(
    numbers: &DeclaredNumbers,
    types: &[TypeName],
    reference: &TypeReference,
) -> Result<TypeName, AllocError>
    ensures { IfOk result (λ name. name ≡ type_referred (number_in_tables numbers.now) types.now reference.now) }
{
    match reference {
        TypeReference::Builtin(builtin) => Ok(TypeName::Builtin(*builtin)),
        TypeReference::Declared(reference) => {
            let kind = ComponentKind::TypeDefinition;
            type_numbered(types, number_in_tables(numbers, kind, &reference.name))
        }
        TypeReference::Anonymous(number) => Ok(TypeName::Anonymous(*number)),
    }
}

fn base_of_number(number: Option<usize>) -> Base
    ensures { result ≡ base_of_number number }
{
    match number {
        Some(number) => Base::Declared(number),
        None => Base::Builtin(Builtin::AnyType),
    }
}

/// The base or the item type that is referred to, which is never anonymous.
pub fn base_referred(numbers: &DeclaredNumbers, reference: &TypeReference) -> Base
    ensures { result ≡ base_referred (number_in_tables numbers.now) reference.now }
{
    match reference {
        TypeReference::Builtin(builtin) => Base::Builtin(*builtin),
        TypeReference::Declared(reference) => {
            let kind = ComponentKind::TypeDefinition;
            base_of_number(number_in_tables(numbers, kind, &reference.name))
        }
        TypeReference::Anonymous(_) => Base::Builtin(Builtin::AnyType),
    }
}

fn typed_name(declaration: &Declaration) -> Result<TypedName, AllocError>
    ensures { IfOk result (λ named. named ≡ typed_name declaration.now) }
{
    Ok(TypedName {
        name: declaration.name.clone()?,
        kind: declaration.kind.clone()?,
    })
}

fn unknown_declaration(name: &Name) -> Result<TypedName, AllocError>
    ensures { IfOk result (λ named. named ≡ record { name = name.now; kind = unknown_type }) }
{
    Ok(TypedName {
        name: name.clone()?,
        kind: TypeName::Builtin(Builtin::AnyType),
    })
}

fn declaration_referred(
    declarations: &[Declaration],
    number: Option<usize>,
    name: &Name,
) -> Result<TypedName, AllocError>
    ensures { IfOk result (λ named. named ≡ declaration_referred declarations.now number name.now) }
{
    match number {
        Some(number) => match declarations.get(number) {
            Some(declaration) => typed_name(declaration),
            None => unknown_declaration(name),
        },
        None => unknown_declaration(name),
    }
}

/// The name and the type of a local element or attribute, which are its own or those of the global one that it refers to.
pub fn local_component(
    globals: &GlobalTables,
    component: ComponentKind,
    declarations: &[Declaration],
    declaration: &LocalDeclaration,
) -> Result<TypedName, AllocError>
    ensures { IfOk result (λ named. named ≡ local_component (globals_in globals.now) component declarations.now declaration.now) }
{
    match declaration {
        LocalDeclaration::Declared { name, kind } => {
            let kind = type_referred(&globals.numbers, &globals.types, kind)?;
            Ok(TypedName {
                name: name.clone()?,
                kind,
            })
        }
        LocalDeclaration::Referred { reference, kind: _ } => {
            let number = number_in_tables(&globals.numbers, component, &reference.name);
            declaration_referred(declarations, number, &reference.name)
        }
    }
}

/// The number of the group or of the attribute group that is referred to.
pub fn group_referred(globals: &GlobalTables, kind: ComponentKind, reference: &Reference) -> usize
    ensures { result ≡ group_referred (globals_in globals.now) kind reference.now }
{
    number_in_tables(&globals.numbers, kind, &reference.name).unwrap_or(0)
}
