// Types, with numbers in the place of names.

ghost use Rattle.std.specs.Prelude.{◌≡◌, ◌++◌, IfOk, OnOk};
ghost use Rattle.gx_schema_components.specs.ReferredView.{globals_in};
ghost use Rattle.gx_schema_components.specs.TypeComponents.{complex_type_of, derivation_of, derived_from, form_placed, simple_type_of, type_component, types_placed};

use crate::attribute_lists::parts_of_members;
use crate::component::{
    ComplexType, Derivation, DerivedFrom, ModelGroup, Particle, SimpleType, TypeComponent, TypeForm,
};
use crate::group_numbers::content_placed;
use crate::referred::{GlobalTables, base_referred};
use gx_schema_syntax::written;
use gx_schema_syntax::written::{
    ComplexTypeDefinition, DerivationMethod, SimpleTypeDefinition, TypeDeclaration, TypeDefinition,
};
use std::alloc::{AllocError, Global};

fn simple_type_of(
    alloc: Global,
    globals: &GlobalTables,
    definition: &SimpleTypeDefinition,
) -> Result<SimpleType, AllocError>
    ensures { IfOk result (λ simple. simple ≡ simple_type_of (globals_in globals.now) definition.now) }
{
    match definition {
        SimpleTypeDefinition::Restriction {
            place,
            base,
            facets,
        } => Ok(SimpleType::Restriction {
            place: *place,
            base: base_referred(&globals.numbers, base),
            facets: facets.copied(alloc)?,
        }),
        SimpleTypeDefinition::List { place, item } => Ok(SimpleType::List {
            place: *place,
            item: base_referred(&globals.numbers, item),
        }),
    }
}

fn derived_from(globals: &GlobalTables, derivation: &written::Derivation) -> DerivedFrom
    ensures { result ≡ derived_from (globals_in globals.now) derivation.now }
{
    DerivedFrom {
        place: derivation.place,
        content: derivation.content,
        base: base_referred(&globals.numbers, &derivation.base),
    }
}

fn derivation_of(globals: &GlobalTables, derivation: &Option<written::Derivation>) -> Derivation
    ensures { result ≡ derivation_of (globals_in globals.now) derivation.now }
{
    match derivation {
        None => Derivation::Own,
        Some(derivation) => {
            let from = derived_from(globals, derivation);
            match derivation.method {
                DerivationMethod::Extension => Derivation::Extends(from),
                DerivationMethod::Restriction => Derivation::Restricts(from),
            }
        }
    }
}

fn complex_type_of(
    alloc: Global,
    globals: &GlobalTables,
    definition: &ComplexTypeDefinition,
    content: Option<Particle>,
) -> Result<ComplexType, AllocError>
    ensures { IfOk result (λ complex. complex ≡ complex_type_of (globals_in globals.now) definition.now content) }
{
    let facets = definition.facets.copied(alloc)?;
    let attributes = parts_of_members(alloc, globals, definition.attributes.as_slice())?;
    Ok(ComplexType {
        mixed: definition.is_mixed,
        derivation: derivation_of(globals, &definition.derivation),
        facets,
        content,
        attributes,
    })
}

fn form_placed(
    alloc: Global,
    globals: &GlobalTables,
    first: usize,
    groups: &mut Vec<ModelGroup>,
    definition: &TypeDefinition,
) -> Result<TypeForm, AllocError>
    ensures groups { OnOk result (groups.new.items ≡ (form_placed (globals_in globals.now) first groups.old.items definition.now).groups) }
    ensures placed { IfOk result (λ placed. placed ≡ (form_placed (globals_in globals.now) first groups.old.items definition.now).placed) }
{
    match definition {
        TypeDefinition::Simple(definition) => {
            Ok(TypeForm::Simple(simple_type_of(alloc, globals, definition)?))
        }
        TypeDefinition::Complex(definition) => {
            let content = content_placed(alloc, globals, first, groups, &definition.particle)?;
            let complex = complex_type_of(alloc, globals, definition, content)?;
            Ok(TypeForm::Complex(complex))
        }
    }
}

fn type_component(
    alloc: Global,
    globals: &GlobalTables,
    first: usize,
    groups: &mut Vec<ModelGroup>,
    declaration: &TypeDeclaration,
) -> Result<TypeComponent, AllocError>
    ensures groups { OnOk result (groups.new.items ≡ (form_placed (globals_in globals.now) first groups.old.items declaration.now.definition).groups) }
    ensures component { IfOk result (λ component. component ≡ type_component declaration.now (form_placed (globals_in globals.now) first groups.old.items declaration.now.definition).placed) }
{
    let name = declaration.name.clone()?;
    let form = form_placed(alloc, globals, first, groups, &declaration.definition)?;
    Ok(TypeComponent {
        place: declaration.place,
        name,
        form,
    })
}

/// Adds types; the groups in them are added to the others.
pub fn add_types(
    alloc: Global,
    globals: &GlobalTables,
    first: usize,
    groups: &mut Vec<ModelGroup>,
    declarations: &[TypeDeclaration],
    types: &mut Vec<TypeComponent>,
) -> Result<(), AllocError>
    ensures groups { OnOk result (groups.new.items ≡ (types_placed (globals_in globals.now) first groups.old.items declarations.now).groups) }
    ensures items { OnOk result (types.new.items ≡ types.old.items ++ (types_placed (globals_in globals.now) first groups.old.items declarations.now).placed) }
{
    let mut left = declarations;
    while let Some((declaration, others)) = left.split_first() {
        types.push(type_component(alloc, globals, first, groups, declaration)?)?;
        left = others;
    }
    Ok(())
}
