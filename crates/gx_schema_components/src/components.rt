// The components of schema documents.

ghost use Rattle.std.specs.Prelude.{◌≡◌, [], ◌++◌, IfOk, OnOk};
ghost use Rattle.std.specs.List.{flat_map};
ghost use Rattle.gx_schema_components.specs.Components.{AreComponents, AreTypesAndGroups, declared_attribute, declared_element, first_inner, globals_of, group_definition_of, group_definitions_in};
ghost use Rattle.gx_schema_components.specs.AttributeLists.{attribute_groups_of};
ghost use Rattle.gx_schema_components.specs.DeclaredNames.{declarations_in, types_in};
ghost use Rattle.gx_schema_components.specs.GroupNumbers.{definitions_placed};
ghost use Rattle.gx_schema_components.specs.NamesView.{number_in_tables};
ghost use Rattle.gx_schema_components.specs.ReferredView.{globals_in};
ghost use Rattle.gx_schema_components.specs.Referred.{type_referred};
ghost use Rattle.gx_schema_components.specs.TypeComponents.{types_placed};

use crate::attribute_lists::add_attribute_groups;
use crate::component::{
    AttributeGroup, Components, Declaration, GroupDefinition, ModelGroup, TypeComponent,
};
use crate::group_numbers::add_definitions;
use crate::names::{DeclaredNumbers, declared_numbers, type_names_in};
use crate::referred::{GlobalTables, type_referred};
use crate::type_components::add_types;
use gx_base::name::Name;
use gx_base::type_name::TypeName;
use gx_schema_syntax::written::{GlobalDeclaration, SchemaDocument, TypeReference};
use std::alloc::{AllocError, Global};

/// The components of schema documents (XML Schema 1.0 part 1, section 2.2). A reference is the number of what it refers to among all
/// documents; the documents that have an unknown name are to be refused, and such a name is put as xs:anyType or as number 0.
pub fn components(alloc: Global, documents: &[SchemaDocument]) -> Result<Components, AllocError>
    ensures { IfOk result (AreComponents documents.now) }
{
    let globals = global_tables(alloc, documents)?;
    let groups = group_definitions(alloc, documents)?;
    let attribute_groups = attribute_groups(alloc, &globals, documents)?;
    let (types, model_groups) = types_and_groups(alloc, &globals, groups.len(), documents)?;
    let GlobalTables {
        numbers: _,
        types: _,
        elements,
        attributes,
    } = globals;
    Ok(Components {
        types,
        elements,
        attributes,
        groups,
        model_groups,
        attribute_groups,
    })
}

// The tables of what names refer to.
fn global_tables(alloc: Global, documents: &[SchemaDocument]) -> Result<GlobalTables, AllocError>
    ensures { IfOk result (λ tables. globals_in tables ≡ globals_of documents.now) }
{
    let types = type_names_in(alloc, documents)?;
    let numbers = declared_numbers(alloc, documents, &types)?;
    let elements = elements_in(alloc, &numbers, &types, documents)?;
    let attributes = attributes_in(alloc, &numbers, &types, documents)?;
    Ok(GlobalTables {
        numbers,
        types,
        elements,
        attributes,
    })
}

fn elements_in(
    alloc: Global,
    numbers: &DeclaredNumbers,
    types: &[TypeName],
    documents: &[SchemaDocument],
) -> Result<Vec<Declaration>, AllocError>
    ensures { IfOk result (λ elements. elements.items ≡ flat_map (declared_element (number_in_tables numbers.now) types.now) (declarations_in documents.now)) }
{
    let mut elements = Vec::new(alloc);
    let mut left = documents;
    while let Some((document, others)) = left.split_first() {
        add_elements(numbers, types, &document.declarations, &mut elements)?;
        left = others;
    }
    Ok(elements)
}

fn attributes_in(
    alloc: Global,
    numbers: &DeclaredNumbers,
    types: &[TypeName],
    documents: &[SchemaDocument],
) -> Result<Vec<Declaration>, AllocError>
    ensures { IfOk result (λ attributes. attributes.items ≡ flat_map (declared_attribute (number_in_tables numbers.now) types.now) (declarations_in documents.now)) }
{
    let mut attributes = Vec::new(alloc);
    let mut left = documents;
    while let Some((document, others)) = left.split_first() {
        add_attributes(numbers, types, &document.declarations, &mut attributes)?;
        left = others;
    }
    Ok(attributes)
}

fn declaration_of(
    numbers: &DeclaredNumbers,
    types: &[TypeName],
    place: u64,
    name: &Name,
    kind: &TypeReference,
) -> Result<Declaration, AllocError>
    ensures { IfOk result (λ declaration. declaration ≡ record { place = place; name = name.now; kind = type_referred (number_in_tables numbers.now) types.now kind.now }) }
{
    let kind = type_referred(numbers, types, kind)?;
    Ok(Declaration {
        place,
        name: name.clone()?,
        kind,
    })
}

// Adds the global elements among declarations.
fn add_elements(
    numbers: &DeclaredNumbers,
    types: &[TypeName],
    declarations: &[GlobalDeclaration],
    elements: &mut Vec<Declaration>,
) -> Result<(), AllocError>
    ensures { OnOk result (elements.new.items ≡ elements.old.items ++ flat_map (declared_element (number_in_tables numbers.now) types.now) declarations.now) }
{
    let mut left = declarations;
    while let Some((declaration, others)) = left.split_first() {
        if let GlobalDeclaration::Element { place, name, kind } = declaration {
            elements.push(declaration_of(numbers, types, *place, name, kind)?)?;
        }
        left = others;
    }
    Ok(())
}

// Adds the global attributes among declarations.
fn add_attributes(
    numbers: &DeclaredNumbers,
    types: &[TypeName],
    declarations: &[GlobalDeclaration],
    attributes: &mut Vec<Declaration>,
) -> Result<(), AllocError>
    ensures { OnOk result (attributes.new.items ≡ attributes.old.items ++ flat_map (declared_attribute (number_in_tables numbers.now) types.now) declarations.now) }
{
    let mut left = declarations;
    while let Some((declaration, others)) = left.split_first() {
        if let GlobalDeclaration::Attribute { place, name, kind } = declaration {
            attributes.push(declaration_of(numbers, types, *place, name, kind)?)?;
        }
        left = others;
    }
    Ok(())
}

fn group_definitions(
    alloc: Global,
    documents: &[SchemaDocument],
) -> Result<Vec<GroupDefinition>, AllocError>
    ensures { IfOk result (λ groups. groups.items ≡ group_definitions_in (declarations_in documents.now)) }
{
    let mut groups = Vec::new(alloc);
    let mut left = documents;
    while let Some((document, others)) = left.split_first() {
        add_group_definitions(&document.declarations, &mut groups)?;
        left = others;
    }
    Ok(groups)
}

fn add_group_definitions(
    declarations: &[GlobalDeclaration],
    groups: &mut Vec<GroupDefinition>,
) -> Result<(), AllocError>
    ensures { OnOk result (groups.new.items ≡ groups.old.items ++ group_definitions_in declarations.now) }
{
    let mut left = declarations;
    while let Some((declaration, others)) = left.split_first() {
        if let GlobalDeclaration::Group {
            place,
            name,
            particle: _,
        } = declaration
        {
            groups.push(GroupDefinition {
                place: *place,
                name: name.clone()?,
            })?;
        }
        left = others;
    }
    Ok(())
}

fn attribute_groups(
    alloc: Global,
    globals: &GlobalTables,
    documents: &[SchemaDocument],
) -> Result<Vec<AttributeGroup>, AllocError>
    ensures { IfOk result (λ groups. groups.items ≡ attribute_groups_of (globals_in globals.now) (declarations_in documents.now)) }
{
    let mut groups = Vec::new(alloc);
    let mut left = documents;
    while let Some((document, others)) = left.split_first() {
        add_attribute_groups(alloc, globals, &document.declarations, &mut groups)?;
        left = others;
    }
    Ok(groups)
}

// The types and all model groups.
fn types_and_groups(
    alloc: Global,
    globals: &GlobalTables,
    first: usize,
    documents: &[SchemaDocument],
) -> Result<(Vec<TypeComponent>, Vec<ModelGroup>), AllocError>
    ensures { IfOk result (λ both. AreTypesAndGroups (globals_in globals.now) first documents.now both.0.items both.1.items) }
{
    let mut groups = Vec::new(alloc);
    let definitions = definitions_in(alloc, globals, first, &mut groups, documents)?;
    let types = types_in(alloc, globals, first, &mut groups, documents)?;
    let all = joined(definitions, groups)?;
    Ok((types, all))
}

fn joined(first: Vec<ModelGroup>, second: Vec<ModelGroup>) -> Result<Vec<ModelGroup>, AllocError>
    ensures { IfOk result (λ all. all.items ≡ first.items ++ second.items) }
{
    let mut all = first;
    let mut second = second;
    all.append(&mut second)?;
    Ok(all)
}

// The groups of group definitions; the groups in them are added to the others.
#[tactic(auto, using(std::proofs::lemmas::Grind::common_steps, crate::proofs::Placed::document_steps))]
fn definitions_in(
    alloc: Global,
    globals: &GlobalTables,
    first: usize,
    groups: &mut Vec<ModelGroup>,
    documents: &[SchemaDocument],
) -> Result<Vec<ModelGroup>, AllocError>
    ensures groups { OnOk result (groups.new.items ≡ (definitions_placed (globals_in globals.now) first groups.old.items (declarations_in documents.now)).groups) }
    ensures items { IfOk result (λ definitions. definitions.items ≡ (definitions_placed (globals_in globals.now) first groups.old.items (declarations_in documents.now)).placed) }
{
    let mut definitions = Vec::new(alloc);
    let mut left = documents;
    while let Some((document, others)) = left.split_first() {
        let declarations = document.declarations.as_slice();
        add_definitions(
            alloc,
            globals,
            first,
            groups,
            declarations,
            &mut definitions,
        )?;
        left = others;
    }
    Ok(definitions)
}

// The types of documents; the groups in them are added to the others.
#[tactic(auto, using(std::proofs::lemmas::Grind::common_steps, crate::proofs::Placed::document_steps))]
fn types_in(
    alloc: Global,
    globals: &GlobalTables,
    first: usize,
    groups: &mut Vec<ModelGroup>,
    documents: &[SchemaDocument],
) -> Result<Vec<TypeComponent>, AllocError>
    ensures groups { OnOk result (groups.new.items ≡ (types_placed (globals_in globals.now) first groups.old.items (types_in documents.now)).groups) }
    ensures items { IfOk result (λ types. types.items ≡ (types_placed (globals_in globals.now) first groups.old.items (types_in documents.now)).placed) }
{
    let mut types = Vec::new(alloc);
    let mut left = documents;
    while let Some((document, others)) = left.split_first() {
        add_types(alloc, globals, first, groups, &document.types, &mut types)?;
        left = others;
    }
    Ok(types)
}
