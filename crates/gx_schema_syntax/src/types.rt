// What is written of types and of lists of attributes.

ghost use Rattle.std.specs.Prelude.{◌≡◌, ◌++◌, ◌||◌, IfOk, OnOk, Some, codes, option_map};
ghost use Rattle.gx_xml.specs.SourceTree.{SourceTree, tree_name};
ghost use Rattle.gx_xml.specs.SourceView.{contents_of};
ghost use Rattle.gx_schema_syntax.specs.Contents.{given_value};
ghost use Rattle.gx_schema_syntax.specs.Numbers.{numbers_behind, numbers_behind_all};
ghost use Rattle.gx_qnames.specs.ScopeView.{declared_in};
ghost use Rattle.gx_schema_syntax.specs.Types.{attribute_group, attribute_use, body_of, complex_type_by, complex_type_with, definition_written, derived_body, facet_by_kind, facet_named, facets_written, first_part, first_particle, is_part_named, is_particle, is_true, member_written, members_written, method_of, next_element, own_type, simple_type_by, type_name_written, type_declaration, types_among, types_written, usage_of};
ghost use Rattle.gx_schema_syntax.specs.OpenedView.{opened_part};
ghost use Rattle.gx_schema_syntax.specs.declared.written.TypeDefinition.TheVariants as definitions;

use crate::children::{given_value, is_given};
use crate::context::Context;
use crate::declarations::{
    local_declaration, local_namespace, name_written, text_or_empty, type_named,
};
use crate::numbers::{Numbers, numbers_behind, numbers_inside};
use crate::particles::particle_written;
use crate::parts::{role_in, slot_of};
use crate::role::{FacetKind, Role};
use crate::words::{is_annotation, is_schema_element};
use crate::written::{
    AttributeMember, AttributeMembers, ComplexTypeDefinition, ContentKind, Derivation,
    DerivationMethod, Particle, SimpleTypeDefinition, TypeDeclaration, TypeDefinition, Usage,
    WrittenFacet, WrittenFacets,
};
use gx_base::name::{Name, SharedName};
use gx_base::text::Text;
use gx_base::type_name::{Builtin, TypeName};
use gx_qnames::reference::reference_in;
use gx_qnames::scope::{Scope, within};
use gx_qnames::words::has_spelling;
use gx_xml::source::{Declaration, SourceAttribute, SourceChild, SourceElement};
use std::alloc::{AllocError, Global};

// What the first part of an element holds, or nothing.
#[derive(Clone, Copy)]
struct Opened<'a> {
    name: Option<&'a Name>,
    declarations: &'a [Declaration],
    attributes: &'a [SourceAttribute],
    children: &'a [SourceChild],
}

fn first_part<'a>(children: &'a [SourceChild]) -> Opened<'a>
    ensures { opened_part result ≡ first_part (contents_of children.now) }
{
    let mut left = children;
    while let Some((child, others)) = left.split_first() {
        if let SourceChild::Element(element) = child
            && !is_annotation(&element.name)
        {
            return Opened {
                name: Some(&element.name),
                declarations: &element.declarations,
                attributes: &element.attributes,
                children: &element.children,
            };
        }
        left = others;
    }
    Opened {
        name: None,
        declarations: &[],
        attributes: &[],
        children: &[],
    }
}

fn is_part_named(word: &str, part: Opened<'_>) -> bool
    ensures { result ≡ is_part_named word.entry.now (opened_part part.entry) }
{
    match part.name {
        Some(name) => is_schema_element(word, name),
        None => false,
    }
}

// The facet of a name.
fn facet_named(name: &Name) -> Option<FacetKind>
    ensures { result ≡ facet_named name.now }
{
    match slot_of(Role::SimpleTypeRestriction, name.local.as_str()).map(|slot| role_in(slot)) {
        Some(Role::Facet(kind)) => Some(kind),
        _ => None,
    }
}

// The facets among children.
fn facets_written(
    alloc: Global,
    at: Numbers,
    children: &[SourceChild],
) -> Result<WrittenFacets, AllocError>
    ensures { IfOk result (λ facets. facets ≡ facets_written at (contents_of children.now)) }
{
    let mut facets = Vec::new(alloc);
    let mut at = at;
    let mut left = children;
    while let Some((child, others)) = left.split_first() {
        if let SourceChild::Element(element) = child {
            add_facet(alloc, at, element, &mut facets)?;
            at = numbers_behind(at, element)?;
        }
        left = others;
    }
    Ok(WrittenFacets::from_vec(facets))
}

fn add_facet(
    alloc: Global,
    at: Numbers,
    element: &SourceElement,
    facets: &mut Vec<WrittenFacet>,
) -> Result<(), AllocError>
    ensures { OnOk result (facets.new.items ≡ facets.old.items ++ facet_by_kind (facet_named (tree_name element.now)) at element.now) }
{
    if let Some(kind) = facet_named(&element.name) {
        let value = text_or_empty(alloc, given_value("value", &element.attributes))?;
        facets.push(WrittenFacet {
            place: at.element,
            kind,
            value,
        })?;
    }
    Ok(())
}

fn usage_of(attributes: &[SourceAttribute]) -> Usage
    ensures { result ≡ usage_of (given_value (codes "use") attributes.now) }
{
    match given_value("use", attributes) {
        Some(value) => usage_named(value),
        None => Usage::Optional,
    }
}

fn usage_named(value: &Text) -> Usage
    ensures { result ≡ usage_of (Some value.now) }
{
    if has_spelling("required", value) {
        Usage::Required
    } else if has_spelling("prohibited", value) {
        Usage::Prohibited
    } else {
        Usage::Optional
    }
}

fn attribute_use<'a>(
    alloc: Global,
    context: &Context,
    scope: &Scope<'a>,
    at: Numbers,
    element: &'a SourceElement,
) -> Result<AttributeMember, AllocError>
    ensures { IfOk result (λ member. member ≡ attribute_use context.entry.now (declared_in scope.entry.now) at element.entry.now) }
{
    let scope = within(alloc, scope, &element.declarations)?;
    let attributes = element.attributes.as_slice();
    let uri = local_namespace(
        alloc,
        &context.target,
        context.attributes_are_qualified,
        attributes,
    )?;
    let attribute = local_declaration(
        alloc,
        Builtin::AnySimple,
        &uri,
        &scope,
        attributes,
        &element.children,
        at.anonymous,
    )?;
    Ok(AttributeMember::Attribute {
        place: at.element,
        usage: usage_of(attributes),
        attribute,
    })
}

fn attribute_group<'a>(
    alloc: Global,
    scope: &Scope<'a>,
    at: Numbers,
    element: &'a SourceElement,
) -> Result<AttributeMember, AllocError>
    ensures { IfOk result (λ member. member ≡ attribute_group (declared_in scope.entry.now) at element.entry.now) }
{
    let scope = within(alloc, scope, &element.declarations)?;
    let value = text_or_empty(alloc, given_value("ref", &element.attributes))?;
    Ok(AttributeMember::Group {
        place: at.element,
        reference: reference_in(alloc, &scope, &value)?,
    })
}

fn add_member<'a>(
    alloc: Global,
    context: &Context,
    scope: &Scope<'a>,
    at: Numbers,
    element: &'a SourceElement,
    members: &mut Vec<AttributeMember>,
) -> Result<(), AllocError>
    ensures { OnOk result (members.new.items ≡ members.old.items ++ member_written context.entry.now (declared_in scope.entry.now) at element.entry.now) }
{
    if is_schema_element("attribute", &element.name) {
        members.push(attribute_use(alloc, context, scope, at, element)?)?;
    } else if is_schema_element("attributeGroup", &element.name) {
        members.push(attribute_group(alloc, scope, at, element)?)?;
    }
    Ok(())
}

/// The attributes and attribute groups among children.
pub fn members_written<'a>(
    alloc: Global,
    context: &Context,
    scope: &Scope<'a>,
    at: Numbers,
    children: &'a [SourceChild],
) -> Result<AttributeMembers, AllocError>
    ensures { IfOk result (λ members. members ≡ members_written context.entry.now (declared_in scope.entry.now) at (contents_of children.entry.now)) }
{
    let mut members = Vec::new(alloc);
    let mut at = at;
    let mut left = children;
    while let Some((child, others)) = left.split_first() {
        if let SourceChild::Element(element) = child {
            add_member(alloc, context, scope, at, element, &mut members)?;
            at = numbers_behind(at, element)?;
        }
        left = others;
    }
    Ok(AttributeMembers::from_vec(members))
}

fn next_element(at: Numbers) -> Result<Numbers, AllocError>
    ensures { IfOk result (λ next. next ≡ next_element at) }
{
    let element = at.element.checked_add(1).ok_or(AllocError)?;
    Ok(Numbers {
        element,
        anonymous: at.anonymous,
    })
}

// The simple type of a restriction or a list.
fn simple_type<'a>(
    alloc: Global,
    scope: &Scope<'a>,
    at: Numbers,
    children: &'a [SourceChild],
) -> Result<SimpleTypeDefinition, AllocError>
    ensures { IfOk result (λ definition. definition ≡ simple_type_by (first_part (contents_of children.entry.now)) (declared_in scope.entry.now) at) }
{
    let part = first_part(children);
    let scope = within(alloc, scope, part.declarations)?;
    if is_part_named("list", part) {
        let item = type_named(alloc, "itemType", &scope, part.attributes)?;
        return Ok(SimpleTypeDefinition::List {
            place: at.element,
            item,
        });
    }
    let facets = facets_written(alloc, next_element(at)?, part.children)?;
    let base = type_named(alloc, "base", &scope, part.attributes)?;
    Ok(SimpleTypeDefinition::Restriction {
        place: at.element,
        base,
        facets,
    })
}

fn method_of(part: Opened<'_>) -> DerivationMethod
    ensures { result ≡ method_of (opened_part part.entry) }
{
    if is_part_named("extension", part) {
        DerivationMethod::Extension
    } else {
        DerivationMethod::Restriction
    }
}

fn is_particle(name: &Name) -> bool
    ensures { result ≡ is_particle name.now }
{
    is_schema_element("sequence", name)
        || is_schema_element("choice", name)
        || is_schema_element("group", name)
}

/// The particle that is the first part of a content, if it is one.
pub fn first_particle<'a>(
    alloc: Global,
    context: &Context,
    scope: &Scope<'a>,
    at: Numbers,
    children: &'a [SourceChild],
) -> Result<Option<Particle>, AllocError>
    ensures { IfOk result (λ particle. particle ≡ first_particle context.entry.now (declared_in scope.entry.now) at (contents_of children.entry.now)) }
{
    let mut left = children;
    while let Some((child, others)) = left.split_first() {
        if let SourceChild::Element(element) = child
            && !is_annotation(&element.name)
        {
            if !is_particle(&element.name) {
                return Ok(None);
            }
            return Ok(Some(particle_written(alloc, context, scope, at, element)?));
        }
        left = others;
    }
    Ok(None)
}

fn is_mixed(attributes: &[SourceAttribute]) -> bool
    ensures { result ≡ is_true (given_value (codes "mixed") attributes.now) }
{
    match given_value("mixed", attributes) {
        Some(value) => has_spelling("true", value) || has_spelling("1", value),
        None => false,
    }
}

// What is written in the content of a complex type.
#[derive(Drop)]
struct Content {
    facets: WrittenFacets,
    particle: Option<Particle>,
    attributes: AttributeMembers,
}

fn content_written<'a>(
    alloc: Global,
    context: &Context,
    scope: &Scope<'a>,
    at: Numbers,
    children: &'a [SourceChild],
) -> Result<Content, AllocError>
    ensures facets { IfOk result (λ content. content.facets ≡ facets_written at (contents_of children.entry.now)) }
    ensures particle { IfOk result (λ content. content.particle ≡ first_particle context.entry.now (declared_in scope.entry.now) at (contents_of children.entry.now)) }
    ensures attributes { IfOk result (λ content. content.attributes ≡ members_written context.entry.now (declared_in scope.entry.now) at (contents_of children.entry.now)) }
{
    let facets = facets_written(alloc, at, children)?;
    let attributes = members_written(alloc, context, scope, at, children)?;
    let particle = first_particle(alloc, context, scope, at, children)?;
    Ok(Content {
        facets,
        particle,
        attributes,
    })
}

fn complex_type_with(
    is_mixed: bool,
    derivation: Option<Derivation>,
    content: Content,
) -> ComplexTypeDefinition
    ensures { result ≡ complex_type_with is_mixed derivation content.facets content.particle content.attributes }
{
    let Content {
        facets,
        particle,
        attributes,
    } = content;
    ComplexTypeDefinition {
        is_mixed,
        derivation,
        facets,
        particle,
        attributes,
    }
}

// The complex type of an extension or a restriction in a `simpleContent` or `complexContent`.
fn derived_type<'a>(
    alloc: Global,
    context: &Context,
    is_mixed: bool,
    kind: ContentKind,
    outer: Opened<'a>,
    scope: &Scope<'a>,
    at: Numbers,
) -> Result<ComplexTypeDefinition, AllocError>
    ensures { IfOk result (λ definition. definition ≡ complex_type_by context.entry.now is_mixed (derived_body kind (first_part (opened_part outer.entry).contents) ((opened_part outer.entry).declarations ++ declared_in scope.entry.now) (next_element at))) }
{
    let scope = within(alloc, scope, outer.declarations)?;
    let at = next_element(at)?;
    let part = first_part(outer.children);
    let scope = within(alloc, &scope, part.declarations)?;
    let inside = next_element(at)?;
    let base = type_named(alloc, "base", &scope, part.attributes)?;
    let content = content_written(alloc, context, &scope, inside, part.children)?;
    let derivation = Derivation {
        place: at.element,
        content: kind,
        method: method_of(part),
        base,
    };
    Ok(complex_type_with(is_mixed, Some(derivation), content))
}

// The complex type with this content.
fn complex_type<'a>(
    alloc: Global,
    context: &Context,
    is_mixed: bool,
    scope: &Scope<'a>,
    at: Numbers,
    children: &'a [SourceChild],
) -> Result<ComplexTypeDefinition, AllocError>
    ensures { IfOk result (λ definition. definition ≡ complex_type_by context.entry.now is_mixed (body_of (declared_in scope.entry.now) at (contents_of children.entry.now))) }
{
    let part = first_part(children);
    if is_part_named("simpleContent", part) {
        return derived_type(
            alloc,
            context,
            is_mixed,
            ContentKind::Simple,
            part,
            scope,
            at,
        );
    }
    if is_part_named("complexContent", part) {
        return derived_type(
            alloc,
            context,
            is_mixed,
            ContentKind::Complex,
            part,
            scope,
            at,
        );
    }
    let content = content_written(alloc, context, scope, at, children)?;
    Ok(complex_type_with(is_mixed, None, content))
}

fn type_name_written(
    alloc: Global,
    target: &Text,
    attributes: &[SourceAttribute],
    number: u32,
) -> Result<TypeName, AllocError>
    ensures { IfOk result (λ name. name ≡ type_name_written target.now attributes.now number) }
{
    if !is_given("name", attributes) {
        return Ok(TypeName::Anonymous(number));
    }
    let name = name_written(alloc, target, attributes)?;
    Ok(TypeName::Named(SharedName::new(alloc, name)?))
}

fn definition_written<'a>(
    alloc: Global,
    context: &Context,
    scope: &Scope<'a>,
    at: Numbers,
    element: &'a SourceElement,
) -> Result<TypeDefinition, AllocError>
    ensures { IfOk result (λ definition. definition ≡ definition_written context.entry.now (declared_in scope.entry.now) at element.entry.now) }
{
    let scope = within(alloc, scope, &element.declarations)?;
    let inside = numbers_inside(at, element)?;
    let children = element.children.as_slice();
    if is_schema_element("complexType", &element.name) {
        complex_definition(
            alloc,
            context,
            &scope,
            inside,
            &element.attributes,
            children,
        )
    } else {
        simple_definition(alloc, &scope, inside, children)
    }
}

fn simple_definition<'a>(
    alloc: Global,
    scope: &Scope<'a>,
    at: Numbers,
    children: &'a [SourceChild],
) -> Result<TypeDefinition, AllocError>
    ensures { IfOk result (λ definition. definition ≡ definitions.Simple (simple_type_by (first_part (contents_of children.entry.now)) (declared_in scope.entry.now) at)) }
{
    let definition = simple_type(alloc, scope, at, children)?;
    Ok(TypeDefinition::Simple(definition))
}

fn complex_definition<'a>(
    alloc: Global,
    context: &Context,
    scope: &Scope<'a>,
    at: Numbers,
    attributes: &[SourceAttribute],
    children: &'a [SourceChild],
) -> Result<TypeDefinition, AllocError>
    ensures { IfOk result (λ definition. definition ≡ definitions.Complex (complex_type_by context.entry.now (is_true (given_value (codes "mixed") attributes.entry.now)) (body_of (declared_in scope.entry.now) at (contents_of children.entry.now)))) }
{
    let is_mixed = is_mixed(attributes);
    let definition = complex_type(alloc, context, is_mixed, scope, at, children)?;
    Ok(TypeDefinition::Complex(definition))
}

fn type_declaration<'a>(
    alloc: Global,
    context: &Context,
    scope: &Scope<'a>,
    at: Numbers,
    element: &'a SourceElement,
) -> Result<TypeDeclaration, AllocError>
    ensures { IfOk result (λ declaration. declaration ≡ type_declaration context.entry.now (declared_in scope.entry.now) at element.entry.now) }
{
    let name = type_name_written(alloc, &context.target, &element.attributes, at.anonymous)?;
    let definition = definition_written(alloc, context, scope, at, element)?;
    Ok(TypeDeclaration {
        place: at.element,
        name,
        definition,
    })
}

// Adds the type that an element is, if it is one.
fn add_own_type<'a>(
    alloc: Global,
    context: &Context,
    scope: &Scope<'a>,
    at: Numbers,
    element: &'a SourceElement,
    types: &mut Vec<TypeDeclaration>,
) -> Result<(), AllocError>
    ensures { OnOk result (types.new.items ≡ types.old.items ++ own_type context.entry.now (declared_in scope.entry.now) at element.entry.now) }
{
    if is_schema_element("complexType", &element.name)
        || is_schema_element("simpleType", &element.name)
    {
        types.push(type_declaration(alloc, context, scope, at, element)?)?;
    }
    Ok(())
}

/// Adds the types of an element, each before those that stand in it, and answers the numbers behind the element.
#[cycle(types)]
pub fn add_types<'a>(
    alloc: Global,
    context: &Context,
    scope: &Scope<'a>,
    at: Numbers,
    element: &'a SourceElement,
    types: &mut Vec<TypeDeclaration>,
) -> Result<Numbers, AllocError>
    ensures types { OnOk result (types.new.items ≡ types.old.items ++ types_written context.entry.now (declared_in scope.entry.now) at element.entry.now) }
    ensures numbers { IfOk result (λ behind. behind ≡ numbers_behind at element.entry.now) }
{
    if is_annotation(&element.name) {
        return Ok(at);
    }
    add_own_type(alloc, context, scope, at, element, types)?;
    let scope = within(alloc, scope, &element.declarations)?;
    let inside = numbers_inside(at, element)?;
    add_types_among(alloc, context, &scope, inside, &element.children, types)
}

#[cycle(types)]
fn add_types_among<'a>(
    alloc: Global,
    context: &Context,
    scope: &Scope<'a>,
    at: Numbers,
    children: &'a [SourceChild],
    types: &mut Vec<TypeDeclaration>,
) -> Result<Numbers, AllocError>
    ensures types { OnOk result (types.new.items ≡ types.old.items ++ types_among context.entry.now (declared_in scope.entry.now) at (contents_of children.entry.now)) }
    ensures numbers { IfOk result (λ behind. behind ≡ numbers_behind_all at (contents_of children.entry.now)) }
{
    let mut at = at;
    let mut left = children;
    while let Some((child, others)) = left.split_first() {
        if let SourceChild::Element(element) = child {
            at = add_types(alloc, context, scope, at, element, types)?;
        }
        left = others;
    }
    Ok(at)
}
