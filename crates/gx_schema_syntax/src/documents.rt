// What is written in schema documents.

ghost use Rattle.std.specs.Prelude.{◌≡◌, ◌++◌, IfOk, OnOk, codes};
ghost use Rattle.gx_xml.specs.SourceView.{contents_of};
ghost use Rattle.gx_schema_syntax.specs.Contents.{given_value};
ghost use Rattle.gx_schema_syntax.specs.Documents.{document_context, document_written, global_attribute, global_attribute_group, global_element, global_group, global_written, globals_written};
ghost use Rattle.gx_schema_syntax.specs.Outside.{is_value};
ghost use Rattle.gx_qnames.specs.ScopeView.{declared_in};

use crate::children::given_value;
use crate::context::Context;
use crate::declarations::{declared_kind, name_written, text_or_empty};
use crate::numbers::{Numbers, numbers_behind, numbers_inside};
use crate::types::{add_types, first_particle, members_written};
use crate::words::is_schema_element;
use crate::written::{GlobalDeclaration, SchemaDocument, TypeDeclaration};
use gx_base::type_name::Builtin;
use gx_qnames::scope::{Scope, outermost, within};
use gx_qnames::words::has_spelling;
use gx_xml::source::{SourceAttribute, SourceChild, SourceElement};
use std::alloc::{AllocError, Global};

// Whether the attribute of this name says that local declarations are qualified.
fn is_qualified(attribute: &str, attributes: &[SourceAttribute]) -> bool
    ensures { result ≡ is_value (codes "qualified") (given_value attribute.now attributes.now) }
{
    match given_value(attribute, attributes) {
        Some(form) => has_spelling("qualified", form),
        None => false,
    }
}

// What the attributes of `schema` say.
fn document_context(alloc: Global, attributes: &[SourceAttribute]) -> Result<Context, AllocError>
    ensures { IfOk result (λ context. context ≡ document_context attributes.now) }
{
    Ok(Context {
        target: text_or_empty(alloc, given_value("targetNamespace", attributes))?,
        elements_are_qualified: is_qualified("elementFormDefault", attributes),
        attributes_are_qualified: is_qualified("attributeFormDefault", attributes),
    })
}

fn global_element<'a>(
    alloc: Global,
    context: &Context,
    scope: &Scope<'a>,
    at: Numbers,
    element: &'a SourceElement,
) -> Result<GlobalDeclaration, AllocError>
    ensures { IfOk result (λ declaration. declaration ≡ global_element context.entry.now (declared_in scope.entry.now) at element.entry.now) }
{
    let attributes = element.attributes.as_slice();
    let name = name_written(alloc, &context.target, attributes)?;
    let default = Builtin::AnyType;
    let children = element.children.as_slice();
    let kind = declared_kind(alloc, default, scope, attributes, children, at.anonymous)?;
    Ok(GlobalDeclaration::Element {
        place: at.element,
        name,
        kind,
    })
}

fn global_attribute<'a>(
    alloc: Global,
    context: &Context,
    scope: &Scope<'a>,
    at: Numbers,
    element: &'a SourceElement,
) -> Result<GlobalDeclaration, AllocError>
    ensures { IfOk result (λ declaration. declaration ≡ global_attribute context.entry.now (declared_in scope.entry.now) at element.entry.now) }
{
    let attributes = element.attributes.as_slice();
    let name = name_written(alloc, &context.target, attributes)?;
    let default = Builtin::AnySimple;
    let children = element.children.as_slice();
    let kind = declared_kind(alloc, default, scope, attributes, children, at.anonymous)?;
    Ok(GlobalDeclaration::Attribute {
        place: at.element,
        name,
        kind,
    })
}

fn global_group<'a>(
    alloc: Global,
    context: &Context,
    scope: &Scope<'a>,
    at: Numbers,
    element: &'a SourceElement,
) -> Result<GlobalDeclaration, AllocError>
    ensures { IfOk result (λ declaration. declaration ≡ global_group context.entry.now (declared_in scope.entry.now) at element.entry.now) }
{
    let name = name_written(alloc, &context.target, &element.attributes)?;
    let inside = numbers_inside(at, element)?;
    let particle = first_particle(alloc, context, scope, inside, &element.children)?;
    Ok(GlobalDeclaration::Group {
        place: at.element,
        name,
        particle,
    })
}

fn global_attribute_group<'a>(
    alloc: Global,
    context: &Context,
    scope: &Scope<'a>,
    at: Numbers,
    element: &'a SourceElement,
) -> Result<GlobalDeclaration, AllocError>
    ensures { IfOk result (λ declaration. declaration ≡ global_attribute_group context.entry.now (declared_in scope.entry.now) at element.entry.now) }
{
    let name = name_written(alloc, &context.target, &element.attributes)?;
    let inside = numbers_inside(at, element)?;
    let attributes = members_written(alloc, context, scope, inside, &element.children)?;
    Ok(GlobalDeclaration::AttributeGroup {
        place: at.element,
        name,
        attributes,
    })
}

// Adds the declaration that an element is, unless it is that of a type.
fn add_global<'a>(
    alloc: Global,
    context: &Context,
    scope: &Scope<'a>,
    at: Numbers,
    element: &'a SourceElement,
    declarations: &mut Vec<GlobalDeclaration>,
) -> Result<(), AllocError>
    ensures { OnOk result (declarations.new.items ≡ declarations.old.items ++ global_written context.entry.now (declared_in scope.entry.now) at element.entry.now) }
{
    let scope = within(alloc, scope, &element.declarations)?;
    if is_schema_element("element", &element.name) {
        declarations.push(global_element(alloc, context, &scope, at, element)?)?;
    } else if is_schema_element("attribute", &element.name) {
        declarations.push(global_attribute(alloc, context, &scope, at, element)?)?;
    } else if is_schema_element("group", &element.name) {
        declarations.push(global_group(alloc, context, &scope, at, element)?)?;
    } else if is_schema_element("attributeGroup", &element.name) {
        declarations.push(global_attribute_group(alloc, context, &scope, at, element)?)?;
    }
    Ok(())
}

// The global declarations among the children of `schema`, without those of types.
fn globals_written<'a>(
    alloc: Global,
    context: &Context,
    scope: &Scope<'a>,
    at: Numbers,
    children: &'a [SourceChild],
) -> Result<Vec<GlobalDeclaration>, AllocError>
    ensures { IfOk result (λ declarations. declarations.items ≡ globals_written context.entry.now (declared_in scope.entry.now) at (contents_of children.entry.now)) }
{
    let mut declarations = Vec::new(alloc);
    let mut at = at;
    let mut left = children;
    while let Some((child, others)) = left.split_first() {
        if let SourceChild::Element(element) = child {
            add_global(alloc, context, scope, at, element, &mut declarations)?;
            at = numbers_behind(at, element)?;
        }
        left = others;
    }
    Ok(declarations)
}

/// What a schema document says, from these numbers on.
pub fn document_written(
    alloc: Global,
    at: Numbers,
    root: &SourceElement,
) -> Result<SchemaDocument, AllocError>
    ensures { IfOk result (λ document. document ≡ document_written at root.now) }
{
    let context = document_context(alloc, &root.attributes)?;
    let outer = outermost(alloc);
    let scope = within(alloc, &outer, &root.declarations)?;
    let inside = numbers_inside(at, root)?;
    let declarations = globals_written(alloc, &context, &scope, inside, &root.children)?;
    let mut types = Vec::new(alloc);
    add_types(alloc, &context, &outer, at, root, &mut types)?;
    let Context {
        target,
        elements_are_qualified: _,
        attributes_are_qualified: _,
    } = context;
    Ok(SchemaDocument {
        target,
        types,
        declarations,
    })
}
