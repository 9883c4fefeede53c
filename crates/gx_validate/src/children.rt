// The children of elements as content models see them, and their texts.

ghost use Rattle.std.specs.Prelude.{◌≡◌, ◌++◌, ◌∷◌, [], IfOk, OnOk, option_copied};
ghost use Rattle.gx_tree.specs.StringValue.{texts_joined};
ghost use Rattle.gx_types.specs.SchemaSet.{declaration_of};
ghost use Rattle.gx_model.specs.DeclaredContent.{content_model};
ghost use Rattle.gx_validate.specs.ElementContent.{child_shape, child_shapes, is_text_alone, text_shapes, texts_allowed};
ghost use Rattle.gx_validate.specs.Rules.{child_texts, has_stray_text};
ghost use Rattle.gx_qnames.specs.ScopeView.{declared_in};
ghost use Rattle.gx_validate.specs.Taking.{takes_shapes};
ghost use Rattle.gx_xml.specs.SourceView.{contents_of};

use crate::annotation::type_in_content;
use crate::child_kinds::ChildKinds;
use crate::content::{Texts, complex_model, is_ignored, is_stray, texts_allowed};
use crate::takers::Takers;
use gx_base::text::Text;
use gx_base::text_builder::TextBuilder;
use gx_base::type_name::TypeName;
use gx_qnames::scope::Scope;
use gx_types::declaration::Declared;
use gx_types::schemas::Schemas;
use gx_types::shape::Shape;
use gx_xml::source::{SourceChild, SourceElement};
use std::alloc::{AllocError, Global};

/// Whether there is a text that may not stand there.
pub fn has_stray_text(texts: Texts, children: &[SourceChild]) -> bool
    ensures { result ≡ has_stray_text texts (contents_of children.now) }
{
    let mut left = children;
    while let Some((child, others)) = left.split_first() {
        if let SourceChild::Text(text) = child
            && is_stray(texts, text)
        {
            return true;
        }
        left = others;
    }
    false
}

/// The texts, one after another; one alone is shared.
pub fn text_in(alloc: Global, children: &[SourceChild]) -> Result<Text, AllocError>
    ensures { IfOk result (λ text. text ≡ texts_joined (child_texts (contents_of children.now))) }
{
    if let [SourceChild::Text(text)] = children {
        return text.clone();
    }
    let mut text = TextBuilder::new(alloc);
    let mut left = children;
    while let Some((child, others)) = left.split_first() {
        if let SourceChild::Text(part) = child {
            text.push_text(part)?;
        }
        left = others;
    }
    text.finish()
}

fn child_shape<'a>(
    alloc: Global,
    schemas: &Schemas,
    scope: &Scope<'a>,
    kinds: &ChildKinds<'_>,
    element: &'a SourceElement,
) -> Result<Shape, AllocError>
    ensures { IfOk result (λ shape. shape ≡ child_shape schemas.entry.now (declared_in scope.entry.now) kinds.entry.now element.entry.now) }
{
    let declared = kinds.kind_of(&element.name)?;
    let kind = type_in_content(alloc, schemas, scope, &declared, element)?;
    let name = element.name.clone()?;
    Ok(Shape::Elem(name, kind))
}

// The children as the content model sees them.
fn child_shapes<'a>(
    alloc: Global,
    schemas: &Schemas,
    scope: &Scope<'a>,
    holder: Option<&Declared>,
    children: &'a [SourceChild],
) -> Result<Vec<Shape>, AllocError>
    ensures { IfOk result (λ shapes. shapes.items ≡ child_shapes schemas.entry.now (declared_in scope.entry.now) (option_copied holder.entry) (contents_of children.entry.now)) }
{
    let texts = texts_allowed(holder);
    let kinds = ChildKinds::new(alloc, holder, children.len())?;
    let mut shapes = Vec::with_capacity(alloc, children.len())?;
    let mut left = children;
    while let Some((child, others)) = left.split_first() {
        match child {
            SourceChild::Element(element) => {
                shapes.push(child_shape(alloc, schemas, scope, &kinds, element)?)?;
            }
            SourceChild::Text(text) => add_text(&mut shapes, texts, text)?,
        }
        left = others;
    }
    Ok(shapes)
}

fn add_text(shapes: &mut Vec<Shape>, texts: Texts, text: &Text) -> Result<(), AllocError>
    ensures { OnOk result (shapes.new.items ≡ shapes.old.items ++ text_shapes texts text.now) }
{
    if !is_ignored(texts, text) {
        shapes.push(Shape::Text)?;
    }
    Ok(())
}

/// Whether the content of a type, which has this declaration, takes the children (XML Schema 1.0 part 1, section 3.4.4, Element Locally
/// Valid (Complex Type), clauses 2.2 to 2.4).
#[tactic(auto, using(crate::proofs::Takings::alone_is_tested))]
pub fn has_content<'a>(
    alloc: Global,
    takers: &mut Takers<'_>,
    scope: &Scope<'a>,
    kind: &TypeName,
    holder: Option<&Declared>,
    children: &'a [SourceChild],
) -> Result<bool, AllocError>
    requires { option_copied holder ≡ declaration_of takers.old kind.now }
    ensures same { takers.new ≡ takers.old }
    ensures taken { IfOk result (λ taken. taken ≡ takes_shapes takers.old (content_model (option_copied holder.entry)) (child_shapes takers.old (declared_in scope.entry.now) (option_copied holder.entry) (contents_of children.entry.now))) }
{
    let _declarations = takers.schemas().types();
    if complex_model(holder).is_none() {
        return Ok(is_text_alone(children));
    }
    let shapes = child_shapes(alloc, takers.schemas(), scope, holder, children)?;
    takers.takes(alloc, kind, holder, &shapes)
}

// Whether there is one text, or nothing.
#[tactic(auto, using(crate::proofs::Takings::two_are_not_alone))]
fn is_text_alone(children: &[SourceChild]) -> bool
    ensures { result ≡ is_text_alone (contents_of children.now) }
{
    matches!(children, [] | [SourceChild::Text(_)])
}
