// What a type says of the children of its elements.

ghost use Rattle.std.specs.Prelude.{◌≡◌, IfOk, option_copied};
ghost use Rattle.gx_base.specs.Name.{same_name};
ghost use Rattle.gx_qnames.specs.Lexical.{is_blank};
ghost use Rattle.gx_model.specs.DeclaredContent.{complex_model, has_values};
ghost use Rattle.gx_validate.specs.ElementContent.{type_of_child, element_type_in, is_ignored, texts_allowed, texts_allowed_in, texts_allowed_by, type_of_element_item};
ghost use Rattle.gx_validate.specs.Rules.{is_stray};

use gx_base::characters::{is_white_space, next_character};
use gx_base::name::Name;
use gx_base::text::Text;
use gx_base::type_name::{Builtin, TypeName};
use gx_types::declaration::{Content, Declared};
use gx_types::item_type::ItemType;
use gx_types::sequence_type::{Ty, TyNode};
use std::alloc::AllocError;

/// What becomes of the texts among the children of an element (XML Schema 1.0 part 1, section 3.4.4): in simple and mixed content they
/// are kept; in element-only content white space is ignored, and no other text may stand there; none may stand in empty content.
#[derive(Clone, Copy, PartialEq, Eq)]
pub enum Texts {
    Kept,
    Ignored,
    Forbidden,
}

/// What becomes of the texts in elements of a type.
pub fn texts_allowed(holder: Option<&Declared>) -> Texts
    ensures { result ≡ texts_allowed (option_copied holder.entry) }
{
    match holder {
        Some(declared) => texts_allowed_in(&declared.content),
        None => Texts::Kept,
    }
}

fn texts_allowed_in(content: &Content) -> Texts
    ensures { result ≡ texts_allowed_in content.now }
{
    match content {
        Content::Complex {
            mixed: false,
            model,
        } => texts_allowed_by(model),
        _ => Texts::Kept,
    }
}

fn texts_allowed_by(model: &Ty) -> Texts
    ensures { result ≡ texts_allowed_by model.now }
{
    match model.node {
        TyNode::Empty => Texts::Forbidden,
        _ => Texts::Ignored,
    }
}

/// The content model of a complex type that has one.
pub fn complex_model(holder: Option<&Declared>) -> Option<&Ty>
    ensures { option_copied result ≡ complex_model (option_copied holder.entry) }
{
    match &holder?.content {
        Content::Complex { model, .. } => Some(model),
        Content::Atomic(_) | Content::List(_, _) | Content::Simple(_, _) => None,
    }
}

/// Whether the text of an element stands for simple values.
pub fn has_values(holder: Option<&Declared>) -> bool
    ensures { result ≡ has_values (option_copied holder.entry) }
{
    complex_model(holder).is_none()
}

// Whether a text is white space alone.
fn is_blank(text: &Text) -> bool
    ensures { result ≡ is_blank text.now }
{
    let mut rest = text.as_str().chars();
    while let Some(character) = next_character(&mut rest) {
        if !is_white_space(character) {
            return false;
        }
    }
    true
}

/// Whether a text is no part of the content.
pub fn is_ignored(texts: Texts, text: &Text) -> bool
    ensures { result ≡ is_ignored texts text.now }
{
    match texts {
        Texts::Ignored => is_blank(text),
        Texts::Kept | Texts::Forbidden => false,
    }
}

/// Whether a text may not stand there.
pub fn is_stray(texts: Texts, text: &Text) -> bool
    ensures { result ≡ is_stray texts text.now }
{
    match texts {
        Texts::Kept => false,
        Texts::Ignored => !is_blank(text),
        Texts::Forbidden => true,
    }
}

// Whether two names are equal. Most that are not have local parts of other lengths.
fn is_equal(wanted: &Name, name: &Name) -> bool
    ensures { result ≡ same_name wanted.now name.now }
{
    if wanted.local.as_str().len() != name.local.as_str().len() {
        return false;
    }
    wanted == name
}

fn type_of_element_item<'a>(kind: &'a ItemType, name: &Name) -> Option<&'a TypeName>
    ensures { option_copied result ≡ type_of_element_item kind.now name.now }
{
    match kind {
        ItemType::Element {
            name: Some(wanted),
            kind,
        } if is_equal(wanted, name) => Some(kind),
        _ => None,
    }
}

fn element_type_in<'a>(model: &'a Ty, name: &Name) -> Option<&'a TypeName>
    ensures { option_copied result ≡ element_type_in model.now name.now }
{
    match &model.node {
        TyNode::Never | TyNode::Empty => None,
        TyNode::Item(kind) => type_of_element_item(kind, name),
        TyNode::Seq(first, second) | TyNode::Alt(first, second) => {
            match element_type_in(first, name) {
                Some(kind) => Some(kind),
                None => element_type_in(second, name),
            }
        }
        TyNode::Optional(part) | TyNode::Star(part) | TyNode::Plus(part) => {
            element_type_in(part, name)
        }
    }
}

/// The declared type of a child of a name.
pub fn type_of_child(holder: Option<&Declared>, name: &Name) -> Result<TypeName, AllocError>
    ensures { IfOk result (λ t. t ≡ type_of_child (option_copied holder.entry) name.entry.now) }
{
    if let Some(model) = complex_model(holder)
        && let Some(kind) = element_type_in(model, name)
    {
        return kind.clone();
    }
    Ok(TypeName::Builtin(Builtin::Untyped))
}
