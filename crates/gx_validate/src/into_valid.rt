// The trees of valid documents, of sources that are let go as their trees are made.

ghost use Rattle.std.specs.Prelude.{◌≡◌, ◌++◌, [], IfErr, IfOk, IsSome, OnOk, Ok, option_copied};
ghost use Rattle.gx_types.specs.SchemaSet.{declaration_of, global_type};
ghost use Rattle.gx_validate.specs.Outcome.{IsInvalid, at_itself, typed_child, typed_contents, typed_element, typed_root, validated, with_kept_text};
ghost use Rattle.gx_validate.specs.Rules.{element_judged};
ghost use Rattle.gx_xml.specs.SourceTree.{source};
ghost use Rattle.gx_xml.specs.SourceView.{contents_of};

use crate::attributes::{into_typed_attributes, uses_allowed};
use crate::child_kinds::ChildKinds;
use crate::content::{Texts, is_ignored, texts_allowed};
use crate::invalid::{Invalid, InvalidRule};
use crate::path::{number_among_siblings, within_step};
use crate::takers::Takers;
use crate::validate::{add_tree, broken_here, document, element_judged, root_type};
use gx_base::name::Name;
use gx_base::text::Text;
use gx_base::type_name::TypeName;
use gx_qnames::scope::{outermost, within};
use gx_tree::tree::{Tree, TreeNode};
use gx_types::declaration::Declared;
use gx_types::schemas::Schemas;
use gx_xml::source::{Declaration, Source, SourceAttribute, SourceChild, SourceElement};
use std::alloc::{AllocError, Global};

/// What `validate` answers. Each part of the source is let go as soon as its node is made.
pub fn into_valid(
    alloc: Global,
    schemas: &Schemas,
    root: &Name,
    source: Source,
) -> Result<Tree, Invalid>
    requires { IsSome (global_type schemas.now root.now) }
    ensures tree { IfOk result (λ t. validated schemas.now root.now source.root ≡ Ok t) }
    ensures fault { IfErr result (λ e. IsInvalid e (validated schemas.now root.now source.root)) }
{
    let Source { root: element } = source;
    let name = element.name.clone()?;
    match into_typed_root(alloc, schemas, root, element) {
        Ok(tree) => Ok(document(alloc, tree)?),
        Err(invalid) => Err(within_step(alloc, &name, 1, invalid)),
    }
}

fn into_typed_root(
    alloc: Global,
    schemas: &Schemas,
    root: &Name,
    element: SourceElement,
) -> Result<Tree, Invalid>
    ensures tree { IfOk result (λ t. typed_root schemas.now root.now element ≡ Ok t) }
    ensures fault { IfErr result (λ e. IsInvalid e (typed_root schemas.now root.now element)) }
{
    if element.name != *root {
        return Err(broken_here(alloc, InvalidRule::WrongRoot));
    }
    let declared = root_type(schemas, root)?;
    let mut takers = Takers::new(alloc, schemas);
    into_typed(alloc, &mut takers, &[], &declared, element)
}

// The declarations of a tag, and those round it.
fn in_force(
    declarations: Vec<Declaration>,
    scope: &[Declaration],
) -> Result<Vec<Declaration>, AllocError>
    ensures { IfOk result (λ all. all.items ≡ declarations.items ++ scope.now) }
{
    let mut all = declarations;
    let mut left = scope;
    while let Some((declaration, others)) = left.split_first() {
        all.push(Declaration {
            prefix: declaration.prefix.clone()?,
            uri: declaration.uri.clone()?,
        })?;
        left = others;
    }
    Ok(all)
}

// The type of an element with its declaration, or the first rule that it breaks, where these declarations are in scope.
fn judged<'s>(
    alloc: Global,
    takers: &mut Takers<'s>,
    scope: &[Declaration],
    declared: &TypeName,
    attributes: &[SourceAttribute],
    children: &[SourceChild],
) -> Result<(TypeName, Option<&'s Declared>), Invalid>
    ensures same { takers.new ≡ takers.old }
    ensures kind { IfOk result (λ judged. element_judged takers.old scope.entry.now declared.entry.now attributes.entry.now (contents_of children.entry.now) ≡ Ok judged.0) }
    ensures holder { IfOk result (λ judged. option_copied judged.1 ≡ declaration_of takers.old judged.0) }
    ensures fault { IfErr result (λ e. IsInvalid e (at_itself (element_judged takers.old scope.entry.now declared.entry.now attributes.entry.now (contents_of children.entry.now)))) }
{
    let scope = within(alloc, &outermost(alloc), scope)?;
    element_judged(alloc, takers, &scope, declared, attributes, children)
}

#[cycle(into_valid)]
fn into_typed(
    alloc: Global,
    takers: &mut Takers<'_>,
    scope: &[Declaration],
    declared: &TypeName,
    element: SourceElement,
) -> Result<Tree, Invalid>
    ensures same { takers.new ≡ takers.old }
    ensures tree { IfOk result (λ t. typed_element takers.old scope.entry.now declared.entry.now element ≡ Ok t) }
    ensures fault { IfErr result (λ e. IsInvalid e (typed_element takers.old scope.entry.now declared.entry.now element)) }
{
    let SourceElement {
        name,
        declarations,
        attributes,
        children,
    } = element;
    if declarations.is_empty() {
        return into_typed_in_scope(alloc, takers, scope, declared, name, attributes, children);
    }
    let inner = in_force(declarations, scope)?;
    into_typed_in_scope(alloc, takers, &inner, declared, name, attributes, children)
}

// The tree of an element with these parts, whose own declarations are in scope.
#[cycle(into_valid)]
fn into_typed_in_scope(
    alloc: Global,
    takers: &mut Takers<'_>,
    scope: &[Declaration],
    declared: &TypeName,
    name: Name,
    attributes: Vec<SourceAttribute>,
    children: Vec<SourceChild>,
) -> Result<Tree, Invalid>
    ensures same { takers.new ≡ takers.old }
    ensures tree { IfOk result (λ t. typed_element takers.old scope.entry.now declared.entry.now (source name [] attributes.items (contents_of children.items)) ≡ Ok t) }
    ensures fault { IfErr result (λ e. IsInvalid e (typed_element takers.old scope.entry.now declared.entry.now (source name [] attributes.items (contents_of children.items)))) }
{
    let (kind, holder) = judged(alloc, takers, scope, declared, &attributes, &children)?;
    let attributes = into_typed_attributes(alloc, uses_allowed(holder), attributes)?;
    let children = into_typed_contents(alloc, takers, scope, holder, children)?;
    Ok(Tree {
        node: TreeNode::Element {
            name,
            kind,
            attributes,
            children,
        },
    })
}

#[cycle(into_valid)]
fn into_typed_contents(
    alloc: Global,
    takers: &mut Takers<'_>,
    scope: &[Declaration],
    holder: Option<&Declared>,
    children: Vec<SourceChild>,
) -> Result<Vec<Tree>, Invalid>
    ensures same { takers.new ≡ takers.old }
    ensures trees { IfOk result (λ ts. typed_contents takers.old scope.entry.now (option_copied holder.entry) [] (contents_of children.items) ≡ Ok ts.items) }
    ensures fault { IfErr result (λ e. IsInvalid e (typed_contents takers.old scope.entry.now (option_copied holder.entry) [] (contents_of children.items))) }
{
    let texts = texts_allowed(holder);
    let kinds = ChildKinds::new(alloc, holder, children.len())?;
    let mut done = Vec::with_capacity(alloc, children.len())?;
    let mut left = children.into_iter();
    while let Some(child) = left.next() {
        match child {
            SourceChild::Element(element) => {
                let tree = into_typed_child(alloc, takers, scope, &kinds, &done, element)?;
                add_tree(&mut done, tree)?;
            }
            SourceChild::Text(text) => take_text(&mut done, texts, text)?,
        }
    }
    Ok(done)
}

// The tree of a child behind siblings whose trees are done.
#[cycle(into_valid)]
fn into_typed_child(
    alloc: Global,
    takers: &mut Takers<'_>,
    scope: &[Declaration],
    kinds: &ChildKinds<'_>,
    done: &Vec<Tree>,
    element: SourceElement,
) -> Result<Tree, Invalid>
    ensures same { takers.new ≡ takers.old }
    ensures tree { IfOk result (λ t. typed_child takers.old scope.entry.now kinds.entry.now done.entry.now.items element ≡ Ok t) }
    ensures fault { IfErr result (λ e. IsInvalid e (typed_child takers.old scope.entry.now kinds.entry.now done.entry.now.items element)) }
{
    let name = element.name.clone()?;
    let declared = kinds.kind_of(&name)?;
    match into_typed(alloc, takers, scope, &declared, element) {
        Ok(tree) => Ok(tree),
        Err(invalid) => {
            let number = number_among_siblings(done, &name);
            Err(within_step(alloc, &name, number, invalid))
        }
    }
}

// Takes a text over where it is part of the content.
fn take_text(done: &mut Vec<Tree>, texts: Texts, text: Text) -> Result<(), AllocError>
    ensures { OnOk result (done.new.items ≡ with_kept_text texts done.old.items text) }
{
    if is_ignored(texts, &text) {
        return Ok(());
    }
    let node = TreeNode::Text(text);
    add_tree(done, Tree { node })
}
