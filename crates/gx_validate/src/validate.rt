// The trees of valid documents.

ghost use Rattle.std.specs.Prelude.{◌≡◌, [], ◌∷◌, ◌++◌, IfErr, IfOk, IsSome, OnOk, Ok, option_copied};
ghost use Rattle.gx_tree.specs.PlainTree.{a_tree, document, no_trees};
ghost use Rattle.gx_types.specs.SchemaSet.{declaration_of, global_type};
ghost use Rattle.gx_validate.specs.Outcome.{IsInvalid, IsRefusedHere, at_itself, root_type, typed_child, typed_contents, typed_element, typed_root, validated, with_kept_text};
ghost use Rattle.gx_validate.specs.Rules.{element_judged};
ghost use Rattle.gx_qnames.specs.ScopeView.{declared_in};
ghost use Rattle.gx_xml.specs.SourceTree.{source};
ghost use Rattle.gx_xml.specs.SourceView.{contents_of};

use crate::annotation::annotation;
use crate::attributes::{typed_attributes, uses_allowed};
use crate::child_kinds::ChildKinds;
use crate::content::{Texts, is_ignored, texts_allowed};
use crate::invalid::{Invalid, InvalidRule};
use crate::path::{number_among_siblings, within_step};
use crate::rules::broken_rule;
use crate::takers::Takers;
use gx_base::name::Name;
use gx_base::text::Text;
use gx_base::type_name::{Builtin, TypeName};
use gx_qnames::scope::{Scope, outermost, within};
use gx_tree::tree::{Tree, TreeNode};
use gx_types::declaration::Declared;
use gx_types::schemas::Schemas;
use gx_xml::source::{Source, SourceAttribute, SourceChild, SourceElement};
use std::alloc::{AllocError, Global};

/// The tree of a document with its types, exactly where it is valid (XML Schema 1.0 part 1, sections 3.3.4 and 3.4.4): the root has the
/// name of that global element. Else the first rule that is broken, in document order and at one element in the order WrongRoot,
/// BadXsiType, Nil, ExtraAttribute, MissingAttribute, TextInElementContent, WrongContent, BadSimpleValue.
pub fn validate(
    alloc: Global,
    schemas: &Schemas,
    root: &Name,
    source: &Source,
) -> Result<Tree, Invalid>
    requires { IsSome (global_type schemas.now root.now) }
    ensures tree { IfOk result (λ t. validated schemas.now root.now source.now.root ≡ Ok t) }
    ensures fault { IfErr result (λ e. IsInvalid e (validated schemas.now root.now source.now.root)) }
{
    match typed_root(alloc, schemas, root, &source.root) {
        Ok(tree) => Ok(document(alloc, tree)?),
        Err(invalid) => Err(within_step(alloc, &source.root.name, 1, invalid)),
    }
}

// The document node over a tree.
pub(crate) fn document(alloc: Global, tree: Tree) -> Result<Tree, AllocError>
    ensures { IfOk result (λ t. t ≡ document (a_tree tree no_trees)) }
{
    let mut children = Vec::new(alloc);
    children.push(tree)?;
    Ok(Tree {
        node: TreeNode::Document(children),
    })
}

fn typed_root(
    alloc: Global,
    schemas: &Schemas,
    root: &Name,
    element: &SourceElement,
) -> Result<Tree, Invalid>
    ensures tree { IfOk result (λ t. typed_root schemas.now root.now element.now ≡ Ok t) }
    ensures fault { IfErr result (λ e. IsInvalid e (typed_root schemas.now root.now element.now)) }
{
    if element.name != *root {
        return Err(broken_here(alloc, InvalidRule::WrongRoot));
    }
    let declared = root_type(schemas, root)?;
    let mut takers = Takers::new(alloc, schemas);
    let typed = typed_element(alloc, &mut takers, &outermost(alloc), &declared, element);
    drop(takers);
    typed
}

// The declared type of a root of a name.
pub(crate) fn root_type(schemas: &Schemas, root: &Name) -> Result<TypeName, AllocError>
    ensures { IfOk result (λ t. t ≡ root_type schemas.now root.now) }
{
    match schemas.global(root) {
        Some(declared) => declared.clone(),
        None => Ok(TypeName::Builtin(Builtin::Untyped)),
    }
}

// That a rule is broken at the element itself.
pub(crate) fn broken_here(alloc: Global, rule: InvalidRule) -> Invalid
    ensures { IsRefusedHere rule result }
{
    match Text::empty(alloc) {
        Ok(path) => Invalid::Refused { rule, path },
        Err(AllocError) => Invalid::Memory,
    }
}

#[cycle(validate)]
fn typed_element<'a>(
    alloc: Global,
    takers: &mut Takers<'_>,
    scope: &Scope<'a>,
    declared: &TypeName,
    element: &'a SourceElement,
) -> Result<Tree, Invalid>
    ensures same { takers.new ≡ takers.old }
    ensures tree { IfOk result (λ t. typed_element takers.old (declared_in scope.entry.now) declared.entry.now element.entry.now ≡ Ok t) }
    ensures fault { IfErr result (λ e. IsInvalid e (typed_element takers.old (declared_in scope.entry.now) declared.entry.now element.entry.now)) }
{
    let SourceElement {
        name,
        declarations,
        attributes,
        children,
    } = element;
    if declarations.is_empty() {
        return typed_in_scope(alloc, takers, scope, declared, name, attributes, children);
    }
    let inner = within(alloc, scope, declarations)?;
    typed_in_scope(alloc, takers, &inner, declared, name, attributes, children)
}

// The tree of an element with these parts, whose own declarations are in scope.
#[cycle(validate)]
fn typed_in_scope<'a>(
    alloc: Global,
    takers: &mut Takers<'_>,
    scope: &Scope<'a>,
    declared: &TypeName,
    name: &Name,
    attributes: &[SourceAttribute],
    children: &'a [SourceChild],
) -> Result<Tree, Invalid>
    ensures same { takers.new ≡ takers.old }
    ensures tree { IfOk result (λ t. typed_element takers.old (declared_in scope.entry.now) declared.entry.now (source name.entry.now [] attributes.entry.now (contents_of children.entry.now)) ≡ Ok t) }
    ensures fault { IfErr result (λ e. IsInvalid e (typed_element takers.old (declared_in scope.entry.now) declared.entry.now (source name.entry.now [] attributes.entry.now (contents_of children.entry.now)))) }
{
    let (kind, holder) = element_judged(alloc, takers, scope, declared, attributes, children)?;
    let name = name.clone()?;
    let attributes = typed_attributes(alloc, uses_allowed(holder), attributes)?;
    let children = typed_contents(alloc, takers, scope, holder, children)?;
    Ok(Tree {
        node: TreeNode::Element {
            name,
            kind,
            attributes,
            children,
        },
    })
}

// The type of an element with its declaration, or the first rule that it breaks.
pub(crate) fn element_judged<'a, 's>(
    alloc: Global,
    takers: &mut Takers<'s>,
    scope: &Scope<'a>,
    declared: &TypeName,
    attributes: &[SourceAttribute],
    children: &'a [SourceChild],
) -> Result<(TypeName, Option<&'s Declared>), Invalid>
    ensures same { takers.new ≡ takers.old }
    ensures kind { IfOk result (λ judged. element_judged takers.old (declared_in scope.entry.now) declared.entry.now attributes.entry.now (contents_of children.entry.now) ≡ Ok judged.0) }
    ensures holder { IfOk result (λ judged. option_copied judged.1 ≡ declaration_of takers.old judged.0) }
    ensures fault { IfErr result (λ e. IsInvalid e (at_itself (element_judged takers.old (declared_in scope.entry.now) declared.entry.now attributes.entry.now (contents_of children.entry.now)))) }
{
    let Some(kind) = annotation(alloc, takers.schemas(), scope, declared, attributes)? else {
        return Err(broken_here(alloc, InvalidRule::BadXsiType));
    };
    let holder = takers.declared(&kind)?;
    match broken_rule(alloc, takers, scope, &kind, holder, attributes, children)? {
        Some(rule) => Err(broken_here(alloc, rule)),
        None => Ok((kind, holder)),
    }
}

#[cycle(validate)]
fn typed_contents<'a>(
    alloc: Global,
    takers: &mut Takers<'_>,
    scope: &Scope<'a>,
    holder: Option<&Declared>,
    children: &'a [SourceChild],
) -> Result<Vec<Tree>, Invalid>
    ensures same { takers.new ≡ takers.old }
    ensures trees { IfOk result (λ ts. typed_contents takers.old (declared_in scope.entry.now) (option_copied holder.entry) [] (contents_of children.entry.now) ≡ Ok ts.items) }
    ensures fault { IfErr result (λ e. IsInvalid e (typed_contents takers.old (declared_in scope.entry.now) (option_copied holder.entry) [] (contents_of children.entry.now))) }
{
    let texts = texts_allowed(holder);
    let kinds = ChildKinds::new(alloc, holder, children.len())?;
    let mut done = Vec::with_capacity(alloc, children.len())?;
    let mut left = children;
    while let Some((child, others)) = left.split_first() {
        match child {
            SourceChild::Element(element) => {
                let tree = typed_child(alloc, takers, scope, &kinds, &done, element)?;
                add_tree(&mut done, tree)?;
            }
            SourceChild::Text(text) => add_text(&mut done, texts, text)?,
        }
        left = others;
    }
    Ok(done)
}

// The tree of a child behind siblings whose trees are done.
#[cycle(validate)]
fn typed_child<'a>(
    alloc: Global,
    takers: &mut Takers<'_>,
    scope: &Scope<'a>,
    kinds: &ChildKinds<'_>,
    done: &Vec<Tree>,
    element: &'a SourceElement,
) -> Result<Tree, Invalid>
    ensures same { takers.new ≡ takers.old }
    ensures tree { IfOk result (λ t. typed_child takers.old (declared_in scope.entry.now) kinds.entry.now done.entry.now.items element.entry.now ≡ Ok t) }
    ensures fault { IfErr result (λ e. IsInvalid e (typed_child takers.old (declared_in scope.entry.now) kinds.entry.now done.entry.now.items element.entry.now)) }
{
    let declared = kinds.kind_of(&element.name)?;
    match typed_element(alloc, takers, scope, &declared, element) {
        Ok(tree) => Ok(tree),
        Err(invalid) => {
            let number = number_among_siblings(done, &element.name);
            Err(within_step(alloc, &element.name, number, invalid))
        }
    }
}

// Adds a text where it is part of the content.
pub(crate) fn add_text(done: &mut Vec<Tree>, texts: Texts, text: &Text) -> Result<(), AllocError>
    ensures { OnOk result (done.new.items ≡ with_kept_text texts done.old.items text.now) }
{
    if is_ignored(texts, text) {
        return Ok(());
    }
    let node = TreeNode::Text(text.clone()?);
    add_tree(done, Tree { node })
}

pub(crate) fn add_tree(done: &mut Vec<Tree>, tree: Tree) -> Result<(), AllocError>
    ensures { OnOk result (done.new.items ≡ done.old.items ++ tree ∷ []) }
{
    Ok(done.push(tree)?)
}
