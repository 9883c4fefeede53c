// The features of shapes, and the positions of a type that accept them.

ghost use Rattle.std.specs.Prelude.{◌≡◌, ◌++◌, IfOk, OnOk};
ghost use Rattle.gx_include_takes.specs.Features.{accepts, may_take, known_name, is_typed, IsSymbolOf};
ghost use Rattle.gx_include_takes.specs.Following.{IsMask};
ghost use Rattle.gx_include_positions.specs.Names.{name_given};
ghost use Rattle.gx_include_positions.specs.Positions.{tests_of};
ghost use Rattle.gx_include_positions.specs.Step.{all_tests};

use crate::bits::packed;
use crate::reading::{Feature, Symbol};
use gx_base::name::Name;
use gx_include_positions::names::may_take;
use gx_types::derivation::derives;
use gx_types::item_type::ItemType;
use gx_types::schemas::Schemas;
use gx_types::sequence_type::{Ty, TyNode};
use gx_types::shape::Shape;
use indexmap::IndexSet;
use std::alloc::{AllocError, Global};

// The symbol of a shape for a type that asks for these names.
pub(crate) fn symbol_of<'a>(names: &IndexSet<Name>, shape: &'a Shape) -> Symbol<'a>
    ensures { IsSymbolOf names.now.keys shape.now result }
{
    Symbol {
        name: name_of_shape(names, shape),
        kind: kind_of_shape(shape),
    }
}

fn name_of_shape<'a>(names: &IndexSet<Name>, shape: &'a Shape) -> Feature<'a>
    ensures { accepts result ≡ may_take (known_name names.now.keys (name_given shape.now)) }
{
    match shape {
        Shape::Elem(name, _) | Shape::Attr(name, _) | Shape::Doc(Some((name, _))) => {
            known(names, name)
        }
        Shape::Text | Shape::Doc(None) | Shape::Atom(_) => Feature::Unnamed,
    }
}

fn known<'a>(names: &IndexSet<Name>, name: &'a Name) -> Feature<'a>
    ensures { accepts result ≡ may_take (known_name names.now.keys (Some name.now)) }
{
    if names.contains(name) {
        Feature::Named(name)
    } else {
        Feature::Unnamed
    }
}

fn kind_of_shape(shape: &Shape) -> Feature<'_>
    ensures { accepts result ≡ is_typed shape.now }
{
    match shape {
        Shape::Elem(_, kind) => Feature::Element(kind),
        Shape::Attr(_, kind) => Feature::Attribute(kind),
        Shape::Text => Feature::Text,
        Shape::Doc(None) => Feature::Document,
        Shape::Doc(Some((_, kind))) => Feature::DocumentOf(kind),
        Shape::Atom(kind) => Feature::Atom(kind),
    }
}

// Whether an item type accepts a feature.
fn accepts(schemas: &Schemas, feature: Feature<'_>, item: &ItemType) -> bool
    ensures { result ≡ accepts feature.entry schemas.now item.now }
{
    match (feature, item) {
        (Feature::Named(name), _) => may_take(item, Some(name)),
        (Feature::Unnamed, _) => may_take(item, None),
        (Feature::Element(t), ItemType::Element { kind, .. }) => derives(schemas, t, kind),
        (Feature::Attribute(t), ItemType::Attribute { kind, .. }) => derives(schemas, t, kind),
        (Feature::Text, ItemType::Text) => true,
        (Feature::Document, ItemType::Document(None)) => true,
        (Feature::DocumentOf(_), ItemType::Document(None)) => true,
        (Feature::DocumentOf(t), ItemType::Document(Some((_, kind)))) => derives(schemas, t, kind),
        (Feature::Atom(t), ItemType::Atom(kind)) => derives(schemas, t, kind),
        _ => false,
    }
}

// Puts behind `tests` whether the item type at each position of a type accepts a feature.
fn test_positions(
    schemas: &Schemas,
    feature: Feature<'_>,
    t: &Ty,
    tests: &mut Vec<bool>,
) -> Result<(), AllocError>
    ensures { OnOk result (tests.new.items ≡ tests.old.items ++ tests_of t.now (accepts feature.entry schemas.now)) }
{
    match &t.node {
        TyNode::Never | TyNode::Empty => Ok(()),
        TyNode::Item(item) => Ok(tests.push(accepts(schemas, feature, item))?),
        TyNode::Seq(first, second) | TyNode::Alt(first, second) => {
            test_positions(schemas, feature, first, tests)?;
            test_positions(schemas, feature, second, tests)
        }
        TyNode::Optional(part) | TyNode::Star(part) | TyNode::Plus(part) => {
            test_positions(schemas, feature, part, tests)
        }
    }
}

// Whether each position accepts a feature, behind the start.
fn accepting_positions(
    alloc: Global,
    schemas: &Schemas,
    t: &Ty,
    feature: Feature<'_>,
) -> Result<Vec<bool>, AllocError>
    ensures { IfOk result (λ tests. tests.items ≡ all_tests t.now (accepts feature.entry schemas.now)) }
{
    let mut tests = Vec::new(alloc);
    tests.push(false)?;
    test_positions(schemas, feature, t, &mut tests)?;
    Ok(tests)
}

// The positions whose item type accepts a feature.
pub(crate) fn mask_of(
    alloc: Global,
    schemas: &Schemas,
    t: &Ty,
    feature: Feature<'_>,
) -> Result<Vec<u64>, AllocError>
    ensures { IfOk result (λ mask. IsMask t.now (accepts feature.entry schemas.now) mask.items) }
{
    let tests = accepting_positions(alloc, schemas, t, feature)?;
    let mask = packed(alloc, tests.as_slice())?;
    Ok(mask)
}
