// The types of typed values.

ghost use Rattle.std.specs.Prelude.{◌≡◌, [], ◌∷◌, IfOk, MatchResult};
ghost use Rattle.std.specs.List.{list_all};
ghost use Rattle.gx_types.specs.SchemaSet.{declaration_of};
ghost use Rattle.gx_steptype.specs.DerivedTypes.{derived_among, listed_names, over_derived as choice_over_derived};
ghost use Rattle.gx_steptype.specs.DataType.{atomic_item, values_by_content as values_of_content, declared_values as values_of_declared, simple_values as values_of_simple, values_of_type, values_declared, content_values, has_value as values_exist, value_type, value_type_of as type_of_values, item_has_data as item_has_values, item_data as data_of_item, has_data as type_has_data, have_values, untyped_atomic_type as untyped_type, list_of_items, type_of_data as type_of_values_of};
ghost use Rattle.gx_steptype.specs.KeptSteps.{IsTableOf};
ghost use Rattle.gx_steptype.specs.StepAnswer.{HasDataType, RefusesData};

use crate::children::is_any_type;
use crate::derived::{LISTED, OfType, over_types};
use crate::derived_types::DerivedTypes;
use crate::error::StepError;
use crate::replace::{Replacement, replace};
use gx_base::type_name::{Builtin, TypeName};
use gx_types::declaration::Content;
use gx_types::derivation::derives;
use gx_types::item_type::ItemType;
use gx_types::schemas::Schemas;
use gx_types::sequence_type::{Ty, TyNode};
use gx_types::type_rules::{limit, star};
use indexmap::IndexMap;
use std::alloc::{AllocError, Global};

/// The type of the typed values of the items of a type (XQuery 1.0, section 2.5.2; Formal Semantics, section 7.2.3). `NoTypedValue`
/// comes exactly where an item type of it, or a type that is derived from its type, has element-only content or is xs:anyType.
pub fn data_type(alloc: Global, schemas: &Schemas, t: &Ty) -> Result<Ty, StepError>
    ensures { MatchResult result (HasDataType schemas.now t.now) (RefusesData schemas.now t.now) }
{
    if !all_have_data(alloc, schemas, t)? {
        return Err(StepError::NoTypedValue);
    }
    Ok(values_of(alloc, schemas, t)?)
}

// Whether each item type of a type has a typed value.
fn all_have_data(alloc: Global, schemas: &Schemas, t: &Ty) -> Result<bool, AllocError>
    ensures { IfOk result (λ answer. answer ≡ type_has_data schemas.now t.now) }
{
    let mut derived = DerivedTypes::new(alloc, schemas)?;
    let mut known = IndexMap::new(alloc);
    let answer = has_data(alloc, &mut derived, &mut known, t);
    drop(derived);
    answer
}

// The type of the typed values, of item types that have them.
fn values_of(alloc: Global, schemas: &Schemas, t: &Ty) -> Result<Ty, AllocError>
    ensures { IfOk result (λ values. values ≡ type_of_values_of schemas.now t.now) }
{
    let derived = DerivedTypes::new(alloc, schemas)?;
    let mut data = Data {
        derived,
        known: IndexMap::new(alloc),
    };
    let values = replace(alloc, &mut data, t);
    drop(data);
    limit(alloc, values?)
}

// Typed values in the place of each item type, with those of the elements of types that were met before.
#[derive(Drop)]
struct Data<'a> {
    pub derived: DerivedTypes<'a>,
    pub known: IndexMap<TypeName, Ty>,
}

impl Replacement for Data<'_> {
    ghost use Rattle.gx_steptype.specs.DerivedTypes.{over_derived};
    ghost use Rattle.gx_steptype.specs.DataType.{item_data as data_of_item, value_type_of};
    ghost use Rattle.gx_steptype.specs.KeptSteps.{IsTableOf};

    ghost gives = { λ d kind. data_of_item d.derived kind };

    ghost fits = { λ d. IsTableOf (over_derived d.derived (value_type_of d.derived)) d.known };

    fn replace(&mut self, alloc: Global, item: &ItemType) -> Result<Ty, AllocError> {
        item_data(alloc, &mut self.derived, &mut self.known, item)
    }
}

// The values of the nodes of each type.
#[derive(Clone, Copy)]
struct ValuesOf<'a> {
    pub schemas: &'a Schemas,
}

impl OfType for ValuesOf<'_> {
    ghost use Rattle.gx_steptype.specs.DataType.{value_type_of as type_of_values};

    ghost of = { λ v kind. type_of_values v.schemas.now kind };

    fn of_type(&self, alloc: Global, kind: &TypeName) -> Result<Ty, AllocError> {
        value_type_of(alloc, self.schemas, kind)
    }
}

fn item_data(
    alloc: Global,
    derived: &mut DerivedTypes<'_>,
    known: &mut IndexMap<TypeName, Ty>,
    item: &ItemType,
) -> Result<Ty, AllocError>
    requires { IsTableOf (choice_over_derived derived.old (type_of_values derived.old)) known.old }
    ensures same { derived.new ≡ derived.old }
    ensures kept { IsTableOf (choice_over_derived derived.old (type_of_values derived.old)) known.new }
    ensures data { IfOk result (λ t. t ≡ data_of_item derived.old item.now) }
{
    match item {
        ItemType::Element { name: _, kind } => kept_data(alloc, derived, known, kind),
        ItemType::Attribute { name: _, kind } => value_type_of(alloc, derived.schemas(), kind),
        ItemType::Text | ItemType::Document(_) => untyped_atomic_type(alloc),
        ItemType::Atom(kind) => atomic_type(alloc, kind),
    }
}

// The typed values of the elements of a type, found once for each type.
fn kept_data(
    alloc: Global,
    derived: &mut DerivedTypes<'_>,
    known: &mut IndexMap<TypeName, Ty>,
    kind: &TypeName,
) -> Result<Ty, AllocError>
    requires { IsTableOf (choice_over_derived derived.old (type_of_values derived.old)) known.old }
    ensures same { derived.new ≡ derived.old }
    ensures kept { IsTableOf (choice_over_derived derived.old (type_of_values derived.old)) known.new }
    ensures data { IfOk result (λ t. t ≡ choice_over_derived derived.old (type_of_values derived.old) kind.now) }
{
    let _types = derived.schemas().types();
    if let Some(t) = known.get(kind) {
        return t.clone();
    }
    let t = element_data(alloc, derived, kind)?;
    known.insert(kind.clone()?, t.clone()?)?;
    Ok(t)
}

// The typed values of the elements of a type and of all types that are derived from it.
fn element_data(
    alloc: Global,
    derived: &mut DerivedTypes<'_>,
    kind: &TypeName,
) -> Result<Ty, AllocError>
    ensures same { derived.new ≡ derived.old }
    ensures data { IfOk result (λ t. t ≡ choice_over_derived derived.old (type_of_values derived.old) kind.now) }
{
    let schemas = derived.schemas();
    let types = derived.of(alloc, kind)?;
    over_types(
        alloc,
        schemas,
        &ValuesOf { schemas },
        kind,
        types.as_slice(),
    )
}

// Whether each item type of a type has a typed value, where the derived types of the schemas are at hand.
fn has_data(
    alloc: Global,
    derived: &mut DerivedTypes<'_>,
    known: &mut IndexMap<TypeName, bool>,
    t: &Ty,
) -> Result<bool, AllocError>
    requires { IsTableOf (have_values derived.old) known.old }
    ensures same { derived.new ≡ derived.old }
    ensures kept { IsTableOf (have_values derived.old) known.new }
    ensures data { IfOk result (λ answer. answer ≡ type_has_data derived.old t.now) }
{
    match &t.node {
        TyNode::Never | TyNode::Empty => Ok(true),
        TyNode::Item(kind) => item_has_data(alloc, derived, known, kind),
        TyNode::Seq(first, second) | TyNode::Alt(first, second) => {
            Ok(has_data(alloc, derived, known, first)? && has_data(alloc, derived, known, second)?)
        }
        TyNode::Optional(part) | TyNode::Star(part) | TyNode::Plus(part) => {
            has_data(alloc, derived, known, part)
        }
    }
}

fn item_has_data(
    alloc: Global,
    derived: &mut DerivedTypes<'_>,
    known: &mut IndexMap<TypeName, bool>,
    item: &ItemType,
) -> Result<bool, AllocError>
    requires { IsTableOf (have_values derived.old) known.old }
    ensures same { derived.new ≡ derived.old }
    ensures kept { IsTableOf (have_values derived.old) known.new }
    ensures data { IfOk result (λ answer. answer ≡ item_has_values derived.old item.now) }
{
    match item {
        ItemType::Element { name: _, kind } => {
            Ok(!is_any_type(kind) && kept_answer(alloc, derived, known, kind)?)
        }
        ItemType::Attribute { name: _, kind } => Ok(has_value(derived.schemas(), kind)),
        ItemType::Text | ItemType::Document(_) | ItemType::Atom(_) => Ok(true),
    }
}

// Whether the elements of a type have typed values, found once for each type.
fn kept_answer(
    alloc: Global,
    derived: &mut DerivedTypes<'_>,
    known: &mut IndexMap<TypeName, bool>,
    kind: &TypeName,
) -> Result<bool, AllocError>
    requires { IsTableOf (have_values derived.old) known.old }
    ensures same { derived.new ≡ derived.old }
    ensures kept { IsTableOf (have_values derived.old) known.new }
    ensures values { IfOk result (λ answer. answer ≡ have_values derived.old kind.now) }
{
    let _types = derived.schemas().types();
    if let Some(answer) = known.get(kind) {
        return Ok(*answer);
    }
    let answer = all_have_values(alloc, derived, kind)?;
    known.insert(kind.clone()?, answer)?;
    Ok(answer)
}

// Whether the nodes of a type and of all types that are derived from it have typed values.
fn all_have_values(
    alloc: Global,
    derived: &mut DerivedTypes<'_>,
    kind: &TypeName,
) -> Result<bool, AllocError>
    ensures same { derived.new ≡ derived.old }
    ensures values { IfOk result (λ answer. answer ≡ have_values derived.old kind.now) }
{
    let schemas = derived.schemas();
    if !builtins_have_values(schemas, kind, &LISTED) {
        return Ok(false);
    }
    let types = derived.of(alloc, kind)?;
    Ok(each_has_value(schemas, types.as_slice()))
}

fn builtins_have_values(schemas: &Schemas, kind: &TypeName, listed: &[Builtin]) -> bool
    ensures { result ≡ list_all (λ t. values_exist (values_of_type schemas.now t)) (derived_among schemas.now kind.now (listed_names listed.now)) }
{
    for builtin in listed {
        if !has_value_if_derived(schemas, kind, &TypeName::Builtin(*builtin)) {
            return false;
        }
    }
    true
}

// Whether the nodes of each of these types have typed values.
fn each_has_value(schemas: &Schemas, kinds: &[TypeName]) -> bool
    ensures { result ≡ list_all (λ t. values_exist (values_of_type schemas.now t)) kinds.now }
{
    for kind in kinds {
        if !has_value(schemas, kind) {
            return false;
        }
    }
    true
}

fn has_value_if_derived(schemas: &Schemas, kind: &TypeName, t: &TypeName) -> bool
    ensures { result ≡ list_all (λ u. values_exist (values_of_type schemas.now u)) (derived_among schemas.now kind.now (t.now ∷ [])) }
{
    !derives(schemas, t, kind) || has_value(schemas, t)
}

// Whether the nodes of one type have typed values.
fn has_value(schemas: &Schemas, kind: &TypeName) -> bool
    ensures { result ≡ values_exist (values_of_type schemas.now kind.now) }
{
    match kind {
        TypeName::Builtin(Builtin::AnyType) => false,
        TypeName::Builtin(_) => true,
        TypeName::Named(_) | TypeName::Anonymous(_) => declared_has_value(schemas, kind),
    }
}

fn declared_has_value(schemas: &Schemas, kind: &TypeName) -> bool
    ensures { result ≡ values_exist (values_declared schemas.now kind.now (declaration_of schemas.now kind.now)) }
{
    match schemas.declared(kind) {
        Some(declared) => content_has_value(schemas, kind, &declared.content),
        None => false,
    }
}

fn content_has_value(schemas: &Schemas, _kind: &TypeName, content: &Content) -> bool
    ensures { result ≡ values_exist (content_values schemas.now _kind.now content.now) }
{
    match content {
        Content::Complex { mixed, model } => *mixed || matches!(model.node, TyNode::Empty),
        Content::Atomic(_) | Content::List(_, _) | Content::Simple(_, _) => true,
    }
}

// The typed values of the nodes of one type.
fn value_type_of(alloc: Global, schemas: &Schemas, kind: &TypeName) -> Result<Ty, AllocError>
    ensures { IfOk result (λ t. t ≡ type_of_values schemas.now kind.now) }
{
    match kind {
        TypeName::Builtin(Builtin::AnyType) => Ok(Ty::empty()),
        TypeName::Builtin(Builtin::Untyped) => untyped_atomic_type(alloc),
        TypeName::Builtin(_) => simple_values(alloc, schemas, kind),
        TypeName::Named(_) | TypeName::Anonymous(_) => declared_value_type(alloc, schemas, kind),
    }
}

fn declared_value_type(alloc: Global, schemas: &Schemas, kind: &TypeName) -> Result<Ty, AllocError>
    ensures { IfOk result (λ t. t ≡ value_type (values_declared schemas.now kind.now (declaration_of schemas.now kind.now))) }
{
    match schemas.declared(kind) {
        Some(declared) => content_value_type(alloc, schemas, kind, &declared.content),
        None => Ok(Ty::empty()),
    }
}

fn content_value_type(
    alloc: Global,
    schemas: &Schemas,
    kind: &TypeName,
    content: &Content,
) -> Result<Ty, AllocError>
    ensures { IfOk result (λ t. t ≡ value_type (content_values schemas.now kind.now content.now)) }
{
    match content {
        Content::Atomic(_) => atomic_type(alloc, kind),
        Content::List(item, _) => list_type(alloc, item),
        Content::Simple(simple, _) => simple_values(alloc, schemas, simple),
        Content::Complex {
            mixed: true,
            model: _,
        } => untyped_atomic_type(alloc),
        Content::Complex {
            mixed: false,
            model: _,
        } => Ok(Ty::empty()),
    }
}

// The values of a simple type.
fn simple_values(alloc: Global, schemas: &Schemas, kind: &TypeName) -> Result<Ty, AllocError>
    ensures { IfOk result (λ t. t ≡ values_of_simple schemas.now kind.now) }
{
    match kind {
        TypeName::Builtin(Builtin::AnySimple) => {
            list_type(alloc, &TypeName::Builtin(Builtin::AnyAtomic))
        }
        TypeName::Builtin(_) => atomic_type(alloc, kind),
        TypeName::Named(_) | TypeName::Anonymous(_) => declared_values(alloc, schemas, kind),
    }
}

fn declared_values(alloc: Global, schemas: &Schemas, kind: &TypeName) -> Result<Ty, AllocError>
    ensures { IfOk result (λ t. t ≡ values_of_declared kind.now (declaration_of schemas.now kind.now)) }
{
    match schemas.declared(kind) {
        Some(declared) => values_by_content(alloc, kind, &declared.content),
        None => Ok(Ty::empty()),
    }
}

fn values_by_content(alloc: Global, kind: &TypeName, content: &Content) -> Result<Ty, AllocError>
    ensures { IfOk result (λ t. t ≡ values_of_content kind.now content.now) }
{
    match content {
        Content::Atomic(_) => atomic_type(alloc, kind),
        Content::List(item, _) => list_type(alloc, item),
        Content::Simple(_, _) | Content::Complex { mixed: _, model: _ } => Ok(Ty::empty()),
    }
}

// Any number of values of an atomic type.
fn list_type(alloc: Global, item: &TypeName) -> Result<Ty, AllocError>
    ensures { IfOk result (λ t. t ≡ list_of_items item.now) }
{
    let t = atomic_type(alloc, item)?;
    star(alloc, &t)
}

fn atomic_type(alloc: Global, kind: &TypeName) -> Result<Ty, AllocError>
    ensures { IfOk result (λ t. t ≡ atomic_item kind.now) }
{
    let kind = kind.clone()?;
    Ty::of_item(alloc, ItemType::Atom(kind))
}

fn untyped_atomic_type(alloc: Global) -> Result<Ty, AllocError>
    ensures { IfOk result (λ t. t ≡ untyped_type) }
{
    atomic_type(alloc, &TypeName::Builtin(Builtin::UntypedAtomic))
}
