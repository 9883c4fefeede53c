// The types of steps to attributes.

ghost use Rattle.std.specs.Prelude.{◌≡◌, IfOk, None, Some};
ghost use Rattle.gx_types.specs.SequenceType.{item as one_item};
ghost use Rattle.gx_types.specs.SchemaSet.{declaration_of};
ghost use Rattle.gx_types.specs.declared.item_type.ItemType.TheVariants as items;
ghost use Rattle.gx_base.specs.declared.type_name.TypeName.TheVariants as types;
ghost use Rattle.gx_include_derivations.specs.Derivations.{derived_types as types_derived};
ghost use Rattle.gx_steptype.specs.AskedView.{kind_asked};
ghost use Rattle.gx_steptype.specs.KeptSteps.{IsTableOf};
ghost use Rattle.gx_steptype.specs.StepType.{use_type as type_of_use, uses_type as type_of_uses, declared_attributes as attributes_of_declared, attributes_of_type as attributes_of_kind, has_one_name as asks_one_name, any_attributes as type_of_any, attribute_content as content_of_attributes, attribute_type as type_of_attributes, attributes_behind};

use crate::asked::{Asked, AskedName};
use crate::derived::{OfType, over_types};
use crate::derived_types::DerivedTypes;
use crate::replace::replace;
use crate::tested::{Tested, tested_type};
use gx_base::type_name::{Builtin, TypeName};
use gx_types::declaration::AttributeUse;
use gx_types::item_type::ItemType;
use gx_types::schemas::Schemas;
use gx_types::sequence_type::Ty;
use gx_types::step::NameTest;
use gx_types::type_rules::{factor, join, optional, star};
use indexmap::IndexMap;
use std::alloc::{AllocError, Global};

// The attributes of the elements of each type.
#[derive(Clone, Copy)]
pub(crate) struct AttributesOf<'a> {
    pub schemas: &'a Schemas,
}

impl OfType for AttributesOf<'_> {
    ghost use Rattle.gx_steptype.specs.StepType.{attributes_of_type as attributes_of_kind};

    ghost of = { λ a kind. attributes_of_kind a.schemas.now kind };

    fn of_type(&self, alloc: Global, kind: &TypeName) -> Result<Ty, AllocError> {
        attributes_of(alloc, self.schemas, kind)
    }
}

// The attributes of a node of an item type that pass a test.
pub(crate) fn attribute_type(
    alloc: Global,
    derived: &mut DerivedTypes<'_>,
    asked: Asked<'_>,
    known: &mut IndexMap<TypeName, Ty>,
    item: &ItemType,
) -> Result<Ty, AllocError>
    requires { IsTableOf (content_of_attributes derived.old (kind_asked asked)) known.old }
    ensures same { derived.new ≡ derived.old }
    ensures kept { IsTableOf (content_of_attributes derived.old (kind_asked asked.entry)) known.new }
    ensures attributes { IfOk result (λ t. t ≡ type_of_attributes derived.old (kind_asked asked.entry) item.now) }
{
    match item {
        ItemType::Element { name: _, kind } => {
            element_attributes(alloc, derived, asked, known, kind)
        }
        _ => Ok(Ty::empty()),
    }
}

// The attributes of the elements of a type, found once for each type.
fn element_attributes(
    alloc: Global,
    derived: &mut DerivedTypes<'_>,
    asked: Asked<'_>,
    known: &mut IndexMap<TypeName, Ty>,
    kind: &TypeName,
) -> Result<Ty, AllocError>
    requires { IsTableOf (content_of_attributes derived.old (kind_asked asked)) known.old }
    ensures same { derived.new ≡ derived.old }
    ensures kept { IsTableOf (content_of_attributes derived.old (kind_asked asked.entry)) known.new }
    ensures attributes { IfOk result (λ t. t ≡ content_of_attributes derived.old (kind_asked asked.entry) kind.now) }
{
    let _types = derived.schemas().types();
    if let Some(t) = known.get(kind) {
        return t.clone();
    }
    let t = attribute_content(alloc, derived, asked, kind)?;
    known.insert(kind.clone()?, t.clone()?)?;
    Ok(t)
}

fn attribute_content(
    alloc: Global,
    derived: &mut DerivedTypes<'_>,
    asked: Asked<'_>,
    kind: &TypeName,
) -> Result<Ty, AllocError>
    ensures same { derived.new ≡ derived.old }
    ensures content { IfOk result (λ t. t ≡ content_of_attributes derived.old (kind_asked asked.entry) kind.now) }
{
    match kind {
        TypeName::Builtin(builtin) => builtin_attributes(alloc, derived, asked, *builtin),
        TypeName::Named(_) | TypeName::Anonymous(_) => {
            declared_attributes_of(alloc, derived, asked, kind)
        }
    }
}

// The attributes of the elements of a built-in type.
fn builtin_attributes(
    alloc: Global,
    derived: &mut DerivedTypes<'_>,
    asked: Asked<'_>,
    builtin: Builtin,
) -> Result<Ty, AllocError>
    ensures same { derived.new ≡ derived.old }
    ensures content { IfOk result (λ t. t ≡ content_of_attributes derived.old (kind_asked asked.entry) (types.Builtin builtin)) }
{
    let schemas = derived.schemas();
    match builtin {
        Builtin::AnyType => any_attributes(alloc, schemas, asked, Builtin::AnySimple),
        Builtin::Untyped => any_attributes(alloc, schemas, asked, Builtin::UntypedAtomic),
        _ => declared_attributes_of(alloc, derived, asked, &TypeName::Builtin(builtin)),
    }
}

// Of any number of attributes, at most one has the name.
fn any_attributes(
    alloc: Global,
    schemas: &Schemas,
    asked: Asked<'_>,
    kind: Builtin,
) -> Result<Ty, AllocError>
    ensures { IfOk result (λ t. t ≡ type_of_any schemas.now (kind_asked asked.entry) (items.Attribute None (types.Builtin kind))) }
{
    let item = ItemType::Attribute {
        name: None,
        kind: TypeName::Builtin(kind),
    };
    let tested = tested_type(alloc, schemas, asked, &item)?;
    if has_one_name(asked) {
        return Ok(tested);
    }
    let many = star(alloc, &tested)?;
    factor(alloc, &many)
}

// The attributes that declarations allow.
fn declared_attributes_of(
    alloc: Global,
    derived: &mut DerivedTypes<'_>,
    asked: Asked<'_>,
    kind: &TypeName,
) -> Result<Ty, AllocError>
    ensures same { derived.new ≡ derived.old }
    ensures content { IfOk result (λ t. t ≡ attributes_behind derived.old (kind_asked asked.entry) kind.now) }
{
    let schemas = derived.schemas();
    let types = derived.of(alloc, kind)?;
    attributes_over(alloc, schemas, asked, kind, types.as_slice())
}

// The same where the declared types that are derived from the type are at hand.
fn attributes_over(
    alloc: Global,
    schemas: &Schemas,
    asked: Asked<'_>,
    kind: &TypeName,
    derived: &[TypeName],
) -> Result<Ty, AllocError>
    requires { derived.now ≡ types_derived schemas.now kind.now }
    ensures { IfOk result (λ t. t ≡ attributes_behind schemas.now (kind_asked asked.entry) kind.now) }
{
    let all = over_types(alloc, schemas, &AttributesOf { schemas }, kind, derived)?;
    let tested = replace(alloc, &mut Tested { schemas, asked }, &all)?;
    if has_one_name(asked) {
        Ok(tested)
    } else {
        factor(alloc, &tested)
    }
}

fn has_one_name(asked: Asked<'_>) -> bool
    ensures { result ≡ asks_one_name (kind_asked asked.entry) }
{
    match asked {
        Asked::Attribute(AskedName::One(_), _) => true,
        Asked::Attribute(AskedName::Test(NameTest::Name(_)), _) => true,
        _ => false,
    }
}

fn attributes_of(alloc: Global, schemas: &Schemas, kind: &TypeName) -> Result<Ty, AllocError>
    ensures { IfOk result (λ t. t ≡ attributes_of_kind schemas.now kind.now) }
{
    match kind {
        TypeName::Builtin(_) => Ok(Ty::empty()),
        TypeName::Named(_) | TypeName::Anonymous(_) => declared_attributes(alloc, schemas, kind),
    }
}

fn declared_attributes(alloc: Global, schemas: &Schemas, kind: &TypeName) -> Result<Ty, AllocError>
    ensures { IfOk result (λ t. t ≡ attributes_of_declared (declaration_of schemas.now kind.now)) }
{
    match schemas.declared(kind) {
        Some(declared) => uses_type(alloc, declared.attributes.as_slice()),
        None => Ok(Ty::empty()),
    }
}

fn uses_type(alloc: Global, uses: &[AttributeUse]) -> Result<Ty, AllocError>
    ensures { IfOk result (λ t. t ≡ type_of_uses uses.now) }
{
    let mut t = Ty::empty();
    for attribute in uses {
        t = join(alloc, &t, &use_type(alloc, attribute)?)?;
    }
    Ok(t)
}

fn use_type(alloc: Global, attribute: &AttributeUse) -> Result<Ty, AllocError>
    ensures { IfOk result (λ t. t ≡ type_of_use attribute.now) }
{
    let t = attribute_of(alloc, attribute)?;
    if attribute.required {
        Ok(t)
    } else {
        optional(alloc, &t)
    }
}

fn attribute_of(alloc: Global, attribute: &AttributeUse) -> Result<Ty, AllocError>
    ensures { IfOk result (λ t. t ≡ one_item (items.Attribute (Some attribute.now.name) attribute.now.kind)) }
{
    let name = Some(attribute.name.clone()?);
    let kind = attribute.kind.clone()?;
    Ty::of_item(alloc, ItemType::Attribute { name, kind })
}
