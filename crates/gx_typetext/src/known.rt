// What the names and the operands of a type text stand for.

ghost use Rattle.std.specs.Prelude.{◌≡◌, ◌++◌, ◌∷◌, [], IfOk, OnOk, MatchResult, option_copied};
ghost use Rattle.std.specs.Option.{option_map};
ghost use Rattle.gx_types.specs.Choice.{choice_among};
ghost use Rattle.gx_types.specs.SequenceType.{item};
ghost use Rattle.gx_typetext.specs.declared.written.WrittenItem.TheVariants.{Atomic, Attribute, Declared, DocumentOf, DocumentOfDeclared, Element};
ghost use Rattle.gx_typetext.specs.KnownNames.{uri_of_space, expanded_name, builtin_of_name, builtin_with_name, declared_with_name, is_atomic_name, type_with_name, atomic_with_name, unless_known, unknown_kind, unknown_element, unknown_in_item, unknown_in_operand, tested_kind, element_kind, node_types, item_types, written_item_type, written_operand_type};
ghost use Rattle.gx_typetext.specs.NameText.{name_text};
ghost use Rattle.gx_typetext.specs.TypeReading.{IsUnknownName, ReadAs};

use crate::builtin_name::builtin_name;
use crate::item_text::{SCHEMA_NAMESPACE, write_name};
use crate::read::TypeRead;
use crate::words::is_word;
use crate::written::{Operand, Space, WrittenItem, WrittenName, WrittenTest};
use gx_base::name::{Name, SharedName};
use gx_base::text::Text;
use gx_base::text_builder::TextBuilder;
use gx_base::type_name::{Builtin, TypeName};
use gx_types::declaration::Content;
use gx_types::derivation::derives;
use gx_types::item_type::ItemType;
use gx_types::schemas::Schemas;
use gx_types::sequence_type::Ty;
use gx_types::type_rules::choose;
use std::alloc::{AllocError, Global};

const BUILTINS: [Builtin; 23] = [
    Builtin::AnyType,
    Builtin::Untyped,
    Builtin::AnySimple,
    Builtin::AnyAtomic,
    Builtin::UntypedAtomic,
    Builtin::Str,
    Builtin::NormalizedStr,
    Builtin::Token,
    Builtin::Boolean,
    Builtin::Decimal,
    Builtin::Integer,
    Builtin::NonPositive,
    Builtin::Negative,
    Builtin::Long,
    Builtin::Int,
    Builtin::Short,
    Builtin::Byte,
    Builtin::NonNegative,
    Builtin::UnsignedLong,
    Builtin::UnsignedInt,
    Builtin::UnsignedShort,
    Builtin::UnsignedByte,
    Builtin::Positive,
];

// The URI of the namespace that stands before a local part.
fn uri_of_space(alloc: Global, space: &Space) -> Result<Text, AllocError>
    ensures { IfOk result (λ uri. uri ≡ uri_of_space space.now) }
{
    match space {
        Space::Nowhere => Text::empty(alloc),
        Space::Schema => Text::from_str(alloc, SCHEMA_NAMESPACE),
        Space::Uri(uri) => uri.clone(),
    }
}

fn expanded_name(alloc: Global, name: &WrittenName) -> Result<Name, AllocError>
    ensures { IfOk result (λ expanded. expanded ≡ expanded_name name.now) }
{
    let uri = uri_of_space(alloc, &name.space)?;
    let prefix = Text::empty(alloc)?;
    let local = name.local.clone()?;
    Ok(Name { uri, prefix, local })
}

fn expanded_if_written(
    alloc: Global,
    name: &Option<WrittenName>,
) -> Result<Option<Name>, AllocError>
    ensures { IfOk result (λ expanded. expanded ≡ option_map expanded_name name.now) }
{
    match name {
        Some(name) => Ok(Some(expanded_name(alloc, name)?)),
        None => Ok(None),
    }
}

// The built-in type of a local name.
fn builtin_with_name(local: &Text) -> Option<Builtin>
    ensures { result ≡ builtin_with_name local.now }
{
    BUILTINS
        .iter()
        .copied()
        .find(|builtin| is_word(local, builtin_name(*builtin)))
}

fn declared_with_name(
    alloc: Global,
    schemas: &Schemas,
    name: &Name,
) -> Result<Option<TypeName>, AllocError>
    ensures { IfOk result (λ t. t ≡ declared_with_name schemas.now name.now) }
{
    let t = TypeName::Named(SharedName::new(alloc, name.clone()?)?);
    if schemas.declared(&t).is_some() {
        Ok(Some(t))
    } else {
        Ok(None)
    }
}

/// The type of a name: a built-in one, and else a declared one; None exactly where there is none.
pub fn type_with_name(
    alloc: Global,
    schemas: &Schemas,
    name: &Name,
) -> Result<Option<TypeName>, AllocError>
    ensures { IfOk result (λ t. t ≡ type_with_name schemas.now name.now) }
{
    match builtin_of_name(alloc, name)? {
        Some(builtin) => Ok(Some(TypeName::Builtin(builtin))),
        None => declared_with_name(alloc, schemas, name),
    }
}

// The built-in type of a name.
fn builtin_of_name(alloc: Global, name: &Name) -> Result<Option<Builtin>, AllocError>
    ensures { IfOk result (λ found. found ≡ builtin_of_name name.now) }
{
    if name.uri == Text::from_str(alloc, SCHEMA_NAMESPACE)? {
        Ok(builtin_with_name(&name.local))
    } else {
        Ok(None)
    }
}

// Whether a type is atomic.
fn is_atomic_name(schemas: &Schemas, t: &TypeName) -> bool
    ensures { result ≡ is_atomic_name schemas.now t.now }
{
    if let TypeName::Builtin(_) = t {
        return derives(schemas, t, &TypeName::Builtin(Builtin::AnyAtomic));
    }
    match schemas.declared(t) {
        Some(declared) => matches!(&declared.content, Content::Atomic(_)),
        None => false,
    }
}

/// The atomic type of a name; None exactly where there is none.
pub fn atomic_with_name(
    alloc: Global,
    schemas: &Schemas,
    name: &Name,
) -> Result<Option<TypeName>, AllocError>
    ensures { IfOk result (λ t. t ≡ atomic_with_name schemas.now name.now) }
{
    match type_with_name(alloc, schemas, name)? {
        Some(t) if is_atomic_name(schemas, &t) => Ok(Some(t)),
        _ => Ok(None),
    }
}

fn text_of_name(alloc: Global, name: &Name) -> Result<Text, AllocError>
    ensures { IfOk result (λ text. text ≡ name_text name.now) }
{
    let mut text = TextBuilder::new(alloc);
    write_name(alloc, &mut text, name)?;
    text.finish()
}

// The answer on a name that is unknown.
fn unknown(alloc: Global, name: &Name) -> TypeRead
    ensures { IsUnknownName result (Some name.now) }
{
    match text_of_name(alloc, name) {
        Ok(text) => TypeRead::UnknownName(text),
        Err(_) => TypeRead::Memory,
    }
}

// What was found for a name.
fn known(alloc: Global, found: Option<TypeName>, name: &Name) -> Result<TypeName, TypeRead>
    ensures { MatchResult result (λ t. found ≡ Some t) (λ e. IsUnknownName e (unless_known found name.now)) }
{
    match found {
        Some(t) => Ok(t),
        None => Err(unknown(alloc, name)),
    }
}

// The type of a test.
fn tested_kind(
    alloc: Global,
    schemas: &Schemas,
    any: Builtin,
    kind: &Option<WrittenName>,
) -> Result<TypeName, TypeRead>
    ensures { MatchResult result (λ t. (unknown_kind schemas.now kind.now ≡ None) × (t ≡ tested_kind schemas.now any kind.now)) (λ e. IsUnknownName e (unknown_kind schemas.now kind.now)) }
{
    let Some(kind) = kind else {
        return Ok(TypeName::Builtin(any));
    };
    let name = expanded_name(alloc, kind)?;
    let found = type_with_name(alloc, schemas, &name)?;
    known(alloc, found, &name)
}

// The name and the type of a test.
fn tested(
    alloc: Global,
    schemas: &Schemas,
    any: Builtin,
    test: &WrittenTest,
) -> Result<(Option<Name>, TypeName), TypeRead>
    ensures { MatchResult result (λ r. (unknown_kind schemas.now test.now.kind ≡ None) × (r ≡ (option_map expanded_name test.now.name, tested_kind schemas.now any test.now.kind))) (λ e. IsUnknownName e (unknown_kind schemas.now test.now.kind)) }
{
    let name = expanded_if_written(alloc, &test.name)?;
    let kind = tested_kind(alloc, schemas, any, &test.kind)?;
    Ok((name, kind))
}

fn copy_of_kind(kind: Option<&TypeName>) -> Result<Option<TypeName>, AllocError>
    ensures { IfOk result (λ copy. copy ≡ option_copied kind.entry) }
{
    match kind {
        Some(kind) => Ok(Some(kind.clone()?)),
        None => Ok(None),
    }
}

// The name and the type of a global element.
fn global_element(
    alloc: Global,
    schemas: &Schemas,
    name: &WrittenName,
) -> Result<(Name, TypeName), TypeRead>
    ensures { MatchResult result (λ r. (unknown_element schemas.now name.now ≡ None) × (r ≡ (expanded_name name.now, element_kind schemas.now name.now))) (λ e. IsUnknownName e (unknown_element schemas.now name.now)) }
{
    let name = expanded_name(alloc, name)?;
    let found = copy_of_kind(schemas.global(&name))?;
    let kind = known(alloc, found, &name)?;
    Ok((name, kind))
}

fn add_item(alloc: Global, types: &mut Vec<Ty>, kind: ItemType) -> Result<(), AllocError>
    ensures { OnOk result (types.new.items ≡ types.old.items ++ item kind ∷ []) }
{
    types.push(Ty::of_item(alloc, kind)?)?;
    Ok(())
}

// The types of the kinds of nodes.
fn node_types(alloc: Global) -> Result<Vec<Ty>, AllocError>
    ensures { IfOk result (λ types. types.items ≡ node_types) }
{
    let mut types = Vec::new(alloc);
    add_item(alloc, &mut types, ItemType::Document(None))?;
    let kind = TypeName::Builtin(Builtin::AnyType);
    add_item(alloc, &mut types, ItemType::Element { name: None, kind })?;
    let kind = TypeName::Builtin(Builtin::AnySimple);
    add_item(alloc, &mut types, ItemType::Attribute { name: None, kind })?;
    add_item(alloc, &mut types, ItemType::Text)?;
    Ok(types)
}

// The types of the kinds of nodes, and that of atomic values.
fn item_types(alloc: Global) -> Result<Vec<Ty>, AllocError>
    ensures { IfOk result (λ types. types.items ≡ item_types) }
{
    let mut types = node_types(alloc)?;
    let kind = TypeName::Builtin(Builtin::AnyAtomic);
    add_item(alloc, &mut types, ItemType::Atom(kind))?;
    Ok(types)
}

/// The type of `node()`, the choice of the kinds of nodes.
pub fn any_node(alloc: Global) -> Result<Ty, AllocError>
    ensures { IfOk result (λ t. t ≡ choice_among node_types) }
{
    let types = node_types(alloc)?;
    choose(alloc, types.as_slice())
}

/// The type of `item()`, the choice of the kinds of nodes and of all atomic values.
pub fn any_item(alloc: Global) -> Result<Ty, AllocError>
    ensures { IfOk result (λ t. t ≡ choice_among item_types) }
{
    let types = item_types(alloc)?;
    choose(alloc, types.as_slice())
}

fn document_of(alloc: Global, schemas: &Schemas, test: &WrittenTest) -> Result<Ty, TypeRead>
    ensures { ReadAs result (unknown_in_item schemas.now (DocumentOf test.now)) (written_item_type schemas.now (DocumentOf test.now)) }
{
    let tested = tested(alloc, schemas, Builtin::AnyType, test)?;
    Ok(Ty::of_item(alloc, ItemType::Document(Some(tested)))?)
}

fn document_of_declared(
    alloc: Global,
    schemas: &Schemas,
    name: &WrittenName,
) -> Result<Ty, TypeRead>
    ensures { ReadAs result (unknown_in_item schemas.now (DocumentOfDeclared name.now)) (written_item_type schemas.now (DocumentOfDeclared name.now)) }
{
    let (name, kind) = global_element(alloc, schemas, name)?;
    let child = (Some(name), kind);
    Ok(Ty::of_item(alloc, ItemType::Document(Some(child)))?)
}

fn element(alloc: Global, schemas: &Schemas, test: &WrittenTest) -> Result<Ty, TypeRead>
    ensures { ReadAs result (unknown_in_item schemas.now (Element test.now)) (written_item_type schemas.now (Element test.now)) }
{
    let (name, kind) = tested(alloc, schemas, Builtin::AnyType, test)?;
    Ok(Ty::of_item(alloc, ItemType::Element { name, kind })?)
}

fn attribute(alloc: Global, schemas: &Schemas, test: &WrittenTest) -> Result<Ty, TypeRead>
    ensures { ReadAs result (unknown_in_item schemas.now (Attribute test.now)) (written_item_type schemas.now (Attribute test.now)) }
{
    let (name, kind) = tested(alloc, schemas, Builtin::AnySimple, test)?;
    Ok(Ty::of_item(alloc, ItemType::Attribute { name, kind })?)
}

fn declared(alloc: Global, schemas: &Schemas, name: &WrittenName) -> Result<Ty, TypeRead>
    ensures { ReadAs result (unknown_in_item schemas.now (Declared name.now)) (written_item_type schemas.now (Declared name.now)) }
{
    let (name, kind) = global_element(alloc, schemas, name)?;
    let name = Some(name);
    Ok(Ty::of_item(alloc, ItemType::Element { name, kind })?)
}

fn atomic(alloc: Global, schemas: &Schemas, name: &WrittenName) -> Result<Ty, TypeRead>
    ensures { ReadAs result (unknown_in_item schemas.now (Atomic name.now)) (written_item_type schemas.now (Atomic name.now)) }
{
    let name = expanded_name(alloc, name)?;
    let found = atomic_with_name(alloc, schemas, &name)?;
    let kind = known(alloc, found, &name)?;
    Ok(Ty::of_item(alloc, ItemType::Atom(kind))?)
}

fn item_type(alloc: Global, schemas: &Schemas, written: &WrittenItem) -> Result<Ty, TypeRead>
    ensures { ReadAs result (unknown_in_item schemas.now written.now) (written_item_type schemas.now written.now) }
{
    match written {
        WrittenItem::AnyNode => Ok(any_node(alloc)?),
        WrittenItem::AnyItem => Ok(any_item(alloc)?),
        WrittenItem::Text => Ok(Ty::of_item(alloc, ItemType::Text)?),
        WrittenItem::Document => Ok(Ty::of_item(alloc, ItemType::Document(None))?),
        WrittenItem::DocumentOf(test) => document_of(alloc, schemas, test),
        WrittenItem::DocumentOfDeclared(name) => document_of_declared(alloc, schemas, name),
        WrittenItem::Element(test) => element(alloc, schemas, test),
        WrittenItem::Attribute(test) => attribute(alloc, schemas, test),
        WrittenItem::Declared(name) => declared(alloc, schemas, name),
        WrittenItem::Atomic(name) => atomic(alloc, schemas, name),
    }
}

/// The type of an operand, or the name in it that is unknown.
pub(crate) fn operand_type(
    alloc: Global,
    schemas: &Schemas,
    operand: &Operand,
) -> Result<Ty, TypeRead>
    ensures { ReadAs result (unknown_in_operand schemas.now operand.now) (written_operand_type schemas.now operand.now) }
{
    match operand {
        Operand::Never => Ok(Ty::none()),
        Operand::Empty => Ok(Ty::empty()),
        Operand::Item(written) => item_type(alloc, schemas, written),
    }
}
