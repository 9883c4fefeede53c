// Types as they are written, with their names resolved.

ghost use Rattle.std.specs.Prelude.{◌≡◌, IfOk};
ghost use Rattle.gx_ast.specs.declared.sequence_type.ItemType.TheVariants as written;
ghost use Rattle.gx_names_scope.specs.Refused.{Judges};
ghost use Rattle.gx_names_scope.specs.Environment.{or_nameless};
ghost use Rattle.gx_names_types.specs.TypeNames.{atomic_named, attribute_item, attribute_test_refusals, attribute_tested, declared_refusals, document_item, element_declared, element_item, element_test_refusals, element_tested, item_refusals, item_type_of, kind_refusals, target_refusals, test_refusals, test_type, tested_attribute_refusals, tested_element_refusals, tested_type, type_refusals, type_written, indicated_type, written_type_refusals};

use gx_ast::name::QName;
use gx_ast::sequence_type::{Indicator, ItemType, KindTest, SequenceType, TestedName};
use gx_base::code::Code;
use gx_base::name::Name;
use gx_base::place::Place;
use gx_base::text::Text;
use gx_base::type_name::{Builtin, TypeName};
use gx_names_scope::names::{Names, or_nameless};
use gx_names_scope::refusal::{NameRefusal, refused};
use gx_types::item_type;
use gx_types::sequence_type::Ty;
use gx_types::type_rules::{optional, plus, star};
use gx_typetext::known::{any_item, any_node, atomic_with_name, type_with_name};
use std::alloc::{AllocError, Global};

/// Looks for what is refused of a type, if one is written.
pub fn check_written_type(
    alloc: Global,
    names: &Names<'_>,
    kind: &Option<SequenceType>,
) -> Result<(), NameRefusal>
    ensures { Judges result (written_type_refusals names.now kind.now) }
{
    match kind {
        None => Ok(()),
        Some(kind) => check_type(alloc, names, kind),
    }
}

/// Looks for what is refused of a type.
pub fn check_type(alloc: Global, names: &Names<'_>, kind: &SequenceType) -> Result<(), NameRefusal>
    ensures { Judges result (type_refusals names.now kind.now) }
{
    match kind {
        SequenceType::Empty(_) => Ok(()),
        SequenceType::Items(kind, _) => check_item(alloc, names, kind),
    }
}

/// The type that is written, where nothing in it is refused.
pub fn type_checked(
    alloc: Global,
    names: &Names<'_>,
    kind: &SequenceType,
) -> Result<Ty, NameRefusal>
    ensures refusals { Judges result (type_refusals names.now kind.now) }
    ensures kind { IfOk result (λ t. t ≡ type_written names.now kind.now) }
{
    check_type(alloc, names, kind)?;
    Ok(type_written(alloc, names, kind)?)
}

fn check_item(alloc: Global, names: &Names<'_>, kind: &ItemType) -> Result<(), NameRefusal>
    ensures { Judges result (item_refusals names.now kind.now) }
{
    match kind {
        ItemType::Item(_) => Ok(()),
        ItemType::Kind(test) => check_test(alloc, names, test),
        ItemType::Atomic(name) => check_atomic(alloc, names, name),
    }
}

fn check_atomic(alloc: Global, names: &Names<'_>, name: &QName) -> Result<(), NameRefusal>
    ensures { Judges result (item_refusals names.now (written.Atomic name.now)) }
{
    let Some(expanded) = names.element_name(name)? else {
        return Err(refused(name.place, Code::XPST0081));
    };
    match atomic_with_name(alloc, names.schemas(), &expanded)? {
        Some(_) => Ok(()),
        None => Err(refused(name.place, Code::XPST0051)),
    }
}

/// Looks for what is refused of a kind test.
pub fn check_test(alloc: Global, names: &Names<'_>, test: &KindTest) -> Result<(), NameRefusal>
    ensures { Judges result (test_refusals names.now test.now) }
{
    match test {
        KindTest::Node(_) | KindTest::Text(_) | KindTest::Document(_) => Ok(()),
        KindTest::DocumentOf(_, _, tested) | KindTest::Element(_, tested) => {
            check_element_test(alloc, names, tested)
        }
        KindTest::Attribute(_, tested) => check_attribute_test(alloc, names, tested),
        KindTest::DocumentOfDeclared(_, _, name) | KindTest::Declared(_, name) => {
            check_declared(names, name)
        }
    }
}

fn check_element_test(
    alloc: Global,
    names: &Names<'_>,
    tested: &Option<TestedName>,
) -> Result<(), NameRefusal>
    ensures { Judges result (element_test_refusals names.now tested.now) }
{
    let Some(tested) = tested else {
        return Ok(());
    };
    check_element_name(names, &tested.name)?;
    check_kind(alloc, names, &tested.kind)
}

fn check_attribute_test(
    alloc: Global,
    names: &Names<'_>,
    tested: &Option<TestedName>,
) -> Result<(), NameRefusal>
    ensures { Judges result (attribute_test_refusals names.now tested.now) }
{
    let Some(tested) = tested else {
        return Ok(());
    };
    check_attribute_name(names, &tested.name)?;
    check_kind(alloc, names, &tested.kind)
}

fn check_element_name(names: &Names<'_>, name: &Option<QName>) -> Result<(), NameRefusal>
    ensures { Judges result (tested_element_refusals names.now name.now) }
{
    let Some(name) = name else {
        return Ok(());
    };
    match names.element_name(name)? {
        Some(_) => Ok(()),
        None => Err(refused(name.place, Code::XPST0081)),
    }
}

fn check_attribute_name(names: &Names<'_>, name: &Option<QName>) -> Result<(), NameRefusal>
    ensures { Judges result (tested_attribute_refusals names.now name.now) }
{
    let Some(name) = name else {
        return Ok(());
    };
    match names.plain_name(name)? {
        Some(_) => Ok(()),
        None => Err(refused(name.place, Code::XPST0081)),
    }
}

// The type behind the comma of a test.
fn check_kind(alloc: Global, names: &Names<'_>, kind: &Option<QName>) -> Result<(), NameRefusal>
    ensures { Judges result (kind_refusals names.now kind.now) }
{
    let Some(kind) = kind else {
        return Ok(());
    };
    let Some(expanded) = names.element_name(kind)? else {
        return Err(refused(kind.place, Code::XPST0081));
    };
    match type_with_name(alloc, names.schemas(), &expanded)? {
        Some(_) => Ok(()),
        None => Err(refused(kind.place, Code::XPST0008)),
    }
}

// The name of a global element.
fn check_declared(names: &Names<'_>, name: &QName) -> Result<(), NameRefusal>
    ensures { Judges result (declared_refusals names.now name.now) }
{
    let Some(expanded) = names.element_name(name)? else {
        return Err(refused(name.place, Code::XPST0081));
    };
    match names.schemas().global(&expanded) {
        Some(_) => Ok(()),
        None => Err(refused(name.place, Code::XPST0008)),
    }
}

/// Looks for what is refused of the type of a cast.
pub fn check_target(alloc: Global, names: &Names<'_>, target: &QName) -> Result<(), NameRefusal>
    ensures { Judges result (target_refusals names.now target.now) }
{
    let Some(expanded) = names.element_name(target)? else {
        return Err(refused(target.place, Code::XPST0081));
    };
    let atomic = atomic_with_name(alloc, names.schemas(), &expanded)?;
    match &atomic {
        Some(TypeName::Builtin(Builtin::AnyAtomic)) => Err(refused(target.place, Code::XPST0080)),
        Some(_) => Ok(()),
        None => Err(refused(target.place, Code::XPST0051)),
    }
}

/// The atomic type of a name.
pub fn atomic_named(alloc: Global, names: &Names<'_>, name: &QName) -> Result<TypeName, AllocError>
    ensures { IfOk result (λ t. t ≡ atomic_named names.now name.now) }
{
    let name = or_nameless(alloc, names.element_name(name)?)?;
    match atomic_with_name(alloc, names.schemas(), &name)? {
        Some(kind) => Ok(kind),
        None => Ok(TypeName::Builtin(Builtin::AnyAtomic)),
    }
}

/// The type that is written.
pub fn type_written(alloc: Global, names: &Names<'_>, kind: &SequenceType) -> Result<Ty, AllocError>
    ensures { IfOk result (λ t. t ≡ type_written names.now kind.now) }
{
    match kind {
        SequenceType::Empty(_) => Ok(Ty::empty()),
        SequenceType::Items(item, indicator) => {
            let item = item_type_of(alloc, names, item)?;
            indicated_type(alloc, *indicator, item)
        }
    }
}

fn indicated_type(alloc: Global, indicator: Indicator, item: Ty) -> Result<Ty, AllocError>
    ensures { IfOk result (λ t. t ≡ indicated_type indicator item) }
{
    match indicator {
        Indicator::Once => Ok(item),
        Indicator::Optional => optional(alloc, &item),
        Indicator::Star => star(alloc, &item),
        Indicator::Plus => plus(alloc, &item),
    }
}

fn item_type_of(alloc: Global, names: &Names<'_>, kind: &ItemType) -> Result<Ty, AllocError>
    ensures { IfOk result (λ t. t ≡ item_type_of names.now kind.now) }
{
    match kind {
        ItemType::Item(_) => any_item(alloc),
        ItemType::Kind(test) => test_type(alloc, names, test),
        ItemType::Atomic(name) => {
            let kind = atomic_named(alloc, names, name)?;
            Ty::of_item(alloc, item_type::ItemType::Atom(kind))
        }
    }
}

fn test_type(alloc: Global, names: &Names<'_>, test: &KindTest) -> Result<Ty, AllocError>
    ensures { IfOk result (λ t. t ≡ test_type names.now test.now) }
{
    match test {
        KindTest::Node(_) => any_node(alloc),
        KindTest::Text(_) => Ty::of_item(alloc, item_type::ItemType::Text),
        KindTest::Document(_) => Ty::of_item(alloc, item_type::ItemType::Document(None)),
        KindTest::DocumentOf(_, _, tested) => {
            document_item(alloc, element_tested(alloc, names, tested)?)
        }
        KindTest::DocumentOfDeclared(_, _, name) => {
            document_item(alloc, element_declared(alloc, names, name)?)
        }
        KindTest::Element(_, tested) => element_item(alloc, element_tested(alloc, names, tested)?),
        KindTest::Attribute(_, tested) => {
            attribute_item(alloc, attribute_tested(alloc, names, tested)?)
        }
        KindTest::Declared(_, name) => element_item(alloc, element_declared(alloc, names, name)?),
    }
}

/// What a test asks for: the name, if it is written, and the type.
pub type Tested = (Option<Name>, TypeName);

fn element_item(alloc: Global, tested: Tested) -> Result<Ty, AllocError>
    ensures { IfOk result (λ t. t ≡ element_item tested) }
{
    let (name, kind) = tested;
    Ty::of_item(alloc, item_type::ItemType::Element { name, kind })
}

fn attribute_item(alloc: Global, tested: Tested) -> Result<Ty, AllocError>
    ensures { IfOk result (λ t. t ≡ attribute_item tested) }
{
    let (name, kind) = tested;
    Ty::of_item(alloc, item_type::ItemType::Attribute { name, kind })
}

fn document_item(alloc: Global, tested: Tested) -> Result<Ty, AllocError>
    ensures { IfOk result (λ t. t ≡ document_item tested) }
{
    let (name, kind) = tested;
    Ty::of_item(alloc, item_type::ItemType::Document(Some((name, kind))))
}

/// What a test of an element asks for.
pub fn element_tested(
    alloc: Global,
    names: &Names<'_>,
    tested: &Option<TestedName>,
) -> Result<Tested, AllocError>
    ensures { IfOk result (λ t. t ≡ element_tested names.now tested.now) }
{
    let Some(tested) = tested else {
        return Ok((None, TypeName::Builtin(Builtin::AnyType)));
    };
    let kind = tested_type(alloc, names, Builtin::AnyType, &tested.kind)?;
    let name = match &tested.name {
        Some(name) => Some(or_nameless(alloc, names.element_name(name)?)?),
        None => None,
    };
    Ok((name, kind))
}

fn attribute_tested(
    alloc: Global,
    names: &Names<'_>,
    tested: &Option<TestedName>,
) -> Result<Tested, AllocError>
    ensures { IfOk result (λ t. t ≡ attribute_tested names.now tested.now) }
{
    let Some(tested) = tested else {
        return Ok((None, TypeName::Builtin(Builtin::AnySimple)));
    };
    let kind = tested_type(alloc, names, Builtin::AnySimple, &tested.kind)?;
    let name = match &tested.name {
        Some(name) => Some(or_nameless(alloc, names.plain_name(name)?)?),
        None => None,
    };
    Ok((name, kind))
}

// The type in a test; where none is written the given one.
pub fn tested_type(
    alloc: Global,
    names: &Names<'_>,
    any: Builtin,
    kind: &Option<QName>,
) -> Result<TypeName, AllocError>
    ensures { IfOk result (λ t. t ≡ tested_type names.now any kind.now) }
{
    let Some(kind) = kind else {
        return Ok(TypeName::Builtin(any));
    };
    let name = or_nameless(alloc, names.element_name(kind)?)?;
    match type_with_name(alloc, names.schemas(), &name)? {
        Some(kind) => Ok(kind),
        None => Ok(TypeName::Builtin(any)),
    }
}

// The name and the type of a global element.
fn element_declared(alloc: Global, names: &Names<'_>, name: &QName) -> Result<Tested, AllocError>
    ensures { IfOk result (λ t. t ≡ element_declared names.now name.now) }
{
    let name = or_nameless(alloc, names.element_name(name)?)?;
    let kind = match names.schemas().global(&name) {
        Some(kind) => kind.clone()?,
        None => TypeName::Builtin(Builtin::AnyType),
    };
    Ok((Some(name), kind))
}
