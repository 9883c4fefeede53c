// What a test leaves of an item type.

ghost use Rattle.std.specs.Prelude.{◌≡◌, IfOk, Option, None, Some};
ghost use Rattle.gx_types.specs.declared.item_type.ItemType.TheVariants as items;
ghost use Rattle.gx_base.specs.declared.type_name.Builtin.TheVariants as builtins;
ghost use Rattle.gx_base.specs.declared.type_name.TypeName.TheVariants as types;
ghost use Rattle.gx_types.specs.SequenceType.{item as one_item};
ghost use Rattle.gx_steptype.specs.AskedView.{name_asked, type_asked, kind_asked};
ghost use Rattle.gx_steptype.specs.TestedType.{met_if as meeting_if, name_met as meeting_of_name, type_met as meeting_of_type, both_met as meeting_of_both, at_most_possibly as possible, narrowed_name as name_narrowed, narrowed_type as type_narrowed, where_met as type_where_met, item_with, optional_item, tested_item as item_tested};

use crate::asked::{Asked, AskedName, AskedType};
use crate::replace::Replacement;
use gx_base::name::Name;
use gx_base::type_name::{Builtin, TypeName};
use gx_model::node_test::passes_name;
use gx_types::derivation::derives;
use gx_types::item_type::ItemType;
use gx_types::schemas::Schemas;
use gx_types::sequence_type::Ty;
use gx_types::step::NameTest;
use gx_types::type_rules::optional;
use std::alloc::{AllocError, Global};

/// Whether the nodes of an item type meet a test: none does, each does, or some may.
#[derive(Clone, Copy, PartialEq, Eq)]
pub enum Meeting {
    Never,
    Always,
    Possibly,
}

/// What has a name and a type: an element, an attribute, or the one element of a document.
#[derive(Clone, Copy, PartialEq, Eq)]
pub enum Form {
    Element,
    Attribute,
    Document,
}

// A test in the place of each item type.
#[derive(Clone, Copy)]
pub(crate) struct Tested<'a> {
    pub schemas: &'a Schemas,
    pub asked: Asked<'a>,
}

impl Replacement for Tested<'_> {
    ghost use Rattle.gx_steptype.specs.AskedView.{kind_asked};
    ghost use Rattle.gx_steptype.specs.TestedType.{tested_item as item_tested};

    ghost gives = { λ t kind. item_tested t.schemas.now (kind_asked t.asked) kind };

    ghost fits = { λ t. Unit {0} };

    fn replace(&mut self, alloc: Global, item: &ItemType) -> Result<Ty, AllocError> {
        tested_type(alloc, self.schemas, self.asked, item)
    }
}

// What a test leaves of an item type.
pub(crate) fn tested_type(
    alloc: Global,
    schemas: &Schemas,
    asked: Asked<'_>,
    item: &ItemType,
) -> Result<Ty, AllocError>
    ensures { IfOk result (λ t. t ≡ item_tested schemas.now (kind_asked asked.entry) item.now) }
{
    match (asked, item) {
        (Asked::Node, ItemType::Atom(_)) => Ok(Ty::empty()),
        (Asked::Node, _) => whole(alloc, item),
        (Asked::Text, ItemType::Text) => whole(alloc, item),
        (Asked::Document, ItemType::Document(_)) => whole(alloc, item),
        (Asked::Element(wanted, test), ItemType::Element { name, kind }) => {
            let meeting = met(schemas, wanted, test, name, kind);
            where_met(
                alloc,
                schemas,
                meeting,
                item,
                Form::Element,
                wanted,
                test,
                name,
                kind,
            )
        }
        (Asked::Attribute(wanted, test), ItemType::Attribute { name, kind }) => {
            let meeting = met(schemas, wanted, test, name, kind);
            where_met(
                alloc,
                schemas,
                meeting,
                item,
                Form::Attribute,
                wanted,
                test,
                name,
                kind,
            )
        }
        (Asked::DocumentOf(wanted, test), ItemType::Document(Some((name, kind)))) => {
            let meeting = met(schemas, wanted, test, name, kind);
            where_met(
                alloc,
                schemas,
                meeting,
                item,
                Form::Document,
                wanted,
                test,
                name,
                kind,
            )
        }
        (Asked::DocumentOf(wanted, test), ItemType::Document(None)) => {
            any_document(alloc, schemas, item, wanted, test)
        }
        _ => Ok(Ty::empty()),
    }
}

// A document with any content may have one element.
fn any_document(
    alloc: Global,
    schemas: &Schemas,
    item: &ItemType,
    wanted: AskedName<'_>,
    test: AskedType<'_>,
) -> Result<Ty, AllocError>
    ensures { IfOk result (λ t. t ≡ type_where_met (possible (meeting_of_both (meeting_of_name (name_asked wanted.entry) None) (meeting_of_type schemas.now (type_asked test.entry) (types.Builtin builtins.AnyType)))) item.now (items.Document (Some (name_narrowed (name_asked wanted.entry) None, type_narrowed schemas.now (type_asked test.entry) (types.Builtin builtins.AnyType))))) }
{
    let any = TypeName::Builtin(Builtin::AnyType);
    let meeting = at_most_possibly(met(schemas, wanted, test, &None, &any));
    where_met(
        alloc,
        schemas,
        meeting,
        item,
        Form::Document,
        wanted,
        test,
        &None,
        &any,
    )
}

// The type of one item.
fn whole(alloc: Global, item: &ItemType) -> Result<Ty, AllocError>
    ensures { IfOk result (λ t. t ≡ one_item item.now) }
{
    Ty::of_item(alloc, item.clone()?)
}

// Nothing, the item, or the narrower item at most once.
fn where_met(
    alloc: Global,
    schemas: &Schemas,
    meeting: Meeting,
    item: &ItemType,
    form: Form,
    wanted: AskedName<'_>,
    test: AskedType<'_>,
    name: &Option<Name>,
    kind: &TypeName,
) -> Result<Ty, AllocError>
    ensures { IfOk result (λ t. t ≡ type_where_met meeting item.now (item_with form (name_narrowed (name_asked wanted.entry) name.now) (type_narrowed schemas.now (type_asked test.entry) kind.now))) }
{
    match meeting {
        Meeting::Never => Ok(Ty::empty()),
        Meeting::Always => whole(alloc, item),
        Meeting::Possibly => {
            let name = narrowed_name(wanted, name)?;
            let kind = narrowed_type(schemas, test, kind).clone()?;
            at_most_one(alloc, item_of_form(form, name, kind))
        }
    }
}

fn at_most_one(alloc: Global, item: ItemType) -> Result<Ty, AllocError>
    ensures { IfOk result (λ t. t ≡ optional_item item) }
{
    let t = Ty::of_item(alloc, item)?;
    optional(alloc, &t)
}

fn item_of_form(form: Form, name: Option<Name>, kind: TypeName) -> ItemType
    ensures { result ≡ item_with form name kind }
{
    match form {
        Form::Element => ItemType::Element { name, kind },
        Form::Attribute => ItemType::Attribute { name, kind },
        Form::Document => ItemType::Document(Some((name, kind))),
    }
}

fn met(
    schemas: &Schemas,
    wanted: AskedName<'_>,
    test: AskedType<'_>,
    name: &Option<Name>,
    kind: &TypeName,
) -> Meeting
    ensures { result ≡ meeting_of_both (meeting_of_name (name_asked wanted.entry) name.now) (meeting_of_type schemas.now (type_asked test.entry) kind.now) }
{
    both_met(name_met(wanted, name), type_met(schemas, test, kind))
}

fn both_met(names: Meeting, kinds: Meeting) -> Meeting
    ensures { result ≡ meeting_of_both names kinds }
{
    match (names, kinds) {
        (Meeting::Never, _) | (_, Meeting::Never) => Meeting::Never,
        (Meeting::Always, Meeting::Always) => Meeting::Always,
        _ => Meeting::Possibly,
    }
}

fn at_most_possibly(meeting: Meeting) -> Meeting
    ensures { result ≡ possible meeting }
{
    match meeting {
        Meeting::Never => Meeting::Never,
        Meeting::Always | Meeting::Possibly => Meeting::Possibly,
    }
}

fn name_met(wanted: AskedName<'_>, name: &Option<Name>) -> Meeting
    ensures { result ≡ meeting_of_name (name_asked wanted.entry) name.now }
{
    match (wanted, name) {
        (AskedName::Any, _) => Meeting::Always,
        (AskedName::One(wanted), Some(name)) => met_if(wanted == name),
        (AskedName::One(_), None) => Meeting::Possibly,
        (AskedName::Test(test), name) => name_test_met(test, name),
    }
}

fn name_test_met(test: &NameTest, name: &Option<Name>) -> Meeting
    ensures { result ≡ meeting_of_name test.now name.now }
{
    match (test, name) {
        (NameTest::Any, _) => Meeting::Always,
        (_, Some(name)) => met_if(passes_name(test, name)),
        (_, None) => Meeting::Possibly,
    }
}

fn met_if(passes: bool) -> Meeting
    ensures { result ≡ meeting_if passes }
{
    if passes {
        Meeting::Always
    } else {
        Meeting::Never
    }
}

fn type_met(schemas: &Schemas, test: AskedType<'_>, kind: &TypeName) -> Meeting
    ensures { result ≡ meeting_of_type schemas.now (type_asked test.entry) kind.now }
{
    match test {
        AskedType::Any => Meeting::Always,
        AskedType::DerivedFrom(wanted) => {
            if derives(schemas, kind, wanted) {
                Meeting::Always
            } else if derives(schemas, wanted, kind) {
                Meeting::Possibly
            } else {
                Meeting::Never
            }
        }
        AskedType::Undeclared => Meeting::Never,
    }
}

fn narrowed_name(wanted: AskedName<'_>, name: &Option<Name>) -> Result<Option<Name>, AllocError>
    ensures { IfOk result (λ narrow. narrow ≡ name_narrowed (name_asked wanted.entry) name.now) }
{
    match (wanted, name) {
        (_, Some(name)) => Ok(Some(name.clone()?)),
        (AskedName::One(wanted), None) | (AskedName::Test(NameTest::Name(wanted)), None) => {
            Ok(Some(wanted.clone()?))
        }
        _ => Ok(None),
    }
}

fn narrowed_type<'a>(schemas: &Schemas, test: AskedType<'a>, kind: &'a TypeName) -> &'a TypeName
    ensures { result.now ≡ type_narrowed schemas.now (type_asked test.entry) kind.now }
{
    match test {
        AskedType::DerivedFrom(wanted) if !derives(schemas, kind, wanted) => wanted,
        _ => kind,
    }
}
