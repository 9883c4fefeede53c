// What a test asks, borrowed from it.

ghost use Rattle.std.specs.Prelude.{◌≡◌};
ghost use Rattle.gx_types.specs.SchemaSet.{global_type};
ghost use Rattle.gx_model.specs.NodeTest.{asked as kind_test, one_or_any, type_test, declared_type_test};
ghost use Rattle.gx_steptype.specs.AskedView.{name_asked, type_asked, kind_asked};

use gx_base::name::Name;
use gx_base::type_name::TypeName;
use gx_types::schemas::Schemas;
use gx_types::step::{NameTest, Test};

#[derive(Clone, Copy)]
pub(crate) enum AskedName<'a> {
    Any,
    One(&'a Name),
    Test(&'a NameTest),
}

#[derive(Clone, Copy)]
pub(crate) enum AskedType<'a> {
    Any,
    DerivedFrom(&'a TypeName),
    Undeclared,
}

#[derive(Clone, Copy)]
pub(crate) enum Asked<'a> {
    Node,
    Text,
    Element(AskedName<'a>, AskedType<'a>),
    Attribute(AskedName<'a>, AskedType<'a>),
    Document,
    DocumentOf(AskedName<'a>, AskedType<'a>),
}

// What a test asks, where a name is an attribute's on the attribute axis alone.
pub(crate) fn asked_by<'a>(schemas: &'a Schemas, attributes: bool, test: &'a Test) -> Asked<'a>
    ensures { kind_asked result ≡ kind_test schemas.now attributes test.now }
{
    match test {
        Test::Node => Asked::Node,
        Test::Text => Asked::Text,
        Test::Named(name) if attributes => Asked::Attribute(AskedName::Test(name), AskedType::Any),
        Test::Named(name) => Asked::Element(AskedName::Test(name), AskedType::Any),
        Test::Element(name, kind) => Asked::Element(one_name(name), one_type(kind)),
        Test::Attribute(name, kind) => Asked::Attribute(one_name(name), one_type(kind)),
        Test::Schema(name) => Asked::Element(AskedName::One(name), declared_type(schemas, name)),
        Test::Document(None) => Asked::Document,
        Test::Document(Some((name, kind))) => Asked::DocumentOf(one_name(name), one_type(kind)),
        Test::DocumentSchema(name) => {
            Asked::DocumentOf(AskedName::One(name), declared_type(schemas, name))
        }
    }
}

fn one_name(name: &Option<Name>) -> AskedName<'_>
    ensures { name_asked result ≡ one_or_any name.now }
{
    match name {
        Some(name) => AskedName::One(name),
        None => AskedName::Any,
    }
}

fn one_type(kind: &Option<TypeName>) -> AskedType<'_>
    ensures { type_asked result ≡ type_test kind.now }
{
    match kind {
        Some(kind) => AskedType::DerivedFrom(kind),
        None => AskedType::Any,
    }
}

// The type of a declared element.
fn declared_type<'a>(schemas: &'a Schemas, element: &Name) -> AskedType<'a>
    ensures { type_asked result ≡ declared_type_test (global_type schemas.now element.now) }
{
    match schemas.global(element) {
        Some(kind) => AskedType::DerivedFrom(kind),
        None => AskedType::Undeclared,
    }
}
