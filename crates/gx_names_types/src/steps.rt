// Axis steps.

ghost use Rattle.std.specs.Prelude.{◌≡◌, [], IfOk, unwrap_or};
ghost use Rattle.gx_ast.specs.declared.sequence_type.NodeTest.TheVariants as node_tests;
ghost use Rattle.gx_names_scope.specs.Refused.{Judges};
ghost use Rattle.gx_names_scope.specs.Environment.{uri_of};
ghost use Rattle.gx_names_types.specs.Steps.{attribute_asked, axis_of_step, axis_of_test, axis_written, element_asked, kind_tested, kind_written, name_refusals, name_tested, node_name, step_refusals, step_tested};

use crate::type_names::{check_test, tested_type};
use gx_ast::name::{Axis as WrittenAxis, NameTest as WrittenName, QName};
use gx_ast::sequence_type::{AxisStep, KindTest, NodeTest, TestedName};
use gx_base::code::Code;
use gx_base::name::Name;
use gx_base::text::Text;
use gx_base::type_name::{Builtin, TypeName};
use gx_names_scope::names::{Names, or_nameless};
use gx_names_scope::refusal::{NameRefusal, refused};
use gx_types::step::{Axis, NameTest, Test};
use std::alloc::{AllocError, Global};

fn axis_written(axis: WrittenAxis) -> Axis
    ensures { result ≡ axis_written axis }
{
    match axis {
        WrittenAxis::Child => Axis::Child,
        WrittenAxis::Descendant => Axis::Descendant,
        WrittenAxis::DescendantOrSelf => Axis::DescendantOrSelf,
        WrittenAxis::Itself => Axis::SelfAxis,
        WrittenAxis::Attribute => Axis::Attribute,
        WrittenAxis::Parent => Axis::Parent,
        WrittenAxis::Ancestor => Axis::Ancestor,
        WrittenAxis::AncestorOrSelf => Axis::AncestorOrSelf,
    }
}

/// The axis of a step.
pub fn axis_of_step(step: &AxisStep) -> Axis
    ensures { result ≡ axis_of_step step.now }
{
    match step.axis {
        Some(axis) => axis_written(axis),
        None => axis_of_test(&step.test),
    }
}

// The axis of a test with no axis before it.
fn axis_of_test(test: &NodeTest) -> Axis
    ensures { result ≡ axis_of_test test.now }
{
    match test {
        NodeTest::Kind(test) => axis_of_kind(test.get()),
        NodeTest::Name(_) => Axis::Child,
    }
}

fn axis_of_kind(test: &KindTest) -> Axis
    ensures { result ≡ axis_of_test (node_tests.Kind test.now) }
{
    match test {
        KindTest::Attribute(_, _) => Axis::Attribute,
        _ => Axis::Child,
    }
}

/// Looks for what is refused of a step.
pub fn check_step(alloc: Global, names: &Names<'_>, step: &AxisStep) -> Result<(), NameRefusal>
    ensures { Judges result (step_refusals names.now step.now) }
{
    match &step.test {
        NodeTest::Kind(test) => check_test(alloc, names, test.get()),
        NodeTest::Name(test) => check_name(names, axis_of_step(step), test.get()),
    }
}

fn check_name(names: &Names<'_>, axis: Axis, test: &WrittenName) -> Result<(), NameRefusal>
    ensures { Judges result (name_refusals names.now axis test.now) }
{
    match test {
        WrittenName::Named(name) => match node_name(names, axis, name)? {
            Some(_) => Ok(()),
            None => Err(refused(name.place, Code::XPST0081)),
        },
        WrittenName::AnyInNamespace(place, prefix) => match names.prefix_uri(prefix) {
            Some(_) => Ok(()),
            None => Err(refused(*place, Code::XPST0081)),
        },
        WrittenName::Any(_) | WrittenName::AnyNamespace(_, _) => Ok(()),
    }
}

// A name is that of an attribute on the attribute axis, and else that of an element.
fn node_name(names: &Names<'_>, axis: Axis, name: &QName) -> Result<Option<Name>, AllocError>
    ensures { IfOk result (λ n. n ≡ node_name names.now axis name.now) }
{
    match axis {
        Axis::Attribute => names.plain_name(name),
        _ => names.element_name(name),
    }
}

/// The test of a step.
pub fn step_tested(alloc: Global, names: &Names<'_>, step: &AxisStep) -> Result<Test, AllocError>
    ensures { IfOk result (λ test. test ≡ step_tested names.now step.now) }
{
    match &step.test {
        NodeTest::Kind(test) => kind_tested(alloc, names, test.get()),
        NodeTest::Name(test) => {
            let test = name_tested(alloc, names, axis_of_step(step), test.get())?;
            Ok(Test::Named(test))
        }
    }
}

fn name_tested(
    alloc: Global,
    names: &Names<'_>,
    axis: Axis,
    test: &WrittenName,
) -> Result<NameTest, AllocError>
    ensures { IfOk result (λ tested. tested ≡ name_tested names.now axis test.now) }
{
    match test {
        WrittenName::Named(name) => {
            let name = or_nameless(alloc, node_name(names, axis, name)?)?;
            Ok(NameTest::Name(name))
        }
        WrittenName::Any(_) => Ok(NameTest::Any),
        WrittenName::AnyInNamespace(_, prefix) => Ok(NameTest::Uri(uri_or_empty(
            alloc, names, prefix,
        )?)),
        WrittenName::AnyNamespace(_, local) => Ok(NameTest::Local(local.clone()?)),
    }
}

fn uri_or_empty(alloc: Global, names: &Names<'_>, prefix: &Text) -> Result<Text, AllocError>
    ensures { IfOk result (λ uri. uri ≡ unwrap_or (uri_of names.now.namespaces [] prefix.now) []) }
{
    match names.prefix_uri(prefix) {
        Some(uri) => uri.clone(),
        None => Text::empty(alloc),
    }
}

fn kind_tested(alloc: Global, names: &Names<'_>, test: &KindTest) -> Result<Test, AllocError>
    ensures { IfOk result (λ tested. tested ≡ kind_tested names.now test.now) }
{
    match test {
        KindTest::Node(_) => Ok(Test::Node),
        KindTest::Text(_) => Ok(Test::Text),
        KindTest::Document(_) => Ok(Test::Document(None)),
        KindTest::DocumentOf(_, _, tested) => {
            let asked = element_asked(alloc, names, tested)?;
            Ok(Test::Document(Some(asked)))
        }
        KindTest::DocumentOfDeclared(_, _, name) => {
            let name = or_nameless(alloc, names.element_name(name)?)?;
            Ok(Test::DocumentSchema(name))
        }
        KindTest::Element(_, tested) => {
            let (name, kind) = element_asked(alloc, names, tested)?;
            Ok(Test::Element(name, kind))
        }
        KindTest::Attribute(_, tested) => {
            let (name, kind) = attribute_asked(alloc, names, tested)?;
            Ok(Test::Attribute(name, kind))
        }
        KindTest::Declared(_, name) => {
            let name = or_nameless(alloc, names.element_name(name)?)?;
            Ok(Test::Schema(name))
        }
    }
}

// What a test asks for: the name and the type, each where it is written.
type Asked = (Option<Name>, Option<TypeName>);

fn element_asked(
    alloc: Global,
    names: &Names<'_>,
    tested: &Option<TestedName>,
) -> Result<Asked, AllocError>
    ensures { IfOk result (λ asked. asked ≡ element_asked names.now tested.now) }
{
    let Some(tested) = tested else {
        return Ok((None, None));
    };
    let kind = kind_written(alloc, names, Builtin::AnyType, &tested.kind)?;
    let name = match &tested.name {
        Some(name) => Some(or_nameless(alloc, names.element_name(name)?)?),
        None => None,
    };
    Ok((name, kind))
}

fn attribute_asked(
    alloc: Global,
    names: &Names<'_>,
    tested: &Option<TestedName>,
) -> Result<Asked, AllocError>
    ensures { IfOk result (λ asked. asked ≡ attribute_asked names.now tested.now) }
{
    let Some(tested) = tested else {
        return Ok((None, None));
    };
    let kind = kind_written(alloc, names, Builtin::AnySimple, &tested.kind)?;
    let name = match &tested.name {
        Some(name) => Some(or_nameless(alloc, names.plain_name(name)?)?),
        None => None,
    };
    Ok((name, kind))
}

fn kind_written(
    alloc: Global,
    names: &Names<'_>,
    any: Builtin,
    kind: &Option<QName>,
) -> Result<Option<TypeName>, AllocError>
    ensures { IfOk result (λ written. written ≡ kind_written names.now any kind.now) }
{
    match kind {
        Some(_) => Ok(Some(tested_type(alloc, names, any, kind)?)),
        None => Ok(None),
    }
}
