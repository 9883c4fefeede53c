// Axes and the tests of steps.

ghost use Rattle.std.specs.Prelude.{◌≡◌, IfOk};

use crate::item_type::copy_of_name;
use gx_base::name::Name;
use gx_base::text::Text;
use gx_base::type_name::TypeName;
use std::alloc::AllocError;

/// An axis (XQuery 1.0, section 3.2.1.1).
#[derive(Clone, Copy, PartialEq, Eq, PartialOrd, Ord, Hash)]
pub enum Axis {
    Child,
    Descendant,
    DescendantOrSelf,
    SelfAxis,
    Attribute,
    Parent,
    Ancestor,
    AncestorOrSelf,
}

/// A test of a name: any, one name, the names of one URI, or the names with one local part (XQuery 1.0, section 3.2.1.2).
pub enum NameTest {
    Any,
    Name(Name),
    Uri(Text),
    Local(Text),
}

/// A node test (XQuery 1.0, sections 3.2.1.2 and 2.5.3). `Schema` and `DocumentSchema` name a declared element.
pub enum Test {
    Node,
    Text,
    Named(NameTest),
    Element(Option<Name>, Option<TypeName>),
    Attribute(Option<Name>, Option<TypeName>),
    Schema(Name),
    Document(Option<(Option<Name>, Option<TypeName>)>),
    DocumentSchema(Name),
}

impl Drop for NameTest {
    fn drop(self) {
        match self {
            NameTest::Any => {}
            NameTest::Name(_name) => {}
            NameTest::Uri(_uri) => {}
            NameTest::Local(_local) => {}
        }
    }
}

impl Clone for NameTest {
    ghost is_clone = { λ test copy. copy ≡ test };

    fn clone(&self) -> Result<NameTest, AllocError> {
        match self {
            NameTest::Any => Ok(NameTest::Any),
            NameTest::Name(name) => Ok(NameTest::Name(name.clone()?)),
            NameTest::Uri(uri) => Ok(NameTest::Uri(uri.clone()?)),
            NameTest::Local(local) => Ok(NameTest::Local(local.clone()?)),
        }
    }
}

impl Drop for Test {
    fn drop(self) {
        match self {
            Test::Node => {}
            Test::Text => {}
            Test::Named(_test) => {}
            Test::Element(_name, _kind) => {}
            Test::Attribute(_name, _kind) => {}
            Test::Schema(_name) => {}
            Test::Document(_element) => {}
            Test::DocumentSchema(_name) => {}
        }
    }
}

impl Clone for Test {
    ghost is_clone = { λ test copy. copy ≡ test };

    fn clone(&self) -> Result<Test, AllocError> {
        match self {
            Test::Node => Ok(Test::Node),
            Test::Text => Ok(Test::Text),
            Test::Named(test) => Ok(Test::Named(test.clone()?)),
            Test::Element(name, kind) => {
                let name = copy_of_name(name)?;
                Ok(Test::Element(name, copy_of_kind(kind)?))
            }
            Test::Attribute(name, kind) => {
                let name = copy_of_name(name)?;
                Ok(Test::Attribute(name, copy_of_kind(kind)?))
            }
            Test::Schema(name) => Ok(Test::Schema(name.clone()?)),
            Test::Document(None) => Ok(Test::Document(None)),
            Test::Document(Some((name, kind))) => {
                let name = copy_of_name(name)?;
                Ok(Test::Document(Some((name, copy_of_kind(kind)?))))
            }
            Test::DocumentSchema(name) => Ok(Test::DocumentSchema(name.clone()?)),
        }
    }
}

// A copy of an optional type name.
fn copy_of_kind(kind: &Option<TypeName>) -> Result<Option<TypeName>, AllocError>
    ensures { IfOk result (λ copy. copy ≡ kind.now) }
{
    match kind {
        Some(kind) => Ok(Some(kind.clone()?)),
        None => Ok(None),
    }
}
