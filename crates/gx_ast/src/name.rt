// Names and node tests as they are written.

ghost use Rattle.std.specs.Prelude.{◌≡◌};

use gx_base::place::Place;
use gx_base::text::Text;

/// A QName as it is written, at its first character (Namespaces in XML 1.0, section 4). The prefix is empty where there is
/// none.
#[derive(Debug)]
pub struct QName {
    pub place: Place,
    pub prefix: Text,
    pub local: Text,
}

impl Drop for QName {
    fn drop(self) {
        let QName {
            place: _place,
            prefix: _prefix,
            local: _local,
        } = self;
    }
}

impl QName {
    /// The local part.
    pub fn into_local(self) -> Text
        ensures { result ≡ self.local }
    {
        let QName {
            place: _place,
            prefix: _prefix,
            local,
        } = self;
        local
    }
}

/// A variable, at its `$`.
#[derive(Debug)]
pub struct Variable {
    pub place: Place,
    pub name: QName,
}

impl Drop for Variable {
    fn drop(self) {
        let Variable {
            place: _place,
            name: _name,
        } = self;
    }
}

/// An axis (XQuery 1.0, section 3.2.1.1).
#[derive(Clone, Copy, Debug, PartialEq, Eq)]
pub enum Axis {
    Child,
    Descendant,
    DescendantOrSelf,
    /// The axis `self`.
    Itself,
    Attribute,
    Parent,
    Ancestor,
    AncestorOrSelf,
}

/// A name test (XQuery 1.0, section 3.2.1.2).
#[derive(Debug)]
pub enum NameTest {
    /// A name.
    Named(QName),
    /// `*`.
    Any(Place),
    /// `p:*`, any name in the namespace of a prefix.
    AnyInNamespace(Place, Text),
    /// `*:l`, any name with that local part.
    AnyNamespace(Place, Text),
}

impl Drop for NameTest {
    fn drop(self) {
        match self {
            NameTest::Named(_name) => {}
            NameTest::Any(_place) => {}
            NameTest::AnyInNamespace(_place, _text) => {}
            NameTest::AnyNamespace(_place, _text) => {}
        }
    }
}
