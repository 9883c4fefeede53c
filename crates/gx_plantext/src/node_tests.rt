// The texts of node tests.

ghost use Rattle.std.specs.Prelude.{◌≡◌, ◌++◌, OnOk, codes};
ghost use Rattle.gx_plantext.specs.NodeTestText.{name_test_text, node_test_text, tested_text, kind_test_text};
ghost use Rattle.gx_typetext.specs.NameText.{name_text, braced};

use crate::values::{push_name, push_type_name};
use gx_base::name::Name;
use gx_base::text::Text;
use gx_base::text_builder::TextBuilder;
use gx_base::type_name::TypeName;
use gx_types::step::{NameTest, Test};
use std::alloc::{AllocError, Global};

// Adds a node test.
#[tactic(auto, using(std::proofs::Common::append_assoc))]
pub(crate) fn push_node_test(
    alloc: Global,
    text: &mut TextBuilder,
    test: &Test,
) -> Result<(), AllocError>
    ensures { OnOk result (text.new ≡ text.old ++ node_test_text test.now) }
{
    match test {
        Test::Node => text.push_str("node()"),
        Test::Text => text.push_str("text()"),
        Test::Named(test) => push_name_test(alloc, text, test),
        Test::Element(name, kind) => push_kind_test(alloc, text, "element(", name, kind),
        Test::Attribute(name, kind) => push_kind_test(alloc, text, "attribute(", name, kind),
        Test::Schema(name) => push_schema_test(alloc, text, name),
        Test::Document(None) => text.push_str("document-node()"),
        Test::Document(Some((name, kind))) => {
            text.push_str("document-node(")?;
            push_kind_test(alloc, text, "element(", name, kind)?;
            text.push_str(")")
        }
        Test::DocumentSchema(name) => {
            text.push_str("document-node(")?;
            push_schema_test(alloc, text, name)?;
            text.push_str(")")
        }
    }
}

#[tactic(auto, using(std::proofs::Common::append_assoc))]
fn push_name_test(alloc: Global, text: &mut TextBuilder, test: &NameTest) -> Result<(), AllocError>
    ensures { OnOk result (text.new ≡ text.old ++ name_test_text test.now) }
{
    match test {
        NameTest::Any => text.push_str("*"),
        NameTest::Name(name) => push_name(alloc, text, name),
        NameTest::Uri(uri) => {
            push_braced(text, uri)?;
            text.push_str("*")
        }
        NameTest::Local(local) => {
            text.push_str("*:")?;
            text.push_text(local)
        }
    }
}

// Adds a URI in braces.
#[tactic(auto, using(std::proofs::Common::append_assoc))]
fn push_braced(text: &mut TextBuilder, uri: &Text) -> Result<(), AllocError>
    ensures { OnOk result (text.new ≡ text.old ++ braced uri.now) }
{
    text.push_str("{")?;
    text.push_text(uri)?;
    text.push_str("}")
}

// Adds a test of elements or attributes, behind its name with its parenthesis.
#[tactic(auto, using(std::proofs::Common::append_assoc))]
fn push_kind_test(
    alloc: Global,
    text: &mut TextBuilder,
    opening: &str,
    name: &Option<Name>,
    kind: &Option<TypeName>,
) -> Result<(), AllocError>
    ensures { OnOk result (text.new ≡ text.old ++ kind_test_text opening.now (tested_text name.now kind.now)) }
{
    text.push_str(opening)?;
    push_tested(alloc, text, name, kind)?;
    text.push_str(")")
}

#[tactic(auto, using(std::proofs::Common::append_assoc))]
fn push_tested(
    alloc: Global,
    text: &mut TextBuilder,
    name: &Option<Name>,
    kind: &Option<TypeName>,
) -> Result<(), AllocError>
    ensures { OnOk result (text.new ≡ text.old ++ tested_text name.now kind.now) }
{
    match (name, kind) {
        (None, None) => Ok(()),
        (Some(name), None) => push_name(alloc, text, name),
        (None, Some(kind)) => {
            text.push_str("*, ")?;
            push_type_name(alloc, text, kind)
        }
        (Some(name), Some(kind)) => {
            push_name(alloc, text, name)?;
            text.push_str(", ")?;
            push_type_name(alloc, text, kind)
        }
    }
}

// Adds a test of a declared element.
#[tactic(auto, using(std::proofs::Common::append_assoc))]
fn push_schema_test(alloc: Global, text: &mut TextBuilder, name: &Name) -> Result<(), AllocError>
    ensures { OnOk result (text.new ≡ text.old ++ kind_test_text (codes "schema-element(") (name_text name.now)) }
{
    text.push_str("schema-element(")?;
    push_name(alloc, text, name)?;
    text.push_str(")")
}
