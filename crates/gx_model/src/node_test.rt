// Node tests.

ghost use Rattle.std.specs.Prelude.{◌≡◌};
ghost use Rattle.std.specs.Option.{option_map};
ghost use Rattle.gx_types.specs.declared.shape.Shape.TheVariants as shapes;
ghost use Rattle.gx_types.specs.SchemaSet.{global_type};
ghost use Rattle.gx_tree.specs.PlainTree.{trees_of};
ghost use Rattle.gx_model.specs.Belongs.{shape_of, only_element};
ghost use Rattle.gx_model.specs.Axes.{is_attribute_axis as attribute_axis};
ghost use Rattle.gx_model.specs.NodeTest.{asked, meets, passes_name as name_passes, passes_type, type_test, declared_type_test, one_or_any};

use gx_base::name::Name;
use gx_base::type_name::TypeName;
use gx_tree::tree::{Tree, TreeNode};
use gx_types::derivation::derives;
use gx_types::schemas::Schemas;
use gx_types::step::{Axis, NameTest, Test};

/// Whether an axis is that of attributes.
pub fn is_attribute_axis(axis: Axis) -> bool
    ensures { result ≡ attribute_axis axis }
{
    matches!(axis, Axis::Attribute)
}

// Whether a node passes a test, where a name is an attribute's on the attribute axis alone.
pub(crate) fn passes_test(schemas: &Schemas, attributes: bool, test: &Test, tree: &Tree) -> bool
    ensures { result ≡ meets schemas.now (asked schemas.now attributes test.now) (shape_of tree.now) }
{
    match &tree.node {
        TreeNode::Document(children) => {
            passes_document(schemas, attributes, test, element_of(children))
        }
        TreeNode::Element {
            name,
            kind,
            attributes: _,
            children: _,
        } => passes_element(schemas, attributes, test, name, kind),
        TreeNode::Attribute(attribute) => passes_attribute(
            schemas,
            attributes,
            test,
            &attribute.name,
            &attribute.kind,
        ),
        TreeNode::Text(_) => passes_text(schemas, attributes, test),
    }
}

/// Whether an attribute of this name and type passes a test.
pub fn passes_attribute(
    schemas: &Schemas,
    attributes: bool,
    test: &Test,
    name: &Name,
    kind: &TypeName,
) -> bool
    ensures { result ≡ meets schemas.now (asked schemas.now attributes test.now) (shapes.Attr name.now kind.now) }
{
    match test {
        Test::Node => true,
        Test::Named(wanted) => attributes && passes_name(wanted, name),
        Test::Attribute(wanted, t) => has_name(wanted, name) && has_type(schemas, t, kind),
        _ => false,
    }
}

/// Whether an element of this name and type passes a test.
pub fn passes_element(
    schemas: &Schemas,
    attributes: bool,
    test: &Test,
    name: &Name,
    kind: &TypeName,
) -> bool
    ensures { result ≡ meets schemas.now (asked schemas.now attributes test.now) (shapes.Elem name.now kind.now) }
{
    match test {
        Test::Node => true,
        Test::Named(wanted) => !attributes && passes_name(wanted, name),
        Test::Element(wanted, t) => has_name(wanted, name) && has_type(schemas, t, kind),
        Test::Schema(wanted) => wanted == name && has_declared_type(schemas, wanted, kind),
        _ => false,
    }
}

/// Whether a document passes a test, where its one child may be an element of a name and a type.
pub fn passes_document(
    schemas: &Schemas,
    attributes: bool,
    test: &Test,
    child: Option<(&Name, &TypeName)>,
) -> bool
    ensures { result ≡ meets schemas.now (asked schemas.now attributes test.now) (shapes.Doc (option_map (λ e. (e.0.now, e.1.now)) child.entry)) }
{
    match (test, child) {
        (Test::Node | Test::Document(None), _) => true,
        (Test::Document(Some((wanted, t))), Some((name, kind))) => {
            has_name(wanted, name) && has_type(schemas, t, kind)
        }
        (Test::DocumentSchema(wanted), Some((name, kind))) => {
            wanted == name && has_declared_type(schemas, wanted, kind)
        }
        _ => false,
    }
}

/// Whether a text passes a test.
pub fn passes_text(schemas: &Schemas, attributes: bool, test: &Test) -> bool
    ensures { result ≡ meets schemas.now (asked schemas.now attributes test.now) shapes.Text }
{
    matches!(test, Test::Node | Test::Text)
}

// The one child, with its name and type, where that is an element.
fn element_of(children: &Vec<Tree>) -> Option<(&Name, &TypeName)>
    ensures { option_map (λ e. (e.0.now, e.1.now)) result ≡ only_element (trees_of children.now.items) }
{
    if children.len() != 1 {
        return None;
    }
    match &children[0].node {
        TreeNode::Element {
            name,
            kind,
            attributes: _,
            children: _,
        } => Some((name, kind)),
        _ => None,
    }
}

/// Whether a name passes a test (XQuery 1.0, section 3.2.1.2).
pub fn passes_name(test: &NameTest, name: &Name) -> bool
    ensures { result ≡ name_passes test.now name.now }
{
    match test {
        NameTest::Any => true,
        NameTest::Name(wanted) => wanted == name,
        NameTest::Uri(uri) => *uri == name.uri,
        NameTest::Local(local) => *local == name.local,
    }
}

fn has_name(wanted: &Option<Name>, name: &Name) -> bool
    ensures { result ≡ name_passes (one_or_any wanted.now) name.now }
{
    match wanted {
        Some(wanted) => wanted == name,
        None => true,
    }
}

fn has_type(schemas: &Schemas, wanted: &Option<TypeName>, kind: &TypeName) -> bool
    ensures { result ≡ passes_type schemas.now (type_test wanted.now) kind.now }
{
    match wanted {
        Some(wanted) => derives(schemas, kind, wanted),
        None => true,
    }
}

// Whether a type is derived from that of a declared element.
fn has_declared_type(schemas: &Schemas, element: &Name, kind: &TypeName) -> bool
    ensures { result ≡ passes_type schemas.now (declared_type_test (global_type schemas.now element.now)) kind.now }
{
    match schemas.global(element) {
        Some(wanted) => derives(schemas, kind, wanted),
        None => false,
    }
}
