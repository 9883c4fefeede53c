// Nodes, axes and tests of rows.

use gx_base::name::Name;
use gx_base::text::Text;
use gx_base::type_name::TypeName;
use gx_model::node::Node;
use gx_model::path::Path;
use gx_types::step::{Axis, NameTest, Test};
use rows_words::names::{name, type_name};
use std::alloc::{AllocError, Global};

/// A node as the number of its tree, its positions behind `/` and that of an attribute behind `@`.
pub fn node_of(alloc: Global, word: &str) -> Result<Node, AllocError> {
    let (place, attribute) = match word.split_once('@') {
        Some((place, attribute)) => (place, Some(number(attribute))),
        None => (word, None),
    };
    let mut positions = Vec::new(alloc);
    for part in place.split('/') {
        positions.push(number(part))?;
    }
    let mut path = Vec::new(alloc);
    let mut tree = 0usize;
    for (index, position) in positions.iter().enumerate() {
        if index == 0 {
            tree = *position;
        } else {
            path.push(*position)?;
        }
    }
    Ok(Node {
        tree,
        path: Path::from_vec(alloc, path)?,
        attribute,
    })
}

/// Nodes with commas between them.
pub fn nodes_of(alloc: Global, word: &str) -> Result<Vec<Node>, AllocError> {
    let mut nodes = Vec::new(alloc);
    for part in word.split(',') {
        nodes.push(node_of(alloc, part)?)?;
    }
    Ok(nodes)
}

fn number(word: &str) -> usize {
    word.parse::<usize>().unwrap_or(0)
}

pub fn axis_of(word: &str) -> Option<Axis> {
    let axis = match word {
        "child" => Axis::Child,
        "descendant" => Axis::Descendant,
        "descendant-or-self" => Axis::DescendantOrSelf,
        "self" => Axis::SelfAxis,
        "attribute" => Axis::Attribute,
        "parent" => Axis::Parent,
        "ancestor" => Axis::Ancestor,
        "ancestor-or-self" => Axis::AncestorOrSelf,
        _ => return None,
    };
    Some(axis)
}

/// A test: `node`, `text`, `*`, `q`, `uri:u`, `local:l`, or `element`, `attribute` and `document` with a name and a type behind
/// colons, where `*` stands for any name.
pub fn test_of(alloc: Global, word: &str) -> Result<Test, AllocError> {
    match word.split_once(':') {
        None => simple_test(alloc, word),
        Some(("uri", uri)) => Ok(Test::Named(NameTest::Uri(Text::from_str(alloc, uri)?))),
        Some(("local", local)) => Ok(Test::Named(NameTest::Local(Text::from_str(alloc, local)?))),
        Some((kind, rest)) => {
            let (name, t) = rest.split_once(':').unwrap_or((rest, ""));
            let name = optional_name(alloc, name)?;
            let t = optional_type(alloc, t)?;
            match kind {
                "element" => Ok(Test::Element(name, t)),
                "attribute" => Ok(Test::Attribute(name, t)),
                _ => Ok(Test::Document(Some((name, t)))),
            }
        }
    }
}

fn simple_test(alloc: Global, word: &str) -> Result<Test, AllocError> {
    match word {
        "node" => Ok(Test::Node),
        "text" => Ok(Test::Text),
        "*" => Ok(Test::Named(NameTest::Any)),
        "element" => Ok(Test::Element(None, None)),
        "attribute" => Ok(Test::Attribute(None, None)),
        "document" => Ok(Test::Document(None)),
        _ => Ok(Test::Named(NameTest::Name(name(alloc, word)?))),
    }
}

fn optional_name(alloc: Global, word: &str) -> Result<Option<Name>, AllocError> {
    if word == "*" {
        Ok(None)
    } else {
        Ok(Some(name(alloc, word)?))
    }
}

fn optional_type(alloc: Global, word: &str) -> Result<Option<TypeName>, AllocError> {
    if word.is_empty() {
        Ok(None)
    } else {
        Ok(Some(type_name(alloc, word)?))
    }
}

/// Nodes, one behind another; `none` where there is none.
pub fn shown_nodes(alloc: Global, nodes: &[Node]) -> Result<String, AllocError> {
    let mut shown = String::new(alloc);
    for node in nodes {
        if !shown.is_empty() {
            shown.push(' ')?;
        }
        shown.push_str(shown_node(alloc, node)?.as_str())?;
    }
    if shown.is_empty() {
        shown.push_str("none")?;
    }
    Ok(shown)
}

fn shown_node(alloc: Global, node: &Node) -> Result<String, AllocError> {
    let mut shown = format!(in alloc; "{}", node.tree)?;
    for position in node.path.as_slice() {
        let part = format!(in alloc; "/{position}")?;
        shown.push_str(part.as_str())?;
    }
    if let Some(position) = node.attribute {
        let part = format!(in alloc; "@{position}")?;
        shown.push_str(part.as_str())?;
    }
    Ok(shown)
}
