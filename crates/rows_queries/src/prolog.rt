// The text of a query: its version declaration and its declarations, each behind its place and in front of a `;`, and its
// body.

use crate::show::{show, show_named, show_place, show_word};
use gx_ast::query::{
    Definition, DefinitionNode, Initialiser, Parameter, Query, SchemaPrefix, Setting, SettingNode,
    Version,
};
use gx_base::text::Text;
use std::alloc::{AllocError, Global};

/// Shows a query.
pub fn show_query(alloc: Global, out: &mut String, query: &Query) -> Result<(), AllocError> {
    if let Some(version) = &query.version {
        show_version(out, version)?;
    }
    for setting in query.settings.as_slice() {
        show_setting(out, setting)?;
        out.push_str("; ")?;
    }
    for definition in query.definitions.as_slice() {
        show_definition(alloc, out, definition)?;
        out.push_str("; ")?;
    }
    show(alloc, out, &query.body)
}

fn show_version(out: &mut String, version: &Version) -> Result<(), AllocError> {
    show_place(out, &version.place)?;
    out.push_str("version")?;
    if let Some(encoding) = &version.encoding {
        show_text(out, encoding)?;
    }
    show_word(out, "; ")
}

fn show_text(out: &mut String, text: &Text) -> Result<(), AllocError> {
    write!(out, " {:?}", text.as_str())
}

fn show_setting(out: &mut String, setting: &Setting) -> Result<(), AllocError> {
    show_place(out, &setting.place)?;
    match &setting.node {
        SettingNode::Namespace(prefix, uri) => {
            out.push_str("namespace ")?;
            show_place(out, &prefix.place)?;
            out.push_str(prefix.name.as_str())?;
            show_text(out, uri)
        }
        SettingNode::DefaultElementNamespace(uri) => {
            out.push_str("default element namespace")?;
            show_text(out, uri)
        }
        SettingNode::BoundarySpace(preserved) => write!(out, "boundary-space {preserved:?}"),
        SettingNode::Construction => show_word(out, "construction"),
        SettingNode::Ordering => show_word(out, "ordering"),
        SettingNode::EmptyOrder(order) => write!(out, "empty {order:?}"),
        SettingNode::CopyNamespaces => show_word(out, "copy-namespaces"),
        SettingNode::Schema(prefix, uri, locations) => {
            show_schema(out, prefix, uri, locations.as_slice())
        }
    }
}

fn show_schema(
    out: &mut String,
    prefix: &SchemaPrefix,
    uri: &Text,
    locations: &[Text],
) -> Result<(), AllocError> {
    out.push_str("schema ")?;
    match prefix {
        SchemaPrefix::Unnamed => {}
        SchemaPrefix::Named(prefix) => {
            show_place(out, &prefix.place)?;
            out.push_str(prefix.name.as_str())?;
        }
        SchemaPrefix::Default => out.push_str("default")?,
    }
    show_text(out, uri)?;
    for location in locations {
        show_text(out, location)?;
    }
    Ok(())
}

fn show_definition(
    alloc: Global,
    out: &mut String,
    definition: &Definition,
) -> Result<(), AllocError> {
    show_place(out, &definition.place)?;
    match &definition.node {
        DefinitionNode::Variable(variable, kind, value) => {
            out.push_str("variable ")?;
            show_place(out, &variable.place)?;
            show_named(out, "$", &variable.name)?;
            write!(out, "{kind:?} ")?;
            show_initialiser(alloc, out, value)
        }
        DefinitionNode::Function(name, parameters, kind, body) => {
            show_named(out, "function ", name)?;
            for parameter in parameters.as_slice() {
                show_parameter(out, parameter)?;
            }
            write!(out, "{kind:?} ")?;
            show(alloc, out, body)
        }
    }
}

fn show_parameter(out: &mut String, parameter: &Parameter) -> Result<(), AllocError> {
    show_place(out, &parameter.variable.place)?;
    show_named(out, "$", &parameter.variable.name)?;
    let kind = &parameter.kind;
    write!(out, "{kind:?} ")
}

fn show_initialiser(
    alloc: Global,
    out: &mut String,
    value: &Initialiser,
) -> Result<(), AllocError> {
    match value {
        Initialiser::External => show_word(out, "external"),
        Initialiser::Value(value) => show(alloc, out, value),
    }
}
