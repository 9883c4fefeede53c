// The names of a query, resolved.

use gx_ast::query::Query;
use gx_base::name::Name;
use gx_names::resolve::resolve;
use gx_names_scope::refusal::NameRefusal;
use gx_resolved::tree::{Construct, ResolvedExpr};
use gx_types::schemas::Schemas;
use std::alloc::{AllocError, Global};

/// Shows the code and the place of the first refusal of a query where no schema is loaded, or that there is none and then the elements,
/// attributes, texts, calls, casts and context items of its body in their order.
pub fn show_resolution(alloc: Global, out: &mut String, query: &Query) -> Result<(), AllocError> {
    let schemas = Schemas::empty(alloc)?;
    match resolve(alloc, query, &schemas) {
        Err(refusal) => show_unresolved(out, refusal),
        Ok(resolved) => show_body(alloc, out, &resolved.body),
    }
}

fn show_unresolved(out: &mut String, refusal: NameRefusal) -> Result<(), AllocError> {
    match refusal {
        NameRefusal::Refused { code, place } => {
            let line = place.line;
            let column = place.column;
            write!(out, "{code:?} {line}:{column}")
        }
        NameRefusal::Memory => out.push_str("memory"),
    }
}

fn show_body(alloc: Global, out: &mut String, body: &ResolvedExpr) -> Result<(), AllocError> {
    out.push_str("resolved")?;
    show_constructs(alloc, out, body)
}

fn show_constructs(alloc: Global, out: &mut String, tree: &ResolvedExpr) -> Result<(), AllocError> {
    let mut left = Vec::new(alloc);
    left.push(tree)?;
    for _ in 0..u64::MAX {
        let Some(tree) = left.pop() else {
            return Ok(());
        };
        show_construct(out, &tree.construct)?;
        for part in tree.parts.iter().rev() {
            left.push(part)?;
        }
    }
    Ok(())
}

fn show_construct(out: &mut String, construct: &Construct) -> Result<(), AllocError> {
    match construct {
        Construct::Element(name) => show_name(out, "element", name),
        Construct::DirectElement(name) => show_name(out, "direct element", name),
        Construct::Attribute(name) => show_name(out, "attribute", name),
        Construct::DirectAttribute(name) => show_name(out, "direct attribute", name.name()),
        Construct::Blank(text) => write!(out, ", blank {text:?}"),
        Construct::String(text) => write!(out, ", text {text:?}"),
        Construct::Call(function) => {
            let name = function.name();
            write!(out, ", call {name}")
        }
        Construct::CallDeclared(name) => show_name(out, "call", name.name()),
        Construct::CastAs(kind, optional) => {
            let mark = if *optional { "?" } else { "" };
            write!(out, ", cast {kind:?}{mark}")
        }
        Construct::Context => out.push_str(", context item"),
        _ => Ok(()),
    }
}

fn show_name(out: &mut String, word: &str, name: &Name) -> Result<(), AllocError> {
    let local = name.local.as_str();
    if name.uri.is_empty() {
        return write!(out, ", {word} {local}");
    }
    let uri = name.uri.as_str();
    write!(out, ", {word} {{{uri}}}{local}")
}
