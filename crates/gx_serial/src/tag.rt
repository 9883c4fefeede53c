// Start tags.
ghost use Rattle.std.specs.Prelude.{◌≡◌, [], ◌++◌, take, length, OnOk, option_copied, bytes_eq};
ghost use Rattle.gx_serial.specs.Binding.{gives, needs_declaration, xml};
ghost use Rattle.gx_serial.specs.Markup.{spelled_name, spelled_declaration, spelled_attribute, spelled_attributes, spelled_start};
ghost use Rattle.gx_serial.specs.Marked.{with_prefix, prefixes_of, written_prefix, written_attributes, after_attribute, after_attributes, scope_within, tag_of};
ghost use Rattle.gx_serial.specs.View.{begun_of, begun_by_name, Declares, DeclaresThen};

use crate::escape::{push_ascii, push_value};
use crate::prefix::Prefixes;
use gx_base::name::Name;
use gx_base::text::Text;
use gx_base::text_builder::TextBuilder;
use gx_namespaces::bindings::Bindings;
use gx_tree::attribute::Attribute;
use std::alloc::{AllocError, Global};

// Adds a name with its prefix.
pub(crate) fn push_name(
    out: &mut TextBuilder,
    prefix: &Text,
    local: &Text,
) -> Result<(), AllocError>
    ensures { OnOk result (out.new ≡ out.old ++ spelled_name prefix.now local.now) }
{
    if !prefix.is_empty() {
        out.push_text(prefix)?;
        out.push(':')?;
    }
    out.push_text(local)
}

// Adds the declaration of a prefix, or of the default.
pub(crate) fn push_declaration(
    out: &mut TextBuilder,
    prefix: &Text,
    uri: &Text,
) -> Result<(), AllocError>
    ensures { OnOk result (out.new ≡ out.old ++ spelled_declaration (prefix.now, uri.now)) }
{
    push_ascii(out, " xmlns")?;
    if !prefix.is_empty() {
        out.push(':')?;
        out.push_text(prefix)?;
    }
    push_ascii(out, "=\"")?;
    push_value(out, uri)?;
    out.push('"')
}

// Adds an attribute.
pub(crate) fn push_attribute(
    out: &mut TextBuilder,
    prefix: &Text,
    local: &Text,
    value: &Text,
) -> Result<(), AllocError>
    ensures { OnOk result (out.new ≡ out.old
        ++ spelled_attribute (record { prefix = prefix.now; local = local.now; written_value = value.now })) }
{
    out.push(' ')?;
    push_name(out, prefix, local)?;
    push_ascii(out, "=\"")?;
    push_value(out, value)?;
    out.push('"')
}

// Whether a binding, where there is any, gives a URI.
fn gives(bound: Option<&Text>, uri: &Text) -> bool
    ensures { result ≡ gives (option_copied bound.entry) uri.now }
{
    match bound {
        Some(bound) => *bound == *uri,
        None => false,
    }
}

fn is_xml(prefix: &Text) -> bool
    ensures { result ≡ bytes_eq prefix.now xml }
{
    prefix.as_str() == "xml"
}

// Whether a prefix has to be declared for a URI.
fn needs_declaration(scope: &Bindings, prefix: &Text, uri: &Text) -> bool
    ensures { result ≡ needs_declaration scope.now prefix.now uri.now }
{
    !is_xml(prefix) && !gives(scope.bound_to(prefix), uri)
}

// Adds the declaration of a prefix, where the URI needs it.
fn declare(
    out: &mut TextBuilder,
    scope: &mut Bindings,
    prefix: &Text,
    uri: &Text,
) -> Result<(), AllocError>
    ensures scope { OnOk result (scope.new ≡ (with_prefix (record { taken_bindings = []; scope = scope.old }) prefix.now uri.now).scope) }
    ensures declares { OnOk result (Declares scope.old scope.new out.old out.new) }
{
    if !needs_declaration(scope, prefix, uri) {
        return Ok(());
    }
    push_declaration(out, prefix, uri)?;
    scope.push(prefix, uri)
}

// Adds an attribute to the text of a tag's attributes, and the declaration that it needs to the tag.
fn push_next<'a>(
    alloc: Global,
    out: &mut TextBuilder,
    written: &mut TextBuilder,
    prefixes: &mut Prefixes<'a>,
    scope: &mut Bindings,
    attribute: &'a Attribute,
) -> Result<(), AllocError>
    ensures state { OnOk result (begun_of prefixes.new scope.new
        ≡ after_attribute prefixes.old.used (begun_of prefixes.old scope.old) attribute.now) }
    ensures used { OnOk result (prefixes.new.used ≡ prefixes.old.used) }
    ensures declares { OnOk result (Declares scope.old scope.new out.old out.new) }
    ensures written { OnOk result (written.new ≡ written.old
        ++ spelled_attribute (record {
          prefix = written_prefix prefixes.old.used (begun_of prefixes.old scope.old) attribute.now;
          local = attribute.now.name.local;
          written_value = attribute.now.value;
        })) }
{
    if attribute.name.prefix.is_empty() {
        let own = &attribute.name.prefix;
        return push_attribute(written, own, &attribute.name.local, &attribute.value);
    }
    let prefix = prefixes.written_prefix(alloc, attribute)?;
    push_attribute(written, &prefix, &attribute.name.local, &attribute.value)?;
    prefixes.take(&prefix, &attribute.name.uri)?;
    declare(out, scope, &prefix, &attribute.name.uri)
}

// Adds the attributes of a tag behind the declarations that they need.
fn push_attributes<'a>(
    alloc: Global,
    out: &mut TextBuilder,
    scope: &mut Bindings,
    name: &'a Name,
    attributes: &'a [Attribute],
) -> Result<(), AllocError>
    ensures scope { OnOk result (scope.new
        ≡ (after_attributes (prefixes_of name.now attributes.now) (begun_by_name name.now scope.old) attributes.now).scope) }
    ensures text { OnOk result (DeclaresThen scope.old scope.new out.old out.new
        (spelled_attributes (written_attributes (prefixes_of name.now attributes.now) (begun_by_name name.now scope.old) attributes.now))) }
{
    let mut prefixes = Prefixes::new(alloc, name, attributes)?;
    let mut written = TextBuilder::new(alloc);
    for attribute in attributes {
        push_next(alloc, out, &mut written, &mut prefixes, scope, attribute)?;
    }
    out.append(&written)?;
    Ok(())
}

// Adds the start of a tag, without its end. The bindings in force grow by its declarations.
pub(crate) fn push_start<'a>(
    alloc: Global,
    out: &mut TextBuilder,
    scope: &mut Bindings,
    name: &'a Name,
    attributes: &'a [Attribute],
) -> Result<(), AllocError>
    ensures scope { OnOk result (scope.new ≡ scope_within scope.old name.now attributes.now) }
    ensures kept { OnOk result (take (length scope.old) scope.new ≡ scope.old) }
    ensures text { OnOk result (out.new ≡ out.old ++ spelled_start (tag_of scope.old name.now attributes.now)) }
{
    out.push('<')?;
    push_name(out, &name.prefix, &name.local)?;
    declare(out, scope, &name.prefix, &name.uri)?;
    if attributes.is_empty() {
        return Ok(());
    }
    push_attributes(alloc, out, scope, name, attributes)?;
    Ok(())
}
