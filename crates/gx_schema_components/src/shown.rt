// How references are shown in refusals.

ghost use Rattle.std.specs.Prelude.{◌≡◌, IfOk};
ghost use Rattle.gx_schema_syntax.specs.Words.{shown_in_schema_namespace};
ghost use Rattle.gx_qnames.specs.Words.{is_schema_uri, written_name};
ghost use Rattle.gx_schema_components.specs.Shown.{shown_expanded, shown_in_namespace, shown_reference};

use gx_base::name::Name;
use gx_base::text::Text;
use gx_base::text_builder::TextBuilder;
use gx_qnames::reference::Reference;
use std::alloc::{AllocError, Global};

/// Whether the URI is that of the namespace of schema documents (XML Schema 1.0 part 1, section 2.6).
#[tactic(auto, unfolding(gx_qnames::specs::Words::is_schema_uri))]
pub fn is_schema_uri(uri: &Text) -> bool
    ensures { result ≡ is_schema_uri uri.now }
{
    uri.as_str() == "http://www.w3.org/2001/XMLSchema"
}

// A name with its prefix.
fn written_name(alloc: Global, name: &Name) -> Result<Text, AllocError>
    ensures { IfOk result (λ text. text ≡ written_name name.now) }
{
    if name.prefix.is_empty() {
        return name.local.clone();
    }
    let mut shown = TextBuilder::new(alloc);
    shown.push_text(&name.prefix)?;
    shown.push(':')?;
    shown.push_text(&name.local)?;
    shown.finish()
}

fn shown_in_schema_namespace(alloc: Global, local: &Text) -> Result<Text, AllocError>
    ensures { IfOk result (λ text. text ≡ shown_in_schema_namespace local.now) }
{
    let mut shown = TextBuilder::new(alloc);
    shown.push('x')?;
    shown.push('s')?;
    shown.push(':')?;
    shown.push_text(local)?;
    shown.finish()
}

fn shown_in_namespace(alloc: Global, name: &Name) -> Result<Text, AllocError>
    ensures { IfOk result (λ text. text ≡ shown_in_namespace name.now) }
{
    let mut shown = TextBuilder::new(alloc);
    shown.push('{')?;
    shown.push_text(&name.uri)?;
    shown.push('}')?;
    shown.push_text(&name.local)?;
    shown.finish()
}

fn shown_expanded(alloc: Global, name: &Name) -> Result<Text, AllocError>
    ensures { IfOk result (λ text. text ≡ shown_expanded name.now) }
{
    if name.uri.is_empty() {
        name.local.clone()
    } else if is_schema_uri(&name.uri) {
        shown_in_schema_namespace(alloc, &name.local)
    } else {
        shown_in_namespace(alloc, name)
    }
}

/// A reference as refusals show it: as it is written where its prefix is not bound, else by its URI and local name.
pub fn shown_reference(alloc: Global, reference: &Reference) -> Result<Text, AllocError>
    ensures { IfOk result (λ text. text ≡ shown_reference reference.now) }
{
    if reference.is_bound {
        shown_expanded(alloc, &reference.name)
    } else {
        written_name(alloc, &reference.name)
    }
}
