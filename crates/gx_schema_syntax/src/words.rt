// Words of schema documents: the names of their elements and attributes, and how names are shown.

ghost use Rattle.std.specs.Prelude.{◌≡◌, IfOk};
ghost use Rattle.gx_schema_syntax.specs.Words.{is_annotation, is_schema_element, shown_name, shown_in_schema_namespace};
ghost use Rattle.gx_qnames.specs.Words.{is_schema_uri, written_name};

use gx_base::name::Name;
use gx_base::text::Text;
use gx_base::text_builder::TextBuilder;
use gx_qnames::words::{is_schema_uri, written_name};
use std::alloc::{AllocError, Global};

/// Whether an element has this local name in the namespace of schema documents.
pub fn is_schema_element(local: &str, name: &Name) -> bool
    ensures { result ≡ is_schema_element local.now name.now }
{
    is_schema_uri(&name.uri) && name.local.as_str() == local
}

/// Whether an element is an annotation (XML Schema 1.0 part 1, section 3.13).
pub fn is_annotation(name: &Name) -> bool
    ensures { result ≡ is_annotation name.now }
{
    is_schema_element("annotation", name)
}

/// A local name in the namespace of schema documents, behind `xs:`.
pub fn shown_in_schema_namespace(alloc: Global, local: &Text) -> Result<Text, AllocError>
    ensures { IfOk result (λ text. text ≡ shown_in_schema_namespace local.now) }
{
    let mut shown = TextBuilder::new(alloc);
    shown.push('x')?;
    shown.push('s')?;
    shown.push(':')?;
    shown.push_text(local)?;
    shown.finish()
}

/// The name of an element as refusals show it.
pub fn shown_name(alloc: Global, name: &Name) -> Result<Text, AllocError>
    ensures { IfOk result (λ text. text ≡ shown_name name.now) }
{
    if is_schema_uri(&name.uri) {
        shown_in_schema_namespace(alloc, &name.local)
    } else {
        written_name(alloc, name)
    }
}
