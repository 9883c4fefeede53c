// Words, the namespace of schema documents, and names as they are written.

ghost use Rattle.std.specs.Prelude.{◌≡◌, IfOk};
ghost use Rattle.gx_qnames.specs.Words.{has_spelling, is_schema_uri, written_name};

use gx_base::name::Name;
use gx_base::text::Text;
use gx_base::text_builder::TextBuilder;
use std::alloc::{AllocError, Global};

/// Whether a text is this word.
pub fn has_spelling(word: &str, text: &Text) -> bool
    ensures { result ≡ has_spelling word.now text.now }
{
    text.as_str() == word
}

/// Whether the URI is that of the namespace of schema documents (XML Schema 1.0 part 1, section 2.6).
#[tactic(auto, unfolding(crate::specs::Words::is_schema_uri))]
pub fn is_schema_uri(uri: &Text) -> bool
    ensures { result ≡ is_schema_uri uri.now }
{
    uri.as_str() == "http://www.w3.org/2001/XMLSchema"
}

/// A name with its prefix.
pub fn written_name(alloc: Global, name: &Name) -> Result<Text, AllocError>
    ensures { IfOk result (λ text. text ≡ written_name name.now) }
{
    if name.prefix.is_empty() {
        return name.local.clone();
    }
    let mut shown = TextBuilder::new(alloc);
    shown.push_text(&name.prefix)?;
    shown.push(':')?;
    shown.push_text(&name.local)?;
    shown.finish()
}
