// Prefixes that a query declares.

ghost use Rattle.std.specs.Prelude.{◌≡◌};
ghost use Rattle.gx_names_scope.specs.Prefixes.{is_reserved_prefix, is_reserved_uri};

use gx_base::place::Place;
use gx_base::text::Text;
use gx_resolved::nested_map::NestedMap;

/// The prefixes that are declared, with the places of their declarations.
pub type DeclaredPrefixes = NestedMap<Text, Place>;

/// Whether a prefix is `xml` or `xmlns`.
#[tactic(auto, unfolding(crate::specs::Prefixes::is_reserved_prefix))]
pub fn is_reserved_prefix(prefix: &Text) -> bool
    ensures { result ≡ is_reserved_prefix prefix.now }
{
    let prefix = prefix.as_str();
    prefix == "xml" || prefix == "xmlns"
}

/// Whether a URI is that of `xml` or of `xmlns`.
#[tactic(auto, unfolding(crate::specs::Prefixes::is_reserved_uri))]
pub fn is_reserved_uri(uri: &Text) -> bool
    ensures { result ≡ is_reserved_uri uri.now }
{
    let uri = uri.as_str();
    uri == "http://www.w3.org/XML/1998/namespace" || uri == "http://www.w3.org/2000/xmlns/"
}
