// Namespace declarations in scope.

ghost use Rattle.std.specs.Prelude.{◌≡◌, ◌++◌, [], IfOk, OnOk, option_copied};
ghost use Rattle.gx_qnames.specs.Scope.{declared_uri};
ghost use Rattle.gx_qnames.specs.ScopeView.{declared_in, declared_in_tags};

use gx_base::text::Text;
use gx_xml::source::Declaration;
use std::alloc::{AllocError, Global};

/// The namespace declarations of the tags round a place, those of the innermost tag first (Namespaces in XML 1.0, section 6.1).
#[derive(Drop)]
pub struct Scope<'a> {
    tags: Vec<&'a [Declaration]>,
}

/// The scope in which nothing is declared.
pub fn outermost<'a>(alloc: Global) -> Scope<'a>
    ensures { declared_in result ≡ [] }
{
    Scope {
        tags: Vec::new(alloc),
    }
}

/// The scope within a tag of these declarations.
#[tactic(auto, using(crate::proofs::ScopeLemmas::declared_in_tags_append))]
pub fn within<'a>(
    alloc: Global,
    scope: &Scope<'a>,
    declarations: &'a [Declaration],
) -> Result<Scope<'a>, AllocError>
    ensures { IfOk result (λ inner. declared_in inner ≡ declarations.entry.now ++ declared_in scope.entry.now) }
{
    let mut tags = Vec::new(alloc);
    add_tag(&mut tags, declarations)?;
    tags.extend_from_slice(scope.tags.as_slice())?;
    Ok(Scope { tags })
}

// Adds a tag, where it declares anything.
#[tactic(auto, using(crate::proofs::ScopeLemmas::declared_in_tags_push))]
fn add_tag<'a>(
    tags: &mut Vec<&'a [Declaration]>,
    declarations: &'a [Declaration],
) -> Result<(), AllocError>
    ensures { OnOk result (declared_in_tags tags.new.items ≡ declared_in_tags tags.old.items ++ declarations.entry.now) }
{
    if declarations.is_empty() {
        return Ok(());
    }
    tags.push(declarations)?;
    Ok(())
}

/// The URI that the innermost declaration of a prefix gives it.
pub fn declared_uri<'a>(scope: &Scope<'a>, prefix: &Text) -> Option<&'a Text>
    ensures { option_copied result ≡ declared_uri (declared_in scope.entry.now) prefix.entry.now }
{
    uri_in_tags(scope.tags.as_slice(), prefix)
}

// There are as many tags as elements stand in one another, at most.
#[tactic(auto, using(crate::proofs::ScopeLemmas::declared_uri_append))]
fn uri_in_tags<'a>(tags: &[&'a [Declaration]], prefix: &Text) -> Option<&'a Text>
    ensures { option_copied result ≡ declared_uri (declared_in_tags tags.entry.now) prefix.entry.now }
{
    let (tag, others) = tags.split_first()?;
    match uri_among(tag, prefix) {
        Some(uri) => Some(uri),
        None => uri_in_tags(others, prefix),
    }
}

fn uri_among<'a>(declarations: &'a [Declaration], prefix: &Text) -> Option<&'a Text>
    ensures { option_copied result ≡ declared_uri declarations.now prefix.now }
{
    let mut left = declarations;
    while let Some((declaration, others)) = left.split_first() {
        if declaration.prefix == *prefix {
            return Some(&declaration.uri);
        }
        left = others;
    }
    None
}
