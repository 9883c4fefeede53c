// Simple values of elements and attributes.

ghost use Rattle.std.specs.Prelude.{◌≡◌, ◌||◌, ◌↔◌, IfOk, IsTrue, option_copied};
ghost use Rattle.gx_base.specs.declared.type_name.Builtin.TheVariants.{Str};
ghost use Rattle.gx_base.specs.declared.type_name.TypeName.TheVariants as names;
ghost use Rattle.gx_model.specs.DeclaredContent.{is_valued};
ghost use Rattle.gx_validate.specs.Rules.{has_bad_attribute, has_bad_text, is_bad_attribute};
ghost use Rattle.gx_xml.specs.SourceView.{contents_of};

use crate::attributes::{counts, type_of_attribute};
use crate::children::text_in;
use crate::content::has_values;
use gx_base::text::Text;
use gx_base::type_name::{Builtin, TypeName};
use gx_facets::ValueRead;
use gx_types::declaration::{AttributeUse, Declared};
use gx_types::schemas::Schemas;
use gx_types::simple_value::read_simple;
use gx_xml::source::{SourceAttribute, SourceChild};
use std::alloc::{AllocError, Global};

// Whether a type is xs:string, of which each text is a value.
fn is_string(t: &TypeName) -> bool
    ensures { IsTrue result ↔ (t.now ≡ names.Builtin Str) }
{
    matches!(t, TypeName::Builtin(Builtin::Str))
}

// Whether a text stands for simple values of a type (XML Schema 1.0 part 1, section 3.14.4).
#[tactic(auto, using(crate::proofs::StringValues::strings_are_values))]
fn is_valued(
    alloc: Global,
    schemas: &Schemas,
    t: &TypeName,
    text: &Text,
) -> Result<bool, AllocError>
    ensures { IfOk result (λ answer. answer ≡ is_valued schemas.now t.now text.now) }
{
    if is_string(t) {
        return Ok(true);
    }
    match read_simple(alloc, schemas, t, text) {
        Ok(_) => Ok(true),
        Err(ValueRead::Memory) => Err(AllocError),
        Err(_) => Ok(false),
    }
}

fn has_bad_text(
    alloc: Global,
    schemas: &Schemas,
    kind: &TypeName,
    holder: Option<&Declared>,
    children: &[SourceChild],
) -> Result<bool, AllocError>
    ensures { IfOk result (λ bad. bad ≡ has_bad_text schemas.entry.now kind.entry.now (option_copied holder.entry) (contents_of children.entry.now)) }
{
    if !has_values(holder) {
        return Ok(false);
    }
    let text = text_in(alloc, children)?;
    Ok(!is_valued(alloc, schemas, kind, &text)?)
}

fn is_bad_attribute(
    alloc: Global,
    schemas: &Schemas,
    uses: &[AttributeUse],
    attribute: &SourceAttribute,
) -> Result<bool, AllocError>
    ensures { IfOk result (λ bad. bad ≡ is_bad_attribute schemas.now uses.now attribute.now) }
{
    if !counts(attribute) {
        return Ok(false);
    }
    let kind = type_of_attribute(uses, &attribute.name)?;
    Ok(!is_valued(alloc, schemas, &kind, &attribute.value)?)
}

fn has_bad_attribute(
    alloc: Global,
    schemas: &Schemas,
    uses: &[AttributeUse],
    attributes: &[SourceAttribute],
) -> Result<bool, AllocError>
    ensures { IfOk result (λ bad. bad ≡ has_bad_attribute schemas.now uses.now attributes.now) }
{
    let mut left = attributes;
    while let Some((attribute, others)) = left.split_first() {
        if is_bad_attribute(alloc, schemas, uses, attribute)? {
            return Ok(true);
        }
        left = others;
    }
    Ok(false)
}

/// Whether the text of an element or the value of an attribute is none of its simple type.
pub fn has_bad_value(
    alloc: Global,
    schemas: &Schemas,
    kind: &TypeName,
    holder: Option<&Declared>,
    uses: &[AttributeUse],
    attributes: &[SourceAttribute],
    children: &[SourceChild],
) -> Result<bool, AllocError>
    ensures { IfOk result (λ bad. bad ≡ (has_bad_text schemas.entry.now kind.entry.now (option_copied holder.entry) (contents_of children.entry.now) || has_bad_attribute schemas.entry.now uses.entry.now attributes.entry.now)) }
{
    Ok(
        has_bad_text(alloc, schemas, kind, holder, children)?
            || has_bad_attribute(alloc, schemas, uses, attributes)?,
    )
}
