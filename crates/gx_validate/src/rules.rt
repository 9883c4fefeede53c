// The rules that an element keeps to.

ghost use Rattle.std.specs.Prelude.{◌≡◌, IfOk, option_copied};
ghost use Rattle.gx_types.specs.SchemaSet.{declaration_of};
ghost use Rattle.gx_validate.specs.Rules.{broken_rule};
ghost use Rattle.gx_qnames.specs.ScopeView.{declared_in};
ghost use Rattle.gx_xml.specs.SourceView.{contents_of};

use crate::annotation::has_nil;
use crate::attributes::{has_extra, lacks_required, uses_allowed};
use crate::children::{has_content, has_stray_text};
use crate::content::texts_allowed;
use crate::invalid::InvalidRule;
use crate::takers::Takers;
use crate::values::has_bad_value;
use gx_base::type_name::TypeName;
use gx_qnames::scope::Scope;
use gx_types::declaration::Declared;
use gx_xml::source::{SourceAttribute, SourceChild};
use std::alloc::{AllocError, Global};

/// The first rule that an element of a type breaks (XML Schema 1.0 part 1, sections 3.3.4, 3.4.4 and 3.14.4).
pub fn broken_rule<'a>(
    alloc: Global,
    takers: &mut Takers<'_>,
    scope: &Scope<'a>,
    kind: &TypeName,
    holder: Option<&Declared>,
    attributes: &[SourceAttribute],
    children: &'a [SourceChild],
) -> Result<Option<InvalidRule>, AllocError>
    requires { option_copied holder ≡ declaration_of takers.old kind.now }
    ensures same { takers.new ≡ takers.old }
    ensures rule { IfOk result (λ rule. rule ≡ broken_rule takers.old (declared_in scope.entry.now) kind.entry.now (option_copied holder.entry) attributes.entry.now (contents_of children.entry.now)) }
{
    let uses = uses_allowed(holder);
    if has_nil(attributes) {
        return Ok(Some(InvalidRule::Nil));
    }
    if has_extra(uses, attributes) {
        return Ok(Some(InvalidRule::ExtraAttribute));
    }
    if lacks_required(uses, attributes) {
        return Ok(Some(InvalidRule::MissingAttribute));
    }
    if has_stray_text(texts_allowed(holder), children) {
        return Ok(Some(InvalidRule::TextInElementContent));
    }
    if !has_content(alloc, takers, scope, kind, holder, children)? {
        return Ok(Some(InvalidRule::WrongContent));
    }
    let schemas = takers.schemas();
    if has_bad_value(alloc, schemas, kind, holder, uses, attributes, children)? {
        return Ok(Some(InvalidRule::BadSimpleValue));
    }
    Ok(None)
}
