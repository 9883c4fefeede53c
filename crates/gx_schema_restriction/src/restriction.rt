// Whether a type restricts its base.

ghost use Rattle.std.specs.Prelude.{◌≡◌, IfErr, IfOk, option_copied};
ghost use Rattle.gx_schema_restriction.specs.Attributes.{attribute_fault};
ghost use Rattle.gx_schema_restriction.specs.Restriction.{AreUsesJudged, HasNoRestriction, IsRestriction, children_in, children_of_base, simple_children, uses_of_base};

use crate::attributes::attribute_fault;
use gx_include::include::included_by;
use gx_include::verdict::{IncludeError, Verdict};
use gx_include_derivations::derivations::Derivations;
use gx_types::declaration::{AttributeUse, Content, Declared};
use gx_types::item_type::ItemType;
use gx_types::schemas::Schemas;
use gx_types::sequence_type::Ty;
use gx_types::shape::Shape;
use gx_types::type_rules::optional;
use std::alloc::{AllocError, Global};

/// Whether the declaration of a type allows nothing that its base does not allow (XML Schema 1.0 part 1, section 3.4.6, where
/// contents are compared by the lists that they take). `No` has a list of shapes that the content takes and that of the base does
/// not; or, where the content is included, the one attribute that is not allowed: the first that the base lacks or has with a type
/// from which its own is not derived, else the first that the base requires and the type does not, as the base has it.
/// `TooManyPairs` comes exactly where the contents reach more pairs than the limit.
pub fn restricts(
    alloc: Global,
    schemas: &Schemas,
    declared: &Declared,
    pairs: usize,
) -> Result<Verdict, IncludeError>
    ensures verdict { IfOk result (IsRestriction schemas.now pairs declared.now) }
    ensures none { IfErr result (HasNoRestriction schemas.now pairs declared.now) }
{
    let mut derivations = Derivations::new(alloc, schemas)?;
    restricts_by(alloc, &mut derivations, declared, pairs)
}

/// The same by derivations, which serve for all declarations of the same schemas.
pub fn restricts_by(
    alloc: Global,
    derivations: &mut Derivations<'_>,
    declared: &Declared,
    pairs: usize,
) -> Result<Verdict, IncludeError>
    ensures verdict { IfOk result (IsRestriction derivations.old pairs declared.now) }
    ensures none { IfErr result (HasNoRestriction derivations.old pairs declared.now) }
    ensures kept { derivations.new ≡ derivations.old }
{
    let text = simple_children(alloc)?;
    let schemas = derivations.schemas();
    let base = schemas.declared(&declared.base);
    let children = children_in(&declared.content, &text);
    let of_base = children_of_base(base, &text);
    match included_by(alloc, derivations, children, of_base, Some(pairs as u64))? {
        Verdict::Yes => Ok(judge_attributes(alloc, schemas, uses_of_base(base), declared)?),
        Verdict::No(list) => Ok(Verdict::No(list)),
    }
}

// The children of elements of simple content.
fn simple_children(alloc: Global) -> Result<Ty, AllocError>
    ensures { IfOk result (λ text. text ≡ simple_children) }
{
    let text = Ty::of_item(alloc, ItemType::Text)?;
    optional(alloc, &text)
}

// The children of elements of a content, where these are the children in simple content.
fn children_in<'a>(content: &'a Content, text: &'a Ty) -> &'a Ty
    requires { text.now ≡ simple_children }
    ensures { result.now ≡ children_in content.now }
{
    match content {
        Content::Complex { model, .. } => model,
        Content::Atomic(_) | Content::List(_, _) | Content::Simple(_, _) => text,
    }
}

fn children_of_base<'a>(base: Option<&'a Declared>, text: &'a Ty) -> &'a Ty
    requires { text.now ≡ simple_children }
    ensures { result.now ≡ children_of_base (option_copied base.entry) }
{
    match base {
        Some(base) => children_in(&base.content, text),
        None => text,
    }
}

fn uses_of_base(base: Option<&Declared>) -> &[AttributeUse]
    ensures { result.now ≡ uses_of_base (option_copied base.entry) }
{
    match base {
        Some(base) => base.attributes.as_slice(),
        None => &[],
    }
}

// The verdict on the attributes of a type.
fn judge_attributes(
    alloc: Global,
    schemas: &Schemas,
    base: &[AttributeUse],
    declared: &Declared,
) -> Result<Verdict, AllocError>
    ensures { IfOk result (AreUsesJudged (attribute_fault schemas.now base.now declared.now.attributes)) }
{
    match attribute_fault(schemas, base, declared.attributes.as_slice()) {
        Some(fault) => {
            let shape = Shape::Attr(fault.name.clone()?, fault.kind.clone()?);
            Ok(Verdict::No(vec![in alloc; shape]?))
        }
        None => Ok(Verdict::Yes),
    }
}
