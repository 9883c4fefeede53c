// Contents with texts.

ghost use Rattle.std.specs.Prelude.{◌≡◌, IfOk};
ghost use Rattle.gx_types.specs.SequenceType.{both, either};
ghost use Rattle.gx_schema_content.specs.MixedContents.{maybe_text, model_of, with_texts};

use gx_types::item_type::ItemType;
use gx_types::sequence_type::{Ty, TyNode};
use gx_types::type_rules::{join, optional};
use std::alloc::{AllocError, Global};
use std::rc::Rc;

/// The content model of a type: where it is mixed, a text is allowed before the content and behind each item of it (XML Schema
/// 1.0 part 1, section 3.4.1).
pub fn model_of(alloc: Global, mixed: bool, t: &Ty) -> Result<Ty, AllocError>
    ensures { IfOk result (λ u. u ≡ model_of mixed t.now) }
{
    if !mixed {
        return t.clone();
    }
    let texts = with_texts(alloc, t)?;
    join(alloc, &maybe_text(alloc)?, &texts)
}

fn maybe_text(alloc: Global) -> Result<Ty, AllocError>
    ensures { IfOk result (λ u. u ≡ maybe_text) }
{
    let text = Ty::of_item(alloc, ItemType::Text)?;
    optional(alloc, &text)
}

// A content with a text allowed behind each item.
fn with_texts(alloc: Global, t: &Ty) -> Result<Ty, AllocError>
    ensures { IfOk result (λ u. u ≡ with_texts t.now) }
{
    let node = match &t.node {
        TyNode::Never => TyNode::Never,
        TyNode::Empty => TyNode::Empty,
        TyNode::Item(_) => return item_and_text(alloc, t),
        TyNode::Seq(first, second) => {
            let first = shared(alloc, with_texts(alloc, first)?)?;
            TyNode::Seq(first, shared(alloc, with_texts(alloc, second)?)?)
        }
        TyNode::Alt(first, second) => {
            let first = shared(alloc, with_texts(alloc, first)?)?;
            TyNode::Alt(first, shared(alloc, with_texts(alloc, second)?)?)
        }
        TyNode::Optional(part) => TyNode::Optional(shared(alloc, with_texts(alloc, part)?)?),
        TyNode::Star(part) => TyNode::Star(shared(alloc, with_texts(alloc, part)?)?),
        TyNode::Plus(part) => TyNode::Plus(shared(alloc, with_texts(alloc, part)?)?),
    };
    Ok(Ty { node })
}

fn item_and_text(alloc: Global, item: &Ty) -> Result<Ty, AllocError>
    ensures { IfOk result (λ u. u ≡ both item.now maybe_text) }
{
    let item = shared(alloc, item.clone()?)?;
    let text = shared(alloc, maybe_text(alloc)?)?;
    Ok(Ty {
        node: TyNode::Seq(item, text),
    })
}

fn shared(alloc: Global, t: Ty) -> Result<Rc<Ty>, AllocError>
    ensures { IfOk result (λ part. part.value ≡ t) }
{
    Ok(Rc::new(alloc, t)?)
}
