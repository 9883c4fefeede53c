// The Core of constructors.

ghost use Rattle.std.specs.Prelude.{◌≡◌, IfOk, MatchOption};
ghost use Rattle.gx_normal.specs.Constructs.{constructor_at, empty_at};
ghost use Rattle.gx_normal.specs.Normalisation.{is_kept_part as is_kept};
ghost use Rattle.gx_normal.specs.Making.{made_of_node, node_made, constructor_written};

use crate::construct::{at, empty};
use crate::focus::Focus;
use gx_base::place::Place;
use gx_core::constructor::Constructor;
use gx_core::expression::{CoreExpr, Form};
use gx_resolved::tree::{Construct, ResolvedExpr};
use std::alloc::AllocError;

// What is made of the parts of a constructor; another construct stands for nothing.
pub(crate) fn construct_of_node(
    place: Place,
    construct: &Construct,
    parts: Vec<CoreExpr>,
) -> Result<CoreExpr, AllocError>
    ensures { IfOk result (λ e. e ≡ made_of_node place construct.now parts.items) }
{
    let Ok(constructor) = constructor_of(construct) else {
        drop(parts);
        return Err(AllocError);
    };
    match constructor {
        Some(constructor) => Ok(at(place, Form::Construct(constructor, parts))),
        None => Ok(empty(place)),
    }
}

// The constructor of Core for one that is written, if it is one.
fn constructor_of(construct: &Construct) -> Result<Option<Constructor>, AllocError>
    ensures { IfOk result (λ found. found ≡ constructor_written construct.now) }
{
    match construct {
        Construct::Document => Ok(Some(Constructor::Document)),
        Construct::TextNode => Ok(Some(Constructor::Text)),
        Construct::Element(name) | Construct::DirectElement(name) => {
            let name = name.clone()?;
            Ok(Some(Constructor::Element(name)))
        }
        Construct::Attribute(name) => {
            let name = name.clone()?;
            Ok(Some(Constructor::Attribute(name)))
        }
        Construct::DirectAttribute(name) => {
            let name = name.name().clone()?;
            Ok(Some(Constructor::Attribute(name)))
        }
        _ => Ok(None),
    }
}

/// Whether a part stays: boundary white space is stripped where it is not preserved (XQuery 1.0, section 3.7.1.4).
pub(crate) fn is_kept_part(focus: Focus, part: &ResolvedExpr) -> bool
    ensures { result ≡ is_kept focus part.now }
{
    match &part.construct {
        Construct::Blank(_) => focus.preserves_blanks,
        _ => true,
    }
}
