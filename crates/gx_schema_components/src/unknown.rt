// The first name that is not declared.

ghost use Rattle.std.specs.Prelude.{◌≡◌, IfOk};
ghost use Rattle.gx_schema_components.specs.Unknown.{unknown_from, unknown_name};
ghost use Rattle.gx_schema_components.specs.DeclaredNames.{declared_number};
ghost use Rattle.gx_schema_components.specs.NamesView.{number_in_tables};

use crate::mention::Mention;
use crate::mentions::earliest_unknown;
use crate::names::{DeclaredNumbers, declared_numbers, type_names_in};
use crate::shown::shown_reference;
use gx_base::text::Text;
use gx_schema_syntax::written::SchemaDocument;
use std::alloc::{AllocError, Global};

/// A name that refers to nothing: the number of its file, counted from 0, and the name as refusals show it.
#[derive(Drop)]
pub struct UnknownName {
    pub file: u32,
    pub name: Text,
}

/// The first name of schema documents that refers to no global declaration of its kind in any of them (XML Schema 1.0 part 1,
/// section 3.15.3): over the documents, in each by place; at one element that which `ref` holds before that of its type. It is None
/// exactly where each name refers to one.
pub fn unknown(
    alloc: Global,
    documents: &[SchemaDocument],
) -> Result<Option<UnknownName>, AllocError>
    ensures { IfOk result (λ unknown. unknown ≡ unknown_name documents.now) }
{
    match first_unknown(alloc, documents)? {
        Some((file, mention)) => Ok(Some(UnknownName {
            file,
            name: shown_reference(alloc, &mention.reference)?,
        })),
        None => Ok(None),
    }
}

#[tactic(auto, using(std::proofs::lemmas::Grind::common_steps, crate::proofs::Numberings::unknown_by_numbers))]
fn first_unknown(
    alloc: Global,
    documents: &[SchemaDocument],
) -> Result<Option<(u32, Mention)>, AllocError>
    ensures { IfOk result (λ found. found ≡ unknown_from (declared_number documents.now) 0 documents.now) }
{
    let type_names = type_names_in(alloc, documents)?;
    let numbers = declared_numbers(alloc, documents, &type_names)?;
    unknown_among(&numbers, documents)
}

fn unknown_among(
    numbers: &DeclaredNumbers,
    documents: &[SchemaDocument],
) -> Result<Option<(u32, Mention)>, AllocError>
    ensures { IfOk result (λ found. found ≡ unknown_from (number_in_tables numbers.now) 0 documents.now) }
{
    let mut file = 0u32;
    let mut left = documents;
    while let Some((document, others)) = left.split_first() {
        if let Some(mention) = earliest_unknown(numbers, document)? {
            return Ok(Some((file, mention)));
        }
        file = file.checked_add(1).ok_or(AllocError)?;
        left = others;
    }
    Ok(None)
}
