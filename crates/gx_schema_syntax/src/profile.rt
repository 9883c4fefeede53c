// The schema documents of schema files.

ghost use Rattle.std.specs.Prelude.{◌≡◌, IfOk, IfErr, MatchResult, None};
ghost use Rattle.gx_schema_syntax.specs.Documents.{documents_written};
ghost use Rattle.gx_schema_syntax.specs.Numbers.{first_numbers};
ghost use Rattle.gx_schema_syntax.specs.Profile.{IsRefusal, outside_files};

use crate::documents::document_written;
use crate::numbers::{Numbers, numbers_behind};
use crate::outside::outside_root;
use crate::written::SchemaDocument;
use gx_base::text::Text;
use gx_xml::source::Source;
use std::alloc::{AllocError, Global};

/// Why schema files have no schema documents: the first construct that is outside the profile, with the number of its file, counted
/// from 0, and its name; or memory is wanting.
#[derive(Drop)]
pub enum ProfileRefusal {
    Outside { file: u32, name: Text },
    Memory,
}

impl From<AllocError> for ProfileRefusal {
    ghost use Rattle.std.specs.Prelude.{◌≡◌};
    ghost use Rattle.gx_schema_syntax.specs.declared.profile.ProfileRefusal.TheVariants.{Memory};

    ghost from_gives = { λ _ e. e ≡ Memory };

    fn from(_error: AllocError) -> ProfileRefusal {
        ProfileRefusal::Memory
    }
}

/// The schema documents of files (XML Schema 1.0 part 1, section 3.15), exactly where no construct of the files is outside the
/// profile; else the first that is: over the files, in each in the order of the text, and at one element first the element itself,
/// then the type that it lacks, then its attributes as they are written, then its parts.
pub fn schema_documents(
    alloc: Global,
    files: &[Source],
) -> Result<Vec<SchemaDocument>, ProfileRefusal>
    ensures profile { IfOk result (λ documents. outside_files 0 files.now ≡ None) }
    ensures documents { IfOk result (λ documents. documents.items ≡ documents_written first_numbers files.now) }
    ensures outside { IfErr result (IsRefusal (outside_files 0 files.now)) }
{
    check_files(alloc, files)?;
    Ok(documents_written(alloc, files)?)
}

// No construct of the files is outside the profile.
fn check_files(alloc: Global, files: &[Source]) -> Result<(), ProfileRefusal>
    ensures { MatchResult result (λ _. outside_files 0 files.now ≡ None) (IsRefusal (outside_files 0 files.now)) }
{
    let mut number = 0u32;
    let mut left = files;
    while let Some((file, others)) = left.split_first() {
        if let Some(name) = outside_root(alloc, &file.root)? {
            return Err(ProfileRefusal::Outside { file: number, name });
        }
        number = number.checked_add(1).ok_or(AllocError)?;
        left = others;
    }
    Ok(())
}

fn documents_written(alloc: Global, files: &[Source]) -> Result<Vec<SchemaDocument>, AllocError>
    ensures { IfOk result (λ documents. documents.items ≡ documents_written first_numbers files.now) }
{
    let mut documents = Vec::with_capacity(alloc, files.len())?;
    let mut at = Numbers {
        element: 1,
        anonymous: 1,
    };
    let mut left = files;
    while let Some((file, others)) = left.split_first() {
        documents.push(document_written(alloc, at, &file.root)?)?;
        at = numbers_behind(at, &file.root)?;
        left = others;
    }
    Ok(documents)
}
