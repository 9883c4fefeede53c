// Why a command has no output.

use gx_base::code::Code;
use gx_base::place::Place;
use gx_base::text::Text;
use gx_documents::bindings::BindingFault;
use gx_documents::documents::DocumentFault;
use gx_schema::refusal::SchemaRule;
use std::alloc::AllocError;

/// Why a command has no output: the query's file could not be read or is too long, the query is refused at a place, the schema file
/// of this name holds no document, or breaks a rule by what is shown, the words bind the query's external variables wrongly,
/// the file of this name holds no document or one that is not valid, its evaluation raises an error, or memory is wanting.
#[derive(Drop)]
pub enum Refusal {
    ReadFault,
    TooLong,
    Query {
        code: Code,
        place: Place,
    },
    SchemaFile(String, DocumentFault),
    Schema {
        rule: SchemaRule,
        file: String,
        shown: Text,
    },
    Binding(BindingFault),
    Document(String, DocumentFault),
    Dynamic(Code),
    Memory,
}

impl From<AllocError> for Refusal {
    ghost use Rattle.std.specs.Prelude.{◌≡◌};
    ghost use Rattle.gx_processor.specs.declared.refusal.Refusal.TheVariants.{Memory};

    ghost from_gives = { λ _ e. e ≡ Memory };

    fn from(_error: AllocError) -> Refusal {
        Refusal::Memory
    }
}
