// What the commands write.

ghost use Rattle.std.specs.Prelude.{◌≡◌, ◌≤◌, IfOk, IfErr, IfSome, Some, string_bytes};
ghost use Rattle.gx_core.specs.QueryMeaning.{plain_query, query_type, IsSoundQuery};
ghost use Rattle.gx_rule_laws.specs.TypedQueries.{IsTypedWell};
ghost use Rattle.gx_types.specs.SchemaInvariant.{IsSchemaSet};
ghost use Rattle.gx_processor.specs.ExternalDocuments.{ExternalsAreDocuments};
ghost use Rattle.gx_processor.specs.RunReplies.{TypedSo};
ghost use Rattle.gx_io.specs.LibraryUse.{library_use};
ghost use Rattle.gx_processor.specs.Answer.{writes, AnswersCommand};
ghost use Rattle.gx_processor.specs.Command.{IsRunCommand};
ghost use Rattle.gx_processor.specs.CommandView.{plain_command};
ghost use Rattle.gx_processor.specs.Replies.{RefusesSo, HasCause, OutputLoads};
ghost use Rattle.gx_processor.specs.FaultLines.{line};
ghost use Rattle.gx_processor.specs.TypeBytes.{type_bytes};
ghost use Rattle.std.specs.Str.{encode_utf8_all};

use crate::command::Command;
use crate::plan::plan_text;
use crate::query::{TypedQuery, typed_query};
use crate::refusal::Refusal;
use crate::run::run;
use gx_base::text::Text;
use gx_core::dismantle::dismantle_query;
use gx_core::expression::TypedCore;
use gx_io::Library;
use gx_schema::laws::imports_are_one;
use gx_types::sequence_type::Ty;
use gx_typetext::print::print_type;
use std::alloc::{AllocError, Global};

/// What a command writes: the serialisation of the query's value over its documents, the text of its type, or that of its plan.
pub fn output<L: Library>(
    alloc: Global,
    command: Command<'_>,
    library: &mut L,
) -> Result<String, Refusal>
    ensures loads { OutputLoads (library_use L.files L.faults L.was_loaded library.old library.new) (plain_command command.entry) result }
    ensures told { L.files library.new ≡ L.files library.old }
    ensures counted { L.faults library.old ≤ L.faults library.new }
    ensures output { IfSome (L.files library.old) (λ files. IfOk result
        (λ text. AnswersCommand files (Some (plain_command command.entry)) (writes (string_bytes text)))) }
    ensures refused { IfSome (L.files library.old) (λ files. IfErr result
        (λ refusal. RefusesSo refusal (AnswersCommand files (Some (plain_command command.entry))))) }
    ensures cause { IfErr result (HasCause (IsRunCommand (plain_command command.entry))) }
{
    imports_are_one();
    match typed_query(alloc, command.file(), library) {
        Ok(query) => typed_output(alloc, command, query, library),
        Err(refusal) => Err(refusal),
    }
}

// What a command writes of a query that has a type, which ends here.
fn typed_output<L: Library>(
    alloc: Global,
    command: Command<'_>,
    query: TypedQuery,
    library: &mut L,
) -> Result<String, Refusal>
    requires schemas { IsSchemaSet query.schemas }
    requires well { IsTypedWell query.schemas query.core }
    requires sound { IsSoundQuery query.schemas query.core }
    requires externals { ExternalsAreDocuments query.schemas (plain_query query.core).declarations }
    ensures told { L.files library.new ≡ L.files library.old }
    ensures counted { L.faults library.old ≤ L.faults library.new }
    ensures typed { TypedSo (library_use L.files L.faults L.was_loaded library.old library.new) (plain_command command.entry) query.schemas query.core result }
{
    match command {
        Command::Run(_, words) => run(alloc, query, words, library),
        Command::Check(_) => Ok(type_text(alloc, query.core)?),
        Command::Plan(_) => Ok(plan_text(alloc, query)?),
    }
}

// The text of the type of a query, which ends here, and a line feed.
fn type_text(alloc: Global, core: TypedCore) -> Result<String, AllocError>
    ensures { IfOk result (λ text. string_bytes text ≡ type_bytes (query_type core)) }
{
    let kind: Result<Ty, AllocError> = core.body.kind.clone();
    dismantle_query(alloc, core);
    let text = print_type(alloc, &kind?)?;
    line_of(alloc, &text)
}

// A text and a line feed.
pub(crate) fn line_of(alloc: Global, text: &Text) -> Result<String, AllocError>
    ensures { IfOk result (λ made. string_bytes made ≡ line (encode_utf8_all text.now)) }
{
    let mut line = String::from_str(alloc, text.as_str())?;
    line.push('\n')?;
    Ok(line)
}
