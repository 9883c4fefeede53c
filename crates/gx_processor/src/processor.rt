// The call that answers the words of the command line.

ghost use Rattle.std.specs.Prelude.{◌≡◌, ℕ, List, ◌≤◌, ◌++◌, length, string_bytes, IfOk, IfSome, Some};
ghost use Rattle.std.specs.Str.{chars};
ghost use Rattle.gx_io.specs.LibraryUse.{library_use};
ghost use Rattle.gx_io.specs.SinkUse.{sink_use};
ghost use Rattle.gx_processor.specs.Answer.{Answers, AnswersCommand};
ghost use Rattle.gx_processor.specs.Command.{bytes_of, command_of};
ghost use Rattle.gx_processor.specs.CommandView.{plain_command};
ghost use Rattle.gx_processor.specs.Ending.{Ends, Put, PutOutput};
ghost use Rattle.gx_documents.specs.BindingView.{plain_fault};
ghost use Rattle.gx_processor.specs.FaultLines.{binding_line, document_line, import_line, invalid_line, invalid_rule_name, line, placed_line, schema_rule_name, xml_rule_name};
ghost use Rattle.gx_processor.specs.Promises.{Promises};
ghost use Rattle.gx_processor.specs.Replies.{IsQueryReply, RepliesSo, LoadsSo, IsWellFormed, IsMisuse, IsUsageOrStarved, IsReplyOf, IsDocumentFault, IsFaultOrStarved, IsOutputOrStarved, IsComparison, IsWorkload};
ghost use Rattle.gx_demo.specs.Workload.{workload_binding, workload_files};
ghost use Rattle.gx_demo.specs.declared.workload.TheConstants.{WORKLOAD_ITEMS};

use crate::command::{Command, command_of_words, texts_to_compare, workload_asked};
use crate::laws::named_queries_have_documents;
use crate::output::output;
use crate::refusal::Refusal;
use crate::reply::Reply;
use crate::status::Status;
use gx_base::code::Code;
use gx_base::limits::FILE_BYTES;
use gx_base::place::Place;
use gx_base::text::Text;
use gx_core::laws::sound_queries_keep_their_types;
use gx_demo::workload::{BINDING, QUERY_FILE, workload};
use gx_documents::bindings::BindingFault;
use gx_documents::documents::DocumentFault;
use gx_documents::laws::{documents_are_as_asked, documents_are_honest, held_trees_are_kept};
use gx_io::{Library, MemoryLibrary, PutError, Sink};
use gx_schema::laws::{imports_are_one, imports_are_schema_sets};
use gx_schema::refusal::SchemaRule;
use gx_static::laws::{query_rejection_names_a_failure, query_typing_is_sound};
use gx_subtype::subtype::{Side, SubtypeError, subtype};
use gx_validate::invalid::InvalidRule;
use gx_xml::refusal::XmlRule;
use std::alloc::{AllocError, Global};

/// Answers the words of the command line over the files of a library: puts the output to `out`, or a fault line to
/// `err`, and says how the run ended.
///
/// `run FILE NAME=FILE ..` writes the value of the query in the file, on the documents that its external variables are bound to
/// (XQuery 1.0, section 2.2; Serialization, section 2), each validated first where the type of its variable names a global element
/// (XML Schema 1.0 part 1, section 3.3.4), and `check FILE` writes the text of the type that the static rules give the query (XQuery 1.0, section 2.2.3.1).
/// `plan FILE` writes the text of a plan of the query to which no rule of rewriting applies, and a line feed.
/// `subtype TEXT TEXT` writes whether the type of the left text is included in that of the right one (XQuery 1.0 and XPath
/// 2.0 Formal Semantics, section 8.3): `yes`, `no: ` with the first list of shapes that is not, or `unknown`.
/// `demo N` writes what a query answers over an auction of N items that it makes itself, and a line feed.
pub fn galax<L: Library, O: Sink, E: Sink>(
    alloc: Global,
    words: &[String],
    library: &mut L,
    out: &mut O,
    err: &mut E,
) -> Status
    ensures { Promises (record {
      words = bytes_of words.now;
      library = library_use L.files L.faults L.was_loaded library.old library.new;
      status = result;
      out = sink_use O.written O.faults O.was_put out.old out.new;
      err = sink_use E.written E.faults E.was_put err.old err.new;
    }) }
{
    query_typing_is_sound();
    sound_queries_keep_their_types();
    query_rejection_names_a_failure();
    documents_are_honest();
    named_queries_have_documents();
    held_trees_are_kept();
    documents_are_as_asked();
    imports_are_schema_sets();
    imports_are_one();
    let reply = reply_to(alloc, words, library);
    finish(reply, out, err)
}

// What the program replies to its words.
fn reply_to<L: Library>(alloc: Global, words: &[String], library: &mut L) -> Reply
    ensures told { L.files library.new ≡ L.files library.old }
    ensures counted { L.faults library.old ≤ L.faults library.new }
    ensures loads { LoadsSo (library_use L.files L.faults L.was_loaded library.old library.new) (command_of (bytes_of words.now)) result }
    ensures answer { IfSome (L.files library.old) (λ files. RepliesSo result (Answers (bytes_of words.now) files)) }
    ensures cause { IsWellFormed (bytes_of words.now) result }
    ensures usage { (line : List ℕ) → IsMisuse (bytes_of words.now) line → IsUsageOrStarved result }
{
    if let Some((left, right)) = texts_to_compare(words) {
        return comparison(alloc, left, right);
    }
    if let Some(items) = workload_asked(words) {
        return workload_reply(alloc, items);
    }
    match command_of_words(words) {
        Some(command) => query_reply(alloc, command, library),
        None => fault(alloc, Status::Usage, "Usage: words", ""),
    }
}

// What the program replies where it is to run the workload over so many items. The run refuses none of its files.
fn workload_reply(alloc: Global, items: u32) -> Reply
    requires { items ≤ WORKLOAD_ITEMS }
    ensures { IsWorkload items result }
{
    match (workload(alloc, items), String::from_str(alloc, BINDING)) {
        (Ok(files), Ok(binding)) => workload_run(alloc, files, binding),
        _ => Reply::Starved,
    }
}

// What the program replies where the query of the workload is run over these files.
fn workload_run(alloc: Global, files: MemoryLibrary, binding: String) -> Reply
    ensures { (items : ℕ) → files.files ≡ workload_files items → string_bytes binding ≡ workload_binding → IsWorkload items result }
{
    let bindings = [binding];
    let mut library = files;
    match query_reply(alloc, Command::Run(QUERY_FILE, &bindings), &mut library) {
        Reply::Output(text) => output_line(text),
        Reply::Fault(_, _) | Reply::Starved => Reply::Starved,
    }
}

// What the program replies to a command over a query.
fn query_reply<L: Library>(alloc: Global, command: Command<'_>, library: &mut L) -> Reply
    ensures told { L.files library.new ≡ L.files library.old }
    ensures counted { L.faults library.old ≤ L.faults library.new }
    ensures loads { LoadsSo (library_use L.files L.faults L.was_loaded library.old library.new) (Some (plain_command command.entry)) result }
    ensures answer { IfSome (L.files library.old) (λ files. RepliesSo result (AnswersCommand files (Some (plain_command command.entry)))) }
    ensures cause { IsQueryReply (plain_command command.entry) result }
{
    imports_are_one();
    match output(alloc, command, library) {
        Ok(text) => Reply::Output(text),
        Err(refusal) => refused(alloc, command.file(), refusal),
    }
}

// What the program replies to a refusal of a command over a file.
fn refused(alloc: Global, file: &str, refusal: Refusal) -> Reply
    ensures { IsReplyOf file.now refusal result }
{
    match refusal {
        Refusal::ReadFault => fault(alloc, Status::ReadFault, "ReadFault ", file),
        Refusal::TooLong => fault(alloc, Status::Query, Code::GLXS0001.text(), ""),
        Refusal::Query { code, place } => placed_fault(alloc, code, place),
        Refusal::SchemaFile(name, found) => {
            document_fault(alloc, Status::Schema, name.as_str(), found)
        }
        Refusal::Schema { rule, file, shown } => import_fault(alloc, rule, file.as_str(), &shown),
        Refusal::Binding(found) => misbound(alloc, found),
        Refusal::Document(name, found) => {
            document_fault(alloc, Status::Document, name.as_str(), found)
        }
        Refusal::Dynamic(code) => fault(alloc, Status::Dynamic, code.text(), ""),
        Refusal::Memory => Reply::Starved,
    }
}

// A refusal of the words that bind external variables.
fn misbound(alloc: Global, found: BindingFault) -> Reply
    ensures { IsFaultOrStarved Status.Usage (binding_line (plain_fault found)) result }
{
    match found {
        BindingFault::Unknown(name) => fault(
            alloc,
            Status::Usage,
            "Usage: unknown ",
            name.as_str(),
        ),
        BindingFault::Doubled(name) => fault(
            alloc,
            Status::Usage,
            "Usage: doubled ",
            name.as_str(),
        ),
        BindingFault::Missing(name) => fault(
            alloc,
            Status::Usage,
            "Usage: missing ",
            name.as_str(),
        ),
    }
}

// A refusal of the document in a file.
fn document_fault(alloc: Global, status: Status, file: &str, found: DocumentFault) -> Reply
    ensures { IsDocumentFault status file.now found result }
{
    match found {
        DocumentFault::Unread => fault(alloc, Status::ReadFault, "ReadFault ", file),
        DocumentFault::TooLong => fault(alloc, status, "TooLong in ", file),
        DocumentFault::Refused(rule, place) => broken_rule(alloc, status, rule, file, place),
        DocumentFault::Invalid(rule, path) => invalid_document(alloc, status, rule, file, &path),
    }
}

// A refusal of a document with the rule of validity that it breaks and the path of the element.
fn invalid_document(
    alloc: Global,
    status: Status,
    rule: InvalidRule,
    file: &str,
    path: &Text,
) -> Reply
    ensures { IsFaultOrStarved status (invalid_line rule file.now path.now) result }
{
    let path = path.as_str();
    match format!(in alloc; "{} in {file} at {path}\n", invalid_rule_name(rule)) {
        Ok(text) => Reply::Fault(status, text),
        Err(AllocError) => Reply::Starved,
    }
}

// The name of a rule of validity in a fault line.
fn invalid_rule_name(rule: InvalidRule) -> &'static str
    ensures { result.now ≡ invalid_rule_name rule }
{
    match rule {
        InvalidRule::WrongRoot => "WrongRoot",
        InvalidRule::WrongContent => "WrongContent",
        InvalidRule::MissingAttribute => "MissingAttribute",
        InvalidRule::ExtraAttribute => "ExtraAttribute",
        InvalidRule::BadSimpleValue => "BadSimpleValue",
        InvalidRule::BadXsiType => "BadXsiType",
        InvalidRule::TextInElementContent => "TextInElementContent",
        InvalidRule::Nil => "Nil",
    }
}

// A refusal of a document with the rule that it breaks and the place.
fn broken_rule(alloc: Global, status: Status, rule: XmlRule, file: &str, place: Place) -> Reply
    ensures { IsFaultOrStarved status (document_line rule file.now place) result }
{
    let Place { line, column } = place;
    match format!(in alloc; "{} in {file} at {line}:{column}\n", rule_name(rule)) {
        Ok(text) => Reply::Fault(status, text),
        Err(AllocError) => Reply::Starved,
    }
}

// A refusal of schema files with the rule that they break, the file and what breaks it.
fn import_fault(alloc: Global, rule: SchemaRule, file: &str, shown: &Text) -> Reply
    ensures { IsFaultOrStarved Status.Schema (import_line rule file.now shown.now) result }
{
    let shown = shown.as_str();
    match format!(in alloc; "{} in {file}: {shown}\n", schema_rule_name(rule)) {
        Ok(text) => Reply::Fault(Status::Schema, text),
        Err(AllocError) => Reply::Starved,
    }
}

// The name of a rule for schema files in a fault line.
fn schema_rule_name(rule: SchemaRule) -> &'static str
    ensures { result.now ≡ schema_rule_name rule }
{
    match rule {
        SchemaRule::NotInProfile => "NotInProfile",
        SchemaRule::UnknownName => "UnknownName",
        SchemaRule::Inconsistent => "Inconsistent",
        SchemaRule::Circular => "Circular",
        SchemaRule::TooLarge => "TooLarge",
        SchemaRule::NotARestriction => "NotARestriction",
        SchemaRule::TooManyPairs => "TooManyPairs",
    }
}

// The name of a rule in a fault line.
fn rule_name(rule: XmlRule) -> &'static str
    ensures { result.now ≡ xml_rule_name rule }
{
    match rule {
        XmlRule::NotUtf8 => "NotUtf8",
        XmlRule::Malformed => "Malformed",
        XmlRule::Doctype => "Doctype",
        XmlRule::UnboundPrefix => "UnboundPrefix",
        XmlRule::DuplicateAttribute => "DuplicateAttribute",
        XmlRule::TooDeep => "TooDeep",
    }
}

// What the program replies where two type texts are compared.
fn comparison(alloc: Global, left: &str, right: &str) -> Reply
    requires left { length left.now ≤ FILE_BYTES }
    requires right { length right.now ≤ FILE_BYTES }
    ensures { IsComparison (chars left.now) (chars right.now) result }
{
    match subtype(alloc, left, right) {
        Ok(answer) => output_line(answer),
        Err(SubtypeError::NoType(Side::Left)) => fault(alloc, Status::Usage, "Usage: type 1", ""),
        Err(SubtypeError::NoType(Side::Right)) => fault(alloc, Status::Usage, "Usage: type 2", ""),
        Err(SubtypeError::Memory) => Reply::Starved,
    }
}

// An output that is one line.
fn output_line(text: String) -> Reply
    ensures { IsOutputOrStarved (line (string_bytes text)) result }
{
    let mut line = text;
    match line.push('\n') {
        Ok(()) => Reply::Output(line),
        Err(_) => Reply::Starved,
    }
}

// A refusal of the query with its code and its place.
fn placed_fault(alloc: Global, code: Code, place: Place) -> Reply
    ensures { IsFaultOrStarved Status.Query (placed_line code place) result }
{
    let Place { line, column } = place;
    match format!(in alloc; "{} at {line}:{column}\n", code.text()) {
        Ok(text) => Reply::Fault(Status::Query, text),
        Err(AllocError) => Reply::Starved,
    }
}

// A refusal with its line, which has two parts.
fn fault(alloc: Global, status: Status, start: &str, end: &str) -> Reply
    ensures { IsFaultOrStarved status (line (start.now ++ end.now)) result }
{
    match fault_line(alloc, start, end) {
        Ok(text) => Reply::Fault(status, text),
        Err(AllocError) => Reply::Starved,
    }
}

fn fault_line(alloc: Global, start: &str, end: &str) -> Result<String, AllocError>
    ensures { IfOk result (λ text. string_bytes text ≡ line (start.now ++ end.now)) }
{
    let mut text = String::from_str(alloc, start)?;
    text.push_str(end)?;
    text.push('\n')?;
    Ok(text)
}

fn finish<O: Sink, E: Sink>(reply: Reply, out: &mut O, err: &mut E) -> Status
    ensures { Ends reply result
        (sink_use O.written O.faults O.was_put out.old out.new)
        (sink_use E.written E.faults E.was_put err.old err.new) }
{
    match reply {
        Reply::Output(text) => write_output(text.as_str(), out, err),
        Reply::Fault(status, line) => report(status, line.as_str(), err),
        Reply::Starved => Status::Memory,
    }
}

fn write_output<O: Sink, E: Sink>(text: &str, out: &mut O, err: &mut E) -> Status
    ensures { PutOutput text.now result
        (sink_use O.written O.faults O.was_put out.old out.new)
        (sink_use E.written E.faults E.was_put err.old err.new) }
{
    match out.put(text.as_bytes()) {
        Ok(()) => Status::Done,
        Err(PutError::Failed) => report(Status::WriteFault, "WriteFault\n", err),
        Err(PutError::Memory) => Status::Memory,
    }
}

// Puts a line in one piece.
fn report<E: Sink>(status: Status, line: &str, err: &mut E) -> Status
    ensures { Put status line.now result
        (sink_use E.written E.faults E.was_put err.old err.new) }
{
    match err.put(line.as_bytes()) {
        Ok(()) => status,
        Err(PutError::Failed) => Status::WriteFault,
        Err(PutError::Memory) => Status::Memory,
    }
}
