// Runs of queries that have a type.

ghost use Rattle.std.specs.Global.{Global};
ghost use Rattle.std.specs.Prelude.{◌≡◌, ◌≢◌, ◌<◌, ℕ, List, All, IfOk, IfErr, length, map, option_map, MatchResult, None, true, string_bytes, ◌≤◌};
ghost use Rattle.gx_core.specs.Outcome.{gives, wrong};
ghost use Rattle.gx_core.specs.QueryMeaning.{plain_declaration, plain_query, IsSoundQuery};
ghost use Rattle.gx_core.specs.Refusal.{Fails};
ghost use Rattle.gx_documents.specs.BindingView.{word_bytes};
ghost use Rattle.gx_documents.specs.Bindings.{files_bound, misbound, word_of_name};
ghost use Rattle.gx_documents.specs.Documents.{document_nodes};
ghost use Rattle.gx_documents.specs.Requests.{all_asked, asked_by};
ghost use Rattle.gx_eval.specs.TableJoins.{MayJoinByTables};
ghost use Rattle.gx_include.specs.Decision.{is_included};
ghost use Rattle.gx_io.specs.LibraryUse.{library_use};
ghost use Rattle.gx_nodes.specs.Entries.{count_in};
ghost use Rattle.gx_store.specs.Items.{items_in};
ghost use Rattle.gx_store.specs.Places.{node_places};
ghost use Rattle.gx_types.specs.SchemaInvariant.{IsSchemaSet};
ghost use Rattle.gx_processor.specs.ExternalDocuments.{AreDocumentsOf, ExternalsAreDocuments, IsAskedOfEach};
ghost use Rattle.gx_plan.specs.PlanMeaning.{plan_outcome};
ghost use Rattle.gx_rules.specs.Normal.{IsNormalPlan};
ghost use Rattle.gx_rule_laws.specs.TypedQueries.{IsTypedWell};
ghost use Rattle.gx_processor.specs.Answer.{writable_type, can_be_written, AnswersEvaluated, AnswersOutcome};
ghost use Rattle.gx_processor.specs.Command.{bytes_of};
ghost use Rattle.gx_processor.specs.Externals.{documents_asked, external_words, root_asked, root_named};
ghost use Rattle.gx_processor.specs.RunReplies.{AnswersSo, BindFiles, IsEvaluated, IsMisboundSo, IsReadSo, RunsOver, RunsSo, unread};

use crate::plan::{dismantle_plan, plan_of};
use crate::query::TypedQuery;
use crate::refusal::Refusal;
use crate::serialise::serialise;
use gx_base::code::Code;
use gx_base::name::Name;
use gx_base::text_builder::TextBuilder;
use gx_base::type_name::{Builtin, TypeName};
use gx_core::dismantle::dismantle_query;
use gx_core::dyn_error::DynError;
use gx_core::expression::{TypedCore, TypedDeclaration};
use gx_core::laws::{
    queries_raise_dynamic_codes, query_meaning_looks_at_no_type, sound_queries_keep_their_types,
};
use gx_documents::bindings::{BindingError, bound_files};
use gx_documents::documents::{
    DocumentForm, DocumentRequest, DocumentsError, document_nodes, read_documents,
};
use gx_documents::laws::{documents_are_as_asked, documents_are_honest};
use gx_eval::evaluator::evaluate;
use gx_include::decision::is_included;
use gx_io::Library;
use gx_join_laws::laws::joined_plans_have_the_outcome;
use gx_plan::laws::plans_have_the_outcome_of_their_typed_core;
use gx_plan::plan::Plan;
use gx_rule_laws::laws::rewritten_plans_have_the_outcome;
use gx_store::item::Item;
use gx_store::number::NodeId;
use gx_store::store::Store;
use gx_types::item_type::ItemType;
use gx_types::schemas::Schemas;
use gx_types::sequence_type::{Ty, TyNode};
use gx_types::type_rules::{alt, star};
use std::alloc::{AllocError, Global};

/// The serialisation of the value of a query that is typed soundly, on the documents that the words bind its external variables to.
/// The query ends here.
pub fn run<L: Library>(
    alloc: Global,
    query: TypedQuery,
    words: &[String],
    library: &mut L,
) -> Result<String, Refusal>
    requires schemas { IsSchemaSet query.schemas }
    requires well { IsTypedWell query.schemas query.core }
    requires sound { IsSoundQuery query.schemas query.core }
    requires externals { ExternalsAreDocuments query.schemas (plain_query query.core).declarations }
    ensures told { L.files library.new ≡ L.files library.old }
    ensures counted { L.faults library.old ≤ L.faults library.new }
    ensures runs { RunsSo (library_use L.files L.faults L.was_loaded library.old library.new) (bytes_of words.now) query.schemas query.core result }
{
    let TypedQuery { schemas, core } = query;
    match documents_of(alloc, &schemas, &core, words, library) {
        Ok(store) => value_text(alloc, &schemas, core, store),
        Err(refusal) => {
            dismantle_query(alloc, core);
            Err(refusal)
        }
    }
}

// The documents of a query whose value can be written.
fn documents_of<L: Library>(
    alloc: Global,
    schemas: &Schemas,
    core: &TypedCore,
    words: &[String],
    library: &mut L,
) -> Result<Store, Refusal>
    requires schemas { IsSchemaSet schemas.now }
    requires externals { ExternalsAreDocuments schemas.now (plain_query core.now).declarations }
    ensures told { L.files library.new ≡ L.files library.old }
    ensures counted { L.faults library.old ≤ L.faults library.new }
    ensures documents { IfOk result (λ store. AreDocumentsOf schemas.now (plain_query core.now).declarations store) }
    ensures runs { RunsOver Global (library_use L.files L.faults L.was_loaded library.old library.new) (bytes_of words.now) schemas.now core.now result }
{
    match is_writable(alloc, schemas, &core.body.kind) {
        Ok(true) => bound_documents(alloc, schemas, core, words, library),
        Ok(false) => Err(Refusal::Query {
            code: Code::SENR0001,
            place: core.body.outer,
        }),
        Err(AllocError) => Err(Refusal::Memory),
    }
}

// The documents that the words bind.
fn bound_documents<L: Library>(
    alloc: Global,
    schemas: &Schemas,
    core: &TypedCore,
    words: &[String],
    library: &mut L,
) -> Result<Store, Refusal>
    requires schemas { IsSchemaSet schemas.now }
    requires externals { ExternalsAreDocuments schemas.now (plain_query core.now).declarations }
    requires writable { can_be_written schemas.now core.now ≡ true }
    ensures told { L.files library.new ≡ L.files library.old }
    ensures counted { L.faults library.old ≤ L.faults library.new }
    ensures documents { IfOk result (λ store. AreDocumentsOf schemas.now (plain_query core.now).declarations store) }
    ensures runs { RunsOver Global (library_use L.files L.faults L.was_loaded library.old library.new) (bytes_of words.now) schemas.now core.now result }
{
    match files_of(alloc, core, words) {
        Ok(files) => documents_in(alloc, schemas, core, files.as_slice(), library),
        Err(refusal) => Err(refusal),
    }
}

// The documents in files, one for each external variable.
fn documents_in<L: Library>(
    alloc: Global,
    schemas: &Schemas,
    core: &TypedCore,
    files: &[String],
    library: &mut L,
) -> Result<Store, Refusal>
    requires schemas { IsSchemaSet schemas.now }
    requires externals { ExternalsAreDocuments schemas.now (plain_query core.now).declarations }
    requires writable { can_be_written schemas.now core.now ≡ true }
    requires each { length (word_bytes files.now) ≡ length (external_words (plain_query core.now).declarations) }
    ensures told { L.files library.new ≡ L.files library.old }
    ensures counted { L.faults library.old ≤ L.faults library.new }
    ensures documents { IfOk result (λ store. AreDocumentsOf schemas.now (plain_query core.now).declarations store) }
    ensures runs { (bindings : List (List ℕ)) → BindFiles (plain_query core.now).declarations bindings (word_bytes files.now)
        → RunsOver Global (library_use L.files L.faults L.was_loaded library.old library.new) bindings schemas.now core.now result }
{
    let declarations = core.declarations.as_slice();
    match document_requests(alloc, declarations, files) {
        Ok(requests) => documents_asked(alloc, schemas, core, requests.as_slice(), library),
        Err(AllocError) => Err(Refusal::Memory),
    }
}

// The documents that are asked for.
fn documents_asked<L: Library>(
    alloc: Global,
    schemas: &Schemas,
    core: &TypedCore,
    requests: &[DocumentRequest<'_>],
    library: &mut L,
) -> Result<Store, Refusal>
    requires schemas { IsSchemaSet schemas.now }
    requires externals { ExternalsAreDocuments schemas.now (plain_query core.now).declarations }
    requires each { IsAskedOfEach (plain_query core.now).declarations (all_asked requests.now) }
    ensures told { L.files library.new ≡ L.files library.old }
    ensures counted { L.faults library.old ≤ L.faults library.new }
    ensures documents { IfOk result (λ store. AreDocumentsOf schemas.now (plain_query core.now).declarations store) }
    ensures read { IsReadSo (library_use L.files L.faults L.was_loaded library.old library.new) (all_asked requests.now) schemas.now result }
{
    match read_documents(alloc, schemas, requests, library) {
        Ok(store) => Ok(store),
        Err(error) => Err(unread(error)),
    }
}

// What is asked of files, one for each external variable.
fn document_requests<'a>(
    alloc: Global,
    declarations: &'a [TypedDeclaration],
    files: &'a [String],
) -> Result<Vec<DocumentRequest<'a>>, AllocError>
    ensures { IfOk result (λ requests. all_asked requests.items ≡ documents_asked (map plain_declaration declarations.now) (word_bytes files.now)) }
{
    let mut requests = Vec::new(alloc);
    let mut left = declarations;
    let mut files = files;
    while let Some((declaration, others)) = left.split_first() {
        if let TypedDeclaration::Global {
            binder,
            value: None,
            ..
        } = declaration
        {
            let Some((file, rest)) = files.split_first() else {
                return Ok(requests);
            };
            requests.push(document_request(file.as_str(), &binder.kind))?;
            files = rest;
        }
        left = others;
    }
    Ok(requests)
}

// What is asked of the file of a variable of this type.
fn document_request<'a>(file: &'a str, kind: &'a Option<Ty>) -> DocumentRequest<'a>
    ensures { asked_by result ≡ (file.now, root_asked kind.now) }
{
    let form = match root_asked(kind) {
        Some(root) => DocumentForm::Valid(root),
        None => DocumentForm::Untyped,
    };
    DocumentRequest { file, form }
}

// The global element as which the document of a variable is validated, if its type names one.
fn root_asked(kind: &Option<Ty>) -> Option<&Name>
    ensures { option_map (λ root. root.now) result ≡ root_asked kind.now }
{
    match &kind.as_ref()?.node {
        TyNode::Item(item) => root_named(item),
        _ => None,
    }
}

fn root_named(item: &ItemType) -> Option<&Name>
    ensures { option_map (λ root. root.now) result ≡ root_named item.now }
{
    match item {
        ItemType::Document(Some((root, _))) => root.as_ref(),
        _ => None,
    }
}

// The refusal of a file that holds no document.
fn unread(error: DocumentsError) -> Refusal
    ensures { result ≡ unread error }
{
    match error {
        DocumentsError::Failed(file, fault) => Refusal::Document(file, fault),
        DocumentsError::Memory => Refusal::Memory,
    }
}

// The files that the words bind the external variables to.
fn files_of(alloc: Global, core: &TypedCore, words: &[String]) -> Result<Vec<String>, Refusal>
    ensures { MatchResult result
        (λ files. (misbound (external_words (plain_query core.now).declarations) (word_bytes words.now) ≡ None)
        × (word_bytes files.items ≡ files_bound (external_words (plain_query core.now).declarations) (word_bytes words.now)))
        (IsMisboundSo (misbound (external_words (plain_query core.now).declarations) (word_bytes words.now))) }
{
    let variables = external_words(alloc, core.declarations.as_slice())?;
    match bound_files(alloc, variables.as_slice(), words) {
        Ok(files) => Ok(files),
        Err(BindingError::Fault(fault)) => Err(Refusal::Binding(fault)),
        Err(BindingError::Memory) => Err(Refusal::Memory),
    }
}

// The external variables, as words name them.
fn external_words(
    alloc: Global,
    declarations: &[TypedDeclaration],
) -> Result<Vec<String>, AllocError>
    ensures { IfOk result (λ words. word_bytes words.items ≡ external_words (map plain_declaration declarations.now)) }
{
    let mut words = Vec::new(alloc);
    let mut left = declarations;
    while let Some((declaration, others)) = left.split_first() {
        if let TypedDeclaration::Global {
            name,
            value: None,
            ..
        } = declaration
        {
            words.push(word_of_name(alloc, name)?)?;
        }
        left = others;
    }
    Ok(words)
}

// The name of a variable as words have it.
fn word_of_name(alloc: Global, name: &Name) -> Result<String, AllocError>
    ensures { IfOk result (λ word. string_bytes word ≡ word_of_name name.now) }
{
    let mut word = TextBuilder::new(alloc);
    if !name.uri.is_empty() {
        word.push('{')?;
        word.push_text(&name.uri)?;
        word.push('}')?;
    }
    word.push_text(&name.local)?;
    Ok(word.into_string())
}

// Whether the values of a type can be written: none has an attribute.
fn is_writable(alloc: Global, schemas: &Schemas, kind: &Ty) -> Result<bool, AllocError>
    ensures { IfOk result (λ answer. answer ≡ is_included schemas.now kind.now writable_type) }
{
    let writable = writable_type(alloc)?;
    is_included(alloc, schemas, kind, &writable)
}

fn writable_type(alloc: Global) -> Result<Ty, AllocError>
    ensures { IfOk result (λ t. t ≡ writable_type) }
{
    let document = Ty::of_item(alloc, ItemType::Document(None))?;
    let any = TypeName::Builtin(Builtin::AnyType);
    let element = Ty::of_item(
        alloc,
        ItemType::Element {
            name: None,
            kind: any,
        },
    )?;
    let text = Ty::of_item(alloc, ItemType::Text)?;
    let atomic = ItemType::Atom(TypeName::Builtin(Builtin::AnyAtomic));
    let atomic = Ty::of_item(alloc, atomic)?;
    let nodes = alt(alloc, document, element)?;
    let nodes = alt(alloc, nodes, text)?;
    let members = alt(alloc, nodes, atomic)?;
    star(alloc, &members)
}

// The serialisation of the value of a query over the trees of its documents. The query ends here.
fn value_text(
    alloc: Global,
    schemas: &Schemas,
    core: TypedCore,
    store: Store,
) -> Result<String, Refusal>
    requires schemas { IsSchemaSet schemas.now }
    requires well { IsTypedWell schemas.now core }
    requires sound { IsSoundQuery schemas.now core }
    requires externals { ExternalsAreDocuments schemas.now (plain_query core).declarations }
    requires documents { AreDocumentsOf schemas.now (plain_query core).declarations store }
    ensures answers { AnswersSo (AnswersEvaluated schemas.now (plain_query core) store) result }
    ensures own { IsEvaluated result }
{
    sound_queries_keep_their_types();
    documents_are_honest();
    documents_are_as_asked();
    query_meaning_looks_at_no_type();
    rewritten_plans_have_the_outcome();
    joined_plans_have_the_outcome();
    match plan_of(alloc, schemas, core) {
        Ok(plan) => plan_value(alloc, schemas, plan, store),
        Err(AllocError) => Err(Refusal::Memory),
    }
}

// The serialisation of the value of a plan over the trees of documents. The plan ends here.
fn plan_value(alloc: Global, schemas: &Schemas, plan: Plan, store: Store) -> Result<String, Refusal>
    requires normal { IsNormalPlan schemas.now plan }
    requires joins { MayJoinByTables schemas.now plan.query (document_nodes store) store }
    requires right { plan_outcome schemas.now plan.query (document_nodes store) store ≢ wrong }
    ensures answers { AnswersSo (AnswersOutcome (plan_outcome schemas.now plan.query (document_nodes store) store)) result }
    ensures own { IsEvaluated result }
{
    let answer = written(alloc, schemas, &plan, store);
    dismantle_plan(alloc, plan);
    answer
}

#[tactic(auto, using(crate::proofs::RunLemmas::dynamic_error))]
fn written(alloc: Global, schemas: &Schemas, plan: &Plan, store: Store) -> Result<String, Refusal>
    requires normal { IsNormalPlan schemas.now plan.now }
    requires joins { MayJoinByTables schemas.now plan.now.query (document_nodes store) store }
    requires right { plan_outcome schemas.now plan.now.query (document_nodes store) store ≢ wrong }
    ensures answers { AnswersSo (AnswersOutcome (plan_outcome schemas.now plan.now.query (document_nodes store) store)) result }
    ensures own { IsEvaluated result }
{
    query_meaning_looks_at_no_type();
    queries_raise_dynamic_codes();
    plans_have_the_outcome_of_their_typed_core();
    let mut store = store;
    match value_of(alloc, schemas, plan, &mut store) {
        Ok(items) => Ok(serialise(alloc, &store, items.as_slice())?),
        Err(DynError::Raised(code)) => Err(Refusal::Dynamic(code)),
        Err(DynError::Memory) => Err(Refusal::Memory),
    }
}

// The value of a plan over the trees of documents.
fn value_of(
    alloc: Global,
    schemas: &Schemas,
    plan: &Plan,
    store: &mut Store,
) -> Result<Vec<Item>, DynError>
    requires normal { IsNormalPlan schemas.now plan.now }
    requires joins { MayJoinByTables schemas.now plan.now.query (document_nodes store.old) store.old }
    requires right { plan_outcome schemas.now plan.now.query (document_nodes store.old) store.old ≢ wrong }
    ensures value { IfOk result (λ v. plan_outcome schemas.now plan.now.query (document_nodes store.old) store.old ≡ gives (items_in store.new v.items) store.new) }
    ensures raised { IfErr result (λ e. Fails e (plan_outcome schemas.now plan.now.query (document_nodes store.old) store.old)) }
{
    match document_nodes(alloc, store) {
        Ok(documents) => evaluated(alloc, schemas, plan, store, documents.as_slice()),
        Err(AllocError) => Err(DynError::Memory),
    }
}

fn evaluated(
    alloc: Global,
    schemas: &Schemas,
    plan: &Plan,
    store: &mut Store,
    documents: &[NodeId],
) -> Result<Vec<Item>, DynError>
    requires normal { IsNormalPlan schemas.now plan.now }
    requires there { All (λ m. m.number < count_in store.now) documents.now }
    requires nodes { node_places store.now documents.now ≡ document_nodes store.now }
    requires joins { MayJoinByTables schemas.now plan.now.query (document_nodes store.old) store.old }
    requires right { plan_outcome schemas.now plan.now.query (document_nodes store.old) store.old ≢ wrong }
    ensures value { IfOk result (λ v. plan_outcome schemas.now plan.now.query (document_nodes store.old) store.old ≡ gives (items_in store.new v.items) store.new) }
    ensures raised { IfErr result (λ e. Fails e (plan_outcome schemas.now plan.now.query (document_nodes store.old) store.old)) }
{
    evaluate(alloc, schemas, plan, store, documents)
}
