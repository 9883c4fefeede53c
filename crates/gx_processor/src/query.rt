// Queries with their types.

ghost use Rattle.std.specs.Prelude.{◌≡◌, ◌≤◌, true, [], ◌∷◌, length, IfOk, IfErr, IfSome, Some, None};
ghost use Rattle.gx_base.specs.Code.{is_static};
ghost use Rattle.gx_core.specs.Invariant.{CallsDeclaredFunctions, HasQueryVariablesInOrder};
ghost use Rattle.gx_core.specs.QueryMeaning.{plain_query, IsSoundQuery};
ghost use Rattle.gx_static.specs.QueryJudgement.{query_judged, query_typed};
ghost use Rattle.gx_io.specs.Calls.{Loads};
ghost use Rattle.gx_io.specs.Faults.{Rose};
ghost use Rattle.gx_io.specs.LibraryUse.{library_use};
ghost use Rattle.gx_io.specs.Load.{file_of};
ghost use Rattle.gx_parse_grammar.specs.Query.{Parses, parsed};
ghost use Rattle.gx_processor.specs.Answer.{AnswersFile, AnswersBytes, AnswersNamed, AnswersJudged};
ghost use Rattle.gx_documents.specs.Documents.{Files};
ghost use Rattle.gx_rule_laws.specs.TypedQueries.{IsTypedWell};
ghost use Rattle.gx_types.specs.SchemaInvariant.{IsSchemaSet};
ghost use Rattle.gx_processor.specs.ExternalDocuments.{ExternalsAreDocuments};
ghost use Rattle.gx_processor.specs.Command.{Command};
ghost use Rattle.gx_processor.specs.QueryReplies.{AreOfNone, HoldsNone, HoldsThisTree, QuerySo, TreeSo};
ghost use Rattle.gx_processor.specs.NamedQuery.{query_named, named_query};
ghost use Rattle.gx_processor.specs.Replies.{RefusesSo, IsOfRules, IsOfText};
ghost use Rattle.gx_processor.specs.RuleCode.{rule_code};

use crate::imports::imported_schemas;
use crate::laws::{named_queries_have_documents, named_queries_name_written_types};
use crate::refusal::Refusal;
use gx_ast::dismantle::dismantle;
use gx_ast::query::{Definition, DefinitionNode, Initialiser, Query};
use gx_base::code::Code;
use gx_base::limits::FILE_BYTES;
use gx_core::expression::{Core, TypedCore};
use gx_io::{Library, LoadError};
use gx_names::resolve::resolve;
use gx_names_scope::refusal::NameRefusal;
use gx_normal::normalise::normalise;
use gx_parse::parser::parse;
use gx_parse_grammar::refusal::{SyntaxRefusal, SyntaxRule};
use gx_static::error::InferError;
use gx_static::infer::infer;
use gx_types::schemas::Schemas;
use std::alloc::{AllocError, Global};

/// A query with the types that the static rules give it under the schemas that it imports.
#[derive(Drop)]
pub struct TypedQuery {
    pub schemas: Schemas,
    pub core: TypedCore,
}

/// The query in a file of the library, with the types that the static rules give it under the schemas that it imports from other
/// files (XQuery 1.0, sections 2.2.3.1 and 4.11).
pub fn typed_query<L: Library>(
    alloc: Global,
    file: &str,
    library: &mut L,
) -> Result<TypedQuery, Refusal>
    ensures query { QuerySo (library_use L.files L.faults L.was_loaded library.old library.new) file.now result }
    ensures told { L.files library.new ≡ L.files library.old }
    ensures counted { L.faults library.old ≤ L.faults library.new }
    ensures typed { IfOk result (λ query. query_judged query.schemas (plain_query query.core) ≡ query_typed query.core) }
    ensures well { IfOk result (λ query. IsTypedWell query.schemas query.core) }
    ensures sound { IfOk result (λ query. IsSoundQuery query.schemas query.core) }
    ensures set { IfOk result (λ query. IsSchemaSet query.schemas) }
    ensures externals { IfOk result (λ query. ExternalsAreDocuments query.schemas (plain_query query.core).declarations) }
{
    match tree_in(alloc, file, library) {
        Ok(tree) => query_of(alloc, tree, library),
        Err(refusal) => Err(refusal),
    }
}

// The query of a tree, which ends here.
fn query_of<L: Library>(alloc: Global, tree: Query, library: &mut L) -> Result<TypedQuery, Refusal>
    ensures query { TreeSo (library_use L.files L.faults L.was_loaded library.old library.new) tree result }
    ensures told { L.files library.new ≡ L.files library.old }
    ensures counted { L.faults library.old ≤ L.faults library.new }
    ensures typed { IfOk result (λ query. query_judged query.schemas (plain_query query.core) ≡ query_typed query.core) }
    ensures well { IfOk result (λ query. IsTypedWell query.schemas query.core) }
    ensures sound { IfOk result (λ query. IsSoundQuery query.schemas query.core) }
    ensures set { IfOk result (λ query. IsSchemaSet query.schemas) }
    ensures externals { IfOk result (λ query. ExternalsAreDocuments query.schemas (plain_query query.core).declarations) }
{
    match imported_schemas(alloc, &tree, library) {
        Ok(schemas) => query_under(alloc, tree, schemas),
        Err(refusal) => {
            drop_query(alloc, tree);
            Err(refusal)
        }
    }
}

// The query of a tree under schemas. The tree ends here.
fn query_under(alloc: Global, tree: Query, schemas: Schemas) -> Result<TypedQuery, Refusal>
    requires set { IsSchemaSet schemas }
    ensures schemas { IfOk result (λ query. query.schemas ≡ schemas) }
    ensures named { IfOk result (λ query. query_named schemas tree ≡ named_query (plain_query query.core)) }
    ensures typed { IfOk result (λ query. query_judged query.schemas (plain_query query.core) ≡ query_typed query.core) }
    ensures well { IfOk result (λ query. IsTypedWell query.schemas query.core) }
    ensures sound { IfOk result (λ query. IsSoundQuery query.schemas query.core) }
    ensures set { IfOk result (λ query. IsSchemaSet query.schemas) }
    ensures externals { IfOk result (λ query. ExternalsAreDocuments query.schemas (plain_query query.core).declarations) }
    ensures refused { IfErr result (λ refusal. (files : Files) (command : Command) → RefusesSo refusal (AnswersNamed files command schemas (query_named schemas tree))) }
    ensures cause { IfErr result IsOfRules }
{
    named_queries_have_documents();
    named_queries_name_written_types();
    let named = core_of(alloc, &schemas, tree)?;
    let core = typed_core(alloc, &schemas, named)?;
    Ok(TypedQuery { schemas, core })
}

// The tree of the query in a file.
fn tree_in<L: Library>(alloc: Global, file: &str, library: &mut L) -> Result<Query, Refusal>
    ensures loads { Loads L.was_loaded (file.now ∷ []) library.old library.new }
    ensures told { L.files library.new ≡ L.files library.old }
    ensures counted { L.faults library.old ≤ L.faults library.new }
    ensures tree { IfSome (L.files library.old) (λ files. IfOk result (HoldsThisTree files file.now)) }
    ensures refused { IfSome (L.files library.old) (λ files. IfErr result (λ refusal.
        (command : Command) → RefusesSo refusal (AnswersFile files command (file_of files file.now)))) }
    ensures none { IfSome (L.files library.old) (λ files. IfErr result (HoldsNone files file.now)) }
    ensures cause { IfErr result (IsOfText (Rose (L.faults library.old) (L.faults library.new))) }
{
    let bytes = bytes_of(alloc, file, library)?;
    tree_of(alloc, bytes.as_slice())
}

// The bytes of a file that is not too long.
fn bytes_of<L: Library>(alloc: Global, file: &str, library: &mut L) -> Result<Vec<u8>, Refusal>
    ensures loads { Loads L.was_loaded (file.now ∷ []) library.old library.new }
    ensures told { L.files library.new ≡ L.files library.old }
    ensures counted { L.faults library.old ≤ L.faults library.new }
    ensures held { IfSome (L.files library.old) (λ files. IfOk result (λ bytes. file_of files file.now ≡ Some bytes.items)) }
    ensures within { IfOk result (λ bytes. length bytes.items ≤ FILE_BYTES) }
    ensures refused { IfSome (L.files library.old) (λ files. IfErr result (λ refusal.
        (command : Command) → RefusesSo refusal (AnswersFile files command (file_of files file.now)))) }
    ensures none { IfSome (L.files library.old) (λ files. IfErr result (HoldsNone files file.now)) }
    ensures cause { IfErr result (IsOfText (Rose (L.faults library.old) (L.faults library.new))) }
{
    match library.load(alloc, file, FILE_BYTES) {
        Ok(bytes) => Ok(bytes),
        Err(LoadError::TooLong { .. }) => Err(Refusal::TooLong),
        Err(LoadError::Failed) => Err(Refusal::ReadFault),
        Err(LoadError::Memory) => Err(Refusal::Memory),
    }
}

// The syntax tree of the bytes.
fn tree_of(alloc: Global, bytes: &[u8]) -> Result<Query, Refusal>
    requires { length bytes.now ≤ FILE_BYTES }
    ensures tree { IfOk result (λ tree. Parses bytes.now (parsed tree)) }
    ensures refused { IfErr result (λ refusal. (files : Files) (command : Command) → RefusesSo refusal (AnswersBytes files command bytes.now)) }
    ensures none { IfErr result (AreOfNone bytes.now) }
    ensures cause { IfErr result (IsOfText ⊥) }
{
    match parse(alloc, bytes) {
        Ok(tree) => Ok(tree),
        Err(SyntaxRefusal::Refused { rule, place }) => {
            let code = rule_code(rule);
            Err(Refusal::Query { code, place })
        }
        Err(SyntaxRefusal::Memory) => Err(Refusal::Memory),
    }
}

// The code of a rule of syntax.
fn rule_code(rule: SyntaxRule) -> Code
    ensures code { result ≡ rule_code rule }
    ensures fixed { is_static result ≡ true }
{
    match rule {
        SyntaxRule::NotUtf8 | SyntaxRule::Syntax => Code::XPST0003,
        SyntaxRule::TooNested => Code::GLXS0002,
        SyntaxRule::LiteralTooLarge => Code::GLXS0003,
        SyntaxRule::BadReference => Code::XQST0090,
    }
}

// Drops a query, its trees by a loop.
fn drop_query(alloc: Global, query: Query) {
    let Query {
        version: _,
        settings: _,
        definitions,
        body,
    } = query;
    for definition in definitions.into_vec() {
        drop_definition(alloc, definition);
    }
    dismantle(alloc, body);
}

fn drop_definition(alloc: Global, definition: Definition) {
    let Definition { place: _, node } = definition;
    match node {
        DefinitionNode::Variable(_variable, _kind, initialiser) => {
            drop_initialiser(alloc, initialiser);
        }
        DefinitionNode::Function(_name, _parameters, _kind, body) => dismantle(alloc, body),
    }
}

fn drop_initialiser(alloc: Global, initialiser: Initialiser) {
    if let Initialiser::Value(value) = initialiser {
        dismantle(alloc, value);
    }
}

// The Core of a tree under schemas. The tree ends here.
#[tactic(auto, using(crate::proofs::QueryLemmas::named_so, crate::proofs::QueryLemmas::refused_so, crate::proofs::QueryLemmas::static_name))]
fn core_of(alloc: Global, schemas: &Schemas, tree: Query) -> Result<Core, Refusal>
    ensures core { IfOk result (λ core. query_named schemas.now tree ≡ named_query core) }
    ensures variables { IfOk result (λ core. HasQueryVariablesInOrder core) }
    ensures calls { IfOk result (λ core. CallsDeclaredFunctions core) }
    ensures refused { IfErr result (λ refusal. (files : Files) (command : Command) → RefusesSo refusal (AnswersNamed files command schemas.now (query_named schemas.now tree))) }
    ensures cause { IfErr result IsOfRules }
{
    let resolved = resolve(alloc, &tree, schemas);
    drop_query(alloc, tree);
    match resolved {
        Ok(resolved) => Ok(normalise(alloc, resolved)?),
        Err(NameRefusal::Refused { code, place }) => Err(Refusal::Query { code, place }),
        Err(NameRefusal::Memory) => Err(Refusal::Memory),
    }
}

// A Core with its types under schemas.
#[tactic(auto, using(crate::proofs::QueryLemmas::static_type))]
fn typed_core(alloc: Global, schemas: &Schemas, core: Core) -> Result<TypedCore, Refusal>
    requires variables { HasQueryVariablesInOrder core }
    requires calls { CallsDeclaredFunctions core }
    ensures typed { IfOk result (λ t. query_judged schemas.now core ≡ query_typed t) }
    ensures same { IfOk result (λ t. plain_query t ≡ core) }
    ensures sound { IfOk result (λ t. IsSoundQuery schemas.now t) }
    ensures refused { IfErr result (λ refusal.
        (files : Files) (command : Command) → RefusesSo refusal (AnswersJudged files command schemas.now core (query_judged schemas.now core))) }
    ensures cause { IfErr result IsOfRules }
{
    match infer(alloc, schemas, core) {
        Ok(typed) => Ok(typed),
        Err(InferError::NoType { place, code }) => Err(Refusal::Query { code, place }),
        Err(InferError::Memory) => Err(Refusal::Memory),
    }
}
