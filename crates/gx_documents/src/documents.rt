// The documents in the files of a library.

ghost use Rattle.std.specs.Prelude.{◌≡◌, ◌<◌, ◌≤◌, ◌++◌, ◌∷◌, [], Ok, Err, length, map, All, IfOk, IfErr, IsSome, MatchResult, OnOk};
ghost use Rattle.gx_io.specs.Faults.{Rose};
ghost use Rattle.gx_nodes.specs.Entries.{count_in};
ghost use Rattle.gx_store.specs.Places.{node_places};
ghost use Rattle.gx_types.specs.SchemaInvariant.{HoldsOfEach};
ghost use Rattle.gx_types.specs.SchemaSet.{global_type};
ghost use Rattle.gx_validate.specs.Outcome.{validated};
ghost use Rattle.gx_xml.specs.Reading.{IsDocumentOf};
ghost use Rattle.gx_xml.specs.SourceTree.{SourceTree};
ghost use Rattle.gx_documents.specs.Documents.{AreGlobal, document_nodes};
ghost use Rattle.gx_documents.specs.BindingView.{word_bytes};
ghost use Rattle.gx_documents.specs.Reading.{EndsAt, HasReason, IsInvalidSo, IsRefusedSo, ReadDocuments, ReadSources, ReadsFrom, TreeReason, WasRead};
ghost use Rattle.gx_documents.specs.Requests.{all_asked};
ghost use Rattle.gx_io.specs.LibraryUse.{library_use};

use gx_base::limits::FILE_BYTES;
use gx_base::name::Name;
use gx_base::place::Place;
use gx_base::text::Text;
use gx_io::{Library, LoadError};
use gx_store::number::NodeId;
use gx_store::store::Store;
use gx_tree::tree::Tree;
use gx_types::schemas::Schemas;
use gx_validate::into_valid::into_valid;
use gx_validate::invalid::{Invalid, InvalidRule};
use gx_xml::document::read_document;
use gx_xml::into_untyped::into_untyped;
use gx_xml::refusal::{XmlRefusal, XmlRule};
use gx_xml::source::Source;
use std::alloc::{AllocError, Global};

/// The form in which the tree of a document is kept.
#[derive(Clone, Copy)]
pub enum DocumentForm<'a> {
    /// Without types, whatever its root.
    Untyped,
    /// With the types of a document that is valid as the global element of this name.
    Valid(&'a Name),
}

/// A file, and the form in which the tree of its document is kept.
#[derive(Clone, Copy)]
pub struct DocumentRequest<'a> {
    pub file: &'a str,
    pub form: DocumentForm<'a>,
}

/// Why nothing is kept of a file: it cannot be read; it is longer than 16,777,216 bytes; a rule refuses it at a place; or its
/// document breaks a rule of validity, at the element of a path.
#[derive(Drop)]
pub enum DocumentFault {
    Unread,
    TooLong,
    Refused(XmlRule, Place),
    Invalid(InvalidRule, Text),
}

/// Why there are no documents: nothing is kept of the file of this name, or memory is wanting.
#[derive(Drop)]
pub enum DocumentsError {
    Failed(String, DocumentFault),
    Memory,
}

// Why nothing is kept.
#[derive(Drop)]
pub(crate) enum TreeError {
    Fault(DocumentFault),
    Memory,
}

impl From<AllocError> for TreeError {
    ghost use Rattle.std.specs.Prelude.{◌≡◌};
    ghost use Rattle.gx_documents.specs.declared.documents.TreeError.TheVariants.{Memory};

    ghost from_gives = { λ _ e. e ≡ Memory };

    fn from(_error: AllocError) -> TreeError {
        TreeError::Memory
    }
}

/// Reads the documents in files, in order, up to the first that holds none or is not valid (XQuery 1.0, section 2.2.1; XML Schema 1.0
/// part 1, section 3.3.4), and puts the tree of each into a store, in the form that is asked for. Each file is loaded once, and none
/// after one of which nothing is kept.
pub fn read_documents<'a, L: Library>(
    alloc: Global,
    schemas: &Schemas,
    requests: &[DocumentRequest<'a>],
    library: &mut L,
) -> Result<Store, DocumentsError>
    requires { AreGlobal schemas.now (all_asked requests.now) }
    ensures reads { ReadDocuments (library_use L.files L.faults L.was_loaded library.old library.new) schemas.entry.now (all_asked requests.entry.now) result }
    ensures told { L.files library.new ≡ L.files library.old }
    ensures counted { L.faults library.old ≤ L.faults library.new }
{
    read_all(alloc, &Trees { schemas }, requests, library)
}

/// Reads the documents in files, in order, up to the first that holds none, as they are written. Each file is loaded once, and
/// none after one that holds no document.
pub fn read_sources<L: Library>(
    alloc: Global,
    files: &[String],
    library: &mut L,
) -> Result<Vec<Source>, DocumentsError>
    ensures reads { MatchResult result
        (λ sources. ReadSources (library_use L.files L.faults L.was_loaded library.old library.new) (word_bytes files.now) (Ok sources.items))
        (λ error. ReadSources (library_use L.files L.faults L.was_loaded library.old library.new) (word_bytes files.now) (Err error)) }
    ensures told { L.files library.new ≡ L.files library.old }
    ensures counted { L.faults library.old ≤ L.faults library.new }
{
    read_all(alloc, &Sources, files, library)
}

// What is kept of the documents in files.
pub(crate) trait Kept {
    // A file, and what is asked of it.
    type Wanted;

    type Form: Drop;

    // All that is kept so far, one behind another.
    type All: Drop;

    ghost use Rattle.std.specs.Prelude.{◌≡◌, List, [], ◌∷◌, ◌++◌, OnOk};
    ghost use Rattle.gx_documents.specs.Documents.{Request};
    ghost use Rattle.gx_documents.specs.Reading.{IsInvalidSo};

    ghost asks: { Self → Self.Wanted → Request Self.Form };

    ghost can_ask: { Self → Self.Wanted → Type 0 };

    ghost in_order: { Self.All → List Self.Form };

    fn nothing(&self, alloc: Global) -> Self::All
        ensures { in_order result ≡ [] };

    fn add(&self, all: &mut Self::All, form: Self::Form) -> Result<(), AllocError>
        ensures { OnOk result (in_order all.new ≡ in_order all.old ++ form ∷ []) };

    fn file<'r>(&self, request: &'r Self::Wanted) -> &'r str
        ensures { result.now ≡ (asks self.now request.entry.now).file };

    fn kept(
        &self,
        alloc: Global,
        request: &Self::Wanted,
        source: Source,
    ) -> Result<Self::Form, TreeError>
        requires { can_ask self.now request.now }
        ensures { MatchResult result (λ form. (asks self.now request.now).outcome source.root ≡ Ok form) (IsInvalidSo ((asks self.now request.now).outcome source.root)) };
}

// Their trees.
#[derive(Drop)]
struct Trees<'s> {
    schemas: &'s Schemas,
}

impl<'s> Kept for Trees<'s> {
    type Wanted = DocumentRequest<'s>;

    type Form = Tree;

    type All = Store;

    ghost use Rattle.gx_documents.specs.Documents.{IsGlobal, tree_request};
    ghost use Rattle.gx_documents.specs.Requests.{asked_by};

    ghost asks = { λ trees request. tree_request trees.schemas.now (asked_by request) };

    ghost can_ask = { λ trees request. IsGlobal trees.schemas.now (asked_by request) };

    ghost in_order = { λ forest. forest };

    fn nothing(&self, alloc: Global) -> Store {
        Store::new(alloc)
    }

    // The store keeps rows of the tree, which goes at once.
    fn add(&self, all: &mut Store, form: Tree) -> Result<(), AllocError> {
        all.load(&form)?;
        Ok(())
    }

    fn file<'r>(&self, request: &'r DocumentRequest<'s>) -> &'r str {
        request.file
    }

    fn kept(
        &self,
        alloc: Global,
        request: &DocumentRequest<'s>,
        source: Source,
    ) -> Result<Tree, TreeError> {
        match request.form {
            DocumentForm::Untyped => Ok(into_untyped(alloc, source)?),
            DocumentForm::Valid(root) => valid_tree(alloc, self.schemas, root, source),
        }
    }
}

// The documents as they are written.
struct Sources;

impl Kept for Sources {
    type Wanted = String;

    type Form = Source;

    type All = Vec<Source>;

    ghost use Rattle.std.specs.String.{string_bytes};
    ghost use Rattle.gx_documents.specs.Documents.{source_request};

    ghost asks = { λ _ file. source_request (string_bytes file) };

    ghost can_ask = { λ _ _. Unit {0} };

    ghost in_order = { λ all. all.items };

    fn nothing(&self, alloc: Global) -> Vec<Source> {
        Vec::new(alloc)
    }

    fn add(&self, all: &mut Vec<Source>, form: Source) -> Result<(), AllocError> {
        Ok(all.push(form)?)
    }

    fn file<'r>(&self, request: &'r String) -> &'r str {
        request.as_str()
    }

    fn kept(&self, _alloc: Global, _request: &String, source: Source) -> Result<Source, TreeError> {
        Ok(source)
    }
}

// The tree of a document that is valid as the global element of a name.
fn valid_tree(
    alloc: Global,
    schemas: &Schemas,
    root: &Name,
    source: Source,
) -> Result<Tree, TreeError>
    requires { IsSome (global_type schemas.now root.now) }
    ensures { MatchResult result (λ t. validated schemas.now root.now source.root ≡ Ok t) (IsInvalidSo (validated schemas.now root.now source.root)) }
{
    match into_valid(alloc, schemas, root, source) {
        Ok(tree) => Ok(tree),
        Err(Invalid::Refused { rule, path }) => {
            Err(TreeError::Fault(DocumentFault::Invalid(rule, path)))
        }
        Err(Invalid::Memory) => Err(TreeError::Memory),
    }
}

fn read_all<K: Kept, L: Library>(
    alloc: Global,
    form: &K,
    requests: &[K::Wanted],
    library: &mut L,
) -> Result<K::All, DocumentsError>
    requires { HoldsOfEach (K.can_ask form.now) requests.now }
    ensures reads { MatchResult result
        (λ all. ReadsFrom (L.files library.old) L.was_loaded L.faults (map (K.asks form.now) requests.now) [] (Ok (K.in_order all)) library.old library.new)
        (λ error. ReadsFrom (L.files library.old) L.was_loaded L.faults (map (K.asks form.now) requests.now) [] (Err error) library.old library.new) }
    ensures told { L.files library.new ≡ L.files library.old }
    ensures counted { L.faults library.old ≤ L.faults library.new }
{
    let mut all = form.nothing(alloc);
    let mut left = requests;
    while let Some((request, others)) = left.split_first() {
        read_next(alloc, form, request, &mut all, library)?;
        left = others;
    }
    Ok(all)
}

/// The document nodes of the trees of a store, in order: those of its nodes that have no parent.
pub fn document_nodes(alloc: Global, store: &Store) -> Result<Vec<NodeId>, AllocError>
    ensures there { IfOk result (λ nodes. All (λ m. m.number < count_in store.now) nodes.items) }
    ensures nodes { IfOk result (λ nodes. node_places store.now nodes.items ≡ document_nodes store.now) }
{
    let mut nodes = Vec::new(alloc);
    for number in 0..store.count() {
        let node = NodeId { number };
        if store.parent(node).is_none() {
            nodes.push(node)?;
        }
    }
    Ok(nodes)
}

// Reads one more document.
fn read_next<K: Kept, L: Library>(
    alloc: Global,
    form: &K,
    request: &K::Wanted,
    all: &mut K::All,
    library: &mut L,
) -> Result<(), DocumentsError>
    requires { K.can_ask form.now request.now }
    ensures loaded { L.was_loaded library.old (K.asks form.now request.now).file library.new }
    ensures told { L.files library.new ≡ L.files library.old }
    ensures counted { L.faults library.old ≤ L.faults library.new }
    ensures next { OnOk result ((next : K.Form) × WasRead (L.files library.old) (K.asks form.now request.now) next × (K.in_order all.new ≡ K.in_order all.old ++ next ∷ [])) }
    ensures ends { IfErr result (EndsAt (L.files library.old) (K.asks form.now request.now) (Rose (L.faults library.old) (L.faults library.new))) }
{
    match document(alloc, form, request, library) {
        Ok(kept) => match form.add(all, kept) {
            Ok(()) => Ok(()),
            Err(_) => Err(DocumentsError::Memory),
        },
        Err(TreeError::Fault(fault)) => Err(failed(alloc, form.file(request), fault)),
        Err(TreeError::Memory) => Err(DocumentsError::Memory),
    }
}

// The fault of a file, with its name.
fn failed(alloc: Global, file: &str, fault: DocumentFault) -> DocumentsError
    ensures { HasReason file.now fault result }
{
    match String::from_str(alloc, file) {
        Ok(name) => DocumentsError::Failed(name, fault),
        Err(_) => DocumentsError::Memory,
    }
}

// What is kept of the document in a file.
fn document<K: Kept, L: Library>(
    alloc: Global,
    form: &K,
    request: &K::Wanted,
    library: &mut L,
) -> Result<K::Form, TreeError>
    requires { K.can_ask form.now request.now }
    ensures loaded { L.was_loaded library.old (K.asks form.now request.now).file library.new }
    ensures told { L.files library.new ≡ L.files library.old }
    ensures counted { L.faults library.old ≤ L.faults library.new }
    ensures held { MatchResult result (WasRead (L.files library.old) (K.asks form.now request.now))
        (λ e. TreeReason (L.files library.old) (K.asks form.now request.now) (Rose (L.faults library.old) (L.faults library.new)) e) }
{
    match library.load(alloc, form.file(request), FILE_BYTES) {
        Ok(bytes) => kept_of(alloc, form, request, bytes),
        Err(LoadError::TooLong { .. }) => Err(TreeError::Fault(DocumentFault::TooLong)),
        Err(LoadError::Failed) => Err(TreeError::Fault(DocumentFault::Unread)),
        Err(LoadError::Memory) => Err(TreeError::Memory),
    }
}

// What is kept of a document, whose bytes are let go once they are read.
fn kept_of<K: Kept>(
    alloc: Global,
    form: &K,
    request: &K::Wanted,
    bytes: Vec<u8>,
) -> Result<K::Form, TreeError>
    requires asked { K.can_ask form.now request.now }
    requires within { length bytes.items ≤ FILE_BYTES }
    ensures { MatchResult result (λ kept. (root : SourceTree) × IsDocumentOf bytes.items root × ((K.asks form.now request.now).outcome root ≡ Ok kept)) (IsRefusedSo (K.asks form.now request.now) bytes.items) }
{
    let read = read_document(alloc, bytes.as_slice());
    drop(bytes);
    match read {
        Ok(source) => form.kept(alloc, request, source),
        Err(XmlRefusal::Refused { place, rule }) => {
            Err(TreeError::Fault(DocumentFault::Refused(rule, place)))
        }
        Err(XmlRefusal::Memory) => Err(TreeError::Memory),
    }
}
