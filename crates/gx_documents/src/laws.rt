// Laws of the documents that words bind.

ghost use Rattle.gx_documents.specs.Laws.{DocumentsAreAsAsked, DocumentsAreHonest, RefusedDocumentsHaveNoTrees, HeldTreesAreKept, TreesAreThoseAsked};

/// A tree is kept of a document exactly where it is the tree without types, or, where the name of a global element is asked for, the
/// tree that is valid with a root of this name (XML Schema 1.0 part 1, sections 3.3.4 and 3.4.4).
pub fn trees_are_those_asked()
    ensures { TreesAreThoseAsked }
{}

/// Files hold documents with the trees that are asked for exactly where these trees are kept of them.
pub fn held_trees_are_kept()
    ensures { HeldTreesAreKept }
{}

/// A document breaks a rule of validity exactly where no such tree is valid.
pub fn refused_documents_have_no_trees()
    ensures { RefusedDocumentsHaveNoTrees }
{}

/// The document node of the tree of a document is of the type that is asked for: one over an element without types, or over an element
/// of the name that is asked for and of a type that is derived from the declared one (XQuery 1.0, section 2.5.4).
pub fn documents_are_as_asked()
    ensures { DocumentsAreAsAsked }
{}

/// The trees of documents make an honest forest: its elements keep to their types.
pub fn documents_are_honest()
    ensures { DocumentsAreHonest }
{}
