// Laws of the definitions that the contracts cite.

ghost use Rattle.gx_base.specs.declared.place.Place.{Place};
ghost use Rattle.gx_grammar.specs.Derivation.{Derives};
ghost use Rattle.gx_xml.specs.Grammar.{documents, whole_document};
ghost use Rattle.gx_xml.specs.Nodes.{rooted};
ghost use Rattle.gx_xml.specs.Reading.{IsDocumentOf, IsDocumentRefusal};
ghost use Rattle.gx_xml.specs.Sound.{IsSoundSource, source_depth};
ghost use Rattle.gx_xml.specs.SourceTree.{SourceTree};
ghost use Rattle.gx_xml.specs.Untyped.{untyped_document};
ghost use Rattle.gx_tree.specs.Erasure.{IsUntyped};
ghost use Rattle.gx_tree.specs.OwnNames.{HasOwnNames};
ghost use Rattle.gx_tree.specs.PlainTree.{IsProper};
ghost use Rattle.gx_xml.specs.declared.refusal.XmlRefusal.TheVariants.{Refused};
ghost use Rattle.gx_xml.specs.declared.refusal.XmlRule.{XmlRule};
ghost use Rattle.std.specs.Prelude.{◌≡◌, ◌≤◌, ◌⊎◌, ℕ, List, []};

/// A text has at most one tree.
pub fn one_source_tree()
    ensures { (text : List ℕ) (s t : SourceTree) → Derives documents whole_document (rooted s) text [] → Derives documents whole_document (rooted t) text [] → s ≡ t }
{}

/// Bytes are read in one way at most: to one tree, or to one rule that refuses them at one place.
pub fn documents_are_read_in_one_way()
    ensures tree { (bytes : List ℕ) (s t : SourceTree) → IsDocumentOf bytes s → IsDocumentOf bytes t → s ≡ t }
    ensures either { (bytes : List ℕ) (t : SourceTree) (r : XmlRule) (p : Place) → IsDocumentOf bytes t → IsDocumentRefusal bytes (Refused p r) → ⊥ }
    ensures refusal { (bytes : List ℕ) (r s : XmlRule) (p q : Place) → IsDocumentRefusal bytes (Refused p r) → IsDocumentRefusal bytes (Refused q s) → (r ≡ s) × (p ≡ q) }
{}

/// Bytes are read: to a tree, or to a rule that refuses them at a place.
pub fn documents_are_read()
    ensures { (bytes : List ℕ) → ((t : SourceTree) × IsDocumentOf bytes t) ⊎ ((r : XmlRule) × (p : Place) × IsDocumentRefusal bytes (Refused p r)) }
{}

/// In the tree of a text no tag declares a prefix twice, no two attributes of a tag have one expanded name (Namespaces in
/// XML 1.0, section 6.3), no text is empty, and no two texts stand side by side (XQuery 1.0 and XPath 2.0 Data Model,
/// section 6.7). At most 200 elements stand in one another.
pub fn documents_are_sound()
    ensures sound { (text : List ℕ) (t : SourceTree) → Derives documents whole_document (rooted t) text [] → IsSoundSource t }
    ensures depth { (text : List ℕ) (t : SourceTree) → Derives documents whole_document (rooted t) text [] → source_depth t ≤ 200 }
{}

/// The tree of a document without types has elements and texts alone below the document node, each element is xs:untyped and each
/// attribute xs:untypedAtomic, and no two attributes of an element have equal names (XQuery 1.0 and XPath 2.0 Data Model,
/// sections 6.1 to 6.3).
pub fn untyped_documents_are_sound()
    ensures proper { (root : SourceTree) → IsProper (untyped_document root) }
    ensures untyped { (root : SourceTree) → IsUntyped (untyped_document root) }
    ensures names { (bytes : List ℕ) (root : SourceTree) → IsDocumentOf bytes root → HasOwnNames (untyped_document root) }
{}
