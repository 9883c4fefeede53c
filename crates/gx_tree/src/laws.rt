// Laws of the definitions that the contracts cite.
ghost use Rattle.std.specs.Prelude.{◌≡◌, ℕ, List};
ghost use Rattle.gx_base.specs.declared.name.Name.{Name};
ghost use Rattle.gx_base.specs.declared.type_name.TypeName.{TypeName};
ghost use Rattle.gx_tree.specs.declared.attribute.Attribute.{Attribute};
ghost use Rattle.gx_tree.specs.PlainTree.{PlainTree, PlainTrees, IsProper, AreContent, document, element, attribute, text};
ghost use Rattle.gx_tree.specs.Erasure.{erased, SameButTypes, IsUntyped};
ghost use Rattle.gx_tree.specs.StringValue.{string_value, all_descendants, text_contents, texts_joined};

/// Erasure gives the one tree that has the same nodes, names and texts in the same order, with every element xs:untyped
/// and every attribute xs:untypedAtomic. Children of documents and elements stay elements and texts.
pub fn erasure_keeps_all_but_types()
    ensures untyped { (t : PlainTree) → IsUntyped (erased t) }
    ensures same { (t : PlainTree) → SameButTypes t (erased t) }
    ensures only { (t : PlainTree) → (u : PlainTree) → SameButTypes t u → IsUntyped u → u ≡ erased t }
    ensures proper { (t : PlainTree) → IsProper t → IsProper (erased t) }
{}

/// The string value of a document or an element is the texts of its descendant text nodes, in document order, one after
/// another; that of an attribute or a text is its own.
pub fn string_values_join_texts()
    ensures document { (ts : PlainTrees) → AreContent ts
        → string_value (document ts) ≡ texts_joined (text_contents (all_descendants ts)) }
    ensures element { (name : Name) → (kind : TypeName) → (attributes : List Attribute) → (ts : PlainTrees) → AreContent ts
        → string_value (element name kind attributes ts) ≡ texts_joined (text_contents (all_descendants ts)) }
    ensures attribute { (a : Attribute) → string_value (attribute a) ≡ a.value }
    ensures text { (t : List ℕ) → string_value (text t) ≡ t }
{}
