// Laws of the definitions that the contracts cite.
ghost use Rattle.gx_tree.specs.PlainTree.{PlainTree};
ghost use Rattle.gx_serial.specs.Binding.{outermost_scope};
ghost use Rattle.gx_serial.specs.Marked.{marked};
ghost use Rattle.gx_serial.specs.Reading.{IsWritable, ReadsAs};
ghost use Rattle.gx_serial.specs.Declarations.{HasSoundTags};

/// Take a tree whose names can be written: each prefix has a URI, each attribute with a URI has a prefix, no name has the
/// prefix `xmlns` or its URI, and the prefix `xml` and its URI stand together alone. Then each name of the written text, read
/// with the declarations that are written, has the URI and the local part that the tree has (Namespaces in XML 1.0, sections
/// 5 and 6). Each declaration is one that a document may have: `xmlns` and its URI, another prefix or the default with the URI
/// of `xml`, and a prefix without a URI are not declared (sections 2 to 4). No tag declares a prefix twice.
pub fn written_names_read_back()
    ensures names { (t : PlainTree) → IsWritable t → ReadsAs outermost_scope (marked outermost_scope t) t }
    ensures declarations { (t : PlainTree) → IsWritable t → HasSoundTags (marked outermost_scope t) }
{}
