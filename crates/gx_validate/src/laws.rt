// Laws of validity.

ghost use Rattle.gx_validate.specs.Laws.{FaultsExcludeTrees, OutcomesAreValid, ValidTreesAreHonest, ValidTreesAreOne, ValidTreesAreWellTyped};

/// A document comes to a tree exactly where the tree is valid for it: its root has the name that is asked for; each element has its
/// declared type, or the one that `xsi:type` names, and keeps to it; and names, texts and attributes are those of the document,
/// without those of schema instances, and without white space in element-only content (XML Schema 1.0 part 1, sections 3.3.4, 3.4.4 and
/// 3.14.4).
pub fn outcomes_are_valid()
    ensures { OutcomesAreValid }
{}

/// At most one tree is valid for a document.
pub fn valid_trees_are_one()
    ensures { ValidTreesAreOne }
{}

/// A rule is broken exactly where no tree is valid.
pub fn faults_exclude_trees()
    ensures { FaultsExcludeTrees }
{}

/// A tree is valid exactly where it is the document's and honest: it holds elements and texts alone, its elements keep to their types,
/// no text is empty, no two texts stand side by side, and no two attributes of an element have equal names.
pub fn valid_trees_are_honest()
    ensures { ValidTreesAreHonest }
{}

/// A tree is valid exactly where it is the document's and each of its elements keeps to its type: none is xs:untyped.
pub fn valid_trees_are_well_typed()
    ensures { ValidTreesAreWellTyped }
{}
