// Laws of the types of steps and of data.

ghost use Rattle.gx_steptype.specs.StepLaws.{DescendantKindsAreLeast, AncestorKindsAreLeast, StepsKeepTheirTypes, DataKeepsItsType};

/// The item types of the descendants of a node are the least list that holds those of its children and is closed under the
/// children of elements; those of its ancestors, the least that holds those of its parent and is closed under parents.
pub fn relatives_are_least()
    ensures descendants { DescendantKindsAreLeast }
    ensures ancestors { AncestorKindsAreLeast }
{}

/// In an honest forest: from a node of a type, a step along an axis gives nodes of the step's type.
pub fn steps_keep_their_types()
    ensures { StepsKeepTheirTypes }
{}

/// In an honest forest: where a type has typed values, each item of a value of it has one, and the typed values one behind another
/// belong to the type of its data.
pub fn data_keeps_its_type()
    ensures { DataKeepsItsType }
{}
