// Laws of the attributes of types.

ghost use Rattle.gx_schema_attributes.specs.Laws.{KindsAreWritten, UsesAreDistinct};

/// No type has two attributes of one name.
pub fn uses_are_distinct()
    ensures { UsesAreDistinct }
{}

/// A test that the types of all attributes pass, as they are written, those of the attributes of each type pass.
pub fn kinds_are_written()
    ensures { KindsAreWritten }
{}
