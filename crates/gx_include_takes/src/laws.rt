// Laws of the test of a shape.

ghost use Rattle.gx_include_takes.specs.Features.{HalvesAreTheTest};

/// An item type takes a shape exactly where it does not exclude the name of the shape and takes a shape of that sort and type.
pub fn halves_are_the_test()
    ensures { HalvesAreTheTest }
{}
