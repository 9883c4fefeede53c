// Laws of simple types, and of circles among types.

ghost use Rattle.gx_schema_simple.specs.Circles.{CirclesAreShort};
ghost use Rattle.gx_schema_simple.specs.Laws.{NoFirstFault, NoneIsCircular, NothingIsHidden, TypesEnd, VarietiesSolve};

use crate::variety::SaidVariety;
use gx_references::laws::{circles_are_endless, meanings_solve};

/// A declaration stands on a circle exactly where a way of no more steps than there are declarations leads from it to itself.
pub fn circles_are_short()
    ensures { CirclesAreShort }
{}

/// Where no number is the least on a circle, none stands on one.
pub fn none_is_circular()
    ensures { NoneIsCircular }
{}

/// The variety of a type that stands on no circle is that of its form: a list of its items, no values, or the variety of its base.
pub fn varieties_solve()
    ensures { VarietiesSolve }
{
    circles_are_endless::<SaidVariety>();
    meanings_solve::<SaidVariety>();
}

/// Without circles, and where each declared type that is named is there, each type has values that are seen, or none.
pub fn nothing_is_hidden()
    ensures { NothingIsHidden }
{
    varieties_solve();
}

/// Without circles what types name comes to an end in no more steps than there are types, and so do their bases.
pub fn types_end()
    ensures { TypesEnd }
{}

/// Where there is no first fault, no type has a fault: no items are complex or lists, and no simple type restricts a complex one.
pub fn no_first_fault()
    ensures { NoFirstFault }
{}
