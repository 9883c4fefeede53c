// Laws of meanings by reference, and of circles.

ghost use Rattle.gx_references.specs.Laws.{MeaningsSolve, OneSolution, MoreStepsChangeNothing, EndsAreSoon, CircleIfEndless, EndlessIfCircle, WaysBackAreShort};

use crate::body::Body;

/// Where references come to an end, what a declaration means is what it says over the meanings of those that it names.
pub fn meanings_solve<B: Body>()
    ensures { MeaningsSolve B.named B.meant B.nothing }
{}

/// Whatever meanings are as the declarations say are these, wherever references come to an end.
pub fn there_is_one_solution<B: Body>()
    ensures { OneSolution B.named B.meant B.nothing }
{}

/// Following references for more steps than there are declarations changes no meaning, and finds no further end.
pub fn more_steps_change_nothing<B: Body>()
    ensures meanings { MoreStepsChangeNothing B.named B.meant B.nothing }
    ensures ends { EndsAreSoon B.named }
{}

/// References come to no end exactly where they lead to a declaration that is part of itself, or to a number of none.
pub fn circles_are_endless<B: Body>()
    ensures circle { CircleIfEndless B.named }
    ensures endless { EndlessIfCircle B.named }
{}

/// A declaration is part of itself exactly where a way of no more references than there are declarations leads back to it.
pub fn ways_back_are_short<B: Body>()
    ensures { WaysBackAreShort B.named }
{}
