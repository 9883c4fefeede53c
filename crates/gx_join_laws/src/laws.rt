// Laws of the joins of plans.

ghost use Rattle.gx_join_laws.specs.LoopItems.{SoundLoopsTakeItems, RewritingKeepsLoopItems};
ghost use Rattle.gx_join_laws.specs.FairMeaning.{FairJoinsAreHashJoins};
ghost use Rattle.gx_join_laws.specs.JoinedStanding.{FairJoinsMayStandFor, JoinedStandInsHaveTheOutcome};
ghost use Rattle.gx_join_laws.specs.JoinedPlans.{JoinedPlansHaveTheOutcome};

/// The items over which the loops of a sound expression go belong to the types of their variables, where these are the types that their binders
/// give (XQuery 1.0 and XPath 2.0 Formal Semantics, section 4.8.2).
pub fn sound_loops_take_items()
    ensures { SoundLoopsTakeItems }
{}

/// They do in what any number of applications of rules lead to.
pub fn rewriting_keeps_loop_items()
    ensures { RewritingKeepsLoopItems }
{}

/// An expression of a plan comes to what it means with hash joins in the place of its joins, where these are fair and their sides stand apart
/// (XQuery 1.0, sections 2.3.4 and 3.8.1).
pub fn fair_joins_are_hash_joins()
    ensures { FairJoinsAreHashJoins }
{}

/// What may stand for an expression may do so with hash joins in the place of its joins, where these are fair.
pub fn fair_joins_may_stand_for()
    ensures { FairJoinsMayStandFor }
{}

/// A plan whose expressions may stand for those of a query with hash joins has the outcome of the query, however many calls may be active: the same
/// items, forest and code.
pub fn joined_stand_ins_have_the_outcome()
    ensures { JoinedStandInsHaveTheOutcome }
{}

/// A plan that any number of applications of rules lead to, from the one that a typed query is compiled to, has the outcome of the query with hash
/// joins in the place of its joins, however many calls may be active: the same items, forest and code.
pub fn joined_plans_have_the_outcome()
    ensures { JoinedPlansHaveTheOutcome }
{}
