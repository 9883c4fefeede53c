// Laws of the rules of rewriting: each keeps what an expression comes to.

ghost use Rattle.gx_rule_laws.specs.KeepingRules.{RuleKeeps};
ghost use Rattle.gx_rule_laws.specs.QuietValues.{QuietExpressionsHaveValues};
ghost use Rattle.gx_rule_laws.specs.KeepingSoundness.{RulesHandOn, RewritingKeeps};
ghost use Rattle.gx_rule_laws.specs.RewrittenQueries.{RewritingKeepsOutcomes};
ghost use Rattle.gx_rule_laws.specs.FairJoins.{RewritingKeepsJoinsFair};
ghost use Rattle.gx_rule_laws.specs.ApartJoins.{RewritingKeepsJoinsApart};
ghost use Rattle.gx_rule_laws.specs.ApartPlans.{RewrittenPlansHaveApartJoins};
ghost use Rattle.gx_rule_laws.specs.FairPlans.{CompiledPlansHaveNoJoin, RewrittenPlansHaveFairJoins};
ghost use Rattle.gx_rule_laws.specs.TypedQueries.{CompiledPlansAreOrderly, RewrittenPlansHaveTheOutcome};
ghost use Rattle.gx_rules.specs.Rules.{Joins, One, Sorted, Slashes, Single, Decided, Idle, Flat};

/// Two loops over a comparison of keys come to the same where they are marked as a join: a mark has no meaning.
pub fn joins_keep()
    ensures { RuleKeeps Joins }
{}

/// At most one item is in document order (XQuery 1.0, section 3.2).
pub fn one_keeps()
    ensures { RuleKeeps One }
{}

/// What is in document order stays so (XQuery 1.0, section 3.2).
pub fn sorted_keeps()
    ensures { RuleKeeps Sorted }
{}

/// In document order, the children of nodes and of all their descendants are the descendants of the nodes (XQuery 1.0, section 3.2).
pub fn slashes_keep()
    ensures { RuleKeeps Slashes }
{}

/// A loop over one item is a `let` of that item, whose position is 1 (XQuery 1.0, section 3.8.1).
pub fn single_keeps()
    ensures { RuleKeeps Single }
{}

/// A switch goes on with its first case where each value of the operand is of the type of the case, and without a case with the default
/// (XQuery 1.0, section 3.12.2).
pub fn decided_keeps()
    ensures { RuleKeeps Decided }
{}

/// A boolean is its own effective boolean value (XQuery 1.0, section 2.4.3), and atomic values are their own typed values (section 2.4.2).
pub fn idle_keeps()
    ensures { RuleKeeps Idle }
{}

/// The nodes of flat expressions stand in document order, each once: at most one item, nodes of a step to children, to attributes or to the
/// node itself, and those of such steps from nodes that stand beside one another in order (XQuery 1.0, section 3.2).
pub fn flat_keeps()
    ensures { RuleKeeps Flat }
{}

/// An expression in which nothing can raise an error and nothing makes a node has a value, and leaves the forest as it is (XQuery 1.0,
/// section 2.3.4).
pub fn quiet_expressions_have_values()
    ensures { QuietExpressionsHaveValues }
{}

/// What a rule puts in the place of an expression that stands in a plan stands in the plan again: it is sound, and what it binds belongs to
/// the types that the variables carry.
pub fn rules_hand_on()
    ensures { RulesHandOn }
{}

/// What any number of applications of rules lead to comes to the same as the expression of the plan, and stands in the plan again.
pub fn rewriting_keeps()
    ensures { RewritingKeeps }
{}

/// A plan that any number of applications of rules lead to has the outcome of the plan given, however many calls may be active: the same
/// items, forest and code.
pub fn rewriting_keeps_outcomes()
    ensures { RewritingKeepsOutcomes }
{}

/// Joins are fair in what any number of applications of rules lead to, where they are fair in the expression of the plan: the right source
/// and the keys have values wherever they stand, and leave the forest as it is.
pub fn rewriting_keeps_joins_fair()
    ensures { RewritingKeepsJoinsFair }
{}

/// The two sides of joins stay apart in what any number of applications of rules lead to: the right source and both keys make nothing, the
/// right source and the right key do not name the left variable, and the left key does not name the right one.
pub fn rewriting_keeps_joins_apart()
    ensures { RewritingKeepsJoinsApart }
{}

/// The two sides of each join stand apart in a plan that any number of applications of rules lead to, where the plan given has no join.
pub fn rewritten_plans_have_apart_joins()
    ensures { RewrittenPlansHaveApartJoins }
{}

/// Each join of a plan that any number of applications of rules lead to is fair, where the plan given has no join: its two sides stand apart,
/// and its right source and its keys have values of one family, and leave the forest as it is.
pub fn rewritten_plans_have_fair_joins()
    ensures { RewrittenPlansHaveFairJoins }
{}

/// A compiled plan has no join.
pub fn compiled_plans_have_no_join()
    ensures { CompiledPlansHaveNoJoin }
{}

/// The plan that a typed query is compiled to is orderly: no variable has number 0, a position is another variable than the item, the types
/// of cases can be written, and positions carry xs:integer.
pub fn compiled_plans_are_orderly()
    ensures { CompiledPlansAreOrderly }
{}

/// A plan that any number of applications of rules lead to, from the one that a typed query is compiled to, has the outcome of the query,
/// however many calls may be active: the same items, forest and code.
pub fn rewritten_plans_have_the_outcome()
    ensures { RewrittenPlansHaveTheOutcome }
{}
