// Laws of plans.

ghost use Rattle.gx_plan.specs.declared.plan.Carried.{Carried};
ghost use Rattle.gx_plan.specs.Compiling.{CompilingKeepsOutcomes};
ghost use Rattle.gx_plan.specs.CompiledQueries.{CompiledQueriesAreSame};
ghost use Rattle.gx_plan.specs.PlanMeaning.{PlansMeanTheirTypedCore, PlansHaveTheOutcomeOfTheirTypedCore};
ghost use Rattle.gx_plan.specs.Fitting.{EvaluationsFit, SoundExpressionsAreWellBound};
ghost use Rattle.gx_plan.specs.SameMeaning.{WellBoundPartsMayBeReplaced, CompilingKeeps};
ghost use Rattle.gx_plan.specs.TypeErrors.{OperatorsAreSameUnlessWrong};
ghost use Rattle.gx_plan.specs.StandingFor.{SameExpressionsMayStandFor, PartsOfSoundQueriesKeepTheirTypes, StandInsHaveTheOutcome};
ghost use Rattle.gx_plan.specs.SameQueries.{SameQueriesHaveTheOutcome};

/// Where the parts of an operator keep their types, it evaluates each part under bindings that fit the types of the variables that it
/// binds for the part, in an honest forest that has grown.
pub fn evaluations_fit()
    ensures { EvaluationsFit }
{}

/// What the operators of a sound expression bind belongs to the types that the static rules give their variables.
pub fn sound_expressions_are_well_bound()
    ensures { SoundExpressionsAreWellBound }
{}

/// Parts of an operator that binds well may be replaced by what comes to the same wherever they are evaluated.
pub fn well_bound_parts_may_be_replaced()
    ensures { WellBoundPartsMayBeReplaced }
{}

/// What a sound expression is compiled to comes to the same as the expression.
pub fn compiling_keeps()
    ensures { CompilingKeeps }
{}

/// What an operator comes to is the same but for type errors, where what its parts and calls of functions come to is.
pub fn operators_are_same_unless_wrong()
    ensures { OperatorsAreSameUnlessWrong }
{}

/// A compiled query has the outcome of the query that it is made of, where that is sound (XQuery 1.0, section 2.2.3).
pub fn compiling_keeps_outcomes()
    ensures { CompilingKeepsOutcomes }
{}

/// What comes to the same as a fully sound expression may stand for it, also where the functions that they call are stood for.
pub fn same_expressions_may_stand_for()
    ensures { SameExpressionsMayStandFor Carried }
{}

/// The values of the globals, of the bodies of functions and of the body of a sound query keep their types.
pub fn parts_of_sound_queries_keep_their_types()
    ensures { PartsOfSoundQueriesKeepTheirTypes }
{}

/// A query that may stand for another, whose values keep their types, has its outcome, however many calls may be active.
pub fn stand_ins_have_the_outcome()
    ensures { StandInsHaveTheOutcome Carried }
{}

/// A query whose expressions come to the same as those of a fully sound query has its outcome, however many calls may be active.
pub fn same_queries_have_the_outcome()
    ensures { SameQueriesHaveTheOutcome Carried }
{}

/// The expressions of a compiled query come to the same as those of the query that it is made of, where that is fully sound.
pub fn compiled_queries_are_same()
    ensures { CompiledQueriesAreSame }
{}

/// An expression of a plan comes to the same as the typed Core that it means: its marks change nothing.
pub fn plans_mean_their_typed_core()
    ensures { PlansMeanTheirTypedCore }
{}

/// A plan has the outcome of the typed Core that it means, however many calls may be active.
pub fn plans_have_the_outcome_of_their_typed_core()
    ensures { PlansHaveTheOutcomeOfTheirTypedCore }
{}
