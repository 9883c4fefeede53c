// Laws of inclusion.

ghost use Rattle.gx_include.specs.Decision.{InclusionIsDecided};
ghost use Rattle.gx_include.specs.Existence.{AnAnswerOfTypesExists};
ghost use Rattle.gx_include.specs.Laws.{AnswersAreOne, PastIsNotWithin, FewPairsAreReached, NoExcludesInclusion, TooManyPairsExcludeVerdicts};

/// The pairs that are reached are not both past a limit and within it, so `TooManyPairs` comes exactly where they are past it.
pub fn past_is_not_within()
    ensures { PastIsNotWithin }
{}

/// Where no well-formed shape is taken by two positions of the right type that begin it or that follow one position, the pairs that are
/// reached are at most the start, and each position of the left type with a position of the right type or with none.
pub fn few_pairs_are_reached()
    ensures { FewPairsAreReached }
{}

/// A list that is answered with No has well-formed shapes, so a type that is included in another one is never answered with No.
pub fn no_excludes_inclusion()
    ensures { NoExcludesInclusion }
{}

/// The test of inclusion by search is exact.
pub fn inclusion_is_decided()
    ensures { InclusionIsDecided }
{}

/// Where more pairs than the limit are reached, no verdict is an answer.
pub fn too_many_pairs_exclude_verdicts()
    ensures { TooManyPairsExcludeVerdicts }
{}

/// There is one verdict on two types: the list of a No too is one.
pub fn answers_are_one()
    ensures { AnswersAreOne }
{}

/// Two types have a verdict under each limit on the pairs, unless they reach more.
pub fn an_answer_exists()
    ensures { AnAnswerOfTypesExists }
{}
