// Laws of types, of derivation, and of what types take.

ghost use Rattle.gx_types.specs.Laws.{OccurrenceBoundsLength, JoinedTypesAreASequence, SequenceTakesParts, SequenceTakesNoMore, ChoiceTakesSome, ChoiceKeepsItsMembers, ChoiceTakesNewMembers, ChoiceTakesMembers, ChoiceTakesNoMore, MembersAreDistinct, ChoiceIsFromAlternatives, PrimeIsFromItems, IndicatorsAreExact, RepeatedTakesJoined, RepeatedTakesNoMore, TimesTakesJoined, TimesTakesNoMore, PrimeIsAChoiceOfItems, ItemsTakeEachShape, FactoredTakesType, PrimeTakesType, LimitedTakesType, ShortTypesStay, EqualTypesTakeTheSame};
ghost use Rattle.gx_types.specs.DerivationLaws.{DerivationIsAPreorder, DerivationIsLinear, DerivationLooksAtNoPrefix, EqualTypesHaveOneBase, AllTypesAreDerivedFromAnyType, EqualityIsAnEquivalence};

/// The length of a list that a type takes lies within the type's occurrence.
pub fn occurrence_bounds_length()
    ensures { OccurrenceBoundsLength }
{}

/// The sequence of two types takes what its parts take, one after the other, and nothing else; within the limit on positions
/// it takes nothing else where it has at most 64.
pub fn sequence_takes_its_parts()
    ensures joined { JoinedTypesAreASequence }
    ensures all { SequenceTakesParts }
    ensures no_more { SequenceTakesNoMore }
{}

/// The choice of types takes what some of them takes, and nothing else; within the limit on positions it takes nothing else
/// where it has at most 64. A choice with the members of a type behind its own takes what both take, but for the empty list
/// of a member that is the empty sequence.
pub fn choice_takes_its_members()
    ensures some { ChoiceTakesSome }
    ensures first { ChoiceKeepsItsMembers }
    ensures second { ChoiceTakesNewMembers }
    ensures all { ChoiceTakesMembers }
    ensures no_more { ChoiceTakesNoMore }
{}

/// No two members of a choice that is made of types are equal, and no two of a prime type.
pub fn members_are_distinct()
    ensures { MembersAreDistinct }
{}

/// The choice of types is made of their alternatives in the order of their first appearance, each of them once, and so is a
/// prime type of its item types.
pub fn choices_are_of_distinct_alternatives()
    ensures choice { ChoiceIsFromAlternatives }
    ensures prime { PrimeIsFromItems }
{}

/// A type with an indicator on it takes what the indicator says.
pub fn indicators_are_exact()
    ensures { IndicatorsAreExact }
{}

/// A type as often as an occurrence says takes as many lists of the type, joined, as the occurrence allows, and nothing else;
/// within the limit on positions it takes nothing else where it has at most 64.
pub fn times_takes_joined_lists()
    ensures repeated { RepeatedTakesJoined }
    ensures repeated_no_more { RepeatedTakesNoMore }
    ensures all { TimesTakesJoined }
    ensures no_more { TimesTakesNoMore }
{}

/// A prime type takes the lists of one shape that an item type of the type takes.
pub fn prime_is_a_choice_of_items()
    ensures { PrimeIsAChoiceOfItems }
{}

/// An item type of a type takes each shape of a list that the type takes, and the prime type, as often as the type occurs,
/// takes the list.
pub fn prime_takes_its_type()
    ensures each { ItemsTakeEachShape }
    ensures factored { FactoredTakesType }
    ensures all { PrimeTakesType }
{}

/// The limit on positions loses nothing, and keeps a type of at most 64 positions.
pub fn limit_loses_nothing()
    ensures all { LimitedTakesType }
    ensures short { ShortTypesStay }
{}

/// Equal types take the same lists.
pub fn equal_types_take_the_same()
    ensures { EqualTypesTakeTheSame }
{}

/// Equality of names of types, of item types and of types is an equivalence, and equal built-in types are one.
pub fn equality_is_an_equivalence()
    ensures { EqualityIsAnEquivalence }
{}

/// Derivation is reflexive and transitive, and of two types that a type is derived from, one is derived from the other.
pub fn derivation_is_a_preorder()
    ensures preorder { DerivationIsAPreorder }
    ensures linear { DerivationIsLinear }
{}

/// Derivation looks at no prefix: equal types have one base, and equal types are derived from equal types.
pub fn derivation_looks_at_no_prefix()
    ensures one_base { EqualTypesHaveOneBase }
    ensures alike { DerivationLooksAtNoPrefix }
{}

/// Each built-in type is derived from xs:anyType, and so is each declared type.
pub fn all_types_are_derived_from_any_type()
    ensures { AllTypesAreDerivedFromAnyType }
{}
