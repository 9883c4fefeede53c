// Laws of the definitions that the contracts cite.
ghost use Rattle.gx_atomic.specs.Laws.{OperatorsAreContraries, ValuesAreEqualToThemselves, KeysAreEqualAsValues, EmptyListsCompareFalse, FirstPairDecides, ComparableByFamilies, ComparisonsFailInOneWay};
ghost use Rattle.gx_atomic.specs.Laws.{CastsFitTheirTarget, CastsFailWithCodes, CastsGiveValuesOfTheirTarget, CastsToTheOwnTypeChangeNothing, CastsOfPrintedValuesGoBack};
ghost use Rattle.gx_atomic.specs.Laws.{CastsToDeclaredTypesAreAdmitted, CastsToTheOwnDeclaredTypeChangeNothing, TextsAreCastAsTheyAreRead};

use gx_facets::laws::{printed_values_read_back, read_values_fit};

/// `ne`, `ge` and `le` hold where `eq`, `lt` and `gt` do not, and `le` where `lt` or `eq` does.
pub fn operators_are_contraries()
    ensures { OperatorsAreContraries }
{}

/// A value compared with itself is equal.
pub fn values_are_equal_to_themselves()
    ensures { ValuesAreEqualToThemselves }
{}

/// Two keys are equal exactly where their values are, and then what is hashed of them is the same.
pub fn keys_are_equal_as_values()
    ensures { KeysAreEqualAsValues }
{}

/// The general comparison with an empty list is false.
pub fn empty_lists_compare_false()
    ensures { EmptyListsCompareFalse }
{}

/// A general comparison is decided by the first pair, left item first, that does not compare false, and is false where all
/// pairs do.
pub fn first_pair_decides()
    ensures { FirstPairDecides }
{}

/// A pair of values can be compared exactly by its families, and two lists where each of their pairs can.
pub fn values_are_comparable_by_families()
    ensures { ComparableByFamilies }
{}

/// A general comparison fails with FORG0001 alone.
pub fn comparisons_fail_in_one_way()
    ensures { ComparisonsFailInOneWay }
{}

/// The fault of a cast is that of a dynamic error: it wants no memory.
pub fn casts_fail_with_codes()
    ensures { CastsFailWithCodes }
{}

/// What a cast gives has the target as its type, and fits it.
pub fn casts_fit_their_target()
    ensures { CastsFitTheirTarget }
{}

/// What a cast gives is a value of its target.
pub fn casts_give_values_of_their_target()
    ensures { CastsGiveValuesOfTheirTarget }
{
    read_values_fit();
}

/// A value of a type, cast to that type, stays as it is.
pub fn casts_to_the_own_type_change_nothing()
    ensures { CastsToTheOwnTypeChangeNothing }
{
    printed_values_read_back();
}

/// The printed text of a value of a type, cast to that type, is the value again.
pub fn casts_of_printed_values_go_back()
    ensures { CastsOfPrintedValuesGoBack }
{
    printed_values_read_back();
}

/// What a cast to an atomic type that is declared gives is a value of the built-in type at which its bases end, and each facet of
/// it and of its bases admits the value.
pub fn casts_to_declared_types_are_admitted()
    ensures { CastsToDeclaredTypesAreAdmitted }
{
    read_values_fit();
}

/// Such a value, cast to its own type, stays as it is.
pub fn casts_to_the_own_declared_type_change_nothing()
    ensures { CastsToTheOwnDeclaredTypeChangeNothing }
{
    printed_values_read_back();
}

/// A text is cast to an atomic type that is declared as it is read at that type: to the same value, wherever there is one.
pub fn texts_are_cast_as_they_are_read()
    ensures { TextsAreCastAsTheyAreRead }
{}
