// Laws of the table of built-in functions, and of functions over atomic values.

ghost use Rattle.gx_funcs.specs.Laws.{FunctionsAreFoundByName};
ghost use Rattle.gx_funcs.specs.ValueLaws.{ForemostNumbersAreFirst, DistinctValuesStandOnce};

/// A function is found by its name and the number of its parameters, and no two have the same.
pub fn functions_are_found_by_name()
    ensures { FunctionsAreFoundByName }
{}

/// What `min` and `max` answer is the first of the numbers that no other is less or greater than.
pub fn foremost_numbers_are_first()
    ensures { ForemostNumbersAreFirst }
{}

/// No two distinct values are equal, each value is equal to one of them, and those of the values in front come first.
pub fn distinct_values_stand_once()
    ensures { DistinctValuesStandOnce }
{}
