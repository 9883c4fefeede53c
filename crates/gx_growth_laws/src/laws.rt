// Laws of forests that grow.

ghost use Rattle.gx_growth_laws.specs.Steady.{SteadyExpressionsStay, ValuesOfTypesAreThere, WhatIsThereStays};

/// An expression without a constructor and without a call of a declared function leaves the forest as it is, and has the same value in each
/// forest that extends the one in which it has a value (XQuery 1.0, sections 2.3.4 and 3.7).
pub fn steady_expressions_stay<T>()
    ensures { SteadyExpressionsStay T }
{}

/// The nodes of a value that belongs to a type are nodes of the forest (XQuery 1.0 and XPath 2.0 Formal Semantics, section 8.3).
pub fn values_of_types_are_there()
    ensures { ValuesOfTypesAreThere }
{}

/// The nodes of a forest are nodes of each forest that extends it.
pub fn what_is_there_stays()
    ensures { WhatIsThereStays }
{}
