// Laws of the Core of queries.

ghost use Rattle.gx_normal.specs.Laws.{CoresAreWellFormed, CoresHaveVariablesInOrder};

/// In the Core of a query each variable stands in the scope of its binder, and no number is bound twice.
pub fn cores_have_variables_in_order()
    ensures { CoresHaveVariablesInOrder }
{}

/// The Core of a query is well formed: its literals, its calls and its switches.
pub fn cores_are_well_formed()
    ensures { CoresAreWellFormed }
{}
