// Laws of the functions that the evaluation of an expression reaches.

ghost use Rattle.gx_settling.specs.Laws.{BodyCallsCallable, EvaluationIsSettled, EvaluationCallsCallable, FreeAreNamed, GlobalsAreNew, NewKeepTheirTypes, OthersAreNew, UsesLookAtNoAnnotation};

/// An expression that may be evaluated calls functions alone that call functions of the query, and whose bodies name global variables in
/// scope alone (XQuery 1.0, section 4.14).
pub fn calls_are_settled<K>()
    ensures { EvaluationIsSettled K }
{}

/// In a query with its types, an expression that may be evaluated calls functions alone that may be called there.
pub fn calls_are_callable()
    ensures { EvaluationCallsCallable }
{}

/// Where no number is bound twice, each global variable is new where it is declared.
pub fn globals_are_new()
    ensures first { GlobalsAreNew }
    ensures others { OthersAreNew }
{}

/// A global variable has one type wherever it is in scope.
pub fn globals_keep_their_types()
    ensures { NewKeepTheirTypes }
{}

/// Behind all declarations of a query with its types, each function may be called.
pub fn body_calls_are_callable()
    ensures { BodyCallsCallable }
{}

/// What an expression uses is the same without what its expressions carry.
pub fn uses_look_at_no_annotation<K>()
    ensures { UsesLookAtNoAnnotation K }
{}

/// A variable that an expression names and does not bind itself is one of those that it names (XQuery 1.0, section 3.1.2).
pub fn free_variables_are_named<K>()
    ensures { FreeAreNamed K }
{}
