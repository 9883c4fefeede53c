// Laws of the meaning of Core.

ghost use Rattle.gx_core.specs.Laws.{MeaningLooksAtNoType, AfterKeeps, BindingsFitStill, BindingFits, OperandsKeepTheirTypes};
ghost use Rattle.gx_core.specs.Laws.{ExpressionsRaiseDynamicCodes, PartsDecide, MeaningLooksAtFreeVariables, InstancesBelong, InstancesAreExact, ConstructorsKeepForestsHonest, WellFormedQueriesCallDeclaredFunctions};
ghost use Rattle.gx_core.specs.PathLaws.{StepsAreInOrder, LoopsOfStepsAreSteps, SlashesAreDescendants};
ghost use Rattle.gx_core.specs.QueryMeaning.{NoneNeedsNoDocument, SoundQueriesKeepTheirTypes, QueriesRaiseDynamicCodes, QueryMeaningLooksAtNoType};

/// The meaning of a typed expression is that of the same expression without its types.
pub fn meaning_looks_at_no_type()
    ensures { MeaningLooksAtNoType }
{}

/// The meaning of a query with its types is that of the same query without them, however many calls may be active.
pub fn query_meaning_looks_at_no_type()
    ensures { QueryMeaningLooksAtNoType }
{}

/// An outcome keeps a type that is made of a value of a type, where what is made of it keeps the type in each forest that
/// has grown.
pub fn what_follows_keeps_its_type()
    ensures { AfterKeeps }
{}

/// Bindings that fit types fit them still where the forest has grown, and with one more variable that is bound to a value of
/// its type.
pub fn bindings_fit_still()
    ensures grown { BindingsFitStill }
    ensures bound { BindingFits }
{}

/// Parts that keep their types have values of these types, in the forest that the last part leaves.
pub fn operands_keep_their_types()
    ensures { OperandsKeepTheirTypes }
{}

/// A query without external variables needs no document.
pub fn no_document_is_needed()
    ensures { NoneNeedsNoDocument }
{}

/// A query that is sound is no type error, and its value belongs to its type, however many calls may be active (XQuery 1.0, section 2.2.3).
pub fn sound_queries_keep_their_types()
    ensures { SoundQueriesKeepTheirTypes }
{}

/// The evaluation of an expression raises the codes of dynamic errors alone, where calls of functions do (XQuery 1.0, section 2.3.1).
pub fn expressions_raise_dynamic_codes()
    ensures { ExpressionsRaiseDynamicCodes }
{}

/// The evaluation of a query raises the codes of dynamic errors alone (XQuery 1.0, section 2.3.1).
pub fn queries_raise_dynamic_codes()
    ensures { QueriesRaiseDynamicCodes }
{}

/// Parts that come to the same in each evaluation that an operator asks for may stand for one another.
pub fn parts_decide()
    ensures { PartsDecide }
{}

/// An expression comes to the same under bindings that are the same for the variables that it names and does not bind (XQuery 1.0,
/// section 3.1.2).
pub fn meaning_looks_at_free_variables()
    ensures { MeaningLooksAtFreeVariables }
{}

/// A step gives its nodes in document order (XQuery 1.0, section 3.2.1).
pub fn steps_are_in_order()
    ensures { StepsAreInOrder }
{}

/// A loop whose body is a step from the item of the loop is a step from each item of its source.
pub fn loops_of_steps_are_steps()
    ensures { LoopsOfStepsAreSteps }
{}

/// In document order, the children of nodes and of all their descendants are the descendants of the nodes: `E//name` is a step along
/// the descendant axis from each node of `E` (XQuery 1.0, section 3.2).
pub fn slashes_are_descendants()
    ensures { SlashesAreDescendants }
{}

/// A value that is an instance of a type belongs to it (XQuery 1.0, section 2.5.4).
pub fn instances_belong()
    ensures { InstancesBelong }
{}

/// A value is an instance of a type that can be written in a query exactly where it belongs to the type (XQuery 1.0, section 2.5.4).
pub fn instances_are_exact()
    ensures { InstancesAreExact }
{}

/// A constructor puts an honest tree behind those of an honest forest, or leaves the forest as it is (XQuery 1.0 and XPath 2.0 Data
/// Model, sections 6.1 to 6.3 and 6.7).
pub fn constructors_keep_forests_honest()
    ensures { ConstructorsKeepForestsHonest }
{}

/// A query that is well formed calls functions that it declares, with all their arguments (XQuery 1.0, section 3.1.5).
pub fn well_formed_queries_call_declared_functions()
    ensures { WellFormedQueriesCallDeclaredFunctions }
{}
