// Laws of typing: one for each operator, and the one that is joined of them.

ghost use Rattle.gx_static.specs.Laws.{LiteralKeepsType, VariableKeepsType, EmptyKeepsType, SequenceKeepsType, ForKeepsType, SomeKeepsType, EveryKeepsType, LetKeepsType, StepKeepsType, NodesKeepType, OrderKeepsType, FinalKeepsType, NthKeepsType, SwitchKeepsType, NoContextKeepsType, DataKeepsType, ArithmeticKeepsType, NegationKeepsType, ValueComparisonKeepsType, GeneralComparisonKeepsType, RangeKeepsType, ConditionalKeepsType, CastKeepsType, CastableKeepsType, TreatKeepsType, CallKeepsType, TypingIsSound, TypingIsSoundOnFreeVariables, RejectionNamesFailure, ScopedVariablesHaveTypes, ExpressionsAreRejectedWithStaticCodes, NodeComparisonKeepsType, NodeSetKeepsType, BlockKeepsType, ConstructorKeepsType, UserCallKeepsType, ConvertedValuesBelong};
ghost use Rattle.gx_static.specs.NormalTypes.{RulesGiveNormalTypes, TypingGivesNormalTypes};
ghost use Rattle.gx_static.specs.Demands.{MetDemandsAreInclusion, DemandsAreInclusion, AllRulesDemandInclusion};
ghost use Rattle.gx_static.specs.ByInclusion.{QueriesAreJudgedByInclusion};
ghost use Rattle.gx_static.specs.QueryJudgement.{QueryTypingIsSound, QueryRejectionNamesFailure, QueryVariablesHaveTypes, QueriesAreRejectedWithStaticCodes};

/// A literal has the type of its value.
pub fn literal_keeps_its_type()
    ensures { LiteralKeepsType }
{}

/// A variable has the type of what it is bound to.
pub fn variable_keeps_its_type()
    ensures { VariableKeepsType }
{}

/// The empty sequence has its type.
pub fn empty_sequence_keeps_its_type()
    ensures { EmptyKeepsType }
{}

/// The value of a sequence belongs to its type where those of its parts belong to theirs.
pub fn sequence_keeps_its_type()
    ensures { SequenceKeepsType }
{}

/// The value of a `for` belongs to its type where that of its body does, under the bindings of the variable to each item of its
/// operand, and of the position to the number of the item.
pub fn for_keeps_its_type()
    ensures { ForKeepsType }
{}

/// Whether a test holds of some item, or of every one, is a boolean where the test is one, under the bindings of the variable to each
/// item of the operand.
pub fn quantifiers_keep_their_type()
    ensures some { SomeKeepsType }
    ensures every { EveryKeepsType }
{}

/// A block keeps the type of its rule: what it returns, as often as its clauses have tuples (XQuery 1.0, section 3.8).
pub fn block_keeps_its_type()
    ensures { BlockKeepsType }
{}

/// The value of a `let` belongs to its type where that of its body does, under the bindings of the variable to the values of
/// its type.
pub fn let_keeps_its_type()
    ensures { LetKeepsType }
{}

/// The nodes of a step to a child, an attribute, the node itself or the parent belong to the type of the step where its variable
/// is bound to one node. The declarations of the schemas keep to what each schema set keeps to.
pub fn step_keeps_its_type()
    ensures { StepKeepsType }
{}

/// The operand of a path is of nodes alone where its type is included in `node()*`. The types of the schemas end at built-in ones.
pub fn nodes_keep_their_type()
    ensures { NodesKeepType }
{}

/// Nodes in document order, each once, belong to the prime type, as often as the type of the operand occurs; atomic values belong to
/// that type. The types of the schemas end at built-in ones.
pub fn order_keeps_its_type()
    ensures { OrderKeepsType }
{}

/// The item of a number belongs to its type where the operand belongs to its own.
pub fn nth_keeps_its_type()
    ensures { NthKeepsType }
{}

/// The last item belongs to its type where the operand belongs to its own.
pub fn final_keeps_its_type()
    ensures { FinalKeepsType }
{}

/// A switch keeps its type where the operand and the branches keep theirs.
pub fn switch_keeps_its_type()
    ensures { SwitchKeepsType }
{}

/// What looks at a context where there is none has no type.
pub fn no_context_keeps_its_type()
    ensures { NoContextKeepsType }
{}

/// An atomized value belongs to its type where that of the operand does: each item has a typed value. The declarations of the schemas
/// keep to what each schema set keeps to.
pub fn data_keeps_its_type()
    ensures { DataKeepsType }
{}

/// The result of arithmetic belongs to its type where the operands belong to theirs, and it is no type error.
pub fn arithmetic_keeps_its_type()
    ensures { ArithmeticKeepsType }
{}

/// A negation belongs to its type where the operand belongs to its own.
pub fn negation_keeps_its_type()
    ensures { NegationKeepsType }
{}

/// A value comparison belongs to its type where the operands belong to theirs: the operands are of one family.
pub fn value_comparison_keeps_its_type()
    ensures { ValueComparisonKeepsType }
{}

/// A general comparison belongs to its type where the operands belong to theirs: each pair of items can be compared.
pub fn general_comparison_keeps_its_type()
    ensures { GeneralComparisonKeepsType }
{}

/// A range belongs to its type where the operands belong to theirs.
pub fn range_keeps_its_type()
    ensures { RangeKeepsType }
{}

/// A comparison of nodes belongs to its type where the operands belong to theirs: each of them is at most one node. The types of the
/// schemas end at built-in ones.
pub fn node_comparison_keeps_its_type()
    ensures { NodeComparisonKeepsType }
{}

/// A combination of sequences of nodes belongs to its type where the operands belong to theirs, which are of nodes. The types of the
/// schemas end at built-in ones.
pub fn node_set_keeps_its_type()
    ensures { NodeSetKeepsType }
{}

/// The value of a conditional belongs to its type where the condition is one boolean and those of the branches belong to theirs.
pub fn conditional_keeps_its_type()
    ensures { ConditionalKeepsType }
{}

/// What a constructor makes belongs to its type where the values of its parts belong to theirs, and it is no type error. The
/// declarations of the schemas keep to what each schema set keeps to.
pub fn constructor_keeps_its_type()
    ensures { ConstructorKeepsType }
{}

/// A cast belongs to its type where the operand is of atomic values.
pub fn cast_keeps_its_type()
    ensures { CastKeepsType }
{}

/// A test whether there is a cast is a boolean where the operand is of atomic values.
pub fn castable_keeps_its_type()
    ensures { CastableKeepsType }
{}

/// A value that is treated as a type belongs to the type.
pub fn treat_keeps_its_type()
    ensures { TreatKeepsType }
{}

/// What a built-in function answers belongs to its type where the arguments belong to those of its parameters. The types of the
/// schemas end at built-in ones.
pub fn call_keeps_its_type()
    ensures { CallKeepsType }
{}

/// A call of a declared function keeps the type of its result, where calls of known functions do (XQuery 1.0, section 3.1.5).
pub fn user_call_keeps_its_type()
    ensures { UserCallKeepsType }
{}

/// A value whose type, converted as an expected type asks for it, is included in that type comes to a value of the expected type, or a
/// cast fails (XQuery 1.0, section 3.1.5).
pub fn converted_values_belong()
    ensures { ConvertedValuesBelong }
{}

/// What is judged to have a type is the same tree with its types; no expression in it goes wrong, and the value of each
/// belongs to its type (XQuery 1.0 and XPath 2.0 Formal Semantics, section 4).
pub fn typing_is_sound()
    ensures { TypingIsSound }
{}

/// The value of an expression that is judged to have a type belongs to it, and it is no type error, also where those variables alone
/// that the expression names and does not bind are bound to values of their types.
pub fn typing_is_sound_on_free_variables()
    ensures { TypingIsSoundOnFreeVariables }
{}

/// Where a query is rejected, an expression in it fails: its parts have types, and its own rule gives none, with this code at
/// this place; and each expression that comes before it has a type.
pub fn rejection_names_a_failure()
    ensures { RejectionNamesFailure }
{}

/// Where each variable stands in the scope of its binder, typing rejects none: a variable that nothing binds is refused with
/// the names of the query.
pub fn scoped_variables_have_types()
    ensures { ScopedVariablesHaveTypes }
{}

/// An expression is rejected with the code of a static error (XQuery 1.0, section 2.3.1).
pub fn expressions_are_rejected_with_static_codes()
    ensures { ExpressionsAreRejectedWithStaticCodes }
{}

/// A query that is judged to have a type is the same query with its types, and it is sound.
pub fn query_typing_is_sound()
    ensures { QueryTypingIsSound }
{}

/// Where a query is rejected, the place and the code are those of the first expression in it that fails.
pub fn query_rejection_names_a_failure()
    ensures { QueryRejectionNamesFailure }
{}

/// Where each variable of a query stands in the scope of its binder, typing rejects none.
pub fn query_variables_have_types()
    ensures { QueryVariablesHaveTypes }
{}

/// A query is rejected with the code of a static error (XQuery 1.0, section 2.3.1).
pub fn queries_are_rejected_with_static_codes()
    ensures { QueriesAreRejectedWithStaticCodes }
{}

/// A type that meets a demand for types of atomic values is included in the type that is demanded, whatever the type is.
pub fn met_demands_are_inclusion()
    ensures { MetDemandsAreInclusion }
{}

/// A type as typing makes it meets a demand exactly where it is included in the type that is demanded. The types of the schemas end
/// at built-in ones.
pub fn demands_are_inclusion()
    ensures { DemandsAreInclusion }
{}

/// A rule that tests item types gives a type exactly where those of its operands are included in the types that the standard names.
/// The types of the schemas end at built-in ones.
pub fn rules_demand_inclusion()
    ensures { AllRulesDemandInclusion }
{}

/// An operator has a type in which `none` and the empty sequence stand by themselves alone, and its item types are of known types,
/// where its parts have such. The declarations of the schemas keep to what each schema set keeps to.
pub fn rules_give_normal_types()
    ensures { RulesGiveNormalTypes }
{}

/// Each expression of a typed one has such a type, where the variables in scope do and each cast names an atomic type.
pub fn typing_gives_normal_types()
    ensures { TypingGivesNormalTypes }
{}

/// Each operator in a query has the type, or the code, that the rules give it which demand inclusion of the types of operands, where
/// each cast names an atomic type and the types of external variables are normal. The declarations of the schemas keep to what each
/// schema set keeps to.
pub fn queries_are_judged_by_inclusion()
    ensures { QueriesAreJudgedByInclusion }
{}
