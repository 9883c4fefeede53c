// Laws of full soundness.

ghost use Rattle.gx_sound_typing.specs.FullTyping.{TypedExpressionsAreFullySound, TypedQueriesAreFullySound};
ghost use Rattle.gx_sound_typing.specs.CompiledTyping.{CompiledExpressionsHaveTheirTypes, CompiledQueriesAreFullySound};
ghost use Rattle.gx_sound_typing.specs.CarriedTyping.{FullSoundnessWithCarriedTypes, CompiledQueriesCarryBound, CompiledPlansAreFullySound};

/// An expression that is judged to have a type is fully sound, with the types that the static rules give its variables.
pub fn typed_expressions_are_fully_sound()
    ensures { TypedExpressionsAreFullySound }
{}

/// A query that is judged to have types is fully sound, where its variables are in order and it calls functions of its own alone.
pub fn typed_queries_are_fully_sound()
    ensures { TypedQueriesAreFullySound }
{}

/// What a typed expression is compiled to is judged to have the types that it carries.
pub fn compiled_expressions_have_their_types()
    ensures { CompiledExpressionsHaveTheirTypes }
{}

/// A compiled query is fully sound, with the types that the static rules give its variables, where the query that it is made of has types.
pub fn compiled_queries_are_fully_sound()
    ensures { CompiledQueriesAreFullySound }
{}

/// A query that is fully sound with the types that the static rules give its variables is so with the types that they carry, where these
/// are those of their binders.
pub fn full_soundness_with_carried_types()
    ensures { FullSoundnessWithCarriedTypes }
{}

/// Each variable of a compiled query carries the type that its binder gives, where the query that it is made of has types and its variables
/// are in order.
pub fn compiled_queries_carry_bound()
    ensures { CompiledQueriesCarryBound }
{}

/// A compiled query is fully sound with the types that its variables carry, where the query that it is made of has types, its variables are
/// in order and it calls functions of its own alone.
pub fn compiled_plans_are_fully_sound()
    ensures { CompiledPlansAreFullySound }
{}
