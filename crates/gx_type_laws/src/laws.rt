// Laws of the rules that make types of types: no rule adds item types or positions.

ghost use Rattle.gx_type_laws.specs.Laws.{RulesKeepItems, RulesAddNoPositions};

/// A test that each item type of the parts passes is passed by each item type of what a rule makes of them: no rule brings in
/// an item type.
pub fn rules_keep_items()
    ensures { RulesKeepItems }
{}

/// What a rule makes of types has no more positions than they have together.
pub fn rules_add_no_positions()
    ensures { RulesAddNoPositions }
{}
