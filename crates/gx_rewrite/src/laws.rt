// Laws of rewriting.

ghost use Rattle.gx_rewrite.specs.Rewriting.{PlansCanBeRewritten};

/// Finitely many applications of the rules lead from each plan to one to which no rule applies.
pub fn plans_can_be_rewritten()
    ensures { PlansCanBeRewritten }
{}
