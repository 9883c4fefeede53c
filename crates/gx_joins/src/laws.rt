// Laws of joins.

ghost use Rattle.gx_joins.specs.Pairs.{LoopsAreHashJoins};

/// Two loops over a general comparison `=` of keys (XQuery 1.0, sections 3.8.1 and 3.5.2) come to what the hash join of their parts comes to,
/// where the right source and the keys have the same values wherever they stand, and the values of the keys are of one family.
pub fn loops_are_hash_joins()
    ensures { LoopsAreHashJoins }
{}
