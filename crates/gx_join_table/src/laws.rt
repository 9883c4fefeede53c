// Laws of the rows of a hash join.

ghost use Rattle.gx_join_table.specs.Laws.{EqualKeysAreEqualValues, ItemsFoundAreThoseThatMeet, RowsAreThoseThatMeet};

/// The numbers of the rows that have a key equal to one of some keys ascend, and a number is one of them exactly where there is such a
/// row.
pub fn rows_are_those_that_meet()
    ensures { RowsAreThoseThatMeet }
{}

/// The items of the build side at these numbers are, in their order, the items that have a key equal to one of the keys.
pub fn items_found_are_those_that_meet<T>()
    ensures { ItemsFoundAreThoseThatMeet T }
{}

/// Where each value is of one family with each value of the other side, the general comparison `=` (XQuery 1.0, section 3.5.2) is true
/// exactly where a key of one side is equal to a key of the other.
pub fn equal_keys_are_equal_values()
    ensures { EqualKeysAreEqualValues }
{}
