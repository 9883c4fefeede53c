// Laws of name resolution.

ghost use Rattle.gx_names.specs.Laws.{NamesAreRefusedWithStaticCodes};

/// The names of a query are refused with the codes of static errors alone (XQuery 1.0, section 2.3.1).
pub fn names_are_refused_with_static_codes()
    ensures { NamesAreRefusedWithStaticCodes }
{}
