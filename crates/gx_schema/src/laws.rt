// Laws of schema import.

ghost use Rattle.gx_schema.specs.Laws.{AnImportExists, ImportsAreOne, ImportsAreSchemaSets, ImportsAreSound, IsBrokenInAFile};

use gx_schema_attributes::laws::{kinds_are_written, uses_are_distinct};
use gx_schema_content::laws::{contents_are_bounded, elements_keep, one_type_a_name};
use gx_schema_restriction::laws::{a_judgement_exists, judgements_are_one};
use gx_schema_simple::laws::{no_first_fault, none_is_circular, varieties_solve};

/// What schema files declare keeps to what declarations keep to: names are known and distinct, bases end at built-in types, and
/// elements of one name in a content have one type (XML Schema 1.0 part 1, sections 3.3.6, 3.4.6, 3.8.6 and 3.14.6).
pub fn imports_are_schema_sets()
    ensures { ImportsAreSchemaSets }
{
    varieties_solve();
    none_is_circular();
    no_first_fault();
    one_type_a_name();
    elements_keep();
    uses_are_distinct();
    kinds_are_written();
}

/// What schema files declare is sound: each name refers to a declaration that is there, no type, group or attribute group is part of
/// itself, declarations agree, elements of one name in a content have one type, and each restriction of a complex type allows nothing
/// that its base does not allow (XML Schema 1.0 part 1, sections 3.4.6, 3.6.6, 3.8.6, 3.14.6 and 3.15.3).
pub fn imports_are_sound()
    ensures { ImportsAreSound }
{
    varieties_solve();
    none_is_circular();
    no_first_fault();
    one_type_a_name();
    elements_keep();
    uses_are_distinct();
    kinds_are_written();
}

/// The import of schema files ends in one way: with these schemas, or with this rule, at this place.
pub fn imports_are_one()
    ensures { ImportsAreOne }
{
    judgements_are_one();
}

/// The import of any schema files ends.
pub fn an_import_exists()
    ensures { AnImportExists }
{
    varieties_solve();
    none_is_circular();
    no_first_fault();
    one_type_a_name();
    elements_keep();
    uses_are_distinct();
    kinds_are_written();
    contents_are_bounded();
    a_judgement_exists();
}

/// The file of a rule that schema files break is one of them.
pub fn a_rule_is_broken_in_a_file()
    ensures { IsBrokenInAFile }
{}
