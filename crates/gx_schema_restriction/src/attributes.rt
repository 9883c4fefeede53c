// Attributes of restrictions.

ghost use Rattle.std.specs.Prelude.{◌≡◌, option_copied};
ghost use Rattle.std.specs.List.{list_any};
ghost use Rattle.gx_schema_restriction.specs.Attributes.{allows, attribute_fault, first_added, first_loosened, is_required_as};

use gx_types::declaration::AttributeUse;
use gx_types::derivation::derives;
use gx_types::schemas::Schemas;

/// The first attribute of a restriction that its base lacks, or has with a type from which its own is not derived; where there is
/// none, the first that the base requires and the restriction does not, as the base has it (XML Schema 1.0 part 1, section 3.4.6,
/// Derivation Valid (Restriction, Complex), clauses 2 and 3).
pub fn attribute_fault<'a>(
    schemas: &Schemas,
    base: &'a [AttributeUse],
    uses: &'a [AttributeUse],
) -> Option<&'a AttributeUse>
    ensures { option_copied result ≡ attribute_fault schemas.now base.now uses.now }
{
    match first_added(schemas, base, uses) {
        Some(added) => Some(added),
        None => first_loosened(base, uses),
    }
}

// The first attribute that a base lacks, or has with a type from which its own is not derived.
fn first_added<'a>(
    schemas: &Schemas,
    base: &[AttributeUse],
    uses: &'a [AttributeUse],
) -> Option<&'a AttributeUse>
    ensures { option_copied result ≡ first_added schemas.now base.now uses.now }
{
    let mut left = uses;
    while let Some((given, others)) = left.split_first() {
        if !is_allowed(schemas, base, given) {
            return Some(given);
        }
        left = others;
    }
    None
}

// Whether an attribute of a base allows one of a restriction.
fn is_allowed(schemas: &Schemas, base: &[AttributeUse], given: &AttributeUse) -> bool
    ensures { result ≡ list_any (allows schemas.now given.now) base.now }
{
    base.iter()
        .any(|inherited| allows(schemas, inherited, given))
}

fn allows(schemas: &Schemas, inherited: &AttributeUse, given: &AttributeUse) -> bool
    ensures { result ≡ allows schemas.now given.now inherited.now }
{
    inherited.name == given.name && derives(schemas, &given.kind, &inherited.kind)
}

// The first attribute that a base requires and a restriction does not.
fn first_loosened<'a>(base: &'a [AttributeUse], uses: &[AttributeUse]) -> Option<&'a AttributeUse>
    ensures { option_copied result ≡ first_loosened base.now uses.now }
{
    let mut left = base;
    while let Some((inherited, others)) = left.split_first() {
        if inherited.required && !is_kept(inherited, uses) {
            return Some(inherited);
        }
        left = others;
    }
    None
}

// Whether an attribute of a base is required by one of a restriction.
fn is_kept(inherited: &AttributeUse, uses: &[AttributeUse]) -> bool
    ensures { result ≡ list_any (is_required_as inherited.now) uses.now }
{
    uses.iter().any(|given| is_required_as(inherited, given))
}

fn is_required_as(inherited: &AttributeUse, given: &AttributeUse) -> bool
    ensures { result ≡ is_required_as inherited.now given.now }
{
    inherited.name == given.name && given.required
}
