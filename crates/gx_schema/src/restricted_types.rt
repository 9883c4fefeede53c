// Restrictions.

ghost use Rattle.std.specs.Prelude.{◌≡◌, IfOk, IfErr, OnOk};
ghost use Rattle.gx_schema_restriction.specs.declared.restrictions.Restrictions.TheVariants.{Sound};
ghost use Rattle.gx_schema_restriction.specs.Restrictions.{AreJudged};
ghost use Rattle.gx_schema.specs.Found.{found_by_number, types_found};
ghost use Rattle.gx_schema.specs.Import.{AreRestrictionsTold, IsRefusalTold, IsRefusalWith, broken_at};
ghost use Rattle.gx_schema.specs.RestrictedTypes.{is_restricted_type, is_restriction, restricted_types};

use crate::found::{Found, found_by_number, types_found};
use crate::refusal::{SchemaRefusal, SchemaRule};
use gx_base::limits::INCLUSION_PAIRS;
use gx_schema_components::component::{Derivation, TypeComponent, TypeForm as ComponentForm};
use gx_schema_restriction::restrictions::{Restrictions, judge_restrictions};
use gx_schema_syntax::written::SchemaDocument;
use gx_types::schemas::Schemas;
use gx_types::shape::Shape;
use std::alloc::{AllocError, Global};

/// By the number of a type, whether it is a restriction, of complex content or of simple content.
pub fn restricted_types(alloc: Global, types: &[TypeComponent]) -> Result<Vec<bool>, AllocError>
    ensures { IfOk result (λ restricted. restricted.items ≡ restricted_types types.now) }
{
    let mut restricted = Vec::with_capacity(alloc, types.len())?;
    let mut left = types;
    while let Some((component, others)) = left.split_first() {
        restricted.push(is_restricted_type(component))?;
        left = others;
    }
    Ok(restricted)
}

fn is_restricted_type(component: &TypeComponent) -> bool
    ensures { result ≡ is_restricted_type component.now }
{
    match &component.form {
        ComponentForm::Simple(_) => false,
        ComponentForm::Complex(definition) => is_restriction(definition.derivation),
    }
}

fn is_restriction(derivation: Derivation) -> bool
    ensures { result ≡ is_restriction derivation }
{
    match derivation {
        Derivation::Own | Derivation::Extends(_) => false,
        Derivation::Restricts(_) => true,
    }
}

/// Whether the restrictions among the types of documents are sound; else the first that is not, with a list of shapes that it allows
/// and its base does not, or the first that cannot be judged within the limit on pairs (XML Schema 1.0 part 1, section 3.4.6,
/// Derivation Valid (Restriction, Complex), where contents are compared by the lists that they take).
pub fn judge_restricted(
    alloc: Global,
    documents: &[SchemaDocument],
    schemas: &Schemas,
    restricted: &[bool],
) -> Result<(), SchemaRefusal>
    ensures sound { OnOk result (AreJudged schemas.now INCLUSION_PAIRS restricted.now Sound) }
    ensures refused { IfErr result (IsRefusalTold (AreRestrictionsTold (types_found 0 documents.now) schemas.now restricted.now)) }
{
    match judge_restrictions(alloc, schemas, restricted, INCLUSION_PAIRS)? {
        Restrictions::Sound => Ok(()),
        Restrictions::Unsound { number, list } => {
            let rule = SchemaRule::NotARestriction;
            Err(refused_type(alloc, documents, rule, number, list)?)
        }
        Restrictions::Undecided { number } => {
            let rule = SchemaRule::TooManyPairs;
            let list = Vec::new(alloc);
            Err(refused_type(alloc, documents, rule, number, list)?)
        }
    }
}

// The type of a number breaks a rule.
fn refused_type(
    alloc: Global,
    documents: &[SchemaDocument],
    rule: SchemaRule,
    number: usize,
    list: Vec<Shape>,
) -> Result<SchemaRefusal, AllocError>
    ensures { IfOk result (IsRefusalWith (broken_at rule (found_by_number (types_found 0 documents.now) number) list.items)) }
{
    let found = type_found(alloc, documents, number)?;
    Ok(SchemaRefusal::Refused {
        rule,
        file: found.file,
        name: found.name,
        list,
    })
}

fn type_found(
    alloc: Global,
    documents: &[SchemaDocument],
    number: usize,
) -> Result<Found, AllocError>
    ensures { IfOk result (λ found. found ≡ found_by_number (types_found 0 documents.now) number) }
{
    let types = types_found(alloc, documents)?;
    found_by_number(alloc, types, number)
}
