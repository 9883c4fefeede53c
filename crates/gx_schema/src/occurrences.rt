// How often particles occur.

ghost use Rattle.std.specs.Prelude.{◌≡◌, IfOk, OnOk};
ghost use Rattle.gx_schema_syntax.specs.ParticleTree.{particles_of};
ghost use Rattle.gx_schema.specs.FirstFound.{earlier_found, first_found};
ghost use Rattle.gx_schema.specs.Occurrences.{breaks_rule, broken_from, broken_in_document, broken_in_global, broken_in_type, disordered_bounds, first_breaking, first_breaking_among, first_breaking_in, first_breaking_of, past_occurrence_limit};

use crate::first_found::{note_in_definition, note_in_type};
use crate::found::Found;
use gx_schema_components::bounds::bounds_of;
use gx_schema_syntax::written::{
    Bounds, GlobalDeclaration, Particle, SchemaDocument, Term, TypeDeclaration, TypeDefinition,
};
use std::alloc::{AllocError, Global};

// The greatest maxOccurs.
const OCCURRENCE_LIMIT: u32 = 64;

// A rule on how often particles occur.
#[derive(Clone, Copy, PartialEq, Eq)]
enum OccurrenceRule {
    // minOccurs is not above maxOccurs.
    Order,
    // maxOccurs is unbounded or not above the limit.
    Limit,
}

/// The first particle by place whose minOccurs is above its maxOccurs (XML Schema 1.0 part 1, section 3.9.6), shown with the type
/// or the group definition that holds it most closely. It is None exactly where there is none.
pub fn disordered_bounds(
    alloc: Global,
    documents: &[SchemaDocument],
) -> Result<Option<Found>, AllocError>
    ensures { IfOk result (λ found. found ≡ disordered_bounds documents.now) }
{
    broken_rule(alloc, OccurrenceRule::Order, documents)
}

/// The first particle by place whose maxOccurs is a number above 64, shown with the type or the group definition that holds it most
/// closely. It is None exactly where there is none.
pub fn past_occurrence_limit(
    alloc: Global,
    documents: &[SchemaDocument],
) -> Result<Option<Found>, AllocError>
    ensures { IfOk result (λ found. found ≡ past_occurrence_limit documents.now) }
{
    broken_rule(alloc, OccurrenceRule::Limit, documents)
}

#[tactic(auto, using(crate::proofs::EarlierFound::earlier_steps))]
fn broken_rule(
    alloc: Global,
    rule: OccurrenceRule,
    documents: &[SchemaDocument],
) -> Result<Option<Found>, AllocError>
    ensures { IfOk result (λ found. found ≡ broken_from rule 0 documents.now) }
{
    let mut found = None;
    let mut file = 0u32;
    let mut left = documents;
    while let Some((document, others)) = left.split_first() {
        note_document(alloc, rule, file, document, &mut found)?;
        file = file.checked_add(1).ok_or(AllocError)?;
        left = others;
    }
    Ok(found)
}

#[tactic(auto, using(crate::proofs::EarlierFound::earlier_steps))]
fn note_document(
    alloc: Global,
    rule: OccurrenceRule,
    file: u32,
    document: &SchemaDocument,
    found: &mut Option<Found>,
) -> Result<(), AllocError>
    ensures { OnOk result (found.new ≡ earlier_found found.old (broken_in_document rule file document.now)) }
{
    note_types(alloc, rule, file, &document.types, found)?;
    note_globals(alloc, rule, file, &document.declarations, found)
}

#[tactic(auto, using(crate::proofs::EarlierFound::earlier_steps))]
fn note_types(
    alloc: Global,
    rule: OccurrenceRule,
    file: u32,
    types: &[TypeDeclaration],
    found: &mut Option<Found>,
) -> Result<(), AllocError>
    ensures { OnOk result (found.new ≡ earlier_found found.old (first_found (broken_in_type rule file) types.now)) }
{
    let mut left = types;
    while let Some((declaration, others)) = left.split_first() {
        let place = first_breaking_of(rule, &declaration.definition);
        note_in_type(alloc, file, &declaration.name, place, found)?;
        left = others;
    }
    Ok(())
}

#[tactic(auto, using(crate::proofs::EarlierFound::earlier_steps))]
fn note_globals(
    alloc: Global,
    rule: OccurrenceRule,
    file: u32,
    declarations: &[GlobalDeclaration],
    found: &mut Option<Found>,
) -> Result<(), AllocError>
    ensures { OnOk result (found.new ≡ earlier_found found.old (first_found (broken_in_global rule file) declarations.now)) }
{
    let mut left = declarations;
    while let Some((declaration, others)) = left.split_first() {
        note_global(alloc, rule, file, declaration, found)?;
        left = others;
    }
    Ok(())
}

#[tactic(auto, using(crate::proofs::EarlierFound::earlier_steps))]
fn note_global(
    alloc: Global,
    rule: OccurrenceRule,
    file: u32,
    declaration: &GlobalDeclaration,
    found: &mut Option<Found>,
) -> Result<(), AllocError>
    ensures { OnOk result (found.new ≡ earlier_found found.old (broken_in_global rule file declaration.now)) }
{
    match declaration {
        GlobalDeclaration::Group { name, particle, .. } => {
            let place = first_breaking_in(rule, particle);
            note_in_definition(alloc, file, name, place, found)
        }
        GlobalDeclaration::Element { .. }
        | GlobalDeclaration::Attribute { .. }
        | GlobalDeclaration::AttributeGroup { .. } => Ok(()),
    }
}

fn first_breaking_of(rule: OccurrenceRule, definition: &TypeDefinition) -> Option<u64>
    ensures { result ≡ first_breaking_of rule definition.now }
{
    match definition {
        TypeDefinition::Simple(_) => None,
        TypeDefinition::Complex(definition) => first_breaking_in(rule, &definition.particle),
    }
}

fn first_breaking_in(rule: OccurrenceRule, content: &Option<Particle>) -> Option<u64>
    ensures { result ≡ first_breaking_in rule content.now }
{
    match content {
        Some(particle) => first_breaking(rule, particle),
        None => None,
    }
}

#[cycle(particles)]
fn first_breaking(rule: OccurrenceRule, particle: &Particle) -> Option<u64>
    ensures { result ≡ first_breaking rule particle.now }
{
    if breaks_rule(rule, &particle.bounds) {
        return Some(particle.place);
    }
    match &particle.term {
        Term::Element(_) | Term::Group(_) => None,
        Term::Model(_, particles) => first_breaking_among(rule, particles),
    }
}

#[cycle(particles)]
fn first_breaking_among(rule: OccurrenceRule, particles: &[Particle]) -> Option<u64>
    ensures { result ≡ first_breaking_among rule (particles_of particles.now) }
{
    let mut left = particles;
    while let Some((particle, others)) = left.split_first() {
        if let Some(place) = first_breaking(rule, particle) {
            return Some(place);
        }
        left = others;
    }
    None
}

fn breaks_rule(rule: OccurrenceRule, bounds: &Bounds) -> bool
    ensures { result ≡ breaks_rule rule bounds.now }
{
    let bounds = bounds_of(bounds);
    match rule {
        OccurrenceRule::Order => !bounds.are_ordered,
        OccurrenceRule::Limit => match bounds.greatest {
            Some(greatest) => greatest > OCCURRENCE_LIMIT,
            None => false,
        },
    }
}
