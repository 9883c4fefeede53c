// The references of schema documents, and the earliest of them that refers to nothing.

ghost use Rattle.std.specs.Prelude.{◌≡◌, IfOk, OnOk, [], ◌∷◌};
ghost use Rattle.std.specs.List.{flat_map};
ghost use Rattle.gx_schema_syntax.specs.ParticleTree.{particles_of};
ghost use Rattle.gx_schema_components.specs.Mentions.{base_mentions, complex_type_mentions, content_mentions, definition_mentions, document_mentions, global_mentions, local_mentions, member_mentions, members_mentions, mentioned, particle_mentions, particles_mentions, simple_type_mentions, type_declaration_mentions, type_mentions, written_type_mentions};
ghost use Rattle.gx_schema_components.specs.NamesView.{number_in_tables};
ghost use Rattle.gx_schema_components.specs.Unknown.{earliest_unknown, is_later, refers, with_unknown};

use crate::mention::{ComponentKind, Mention};
use crate::names::{DeclaredNumbers, number_in_tables};
use crate::shown::is_schema_uri;
use gx_qnames::reference::Reference;
use gx_schema_syntax::written::{
    AttributeMember, ComplexTypeDefinition, Derivation, GlobalDeclaration, LocalDeclaration,
    Particle, SchemaDocument, SimpleTypeDefinition, Term, TypeDeclaration, TypeDefinition,
    TypeReference,
};
use std::alloc::AllocError;

fn refers(numbers: &DeclaredNumbers, kind: ComponentKind, reference: &Reference) -> bool
    ensures { result ≡ refers (number_in_tables numbers.now) kind reference.now }
{
    reference.is_bound
        && !is_schema_uri(&reference.name.uri)
        && number_in_tables(numbers, kind, &reference.name).is_some()
}

fn copy_of(reference: &Reference) -> Result<Reference, AllocError>
    ensures { IfOk result (λ copy. copy ≡ reference.now) }
{
    Ok(Reference {
        name: reference.name.clone()?,
        is_bound: reference.is_bound,
    })
}

// Whether nothing was found, or something behind a place.
fn is_later(found: &Option<Mention>, place: u64) -> bool
    ensures { result ≡ is_later found.now place }
{
    match found {
        Some(mention) => place < mention.place,
        None => true,
    }
}

// Keeps this reference if it refers to nothing, and stands before the one that was found.
#[tactic(auto, using(crate::proofs::Earliest::noted_steps))]
fn note(
    numbers: &DeclaredNumbers,
    kind: ComponentKind,
    place: u64,
    reference: &Reference,
    found: &mut Option<Mention>,
) -> Result<(), AllocError>
    ensures { OnOk result (found.new ≡ with_unknown (number_in_tables numbers.now) found.old (mentioned kind place reference.now)) }
{
    if is_later(found, place) && !refers(numbers, kind, reference) {
        *found = Some(Mention {
            place,
            kind,
            reference: copy_of(reference)?,
        });
    }
    Ok(())
}

#[tactic(auto, using(std::proofs::lemmas::Grind::common_steps, crate::proofs::Earliest::unknown_steps))]
fn note_type(
    numbers: &DeclaredNumbers,
    place: u64,
    kind: &TypeReference,
    found: &mut Option<Mention>,
) -> Result<(), AllocError>
    ensures { OnOk result (found.new ≡ with_unknown (number_in_tables numbers.now) found.old (type_mentions place kind.now)) }
{
    match kind {
        TypeReference::Declared(reference) => {
            note(
                numbers,
                ComponentKind::TypeDefinition,
                place,
                reference,
                found,
            )
        }
        TypeReference::Builtin(_) | TypeReference::Anonymous(_) => Ok(()),
    }
}

#[tactic(auto, using(std::proofs::lemmas::Grind::common_steps, crate::proofs::Earliest::unknown_steps))]
fn note_written_type(
    numbers: &DeclaredNumbers,
    place: u64,
    kind: &Option<TypeReference>,
    found: &mut Option<Mention>,
) -> Result<(), AllocError>
    ensures { OnOk result (found.new ≡ with_unknown (number_in_tables numbers.now) found.old (written_type_mentions place kind.now)) }
{
    match kind {
        Some(kind) => note_type(numbers, place, kind, found),
        None => Ok(()),
    }
}

#[tactic(auto, using(std::proofs::lemmas::Grind::common_steps, crate::proofs::Earliest::local_steps))]
fn note_local(
    numbers: &DeclaredNumbers,
    component: ComponentKind,
    place: u64,
    declaration: &LocalDeclaration,
    found: &mut Option<Mention>,
) -> Result<(), AllocError>
    ensures { OnOk result (found.new ≡ with_unknown (number_in_tables numbers.now) found.old (local_mentions component place declaration.now)) }
{
    match declaration {
        LocalDeclaration::Declared { name: _, kind } => note_type(numbers, place, kind, found),
        LocalDeclaration::Referred { reference, kind } => {
            note(numbers, component, place, reference, found)?;
            note_written_type(numbers, place, kind, found)
        }
    }
}

#[cycle(particles)]
fn note_particle(
    numbers: &DeclaredNumbers,
    particle: &Particle,
    found: &mut Option<Mention>,
) -> Result<(), AllocError>
    ensures { OnOk result (found.new ≡ with_unknown (number_in_tables numbers.now) found.old (particle_mentions particle.now)) }
{
    let place = particle.place;
    match &particle.term {
        Term::Element(declaration) => {
            let component = ComponentKind::ElementDeclaration;
            note_local(numbers, component, place, declaration, found)
        }
        Term::Group(reference) => {
            note(
                numbers,
                ComponentKind::GroupDefinition,
                place,
                reference,
                found,
            )
        }
        Term::Model(_, particles) => note_particles(numbers, particles, found),
    }
}

#[cycle(particles)]
#[tactic(auto, using(std::proofs::lemmas::Grind::common_steps, crate::proofs::Earliest::unknown_steps))]
fn note_particles(
    numbers: &DeclaredNumbers,
    particles: &[Particle],
    found: &mut Option<Mention>,
) -> Result<(), AllocError>
    ensures { OnOk result (found.new ≡ with_unknown (number_in_tables numbers.now) found.old (particles_mentions (particles_of particles.now))) }
{
    let mut left = particles;
    while let Some((particle, others)) = left.split_first() {
        note_particle(numbers, particle, found)?;
        left = others;
    }
    Ok(())
}

#[tactic(auto, using(std::proofs::lemmas::Grind::common_steps, crate::proofs::Earliest::unknown_steps))]
fn note_content(
    numbers: &DeclaredNumbers,
    content: &Option<Particle>,
    found: &mut Option<Mention>,
) -> Result<(), AllocError>
    ensures { OnOk result (found.new ≡ with_unknown (number_in_tables numbers.now) found.old (content_mentions content.now)) }
{
    match content {
        Some(particle) => note_particle(numbers, particle, found),
        None => Ok(()),
    }
}

fn note_member(
    numbers: &DeclaredNumbers,
    member: &AttributeMember,
    found: &mut Option<Mention>,
) -> Result<(), AllocError>
    ensures { OnOk result (found.new ≡ with_unknown (number_in_tables numbers.now) found.old (member_mentions member.now)) }
{
    match member {
        AttributeMember::Attribute {
            place,
            usage: _,
            attribute,
        } => {
            let component = ComponentKind::AttributeDeclaration;
            note_local(numbers, component, *place, attribute, found)
        }
        AttributeMember::Group { place, reference } => {
            let kind = ComponentKind::AttributeGroupDefinition;
            note(numbers, kind, *place, reference, found)
        }
    }
}

#[tactic(auto, using(std::proofs::lemmas::Grind::common_steps, crate::proofs::Earliest::unknown_steps))]
fn note_members(
    numbers: &DeclaredNumbers,
    members: &[AttributeMember],
    found: &mut Option<Mention>,
) -> Result<(), AllocError>
    ensures { OnOk result (found.new ≡ with_unknown (number_in_tables numbers.now) found.old (members_mentions members.now)) }
{
    let mut left = members;
    while let Some((member, others)) = left.split_first() {
        note_member(numbers, member, found)?;
        left = others;
    }
    Ok(())
}

fn note_simple_type(
    numbers: &DeclaredNumbers,
    definition: &SimpleTypeDefinition,
    found: &mut Option<Mention>,
) -> Result<(), AllocError>
    ensures { OnOk result (found.new ≡ with_unknown (number_in_tables numbers.now) found.old (simple_type_mentions definition.now)) }
{
    match definition {
        SimpleTypeDefinition::Restriction {
            place,
            base,
            facets: _,
        } => note_type(numbers, *place, base, found),
        SimpleTypeDefinition::List { place, item } => note_type(numbers, *place, item, found),
    }
}

#[tactic(auto, using(std::proofs::lemmas::Grind::common_steps, crate::proofs::Earliest::unknown_steps))]
fn note_base(
    numbers: &DeclaredNumbers,
    derivation: &Option<Derivation>,
    found: &mut Option<Mention>,
) -> Result<(), AllocError>
    ensures { OnOk result (found.new ≡ with_unknown (number_in_tables numbers.now) found.old (base_mentions derivation.now)) }
{
    match derivation {
        Some(derivation) => note_type(numbers, derivation.place, &derivation.base, found),
        None => Ok(()),
    }
}

#[tactic(auto, using(std::proofs::lemmas::Grind::common_steps, crate::proofs::Earliest::unknown_steps))]
fn note_complex_type(
    numbers: &DeclaredNumbers,
    definition: &ComplexTypeDefinition,
    found: &mut Option<Mention>,
) -> Result<(), AllocError>
    ensures { OnOk result (found.new ≡ with_unknown (number_in_tables numbers.now) found.old (complex_type_mentions definition.now)) }
{
    note_base(numbers, &definition.derivation, found)?;
    note_content(numbers, &definition.particle, found)?;
    note_members(numbers, definition.attributes.as_slice(), found)
}

#[tactic(auto, using(std::proofs::lemmas::Grind::common_steps, crate::proofs::Earliest::unknown_steps))]
fn note_types(
    numbers: &DeclaredNumbers,
    types: &[TypeDeclaration],
    found: &mut Option<Mention>,
) -> Result<(), AllocError>
    ensures { OnOk result (found.new ≡ with_unknown (number_in_tables numbers.now) found.old (flat_map type_declaration_mentions types.now)) }
{
    let mut left = types;
    while let Some((declaration, others)) = left.split_first() {
        match &declaration.definition {
            TypeDefinition::Simple(definition) => note_simple_type(numbers, definition, found)?,
            TypeDefinition::Complex(definition) => note_complex_type(numbers, definition, found)?,
        }
        left = others;
    }
    Ok(())
}

fn note_global(
    numbers: &DeclaredNumbers,
    declaration: &GlobalDeclaration,
    found: &mut Option<Mention>,
) -> Result<(), AllocError>
    ensures { OnOk result (found.new ≡ with_unknown (number_in_tables numbers.now) found.old (global_mentions declaration.now)) }
{
    match declaration {
        GlobalDeclaration::Element {
            place,
            name: _,
            kind,
        }
        | GlobalDeclaration::Attribute {
            place,
            name: _,
            kind,
        } => note_type(numbers, *place, kind, found),
        GlobalDeclaration::Group {
            place: _,
            name: _,
            particle,
        } => note_content(numbers, particle, found),
        GlobalDeclaration::AttributeGroup {
            place: _,
            name: _,
            attributes,
        } => note_members(numbers, attributes.as_slice(), found),
    }
}

#[tactic(auto, using(std::proofs::lemmas::Grind::common_steps, crate::proofs::Earliest::unknown_steps))]
fn note_globals(
    numbers: &DeclaredNumbers,
    declarations: &[GlobalDeclaration],
    found: &mut Option<Mention>,
) -> Result<(), AllocError>
    ensures { OnOk result (found.new ≡ with_unknown (number_in_tables numbers.now) found.old (flat_map global_mentions declarations.now)) }
{
    let mut left = declarations;
    while let Some((declaration, others)) = left.split_first() {
        note_global(numbers, declaration, found)?;
        left = others;
    }
    Ok(())
}

/// The earliest reference of a document that refers to nothing.
#[tactic(auto, using(std::proofs::lemmas::Grind::common_steps, crate::proofs::Earliest::unknown_steps))]
pub fn earliest_unknown(
    numbers: &DeclaredNumbers,
    document: &SchemaDocument,
) -> Result<Option<Mention>, AllocError>
    ensures { IfOk result (λ found. found ≡ earliest_unknown (number_in_tables numbers.now) (document_mentions document.now)) }
{
    let mut found = None;
    note_types(numbers, &document.types, &mut found)?;
    note_globals(numbers, &document.declarations, &mut found)?;
    Ok(found)
}
