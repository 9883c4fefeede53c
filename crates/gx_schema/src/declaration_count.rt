// How many types, elements and attributes are declared.

ghost use Rattle.std.specs.Prelude.{◌≡◌, ℕ, ◌++◌, IfOk, OnOk, nat_le, slice_get};
ghost use Rattle.std.specs.List.{flat_map};
ghost use Rattle.gx_schema_syntax.specs.ParticleTree.{particles_of};
ghost use Rattle.gx_schema.specs.DeclarationCount.{complex_counted, content_counted, count_in_front, counted_local, counted_named, counted_type_declaration, declarations_counted, elements_counted, elements_counted_among, first_past_count, found_behind, found_counted, global_counted, greatest_count, is_behind, member_counted, past_declaration_limit, places_counted, counted_name_text, type_declarations_counted};
ghost use Rattle.gx_schema.specs.FirstFound.{earlier_found, first_found};

use crate::first_found::is_in_front;
use crate::found::Found;
use gx_base::name::Name;
use gx_base::text::Text;
use gx_base::type_name::TypeName;
use gx_schema_syntax::written::{
    AttributeMember, ComplexTypeDefinition, GlobalDeclaration, LocalDeclaration, Particle,
    SchemaDocument, Term, TypeDeclaration, TypeDefinition,
};
use gx_typetext::print::{print_name, print_type_name};
use std::alloc::{AllocError, Global};

// How many declarations are read.
const GREATEST_COUNT: usize = 4096;

// The name of a declaration.
#[derive(Drop)]
enum CountedName {
    Type(TypeName),
    Other(Name),
}

// A declaration of a type, an element or an attribute: the number of its file, counted from 0, the number of its element, and its
// name.
#[derive(Drop)]
struct CountedDeclaration {
    file: u32,
    place: u64,
    name: CountedName,
}

/// The first declaration by place of a type, an element or an attribute, global or local, that 4,096 others stand in front of, shown
/// with its name. References declare nothing. It is None exactly where there is none.
pub fn past_declaration_limit(
    alloc: Global,
    documents: &[SchemaDocument],
) -> Result<Option<Found>, AllocError>
    ensures { IfOk result (λ found. found ≡ past_declaration_limit documents.now) }
{
    let declarations = declarations_counted(alloc, documents)?;
    first_past_count(alloc, &declarations)
}

fn first_past_count(
    alloc: Global,
    declarations: &[CountedDeclaration],
) -> Result<Option<Found>, AllocError>
    ensures { IfOk result (λ found. found ≡ first_past_count declarations.now) }
{
    let places = places_counted(alloc, declarations)?;
    first_behind(alloc, last_within_count(places), declarations)
}

fn places_counted(
    alloc: Global,
    declarations: &[CountedDeclaration],
) -> Result<Vec<u64>, AllocError>
    ensures { IfOk result (λ places. places.items ≡ places_counted declarations.now) }
{
    let mut places = Vec::with_capacity(alloc, declarations.len())?;
    let mut left = declarations;
    while let Some((declaration, others)) = left.split_first() {
        places.push(declaration.place)?;
        left = others;
    }
    Ok(places)
}

// The last place that fewer than 4,096 others stand in front of; None where there are no more than 4,095 places.
fn last_within_count(places: Vec<u64>) -> Option<u64>
    ensures { (place : ℕ) → is_behind result place ≡ nat_le greatest_count (count_in_front places.items place) }
{
    let mut places = places;
    places.sort_unstable();
    place_at(&places, GREATEST_COUNT - 1)
}

fn place_at(places: &[u64], number: usize) -> Option<u64>
    ensures { result ≡ slice_get places.now number }
{
    places.get(number).copied()
}

// The first declaration behind a place.
#[tactic(auto, using(crate::proofs::EarlierFound::earlier_steps))]
fn first_behind(
    alloc: Global,
    last: Option<u64>,
    declarations: &[CountedDeclaration],
) -> Result<Option<Found>, AllocError>
    ensures { IfOk result (λ found. found ≡ first_found (found_behind last) declarations.now) }
{
    let mut found = None;
    let mut left = declarations;
    while let Some((declaration, others)) = left.split_first() {
        note_behind(alloc, last, declaration, &mut found)?;
        left = others;
    }
    Ok(found)
}

#[tactic(auto, using(crate::proofs::EarlierFound::noted_steps))]
fn note_behind(
    alloc: Global,
    last: Option<u64>,
    declaration: &CountedDeclaration,
    found: &mut Option<Found>,
) -> Result<(), AllocError>
    ensures { OnOk result (found.new ≡ earlier_found found.old (found_behind last declaration.now)) }
{
    if is_behind(last, declaration.place) && is_in_front(declaration.place, found) {
        *found = Some(found_counted(alloc, declaration)?);
    }
    Ok(())
}

fn is_behind(last: Option<u64>, place: u64) -> bool
    ensures { result ≡ is_behind last place }
{
    match last {
        Some(last) => last < place,
        None => false,
    }
}

fn found_counted(alloc: Global, declaration: &CountedDeclaration) -> Result<Found, AllocError>
    ensures { IfOk result (λ found. found ≡ found_counted declaration.now) }
{
    Ok(Found {
        file: declaration.file,
        place: declaration.place,
        name: counted_name_text(alloc, &declaration.name)?,
    })
}

fn counted_name_text(alloc: Global, name: &CountedName) -> Result<Text, AllocError>
    ensures { IfOk result (λ text. text ≡ counted_name_text name.now) }
{
    match name {
        CountedName::Type(name) => print_type_name(alloc, name),
        CountedName::Other(name) => print_name(alloc, name),
    }
}

fn declarations_counted(
    alloc: Global,
    documents: &[SchemaDocument],
) -> Result<Vec<CountedDeclaration>, AllocError>
    ensures { IfOk result (λ counted. counted.items ≡ declarations_counted 0 documents.now) }
{
    let mut counted = Vec::new(alloc);
    let mut file = 0u32;
    let mut left = documents;
    while let Some((document, others)) = left.split_first() {
        add_types(file, &document.types, &mut counted)?;
        add_globals(file, &document.declarations, &mut counted)?;
        file = file.checked_add(1).ok_or(AllocError)?;
        left = others;
    }
    Ok(counted)
}

fn add_types(
    file: u32,
    types: &[TypeDeclaration],
    counted: &mut Vec<CountedDeclaration>,
) -> Result<(), AllocError>
    ensures { OnOk result (counted.new.items ≡ counted.old.items ++ flat_map (type_declarations_counted file) types.now) }
{
    let mut left = types;
    while let Some((declaration, others)) = left.split_first() {
        add_type(file, declaration, counted)?;
        left = others;
    }
    Ok(())
}

fn add_type(
    file: u32,
    declaration: &TypeDeclaration,
    counted: &mut Vec<CountedDeclaration>,
) -> Result<(), AllocError>
    ensures { OnOk result (counted.new.items ≡ counted.old.items ++ type_declarations_counted file declaration.now) }
{
    counted.push(counted_type_declaration(file, declaration)?)?;
    match &declaration.definition {
        TypeDefinition::Simple(_) => Ok(()),
        TypeDefinition::Complex(definition) => add_complex(file, definition, counted),
    }
}

fn counted_type_declaration(
    file: u32,
    declaration: &TypeDeclaration,
) -> Result<CountedDeclaration, AllocError>
    ensures { IfOk result (λ counted. counted ≡ counted_type_declaration file declaration.now) }
{
    Ok(CountedDeclaration {
        file,
        place: declaration.place,
        name: CountedName::Type(declaration.name.clone()?),
    })
}

fn counted_named(file: u32, place: u64, name: &Name) -> Result<CountedDeclaration, AllocError>
    ensures { IfOk result (λ counted. counted ≡ counted_named file place name.now) }
{
    let name = CountedName::Other(name.clone()?);
    Ok(CountedDeclaration { file, place, name })
}

fn add_complex(
    file: u32,
    definition: &ComplexTypeDefinition,
    counted: &mut Vec<CountedDeclaration>,
) -> Result<(), AllocError>
    ensures { OnOk result (counted.new.items ≡ counted.old.items ++ complex_counted file definition.now) }
{
    add_content(file, &definition.particle, counted)?;
    add_members(file, definition.attributes.as_slice(), counted)
}

fn add_globals(
    file: u32,
    declarations: &[GlobalDeclaration],
    counted: &mut Vec<CountedDeclaration>,
) -> Result<(), AllocError>
    ensures { OnOk result (counted.new.items ≡ counted.old.items ++ flat_map (global_counted file) declarations.now) }
{
    let mut left = declarations;
    while let Some((declaration, others)) = left.split_first() {
        add_global(file, declaration, counted)?;
        left = others;
    }
    Ok(())
}

fn add_global(
    file: u32,
    declaration: &GlobalDeclaration,
    counted: &mut Vec<CountedDeclaration>,
) -> Result<(), AllocError>
    ensures { OnOk result (counted.new.items ≡ counted.old.items ++ global_counted file declaration.now) }
{
    match declaration {
        GlobalDeclaration::Element { place, name, .. }
        | GlobalDeclaration::Attribute { place, name, .. } => {
            counted.push(counted_named(file, *place, name)?)?;
            Ok(())
        }
        GlobalDeclaration::Group { particle, .. } => add_content(file, particle, counted),
        GlobalDeclaration::AttributeGroup { attributes, .. } => {
            add_members(file, attributes.as_slice(), counted)
        }
    }
}

fn add_content(
    file: u32,
    content: &Option<Particle>,
    counted: &mut Vec<CountedDeclaration>,
) -> Result<(), AllocError>
    ensures { OnOk result (counted.new.items ≡ counted.old.items ++ content_counted file content.now) }
{
    match content {
        Some(particle) => add_elements(file, particle, counted),
        None => Ok(()),
    }
}

#[cycle(particles)]
fn add_elements(
    file: u32,
    particle: &Particle,
    counted: &mut Vec<CountedDeclaration>,
) -> Result<(), AllocError>
    ensures { OnOk result (counted.new.items ≡ counted.old.items ++ elements_counted file particle.now) }
{
    match &particle.term {
        Term::Element(declaration) => add_local(file, particle.place, declaration, counted),
        Term::Group(_) => Ok(()),
        Term::Model(_, particles) => add_elements_among(file, particles, counted),
    }
}

#[cycle(particles)]
fn add_elements_among(
    file: u32,
    particles: &[Particle],
    counted: &mut Vec<CountedDeclaration>,
) -> Result<(), AllocError>
    ensures { OnOk result (counted.new.items ≡ counted.old.items ++ elements_counted_among file (particles_of particles.now)) }
{
    let mut left = particles;
    while let Some((particle, others)) = left.split_first() {
        add_elements(file, particle, counted)?;
        left = others;
    }
    Ok(())
}

fn add_members(
    file: u32,
    members: &[AttributeMember],
    counted: &mut Vec<CountedDeclaration>,
) -> Result<(), AllocError>
    ensures { OnOk result (counted.new.items ≡ counted.old.items ++ flat_map (member_counted file) members.now) }
{
    let mut left = members;
    while let Some((member, others)) = left.split_first() {
        match member {
            AttributeMember::Attribute {
                place,
                attribute,
                ..
            } => add_local(file, *place, attribute, counted)?,
            AttributeMember::Group { .. } => {}
        }
        left = others;
    }
    Ok(())
}

fn add_local(
    file: u32,
    place: u64,
    declaration: &LocalDeclaration,
    counted: &mut Vec<CountedDeclaration>,
) -> Result<(), AllocError>
    ensures { OnOk result (counted.new.items ≡ counted.old.items ++ counted_local file place declaration.now) }
{
    match declaration {
        LocalDeclaration::Declared { name, .. } => {
            counted.push(counted_named(file, place, name)?)?;
            Ok(())
        }
        LocalDeclaration::Referred { .. } => Ok(()),
    }
}
