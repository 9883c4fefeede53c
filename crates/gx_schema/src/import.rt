// What schema files declare.

ghost use Rattle.std.specs.Prelude.{◌≡◌, map, IfOk, IfErr, OnOk, [], option_map, None};
ghost use Rattle.gx_schema_components.specs.Components.{AreComponents};
ghost use Rattle.gx_schema_components.specs.DeclaredNames.{type_names_in};
ghost use Rattle.gx_schema.specs.Circular.{circular};
ghost use Rattle.gx_schema_syntax.specs.DocumentTree.{DocumentTree};
ghost use Rattle.gx_schema_syntax.specs.Profile.{outside_files};
ghost use Rattle.gx_schema.specs.Import.{AreWithinProfile, breaks, broken_at, components_judged, declares, found_in_file, documents_judged, documents_of, names_judged, read_in_files, unknown_found, unless_broken, IsImported, IsJudged, IsRefusalTold, IsRefusalWith, IsSchemaRefusal};
ghost use Rattle.gx_schema.specs.RestrictedTypes.{restricted_types};
ghost use Rattle.gx_schema.specs.SchemaTypes.{meanings_seen, schemas_written, type_forms};
ghost use Rattle.gx_schema_simple.specs.Varieties.{IsMarked};
ghost use Rattle.gx_schema.specs.MeaningsView.{SameMeanings, meanings_view};
ghost use Rattle.gx_schema.specs.SeenComponents.{attribute_groups, model_groups, seen_among, seen_components, type_components};
ghost use Rattle.gx_schema.specs.SeenView.{AreCircles, circles_view};
ghost use Rattle.gx_schema.specs.ReadView.{IsRead};

use crate::circular::{circular_attribute_group, circular_group, circular_type};
use crate::first_found::earlier_found;
use crate::found::Found;
use crate::inconsistent::inconsistent;
use crate::refusal::{SchemaRefusal, SchemaRule};
use crate::restricted_types::judge_restricted;
use crate::schema_types::{TypeTables, schema_elements, schema_types};
use crate::seen_components::{
    CircleMarks, SeenComponents, circles, hide_attribute_groups, hide_bases, hide_groups,
};
use crate::seen_meanings::{seen_contents, seen_restrictions, seen_uses};
use crate::too_large::too_large;
use crate::type_forms::type_forms;
use gx_base::text::Text;
use gx_base::type_name::TypeName;
use gx_schema_attributes::laws::{kinds_are_written, uses_are_distinct};
use gx_schema_components::component::Components;
use gx_schema_components::components::components;
use gx_schema_components::names::type_names_in;
use gx_schema_components::unknown::unknown;
use gx_schema_content::laws::{elements_keep, one_type_a_name};
use gx_schema_simple::laws::{no_first_fault, none_is_circular, varieties_solve};
use gx_schema_simple::type_form::TypeForm;
use gx_schema_simple::variety::varieties;
use gx_schema_syntax::profile::{ProfileRefusal, schema_documents};
use gx_schema_syntax::written::SchemaDocument;
use gx_types::declaration::{Declared, GlobalElement};
use gx_types::schemas::Schemas;
use gx_xml::source::Source;
use std::alloc::{AllocError, Global};

/// What schema files declare (XML Schema 1.0 part 1, section 3.15), exactly where they keep to all rules; else the first rule that one
/// of them breaks, at its first place over the files. The rules are tried in this order: `NotInProfile`, `UnknownName`, `Inconsistent`,
/// `Circular` and `TooLarge`; then, over the restrictions of complex types in the order of the types, `NotARestriction` or
/// `TooManyPairs`.
pub fn import(alloc: Global, files: &[Source]) -> Result<Schemas, SchemaRefusal>
    ensures declared { IfOk result (λ schemas. IsImported files.now (declares schemas)) }
    ensures refused { IfErr result (IsSchemaRefusal files.now) }
{
    let documents = documents_inside(alloc, files)?;
    judge(alloc, documents.as_slice())
}

// The documents of files, where no construct is outside the profile.
fn documents_inside(alloc: Global, files: &[Source]) -> Result<Vec<SchemaDocument>, SchemaRefusal>
    ensures inside { IfOk result (λ documents. outside_files 0 files.now ≡ None) }
    ensures documents { IfOk result (λ documents. documents.items ≡ documents_of files.now) }
    ensures refused { IfErr result (IsRefusalWith (read_in_files files.now)) }
{
    match schema_documents(alloc, files) {
        Ok(documents) => Ok(documents),
        Err(ProfileRefusal::Outside { file, name }) => {
            Err(refused(alloc, SchemaRule::NotInProfile, file, name))
        }
        Err(ProfileRefusal::Memory) => Err(SchemaRefusal::Memory),
    }
}

fn judge(alloc: Global, documents: &[SchemaDocument]) -> Result<Schemas, SchemaRefusal>
    requires { AreWithinProfile documents.now }
    ensures declared { IfOk result (λ schemas. IsJudged documents.now (documents_judged documents.now) (declares schemas)) }
    ensures refused { IfErr result (IsRefusalTold (IsJudged documents.now (documents_judged documents.now))) }
{
    let read = judge_declarations(alloc, documents)?;
    judge_schemas(alloc, documents, read)
}

// All rules but those on restrictions.
fn judge_declarations(
    alloc: Global,
    documents: &[SchemaDocument],
) -> Result<ReadComponents, SchemaRefusal>
    ensures read { IfOk result (IsRead documents.now) }
    ensures passes { OnOk result (documents_judged documents.now ≡ declares (schemas_written documents.now)) }
    ensures refused { IfErr result (IsRefusalWith (documents_judged documents.now)) }
{
    judge_names(alloc, documents)?;
    let read = read(alloc, documents)?;
    judge_components(alloc, documents, &read)?;
    Ok(read)
}

// The rules on restrictions.
fn judge_schemas(
    alloc: Global,
    documents: &[SchemaDocument],
    read: ReadComponents,
) -> Result<Schemas, SchemaRefusal>
    requires inside { AreWithinProfile documents.now }
    requires read { IsRead documents.now read }
    requires judged { documents_judged documents.now ≡ declares (schemas_written documents.now) }
    ensures declared { IfOk result (λ schemas. IsJudged documents.now (declares (schemas_written documents.now)) (declares schemas)) }
    ensures refused { IfErr result (IsRefusalTold (IsJudged documents.now (declares (schemas_written documents.now)))) }
{
    let restricted = restricted_types_read(alloc, documents, &read)?;
    let schemas = schemas_written(alloc, documents, read)?;
    judge_restricted(alloc, documents, &schemas, &restricted)?;
    Ok(schemas)
}

fn restricted_types_read(
    alloc: Global,
    documents: &[SchemaDocument],
    read: &ReadComponents,
) -> Result<Vec<bool>, AllocError>
    requires { IsRead documents.now read.now }
    ensures { IfOk result (λ restricted. restricted.items ≡ restricted_types (seen_components documents.now).types) }
{
    seen_restrictions(alloc, &read.seen)
}

// Each name refers to something.
fn judge_names(alloc: Global, documents: &[SchemaDocument]) -> Result<(), SchemaRefusal>
    ensures passes { OnOk result (documents_judged documents.now
        ≡ components_judged documents.now (type_forms documents.now) (seen_components documents.now) (declares (schemas_written documents.now))) }
    ensures refused { IfErr result (IsRefusalWith (documents_judged documents.now)) }
{
    match unknown(alloc, documents)? {
        Some(unknown) => {
            let rule = SchemaRule::UnknownName;
            Err(refused(alloc, rule, unknown.file, unknown.name))
        }
        None => Ok(()),
    }
}

// What is read of documents: the names and the forms of types, the components and what stands on circles among them, the global
// elements, and the numbers of group definitions and of attribute groups.
#[derive(Drop)]
struct ReadComponents {
    names: Vec<TypeName>,
    forms: Vec<TypeForm>,
    circles: CircleMarks,
    seen: SeenComponents,
    elements: Vec<GlobalElement>,
    groups: usize,
    attribute_groups: usize,
}

fn read(alloc: Global, documents: &[SchemaDocument]) -> Result<ReadComponents, AllocError>
    ensures { IfOk result (IsRead documents.now) }
{
    let names = type_names_in(alloc, documents)?;
    let components = components(alloc, documents)?;
    read_components(alloc, documents, names, components)
}

fn read_components(
    alloc: Global,
    documents: &[SchemaDocument],
    names: Vec<TypeName>,
    components: Components,
) -> Result<ReadComponents, AllocError>
    requires names { names.items ≡ type_names_in documents.now }
    requires components { AreComponents documents.now components }
    ensures { IfOk result (IsRead documents.now) }
{
    let elements = schema_elements(alloc, &components.elements)?;
    let (forms, circles) = forms_and_circles(alloc, documents, &components)?;
    let groups = components.groups.len();
    let attribute_groups = components.attribute_groups.len();
    let seen = seen(alloc, components, &circles);
    Ok(ReadComponents {
        names,
        forms,
        circles,
        seen,
        elements,
        groups,
        attribute_groups,
    })
}

fn forms_and_circles(
    alloc: Global,
    documents: &[SchemaDocument],
    components: &Components,
) -> Result<(Vec<TypeForm>, CircleMarks), AllocError>
    requires { AreComponents documents.now components.now }
    ensures forms { IfOk result (λ both. both.0.items ≡ type_forms documents.now) }
    ensures circles { IfOk result (λ both. AreCircles (type_components documents.now) (model_groups documents.now) (attribute_groups documents.now) both.1) }
{
    let forms = type_forms(alloc, &components.types)?;
    let circles = circles(
        alloc,
        &components.types,
        &forms,
        &components.model_groups,
        &components.attribute_groups,
    )?;
    Ok((forms, circles))
}

// The components, without what stands on circles.
fn seen(alloc: Global, components: Components, circles: &CircleMarks) -> SeenComponents
    ensures { result ≡ seen_among (circles_view circles.now) components.types.items components.model_groups.items components.attribute_groups.items }
{
    let mut types = components.types;
    let mut groups = components.model_groups;
    let mut attribute_groups = components.attribute_groups;
    hide_bases(&circles.types, &mut types);
    hide_groups(alloc, &circles.groups, &mut groups);
    hide_attribute_groups(alloc, &circles.attribute_groups, &mut attribute_groups);
    SeenComponents {
        types,
        groups,
        attribute_groups,
    }
}

// Declarations agree, none is part of itself, and none is too large.
fn judge_components(
    alloc: Global,
    documents: &[SchemaDocument],
    read: &ReadComponents,
) -> Result<(), SchemaRefusal>
    requires { IsRead documents.now read.now }
    ensures passes { OnOk result (components_judged documents.now (type_forms documents.now) (seen_components documents.now) (declares (schemas_written documents.now)) ≡ declares (schemas_written documents.now)) }
    ensures refused { IfErr result (IsRefusalWith (components_judged documents.now (type_forms documents.now) (seen_components documents.now) (declares (schemas_written documents.now)))) }
{
    if let Some(found) = inconsistent(alloc, documents, &read.forms, &read.seen)? {
        return Err(refused_at(alloc, SchemaRule::Inconsistent, found));
    }
    if let Some(found) = circular(alloc, documents, read)? {
        return Err(refused_at(alloc, SchemaRule::Circular, found));
    }
    if let Some(found) = too_large(alloc, documents, &read.seen)? {
        return Err(refused_at(alloc, SchemaRule::TooLarge, found));
    }
    Ok(())
}

fn circular(
    alloc: Global,
    documents: &[SchemaDocument],
    read: &ReadComponents,
) -> Result<Option<Found>, AllocError>
    requires { IsRead documents.now read.now }
    ensures { IfOk result (λ found. found ≡ circular documents.now (type_forms documents.now)) }
{
    let marks = &read.circles.attribute_groups;
    let attributes = circular_attribute_group(alloc, documents, marks, read.attribute_groups)?;
    let group = circular_group(alloc, documents, &read.circles.groups, read.groups)?;
    let behind = earlier_found(group, attributes);
    Ok(earlier_found(circular_type(alloc, documents, &read.forms)?, behind))
}

fn refused_at(alloc: Global, rule: SchemaRule, found: Found) -> SchemaRefusal
    ensures { IsRefusalWith (broken_at rule found []) result }
{
    refused(alloc, rule, found.file, found.name)
}

// A rule is broken that no list of shapes goes with.
fn refused(alloc: Global, rule: SchemaRule, file: u32, name: Text) -> SchemaRefusal
    ensures { IsRefusalWith (breaks rule file name []) result }
{
    SchemaRefusal::Refused {
        rule,
        file,
        name,
        list: Vec::new(alloc),
    }
}

fn schemas_written(
    alloc: Global,
    documents: &[SchemaDocument],
    read: ReadComponents,
) -> Result<Schemas, AllocError>
    requires inside { AreWithinProfile documents.now }
    requires read { IsRead documents.now read }
    requires judged { documents_judged documents.now ≡ declares (schemas_written documents.now) }
    ensures { IfOk result (λ schemas. schemas ≡ schemas_written documents.now) }
{
    let types = types_written(alloc, documents, &read)?;
    let targets = targets(alloc, documents)?;
    varieties_solve();
    none_is_circular();
    no_first_fault();
    one_type_a_name();
    elements_keep();
    uses_are_distinct();
    kinds_are_written();
    Schemas::new(alloc, types, read.elements, targets)
}

fn types_written(
    alloc: Global,
    documents: &[SchemaDocument],
    read: &ReadComponents,
) -> Result<Vec<Declared>, AllocError>
    requires { IsRead documents.now read.now }
    ensures { IfOk result (λ types. types.items ≡ (schemas_written documents.now).types) }
{
    let tables = type_tables(alloc, documents, read)?;
    schema_types(alloc, &read.names, &read.forms, &tables)
}

fn type_tables(
    alloc: Global,
    documents: &[SchemaDocument],
    read: &ReadComponents,
) -> Result<TypeTables, AllocError>
    requires { IsRead documents.now read.now }
    ensures { IfOk result (λ tables. SameMeanings (meanings_view tables) (meanings_seen (type_forms documents.now) (seen_components documents.now))) }
{
    tables_of(alloc, &read.forms, &read.circles.types, &read.seen)
}

fn tables_of(
    alloc: Global,
    forms: &[TypeForm],
    marks: &[bool],
    seen: &SeenComponents,
) -> Result<TypeTables, AllocError>
    requires { IsMarked forms.now marks.now }
    ensures { IfOk result (λ tables. SameMeanings (meanings_view tables) (meanings_seen forms.now seen.now)) }
{
    let varieties = varieties(alloc, forms, marks)?;
    let contents = seen_contents(alloc, seen)?;
    let uses = seen_uses(alloc, seen)?;
    Ok(TypeTables {
        varieties,
        contents,
        uses,
    })
}

fn targets(alloc: Global, documents: &[SchemaDocument]) -> Result<Vec<Text>, AllocError>
    ensures { IfOk result (λ targets. targets.items ≡ map (λ (document : DocumentTree). document.target) documents.now) }
{
    let mut targets = Vec::with_capacity(alloc, documents.len())?;
    let mut left = documents;
    while let Some((document, others)) = left.split_first() {
        targets.push(document.target.clone()?)?;
        left = others;
    }
    Ok(targets)
}
