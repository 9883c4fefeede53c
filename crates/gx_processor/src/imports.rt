// The schemas that a query imports.

ghost use Rattle.std.specs.Prelude.{◌≡◌, ◌<◌, ◌≤◌, ◌++◌, codes, length, map, slice_get, string_bytes, Some, IfOk, OnOk};
ghost use Rattle.std.specs.Str.{encode_utf8_all};
ghost use Rattle.gx_typetext.specs.NameText.{word};
ghost use Rattle.gx_typetext.specs.ShapeText.{shapes_text};
ghost use Rattle.gx_io.specs.LibraryUse.{library_use};
ghost use Rattle.gx_types.specs.SchemaInvariant.{IsSchemaSet};
ghost use Rattle.gx_documents.specs.BindingView.{word_bytes};
ghost use Rattle.gx_processor.specs.FaultLines.{shown_with};
ghost use Rattle.gx_processor.specs.ImportReplies.{DeclaredSo, DeclaresIn, ImportsSo, unread_schema};
ghost use Rattle.gx_processor.specs.SchemaFiles.{files_named, schema_files};

use crate::refusal::Refusal;
use gx_ast::query::{Query, Setting, SettingNode};
use gx_base::text::Text;
use gx_base::text_builder::TextBuilder;
use gx_documents::documents::{DocumentsError, read_sources};
use gx_io::Library;
use gx_schema::import::import;
use gx_schema::laws::{a_rule_is_broken_in_a_file, imports_are_schema_sets};
use gx_schema::refusal::{SchemaRefusal, SchemaRule};
use gx_types::schemas::Schemas;
use gx_types::shape::Shape;
use gx_typetext::shapes::print_shapes;
use gx_xml::source::Source;
use std::alloc::{AllocError, Global};

/// What the schema files that a query names declare (XQuery 1.0, section 4.11). Each file is loaded once, in order, and none after one
/// that holds no document.
pub fn imported_schemas<L: Library>(
    alloc: Global,
    tree: &Query,
    library: &mut L,
) -> Result<Schemas, Refusal>
    ensures imports { ImportsSo (library_use L.files L.faults L.was_loaded library.old library.new) tree.now result }
    ensures set { IfOk result IsSchemaSet }
    ensures told { L.files library.new ≡ L.files library.old }
    ensures counted { L.faults library.old ≤ L.faults library.new }
{
    match schema_files(alloc, tree) {
        Ok(files) => declared_in(alloc, files.as_slice(), library),
        Err(AllocError) => Err(Refusal::Memory),
    }
}

// What schema files of these names declare.
fn declared_in<L: Library>(
    alloc: Global,
    files: &[String],
    library: &mut L,
) -> Result<Schemas, Refusal>
    ensures imports { DeclaredSo (library_use L.files L.faults L.was_loaded library.old library.new) (word_bytes files.now) result }
    ensures set { IfOk result IsSchemaSet }
    ensures told { L.files library.new ≡ L.files library.old }
    ensures counted { L.faults library.old ≤ L.faults library.new }
{
    match read_sources(alloc, files, library) {
        Ok(sources) => declared(alloc, files, sources.as_slice()),
        Err(error) => Err(unread_schema(error)),
    }
}

// What the documents of schema files of these names declare.
fn declared(alloc: Global, files: &[String], sources: &[Source]) -> Result<Schemas, Refusal>
    requires { length sources.now ≡ length files.now }
    ensures declared { DeclaresIn (word_bytes files.now) sources.now result }
    ensures set { IfOk result IsSchemaSet }
{
    imports_are_schema_sets();
    a_rule_is_broken_in_a_file();
    match import(alloc, sources) {
        Ok(schemas) => Ok(schemas),
        Err(
            SchemaRefusal::Refused {
                rule,
                file,
                name,
                list,
            },
        ) => {
            let file = file_name_at(alloc, files, file)?;
            let shown = shown_with(alloc, rule, name, list.as_slice())?;
            Err(Refusal::Schema { rule, file, shown })
        }
        Err(SchemaRefusal::Memory) => Err(Refusal::Memory),
    }
}

// What breaks a rule: its name, and the list of a restriction that is not sound.
fn shown_with(
    alloc: Global,
    rule: SchemaRule,
    name: Text,
    list: &[Shape],
) -> Result<Text, AllocError>
    ensures { IfOk result (λ shown. shown ≡ shown_with rule name list.now) }
{
    match rule {
        SchemaRule::NotARestriction => with_list(alloc, &name, list),
        SchemaRule::NotInProfile
        | SchemaRule::UnknownName
        | SchemaRule::Inconsistent
        | SchemaRule::Circular
        | SchemaRule::TooLarge
        | SchemaRule::TooManyPairs => Ok(name),
    }
}

// A name, and a list of shapes behind it.
fn with_list(alloc: Global, name: &Text, list: &[Shape]) -> Result<Text, AllocError>
    ensures { IfOk result (λ shown. shown ≡ name.now ++ word (codes ": ") ++ shapes_text list.now) }
{
    let list = print_shapes(alloc, list)?;
    let mut shown = TextBuilder::new(alloc);
    shown.push_text(name)?;
    shown.push_str(": ")?;
    shown.push_text(&list)?;
    shown.finish()
}

// The name of the file of a number, which is that of one of the files.
fn file_name_at(alloc: Global, files: &[String], number: u32) -> Result<String, AllocError>
    requires { number < length files.now }
    ensures { IfOk result (λ name. slice_get (word_bytes files.now) number ≡ Some (string_bytes name)) }
{
    String::from_str(alloc, files[number as usize].as_str())
}

// The refusal of a schema file that holds no document.
fn unread_schema(error: DocumentsError) -> Refusal
    ensures { result ≡ unread_schema error }
{
    match error {
        DocumentsError::Failed(file, fault) => Refusal::SchemaFile(file, fault),
        DocumentsError::Memory => Refusal::Memory,
    }
}

// The names of the schema files that imports name.
fn schema_files(alloc: Global, tree: &Query) -> Result<Vec<String>, AllocError>
    ensures { IfOk result (λ files. word_bytes files.items ≡ schema_files tree.now) }
{
    let mut files = Vec::new(alloc);
    let mut left = tree.settings.as_slice();
    while let Some((setting, others)) = left.split_first() {
        add_files(alloc, &mut files, setting)?;
        left = others;
    }
    Ok(files)
}

fn add_files(alloc: Global, files: &mut Vec<String>, setting: &Setting) -> Result<(), AllocError>
    ensures { OnOk result (word_bytes files.new.items ≡ word_bytes files.old.items ++ files_named setting.now.node) }
{
    match &setting.node {
        SettingNode::Schema(_, _, locations) => add_locations(alloc, files, locations.as_slice()),
        _ => Ok(()),
    }
}

fn add_locations(
    alloc: Global,
    files: &mut Vec<String>,
    locations: &[Text],
) -> Result<(), AllocError>
    ensures { OnOk result (word_bytes files.new.items ≡ word_bytes files.old.items ++ map encode_utf8_all locations.now) }
{
    let mut left = locations;
    while let Some((location, others)) = left.split_first() {
        files.push(String::from_str(alloc, location.as_str())?)?;
        left = others;
    }
    Ok(())
}
