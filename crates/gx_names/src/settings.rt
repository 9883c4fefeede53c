// The first part of a prolog.

ghost use Rattle.std.specs.Prelude.{◌≡◌, [], IfOk, OnOk};
ghost use Rattle.gx_base.specs.declared.code.Code.TheVariants.{XQST0070};
ghost use Rattle.gx_names_scope.specs.Refusing.{refused_if};
ghost use Rattle.gx_names_scope.specs.Refused.{Judges};
ghost use Rattle.gx_names.specs.Resolution.{default_settings, setting_with, settings_with};
ghost use Rattle.gx_names.specs.SettingRefusals.{declared_prefix_refusals, declared_with, has_other_target, import_prefix_refusals, import_refusals, imported_with, namespaces_after, namespaces_with, prolog_environment, setting_refusals, settings_refusals, targets_behind};
ghost use Rattle.gx_names_scope.specs.Prefixes.{is_reserved_prefix, is_reserved_uri};

use gx_ast::query::{SchemaPrefix, Setting, SettingNode};
use gx_ast::sequence_type::EmptyOrder;
use gx_base::code::Code;
use gx_base::place::Place;
use gx_base::text::Text;
use gx_names_scope::names::Names;
use gx_names_scope::prefixes::{DeclaredPrefixes, is_reserved_prefix, is_reserved_uri};
use gx_names_scope::refusal::{NameRefusal, refused};
use gx_resolved::nested_map::NestedMap;
use gx_resolved::tree::Settings;
use gx_types::schemas::Schemas;
use std::alloc::{AllocError, Global};

// The namespaces that are imported, with the places of their imports.
type ImportedNamespaces = NestedMap<Text, Place>;

// What stands before a declaration: the prefixes that are declared, and the namespaces that are imported.
#[derive(Drop)]
struct Before {
    declared: DeclaredPrefixes,
    imported: ImportedNamespaces,
}

/// What names stand for behind the first part of the prolog.
pub(crate) fn prolog_names<'s>(
    alloc: Global,
    schemas: &'s Schemas,
    settings: &[Setting],
) -> Result<Names<'s>, NameRefusal>
    ensures refusals { Judges result (settings_refusals [] [] schemas.now.targets settings.now) }
    ensures names { IfOk result (λ n. n ≡ prolog_environment schemas.now settings.now) }
{
    let mut names = Names::new(alloc, schemas)?;
    match declare_settings(alloc, &mut names, schemas.targets(), settings) {
        Ok(()) => Ok(names),
        Err(refusal) => Err(refusal),
    }
}

fn declare_settings(
    alloc: Global,
    names: &mut Names<'_>,
    targets: &[Text],
    settings: &[Setting],
) -> Result<(), NameRefusal>
    ensures refusals { Judges result (settings_refusals [] [] targets.now settings.now) }
    ensures names { OnOk result (names.new ≡ record names.old { namespaces = namespaces_after settings.now names.old.namespaces }) }
{
    let mut before = Before {
        declared: NestedMap::new(alloc),
        imported: NestedMap::new(alloc),
    };
    add_settings(alloc, names, &mut before, targets, settings)
}

#[tactic(auto, using(gx_names_scope::proofs::RefusalLemmas::refused_before))]
fn add_settings(
    alloc: Global,
    names: &mut Names<'_>,
    before: &mut Before,
    targets: &[Text],
    settings: &[Setting],
) -> Result<(), NameRefusal>
    ensures refusals { Judges result (settings_refusals before.old.declared before.old.imported targets.now settings.now) }
    ensures names { OnOk result (names.new ≡ record names.old { namespaces = namespaces_after settings.now names.old.namespaces }) }
{
    let mut files = targets;
    let mut left = settings;
    while let Some((setting, others)) = left.split_first() {
        add_setting(alloc, names, before, files, setting)?;
        files = targets_behind(&setting.node, files);
        left = others;
    }
    Ok(())
}

// A declaration: what is refused of it, and else what it declares.
fn add_setting(
    alloc: Global,
    names: &mut Names<'_>,
    before: &mut Before,
    targets: &[Text],
    setting: &Setting,
) -> Result<(), NameRefusal>
    ensures refusals { Judges result (setting_refusals before.old.declared before.old.imported targets.now setting.now.place setting.now.node) }
    ensures names { OnOk result (names.new ≡ record names.old { namespaces = namespaces_with setting.now.node names.old.namespaces }) }
    ensures declared { OnOk result (before.new.declared ≡ declared_with setting.now.place setting.now.node before.old.declared) }
    ensures imported { OnOk result (before.new.imported ≡ imported_with setting.now.place setting.now.node before.old.imported) }
{
    check_setting(before, targets, setting.place, &setting.node)?;
    declare_prefix(&mut before.declared, setting.place, &setting.node)?;
    note_import(&mut before.imported, setting.place, &setting.node)?;
    Ok(bind_prefix(alloc, names, &setting.node)?)
}

#[tactic(auto, using(gx_names_scope::proofs::RefusalLemmas::refused_before))]
fn check_setting(
    before: &Before,
    targets: &[Text],
    place: Place,
    setting: &SettingNode,
) -> Result<(), NameRefusal>
    ensures { Judges result (setting_refusals before.now.declared before.now.imported targets.now place setting.now) }
{
    let declared = &before.declared;
    match setting {
        SettingNode::Namespace(prefix, uri) => check_prefix(declared, place, &prefix.name, uri),
        SettingNode::DefaultElementNamespace(uri) => check_default(place, uri),
        SettingNode::Schema(prefix, uri, locations) => {
            check_import_prefix(declared, place, prefix, uri)?;
            check_import(&before.imported, targets, place, uri, locations.as_slice())
        }
        SettingNode::BoundarySpace(_)
        | SettingNode::Construction
        | SettingNode::Ordering
        | SettingNode::EmptyOrder(_)
        | SettingNode::CopyNamespaces => Ok(()),
    }
}

// An import of a namespace that no import before has, of files with that target.
#[tactic(auto, using(gx_names_scope::proofs::RefusalLemmas::refused_before))]
fn check_import(
    imported: &ImportedNamespaces,
    targets: &[Text],
    place: Place,
    uri: &Text,
    locations: &[Text],
) -> Result<(), NameRefusal>
    ensures { Judges result (import_refusals imported.now targets.now place uri.now locations.now) }
{
    if imported.find(uri).is_some() {
        return Err(refused(place, Code::XQST0058));
    }
    if has_other_target(uri, locations, targets) {
        return Err(refused(place, Code::XQST0059));
    }
    Ok(())
}

// Whether a file that an import names has another target namespace.
fn has_other_target(uri: &Text, locations: &[Text], targets: &[Text]) -> bool
    ensures { result ≡ has_other_target uri.now locations.now targets.now }
{
    let mut named = locations;
    let mut files = targets;
    while let Some((_, others)) = named.split_first() {
        let Some((target, behind)) = files.split_first() else {
            return false;
        };
        if *target != *uri {
            return true;
        }
        named = others;
        files = behind;
    }
    false
}

// The targets of the files that are named behind a declaration.
fn targets_behind<'s>(setting: &SettingNode, targets: &'s [Text]) -> &'s [Text]
    ensures { result.now ≡ targets_behind setting.now targets.now }
{
    match setting {
        SettingNode::Schema(_, _, locations) => {
            targets.get(locations.as_slice().len()..).unwrap_or(&[])
        }
        _ => targets,
    }
}

fn check_prefix(
    declared: &DeclaredPrefixes,
    place: Place,
    prefix: &Text,
    uri: &Text,
) -> Result<(), NameRefusal>
    ensures { Judges result (declared_prefix_refusals declared.now place prefix.now uri.now) }
{
    if is_reserved_prefix(prefix) || is_reserved_uri(uri) {
        return Err(refused(place, Code::XQST0070));
    }
    match declared.find(prefix) {
        Some(_) => Err(refused(place, Code::XQST0033)),
        None => Ok(()),
    }
}

fn check_default(place: Place, uri: &Text) -> Result<(), NameRefusal>
    ensures { Judges result (refused_if (is_reserved_uri uri.now) place XQST0070) }
{
    if is_reserved_uri(uri) {
        return Err(refused(place, Code::XQST0070));
    }
    Ok(())
}

#[tactic(auto, using(gx_names_scope::proofs::RefusalLemmas::refused_before))]
fn check_import_prefix(
    declared: &DeclaredPrefixes,
    place: Place,
    prefix: &SchemaPrefix,
    uri: &Text,
) -> Result<(), NameRefusal>
    ensures { Judges result (import_prefix_refusals declared.now place prefix.now uri.now) }
{
    match prefix {
        SchemaPrefix::Unnamed => Ok(()),
        SchemaPrefix::Named(prefix) => {
            check_prefix(declared, place, &prefix.name, uri)?;
            if uri.as_str() == "" {
                return Err(refused(place, Code::XQST0057));
            }
            Ok(())
        }
        SchemaPrefix::Default => check_default(place, uri),
    }
}

fn declare_prefix(
    declared: &mut DeclaredPrefixes,
    place: Place,
    setting: &SettingNode,
) -> Result<(), AllocError>
    ensures { OnOk result (declared.new ≡ declared_with place setting.now declared.old) }
{
    match setting {
        SettingNode::Namespace(prefix, _)
        | SettingNode::Schema(SchemaPrefix::Named(prefix), _, _) => {
            declared.bind(prefix.name.clone()?, place)
        }
        _ => Ok(()),
    }
}

fn note_import(
    imported: &mut ImportedNamespaces,
    place: Place,
    setting: &SettingNode,
) -> Result<(), AllocError>
    ensures { OnOk result (imported.new ≡ imported_with place setting.now imported.old) }
{
    match setting {
        SettingNode::Schema(_, uri, _) => imported.bind(uri.clone()?, place),
        _ => Ok(()),
    }
}

fn bind_prefix(
    alloc: Global,
    names: &mut Names<'_>,
    setting: &SettingNode,
) -> Result<(), AllocError>
    ensures { OnOk result (names.new ≡ record names.old { namespaces = namespaces_with setting.now names.old.namespaces }) }
{
    match setting {
        SettingNode::Namespace(prefix, uri)
        | SettingNode::Schema(SchemaPrefix::Named(prefix), uri, _) => {
            let prefix = prefix.name.clone()?;
            names.bind(prefix, uri.clone()?)
        }
        SettingNode::DefaultElementNamespace(uri)
        | SettingNode::Schema(SchemaPrefix::Default, uri, _) => {
            let unprefixed = Text::empty(alloc)?;
            names.bind(unprefixed, uri.clone()?)
        }
        _ => Ok(()),
    }
}

/// What the setters say, each the last time that it stands.
pub(crate) fn settings_with(settings: &[Setting]) -> Settings
    ensures { result ≡ settings_with settings.now default_settings }
{
    let mut chosen = Settings {
        preserves_boundary_space: false,
        empty_order: EmptyOrder::Default,
    };
    let mut left = settings;
    while let Some((setting, others)) = left.split_first() {
        chosen = setting_with(&setting.node, chosen);
        left = others;
    }
    chosen
}

fn setting_with(setting: &SettingNode, chosen: Settings) -> Settings
    ensures { result ≡ setting_with setting.now chosen }
{
    match setting {
        SettingNode::BoundarySpace(preserved) => Settings {
            preserves_boundary_space: *preserved,
            ..chosen
        },
        SettingNode::EmptyOrder(order) => Settings {
            empty_order: *order,
            ..chosen
        },
        _ => chosen,
    }
}
