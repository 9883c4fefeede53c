// The reader of the parts of prologs that hold no expressions (XQuery 1.0, section 4).

ghost use Rattle.std.specs.Prelude.{◌≡◌, ℕ, List, IfSome, MatchOption};
ghost use Rattle.gx_grammar.specs.Value.{characters, node, no_item};
ghost use Rattle.gx_grammar.specs.Ran.{Loses, Ran};
ghost use Rattle.gx_parse_grammar.specs.Grammar.{lexeme, place_in, word_of};
ghost use Rattle.gx_parse_parts.specs.Lists.{OneMore};
ghost use Rattle.gx_parse_grammar.specs.Nodes.{MaybeVersion};
ghost use Rattle.gx_parse_tokens.specs.Reading.{Added};
ghost use Rattle.gx_parse_grammar.specs.Prolog.{boundary_space_setter, construction_setter, copy_setter, default_namespace, default_schema, default_setter, empty_order_setter, encoding, maybe_version, more_locations, more_parameters, named_schema, namespace_setter, empty_order_of, ordering_setter, parameter, parameters, prefix, preserves, schema_import, schema_prefix, setter, setting, settings, text_literal, text_of, version};
ghost use Rattle.gx_parse_prolog.specs.PrologParts.{HasFirst, closed_setting, declared_setting, encoding_made, further_location, further_parameter, gapped, imported_setting, imports_made, location_item, locations, locations_made, parameter_item, parameter_made, parameters_made, prefix_made, says_made, setting_item, setting_made, version_made};
ghost use Rattle.gx_parse_tokens.specs.Reading.{read_in};
ghost use Rattle.gx_parse_parts.specs.Repeated.{listed_before};
ghost use Rattle.gx_parse_grammar.specs.Types.{Gave};

use gx_ast::items::Items;
use gx_ast::query::{Parameter, Prefix, SchemaPrefix, Setting, SettingNode, Version};
use gx_ast::sequence_type::EmptyOrder;
use gx_base::text::Text;
use gx_base::text_builder::TextBuilder;
use gx_parse_constructors::strings::quoted;
use gx_parse_grammar::runs::Quote;
use gx_parse_grammar::word::{Setter, Word, WordSet};
use gx_parse_parts::parts::{lexeme, with_item};
use gx_parse_tokens::reader::Reader;
use gx_parse_tokens::source::Source;
use gx_parse_types::binding::kind_of;
use gx_parse_types::bound::bound;

/// Reads a word with the gap behind it.
pub fn symbol(reader: &mut Reader<'_>, word: Word)
    ensures { (text : List ℕ) (n : ℕ) → Ran (gapped word) reader.old reader.new (read_in text n (lexeme (word_of word))) }
{
    reader.word(WordSet::Only(word));
    reader.gap();
}

// The text that was made; none where memory did not suffice.
fn finished(reader: &mut Reader<'_>, text: TextBuilder) -> Option<Text>
    ensures { MatchOption result (Loses reader.old reader.new) (λ t. (t ≡ text) × (reader.new ≡ reader.old)) }
{
    match text.finish() {
        Ok(text) => Some(text),
        Err(_) => {
            reader.lose();
            None
        }
    }
}

// Reads a text in these quotes, and its gap.
fn text_of(reader: &mut Reader<'_>, source: &Source<'_>, quote: Quote) -> Option<Text>
    ensures { (n : ℕ) → Gave characters result reader.old reader.new (read_in source.now n (text_of quote)) }
{
    let text = quoted(reader, source.alloc(), quote);
    reader.gap();
    finished(reader, text)
}

// Reads a text in quotes, and its gap.
fn text_literal(reader: &mut Reader<'_>, source: &Source<'_>) -> Option<Text>
    ensures { (n : ℕ) → Gave characters result reader.old reader.new (read_in source.now n text_literal) }
{
    if reader.starts_with('"') {
        return text_of(reader, source, Quote::Double);
    }
    text_of(reader, source, Quote::Single)
}

// Reads a prefix and `=`.
fn prefix(reader: &mut Reader<'_>, source: &Source<'_>) -> Option<Prefix>
    ensures { (n : ℕ) → Gave prefix_made result reader.old reader.new (read_in source.now n (prefix (place_in source.now))) }
{
    let place = source.place(reader.left());
    let Some(name) = reader.ncname(source.alloc()) else {
        return None;
    };
    reader.gap();
    symbol(reader, Word::Equals);
    Some(Prefix { place, name })
}

// Reads what stands behind `declare namespace`.
fn namespace_setter(reader: &mut Reader<'_>, source: &Source<'_>) -> Option<SettingNode>
    ensures { (n : ℕ) → Gave says_made result reader.old reader.new (read_in source.now n (namespace_setter (place_in source.now))) }
{
    let Some(prefix) = prefix(reader, source) else {
        return None;
    };
    let Some(uri) = text_literal(reader, source) else {
        return None;
    };
    Some(SettingNode::Namespace(prefix, uri))
}

// Reads what stands behind `declare default`, from `element` on.
fn default_namespace(reader: &mut Reader<'_>, source: &Source<'_>) -> Option<SettingNode>
    ensures { (n : ℕ) → Gave says_made result reader.old reader.new (read_in source.now n default_namespace) }
{
    symbol(reader, Word::Element);
    symbol(reader, Word::Namespace);
    let Some(uri) = text_literal(reader, source) else {
        return None;
    };
    Some(SettingNode::DefaultElementNamespace(uri))
}

// Where the empty sequence stands by a word.
fn order_of(word: Word) -> EmptyOrder
    ensures { result ≡ empty_order_of (gapped word) }
{
    match word {
        Word::Greatest => EmptyOrder::Greatest,
        _ => EmptyOrder::Least,
    }
}

// Reads what stands behind `declare default`, from `order` on.
fn empty_order_setter(reader: &mut Reader<'_>, source: &Source<'_>) -> SettingNode
    ensures { (n : ℕ) → Ran (says_made result) reader.old reader.new (read_in source.now n empty_order_setter) }
{
    symbol(reader, Word::Order);
    symbol(reader, Word::Empty);
    let word = lexeme(reader, WordSet::Extremes);
    SettingNode::EmptyOrder(order_of(word))
}

// Reads what stands behind `declare default`.
fn default_setter(reader: &mut Reader<'_>, source: &Source<'_>) -> Option<SettingNode>
    ensures { (n : ℕ) → Gave says_made result reader.old reader.new (read_in source.now n default_setter) }
{
    if reader.looks_at(WordSet::Only(Word::Element)) {
        return default_namespace(reader, source);
    }
    Some(empty_order_setter(reader, source))
}

// Whether the word is `preserve`.
fn preserves(word: Word) -> bool
    ensures { result ≡ preserves (gapped word) }
{
    matches!(word, Word::Preserve)
}

// Reads what stands behind `declare boundary-space`.
fn boundary_space_setter(reader: &mut Reader<'_>, source: &Source<'_>) -> SettingNode
    ensures { (n : ℕ) → Ran (says_made result) reader.old reader.new (read_in source.now n boundary_space_setter) }
{
    let word = lexeme(reader, WordSet::SpaceModes);
    SettingNode::BoundarySpace(preserves(word))
}

// Reads what stands behind `declare construction`.
fn construction_setter(reader: &mut Reader<'_>, source: &Source<'_>) -> SettingNode
    ensures { (n : ℕ) → Ran (says_made result) reader.old reader.new (read_in source.now n construction_setter) }
{
    symbol(reader, Word::Strip);
    SettingNode::Construction
}

// Reads what stands behind `declare ordering`.
fn ordering_setter(reader: &mut Reader<'_>, source: &Source<'_>) -> SettingNode
    ensures { (n : ℕ) → Ran (says_made result) reader.old reader.new (read_in source.now n ordering_setter) }
{
    symbol(reader, Word::Ordered);
    SettingNode::Ordering
}

// Reads what stands behind `declare copy-namespaces`.
fn copy_setter(reader: &mut Reader<'_>, source: &Source<'_>) -> SettingNode
    ensures { (n : ℕ) → Ran (says_made result) reader.old reader.new (read_in source.now n copy_setter) }
{
    symbol(reader, Word::NoPreserve);
    symbol(reader, Word::Comma);
    symbol(reader, Word::NoInherit);
    SettingNode::CopyNamespaces
}

// Reads what stands behind `declare` and a word for the first part of a prolog.
fn setter(reader: &mut Reader<'_>, source: &Source<'_>, about: Setter) -> Option<SettingNode>
    ensures { (n : ℕ) → Gave says_made result reader.old reader.new (read_in source.now n (setter (place_in source.now) about)) }
{
    match about {
        Setter::Namespace => namespace_setter(reader, source),
        Setter::Default => default_setter(reader, source),
        Setter::BoundarySpace => Some(boundary_space_setter(reader, source)),
        Setter::Construction => Some(construction_setter(reader, source)),
        Setter::Ordering => Some(ordering_setter(reader, source)),
        Setter::CopyNamespaces => Some(copy_setter(reader, source)),
    }
}

// Reads `namespace` and a prefix in an import of a schema.
fn named_schema(reader: &mut Reader<'_>, source: &Source<'_>) -> Option<SchemaPrefix>
    ensures { (n : ℕ) → Gave imports_made result reader.old reader.new (read_in source.now n (named_schema (place_in source.now))) }
{
    symbol(reader, Word::Namespace);
    let Some(prefix) = prefix(reader, source) else {
        return None;
    };
    Some(SchemaPrefix::Named(prefix))
}

// Reads `default element namespace` in an import of a schema.
fn default_schema(reader: &mut Reader<'_>, source: &Source<'_>) -> SchemaPrefix
    ensures { (n : ℕ) → Ran (imports_made result) reader.old reader.new (read_in source.now n default_schema) }
{
    symbol(reader, Word::Default);
    symbol(reader, Word::Element);
    symbol(reader, Word::Namespace);
    SchemaPrefix::Default
}

// Reads what an import of a schema binds its namespace to.
fn schema_prefix(reader: &mut Reader<'_>, source: &Source<'_>) -> Option<SchemaPrefix>
    ensures { (n : ℕ) → Gave imports_made result reader.old reader.new (read_in source.now n (schema_prefix (place_in source.now))) }
{
    if reader.looks_at(WordSet::Only(Word::Namespace)) {
        return named_schema(reader, source);
    }
    if reader.looks_at(WordSet::Only(Word::Default)) {
        return Some(default_schema(reader, source));
    }
    Some(SchemaPrefix::Unnamed)
}

// Reads a comma and a location, and adds it.
fn location(reader: &mut Reader<'_>, source: &Source<'_>, locations: Vec<Text>) -> Vec<Text>
    ensures { (n : ℕ) → OneMore location_item locations.items result.items reader.old reader.new (read_in source.now n further_location) }
{
    symbol(reader, Word::Comma);
    let Some(text) = text_literal(reader, source) else {
        return locations;
    };
    with_item(reader, locations, text)
}

// Reads further locations, each behind a comma.
fn more_locations(reader: &mut Reader<'_>, source: &Source<'_>, locations: Vec<Text>) -> Vec<Text>
    ensures { (n : ℕ) → Added locations.items result.items (λ others. Ran (listed_before location_item others no_item) reader.old reader.new (read_in source.now n more_locations)) }
{
    let mut list = locations;
    let mut left = reader.left();
    while reader.looks_at(WordSet::Only(Word::Comma)) {
        list = location(reader, source, list);
        if left == 0 {
            return list;
        }
        left -= 1;
    }
    list
}

// Reads the locations of a schema, of which there is at least one.
fn locations(reader: &mut Reader<'_>, source: &Source<'_>) -> Option<Vec<Text>>
    ensures read { (n : ℕ) → Gave (λ list. locations_made list.items) result reader.old reader.new (read_in source.now n locations) }
    ensures full { IfSome result (λ list. HasFirst list.items) }
{
    let Some(first) = text_literal(reader, source) else {
        return None;
    };
    let mut list = Vec::new(source.alloc());
    if list.push(first).is_err() {
        reader.lose();
        return None;
    }
    Some(more_locations(reader, source, list))
}

// Reads what stands behind `import schema`.
fn schema_import(reader: &mut Reader<'_>, source: &Source<'_>) -> Option<SettingNode>
    ensures { (n : ℕ) → Gave says_made result reader.old reader.new (read_in source.now n (schema_import (place_in source.now))) }
{
    let Some(prefix) = schema_prefix(reader, source) else {
        return None;
    };
    let Some(uri) = text_literal(reader, source) else {
        return None;
    };
    symbol(reader, Word::At);
    let Some(list) = locations(reader, source) else {
        return None;
    };
    Some(SettingNode::Schema(prefix, uri, Items::from_vec(list)))
}

// Reads a declaration of the first part that begins with `declare`.
fn declared_setting(reader: &mut Reader<'_>, source: &Source<'_>) -> Option<Setting>
    ensures { (n : ℕ) → Gave setting_made result reader.old reader.new (read_in source.now n (declared_setting (place_in source.now))) }
{
    let place = source.place(reader.left());
    let word = reader.leading(Word::Declare, WordSet::Setters);
    reader.gap();
    let Some(node) = setter(reader, source, Setter::of(word)) else {
        return None;
    };
    Some(Setting { place, node })
}

// Reads an import of a schema.
fn imported_setting(reader: &mut Reader<'_>, source: &Source<'_>) -> Option<Setting>
    ensures { (n : ℕ) → Gave setting_made result reader.old reader.new (read_in source.now n (imported_setting (place_in source.now))) }
{
    let place = source.place(reader.left());
    reader.leading(Word::Import, WordSet::Only(Word::Schema));
    reader.gap();
    let Some(node) = schema_import(reader, source) else {
        return None;
    };
    Some(Setting { place, node })
}

// Reads a declaration of the first part of a prolog (XQuery 1.0, section 4).
fn setting(reader: &mut Reader<'_>, source: &Source<'_>) -> Option<Setting>
    ensures { (n : ℕ) → Gave setting_made result reader.old reader.new (read_in source.now n (setting (place_in source.now))) }
{
    if reader.looks_at_leading(Word::Declare, WordSet::Setters) {
        return declared_setting(reader, source);
    }
    imported_setting(reader, source)
}

// Reads a declaration of the first part with its `;`, and adds it.
fn closed_setting(
    reader: &mut Reader<'_>,
    source: &Source<'_>,
    settings: Vec<Setting>,
) -> Vec<Setting>
    ensures { (n : ℕ) → OneMore setting_item settings.items result.items reader.old reader.new (read_in source.now n (closed_setting (place_in source.now))) }
{
    let Some(next) = setting(reader, source) else {
        return settings;
    };
    symbol(reader, Word::Semicolon);
    with_item(reader, settings, next)
}

/// Reads the first part of a prolog.
pub fn settings(reader: &mut Reader<'_>, source: &Source<'_>) -> Vec<Setting>
    ensures { (n : ℕ) → Ran (listed_before setting_item result.items no_item) reader.old reader.new (read_in source.now n (settings (place_in source.now))) }
{
    let mut list = Vec::new(source.alloc());
    let mut left = reader.left();
    while reader.looks_at_setting() {
        list = closed_setting(reader, source, list);
        if left == 0 {
            return list;
        }
        left -= 1;
    }
    list
}

// Reads a parameter of a function.
fn parameter(reader: &mut Reader<'_>, source: &Source<'_>) -> Option<Parameter>
    ensures { (n : ℕ) → Gave parameter_made result reader.old reader.new (read_in source.now n (parameter (place_in source.now))) }
{
    let Some(variable) = bound(reader, source) else {
        return None;
    };
    let kind = kind_of(reader, source);
    Some(Parameter { variable, kind })
}

// Reads a comma and a parameter, and adds it.
fn further_parameter(
    reader: &mut Reader<'_>,
    source: &Source<'_>,
    parameters: Vec<Parameter>,
) -> Vec<Parameter>
    ensures { (n : ℕ) → OneMore parameter_item parameters.items result.items reader.old reader.new (read_in source.now n (further_parameter (place_in source.now))) }
{
    symbol(reader, Word::Comma);
    let Some(next) = parameter(reader, source) else {
        return parameters;
    };
    with_item(reader, parameters, next)
}

// Reads further parameters, each behind a comma.
fn more_parameters(
    reader: &mut Reader<'_>,
    source: &Source<'_>,
    parameters: Vec<Parameter>,
) -> Vec<Parameter>
    ensures { (n : ℕ) → Added parameters.items result.items (λ others. Ran (listed_before parameter_item others no_item) reader.old reader.new (read_in source.now n (more_parameters (place_in source.now)))) }
{
    let mut list = parameters;
    let mut left = reader.left();
    while reader.looks_at(WordSet::Only(Word::Comma)) {
        list = further_parameter(reader, source, list);
        if left == 0 {
            return list;
        }
        left -= 1;
    }
    list
}

/// Reads the parameters of a function behind its `(`.
pub fn parameters(reader: &mut Reader<'_>, source: &Source<'_>) -> Vec<Parameter>
    ensures { (n : ℕ) → Ran (parameters_made result.items) reader.old reader.new (read_in source.now n (parameters (place_in source.now))) }
{
    let none = Vec::new(source.alloc());
    if reader.starts_with(')') {
        symbol(reader, Word::Close);
        return none;
    }
    let Some(first) = parameter(reader, source) else {
        return none;
    };
    let begun = with_item(reader, none, first);
    let list = more_parameters(reader, source, begun);
    symbol(reader, Word::Close);
    list
}

// Reads the encoding in a version declaration, if one stands there.
fn encoding(reader: &mut Reader<'_>, source: &Source<'_>) -> Option<Option<Text>>
    ensures { (n : ℕ) → Gave encoding_made result reader.old reader.new (read_in source.now n encoding) }
{
    if !reader.looks_at(WordSet::Only(Word::Encoding)) {
        return Some(None);
    }
    symbol(reader, Word::Encoding);
    let Some(name) = text_literal(reader, source) else {
        return None;
    };
    Some(Some(name))
}

// Reads a version declaration (XQuery 1.0, section 4.1).
fn version(reader: &mut Reader<'_>, source: &Source<'_>) -> Option<Version>
    ensures { (n : ℕ) → Gave version_made result reader.old reader.new (read_in source.now n (version (place_in source.now))) }
{
    let place = source.place(reader.left());
    reader.leading(Word::XQuery, WordSet::Only(Word::Version));
    reader.gap();
    lexeme(reader, WordSet::Versions);
    let Some(encoding) = encoding(reader, source) else {
        return None;
    };
    symbol(reader, Word::Semicolon);
    Some(Version { place, encoding })
}

/// Reads a version declaration, if one stands there.
pub fn maybe_version(reader: &mut Reader<'_>, source: &Source<'_>) -> Option<Version>
    ensures { (n : ℕ) → Ran (node (MaybeVersion result)) reader.old reader.new (read_in source.now n (maybe_version (place_in source.now))) }
{
    if !reader.looks_at_leading(Word::XQuery, WordSet::Only(Word::Version)) {
        return None;
    }
    version(reader, source)
}
