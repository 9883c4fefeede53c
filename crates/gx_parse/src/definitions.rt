// The reader of queries, with the second part of their prologs.

ghost use Rattle.gx_grammar.specs.Value.{node, no_item};
ghost use Rattle.gx_grammar.specs.Ran.{Ran};
ghost use Rattle.gx_parse_grammar.specs.Grammar.{place_in};
ghost use Rattle.gx_parse_parts.specs.Lists.{OneMore};
ghost use Rattle.gx_parse_grammar.specs.Nodes.{Whole};
ghost use Rattle.gx_parse_grammar.specs.Prolog.{definer, definition, definitions, function_definer, initialiser, query, variable_definer};
ghost use Rattle.gx_parse_prolog.specs.PrologParts.{closed_definition, definition_item, definition_made, gives_made, starts_made};
ghost use Rattle.gx_parse_tokens.specs.Reading.{read_in};
ghost use Rattle.gx_parse_parts.specs.Repeated.{listed_before};
ghost use Rattle.gx_parse_grammar.specs.Types.{Gave};

use crate::operators::expression;
use crate::singles::single;
use gx_ast::items::Items;
use gx_ast::query::{Definition, DefinitionNode, Initialiser, Query};
use gx_base::limits::NESTING;
use gx_parse_grammar::word::{Definer, Word, WordSet};
use gx_parse_parts::parts::with_item;
use gx_parse_prolog::prolog::{maybe_version, parameters, settings, symbol};
use gx_parse_tokens::reader::Reader;
use gx_parse_tokens::source::Source;
use gx_parse_types::binding::kind_of;
use gx_parse_types::bound::bound;
use gx_parse_types::types::written_name;

// Reads the value of a declared variable (XQuery 1.0, section 4.14).
fn initialiser(reader: &mut Reader<'_>, source: &Source<'_>) -> Initialiser
    ensures { Ran (starts_made result) reader.old reader.new (read_in source.now 40 initialiser) }
{
    if !reader.looks_at(WordSet::Only(Word::Assign)) {
        symbol(reader, Word::External);
        return Initialiser::External;
    }
    symbol(reader, Word::Assign);
    Initialiser::Value(single(reader, source, NESTING))
}

// Reads what stands behind `declare variable`.
fn variable_definer(reader: &mut Reader<'_>, source: &Source<'_>) -> Option<DefinitionNode>
    ensures { Gave gives_made result reader.old reader.new (read_in source.now 40 (variable_definer (place_in source.now))) }
{
    let Some(variable) = bound(reader, source) else {
        return None;
    };
    let kind = kind_of(reader, source);
    let value = initialiser(reader, source);
    Some(DefinitionNode::Variable(variable, kind, value))
}

// Reads what stands behind `declare function` (XQuery 1.0, section 4.15).
fn function_definer(reader: &mut Reader<'_>, source: &Source<'_>) -> Option<DefinitionNode>
    ensures { Gave gives_made result reader.old reader.new (read_in source.now 40 (function_definer (place_in source.now))) }
{
    let Some(name) = written_name(reader, source) else {
        return None;
    };
    symbol(reader, Word::Open);
    let list = parameters(reader, source);
    let kind = kind_of(reader, source);
    symbol(reader, Word::BraceOpen);
    let body = expression(reader, source, NESTING);
    symbol(reader, Word::CloseBrace);
    let parameters = Items::from_vec(list);
    Some(DefinitionNode::Function(name, parameters, kind, body))
}

// Reads what stands behind `declare` and a word for the second part of a prolog.
fn definer(reader: &mut Reader<'_>, source: &Source<'_>, kind: Definer) -> Option<DefinitionNode>
    ensures { Gave gives_made result reader.old reader.new (read_in source.now 40 (definer (place_in source.now) kind)) }
{
    match kind {
        Definer::Variable => variable_definer(reader, source),
        Definer::Function => function_definer(reader, source),
    }
}

// Reads a declaration of the second part of a prolog (XQuery 1.0, section 4).
fn definition(reader: &mut Reader<'_>, source: &Source<'_>) -> Option<Definition>
    ensures { Gave definition_made result reader.old reader.new (read_in source.now 40 (definition (place_in source.now))) }
{
    let place = source.place(reader.left());
    let word = reader.leading(Word::Declare, WordSet::Definers);
    reader.gap();
    let Some(node) = definer(reader, source, Definer::of(word)) else {
        return None;
    };
    Some(Definition { place, node })
}

// Reads a declaration of the second part with its `;`, and adds it.
fn closed_definition(
    reader: &mut Reader<'_>,
    source: &Source<'_>,
    definitions: Vec<Definition>,
) -> Vec<Definition>
    ensures { OneMore definition_item definitions.items result.items reader.old reader.new (read_in source.now 40 (closed_definition (place_in source.now))) }
{
    let Some(next) = definition(reader, source) else {
        return definitions;
    };
    symbol(reader, Word::Semicolon);
    with_item(reader, definitions, next)
}

// Reads the second part of a prolog.
fn definitions(reader: &mut Reader<'_>, source: &Source<'_>) -> Vec<Definition>
    ensures { Ran (listed_before definition_item result.items no_item) reader.old reader.new (read_in source.now 40 (definitions (place_in source.now))) }
{
    let mut list = Vec::new(source.alloc());
    let mut left = reader.left();
    while reader.looks_at_leading(Word::Declare, WordSet::Definers) {
        list = closed_definition(reader, source, list);
        if left == 0 {
            return list;
        }
        left -= 1;
    }
    list
}

/// Reads a whole query (XQuery 1.0, section 4).
pub fn query(reader: &mut Reader<'_>, source: &Source<'_>) -> Query
    ensures { Ran (node (Whole result)) reader.old reader.new (read_in source.now 40 (query (place_in source.now))) }
{
    reader.gap();
    let version = maybe_version(reader, source);
    let settings = settings(reader, source);
    let definitions = definitions(reader, source);
    let body = expression(reader, source, NESTING);
    Query {
        version,
        settings: Items::from_vec(settings),
        definitions: Items::from_vec(definitions),
        body,
    }
}
