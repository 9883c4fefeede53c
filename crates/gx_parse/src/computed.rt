// The reader of computed constructors (XQuery 1.0, section 3.7.3).

ghost use Rattle.std.specs.Prelude.{◌≡◌, ◌+◌, ℕ};
ghost use Rattle.gx_grammar.specs.Ran.{Ran, Standing, left_of};
ghost use Rattle.gx_parse_parts.specs.Parsing.{Passes};
ghost use Rattle.gx_parse_tokens.specs.Names.{name_made};
ghost use Rattle.gx_parse_tokens.specs.Reading.{read_in};
ghost use Rattle.gx_parse_tokens.specs.declared.names.ReadName.{ReadName};
ghost use Rattle.gx_parse_grammar.specs.Grammar.{Phrase, computed, constructor_name, named_node, place_in, step_of};
ghost use Rattle.gx_parse_grammar.specs.Nodes.{name_length, tree};
ghost use Rattle.gx_parse_grammar.specs.Types.{Gave, named};

use crate::operators::expression;
use gx_ast::expression::Expr;
use gx_ast::name::QName;
use gx_base::place::Place;
use gx_parse_grammar::word::{ComputedNode, NamedNode, Word, WordSet};
use gx_parse_parts::parts::{keep, lexeme};
use gx_parse_parts::trees;
use gx_parse_tokens::reader::Reader;
use gx_parse_tokens::source::Source;

/// Reads a computed document or text node behind the gap of its word, which stood at the place.
#[cycle(parsing)]
pub fn computed_constructor(
    reader: &mut Reader<'_>,
    source: &Source<'_>,
    levels: u8,
    place: Place,
    word: ComputedNode,
) -> Expr
    ensures { (name : ReadName) (whole : Phrase) (a : Standing) → place ≡ place_in source.now (left_of a + name_length (name_made name)) → Passes reader.old a (read_in source.now levels (computed (place_in source.now) levels word)) (read_in source.now levels whole) → Ran (tree result) a reader.new (read_in source.now levels (step_of (place_in source.now) (name_made name) whole)) }
{
    lexeme(reader, WordSet::Only(Word::BraceOpen));
    let content = expression(reader, source, levels);
    lexeme(reader, WordSet::Only(Word::CloseBrace));
    let made = trees::computed(source.alloc(), place, word, content);
    keep(reader, made)
}

// Reads the name of a node with its `{` and the gap behind that.
fn constructor_name(reader: &mut Reader<'_>, source: &Source<'_>) -> Option<QName>
    ensures { (n : ℕ) → Gave named result reader.old reader.new (read_in source.now n (constructor_name (place_in source.now))) }
{
    let place = source.place(reader.left());
    let Some(name) = reader.constructor(source.alloc()) else {
        return None;
    };
    reader.gap();
    match name.at(source, place) {
        Ok(written) => Some(written),
        Err(_) => {
            reader.lose();
            None
        }
    }
}

/// Reads a computed element or attribute behind the gap of its word, which stood at the place.
#[cycle(parsing)]
pub fn named_constructor(
    reader: &mut Reader<'_>,
    source: &Source<'_>,
    levels: u8,
    place: Place,
    word: NamedNode,
) -> Expr
    ensures { (name : ReadName) (whole : Phrase) (a : Standing) → place ≡ place_in source.now (left_of a + name_length (name_made name)) → Passes reader.old a (read_in source.now levels (named_node (place_in source.now) levels word)) (read_in source.now levels whole) → Ran (tree result) a reader.new (read_in source.now levels (step_of (place_in source.now) (name_made name) whole)) }
{
    let Some(name) = constructor_name(reader, source) else {
        return trees::missing();
    };
    if reader.starts_with('}') {
        lexeme(reader, WordSet::Only(Word::CloseBrace));
        return trees::empty_node(place, word, name);
    }
    let content = expression(reader, source, levels);
    lexeme(reader, WordSet::Only(Word::CloseBrace));
    let made = trees::named_node(source.alloc(), place, word, name, content);
    keep(reader, made)
}
