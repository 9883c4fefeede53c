// The reader of the parts of sort keys that hold no expressions.

ghost use Rattle.std.specs.Prelude.{ℕ, List, zero};
ghost use Rattle.gx_grammar.specs.Value.{nothing};
ghost use Rattle.gx_grammar.specs.Ran.{Ran};
ghost use Rattle.gx_parse_grammar.specs.Grammar.{place_in};
ghost use Rattle.gx_parse_grammar.specs.Keys.{more_keys};
ghost use Rattle.gx_parse_parts.specs.Lists.{Grown};
ghost use Rattle.gx_parse_tokens.specs.Reading.{read_in};

use gx_ast::expression::Key;
use gx_parse_grammar::word::{Barrier, Word, WordSet};
use gx_parse_parts::parts::lexeme;
use gx_parse_tokens::reader::Reader;

/// Reads a comma behind as many sort keys as may stand, if one stands there.
pub fn last_key(reader: &mut Reader<'_>)
    ensures { (text : List ℕ) (n : ℕ) → Ran nothing reader.old reader.new (read_in text n (more_keys (place_in text) n zero)) }
{
    if reader.looks_at(WordSet::Only(Word::Comma)) {
        lexeme(reader, WordSet::Only(Word::Comma));
        reader.barrier(Barrier::Single);
    }
}

/// The sort keys with one more; the same where memory does not suffice.
pub fn with_key(reader: &mut Reader<'_>, keys: Vec<Key>, key: Key) -> Vec<Key>
    ensures { Grown keys.items key result.items reader.old reader.new }
{
    let mut list = keys;
    if list.push(key).is_err() {
        reader.lose();
        return list;
    }
    list
}
