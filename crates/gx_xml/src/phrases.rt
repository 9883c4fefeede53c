// White space, comments, processing instructions, references and names.

ghost use Rattle.gx_grammar.specs.Ran.{IsDone, left_of};
ghost use Rattle.gx_xml.specs.Characters.{spelled};
ghost use Rattle.gx_xml.specs.Grammar.{character_of, past_element_name, past_comment, past_equals, past_instruction, past_quote, qualified, past_opening_quote, character_reference, spaced};
ghost use Rattle.gx_xml.specs.Nodes.{quote_read};
ghost use Rattle.gx_xml.specs.Standings.{Chose, ChoseName, WentPast};
ghost use Rattle.std.specs.Prelude.{◌≡◌, ◌≤◌, ◌<◌, ◌⊎◌};

use crate::characters::Characters;
use crate::marks::{Choice, Mark};
use crate::reader::{Reader, is_xmlns};
use crate::runs::{Quote, Run};

/// A name with its prefix, which may be empty.
#[derive(Clone, Copy)]
pub struct QName<'a> {
    pub prefix: Characters<'a>,
    pub local: Characters<'a>,
}

/// Goes past white space, and says whether there was any.
pub fn space(reader: &mut Reader<'_>) -> bool
    ensures read { Chose result spaced reader.old reader.new }
    ensures shrinks { left_of reader.new ≤ left_of reader.old }
{
    !reader.maybe_run(Run::Space, 0).is_empty()
}

/// Goes past an equals sign with white space round it.
pub fn equals(reader: &mut Reader<'_>)
    ensures read { WentPast past_equals reader.old reader.new }
    ensures shrinks { left_of reader.new ≤ left_of reader.old }
{
    space(reader);
    reader.symbol(&['=']);
    space(reader);
}

fn quote_of(mark: Mark) -> Quote
    ensures { result ≡ quote_read mark }
{
    match mark {
        Mark::Quote(quote) => quote,
        _ => Quote::Double,
    }
}

/// Goes past an opening quote.
pub fn quote(reader: &mut Reader<'_>) -> Quote
    ensures read { Chose result past_opening_quote reader.old reader.new }
    ensures shrinks { left_of reader.new ≤ left_of reader.old }
    ensures shorter { IsDone reader.new ⊎ (left_of reader.new < left_of reader.old) }
{
    quote_of(reader.choice(Choice::Quote))
}

/// Goes past a closing quote.
pub fn closing(reader: &mut Reader<'_>, quote: Quote)
    ensures read { WentPast (past_quote quote) reader.old reader.new }
    ensures shrinks { left_of reader.new ≤ left_of reader.old }
{
    reader.symbol(&[quote.character()]);
}

/// Goes past a comment whose `<!--` was read (XML 1.0, section 2.5).
pub fn comment(reader: &mut Reader<'_>)
    ensures read { WentPast past_comment reader.old reader.new }
    ensures shrinks { left_of reader.new ≤ left_of reader.old }
{
    reader.run(Run::Comment, 0);
    reader.symbol(&['>']);
}

/// Goes past a processing instruction whose `<?` was read (XML 1.0, section 2.6).
pub fn instruction(reader: &mut Reader<'_>)
    ensures read { WentPast past_instruction reader.old reader.new }
    ensures shrinks { left_of reader.new ≤ left_of reader.old }
{
    reader.target();
    if !space(reader) {
        reader.symbol(&['?', '>']);
        return;
    }
    reader.run(Run::Instruction, 0);
    reader.symbol(&['>']);
}

fn character_of(mark: Mark) -> char
    ensures { result ≡ character_of mark }
{
    match mark {
        Mark::Character(character) => character,
        _ => '\0',
    }
}

/// Reads a reference whose `&` was read (XML 1.0, section 4.1), which may have to stand for an expected character.
pub fn reference(reader: &mut Reader<'_>, expected: Option<char>) -> char
    ensures read { Chose result (character_reference expected) reader.old reader.new }
    ensures shrinks { left_of reader.new ≤ left_of reader.old }
{
    let named = expected.is_none();
    let mark = reader.choice(Choice::Reference { named });
    if let Mark::Numeral(base) = mark {
        let (_, character) = reader.numeral(base, expected);
        reader.symbol(&[';']);
        return character;
    }
    character_of(mark)
}

/// Reads what is behind the first part of a name (Namespaces in XML 1.0, section 4). Behind `xmlns:` no `xmlns` stands.
pub fn qualified<'a>(reader: &mut Reader<'a>, first: Characters<'a>) -> QName<'a>
    ensures read { ChoseName (spelled result.prefix) (spelled result.local) (qualified (spelled first.entry)) reader.old reader.new }
    ensures shrinks { left_of reader.new ≤ left_of reader.old }
{
    if reader.maybe_run(Run::Colon, 0).is_empty() {
        return QName {
            prefix: Characters::none(),
            local: first,
        };
    }
    let prefix = first;
    if is_xmlns(first) {
        let local = reader.declared_prefix();
        return QName { prefix, local };
    }
    let local = reader.run(Run::Name, 0);
    QName { prefix, local }
}

/// Reads the name of an element, whose prefix is not `xmlns`.
pub fn element_name<'a>(reader: &mut Reader<'a>, first: Characters<'a>) -> QName<'a>
    ensures read { ChoseName (spelled result.prefix) (spelled result.local) (past_element_name (spelled first.entry)) reader.old reader.new }
    ensures shrinks { left_of reader.new ≤ left_of reader.old }
{
    if is_xmlns(first) {
        return QName {
            prefix: Characters::none(),
            local: first,
        };
    }
    qualified(reader, first)
}
