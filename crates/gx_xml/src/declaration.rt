// The XML declaration.

ghost use Rattle.gx_grammar.specs.Ran.{left_of};
ghost use Rattle.gx_xml.specs.Grammar.{behind_encoding, behind_version, past_declaration, past_encoding, past_standalone};
ghost use Rattle.gx_xml.specs.Standings.{WentPast};
ghost use Rattle.std.specs.Prelude.{◌≡◌, ◌≤◌};

use crate::marks::{Choice, Mark};
use crate::phrases::{closing, equals, quote, space};
use crate::reader::Reader;
use crate::runs::Run;

// Goes past what stands behind `standalone`.
fn standalone(reader: &mut Reader<'_>)
    ensures read { WentPast past_standalone reader.old reader.new }
    ensures shrinks { left_of reader.new ≤ left_of reader.old }
{
    equals(reader);
    let quote = quote(reader);
    reader.choice(Choice::Answer);
    closing(reader, quote);
    space(reader);
    reader.symbol(&['?', '>']);
}

// Goes past what stands behind the encoding, whose first word was read.
fn behind_encoding(reader: &mut Reader<'_>, mark: Mark)
    ensures read { WentPast (behind_encoding mark) reader.old reader.new }
    ensures shrinks { left_of reader.new ≤ left_of reader.old }
{
    match mark {
        Mark::Standalone => standalone(reader),
        _ => {}
    }
}

// Goes past what stands behind `encoding`.
fn encoding(reader: &mut Reader<'_>)
    ensures read { WentPast past_encoding reader.old reader.new }
    ensures shrinks { left_of reader.new ≤ left_of reader.old }
{
    equals(reader);
    let quote = quote(reader);
    reader.choice(Choice::Encoding);
    closing(reader, quote);
    let spaced = space(reader);
    let encoding = false;
    let mark = reader.choice(Choice::Declaration { spaced, encoding });
    behind_encoding(reader, mark);
}

// Goes past what stands behind the version, whose first word was read.
fn behind_version(reader: &mut Reader<'_>, mark: Mark)
    ensures read { WentPast (behind_version mark) reader.old reader.new }
    ensures shrinks { left_of reader.new ≤ left_of reader.old }
{
    match mark {
        Mark::Encoding => encoding(reader),
        Mark::Standalone => standalone(reader),
        _ => {}
    }
}

/// Goes past an XML declaration whose `<?xml` was read with a white space character (XML 1.0, section 2.8). A version of `1.`
/// and digits is read as 1.0, and the encoding is UTF-8.
pub fn declaration(reader: &mut Reader<'_>)
    ensures read { WentPast past_declaration reader.old reader.new }
    ensures shrinks { left_of reader.new ≤ left_of reader.old }
{
    space(reader);
    reader.symbol(&['v', 'e', 'r', 's', 'i', 'o', 'n']);
    equals(reader);
    let quote = quote(reader);
    reader.symbol(&['1', '.']);
    reader.run(Run::Digits, 0);
    closing(reader, quote);
    let spaced = space(reader);
    let encoding = true;
    let mark = reader.choice(Choice::Declaration { spaced, encoding });
    behind_version(reader, mark);
}
