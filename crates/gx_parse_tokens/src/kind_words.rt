// What the names of sequence types say, and the parts of these types.

ghost use Rattle.std.specs.Prelude.{◌≡◌};
ghost use Rattle.gx_parse_tokens.specs.Indications.{found_made};
ghost use Rattle.gx_parse_tokens.specs.Names.{name_made};
ghost use Rattle.gx_parse_grammar.specs.NodeTests.{axis_word};
ghost use Rattle.gx_parse_grammar.specs.Types.{indicator_of, kind_test, kind_word, type_of_word, type_word};

use crate::names::ReadName;
use gx_ast::name::{Axis, QName};
use gx_ast::sequence_type::{Indicator, ItemType, KindTest, SequenceType};
use gx_base::place::Place;
use gx_parse_grammar::kind_words::{KindWord, TestContent, TypeTail, TypeWord};
use gx_parse_grammar::word::Word;

/// The kind test that the name says.
pub fn kind_word(name: &ReadName) -> Option<KindWord>
    ensures { result ≡ kind_word (name_made name.now) }
{
    name.among(&KINDS)
}

/// What the name says at the front of a sequence type.
pub fn type_word(name: &ReadName) -> TypeWord
    ensures { result ≡ type_word (name_made name.now) }
{
    if name.is("empty-sequence") {
        return TypeWord::EmptySequence;
    }
    if name.is("item") {
        return TypeWord::Item;
    }
    match kind_word(name) {
        Some(kind) => TypeWord::Kind(kind),
        None => TypeWord::Atomic,
    }
}

/// The axis that the name says (XQuery 1.0, section 3.2.1.1).
pub fn axis_word(name: &ReadName) -> Option<Axis>
    ensures { result ≡ axis_word (name_made name.now) }
{
    name.among(&AXES)
}

/// The indicator that was found.
pub fn indicator_of(word: Option<Word>) -> Indicator
    ensures { result ≡ indicator_of (found_made word) }
{
    match word {
        Some(Word::Question) => Indicator::Optional,
        Some(Word::Times) => Indicator::Star,
        Some(Word::Plus) => Indicator::Plus,
        _ => Indicator::Once,
    }
}

/// The kind test of a word at its place, with what stands in its parentheses.
pub fn kind_test(kind: KindWord, place: Place, content: TestContent) -> KindTest
    ensures { result ≡ kind_test kind place content }
{
    match kind {
        KindWord::Node => KindTest::Node(place),
        KindWord::Text => KindTest::Text(place),
        KindWord::Document => match content {
            TestContent::Element(at, tested) => KindTest::DocumentOf(place, at, tested),
            TestContent::Declared(at, name) => KindTest::DocumentOfDeclared(place, at, name),
            _ => KindTest::Document(place),
        },
        KindWord::Element => match content {
            TestContent::Tested(tested) => KindTest::Element(place, tested),
            _ => KindTest::Element(place, None),
        },
        KindWord::Attribute => match content {
            TestContent::Tested(tested) => KindTest::Attribute(place, tested),
            _ => KindTest::Attribute(place, None),
        },
        KindWord::SchemaElement => match content {
            TestContent::Name(name) => KindTest::Declared(place, name),
            _ => KindTest::Node(place),
        },
    }
}

/// The sequence type of a name with what stands behind it.
pub fn type_of_word(word: TypeWord, name: QName, tail: TypeTail) -> SequenceType
    ensures { result ≡ type_of_word word name tail }
{
    let TypeTail { content, indicator } = tail;
    let Some(content) = content else {
        return SequenceType::Items(ItemType::Atomic(name), indicator);
    };
    match word {
        TypeWord::EmptySequence => SequenceType::Empty(name.place),
        TypeWord::Item => SequenceType::Items(ItemType::Item(name.place), indicator),
        TypeWord::Kind(kind) => {
            let test = kind_test(kind, name.place, content);
            SequenceType::Items(ItemType::Kind(test), indicator)
        }
        TypeWord::Atomic => SequenceType::Items(ItemType::Atomic(name), indicator),
    }
}

// The names of kind tests.
const KINDS: [(&str, KindWord); 6] = [
    ("node", KindWord::Node),
    ("text", KindWord::Text),
    ("document-node", KindWord::Document),
    ("element", KindWord::Element),
    ("attribute", KindWord::Attribute),
    ("schema-element", KindWord::SchemaElement),
];

// The names of axes.
const AXES: [(&str, Axis); 8] = [
    ("child", Axis::Child),
    ("descendant", Axis::Descendant),
    ("descendant-or-self", Axis::DescendantOrSelf),
    ("self", Axis::Itself),
    ("attribute", Axis::Attribute),
    ("parent", Axis::Parent),
    ("ancestor", Axis::Ancestor),
    ("ancestor-or-self", Axis::AncestorOrSelf),
];
