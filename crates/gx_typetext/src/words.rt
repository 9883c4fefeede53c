// What the words of item types say.

ghost use Rattle.std.specs.Prelude.{◌≡◌, ◌<◌, ◌^◌, ◌-◌};
ghost use Rattle.std.specs.Str.{chars};
ghost use Rattle.gx_grammar.specs.Value.{characters};
ghost use Rattle.gx_typetext.specs.Grammar.{room_bare, room_inside};
ghost use Rattle.gx_typetext.specs.Nodes.{attribute_of, bare, declared_of, document_of, element_of, is_type_word, name_word, with_inside};
ghost use Rattle.gx_typetext.specs.declared.written.NameWord.TheVariants.{Other};

use crate::written::{Inside, NameWord, Operand, Space, WrittenItem, WrittenName};
use gx_base::text::Text;

/// Whether a local name is a word.
pub(crate) fn is_word(local: &Text, word: &str) -> bool
    ensures { result ≡ is_type_word (chars word.now) (characters local.now) }
{
    local.as_str() == word
}

/// What a name at the front of an item type says.
pub fn name_word(local: &Text) -> NameWord
    ensures { result ≡ name_word (characters local.now) }
{
    if is_word(local, "none") {
        return NameWord::Never;
    }
    if is_word(local, "empty-sequence") {
        return NameWord::Empty;
    }
    if is_word(local, "node") {
        return NameWord::Node;
    }
    if is_word(local, "item") {
        return NameWord::Item;
    }
    if is_word(local, "text") {
        return NameWord::Text;
    }
    if is_word(local, "document-node") {
        return NameWord::Document;
    }
    if is_word(local, "element") {
        return NameWord::Element;
    }
    if is_word(local, "attribute") {
        return NameWord::Attribute;
    }
    if is_word(local, "schema-element") {
        return NameWord::Schema;
    }
    NameWord::Other
}

/// The positions that are left behind a word with parentheses, if they may stand there, where one is begun and so many are
/// left.
pub fn room_inside(word: NameWord, room: u32) -> Option<u32>
    requires { room < 2 ^ 32 - 1 }
    ensures { result ≡ room_inside word room }
{
    match word {
        NameWord::Never => None,
        NameWord::Empty => Some(room + 1),
        NameWord::Node => { if 3 <= room { Some(room - 3) } else { None } }
        NameWord::Item => { if 4 <= room { Some(room - 4) } else { None } }
        NameWord::Other => None,
        NameWord::Text => Some(room),
        NameWord::Document => Some(room),
        NameWord::Element => Some(room),
        NameWord::Attribute => Some(room),
        NameWord::Schema => Some(room),
    }
}

/// The positions that are left behind a word without parentheses, where one is begun and so many are left.
pub fn room_bare(word: NameWord, room: u32) -> u32
    requires { room < 2 ^ 32 - 1 }
    ensures { result ≡ room_bare word room }
{
    match word {
        NameWord::Never => room + 1,
        NameWord::Empty => room,
        NameWord::Node => room,
        NameWord::Item => room,
        NameWord::Text => room,
        NameWord::Document => room,
        NameWord::Element => room,
        NameWord::Attribute => room,
        NameWord::Schema => room,
        NameWord::Other => room,
    }
}

fn document_of(inside: Inside) -> Operand
    ensures { result ≡ document_of inside }
{
    match inside {
        Inside::Element(test) => Operand::Item(WrittenItem::DocumentOf(test)),
        Inside::Declared(name) => Operand::Item(WrittenItem::DocumentOfDeclared(name)),
        Inside::Test(_) => Operand::Item(WrittenItem::Document),
        Inside::Nothing => Operand::Item(WrittenItem::Document),
    }
}

fn element_of(inside: Inside) -> Operand
    ensures { result ≡ element_of inside }
{
    match inside {
        Inside::Test(test) => Operand::Item(WrittenItem::Element(test)),
        Inside::Element(_) => Operand::Item(WrittenItem::AnyItem),
        Inside::Declared(_) => Operand::Item(WrittenItem::AnyItem),
        Inside::Nothing => Operand::Item(WrittenItem::AnyItem),
    }
}

fn attribute_of(inside: Inside) -> Operand
    ensures { result ≡ attribute_of inside }
{
    match inside {
        Inside::Test(test) => Operand::Item(WrittenItem::Attribute(test)),
        Inside::Element(_) => Operand::Item(WrittenItem::AnyItem),
        Inside::Declared(_) => Operand::Item(WrittenItem::AnyItem),
        Inside::Nothing => Operand::Item(WrittenItem::AnyItem),
    }
}

fn declared_of(inside: Inside) -> Operand
    ensures { result ≡ declared_of inside }
{
    match inside {
        Inside::Declared(name) => Operand::Item(WrittenItem::Declared(name)),
        Inside::Test(_) => Operand::Item(WrittenItem::AnyItem),
        Inside::Element(_) => Operand::Item(WrittenItem::AnyItem),
        Inside::Nothing => Operand::Item(WrittenItem::AnyItem),
    }
}

/// The operand of a word with that in its parentheses.
pub fn with_inside(word: NameWord, inside: Inside) -> Operand
    ensures { result ≡ with_inside word inside }
{
    match word {
        NameWord::Never => Operand::Never,
        NameWord::Empty => Operand::Empty,
        NameWord::Node => Operand::Item(WrittenItem::AnyNode),
        NameWord::Item => Operand::Item(WrittenItem::AnyItem),
        NameWord::Text => Operand::Item(WrittenItem::Text),
        NameWord::Document => document_of(inside),
        NameWord::Element => element_of(inside),
        NameWord::Attribute => attribute_of(inside),
        NameWord::Schema => declared_of(inside),
        NameWord::Other => Operand::Item(WrittenItem::AnyItem),
    }
}

fn atomic(local: Text) -> Operand
    ensures { result ≡ bare Other local }
{
    let space = Space::Nowhere;
    Operand::Item(WrittenItem::Atomic(WrittenName { space, local }))
}

/// The operand of a name without parentheses.
pub fn bare(word: NameWord, local: Text) -> Operand
    ensures { result ≡ bare word local }
{
    match word {
        NameWord::Never => Operand::Never,
        NameWord::Empty => atomic(local),
        NameWord::Node => atomic(local),
        NameWord::Item => atomic(local),
        NameWord::Text => atomic(local),
        NameWord::Document => atomic(local),
        NameWord::Element => atomic(local),
        NameWord::Attribute => atomic(local),
        NameWord::Schema => atomic(local),
        NameWord::Other => atomic(local),
    }
}
