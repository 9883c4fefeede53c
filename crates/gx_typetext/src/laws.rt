// Laws of type texts.

ghost use Rattle.std.specs.Prelude.{List, ℕ};
ghost use Rattle.gx_grammar.specs.Text.{IsReadable, IsVerdict};
ghost use Rattle.gx_typetext.specs.Grammar.{type_phrase, type_texts};
ghost use Rattle.gx_typetext.specs.ReadBack.{PrintedTypesReadBack};
ghost use Rattle.gx_typetext.specs.TextLaws.{TextsAreJudged, TypeTextsAreShort};
ghost use Rattle.gx_typetext.specs.TreeLaws.{PiecesHaveOneType, RefusedTextsHaveNoType, TypeTextsAreTrees, TypeTextsHaveOneType};
ghost use Rattle.gx_typetext.specs.Verdicts.{read_pieces};

/// The tokens of type texts keep the laws of tokens, and the guards of their grammar decide.
pub fn type_texts_are_readable()
    ensures { IsReadable type_texts type_phrase }
{}

/// What a text reads as says all of it: the pieces of the type text that it is, exactly where it is one, or else the end of
/// the longest front of it that opens a type text.
pub fn texts_have_verdicts()
    ensures { (text : List ℕ) → IsVerdict type_texts type_phrase text (read_pieces text) }
{}

/// The pieces of each type text are those of a tree.
pub fn type_texts_are_trees()
    ensures { TypeTextsAreTrees }
{}

/// Trees of the same pieces stand for the same type, so that a type text stands for one type.
pub fn pieces_have_one_type()
    ensures { PiecesHaveOneType }
{}

/// A type text stands for one type.
pub fn type_texts_have_one_type()
    ensures { TypeTextsHaveOneType }
{}

/// A text that is refused, but for want of memory, stands for no type.
pub fn refused_texts_have_no_type()
    ensures { RefusedTextsHaveNoType }
{}

/// A text stands for a type, or for none.
pub fn texts_are_judged()
    ensures { TextsAreJudged }
{}

/// The type of a type text keeps the limit on positions.
pub fn type_texts_are_short()
    ensures { TypeTextsAreShort }
{}

/// The text of a type whose names are known, and which keeps the limits of type texts, is that of a type that takes the same
/// lists.
pub fn printed_types_read_back()
    ensures { PrintedTypesReadBack }
{}
