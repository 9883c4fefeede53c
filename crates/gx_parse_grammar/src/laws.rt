// Laws of the query grammar.

ghost use Rattle.gx_base.specs.declared.place.Place.{Place};
ghost use Rattle.gx_grammar.specs.Avoiding.{Avoids};
ghost use Rattle.gx_grammar.specs.Decision.{BeforeCut, Until};
ghost use Rattle.gx_grammar.specs.Text.{AtEnd, IsVerdict, Nowhere, read_text};
ghost use Rattle.gx_grammar.specs.Tokens.{LawfulToken};
ghost use Rattle.gx_grammar.specs.First.{IsSorted};
ghost use Rattle.gx_parse_grammar.specs.Fronts.{fronts};
ghost use Rattle.gx_parse_grammar.specs.Grammar.{expression, place_in, query_language};
ghost use Rattle.gx_parse_grammar.specs.Levels.{more_than};
ghost use Rattle.gx_parse_grammar.specs.Nodes.{Made};
ghost use Rattle.gx_parse_grammar.specs.Prolog.{query};
ghost use Rattle.gx_parse_grammar.specs.Tokens.{Token, declaration_words, derives, faults, opens, scan, seen};
ghost use Rattle.gx_parse_grammar.specs.Strings.{string_of};
ghost use Rattle.gx_parse_grammar.specs.declared.runs.Quote.{Quote};
ghost use Rattle.std.specs.Prelude.{◌≡◌, ℕ, List, length};
ghost use Rattle.gx_ast.specs.declared.query.Query.{Query};
ghost use Rattle.gx_parse_grammar.specs.Query.{IsQuery, Parses, Parsing};

/// A text has at most one syntax tree.
pub fn one_tree()
    ensures { (text : List ℕ) (s t : Query) → IsQuery text s → IsQuery text t → s ≡ t }
{}

/// Bytes are parsed in one way at most: to one tree, or to one refusal.
pub fn one_parsing()
    ensures { (bytes : List ℕ) (p q : Parsing) → Parses bytes p → Parses bytes q → p ≡ q }
{}

/// Bytes are parsed: to a tree, or to a refusal.
pub fn a_parsing_exists()
    ensures { (bytes : List ℕ) → (p : Parsing) × Parses bytes p }
{}

/// Whatever follows a string literal, its first characters decide how it is read.
pub fn string_literals_decide()
    ensures { (at : ℕ → Place) (q : Quote) (us : List Token) → IsSorted (query_language at) (fronts at) (string_of at q) us }
{}

/// No expression begins as a declaration of a prolog does, nor as a version declaration: the words that begin one decide.
pub fn expressions_are_no_declarations()
    ensures { (at : ℕ → Place) → Avoids (query_language at) declaration_words (Until (query_language at) (expression at 40) AtEnd) (BeforeCut (query_language at) (expression at 40) Nowhere) }
{}

/// What a scan finds of a token is the token, and all of it.
pub fn tokens_are_lawful()
    ensures { (t : Token) → LawfulToken {V = Made} (derives t) (opens t) (scan t) (seen t) (faults t) }
{}

/// Reading a text as the grammar says answers its tree or its refusal.
pub fn readings_decide()
    ensures { (text : List ℕ) → IsVerdict (query_language (place_in text)) (query (place_in text)) text (read_text (query_language (place_in text)) (more_than (length text) 41) (query (place_in text)) text) }
{}
