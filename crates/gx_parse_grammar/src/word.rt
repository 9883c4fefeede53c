// The words and symbols of the query language.

ghost use Rattle.std.specs.Prelude.{◌≡◌};
ghost use Rattle.gx_parse_grammar.specs.Words.{binder_in, binding_word, clause_word_of, ending_of, is_keyword, letters_of, operators_of, words_of, definer_of, setter_of};

use std::slice;

/// A keyword or a symbol (XQuery 1.0, appendix A.1).
#[derive(Clone, Copy, PartialEq, Eq)]
pub enum Word {
    Comma,
    Open,
    Close,
    Dollar,
    Or,
    And,
    Equal,
    NotEqual,
    Less,
    LessOrEqual,
    Greater,
    GreaterOrEqual,
    Precedes,
    Follows,
    ValueEqual,
    ValueNotEqual,
    ValueLess,
    ValueLessOrEqual,
    ValueGreater,
    ValueGreaterOrEqual,
    Is,
    To,
    Plus,
    Minus,
    Times,
    Divide,
    DivideInteger,
    Modulo,
    Union,
    Bar,
    Intersect,
    Except,
    Slash,
    Slashes,
    Dot,
    Dots,
    Then,
    Else,
    CloseBracket,
    CloseBrace,
    Semicolon,
    Return,
    Satisfies,
    Case,
    Default,
    Order,
    Stable,
    For,
    Let,
    Where,
    Ascending,
    Descending,
    Empty,
    Question,
    Element,
    SchemaElement,
    Instance,
    Of,
    Treat,
    Castable,
    Cast,
    As,
    At,
    Greatest,
    Least,
    Quote,
    Apostrophe,
    QuoteEnd,
    ApostropheEnd,
    TwoQuotes,
    TwoApostrophes,
    LessEntity,
    GreaterEntity,
    AmpersandEntity,
    QuoteEntity,
    ApostropheEntity,
    TagOpen,
    TagEnd,
    EmptyTagEnd,
    EndTagOpen,
    CdataOpen,
    BraceOpen,
    TwoOpenBraces,
    TwoCloseBraces,
    Equals,
    OpenBracket,
    AtSign,
    Colons,
    AnyPrefix,
    AnyName,
    In,
    Assign,
    By,
    XQuery,
    Version,
    DoubleVersion,
    SingleVersion,
    Encoding,
    Declare,
    Namespace,
    BoundarySpace,
    Preserve,
    Strip,
    Construction,
    Ordering,
    Ordered,
    CopyNamespaces,
    NoPreserve,
    NoInherit,
    Import,
    Schema,
    Variable,
    External,
    Function,
}

impl Word {
    /// The characters of the word.
    pub fn letters(self) -> &'static [char]
        ensures { result.now ≡ letters_of self }
    {
        match self {
            Word::Comma => &[','],
            Word::Open => &['('],
            Word::Close => &[')'],
            Word::Dollar => &['$'],
            Word::Or => &['o', 'r'],
            Word::And => &['a', 'n', 'd'],
            Word::Equal => &['='],
            Word::NotEqual => &['!', '='],
            Word::Less => &['<'],
            Word::LessOrEqual => &['<', '='],
            Word::Greater => &['>'],
            Word::GreaterOrEqual => &['>', '='],
            Word::Precedes => &['<', '<'],
            Word::Follows => &['>', '>'],
            Word::ValueEqual => &['e', 'q'],
            Word::ValueNotEqual => &['n', 'e'],
            Word::ValueLess => &['l', 't'],
            Word::ValueLessOrEqual => &['l', 'e'],
            Word::ValueGreater => &['g', 't'],
            Word::ValueGreaterOrEqual => &['g', 'e'],
            Word::Is => &['i', 's'],
            Word::To => &['t', 'o'],
            Word::Plus => &['+'],
            Word::Minus => &['-'],
            Word::Times => &['*'],
            Word::Divide => &['d', 'i', 'v'],
            Word::DivideInteger => &['i', 'd', 'i', 'v'],
            Word::Modulo => &['m', 'o', 'd'],
            Word::Union => &['u', 'n', 'i', 'o', 'n'],
            Word::Bar => &['|'],
            Word::Intersect => &['i', 'n', 't', 'e', 'r', 's', 'e', 'c', 't'],
            Word::Except => &['e', 'x', 'c', 'e', 'p', 't'],
            Word::Slash => &['/'],
            Word::Slashes => &['/', '/'],
            Word::Dot => &['.'],
            Word::Dots => &['.', '.'],
            Word::Then => &['t', 'h', 'e', 'n'],
            Word::Else => &['e', 'l', 's', 'e'],
            Word::CloseBracket => &[']'],
            Word::CloseBrace => &['}'],
            Word::Semicolon => &[';'],
            Word::Return => &['r', 'e', 't', 'u', 'r', 'n'],
            Word::Satisfies => &['s', 'a', 't', 'i', 's', 'f', 'i', 'e', 's'],
            Word::Case => &['c', 'a', 's', 'e'],
            Word::Default => &['d', 'e', 'f', 'a', 'u', 'l', 't'],
            Word::Order => &['o', 'r', 'd', 'e', 'r'],
            Word::Stable => &['s', 't', 'a', 'b', 'l', 'e'],
            Word::For => &['f', 'o', 'r'],
            Word::Let => &['l', 'e', 't'],
            Word::Where => &['w', 'h', 'e', 'r', 'e'],
            Word::Ascending => &['a', 's', 'c', 'e', 'n', 'd', 'i', 'n', 'g'],
            Word::Descending => &['d', 'e', 's', 'c', 'e', 'n', 'd', 'i', 'n', 'g'],
            Word::Empty => &['e', 'm', 'p', 't', 'y'],
            Word::Question => &['?'],
            Word::Element => &['e', 'l', 'e', 'm', 'e', 'n', 't'],
            Word::SchemaElement => &[
                's', 'c', 'h', 'e', 'm', 'a', '-', 'e', 'l', 'e', 'm', 'e', 'n', 't',
            ],
            Word::Instance => &['i', 'n', 's', 't', 'a', 'n', 'c', 'e'],
            Word::Of => &['o', 'f'],
            Word::Treat => &['t', 'r', 'e', 'a', 't'],
            Word::Castable => &['c', 'a', 's', 't', 'a', 'b', 'l', 'e'],
            Word::Cast => &['c', 'a', 's', 't'],
            Word::As => &['a', 's'],
            Word::At => &['a', 't'],
            Word::Greatest => &['g', 'r', 'e', 'a', 't', 'e', 's', 't'],
            Word::Least => &['l', 'e', 'a', 's', 't'],
            Word::Quote => &['"'],
            Word::Apostrophe => &['\''],
            Word::QuoteEnd => &['"'],
            Word::ApostropheEnd => &['\''],
            Word::TwoQuotes => &['"', '"'],
            Word::TwoApostrophes => &['\'', '\''],
            Word::LessEntity => &['&', 'l', 't', ';'],
            Word::GreaterEntity => &['&', 'g', 't', ';'],
            Word::AmpersandEntity => &['&', 'a', 'm', 'p', ';'],
            Word::QuoteEntity => &['&', 'q', 'u', 'o', 't', ';'],
            Word::ApostropheEntity => &['&', 'a', 'p', 'o', 's', ';'],
            Word::TagOpen => &['<'],
            Word::TagEnd => &['>'],
            Word::EmptyTagEnd => &['/', '>'],
            Word::EndTagOpen => &['<', '/'],
            Word::CdataOpen => &['<', '!', '[', 'C', 'D', 'A', 'T', 'A', '['],
            Word::BraceOpen => &['{'],
            Word::TwoOpenBraces => &['{', '{'],
            Word::TwoCloseBraces => &['}', '}'],
            Word::Equals => &['='],
            Word::OpenBracket => &['['],
            Word::AtSign => &['@'],
            Word::Colons => &[':', ':'],
            Word::AnyPrefix => &['*', ':'],
            Word::AnyName => &['*'],
            Word::In => &['i', 'n'],
            Word::Assign => &[':', '='],
            Word::By => &['b', 'y'],
            Word::XQuery => &['x', 'q', 'u', 'e', 'r', 'y'],
            Word::Version => &['v', 'e', 'r', 's', 'i', 'o', 'n'],
            Word::DoubleVersion => &['"', '1', '.', '0', '"'],
            Word::SingleVersion => &['\'', '1', '.', '0', '\''],
            Word::Encoding => &['e', 'n', 'c', 'o', 'd', 'i', 'n', 'g'],
            Word::Declare => &['d', 'e', 'c', 'l', 'a', 'r', 'e'],
            Word::Namespace => &['n', 'a', 'm', 'e', 's', 'p', 'a', 'c', 'e'],
            Word::BoundarySpace => &[
                'b', 'o', 'u', 'n', 'd', 'a', 'r', 'y', '-', 's', 'p', 'a', 'c', 'e',
            ],
            Word::Preserve => &['p', 'r', 'e', 's', 'e', 'r', 'v', 'e'],
            Word::Strip => &['s', 't', 'r', 'i', 'p'],
            Word::Construction => &['c', 'o', 'n', 's', 't', 'r', 'u', 'c', 't', 'i', 'o', 'n'],
            Word::Ordering => &['o', 'r', 'd', 'e', 'r', 'i', 'n', 'g'],
            Word::Ordered => &['o', 'r', 'd', 'e', 'r', 'e', 'd'],
            Word::CopyNamespaces => &[
                'c', 'o', 'p', 'y', '-', 'n', 'a', 'm', 'e', 's', 'p', 'a', 'c', 'e', 's',
            ],
            Word::NoPreserve => &['n', 'o', '-', 'p', 'r', 'e', 's', 'e', 'r', 'v', 'e'],
            Word::NoInherit => &['n', 'o', '-', 'i', 'n', 'h', 'e', 'r', 'i', 't'],
            Word::Import => &['i', 'm', 'p', 'o', 'r', 't'],
            Word::Schema => &['s', 'c', 'h', 'e', 'm', 'a'],
            Word::Variable => &['v', 'a', 'r', 'i', 'a', 'b', 'l', 'e'],
            Word::External => &['e', 'x', 't', 'e', 'r', 'n', 'a', 'l'],
            Word::Function => &['f', 'u', 'n', 'c', 't', 'i', 'o', 'n'],
        }
    }

    /// What may not stand right behind the word.
    pub fn ending(self) -> Ending
        ensures { result ≡ ending_of self }
    {
        match self {
            Word::Comma
            | Word::Open
            | Word::Close
            | Word::Dollar
            | Word::Equal
            | Word::NotEqual
            | Word::LessOrEqual
            | Word::GreaterOrEqual
            | Word::Precedes
            | Word::Follows
            | Word::Plus
            | Word::Minus
            | Word::Times
            | Word::Bar
            | Word::Slashes
            | Word::Dots
            | Word::CloseBracket
            | Word::CloseBrace
            | Word::Semicolon
            | Word::Question => Ending::Free,
            Word::Less => Ending::Less,
            Word::Greater => Ending::Greater,
            Word::Slash => Ending::Slash,
            Word::Dot => Ending::Point,
            Word::Quote
            | Word::Apostrophe
            | Word::TwoQuotes
            | Word::TwoApostrophes
            | Word::LessEntity
            | Word::GreaterEntity
            | Word::AmpersandEntity
            | Word::QuoteEntity
            | Word::ApostropheEntity => Ending::Free,
            Word::TagEnd
            | Word::EmptyTagEnd
            | Word::EndTagOpen
            | Word::CdataOpen
            | Word::TwoOpenBraces
            | Word::TwoCloseBraces
            | Word::Equals
            | Word::Assign
            | Word::OpenBracket
            | Word::AtSign
            | Word::Colons
            | Word::AnyPrefix
            | Word::DoubleVersion
            | Word::SingleVersion => Ending::Free,
            Word::AnyName => Ending::Colon,
            Word::TagOpen => Ending::Tag,
            Word::BraceOpen => Ending::Brace,
            Word::QuoteEnd => Ending::Quote,
            Word::ApostropheEnd => Ending::Apostrophe,
            _ => Ending::Name,
        }
    }

    /// Whether the word is a keyword, and not a symbol.
    pub fn is_keyword(self) -> bool
        ensures { result ≡ is_keyword self }
    {
        matches!(self.ending(), Ending::Name)
    }
}

/// The characters that may not stand right behind a word.
#[derive(Clone, Copy, PartialEq, Eq)]
pub enum Ending {
    /// Any character may stand there.
    Free,
    /// The characters of names but `-` and `.`.
    Name,
    /// `=` and `<`.
    Less,
    /// `=` and `>`.
    Greater,
    /// `/`.
    Slash,
    /// A point and the digits.
    Point,
    /// `"`.
    Quote,
    /// `'`.
    Apostrophe,
    /// `/` and `!`.
    Tag,
    /// `{`.
    Brace,
    /// `:`.
    Colon,
}

/// The levels of operators with two operands, from the loosest to the tightest (XQuery 1.0, appendix A.4).
#[derive(Clone, Copy, PartialEq, Eq)]
pub enum Level {
    Or,
    And,
    Comparison,
    Range,
    Sum,
    Product,
    Union,
    Intersect,
}

/// Where a limit stands: what may not begin there.
#[derive(Clone, Copy, PartialEq, Eq)]
pub enum Barrier {
    /// An expression or an operand.
    Single,
    /// A step.
    Step,
    /// A sign.
    Sign,
    /// A predicate.
    Predicate,
}

/// Words of which one may stand at a place.
#[derive(Clone, Copy, PartialEq, Eq)]
pub enum WordSet {
    /// This word.
    Only(Word),
    /// The operators of a level.
    Operators(Level),
    /// `+` and `-`.
    Signs,
    /// `/` and `//`.
    Slashes,
    /// `..` and `.`.
    Dots,
    /// `?`, `*` and `+`.
    Indicators,
    /// `ascending` and `descending`.
    Directions,
    /// `greatest` and `least`.
    Extremes,
    /// `for` and `let`.
    Binders,
    /// The two spellings of a version.
    Versions,
    /// What may stand behind `declare` in the first part of a prolog.
    Setters,
    /// `preserve` and `strip`.
    SpaceModes,
    /// `variable` and `function`.
    Definers,
}

/// The word of a clause that binds variables (XQuery 1.0, section 3.8.1).
#[derive(Clone, Copy, PartialEq, Eq)]
pub enum ClauseWord {
    /// `for`.
    For,
    /// `let`.
    Let,
}

impl ClauseWord {
    /// The word of a clause, as it was found.
    pub fn of(word: Word) -> ClauseWord
        ensures { result ≡ clause_word_of word }
    {
        match word {
            Word::For => ClauseWord::For,
            _ => ClauseWord::Let,
        }
    }

    /// What binds the variables of the clause.
    pub fn binder(self) -> Binder
        ensures { result ≡ binder_in self }
    {
        match self {
            ClauseWord::For => Binder::For,
            ClauseWord::Let => Binder::Let,
        }
    }
}

/// What a name begins where a `$` stands behind it.
#[derive(Clone, Copy, PartialEq, Eq)]
pub enum Opening {
    /// A FLWOR (XQuery 1.0, section 3.8).
    Flwor(ClauseWord),
    /// `some`, or `every` where that is true (XQuery 1.0, section 3.9).
    Quantified(bool),
}

/// What a name begins where a `(` stands behind it.
#[derive(Clone, Copy, PartialEq, Eq)]
pub enum Branching {
    /// `if` (XQuery 1.0, section 3.10).
    If,
    /// `typeswitch` (XQuery 1.0, section 3.12.2).
    Typeswitch,
}

/// What binds a variable.
#[derive(Clone, Copy, PartialEq, Eq)]
pub enum Binder {
    /// `for`.
    For,
    /// `let`.
    Let,
    /// `some` or `every`.
    Quantifier,
}

impl Binder {
    /// The word in front of what a variable is bound to.
    pub fn word(self) -> Word
        ensures { result ≡ binding_word self }
    {
        match self {
            Binder::For | Binder::Quantifier => Word::In,
            Binder::Let => Word::Assign,
        }
    }
}

/// What a declaration in the first part of a prolog is about, by the word behind `declare` (XQuery 1.0, section 4).
#[derive(Clone, Copy, PartialEq, Eq)]
pub enum Setter {
    /// `namespace`.
    Namespace,
    /// `default`.
    Default,
    /// `boundary-space`.
    BoundarySpace,
    /// `construction`.
    Construction,
    /// `ordering`.
    Ordering,
    /// `copy-namespaces`.
    CopyNamespaces,
}

impl Setter {
    /// What a word behind `declare` is about.
    pub fn of(word: Word) -> Setter
        ensures { result ≡ setter_of word }
    {
        match word {
            Word::Namespace => Setter::Namespace,
            Word::Default => Setter::Default,
            Word::BoundarySpace => Setter::BoundarySpace,
            Word::Construction => Setter::Construction,
            Word::Ordering => Setter::Ordering,
            _ => Setter::CopyNamespaces,
        }
    }
}

/// What a declaration in the second part of a prolog defines (XQuery 1.0, section 4).
#[derive(Clone, Copy, PartialEq, Eq)]
pub enum Definer {
    /// `variable`.
    Variable,
    /// `function`.
    Function,
}

impl Definer {
    /// What a word behind `declare` defines.
    pub fn of(word: Word) -> Definer
        ensures { result ≡ definer_of word }
    {
        match word {
            Word::Variable => Definer::Variable,
            _ => Definer::Function,
        }
    }
}

impl Level {
    /// The operators of the level.
    pub fn operators(self) -> &'static [Word]
        ensures { result.now ≡ operators_of self }
    {
        match self {
            Level::Or => &[Word::Or],
            Level::And => &[Word::And],
            Level::Comparison => &COMPARISONS,
            Level::Range => &[Word::To],
            Level::Sum => &[Word::Plus, Word::Minus],
            Level::Product => &[Word::Times, Word::Divide, Word::DivideInteger, Word::Modulo],
            Level::Union => &[Word::Union, Word::Bar],
            Level::Intersect => &[Word::Intersect, Word::Except],
        }
    }
}

impl WordSet {
    /// The words, of which at most one stands at a place.
    pub fn words(&self) -> &[Word]
        ensures { result.now ≡ words_of self.now }
    {
        match self {
            WordSet::Only(word) => slice::from_ref(word),
            WordSet::Operators(level) => level.operators(),
            WordSet::Signs => &[Word::Plus, Word::Minus],
            WordSet::Slashes => &[Word::Slash, Word::Slashes],
            WordSet::Dots => &[Word::Dots, Word::Dot],
            WordSet::Indicators => &[Word::Question, Word::Times, Word::Plus],
            WordSet::Directions => &[Word::Ascending, Word::Descending],
            WordSet::Extremes => &[Word::Greatest, Word::Least],
            WordSet::Binders => &[Word::For, Word::Let],
            WordSet::Versions => &[Word::DoubleVersion, Word::SingleVersion],
            WordSet::Setters => &SETTERS,
            WordSet::SpaceModes => &[Word::Preserve, Word::Strip],
            WordSet::Definers => &[Word::Variable, Word::Function],
        }
    }
}

// The operators of comparisons.
const COMPARISONS: [Word; 15] = [
    Word::Equal,
    Word::NotEqual,
    Word::Less,
    Word::LessOrEqual,
    Word::Greater,
    Word::GreaterOrEqual,
    Word::Precedes,
    Word::Follows,
    Word::ValueEqual,
    Word::ValueNotEqual,
    Word::ValueLess,
    Word::ValueLessOrEqual,
    Word::ValueGreater,
    Word::ValueGreaterOrEqual,
    Word::Is,
];

// The words behind `declare` in the first part of a prolog.
const SETTERS: [Word; 6] = [
    Word::Namespace,
    Word::Default,
    Word::BoundarySpace,
    Word::Construction,
    Word::Ordering,
    Word::CopyNamespaces,
];

/// What a name begins where a `{` stands behind it (XQuery 1.0, section 3.7.3).
#[derive(Clone, Copy, PartialEq, Eq)]
pub enum ComputedNode {
    Document,
    Text,
}

/// What a name begins where a name and a `{` stand behind it (XQuery 1.0, section 3.7.3).
#[derive(Clone, Copy, PartialEq, Eq)]
pub enum NamedNode {
    Element,
    Attribute,
}
