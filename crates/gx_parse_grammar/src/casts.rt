// The operators with a type on their right, by name.

ghost use Rattle.std.specs.Prelude.{◌≡◌};
ghost use Rattle.gx_parse_grammar.specs.Casts.{cast_word, test_second, test_word};

use crate::word::Word;

/// The operators with a sequence type (XQuery 1.0, sections 3.12.1 and 3.12.5).
#[derive(Clone, Copy, PartialEq, Eq)]
pub enum TypeTest {
    InstanceOf,
    TreatAs,
}

/// The operators with the type of a cast (XQuery 1.0, sections 3.12.3 and 3.12.4).
#[derive(Clone, Copy, PartialEq, Eq)]
pub enum CastTest {
    CastableAs,
    CastAs,
}

impl TypeTest {
    /// The first word of the operator.
    pub fn word(self) -> Word
        ensures { result ≡ test_word self }
    {
        match self {
            TypeTest::InstanceOf => Word::Instance,
            TypeTest::TreatAs => Word::Treat,
        }
    }

    /// The second one.
    pub fn second(self) -> Word
        ensures { result ≡ test_second self }
    {
        match self {
            TypeTest::InstanceOf => Word::Of,
            TypeTest::TreatAs => Word::As,
        }
    }
}

impl CastTest {
    /// The first word of the operator.
    pub fn word(self) -> Word
        ensures { result ≡ cast_word self }
    {
        match self {
            CastTest::CastableAs => Word::Castable,
            CastTest::CastAs => Word::Cast,
        }
    }
}
