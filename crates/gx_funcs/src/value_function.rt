// Functions over atomic values.

ghost use Rattle.std.specs.Prelude.{◌≡◌, slice_get, length};
ghost use Rattle.gx_funcs.specs.Function.{value_function_name, value_parameters_of};

use crate::function::{
    ANY_INTEGERS, ANY_NUMBERS, ANY_VALUES, NUMBER_AT_MOST, ONE_NUMBER, ONE_STRING, ONE_VALUE,
    Parameter, STRING_AT_MOST,
};

/// A built-in function all of whose parameters take atomic values, and whose answer is a list of them (Functions and Operators,
/// sections 6.4, 7.2, 7.3.2, 7.4.3, 7.4.6, 15.1.3, 15.1.6 and 15.4).
#[derive(Clone, Copy, PartialEq, Eq)]
pub enum ValueFunction {
    /// `fn:sum(xs:decimal*)`, the numbers added from zero on.
    Sum,
    /// `fn:avg(xs:decimal*)`, their sum divided by their number.
    Average,
    /// `fn:min(xs:decimal*)`, the first of the least numbers.
    Min,
    /// `fn:max(xs:decimal*)`, the first of the greatest numbers.
    Max,
    /// `fn:abs(xs:decimal?)`, the magnitude.
    Abs,
    /// `fn:floor(xs:decimal?)`, the greatest whole number that is not above it.
    Floor,
    /// `fn:ceiling(xs:decimal?)`, the least whole number that is not below it.
    Ceiling,
    /// `fn:round(xs:decimal?)`, the nearest whole number; halves go up.
    Round,
    /// `fn:substring(xs:string?, xs:decimal)`, the characters from a position on.
    SubstringFrom,
    /// `fn:substring(xs:string?, xs:decimal, xs:decimal)`, so many characters from a position on.
    Substring,
    /// `fn:compare(xs:string?, xs:string?)`, -1, 0 or 1 by the order of two strings.
    Compare,
    /// `fn:normalize-unicode(xs:string?)`, the normalization form C.
    Normalize,
    /// `fn:normalize-unicode(xs:string?, xs:string)`, the normalization form of this name.
    NormalizeTo,
    /// `fn:codepoints-to-string(xs:integer*)`, the string of these code points.
    CodepointsToString,
    /// `fn:string-to-codepoints(xs:string?)`, the code points of its characters.
    StringToCodepoints,
    /// `fn:distinct-values(xs:anyAtomicType*)`, the values, each once.
    DistinctValues,
    /// `fn:index-of(xs:anyAtomicType*, xs:anyAtomicType)`, the positions at which a value stands.
    IndexOf,
}

impl ValueFunction {
    // Its local name.
    pub(crate) fn name(self) -> &'static str
        ensures { result.now ≡ value_function_name self }
    {
        match self {
            ValueFunction::Sum => "sum",
            ValueFunction::Average => "avg",
            ValueFunction::Min => "min",
            ValueFunction::Max => "max",
            ValueFunction::Abs => "abs",
            ValueFunction::Floor => "floor",
            ValueFunction::Ceiling => "ceiling",
            ValueFunction::Round => "round",
            ValueFunction::SubstringFrom | ValueFunction::Substring => "substring",
            ValueFunction::Compare => "compare",
            ValueFunction::Normalize | ValueFunction::NormalizeTo => "normalize-unicode",
            ValueFunction::CodepointsToString => "codepoints-to-string",
            ValueFunction::StringToCodepoints => "string-to-codepoints",
            ValueFunction::DistinctValues => "distinct-values",
            ValueFunction::IndexOf => "index-of",
        }
    }

    // Its parameter with this number.
    #[tactic(auto, using(crate::proofs::FunctionLemmas::parameter_there, crate::proofs::FunctionLemmas::no_parameter_there))]
    pub(crate) fn parameter(self, index: usize) -> Option<Parameter>
        ensures { result ≡ slice_get (value_parameters_of self) index }
    {
        match self {
            ValueFunction::Sum | ValueFunction::Average | ValueFunction::Min | ValueFunction::Max =>
                [ANY_NUMBERS].get(index).copied(),
            ValueFunction::Abs
            | ValueFunction::Floor
            | ValueFunction::Ceiling
            | ValueFunction::Round => [NUMBER_AT_MOST].get(index).copied(),
            ValueFunction::SubstringFrom => [STRING_AT_MOST, ONE_NUMBER].get(index).copied(),
            ValueFunction::Substring => [STRING_AT_MOST, ONE_NUMBER, ONE_NUMBER]
                .get(index)
                .copied(),
            ValueFunction::Compare => [STRING_AT_MOST, STRING_AT_MOST].get(index).copied(),
            ValueFunction::Normalize | ValueFunction::StringToCodepoints => [STRING_AT_MOST]
                .get(index)
                .copied(),
            ValueFunction::NormalizeTo => [STRING_AT_MOST, ONE_STRING].get(index).copied(),
            ValueFunction::CodepointsToString => [ANY_INTEGERS].get(index).copied(),
            ValueFunction::DistinctValues => [ANY_VALUES].get(index).copied(),
            ValueFunction::IndexOf => [ANY_VALUES, ONE_VALUE].get(index).copied(),
        }
    }

    // How many arguments it has.
    pub(crate) fn arity(self) -> usize
        ensures { result ≡ length (value_parameters_of self) }
    {
        match self {
            ValueFunction::Sum
            | ValueFunction::Average
            | ValueFunction::Min
            | ValueFunction::Max
            | ValueFunction::Abs
            | ValueFunction::Floor
            | ValueFunction::Ceiling
            | ValueFunction::Round
            | ValueFunction::Normalize
            | ValueFunction::CodepointsToString
            | ValueFunction::StringToCodepoints
            | ValueFunction::DistinctValues => 1,
            ValueFunction::SubstringFrom
            | ValueFunction::Compare
            | ValueFunction::NormalizeTo
            | ValueFunction::IndexOf => 2,
            ValueFunction::Substring => 3,
        }
    }
}
