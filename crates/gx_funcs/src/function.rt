// The table of built-in functions.

ghost use Rattle.std.specs.Prelude.{◌≡◌, [], ℕ, List, encode_utf8_all, Some, None, MatchOption, slice_get, length};
ghost use Rattle.gx_funcs.specs.Function.{applied, arity_of, conversion_of, concat_named, first_named, all_functions, function_name, function_named, integer_atom, is_of_name, one_answer, parameters_of, answer_type_of, string_atom, truth_atom};
ghost use Rattle.gx_funcs.specs.Function.{text_function_name, text_function_of, text_parameters_of, text_answer_type_of, value_function_of, item_function_of};

use crate::item_function::ItemFunction;
use crate::text_function::TextFunction;
use crate::value_function::ValueFunction;
use gx_base::code::Code;
use gx_base::text::Text;
use gx_base::type_name::{Builtin, TypeName};
use gx_facets::{AtomValue, Atomic};
use gx_num::Number;

/// A built-in function, with a name and a number of arguments (Functions and Operators, sections 2.3, 2.4, 6.4, 7.2 to 7.5, 9.1, 9.3,
/// 15.1, 15.4, 16.1 and 16.2).
#[derive(Clone, Copy, PartialEq, Eq)]
pub enum Function {
    /// `fn:true()`.
    True,
    /// `fn:false()`.
    False,
    /// `fn:boolean(item()*)`, the effective boolean value.
    Boolean,
    /// `fn:not(item()*)`, its contrary.
    Not,
    /// `fn:count(item()*)`, the number of items.
    Count,
    /// `fn:empty(item()*)`, whether there is no item.
    Empty,
    /// `fn:exists(item()*)`, whether there is one.
    Exists,
    /// `fn:data(item()*)`, the typed values, which is an operator of Core.
    Data,
    /// `fn:string(item()?)`, the string value.
    String,
    /// `fn:position()`, the position of the context item, which is a variable of Core.
    Position,
    /// `fn:last()`, the number of the items that the context item is one of, which is a variable of Core.
    Last,
    /// A function over strings.
    OfTexts(TextFunction),
    /// A function over atomic values.
    OfValues(ValueFunction),
    /// A function over items.
    OfItems(ItemFunction),
}

/// What the values of a parameter are.
#[derive(Clone, Copy, PartialEq, Eq)]
pub enum ParameterType {
    /// `item()*`.
    Items,
    /// `item()?`.
    OptionalItem,
    /// The types that have an effective boolean value (XQuery 1.0, section 2.4.3).
    TruthValue,
    /// `xs:string?`: the argument is atomized, and an untyped value is a string (XQuery 1.0, section 3.1.5).
    OptionalText,
    /// `xs:string`, likewise.
    OneText,
    /// `xs:string*`, likewise.
    Texts,
    /// `xs:anyAtomicType?`: the argument is atomized.
    OptionalValue,
    /// `xs:decimal?`: the argument is atomized, and an untyped value is no number.
    OptionalNumber,
    /// `xs:decimal`, likewise.
    OneNumber,
    /// `xs:decimal*`, likewise.
    Numbers,
    /// `xs:integer*`: the argument is atomized, and untyped values are cast.
    Integers,
    /// `xs:anyAtomicType*`: the argument is atomized.
    Values,
    /// `xs:anyAtomicType`, likewise.
    OneValue,
    /// `node()?`.
    OptionalNode,
    /// `xs:integer`: the argument is atomized, and an untyped value is cast.
    OneInteger,
}

/// How an argument is converted before its parameter takes it (XQuery 1.0, section 3.1.5).
#[derive(Clone, Copy, PartialEq, Eq)]
pub enum Conversion {
    /// It stays as it is.
    Nothing,
    /// It is atomized.
    Data,
    /// It is atomized, and untyped values are cast to this type.
    DataAndCast(Builtin),
}

impl ParameterType {
    /// How an argument is converted before a parameter of this type takes it.
    pub fn conversion(self) -> Conversion
        ensures { result ≡ conversion_of self }
    {
        match self {
            ParameterType::Items
            | ParameterType::OptionalItem
            | ParameterType::TruthValue
            | ParameterType::OptionalNode => Conversion::Nothing,
            ParameterType::Integers | ParameterType::OneInteger => Conversion::DataAndCast(
                Builtin::Integer,
            ),
            _ => Conversion::Data,
        }
    }
}

/// A parameter of a function: what its values are, and the code of an argument of another type.
#[derive(Clone, Copy, PartialEq, Eq)]
pub struct Parameter {
    pub takes: ParameterType,
    pub code: Code,
}

// All functions but `concat`, each once.
const FUNCTIONS: [Function; 50] = [
    Function::True,
    Function::False,
    Function::Boolean,
    Function::Not,
    Function::Count,
    Function::Empty,
    Function::Exists,
    Function::Data,
    Function::String,
    Function::Position,
    Function::Last,
    Function::OfTexts(TextFunction::StringLength),
    Function::OfTexts(TextFunction::StringJoin),
    Function::OfTexts(TextFunction::NormalizeSpace),
    Function::OfTexts(TextFunction::Translate),
    Function::OfTexts(TextFunction::Contains),
    Function::OfTexts(TextFunction::StartsWith),
    Function::OfTexts(TextFunction::EndsWith),
    Function::OfTexts(TextFunction::SubstringBefore),
    Function::OfTexts(TextFunction::SubstringAfter),
    Function::OfValues(ValueFunction::Sum),
    Function::OfValues(ValueFunction::Average),
    Function::OfValues(ValueFunction::Min),
    Function::OfValues(ValueFunction::Max),
    Function::OfValues(ValueFunction::Abs),
    Function::OfValues(ValueFunction::Floor),
    Function::OfValues(ValueFunction::Ceiling),
    Function::OfValues(ValueFunction::Round),
    Function::OfValues(ValueFunction::SubstringFrom),
    Function::OfValues(ValueFunction::Substring),
    Function::OfValues(ValueFunction::Compare),
    Function::OfValues(ValueFunction::Normalize),
    Function::OfValues(ValueFunction::NormalizeTo),
    Function::OfValues(ValueFunction::CodepointsToString),
    Function::OfValues(ValueFunction::StringToCodepoints),
    Function::OfValues(ValueFunction::DistinctValues),
    Function::OfValues(ValueFunction::IndexOf),
    Function::OfItems(ItemFunction::Name),
    Function::OfItems(ItemFunction::LocalName),
    Function::OfItems(ItemFunction::Root),
    Function::OfItems(ItemFunction::Reverse),
    Function::OfItems(ItemFunction::SubsequenceFrom),
    Function::OfItems(ItemFunction::Subsequence),
    Function::OfItems(ItemFunction::Remove),
    Function::OfItems(ItemFunction::InsertBefore),
    Function::OfItems(ItemFunction::ZeroOrOne),
    Function::OfItems(ItemFunction::OneOrMore),
    Function::OfItems(ItemFunction::ExactlyOne),
    Function::OfItems(ItemFunction::DeepEqual),
    Function::OfItems(ItemFunction::Error),
];

pub(crate) const ANY_ITEMS: Parameter = Parameter {
    takes: ParameterType::Items,
    code: Code::XPTY0004,
};

const ONE_ITEM_AT_MOST: Parameter = Parameter {
    takes: ParameterType::OptionalItem,
    code: Code::XPTY0004,
};

const TRUTH_VALUED: Parameter = Parameter {
    takes: ParameterType::TruthValue,
    code: Code::FORG0006,
};

pub(crate) const STRING_AT_MOST: Parameter = Parameter {
    takes: ParameterType::OptionalText,
    code: Code::XPTY0004,
};

pub(crate) const ONE_STRING: Parameter = Parameter {
    takes: ParameterType::OneText,
    code: Code::XPTY0004,
};

const ANY_STRINGS: Parameter = Parameter {
    takes: ParameterType::Texts,
    code: Code::XPTY0004,
};

const VALUE_AT_MOST: Parameter = Parameter {
    takes: ParameterType::OptionalValue,
    code: Code::XPTY0004,
};

pub(crate) const NUMBER_AT_MOST: Parameter = Parameter {
    takes: ParameterType::OptionalNumber,
    code: Code::XPTY0004,
};

pub(crate) const ONE_NUMBER: Parameter = Parameter {
    takes: ParameterType::OneNumber,
    code: Code::XPTY0004,
};

pub(crate) const ANY_NUMBERS: Parameter = Parameter {
    takes: ParameterType::Numbers,
    code: Code::XPTY0004,
};

pub(crate) const ANY_INTEGERS: Parameter = Parameter {
    takes: ParameterType::Integers,
    code: Code::XPTY0004,
};

pub(crate) const ANY_VALUES: Parameter = Parameter {
    takes: ParameterType::Values,
    code: Code::XPTY0004,
};

pub(crate) const ONE_VALUE: Parameter = Parameter {
    takes: ParameterType::OneValue,
    code: Code::XPTY0004,
};

pub(crate) const NODE_AT_MOST: Parameter = Parameter {
    takes: ParameterType::OptionalNode,
    code: Code::XPTY0004,
};

pub(crate) const ONE_INTEGER: Parameter = Parameter {
    takes: ParameterType::OneInteger,
    code: Code::XPTY0004,
};

impl TextFunction {
    // Its local name.
    fn name(self) -> &'static str
        ensures { result.now ≡ text_function_name self }
    {
        match self {
            TextFunction::StringLength => "string-length",
            TextFunction::Concat(_) => "concat",
            TextFunction::StringJoin => "string-join",
            TextFunction::NormalizeSpace => "normalize-space",
            TextFunction::Translate => "translate",
            TextFunction::Contains => "contains",
            TextFunction::StartsWith => "starts-with",
            TextFunction::EndsWith => "ends-with",
            TextFunction::SubstringBefore => "substring-before",
            TextFunction::SubstringAfter => "substring-after",
        }
    }

    // Its parameter with this number.
    #[tactic(auto, using(crate::proofs::FunctionLemmas::parameter_there, crate::proofs::FunctionLemmas::no_parameter_there))]
    fn parameter(self, index: usize) -> Option<Parameter>
        ensures { result ≡ slice_get (text_parameters_of self) index }
    {
        match self {
            TextFunction::Concat(count) if index < count => Some(VALUE_AT_MOST),
            TextFunction::Concat(_) => None,
            TextFunction::StringLength | TextFunction::NormalizeSpace => [STRING_AT_MOST]
                .get(index)
                .copied(),
            TextFunction::StringJoin => [ANY_STRINGS, ONE_STRING].get(index).copied(),
            TextFunction::Translate => [STRING_AT_MOST, ONE_STRING, ONE_STRING].get(index).copied(),
            TextFunction::Contains
            | TextFunction::StartsWith
            | TextFunction::EndsWith
            | TextFunction::SubstringBefore
            | TextFunction::SubstringAfter => [STRING_AT_MOST, STRING_AT_MOST].get(index).copied(),
        }
    }

    // How many arguments it has.
    #[tactic(auto, using(crate::proofs::FunctionLemmas::concat_arity))]
    fn arity(self) -> usize
        ensures { result ≡ length (text_parameters_of self) }
    {
        match self {
            TextFunction::Concat(count) => count,
            TextFunction::StringLength | TextFunction::NormalizeSpace => 1,
            TextFunction::Translate => 3,
            TextFunction::StringJoin
            | TextFunction::Contains
            | TextFunction::StartsWith
            | TextFunction::EndsWith
            | TextFunction::SubstringBefore
            | TextFunction::SubstringAfter => 2,
        }
    }

    // The type of what it answers.
    fn result(self) -> Builtin
        ensures { result ≡ text_answer_type_of self }
    {
        match self {
            TextFunction::StringLength => Builtin::Integer,
            TextFunction::Contains | TextFunction::StartsWith | TextFunction::EndsWith =>
                Builtin::Boolean,
            TextFunction::Concat(_)
            | TextFunction::StringJoin
            | TextFunction::NormalizeSpace
            | TextFunction::Translate
            | TextFunction::SubstringBefore
            | TextFunction::SubstringAfter => Builtin::Str,
        }
    }
}

impl Function {
    /// Its local name, in the namespace of functions.
    pub fn name(self) -> &'static str
        ensures { result.now ≡ function_name self }
    {
        match self {
            Function::True => "true",
            Function::False => "false",
            Function::Boolean => "boolean",
            Function::Not => "not",
            Function::Count => "count",
            Function::Empty => "empty",
            Function::Exists => "exists",
            Function::Data => "data",
            Function::String => "string",
            Function::Position => "position",
            Function::Last => "last",
            Function::OfTexts(function) => function.name(),
            Function::OfValues(function) => function.name(),
            Function::OfItems(function) => function.name(),
        }
    }

    /// Its parameter with this number, counted from 0; None from the number of its parameters on.
    pub fn parameter(self, index: usize) -> Option<Parameter>
        ensures { result ≡ slice_get (parameters_of self) index }
    {
        match self {
            Function::True | Function::False | Function::Position | Function::Last => None,
            Function::Boolean | Function::Not => [TRUTH_VALUED].get(index).copied(),
            Function::Count | Function::Empty | Function::Exists | Function::Data => [ANY_ITEMS]
                .get(index)
                .copied(),
            Function::String => [ONE_ITEM_AT_MOST].get(index).copied(),
            Function::OfTexts(function) => function.parameter(index),
            Function::OfValues(function) => function.parameter(index),
            Function::OfItems(function) => function.parameter(index),
        }
    }

    /// How many arguments it has.
    pub fn arity(self) -> usize
        ensures { result ≡ arity_of self }
    {
        match self {
            Function::True | Function::False | Function::Position | Function::Last => 0,
            Function::Boolean
            | Function::Not
            | Function::Count
            | Function::Empty
            | Function::Exists
            | Function::Data
            | Function::String => 1,
            Function::OfTexts(function) => function.arity(),
            Function::OfValues(function) => function.arity(),
            Function::OfItems(function) => function.arity(),
        }
    }

    /// The function over strings that it is, if it is one.
    pub fn text_function(self) -> Option<TextFunction>
        ensures { result ≡ text_function_of self }
    {
        match self {
            Function::OfTexts(function) => Some(function),
            _ => None,
        }
    }

    /// The function over atomic values that it is, if it is one.
    pub fn value_function(self) -> Option<ValueFunction>
        ensures { result ≡ value_function_of self }
    {
        match self {
            Function::OfValues(function) => Some(function),
            _ => None,
        }
    }

    /// The function over items that it is, if it is one.
    pub fn item_function(self) -> Option<ItemFunction>
        ensures { result ≡ item_function_of self }
    {
        match self {
            Function::OfItems(function) => Some(function),
            _ => None,
        }
    }

    /// The type of the one atomic value that it answers; none of `data` and of functions over atomic values, whose answers are of types that
    /// their arguments give.
    pub fn result(self) -> Option<Builtin>
        ensures { result ≡ answer_type_of self }
    {
        match self {
            Function::True
            | Function::False
            | Function::Boolean
            | Function::Not
            | Function::Empty
            | Function::Exists => Some(Builtin::Boolean),
            Function::Count | Function::Position | Function::Last => Some(Builtin::Integer),
            Function::String => Some(Builtin::Str),
            Function::OfTexts(function) => Some(function.result()),
            Function::Data | Function::OfValues(_) | Function::OfItems(_) => None,
        }
    }
}

// Whether a function has this name and so many parameters.
fn is_of_name(local: &str, arity: usize, function: Function) -> bool
    ensures { (characters : List ℕ) → local.now ≡ encode_utf8_all characters → result ≡ is_of_name characters arity function }
{
    local == function.name() && function.arity() == arity
}

// The function of this local name with so many parameters, among those that are not `concat`.
fn find_fixed(local: &str, arity: usize) -> Option<Function>
    ensures { (characters : List ℕ) → local.now ≡ encode_utf8_all characters → result ≡ first_named all_functions characters arity }
{
    let mut left: &[Function] = &FUNCTIONS;
    while let Some((function, others)) = left.split_first() {
        if is_of_name(local, arity, *function) {
            return Some(*function);
        }
        left = others;
    }
    None
}

// `concat` of so many arguments, if it is meant.
fn find_concat(local: &str, arity: usize) -> Option<Function>
    ensures { (characters : List ℕ) → local.now ≡ encode_utf8_all characters → result ≡ concat_named characters arity }
{
    if local == "concat" && arity >= 2 {
        Some(Function::OfTexts(TextFunction::Concat(arity)))
    } else {
        None
    }
}

/// The function of this local name in the namespace of functions that has so many parameters.
#[tactic(auto, unfolding(crate::specs::Function::function_named))]
pub fn find_local(local: &Text, arity: usize) -> Option<Function>
    ensures { result ≡ function_named local.now arity }
{
    let local = local.as_str();
    match find_fixed(local, arity) {
        Some(function) => Some(function),
        None => find_concat(local, arity),
    }
}

/// A boolean as an atomic value.
pub fn truth_atom(truth: bool) -> Atomic
    ensures { result ≡ truth_atom truth }
{
    Atomic {
        value: AtomValue::Truth(truth),
        kind: TypeName::Builtin(Builtin::Boolean),
    }
}

/// An integer as an atomic value.
pub fn integer_atom(integer: i128) -> Atomic
    ensures { result ≡ integer_atom integer }
{
    Atomic {
        value: AtomValue::Num(Number::int(integer)),
        kind: TypeName::Builtin(Builtin::Integer),
    }
}

/// A string as an atomic value.
pub fn string_atom(text: Text) -> Atomic
    ensures { result ≡ string_atom text }
{
    Atomic {
        value: AtomValue::Str(text),
        kind: TypeName::Builtin(Builtin::Str),
    }
}

/// What a function answers of no argument; None exactly where it has parameters.
pub fn apply_to_none(function: Function) -> Option<Atomic>
    ensures { MatchOption result (applied function [] ≡ None) (λ a. applied function [] ≡ Some (one_answer a)) }
{
    match function {
        Function::True => Some(truth_atom(true)),
        Function::False => Some(truth_atom(false)),
        _ => None,
    }
}
