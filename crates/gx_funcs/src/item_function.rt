// Functions over items.

ghost use Rattle.std.specs.Prelude.{◌≡◌, slice_get, length};
ghost use Rattle.gx_funcs.specs.Function.{item_function_name, item_parameters_of};

use crate::function::{ANY_ITEMS, NODE_AT_MOST, ONE_INTEGER, ONE_NUMBER, Parameter};

/// A built-in function some of whose parameters take items, and whose answer is a list of items (Functions and Operators, sections 3, 14,
/// 15.1, 15.2 and 15.3).
#[derive(Clone, Copy, PartialEq, Eq)]
pub enum ItemFunction {
    /// `fn:name(node()?)`, the name of a node as it is written, with its prefix; empty where it has none.
    Name,
    /// `fn:local-name(node()?)`, its local part.
    LocalName,
    /// `fn:root(node()?)`, the root of its tree.
    Root,
    /// `fn:reverse(item()*)`, the items from the last one on.
    Reverse,
    /// `fn:subsequence(item()*, xs:decimal)`, the items from a position on.
    SubsequenceFrom,
    /// `fn:subsequence(item()*, xs:decimal, xs:decimal)`, so many items from a position on.
    Subsequence,
    /// `fn:remove(item()*, xs:integer)`, the items without that at a position.
    Remove,
    /// `fn:insert-before(item()*, xs:integer, item()*)`, the items with others in front of that at a position.
    InsertBefore,
    /// `fn:zero-or-one(item()*)`, the items, where there is at most one.
    ZeroOrOne,
    /// `fn:one-or-more(item()*)`, the items, where there is one.
    OneOrMore,
    /// `fn:exactly-one(item()*)`, the one item.
    ExactlyOne,
    /// `fn:deep-equal(item()*, item()*)`, whether values are equal item by item, and nodes in names, attributes and texts.
    DeepEqual,
    /// `fn:error()`, which raises an error.
    Error,
}

impl ItemFunction {
    // Its local name.
    pub(crate) fn name(self) -> &'static str
        ensures { result.now ≡ item_function_name self }
    {
        match self {
            ItemFunction::Name => "name",
            ItemFunction::LocalName => "local-name",
            ItemFunction::Root => "root",
            ItemFunction::Reverse => "reverse",
            ItemFunction::SubsequenceFrom | ItemFunction::Subsequence => "subsequence",
            ItemFunction::Remove => "remove",
            ItemFunction::InsertBefore => "insert-before",
            ItemFunction::ZeroOrOne => "zero-or-one",
            ItemFunction::OneOrMore => "one-or-more",
            ItemFunction::ExactlyOne => "exactly-one",
            ItemFunction::DeepEqual => "deep-equal",
            ItemFunction::Error => "error",
        }
    }

    // Its parameter with this number.
    #[tactic(auto, using(crate::proofs::FunctionLemmas::parameter_there, crate::proofs::FunctionLemmas::no_parameter_there))]
    pub(crate) fn parameter(self, index: usize) -> Option<Parameter>
        ensures { result ≡ slice_get (item_parameters_of self) index }
    {
        match self {
            ItemFunction::Name | ItemFunction::LocalName | ItemFunction::Root => [NODE_AT_MOST]
                .get(index)
                .copied(),
            ItemFunction::Reverse
            | ItemFunction::ZeroOrOne
            | ItemFunction::OneOrMore
            | ItemFunction::ExactlyOne => [ANY_ITEMS].get(index).copied(),
            ItemFunction::SubsequenceFrom => [ANY_ITEMS, ONE_NUMBER].get(index).copied(),
            ItemFunction::Subsequence => [ANY_ITEMS, ONE_NUMBER, ONE_NUMBER].get(index).copied(),
            ItemFunction::Remove => [ANY_ITEMS, ONE_INTEGER].get(index).copied(),
            ItemFunction::InsertBefore => [ANY_ITEMS, ONE_INTEGER, ANY_ITEMS].get(index).copied(),
            ItemFunction::DeepEqual => [ANY_ITEMS, ANY_ITEMS].get(index).copied(),
            ItemFunction::Error => None,
        }
    }

    // How many arguments it has.
    pub(crate) fn arity(self) -> usize
        ensures { result ≡ length (item_parameters_of self) }
    {
        match self {
            ItemFunction::Error => 0,
            ItemFunction::Name
            | ItemFunction::LocalName
            | ItemFunction::Root
            | ItemFunction::Reverse
            | ItemFunction::ZeroOrOne
            | ItemFunction::OneOrMore
            | ItemFunction::ExactlyOne => 1,
            ItemFunction::SubsequenceFrom | ItemFunction::Remove | ItemFunction::DeepEqual => 2,
            ItemFunction::Subsequence | ItemFunction::InsertBefore => 3,
        }
    }
}
