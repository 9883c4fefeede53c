// Calls of functions over items (Functions and Operators, sections 3, 14, 15.1, 15.2 and 15.3).

ghost use Rattle.std.specs.Prelude.{◌≡◌, ◌∷◌, ◌++◌, [], IfOk, IfErr, List, reverse};
ghost use Rattle.gx_funcs.specs.Function.{conversion_of, item_parameters_of};
ghost use Rattle.gx_model.specs.Forest.{Forest as PlainForest};
ghost use Rattle.gx_model.specs.Growth.{Extends};
ghost use Rattle.gx_model.specs.Item.{Items};
ghost use Rattle.gx_types.specs.SchemaSet.{SchemaSet};
ghost use Rattle.gx_build.specs.Parts.{parts_in};
ghost use Rattle.gx_core.specs.Arguments.{argument_by, arguments_by};
ghost use Rattle.gx_core.specs.ItemCalling.{item_answer, item_called, number_of_items, integer_of_items, at_most_one_item, at_least_one_item, only_item};
ghost use Rattle.gx_core.specs.Outcome.{Outcome, gives, after, given};
ghost use Rattle.gx_funcs.specs.Positions.{so_many_from};
ghost use Rattle.gx_store.specs.Items.{items_in};
ghost use Rattle.gx_machine.specs.Answering.{answer_items, AnswerFits};
ghost use Rattle.gx_machine.specs.Failing.{FailsSo};
ghost use Rattle.gx_machine.specs.ItemAnswers.{argument_items, items_of_arguments};
ghost use Rattle.gx_funcs.specs.declared.item_function.ItemFunction.TheVariants as functions;

use crate::answer::Answer;
use crate::converting::converted_items;
use crate::deep_equal::are_deep_equal;
use crate::failure::Failure;
use crate::node_calling::{local_name, root, written_name};
use crate::nodes::atomized;
use crate::operand::{append_all, only_atom};
use crate::range::integer_of;
use gx_base::code::Code;
use gx_base::type_name::TypeName;
use gx_funcs::function::{Conversion, Function, truth_atom};
use gx_funcs::item_function::ItemFunction;
use gx_funcs::numbers::number_of;
use gx_funcs::positions::{from_position, so_many_from, split_at_position, without_position};
use gx_num::Number;
use gx_store::item::Item;
use gx_store::store::Store;
use gx_types::schemas::Schemas;
use std::alloc::{AllocError, Global};

// An argument as its parameter asks for it: as it is, or converted.
#[derive(Drop)]
enum Argument<'a> {
    AsItIs(&'a [Item]),
    Converted(Vec<Item>),
}

impl Argument<'_> {
    fn as_slice(&self) -> &[Item]
        ensures { (later : PlainForest) → items_in later result.now ≡ argument_items later self.now }
    {
        match self {
            Argument::AsItIs(items) => items,
            Argument::Converted(items) => items.as_slice(),
        }
    }
}

// ---- calls

// How a function fails of no argument: `error` alone has none, and raises an error.
pub(crate) fn failure_of_none(function: ItemFunction) -> Failure
    ensures { (forest : PlainForest) → FailsSo result (item_answer function [] forest) }
{
    match function {
        ItemFunction::Error => Failure::Raised(Code::FOER0000),
        _ => Failure::Wrong,
    }
}

// What a function answers of one argument, which no parameter of a function of one converts.
pub(crate) fn called_with_item(
    alloc: Global,
    store: &Store,
    function: ItemFunction,
    argument: &[Item],
) -> Result<Answer, Failure>
    ensures value { (schemas : SchemaSet) (later : PlainForest) → Extends store.now later → IfOk result (λ r. item_called schemas function (items_in later argument.now ∷ []) store.now ≡ gives (answer_items later r) store.now) }
    ensures fits { IfOk result (λ r. AnswerFits r) }
    ensures failed { (schemas : SchemaSet) (later : PlainForest) → Extends store.now later → IfErr result (λ e. FailsSo e (item_called schemas function (items_in later argument.now ∷ []) store.now)) }
{
    of_one(alloc, store, function, argument)
}

// What a function answers of several arguments.
pub(crate) fn called_with_items(
    alloc: Global,
    schemas: &Schemas,
    store: &Store,
    function: ItemFunction,
    operands: &[Vec<Item>],
) -> Result<Answer, Failure>
    ensures value { (later : PlainForest) → Extends store.now later → IfOk result (λ r. item_called schemas.now function (parts_in later operands.now) store.now ≡ gives (answer_items later r) store.now) }
    ensures fits { IfOk result (λ r. AnswerFits r) }
    ensures failed { (later : PlainForest) → Extends store.now later → IfErr result (λ e. FailsSo e (item_called schemas.now function (parts_in later operands.now) store.now)) }
{
    let arguments = all_arguments(alloc, schemas, store, function, operands)?;
    answer_of(alloc, store, function, arguments.as_slice())
}

// ---- arguments

// Arguments from the left, each as its parameter asks for it.
fn all_arguments<'a>(
    alloc: Global,
    schemas: &Schemas,
    store: &Store,
    function: ItemFunction,
    operands: &'a [Vec<Item>],
) -> Result<Vec<Argument<'a>>, Failure>
    ensures value { (later : PlainForest) → Extends store.now later → IfOk result (λ found.
        arguments_by schemas.now (item_parameters_of function) (parts_in later operands.now) store.now ≡ gives (items_of_arguments later found.items) store.now) }
    ensures failed { (later : PlainForest) (next : List Items → PlainForest → Outcome Items) → Extends store.now later → IfErr result (λ e.
        FailsSo e (after (arguments_by schemas.now (item_parameters_of function) (parts_in later operands.now) store.now) next)) }
{
    let mut found = Vec::with_capacity(alloc, operands.len())?;
    let mut left = operands;
    let mut number = 0;
    while let Some((operand, others)) = left.split_first() {
        let Some(parameter) = Function::OfItems(function).parameter(number) else {
            return Err(Failure::Wrong);
        };
        let conversion = parameter.takes.conversion();
        found.push(argument_by(alloc, schemas, store, conversion, operand.as_slice())?)?;
        left = others;
        number += 1;
    }
    if number == Function::OfItems(function).arity() {
        Ok(found)
    } else {
        Err(Failure::Wrong)
    }
}

// An argument as a parameter asks for it.
fn argument_by<'a>(
    alloc: Global,
    schemas: &Schemas,
    store: &Store,
    conversion: Conversion,
    items: &'a [Item],
) -> Result<Argument<'a>, Failure>
    ensures value { (later : PlainForest) → Extends store.now later → IfOk result (λ found. argument_by conversion schemas.now (items_in later items.now) store.now ≡ gives (argument_items later found) store.now) }
    ensures failed { (later : PlainForest) (next : Items → PlainForest → Outcome Items) → Extends store.now later → IfErr result (λ e.
        FailsSo e (after (argument_by conversion schemas.now (items_in later items.now) store.now) next)) }
{
    match conversion {
        Conversion::Nothing => Ok(Argument::AsItIs(items)),
        Conversion::Data => Ok(Argument::Converted(atomized(alloc, schemas, store, items)?)),
        Conversion::DataAndCast(kind) => {
            let kind = TypeName::Builtin(kind);
            Ok(Argument::Converted(converted_items(alloc, schemas, store, &kind, items)?))
        }
    }
}

// ---- answers

// What a function answers of its arguments.
fn answer_of(
    alloc: Global,
    store: &Store,
    function: ItemFunction,
    arguments: &[Argument],
) -> Result<Answer, Failure>
    ensures value { (later : PlainForest) → Extends store.now later → IfOk result (λ r. item_answer function (items_of_arguments later arguments.now) store.now ≡ gives (answer_items later r) store.now) }
    ensures fits { IfOk result (λ r. AnswerFits r) }
    ensures failed { (later : PlainForest) → Extends store.now later → IfErr result (λ e. FailsSo e (item_answer function (items_of_arguments later arguments.now) store.now)) }
{
    match arguments {
        [] => Err(failure_of_none(function)),
        [items] => of_one(alloc, store, function, items.as_slice()),
        [first, second] => of_two(alloc, store, function, first.as_slice(), second.as_slice()),
        [first, second, third] => of_three(
            alloc,
            function,
            first.as_slice(),
            second.as_slice(),
            third.as_slice(),
        ),
        _ => Err(Failure::Wrong),
    }
}

// What a function answers of one argument.
fn of_one(
    alloc: Global,
    store: &Store,
    function: ItemFunction,
    items: &[Item],
) -> Result<Answer, Failure>
    ensures value { (later : PlainForest) → Extends store.now later → IfOk result (λ r. item_answer function (items_in later items.now ∷ []) store.now ≡ gives (answer_items later r) store.now) }
    ensures fits { IfOk result (λ r. AnswerFits r) }
    ensures failed { (later : PlainForest) → Extends store.now later → IfErr result (λ e. FailsSo e (item_answer function (items_in later items.now ∷ []) store.now)) }
{
    match function {
        ItemFunction::Name => written_name(alloc, store, items),
        ItemFunction::LocalName => local_name(alloc, store, items),
        ItemFunction::Root => root(alloc, store, items),
        ItemFunction::Reverse => reversed(alloc, items),
        ItemFunction::ZeroOrOne => zero_or_one(alloc, items),
        ItemFunction::OneOrMore => one_or_more(alloc, items),
        ItemFunction::ExactlyOne => exactly_one(alloc, items),
        _ => Err(Failure::Wrong),
    }
}

// What a function answers of two arguments.
fn of_two(
    alloc: Global,
    store: &Store,
    function: ItemFunction,
    first: &[Item],
    second: &[Item],
) -> Result<Answer, Failure>
    ensures value { (later : PlainForest) → Extends store.now later → IfOk result (λ r. item_answer function (items_in later first.now ∷ items_in later second.now ∷ []) store.now ≡ gives (answer_items later r) store.now) }
    ensures fits { IfOk result (λ r. AnswerFits r) }
    ensures failed { (later : PlainForest) → Extends store.now later → IfErr result (λ e. FailsSo e (item_answer function (items_in later first.now ∷ items_in later second.now ∷ []) store.now)) }
{
    match function {
        ItemFunction::SubsequenceFrom => subsequence_from(alloc, first, second),
        ItemFunction::Remove => remove(alloc, first, second),
        ItemFunction::DeepEqual => Ok(Answer::One(truth_atom(are_deep_equal(
            store, first, second,
        )))),
        _ => Err(Failure::Wrong),
    }
}

// What a function answers of three arguments.
fn of_three(
    alloc: Global,
    function: ItemFunction,
    first: &[Item],
    second: &[Item],
    third: &[Item],
) -> Result<Answer, Failure>
    ensures value { (forest later : PlainForest) → IfOk result (λ r. item_answer function (items_in later first.now ∷ items_in later second.now ∷ items_in later third.now ∷ []) forest ≡ gives (answer_items later r) forest) }
    ensures fits { IfOk result (λ r. AnswerFits r) }
    ensures failed { (forest later : PlainForest) → IfErr result (λ e. FailsSo e (item_answer function (items_in later first.now ∷ items_in later second.now ∷ items_in later third.now ∷ []) forest)) }
{
    match function {
        ItemFunction::Subsequence => subsequence(alloc, first, second, third),
        ItemFunction::InsertBefore => insert_before(alloc, first, second, third),
        _ => Err(Failure::Wrong),
    }
}

// ---- how many items there are

fn zero_or_one(alloc: Global, items: &[Item]) -> Result<Answer, Failure>
    ensures value { (forest later : PlainForest) → IfOk result (λ r. at_most_one_item (items_in later items.now) forest ≡ gives (answer_items later r) forest) }
    ensures fits { IfOk result (λ r. AnswerFits r) }
    ensures failed { (forest later : PlainForest) → IfErr result (λ e. FailsSo e (at_most_one_item (items_in later items.now) forest)) }
{
    match items {
        [] | [_] => Ok(copied(alloc, items)?),
        _ => Err(Failure::Raised(Code::FORG0003)),
    }
}

fn one_or_more(alloc: Global, items: &[Item]) -> Result<Answer, Failure>
    ensures value { (forest later : PlainForest) → IfOk result (λ r. at_least_one_item (items_in later items.now) forest ≡ gives (answer_items later r) forest) }
    ensures fits { IfOk result (λ r. AnswerFits r) }
    ensures failed { (forest later : PlainForest) → IfErr result (λ e. FailsSo e (at_least_one_item (items_in later items.now) forest)) }
{
    match items {
        [] => Err(Failure::Raised(Code::FORG0004)),
        _ => Ok(copied(alloc, items)?),
    }
}

fn exactly_one(alloc: Global, items: &[Item]) -> Result<Answer, Failure>
    ensures value { (forest later : PlainForest) → IfOk result (λ r. only_item (items_in later items.now) forest ≡ gives (answer_items later r) forest) }
    ensures fits { IfOk result (λ r. AnswerFits r) }
    ensures failed { (forest later : PlainForest) → IfErr result (λ e. FailsSo e (only_item (items_in later items.now) forest)) }
{
    match items {
        [_] => Ok(copied(alloc, items)?),
        _ => Err(Failure::Raised(Code::FORG0005)),
    }
}

// ---- items at positions

fn reversed(alloc: Global, items: &[Item]) -> Result<Answer, Failure>
    ensures value { (forest later : PlainForest) → IfOk result (λ r. gives (reverse (items_in later items.now)) forest ≡ gives (answer_items later r) forest) }
    ensures fits { IfOk result (λ r. AnswerFits r) }
    ensures failed { (outcome : Outcome Items) → IfErr result (λ e. FailsSo e outcome) }
{
    let mut answer = Vec::with_capacity(alloc, items.len())?;
    append_all(items, &mut answer)?;
    answer.reverse();
    Ok(Answer::Items(answer))
}

fn subsequence_from(alloc: Global, items: &[Item], start: &[Item]) -> Result<Answer, Failure>
    ensures value { (forest later : PlainForest) → IfOk result (λ r. item_answer functions.SubsequenceFrom (items_in later items.now ∷ items_in later start.now ∷ []) forest ≡ gives (answer_items later r) forest) }
    ensures fits { IfOk result (λ r. AnswerFits r) }
    ensures failed { (forest later : PlainForest) → IfErr result (λ e. FailsSo e (item_answer functions.SubsequenceFrom (items_in later items.now ∷ items_in later start.now ∷ []) forest)) }
{
    match number_of_items(start) {
        Some(start) => Ok(copied(alloc, from_position(start, items))?),
        None => Err(Failure::Wrong),
    }
}

fn subsequence(
    alloc: Global,
    items: &[Item],
    start: &[Item],
    count: &[Item],
) -> Result<Answer, Failure>
    ensures value { (forest later : PlainForest) → IfOk result (λ r. item_answer functions.Subsequence (items_in later items.now ∷ items_in later start.now ∷ items_in later count.now ∷ []) forest ≡ gives (answer_items later r) forest) }
    ensures fits { IfOk result (λ r. AnswerFits r) }
    ensures failed { (forest later : PlainForest) → IfErr result (λ e. FailsSo e (item_answer functions.Subsequence (items_in later items.now ∷ items_in later start.now ∷ items_in later count.now ∷ []) forest)) }
{
    match number_of_items(start) {
        Some(start) => so_many(alloc, items, start, count),
        None => Err(Failure::Wrong),
    }
}

fn so_many(alloc: Global, items: &[Item], start: Number, count: &[Item]) -> Result<Answer, Failure>
    ensures value { (forest later : PlainForest) → IfOk result (λ r. given (number_of_items (items_in later count.now)) (λ n. gives (so_many_from start n (items_in later items.now)) forest) ≡ gives (answer_items later r) forest) }
    ensures fits { IfOk result (λ r. AnswerFits r) }
    ensures failed { (forest later : PlainForest) → IfErr result (λ e. FailsSo e (given (number_of_items (items_in later count.now)) (λ n. gives (so_many_from start n (items_in later items.now)) forest))) }
{
    match number_of_items(count) {
        Some(count) => Ok(copied(alloc, so_many_from(start, count, items))?),
        None => Err(Failure::Wrong),
    }
}

fn remove(alloc: Global, items: &[Item], position: &[Item]) -> Result<Answer, Failure>
    ensures value { (forest later : PlainForest) → IfOk result (λ r. item_answer functions.Remove (items_in later items.now ∷ items_in later position.now ∷ []) forest ≡ gives (answer_items later r) forest) }
    ensures fits { IfOk result (λ r. AnswerFits r) }
    ensures failed { (forest later : PlainForest) → IfErr result (λ e. FailsSo e (item_answer functions.Remove (items_in later items.now ∷ items_in later position.now ∷ []) forest)) }
{
    match integer_of_items(position) {
        Some(position) => {
            let (before, behind) = without_position(position, items);
            Ok(joined(alloc, before, &[], behind)?)
        }
        None => Err(Failure::Wrong),
    }
}

fn insert_before(
    alloc: Global,
    items: &[Item],
    position: &[Item],
    inserted: &[Item],
) -> Result<Answer, Failure>
    ensures value { (forest later : PlainForest) → IfOk result (λ r. item_answer functions.InsertBefore (items_in later items.now ∷ items_in later position.now ∷ items_in later inserted.now ∷ []) forest ≡ gives (answer_items later r) forest) }
    ensures fits { IfOk result (λ r. AnswerFits r) }
    ensures failed { (forest later : PlainForest) → IfErr result (λ e. FailsSo e (item_answer functions.InsertBefore (items_in later items.now ∷ items_in later position.now ∷ items_in later inserted.now ∷ []) forest)) }
{
    match integer_of_items(position) {
        Some(position) => {
            let (before, behind) = split_at_position(position, items);
            Ok(joined(alloc, before, inserted, behind)?)
        }
        None => Err(Failure::Wrong),
    }
}

// The number that a value of one item is.
fn number_of_items(items: &[Item]) -> Option<Number>
    ensures { (later : PlainForest) → result ≡ number_of_items (items_in later items.now) }
{
    match only_atom(items) {
        Some(value) => number_of(value),
        None => None,
    }
}

// The integer that a value of one item is.
fn integer_of_items(items: &[Item]) -> Option<i128>
    ensures { (later : PlainForest) → result ≡ integer_of_items (items_in later items.now) }
{
    match only_atom(items) {
        Some(value) => integer_of(value),
        None => None,
    }
}

// Copies of items as an answer.
fn copied(alloc: Global, items: &[Item]) -> Result<Answer, AllocError>
    ensures value { (later : PlainForest) → IfOk result (λ r. answer_items later r ≡ items_in later items.now) }
    ensures fits { IfOk result (λ r. AnswerFits r) }
{
    let mut answer = Vec::with_capacity(alloc, items.len())?;
    append_all(items, &mut answer)?;
    Ok(Answer::Items(answer))
}

// Copies of items one behind another as an answer.
fn joined(
    alloc: Global,
    first: &[Item],
    second: &[Item],
    third: &[Item],
) -> Result<Answer, AllocError>
    ensures value { (later : PlainForest) → IfOk result (λ r. answer_items later r ≡ items_in later (first.now ++ second.now ++ third.now)) }
    ensures fits { IfOk result (λ r. AnswerFits r) }
{
    let mut answer = Vec::new(alloc);
    append_all(first, &mut answer)?;
    append_all(second, &mut answer)?;
    append_all(third, &mut answer)?;
    Ok(Answer::Items(answer))
}
