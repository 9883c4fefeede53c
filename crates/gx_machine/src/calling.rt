// Calls of built-in functions.

ghost use Rattle.std.specs.Prelude.{◌≡◌, if◌then◌else◌, ◌∷◌, [], IfOk, IfErr, ◌≤◌, length, map, OnOk, List, Some};
ghost use Rattle.gx_funcs.specs.declared.function.Function.TheVariants as functions;
ghost use Rattle.gx_funcs.specs.Function.{effective_boolean as boolean_of_views, boolean_atom as boolean_of_truth, truth_atom, string_of_item as string_of_view, string_of_items as string_of_views};
ghost use Rattle.gx_atomic.specs.EffectiveBoolean.{is_boolean_value};
ghost use Rattle.gx_model.specs.Forest.{Forest as PlainForest};
ghost use Rattle.gx_model.specs.Growth.{Extends};
ghost use Rattle.gx_types.specs.SchemaSet.{SchemaSet};
ghost use Rattle.gx_funcs.specs.Texts.{Text as Characters, texts_of, text_answer};
ghost use Rattle.gx_core.specs.Calling.{called, text_called, argument_texts, text_of_value, view_of, views_of};
ghost use Rattle.gx_model.specs.Item.{Items};
ghost use Rattle.gx_build.specs.Parts.{parts_in};
ghost use Rattle.gx_core.specs.Outcome.{Outcome, gives, given};
ghost use Rattle.gx_core.specs.declared.operator.Operator.TheVariants as operators;
ghost use Rattle.gx_core.specs.Meaning.{CallOutcomes, Context, denoted};
ghost use Rattle.gx_joins.specs.JoinedMeaning.{joined_meaning as joined};
ghost use Rattle.gx_store.specs.Items.{item_in, items_in};
ghost use Rattle.gx_machine.specs.Answering.{answer_items, AnswerFits, answer_found};
ghost use Rattle.gx_machine.specs.Failing.{FailsSo};
ghost use Rattle.gx_machine.specs.Resume.{context_with, items_of, outcome_of, outcome_with, outcome_behind};
ghost use Rattle.gx_machine.specs.declared.evaluation.Pending.TheVariants as work;

use crate::answer::{Answer, put};
use crate::constructing::take_operands;
use crate::evaluation::{Evaluation, Pending};
use crate::failure::Failure;
use crate::item_calling::{called_with_item, called_with_items, failure_of_none};
use crate::marking::mark_parts;
use crate::nodes::atomized;
use crate::single::Single;
use crate::value_calling::{called_with_value, called_with_values};
use gx_atomic::effective_boolean_value;
use gx_base::text::Text;
use gx_facets::{AtomValue, Atomic, print_value};
use gx_funcs::function::{Function, apply_to_none, integer_atom, string_atom, truth_atom};
use gx_funcs::text_function::TextFunction;
use gx_funcs::texts::apply_to_texts;
use gx_plan::plan::PlanExpr;
use gx_store::item::Item;
use gx_store::store::Store;
use gx_types::schemas::Schemas;
use std::alloc::{AllocError, Global};

// What a function answers of no argument.
pub(crate) fn called_with_none(alloc: Global, function: Function) -> Result<Answer, Failure>
    ensures value { (schemas : SchemaSet) (forest later : PlainForest) → IfOk result (λ r. called schemas function [] forest ≡ gives (answer_items later r) forest) }
    ensures fits { IfOk result (λ r. AnswerFits r) }
    ensures failed { (schemas : SchemaSet) (forest : PlainForest) → IfErr result (λ e. FailsSo e (called schemas function [] forest)) }
{
    match (
        function.text_function(),
        function.value_function(),
        function.item_function(),
    ) {
        (Some(texts), _, _) => text_answer(alloc, texts, &[]),
        (None, Some(_), _) => Err(Failure::Wrong),
        (None, None, Some(over_items)) => Err(failure_of_none(over_items)),
        (None, None, None) => match apply_to_none(function) {
            Some(answer) => Ok(Answer::One(answer)),
            None => Err(Failure::Wrong),
        },
    }
}

// What a function answers of one argument.
pub(crate) fn called_with_one(
    alloc: Global,
    schemas: &Schemas,
    store: &Store,
    function: Function,
    argument: &[Item],
) -> Result<Answer, Failure>
    ensures value { (later : PlainForest) → Extends store.now later → IfOk result (λ r. called schemas.now function (items_in later argument.now ∷ []) store.now ≡ gives (answer_items later r) store.now) }
    ensures fits { IfOk result (λ r. AnswerFits r) }
    ensures failed { (later : PlainForest) → Extends store.now later → IfErr result (λ e. FailsSo e (called schemas.now function (items_in later argument.now ∷ []) store.now)) }
{
    match function {
        Function::Boolean => boolean_answer(argument),
        Function::Not => match effective_boolean(argument) {
            Some(truth) => Ok(Answer::One(truth_atom(!truth))),
            None => Err(Failure::Wrong),
        },
        Function::Count => Ok(Answer::One(integer_atom(argument.len() as i128))),
        Function::Empty => Ok(Answer::One(truth_atom(argument.is_empty()))),
        Function::Exists => Ok(Answer::One(truth_atom(!argument.is_empty()))),
        Function::String => match string_of(alloc, store, argument)? {
            Some(text) => Ok(Answer::One(string_atom(text))),
            None => Err(Failure::Wrong),
        },
        Function::True | Function::False | Function::Data | Function::Position | Function::Last =>
            Err(Failure::Wrong),
        Function::OfTexts(texts) => called_with_text(alloc, schemas, store, texts, argument),
        Function::OfValues(over_values) => called_with_value(
            alloc,
            schemas,
            store,
            over_values,
            argument,
        ),
        Function::OfItems(over_items) => called_with_item(alloc, store, over_items, argument),
    }
}

// What a function answers of its arguments.
fn called_with(
    alloc: Global,
    schemas: &Schemas,
    store: &Store,
    function: Function,
    operands: &[Vec<Item>],
) -> Result<Answer, Failure>
    ensures value { (later : PlainForest) → Extends store.now later → IfOk result (λ r. called schemas.now function (parts_in later operands.now) store.now ≡ gives (answer_items later r) store.now) }
    ensures fits { IfOk result (λ r. AnswerFits r) }
    ensures failed { (later : PlainForest) → Extends store.now later → IfErr result (λ e. FailsSo e (called schemas.now function (parts_in later operands.now) store.now)) }
{
    match operands {
        [] => called_with_none(alloc, function),
        [argument] => called_with_one(alloc, schemas, store, function, argument.as_slice()),
        _ => called_with_many(alloc, schemas, store, function, operands),
    }
}

// What a function answers of several arguments: functions over strings, over atomic values and over items alone have so many.
fn called_with_many(
    alloc: Global,
    schemas: &Schemas,
    store: &Store,
    function: Function,
    operands: &[Vec<Item>],
) -> Result<Answer, Failure>
    requires { 2 ≤ length operands.now }
    ensures value { (later : PlainForest) → Extends store.now later → IfOk result (λ r. called schemas.now function (parts_in later operands.now) store.now ≡ gives (answer_items later r) store.now) }
    ensures fits { IfOk result (λ r. AnswerFits r) }
    ensures failed { (later : PlainForest) → Extends store.now later → IfErr result (λ e. FailsSo e (called schemas.now function (parts_in later operands.now) store.now)) }
{
    match (
        function.text_function(),
        function.value_function(),
        function.item_function(),
    ) {
        (Some(texts), _, _) => called_with_texts(alloc, schemas, store, texts, operands),
        (None, Some(over_values), _) => called_with_values(
            alloc,
            schemas,
            store,
            over_values,
            operands,
        ),
        (None, None, Some(over_items)) => called_with_items(
            alloc, schemas, store, over_items, operands,
        ),
        (None, None, None) => Err(Failure::Wrong),
    }
}

// What a function over strings answers of one argument.
fn called_with_text(
    alloc: Global,
    schemas: &Schemas,
    store: &Store,
    function: TextFunction,
    argument: &[Item],
) -> Result<Answer, Failure>
    ensures value { (later : PlainForest) → Extends store.now later → IfOk result (λ r. text_called schemas.now function (items_in later argument.now ∷ []) store.now ≡ gives (answer_items later r) store.now) }
    ensures fits { IfOk result (λ r. AnswerFits r) }
    ensures failed { (later : PlainForest) → Extends store.now later → IfErr result (λ e. FailsSo e (text_called schemas.now function (items_in later argument.now ∷ []) store.now)) }
{
    let texts = argument_texts(alloc, schemas, store, argument)?;
    let mut arguments = Vec::with_capacity(alloc, 1)?;
    arguments.push(texts)?;
    text_answer(alloc, function, arguments.as_slice())
}

// What a function over strings answers of several arguments.
fn called_with_texts(
    alloc: Global,
    schemas: &Schemas,
    store: &Store,
    function: TextFunction,
    operands: &[Vec<Item>],
) -> Result<Answer, Failure>
    ensures value { (later : PlainForest) → Extends store.now later → IfOk result (λ r. text_called schemas.now function (parts_in later operands.now) store.now ≡ gives (answer_items later r) store.now) }
    ensures fits { IfOk result (λ r. AnswerFits r) }
    ensures failed { (later : PlainForest) → Extends store.now later → IfErr result (λ e. FailsSo e (text_called schemas.now function (parts_in later operands.now) store.now)) }
{
    let mut arguments = Vec::with_capacity(alloc, operands.len())?;
    let mut left = operands;
    while let Some((operand, others)) = left.split_first() {
        arguments.push(argument_texts(alloc, schemas, store, operand.as_slice())?)?;
        left = others;
    }
    text_answer(alloc, function, arguments.as_slice())
}

// What a function over strings answers of texts.
fn text_answer(
    alloc: Global,
    function: TextFunction,
    arguments: &[Vec<Text>],
) -> Result<Answer, Failure>
    ensures value { (forest later : PlainForest) → IfOk result (λ r. answer_found (text_answer function (texts_of arguments.now)) forest ≡ gives (answer_items later r) forest) }
    ensures fits { IfOk result (λ r. AnswerFits r) }
    ensures failed { (forest : PlainForest) → IfErr result (λ e. FailsSo e (answer_found (text_answer function (texts_of arguments.now)) forest)) }
{
    match apply_to_texts(alloc, function, arguments)? {
        Some(answer) => Ok(Answer::One(answer)),
        None => Err(Failure::Wrong),
    }
}

// The texts of the typed values of an argument.
fn argument_texts(
    alloc: Global,
    schemas: &Schemas,
    store: &Store,
    argument: &[Item],
) -> Result<Vec<Text>, Failure>
    ensures value { (later : PlainForest) → Extends store.now later → IfOk result (λ texts. argument_texts schemas.now store.now (items_in later argument.now) ≡ Some texts.items) }
    ensures failed { (later : PlainForest) → Extends store.now later → IfErr result (λ e. (next : List Characters → Outcome Items) → FailsSo e (given (argument_texts schemas.now store.now (items_in later argument.now)) next)) }
{
    let typed = atomized(alloc, schemas, store, argument)?;
    Ok(printed(alloc, typed.as_slice())?)
}

// The printed forms of values.
fn printed(alloc: Global, values: &[Item]) -> Result<Vec<Text>, AllocError>
    ensures { (later : PlainForest) → IfOk result (λ texts. texts.items ≡ map text_of_value (items_in later values.now)) }
{
    let mut texts = Vec::with_capacity(alloc, values.len())?;
    for value in values {
        texts.push(printed_item(alloc, value)?)?;
    }
    Ok(texts)
}

fn printed_item(alloc: Global, value: &Item) -> Result<Text, AllocError>
    ensures { (later : PlainForest) → IfOk result (λ text. text ≡ text_of_value (item_in later value.now)) }
{
    match value {
        Item::Atom(value) => print_value(alloc, &value.value),
        Item::Node(_) => Text::empty(alloc),
    }
}

// The effective boolean value: true where the first item is a node, and of one atomic value its own; there is none of more
// atomic values (XQuery 1.0, section 2.4.3).
fn effective_boolean(items: &[Item]) -> Option<bool>
    ensures { (forest later : PlainForest) → result ≡ boolean_of_views (views_of forest (items_in later items.now)) }
{
    match items.split_first() {
        None => Some(false),
        Some((first, others)) => match first {
            Item::Node(_) => Some(true),
            Item::Atom(value) if others.is_empty() => Some(effective_boolean_value(&value.value)),
            Item::Atom(_) => None,
        },
    }
}

// What `boolean` answers of its argument.
fn boolean_answer(argument: &[Item]) -> Result<Answer, Failure>
    ensures value { (schemas : SchemaSet) (forest later : PlainForest) → IfOk result (λ r. called schemas functions.Boolean (items_in later argument.now ∷ []) forest ≡ gives (answer_items later r) forest) }
    ensures fits { IfOk result (λ r. AnswerFits r) }
    ensures failed { (schemas : SchemaSet) (forest later : PlainForest) → IfErr result (λ e. FailsSo e (called schemas functions.Boolean (items_in later argument.now ∷ []) forest)) }
{
    match effective_boolean(argument) {
        Some(truth) => {
            let own = boolean_atom(argument, truth)?;
            Ok(Answer::One(own))
        }
        None => Err(Failure::Wrong),
    }
}

// The value of an effective boolean value: one boolean is itself, under its own type.
fn boolean_atom(items: &[Item], truth: bool) -> Result<Atomic, AllocError>
    ensures { (forest later : PlainForest) → IfOk result (λ a. a ≡ boolean_of_truth (views_of forest (items_in later items.now)) truth) }
{
    match items.split_first() {
        Some((Item::Atom(value), others)) if others.is_empty() => own_boolean(value, truth),
        _ => Ok(truth_atom(truth)),
    }
}

// A boolean itself, and for another value its truth.
fn own_boolean(value: &Atomic, truth: bool) -> Result<Atomic, AllocError>
    ensures { IfOk result (λ a. a ≡ (if is_boolean_value value.now.value then value.now else truth_atom truth)) }
{
    match value.value {
        AtomValue::Truth(_) => value.clone(),
        _ => Ok(truth_atom(truth)),
    }
}

// The string value of at most one item.
#[tactic(auto, using(crate::proofs::Operands::many_have_no_string))]
fn string_of(alloc: Global, store: &Store, items: &[Item]) -> Result<Option<Text>, AllocError>
    ensures { (later : PlainForest) → Extends store.now later → IfOk result (λ text. text ≡ string_of_views (views_of store.now (items_in later items.now))) }
{
    match items {
        [] => Ok(Some(Text::empty(alloc)?)),
        [single] => Ok(Some(string_of_item(alloc, store, single)?)),
        _ => Ok(None),
    }
}

fn string_of_item(alloc: Global, store: &Store, item: &Item) -> Result<Text, AllocError>
    ensures { (later : PlainForest) → Extends store.now later → IfOk result (λ text. text ≡ string_of_view (view_of store.now (item_in later item.now))) }
{
    match item {
        Item::Atom(value) => print_value(alloc, &value.value),
        Item::Node(node) => store.string_value(*node),
    }
}

impl<'a> Evaluation<'a> {
    // A call of no argument or of one is applied at once; each of several arguments is marked.
    pub(crate) fn open_call(
        &mut self,
        alloc: Global,
        schemas: &Schemas,
        store: &Store,
        function: Function,
        arguments: &'a [PlanExpr],
    ) -> Result<(), Failure>
        ensures value { (calls : CallOutcomes) (later : PlainForest) → Extends store.now later → let k = context_with schemas.now calls in OnOk result (outcome_of k store.now later self.new
            ≡ outcome_behind k later (denoted k (operators.Call function) (map (joined k) arguments.now) (items_of later self.old.scope) store.now) self.old) }
        ensures failed { (calls : CallOutcomes) (later : PlainForest) → Extends store.now later → let k = context_with schemas.now calls in IfErr result (λ e. FailsSo e
            (outcome_behind k later (denoted k (operators.Call function) (map (joined k) arguments.now) (items_of later self.old.scope) store.now) self.old)) }
    {
        match arguments {
            [] => {
                let answer = called_with_none(alloc, function)?;
                Ok(put(answer, &mut self.values)?)
            }
            [argument] => self.open_single(alloc, schemas, store, Single::Call(function), argument),
            _ => Ok(self.open_arguments(function, arguments)?),
        }
    }

    fn open_arguments(
        &mut self,
        function: Function,
        arguments: &'a [PlanExpr],
    ) -> Result<(), AllocError>
        requires { 2 ≤ length arguments.now }
        ensures { (k : Context) (forest later : PlainForest) → OnOk result (outcome_of k forest later self.new
            ≡ outcome_behind k later (denoted k (operators.Call function) (map (joined k) arguments.now) (items_of later self.old.scope) forest) self.old) }
    {
        self.work
            .push(Pending::Call(function, arguments.len() - 2))?;
        mark_parts(arguments, &mut self.work)?;
        Ok(())
    }

    // A call of several arguments is applied to the values between the last marks.
    pub(crate) fn apply_call(
        &mut self,
        alloc: Global,
        schemas: &Schemas,
        store: &Store,
        function: Function,
        more: usize,
    ) -> Result<(), Failure>
        ensures value { (calls : CallOutcomes) (later : PlainForest) → Extends store.now later → let k = context_with schemas.now calls in OnOk result (outcome_of k store.now later self.new ≡ outcome_with k store.now later (work.Call function more) self.old) }
        ensures failed { (calls : CallOutcomes) (later : PlainForest) → Extends store.now later → let k = context_with schemas.now calls in IfErr result (λ e. FailsSo e (outcome_with k store.now later (work.Call function more) self.old)) }
    {
        let Some(count) = more.checked_add(2) else {
            return Err(Failure::Memory);
        };
        let operands = take_operands(alloc, count, &mut self.marks, &mut self.values)?;
        let answer = called_with(alloc, schemas, store, function, operands.as_slice())?;
        Ok(put(answer, &mut self.values)?)
    }
}
