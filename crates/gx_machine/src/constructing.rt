// Constructors.

ghost use Rattle.std.specs.Prelude.{◌≡◌, ℕ, ◌++◌, ◌∷◌, [], List, Some, map, length, IfOk, OnOk, IfErr};
ghost use Rattle.std.specs.Option.{option_map};
ghost use Rattle.gx_model.specs.Atomization.{atomized as atomized_items};
ghost use Rattle.gx_model.specs.Forest.{Forest as PlainForest, then_found};
ghost use Rattle.gx_model.specs.Growth.{Extends};
ghost use Rattle.gx_model.specs.Item.{Items};
ghost use Rattle.gx_core.specs.Comparing.{atoms_among as atoms_of};
ghost use Rattle.gx_core.specs.Constructing.{spaced_values, joined_texts, text_of_part, texts_of_parts as texts_joined, text_outcome, tree_appended, attribute_built, constructor_outcome};
ghost use Rattle.gx_core.specs.declared.constructor.Constructor.TheVariants as constructors;
ghost use Rattle.gx_core.specs.Outcome.{Outcome, gives, given};
ghost use Rattle.gx_core.specs.Meaning.{CallOutcomes, Context, denoted};
ghost use Rattle.gx_joins.specs.JoinedMeaning.{joined_meaning as joined};
ghost use Rattle.gx_core.specs.declared.operator.Operator.TheVariants as operators;
ghost use Rattle.gx_store.specs.Items.{items_in};
ghost use Rattle.gx_build.specs.Parts.{parts_in};
ghost use Rattle.gx_machine.specs.Failing.{FailsSo};
ghost use Rattle.gx_machine.specs.Growing.{GrowsHonestly};
ghost use Rattle.gx_machine.specs.MadeNodes.{node_items};
ghost use Rattle.gx_machine.specs.Resume.{context_with, between_marks, items_of, outcome_of, outcome_with, outcome_behind};
ghost use Rattle.gx_machine.specs.declared.evaluation.Pending.TheVariants as work;

use crate::evaluation::{Evaluation, Pending};
use crate::failure::Failure;
use crate::marking::mark_parts;
use crate::nodes::atomized;
use crate::operand::{atoms_among, split_at};
use gx_base::name::Name;
use gx_base::stack::Stack;
use gx_base::text::Text;
use gx_base::text_builder::TextBuilder;
use gx_build::build;
use gx_core::constructor::Constructor;
use gx_facets::{Atomic, print_value};
use gx_plan::plan::PlanExpr;
use gx_store::item::Item;
use gx_store::number::NodeId;
use gx_store::store::Store;
use gx_types::schemas::Schemas;
use std::alloc::{AllocError, Global};

impl<'a> Evaluation<'a> {
    // Each part of a constructor is marked and evaluated, from the left.
    pub(crate) fn open_construct(
        &mut self,
        constructor: &'a Constructor,
        parts: &'a [PlanExpr],
    ) -> Result<(), AllocError>
        ensures { (k : Context) (forest later : PlainForest) → OnOk result (outcome_of k forest later self.new
            ≡ outcome_behind k later (denoted k (operators.Construct constructor.now (length parts.now)) (map (joined k) parts.now) (items_of later self.old.scope) forest) self.old) }
    {
        self.work
            .push(Pending::Construct(constructor, parts.len()))?;
        mark_parts(parts, &mut self.work)?;
        Ok(())
    }

    // Makes a node of the operands behind so many last marks.
    pub(crate) fn construct(
        &mut self,
        alloc: Global,
        schemas: &Schemas,
        store: &mut Store,
        constructor: &'a Constructor,
        count: usize,
    ) -> Result<(), Failure>
        ensures grows { GrowsHonestly schemas.now store.old store.new }
        ensures value { (calls : CallOutcomes) (later : PlainForest) → Extends store.new later → OnOk result (outcome_of (context_with schemas.now calls) store.new later self.new ≡ outcome_with (context_with schemas.now calls) store.old later (work.Construct constructor.entry count) self.old) }
        ensures failed { (calls : CallOutcomes) (later : PlainForest) → Extends store.new later → IfErr result (λ e. FailsSo e (outcome_with (context_with schemas.now calls) store.old later (work.Construct constructor.entry count) self.old)) }
    {
        let parts = take_operands(alloc, count, &mut self.marks, &mut self.values)?;
        let made = constructed(alloc, schemas, store, constructor, parts.as_slice())?;
        Ok(put_node(made, &mut self.values)?)
    }
}

// Takes the operands behind so many last marks, in order.
pub(crate) fn take_operands(
    alloc: Global,
    count: usize,
    marks: &mut Stack<usize>,
    values: &mut Vec<Item>,
) -> Result<Vec<Vec<Item>>, Failure>
    ensures taken { (later : PlainForest) (next : List Items → List ℕ → Items → Outcome Items) → IfOk result (λ operands.
        between_marks count marks.old (items_in later values.old.items) [] next ≡ next (parts_in later operands.items) marks.new (items_in later values.new.items)) }
    ensures failed { (later : PlainForest) (next : List Items → List ℕ → Items → Outcome Items) → IfErr result (λ e.
        FailsSo e (between_marks count marks.old (items_in later values.old.items) [] next)) }
{
    let mut operands = Stack::new(alloc);
    for _ in 0..count {
        let Some(mark) = marks.pop() else {
            return Err(Failure::Wrong);
        };
        operands.push(split_at(alloc, values, mark)?)?;
    }
    let mut taken = operands.into_items();
    taken.reverse();
    Ok(taken)
}

// Puts a node behind the values, if there is one.
fn put_node(made: Option<NodeId>, values: &mut Vec<Item>) -> Result<(), AllocError>
    ensures { (later : PlainForest) → OnOk result (items_in later values.new.items ≡ items_in later values.old.items ++ node_items later made) }
{
    match made {
        Some(node) => Ok(values.push(Item::Node(node))?),
        None => Ok(()),
    }
}

// The node that a constructor makes of its parts, if it makes one.
fn constructed(
    alloc: Global,
    schemas: &Schemas,
    store: &mut Store,
    constructor: &Constructor,
    parts: &[Vec<Item>],
) -> Result<Option<NodeId>, Failure>
    ensures grows { GrowsHonestly schemas.now store.old store.new }
    ensures value { (later : PlainForest) → Extends store.new later → IfOk result (λ made.
        constructor_outcome schemas.now constructor.now (parts_in later parts.now) store.old ≡ gives (node_items later made) store.new) }
    ensures failed { (later : PlainForest) → Extends store.new later → IfErr result (λ e. FailsSo e (constructor_outcome schemas.now constructor.now (parts_in later parts.now) store.old)) }
{
    match constructor {
        Constructor::Element(name) => {
            let node = build::element(store, name, parts)?;
            Ok(Some(node))
        }
        Constructor::Attribute(name) => {
            let value = texts_of_parts(alloc, schemas, store, parts)?;
            let node = build::attribute(store, name, &value)?;
            Ok(Some(node))
        }
        Constructor::Text => match parts {
            [content] => text_node(alloc, schemas, store, content.as_slice()),
            _ => Err(Failure::Wrong),
        },
        Constructor::Document => match parts {
            [content] => {
                let node = build::document(store, content.as_slice())?;
                Ok(Some(node))
            }
            _ => Err(Failure::Wrong),
        },
    }
}

// A text of an atomized value; of an empty one there is none.
fn text_node(
    alloc: Global,
    schemas: &Schemas,
    store: &mut Store,
    content: &[Item],
) -> Result<Option<NodeId>, Failure>
    ensures grows { GrowsHonestly schemas.now store.old store.new }
    ensures value { (later : PlainForest) → Extends store.new later → IfOk result (λ made.
        constructor_outcome schemas.now constructors.Text (items_in later content.now ∷ []) store.old ≡ gives (node_items later made) store.new) }
    ensures failed { (later : PlainForest) → Extends store.new later → IfErr result (λ e. FailsSo e (constructor_outcome schemas.now constructors.Text (items_in later content.now ∷ []) store.old)) }
{
    let typed = values_of(alloc, schemas, store, content)?;
    let values = typed.as_slice();
    if values.is_empty() {
        return Ok(None);
    }
    let text = spaced(alloc, values)?;
    let node = build::text(store, &text)?;
    Ok(Some(node))
}

// The texts of parts one after another.
fn texts_of_parts(
    alloc: Global,
    schemas: &Schemas,
    store: &Store,
    parts: &[Vec<Item>],
) -> Result<Text, Failure>
    ensures value { (later : PlainForest) → Extends store.now later → IfOk result (λ text. texts_joined schemas.now store.now (parts_in later parts.now) ≡ Some text) }
    ensures failed { (later : PlainForest) (next : List ℕ → Outcome Items) → Extends store.now later → IfErr result (λ e. FailsSo e (given (texts_joined schemas.now store.now (parts_in later parts.now)) next)) }
{
    let mut text = TextBuilder::new(alloc);
    for part in parts {
        push_part(alloc, schemas, store, part.as_slice(), &mut text)?;
    }
    Ok(text.finish()?)
}

// Puts the text of a part behind others.
fn push_part(
    alloc: Global,
    schemas: &Schemas,
    store: &Store,
    part: &[Item],
    text: &mut TextBuilder,
) -> Result<(), Failure>
    ensures value { (later : PlainForest) → Extends store.now later → OnOk result (joined_texts (Some text.old) (text_of_part schemas.now store.now (items_in later part.now)) ≡ Some text.new) }
    ensures failed { (later : PlainForest) (next : List ℕ → Outcome Items) → Extends store.now later → IfErr result (λ e. FailsSo e (given (text_of_part schemas.now store.now (items_in later part.now)) next)) }
{
    let values = values_of(alloc, schemas, store, part)?;
    push_spaced(alloc, values.as_slice(), text)?;
    Ok(())
}

// The atomic values of an atomized operand.
fn values_of(
    alloc: Global,
    schemas: &Schemas,
    store: &Store,
    operand: &[Item],
) -> Result<Vec<Atomic>, Failure>
    ensures value { (later : PlainForest) → Extends store.now later → IfOk result (λ values. then_found (atomized_items schemas.now store.now (items_in later operand.now)) atoms_of ≡ Some values.items) }
    ensures failed { (later : PlainForest) (next : List Atomic → Outcome Items) → Extends store.now later → IfErr result (λ e. FailsSo e (given (then_found (atomized_items schemas.now store.now (items_in later operand.now)) atoms_of) next)) }
{
    let typed = atomized(alloc, schemas, store, operand)?;
    match atoms_among(alloc, typed.as_slice())? {
        Some(values) => Ok(values),
        None => Err(Failure::Wrong),
    }
}

// Atomic values as one text, with a space between them.
fn spaced(alloc: Global, values: &[Atomic]) -> Result<Text, AllocError>
    ensures { IfOk result (λ text. text ≡ spaced_values values.now) }
{
    let mut text = TextBuilder::new(alloc);
    push_spaced(alloc, values, &mut text)?;
    text.finish()
}

// Puts atomic values behind a text, with a space between them.
fn push_spaced(alloc: Global, values: &[Atomic], text: &mut TextBuilder) -> Result<(), AllocError>
    ensures { OnOk result (text.new ≡ text.old ++ spaced_values values.now) }
{
    let mut left = values;
    while let Some((value, others)) = left.split_first() {
        let printed = print_value(alloc, &value.value)?;
        text.push_text(&printed)?;
        if !others.is_empty() {
            text.push(' ')?;
        }
        left = others;
    }
    Ok(())
}
