// What a strict operator makes of its operands.

ghost use Rattle.std.specs.Prelude.{◌≡◌, ◌++◌, [], IfOk, IfErr, OnOk};
ghost use Rattle.gx_model.specs.Forest.{Forest};
ghost use Rattle.gx_model.specs.Item.{atom, node};
ghost use Rattle.gx_model.specs.Growth.{Extends};
ghost use Rattle.gx_core.specs.Outcome.{gives};
ghost use Rattle.gx_core.specs.Operands.{on_two};
ghost use Rattle.gx_core.specs.Meaning.{binary_meaning};
ghost use Rattle.gx_core.specs.Ranging.{range_of_items, range_between};
ghost use Rattle.gx_nodes.specs.Entries.{place_of_number};
ghost use Rattle.gx_store.specs.Items.{item_in, items_in};
ghost use Rattle.gx_machine.specs.Answering.{answer_items, AnswerFits, paired_meaning};
ghost use Rattle.gx_machine.specs.Failing.{FailsSo};

use crate::arithmetic::computed;
use crate::comparison::{compared, generally_compared};
use crate::failure::Failure;
use crate::nodes::{append_nodes, nodes_compare};
use crate::operand::{move_behind, push_atom, put_atoms};
use crate::range::{integer_of, put_integers, range_count};
use crate::sets::combined;
use gx_atomic::Op;
use gx_base::code::Code;
use gx_core::expression::{ArithmeticOp, BinaryClass, NodeComparison};
use gx_facets::Atomic;
use gx_funcs::function::truth_atom;
use gx_store::item::Item;
use gx_store::number::NodeId;
use gx_store::store::Store;
use std::alloc::{AllocError, Global};

// Nothing, one atomic value, so many integers from the first on, nodes, atomic values, or items.
#[derive(Drop)]
pub(crate) enum Answer {
    Nothing,
    One(Atomic),
    Integers(i128, u32),
    NodeSequence(Vec<NodeId>),
    Values(Vec<Atomic>),
    Items(Vec<Item>),
}

// An operation on one value of each of two operands.
#[derive(Clone, Copy)]
enum Paired {
    Arithmetic(ArithmeticOp),
    Value(Op),
    NodeComparison(NodeComparison),
    Range,
}

// What an operator of two operands makes of them.
pub(crate) fn of_two(
    alloc: Global,
    store: &Store,
    class: BinaryClass,
    left: &[Item],
    right: &[Item],
) -> Result<Answer, Failure>
    ensures value { (later : Forest) → Extends store.now later → IfOk result (λ r. binary_meaning class (items_in later left.now) (items_in later right.now) store.now ≡ gives (answer_items later r) store.now) }
    ensures fits { IfOk result (λ r. AnswerFits r) }
    ensures failed { (later : Forest) → Extends store.now later → IfErr result (λ e. FailsSo e (binary_meaning class (items_in later left.now) (items_in later right.now) store.now)) }
{
    match class {
        BinaryClass::Arithmetic(operation) => on_two(Paired::Arithmetic(operation), left, right),
        BinaryClass::Value(op) => on_two(Paired::Value(op), left, right),
        BinaryClass::General(op) => Ok(Answer::One(generally_compared(alloc, op, left, right)?)),
        BinaryClass::Nodes(op) => on_two(Paired::NodeComparison(op), left, right),
        BinaryClass::Range => on_two(Paired::Range, left, right),
        BinaryClass::Combination(operator) => combined(alloc, store, operator, left, right),
    }
}

// Nothing where an operand is empty.
#[tactic(auto, using(crate::proofs::Operands::many_on_the_left, crate::proofs::Operands::many_on_the_right))]
fn on_two(operation: Paired, left: &[Item], right: &[Item]) -> Result<Answer, Failure>
    ensures value { (forest later : Forest) → IfOk result (λ r.
        on_two (items_in later left.now) (items_in later right.now) forest (paired_meaning operation) ≡ gives (answer_items later r) forest) }
    ensures fits { IfOk result (λ r. AnswerFits r) }
    ensures failed { (forest later : Forest) → IfErr result (λ e. FailsSo e (on_two (items_in later left.now) (items_in later right.now) forest (paired_meaning operation))) }
{
    match left {
        [] => match right {
            [] => Ok(Answer::Nothing),
            [_] => Ok(Answer::Nothing),
            _ => Err(Failure::Wrong),
        },
        [x] => match right {
            [] => Ok(Answer::Nothing),
            [y] => Ok(of_pair(operation, x, y)?),
            _ => Err(Failure::Wrong),
        },
        _ => Err(Failure::Wrong),
    }
}

#[tactic(auto, using(crate::proofs::Operands::no_pair_on_the_left, crate::proofs::Operands::no_pair_on_the_right))]
fn of_pair(operation: Paired, left: &Item, right: &Item) -> Result<Answer, Failure>
    ensures value { (forest later : Forest) → IfOk result (λ r.
        paired_meaning operation (item_in later left.now) (item_in later right.now) forest ≡ gives (answer_items later r) forest) }
    ensures fits { IfOk result (λ r. AnswerFits r) }
    ensures failed { (forest later : Forest) → IfErr result (λ e. FailsSo e (paired_meaning operation (item_in later left.now) (item_in later right.now) forest)) }
{
    match (left, right) {
        (Item::Atom(left), Item::Atom(right)) => of_atoms(operation, left, right),
        (Item::Node(left), Item::Node(right)) => of_nodes(operation, *left, *right),
        _ => Err(Failure::Wrong),
    }
}

fn of_nodes(operation: Paired, left: NodeId, right: NodeId) -> Result<Answer, Failure>
    ensures value { (forest later : Forest) → IfOk result (λ r.
        paired_meaning operation (node (place_of_number later left.number)) (node (place_of_number later right.number)) forest ≡ gives (answer_items later r) forest) }
    ensures fits { IfOk result (λ r. AnswerFits r) }
    ensures failed { (forest later : Forest) → IfErr result (λ e. FailsSo e (paired_meaning operation (node (place_of_number later left.number)) (node (place_of_number later right.number)) forest)) }
{
    match operation {
        Paired::NodeComparison(op) => Ok(Answer::One(truth_atom(nodes_compare(op, left, right)))),
        _ => Err(Failure::Wrong),
    }
}

fn of_atoms(operation: Paired, left: &Atomic, right: &Atomic) -> Result<Answer, Failure>
    ensures value { (forest later : Forest) → IfOk result (λ r.
        paired_meaning operation (atom left.now) (atom right.now) forest ≡ gives (answer_items later r) forest) }
    ensures fits { IfOk result (λ r. AnswerFits r) }
    ensures failed { (forest : Forest) → IfErr result (λ e. FailsSo e (paired_meaning operation (atom left.now) (atom right.now) forest)) }
{
    match operation {
        Paired::Arithmetic(operation) => Ok(Answer::One(computed(operation, left, right)?)),
        Paired::Value(op) => Ok(Answer::One(compared(op, left, right)?)),
        Paired::NodeComparison(_) => Err(Failure::Wrong),
        Paired::Range => Ok(ranged(left, right)?),
    }
}

// All integers from one to another.
fn ranged(left: &Atomic, right: &Atomic) -> Result<Answer, Failure>
    ensures value { (forest later : Forest) → IfOk result (λ r. range_of_items (atom left.now) (atom right.now) forest ≡ gives (answer_items later r) forest) }
    ensures fits { IfOk result (λ r. AnswerFits r) }
    ensures failed { (forest : Forest) → IfErr result (λ e. FailsSo e (range_of_items (atom left.now) (atom right.now) forest)) }
{
    match integer_of(left) {
        Some(first) => match integer_of(right) {
            Some(last) => between(first, last),
            None => Err(Failure::Wrong),
        },
        None => Err(Failure::Wrong),
    }
}

// All integers from the first to the last.
#[tactic(auto, using(crate::proofs::Ranges::few_between, crate::proofs::Ranges::many_between))]
fn between(first: i128, last: i128) -> Result<Answer, Failure>
    ensures value { (forest later : Forest) → IfOk result (λ r. range_between first last forest ≡ gives (answer_items later r) forest) }
    ensures fits { IfOk result (λ r. AnswerFits r) }
    ensures failed { (forest : Forest) → IfErr result (λ e. FailsSo e (range_between first last forest)) }
{
    match range_count(first, last) {
        Some(count) => Ok(Answer::Integers(first, count)),
        None => Err(Failure::Raised(Code::GLXD0002)),
    }
}

// Puts an answer behind the values.
pub(crate) fn put(answer: Answer, values: &mut Vec<Item>) -> Result<(), AllocError>
    requires { AnswerFits answer }
    ensures { (later : Forest) → OnOk result (items_in later values.new.items ≡ items_in later values.old.items ++ answer_items later answer) }
{
    match answer {
        Answer::Nothing => Ok(()),
        Answer::One(atomic) => push_atom(atomic, values),
        Answer::Integers(first, count) => put_integers(first, count, values),
        Answer::NodeSequence(nodes) => append_nodes(nodes.as_slice(), values),
        Answer::Values(atoms) => put_atoms(atoms.as_slice(), values),
        Answer::Items(items) => move_behind(items, values),
    }
}
