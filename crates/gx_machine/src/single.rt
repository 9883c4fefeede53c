// Operators of one operand.

ghost use Rattle.std.specs.Prelude.{◌≡◌, ◌∷◌, [], Result, Err, IfOk, IfErr, is_ok, Bool, true};
ghost use Rattle.gx_facets.specs.declared.Atomic.{Atomic};
ghost use Rattle.gx_atomic.specs.declared.casting.CastError.{CastError};
ghost use Rattle.gx_atomic.specs.Cast.{Casts, cast_of};
ghost use Rattle.gx_funcs.specs.Function.{truth_atom};
ghost use Rattle.gx_model.specs.Forest.{Forest as PlainForest};
ghost use Rattle.gx_model.specs.Growth.{Extends};
ghost use Rattle.gx_model.specs.Item.{atom};
ghost use Rattle.gx_core.specs.Outcome.{gives};
ghost use Rattle.gx_core.specs.Arithmetic.{negation};
ghost use Rattle.gx_core.specs.Meaning.{CallOutcomes, acts};
ghost use Rattle.gx_core.specs.Casting.{cast_outcome, cast_items, castable_items};
ghost use Rattle.gx_store.specs.Items.{item_in, items_in};
ghost use Rattle.gx_machine.specs.Answering.{answer_items, AnswerFits};
ghost use Rattle.gx_machine.specs.Failing.{FailsSo};
ghost use Rattle.gx_machine.specs.Operators.{single_operator};
ghost use Rattle.gx_machine.specs.Resume.{context_with};
ghost use Rattle.gx_machine.specs.declared.failure.Failure.TheVariants.{Memory};

use crate::answer::Answer;
use crate::arithmetic::negated;
use crate::calling::called_with_one;
use crate::comparison::cast_failure;
use crate::failure::Failure;
use gx_atomic::CastError;
use gx_base::type_name::TypeName;
use gx_facets::Atomic;
use gx_funcs::function::{Function, truth_atom};
use gx_store::item::Item;
use gx_store::store::Store;
use gx_types::schemas::Schemas;
use std::alloc::Global;

// A strict operator of one operand, but for atomization.
#[derive(Clone, Copy)]
pub(crate) enum Single<'a> {
    Neg,
    Cast(&'a TypeName, bool),
    Castable(&'a TypeName, bool),
    Call(Function),
}

// What an operator of one operand makes of it.
pub(crate) fn of_one(
    alloc: Global,
    schemas: &Schemas,
    store: &Store,
    operator: Single<'_>,
    operand: &[Item],
) -> Result<Answer, Failure>
    ensures value { (calls : CallOutcomes) (later : PlainForest) → Extends store.now later → IfOk result (λ r.
        acts (context_with schemas.now calls) (single_operator operator.entry) (items_in later operand.now ∷ []) store.now ≡ gives (answer_items later r) store.now) }
    ensures fits { IfOk result (λ r. AnswerFits r) }
    ensures failed { (calls : CallOutcomes) (later : PlainForest) → Extends store.now later → IfErr result (λ e.
        FailsSo e (acts (context_with schemas.now calls) (single_operator operator.entry) (items_in later operand.now ∷ []) store.now)) }
{
    match operator {
        Single::Neg => negation(operand),
        Single::Cast(kind, allows_empty) => cast(alloc, schemas, kind, allows_empty, operand),
        Single::Castable(kind, allows_empty) => {
            castable(alloc, schemas, kind, allows_empty, operand)
        }
        Single::Call(function) => called_with_one(alloc, schemas, store, function, operand),
    }
}

// The negation of a number.
#[tactic(auto, using(crate::proofs::Operands::many))]
fn negation(operand: &[Item]) -> Result<Answer, Failure>
    ensures value { (forest later : PlainForest) → IfOk result (λ r. negation (items_in later operand.now) forest ≡ gives (answer_items later r) forest) }
    ensures fits { IfOk result (λ r. AnswerFits r) }
    ensures failed { (forest later : PlainForest) → IfErr result (λ e. FailsSo e (negation (items_in later operand.now) forest)) }
{
    match operand {
        [] => Ok(Answer::Nothing),
        [x] => Ok(Answer::One(negated(x)?)),
        _ => Err(Failure::Wrong),
    }
}

// The cast of an operand, which stays empty where that is allowed.
#[tactic(auto, using(crate::proofs::Operands::many_are_not_cast))]
fn cast(
    alloc: Global,
    schemas: &Schemas,
    kind: &TypeName,
    allows_empty: bool,
    operand: &[Item],
) -> Result<Answer, Failure>
    ensures value { (forest later : PlainForest) → IfOk result (λ r. cast_items schemas.now kind.now allows_empty (items_in later operand.now) forest ≡ gives (answer_items later r) forest) }
    ensures fits { IfOk result (λ r. AnswerFits r) }
    ensures failed { (forest later : PlainForest) → IfErr result (λ e. FailsSo e (cast_items schemas.now kind.now allows_empty (items_in later operand.now) forest)) }
{
    match operand {
        [] if allows_empty => Ok(Answer::Nothing),
        [x] => match cast_of(alloc, schemas, kind, x) {
            Ok(atomic) => Ok(Answer::One(atomic)),
            Err(failure) => Err(failure),
        },
        _ => Err(Failure::Wrong),
    }
}

// Whether an operand has a cast.
#[tactic(auto, using(crate::proofs::Operands::many_are_not_castable))]
fn castable(
    alloc: Global,
    schemas: &Schemas,
    kind: &TypeName,
    allows_empty: bool,
    operand: &[Item],
) -> Result<Answer, Failure>
    ensures value { (forest later : PlainForest) → IfOk result (λ r. castable_items schemas.now kind.now allows_empty (items_in later operand.now) forest ≡ gives (answer_items later r) forest) }
    ensures fits { IfOk result (λ r. AnswerFits r) }
    ensures failed { (forest later : PlainForest) → IfErr result (λ e. FailsSo e (castable_items schemas.now kind.now allows_empty (items_in later operand.now) forest)) }
{
    match operand {
        [] => Ok(Answer::One(truth_atom(allows_empty))),
        [x] => match castability(alloc, schemas, kind, x) {
            Ok(atomic) => Ok(Answer::One(atomic)),
            Err(failure) => Err(failure),
        },
        _ => Err(Failure::Wrong),
    }
}

fn cast_of(
    alloc: Global,
    schemas: &Schemas,
    kind: &TypeName,
    item: &Item,
) -> Result<Atomic, Failure>
    ensures value { (optional : Bool) (forest later : PlainForest) → IfOk result (λ r. cast_items schemas.now kind.now optional (item_in later item.now ∷ []) forest ≡ gives (atom r ∷ []) forest) }
    ensures failed { (optional : Bool) (forest later : PlainForest) → IfErr result (λ e. FailsSo e (cast_items schemas.now kind.now optional (item_in later item.now ∷ []) forest)) }
{
    match item {
        Item::Atom(value) => cast_of_atom(alloc, schemas, kind, value),
        Item::Node(_) => Err(Failure::Wrong),
    }
}

pub(crate) fn cast_of_atom(
    alloc: Global,
    schemas: &Schemas,
    kind: &TypeName,
    value: &Atomic,
) -> Result<Atomic, Failure>
    ensures value { (forest : PlainForest) → IfOk result (λ r. cast_outcome (cast_of schemas.now value.now kind.now) forest ≡ gives (atom r ∷ []) forest) }
    ensures failed { (forest : PlainForest) → IfErr result (λ e. FailsSo e (cast_outcome (cast_of schemas.now value.now kind.now) forest)) }
{
    match gx_atomic::cast(alloc, schemas, value, kind) {
        Ok(atomic) => Ok(atomic),
        Err(error) => Err(cast_failure(error)),
    }
}

fn castability(
    alloc: Global,
    schemas: &Schemas,
    kind: &TypeName,
    item: &Item,
) -> Result<Atomic, Failure>
    ensures value { (optional : Bool) (forest later : PlainForest) → IfOk result (λ a. castable_items schemas.now kind.now optional (item_in later item.now ∷ []) forest ≡ gives (atom a ∷ []) forest) }
    ensures failed { (optional : Bool) (forest later : PlainForest) → IfErr result (λ e. FailsSo e (castable_items schemas.now kind.now optional (item_in later item.now ∷ []) forest)) }
{
    match item {
        Item::Atom(value) => match castability_of_atom(alloc, schemas, kind, value) {
            Ok(atomic) => Ok(atomic),
            Err(failure) => Err(failure),
        },
        Item::Node(_) => Err(Failure::Wrong),
    }
}

fn castability_of_atom(
    alloc: Global,
    schemas: &Schemas,
    kind: &TypeName,
    value: &Atomic,
) -> Result<Atomic, Failure>
    ensures value { IfOk result (λ a. a ≡ truth_atom (is_ok (cast_of schemas.now value.now kind.now))) }
    ensures failed { IfErr result (λ e. e ≡ Memory) }
{
    match gx_atomic::cast(alloc, schemas, value, kind) {
        Ok(given) => Ok(with_cast(given)),
        Err(error) => without_cast(error),
    }
}

// What is said of a cast that gives a value.
fn with_cast(_given: Atomic) -> Atomic
    ensures { result ≡ truth_atom true }
{
    truth_atom(true)
}

// What is said of a cast that fails.
fn without_cast(error: CastError) -> Result<Atomic, Failure>
    ensures value { (expected : Result Atomic CastError) → Casts (Err error) expected → IfOk result (λ a. a ≡ truth_atom (is_ok expected)) }
    ensures failed { IfErr result (λ e. e ≡ Memory) }
{
    match error.code() {
        Some(_) => Ok(truth_atom(false)),
        None => Err(Failure::Memory),
    }
}
