// Operands at hand.

ghost use Rattle.std.specs.Prelude.{◌≡◌, ◌∷◌, [], ℕ, true, false, List, map, IfOk, IfSome, Some};
ghost use Rattle.std.specs.List.{list_any};
ghost use Rattle.gx_types.specs.SchemaSet.{SchemaSet};
ghost use Rattle.gx_model.specs.Atomization.{atomized};
ghost use Rattle.gx_model.specs.Forest.{Forest};
ghost use Rattle.gx_model.specs.Growth.{Extends};
ghost use Rattle.gx_model.specs.Item.{node as a_node, atoms};
ghost use Rattle.gx_model.specs.TypedValue.{untyped_atomic, untyped_value, value_at_type};
ghost use Rattle.gx_core.specs.declared.operator.Operator.TheVariants as operators;
ghost use Rattle.gx_core.specs.Bindings.{look_up};
ghost use Rattle.gx_core.specs.Outcome.{gives, given};
ghost use Rattle.gx_core.specs.Meaning.{CallOutcomes, denoted};
ghost use Rattle.gx_joins.specs.JoinedMeaning.{joined_meaning as joined};
ghost use Rattle.gx_core.specs.Paths.{is_node, stepped as step_meaning};
ghost use Rattle.gx_nodes.specs.Entries.{place_of_number};
ghost use Rattle.gx_store.specs.Items.{items_in};
ghost use Rattle.gx_store.specs.Places.{node_places};
ghost use Rattle.gx_machine.specs.BoundItems.{hand_items};
ghost use Rattle.gx_machine.specs.StepPaths.{IsStepFrom};
ghost use Rattle.gx_machine.specs.Resume.{context_with, items_of};

use crate::locals::Locals;
use crate::operand::{any_node, only_node};
use gx_base::text::Text;
use gx_base::type_name::{Builtin, TypeName};
use gx_core::expression::Form;
use gx_facets::{AtomValue, Atomic};
use gx_plan::plan::PlanExpr;
use gx_store::item::Item;
use gx_store::number::NodeId;
use gx_store::store::Store;
use gx_types::schemas::Schemas;
use gx_types::step::{Axis, Test};
use std::alloc::AllocError;
use std::slice;

// A value that takes no memory: one item, or what is there already.
pub(crate) enum AtHand<'s> {
    One(Item),
    There(&'s [Item]),
}

impl Drop for AtHand<'_> {
    fn drop(self) {
        match self {
            AtHand::One(_item) => {}
            AtHand::There(_items) => {}
        }
    }
}

impl AtHand<'_> {
    pub(crate) fn as_slice(&self) -> &[Item]
        ensures { (later : Forest) → items_in later result.now ≡ hand_items later self.now }
    {
        match self {
            AtHand::One(item) => slice::from_ref(item),
            AtHand::There(items) => items,
        }
    }
}

// The value of an expression that is at hand, with or without atomization: of a literal, a variable, the empty sequence, or a step
// from a variable's node.
pub(crate) fn at_hand<'s>(
    schemas: &Schemas,
    store: &Store,
    scope: &'s Locals<'_>,
    expression: &PlanExpr,
) -> Result<Option<AtHand<'s>>, AllocError>
    ensures { (calls : CallOutcomes) (later : Forest) → Extends store.now later → IfOk result (λ found. IfSome found (λ hand. joined (context_with schemas.now calls) expression.now (items_of later scope.now) store.now ≡ gives (hand_items later hand) store.now)) }
{
    match &expression.form {
        Form::DataOf(operand) => atoms_at_hand(schemas, store, scope, operand),
        _ => value_at_hand(schemas, store, scope, expression),
    }
}

// The atomization of an operand that is one node, or atomic values.
fn atoms_at_hand<'s>(
    schemas: &Schemas,
    store: &Store,
    scope: &'s Locals<'_>,
    operand: &PlanExpr,
) -> Result<Option<AtHand<'s>>, AllocError>
    ensures { (calls : CallOutcomes) (later : Forest) → Extends store.now later → IfOk result (λ found. IfSome found (λ hand.
        denoted (context_with schemas.now calls) operators.DataOf (joined (context_with schemas.now calls) operand.now ∷ []) (items_of later scope.now) store.now ≡ gives (hand_items later hand) store.now)) }
{
    let Some(hand) = value_at_hand(schemas, store, scope, operand)? else {
        return Ok(None);
    };
    match only_node(hand.as_slice()) {
        Some(node) => {
            drop(hand);
            typed_at_hand(schemas, store, node)
        }
        None => Ok(atoms_alone(hand)),
    }
}

// A value at hand, where no item is a node.
fn atoms_alone(hand: AtHand<'_>) -> Option<AtHand<'_>>
    ensures alone { (later : Forest) → IfSome result (λ alone. list_any is_node (hand_items later alone) ≡ false) }
    ensures same { (later : Forest) → IfSome result (λ alone. hand_items later alone ≡ hand_items later hand.entry) }
{
    if any_node(hand.as_slice()) {
        drop(hand);
        return None;
    }
    Some(hand)
}

// The typed value of a node, where it is at most one atomic value: that of an untyped node takes no list.
fn typed_at_hand<'s>(
    schemas: &Schemas,
    store: &Store,
    node: NodeId,
) -> Result<Option<AtHand<'s>>, AllocError>
    ensures { (later : Forest) → Extends store.now later → IfOk result (λ found. IfSome found (λ hand.
        atomized schemas.now store.now (a_node (place_of_number later node.number) ∷ []) ≡ Some (hand_items later hand))) }
{
    if let Some(kind) = store.annotation(node) {
        if is_untyped(kind) {
            let text = store.string_value(node)?;
            return Ok(Some(AtHand::One(Item::Atom(untyped_atom(text)))));
        }
    }
    match store.typed_value(schemas, node)? {
        Some(values) => Ok(one_at_hand(values)),
        None => Ok(None),
    }
}

// Whether the typed value of nodes of a type is their string value.
fn is_untyped(kind: &TypeName) -> bool
    ensures { (schemas : SchemaSet) (string : List ℕ) → result ≡ true → value_at_type schemas kind.now string ≡ untyped_value string }
{
    match kind {
        TypeName::Builtin(Builtin::Untyped) => true,
        TypeName::Builtin(Builtin::UntypedAtomic) => true,
        _ => false,
    }
}

fn untyped_atom(text: Text) -> Atomic
    ensures { result ≡ untyped_atomic text }
{
    Atomic {
        value: AtomValue::Untyped(text),
        kind: TypeName::Builtin(Builtin::UntypedAtomic),
    }
}

fn one_at_hand<'s>(values: Vec<Atomic>) -> Option<AtHand<'s>>
    ensures { (later : Forest) → IfSome result (λ hand. atoms values.items ≡ hand_items later hand) }
{
    let mut values = values;
    let last = values.pop();
    if !values.is_empty() {
        return None;
    }
    match last {
        Some(value) => Some(AtHand::One(Item::Atom(value))),
        None => Some(AtHand::There(&[])),
    }
}

fn value_at_hand<'s>(
    schemas: &Schemas,
    store: &Store,
    scope: &'s Locals<'_>,
    expression: &PlanExpr,
) -> Result<Option<AtHand<'s>>, AllocError>
    ensures { (calls : CallOutcomes) (later : Forest) → Extends store.now later → IfOk result (λ found. IfSome found (λ hand. joined (context_with schemas.now calls) expression.now (items_of later scope.now) store.now ≡ gives (hand_items later hand) store.now)) }
{
    match &expression.form {
        Form::Lit(value) => Ok(Some(AtHand::One(Item::Atom(value.clone()?)))),
        Form::Var(number) => match scope.find(*number) {
            Some(bound) => Ok(Some(AtHand::There(bound.as_slice()))),
            None => Ok(None),
        },
        Form::Empty => Ok(Some(AtHand::There(&[]))),
        Form::Step(axis, test, number) => {
            step_at_hand(schemas, store, scope, *axis, test, *number)
        }
        Form::Order(path) => match step_path(path) {
            Some((number, axis, test)) => step_at_hand(schemas, store, scope, axis, test, number),
            None => Ok(None),
        },
        _ => Ok(None),
    }
}

// The node of a step from a variable's node, where that is at most one, on an axis on which there are few.
fn step_at_hand<'s>(
    schemas: &Schemas,
    store: &Store,
    scope: &Locals<'_>,
    axis: Axis,
    test: &Test,
    number: u32,
) -> Result<Option<AtHand<'s>>, AllocError>
    ensures { (later : Forest) → Extends store.now later → IfOk result (λ found. IfSome found (λ hand.
        given (look_up (items_of later scope.now) number) (λ xs. step_meaning schemas.now axis test.now xs store.now) ≡ gives (hand_items later hand) store.now)) }
{
    if !matches!(axis, Axis::Attribute | Axis::SelfAxis | Axis::Parent) {
        return Ok(None);
    }
    let Some(bound) = scope.find(number) else {
        return Ok(None);
    };
    let Some(node) = only_node(bound.as_slice()) else {
        return Ok(None);
    };
    let found = store.on_axis(schemas, node, axis, test)?;
    Ok(node_at_hand(found))
}

fn node_at_hand<'s>(nodes: Vec<NodeId>) -> Option<AtHand<'s>>
    ensures { (later : Forest) → IfSome result (λ hand. map a_node (node_places later nodes.items) ≡ hand_items later hand) }
{
    let mut nodes = nodes;
    let last = nodes.pop();
    if !nodes.is_empty() {
        return None;
    }
    match last {
        Some(node) => Some(AtHand::One(Item::Node(node))),
        None => Some(AtHand::There(&[])),
    }
}

// The variable, the axis and the test of a path of one step from a variable, as `$v/@name`.
fn step_path(path: &PlanExpr) -> Option<(u32, Axis, &Test)>
    ensures { IfSome result (λ asked. IsStepFrom asked.0 asked.1 asked.2.now path.now) }
{
    let Form::For(binder, position, source, step) = &path.form else {
        return None;
    };
    let Form::Nodes(operand) = &source.form else {
        return None;
    };
    let Form::Var(number) = &operand.form else {
        return None;
    };
    let Form::Step(axis, test, from) = &step.form else {
        return None;
    };
    if *position != 0 || *from != binder.variable {
        return None;
    }
    Some((*number, *axis, test))
}
