// The states of a type over lists of shapes, which are kept as they are found.

ghost use Rattle.std.specs.Prelude.{◌≡◌, ◌<◌, ◌↔◌, IfOk, IfSome, IsTrue, length};
ghost use Rattle.gx_types.specs.SchemaSet.{SchemaSet};
ghost use Rattle.gx_types.specs.SequenceType.{SequenceType};
ghost use Rattle.gx_types.specs.Takes.{Takes};
ghost use Rattle.gx_include_takes.specs.Automaton.{shape_keyed, set_at, AreStates, KeepTheirNumbers, IsAutomaton};
ghost use Rattle.gx_include_positions.specs.Step.{step_over, is_end};
ghost use Rattle.gx_include_positions.specs.Test.{is_taken};

use crate::shape_key::{StepKey, is_step_of, key_of};
use gx_include_positions::step::{behind, ends_at, only};
use gx_types::schemas::Schemas;
use gx_types::sequence_type::Ty;
use gx_types::shape::Shape;
use indexmap::{IndexMap, IndexSet};
use std::alloc::{AllocError, Global};

// So many targets are kept at most, and states with so many flags in all, but for those of the last list.
const TARGET_LIMIT: usize = 65_536;

const FLAG_LIMIT: usize = 4_194_304;

// How many slots of steps there are.
const SLOTS: usize = 64;

// A set of the start and the positions of a type, and whether a list of the type may end at a member of it.
#[derive(PartialEq, Eq, Hash, Drop)]
pub struct State {
    pub set: Vec<bool>,
    pub ends: bool,
}

// The states that were come to, by number, with the start alone as the first, and the number of the next one for each shape
// that was read in one of them; and for each slot of steps the place of the target that was asked for last.
#[derive(Drop)]
pub struct Automaton {
    pub states: IndexSet<State>,
    pub targets: IndexMap<StepKey, usize>,
    pub last: Vec<usize>,
}

impl Automaton {
    // The state of the start alone.
    pub(crate) fn new(alloc: Global, t: &Ty) -> Result<Automaton, AllocError>
        ensures { IfOk result (λ a. (schemas : SchemaSet) → IsAutomaton schemas t.now a.states.keys a.targets) }
    {
        let mut states = IndexSet::new(alloc);
        states.insert(state_of(t, only(alloc, 0)?))?;
        Ok(Automaton {
            states,
            targets: IndexMap::new(alloc),
            last: Vec::new(alloc),
        })
    }

    // Whether the type takes a list of shapes.
    pub(crate) fn takes(
        &mut self,
        alloc: Global,
        schemas: &Schemas,
        t: &Ty,
        list: &[Shape],
    ) -> Result<bool, AllocError>
        requires { IsAutomaton schemas.now t.now self.old.states.keys self.old.targets }
        ensures kept { IsAutomaton schemas.now t.now self.new.states.keys self.new.targets }
        ensures answer { IfOk result (λ answer. IsTrue answer ↔ Takes schemas.now t.now list.now) }
    {
        let _declarations = schemas.types();
        self.make_room(alloc, t)?;
        let mut state = 0;
        for shape in list {
            state = self.next(alloc, schemas, t, state, shape)?;
        }
        Ok(self.states[state].ends)
    }

    // The state behind a shape that is read in a state.
    fn next(
        &mut self,
        alloc: Global,
        schemas: &Schemas,
        t: &Ty,
        state: usize,
        shape: &Shape,
    ) -> Result<usize, AllocError>
        requires kept { IsAutomaton schemas.now t.now self.old.states.keys self.old.targets }
        requires within { state < length self.old.states.keys }
        ensures kept { IsAutomaton schemas.now t.now self.new.states.keys self.new.targets }
        ensures within { IfOk result (λ next. next < length self.new.states.keys) }
        ensures next { IfOk result (λ next. set_at self.new.states.keys next ≡ step_over t.now (is_taken schemas.now shape.now) (set_at self.old.states.keys state)) }
    {
        let slot = slot_of(state, shape);
        match self.last_target(slot, state, shape) {
            Some(next) => Ok(next),
            None => self.next_sought(alloc, schemas, t, slot, state, shape),
        }
    }

    // The state behind a shape, where the slot has it.
    fn last_target(&self, slot: usize, state: usize, shape: &Shape) -> Option<usize>
        ensures { (schemas : SchemaSet) (t : SequenceType) → IsAutomaton schemas t self.now.states.keys self.now.targets
            → IfSome result (λ next. (next < length self.now.states.keys) × (set_at self.now.states.keys next ≡ step_over t (is_taken schemas shape.now) (set_at self.now.states.keys state))) }
    {
        let place = *self.last.get(slot)?;
        let (key, next) = self.targets.get_index(place)?;
        if is_step_of(key, state, shape) {
            Some(*next)
        } else {
            None
        }
    }

    // The same, sought among all targets.
    fn next_sought(
        &mut self,
        alloc: Global,
        schemas: &Schemas,
        t: &Ty,
        slot: usize,
        state: usize,
        shape: &Shape,
    ) -> Result<usize, AllocError>
        requires kept { IsAutomaton schemas.now t.now self.old.states.keys self.old.targets }
        requires within { state < length self.old.states.keys }
        ensures kept { IsAutomaton schemas.now t.now self.new.states.keys self.new.targets }
        ensures within { IfOk result (λ next. next < length self.new.states.keys) }
        ensures next { IfOk result (λ next. set_at self.new.states.keys next ≡ step_over t.now (is_taken schemas.now shape.now) (set_at self.old.states.keys state)) }
    {
        let key = StepKey {
            state,
            shape: key_of(shape)?,
        };
        match self.targets.get_full(&key) {
            Some((place, _, next)) => {
                let next = *next;
                remember(&mut self.last, slot, place)?;
                Ok(next)
            }
            None => self.add_next(alloc, schemas, t, key, shape),
        }
    }

    // The same where it is not known yet.
    fn add_next(
        &mut self,
        alloc: Global,
        schemas: &Schemas,
        t: &Ty,
        key: StepKey,
        shape: &Shape,
    ) -> Result<usize, AllocError>
        requires kept { IsAutomaton schemas.now t.now self.old.states.keys self.old.targets }
        requires within { key.state < length self.old.states.keys }
        requires shape { shape_keyed key.shape ≡ shape.now }
        ensures kept { IsAutomaton schemas.now t.now self.new.states.keys self.new.targets }
        ensures within { IfOk result (λ next. next < length self.new.states.keys) }
        ensures next { IfOk result (λ next. set_at self.new.states.keys next ≡ step_over t.now (is_taken schemas.now shape.now) (set_at self.old.states.keys key.state)) }
    {
        let set = self.states[key.state].set.as_slice();
        let set = behind(alloc, schemas, t, shape, set)?;
        let next = number_of(&mut self.states, t, set)?;
        self.targets.insert(key, next)?;
        Ok(next)
    }

    // Gives up all but the start where so much is kept that there is no room for more.
    fn make_room(&mut self, alloc: Global, t: &Ty) -> Result<(), AllocError>
        ensures { (schemas : SchemaSet) → IsAutomaton schemas t.now self.old.states.keys self.old.targets → IsAutomaton schemas t.now self.new.states.keys self.new.targets }
    {
        if self.targets.len() >= TARGET_LIMIT || self.flag_count() >= FLAG_LIMIT {
            *self = Automaton::new(alloc, t)?;
        }
        Ok(())
    }

    // How many flags the states have, at most.
    fn flag_count(&self) -> usize {
        match self.states.last() {
            Some(state) => self.states.len().saturating_mul(state.set.len()),
            None => 0,
        }
    }
}

// The number of the state of a set, which is put behind the others where it is new.
fn number_of(states: &mut IndexSet<State>, t: &Ty, set: Vec<bool>) -> Result<usize, AllocError>
    requires { AreStates t.now states.old.keys }
    ensures states { AreStates t.now states.new.keys }
    ensures alike { KeepTheirNumbers states.old.keys states.new.keys }
    ensures within { IfOk result (λ number. number < length states.new.keys) }
    ensures number { IfOk result (λ number. set_at states.new.keys number ≡ set.items) }
{
    let (number, _) = states.insert_full(state_of(t, set))?;
    Ok(number)
}

// The state of a set.
fn state_of(t: &Ty, set: Vec<bool>) -> State
    ensures set { result.set ≡ set }
    ensures ends { result.ends ≡ is_end t.now set.items }
{
    let ends = ends_at(t, set.as_slice());
    State { set, ends }
}

// The slot of a shape that is read in a state.
fn slot_of(state: usize, shape: &Shape) -> usize {
    match shape {
        Shape::Elem(name, _) => {
            let local = name.local.as_str().as_bytes();
            let first = byte_at(local, 0);
            let last = byte_at(local, local.len().saturating_sub(1));
            (state % SLOTS * 5 + first * 7 + last * 3 + local.len() % SLOTS) % SLOTS
        }
        _ => state % SLOTS,
    }
}

// A byte of a text, 0 behind the last one.
fn byte_at(bytes: &[u8], place: usize) -> usize
    ensures { result < 256 }
{
    match bytes.get(place) {
        Some(byte) => *byte as usize,
        None => 0,
    }
}

// Keeps the place of a slot as the last one.
fn remember(last: &mut Vec<usize>, slot: usize, place: usize) -> Result<(), AllocError> {
    if last.is_empty() {
        last.resize(SLOTS, 0)?;
    }
    if let Some(kept) = last.get_mut(slot) {
        *kept = place;
    }
    Ok(())
}
