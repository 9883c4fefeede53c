// The transitions of a type over a list of shapes, which are kept as they are found.

ghost use Rattle.std.specs.Prelude.{◌≡◌, ◌<◌, ◌⊎◌, ◌&&◌, ℕ, false, length, slice_index_or, IfOk, OnOk};
ghost use Rattle.gx_include_takes.specs.Bits.{has_bit};
ghost use Rattle.gx_include_takes.specs.Features.{accepts, is_read};
ghost use Rattle.gx_include_takes.specs.Following.{AreComing};
ghost use Rattle.gx_include_positions.specs.Step.{all_tests};
ghost use Rattle.gx_include_takes.specs.Transitions.{places_at, AreTransitions, AreMasks, AreNumberedAlike, IsAnew};

use crate::bits::intersect;
use crate::feature::mask_of;
use crate::following::places_coming;
use crate::reading::{Feature, Reading, Symbol};
use gx_types::schemas::Schemas;
use gx_types::sequence_type::Ty;
use indexmap::{IndexMap, IndexSet};
use std::alloc::{AllocError, Global};

// So many targets are kept at most, and states and masks with so many words in all but for the last ones.
const TARGET_LIMIT: usize = 65_536;

const WORD_LIMIT: usize = 4_194_304;

// The sets of places that were come to, by number, the number of the next one for each symbol that was read in one of them, and
// for each feature the positions whose item type accepts it.
#[derive(Drop)]
pub struct Transitions<'a> {
    pub states: IndexSet<Vec<u64>>,
    pub targets: IndexMap<Reading<'a>, usize>,
    pub masks: IndexMap<Feature<'a>, Vec<u64>>,
}

impl<'a> Transitions<'a> {
    // One state, of these places, with the number 0.
    pub(crate) fn anew(alloc: Global, places: Vec<u64>) -> Result<Transitions<'a>, AllocError>
        ensures { IfOk result (λ t. IsAnew places.items t.states.keys t.targets t.masks) }
    {
        let mut states = IndexSet::new(alloc);
        states.insert(places)?;
        Ok(Transitions {
            states,
            targets: IndexMap::new(alloc),
            masks: IndexMap::new(alloc),
        })
    }

    // The places of a state.
    pub(crate) fn places(&self, state: usize) -> &[u64]
        requires { state < length self.now.states.keys }
        ensures { result.now ≡ places_at self.now.states.keys state }
    {
        self.states[state].as_slice()
    }

    // The state that a symbol leads to from a state.
    pub(crate) fn next(
        &mut self,
        alloc: Global,
        schemas: &Schemas,
        t: &Ty,
        rows: &[Vec<u64>],
        state: usize,
        symbol: Symbol<'a>,
    ) -> Result<usize, AllocError>
        requires kept { AreTransitions t.now rows.now schemas.now self.old.states.keys self.old.targets }
        requires masks { AreMasks t.now schemas.now self.old.masks }
        requires within { state < length self.old.states.keys }
        ensures kept { OnOk result (AreTransitions t.now rows.now schemas.now self.new.states.keys self.new.targets) }
        ensures masks { OnOk result (AreMasks t.now schemas.now self.new.masks) }
        ensures within { IfOk result (λ next. next < length self.new.states.keys) }
        ensures next { IfOk result (λ next. AreComing t.now rows.now (is_read symbol.entry schemas.now) (places_at self.old.states.keys state) (places_at self.new.states.keys next)) }
    {
        match self.targets.get(&Reading { state, symbol }) {
            Some(next) => Ok(*next),
            None => self.add_next(alloc, schemas, t, rows, state, symbol),
        }
    }

    // The same where the state is not known yet.
    fn add_next(
        &mut self,
        alloc: Global,
        schemas: &Schemas,
        t: &Ty,
        rows: &[Vec<u64>],
        state: usize,
        symbol: Symbol<'a>,
    ) -> Result<usize, AllocError>
        requires kept { AreTransitions t.now rows.now schemas.now self.old.states.keys self.old.targets }
        requires masks { AreMasks t.now schemas.now self.old.masks }
        requires within { state < length self.old.states.keys }
        ensures kept { OnOk result (AreTransitions t.now rows.now schemas.now self.new.states.keys self.new.targets) }
        ensures masks { OnOk result (AreMasks t.now schemas.now self.new.masks) }
        ensures within { IfOk result (λ next. next < length self.new.states.keys) }
        ensures next { IfOk result (λ next. AreComing t.now rows.now (is_read symbol.entry schemas.now) (places_at self.old.states.keys state) (places_at self.new.states.keys next)) }
    {
        let state = self.make_room(alloc, state)?;
        add_masks(alloc, schemas, t, symbol, &mut self.masks)?;
        let places = self.places_behind(alloc, schemas, t, rows, state, symbol)?;
        let next = number_of(&mut self.states, places)?;
        self.targets.insert(Reading { state, symbol }, next)?;
        Ok(next)
    }

    // The places that those of a state come to behind a symbol.
    fn places_behind(
        &self,
        alloc: Global,
        schemas: &Schemas,
        t: &Ty,
        rows: &[Vec<u64>],
        state: usize,
        symbol: Symbol<'a>,
    ) -> Result<Vec<u64>, AllocError>
        requires masks { AreMasks t.now schemas.now self.now.masks }
        requires within { state < length self.now.states.keys }
        ensures { IfOk result (λ places. AreComing t.now rows.now (is_read symbol.entry schemas.now) (places_at self.now.states.keys state) places.items) }
    {
        let mut places = self.places_accepting(alloc, schemas, t, rows, state, symbol.kind)?;
        self.keep_accepting(alloc, schemas, t, symbol.name, &mut places)?;
        Ok(places)
    }

    // The places that may come next behind those of a state and that accept a feature.
    fn places_accepting(
        &self,
        alloc: Global,
        schemas: &Schemas,
        t: &Ty,
        rows: &[Vec<u64>],
        state: usize,
        feature: Feature<'a>,
    ) -> Result<Vec<u64>, AllocError>
        requires masks { AreMasks t.now schemas.now self.now.masks }
        requires within { state < length self.now.states.keys }
        ensures { IfOk result (λ places. AreComing t.now rows.now (accepts feature.entry schemas.now) (places_at self.now.states.keys state) places.items) }
    {
        match self.masks.get(&feature) {
            Some(mask) => {
                let after = places_coming(alloc, rows, mask.as_slice(), self.places(state))?;
                Ok(after)
            }
            None => {
                let mask = mask_of(alloc, schemas, t, feature)?;
                let after = places_coming(alloc, rows, mask.as_slice(), self.places(state))?;
                Ok(after)
            }
        }
    }

    // Keeps those places that accept a feature.
    fn keep_accepting(
        &self,
        alloc: Global,
        schemas: &Schemas,
        t: &Ty,
        feature: Feature<'a>,
        places: &mut Vec<u64>,
    ) -> Result<(), AllocError>
        requires { AreMasks t.now schemas.now self.now.masks }
        ensures { OnOk result ((place : ℕ) → has_bit places.new.items place ≡ has_bit places.old.items place && slice_index_or (all_tests t.now (accepts feature.entry schemas.now)) place false) }
    {
        match self.masks.get(&feature) {
            Some(mask) => intersect(places, mask.as_slice()),
            None => {
                let mask = mask_of(alloc, schemas, t, feature)?;
                intersect(places, mask.as_slice());
            }
        }
        Ok(())
    }

    // The number of a state behind which a target has room: all is given up but that state where there is none.
    fn make_room(&mut self, alloc: Global, state: usize) -> Result<usize, AllocError>
        requires { state < length self.old.states.keys }
        ensures { IfOk result (λ number. ((number ≡ state) × (self.new ≡ self.old)) ⊎ ((number ≡ 0) × IsAnew (places_at self.old.states.keys state) self.new.states.keys self.new.targets self.new.masks)) }
    {
        let kept = self.states.len().saturating_add(self.masks.len());
        let word_count = kept.saturating_mul(self.places(state).len());
        if self.targets.len() < TARGET_LIMIT && word_count < WORD_LIMIT {
            return Ok(state);
        }
        let places = self.places(state).to_vec(alloc)?;
        *self = Transitions::anew(alloc, places)?;
        Ok(0)
    }
}

// Puts the masks of the features of a symbol among those that are kept.
fn add_masks<'a>(
    alloc: Global,
    schemas: &Schemas,
    t: &Ty,
    symbol: Symbol<'a>,
    masks: &mut IndexMap<Feature<'a>, Vec<u64>>,
) -> Result<(), AllocError>
    requires { AreMasks t.now schemas.now masks.old }
    ensures { OnOk result (AreMasks t.now schemas.now masks.new) }
{
    add_mask(alloc, schemas, t, symbol.name, masks)?;
    add_mask(alloc, schemas, t, symbol.kind, masks)
}

// Puts the mask of a feature among those that are kept, unless it is there.
fn add_mask<'a>(
    alloc: Global,
    schemas: &Schemas,
    t: &Ty,
    feature: Feature<'a>,
    masks: &mut IndexMap<Feature<'a>, Vec<u64>>,
) -> Result<(), AllocError>
    requires { AreMasks t.now schemas.now masks.old }
    ensures { OnOk result (AreMasks t.now schemas.now masks.new) }
{
    if masks.contains_key(&feature) {
        return Ok(());
    }
    let mask = mask_of(alloc, schemas, t, feature)?;
    masks.insert(feature, mask)?;
    Ok(())
}

// The number of a state, which is put behind the others where it is new.
fn number_of(states: &mut IndexSet<Vec<u64>>, places: Vec<u64>) -> Result<usize, AllocError>
    ensures kept { OnOk result (AreNumberedAlike states.old.keys states.new.keys) }
    ensures within { IfOk result (λ number. number < length states.new.keys) }
    ensures number { IfOk result (λ number. places_at states.new.keys number ≡ places.items) }
{
    let (number, _) = states.insert_full(places)?;
    Ok(number)
}
