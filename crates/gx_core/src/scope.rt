// The variables in scope, each with what is bound to it.

ghost use Rattle.std.specs.Prelude.{◌≡◌, [], ◌∷◌, OnOk, IfSome, None, Some, option_copied};
ghost use Rattle.std.specs.Prelude.{drop, get_or, length, slice_get, ◌<◌, ◌≤◌, ℕ, IsNone};
ghost use Rattle.gx_core.specs.Bindings.{look_up};

use std::alloc::{AllocError, Global};
use std::marker::Model;

#[derive(Drop)]
struct Binding<T> {
    variable: u32,
    hidden: Option<usize>,
    bound: T,
}

/// What is bound to each variable in scope, which contracts see as a list of pairs with the innermost binding first. A
/// variable is found by its number in constant time.
#[derive(Drop)]
pub struct Scope<T> {
    bindings: Vec<Binding<T>>,
    innermost: Vec<Option<usize>>,
}

impl<T> Model for Scope<T> {
    ghost use Rattle.std.specs.Prelude.{List, ℕ, reverse};
    ghost use Rattle.gx_core.specs.Slots.{HasSlots, bound_pairs};

    ghost Value = { List (ℕ × T) };

    ghost view = { λ s. bound_pairs (reverse s.bindings.items) };

    ghost invariant = { λ s. HasSlots s.innermost.items (reverse s.bindings.items) };
}

impl<T> Scope<T> {
    /// No variable.
    pub fn new(alloc: Global) -> Scope<T>
        ensures { result ≡ [] }
    {
        Scope {
            bindings: Vec::new(alloc),
            innermost: Vec::new(alloc),
        }
    }

    /// Binds a variable inside the others.
    pub fn bind(&mut self, variable: u32, bound: T) -> Result<(), AllocError>
    where
        T: Drop,
        ensures { OnOk result (self.new ≡ (variable, bound) ∷ self.old) }
    {
        make_room(&mut self.innermost, variable)?;
        let number = variable as usize;
        let slot = self.bindings.len();
        let hidden = self.innermost[number];
        self.bindings.push(Binding {
            variable,
            hidden,
            bound,
        })?;
        self.innermost[number] = Some(slot);
        Ok(())
    }

    /// Takes the innermost binding away.
    pub fn unbind(&mut self)
    where
        T: Drop,
        ensures { self.new ≡ drop 1 self.old }
    {
        if let Some(ended) = self.bindings.pop() {
            self.innermost[ended.variable as usize] = ended.hidden;
        }
    }

    /// What is bound to a variable, innermost first.
    pub fn find(&self, variable: u32) -> Option<&T>
        ensures { option_copied result ≡ look_up self.now variable }
    {
        let slot = kept_slot(&self.innermost, variable)?;
        Some(&self.bindings[slot].bound)
    }

    /// The binding inside which so many stand, with what is bound there.
    pub fn at_depth(&self, depth: usize) -> Option<(u32, &T)>
        ensures there { IfSome result (λ found. slice_get self.now depth ≡ Some (found.0, found.1.now)) }
        ensures none { IsNone result → length self.now ≤ depth }
    {
        if depth >= self.bindings.len() {
            return None;
        }
        let binding = &self.bindings[self.bindings.len() - 1 - depth];
        Some((binding.variable, &binding.bound))
    }
}

// Room for the slot of a variable.
fn make_room(slots: &mut Vec<Option<usize>>, variable: u32) -> Result<(), AllocError>
    ensures kept { (v : ℕ) → get_or slots.new.items v None ≡ get_or slots.old.items v None }
    ensures room { OnOk result (variable < length slots.new.items) }
{
    let count = variable as usize + 1;
    if slots.len() < count {
        slots.resize(count, None)?;
    }
    Ok(())
}

// The slot that is kept for a variable.
fn kept_slot(slots: &Vec<Option<usize>>, variable: u32) -> Option<usize>
    ensures { result ≡ get_or slots.now.items variable None }
{
    let number = variable as usize;
    if number < slots.len() {
        slots[number]
    } else {
        None
    }
}
