// The variables in scope of an expression.

ghost use Rattle.std.specs.Prelude.{◌≡◌, ◌∷◌, OnOk, IfSome, Some, drop, option_copied, slice_get};
ghost use Rattle.gx_core.specs.Bindings.{look_up};

use crate::bound::Bound;
use gx_core::scope::Scope;
use std::alloc::{AllocError, Global};
use std::marker::Model;

// The variables that are bound inside an expression or are parameters of its function, and the globals behind them. No expression takes
// the binding of a global away.
#[derive(Drop)]
pub(crate) struct Locals<'a> {
    own: Scope<Bound>,
    globals: &'a Scope<Bound>,
}

impl<'a> Model for Locals<'a> {
    ghost use Rattle.std.specs.Prelude.{List, ℕ, ◌++◌};
    ghost use Rattle.gx_machine.specs.declared.bound.Bound.{Bound};

    ghost Value = { List (ℕ × Bound) };

    ghost view = { λ s. s.own ++ s.globals.now };
}

impl<'a> Locals<'a> {
    // The globals alone.
    pub(crate) fn new(alloc: Global, globals: &'a Scope<Bound>) -> Locals<'a>
        ensures { result ≡ globals.now }
    {
        Locals {
            own: Scope::new(alloc),
            globals,
        }
    }

    // Binds a variable inside the others.
    pub(crate) fn bind(&mut self, variable: u32, bound: Bound) -> Result<(), AllocError>
        ensures { OnOk result (self.new ≡ (variable, bound) ∷ self.old) }
    {
        self.own.bind(variable, bound)
    }

    // Takes the innermost binding away.
    pub(crate) fn unbind(&mut self) -> Result<(), AllocError>
        ensures { OnOk result (self.new ≡ drop 1 self.old) }
    {
        if self.own.at_depth(0).is_none() {
            return Err(AllocError);
        }
        self.own.unbind();
        Ok(())
    }

    // What is bound to a variable, innermost first.
    pub(crate) fn find(&self, variable: u32) -> Option<&Bound>
        ensures { option_copied result ≡ look_up self.now variable }
    {
        match self.own.find(variable) {
            Some(bound) => Some(bound),
            None => self.globals.find(variable),
        }
    }

    // The binding inside which so many stand, if it is no global.
    pub(crate) fn at_depth(&self, depth: usize) -> Option<(u32, &Bound)>
        ensures { IfSome result (λ found. slice_get self.now depth ≡ Some (found.0, found.1.now)) }
    {
        self.own.at_depth(depth)
    }
}
