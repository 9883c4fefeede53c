// Stacks.

ghost use Rattle.std.specs.Prelude.{◌≡◌, [], ◌∷◌, OnOk, OnErr, reverse, option_copied};
ghost use Rattle.std.specs.Option.{MatchOption};
ghost use Rattle.gx_base.specs.Stacked.{first};

use std::alloc::{AllocError, Global};
use std::marker::Model;

/// A stack, which contracts see as a list with the top first.
pub struct Stack<T> {
    items: Vec<T>,
}

impl<T> Model for Stack<T> {
    ghost use Rattle.std.specs.Prelude.{List, reverse};

    ghost Value = { List T };

    ghost view = { λ s. reverse s.items.items };
}

impl<T: Drop> Drop for Stack<T> {
    fn drop(self) {
        let Stack { items: _items } = self;
    }
}

impl<T> Stack<T> {
    /// Nothing.
    pub fn new(alloc: Global) -> Stack<T>
        ensures { result ≡ [] }
    {
        Stack {
            items: Vec::new(alloc),
        }
    }

    /// Puts an item on top.
    pub fn push(&mut self, item: T) -> Result<(), AllocError>
    where
        T: Drop,
        ensures ok { OnOk result (self.new ≡ item ∷ self.old) }
        ensures err { OnErr result (self.new ≡ self.old) }
    {
        self.items.push(item)?;
        Ok(())
    }

    /// Takes the item on top.
    pub fn pop(&mut self) -> Option<T>
        ensures { MatchOption result ((self.old ≡ []) × (self.new ≡ [])) (λ item. self.old ≡ item ∷ self.new) }
    {
        self.items.pop()
    }

    /// The item on top.
    #[tactic(auto, using(crate::proofs::StackLemmas::last_is_first))]
    pub fn top(&self) -> Option<&T>
        ensures { option_copied result ≡ first self.now }
    {
        self.items.last()
    }

    /// All items, the lowest first.
    pub fn into_items(self) -> Vec<T>
        ensures { self ≡ reverse result.items }
    {
        let Stack { items } = self;
        items
    }
}
