// Bindings of keys that stand one inside another.

ghost use Rattle.std.specs.Prelude.{◌≡◌, [], ◌∷◌, OnOk, IfOk, drop, option_copied};
ghost use Rattle.gx_resolved.specs.NestedMap.{innermost_value};

use gx_base::stack::Stack;
use indexmap::IndexMap;
use std::alloc::{AllocError, Global};
use std::hash::Hash;
use std::marker::Model;

#[derive(Drop)]
struct Binding<K, V> {
    key: K,
    value: V,
    hidden: Option<V>,
}

/// Bindings of keys to values, which contracts see as a list with the innermost first. A key is looked up in constant time.
#[derive(Drop)]
pub struct NestedMap<K: Eq + Hash, V> {
    innermost: IndexMap<K, Option<V>>,
    bindings: Stack<Binding<K, V>>,
}

impl<K: Eq + Hash, V> Model for NestedMap<K, V> {
    ghost use Rattle.std.specs.Prelude.{List};
    ghost use Rattle.gx_resolved.specs.NestedBindings.{IsIndexOf, pairs};

    ghost Value = { List (K × V) };

    ghost view = { λ m. pairs m.bindings };

    ghost invariant = { λ m. IsIndexOf K.eq m.innermost m.bindings };
}

impl<K: Eq + Hash + Clone + Drop, V: Clone + Drop> NestedMap<K, V> {
    /// No binding.
    pub fn new(alloc: Global) -> NestedMap<K, V>
        ensures { result ≡ [] }
    {
        NestedMap {
            innermost: IndexMap::new(alloc),
            bindings: Stack::new(alloc),
        }
    }

    /// The value of the innermost binding of a key.
    pub fn find(&self, key: &K) -> Option<&V>
        ensures { option_copied result ≡ innermost_value K.eq self.now key.now }
    {
        match self.innermost.get(key) {
            Some(Some(value)) => Some(value),
            _ => None,
        }
    }

    /// Binds a key inside the other bindings.
    pub fn bind(&mut self, key: K, value: V) -> Result<(), AllocError>
        requires keys { (k copy : K) → K.is_clone k copy → copy ≡ k }
        requires values { (v copy : V) → V.is_clone v copy → copy ≡ v }
        ensures { OnOk result (self.new ≡ (key, value) ∷ self.old) }
    {
        let bound = key.clone()?;
        let shown = value.clone()?;
        let hidden = copy_of(self.find(&key))?;
        self.bindings.push(Binding { key, value, hidden })?;
        match self.innermost.insert(bound, Some(shown)) {
            Ok(_replaced) => Ok(()),
            Err(_rejected) => {
                let _undone = self.bindings.pop();
                Err(AllocError)
            }
        }
    }

    /// Takes the innermost binding away.
    pub fn unbind(&mut self) -> Result<(), AllocError>
        requires keys { (k copy : K) → K.is_clone k copy → copy ≡ k }
        requires values { (v copy : V) → V.is_clone v copy → copy ≡ v }
        ensures { OnOk result (self.new ≡ drop 1 self.old) }
    {
        let Some(last) = self.bindings.top() else {
            return Ok(());
        };
        let key = last.key.clone()?;
        let hidden = copy_of(last.hidden.as_ref())?;
        self.innermost.insert(key, hidden)?;
        let _ended = self.bindings.pop();
        Ok(())
    }
}

// A copy of a value, if there is one.
fn copy_of<V: Clone>(value: Option<&V>) -> Result<Option<V>, AllocError>
    requires { (v copy : V) → V.is_clone v copy → copy ≡ v }
    ensures { IfOk result (λ copy. copy ≡ option_copied value.entry) }
{
    match value {
        Some(value) => Ok(Some(value.clone()?)),
        None => Ok(None),
    }
}
