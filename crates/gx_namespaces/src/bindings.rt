// Prefixes and the URIs that they are bound to.

ghost use Rattle.gx_tree.specs.Binding.{bound_to, outermost_scope};
ghost use Rattle.std.specs.Prelude.{◌≡◌, ◌∷◌, [], ◌++◌, ◌-◌, ◌^◌, ◌<◌, take, length, option_copied, IfOk, OnOk, OnErr};

use gx_base::text::Text;
use std::alloc::{AllocError, Global};
use std::collections::BTreeMap;
use std::marker::Model;

// A prefix with its URI, and the URI that the bindings before it give the prefix.
#[derive(Drop)]
struct Bound {
    prefix: Text,
    uri: Text,
    hidden: Option<Text>,
}

/// Bindings one after another, with an index. The last one of a prefix counts. The empty prefix stands for the default
/// namespace.
#[derive(Drop)]
pub struct Bindings {
    all: Vec<Bound>,
    last: BTreeMap<Text, Text>,
}

impl Model for Bindings {
    ghost use Rattle.std.specs.Prelude.{List};
    ghost use Rattle.gx_tree.specs.Binding.{Binding};

    ghost Value = { List Binding };

    ghost use Rattle.gx_namespaces.specs.BindingIndex.{bindings_kept, HasIndex};

    ghost view = { bindings_kept };

    ghost invariant = { HasIndex };
}

impl Bindings {
    /// No bindings.
    pub fn new(alloc: Global) -> Bindings
        ensures { result ≡ [] }
    {
        Bindings {
            all: Vec::new(alloc),
            last: BTreeMap::new(alloc),
        }
    }

    /// The bindings in front of the root, where a name without a prefix is in no namespace.
    pub fn outermost(alloc: Global) -> Result<Bindings, AllocError>
        ensures { IfOk result (λ b. b ≡ outermost_scope) }
    {
        let mut bindings = Bindings::new(alloc);
        let prefix = Text::empty(alloc)?;
        let uri = Text::empty(alloc)?;
        bindings.push(&prefix, &uri)?;
        Ok(bindings)
    }

    /// How many bindings there are.
    pub fn len(&self) -> usize
        ensures len { result ≡ length self.now }
        ensures small { result < 2 ^ 63 }
    {
        self.all.len()
    }

    /// The URI that the last binding of a prefix gives it.
    pub fn bound_to(&self, prefix: &Text) -> Option<&Text>
        ensures { option_copied result ≡ bound_to self.now prefix.now }
    {
        self.last.get(prefix)
    }

    /// Adds a binding. An `Err` leaves the bindings as they were.
    pub fn push(&mut self, prefix: &Text, uri: &Text) -> Result<(), AllocError>
        ensures ok { OnOk result (self.new ≡ self.old ++ ((prefix.now, uri.now) ∷ [])) }
        ensures err { OnErr result (self.new ≡ self.old) }
    {
        let key = prefix.clone()?;
        let prefix = prefix.clone()?;
        let last_uri = uri.clone()?;
        let uri = uri.clone()?;
        // Room is made first, so that nothing fails once the index has changed.
        self.all.reserve(1)?;
        let hidden = self.last.insert(key, last_uri)?;
        self.all.push(Bound {
            prefix,
            uri,
            hidden,
        })?;
        Ok(())
    }

    // Takes the last binding away, so that what it hid counts again.
    fn pop(&mut self)
        ensures { self.new ≡ take (length self.old - 1) self.old }
    {
        let Some(bound) = self.all.pop() else {
            return;
        };
        let Bound {
            prefix,
            uri: _,
            hidden,
        } = bound;
        match hidden {
            Some(uri) => {
                // The index has the prefix, so this needs no memory.
                let _ = self.last.insert(prefix, uri);
            }
            None => {
                self.last.remove(&prefix);
            }
        }
    }

    /// Takes all bindings away but the first `len`.
    pub fn truncate(&mut self, len: usize)
        ensures { self.new ≡ take len self.old }
    {
        while self.len() > len {
            self.pop();
        }
    }
}
