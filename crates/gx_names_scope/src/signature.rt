// Functions by name and number of parameters.

ghost use Rattle.std.specs.Prelude.{◌≡◌, ◌++◌};
ghost use Rattle.std.specs.Str.{encode_utf8_all};
ghost use Rattle.std.specs.Cmp.Rules.{comparing, hashing};
ghost use Rattle.std.specs.Hash as fed;
ghost use Rattle.std.proofs.Common.{rules};

use gx_base::name::SharedName;
use std::alloc::AllocError;
use std::hash::{Hash, Hasher};

/// What tells declared functions apart: the name, and the number of parameters (XQuery 1.0, section 4.15).
#[derive(Drop)]
pub struct Signature {
    pub name: SharedName,
    pub arity: usize,
}

impl Clone for Signature {
    ghost is_clone = { λ signature copy. copy ≡ signature };

    fn clone(&self) -> Result<Signature, AllocError> {
        Ok(Signature {
            name: self.name.clone()?,
            arity: self.arity,
        })
    }
}

impl PartialEq for Signature {
    ghost use Rattle.std.specs.Cmp.Rules.{comparing};
    ghost use Rattle.std.proofs.Common.{rules};
    ghost use Rattle.gx_names_scope.specs.Signature.{same_signature};

    ghost eq = { same_signature };

    ghost laws = { Prim.search (comparing, rules) };

    fn eq(&self, other: &Signature) -> bool {
        self.name == other.name && self.arity == other.arity
    }
}

impl Eq for Signature {
    ghost laws = { Prim.search (comparing, rules) };
}

// Overloads of one name share a hash: each needs another number of parameters.
impl Hash for Signature {
    ghost hash_input = { λ s. fed.str (encode_utf8_all s.name.uri) ++ fed.str (encode_utf8_all s.name.local) };

    ghost respects_eq = { Prim.search (hashing, rules) };

    fn hash<H: Hasher>(&self, state: &mut H) {
        self.name.hash(state);
    }
}
