// An expanded name with the prefix that it was written with.

ghost use Rattle.std.specs.Prelude.{◌≡◌, ◌++◌, IfOk};
ghost use Rattle.std.specs.Str.{encode_utf8_all};
ghost use Rattle.std.specs.Cmp.{partial_order_from_own_ties};
ghost use Rattle.std.specs.Cmp.Rules.{comparing, hashing};
ghost use Rattle.std.specs.Ordering.{as_partial_cmp};
ghost use Rattle.std.specs.Hash as fed;
ghost use Rattle.std.proofs.Common.{rules};

use crate::text::Text;
use std::alloc::{AllocError, Global};
use std::cmp::Ordering;
use std::fmt;
use std::hash::{Hash, Hasher};
use std::marker::Model;
use std::rc::Rc;

/// An expanded QName (Namespaces in XML 1.0, section 2.1; XQuery 1.0, section 2.1). `uri` is empty where the name is in
/// no namespace, and `prefix` where it was written without one. Two names are equal where their URIs and local parts
/// are: equality, order and hash do not look at the prefix.
#[derive(Debug)]
pub struct Name {
    pub uri: Text,
    pub prefix: Text,
    pub local: Text,
}

impl Drop for Name {
    fn drop(self) {
        let Name {
            uri: _uri,
            prefix: _prefix,
            local: _local,
        } = self;
    }
}

impl Clone for Name {
    ghost is_clone = { λ name copy. copy ≡ name };

    fn clone(&self) -> Result<Name, AllocError> {
        Ok(Name {
            uri: self.uri.clone()?,
            prefix: self.prefix.clone()?,
            local: self.local.clone()?,
        })
    }
}

impl PartialEq for Name {
    ghost use Rattle.std.specs.Cmp.Rules.{comparing};
    ghost use Rattle.std.proofs.Common.{rules};
    ghost use Rattle.gx_base.specs.Name.{same_name};

    ghost eq = { same_name };

    ghost laws = { Prim.search (comparing, rules) };

    fn eq(&self, other: &Name) -> bool {
        self.local == other.local && self.uri == other.uri
    }
}

impl Eq for Name {
    ghost laws = { Prim.search (comparing, rules) };
}

impl Ord for Name {
    ghost use Rattle.std.specs.Cmp.Rules.{comparing};
    ghost use Rattle.std.proofs.Common.{rules};
    ghost use Rattle.gx_base.specs.Name.{name_cmp};

    ghost cmp = { name_cmp };

    ghost total = { Prim.search (comparing, rules) };

    ghost matches_partial_cmp = { Prim.search (comparing, rules) };

    ghost matches_eq = { Prim.search (comparing, rules) };

    fn cmp(&self, other: &Name) -> Ordering {
        self.uri.cmp(&other.uri).then(self.local.cmp(&other.local))
    }
}

impl PartialOrd for Name {
    ghost use Rattle.std.specs.Cmp.{partial_order_from_own_ties};
    ghost use Rattle.std.specs.Cmp.Rules.{comparing};
    ghost use Rattle.std.specs.Ordering.{as_partial_cmp};
    ghost use Rattle.std.proofs.Common.{rules};
    ghost use Rattle.gx_base.specs.Name.{name_cmp};

    ghost partial_cmp = { as_partial_cmp name_cmp };

    ghost laws = { partial_order_from_own_ties (Prim.search (comparing, rules)) (Prim.search (comparing, rules)) };

    fn partial_cmp(&self, other: &Name) -> Option<Ordering> {
        Some(self.cmp(other))
    }
}

impl Hash for Name {
    ghost hash_input = { λ n. fed.str (encode_utf8_all n.uri) ++ fed.str (encode_utf8_all n.local) };

    ghost respects_eq = { Prim.search (hashing, rules) };

    fn hash<H: Hasher>(&self, state: &mut H) {
        self.uri.hash(state);
        self.local.hash(state);
    }
}

/// A name that its copies share: copying it takes no memory.
pub struct SharedName {
    shared: Rc<Name>,
}

impl Model for SharedName {
    ghost use Rattle.gx_base.specs.declared.name.Name.{Name};

    ghost Value = { Name };

    ghost view = { λ n. n.shared.value };
}

impl Drop for SharedName {
    fn drop(self) {
        let SharedName { shared: _shared } = self;
    }
}

impl SharedName {
    /// A name to be shared.
    pub fn new(alloc: Global, name: Name) -> Result<SharedName, AllocError>
        ensures { IfOk result (λ shared. shared ≡ name) }
    {
        Ok(SharedName {
            shared: Rc::new(alloc, name)?,
        })
    }

    /// The name.
    pub fn name(&self) -> &Name
        ensures { result.now ≡ self.now }
    {
        self.shared.as_ref()
    }
}

impl Clone for SharedName {
    ghost is_clone = { λ name copy. copy ≡ name };

    fn clone(&self) -> Result<SharedName, AllocError> {
        Ok(SharedName {
            shared: self.shared.clone()?,
        })
    }
}

impl PartialEq for SharedName {
    ghost use Rattle.std.specs.Cmp.Rules.{comparing};
    ghost use Rattle.std.proofs.Common.{rules};
    ghost use Rattle.gx_base.specs.Name.{same_name};

    ghost eq = { same_name };

    ghost laws = { Prim.search (comparing, rules) };

    fn eq(&self, other: &SharedName) -> bool {
        self.name() == other.name()
    }
}

impl Eq for SharedName {
    ghost laws = { Prim.search (comparing, rules) };
}

impl Ord for SharedName {
    ghost use Rattle.std.specs.Cmp.Rules.{comparing};
    ghost use Rattle.std.proofs.Common.{rules};
    ghost use Rattle.gx_base.specs.Name.{name_cmp};

    ghost cmp = { name_cmp };

    ghost total = { Prim.search (comparing, rules) };

    ghost matches_partial_cmp = { Prim.search (comparing, rules) };

    ghost matches_eq = { Prim.search (comparing, rules) };

    fn cmp(&self, other: &SharedName) -> Ordering {
        self.name().cmp(other.name())
    }
}

impl PartialOrd for SharedName {
    ghost use Rattle.std.specs.Cmp.{partial_order_from_own_ties};
    ghost use Rattle.std.specs.Cmp.Rules.{comparing};
    ghost use Rattle.std.specs.Ordering.{as_partial_cmp};
    ghost use Rattle.std.proofs.Common.{rules};
    ghost use Rattle.gx_base.specs.Name.{name_cmp};

    ghost partial_cmp = { as_partial_cmp name_cmp };

    ghost laws = { partial_order_from_own_ties (Prim.search (comparing, rules)) (Prim.search (comparing, rules)) };

    fn partial_cmp(&self, other: &SharedName) -> Option<Ordering> {
        Some(self.cmp(other))
    }
}

impl Hash for SharedName {
    ghost hash_input = { λ n. fed.str (encode_utf8_all n.uri) ++ fed.str (encode_utf8_all n.local) };

    ghost respects_eq = { Prim.search (hashing, rules) };

    fn hash<H: Hasher>(&self, state: &mut H) {
        self.name().hash(state);
    }
}

impl fmt::Debug for SharedName {
    fn fmt<W: fmt::Write>(&self, f: &mut fmt::Formatter<W>) -> fmt::Result {
        self.name().fmt(f)
    }
}
