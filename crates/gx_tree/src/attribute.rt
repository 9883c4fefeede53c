// Attributes.
ghost use Rattle.std.specs.Prelude.{◌≡◌, IfOk};
ghost use Rattle.gx_tree.specs.Erasure.{erased_attribute};

use gx_base::name::Name;
use gx_base::text::Text;
use gx_base::type_name::{Builtin, TypeName};
use std::alloc::AllocError;

/// An attribute node (XQuery 1.0 and XPath 2.0 Data Model, section 6.3).
pub struct Attribute {
    pub name: Name,
    pub kind: TypeName,
    pub value: Text,
}

impl Drop for Attribute {
    fn drop(self) {
        let Attribute {
            name: _name,
            kind: _kind,
            value: _value,
        } = self;
    }
}

impl Clone for Attribute {
    ghost is_clone = { λ a copy. copy ≡ a };

    fn clone(&self) -> Result<Attribute, AllocError> {
        Ok(Attribute {
            name: self.name.clone()?,
            kind: self.kind.clone()?,
            value: self.value.clone()?,
        })
    }
}

impl Attribute {
    /// The attribute with the type xs:untypedAtomic.
    pub fn erase(&self) -> Result<Attribute, AllocError>
        ensures { IfOk result (λ copy. copy ≡ erased_attribute self.now) }
    {
        Ok(Attribute {
            name: self.name.clone()?,
            kind: TypeName::Builtin(Builtin::UntypedAtomic),
            value: self.value.clone()?,
        })
    }
}
