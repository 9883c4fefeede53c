// The cases of a switch.

use crate::listed::Listed;
use gx_types::sequence_type::Ty;

/// A case: the type that a value is of, and the number of the variable that has the value, or 0 where there is none.
pub struct TypeCase {
    pub kind: Ty,
    pub variable: u32,
}

impl Drop for TypeCase {
    fn drop(self) {
        let TypeCase {
            kind: _kind,
            variable: _variable,
        } = self;
    }
}

/// The cases of a switch in their order.
pub type Cases = Listed<TypeCase>;
