// Declared functions, as calls name them.

ghost use Rattle.std.specs.Prelude.{◌≡◌, IfOk};

use crate::listed::Listed;
use gx_base::name::Name;
use gx_types::sequence_type::Ty;
use std::alloc::{AllocError, Global};

/// A function that the query declares, as a call of it says (XQuery 1.0, section 3.1.5): its number among the functions of the query,
/// counted from 0, its name, the types of its parameters, and that of its result.
pub struct FunctionSignature {
    pub number: u32,
    pub name: Name,
    pub parameters: Listed<Ty>,
    pub result: Ty,
}

impl Drop for FunctionSignature {
    fn drop(self) {
        let FunctionSignature {
            number: _number,
            name: _name,
            parameters: _parameters,
            result: _result,
        } = self;
    }
}

impl FunctionSignature {
    /// The same signature once more.
    pub fn copied(&self, alloc: Global) -> Result<FunctionSignature, AllocError>
        ensures { IfOk result (λ copy. copy ≡ self.now) }
    {
        let parameters = self.parameters.as_slice().to_vec(alloc)?;
        let name = self.name.clone()?;
        let result = self.result.clone()?;
        Ok(FunctionSignature {
            number: self.number,
            name,
            parameters: Listed::from_vec(parameters),
            result,
        })
    }
}
