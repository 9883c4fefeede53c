// Declared types with an index by their names.

ghost use Rattle.std.specs.Prelude.{◌≡◌, IfOk, option_copied, slice_get, length};
ghost use Rattle.gx_types.specs.SchemaSet.{declaration_among};
ghost use Rattle.gx_types.specs.TypeIndex.{IsTypeIndexOf};

use crate::declaration::Declared;
use gx_base::type_name::TypeName;
use indexmap::IndexMap;
use std::alloc::{AllocError, Global};
use std::marker::Model;

// The declared types of schemas, which contracts see as a list. `numbers` has for the name of each the number of the first
// declaration of that name.
#[derive(Drop)]
pub(crate) struct DeclaredTypes {
    items: Vec<Declared>,
    numbers: IndexMap<TypeName, usize>,
}

impl Model for DeclaredTypes {
    ghost use Rattle.std.specs.Prelude.{List};
    ghost use Rattle.gx_types.specs.declared.declaration.Declared.{Declared};
    ghost use Rattle.gx_types.specs.contracts.sequence_type.Ty as kinds;
    ghost use Rattle.std.specs.Coded.{codes};
    ghost use Rattle.gx_types.specs.TypeIndex.{IsTypeIndexOf};

    ghost Value = { List Declared };

    ghost coded = { Prim.hlevel (codes, kinds.the_row.coded) };

    ghost view = { λ types. types.items.items };

    ghost invariant = { λ types. IsTypeIndexOf types.items.items types.numbers };
}

impl DeclaredTypes {
    // The types of a vector.
    pub(crate) fn new(alloc: Global, items: Vec<Declared>) -> Result<DeclaredTypes, AllocError>
        ensures { IfOk result (λ types. types ≡ items.items) }
    {
        let numbers = numbers_of(alloc, items.as_slice())?;
        Ok(DeclaredTypes { items, numbers })
    }

    // How many types there are.
    pub(crate) fn count(&self) -> usize
        ensures { result ≡ length self.now }
    {
        self.items.len()
    }

    // The types in their order.
    pub(crate) fn as_slice(&self) -> &[Declared]
        ensures { result.now ≡ self.now }
    {
        self.items.as_slice()
    }

    // The declaration of a type.
    pub(crate) fn declaration(&self, t: &TypeName) -> Option<&Declared>
        ensures { option_copied result ≡ declaration_among self.now t.now }
    {
        match self.numbers.get(t) {
            Some(number) => self.items.get(*number),
            None => None,
        }
    }
}

// The number of the first declaration of each name.
fn numbers_of(alloc: Global, types: &[Declared]) -> Result<IndexMap<TypeName, usize>, AllocError>
    ensures { IfOk result (λ numbers. IsTypeIndexOf types.now numbers) }
{
    let mut numbers = IndexMap::new(alloc);
    for number in (0..types.len()).rev() {
        numbers.insert(types[number].name.clone()?, number)?;
    }
    Ok(numbers)
}
