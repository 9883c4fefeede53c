// The numbers of types.

ghost use Rattle.std.specs.Prelude.{◌≡◌, ℕ, nat_eq, IfOk};
ghost use Rattle.indexmap.specs.IndexMap.{get};
ghost use Rattle.gx_base.specs.Name.{same_name};
ghost use Rattle.gx_base.specs.declared.name.Name.{Name as NameRecord};
ghost use Rattle.gx_schema.specs.TypeNumbers.{first_type_number, tabled_number, AreTypeNumbers};

use gx_base::name::Name;
use gx_base::type_name::TypeName;
use indexmap::IndexMap;
use std::alloc::{AllocError, Global};

/// The numbers of types by their names, and those of anonymous types by the number that they are named with.
#[derive(Drop)]
pub struct TypeNumbers {
    named: IndexMap<Name, usize>,
    anonymous: IndexMap<u32, usize>,
}

/// The number of each type in a list of their names, counted from 0; of equal names that of the first.
pub fn type_numbers(alloc: Global, names: &[TypeName]) -> Result<TypeNumbers, AllocError>
    ensures { IfOk result (AreTypeNumbers names.now) }
{
    let named = named_numbers(alloc, names)?;
    let anonymous = anonymous_numbers(alloc, names)?;
    Ok(TypeNumbers { named, anonymous })
}

/// The number of a type, if it is one of them.
pub fn number_of(numbers: &TypeNumbers, name: &TypeName) -> Option<usize>
    ensures { result ≡ tabled_number numbers.now name.now }
{
    match name {
        TypeName::Builtin(_) => None,
        TypeName::Named(name) => numbers.named.get(name.name()).copied(),
        TypeName::Anonymous(number) => numbers.anonymous.get(number).copied(),
    }
}

fn named_numbers(alloc: Global, names: &[TypeName]) -> Result<IndexMap<Name, usize>, AllocError>
    ensures { IfOk result (λ table. (name : NameRecord) → get same_name table name ≡ first_type_number names.now (TypeName.Named name)) }
{
    let mut table = IndexMap::new(alloc);
    for number in (0..names.len()).rev() {
        if let TypeName::Named(name) = &names[number] {
            table.insert(name.name().clone()?, number)?;
        }
    }
    Ok(table)
}

fn anonymous_numbers(alloc: Global, names: &[TypeName]) -> Result<IndexMap<u32, usize>, AllocError>
    ensures { IfOk result (λ table. (number : ℕ) → get nat_eq table number ≡ first_type_number names.now (TypeName.Anonymous number)) }
{
    let mut table = IndexMap::new(alloc);
    for number in (0..names.len()).rev() {
        if let TypeName::Anonymous(anonymous) = &names[number] {
            table.insert(*anonymous, number)?;
        }
    }
    Ok(table)
}
