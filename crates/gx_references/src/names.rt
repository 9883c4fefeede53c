// The numbers of names.

ghost use Rattle.std.specs.Prelude.{◌≡◌, IfOk};
ghost use Rattle.indexmap.specs.IndexMap.{get};
ghost use Rattle.gx_base.specs.Name.{same_name};
ghost use Rattle.gx_base.specs.declared.name.Name.{Name as NameRecord};
ghost use Rattle.gx_references.specs.Numbers.{first_from};

use gx_base::name::Name;
use indexmap::IndexMap;
use std::alloc::{AllocError, Global};

/// The number of each name in a list, counted from 0; of equal names that of the first.
pub fn numbers(alloc: Global, names: &[Name]) -> Result<IndexMap<Name, usize>, AllocError>
    ensures { IfOk result (λ table. (name : NameRecord) → get same_name table name ≡ first_from 0 names.now name) }
{
    let mut table = IndexMap::new(alloc);
    for number in (0..names.len()).rev() {
        table.insert(names[number].clone()?, number)?;
    }
    Ok(table)
}
