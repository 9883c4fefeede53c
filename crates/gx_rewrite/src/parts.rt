// Lists of a few parts.

ghost use Rattle.std.specs.Prelude.{◌≡◌, ◌∷◌, [], IfOk};

use std::alloc::{AllocError, Global};

pub(crate) fn one<T: Drop>(alloc: Global, part: T) -> Result<Vec<T>, AllocError>
    ensures { IfOk result (λ parts. parts.items ≡ part ∷ []) }
{
    let mut parts = Vec::new(alloc);
    parts.push(part)?;
    Ok(parts)
}

pub(crate) fn two<T: Drop>(alloc: Global, first: T, second: T) -> Result<Vec<T>, AllocError>
    ensures { IfOk result (λ parts. parts.items ≡ first ∷ second ∷ []) }
{
    let mut parts = Vec::new(alloc);
    parts.push(first)?;
    parts.push(second)?;
    Ok(parts)
}

pub(crate) fn three<T: Drop>(
    alloc: Global,
    first: T,
    second: T,
    third: T,
) -> Result<Vec<T>, AllocError>
    ensures { IfOk result (λ parts. parts.items ≡ first ∷ second ∷ third ∷ []) }
{
    let mut parts = Vec::new(alloc);
    parts.push(first)?;
    parts.push(second)?;
    parts.push(third)?;
    Ok(parts)
}
