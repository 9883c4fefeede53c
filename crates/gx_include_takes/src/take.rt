// What a type takes.

ghost use Rattle.std.specs.Prelude.{◌≡◌, ◌+◌, ◌*◌, ◌/◌, ℕ, IfOk, OnOk, IsTrue, ◌↔◌, [], false, slice_index_or};
ghost use Rattle.gx_types.specs.Takes.{Takes};
ghost use Rattle.gx_types.specs.TypeRules.{positions_of};
ghost use Rattle.gx_include_takes.specs.Bits.{has_bit};
ghost use Rattle.gx_include_takes.specs.Following.{AreFollowing};
ghost use Rattle.gx_include_positions.specs.Step.{single, step_over};
ghost use Rattle.gx_include_positions.specs.Test.{is_taken, IsDecided};
ghost use Rattle.gx_include_positions.specs.Names.{with_names};

use crate::bits::packed;
use crate::feature::symbol_of;
use crate::following::{ends_at_one, following};
use crate::transitions::Transitions;
use gx_base::name::Name;
use gx_include_positions::names::names_of;
use gx_include_positions::step::{behind, ends_at, next_positions, only};
use gx_types::schemas::Schemas;
use gx_types::sequence_type::Ty;
use gx_types::shape::Shape;
use indexmap::IndexSet;
use std::alloc::{AllocError, Global};

// A list of fewer shapes is short for each type.
pub(crate) const SHORT: usize = 32;

/// Whether a type takes a list of shapes (XQuery 1.0 and XPath 2.0 Formal Semantics, section 8.3). The work is linear in the
/// length of the list.
pub fn takes(alloc: Global, schemas: &Schemas, t: &Ty, list: &[Shape]) -> Result<bool, AllocError>
    ensures { IfOk result (λ answer. IsTrue answer ↔ Takes schemas.now t.now list.now) }
{
    if list.len() < SHORT {
        return takes_by_sets(alloc, schemas, t, list);
    }
    let start = only(alloc, 0)?;
    let count = next_positions(alloc, t, start.as_slice())?.len();
    if list.len() < count {
        return takes_by_sets(alloc, schemas, t, list);
    }
    let rows = following(alloc, t, count)?;
    let names = names_of(alloc, t)?;
    let end = takes_by_rows(alloc, schemas, t, rows.as_slice(), &names, list)?;
    Ok(end)
}

// The same for a short list, where a table of the type is not worth its time.
fn takes_by_sets(
    alloc: Global,
    schemas: &Schemas,
    t: &Ty,
    list: &[Shape],
) -> Result<bool, AllocError>
    ensures { IfOk result (λ answer. IsTrue answer ↔ Takes schemas.now t.now list.now) }
{
    let _declarations = schemas.types();
    let mut set = only(alloc, 0)?;
    for shape in list {
        set = behind(alloc, schemas, t, shape, set.as_slice())?;
    }
    Ok(ends_at(t, set.as_slice()))
}

// The same for a long list, with the rows of the positions that may come next and the names that the type asks for.
fn takes_by_rows(
    alloc: Global,
    schemas: &Schemas,
    t: &Ty,
    rows: &[Vec<u64>],
    names: &IndexSet<Name>,
    list: &[Shape],
) -> Result<bool, AllocError>
    requires rows { AreFollowing t.now (((positions_of t.now + 1) / 4 + 1) * 16) rows.now }
    requires names { names.now.keys ≡ with_names [] t.now }
    ensures { IfOk result (λ answer. IsTrue answer ↔ Takes schemas.now t.now list.now) }
{
    let _declarations = schemas.types();
    let mut transitions = Transitions::anew(alloc, start_alone(alloc)?)?;
    let mut state = 0;
    for shape in list {
        let symbol = symbol_of(names, shape);
        state = transitions.next(alloc, schemas, t, rows, state, symbol)?;
    }
    let end = ends_at_one(alloc, t, rows.len() / 4, transitions.places(state))?;
    Ok(end)
}

fn start_alone(alloc: Global) -> Result<Vec<u64>, AllocError>
    ensures { IfOk result (λ places. (place : ℕ) → has_bit places.items place ≡ slice_index_or (single 0) place false) }
{
    let start = only(alloc, 0)?;
    let places = packed(alloc, start.as_slice())?;
    Ok(places)
}
