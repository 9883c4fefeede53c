// The first of faults by their places.

ghost use Rattle.std.specs.Prelude.{◌≡◌, OnOk, option_map};
ghost use Rattle.gx_schema.specs.FirstFound.{earlier_found, found_in_definition, found_in_type, is_in_front};

use crate::found::Found;
use gx_base::name::Name;
use gx_base::type_name::TypeName;
use gx_typetext::print::{print_name, print_type_name};
use std::alloc::{AllocError, Global};

/// The earlier of two by place, and the first at one place.
pub fn earlier_found(one: Option<Found>, other: Option<Found>) -> Option<Found>
    ensures { result ≡ earlier_found one other }
{
    match (one, other) {
        (None, other) => other,
        (Some(one), None) => Some(one),
        (Some(one), Some(other)) => {
            if one.place <= other.place {
                Some(one)
            } else {
                Some(other)
            }
        }
    }
}

/// Whether nothing was found, or something behind a place.
pub fn is_in_front(place: u64, found: &Option<Found>) -> bool
    ensures { result ≡ is_in_front place found.now }
{
    match found {
        Some(found) => place < found.place,
        None => true,
    }
}

/// Keeps a fault in a type, if there is one and it stands in front of what was found.
#[tactic(auto, using(crate::proofs::EarlierFound::noted_steps))]
pub fn note_in_type(
    alloc: Global,
    file: u32,
    name: &TypeName,
    place: Option<u64>,
    found: &mut Option<Found>,
) -> Result<(), AllocError>
    ensures { OnOk result (found.new ≡ earlier_found found.old (option_map (found_in_type file name.now) place)) }
{
    let Some(place) = place else {
        return Ok(());
    };
    if is_in_front(place, found) {
        let name = print_type_name(alloc, name)?;
        *found = Some(Found { file, place, name });
    }
    Ok(())
}

/// Keeps a fault in a definition that is none of a type, if there is one and it stands in front of what was found.
#[tactic(auto, using(crate::proofs::EarlierFound::noted_steps))]
pub fn note_in_definition(
    alloc: Global,
    file: u32,
    name: &Name,
    place: Option<u64>,
    found: &mut Option<Found>,
) -> Result<(), AllocError>
    ensures { OnOk result (found.new ≡ earlier_found found.old (option_map (found_in_definition file name.now) place)) }
{
    let Some(place) = place else {
        return Ok(());
    };
    if is_in_front(place, found) {
        let name = print_name(alloc, name)?;
        *found = Some(Found { file, place, name });
    }
    Ok(())
}
