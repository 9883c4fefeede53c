// Whether facets admit values.
ghost use Rattle.std.specs.Prelude.{◌≡◌, [], ◌∷◌, length, Option};
ghost use Rattle.std.specs.List.{list_any};
ghost use Rattle.std.specs.Str.{chars};
ghost use Rattle.gx_facets.specs.Value.{order_of};
ghost use Rattle.gx_facets.specs.Admission.{admits_value, admits_items, same_values, values_of, is_equal, is_less, is_greater, is_at_most, is_at_least};
ghost use Rattle.gx_facets.specs.Admission.{meets_enumeration, meets_bounds, meets_lengths, meets_lengths_of_value};
ghost use Rattle.gx_facets.specs.Admission.{meets_min_inclusive, meets_max_inclusive, meets_min_exclusive, meets_max_exclusive, meets_length, meets_min_length, meets_max_length};

use crate::restriction::{AtomValues, Facets};
use crate::{AtomValue, Atomic, compare_values};
use gx_base::text::Text;
use std::cmp::Ordering;

/// Whether each facet holds of the value. A value of another family than a bound or an entry does not meet it; the
/// facets of length say nothing of a boolean or a number.
pub fn admits(facets: &Facets, value: &AtomValue) -> bool
    ensures { result ≡ admits_value facets.now value.now }
{
    is_enumerated(facets.values.as_slice(), value)
        && is_within_bounds(facets, value)
        && has_admitted_length(facets, value)
}

/// Whether each facet holds of the list of items, of which facets of length count the items. Bounds say nothing of it.
pub fn admits_list(facets: &Facets, items: &[Atomic]) -> bool
    ensures { result ≡ admits_items facets.now items.now }
{
    is_list_enumerated(facets.values.as_slice(), items)
        && is_length_admitted(facets, items.len() as u64)
}

fn is_enumerated(entries: &[AtomValues], value: &AtomValue) -> bool
    ensures { result ≡ meets_enumeration entries.now (value.now ∷ []) }
{
    entries.is_empty() || is_among(entries, value)
}

fn is_among(entries: &[AtomValues], value: &AtomValue) -> bool
    ensures { result ≡ list_any (λ entry. same_values entry (value.now ∷ [])) entries.now }
{
    for entry in entries {
        if is_value_alone(entry.as_slice(), value) {
            return true;
        }
    }
    false
}

fn is_value_alone(entry: &[AtomValue], value: &AtomValue) -> bool
    ensures { result ≡ same_values entry.now (value.now ∷ []) }
{
    match entry {
        [only] => is_same(only, value),
        _ => false,
    }
}

fn is_same(a: &AtomValue, b: &AtomValue) -> bool
    ensures { result ≡ is_equal (order_of a.now b.now) }
{
    match compare_values(a, b) {
        Some(Ordering::Equal) => true,
        Some(Ordering::Less) | Some(Ordering::Greater) | None => false,
    }
}

fn is_list_enumerated(entries: &[AtomValues], items: &[Atomic]) -> bool
    ensures { result ≡ meets_enumeration entries.now (values_of items.now) }
{
    entries.is_empty() || is_list_among(entries, items)
}

fn is_list_among(entries: &[AtomValues], items: &[Atomic]) -> bool
    ensures { result ≡ list_any (λ entry. same_values entry (values_of items.now)) entries.now }
{
    for entry in entries {
        if are_values(entry.as_slice(), items) {
            return true;
        }
    }
    false
}

fn are_values(entry: &[AtomValue], items: &[Atomic]) -> bool
    ensures { result ≡ same_values entry.now (values_of items.now) }
{
    if entry.len() != items.len() {
        return false;
    }
    for (i, value) in entry.iter().enumerate() {
        if !is_same(value, &items[i].value) {
            return false;
        }
    }
    true
}

fn is_within_bounds(facets: &Facets, value: &AtomValue) -> bool
    ensures { result ≡ meets_bounds facets.now value.now }
{
    is_not_below(&facets.min_inclusive, value)
        && is_not_above(&facets.max_inclusive, value)
        && is_above(&facets.min_exclusive, value)
        && is_below(&facets.max_exclusive, value)
}

fn is_not_below(bound: &Option<AtomValue>, value: &AtomValue) -> bool
    ensures { result ≡ meets_min_inclusive bound.now value.now }
{
    match bound {
        None => true,
        Some(least) => match compare_values(value, least) {
            Some(Ordering::Equal) | Some(Ordering::Greater) => true,
            Some(Ordering::Less) | None => false,
        },
    }
}

fn is_not_above(bound: &Option<AtomValue>, value: &AtomValue) -> bool
    ensures { result ≡ meets_max_inclusive bound.now value.now }
{
    match bound {
        None => true,
        Some(greatest) => match compare_values(value, greatest) {
            Some(Ordering::Equal) | Some(Ordering::Less) => true,
            Some(Ordering::Greater) | None => false,
        },
    }
}

fn is_above(bound: &Option<AtomValue>, value: &AtomValue) -> bool
    ensures { result ≡ meets_min_exclusive bound.now value.now }
{
    match bound {
        None => true,
        Some(least) => match compare_values(value, least) {
            Some(Ordering::Greater) => true,
            Some(Ordering::Equal) | Some(Ordering::Less) | None => false,
        },
    }
}

fn is_below(bound: &Option<AtomValue>, value: &AtomValue) -> bool
    ensures { result ≡ meets_max_exclusive bound.now value.now }
{
    match bound {
        None => true,
        Some(greatest) => match compare_values(value, greatest) {
            Some(Ordering::Less) => true,
            Some(Ordering::Equal) | Some(Ordering::Greater) | None => false,
        },
    }
}

fn has_admitted_length(facets: &Facets, value: &AtomValue) -> bool
    ensures { result ≡ meets_lengths_of_value facets.now value.now }
{
    match value {
        AtomValue::Untyped(text) | AtomValue::Str(text) => {
            is_length_admitted(facets, character_count(text))
        }
        AtomValue::Truth(_) | AtomValue::Num(_) => true,
    }
}

#[tactic(auto, using(crate::proofs::Texts::chars_of))]
fn character_count(text: &Text) -> u64
    ensures { result ≡ length text.now }
{
    count_characters(text.as_str())
}

fn count_characters(text: &str) -> u64
    ensures { result ≡ length (chars text.now) }
{
    text.chars().count() as u64
}

fn is_length_admitted(facets: &Facets, count: u64) -> bool
    ensures { result ≡ meets_lengths facets.now count }
{
    is_length(facets.length, count)
        && is_not_shorter(facets.min_length, count)
        && is_not_longer(facets.max_length, count)
}

fn is_length(bound: Option<u64>, count: u64) -> bool
    ensures { result ≡ meets_length bound count }
{
    match bound {
        None => true,
        Some(n) => count == n,
    }
}

fn is_not_shorter(bound: Option<u64>, count: u64) -> bool
    ensures { result ≡ meets_min_length bound count }
{
    match bound {
        None => true,
        Some(n) => n <= count,
    }
}

fn is_not_longer(bound: Option<u64>, count: u64) -> bool
    ensures { result ≡ meets_max_length bound count }
{
    match bound {
        None => true,
        Some(n) => count <= n,
    }
}
