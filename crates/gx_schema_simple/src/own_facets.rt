// The facets that a type has of its own.

ghost use Rattle.std.specs.Prelude.{◌≡◌, ◌∷◌, ◌++◌, ◌||◌, ℕ, true, false, Some, None, IfOk, OnOk, option_map};
ghost use Rattle.std.specs.Option.{option_to_list};
ghost use Rattle.gx_facets.specs.Admission.{is_less, is_greater, values_of};
ghost use Rattle.gx_facets.specs.Value.{order_of};
ghost use Rattle.gx_types.specs.SimpleView.{simple_view};
ghost use Rattle.gx_schema_simple.specs.OwnFacets.{bound_read, entries_read, entry_read, facets_read, greater_length, greater_of, greatest_bound, greatest_length, least_bound, least_length, length_by, length_read, lesser_length, lesser_of, only_value, same_facet_kind, value_read, values_read};

use gx_base::text::Text;
use gx_facets::restriction::{AtomValues, Enumeration};
use gx_facets::{AtomValue, Atomic, Facets, ValueRead, compare_values};
use gx_num::{NumRead, read_int};
use gx_schema_syntax::role::FacetKind;
use gx_schema_syntax::written::WrittenFacet;
use gx_types::simple_type::SimpleType;
use std::alloc::{AllocError, Global};
use std::cmp::Ordering;

// A least and a greatest bound.
#[derive(Drop)]
struct Bounds {
    least: Option<AtomValue>,
    greatest: Option<AtomValue>,
}

// Bounds that are values themselves, and bounds that are none.
#[derive(Drop)]
struct BoundsOfBothKinds {
    inclusive: Bounds,
    exclusive: Bounds,
}

/// The facets that are written over a base (XML Schema 1.0 part 2, section 4.3). What is not the text of a value of the base adds
/// nothing.
pub fn facets_read(
    alloc: Global,
    base: &Option<SimpleType<'_>>,
    facets: &[WrittenFacet],
) -> Result<Facets, AllocError>
    ensures { IfOk result (λ own. own ≡ facets_read (option_map simple_view base.now) facets.now) }
{
    let bounds = bounds_of_both_kinds(alloc, base, facets)?;
    let values = entries(alloc, base, facets)?;
    Ok(Facets {
        values,
        min_inclusive: bounds.inclusive.least,
        max_inclusive: bounds.inclusive.greatest,
        min_exclusive: bounds.exclusive.least,
        max_exclusive: bounds.exclusive.greatest,
        length: None,
        min_length: greatest_length(facets),
        max_length: least_length(facets),
    })
}

fn bounds_of_both_kinds(
    alloc: Global,
    base: &Option<SimpleType<'_>>,
    facets: &[WrittenFacet],
) -> Result<BoundsOfBothKinds, AllocError>
    ensures min_inclusive { IfOk result (λ bounds. bounds.inclusive.least ≡ greatest_bound FacetKind.MinInclusive (option_map simple_view base.now) facets.now) }
    ensures max_inclusive { IfOk result (λ bounds. bounds.inclusive.greatest ≡ least_bound FacetKind.MaxInclusive (option_map simple_view base.now) facets.now) }
    ensures min_exclusive { IfOk result (λ bounds. bounds.exclusive.least ≡ greatest_bound FacetKind.MinExclusive (option_map simple_view base.now) facets.now) }
    ensures max_exclusive { IfOk result (λ bounds. bounds.exclusive.greatest ≡ least_bound FacetKind.MaxExclusive (option_map simple_view base.now) facets.now) }
{
    let inclusive = bounds_read(
        alloc,
        base,
        facets,
        FacetKind::MinInclusive,
        FacetKind::MaxInclusive,
    )?;
    let exclusive = bounds_read(
        alloc,
        base,
        facets,
        FacetKind::MinExclusive,
        FacetKind::MaxExclusive,
    )?;
    Ok(BoundsOfBothKinds {
        inclusive,
        exclusive,
    })
}

fn bounds_read(
    alloc: Global,
    base: &Option<SimpleType<'_>>,
    facets: &[WrittenFacet],
    least: FacetKind,
    greatest: FacetKind,
) -> Result<Bounds, AllocError>
    ensures least { IfOk result (λ bounds. bounds.least ≡ greatest_bound least (option_map simple_view base.now) facets.now) }
    ensures greatest { IfOk result (λ bounds. bounds.greatest ≡ least_bound greatest (option_map simple_view base.now) facets.now) }
{
    let least = greatest_bound(alloc, base, facets, least)?;
    let greatest = least_bound(alloc, base, facets, greatest)?;
    Ok(Bounds { least, greatest })
}

fn greatest_bound(
    alloc: Global,
    base: &Option<SimpleType<'_>>,
    facets: &[WrittenFacet],
    kind: FacetKind,
) -> Result<Option<AtomValue>, AllocError>
    ensures { IfOk result (λ bound. bound ≡ greatest_bound kind (option_map simple_view base.now) facets.now) }
{
    let mut greatest = None;
    for index in (0..facets.len()).rev() {
        greatest = greater_of(bound_read(alloc, base, &facets[index], kind)?, greatest);
    }
    Ok(greatest)
}

fn least_bound(
    alloc: Global,
    base: &Option<SimpleType<'_>>,
    facets: &[WrittenFacet],
    kind: FacetKind,
) -> Result<Option<AtomValue>, AllocError>
    ensures { IfOk result (λ bound. bound ≡ least_bound kind (option_map simple_view base.now) facets.now) }
{
    let mut least = None;
    for index in (0..facets.len()).rev() {
        least = lesser_of(bound_read(alloc, base, &facets[index], kind)?, least);
    }
    Ok(least)
}

fn greater_of(bound: Option<AtomValue>, other: Option<AtomValue>) -> Option<AtomValue>
    ensures { result ≡ greater_of bound other }
{
    match (bound, other) {
        (None, other) => other,
        (Some(value), None) => Some(value),
        (Some(value), Some(other)) => match compare_values(&value, &other) {
            Some(Ordering::Less) => Some(other),
            _ => Some(value),
        },
    }
}

fn lesser_of(bound: Option<AtomValue>, other: Option<AtomValue>) -> Option<AtomValue>
    ensures { result ≡ lesser_of bound other }
{
    match (bound, other) {
        (None, other) => other,
        (Some(value), None) => Some(value),
        (Some(value), Some(other)) => match compare_values(&value, &other) {
            Some(Ordering::Greater) => Some(other),
            _ => Some(value),
        },
    }
}

fn bound_read(
    alloc: Global,
    base: &Option<SimpleType<'_>>,
    facet: &WrittenFacet,
    kind: FacetKind,
) -> Result<Option<AtomValue>, AllocError>
    ensures { IfOk result (λ bound. bound ≡ bound_read kind (option_map simple_view base.now) facet.now) }
{
    if is_same_kind(kind, facet.kind) {
        value_read(alloc, base, &facet.value)
    } else {
        Ok(None)
    }
}

// The one value for which a text stands.
fn value_read(
    alloc: Global,
    base: &Option<SimpleType<'_>>,
    text: &Text,
) -> Result<Option<AtomValue>, AllocError>
    ensures { IfOk result (λ value. value ≡ value_read (option_map simple_view base.now) text.now) }
{
    match values_read(alloc, base, text)? {
        None => Ok(None),
        Some(values) => match values.as_slice() {
            [value] => Ok(Some(value.clone()?)),
            _ => Ok(None),
        },
    }
}

// The values for which a text stands.
fn values_read(
    alloc: Global,
    base: &Option<SimpleType<'_>>,
    text: &Text,
) -> Result<Option<AtomValues>, AllocError>
    ensures { IfOk result (λ values. values ≡ values_read (option_map simple_view base.now) text.now) }
{
    let Some(base) = base else {
        return Ok(None);
    };
    match base.read(alloc, text) {
        Ok(values) => Ok(Some(values_of(alloc, values.as_slice())?)),
        Err(ValueRead::Memory) => Err(AllocError),
        Err(_) => Ok(None),
    }
}

fn values_of(alloc: Global, items: &[Atomic]) -> Result<AtomValues, AllocError>
    ensures { IfOk result (λ values. values ≡ values_of items.now) }
{
    let mut values = Vec::new(alloc);
    for item in items {
        values.push(item.value.clone()?)?;
    }
    Ok(AtomValues::from_vec(values))
}

fn entries(
    alloc: Global,
    base: &Option<SimpleType<'_>>,
    facets: &[WrittenFacet],
) -> Result<Enumeration, AllocError>
    ensures { IfOk result (λ entries. entries ≡ entries_read (option_map simple_view base.now) facets.now) }
{
    let mut entries = Vec::new(alloc);
    for facet in facets {
        if let Some(entry) = entry_read(alloc, base, facet)? {
            entries.push(entry)?;
        }
    }
    Ok(Enumeration::from_vec(entries))
}

fn entry_read(
    alloc: Global,
    base: &Option<SimpleType<'_>>,
    facet: &WrittenFacet,
) -> Result<Option<AtomValues>, AllocError>
    ensures { IfOk result (λ entry. entry ≡ entry_read (option_map simple_view base.now) facet.now) }
{
    if is_same_kind(FacetKind::Enumeration, facet.kind) {
        values_read(alloc, base, &facet.value)
    } else {
        Ok(None)
    }
}

fn greatest_length(facets: &[WrittenFacet]) -> Option<u64>
    ensures { result ≡ greatest_length facets.now }
{
    let mut greatest = None;
    for index in (0..facets.len()).rev() {
        greatest = greater_length(length_read(&facets[index], FacetKind::MinLength), greatest);
    }
    greatest
}

fn least_length(facets: &[WrittenFacet]) -> Option<u64>
    ensures { result ≡ least_length facets.now }
{
    let mut least = None;
    for index in (0..facets.len()).rev() {
        least = lesser_length(length_read(&facets[index], FacetKind::MaxLength), least);
    }
    least
}

fn greater_length(length: Option<u64>, other: Option<u64>) -> Option<u64>
    ensures { result ≡ greater_length length other }
{
    match (length, other) {
        (None, other) => other,
        (Some(n), None) => Some(n),
        (Some(n), Some(other)) => Some(n.max(other)),
    }
}

fn lesser_length(length: Option<u64>, other: Option<u64>) -> Option<u64>
    ensures { result ≡ lesser_length length other }
{
    match (length, other) {
        (None, other) => other,
        (Some(n), None) => Some(n),
        (Some(n), Some(other)) => Some(n.min(other)),
    }
}

fn length_read(facet: &WrittenFacet, kind: FacetKind) -> Option<u64>
    ensures { result ≡ length_read kind facet.now }
{
    if is_same_kind(kind, facet.kind) || is_same_kind(FacetKind::Length, facet.kind) {
        Some(length_by(read_int(facet.value.as_str())))
    } else {
        None
    }
}

fn length_by(read: Result<i128, NumRead>) -> u64
    ensures { result ≡ length_by read }
{
    match read {
        Ok(n) if n < 0 => 0,
        Ok(n) if n <= u64::MAX as i128 => n as u64,
        Ok(_) | Err(NumRead::TooLarge) => u64::MAX,
        Err(NumRead::NotANumber) | Err(NumRead::TooPrecise) => 0,
    }
}

fn is_same_kind(kind: FacetKind, other: FacetKind) -> bool
    ensures { result ≡ same_facet_kind kind other }
{
    match (kind, other) {
        (FacetKind::Enumeration, FacetKind::Enumeration)
        | (FacetKind::MinInclusive, FacetKind::MinInclusive)
        | (FacetKind::MaxInclusive, FacetKind::MaxInclusive)
        | (FacetKind::MinExclusive, FacetKind::MinExclusive)
        | (FacetKind::MaxExclusive, FacetKind::MaxExclusive)
        | (FacetKind::Length, FacetKind::Length)
        | (FacetKind::MinLength, FacetKind::MinLength)
        | (FacetKind::MaxLength, FacetKind::MaxLength) => true,
        _ => false,
    }
}
