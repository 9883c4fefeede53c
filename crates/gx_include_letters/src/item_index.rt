// The item types at the positions of a type, found by the names that they ask for.

ghost use Rattle.std.specs.Prelude.{◌≡◌, ◌+◌, ◌++◌, [], ◌∷◌, ℕ, nat_eq, if◌then◌else◌, IfOk, OnOk, length, map, slice_index_or, false};
ghost use Rattle.std.specs.List.{flat_map, list_any, position_or_len};
ghost use Rattle.gx_base.specs.Name.{same_name};
ghost use Rattle.gx_types.specs.Prime.{items_of};
ghost use Rattle.gx_include_letters.specs.ItemIndex.{tests_at, numbers_at, numbers_asking, place_if, HasFitting, IsItemIndex};
ghost use Rattle.gx_include_positions.specs.Names.{name_given};
ghost use Rattle.gx_include_positions.specs.Test.{is_taken};

use crate::number_table::add_number;
use gx_base::name::Name;
use gx_include_derivations::derivations::Derivations;
use gx_include_followers::number_set::NumberSet;
use gx_include_positions::names::name_asked;
use gx_types::item_type::ItemType;
use gx_types::sequence_type::{Ty, TyNode};
use gx_types::shape::Shape;
use indexmap::IndexSet;
use std::alloc::{AllocError, Global};
use std::marker::Model;

// The item types at the positions of a type. `asking` has at the place of each name the numbers of those that ask for it, and
// `unnamed` the numbers of those that ask for none.
#[derive(Drop)]
pub(crate) struct ItemIndex {
    items: Vec<ItemType>,
    names: IndexSet<Name>,
    asking: Vec<Vec<usize>>,
    unnamed: Vec<usize>,
}

impl Model for ItemIndex {
    ghost use Rattle.std.specs.Prelude.{List};
    ghost use Rattle.gx_types.specs.declared.item_type.ItemType.{ItemType};
    ghost use Rattle.gx_include_letters.specs.ItemIndex.{IsItemIndex};

    ghost Value = { List ItemType };

    ghost view = { λ index. index.items.items };

    ghost invariant = { λ index. IsItemIndex index.items.items index.names.keys index.asking.items index.unnamed.items };
}

impl ItemIndex {
    // The item types of a type.
    pub(crate) fn new(alloc: Global, t: &Ty) -> Result<ItemIndex, AllocError>
        ensures { IfOk result (λ index. index ≡ items_of t.now) }
    {
        let mut items = Vec::new(alloc);
        let mut names = IndexSet::new(alloc);
        let mut asking = Vec::new(alloc);
        let mut unnamed = Vec::new(alloc);
        add_items(&mut items, t)?;
        index(
            alloc,
            items.as_slice(),
            &mut names,
            &mut asking,
            &mut unnamed,
        )?;
        Ok(ItemIndex {
            items,
            names,
            asking,
            unnamed,
        })
    }

    // How many item types there are.
    pub(crate) fn count(&self) -> usize
        ensures { result ≡ length self.now }
    {
        self.items.len()
    }

    // The item types, in the order of the text.
    pub(crate) fn items(&self) -> &[ItemType]
        ensures { result.now ≡ self.now }
    {
        self.items.as_slice()
    }

    // The places of the item types that take a shape, behind the start.
    pub(crate) fn taking(
        &self,
        alloc: Global,
        schemas: &Derivations<'_>,
        shape: &Shape,
    ) -> Result<NumberSet, AllocError>
        ensures { IfOk result (λ taking. taking ≡ tests_at self.now (is_taken schemas.now shape.now)) }
    {
        let (asking, unnamed) = self.fitting(shape);
        takers_among(
            alloc,
            schemas,
            shape,
            self.items.as_slice(),
            asking,
            unnamed,
        )
    }

    // Whether an item type takes a shape.
    pub(crate) fn has_taker(&self, schemas: &Derivations<'_>, shape: &Shape) -> bool
        ensures { result ≡ list_any (is_taken schemas.now shape.now) self.now }
    {
        let (asking, unnamed) = self.fitting(shape);
        let items = self.items.as_slice();
        has_taker_among(schemas, shape, items, asking, unnamed)
    }

    // The numbers of all item types that may take a shape by its name: those that ask for it, and those that ask for none.
    fn fitting(&self, shape: &Shape) -> (&[usize], &[usize])
        ensures { HasFitting self.now (name_given shape.now) (result.0.now ++ result.1.now) }
    {
        let unnamed = self.unnamed.as_slice();
        match shape {
            Shape::Elem(name, _) | Shape::Attr(name, _) | Shape::Doc(Some((name, _))) => {
                (
                    asking_for(&self.names, self.asking.as_slice(), name),
                    unnamed,
                )
            }
            Shape::Text | Shape::Doc(None) | Shape::Atom(_) => (&[], unnamed),
        }
    }
}

// The numbers of the item types that ask for a name.
fn asking_for<'t>(names: &IndexSet<Name>, asking: &'t [Vec<usize>], name: &Name) -> &'t [usize]
    ensures { result.now ≡ numbers_asking names.now.keys asking.now name.now }
{
    match names.get_index_of(name) {
        Some(place) => match asking.get(place) {
            Some(numbers) => numbers.as_slice(),
            None => &[],
        },
        None => &[],
    }
}

// Puts the item types of a type behind those of a list.
fn add_items(items: &mut Vec<ItemType>, t: &Ty) -> Result<(), AllocError>
    ensures { OnOk result (items.new.items ≡ items.old.items ++ items_of t.now) }
{
    match &t.node {
        TyNode::Never | TyNode::Empty => Ok(()),
        TyNode::Item(item) => add_item(items, item),
        TyNode::Seq(first, second) | TyNode::Alt(first, second) => {
            add_items(items, first)?;
            add_items(items, second)
        }
        TyNode::Optional(part) | TyNode::Star(part) | TyNode::Plus(part) => add_items(items, part),
    }
}

fn add_item(items: &mut Vec<ItemType>, item: &ItemType) -> Result<(), AllocError>
    ensures { OnOk result (items.new.items ≡ items.old.items ++ item.now ∷ []) }
{
    let item = item.clone()?;
    put_last(items, item)
}

fn put_last<T: Drop>(items: &mut Vec<T>, item: T) -> Result<(), AllocError>
    ensures { OnOk result (items.new.items ≡ items.old.items ++ item ∷ []) }
{
    Ok(items.push(item)?)
}

// Puts the numbers of item types into a table by the names that they ask for.
fn index(
    alloc: Global,
    items: &[ItemType],
    names: &mut IndexSet<Name>,
    asking: &mut Vec<Vec<usize>>,
    unnamed: &mut Vec<usize>,
) -> Result<(), AllocError>
    ensures { OnOk result (IsItemIndex items.now names.new.keys asking.new.items unnamed.new.items) }
{
    for (number, item) in items.iter().enumerate() {
        match name_asked(item) {
            Some(name) => add_asking(alloc, number, name, names, asking)?,
            None => unnamed.push(number)?,
        }
    }
    Ok(())
}

// Puts the number of an item type behind those that ask for the same name.
fn add_asking(
    alloc: Global,
    number: usize,
    name: &Name,
    names: &mut IndexSet<Name>,
    asking: &mut Vec<Vec<usize>>,
) -> Result<(), AllocError>
    ensures names { OnOk result (names.new.keys ≡ (if list_any (same_name name.now) names.old.keys then names.old.keys else names.old.keys ++ name.now ∷ [])) }
    ensures asking { OnOk result ((p : ℕ) → numbers_at asking.new.items p ≡ numbers_at asking.old.items p ++ (if nat_eq (position_or_len (same_name name.now) names.old.keys) p then number ∷ [] else [])) }
{
    let (place, _) = names.insert_full(name.clone()?)?;
    add_number(alloc, place, number, asking)
}

// The places of the item types that take a shape, behind the start, where those that may take it are listed by number.
fn takers_among(
    alloc: Global,
    schemas: &Derivations<'_>,
    shape: &Shape,
    items: &[ItemType],
    asking: &[usize],
    unnamed: &[usize],
) -> Result<NumberSet, AllocError>
    requires { HasFitting items.now (name_given shape.now) (asking.now ++ unnamed.now) }
    ensures { IfOk result (λ taking. taking ≡ tests_at items.now (is_taken schemas.now shape.now)) }
{
    let mut places = Vec::new(alloc);
    add_takers(schemas, shape, items, asking, &mut places)?;
    add_takers(schemas, shape, items, unnamed, &mut places)?;
    Ok(NumberSet::of(items.len() + 1, places))
}

// Puts the places of those item types of some numbers that take a shape behind others.
fn add_takers(
    schemas: &Derivations<'_>,
    shape: &Shape,
    items: &[ItemType],
    numbers: &[usize],
    places: &mut Vec<usize>,
) -> Result<(), AllocError>
    ensures { OnOk result (places.new.items ≡ places.old.items ++ flat_map (place_if items.now (is_taken schemas.now shape.now)) numbers.now) }
{
    for number in numbers {
        add_taker(schemas, shape, items, *number, places)?;
    }
    Ok(())
}

// Puts the place of the item type of a number behind others, if the item type takes a shape.
fn add_taker(
    schemas: &Derivations<'_>,
    shape: &Shape,
    items: &[ItemType],
    number: usize,
    places: &mut Vec<usize>,
) -> Result<(), AllocError>
    ensures { OnOk result (places.new.items ≡ places.old.items ++ place_if items.now (is_taken schemas.now shape.now) number) }
{
    if takes_at(schemas, shape, items, number) {
        places.push(number + 1)?;
    }
    Ok(())
}

// Whether an item type takes a shape, where those that may take it are listed by number.
fn has_taker_among(
    schemas: &Derivations<'_>,
    shape: &Shape,
    items: &[ItemType],
    asking: &[usize],
    unnamed: &[usize],
) -> bool
    requires { HasFitting items.now (name_given shape.now) (asking.now ++ unnamed.now) }
    ensures { result ≡ list_any (is_taken schemas.now shape.now) items.now }
{
    takes_listed(schemas, shape, items, asking) || takes_listed(schemas, shape, items, unnamed)
}

// Whether an item type of some numbers takes a shape.
fn takes_listed(
    schemas: &Derivations<'_>,
    shape: &Shape,
    items: &[ItemType],
    numbers: &[usize],
) -> bool
    ensures { result ≡ list_any (λ n. slice_index_or (map (is_taken schemas.now shape.now) items.now) n false) numbers.now }
{
    for number in numbers {
        if takes_at(schemas, shape, items, *number) {
            return true;
        }
    }
    false
}

// Whether the item type of a number takes a shape.
fn takes_at(schemas: &Derivations<'_>, shape: &Shape, items: &[ItemType], number: usize) -> bool
    ensures { result ≡ slice_index_or (map (is_taken schemas.now shape.now) items.now) number false }
{
    match items.get(number) {
        Some(item) => schemas.takes_shape(shape, item),
        None => false,
    }
}
