// The letters of two types.

ghost use Rattle.std.specs.Prelude.{◌≡◌, ◌+◌, ◌++◌, [], ◌∷◌, map, length, IfOk, OnOk};
ghost use Rattle.std.specs.List.{flat_map};
ghost use Rattle.gx_types.specs.Grounded.{Grounded};
ghost use Rattle.gx_types.specs.Derivation.{bases_of};
ghost use Rattle.gx_include_letters.specs.Alphabet.{entry_of_letter, entry_if, entry_only, entries_over, entries_of_column, entries_up_to, shapes_asked, AreColumns, AreColumnsMore, IsAlphabet};
ghost use Rattle.gx_include_letters.specs.WellFormed.{built_in_types};
ghost use Rattle.gx_include_letters.specs.ItemIndex.{tests_at};
ghost use Rattle.gx_include_positions.specs.Test.{is_taken};
ghost use Rattle.gx_include_positions.specs.Names.{with_names};
ghost use Rattle.gx_include_letters.specs.Trials.{IsOther, untyped};

use crate::item_index::ItemIndex;
use crate::letter::Letter;
use crate::trial::{other_than, trials};
use gx_base::name::Name;
use gx_base::type_name::{Builtin, TypeName};
use gx_include_derivations::derivations::Derivations;
use gx_include_followers::number_set::NumberSet;
use gx_include_positions::names::add_names;
use gx_types::item_type::ItemType;
use gx_types::sequence_type::Ty;
use gx_types::shape::Shape;
use indexmap::IndexSet;
use std::alloc::{AllocError, Global};

/// The letters of two types.
pub fn alphabet(
    alloc: Global,
    derivations: &mut Derivations<'_>,
    left: &Ty,
    right: &Ty,
) -> Result<Vec<Letter>, AllocError>
    ensures letters { IfOk result (λ letters. IsAlphabet derivations.old left.now right.now letters.items) }
    ensures grounded { OnOk result (Grounded (bases_of derivations.old)) }
    ensures kept { derivations.new ≡ derivations.old }
{
    let left_items = ItemIndex::new(alloc, left)?;
    let right_items = ItemIndex::new(alloc, right)?;
    derivations.ask(alloc, left_items.items())?;
    derivations.ask(alloc, right_items.items())?;
    let names = names_of_types(alloc, left, right)?;
    let letters = letters_by_items(
        alloc,
        derivations,
        &left_items,
        &right_items,
        names.as_slice(),
    )?;
    Ok(letters)
}

// The letters of two types by their item types and names.
fn letters_by_items(
    alloc: Global,
    derivations: &Derivations<'_>,
    left: &ItemIndex,
    right: &ItemIndex,
    names: &[Name],
) -> Result<Vec<Letter>, AllocError>
    ensures letters { IfOk result (λ letters. map entry_of_letter letters.items ≡ entries_up_to (entries_over derivations.now left.now right.now (shapes_asked derivations.now left.now names.now)) (length left.now + 1)) }
    ensures grounded { OnOk result (Grounded (bases_of derivations.now)) }
{
    let _declarations = derivations.schemas().types();
    let shapes = asked_shapes(alloc, derivations, left.items(), names)?;
    let columns = columns_over(alloc, derivations, left, right, shapes.as_slice())?;
    let letters = letters_of(alloc, columns)?;
    Ok(letters)
}

// The shapes that are tried: of declared types those that item types may take.
fn asked_shapes(
    alloc: Global,
    derivations: &Derivations<'_>,
    items: &[ItemType],
    names: &[Name],
) -> Result<Vec<Shape>, AllocError>
    ensures { IfOk result (λ shapes. shapes.items ≡ shapes_asked derivations.now items.now names.now) }
{
    let declared = derivations.types_asked(alloc, items)?;
    let types = plain_types(alloc, declared.as_slice())?;
    let element_types = element_types(alloc, types.as_slice())?;
    let shapes = trials(alloc, types.as_slice(), element_types.as_slice(), names)?;
    Ok(shapes)
}

// The names in two types, in the order of first mention, and one more.
fn names_of_types(alloc: Global, left: &Ty, right: &Ty) -> Result<IndexSet<Name>, AllocError>
    ensures { IfOk result (λ names. (other : Name) × IsOther (with_names (with_names [] left.now) right.now) other × (names.keys ≡ with_names (with_names [] left.now) right.now ++ other ∷ [])) }
{
    let mut names = IndexSet::new(alloc);
    add_names(&mut names, left)?;
    add_names(&mut names, right)?;
    let other = other_than(alloc, &names)?;
    names.insert(other)?;
    Ok(names)
}

// The built-in types that a shape may have beside xs:untyped, and some declared types.
fn plain_types(alloc: Global, declared: &[TypeName]) -> Result<Vec<TypeName>, AllocError>
    ensures { IfOk result (λ types. types.items ≡ built_in_types ++ declared.now) }
{
    let mut types = vec![in alloc;
        TypeName::Builtin(Builtin::UntypedAtomic),
        TypeName::Builtin(Builtin::Str),
        TypeName::Builtin(Builtin::NormalizedStr),
        TypeName::Builtin(Builtin::Token),
        TypeName::Builtin(Builtin::Boolean),
        TypeName::Builtin(Builtin::Decimal),
        TypeName::Builtin(Builtin::Integer),
        TypeName::Builtin(Builtin::NonPositive),
        TypeName::Builtin(Builtin::Negative),
        TypeName::Builtin(Builtin::Long),
        TypeName::Builtin(Builtin::Int),
        TypeName::Builtin(Builtin::Short),
        TypeName::Builtin(Builtin::Byte),
        TypeName::Builtin(Builtin::NonNegative),
        TypeName::Builtin(Builtin::UnsignedLong),
        TypeName::Builtin(Builtin::UnsignedInt),
        TypeName::Builtin(Builtin::UnsignedShort),
        TypeName::Builtin(Builtin::UnsignedByte),
        TypeName::Builtin(Builtin::Positive),
    ]?;
    add_types(&mut types, declared)?;
    Ok(types)
}

// xs:untyped, and the types that other items may have too.
fn element_types(alloc: Global, plain: &[TypeName]) -> Result<Vec<TypeName>, AllocError>
    ensures { IfOk result (λ types. types.items ≡ untyped ∷ plain.now) }
{
    let mut types = Vec::new(alloc);
    types.push(TypeName::Builtin(Builtin::Untyped))?;
    add_types(&mut types, plain)?;
    Ok(types)
}

// Puts types behind those of a list.
fn add_types(types: &mut Vec<TypeName>, more: &[TypeName]) -> Result<(), AllocError>
    ensures { OnOk result (types.new.items ≡ types.old.items ++ more.now) }
{
    for t in more {
        types.push(t.clone()?)?;
    }
    Ok(())
}

// The letters of each place, the start first, by shape.
fn columns_over(
    alloc: Global,
    schemas: &Derivations<'_>,
    left: &ItemIndex,
    right: &ItemIndex,
    shapes: &[Shape],
) -> Result<Vec<Vec<Letter>>, AllocError>
    ensures { IfOk result (λ columns. AreColumns (length left.now + 1) (entries_over schemas.now left.now right.now shapes.now) columns.items) }
{
    let mut columns = empty_columns(alloc, left.count())?;
    for shape in shapes {
        add_shape(alloc, schemas, left, right, shape, &mut columns)?;
    }
    Ok(columns)
}

// No letter for the start and for so many places.
fn empty_columns(alloc: Global, count: usize) -> Result<Vec<Vec<Letter>>, AllocError>
    ensures { IfOk result (λ columns. AreColumns (count + 1) (λ place. []) columns.items) }
{
    let mut columns = Vec::new(alloc);
    columns.push(Vec::new(alloc))?;
    for _place in 0..count {
        columns.push(Vec::new(alloc))?;
    }
    Ok(columns)
}

// Puts the letters of a shape behind those of the places that take it.
fn add_shape(
    alloc: Global,
    schemas: &Derivations<'_>,
    left: &ItemIndex,
    right: &ItemIndex,
    shape: &Shape,
    columns: &mut Vec<Vec<Letter>>,
) -> Result<(), AllocError>
    ensures { OnOk result (AreColumnsMore columns.old.items columns.new.items (λ place. entry_if place shape.now (tests_at left.now (is_taken schemas.now shape.now)) (tests_at right.now (is_taken schemas.now shape.now)))) }
{
    if !left.has_taker(schemas, shape) {
        return Ok(());
    }
    let taking = left.taking(alloc, schemas, shape)?;
    let takers = right.taking(alloc, schemas, shape)?;
    add_letters(shape, &taking, &takers, columns)?;
    Ok(())
}

// Puts a letter of a shape behind those of each place of a set.
fn add_letters(
    shape: &Shape,
    taking: &NumberSet,
    takers: &NumberSet,
    columns: &mut Vec<Vec<Letter>>,
) -> Result<(), AllocError>
    ensures { OnOk result (AreColumnsMore columns.old.items columns.new.items (λ place. entry_if place shape.now taking.now takers.now)) }
{
    for place in taking.members() {
        add_letter(shape, *place, takers, columns)?;
    }
    Ok(())
}

// Puts a letter of a shape behind those of a place, if there is such a place.
fn add_letter(
    shape: &Shape,
    place: usize,
    takers: &NumberSet,
    columns: &mut Vec<Vec<Letter>>,
) -> Result<(), AllocError>
    ensures { OnOk result (AreColumnsMore columns.old.items columns.new.items (entry_only (place, shape.now, takers.now))) }
{
    if place < columns.len() {
        let letter = letter_of(shape, place, takers)?;
        push_letter(&mut columns[place], letter)?;
    }
    Ok(())
}

fn push_letter(letters: &mut Vec<Letter>, letter: Letter) -> Result<(), AllocError>
    ensures { OnOk result (map entry_of_letter letters.new.items ≡ map entry_of_letter letters.old.items ++ entry_of_letter letter ∷ []) }
{
    letters.push(letter)?;
    Ok(())
}

fn letter_of(shape: &Shape, place: usize, takers: &NumberSet) -> Result<Letter, AllocError>
    ensures { IfOk result (λ letter. entry_of_letter letter ≡ (place, shape.now, takers.now)) }
{
    let takers = takers.clone()?;
    Ok(Letter {
        place,
        shape: shape.clone()?,
        takers,
    })
}

// The letters of all places, by place and then by shape.
fn letters_of(alloc: Global, columns: Vec<Vec<Letter>>) -> Result<Vec<Letter>, AllocError>
    ensures { IfOk result (λ letters. map entry_of_letter letters.items ≡ flat_map entries_of_column columns.items) }
{
    let mut letters = Vec::new(alloc);
    for column in columns {
        append_column(&mut letters, column)?;
    }
    Ok(letters)
}

fn append_column(letters: &mut Vec<Letter>, column: Vec<Letter>) -> Result<(), AllocError>
    ensures { OnOk result (map entry_of_letter letters.new.items ≡ map entry_of_letter letters.old.items ++ entries_of_column column) }
{
    let mut column = column;
    letters.append(&mut column)
}
