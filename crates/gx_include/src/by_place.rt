// Letters by their places.

ghost use Rattle.std.specs.Prelude.{◌≡◌, ◌++◌, IfOk, OnOk, length};
ghost use Rattle.std.specs.List.{flat_map};
ghost use Rattle.gx_include_followers.specs.NumberSet.{flagged};
ghost use Rattle.gx_include_letters.specs.ItemIndex.{numbers_at};
ghost use Rattle.gx_include.specs.ByPlace.{AreByPlace, HasLettersAt};

use gx_include_followers::number_set::NumberSet;
use gx_include_letters::letter::Letter;
use gx_include_letters::number_table::add_number;
use std::alloc::{AllocError, Global};
use std::marker::Model;

// Letters, with the numbers of those that stand at each place.
#[derive(Drop)]
pub struct LettersByPlace<'l> {
    letters: &'l [Letter],
    numbers: Vec<Vec<usize>>,
}

impl<'l> Model for LettersByPlace<'l> {
    ghost use Rattle.std.specs.Prelude.{List};
    ghost use Rattle.gx_include_letters.specs.declared.letter.Letter.{Letter as PlainLetter};
    ghost use Rattle.gx_include.specs.ByPlace.{AreByPlace};

    ghost Value = { List PlainLetter };

    ghost view = { λ table. table.letters.now };

    ghost invariant = { λ table. AreByPlace table.letters.now table.numbers.items };
}

impl<'l> LettersByPlace<'l> {
    pub(crate) fn new(
        alloc: Global,
        letters: &'l [Letter],
    ) -> Result<LettersByPlace<'l>, AllocError>
        ensures { IfOk result (λ table. table ≡ letters.now) }
    {
        let numbers = numbers_by_place(alloc, letters)?;
        Ok(LettersByPlace { letters, numbers })
    }

    // The letters.
    pub(crate) fn letters(&self) -> &'l [Letter]
        ensures { result.now ≡ self.now }
    {
        self.letters
    }

    // The numbers of the letters at the places of a set.
    pub(crate) fn numbers_in(
        &self,
        alloc: Global,
        places: &NumberSet,
    ) -> Result<NumberSet, AllocError>
        ensures count { IfOk result (λ numbers. length numbers ≡ length self.now) }
        ensures has { IfOk result (λ numbers. HasLettersAt self.now places.now numbers) }
    {
        let numbers = numbers_of(alloc, self.numbers.as_slice(), places.members())?;
        Ok(NumberSet::of(self.letters.len(), numbers))
    }
}

// The numbers of letters by their places.
fn numbers_by_place(alloc: Global, letters: &[Letter]) -> Result<Vec<Vec<usize>>, AllocError>
    ensures { IfOk result (λ numbers. AreByPlace letters.now numbers.items) }
{
    let mut numbers = Vec::new(alloc);
    for (number, letter) in letters.iter().enumerate() {
        add_number(alloc, letter.place, number, &mut numbers)?;
    }
    Ok(numbers)
}

// The numbers at some places.
fn numbers_of(
    alloc: Global,
    numbers: &[Vec<usize>],
    places: &[usize],
) -> Result<Vec<usize>, AllocError>
    ensures { IfOk result (λ found. found.items ≡ flat_map (numbers_at numbers.now) places.now) }
{
    let mut found = Vec::new(alloc);
    for place in places {
        add_numbers_at(numbers, *place, &mut found)?;
    }
    Ok(found)
}

fn add_numbers_at(
    numbers: &[Vec<usize>],
    place: usize,
    found: &mut Vec<usize>,
) -> Result<(), AllocError>
    ensures { OnOk result (found.new.items ≡ found.old.items ++ numbers_at numbers.now place) }
{
    match numbers.get(place) {
        Some(here) => Ok(found.extend_from_slice(here.as_slice())?),
        None => Ok(()),
    }
}
