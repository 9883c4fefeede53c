// Lists of numbers that share their parts.

ghost use Rattle.std.specs.Prelude.{◌≡◌, ◌++◌, [], ◌∷◌, IfOk, OnOk};
ghost use Rattle.gx_include_followers.specs.Rope.{numbers_of};

use std::alloc::{AllocError, Global};
use std::rc::Rc;

// A list of numbers as a tree of its parts. No part of `Both` is empty.
#[cycle(rope)]
#[derive(Drop)]
pub enum Rope {
    Empty,
    One(usize),
    Both(Rc<Rope>, Rc<Rope>),
}

// One list behind another.
pub(crate) fn joined(
    alloc: Global,
    first: &Rc<Rope>,
    second: &Rc<Rope>,
) -> Result<Rc<Rope>, AllocError>
    ensures { IfOk result (λ both. numbers_of both.value ≡ numbers_of first.now.value ++ numbers_of second.now.value) }
{
    let (one, other): (&Rope, &Rope) = (first, second);
    match (one, other) {
        (Rope::Empty, _) => second.clone(),
        (_, Rope::Empty) => first.clone(),
        _ => both(alloc, first.clone()?, second.clone()?),
    }
}

fn both(alloc: Global, first: Rc<Rope>, second: Rc<Rope>) -> Result<Rc<Rope>, AllocError>
    ensures { IfOk result (λ both. numbers_of both.value ≡ numbers_of first.value ++ numbers_of second.value) }
{
    Ok(Rc::new(alloc, Rope::Both(first, second))?)
}

// Puts the numbers of a list behind others.
pub(crate) fn add_numbers(rope: &Rope, numbers: &mut Vec<usize>) -> Result<(), AllocError>
    ensures { OnOk result (numbers.new.items ≡ numbers.old.items ++ numbers_of rope.now) }
{
    match rope {
        Rope::Empty => Ok(()),
        Rope::One(number) => {
            numbers.push(*number)?;
            Ok(())
        }
        Rope::Both(first, second) => {
            add_numbers(first, numbers)?;
            add_numbers(second, numbers)
        }
    }
}
