// Sets of numbers.

ghost use Rattle.std.specs.Prelude.{◌≡◌, ◌<◌, ℕ, nat_eq, IfOk, length, filter, slice_index_or, false};
ghost use Rattle.std.specs.List.{list_any};
ghost use Rattle.gx_include_followers.specs.NumberSet.{AscendWithin, flagged};
ghost use Rattle.gx_include_positions.specs.Positions.{both_set};
ghost use Rattle.gx_include_positions.specs.Step.{single};

use std::alloc::{AllocError, Global};
use std::hash::{Hash, Hasher};
use std::marker::Model;

/// A set of numbers below a count, by its members in ascending order. Contracts see it as flags, one for each number below the
/// count. A set of places of a type has 0 for the start, and the positions in the order of the text from 1 on.
#[derive(Drop)]
pub struct NumberSet {
    count: usize,
    members: Vec<usize>,
}

impl Model for NumberSet {
    ghost use Rattle.std.specs.Prelude.{Bool, List};
    ghost use Rattle.gx_include_followers.specs.NumberSet.{AscendWithin, flags_within};

    ghost Value = { List Bool };

    ghost view = { λ set. flags_within 0 set.count set.members.items };

    ghost invariant = { λ set. AscendWithin 0 set.count set.members.items };
}

impl NumberSet {
    /// The set of one number alone.
    pub fn only(alloc: Global, number: usize) -> Result<NumberSet, AllocError>
        ensures { IfOk result (λ set. set ≡ single number) }
    {
        let count = number.checked_add(1).ok_or(AllocError)?;
        let members = vec![in alloc; number]?;
        Ok(NumberSet { count, members })
    }

    /// The set of those numbers of a list that are below a count.
    pub fn of(count: usize, numbers: Vec<usize>) -> NumberSet
        ensures count { length result ≡ count }
        ensures members { (n : ℕ) → n < count → slice_index_or result n false ≡ list_any (λ m. nat_eq m n) numbers.items }
    {
        let members = ordered(count, numbers);
        NumberSet { count, members }
    }

    /// The members in ascending order.
    pub fn members(&self) -> &[usize]
        ensures { result.now ≡ flagged self.now }
    {
        self.members.as_slice()
    }

    /// Whether a number is a member.
    pub fn has(&self, number: usize) -> bool
        ensures { result ≡ slice_index_or self.now number false }
    {
        found(self.count, self.members.as_slice(), number)
    }

    /// The members of both of two sets, found from the smaller one.
    pub fn meet(&self, alloc: Global, other: &NumberSet) -> Result<NumberSet, AllocError>
        ensures { IfOk result (λ met. met ≡ both_set self.now other.now) }
    {
        if other.members.len() < self.members.len() {
            return other.kept_in(alloc, self);
        }
        self.kept_in(alloc, other)
    }

    // The members that another set has too.
    fn kept_in(&self, alloc: Global, other: &NumberSet) -> Result<NumberSet, AllocError>
        ensures { IfOk result (λ met. met ≡ both_set self.now other.now) }
    {
        let members = met(alloc, self.members.as_slice(), other)?;
        let count = self.count.min(other.count);
        Ok(NumberSet { count, members })
    }
}

// The numbers below a count in ascending order, each once.
fn ordered(count: usize, numbers: Vec<usize>) -> Vec<usize>
    ensures ascending { AscendWithin 0 count result.items }
    ensures same { (n : ℕ) → n < count → list_any (λ m. nat_eq m n) result.items ≡ list_any (λ m. nat_eq m n) numbers.items }
{
    let mut members = numbers;
    members.sort_unstable();
    members.dedup();
    members.retain(|number| *number < count);
    members
}

// Whether a number is among ascending ones, which are below a count.
fn found(count: usize, members: &[usize], number: usize) -> bool
    requires { AscendWithin 0 count members.now }
    ensures { result ≡ list_any (λ m. nat_eq m number) members.now }
{
    let _count = count;
    members.binary_search(&number).is_ok()
}

// The numbers that are members of a set.
fn met(alloc: Global, numbers: &[usize], other: &NumberSet) -> Result<Vec<usize>, AllocError>
    ensures { IfOk result (λ met. met.items ≡ filter (λ n. slice_index_or other.now n false) numbers.now) }
{
    let mut met = Vec::new(alloc);
    for number in numbers {
        if other.has(*number) {
            met.push(*number)?;
        }
    }
    Ok(met)
}

impl Clone for NumberSet {
    ghost is_clone = { λ set copy. copy ≡ set };

    fn clone(&self) -> Result<NumberSet, AllocError> {
        let members = self.members.clone()?;
        Ok(NumberSet {
            count: self.count,
            members,
        })
    }
}

impl PartialEq for NumberSet {
    ghost use Rattle.std.specs.Cmp.Rules.{comparing};
    ghost use Rattle.std.proofs.Common.{rules};
    ghost use Rattle.gx_include_followers.specs.NumberSetOrder.{same_number_sets};

    ghost eq = { same_number_sets };

    ghost laws = { Prim.search (comparing, rules) };

    fn eq(&self, other: &NumberSet) -> bool {
        self.count == other.count && self.members == other.members
    }
}

impl Eq for NumberSet {
    ghost use Rattle.std.specs.Cmp.Rules.{comparing};
    ghost use Rattle.std.proofs.Common.{rules};

    ghost laws = { Prim.search (comparing, rules) };
}

impl Hash for NumberSet {
    ghost use Rattle.std.specs.Hash as fed;
    ghost use Rattle.gx_include_followers.specs.NumberSet.{flagged};
    ghost use Rattle.gx_include_followers.specs.NumberSetOrder.{number_sets_are_alike};

    ghost hash_input = { λ flags. fed.slice fed.usize (flagged flags) };

    ghost respects_eq = { number_sets_are_alike.fed };

    fn hash<H: Hasher>(&self, state: &mut H) {
        self.members.hash(state);
    }
}
