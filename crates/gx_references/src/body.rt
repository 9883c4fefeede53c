// A declaration that names others.

ghost use Rattle.std.specs.Prelude.{◌≡◌, ℕ, List, IfOk};
ghost use Rattle.gx_references.specs.Known.{known, SameMeaningsOn};

use std::alloc::{AllocError, Global};

/// A declaration, among others that have numbers from 0 on, and what it means.
pub trait Body {
    type Meaning: Drop;

    /// The numbers that it names.
    ghost named: { Self → List ℕ };

    /// What it means, where each number that it names means what a function says.
    ghost meant: { (ℕ → Self.Meaning) → Self → Self.Meaning };

    /// What is put for a meaning that is not known.
    ghost nothing: { Self.Meaning };

    /// The numbers that it names.
    fn references(&self, alloc: Global) -> Result<Vec<usize>, AllocError>
        ensures { IfOk result (λ numbers. numbers.items ≡ named self.now) };

    /// What it means over a table of meanings by number.
    fn meaning(
        &self,
        alloc: Global,
        table: &[Option<Self::Meaning>],
    ) -> Result<Self::Meaning, AllocError>
        ensures { IfOk result (λ meaning. meaning ≡ meant (known nothing table.now) self.now) };

    /// It looks at nothing but the meanings of the numbers that it names.
    ghost same: { (f g : ℕ → Self.Meaning) (body : Self) → SameMeaningsOn f g (named body) → meant f body ≡ meant g body };
}
