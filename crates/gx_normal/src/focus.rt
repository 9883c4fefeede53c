// What an expression stands in.

ghost use Rattle.std.specs.Prelude.{◌≡◌, IfOk};
ghost use Rattle.gx_normal.specs.Contexts.{focus_with, no_focus};

use crate::contexts::{ContextNumbers, ContextUse, context_numbers};
use std::alloc::AllocError;

/// What an expression stands in beside its variables: the numbers of the variables of its context, whether empty keys are the greatest
/// ones where they do not say, and whether boundary white space stays (XQuery 1.0, sections 2.1.2, 4.10 and 4.3).
#[derive(Clone, Copy)]
pub struct Focus {
    pub context: ContextNumbers,
    pub greatest: bool,
    pub preserves_blanks: bool,
}

impl Focus {
    // What a query begins in.
    pub(crate) fn without_context(greatest: bool, preserves_blanks: bool) -> Focus
        ensures { result ≡ no_focus greatest preserves_blanks }
    {
        Focus {
            context: ContextNumbers::none(),
            greatest,
            preserves_blanks,
        }
    }

    // Another context, whose variables are numbered from the free number on.
    pub(crate) fn with_context(self, context: ContextUse, free: u32) -> Result<Focus, AllocError>
        ensures { IfOk result (λ focus. focus ≡ focus_with self context free) }
    {
        Ok(Focus {
            context: context_numbers(context, free)?,
            greatest: self.greatest,
            preserves_blanks: self.preserves_blanks,
        })
    }
}
