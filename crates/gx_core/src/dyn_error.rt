// What an evaluation fails with.

use gx_base::code::Code;

/// A dynamic error that the query raises (XQuery 1.0, section 2.3.1), or want of memory.
#[derive(Clone, Copy, PartialEq, Eq)]
pub enum DynError {
    Raised(Code),
    Memory,
}
