// What the program replies.

use crate::status::Status;

/// The bytes for standard output, or a refusal with its fault line, or nothing where memory is wanting.
#[derive(Drop)]
pub enum Reply {
    Output(String),
    Fault(Status, String),
    Starved,
}
