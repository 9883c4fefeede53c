// How a run of the program ends.

ghost use Rattle.std.specs.Prelude.{◌≡◌};

/// How the program ended. `ReadFault` and `WriteFault` come from outside; the others are refusals of the words, the
/// query, a schema or a document, a dynamic error, or want of memory.
#[derive(Clone, Copy, Debug, PartialEq, Eq)]
pub enum Status {
    Done,
    Usage,
    Query,
    Schema,
    Document,
    Dynamic,
    ReadFault,
    WriteFault,
    Memory,
}

impl Status {
    ghost use Rattle.gx_processor.specs.Status.{number_of_status};

    /// The exit status of the process: 0 to 8, in the order in which the variants stand.
    pub fn code(&self) -> u8
        ensures { result ≡ number_of_status self.now }
    {
        match self {
            Status::Done => 0,
            Status::Usage => 1,
            Status::Query => 2,
            Status::Schema => 3,
            Status::Document => 4,
            Status::Dynamic => 5,
            Status::ReadFault => 6,
            Status::WriteFault => 7,
            Status::Memory => 8,
        }
    }
}
