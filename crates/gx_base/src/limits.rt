// The limits of the processor, each in one place.

/// The most bytes of a file: of a query, a schema or a document.
pub const FILE_BYTES: usize = 16_777_216;

/// The most bytes of a word of the command line.
pub const WORD_BYTES: usize = 16_777_216;

/// The greatest depth of elements in a file.
pub const FILE_DEPTH: u32 = 200;

/// The number of expressions and direct elements inside which no further one may stand.
pub const NESTING: u8 = 40;

/// The most members of one chain: operands, steps, predicates, signs or clauses.
pub const CHAIN_MEMBERS: u8 = 64;

/// The most function calls that are active at once.
pub const ACTIVE_CALLS: u32 = 32;

/// The most items of one range expression.
pub const RANGE_ITEMS: u32 = 1_048_576;

/// The greatest depth of a constructed tree.
pub const CONSTRUCTED_DEPTH: u32 = 1_000;

/// The greatest maxOccurs of a schema beside `unbounded`.
pub const MOST_OCCURS: u32 = 64;

/// The most positions of the content of one type.
pub const CONTENT_POSITIONS: usize = 1_024;

/// The most declarations of types, elements and attributes in the schema files.
pub const DECLARATIONS: usize = 4_096;

/// The most pairs of positions that an inclusion looks at.
pub const INCLUSION_PAIRS: usize = 200_000;

/// The most positions of an inferred type. A type with more becomes its prime type as often as it occurs.
pub const TYPE_POSITIONS: usize = 64;

/// The most positions of a type that is read from a text.
pub const TYPE_TEXT_POSITIONS: usize = 1_024;

/// The most parentheses that are open at once round a type that is read from a text.
pub const TYPE_TEXT_NESTING: u8 = 40;

/// The most items of the built-in workload.
pub const DEMO_ITEMS: u32 = 20_000;
