// A place in a file.

/// A line and a column, both counted from 1. A column is a character; CR LF, CR and LF are one line end each
/// (XQuery 1.0, appendix A.2.3).
#[derive(Clone, Copy, Debug, PartialEq, Eq, PartialOrd, Ord, Hash)]
pub struct Place {
    pub line: u32,
    pub column: u32,
}
