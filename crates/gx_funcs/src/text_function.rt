// Functions over strings.

/// A built-in function all of whose parameters take strings, or the texts of atomic values (Functions and Operators, sections 7.4
/// and 7.5).
#[derive(Clone, Copy, PartialEq, Eq)]
pub enum TextFunction {
    /// `fn:string-length(xs:string?)`, the number of characters.
    StringLength,
    /// `fn:concat(xs:anyAtomicType?, xs:anyAtomicType?, ..)`, with the number of its arguments.
    Concat(usize),
    /// `fn:string-join(xs:string*, xs:string)`, the strings with a separator between them.
    StringJoin,
    /// `fn:normalize-space(xs:string?)`, the string without white space at its ends, and with one space for each run of it.
    NormalizeSpace,
    /// `fn:translate(xs:string?, xs:string, xs:string)`, with other characters in place of some, or without them.
    Translate,
    /// `fn:contains(xs:string?, xs:string?)`, whether the second string occurs in the first.
    Contains,
    /// `fn:starts-with(xs:string?, xs:string?)`, whether it begins the first.
    StartsWith,
    /// `fn:ends-with(xs:string?, xs:string?)`, whether it ends the first.
    EndsWith,
    /// `fn:substring-before(xs:string?, xs:string?)`, what stands before its first occurrence.
    SubstringBefore,
    /// `fn:substring-after(xs:string?, xs:string?)`, what stands behind its first occurrence.
    SubstringAfter,
}
