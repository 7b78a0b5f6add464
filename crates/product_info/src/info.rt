use thiserror::Error;

/// Why a line of a product file is bad.
#[derive(Clone, Copy, Debug, PartialEq, Eq)]
pub enum InfoKind {
    /// The first line that isn't skipped tells no version, or there is none.
    NoVersion,
    /// The version is above 1.
    BadVersion,
    /// The line has none of the forms.
    BadLine,
    /// The line is one requirement or one task too many.
    TooMany,
    /// The line has a byte that is neither a blank nor graphic ASCII.
    NotText,
}

/// Why a product file isn't read. `line` is the first bad line, counted from 1.
#[derive(Debug, Drop, Error)]
pub enum InfoError {
    #[error("line {line} is {kind:?}")]
    Bad { line: u32, kind: InfoKind },
    #[error("out of memory")]
    Memory,
}
