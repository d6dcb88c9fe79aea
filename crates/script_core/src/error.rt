use thiserror::Error;

/// Why a text is no script. Lines are numbered from 1.
#[derive(Debug, Drop, PartialEq, Eq, Error)]
pub enum ScriptError {
    /// The first line that is neither skipped nor spells a line that the mode allows.
    #[error("line {line} is no line of a script")]
    BadLine { line: u32 },
    /// The 8,193rd line that is not skipped, where every line before it is good.
    #[error("line {line} is one call line too many")]
    TooManyCalls { line: u32 },
    /// There was no memory.
    #[error("there was no memory")]
    Memory,
}

// A word or a line of another form. What answers this alone takes no memory.
#[derive(Clone, Copy, Debug, PartialEq, Eq)]
pub(crate) struct Malformed;
