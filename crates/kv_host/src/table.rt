//! A table of at most 8 files, whose names and bytes lie one behind the other in one buffer that
//! never moves and never gives room back.

/// How many names a table takes.
pub(crate) const NAMES: usize = 8;

/// How many bytes a name has at most.
pub(crate) const NAME_LENGTH: usize = 64;

/// A part of the buffer: from `start` up to `end`.
#[derive(Clone, Copy, Debug)]
pub(crate) struct Span {
    pub(crate) start: usize,
    pub(crate) end: usize,
}

/// A file: where its name lies and where its bytes.
#[derive(Clone, Copy, Debug)]
pub(crate) struct Entry {
    pub(crate) name: Span,
    pub(crate) bytes: Span,
}
