// The limits of a store, each written here alone.

/// The longest key or prefix, in bytes.
pub const MAX_KEY: usize = 128;

/// The longest value of a plain store, in bytes: 65,536 of a secure value, and 56 that seal it.
pub const MAX_VALUE: u32 = 65_592;

/// How many iterators may be active at once.
pub const MAX_ITERATORS: u32 = 16;
