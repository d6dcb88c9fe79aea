// The limits and sizes of a secure store, each written here alone.

/// The longest value of a secure store, in bytes.
pub const MAX_SECURE_VALUE: u32 = 65_536;

/// How many bytes more a sealed record has than the value in it.
pub const SEAL_SIZE: u32 = 56;

/// How many bytes a tag has, with which a sealed record ends.
pub const TAG_SIZE: u32 = 16;
