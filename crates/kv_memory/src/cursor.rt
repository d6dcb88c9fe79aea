// The iterators of a store in memory.
use kv_model::{Bytes, Key};

/// Where an iterator stands: its prefix, and the key that it gave last.
#[derive(Debug, Drop)]
pub struct Cursor {
    pub prefix: Bytes,
    pub last: Option<Key>,
}
