// A set that is written in pieces.
use kv_model::{Flags, Key};
use secure_record::SealStream;
use store_note::NotedBytes;

/// What a set in pieces begins with: its owner, and the size of its value in bytes.
#[derive(Drop)]
pub struct SetStart {
    pub who: u8,
    pub key: Key,
    pub size: u32,
    pub flags: Flags,
}

/// A set that is written in pieces.
#[derive(Drop)]
pub struct PartialSet {
    pub key: Key,
    pub flags: Flags,
    pub size: u32,
    /// The tag that it replaces, of which contracts speak.
    pub prior: Option<[u8; 16]>,
    /// The metadata of the record, and whether the primary store has it.
    pub head: [u8; 40],
    pub is_headed: bool,
    pub stream: SealStream,
    /// How many bytes of the value are missing.
    pub left: u32,
    /// The bytes of the value so far.
    pub value: NotedBytes,
}
