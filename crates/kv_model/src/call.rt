// What clients ask of a store, what it answers, and the entries of a history.
use crate::{Bytes, Flags, KvError};

/// One call of a client. Keys and prefixes are as the client wrote them: the store says whether
/// they are of the form that it wants. Offsets, counts and sizes are in bytes.
#[derive(Clone, Debug, Drop, PartialEq, Eq)]
pub enum Call {
    /// The whole value of a key.
    Get {
        key: Bytes,
    },
    /// At most `count` bytes of a value, from `offset` on.
    Part {
        key: Bytes,
        offset: u32,
        count: u32,
    },
    /// The size and the flags of a value.
    Info {
        key: Bytes,
    },
    /// Sets a value in one call.
    Set {
        key: Bytes,
        value: Bytes,
        flags: Flags,
    },
    /// Takes a key away.
    Remove {
        key: Bytes,
    },
    /// Begins an incremental set of `size` bytes.
    Start {
        key: Bytes,
        size: u32,
        flags: Flags,
    },
    /// Appends bytes to the incremental set.
    Add {
        value: Bytes,
    },
    /// Puts the incremental set in the place of the old value.
    Finish,
    /// Ends the incremental set without effect.
    Abort,
    /// Opens the caller's iterator `n` over the keys with a prefix.
    IterOpen {
        n: u8,
        prefix: Bytes,
    },
    /// The next key of iterator `n`.
    Next {
        n: u8,
    },
    /// Closes iterator `n`.
    IterClose {
        n: u8,
    },
    /// Takes all keys away.
    Reset,
    /// Mounts the store anew, as after a power cut.
    Mount,
}

/// What a store answered.
#[derive(Debug, Drop, PartialEq, Eq)]
pub enum Reply {
    /// The call was done.
    Done,
    /// The bytes of a value.
    Value { bytes: Bytes },
    /// The size in bytes and the flags of a value.
    Facts { size: u32, flags: Flags },
    /// The next key of an iterator.
    Found { key: Bytes },
    /// The iterator has no further key.
    End,
    /// The call was refused.
    Refused { error: KvError },
}

/// One completed call in a history.
#[derive(Debug, Drop, PartialEq, Eq)]
pub struct Entry {
    /// The position in the history, from 1.
    pub seq: u32,
    /// The client's number, from 1; 0 for a mount.
    pub who: u8,
    /// The number of the call among those of this client, from 1.
    pub index: u32,
    pub call: Call,
    pub reply: Reply,
}

/// What a read gave: the stored flags, the size of the whole value, and how many bytes it put into
/// the buffer.
#[derive(Clone, Copy, Debug, PartialEq, Eq)]
pub struct Got {
    pub flags: Flags,
    pub size: u32,
    pub read: u32,
}

/// The flags and the size of a value.
#[derive(Clone, Copy, Debug, PartialEq, Eq)]
pub struct Info {
    pub flags: Flags,
    pub size: u32,
}
