ghost use Rattle.std.specs.Prelude.{◌≡◌};
ghost use Rattle.kv_model.specs.Errors.{error_number, error_text};

/// Why a store refused a call. Sizes and CRCs are in bytes and 32 bits; owners are clients'
/// numbers.
#[derive(Clone, Copy, Debug, PartialEq, Eq)]
pub enum KvError {
    /// The key is absent.
    NotFound,
    /// The key or the prefix is not of the form that keys have.
    InvalidKey,
    /// The flags have a bit that the store lacks.
    InvalidFlags,
    /// A value, an offset or an incremental set has a size that does not fit.
    InvalidSize,
    /// The key was set once and for all.
    WriteProtected,
    /// The records would take `need` bytes, and the area has `room`.
    MediaFull { need: u32, room: u32 },
    /// Sixteen iterators are active.
    TooManyIterators,
    /// The caller has no active iterator of that number.
    NoIterator,
    /// The caller's own incremental set is active.
    SetOpen,
    /// The caller has no active incremental set.
    NoSet,
    /// The incremental set of `owner` is active.
    Busy { owner: u8 },
    /// A write fault stopped the store, and it was not mounted since.
    Stopped,
    /// The device failed to read.
    ReadFault,
    /// The device failed to write, and the store is stopped.
    WriteFault,
    /// A record's CRC, or its header, is not what was written.
    Corrupt { stored: u32, computed: u32 },
    /// The value is not one that was sealed for this key.
    AuthFailed,
    /// The value is not the last one that was sealed for this key.
    RollbackFailed,
    /// There is no initialisation vector left.
    IvSpent,
    /// There was no memory.
    Memory,
}

impl KvError {
    /// The number of the refusal, from 1 to 19.
    pub fn number(self) -> u8
        ensures { result ≡ error_number self }
    {
        match self {
            KvError::NotFound => 1,
            KvError::InvalidKey => 2,
            KvError::InvalidFlags => 3,
            KvError::InvalidSize => 4,
            KvError::WriteProtected => 5,
            KvError::MediaFull { .. } => 6,
            KvError::TooManyIterators => 7,
            KvError::NoIterator => 8,
            KvError::SetOpen => 9,
            KvError::NoSet => 10,
            KvError::Busy { .. } => 11,
            KvError::Stopped => 12,
            KvError::ReadFault => 13,
            KvError::WriteFault => 14,
            KvError::Corrupt { .. } => 15,
            KvError::AuthFailed => 16,
            KvError::RollbackFailed => 17,
            KvError::IvSpent => 18,
            KvError::Memory => 19,
        }
    }

    /// The text that stands behind the number in a reply.
    pub fn text(self) -> &'static str
        ensures { result.now ≡ error_text self }
    {
        match self {
            KvError::NotFound => "not-found",
            KvError::InvalidKey => "invalid-key",
            KvError::InvalidFlags => "invalid-flags",
            KvError::InvalidSize => "invalid-size",
            KvError::WriteProtected => "write-protected",
            KvError::MediaFull { .. } => "media-full",
            KvError::TooManyIterators => "too-many-iterators",
            KvError::NoIterator => "no-iterator",
            KvError::SetOpen => "set-open",
            KvError::NoSet => "no-set",
            KvError::Busy { .. } => "busy",
            KvError::Stopped => "stopped",
            KvError::ReadFault => "read-fault",
            KvError::WriteFault => "write-fault",
            KvError::Corrupt { .. } => "corrupt",
            KvError::AuthFailed => "auth-failed",
            KvError::RollbackFailed => "rollback-failed",
            KvError::IvSpent => "iv-spent",
            KvError::Memory => "memory",
        }
    }
}
