// What a call is answered.
ghost use Rattle.std.specs.Prelude.{◌≡◌};

use kv_model::Reply;

/// A completed call: its position in the journal, from 1, and its reply.
#[derive(Debug, Drop, PartialEq, Eq)]
pub struct Answer {
    pub seq: u32,
    pub reply: Reply,
}

/// Why a call was not made. The store and the journal are then as before. The faults are looked for
/// in this order.
#[derive(Clone, Copy, Debug, PartialEq, Eq)]
pub enum Fault {
    /// Another pass has the turn: the one exchange of `try_call` found this word.
    Taken { word: u64 },
    /// The pass owns as many positions as it has parts.
    JournalFull,
    /// The caller `by` was the first that quit.
    Quit { by: u8 },
    /// The incremental set of `owner` stands in the way, in the history of length `position`.
    Busy { owner: u8, position: u32 },
    /// There was no memory.
    Memory,
}

impl Fault {
    ghost use Rattle.shared_kv.specs.Turns.{is_busy_fault};

    // Whether another caller's incremental set stands in the way.
    pub(crate) fn is_busy(self) -> bool
        ensures { result ≡ is_busy_fault self }
    {
        matches!(self, Fault::Busy { .. })
    }
}
