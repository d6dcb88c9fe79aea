use kv_model::{Call, Pattern};

/// The chip of a pair of stores that a power cut falls on.
#[derive(Clone, Copy, Debug, PartialEq, Eq)]
pub enum Side {
    Primary,
    Rollback,
}

/// A power cut inside the `n`th program or erase of the chip of `side` from here on, which leaves
/// `pattern` of it. `n` is at least 1.
#[derive(Clone, Copy, Debug, PartialEq, Eq)]
pub struct PowerCut {
    pub side: Side,
    pub n: u32,
    pub pattern: Pattern,
}

/// What a line asks for.
#[derive(Debug, Drop, PartialEq, Eq)]
pub enum Act {
    /// A call of a client, or a mount.
    Do {
        call: Call,
    },
    /// A power cut inside the `n`th program or erase of the chip of `side` from here on, which
    /// leaves `pattern` of it. `n` is at least 1.
    Cut {
        side: Side,
        n: u32,
        pattern: Pattern,
    },
}

/// One line of a script.
#[derive(Debug, Drop, PartialEq, Eq)]
pub struct Line {
    /// The client's number, 1 to 16; 0 for a mount and for a cut.
    pub who: u8,
    pub act: Act,
}
