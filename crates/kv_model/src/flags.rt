/// The flag bits of a stored value: write-once 1, confidentiality 2, replay protection 8.
#[derive(Clone, Copy, Debug, PartialEq, Eq)]
pub struct Flags {
    pub bits: u32,
}

impl Flags {
    /// No flags.
    pub const NONE: Flags = Flags { bits: 0 };

    /// The key can't be set again or removed.
    pub const WRITE_ONCE: Flags = Flags { bits: 1 };

    /// The value is encrypted; a secure store alone has it.
    pub const CONFIDENTIAL: Flags = Flags { bits: 2 };

    /// An old value put back is noticed; a secure store alone has it.
    pub const REPLAY_PROTECTED: Flags = Flags { bits: 8 };
}
