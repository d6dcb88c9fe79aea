// The pass of a caller.
ghost use Rattle.std.specs.Prelude.{◌≡◌, ◌↔◌, length, IsTrue};

use crate::desk::Desk;
use turn_lock::Pass;

/// What one caller knows of the history: how much of it it has seen, and which positions in it are
/// its own. A pass owns at most as many positions as it has parts. Two passes with one number are
/// two threads of one caller, and share its incremental set and its iterators.
#[derive(Drop)]
pub struct CallPass<K> {
    pub(crate) pass: Pass<Desk<K>>,
}

impl<K> CallPass<K> {
    ghost use Rattle.shared_kv.specs.Passes.{known};

    /// The caller's number.
    pub fn who(&self) -> u8
        ensures { result ≡ (known self.now).who }
    {
        self.pass.who()
    }

    /// How many entries of the journal it has seen.
    pub fn seen(&self) -> u32
        ensures { result ≡ length (known self.now).seen }
    {
        self.pass.seen()
    }

    /// How many positions in the journal are its own.
    pub fn made(&self) -> u32
        ensures { result ≡ length (known self.now).own }
    {
        self.pass.made()
    }

    /// How many positions it may own.
    pub fn parts(&self) -> u32
        ensures { result ≡ (known self.now).parts }
    {
        self.pass.parts()
    }

    // Whether it owns as many positions as it may.
    pub(crate) fn is_full(&self) -> bool
        ensures { IsTrue result ↔ (length (known self.now).own ≡ (known self.now).parts) }
    {
        self.pass.made() == self.pass.parts()
    }
}
