//! What the engine asks of the outside: files read and written whole, and bytes printed.
ghost use Rattle.std.specs.Prelude.{◌≡◌, ◌≢◌, ◌+◌, length, Err, IsOk, ℕ, ◌≤◌, [], take, Option, Some, vec_len, IfErr, OnOk, OnErr, IfSome};
ghost use Rattle.std.specs.Option.{option_map};
ghost use Rattle.kv_host.specs.Contents.{HostContents, file_at, with_file, with_printed};
ghost use Rattle.base_core.specs.Counts.{Rose};
ghost use Rattle.kv_host.specs.Refusal.{ReadRefusal, fault_number};

/// Why a host refused a call.
#[derive(Clone, Copy, Debug, PartialEq, Eq)]
pub enum HostFault {
    /// The call failed. It comes only where the host's count of faults rose.
    Fault,
    /// The file is longer than the limit: `length` bytes of it, more than the limit, were seen.
    TooLong { length: u64 },
    /// No file has this name.
    Absent,
    /// Memory ran out.
    Memory,
}

impl HostFault {
    /// The number of this refusal: 1 to 4, in the order of the variants.
    pub fn number(&self) -> u8
        ensures { result ≡ fault_number self.now }
    {
        match self {
            HostFault::Fault => 1,
            HostFault::TooLong { .. } => 2,
            HostFault::Absent => 3,
            HostFault::Memory => 4,
        }
    }
}

/// Named files that are read and written whole, and a place to print.
///
/// A host counts its faults, and the count never falls. It may tell what it contains; no call
/// changes whether it does.
pub trait Host {
    /// How many faults came so far. It stands still at 2^64 - 1.
    ghost faults: { Self → ℕ };

    /// The files and the printed bytes, or `None` where the host does not tell.
    ghost contents: { Self → Option HostContents };

    /// No fault comes while at most so many more files, with names of at most 64 bytes, and so many
    /// more bytes, stored and printed together, are taken.
    ghost is_calm: { Self → ℕ → ℕ → Type 0 };

    /// Replaces `out` by the bytes of a file of at most `limit` bytes. After a refusal `out` is
    /// empty.
    ///
    /// # Errors
    /// `Fault` where the count of faults rose; `TooLong` where the file is longer than `limit`;
    /// `Absent` where there is no such file; `Memory` where memory ran out. A host that does not
    /// tell raises its count with `TooLong` and `Absent` too.
    fn read_file(&mut self, name: &str, limit: u32, out: &mut Vec<u8>) -> Result<(), HostFault>
        ensures count { faults self.old ≤ faults self.new }
        ensures stands { contents self.new ≡ contents self.old }
        ensures within { OnOk result (vec_len out.new ≤ limit) }
        ensures read { OnOk result (IfSome (contents self.old)
            (λ c. file_at name.now c ≡ Some out.new.items)) }
        ensures empty { OnErr result (out.new.items ≡ []) }
        ensures calm { (names bytes : ℕ) → is_calm self.old names bytes
            → (result ≢ Err HostFault.Fault) × is_calm self.new names bytes }
        ensures refused { IfErr result
            (ReadRefusal (contents self.old) name.now limit (faults self.old) (faults self.new)) };

    /// Replaces the whole file, or makes it. A refused write changes nothing that is told.
    ///
    /// # Errors
    /// `Fault` alone, where the count of faults rose.
    fn write_file(&mut self, name: &str, bytes: &[u8]) -> Result<(), HostFault>
        ensures count { faults self.old ≤ faults self.new }
        ensures written { OnOk result (contents self.new
            ≡ option_map (with_file name.now bytes.now) (contents self.old)) }
        ensures stands { OnErr result (contents self.new ≡ contents self.old) }
        ensures calm { (names room fewer less : ℕ) → is_calm self.old names room → fewer + 1 ≤ names
            → less + length bytes.now ≤ room →
            length name.now ≤ 64 → IsOk result × is_calm self.new fewer less }
        ensures refused { IfErr result
            (λ e. (e ≡ HostFault.Fault) × Rose (faults self.old) (faults self.new)) };

    /// Prints bytes behind those printed before. A refused print has printed a prefix of them.
    ///
    /// # Errors
    /// `Fault` alone, where the count of faults rose.
    fn print(&mut self, bytes: &[u8]) -> Result<(), HostFault>
        ensures count { faults self.old ≤ faults self.new }
        ensures printed { OnOk result (contents self.new
            ≡ option_map (with_printed bytes.now) (contents self.old)) }
        ensures partly { OnErr result ((n : ℕ)
            × (contents self.new ≡ option_map (with_printed (take n bytes.now))
            (contents self.old))) }
        ensures calm { (names room less : ℕ) → is_calm self.old names room
            → less + length bytes.now ≤ room → IsOk result × is_calm self.new names less }
        ensures refused { IfErr result
            (λ e. (e ≡ HostFault.Fault) × Rose (faults self.old) (faults self.new)) };
}
