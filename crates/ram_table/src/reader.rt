// What reads keys, as the table sees it.
ghost use Rattle.std.specs.Prelude.{ℕ, List, OnOk};
ghost use Rattle.ram_table.specs.Reader.{ReaderState, CanReadKey, ReadsKey};

use kv_model::{Key, KvError};

/// Reads the keys of records by their offsets. What its contract may speak of is its `state`: a
/// bound for offsets, the number of hash bits, a count of read faults, one of refusals, whether it
/// is steady (no read fails) and sound (no call of what it reads from fails), and, where it tells
/// them, the keys by their offsets. Beside the state stands a relation between the reader before
/// and after some reads, by which an implementation says what else they leave as it was, and one
/// between the reader, an offset and a key, by which it says what it still knows of the read that
/// was made last, where that read gave this key.
pub trait KeyReader {
    ghost state: { Self → ReaderState };

    ghost may_follow: { Self → Self → Type 0 };

    ghost read_last: { Self → ℕ → List ℕ → Type 0 };

    /// Reads the key at an offset. `ReadFault` comes only where the count of read faults rose, and
    /// `Corrupt`, with two numbers that differ, only where the keys aren't told. A refusal raises
    /// the count of refusals by one, and Ok leaves both counts. After a refusal `out` may be any
    /// key.
    fn key_at(&mut self, offset: u32, out: &mut Key) -> Result<(), KvError>
        requires { CanReadKey (state self.old) offset }
        ensures reads { ReadsKey (state self.old) (state self.new) offset out.new result }
        ensures follows { may_follow self.old self.new }
        ensures last { OnOk result (read_last self.new offset out.new) };

    ghost stays: { (a : Self) → may_follow a a };

    ghost chains: { (a b c : Self) → may_follow a b → may_follow b c → may_follow a c };
}
