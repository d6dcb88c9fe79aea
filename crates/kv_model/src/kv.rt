// The interface of a store, by which every layer above speaks of one.
ghost use Rattle.std.specs.Prelude.{◌≡◌, ◌≤◌, ℕ, length, IfOk};
ghost use Rattle.kv_model.specs.Arming.{Arms};
ghost use Rattle.kv_model.specs.Constants.{Constants};
ghost use Rattle.kv_model.specs.Given.{AreZerosFrom, IsGot, done_or, facts_or, found_end, found_or, got_or, read_end};
ghost use Rattle.kv_model.specs.Kv.{Answers, IsLawful, KvState, answered};
ghost use Rattle.kv_model.specs.Operations.{Part, Info as InfoOf, Set, Remove, RemoveStart, Start, Add, Finish, Abort, OpenIterator, Next, CloseIterator, Reset};
ghost use Rattle.kv_model.specs.Rules.{AreRules, Rules};

use crate::{Flags, Got, Info, KvError, NoMemory, Pattern};
use std::alloc::Global;

/// A key-value store. What its contract may speak of is its `state`: its constants, the state and
/// the log where it tells them, two counts of faults, labels, whether its devices are steady (no
/// read fails) and sound (no call fails), and what a power cut may leave. Each call is one step by
/// the store's own `rules_by` its constants, or a read or a write that failed in its place.
///
/// `who` is the caller's number. Keys, values and prefixes are bytes, and sizes and offsets are in
/// bytes. Only `set`, `set_start` and `iter_open` answer `Memory`, and then the state stands.
pub trait Kv {
    ghost rules_by: { Constants → Rules };

    ghost state: { Self → KvState };

    /// Reads a value from `offset` on into `buf`, as much as there is and fits; the rest of `buf`
    /// is 0. After a refusal every byte of `buf` is 0.
    fn get(&mut self, key: &[u8], offset: u32, buf: &mut [u8]) -> Result<Got, KvError>
        ensures answers { (who : ℕ) → Answers rules_by (state self.old) (state self.new)
            (answered who (Part key.now offset (length buf.old)) (got_or result buf.new)) }
        ensures got { IfOk result (IsGot rules_by (state self.old) key.now (length buf.old)) }
        ensures zeros { AreZerosFrom (read_end result) buf.new };

    /// The size and the flags of a value.
    fn info(&mut self, key: &[u8]) -> Result<Info, KvError>
        ensures { (who : ℕ) → Answers rules_by (state self.old) (state self.new)
            (answered who (InfoOf key.now) (facts_or result)) };

    /// Sets a value in one event.
    fn set(&mut self, who: u8, key: &[u8], value: &[u8], flags: Flags) -> Result<(), KvError>
        ensures { Answers rules_by (state self.old) (state self.new)
            (answered who (Set key.now value.now flags.bits) (done_or result)) };

    /// Begins an incremental set of `size` bytes.
    fn set_start(&mut self, who: u8, key: &[u8], size: u32, flags: Flags) -> Result<(), KvError>
        ensures { Answers rules_by (state self.old) (state self.new)
            (answered who (Start key.now size flags.bits) (done_or result)) };

    /// Begins a remove that `set_finish` completes. It makes every check and read of `remove`.
    fn remove_start(&mut self, who: u8, key: &[u8]) -> Result<(), KvError>
        ensures { Answers rules_by (state self.old) (state self.new)
            (answered who (RemoveStart key.now) (done_or result)) };

    /// Appends bytes to the caller's incremental set.
    fn set_add(&mut self, who: u8, value: &[u8]) -> Result<(), KvError>
        ensures { Answers rules_by (state self.old) (state self.new)
            (answered who (Add value.now) (done_or result)) };

    /// Puts the caller's incremental set in the place of the old value, or completes a remove that
    /// was begun.
    fn set_finish(&mut self, who: u8) -> Result<(), KvError>
        ensures { Answers rules_by (state self.old) (state self.new)
            (answered who Finish (done_or result)) };

    /// Ends the caller's incremental set without effect.
    fn set_abort(&mut self, who: u8) -> Result<(), KvError>
        ensures { Answers rules_by (state self.old) (state self.new)
            (answered who Abort (done_or result)) };

    /// Takes a key away.
    fn remove(&mut self, who: u8, key: &[u8]) -> Result<(), KvError>
        ensures { Answers rules_by (state self.old) (state self.new)
            (answered who (Remove key.now) (done_or result)) };

    /// Takes all keys away.
    fn reset(&mut self, who: u8) -> Result<(), KvError>
        ensures { Answers rules_by (state self.old) (state self.new)
            (answered who Reset (done_or result)) };

    /// Opens the caller's iterator `n` over the keys with a prefix, also where that number is
    /// active.
    fn iter_open(&mut self, who: u8, n: u8, prefix: &[u8]) -> Result<(), KvError>
        ensures { Answers rules_by (state self.old) (state self.new)
            (answered who (OpenIterator n prefix.now) (done_or result)) };

    /// Writes the next key of iterator `n` at the front of `out` and gives its length, or `None` at
    /// the end. The rest of `out` is 0, and all of it at the end and after a refusal.
    fn next(&mut self, who: u8, n: u8, out: &mut [u8; 128]) -> Result<Option<u8>, KvError>
        ensures answers { Answers rules_by (state self.old) (state self.new)
            (answered who (Next n) (found_or result out.new)) }
        ensures zeros { AreZerosFrom (found_end result) out.new };

    /// Closes the caller's iterator `n`.
    fn iter_close(&mut self, who: u8, n: u8) -> Result<(), KvError>
        ensures { Answers rules_by (state self.old) (state self.new)
            (answered who (CloseIterator n) (done_or result)) };

    ghost lawful: { (store : Self) → IsLawful rules_by (state store) };

    ghost by_rules: { (constants : Constants) → AreRules (rules_by constants) };
}

/// A store over one device of which a write can be made to tear.
pub trait Armable: Kv {
    /// The `n`-th program or erase from now is torn by the pattern. The store is as before but for
    /// its label, and for calls that may fail from now on.
    fn arm(&mut self, alloc: Global, n: u32, pattern: Pattern) -> Result<(), NoMemory>
        requires { 1 ≤ n }
        ensures { Arms (Self.state self.old) (Self.state self.new) pattern result };
}
