// The iterators of a secure store, which are those of its primary store.
ghost use Rattle.std.specs.Prelude.{◌≡◌, ℕ};
ghost use Rattle.kv_model.specs.Given.{AreZerosFrom, done_or, found_end, found_or};
ghost use Rattle.kv_model.specs.Kv.{Answers, answered};
ghost use Rattle.kv_model.specs.Operations.{CloseIterator, Next, OpenIterator};
ghost use Rattle.secure_store.specs.Doubts.{StaysStopped};
ghost use Rattle.secure_store.specs.SecureState.{state_in};
ghost use Rattle.sealed_pair.specs.SecureStep.{secure_rules};

use crate::store::SecureStore;
use kv_model::{Kv, KvError};

impl<U: Kv, R: Kv> SecureStore<U, R> {
    /// Opens the caller's iterator `n` over the keys with a prefix that the primary store has, also
    /// over those that a get refuses.
    pub fn iter_open(&mut self, who: u8, n: u8, prefix: &[u8]) -> Result<(), KvError>
        ensures answers { Answers secure_rules (state_in self.old) (state_in self.new)
            (answered who (OpenIterator n prefix.now) (done_or result)) }
        ensures stopped { StaysStopped self.old.stopped self.new.stopped result }
        ensures number { self.new.iv ≡ self.old.iv }
        ensures stop { self.new.stopped ≡ self.old.stopped }
    {
        if self.stopped.is_some() {
            return Err(KvError::Stopped);
        }
        self.primary.iter_open(who, n, prefix)
    }

    /// Writes the next key of iterator `n` at the front of `out` and gives its length, or `None` at
    /// the end. The rest of `out` is 0, and all of it at the end and after a refusal.
    pub fn next(&mut self, who: u8, n: u8, out: &mut [u8; 128]) -> Result<Option<u8>, KvError>
        ensures answers { Answers secure_rules (state_in self.old) (state_in self.new)
            (answered who (Next n) (found_or result out.new)) }
        ensures zeros { AreZerosFrom (found_end result) out.new }
        ensures stopped { StaysStopped self.old.stopped self.new.stopped result }
        ensures number { self.new.iv ≡ self.old.iv }
        ensures stop { self.new.stopped ≡ self.old.stopped }
    {
        if self.stopped.is_some() {
            out.fill(0);
            return Err(KvError::Stopped);
        }
        self.primary.next(who, n, out)
    }

    /// Closes the caller's iterator `n`.
    pub fn iter_close(&mut self, who: u8, n: u8) -> Result<(), KvError>
        ensures answers { Answers secure_rules (state_in self.old) (state_in self.new)
            (answered who (CloseIterator n) (done_or result)) }
        ensures stopped { StaysStopped self.old.stopped self.new.stopped result }
        ensures number { self.new.iv ≡ self.old.iv }
        ensures stop { self.new.stopped ≡ self.old.stopped }
    {
        if self.stopped.is_some() {
            return Err(KvError::Stopped);
        }
        self.primary.iter_close(who, n)
    }
}
