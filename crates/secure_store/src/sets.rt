// The set of a secure store.
ghost use Rattle.std.specs.Prelude.{◌≡◌, ◌+◌, ◌≤◌, true, None, is_none};
ghost use Rattle.kv_model.specs.Given.{done_or};
ghost use Rattle.kv_model.specs.Kv.{Answers, answered};
ghost use Rattle.kv_model.specs.Operations.{Set};
ghost use Rattle.kv_model.specs.Rules.{number_taken};
ghost use Rattle.sealed_pair.specs.Sealing.{is_numbered};
ghost use Rattle.secure_store.specs.Doubts.{StaysStopped, StopsOnFault};
ghost use Rattle.secure_store.specs.SecureState.{state_in};
ghost use Rattle.sealed_pair.specs.SecureStep.{last_number, secure_rules};
ghost use Rattle.sealed_pair.specs.Setting.{NumberLeft};

use crate::asking::Asking;
use crate::doubt::in_doubt;
use crate::stop::Stop;
use crate::store::SecureStore;
use kv_model::{Flags, Kv, KvError};
use sealed_pair::{MAX_SECURE_VALUE, WholeSet, check_free, is_numbered, is_secure, set_both};

/// The next number, once a set of these flags took its own.
pub(crate) fn next_number(flags: Flags, number: u64) -> u64
    requires { is_numbered flags.bits ≡ true → number + 1 ≤ last_number }
    ensures { result ≡ number_taken (is_numbered flags.bits) number }
{
    if is_numbered(flags) {
        number + 1
    } else {
        number
    }
}

impl<U: Kv, R: Kv> SecureStore<U, R> {
    /// Sets a value: its sealed record in the primary store, and where the flags ask for
    /// write-once or replay protection the record's tag in the rollback store, the primary first.
    /// Room for both is there before either map changes. A set with any flag takes the next
    /// number, also where a write fails; no other refusal takes it. Only the two stores take
    /// memory.
    ///
    /// `InvalidFlags` comes also where the rollback store has the key and the flags ask for
    /// neither, and `IvSpent` where a number is asked and the last one is left. `MediaFull` has the
    /// numbers of the store that lacks room.
    pub fn set(&mut self, who: u8, key: &[u8], value: &[u8], flags: Flags) -> Result<(), KvError>
        ensures answers { Answers secure_rules (state_in self.old) (state_in self.new)
            (answered who (Set key.now value.now flags.bits) (done_or result)) }
        ensures number { NumberLeft self.old.iv self.new.iv flags.bits result }
        ensures stopped { StaysStopped self.old.stopped self.new.stopped result }
        ensures stops { StopsOnFault self.old.stopped self.new.stopped result }
    {
        if self.stopped.is_some() {
            return Err(KvError::Stopped);
        }
        match check_free(&self.active, who) {
            Ok(()) => self.set_free(who, key, value, flags),
            Err(refusal) => {
                if !kv_model::is_key(key) {
                    return Err(KvError::InvalidKey);
                }
                if !is_secure(flags) {
                    return Err(KvError::InvalidFlags);
                }
                if value.len() > MAX_SECURE_VALUE as usize {
                    return Err(KvError::InvalidSize);
                }
                Err(refusal)
            }
        }
    }

    // The same where no set is active.
    fn set_free(&mut self, who: u8, key: &[u8], value: &[u8], flags: Flags) -> Result<(), KvError>
        requires running { is_none self.old.stopped ≡ true }
        requires free { self.old.active ≡ None }
        ensures answers { Answers secure_rules (state_in self.old) (state_in self.new)
            (answered who (Set key.now value.now flags.bits) (done_or result)) }
        ensures number { NumberLeft self.old.iv self.new.iv flags.bits result }
        ensures stops { StopsOnFault self.old.stopped self.new.stopped result }
    {
        let note = in_doubt(self, who, Asking::Set { key, value, flags });
        let number = self.iv;
        let (primary, rollback) = (&mut self.primary, &mut self.rollback);
        let set = WholeSet {
            who,
            key,
            value,
            flags,
        };
        match set_both(primary, rollback, &self.root, number, set) {
            Ok(()) => {
                self.iv = next_number(flags, number);
                Ok(())
            }
            Err(refusal) => {
                if refusal == KvError::WriteFault {
                    self.iv = next_number(flags, number);
                    self.stopped = Some(Stop::InCall(note));
                }
                Err(refusal)
            }
        }
    }
}
