// The calls of a secure store that write.
ghost use Rattle.std.specs.Prelude.{◌≡◌, true, None, is_none};
ghost use Rattle.kv_model.specs.Given.{done_or};
ghost use Rattle.kv_model.specs.Kv.{Answers, answered};
ghost use Rattle.kv_model.specs.Operations.{Remove, Reset};
ghost use Rattle.secure_store.specs.Doubts.{StaysStopped, StopsOnFault};
ghost use Rattle.secure_store.specs.SecureState.{state_in};
ghost use Rattle.sealed_pair.specs.SecureStep.{secure_rules};

use crate::asking::Asking;
use crate::doubt::in_doubt;
use crate::stop::Stop;
use crate::store::SecureStore;
use kv_model::{Kv, KvError};
use sealed_pair::{check_free, remove_both, reset_both};

impl<U: Kv, R: Kv> SecureStore<U, R> {
    /// Takes a key away from each store that has it: prepared in both, then done in the primary
    /// first. It takes no memory.
    pub fn remove(&mut self, who: u8, key: &[u8]) -> Result<(), KvError>
        ensures answers { Answers secure_rules (state_in self.old) (state_in self.new)
            (answered who (Remove key.now) (done_or result)) }
        ensures stopped { StaysStopped self.old.stopped self.new.stopped result }
        ensures stops { StopsOnFault self.old.stopped self.new.stopped result }
        ensures number { self.new.iv ≡ self.old.iv }
    {
        if self.stopped.is_some() {
            return Err(KvError::Stopped);
        }
        match check_free(&self.active, who) {
            Ok(()) => self.remove_free(who, key),
            Err(refusal) => {
                if !kv_model::is_key(key) {
                    return Err(KvError::InvalidKey);
                }
                Err(refusal)
            }
        }
    }

    // The same where no set is active.
    fn remove_free(&mut self, who: u8, key: &[u8]) -> Result<(), KvError>
        requires running { is_none self.old.stopped ≡ true }
        requires free { self.old.active ≡ None }
        ensures answers { Answers secure_rules (state_in self.old) (state_in self.new)
            (answered who (Remove key.now) (done_or result)) }
        ensures stops { StopsOnFault self.old.stopped self.new.stopped result }
        ensures number { self.new.iv ≡ self.old.iv }
    {
        let note = in_doubt(self, who, Asking::Remove { key });
        match remove_both(&mut self.primary, &mut self.rollback, who, key) {
            Ok(()) => Ok(()),
            Err(refusal) => {
                if refusal == KvError::WriteFault {
                    self.stopped = Some(Stop::InCall(note));
                }
                Err(refusal)
            }
        }
    }

    /// Takes all keys away, in the primary store first. It takes no memory.
    pub fn reset(&mut self, who: u8) -> Result<(), KvError>
        ensures answers { Answers secure_rules (state_in self.old) (state_in self.new)
            (answered who Reset (done_or result)) }
        ensures stopped { StaysStopped self.old.stopped self.new.stopped result }
        ensures stops { StopsOnFault self.old.stopped self.new.stopped result }
        ensures number { self.new.iv ≡ self.old.iv }
    {
        if self.stopped.is_some() {
            return Err(KvError::Stopped);
        }
        match check_free(&self.active, who) {
            Ok(()) => self.reset_free(who),
            Err(refusal) => Err(refusal),
        }
    }

    // The same where no set is active.
    fn reset_free(&mut self, who: u8) -> Result<(), KvError>
        requires running { is_none self.old.stopped ≡ true }
        requires free { self.old.active ≡ None }
        ensures answers { Answers secure_rules (state_in self.old) (state_in self.new)
            (answered who Reset (done_or result)) }
        ensures stops { StopsOnFault self.old.stopped self.new.stopped result }
        ensures number { self.new.iv ≡ self.old.iv }
    {
        let note = in_doubt(self, who, Asking::Reset);
        match reset_both(&mut self.primary, &mut self.rollback, who) {
            Ok(()) => Ok(()),
            Err(refusal) => {
                if refusal == KvError::WriteFault {
                    self.stopped = Some(Stop::InCall(note));
                }
                Err(refusal)
            }
        }
    }
}
