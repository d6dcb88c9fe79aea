// The calls of a secure store on what is begun and finished later.
ghost use Rattle.std.specs.Prelude.{◌≡◌, true, None, is_none};
ghost use Rattle.kv_model.specs.Given.{done_or};
ghost use Rattle.kv_model.specs.Kv.{Answers, answered};
ghost use Rattle.kv_model.specs.Operations.{Abort, Add, Finish, RemoveStart};
ghost use Rattle.secure_store.specs.Doubts.{StaysStopped, StopsOnFault};
ghost use Rattle.secure_store.specs.SecureState.{state_in};
ghost use Rattle.sealed_pair.specs.SecureStep.{secure_rules};

use crate::asking::Asking;
use crate::doubt::in_doubt;
use crate::stop::Stop;
use crate::store::SecureStore;
use kv_model::{Key, Kv, KvError};
use sealed_pair::{
    abort_both, add_both, begin_both, check_free, finish_both, key_of, may_take, take_own,
};

impl<U: Kv, R: Kv> SecureStore<U, R> {
    /// Begins a remove that `set_finish` completes. It makes every check and read of `remove`, and
    /// takes no memory.
    pub fn remove_start(&mut self, who: u8, key: &[u8]) -> Result<(), KvError>
        ensures answers { Answers secure_rules (state_in self.old) (state_in self.new)
            (answered who (RemoveStart key.now) (done_or result)) }
        ensures stopped { StaysStopped self.old.stopped self.new.stopped result }
        ensures stops { StopsOnFault self.old.stopped self.new.stopped result }
        ensures number { self.new.iv ≡ self.old.iv }
    {
        if self.stopped.is_some() {
            return Err(KvError::Stopped);
        }
        match key_of(key) {
            Ok(key) => match check_free(&self.active, who) {
                Ok(()) => self.remove_start_free(who, key),
                Err(refusal) => Err(refusal),
            },
            Err(refusal) => Err(refusal),
        }
    }

    // The same where no set is active.
    fn remove_start_free(&mut self, who: u8, key: Key) -> Result<(), KvError>
        requires running { is_none self.old.stopped ≡ true }
        requires free { self.old.active ≡ None }
        ensures answers { Answers secure_rules (state_in self.old) (state_in self.new)
            (answered who (RemoveStart key) (done_or result)) }
        ensures stops { StopsOnFault self.old.stopped self.new.stopped result }
        ensures number { self.new.iv ≡ self.old.iv }
    {
        let call = Asking::RemoveStart {
            key: key.as_slice(),
        };
        let note = in_doubt(self, who, call);
        match begin_both(&mut self.primary, &mut self.rollback, who, key) {
            Ok(active) => {
                self.active = Some(active);
                Ok(())
            }
            Err(refusal) => {
                if refusal == KvError::WriteFault {
                    self.stopped = Some(Stop::InCall(note));
                }
                Err(refusal)
            }
        }
    }

    /// Appends bytes to what the caller has begun, sealed as they come. A remove takes none. It
    /// takes no memory.
    ///
    /// `InvalidSize` comes where the set wants fewer bytes; then none is appended.
    pub fn set_add(&mut self, who: u8, value: &[u8]) -> Result<(), KvError>
        ensures answers { Answers secure_rules (state_in self.old) (state_in self.new)
            (answered who (Add value.now) (done_or result)) }
        ensures stopped { StaysStopped self.old.stopped self.new.stopped result }
        ensures stops { StopsOnFault self.old.stopped self.new.stopped result }
        ensures number { self.new.iv ≡ self.old.iv }
    {
        if self.stopped.is_some() {
            return Err(KvError::Stopped);
        }
        let note = in_doubt(self, who, Asking::Add { value });
        let active = match take_own(&mut self.active, who) {
            None => return Err(KvError::NoSet),
            Some(active) => active,
        };
        if !may_take(&active.begun, value.len()) {
            self.active = Some(active);
            return Err(KvError::InvalidSize);
        }
        match add_both(&mut self.primary, &mut self.rollback, active, value) {
            Ok(active) => {
                self.active = Some(active);
                Ok(())
            }
            Err(refusal) => {
                if refusal == KvError::WriteFault {
                    self.stopped = Some(Stop::InCall(note));
                }
                Err(refusal)
            }
        }
    }

    /// Completes what the caller has begun, in the primary store first. It takes no memory.
    ///
    /// `InvalidSize` comes where bytes of the value are missing, and the set is given up.
    pub fn set_finish(&mut self, who: u8) -> Result<(), KvError>
        ensures answers { Answers secure_rules (state_in self.old) (state_in self.new)
            (answered who Finish (done_or result)) }
        ensures stopped { StaysStopped self.old.stopped self.new.stopped result }
        ensures stops { StopsOnFault self.old.stopped self.new.stopped result }
        ensures number { self.new.iv ≡ self.old.iv }
    {
        if self.stopped.is_some() {
            return Err(KvError::Stopped);
        }
        let note = in_doubt(self, who, Asking::Finish);
        let active = match take_own(&mut self.active, who) {
            None => return Err(KvError::NoSet),
            Some(active) => active,
        };
        match finish_both(&mut self.primary, &mut self.rollback, active) {
            Ok(()) => Ok(()),
            Err(refusal) => {
                if refusal == KvError::WriteFault {
                    self.stopped = Some(Stop::InCall(note));
                }
                Err(refusal)
            }
        }
    }

    /// Gives up what the caller has begun.
    pub fn set_abort(&mut self, who: u8) -> Result<(), KvError>
        ensures answers { Answers secure_rules (state_in self.old) (state_in self.new)
            (answered who Abort (done_or result)) }
        ensures stopped { StaysStopped self.old.stopped self.new.stopped result }
        ensures number { self.new.iv ≡ self.old.iv }
        ensures stop { self.new.stopped ≡ self.old.stopped }
    {
        if self.stopped.is_some() {
            return Err(KvError::Stopped);
        }
        match take_own(&mut self.active, who) {
            None => Err(KvError::NoSet),
            Some(_) => {
                abort_both(&mut self.primary, &mut self.rollback, who);
                Ok(())
            }
        }
    }
}
