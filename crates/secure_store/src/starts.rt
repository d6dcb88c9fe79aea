// The start of a set that is written in pieces.
ghost use Rattle.std.specs.Prelude.{◌≡◌, true, None, is_none};
ghost use Rattle.kv_model.specs.Given.{done_or};
ghost use Rattle.kv_model.specs.Kv.{Answers, answered};
ghost use Rattle.kv_model.specs.Operations.{Start};
ghost use Rattle.secure_store.specs.Doubts.{StaysStopped, StopsOnFault};
ghost use Rattle.secure_store.specs.SecureState.{state_in};
ghost use Rattle.sealed_pair.specs.SecureStep.{secure_rules};
ghost use Rattle.sealed_pair.specs.Setting.{NumberLeft};

use crate::asking::Asking;
use crate::doubt::in_doubt;
use crate::sets::next_number;
use crate::stop::Stop;
use crate::store::SecureStore;
use kv_model::{Flags, Kv, KvError};
use sealed_pair::{MAX_SECURE_VALUE, SetStart, check_free, is_secure, key_of, start_set};

impl<U: Kv, R: Kv> SecureStore<U, R> {
    /// Begins a set that is written in pieces, of a value of this size in bytes. Nothing of it is
    /// written yet, but room for it is there in both stores. It takes a number as `set` does, and
    /// is refused as `set` is. Only the two stores take memory.
    pub fn set_start(&mut self, who: u8, key: &[u8], size: u32, flags: Flags) -> Result<(), KvError>
        ensures answers { Answers secure_rules (state_in self.old) (state_in self.new)
            (answered who (Start key.now size flags.bits) (done_or result)) }
        ensures number { NumberLeft self.old.iv self.new.iv flags.bits result }
        ensures stopped { StaysStopped self.old.stopped self.new.stopped result }
        ensures stops { StopsOnFault self.old.stopped self.new.stopped result }
    {
        if self.stopped.is_some() {
            return Err(KvError::Stopped);
        }
        let key = match key_of(key) {
            Ok(key) => key,
            Err(refusal) => return Err(refusal),
        };
        match check_free(&self.active, who) {
            Ok(()) => self.set_start_free(SetStart {
                who,
                key,
                size,
                flags,
            }),
            Err(refusal) => {
                if !is_secure(flags) {
                    return Err(KvError::InvalidFlags);
                }
                if size > MAX_SECURE_VALUE {
                    return Err(KvError::InvalidSize);
                }
                Err(refusal)
            }
        }
    }

    // The same where no set is active.
    fn set_start_free(&mut self, start: SetStart) -> Result<(), KvError>
        requires running { is_none self.old.stopped ≡ true }
        requires free { self.old.active ≡ None }
        ensures answers { Answers secure_rules (state_in self.old) (state_in self.new)
            (answered start.who (Start start.key start.size start.flags.bits) (done_or result)) }
        ensures number { NumberLeft self.old.iv self.new.iv start.flags.bits result }
        ensures stops { StopsOnFault self.old.stopped self.new.stopped result }
    {
        let (size, flags) = (start.size, start.flags);
        let call = Asking::Start {
            key: start.key.as_slice(),
            size,
            flags,
        };
        let note = in_doubt(self, start.who, call);
        let number = self.iv;
        let (primary, rollback) = (&mut self.primary, &mut self.rollback);
        match start_set(primary, rollback, &self.root, number, start) {
            Ok(active) => {
                self.iv = next_number(flags, number);
                self.active = Some(active);
                Ok(())
            }
            Err(refusal) => {
                if refusal == KvError::WriteFault {
                    self.iv = next_number(flags, number);
                    self.stopped = Some(Stop::InCall(note));
                }
                Err(refusal)
            }
        }
    }
}
