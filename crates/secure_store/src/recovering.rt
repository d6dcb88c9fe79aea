// The recover of a secure store.
ghost use Rattle.std.specs.Prelude.{◌≡◌, true, None, is_none};
ghost use Rattle.secure_store.specs.Recover.{HasNoIterators, HasRecovered, StopsAfter};
ghost use Rattle.secure_store.specs.Doubts.{StaysStopped};
ghost use Rattle.secure_store.specs.SecureState.{state_in};

use crate::stop::Stop;
use crate::store::SecureStore;
use kv_model::{Kv, KvError};
use sealed_pair::heal_all;

// Why a recover that ended so stops the store, if it does.
fn stop_after(healed: &Result<u32, KvError>) -> Option<Stop>
    ensures { StopsAfter healed.now result }
{
    match healed {
        Ok(_) => None,
        Err(refusal) => {
            if *refusal == KvError::WriteFault {
                return Some(Stop::InRecover);
            }
            None
        }
    }
}

impl<U: Kv, R: Kv> SecureStore<U, R> {
    /// Completes each set of a mirrored key that was cut between the two stores, and tells how
    /// many tags of the rollback store changed. It is made after a mount, while no set and no
    /// iterator is active, and takes memory.
    ///
    /// `ReadFault`, `WriteFault`, `Corrupt` and `Memory` may come in its midst: each tag is then
    /// the one before or the healed one. After `WriteFault` the store is stopped, and tells no
    /// state from then on.
    pub fn recover(&mut self) -> Result<u32, KvError>
        requires free { self.old.active ≡ None }
        requires iterators { HasNoIterators (U.state self.old.primary) }
        ensures recovers { HasRecovered (state_in self.old) (state_in self.new) result }
        ensures stopped { StaysStopped self.old.stopped self.new.stopped result }
        ensures stops { is_none self.old.stopped ≡ true → StopsAfter result self.new.stopped }
        ensures number { self.new.iv ≡ self.old.iv }
    {
        if self.stopped.is_some() {
            return Err(KvError::Stopped);
        }
        self.recover_free()
    }

    // The same of a store that runs.
    fn recover_free(&mut self) -> Result<u32, KvError>
        requires running { is_none self.old.stopped ≡ true }
        requires free { self.old.active ≡ None }
        requires iterators { HasNoIterators (U.state self.old.primary) }
        ensures recovers { HasRecovered (state_in self.old) (state_in self.new) result }
        ensures stops { StopsAfter result self.new.stopped }
        ensures number { self.new.iv ≡ self.old.iv }
    {
        let (primary, rollback) = (&mut self.primary, &mut self.rollback);
        let healed = heal_all(primary, rollback, &self.root, 0);
        self.stopped = stop_after(&healed);
        healed
    }
}
