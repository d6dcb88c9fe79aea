// The call that ends an active set with its effect.
ghost use Rattle.std.specs.Prelude.{◌≡◌, length, IfErr};
ghost use Rattle.kv_model.specs.declared.error.KvError.TheVariants.{WriteFault};
ghost use Rattle.kv_model.specs.Given.{done_or};
ghost use Rattle.kv_model.specs.Kv.{answered};
ghost use Rattle.kv_model.specs.Operations.{Finish};
ghost use Rattle.record_core.specs.Endings.{kv_ended};
ghost use Rattle.tdb_read.specs.Views.{Ready, view_of};
ghost use Rattle.tdb_write.specs.Changes.{Changes};
ghost use Rattle.plain_store.specs.Begun.{IsBegun};
ghost use Rattle.plain_store.specs.Moments.{CutsBy};
ghost use Rattle.plain_store.specs.Sets.{open_of};
ghost use Rattle.plain_store.specs.Steps.{FinishesTo, finished_by};
ghost use Rattle.plain_store.specs.Stores.{CallsBy, Is};

use crate::notes::{note_finish, note_state};
use crate::{ActiveSet, Begun, PlainStore};
use flash_core::Flash;
use kv_model::KvError;
use record_core::REMOVE;
use tdb_read::MountedLog;
use tdb_write::{begin, complete, seal};

// Writes what was begun and is whole.
pub(crate) fn finish_begun<F: Flash>(
    log: &mut MountedLog<F>,
    active: ActiveSet,
) -> Result<(), KvError>
    requires ready { Ready F.state log.old }
    requires begun { IsBegun (view_of F.state log.old) active }
    requires whole { length (open_of active).bytes ≡ (open_of active).size }
    ensures changes { Changes (view_of F.state log.old) (view_of F.state log.new)
        (finished_by active) (FinishesTo (view_of F.state log.old) active.begun)
        (kv_ended result) }
    ensures fault { IfErr result (λ e. e ≡ WriteFault) }
{
    let ActiveSet { owner: _, begun } = active;
    match begun {
        Begun::Set {
            mut set,
            place,
            fed: _,
        } => seal(log, &mut set, place),
        Begun::Remove { key, place, copied } => match copied {
            None => {
                let mut set = begin(log, &key, REMOVE, 0);
                seal(log, &mut set, place)
            }
            Some(end) => complete(log, end),
        },
    }
}

impl<F: Flash> PlainStore<F> {
    pub fn set_finish(&mut self, who: u8) -> Result<(), KvError>
        requires is { Is F.state self.old }
        ensures is { Is F.state self.new }
        ensures answers { CallsBy F.state self.old self.new
            (answered who Finish (done_or result)) }
        ensures moments { CutsBy F.state self.old self.new who Finish }
    {
        self.check_running()?;
        self.check_owner(who)?;
        let left = self.bytes_left();
        let before = note_state(self);
        match self.active.take() {
            None => Err(KvError::NoSet),
            Some(active) => {
                if left > 0 {
                    return Err(KvError::InvalidSize);
                }
                match finish_begun(&mut self.log, active) {
                    Ok(()) => Ok(()),
                    Err(error) => {
                        self.stopped = Some(note_finish(before, who));
                        Err(error)
                    }
                }
            }
        }
    }
}
