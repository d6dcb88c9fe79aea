// The call that feeds an active set.
ghost use Rattle.std.specs.Prelude.{◌≡◌, ◌≤◌, ◌+◌, ◌<◌, ◌^◌, length, IfErr, IfOk};
ghost use Rattle.std.specs.Option.{ForSome};
ghost use Rattle.kv_model.specs.declared.error.KvError.TheVariants.{WriteFault};
ghost use Rattle.kv_model.specs.Given.{done_or};
ghost use Rattle.kv_model.specs.Kv.{answered};
ghost use Rattle.kv_model.specs.Operations.{Add};
ghost use Rattle.kv_model.specs.StoreState.{OpenSet as SetOf};
ghost use Rattle.record_core.specs.Endings.{kv_ended};
ghost use Rattle.tdb_read.specs.Views.{Ready, view_of};
ghost use Rattle.tdb_write.specs.Changes.{Changes, unchanged};
ghost use Rattle.plain_store.specs.Begun.{IsBegun};
ghost use Rattle.plain_store.specs.Fed.{StandsSoFar};
ghost use Rattle.plain_store.specs.Moments.{CutsBy};
ghost use Rattle.plain_store.specs.Sets.{open_of, set_in, with_more};
ghost use Rattle.plain_store.specs.Steps.{AddsTo};
ghost use Rattle.plain_store.specs.Stores.{CallsBy, Is, IsRunning};

use crate::notes::{note_add, note_state};
use crate::{ActiveSet, Begun, PlainStore};
use flash_core::Flash;
use kv_model::KvError;
use store_note::note_more;
use tdb_read::MountedLog;
use tdb_write::feed;

// Feeds what was begun, which takes so many bytes more. A remove takes none.
fn feed_begun<F: Flash>(
    log: &mut MountedLog<F>,
    active: ActiveSet,
    value: &[u8],
) -> Result<ActiveSet, KvError>
    requires ready { Ready F.state log.old }
    requires begun { IsBegun (view_of F.state log.old) active }
    requires fits { length (open_of active).bytes + length value.now ≤ (open_of active).size }
    ensures changes { Changes (view_of F.state log.old) (view_of F.state log.new) unchanged
        (AddsTo (view_of F.state log.old) active.begun (length value.now)) (kv_ended result) }
    ensures fault { IfErr result (λ e. e ≡ WriteFault) }
    ensures begun { IfOk result (IsBegun (view_of F.state log.new)) }
    ensures fed { IfOk result (λ next. open_of next ≡ with_more value.now (open_of active)) }
{
    let ActiveSet { owner, begun } = active;
    match begun {
        Begun::Set {
            mut set,
            place,
            fed,
        } => {
            feed(log, &mut set, value)?;
            let fed = note_more(fed, value);
            Ok(ActiveSet {
                owner,
                begun: Begun::Set { set, place, fed },
            })
        }
        Begun::Remove { key, place, copied } => Ok(ActiveSet {
            owner,
            begun: Begun::Remove { key, place, copied },
        }),
    }
}

impl<F: Flash> PlainStore<F> {
    // How many bytes an active set still takes.
    pub(crate) fn bytes_left(&self) -> u32
        requires runs { IsRunning (view_of F.state self.now.log) self.now.active }
        ensures { ForSome (set_in self.now.active) (λ (set : SetOf).
            length set.bytes + result ≡ set.size) }
    {
        match &self.active {
            None => 0,
            Some(active) => match &active.begun {
                Begun::Set { set, .. } => set.size() - set.fed(),
                Begun::Remove { .. } => 0,
            },
        }
    }

    pub fn set_add(&mut self, who: u8, value: &[u8]) -> Result<(), KvError>
        requires is { Is F.state self.old }
        ensures is { Is F.state self.new }
        ensures answers { CallsBy F.state self.old self.new
            (answered who (Add value.now) (done_or result)) }
        ensures moments { CutsBy F.state self.old self.new who (Add value.now) }
        ensures long_writer { 1 ≤ length value.now → IfOk result (λ done.
            StandsSoFar F.state self.new) }
    {
        self.check_running()?;
        self.check_owner(who)?;
        if value.len() > self.bytes_left() as usize {
            return Err(KvError::InvalidSize);
        }
        let before = note_state(self);
        match self.active.take() {
            None => Err(KvError::NoSet),
            Some(active) => match feed_begun(&mut self.log, active, value) {
                Ok(active) => {
                    self.active = Some(active);
                    Ok(())
                }
                Err(error) => {
                    self.stopped = Some(note_add(before, who, value));
                    Err(error)
                }
            },
        }
    }
}
