// The calls that take a key away, at once or by a finish.
ghost use Rattle.std.specs.Prelude.{◌≡◌, true, Some, is_some, IfErr, IfOk, IsTrue, MatchResult};
ghost use Rattle.kv_model.specs.Given.{done_or};
ghost use Rattle.kv_model.specs.Keys.{is_key};
ghost use Rattle.kv_model.specs.Kv.{answered};
ghost use Rattle.kv_model.specs.Operations.{Remove, RemoveStart};
ghost use Rattle.record_core.specs.Endings.{kv_ended};
ghost use Rattle.tdb_read.specs.Reads.{IsFound};
ghost use Rattle.tdb_read.specs.Views.{OnlyRead, Ready, view_of};
ghost use Rattle.tdb_write.specs.Changes.{Changes, IsCopyRefusal, unchanged};
ghost use Rattle.tdb_write.specs.Copying.{without};
ghost use Rattle.plain_store.specs.Begun.{IsRemoveBegun, must_collect};
ghost use Rattle.plain_store.specs.Removing.{CanRemove, IsFreeFor, IsRemoveRefusal, Readies, RemovesFrom, remove_refusal};
ghost use Rattle.plain_store.specs.Moments.{CutsBy};
ghost use Rattle.plain_store.specs.Stores.{CallsBy, Is};

use crate::finishing::finish_begun;
use crate::notes::{note_remove, note_remove_start, note_state};
use crate::{ActiveSet, Begun, PlainStore};
use flash_core::Flash;
use kv_model::{Key, KvError};
use ram_table::Place;
use record_core::size_of_record;
use tdb_read::MountedLog;
use tdb_write::copy_without;

// Where a key stands that may be removed. Nothing is written.
fn find_removable<F: Flash>(log: &mut MountedLog<F>, key: &Key) -> Result<Place, KvError>
    requires ready { Ready F.state log.old }
    ensures ready { Ready F.state log.new }
    ensures reads { OnlyRead F.state log.old log.new }
    ensures can { MatchResult result (CanRemove (view_of F.state log.new) key.now)
        (IsRemoveRefusal (view_of F.state log.old) (view_of F.state log.new) key.now) }
{
    let place = log.find(key)?;
    if !place.found {
        return Err(KvError::NotFound);
    }
    let header = log.read_header(place.at)?;
    if header.flags % 2 == 1 {
        return Err(KvError::WriteProtected);
    }
    Ok(place)
}

// Whether a remove of this key has to collect: the tail is dirty, or too short for its record.
fn has_to_collect<F: Flash>(log: &MountedLog<F>, key: &Key) -> bool
    requires ready { Ready F.state log.now }
    ensures { result ≡ must_collect (view_of F.state log.now) key.now }
{
    let area = log.area();
    let prog = log.flash.geometry().prog;
    let wanted = size_of_record(prog, key.as_slice().len() as u32, 0);
    !log.is_clean || wanted > area.base + area.size - log.end
}

// Readies a remove, so that its finish reads nothing: where it has to collect, all other live
// records are copied. The answer is where the copies end.
fn ready_remove<F: Flash>(
    log: &mut MountedLog<F>,
    key: &Key,
    place: Place,
) -> Result<Option<u32>, KvError>
    requires ready { Ready F.state log.old }
    requires valid { IsTrue (is_key key.now) }
    requires found { IsFound (view_of F.state log.old) key.now place }
    requires there { place.found ≡ true }
    ensures changes { Changes (view_of F.state log.old) (view_of F.state log.new) unchanged
        (Readies (view_of F.state log.old) key.now) (kv_ended result) }
    ensures refusal { IfErr result
        (IsCopyRefusal (F.state log.old.flash) (F.state log.new.flash)) }
    ensures begun { IfOk result (IsRemoveBegun (view_of F.state log.new) key.now place) }
    ensures exactly { IfOk result (λ copied.
        is_some copied ≡ must_collect (view_of F.state log.old) key.now) }
{
    if !has_to_collect(log, key) {
        return Ok(None);
    }
    let end = copy_without(log, place.at)?;
    Ok(Some(end))
}

// Takes a key away that was found here.
fn remove_found<F: Flash>(
    log: &mut MountedLog<F>,
    owner: u8,
    key: Key,
    place: Place,
) -> Result<(), KvError>
    requires ready { Ready F.state log.old }
    requires valid { IsTrue (is_key key) }
    requires found { IsFound (view_of F.state log.old) key place }
    requires there { place.found ≡ true }
    ensures changes { Changes (view_of F.state log.old) (view_of F.state log.new)
        (without key) (RemovesFrom (view_of F.state log.old) key) (kv_ended result) }
    ensures refusal { IfErr result
        (IsCopyRefusal (F.state log.old.flash) (F.state log.new.flash)) }
{
    let copied = ready_remove(log, &key, place)?;
    let begun = Begun::Remove { key, place, copied };
    finish_begun(log, ActiveSet { owner, begun })
}

impl<F: Flash> PlainStore<F> {
    // The refusals of a remove that need no read, in their order.
    fn check_remove(&self, who: u8, key: &[u8]) -> Result<Key, KvError>
        ensures key { IfOk result (λ its. its ≡ key.now) }
        ensures allowed { MatchResult result (λ _. IsFreeFor self.now.active key.now)
            (λ e. remove_refusal self.now.active who key.now ≡ Some e) }
    {
        let key = Key::new(key)?;
        self.check_free(who)?;
        Ok(key)
    }

    /// Begins a remove: the caller's finish takes the key away, and until then all see it. Nothing
    /// is programmed where the log has room for the record of a remove; where it has none, all
    /// other live records are copied.
    ///
    /// `Stopped` comes where a failed write stopped the store, `InvalidKey` where the bytes are no
    /// key, `SetOpen` and `Busy` where a set of the caller or of another is active, `NotFound`
    /// where the key is absent, and `WriteProtected` where its value may be set once only.
    /// `ReadFault` and `WriteFault` come of a device that failed, and the second stops the store.
    /// `Corrupt` comes of a record that is not what was written.
    pub fn remove_start(&mut self, who: u8, key: &[u8]) -> Result<(), KvError>
        requires is { Is F.state self.old }
        ensures is { Is F.state self.new }
        ensures answers { CallsBy F.state self.old self.new
            (answered who (RemoveStart key.now) (done_or result)) }
        ensures moments { CutsBy F.state self.old self.new who (RemoveStart key.now) }
    {
        self.check_running()?;
        let key = self.check_remove(who, key)?;
        let note = note_remove_start(note_state(self), who, &key);
        let place = find_removable(&mut self.log, &key)?;
        match ready_remove(&mut self.log, &key, place) {
            Ok(copied) => {
                self.active = Some(ActiveSet {
                    owner: who,
                    begun: Begun::Remove { key, place, copied },
                });
                Ok(())
            }
            Err(error) => {
                if error == KvError::WriteFault {
                    self.stopped = Some(note);
                }
                Err(error)
            }
        }
    }

    /// Takes a key away, as a remove that is begun and its finish do, in one event. The refusals
    /// are those of `remove_start`.
    pub fn remove(&mut self, who: u8, key: &[u8]) -> Result<(), KvError>
        requires is { Is F.state self.old }
        ensures is { Is F.state self.new }
        ensures answers { CallsBy F.state self.old self.new
            (answered who (Remove key.now) (done_or result)) }
        ensures moments { CutsBy F.state self.old self.new who (Remove key.now) }
    {
        self.check_running()?;
        let key = self.check_remove(who, key)?;
        let note = note_remove(note_state(self), who, &key);
        let place = find_removable(&mut self.log, &key)?;
        match remove_found(&mut self.log, who, key, place) {
            Ok(()) => Ok(()),
            Err(error) => {
                if error == KvError::WriteFault {
                    self.stopped = Some(note);
                }
                Err(error)
            }
        }
    }
}
