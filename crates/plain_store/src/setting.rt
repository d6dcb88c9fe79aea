// The calls that set a value, at once or in pieces.
ghost use Rattle.std.specs.Prelude.{◌≡◌, ◌≤◌, ◌<◌, ◌^◌, length, true, false, IfErr, IfOk, IsTrue, MatchResult, Some, []};
ghost use Rattle.kv_model.specs.declared.error.KvError.TheVariants.{WriteFault};
ghost use Rattle.kv_model.specs.declared.limits.TheConstants.{MAX_VALUE as LongestValue};
ghost use Rattle.kv_model.specs.Flags.{is_plain_flags};
ghost use Rattle.kv_model.specs.Given.{done_or};
ghost use Rattle.kv_model.specs.Keys.{is_key};
ghost use Rattle.kv_model.specs.Kv.{answered};
ghost use Rattle.kv_model.specs.Operations.{Set as SetOf, Start};
ghost use Rattle.kv_model.specs.Write.{applied};
ghost use Rattle.record_core.specs.Endings.{kv_ended};
ghost use Rattle.inc_set.specs.Sets.{opened, record_of};
ghost use Rattle.tdb_read.specs.Reads.{IsFound};
ghost use Rattle.tdb_read.specs.Views.{OnlyRead, Ready, view_of};
ghost use Rattle.tdb_write.specs.Changes.{Changes, IsCopyRefusal, MakesRoom, unchanged};
ghost use Rattle.tdb_write.specs.Writing.{IsAppended};
ghost use Rattle.plain_store.specs.Begun.{IsSetBegun};
ghost use Rattle.plain_store.specs.Moments.{CutsBy};
ghost use Rattle.plain_store.specs.Setting.{CanSet, HasLookedUp, IsAllowed, IsProtected, IsProtectedOr, IsSetRefusal, early_refusal, size_at, write_of};
ghost use Rattle.plain_store.specs.Steps.{SetsRecord};
ghost use Rattle.plain_store.specs.Stores.{CallsBy, Is};

use crate::notes::{note_set, note_start, note_state};
use crate::{ActiveSet, Begun, PlainStore};
use flash_core::Flash;
use inc_set::OpenSet;
use kv_model::{Flags, Key, KvError, MAX_VALUE};
use ram_table::Place;
use record_core::size_of_record;
use store_note::note_bytes;
use tdb_read::MountedLog;
use tdb_write::{begin, check_room, feed, make_room, reserve, seal};

// What the record of a key and a value of this size takes.
fn size_for<F: Flash>(log: &MountedLog<F>, key: &Key, size: u32) -> u32
    requires ready { Ready F.state log.now }
    requires small { size ≤ LongestValue }
    ensures size { result ≡ size_at (view_of F.state log.now) key.now size }
    ensures below { result < 2 ^ 31 }
    ensures valid { IsTrue (is_key key.now) }
{
    let prog = log.flash.geometry().prog;
    size_of_record(prog, key.as_slice().len() as u32, size)
}

// Whether the key that stands at a place has no value that may be set once only.
fn check_protected<F: Flash>(
    log: &mut MountedLog<F>,
    key: &Key,
    place: Place,
) -> Result<(), KvError>
    requires ready { Ready F.state log.old }
    requires found { IsFound (view_of F.state log.old) key.now place }
    ensures ready { Ready F.state log.new }
    ensures reads { OnlyRead F.state log.old log.new }
    ensures unprotected { MatchResult result
        (λ _. IsProtected (view_of F.state log.old) key.now false)
        (IsProtectedOr (view_of F.state log.old) (view_of F.state log.new) key.now) }
{
    if !place.found {
        return Ok(());
    }
    let header = log.read_header(place.at)?;
    let is_protected = header.flags % 2 == 1;
    if is_protected {
        return Err(KvError::WriteProtected);
    }
    Ok(())
}

// Where a key stands in the table or would stand, which may be set to a value of this size. Nothing
// is written.
fn look_up<F: Flash>(log: &mut MountedLog<F>, key: &Key, size: u32) -> Result<Place, KvError>
    requires ready { Ready F.state log.old }
    requires small { size ≤ LongestValue }
    ensures ready { Ready F.state log.new }
    ensures reads { HasLookedUp (view_of F.state log.old) (view_of F.state log.new) }
    ensures can { MatchResult result (CanSet (view_of F.state log.new) key.now size)
        (IsSetRefusal (view_of F.state log.old) (view_of F.state log.new) key.now size) }
{
    let place = log.find(key)?;
    check_protected(log, key, place)?;
    let wanted = size_for(log, key, size);
    check_room(log, wanted)?;
    reserve(log)?;
    Ok(place)
}

// Begins a set, where the log has room for its record once it is collected.
fn begin_set<F: Flash>(
    log: &mut MountedLog<F>,
    key: &Key,
    place: Place,
    size: u32,
    flags: Flags,
) -> Result<OpenSet, KvError>
    requires ready { Ready F.state log.old }
    requires can { CanSet (view_of F.state log.old) key.now size place }
    requires small { size ≤ LongestValue }
    requires plain { is_plain_flags flags.bits ≡ true }
    ensures changes { Changes (view_of F.state log.old) (view_of F.state log.new) unchanged
        (MakesRoom (view_of F.state log.old) (size_at (view_of F.state log.old) key.now size))
        (kv_ended result) }
    ensures refusal { IfErr result
        (IsCopyRefusal (F.state log.old.flash) (F.state log.new.flash)) }
    ensures begun { IfOk result (λ set. IsSetBegun (view_of F.state log.new) set place []) }
    ensures set { IfOk result (λ set. set ≡ opened key.now flags.bits size log.new.end) }
{
    let wanted = size_for(log, key, size);
    make_room(log, wanted)?;
    Ok(begin(log, key, flags.bits, size))
}

// Feeds a set that was just begun its whole value, and seals it.
fn write_value<F: Flash>(
    log: &mut MountedLog<F>,
    mut set: OpenSet,
    place: Place,
    value: &[u8],
) -> Result<(), KvError>
    requires ready { Ready F.state log.old }
    requires begun { IsSetBegun (view_of F.state log.old) set place [] }
    requires size { set.size ≡ length value.now }
    ensures changes { Changes (view_of F.state log.old) (view_of F.state log.new)
        (applied (record_of set value.now)) (IsAppended (record_of set value.now))
        (kv_ended result) }
    ensures fault { IfErr result (λ e. e ≡ WriteFault) }
{
    feed(log, &mut set, value)?;
    seal(log, &mut set, place)
}

// Writes the record of a key and a value, where the log has room for it once it is collected.
fn write_set<F: Flash>(
    log: &mut MountedLog<F>,
    key: &Key,
    place: Place,
    value: &[u8],
    flags: Flags,
) -> Result<(), KvError>
    requires ready { Ready F.state log.old }
    requires can { CanSet (view_of F.state log.old) key.now (length value.now) place }
    requires small { length value.now ≤ LongestValue }
    requires plain { is_plain_flags flags.bits ≡ true }
    ensures changes { Changes (view_of F.state log.old) (view_of F.state log.new)
        (applied (write_of key.now value.now flags.bits))
        (SetsRecord (view_of F.state log.old) (write_of key.now value.now flags.bits))
        (kv_ended result) }
    ensures refusal { IfErr result
        (IsCopyRefusal (F.state log.old.flash) (F.state log.new.flash)) }
{
    let set = begin_set(log, key, place, value.len() as u32, flags)?;
    write_value(log, set, place, value)
}

impl<F: Flash> PlainStore<F> {
    // The refusals of a set that need no read, in their order.
    fn check_set(&self, who: u8, key: &[u8], size: usize, flags: Flags) -> Result<Key, KvError>
        ensures key { IfOk result (λ its. its ≡ key.now) }
        ensures allowed { MatchResult result
            (λ _. IsAllowed self.now.active key.now size flags.bits)
            (λ e. early_refusal self.now.active who key.now size flags.bits ≡ Some e) }
    {
        let key = Key::new(key)?;
        if flags.bits > 1 {
            return Err(KvError::InvalidFlags);
        }
        if size > MAX_VALUE as usize {
            return Err(KvError::InvalidSize);
        }
        self.check_free(who)?;
        Ok(key)
    }

    /// Begins a set of `size` bytes under a key, for its owner to feed and to finish. The refusals
    /// are `InvalidKey`, `InvalidFlags`, `InvalidSize` above `MAX_VALUE`, `SetOpen` and `Busy`
    /// while a set is active, `WriteProtected`, `MediaFull` where the records would not fit,
    /// `Memory`, and what the device fails with. A `WriteFault` stops the store.
    pub fn set_start(&mut self, who: u8, key: &[u8], size: u32, flags: Flags) -> Result<(), KvError>
        requires is { Is F.state self.old }
        ensures is { Is F.state self.new }
        ensures answers { CallsBy F.state self.old self.new
            (answered who (Start key.now size flags.bits) (done_or result)) }
        ensures moments { CutsBy F.state self.old self.new who
            (Start key.now size flags.bits) }
    {
        self.check_running()?;
        let key = self.check_set(who, key, size as usize, flags)?;
        let before = note_state(self);
        let place = look_up(&mut self.log, &key, size)?;
        match begin_set(&mut self.log, &key, place, size, flags) {
            Ok(set) => {
                let fed = note_bytes(&[]);
                self.active = Some(ActiveSet {
                    owner: who,
                    begun: Begun::Set { set, place, fed },
                });
                Ok(())
            }
            Err(error) => {
                if error != KvError::WriteFault {
                    return Err(error);
                }
                self.stopped = Some(note_start(before, who, &key, size, flags));
                Err(error)
            }
        }
    }

    /// Sets a key's value at once, in place of one that it has. The refusals are those of
    /// `set_start`. A power cut leaves the value before the call or this one.
    pub fn set(&mut self, who: u8, key: &[u8], value: &[u8], flags: Flags) -> Result<(), KvError>
        requires is { Is F.state self.old }
        ensures is { Is F.state self.new }
        ensures answers { CallsBy F.state self.old self.new
            (answered who (SetOf key.now value.now flags.bits) (done_or result)) }
        ensures moments { CutsBy F.state self.old self.new who
            (SetOf key.now value.now flags.bits) }
    {
        self.check_running()?;
        let key = self.check_set(who, key, value.len(), flags)?;
        let before = note_state(self);
        let place = look_up(&mut self.log, &key, value.len() as u32)?;
        match write_set(&mut self.log, &key, place, value, flags) {
            Ok(()) => Ok(()),
            Err(error) => {
                if error != KvError::WriteFault {
                    return Err(error);
                }
                self.stopped = Some(note_set(before, who, &key, value, flags));
                Err(error)
            }
        }
    }
}
