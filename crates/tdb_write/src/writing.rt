// A record written at the end of a log, in as many pieces as there are.
ghost use Rattle.std.specs.Prelude.{◌≡◌, ◌+◌, ◌<◌, ◌≤◌, ◌^◌, ℕ, List, [], ◌++◌, length, false, true, IsTrue, IfErr, OnErr, OnOk};
ghost use Rattle.base_core.specs.Sizes.{record_size};
ghost use Rattle.kv_model.specs.declared.error.KvError.TheVariants.{WriteFault};
ghost use Rattle.kv_model.specs.Write.{applied};
ghost use Rattle.record_core.specs.Endings.{kv_ended};
ghost use Rattle.record_core.specs.Header.{IsHeader};
ghost use Rattle.inc_set.specs.Sets.{opened, record_of, with_bytes};
ghost use Rattle.tdb_read.specs.Reads.{IsFound};
ghost use Rattle.tdb_read.specs.Views.{Ready, view_of};
ghost use Rattle.tdb_write.specs.Changes.{Changes, IsReserved, KeepsPlaces, unchanged};
ghost use Rattle.tdb_write.specs.Writing.{FitsBehind, IsAppended, IsAtEnd, IsFed, IsWriting, SameButTail, SameButUnit, is_unprogrammed};

use flash_core::Flash;
use inc_set::OpenSet;
use kv_model::{Key, KvError};
use ram_table::Place;
use record_core::{REMOVE, hash_of};
use tdb_read::MountedLog;

// Whether no unit of a set with so many bytes is programmed yet.
fn has_no_unit(prog: usize, key_size: usize, fed: u32) -> bool
    requires { key_size + fed < 2 ^ 64 }
    ensures { result ≡ is_unprogrammed prog key_size fed }
{
    fed == 0 || key_size + (fed as usize) < prog
}

/// A set of `size` bytes under this key, whose record will stand at the log's end. `flags` is 0, 1
/// (write-once) or 2^31 (a remove, whose size is 0). It makes no device call.
pub fn begin<F: Flash>(log: &mut MountedLog<F>, key: &Key, flags: u32, size: u32) -> OpenSet
    requires ready { Ready F.state log.old }
    requires clean { IsTrue log.old.is_clean }
    requires header { IsHeader flags (length key.now) size }
    requires room { FitsBehind (view_of F.state log.old)
        (record_size (F.state log.old.flash).geometry.prog (length key.now) size) }
    ensures ready { Ready F.state log.new }
    ensures set { result ≡ opened key.now flags size log.old.end }
    ensures writing { IsWriting (view_of F.state log.new) result [] }
    ensures flash { log.new.flash ≡ log.old.flash }
    ensures memory { SameButUnit (view_of F.state log.old).log (view_of F.state log.new).log }
    ensures places { KeepsPlaces (view_of F.state log.old) (view_of F.state log.new) }
{
    OpenSet::begin(key, flags, size, log.end, &mut log.unit)
}

/// Takes the next bytes of a set's value, at most as many as are still missing, and programs each
/// unit that they complete. The first unit makes the tail dirty. `WriteFault` comes only where the
/// count of write faults rose, and no other refusal comes.
pub fn feed<F: Flash>(
    log: &mut MountedLog<F>,
    set: &mut OpenSet,
    bytes: &[u8],
) -> Result<(), KvError>
    requires ready { Ready F.state log.old }
    requires at_end { IsAtEnd (view_of F.state log.old) set.old }
    requires fits { set.old.fed + length bytes.now ≤ set.old.size }
    ensures set { OnOk result (set.new ≡ with_bytes set.old bytes.now) }
    ensures failed { OnErr result (set.new ≡ set.old) }
    ensures fault { IfErr result (λ e. e ≡ WriteFault) }
    ensures memory { OnOk result (SameButTail (view_of F.state log.old) set.old (length bytes.now)
        (view_of F.state log.new).log) }
    // What the set held it holds with these bytes behind it, and the map stays.
    ensures writing { (before : List ℕ) → IsWriting (view_of F.state log.old) set.old before
        → OnOk result (IsWriting (view_of F.state log.new) set.new (before ++ bytes.now)) }
    ensures changes { (before : List ℕ) → IsWriting (view_of F.state log.old) set.old before
        → Changes (view_of F.state log.old) (view_of F.state log.new) unchanged
        (IsFed (view_of F.state log.old) set.old (length bytes.now)) (kv_ended result) }
    ensures places { (before : List ℕ) → IsWriting (view_of F.state log.old) set.old before
        → OnOk result (KeepsPlaces (view_of F.state log.old) (view_of F.state log.new)) }
{
    set.feed(&mut log.flash, bytes, &mut log.unit)?;
    log.is_clean = has_no_unit(log.unit.len(), set.key().as_slice().len(), set.fed());
    Ok(())
}

/// Programs what of a set is not yet programmed, the header last, and then gives the record its
/// place in the table: `place` is the one that was found for its key. `WriteFault` comes only where
/// the count of write faults rose, and no other refusal comes.
pub fn seal<F: Flash>(
    log: &mut MountedLog<F>,
    set: &mut OpenSet,
    place: Place,
) -> Result<(), KvError>
    requires ready { Ready F.state log.old }
    requires at_end { IsAtEnd (view_of F.state log.old) set.old }
    requires whole { set.old.fed ≡ set.old.size }
    requires found { IsFound (view_of F.state log.old) set.old.key place }
    requires room { place.found ≡ false → IsReserved (view_of F.state log.old).log }
    ensures set { set.new ≡ set.old }
    ensures fault { IfErr result (λ e. e ≡ WriteFault) }
    ensures failed { OnErr result
        (SameButUnit (view_of F.state log.old).log (view_of F.state log.new).log) }
    // The map has the set's record, as far as it was written.
    ensures changes { (bytes : List ℕ) → IsWriting (view_of F.state log.old) set.old bytes
        → Changes (view_of F.state log.old) (view_of F.state log.new)
        (applied (record_of set.old bytes)) (IsAppended (record_of set.old bytes))
        (kv_ended result) }
{
    let at = log.end;
    log.end = set.seal(&mut log.flash, &mut log.unit)?;
    let hash = hash_of(set.key(), log.hash_bits);
    log.table.take_in(place, hash, at, set.flags() == REMOVE);
    log.is_clean = true;
    Ok(())
}
