// A collection in two halves: copies in the area that isn't active, and then its master record.
ghost use Rattle.std.specs.Prelude.{◌≡◌, ◌-◌, ◌<◌, ◌≤◌, ℕ, List, length, true, IfErr, IfOk, OnOk};
ghost use Rattle.std.specs.FinMap.{empty};
ghost use Rattle.kv_model.specs.declared.error.KvError.TheVariants.{WriteFault};
ghost use Rattle.area_log.specs.Areas.{IsAreaOf};
ghost use Rattle.ram_table.specs.declared.table.Place.{Place};
ghost use Rattle.ram_table.specs.Table.{KeepsRoom};
ghost use Rattle.record_core.specs.Endings.{kv_ended};
ghost use Rattle.tdb_mount.specs.Room.{area_of};
ghost use Rattle.tdb_read.specs.Reads.{IsFound};
ghost use Rattle.tdb_read.specs.Views.{Ready, view_of};
ghost use Rattle.kv_model.specs.FlaggedMap.{FlaggedMap};
ghost use Rattle.kv_model.specs.LogStep.{SameButOther};
ghost use Rattle.tdb_write.specs.Changes.{Changes, IsCopyRefusal, IsEmptied, unchanged};
ghost use Rattle.tdb_write.specs.Copying.{CanComplete, IsFoundAt, IsFoundCopied, IsPrepared, IsPreparedFor, IsRenewed, SameButSpare, completed, emptied};

use area_collect::{clear, copy_all};
use area_log::Area;
use flash_core::Flash;
use kv_model::KvError;
use record_core::write_master;
use std::mem::swap;
use tdb_mount::area_at;
use tdb_read::MountedLog;

// The area that isn't active.
fn other_area<F: Flash>(log: &MountedLog<F>) -> Area
    requires ready { Ready F.state log.now }
    ensures area { result ≡ area_of (F.state log.now.flash).geometry (1 - log.now.active) }
    ensures is_area { IsAreaOf (F.state log.now.flash).geometry result }
{
    area_at(log.flash.geometry(), 1 - log.active)
}

/// Copies the records that count to the area that isn't active. The answer is where the copies
/// end. Their places stand in the spare table, and of the log nothing else changes.
pub(crate) fn copy_live<F: Flash>(log: &mut MountedLog<F>) -> Result<u32, KvError>
    requires ready { Ready F.state log.old }
    ensures changes { Changes (view_of F.state log.old) (view_of F.state log.new) unchanged
        SameButOther (kv_ended result) }
    ensures refusal { IfErr result
        (IsCopyRefusal (F.state log.old.flash) (F.state log.new.flash)) }
    ensures memory { SameButSpare (view_of F.state log.old).log (view_of F.state log.new).log }
    ensures room { KeepsRoom log.old.spare log.new.spare }
    ensures prepared { IfOk result (λ end.
        IsPreparedFor (view_of F.state log.new) end unchanged) }
    ensures can { IfOk result (CanComplete (view_of F.state log.new)) }
    ensures count { IfOk result (λ _.
        length log.new.spare.entries ≡ length log.new.table.entries) }
    // each key's copy stands in the spare table where the key stands in the table
    ensures places { IfOk result (λ end. (key : List ℕ) (place : Place)
        → IsFound (view_of F.state log.old) key place
        → IsFoundCopied (view_of F.state log.new) end key place) }
{
    let from = log.area();
    let to = other_area(log);
    copy_all(
        &mut log.flash,
        &from,
        &to,
        &log.table,
        &mut log.spare,
        &mut log.work,
    )
}

/// Writes the master record of the next version before copies that end at `end`, and so makes them
/// the log. It takes back nothing: what the copies were made of is the map from then on.
/// `WriteFault` comes only where the count of write faults rose, and no other refusal comes.
pub fn complete<F: Flash>(log: &mut MountedLog<F>, end: u32) -> Result<(), KvError>
    requires ready { Ready F.state log.old }
    requires can { CanComplete (view_of F.state log.old) end }
    ensures fault { IfErr result (λ e. e ≡ WriteFault) }
    ensures memory { OnOk result ((view_of F.state log.new).log
        ≡ completed (view_of F.state log.old).log end) }
    ensures changes { (after : FlaggedMap → FlaggedMap)
        → IsPreparedFor (view_of F.state log.old) end after
        → Changes (view_of F.state log.old) (view_of F.state log.new) after
        (IsRenewed log.old.hash_bits after) (kv_ended result) }
    ensures places { OnOk result ((key : List ℕ) (place : Place)
        → IsFoundCopied (view_of F.state log.old) end key place
        → IsFound (view_of F.state log.new) key place) }
{
    let to = other_area(log);
    let version = log.version.wrapping_add(1);
    write_master(&mut log.flash, to.base, version, &mut log.work)?;
    log.active = 1 - log.active;
    log.version = version;
    log.end = end;
    log.is_clean = true;
    swap(&mut log.table, &mut log.spare);
    Ok(())
}

/// Copies the records that count to the area that isn't active, all but that of the key whose entry
/// is the one at `at`. The answer is where the copies end; `complete` makes them the log.
pub fn copy_without<F: Flash>(log: &mut MountedLog<F>, at: u32) -> Result<u32, KvError>
    requires ready { Ready F.state log.old }
    requires inside { at < length log.old.table.entries }
    ensures changes { Changes (view_of F.state log.old) (view_of F.state log.new) unchanged
        SameButOther (kv_ended result) }
    ensures refusal { IfErr result
        (IsCopyRefusal (F.state log.old.flash) (F.state log.new.flash)) }
    ensures memory { SameButSpare (view_of F.state log.old).log (view_of F.state log.new).log }
    ensures room { KeepsRoom log.old.spare log.new.spare }
    ensures prepared { (key : List ℕ) (place : Place)
        → IsFoundAt (view_of F.state log.old) key place at
        → IfOk result (λ end. IsPrepared (view_of F.state log.new) end key) }
{
    let from = log.area();
    let to = other_area(log);
    area_collect::copy_without(
        &mut log.flash,
        &from,
        &to,
        &log.table,
        &mut log.spare,
        at,
        &mut log.work,
    )
}

// Erases the area that isn't active, for a log without records. The answer is where that begins.
fn clear_other<F: Flash>(log: &mut MountedLog<F>) -> Result<u32, KvError>
    requires ready { Ready F.state log.old }
    ensures changes { Changes (view_of F.state log.old) (view_of F.state log.new) unchanged
        SameButOther (kv_ended result) }
    ensures fault { IfErr result (λ e. e ≡ WriteFault) }
    ensures memory { SameButSpare (view_of F.state log.old).log (view_of F.state log.new).log }
    ensures prepared { IfOk result (λ end.
        IsPreparedFor (view_of F.state log.new) end emptied) }
    ensures can { IfOk result (CanComplete (view_of F.state log.new)) }
{
    let to = other_area(log);
    clear(&mut log.flash, &to, &mut log.spare)
}

/// Makes the area that isn't active the log, without a record. Nothing is read. `WriteFault` comes
/// only where the count of write faults rose, and no other refusal comes.
pub fn reset<F: Flash>(log: &mut MountedLog<F>) -> Result<(), KvError>
    requires ready { Ready F.state log.old }
    ensures changes { Changes (view_of F.state log.old) (view_of F.state log.new) emptied
        IsEmptied (kv_ended result) }
    ensures fault { IfErr result (λ e. e ≡ WriteFault) }
{
    let end = clear_other(log)?;
    complete(log, end)
}
