// Room for one record more.
ghost use Rattle.std.specs.Prelude.{◌≡◌, ◌⊎◌, ◌+◌, ◌≤◌, ℕ, List, length, IsTrue, true, nat_le, IfErr, MatchResult, OnOk};
ghost use Rattle.area_log.specs.Areas.{end_of};
ghost use Rattle.ram_table.specs.declared.table.Place.{Place};
ghost use Rattle.record_core.specs.Endings.{kv_ended};
ghost use Rattle.tdb_read.specs.Reads.{IsReadRefusal};
ghost use Rattle.tdb_read.specs.Views.{OnlyRead, Ready, area_in, view_of};
ghost use Rattle.tdb_write.specs.Changes.{Changes, HasSpaceFor, IsCopyRefusal, IsReserved, KeepsPlaces, MakesRoom, unchanged};
ghost use Rattle.tdb_write.specs.Copying.{IsRenewed, HasTurned};
ghost use Rattle.tdb_write.specs.Writing.{FitsBehind};

use crate::collect::{complete, copy_live};
use flash_core::Flash;
use kv_model::KvError;
use tdb_read::MountedLog;

// Whether a record of this size fits between the log's end and the area's.
pub(crate) fn fits_behind<F: Flash>(log: &MountedLog<F>, size: u32) -> bool
    requires ready { Ready F.state log.now }
    ensures { result ≡ nat_le (log.now.end + size)
        (end_of (area_in (F.state log.now.flash).geometry (view_of F.state log.now).log)) }
{
    let area = log.area();
    size <= area.base + area.size - log.end
}

// Collects the log: the records that count are copied to the other area, which then is the log.
fn collect_log<F: Flash>(log: &mut MountedLog<F>) -> Result<(), KvError>
    requires ready { Ready F.state log.old }
    ensures changes { Changes (view_of F.state log.old) (view_of F.state log.new) unchanged
        (IsRenewed log.old.hash_bits unchanged) (kv_ended result) }
    ensures refusal { IfErr result
        (IsCopyRefusal (F.state log.old.flash) (F.state log.new.flash)) }
    ensures turned { OnOk result (HasTurned (view_of F.state log.old).log
        (view_of F.state log.new).log) }
    ensures places { OnOk result (KeepsPlaces (view_of F.state log.old)
        (view_of F.state log.new)) }
{
    let end = copy_live(log)?;
    complete(log, end)
}

/// Makes room for a record of `size` bytes, where the map's records and this one fit in an area: it
/// collects the log where its tail is dirty or too short, and else does nothing, in neither area.
/// Keys keep their places in the table. A device that tells nothing may leave too little; the
/// refusal is then `Corrupt`, as for a record that does not match.
pub fn make_room<F: Flash>(log: &mut MountedLog<F>, size: u32) -> Result<(), KvError>
    requires ready { Ready F.state log.old }
    requires space { HasSpaceFor (view_of F.state log.old) size }
    ensures changes { Changes (view_of F.state log.old) (view_of F.state log.new) unchanged
        (MakesRoom (view_of F.state log.old) size) (kv_ended result) }
    ensures refusal { IfErr result
        (IsCopyRefusal (F.state log.old.flash) (F.state log.new.flash)) }
    ensures clean { OnOk result (IsTrue log.new.is_clean) }
    ensures room { OnOk result (FitsBehind (view_of F.state log.new) size) }
    ensures places { OnOk result (KeepsPlaces (view_of F.state log.old)
        (view_of F.state log.new)) }
    ensures count { OnOk result (length log.new.table.entries ≡ length log.old.table.entries) }
    ensures reserved { IsReserved (view_of F.state log.old).log
        → OnOk result (IsReserved (view_of F.state log.new).log) }
{
    if log.is_clean && fits_behind(log, size) {
        return Ok(());
    }
    collect_log(log)?;
    if fits_behind(log, size) {
        Ok(())
    } else {
        Err(KvError::Corrupt {
            stored: 0,
            computed: 1,
        })
    }
}
