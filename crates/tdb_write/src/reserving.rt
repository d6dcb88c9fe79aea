// Room for one entry more, before anything is written.
ghost use Rattle.std.specs.Prelude.{◌≡◌, ◌+◌, ◌<◌, ◌^◌, length, IfErr, IsOk, OnOk};
ghost use Rattle.kv_model.specs.declared.error.KvError.TheVariants.{Memory};
ghost use Rattle.tdb_read.specs.Views.{Ready, view_of};
ghost use Rattle.tdb_write.specs.Changes.{IsReserved, KeepsPlaces, SameButRoom};

use flash_core::Flash;
use kv_model::KvError;
use tdb_read::MountedLog;

/// Makes room for one entry more in the log's table and in that of a copy, so that a set and a
/// collection before it take no memory. It refuses with `Memory` alone, never where there was room,
/// and changes nothing but the room.
pub fn reserve<F: Flash>(log: &mut MountedLog<F>) -> Result<(), KvError>
    requires ready { Ready F.state log.old }
    ensures ready { Ready F.state log.new }
    ensures flash { log.new.flash ≡ log.old.flash }
    ensures memory { SameButRoom (view_of F.state log.old).log (view_of F.state log.new).log }
    ensures places { KeepsPlaces (view_of F.state log.old) (view_of F.state log.new) }
    ensures reserved { OnOk result (IsReserved (view_of F.state log.new).log) }
    ensures wanting { IfErr result (λ e. e ≡ Memory) }
    ensures had { IsReserved (view_of F.state log.old).log
        → length log.old.table.entries + 1 < 2 ^ 32 → IsOk result }
{
    let Some(wanted) = log.table.len().checked_add(1) else {
        return Err(KvError::Memory);
    };
    let missing = wanted.saturating_sub(log.spare.len());
    if log.table.reserve_one().is_err() {
        return Err(KvError::Memory);
    }
    match log.spare.reserve(missing) {
        Ok(()) => Ok(()),
        Err(_) => Err(KvError::Memory),
    }
}
