// Whether the map's records and one more fit in an area.
ghost use Rattle.std.specs.Prelude.{◌≡◌, ◌⊎◌, ◌<◌, ◌^◌, length, IfOk, MatchResult};
ghost use Rattle.record_core.specs.Log.{extent};
ghost use Rattle.tdb_read.specs.Reads.{IsReadRefusal, OfRecord, offset_in};
ghost use Rattle.tdb_read.specs.Views.{OnlyRead, Ready, view_of};
ghost use Rattle.tdb_write.specs.Changes.{HasSpaceFor, IsFull};
ghost use Rattle.tdb_write.specs.Space.{IsLiveSize};

use crate::room::fits_behind;
use flash_core::Flash;
use kv_model::KvError;
use record_core::{read_header_at, size_of_record};
use tdb_read::MountedLog;

// The sizes of a master record's key and value.
const MASTER_KEY_SIZE: u32 = 4;

const MASTER_VALUE_SIZE: u32 = 8;

// What the record of the table's entry at a place takes, by its header.
fn size_at<F: Flash>(log: &mut MountedLog<F>, at: u32) -> Result<u32, KvError>
    requires ready { Ready F.state log.old }
    requires inside { at < length log.old.table.entries }
    ensures ready { Ready F.state log.new }
    ensures reads { OnlyRead F.state log.old log.new }
    ensures size { MatchResult result
        (λ size. OfRecord (F.state log.old.flash) (offset_in (view_of F.state log.old).log at)
        (λ r. size ≡ extent (F.state log.old.flash).geometry.prog r))
        (IsReadRefusal (F.state log.old.flash) (F.state log.new.flash)) }
{
    let prog = log.flash.geometry().prog;
    let area = log.area();
    let place = log.table.entry(at).1;
    let header = read_header_at(&mut log.flash, place, area.base + area.size)?;
    Ok(size_of_record(prog, u32::from(header.key_size), header.value_size))
}

// What the records of the table's entries take, by their headers.
fn live_size<F: Flash>(log: &mut MountedLog<F>) -> Result<u32, KvError>
    requires ready { Ready F.state log.old }
    ensures ready { Ready F.state log.new }
    ensures reads { OnlyRead F.state log.old log.new }
    ensures size { MatchResult result (IsLiveSize (view_of F.state log.old))
        (IsReadRefusal (F.state log.old.flash) (F.state log.new.flash)) }
{
    let mut sum: u32 = 0;
    for at in 0..log.table.len() {
        let size = size_at(log, at)?;
        sum = sum.saturating_add(size);
    }
    Ok(sum)
}

/// Whether the records of the map and one more of `size` bytes fit in an area. Where the log's tail
/// holds so many bytes they do, and nothing is read; else the headers of the map's records are. The
/// refusal `MediaFull` has what they would take and what an area has.
pub fn check_room<F: Flash>(log: &mut MountedLog<F>, size: u32) -> Result<(), KvError>
    requires ready { Ready F.state log.old }
    requires size { size < 2 ^ 31 }
    ensures ready { Ready F.state log.new }
    ensures reads { OnlyRead F.state log.old log.new }
    ensures room { MatchResult result (λ _. HasSpaceFor (view_of F.state log.old) size)
        (λ e. IsFull (view_of F.state log.old) size e
        ⊎ IsReadRefusal (F.state log.old.flash) (F.state log.new.flash) e) }
{
    if fits_behind(log, size) {
        return Ok(());
    }
    let need = live_size(log)?.saturating_add(size);
    let prog = log.flash.geometry().prog;
    let room = log.area().size - size_of_record(prog, MASTER_KEY_SIZE, MASTER_VALUE_SIZE);
    if need <= room {
        Ok(())
    } else {
        Err(KvError::MediaFull { need, room })
    }
}
