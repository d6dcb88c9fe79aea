//! Collection.
ghost use Rattle.std.specs.Prelude.{◌≡◌, ◌≢◌, ◌⊎◌, ◌+◌, ◌<◌, ◌≤◌, [], List, length, IfOk, IfErr, Some};
ghost use Rattle.std.specs.Option.{ForSome};
ghost use Rattle.kv_model.specs.Write.{Write};
ghost use Rattle.area_collect.specs.Kept.{KeepsMap};
ghost use Rattle.std.specs.List.{remove};
ghost use Rattle.flash_core.specs.Erases.{erased_from};
ghost use Rattle.flash_core.specs.Moments.{Within};
ghost use Rattle.flash_core.specs.Runs.{RunsBy};
ghost use Rattle.flash_core.specs.Sizes.{IsValid, area_size};
ghost use Rattle.flash_core.specs.State.{OnImage};
ghost use Rattle.kv_model.specs.declared.error.KvError.TheVariants.{WriteFault};
ghost use Rattle.record_core.specs.Endings.{kv_ended};
ghost use Rattle.record_core.specs.Renewal.{FillsArea};
ghost use Rattle.area_log.specs.Areas.{CanWork, first_place, IsAreaOf};
ghost use Rattle.ram_table.specs.Table.{KeepsRoom};
ghost use Rattle.area_collect.specs.Copies.{AreIn, IsNotCopied, IsRoute};
ghost use Rattle.area_collect.specs.Collection.{CanCopy, Collects, HasCopied, copy_of, number_of, with_master};
ghost use Rattle.area_collect.specs.Payload.{IsFault};

use crate::entries::{Route, copy_entries};
use area_log::Area;
use flash_core::{Flash, erase_units};
use kv_model::KvError;
use ram_table::RamTable;
use record_core::{size_of_record, write_master};

// The sizes of a master record's key and value.
const MASTER_KEY_SIZE: u32 = 4;

const MASTER_VALUE_SIZE: u32 = 8;

// Takes all entries out of a table, whose room for entries stays.
fn empty(table: &mut RamTable)
    ensures entries { table.new.entries ≡ [] }
    ensures room { table.new.spare ≡ length table.old.entries + table.old.spare }
{
    while table.len() > 0 {
        table.remove(table.len() - 1);
    }
}

// Erases the units of an area in ascending order. The answer is the place of its first record.
fn erase_area<F: Flash>(flash: &mut F, to: &Area) -> Result<u32, KvError>
    requires valid { IsValid (F.state flash.old).geometry }
    requires area { IsAreaOf (F.state flash.old).geometry to.now }
    ensures runs { RunsBy (F.state flash.old) (F.state flash.new)
        (FillsArea (F.state flash.old).geometry (number_of to.now)) (kv_ended result) }
    ensures fault { IfErr result (λ e. e ≡ WriteFault) }
    ensures place { IfOk result (λ place. place ≡ first_place (F.state flash.old).geometry to.now) }
    ensures erased { OnImage (F.state flash.old).image result (λ image. (F.state flash.new).image
        ≡ Some (erased_from image to.now.base (area_size (F.state flash.old).geometry))) }
{
    let geometry = flash.geometry();
    match erase_units(flash, to.base, geometry.units_per_area) {
        Ok(()) => {
            let master = size_of_record(geometry.prog, MASTER_KEY_SIZE, MASTER_VALUE_SIZE);
            Ok(to.base + master)
        }
        Err(_) => Err(KvError::WriteFault),
    }
}

/// Copies the records of a table's entries from one area of a device to the other and makes that
/// one the active area: its units are erased in ascending order, the records are copied in the
/// table's order behind the place of the master record, each payload before its header, and the
/// master record of this version comes last. The answer is the place behind the last copy. `spare`
/// is emptied and filled with the new places. An empty table gives an area without records. No
/// memory is taken.
///
/// `ReadFault` and `WriteFault` come only where that count of the device rose, `ReadFault` on no
/// steady device and neither on a sound one. `Corrupt` comes exactly where at an entry's place no
/// header is read of a record that ends in both areas, with the CRC that was read and its
/// complement, or where the CRC is not that of the payload that was read, with both. Until the
/// master record's header is programmed its place reads 0xFF. At each moment nothing outside the
/// area that is copied to differs. `work` has at least 64 bytes and at least a program unit.
pub fn collect<F: Flash>(
    flash: &mut F,
    from: &Area,
    to: &Area,
    version: u16,
    table: &RamTable,
    spare: &mut RamTable,
    work: &mut [u8],
) -> Result<u32, KvError>
    requires can { CanWork (F.state flash.old).geometry to.now work.old }
    requires from { IsAreaOf (F.state flash.old).geometry from.now }
    requires apart { from.now.base ≢ to.now.base }
    requires entries { AreIn from.now table.now.entries }
    requires room { length table.now.entries ≤ length spare.old.entries + spare.old.spare }

    ensures runs { RunsBy (F.state flash.old) (F.state flash.new)
        (Collects (F.state flash.old) (copy_of from.now to.now table.now.entries) version)
        (kv_ended result) }
    ensures within { RunsBy (F.state flash.old) (F.state flash.new)
        (Within to.now.base (area_size (F.state flash.old).geometry)) (kv_ended result) }
    // where the image mounts to a map and the entries are those of its keys, it mounts to that map
    // at each moment, as far as chance goes, and behind Ok
    ensures keeps { RunsBy (F.state flash.old) (F.state flash.new)
        (KeepsMap (F.state flash.old) (copy_of from.now to.now table.now.entries) version)
        (kv_ended result) }
    ensures cause { IfErr result (λ e. IsFault e ⊎ IsNotCopied (F.state flash.old)
        (copy_of from.now to.now table.now.entries)
        (first_place (F.state flash.old).geometry to.now) e) }
    // where the image is told and the records stand in it, nothing but a fault refuses
    ensures told { ForSome (F.state flash.old).image (λ image. (records : List Write)
        → CanCopy (F.state flash.old).geometry image
        (copy_of from.now to.now table.now.entries) records → IfErr result IsFault) }
    ensures copied { IfOk result (λ end. HasCopied (F.state flash.old) (F.state flash.new)
        (copy_of from.now to.now table.now.entries)
        (record { end = end; entries = spare.new.entries })
        (with_master (F.state flash.old).geometry to.now version)) }
    ensures room { KeepsRoom spare.old spare.new }
{
    let route = Route {
        from: *from,
        to: *to,
    };
    empty(spare);
    let start = erase_area(flash, to)?;
    let end = copy_entries(flash, route, table, 0, table.len(), start, spare, work)?;
    write_master(flash, to.base, version, work)?;
    Ok(end)
}

/// Erases the units of an area in ascending order, and takes all entries out of `spare`. The answer
/// is the place of the area's first record. `WriteFault` alone is refused with, only where that
/// count of the device rose, and nothing is read. With a master record behind it the map is empty.
pub fn clear<F: Flash>(flash: &mut F, to: &Area, spare: &mut RamTable) -> Result<u32, KvError>
    requires valid { IsValid (F.state flash.old).geometry }
    requires area { IsAreaOf (F.state flash.old).geometry to.now }
    ensures runs { RunsBy (F.state flash.old) (F.state flash.new)
        (FillsArea (F.state flash.old).geometry (number_of to.now)) (kv_ended result) }
    ensures fault { IfErr result (λ e. e ≡ WriteFault) }
    ensures place { IfOk result (λ place. place ≡ first_place (F.state flash.old).geometry to.now) }
    ensures erased { OnImage (F.state flash.old).image result (λ image. (F.state flash.new).image
        ≡ Some (erased_from image to.now.base (area_size (F.state flash.old).geometry))) }
    ensures entries { spare.new.entries ≡ [] }
    ensures room { KeepsRoom spare.old spare.new }
{
    empty(spare);
    erase_area(flash, to)
}

/// Does what `collect` does, but for the master record: so the area that is copied from stays the
/// active one, until a master record is written.
pub fn copy_all<F: Flash>(
    flash: &mut F,
    from: &Area,
    to: &Area,
    table: &RamTable,
    spare: &mut RamTable,
    work: &mut [u8],
) -> Result<u32, KvError>
    requires can { CanWork (F.state flash.old).geometry to.now work.old }
    requires from { IsAreaOf (F.state flash.old).geometry from.now }
    requires apart { from.now.base ≢ to.now.base }
    requires entries { AreIn from.now table.now.entries }
    requires room { length table.now.entries ≤ length spare.old.entries + spare.old.spare }

    ensures runs { RunsBy (F.state flash.old) (F.state flash.new)
        (FillsArea (F.state flash.old).geometry (number_of to.now)) (kv_ended result) }
    ensures cause { IfErr result (λ e. IsFault e ⊎ IsNotCopied (F.state flash.old)
        (copy_of from.now to.now table.now.entries)
        (first_place (F.state flash.old).geometry to.now) e) }
    // where the image is told and the records stand in it, nothing but a fault refuses
    ensures told { ForSome (F.state flash.old).image (λ image. (records : List Write)
        → CanCopy (F.state flash.old).geometry image
        (copy_of from.now to.now table.now.entries) records → IfErr result IsFault) }
    ensures copied { IfOk result (λ end. HasCopied (F.state flash.old) (F.state flash.new)
        (copy_of from.now to.now table.now.entries)
        (record { end = end; entries = spare.new.entries }) (λ image. image)) }
    ensures room { KeepsRoom spare.old spare.new }
{
    let route = Route {
        from: *from,
        to: *to,
    };
    let start = clear(flash, to, spare)?;
    copy_entries(flash, route, table, 0, table.len(), start, spare, work)
}

/// Does what `collect` does for all entries but the one at `left_out`, and writes no master record:
/// so the area that is copied from stays the active one, until a master record is written.
pub fn copy_without<F: Flash>(
    flash: &mut F,
    from: &Area,
    to: &Area,
    table: &RamTable,
    spare: &mut RamTable,
    left_out: u32,
    work: &mut [u8],
) -> Result<u32, KvError>
    requires can { CanWork (F.state flash.old).geometry to.now work.old }
    requires from { IsAreaOf (F.state flash.old).geometry from.now }
    requires apart { from.now.base ≢ to.now.base }
    requires entries { AreIn from.now table.now.entries }
    requires room { length table.now.entries ≤ length spare.old.entries + spare.old.spare }
    requires left_out { left_out < length table.now.entries }

    ensures runs { RunsBy (F.state flash.old) (F.state flash.new)
        (FillsArea (F.state flash.old).geometry (number_of to.now)) (kv_ended result) }
    ensures within { RunsBy (F.state flash.old) (F.state flash.new)
        (Within to.now.base (area_size (F.state flash.old).geometry)) (kv_ended result) }
    ensures cause { IfErr result (λ e. IsFault e ⊎ IsNotCopied (F.state flash.old)
        (copy_of from.now to.now (remove table.now.entries left_out))
        (first_place (F.state flash.old).geometry to.now) e) }
    // where the image is told and the records stand in it, nothing but a fault refuses
    ensures told { ForSome (F.state flash.old).image (λ image. (records : List Write)
        → CanCopy (F.state flash.old).geometry image
        (copy_of from.now to.now (remove table.now.entries left_out)) records
        → IfErr result IsFault) }
    ensures copied { IfOk result (λ end. HasCopied (F.state flash.old) (F.state flash.new)
        (copy_of from.now to.now (remove table.now.entries left_out))
        (record { end = end; entries = spare.new.entries }) (λ image. image)) }
    ensures room { KeepsRoom spare.old spare.new }
{
    let route = Route {
        from: *from,
        to: *to,
    };
    let last = table.len();
    empty(spare);
    let start = erase_area(flash, to)?;
    let end = copy_entries(flash, route, table, 0, left_out, start, spare, work)?;
    copy_entries(flash, route, table, left_out + 1, last, end, spare, work)
}
