// Whether a torn chip holds a record by chance, that nobody wrote.
ghost use Rattle.std.specs.Prelude.{◌≡◌, ◌*◌, ◌≤◌, ℕ, List, length, IsTrue, IsOk, IfOk, IfSome, Some};
ghost use Rattle.std.specs.Int.{is_power_of_two};
ghost use Rattle.flash_core.specs.Sizes.{IsValid, area_size};
ghost use Rattle.kv_model.specs.Write.{Write};
ghost use Rattle.area_log.specs.Areas.{CanWork, IsAreaOf, end_of, first_place};
ghost use Rattle.record_core.specs.Log.{AreAllRecords};
ghost use Rattle.record_core.specs.Mounts.{MasterAt, active_area, master_reads, record_reads};
ghost use Rattle.flash_sim.specs.Views.{view_of};
ghost use Rattle.session_core.specs.Search.{GoesOn, IsChanceIn, IsChanceOf};

use crate::images::{CutImages, with_bytes};
use area_log::Area;
use flash_core::{Flash, Geometry, RecordFlash};
use flash_sim::Chip;
use kv_model::{Key, KvError, NoMemory};
use record_core::{read_master, read_record, size_of_record};
use std::alloc::Global;

// At least the largest program unit.
const WORK_SIZE: usize = 4_096;

// The sizes of a master record's key and of its value.
const MASTER_KEY_SIZE: u32 = 4;

const MASTER_VALUE_SIZE: u32 = 8;

// The area of this number, 0 or 1.
fn area_at(geometry: Geometry, number: u8) -> Area
    requires valid { IsValid geometry }
    requires number { number ≤ 1 }
    ensures area { result ≡ record {
      base = number * area_size geometry;
      size = area_size geometry;
    } }
    ensures is_area { IsAreaOf geometry result }
{
    let size = geometry.units_per_area * geometry.erase;
    Area {
        base: u32::from(number) * size,
        size,
    }
}

// A key to read others into.
fn any_key() -> Key {
    match Key::new(b"-") {
        Ok(key) => key,
        Err(_) => unreachable!(),
    }
}

// The number of the active area, by the versions of the valid ones.
fn active_number(first: Option<u16>, second: Option<u16>) -> Option<u8>
    ensures active { result ≡ active_area first second }
    ensures number { IfSome result (λ number. number ≤ 1) }
{
    match (first, second) {
        (None, None) => None,
        (Some(_), None) => Some(0),
        (None, Some(_)) => Some(1),
        (Some(first), Some(second)) => {
            if second == first.wrapping_add(1) {
                Some(1)
            } else {
                Some(0)
            }
        }
    }
}

// Looks at the master record at this place, where there is one.
fn look_at_master(
    images: &CutImages,
    found: Option<u32>,
    area: u32,
    version: Option<u16>,
    prog: u32,
) -> Option<u32>
    requires prog_is_power { IsTrue (is_power_of_two prog) }
    requires prog_most { prog ≤ 4096 }
    requires master { MasterAt prog images.now.torn.now area version }
    ensures { GoesOn images.now.before.now images.now.after.now found
        (master_reads prog area version) result }
{
    if version.is_none() {
        return found;
    }
    let size = size_of_record(prog, MASTER_KEY_SIZE, MASTER_VALUE_SIZE);
    images.look(found, area, size)
}

// Looks at the records of an area, one after another.
fn look_at_records<F: Flash>(
    flash: &mut F,
    images: &CutImages,
    mut found: Option<u32>,
    area: &Area,
    work: &mut [u8],
) -> Result<Option<u32>, KvError>
    requires can { CanWork (F.state flash.old).geometry area.now work.old }
    requires image { (F.state flash.old).image ≡ Some images.now.torn.now }
    ensures steady { IsTrue (F.state flash.old).steady → IsOk result }
    ensures found { IfOk result (λ last. (records : List Write) × (end : ℕ)
        × AreAllRecords (F.state flash.old).geometry.prog images.now.torn.now
        (first_place (F.state flash.old).geometry area.now) (end_of area.now) end records
        × GoesOn images.now.before.now images.now.after.now found
        (record_reads (F.state flash.old).geometry.prog
        (first_place (F.state flash.old).geometry area.now) records) last) }
{
    let prog = flash.geometry().prog;
    let limit = area.base + area.size;
    let mut key = any_key();
    let mut place = area.base + size_of_record(prog, MASTER_KEY_SIZE, MASTER_VALUE_SIZE);
    while let Some(header) = read_record(flash, place, limit, &mut key, work)? {
        let size = size_of_record(prog, u32::from(header.key_size), header.value_size);
        found = images.look(found, place, size);
        place += size;
    }
    Ok(found)
}

// The first record of the torn image on this device that is there by chance.
fn first_chance<F: Flash>(
    flash: &mut F,
    images: &CutImages,
    work: &mut [u8],
) -> Result<Option<u32>, KvError>
    requires valid { IsValid (F.state flash.old).geometry }
    requires unit { (F.state flash.old).geometry.prog ≤ length work.old }
    requires least { 64 ≤ length work.old }
    requires image { (F.state flash.old).image ≡ Some images.now.torn.now }
    ensures steady { IsTrue (F.state flash.old).steady → IsOk result }
    ensures found { IfOk result (IsChanceIn (F.state flash.old).geometry
        images.now.before.now images.now.after.now images.now.torn.now) }
{
    let geometry = flash.geometry();
    let behind = geometry.units_per_area * geometry.erase;
    let first = read_master(flash, 0, work)?;
    let second = read_master(flash, behind, work)?;
    let found = look_at_master(images, None, 0, first, geometry.prog);
    let found = look_at_master(images, found, behind, second, geometry.prog);
    match active_number(first, second) {
        Some(number) => {
            let area = area_at(geometry, number);
            Ok(look_at_records(flash, images, found, &area, work)?)
        }
        None => Ok(found),
    }
}

/// The place of the first record on this chip that is there by chance at its last tear: a mount of
/// the torn image reads it, and it stands neither in the image before the call that was torn nor in
/// the one behind it when whole. `None` comes exactly where the chip was not torn since power was
/// on, or has no such record. It refuses for want of memory alone.
pub fn chance_of(alloc: Global, chip: &Chip) -> Result<Option<u32>, NoMemory>
    ensures { IfOk result (IsChanceOf (view_of chip.now)) }
{
    let Some(tear) = chip.torn() else {
        return Ok(None);
    };
    let before = with_bytes(alloc, chip.image(), tear.place, &tear.before)?;
    let after = with_bytes(alloc, chip.image(), tear.place, &tear.after)?;
    let images = CutImages {
        torn: chip.image(),
        before: &before,
        after: &after,
    };
    let mut flash = RecordFlash::new(alloc, chip.geometry(), chip.image().to_vec(alloc)?)?;
    let mut work = vec![in alloc; 0; WORK_SIZE]?;
    match first_chance(&mut flash, &images, &mut work) {
        Ok(found) => Ok(found),
        Err(_) => unreachable!(),
    }
}
