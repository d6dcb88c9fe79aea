// A mounted log: how it comes to be, and its look-ups.
ghost use Rattle.std.specs.Prelude.{◌≡◌, Option, ◌+◌, ◌<◌, ◌≤◌, length, IfOk, IfErr, OnErr, Err, MatchResult};
ghost use Rattle.flash_core.specs.Sizes.{IsValid};
ghost use Rattle.kv_model.specs.Given.{AreZerosFrom, read_end};
ghost use Rattle.kv_model.specs.Kv.{IsLawful};
ghost use Rattle.kv_model.specs.PlainStep.{plain_rules};
ghost use Rattle.kv_model.specs.StoreState.{OpenSet};
ghost use Rattle.area_log.specs.Areas.{IsAreaOf};
ghost use Rattle.area_log.specs.Reading.{IsWithin};
ghost use Rattle.tdb_mount.specs.declared.mount.MountError.TheVariants.{BadGeometry};
ghost use Rattle.tdb_read.specs.Mounting.{IsMounted, IsUnmounted};
ghost use Rattle.tdb_read.specs.Reads.{Finds, GivesHeader, GivesValue, IsChecked, IsHeadOf, LooksUp, offset_in};
ghost use Rattle.tdb_read.specs.States.{kv_state};
ghost use Rattle.tdb_read.specs.Views.{OnlyRead, Ready, area_in, view_of};

use area_log::{Area, PlacedHeader};
use flash_core::Flash;
use kv_iters::Iters;
use kv_model::{Got, Key, KvError};
use ram_table::{Place, RamTable};
use record_core::{Header, read_header_at};
use std::alloc::Global;
use tdb_mount::{MountError, area_at, look_up, mount_parts, place_of};

// At least the largest program unit.
const WORK_SIZE: usize = 4_096;

/// The log of a plain store, with its device and what is kept of it in memory. Places and sizes are
/// in bytes.
#[derive(Drop)]
pub struct MountedLog<F: Flash> {
    pub alloc: Global,
    pub flash: F,
    /// How many low bits of a key's CRC are its hash, at most 32.
    pub hash_bits: u8,
    /// The number of the active area, 0 or 1.
    pub active: u8,
    /// The version of its master record.
    pub version: u16,
    /// The place behind its last record.
    pub end: u32,
    /// Whether each byte from there to the area's end is 0xFF.
    pub is_clean: bool,
    /// For each key, in the order of keys, its hash and the place of its last record.
    pub table: RamTable,
    /// Room for the table of a copy.
    pub spare: RamTable,
    /// The iterators that are active.
    pub iterators: Iters,
    /// A buffer of 4,096 bytes.
    pub work: Vec<u8>,
    /// A buffer of one program unit, for what an incremental set has not programmed yet.
    pub unit: Vec<u8>,
}

// The work buffer and the buffer of one program unit.
fn buffers(alloc: Global, prog: u32) -> Result<(Vec<u8>, Vec<u8>), MountError>
    ensures work { IfOk result (λ both. length both.0.items ≡ 4096) }
    ensures unit { IfOk result (λ both. length both.1.items ≡ prog) }
    ensures memory { OnErr result (result ≡ Err MountError.Memory) }
{
    let Ok(work) = vec![in alloc; 0u8; WORK_SIZE] else {
        return Err(MountError::Memory);
    };
    let Ok(unit) = vec![in alloc; 0u8; prog as usize] else {
        return Err(MountError::Memory);
    };
    Ok((work, unit))
}

impl<F: Flash> MountedLog<F> {
    /// Mounts a device, as `mount_parts` does, with hashes of `hash_bits` bits, at most 32. It takes
    /// memory: what that takes, a work buffer and a buffer of one program unit. A log that was
    /// mounted stands for the map of the device's image, at each moment of the mount, too, as far
    /// as the moments of a format do.
    pub fn mount(
        alloc: Global,
        mut flash: F,
        hash_bits: u8,
    ) -> Result<MountedLog<F>, (F, MountError)>
        requires bits { hash_bits ≤ 32 }
        ensures mounted { MatchResult result
            (λ log. IsMounted (F.state flash) hash_bits (view_of F.state log))
            (λ refused. IsUnmounted (F.state flash) (F.state refused.0) refused.1) }
        ensures bad_geometry { (IsValid (F.state flash).geometry → ⊥)
            → IfErr result (λ refused. (refused.1 ≡ BadGeometry) × (refused.0 ≡ flash)) }
    {
        match mount_parts(alloc, &mut flash, hash_bits) {
            Ok(parts) => match buffers(alloc, flash.geometry().prog) {
                Ok((work, unit)) => Ok(MountedLog {
                    alloc,
                    flash,
                    hash_bits,
                    active: parts.active,
                    version: parts.version,
                    end: parts.end,
                    is_clean: parts.clean,
                    table: parts.table,
                    spare: parts.spare,
                    iterators: Iters::new(alloc),
                    work,
                    unit,
                }),
                Err(error) => Err((flash, error)),
            },
            Err(error) => Err((flash, error)),
        }
    }

    /// Mounts the device anew.
    pub fn remount(self) -> Result<MountedLog<F>, (F, MountError)>
        requires bits { self.hash_bits ≤ 32 }
        ensures mounted { MatchResult result
            (λ log. IsMounted (F.state self.flash) self.hash_bits (view_of F.state log))
            (λ refused. IsUnmounted (F.state self.flash) (F.state refused.0) refused.1) }
        ensures bad_geometry { (IsValid (F.state self.flash).geometry → ⊥)
            → IfErr result (λ refused. (refused.1 ≡ BadGeometry) × (refused.0 ≡ self.flash)) }
    {
        let alloc = self.alloc;
        let hash_bits = self.hash_bits;
        MountedLog::mount(alloc, self.into_flash(), hash_bits)
    }

    /// Lends the device. What a log is as a store is lawful, whatever set is active beside it.
    pub fn flash(&self) -> &F
        ensures device { result.now ≡ self.now.flash }
        ensures lawful { Ready F.state self.now → (set : Option OpenSet)
            → IsLawful plain_rules (kv_state (view_of F.state self.now) set) }
    {
        &self.flash
    }

    /// Gives back the device. It takes no memory.
    pub fn into_flash(self) -> F
        ensures { result ≡ self.flash }
    {
        self.flash
    }

    /// The active area.
    pub fn area(&self) -> Area
        requires ready { Ready F.state self.now }
        ensures area { result
            ≡ area_in (F.state self.now.flash).geometry (view_of F.state self.now).log }
        ensures is_area { IsAreaOf (F.state self.now.flash).geometry result }
    {
        area_at(self.flash.geometry(), self.active)
    }

    /// Where a key stands in the table, or would stand, by halving. It refuses with a read that
    /// failed, or with a header that does not match, which no device that tells its image shows.
    pub fn find(&mut self, key: &Key) -> Result<Place, KvError>
        requires ready { Ready F.state self.old }
        ensures ready { Ready F.state self.new }
        ensures reads { OnlyRead F.state self.old self.new }
        ensures finds { Finds (view_of F.state self.old) (view_of F.state self.new) key.now result }
    {
        let area = self.area();
        place_of(&self.table, &mut self.flash, area, self.hash_bits, key)
    }

    /// Looks for a key, and gives the header of its record where it was found. The header and the
    /// key of each record that the search comes to are read once. It refuses as `find` does.
    pub fn look_up(&mut self, key: &Key) -> Result<Option<PlacedHeader>, KvError>
        requires ready { Ready F.state self.old }
        ensures ready { Ready F.state self.new }
        ensures reads { OnlyRead F.state self.old self.new }
        ensures looks_up { LooksUp (view_of F.state self.old) (view_of F.state self.new) key.now
            result }
    {
        let area = self.area();
        let seen = look_up(&self.table, &mut self.flash, area, self.hash_bits, key)?;
        Ok(seen.head)
    }

    /// Reads the value of a key that was looked up from `offset` on into `buf`, as much as there is
    /// and fits, with zeros behind it and after a refusal. The record's CRC is checked on the way;
    /// its header and its key are not read again.
    pub fn read_value(
        &mut self,
        head: &PlacedHeader,
        key: &Key,
        offset: u32,
        buf: &mut [u8],
    ) -> Result<Got, KvError>
        requires ready { Ready F.state self.old }
        requires head { IsHeadOf (view_of F.state self.old) key.now head.now }
        ensures ready { Ready F.state self.new }
        ensures reads { OnlyRead F.state self.old self.new }
        ensures gives { GivesValue (view_of F.state self.old) (view_of F.state self.new) head.now.at
            offset buf.new result }
        ensures checked { IfOk result (IsChecked (view_of F.state self.old) offset buf.new) }
        ensures within { IfOk result (IsWithin offset (length buf.old)) }
        ensures zeros { AreZerosFrom (read_end result) buf.new }
    {
        let area = self.area();
        area.read_behind(&mut self.flash, head, key, offset, buf, &mut self.work)
    }

    /// Reads the header of the table's entry at a place. The CRC is not looked at.
    pub fn read_header(&mut self, at: u32) -> Result<Header, KvError>
        requires ready { Ready F.state self.old }
        requires inside { at < length self.old.table.entries }
        ensures ready { Ready F.state self.new }
        ensures reads { OnlyRead F.state self.old self.new }
        ensures gives { GivesHeader (view_of F.state self.old) (view_of F.state self.new)
            (offset_in (view_of F.state self.old).log at) result }
    {
        let area = self.area();
        let place = self.table.entry(at).1;
        read_header_at(&mut self.flash, place, area.base + area.size)
    }
}
