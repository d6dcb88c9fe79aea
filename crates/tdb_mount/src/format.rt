//! Formatting the first area of a device.
ghost use Rattle.std.specs.Prelude.{◌≡◌, ◌≤◌, length, IfErr, Some};
ghost use Rattle.flash_core.specs.Moments.{Within};
ghost use Rattle.flash_core.specs.Runs.{RunsBy};
ghost use Rattle.flash_core.specs.Sizes.{IsValid, area_size};
ghost use Rattle.flash_core.specs.State.{OnImage};
ghost use Rattle.kv_model.specs.declared.error.KvError.TheVariants.{WriteFault};
ghost use Rattle.record_core.specs.Endings.{kv_ended};
ghost use Rattle.tdb_mount.specs.Format.{Formats, first_erased, formatted};

use flash_core::{Flash, erase_units};
use kv_model::KvError;
use record_core::write_master;

const FIRST_VERSION: u16 = 1;

// Erases the first area, a unit at a time.
fn erase_first<F: Flash>(flash: &mut F) -> Result<(), KvError>
    requires { IsValid (F.state flash.old).geometry }
    ensures runs { RunsBy (F.state flash.old) (F.state flash.new)
        (Formats (F.state flash.old).geometry) (kv_ended result) }
    ensures fault { IfErr result (λ e. e ≡ WriteFault) }
    ensures erased { OnImage (F.state flash.old).image result (λ image.
        (F.state flash.new).image ≡ Some (first_erased (F.state flash.old).geometry image)) }
{
    let units = flash.geometry().units_per_area;
    match erase_units(flash, 0, units) {
        Ok(()) => Ok(()),
        Err(_) => Err(KvError::WriteFault),
    }
}

/// Erases the first area's units in ascending order and then writes a master record of version 1 at
/// its start. `WriteFault` comes only where the count of write faults rose. At each moment, and
/// after a fault, nothing outside the area differs.
pub fn format<F: Flash>(flash: &mut F, work: &mut [u8]) -> Result<(), KvError>
    requires valid { IsValid (F.state flash.old).geometry }
    requires unit { (F.state flash.old).geometry.prog ≤ length work.old }
    requires least { 64 ≤ length work.old }
    ensures runs { RunsBy (F.state flash.old) (F.state flash.new)
        (Formats (F.state flash.old).geometry) (kv_ended result) }
    ensures within { RunsBy (F.state flash.old) (F.state flash.new)
        (Within 0 (area_size (F.state flash.old).geometry)) (kv_ended result) }
    ensures fault { IfErr result (λ e. e ≡ WriteFault) }
    ensures formatted { OnImage (F.state flash.old).image result (λ image.
        (F.state flash.new).image ≡ Some (formatted (F.state flash.old).geometry image)) }
{
    erase_first(flash)?;
    write_master(flash, 0, FIRST_VERSION, work)
}
