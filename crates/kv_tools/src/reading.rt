// Reads of a device that fails no read.
ghost use Rattle.std.specs.Prelude.{◌≡◌, ◌↔◌, ◌-◌, ◌≤◌, IsTrue, IfSome};
ghost use Rattle.std.specs.Option.{ForSome};
ghost use Rattle.flash_core.specs.Calls.{OnlyReads};
ghost use Rattle.flash_core.specs.Images.{IsErased};
ghost use Rattle.flash_core.specs.Sizes.{size_of};
ghost use Rattle.record_core.specs.Mounts.{MasterAt, active_area};
ghost use Rattle.record_core.specs.Reading.{IsFitting, RecordAt};
ghost use Rattle.record_core.specs.Written.{IsArea};
ghost use Rattle.area_log.specs.Areas.{IsAreaOf, IsIn, end_of};
ghost use Rattle.kv_tools.specs.Reading.{CanRead};

use area_log::Area;
use flash_core::Flash;
use kv_model::Key;
use record_core::{Header, read_master, read_record};

/// At least the largest program unit.
pub(crate) const WORK_SIZE: usize = 4_096;

/// A key to read others into.
pub(crate) fn any_key() -> Key {
    match Key::new(b"-") {
        Ok(key) => key,
        Err(_) => unreachable!(),
    }
}

/// The number of the active area, by the versions of the valid ones.
pub(crate) fn active_number(first: Option<u16>, second: Option<u16>) -> Option<u8>
    ensures active { result ≡ active_area first second }
    ensures number { IfSome result (λ number. number ≤ 1) }
{
    match (first, second) {
        (None, None) => None,
        (Some(_), None) => Some(0),
        (None, Some(_)) => Some(1),
        (Some(first), Some(second)) => {
            if second == first.wrapping_add(1) {
                Some(1)
            } else {
                Some(0)
            }
        }
    }
}

/// The version of the master record that begins an area, if one does.
pub(crate) fn master_at<F: Flash>(flash: &mut F, area: u32, work: &mut [u8]) -> Option<u16>
    requires can { CanRead (F.state flash.old) work.old }
    requires area { IsArea (F.state flash.old).geometry area }
    ensures reads { OnlyReads (F.state flash.old) (F.state flash.new) }
    ensures found { ForSome (F.state flash.old).image
        (λ image. MasterAt (F.state flash.old).geometry.prog image area result) }
{
    match read_master(flash, area, work) {
        Ok(version) => version,
        Err(_) => unreachable!(),
    }
}

/// The header of the record at a place that ends at or before this end, and its key, if one does.
pub(crate) fn header_at<F: Flash>(
    flash: &mut F,
    place: u32,
    end: u32,
    key: &mut Key,
    work: &mut [u8],
) -> Option<Header>
    requires can { CanRead (F.state flash.old) work.old }
    requires from { place ≤ end }
    requires to { end ≤ size_of (F.state flash.old).geometry }
    ensures reads { OnlyReads (F.state flash.old) (F.state flash.new) }
    ensures found { ForSome (F.state flash.old).image (λ image.
        RecordAt (F.state flash.old).geometry.prog image place end key.new result) }
    ensures fitting { IfSome result
        (IsFitting (F.state flash.old).geometry.prog place end key.new) }
{
    match read_record(flash, place, end, key, work) {
        Ok(found) => found,
        Err(_) => unreachable!(),
    }
}

/// Whether each byte from a place of an area to its end is 0xFF.
pub(crate) fn is_clean_from<F: Flash>(
    flash: &mut F,
    area: &Area,
    place: u32,
    work: &mut [u8],
) -> bool
    requires can { CanRead (F.state flash.old) work.old }
    requires area { IsAreaOf (F.state flash.old).geometry area.now }
    requires inside { IsIn area.now place }
    ensures reads { OnlyReads (F.state flash.old) (F.state flash.new) }
    ensures clean { ForSome (F.state flash.old).image (λ image.
        IsTrue result ↔ IsErased image place (end_of area.now - place)) }
{
    match area.tail_is_erased(flash, place, work) {
        Ok(is_erased) => is_erased,
        Err(_) => unreachable!(),
    }
}
