// What the records of an area stand for.
ghost use Rattle.std.specs.Prelude.{◌≡◌, ◌+◌, ◌≤◌, ◌<◌, ◌^◌, IfOk, OnOk};
ghost use Rattle.std.specs.Option.{ForSome};
ghost use Rattle.flash_core.specs.Calls.{OnlyReads};
ghost use Rattle.flash_core.specs.Sizes.{IsValid};
ghost use Rattle.area_log.specs.Areas.{IsAreaOf, IsEnd};
ghost use Rattle.kv_tools.specs.Reading.{CanRead};
ghost use Rattle.kv_tools.specs.Surveying.{IsSurveyOf};

use crate::live::Live;
use crate::reading::{any_key, header_at};
use area_log::Area;
use base_core::NoMemory;
use flash_core::Flash;
use record_core::{REMOVE, size_of_record};
use std::alloc::Global;

// The sizes of a master record's key and of its value.
const MASTER_KEY_SIZE: u32 = 4;

const MASTER_VALUE_SIZE: u32 = 8;

/// How many records an area has behind its master record, the place behind the last of them, and of
/// the map that they stand for how many keys it has and how many bytes their records take.
#[derive(Clone, Copy)]
pub struct Survey {
    pub records: u32,
    pub end: u32,
    pub live: u32,
    pub used: u32,
}

/// Reads the records of an area, one after another. It refuses for want of memory alone.
pub(crate) fn survey_area<F: Flash>(
    alloc: Global,
    flash: &mut F,
    area: &Area,
    work: &mut [u8],
) -> Result<Survey, NoMemory>
    requires can { CanRead (F.state flash.old) work.old }
    requires is_area { IsAreaOf (F.state flash.old).geometry area.now }
    ensures reads { OnOk result (OnlyReads (F.state flash.old) (F.state flash.new)) }
    ensures end { IfOk result (λ survey.
        IsEnd (F.state flash.old).geometry area.now survey.end) }
    ensures found { ForSome (F.state flash.old).image (λ image. IfOk result
        (IsSurveyOf (F.state flash.old).geometry image area.now)) }
{
    let prog = flash.geometry().prog;
    let limit = area.base + area.size;
    let mut key = any_key();
    let mut place = area.base + size_of_record(prog, MASTER_KEY_SIZE, MASTER_VALUE_SIZE);
    let mut live = Live::new(alloc);
    let mut records = 0;
    while let Some(header) = header_at(flash, place, limit, &mut key, work) {
        let size = size_of_record(prog, u32::from(header.key_size), header.value_size);
        live.take_in(&key, size, header.flags == REMOVE)?;
        records += 1;
        place += size;
    }
    Ok(Survey {
        records,
        end: place,
        live: live.sizes.len() as u32,
        used: live.used,
    })
}
